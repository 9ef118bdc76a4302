//! What counts the calls of each CPU: a ledger of one part for each. None of this has bytes, except for the number of a
//! CPU.

ghost use Rattle.std.specs.Prelude.{◌≡◌, ◌≢◌, ◌+◌, ◌<◌, List, ℕ, true, false, length, slice_index_or, slice_set, replicate};

use crate::book::Name;
use std::marker::{Model, PhantomData};
use std::sync::ledger::{Blank, Book, Ledger, Share};

/// The ledger of the calls of one CPU. Its one part is that CPU's. No value of it is made.
pub struct CallsOf<N: Name, const CPU: u8> {
    of: PhantomData<N>,
}

impl<N: Name, const CPU: u8> Ledger for CallsOf<N, CPU> {
    ghost use Rattle.std.specs.Prelude.{slice_index_or};

    ghost name = { slice_index_or N.book.ledgers CPU 0 };

    ghost parts = { 1 };
}

/// Eight ledgers that no type names yet. Contracts see their names.
#[derive(Drop)]
pub struct Blanks {
    zero: Blank,
    one: Blank,
    two: Blank,
    three: Blank,
    four: Blank,
    five: Blank,
    six: Blank,
    seven: Blank,
}

impl Model for Blanks {
    ghost use Rattle.std.specs.Prelude.{◌≡◌, List, ℕ, ◌∷◌, [], All};

    ghost Value = { List ℕ };

    ghost view = { λ u. u.zero.name ∷ u.one.name ∷ u.two.name ∷ u.three.name ∷ u.four.name ∷ u.five.name ∷ u.six.name
        ∷ u.seven.name ∷ [] };

    ghost invariant = { λ u. All (λ p. p ≡ 1) (u.zero.parts ∷ u.one.parts ∷ u.two.parts ∷ u.three.parts ∷ u.four.parts
        ∷ u.five.parts ∷ u.six.parts ∷ u.seven.parts ∷ []) };
}

impl Blanks {
    /// Eight ledgers of one part each.
    pub fn new() -> Blanks
        ensures { length result ≡ 8 }
    {
        Blanks {
            zero: Blank::new(1),
            one: Blank::new(1),
            two: Blank::new(1),
            three: Blank::new(1),
            four: Blank::new(1),
            five: Blank::new(1),
            six: Blank::new(1),
            seven: Blank::new(1),
        }
    }

    /// Names the ledgers. Each count is 0, and all parts are in one hand.
    pub fn open<N: Name>(self) -> (Tally<N>, Rest<N>)
        requires { self ≡ N.book.ledgers }
        ensures tally { result.0 ≡ replicate 8 0 }
        ensures rest { (result.1.parts ≡ replicate 8 1) × (result.1.amounts ≡ replicate 8 0) }
    {
        let Blanks {
            zero,
            one,
            two,
            three,
            four,
            five,
            six,
            seven,
        } = self;
        let zero = zero.open::<CallsOf<N, 0>>();
        let one = one.open::<CallsOf<N, 1>>();
        let two = two.open::<CallsOf<N, 2>>();
        let three = three.open::<CallsOf<N, 3>>();
        let four = four.open::<CallsOf<N, 4>>();
        let five = five.open::<CallsOf<N, 5>>();
        let six = six.open::<CallsOf<N, 6>>();
        let seven = seven.open::<CallsOf<N, 7>>();
        (
            Tally {
                zero: zero.0,
                one: one.0,
                two: two.0,
                three: three.0,
                four: four.0,
                five: five.0,
                six: six.0,
                seven: seven.0,
            },
            Rest {
                zero: zero.1,
                one: one.1,
                two: two.1,
                three: three.1,
                four: four.1,
                five: five.1,
                six: six.1,
                seven: seven.1,
            },
        )
    }
}

/// The counts of all CPUs. Contracts see them as a list.
#[derive(Drop)]
pub struct Tally<N: Name> {
    zero: Book<CallsOf<N, 0>>,
    one: Book<CallsOf<N, 1>>,
    two: Book<CallsOf<N, 2>>,
    three: Book<CallsOf<N, 3>>,
    four: Book<CallsOf<N, 4>>,
    five: Book<CallsOf<N, 5>>,
    six: Book<CallsOf<N, 6>>,
    seven: Book<CallsOf<N, 7>>,
}

impl<N: Name> Model for Tally<N> {
    ghost use Rattle.std.specs.Prelude.{List, ℕ, ◌∷◌, []};

    ghost Value = { List ℕ };

    ghost view = { λ t. t.zero.total ∷ t.one.total ∷ t.two.total ∷ t.three.total ∷ t.four.total ∷ t.five.total
        ∷ t.six.total ∷ t.seven.total ∷ [] };
}

/// Shares of the eight ledgers. Contracts see the parts and the amount of each.
#[derive(Drop)]
pub struct Rest<N: Name> {
    zero: Share<CallsOf<N, 0>>,
    one: Share<CallsOf<N, 1>>,
    two: Share<CallsOf<N, 2>>,
    three: Share<CallsOf<N, 3>>,
    four: Share<CallsOf<N, 4>>,
    five: Share<CallsOf<N, 5>>,
    six: Share<CallsOf<N, 6>>,
    seven: Share<CallsOf<N, 7>>,
}

impl<N: Name> Model for Rest<N> {
    ghost use Rattle.std.specs.Prelude.{◌∷◌, []};
    ghost use Rattle.locked_core.specs.Tallies.{Shares};

    ghost Value = { Shares };

    ghost view = { λ r. record {
      parts = r.zero.parts ∷ r.one.parts ∷ r.two.parts ∷ r.three.parts ∷ r.four.parts
          ∷ r.five.parts ∷ r.six.parts ∷ r.seven.parts ∷ [];
      amounts = r.zero.amount ∷ r.one.amount ∷ r.two.amount
          ∷ r.three.amount ∷ r.four.amount ∷ r.five.amount ∷ r.six.amount ∷ r.seven.amount ∷ [];
    } };
}

/// What counts the calls of one CPU. Contracts see its number and its count.
#[derive(Drop)]
pub struct Own<N: Name> {
    number: u8,
    shares: Rest<N>,
}

impl<N: Name> Model for Own<N> {
    ghost use Rattle.std.specs.Prelude.{◌≡◌, ◌<◌, slice_index_or};
    ghost use Rattle.locked_core.specs.Tallies.{OwnCalls};

    ghost Value = { OwnCalls };

    ghost view = { λ o. record { number = o.number; calls = slice_index_or o.shares.amounts o.number 0 } };

    ghost invariant = { λ o. (o.number < 8) × (slice_index_or o.shares.parts o.number 0 ≡ 1) };
}

/// The one part of a ledger, or none of it.
fn part_of<L: Ledger>(rest: &mut Share<L>, is_own: bool) -> Share<L>
    requires { is_own ≡ true → (rest.old.parts ≡ 1) × (rest.old.amount ≡ 0) }
    ensures own { is_own ≡ true → (result.parts ≡ 1) × (result.amount ≡ 0) }
    ensures other { is_own ≡ false → rest.new ≡ rest.old }
{
    if is_own {
        rest.split_off(1, 0)
    } else {
        rest.empty()
    }
}

impl<N: Name> Rest<N> {
    /// The part of one CPU.
    pub fn take(&mut self, number: u8) -> Own<N>
        requires number { number < 8 }
        requires there { (slice_index_or self.old.parts number 0 ≡ 1) × (slice_index_or self.old.amounts number 0 ≡ 0) }
        ensures own { result ≡ record { number = number; calls = 0 } }
        ensures others { (k : ℕ) → k ≢ number → (slice_index_or self.new.parts k 0 ≡ slice_index_or self.old.parts k 0)
            × (slice_index_or self.new.amounts k 0 ≡ slice_index_or self.old.amounts k 0) }
    {
        let Rest {
            zero,
            one,
            two,
            three,
            four,
            five,
            six,
            seven,
        } = self;
        Own {
            number,
            shares: Rest {
                zero: part_of(zero, number == 0),
                one: part_of(one, number == 1),
                two: part_of(two, number == 2),
                three: part_of(three, number == 3),
                four: part_of(four, number == 4),
                five: part_of(five, number == 5),
                six: part_of(six, number == 6),
                seven: part_of(seven, number == 7),
            },
        }
    }
}

impl<N: Name> Tally<N> {
    /// Counts one call more of this CPU.
    pub fn add(&mut self, own: &mut Own<N>)
        ensures total { self.new ≡ slice_set self.old own.old.number (slice_index_or self.old own.old.number 0 + 1) }
        ensures own { own.new ≡ record { number = own.old.number; calls = own.old.calls + 1 } }
    {
        match own.number {
            0 => self.zero.add(&mut own.shares.zero, 1),
            1 => self.one.add(&mut own.shares.one, 1),
            2 => self.two.add(&mut own.shares.two, 1),
            3 => self.three.add(&mut own.shares.three, 1),
            4 => self.four.add(&mut own.shares.four, 1),
            5 => self.five.add(&mut own.shares.five, 1),
            6 => self.six.add(&mut own.shares.six, 1),
            _ => self.seven.add(&mut own.shares.seven, 1),
        }
    }

    /// Changes nothing. The count of a CPU is the one of its share.
    pub fn audit(&mut self, own: &mut Own<N>)
        ensures same { (self.new ≡ self.old) × (own.new ≡ own.old) }
        ensures calls { slice_index_or self.old own.old.number 0 ≡ own.old.calls }
    {
        match own.number {
            0 => self.zero.audit(&mut own.shares.zero),
            1 => self.one.audit(&mut own.shares.one),
            2 => self.two.audit(&mut own.shares.two),
            3 => self.three.audit(&mut own.shares.three),
            4 => self.four.audit(&mut own.shares.four),
            5 => self.five.audit(&mut own.shares.five),
            6 => self.six.audit(&mut own.shares.six),
            _ => self.seven.audit(&mut own.shares.seven),
        }
    }
}
