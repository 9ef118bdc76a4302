//! The history of a core that threads share: the core as it was shared, and then as it was each time that a CPU gave it
//! back. It exists in proofs alone: what is stored is how often it was given back.

ghost use Rattle.std.specs.Prelude.{◌≡◌, ◌+◌, ◌<◌, ◌^◌, ◌++◌, ◌∷◌, [], MatchBool, length, true, false};
ghost use Rattle.core_handover.specs.Histories.{Begins, given, head_of, last_core};

use crate::given::Given;
use kernel_calls::Core;
use logbook::{Gain, Offer, Opening, Plain, Play, Rule, Seen, Start, Word};
use std::marker::Model;

/// How often a core may be given back: far more often than any run does.
const MOST: u64 = 1 << 62;

/// The rule of the history.
pub struct Law;

impl Rule<Given, u64> for Law {
    ghost use Rattle.std.specs.Prelude.{[]};
    ghost use base.Fml.{ftrue};
    ghost use Rattle.core_handover.specs.Histories.{CellsHold};

    ghost holds = { λ cells log. CellsHold cells log };

    ghost first = { [] };

    ghost hinted = { λ n log. Unit {0} };

    ghost shows = { λ log. [] };

    ghost keeps = { λ names log. ftrue };

    ghost moves = { λ ask before after answer. Unit {0} };
}

/// The history begins with the core as it was shared.
pub struct First;

impl Opening<Core, Given> for First {
    ghost use Rattle.std.specs.Prelude.{◌∷◌, []};
    ghost use Rattle.core_handover.specs.Histories.{given};

    ghost log = { λ count core. given core ∷ [] };
}

/// Threads trade nothing.
pub struct Nothing;

impl Gain<Given, u64> for Nothing {
    ghost use base.Fml.{ftrue};

    ghost after = { λ names about answer. ftrue };
}

/// A step that adds the core that is given back.
pub struct Add;

impl Play<Given, u64> for Add {
    ghost use Rattle.core_handover.specs.Histories.{Adds};

    ghost then = { Adds };
}

impl Plain<Core, Given, u64> for Add {
    ghost use Rattle.std.specs.Prelude.{None};
    ghost use Rattle.core_handover.specs.Histories.{given};

    ghost ask = { λ core. given core };

    ghost state = { λ core. None };
}

/// A prefix of the history that was reached. It has no bytes.
pub type Beginning = Seen<Given, u64, Law>;

/// How often the core was given back, which threads change in single steps.
pub(crate) type Head = Word<Given, u64, Law>;

/// A prefix of the history that was reached, and how often the core was given back in it.
#[derive(Drop)]
pub struct Front {
    count: u64,
    seen: Beginning,
}

impl Model for Front {
    ghost use Rattle.std.specs.Prelude.{◌≡◌, ◌+◌, length};
    ghost use Rattle.core_handover.specs.Histories.{Known};

    ghost Value = { Known };

    ghost view = { λ f. record { book = f.seen.book; log = f.seen.log } };

    ghost invariant = { λ f. length f.seen.log ≡ f.count + 1 };
}

/// Opens a history with a core, and makes the word that counts what is added to it.
pub(crate) fn open(core: &Core) -> (Front, Head)
    ensures log { result.0.log ≡ given core.now ∷ [] }
    ensures head { result.1 ≡ head_of result.0.book }
{
    let (seen, mut pens) = Seen::open_row::<Core, First>(core, Start::alone(), 1);
    let mut pen = pens.take();
    let head = Word::tracked(0, &mut pen);
    (Front { count: 0, seen }, head)
}

impl Front {
    /// How often the core was given back.
    pub fn count(&self) -> u64
        ensures { length self.now.log ≡ result + 1 }
    {
        self.count
    }

    /// What any thread may know of the history.
    pub(crate) fn beginning(&self) -> Beginning
        ensures { result.book ≡ self.now.book }
    {
        self.seen.again()
    }

    /// Returns another token of the same prefix.
    pub fn again(&self) -> Front
        ensures { result ≡ self.now }
    {
        Front {
            count: self.count,
            seen: self.seen.again(),
        }
    }

    /// Whether it is no longer than another prefix of the same history. The shorter of both begins the longer one.
    pub fn begins(&self, other: &Front) -> bool
        requires { other.now.book ≡ self.now.book }
        ensures { MatchBool result (Begins other.now.log self.now.log) (Begins self.now.log other.now.log) }
    {
        let mut both = self.seen.again();
        both.learn(&other.seen);
        self.count <= other.count
    }

    /// Adds the core to the history, if this is all of it. It never waits.
    #[tactic(auto, using(crate::proofs::Beginnings::added_is_last))]
    pub(crate) fn add(&mut self, head: &Head, core: &Core) -> bool
        requires { head.now ≡ head_of self.old.book }
        ensures book { self.new.book ≡ self.old.book }
        ensures added { result ≡ true → self.new.log ≡ self.old.log ++ given core.now ∷ [] }
        ensures last { result ≡ true → last_core self.new.log ≡ core.now }
        ensures begins { result ≡ true → Begins self.new.log self.old.log }
        ensures refused { result ≡ false → self.new ≡ self.old }
    {
        if self.count >= MOST {
            return false;
        }
        let mut seen = self.seen.again();
        if !exchange(head, self.count, &mut seen, core) {
            return false;
        }
        *self = Front {
            count: self.count + 1,
            seen,
        };
        true
    }
}

/// Adds the core to all that was seen, if nothing else was added meanwhile.
fn exchange(head: &Head, count: u64, seen: &mut Beginning, core: &Core) -> bool
    requires head { head.now ≡ head_of seen.old.book }
    requires seen { length seen.old.log ≡ count + 1 }
    requires room { count + 1 < 2 ^ 64 }
    ensures book { seen.new.book ≡ seen.old.book }
    ensures added { result ≡ true → seen.new.log ≡ seen.old.log ++ given core.now ∷ [] }
{
    let mut offer: Offer<Given, u64, Law, Nothing> = seen.plain::<Nothing, Core, Add>(core);
    let mut pen = seen.no_pen();
    let found = head.compare_exchange::<Add, Nothing>(count, count + 1, seen, &mut offer, &mut pen);
    found == count
}
