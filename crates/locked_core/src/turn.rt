//! The turn to add the next entry to the history, which one call has at a time.

ghost use Rattle.std.specs.Prelude.{◌≡◌, ◌<◌, ◌≤◌, ◌+◌, ◌^◌, IfSome, length};
ghost use Rattle.logbook.specs.Pages.{may_write};
ghost use Rattle.locked_core.specs.Rules.{head_of, turns_of};

use crate::book::{Beginning, Claim, Confirm, Law, Name, Nothing, no_entry};
use crate::moment::Moment;
use logbook::{Offer, Pen, Word};
use memory_report::LogEntry;
use std::marker::{Model, PhantomData};

/// The right to add the next entry to the history. While it is out, no entry is added without it. It has no bytes.
/// Contracts see its cell in the book.
#[derive(Drop)]
pub struct Turn<N: Name> {
    pen: Pen,
    of: PhantomData<N>,
}

impl<N: Name> Model for Turn<N> {
    ghost use Rattle.std.specs.Prelude.{◌≡◌, ℕ};
    ghost use Rattle.logbook.specs.Pages.{may_write};

    ghost Value = { ℕ };

    ghost view = { λ t. t.pen.nib.key };

    ghost invariant = { λ t. (t.pen.book ≡ N.book.history) × (t.pen.nib.right ≡ may_write) };
}

impl<N: Name> Turn<N> {
    /// Takes the turn that follows so many entries. `None` if the history is longer, or if this turn was taken.
    /// Otherwise no more of the history has been seen.
    pub fn take(turns: &Word<Moment, u64, Law>, count: usize, seen: &Beginning) -> Option<Turn<N>>
        requires word { turns.now ≡ turns_of N.book.history }
        requires room { count + 1 < 2 ^ 64 }
        requires seen { (count ≤ length seen.now.log) × (seen.now.book ≡ N.book.history) }
        ensures turn { IfSome result (λ t. t ≡ count + 2) }
        ensures whole { IfSome result (λ _. length seen.now.log ≤ count) }
    {
        let mut seen = seen.again();
        let mut offer: Offer<Moment, u64, Law, Nothing> = seen.plain::<Nothing, LogEntry, Claim>(
            &no_entry(),
        );
        let mut pen = seen.no_pen();
        let found = turns.compare_exchange::<Claim, Nothing>(
            count as u64,
            count as u64 + 1,
            &mut seen,
            &mut offer,
            &mut pen,
        );
        if found != count as u64 {
            return None;
        }
        let _cell: Word<Moment, u64, Law> = Word::tracked(0, &mut pen);
        Some(Turn {
            pen,
            of: PhantomData,
        })
    }

    /// Compares with the history. With the turn that follows so many entries, no more of it has been seen.
    pub fn confirm(&mut self, word: &Word<Moment, u64, Law>, count: usize, seen: &Beginning)
        requires word { word.now ≡ head_of N.book.history }
        requires turn { self.old ≡ count + 2 }
        requires seen { seen.now.book ≡ N.book.history }
        ensures whole { length seen.now.log ≤ count }
        ensures same { self.new ≡ self.old }
    {
        let mut seen = seen.again();
        let mut offer: Offer<Moment, u64, Law, Nothing> = seen.plain::<Nothing, LogEntry, Claim>(
            &no_entry(),
        );
        word.compare_exchange::<Confirm, Nothing>(
            count as u64,
            count as u64,
            &mut seen,
            &mut offer,
            &mut self.pen,
        );
    }

    /// What a step is given that uses it up.
    pub fn into_pen(self) -> Pen
        ensures { (result.book ≡ N.book.history) × (result.nib.right ≡ may_write) × (result.nib.key ≡ self) }
    {
        let Turn { pen, of: _ } = self;
        pen
    }
}
