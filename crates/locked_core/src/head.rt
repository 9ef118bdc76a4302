//! The length of the history, which is stored once.

ghost use Rattle.std.specs.Prelude.{◌≡◌, ◌<◌, ◌+◌, ◌^◌, ◌++◌, [], ◌∷◌, IfSome, List, length};
ghost use Rattle.locked_core.specs.Rules.{head_of, turn_after};
ghost use Rattle.locked_core.specs.Moments.{Begins, entries_in, moment};
ghost use Rattle.locked_core.specs.declared.moment.Moment.{Moment};

use crate::book::{Add, Beginning, Done, Front, Law, Name, Nothing, Opened};
use crate::call_log::CallLog;
use crate::moment::Moment;
use crate::turn::Turn;
use kernel_calls::Core;
use logbook::{Offer, Word};
use memory_report::LogEntry;
use std::marker::Model;

/// The length of the history. Only a call that is carried out adds to it, with its turn. Contracts see the history as
/// it was added to, of which nothing is stored but the length.
#[derive(Drop)]
pub struct Head<N: Name> {
    word: Word<Moment, u64, Law>,
    turns: Word<Moment, u64, Law>,
    seen: Beginning,
    /// A turn that was taken and not used, since there was no memory.
    unused: Option<Turn<N>>,
}

impl<N: Name> Model for Head<N> {
    ghost use Rattle.std.specs.Prelude.{◌≡◌, IfSome, List};
    ghost use Rattle.locked_core.specs.Rules.{head_of, turn_after, turns_of};
    ghost use Rattle.locked_core.specs.declared.moment.Moment.{Moment};

    ghost Value = { List Moment };

    ghost view = { λ h. h.seen.log };

    ghost invariant = { λ h. (h.word ≡ head_of N.book.history) × (h.turns ≡ turns_of N.book.history)
        × (h.seen.book ≡ N.book.history) × IfSome h.unused (λ t. t ≡ turn_after h.seen.log) };
}

impl<N: Name> Head<N> {
    /// That of a book whose history is empty.
    pub fn new(opened: Opened) -> Head<N>
        requires { opened.seen.book ≡ N.book.history }
        ensures { result ≡ [] }
    {
        let seen = opened.seen.again();
        let (word, turns) = opened.into_words();
        Head {
            word,
            turns,
            seen,
            unused: None,
        }
    }

    /// All that was added here, and all that a CPU has seen.
    fn with(&self, front: &Front<N>) -> Beginning
        ensures book { result.book ≡ N.book.history }
        ensures both { Begins result.log self.now × Begins result.log front.now }
    {
        let mut both = self.seen.again();
        front.teach(&mut both);
        both
    }

    /// Takes the turn to add the next entry, or returns the one that was not used. What this CPU has seen is then a
    /// prefix of what was added here. `None` if the history is longer than the log, or if another has the turn.
    pub fn take_turn(&mut self, log: &CallLog, front: &Front<N>) -> Option<Turn<N>>
        requires { entries_in self.old ≡ log.now.entries }
        ensures turn { IfSome result (λ t. t ≡ turn_after self.old) }
        ensures begins { IfSome result (λ _. Begins self.old front.now) }
        ensures same { self.new ≡ self.old }
    {
        let both = self.with(front);
        let Some(mut turn) = self.unused.take() else {
            return Turn::take(&self.turns, log.len(), &both);
        };
        turn.confirm(&self.word, log.len(), &both);
        Some(turn)
    }

    /// Keeps a turn that was not used, for the next call.
    pub fn give_back(&mut self, turn: Turn<N>)
        requires { turn ≡ turn_after self.old }
        ensures { self.new ≡ self.old }
    {
        self.unused = Some(turn);
    }

    /// Adds the entry of a completed call and the core that it left, in its turn. It never waits.
    pub fn add(&mut self, turn: Turn<N>, log: &CallLog, entry: &LogEntry, core: &Core)
        requires all { entries_in self.old ≡ log.now.entries }
        requires turn { turn ≡ turn_after self.old }
        ensures { self.new ≡ self.old ++ moment entry.now core.now ∷ [] }
    {
        let mut seen = self.seen.again();
        let done = Done { entry, core };
        exchange::<N>(&self.word, log.len(), turn, &mut seen, &done);
        self.unused = None;
        self.seen = seen;
    }

    /// All of the history, as it was added to.
    pub fn all(&self) -> Beginning
        ensures { (result.log ≡ self.now) × (result.book ≡ N.book.history) }
    {
        self.seen.again()
    }
}

/// Adds the moment of a call that is done to all that was seen, in its turn.
fn exchange<N: Name>(
    word: &Word<Moment, u64, Law>,
    count: usize,
    turn: Turn<N>,
    seen: &mut Beginning,
    done: &Done,
)
    requires word { word.now ≡ head_of N.book.history }
    requires room { count + 1 < 2 ^ 64 }
    requires seen { (count ≡ length (entries_in seen.old.log)) × (seen.old.book ≡ N.book.history) }
    requires turn { turn ≡ turn_after seen.old.log }
    ensures { (seen.new.book ≡ N.book.history)
        × (seen.new.log ≡ seen.old.log ++ moment done.now.entry.now done.now.core.now ∷ []) }
{
    let mut offer: Offer<Moment, u64, Law, Nothing> = seen.plain::<Nothing, Done, Add>(done);
    let mut pen = turn.into_pen();
    word.compare_exchange::<Add, Nothing>(
        count as u64,
        count as u64 + 1,
        seen,
        &mut offer,
        &mut pen,
    );
}
