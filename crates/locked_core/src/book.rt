//! The history of one kernel, of which its parts know beginnings. It exists in proofs alone: what is stored is its
//! length.
ghost use Rattle.std.specs.Prelude.{◌≡◌, ◌<◌, [], length, MatchBool};
ghost use Rattle.memory_report.specs.Histories.{Legal, StartsWith};
ghost use Rattle.locked_core.specs.Moments.{Begins, entries_in};
ghost use Rattle.locked_core.specs.Rules.{head_of, turns_of};

use crate::moment::Moment;
use kernel_calls::{Call, Core, Reply};
use logbook::{Gain, Plain, Play, Rule, Seen, Start, Word};
use memory_report::LogEntry;
use page_words::Pid;
use std::marker::{Brand, Model, PhantomData};
use std::sync::ledger::Ledger;

/// The rule of the history.
pub struct Law;

impl Rule<Moment, u64> for Law {
    ghost use Rattle.std.specs.Prelude.{[]};
    ghost use base.Fml.{ftrue};
    ghost use Rattle.locked_core.specs.Rules.{CellsHold};

    ghost holds = { λ cells log. CellsHold cells log };

    ghost first = { [] };

    ghost hinted = { λ n log. Unit {0} };

    ghost shows = { λ log. [] };

    ghost keeps = { λ names log. ftrue };

    ghost moves = { λ ask before after answer. Unit {0} };
}

/// An entry for a step that adds none.
pub(crate) fn no_entry() -> LogEntry {
    LogEntry {
        cpu: 0,
        nth: 0,
        pid: Pid::new(0).unwrap(),
        call: Call::Quota,
        reply: Reply::Done,
        used_after: 0,
    }
}

/// Callers trade nothing.
pub struct Nothing;

impl Gain<Moment, u64> for Nothing {
    ghost use base.Fml.{ftrue};

    ghost after = { λ names about answer. ftrue };
}

/// A step that adds an entry.
pub struct Add;

impl Play<Moment, u64> for Add {
    ghost use Rattle.locked_core.specs.Rules.{Adds};

    ghost then = { Adds };
}

/// A step that takes the turn to add the next entry.
pub struct Claim;

impl Play<Moment, u64> for Claim {
    ghost use Rattle.locked_core.specs.Rules.{Claims};

    ghost then = { Claims };
}

/// A step that confirms a turn.
pub struct Confirm;

impl Play<Moment, u64> for Confirm {
    ghost use Rattle.locked_core.specs.Rules.{Confirms};

    ghost then = { Confirms };
}

impl Plain<LogEntry, Moment, u64> for Claim {
    ghost use Rattle.std.specs.Prelude.{None};
    ghost use Rattle.locked_core.specs.Moments.{moment};
    ghost use Rattle.locked_core.specs.Names.{no_core};

    ghost ask = { λ entry. moment entry no_core };

    ghost state = { λ entry. None };
}

/// A call that is done: its entry, and the core that it left.
#[derive(Drop)]
pub struct Done<'a> {
    pub entry: &'a LogEntry,
    pub core: &'a Core,
}

impl<'a> Plain<Done<'a>, Moment, u64> for Add {
    ghost use Rattle.std.specs.Prelude.{None};
    ghost use Rattle.locked_core.specs.Moments.{moment};

    ghost ask = { λ d. moment d.entry.now d.core.now };

    ghost state = { λ d. None };
}

/// Which kernel it is. Each call of a program picks it.
pub trait Name {
    ghost use Rattle.std.specs.Prelude.{ℕ};
    ghost use Rattle.locked_core.specs.Names.{Names};

    ghost frames: { ℕ };

    ghost book: { Names };
}

impl Name for Brand {
    ghost use Rattle.locked_core.specs.Names.{no_names};

    ghost frames = { 0 };

    ghost book = { no_names };
}

/// The ledger of the calls that a kernel's CPUs made. Each CPU's share counts its own calls, and the total is under
/// the lock. No value of it is made.
pub struct Calls<N: Name> {
    of: PhantomData<N>,
}

impl<N: Name> Ledger for Calls<N> {
    ghost name = { N.book.ledger };

    ghost parts = { N.book.parts };
}

/// A prefix of the history that was seen. It has no bytes.
pub type Beginning = Seen<Moment, u64, Law>;

/// A book with an empty history, which has no name yet.
#[derive(Drop)]
pub struct Opened {
    head: Word<Moment, u64, Law>,
    turns: Word<Moment, u64, Law>,
    pub seen: Beginning,
    pub ghost empty: { seen.log ≡ [] },
    pub ghost head_is: { head ≡ head_of seen.book },
    pub ghost turns_is: { turns ≡ turns_of seen.book },
}

impl Opened {
    /// Opens a book with an empty history.
    pub fn new() -> Opened
        ensures { result.seen.log ≡ [] }
    {
        let (seen, mut first, mut second) = Seen::open(Start::alone(), 0, 0);
        Opened {
            head: Word::tracked(0, &mut first),
            turns: Word::tracked(0, &mut second),
            seen,
        }
    }

    /// The word that has the history's length, and the one that counts turns.
    pub(crate) fn into_words(self) -> (Word<Moment, u64, Law>, Word<Moment, u64, Law>)
        ensures { (result.0 ≡ head_of self.seen.book) × (result.1 ≡ turns_of self.seen.book) }
    {
        let Opened {
            head,
            turns,
            seen: _seen,
        } = self;
        (head, turns)
    }
}

/// A legal beginning of the history, which was seen. Contracts see it as its moments.
#[derive(Drop)]
pub struct Front<N: Name> {
    count: usize,
    seen: Beginning,
    of: PhantomData<N>,
}

impl<N: Name> Model for Front<N> {
    ghost use Rattle.std.specs.Prelude.{◌≡◌, List, length};
    ghost use Rattle.locked_core.specs.Moments.{entries_in};
    ghost use Rattle.locked_core.specs.declared.moment.Moment.{Moment};
    ghost use Rattle.memory_report.specs.Histories.{Legal};

    ghost Value = { List Moment };

    ghost view = { λ f. f.seen.log };

    ghost invariant = { λ f. (f.count ≡ length (entries_in f.seen.log)) × (f.seen.book ≡ N.book.history)
        × Legal N.frames (entries_in f.seen.log) };
}

impl<N: Name> Front<N> {
    pub(crate) fn new(count: usize, seen: Beginning) -> Front<N>
        requires { (count ≡ length (entries_in seen.log)) × (seen.book ≡ N.book.history)
            × Legal N.frames (entries_in seen.log) }
        ensures { result ≡ seen.log }
    {
        Front {
            count,
            seen,
            of: PhantomData,
        }
    }

    /// How many entries it has.
    pub fn len(&self) -> usize
        ensures length { result ≡ length (entries_in self.now) }
        ensures legal { Legal N.frames (entries_in self.now) }
    {
        self.count
    }

    /// Returns another token of the same prefix of the history.
    pub fn again(&self) -> Front<N>
        ensures { result ≡ self.now }
    {
        Front {
            count: self.count,
            seen: self.seen.again(),
            of: PhantomData,
        }
    }

    /// Adds what it has to another prefix of the same history.
    pub(crate) fn teach(&self, seen: &mut Beginning)
        requires { seen.old.book ≡ N.book.history }
        ensures book { seen.new.book ≡ N.book.history }
        ensures both { Begins seen.new.log seen.old.log × Begins seen.new.log self.now }
    {
        seen.learn(&self.seen);
    }

    /// Whether it is no longer than the other front. The shorter of both begins the longer one.
    pub fn begins(&self, other: &Front<N>) -> bool
        ensures order { MatchBool result (StartsWith (entries_in other.now) (entries_in self.now))
            (StartsWith (entries_in self.now) (entries_in other.now)
            × (length (entries_in other.now) < length (entries_in self.now))) }
        ensures moments { MatchBool result (Begins other.now self.now) (Begins self.now other.now) }
        ensures legal { Legal N.frames (entries_in self.now) × Legal N.frames (entries_in other.now) }
    {
        let mut both = self.seen.again();
        both.learn(&other.seen);
        self.count <= other.count
    }
}
