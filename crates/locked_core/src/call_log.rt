//! The log of all calls, of which the last ones are kept, and which knows how many entries each CPU has in it.

ghost use Rattle.std.specs.Prelude.{◌≡◌, ◌+◌, ◌-◌, ◌<◌, ◌≤◌, ◌^◌, ◌++◌, ◌∷◌, [], All, IfOk, OnErr, OnOk, length, slice_set, slice_index_or};
ghost use Rattle.std.specs.VecDeque.{deque_capacity, deque_len};
ghost use Rattle.locked_core.specs.Counts.{HasRoom, counts_of, last_of};
ghost use Rattle.locked_core.specs.Moments.{entries_in};
ghost use Rattle.memory_report.specs.Histories.{calls_of};

use crate::book::Beginning;
use kernel_calls::{Call, Event, Outcome, Reply};
use memory_report::LogEntry;
use std::alloc::{AllocError, Global};
use std::collections::VecDeque;
use std::marker::Model;

/// How many entries a log may have. A log that keeps as many of the last ones keeps all.
const MOST: usize = 1 << 62;

/// What is logged of a call as it was decided, with that number of its CPU's entries before it.
pub fn entry_of(event: &Event, nth: usize, outcome: &Outcome) -> LogEntry
    ensures { result ≡ record {
      cpu = event.now.cpu;
      nth = nth;
      pid = event.now.pid;
      call = event.now.call;
      reply =
          outcome.now.reply;
      used_after = outcome.now.used_after;
    } }
{
    LogEntry {
        cpu: event.cpu,
        nth,
        pid: event.pid,
        call: event.call,
        reply: outcome.reply,
        used_after: outcome.used_after,
    }
}

/// The last entries in their order, and for each CPU how many of all entries are its own. Contracts see all entries, how
/// many of the last ones are kept, and for how many there is memory.
#[derive(Drop)]
pub struct CallLog {
    kept: VecDeque<LogEntry>,
    /// How many entries there are in all.
    count: usize,
    /// How many of the last ones are kept.
    pub(crate) keeps: usize,
    counts: [usize; 8],
    /// All entries, of which nothing is stored.
    all: Beginning,
}

impl Model for CallLog {
    ghost use Rattle.std.specs.VecDeque.{deque_capacity};
    ghost use Rattle.locked_core.specs.Counts.{IsLog, Log};
    ghost use Rattle.locked_core.specs.Moments.{entries_in};

    ghost Value = { Log };

    ghost view = { λ l. record { entries = entries_in l.all.log; keeps = l.keeps; capacity = deque_capacity l.kept } };

    ghost invariant = { λ l. IsLog (entries_in l.all.log) l.kept.items l.count l.keeps (deque_capacity l.kept) l.counts };
}

/// A queue without entries. If so many are fewer than all, it has room for them.
fn queue_for(alloc: Global, keeps: usize) -> Result<VecDeque<LogEntry>, AllocError>
    ensures none { IfOk result (λ q. q.items ≡ []) }
    ensures room { IfOk result (λ q. keeps < 2 ^ 62 → keeps ≤ deque_capacity q) }
{
    if keeps < MOST {
        VecDeque::with_capacity(alloc, keeps)
    } else {
        Ok(VecDeque::new(alloc))
    }
}

/// One entry more of this CPU.
fn count_one(counts: &mut [usize; 8], cpu: u8, all: &Beginning)
    requires cpu { cpu < 8 }
    requires counted { counts.old ≡ counts_of (entries_in all.now.log) }
    requires small { length (entries_in all.now.log) < 2 ^ 63 }
    ensures { counts.new ≡ slice_set counts.old cpu (slice_index_or counts.old cpu 0 + 1) }
{
    counts[usize::from(cpu)] += 1;
}

/// Drops the first entry if there are as many as are kept, so that one more has room.
fn make_room(kept: &mut VecDeque<LogEntry>, keeps: usize)
    requires least { 0 < keeps }
    requires few { deque_len kept.old ≤ keeps }
    requires room { deque_len kept.old < keeps → deque_len kept.old < deque_capacity kept.old }
    ensures kept { kept.new.items ≡ last_of (keeps - 1) kept.old.items }
    ensures room { deque_len kept.new < deque_capacity kept.new }
    ensures capacity { deque_capacity kept.new ≡ deque_capacity kept.old }
{
    if kept.len() == keeps {
        let _first = kept.pop_front();
    }
}

impl CallLog {
    /// A log without entries, which is to keep so many of the last ones. If these are fewer than all, it has their
    /// memory from now on, and needs no more.
    pub fn new(alloc: Global, keeps: usize, all: &Beginning) -> Result<CallLog, AllocError>
        requires least { 2 ≤ keeps }
        requires none { all.now.log ≡ [] }
        ensures none { IfOk result (λ l. l.entries ≡ []) }
        ensures keeps { IfOk result (λ l. l.keeps ≡ keeps) }
    {
        Ok(CallLog {
            kept: queue_for(alloc, keeps)?,
            count: 0,
            keeps,
            counts: [0; 8],
            all: all.again(),
        })
    }

    /// How many entries it has.
    pub fn len(&self) -> usize
        ensures length { result ≡ length self.now.entries }
        ensures small { result ≤ 2 ^ 62 }
    {
        self.count
    }

    /// What its memory comes from.
    pub fn allocator(&self) -> Global {
        *self.kept.allocator()
    }

    /// How many entries are of this CPU.
    pub fn calls_of(&self, cpu: u8) -> usize
        requires { cpu < 8 }
        ensures { result ≡ calls_of cpu self.now.entries }
    {
        self.counts[usize::from(cpu)]
    }

    /// Each entry is of a CPU below 8.
    pub fn small_numbers(&self)
        ensures { All (λ e. e.cpu < 8) self.now.entries }
    {
        let _count = self.count;
    }

    /// The entry at this place, which is one of those that are kept.
    pub fn at(&self, place: usize) -> &LogEntry
        requires place { place < length self.now.entries }
        requires kept { length self.now.entries ≤ place + self.now.keeps }
        ensures { result.now ≡ slice_index_or self.now.entries place result.now }
    {
        &self.kept[self.kept.len() - (self.count - place)]
    }

    /// Reserves space for one entry more. A log that is to keep fewer entries than all has it already.
    ///
    /// An error if there is no memory for it, or if there are 2 ^ 62 entries.
    pub fn reserve(&mut self) -> Result<(), AllocError>
        ensures entries { self.new.entries ≡ self.old.entries }
        ensures keeps { self.new.keeps ≡ self.old.keeps }
        ensures room { OnOk result (HasRoom self.new) }
        ensures same { self.old.keeps < 2 ^ 62 → self.new ≡ self.old }
        ensures spent { OnErr result (self.old.keeps < 2 ^ 62 → 2 ^ 62 ≤ length self.old.entries) }
        ensures small { length self.old.entries ≤ 2 ^ 62 }
    {
        if self.count >= MOST {
            return Err(AllocError);
        }
        if self.kept.len() < self.kept.capacity() || self.kept.len() == self.keeps {
            return Ok(());
        }
        self.kept.reserve(1)
    }

    /// Puts an entry at the end, where there is room for it. If it has as many as it is to keep, the first one of them
    /// is dropped.
    pub fn push(&mut self, entry: &LogEntry, all: &Beginning)
        requires room { HasRoom self.old }
        requires cpu { entry.now.cpu < 8 }
        requires all { entries_in all.now.log ≡ self.old.entries ++ entry.now ∷ [] }
        ensures entries { self.new.entries ≡ self.old.entries ++ entry.now ∷ [] }
        ensures keeps { self.new.keeps ≡ self.old.keeps }
        ensures capacity { self.new.capacity ≡ self.old.capacity }
    {
        let CallLog {
            kept,
            count,
            keeps,
            counts,
            all: had,
        } = self;
        count_one(counts, entry.cpu, had);
        make_room(kept, *keeps);
        let call = entry.call;
        kept.push_back_reserved(LogEntry { call, ..*entry });
        *count += 1;
        *had = all.again();
    }

    /// Returns the entries that it keeps, in the order in which their calls had the lock, and a token of all.
    pub fn into_entries(self) -> (Vec<LogEntry>, Beginning)
        ensures kept { result.0.items ≡ last_of self.keeps self.entries }
        ensures all { entries_in result.1.log ≡ self.entries }
        ensures few { length self.entries ≤ 2 ^ 62 }
    {
        let CallLog {
            kept,
            count: _,
            keeps: _,
            counts: _,
            all,
        } = self;
        (kept.into_vec(), all)
    }
}
