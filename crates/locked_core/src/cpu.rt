//! The CPUs, and what each has seen.

ghost use Rattle.std.specs.Prelude.{◌≡◌, ◌≢◌, ◌+◌, ◌<◌, ◌^◌, ◌⊎◌, ◌↔◌, [], false, IfOk, IfErr, OnErr, IsTrue, MatchBool, length, slice_index_or, slice_set, List};
ghost use Rattle.locked_core.specs.Endings.{EndsAtLast};
ghost use Rattle.locked_core.specs.Makers.{AreOfCpus, Maker, maker, maker_of, Makes, IsFit, IsFollowed, IsOfOne, IsRefused, Refuses};
ghost use Rattle.locked_core.specs.Moments.{Begins, entries_in};
ghost use Rattle.memory_report.specs.Histories.{AreIsolated, StartsWith, calls_of};
ghost use Rattle.memory_report.specs.Histories.{AreGuarded};
ghost use Rattle.memory_report.specs.declared.entries.LogEntry.{LogEntry};
ghost use Rattle.process_table.specs.State.{open_with};

use crate::book::{Calls, Front, Name};
use crate::call_log::CallLog;
use crate::faults::Fault;
use crate::gate::{Gate, Point};
use crate::invalidate::Invalidate;
use crate::kernel::Kernel;
use crate::locked::Asked;
use crate::tally::{Own, Tally};
use kernel_calls::{Call, Ended, Reply};
use page_words::Pid;
use std::marker::Model;
use std::sync::ledger::{Book, Share};
use std::sync::{MutexGuard, Wait};

/// What a CPU has seen, for a monitor or another CPU. Contracts see it as the list of moments.
#[derive(Drop)]
pub struct Told<N: Name> {
    seen: Front<N>,
}

impl<N: Name> Model for Told<N> {
    ghost use Rattle.std.specs.Prelude.{List};
    ghost use Rattle.locked_core.specs.declared.moment.Moment.{Moment};

    ghost Value = { List Moment };

    ghost view = { λ t. t.seen };
}

impl<N: Name> Told<N> {
    /// Returns how many entries it has.
    #[tactic(auto, using(crate::proofs::Moments::entries_long))]
    pub fn front(&self) -> usize
        ensures { result ≡ length self.now }
    {
        self.seen.len()
    }

    pub(crate) fn into_seen(self) -> Front<N>
        ensures { result ≡ self }
    {
        let Told { seen } = self;
        seen
    }
}

/// One CPU of a kernel. Contracts see its number and the entries that it has seen, with the core after each entry, and
/// what it received.
/// Its own entries among them are the calls that it made, and its share counts them. The total under the lock counts
/// all entries, and grows only with the share of a CPU. Therefore each entry of the history is one call of one CPU.
#[derive(Drop)]
pub struct Cpu<N: Name> {
    pub(crate) number: u8,
    pub(crate) calls: usize,
    pub(crate) seen: Front<N>,
    /// What it has seen or received, whichever is longer.
    pub(crate) told: Front<N>,
    /// The calls that it made, counted among those of all CPUs.
    pub(crate) share: Share<Calls<N>>,
    /// The calls that it made, counted apart.
    own: Own<N>,
}

impl<N: Name> Model for Cpu<N> {
    ghost use Rattle.std.specs.Prelude.{◌≡◌, ◌<◌};
    ghost use Rattle.memory_report.specs.Histories.{calls_of};
    ghost use Rattle.locked_core.specs.Makers.{Maker, maker_told};
    ghost use Rattle.locked_core.specs.Moments.{Begins, entries_in};

    ghost Value = { Maker };

    ghost view = { λ c. maker_told c.number c.seen c.told };

    ghost invariant = { λ c. Begins c.told c.seen × (c.calls ≡ calls_of c.number (entries_in c.seen)) × (c.number < 8)
        × (c.share.parts ≡ 1) × (c.share.amount ≡ calls_of c.number (entries_in c.seen))
        × (c.own ≡ record { number = c.number; calls = calls_of c.number (entries_in c.seen) })
        × (c.number < N.book.parts) };
}

impl<N: Name> Cpu<N> {
    /// The CPU's number, from 0 on: below the number of the kernel's CPUs.
    pub fn number(&self) -> u8
        ensures number { result ≡ self.now.number }
        ensures small { result < 8 }
        ensures part { result < N.book.parts }
    {
        self.number
    }

    /// How many calls it made: its entries in the log.
    pub fn calls(&self) -> usize
        ensures { result ≡ calls_of self.now.number self.now.seen }
    {
        self.calls
    }

    /// Returns what it has seen, for a monitor or another CPU.
    pub fn tell(&self) -> Told<N>
        ensures entries { entries_in result ≡ self.now.seen }
        ensures moments { result ≡ self.now.moments }
    {
        Told {
            seen: self.seen.again(),
        }
    }

    /// Takes in what another CPU has seen. It keeps the longer list, of which the other is a prefix. What this CPU has
    /// seen changes with its next call, and then begins with this list.
    #[tactic(auto, using(crate::proofs::Moments::begins_itself, crate::proofs::Moments::begins_trans))]
    pub fn learn(&mut self, told: Told<N>)
        ensures kept { (self.new.number ≡ self.old.number) × (self.new.seen ≡ self.old.seen)
            × (self.new.moments ≡ self.old.moments) }
        ensures one { (self.new.told ≡ self.old.told) ⊎ (self.new.told ≡ told) }
        ensures old { Begins self.new.told self.old.told }
        ensures told { Begins self.new.told told }
    {
        let told = told.into_seen();
        if !told.begins(&self.told) {
            self.told = told;
        }
    }

    /// Returns whether it has seen no more than another CPU of its kernel. What it has seen is then a prefix of what
    /// the other has seen. Otherwise the other has seen less, and that is a prefix of what it has seen.
    pub fn begins(&self, other: &Cpu<N>) -> bool
        ensures seen { MatchBool result (StartsWith other.now.seen self.now.seen)
            (StartsWith self.now.seen other.now.seen × (length other.now.seen < length self.now.seen)) }
        ensures moments { MatchBool result (Begins other.now.moments self.now.moments)
            (Begins self.now.moments other.now.moments) }
    {
        self.seen.begins(&other.seen)
    }

    #[tactic(auto, using(crate::proofs::Moments::entries_none))]
    pub(crate) fn new(number: u8, seen: Front<N>, share: Share<Calls<N>>, own: Own<N>) -> Cpu<N>
        requires number { number < 8 }
        requires part { number < N.book.parts }
        requires seen { entries_in seen ≡ [] }
        requires share { (share.parts ≡ 1) × (share.amount ≡ 0) }
        requires own { own ≡ record { number = number; calls = 0 } }
        ensures { result ≡ maker number [] }
    {
        Cpu {
            number,
            calls: 0,
            told: seen.again(),
            seen,
            share,
            own,
        }
    }

    /// What counts its calls.
    pub(crate) fn into_share(self) -> Share<Calls<N>>
        ensures { (result.parts ≡ 1) × (result.amount ≡ calls_of self.number self.seen) }
    {
        let Cpu {
            number: _,
            calls: _,
            seen: _,
            told: _,
            share,
            own: _,
        } = self;
        share
    }

    /// Compares its count with the one of its calls under the lock, which are equal. Nothing changes.
    pub(crate) fn audit(&mut self, tally: &mut Tally<N>)
        ensures calls { slice_index_or tally.old self.old.number 0 ≡ calls_of self.old.number self.old.seen }
        ensures small { self.old.number < 8 }
        ensures same { (self.new ≡ self.old) × (tally.new ≡ tally.old) }
    {
        tally.audit(&mut self.own);
    }

    /// Compares what it has seen with a front: one of the two begins the other. It computes nothing.
    pub(crate) fn is_of_one(&self, front: &Front<N>)
        ensures { IsOfOne front.now self.now }
    {
        let _begins = self.seen.begins(front);
    }

    /// Whether it made the calls that the log has of it, and has seen no more than the log. What it has
    /// seen then begins the log.
    pub(crate) fn agrees(&self, log: &CallLog, front: &Front<N>) -> bool
        requires { entries_in front.now ≡ log.now.entries }
        ensures fit { IsTrue result ↔ IsFit log.now.entries self.now }
        ensures begins { IsTrue result → StartsWith log.now.entries self.now.seen }
        ensures moments { IsTrue result → Begins front.now self.now.moments }
    {
        self.seen.begins(front) && self.calls == log.calls_of(self.number)
    }

    /// Takes in one more call of its own, which ends what it has seen now, and counts it.
    pub(crate) fn made(
        &mut self,
        grown: Front<N>,
        counted: &mut Book<Calls<N>>,
        tally: &mut Tally<N>,
    )
        requires calls { calls_of self.old.number (entries_in grown) ≡ calls_of self.old.number self.old.seen + 1 }
        requires small { length (entries_in grown) < 2 ^ 64 }
        ensures made { self.new ≡ maker_of self.old.number grown }
        ensures counted { counted.new.total ≡ counted.old.total + 1 }
        ensures tallied { tally.new ≡ slice_set tally.old self.old.number
            (slice_index_or tally.old self.old.number 0 + 1) }
    {
        let Cpu {
            number: _,
            calls,
            seen,
            told,
            share,
            own,
        } = self;
        *calls += 1;
        *told = grown.again();
        *seen = grown;
        counted.add(share, 1);
        tally.add(own);
    }

    /// Takes in the history that a refused call found, which has no more of its own calls.
    pub(crate) fn found(&mut self, history: Front<N>)
        requires own { calls_of self.old.number (entries_in history) ≡ calls_of self.old.number self.old.seen }
        ensures { self.new ≡ maker_of self.old.number history }
    {
        self.told = history.again();
        self.seen = history;
    }

    /// Makes a call of a process: waits for the lock, decides, carries out, logs and publishes it.
    ///
    /// The faults come in this order. Unread: the turn to add the next entry can't be taken, since the kernel's history
    /// is longer than the log or another has this turn. NoMemory: the log can't grow, since there is no memory for it
    /// or it has 2 ^ 62 entries. After each of them the CPU has made no call more: each entry of the history is one that
    /// its CPU counts. After NoMemory the CPU has seen all of the history that the call found under the lock. If the kernel
    /// keeps only so many of its last entries, that is of 2 ^ 62 entries. After Unread the CPU is as it was.
    pub fn call<G: Gate + Drop, R: Wait>(
        &mut self,
        rt: &R,
        kernel: &Kernel<N, G>,
        pid: Pid,
        call: Call,
    ) -> Result<Reply, Fault>
        ensures made { IfOk result (Makes N.frames self.old pid call self.new) }
        ensures followed { IfOk result (λ _. IsFollowed N.book.opening self.old self.new) }
        ensures learned { IfOk result (λ _. Begins self.new.moments self.old.told) }
        ensures stood { N.book.opening.state ≡ open_with N.frames }
        ensures isolated { IfOk result (λ _. AreIsolated N.frames self.new.seen) }
        ensures guarded { IfOk result (λ _. AreGuarded N.frames self.new.seen) }
        ensures cpus { IfOk result (λ _. AreOfCpus N.book.parts self.new.seen) }
        ensures number { self.new.number ≡ self.old.number }
        ensures calls { IfOk result (λ _. calls_of self.new.number self.new.seen
            ≡ calls_of self.old.number self.old.seen + 1) }
        ensures refused { IfErr result (λ f. (log : List LogEntry) × IsRefused N.frames log self.old f) }
        ensures found { IfErr result (Refuses N.frames N.book self.old self.new) }
    {
        let ends = false;
        let mut guard = kernel.taken(rt);
        let made = guard.make(rt, &kernel.gate, self, Asked { pid, call, ends });
        if made.is_ok() {
            kernel.gate.reach(Point::Published);
        }
        MutexGuard::unlock(guard);
        let (reply, _) = made?;
        Ok(reply)
    }

    /// Makes a call of a process as `call` does, and reports which translations it ended. It reports them to what
    /// invalidates them on all processors, before it releases the lock, and with the reply. Only the reply is for the
    /// process.
    ///
    /// Refused as `call` is; nothing is ended then, and nothing told to the processors.
    pub fn call_ending<G: Gate + Drop, I: Invalidate, R: Wait>(
        &mut self,
        rt: &R,
        kernel: &Kernel<N, G>,
        pid: Pid,
        call: Call,
        processors: &mut I,
    ) -> Result<(Reply, Ended), Fault>
        ensures made { IfOk result (λ r. Makes N.frames self.old pid call self.new r.0) }
        ensures ended { IfOk result (λ r. EndsAtLast N.frames N.book.opening self.new r.1) }
        ensures told { IfOk result (λ r. I.told processors.old r.1 processors.new) }
        ensures untold { OnErr result (processors.new ≡ processors.old) }
        ensures followed { IfOk result (λ _. IsFollowed N.book.opening self.old self.new) }
        ensures learned { IfOk result (λ _. Begins self.new.moments self.old.told) }
        ensures stood { N.book.opening.state ≡ open_with N.frames }
        ensures isolated { IfOk result (λ _. AreIsolated N.frames self.new.seen) }
        ensures guarded { IfOk result (λ _. AreGuarded N.frames self.new.seen) }
        ensures cpus { IfOk result (λ _. AreOfCpus N.book.parts self.new.seen) }
        ensures number { self.new.number ≡ self.old.number }
        ensures calls { IfOk result (λ _. calls_of self.new.number self.new.seen
            ≡ calls_of self.old.number self.old.seen + 1) }
        ensures refused { IfErr result (λ f. (log : List LogEntry) × IsRefused N.frames log self.old f) }
        ensures found { IfErr result (Refuses N.frames N.book self.old self.new) }
    {
        let ends = true;
        let mut guard = kernel.taken(rt);
        let made = guard.make(rt, &kernel.gate, self, Asked { pid, call, ends });
        if let Ok((_, ended)) = &made {
            processors.invalidate(ended);
            kernel.gate.reach(Point::Published);
        }
        MutexGuard::unlock(guard);
        made
    }
}
