//! The kernel: how it boots, is opened under a name, and is closed.

ghost use Rattle.std.specs.Prelude.{◌≡◌, ◌-◌, ◌<◌, ◌≤◌, ◌^◌, ◌⊎◌, ◌↔◌, [], IfErr, IfOk, IsErrOf, OnErr, All, Any, length, take, replicate, List};
ghost use Rattle.left_right.specs.Sides.{view};
ghost use Rattle.locked_core.specs.Counts.{last_of};
ghost use Rattle.locked_core.specs.Makers.{Closes, IsHistory, IsLeft, IsRefused, IsShown, IsSnapshot, calls_of_all, new_makers};
ghost use Rattle.locked_core.specs.Moments.{entries_in};
ghost use Rattle.locked_core.specs.declared.moment.Moment.{Moment};
ghost use Rattle.locked_core.specs.Pages.{page};
ghost use Rattle.locked_core.specs.Published.{view_of};
ghost use Rattle.locked_core.specs.Storing.{IsStored, LeavesPart};
ghost use Rattle.memory_report.specs.Histories.{AreGuarded, AreIsolated, Legal, state_after, calls_of};
ghost use Rattle.memory_report.specs.declared.entries.LogEntry.{LogEntry};

use crate::book::{Calls, Name, Opened};
use crate::call_log::CallLog;
use crate::closing::History;
use crate::cpu::Cpu;
use crate::faults::{BootFault, Fault, StoreFault};
use crate::gate::Gate;
use crate::locked::Locked;
use crate::monitor::Monitor;
use crate::publish::{reader_of, writer_of};
use crate::rule::LogWriter;
use crate::tally::{Blanks, Rest};
use crossbeam_utils::Backoff;
use kernel_calls::Core;
use memory_image::Image;
use page_words::{is_frame_count, is_wide_frame_count};
use std::alloc::{AllocError, Global};
use std::io::Write;
use std::marker::Model;
use std::sync::ledger::{self, Share};
use std::sync::{Mutex, MutexGuard, Wait};

/// How often a lock that is held is looked at before a thread sleeps for it.
const LOOKS: u32 = 16;

/// A kernel that has booted, and that no type names yet. Contracts see its sizes, and its names: which book its history
/// is written in, which is empty, which ledger counts its calls, and which core it opens with. End it by `open`.
pub struct Blank<G: Gate + Drop> {
    frames: u32,
    cpus: u8,
    monitors: u8,
    alloc: Global,
    gate: G,
    core: Core,
    opened: Opened,
    log: CallLog,
    writer: LogWriter,
    calls: ledger::Blank,
    tallies: Blanks,
}

impl<G: Gate + Drop> Model for Blank<G> {
    ghost use Rattle.locked_core.specs.Held.{Unnamed};
    ghost use Rattle.locked_core.specs.Invariant.{IsMade};

    ghost Value = { Unnamed };

    ghost view = { λ b. record {
      frames = b.frames;
      cpus = b.cpus;
      monitors = b.monitors;
      book = record {
        history = b.opened.seen.book;
        ledger = b.calls.name;
        parts = b.calls.parts;
        ledgers = b.tallies;
        opening = b.core;
        keeps =
            b.log.keeps;
      };
    } };

    ghost invariant = { λ b. IsMade b.frames b.cpus b.opened.seen.book b.log b.calls.parts b.core.state
        b.writer.desk.shown.value b.writer.desk.spare.value b.writer.desk.place.me.0.client };
}

/// A kernel: its core, log and writer under one lock. Contracts see how many CPUs it has. End it by `close`.
pub struct Kernel<N: Name, G: Gate + Drop> {
    pub(crate) state: Mutex<Locked<N>>,
    cpus: u8,
    pub(crate) gate: G,
}

impl<N: Name, G: Gate + Drop> Model for Kernel<N, G> {
    ghost use Rattle.std.specs.Prelude.{◌≡◌, ◌<◌};
    ghost use Rattle.locked_core.specs.Held.{Shared};

    ghost Value = { Shared };

    ghost view = { λ k. record { cpus = k.cpus } };

    ghost invariant = { λ k. (0 < k.cpus) × (k.cpus ≡ N.book.parts) };
}

/// What an opened kernel returns.
pub struct Boot<N: Name, G: Gate + Drop> {
    pub kernel: Kernel<N, G>,
    /// Its CPUs, numbered from 0 in their order.
    pub cpus: Vec<Cpu<N>>,
    pub monitors: Vec<Monitor<N>>,
}

impl<N: Name, G: Gate + Drop> Kernel<N, G> {
    /// Boots a kernel with a memory of that many frames, for so many CPUs and monitors. The gate is what
    /// each call reaches under the lock. The kernel keeps the entries of all its calls.
    ///
    /// BadSize where the frames are not 16 to 4,096, else BadCount where the CPUs are not 1 to 8 or the
    /// monitors more than 8, else NoMemory where there is none for them.
    pub fn boot<R: Wait>(
        rt: &R,
        alloc: Global,
        frames: u32,
        cpus: u8,
        monitors: u8,
        gate: G,
    ) -> Result<Blank<G>, BootFault>
        ensures made { IfOk result (λ b. (b.frames ≡ frames) × (b.cpus ≡ cpus) × (b.monitors ≡ monitors)) }
        ensures parts { IfOk result (λ b. b.book.parts ≡ cpus) }
        ensures keeps { IfOk result (λ b. b.book.keeps ≡ 2 ^ 64 - 1) }
        ensures size { IsErrOf result BootFault.BadSize ↔ (16 ≤ frames → frames ≤ 4096 → ⊥) }
        ensures count { IsErrOf result BootFault.BadCount ↔ (16 ≤ frames) × (frames ≤ 4096)
            × (1 ≤ cpus → cpus ≤ 8 → monitors ≤ 8 → ⊥) }
        ensures counted { IfOk result (λ _. (1 ≤ cpus) × (cpus ≤ 8) × (monitors ≤ 8)) }
        ensures within { IfOk result (λ _. (16 ≤ frames) × (frames ≤ 4096)) }
    {
        Kernel::<N, G>::boot_keeping(rt, alloc, frames, cpus, monitors, gate, usize::MAX)
    }

    /// Boots a kernel as `boot` does, which keeps only so many of the last entries, and has their memory from now on.
    /// Its calls need no more memory, so that it can run for good: no call is refused for memory before 2 ^ 62 calls
    /// were made (`found` of `Cpu::call`). What is promised of its calls and reports is the same.
    pub fn boot_keeping<R: Wait>(
        rt: &R,
        alloc: Global,
        frames: u32,
        cpus: u8,
        monitors: u8,
        gate: G,
        keeps: usize,
    ) -> Result<Blank<G>, BootFault>
        requires { 2 ≤ keeps }
        ensures made { IfOk result (λ b. (b.frames ≡ frames) × (b.cpus ≡ cpus) × (b.monitors ≡ monitors)) }
        ensures parts { IfOk result (λ b. b.book.parts ≡ cpus) }
        ensures keeps { IfOk result (λ b. b.book.keeps ≡ keeps) }
        ensures size { IsErrOf result BootFault.BadSize ↔ (16 ≤ frames → frames ≤ 4096 → ⊥) }
        ensures count { IsErrOf result BootFault.BadCount ↔ (16 ≤ frames) × (frames ≤ 4096)
            × (1 ≤ cpus → cpus ≤ 8 → monitors ≤ 8 → ⊥) }
        ensures counted { IfOk result (λ _. (1 ≤ cpus) × (cpus ≤ 8) × (monitors ≤ 8)) }
        ensures within { IfOk result (λ _. (16 ≤ frames) × (frames ≤ 4096)) }
    {
        if !is_frame_count(frames) {
            return Err(BootFault::BadSize);
        }
        Kernel::<N, G>::boot_wide_keeping(rt, alloc, frames, cpus, monitors, gate, keeps)
    }

    /// Boots a kernel as `boot` does, of 16 to 1,048,576 frames: up to all 4 GiB that a page word can name. If it has
    /// more than 4,096 frames, `snapshot`, which takes an image, refuses it; `store` writes a snapshot of any size.
    ///
    /// BadSize where the frames are not 16 to 1,048,576, else BadCount where the CPUs are not 1 to 8 or the
    /// monitors more than 8, else NoMemory where there is none for them.
    pub fn boot_wide<R: Wait>(
        rt: &R,
        alloc: Global,
        frames: u32,
        cpus: u8,
        monitors: u8,
        gate: G,
    ) -> Result<Blank<G>, BootFault>
        ensures made { IfOk result (λ b. (b.frames ≡ frames) × (b.cpus ≡ cpus) × (b.monitors ≡ monitors)) }
        ensures parts { IfOk result (λ b. b.book.parts ≡ cpus) }
        ensures keeps { IfOk result (λ b. b.book.keeps ≡ 2 ^ 64 - 1) }
        ensures size { IsErrOf result BootFault.BadSize ↔ (16 ≤ frames → frames ≤ 1048576 → ⊥) }
        ensures count { IsErrOf result BootFault.BadCount ↔ (16 ≤ frames) × (frames ≤ 1048576)
            × (1 ≤ cpus → cpus ≤ 8 → monitors ≤ 8 → ⊥) }
        ensures counted { IfOk result (λ _. (1 ≤ cpus) × (cpus ≤ 8) × (monitors ≤ 8)) }
        ensures within { IfOk result (λ _. (16 ≤ frames) × (frames ≤ 1048576)) }
    {
        Kernel::<N, G>::boot_wide_keeping(rt, alloc, frames, cpus, monitors, gate, usize::MAX)
    }

    /// Boots a kernel as `boot_keeping` does, of 16 to 1,048,576 frames.
    ///
    /// BadSize where the frames are not 16 to 1,048,576, else BadCount where the CPUs are not 1 to 8 or the
    /// monitors more than 8, else NoMemory where there is none for them.
    pub fn boot_wide_keeping<R: Wait>(
        rt: &R,
        alloc: Global,
        frames: u32,
        cpus: u8,
        monitors: u8,
        gate: G,
        keeps: usize,
    ) -> Result<Blank<G>, BootFault>
        requires { 2 ≤ keeps }
        ensures made { IfOk result (λ b. (b.frames ≡ frames) × (b.cpus ≡ cpus) × (b.monitors ≡ monitors)) }
        ensures parts { IfOk result (λ b. b.book.parts ≡ cpus) }
        ensures keeps { IfOk result (λ b. b.book.keeps ≡ keeps) }
        ensures size { IsErrOf result BootFault.BadSize ↔ (16 ≤ frames → frames ≤ 1048576 → ⊥) }
        ensures count { IsErrOf result BootFault.BadCount ↔ (16 ≤ frames) × (frames ≤ 1048576)
            × (1 ≤ cpus → cpus ≤ 8 → monitors ≤ 8 → ⊥) }
        ensures counted { IfOk result (λ _. (1 ≤ cpus) × (cpus ≤ 8) × (monitors ≤ 8)) }
        ensures within { IfOk result (λ _. (16 ≤ frames) × (frames ≤ 1048576)) }
    {
        if !is_wide_frame_count(frames) {
            return Err(BootFault::BadSize);
        }
        if cpus < 1 || cpus > 8 || monitors > 8 {
            return Err(BootFault::BadCount);
        }
        let Ok(core) = Core::boot_wide(alloc, frames) else {
            return Err(BootFault::NoMemory);
        };
        let opened = Opened::new();
        let Ok(log) = CallLog::new(alloc, keeps, &opened.seen) else {
            return Err(BootFault::NoMemory);
        };
        let readers = usize::from(monitors) + 1;
        let Ok(writer) = writer_of(rt, alloc, frames, &opened.seen, readers) else {
            return Err(BootFault::NoMemory);
        };
        Ok(Blank {
            frames,
            cpus,
            monitors,
            alloc,
            gate,
            core,
            opened,
            log,
            writer,
            calls: ledger::Blank::new(u64::from(cpus)),
            tallies: Blanks::new(),
        })
    }

    /// Takes the lock. While another thread has it, it polls with back-off, so that many calls of one CPU continue
    /// undisturbed in a row, and their memory need not come from another processor. Then the thread sleeps for it.
    pub(crate) fn taken<R: Wait>(&self, rt: &R) -> MutexGuard<'_, Locked<N>> {
        // (no clause can say how often a thread polls)
        prove!(LOOKS <= 64);
        let backoff = Backoff::new();
        for _ in 0..LOOKS {
            if let Some(guard) = self.state.try_lock() {
                return guard;
            }
            backoff.spin();
        }
        self.state.lock(rt)
    }

    /// Takes the image of the kernel's memory, of one moment between calls: waits for the lock. The CPU has
    /// the calls and has seen what it had.
    ///
    /// The faults come in this order. Unread: the turn to add the next entry can't be taken, since the kernel's history
    /// is longer than the log or another has this turn. TooManyFrames: the kernel has more than 4,096 frames. NoMemory:
    /// there is no memory for the image.
    pub fn snapshot<R: Wait>(&self, rt: &R, cpu: &mut Cpu<N>) -> Result<Image, Fault>
        ensures taken { IfOk result (λ image. (history : List LogEntry) × IsSnapshot N.frames cpu.old image history) }
        ensures shows { IfOk result (λ image. (moments : List Moment) × IsShown N.book.opening cpu.old image moments) }
        ensures kept { cpu.new ≡ cpu.old }
        ensures large { 4096 < N.frames → IsErrOf result Fault.TooManyFrames ⊎ IsErrOf result Fault.Unread }
        ensures refused { IfErr result (λ f. (log : List LogEntry) × IsRefused N.frames log cpu.old f) }
    {
        let mut guard = self.taken(rt);
        let image = guard.snapshot(cpu);
        MutexGuard::unlock(guard);
        image
    }

    /// Writes the snapshot of the kernel's whole machine, with its pending offers, of one moment between calls: waits
    /// for the lock, and has it until all is written. The CPU has the calls and has seen what it had.
    ///
    /// Unread as for a call, NoMemory if there is no memory for the list of offers; nothing was written then. WriteFailed
    /// if a write fails; nothing was written then, or a prefix.
    pub fn store<R: Wait, W: Write>(
        &self,
        rt: &R,
        cpu: &mut Cpu<N>,
        writer: &mut W,
    ) -> Result<(), StoreFault>
        ensures stored { IfOk result (λ _. (moments : List Moment) × IsStored N.frames N.book.opening cpu.old
            (W.contents writer.old) (W.contents writer.new) moments) }
        ensures part { OnErr result (LeavesPart N.frames N.book.opening cpu.old
            (W.contents writer.old) (W.contents writer.new)) }
        ensures unread { IsErrOf result StoreFault.Unread → W.contents writer.new ≡ W.contents writer.old }
        ensures unwritten { IsErrOf result StoreFault.NoMemory → W.contents writer.new ≡ W.contents writer.old }
        ensures kept { cpu.new ≡ cpu.old }
    {
        let mut guard = self.taken(rt);
        let written = guard.store(cpu, writer);
        MutexGuard::unlock(guard);
        written
    }

    /// Ends the kernel, and returns its history, if each CPU came back once and agrees with the log.
    ///
    /// Disagree if a CPU did not come back exactly once, has seen more than the log, or made another number of calls
    /// than the log has of it. Disagree also if an entry is of none of these CPUs. Nothing is returned then.
    pub fn close<R: Wait>(self, rt: &R, cpus: Vec<Cpu<N>>) -> Result<History, Fault>
        ensures legal { IfOk result (λ h. Legal N.frames h.entries × (h.core.state ≡ state_after N.frames h.entries)) }
        ensures left { IfOk result (λ h. (moments : List Moment)
            × IsLeft N.book.opening cpus.items h.entries h.core moments) }
        ensures begins { IfOk result (λ h. All (λ c. take (length c.seen) h.entries ≡ c.seen) cpus.items) }
        ensures calls { IfOk result (λ h. All (λ c. calls_of c.number h.entries ≡ calls_of c.number c.seen)
            cpus.items) }
        ensures counted { IfOk result (λ h. calls_of_all cpus.items ≡ length h.entries) }
        ensures all { IfOk result (λ h. All (λ e. Any (λ c. c.number ≡ e.cpu) cpus.items) h.entries) }
        ensures isolated { IfOk result (λ h. AreIsolated N.frames h.entries) }
        ensures guarded { IfOk result (λ h. AreGuarded N.frames h.entries) }
        ensures closes { (moments : List Moment) × IsHistory N.frames N.book.opening self.cpus cpus.items moments
            × Closes self.cpus (entries_in moments) cpus.items result
            × IfOk result (λ h. h.entries ≡ entries_in moments) }
        ensures kept { IfOk result (λ h. h.kept ≡ last_of N.book.keeps h.entries) }
        ensures whole { IfOk result (λ h. 2 ^ 62 ≤ N.book.keeps → h.kept ≡ h.entries) }
    {
        let Kernel {
            state,
            cpus: count,
            gate: _,
        } = self;
        state.into_inner().close(rt, cpus, count)
    }
}

impl<G: Gate + Drop> Blank<G> {
    /// Names the kernel, and returns its CPUs and monitors.
    ///
    /// NoMemory if there is none for them; nothing is returned then.
    pub fn open<N: Name, R: Wait>(self, rt: &R) -> Result<Boot<N, G>, BootFault>
        requires { (self.frames ≡ N.frames) × (self.book ≡ N.book) }
        ensures count { IfOk result (λ b. b.kernel.cpus ≡ self.cpus) }
        ensures cpus { IfOk result (λ b. b.cpus.items ≡ new_makers self.cpus) }
        ensures monitors { IfOk result (λ b. b.monitors.items ≡ replicate self.monitors []) }
        ensures memory { IfErr result (λ f. f ≡ BootFault.NoMemory) }
    {
        let Blank {
            frames: _,
            cpus: count,
            monitors: watchers,
            alloc,
            gate,
            core,
            opened,
            log,
            mut writer,
            calls,
            tallies,
        } = self;
        let (counted, shares) = calls.open::<Calls<N>>();
        let (tally, rest) = tallies.open::<N>();
        let mut uncut = Uncut { shares, rest };
        let Ok((cpus, monitors)) = seats(alloc, &mut writer, count, watchers, &mut uncut) else {
            writer.take(rt);
            return Err(BootFault::NoMemory);
        };
        let locked = Locked::new(core, log, opened, writer, watchers > 0, counted, tally);
        Ok(Boot {
            kernel: Kernel {
                state: Mutex::new(locked),
                cpus: count,
                gate,
            },
            cpus,
            monitors,
        })
    }
}

/// What is cut into a part for each CPU: the shares of the ledger of all calls, and of those of each CPU's own.
#[derive(Drop)]
struct Uncut<N: Name> {
    shares: Share<Calls<N>>,
    rest: Rest<N>,
}

/// The CPUs, numbered from 0, each with one part of the shares, and the monitors.
fn seats<N: Name>(
    alloc: Global,
    writer: &mut LogWriter,
    count: u8,
    watchers: u8,
    uncut: &mut Uncut<N>,
) -> Result<(Vec<Cpu<N>>, Vec<Monitor<N>>), AllocError>
    requires few { count ≤ 8 }
    requires parts { count ≡ N.book.parts }
    requires shares { (uncut.old.shares.parts ≡ count) × (uncut.old.shares.amount ≡ 0) }
    requires rest { (uncut.old.rest.parts ≡ replicate 8 1) × (uncut.old.rest.amounts ≡ replicate 8 0) }
    requires writer { (writer.old.desk.shown.value ≡ page N.frames N.book.history [])
        × (view writer.old.desk.place ≡ view_of N.frames N.book.history) }
    ensures writer { (view writer.new.desk.place ≡ view writer.old.desk.place)
        × (writer.new.desk.shown ≡ writer.old.desk.shown) × (writer.new.desk.spare ≡ writer.old.desk.spare) }
    ensures cpus { IfOk result (λ t. t.0.items ≡ new_makers count) }
    ensures monitors { IfOk result (λ t. t.1.items ≡ replicate watchers []) }
{
    let mut cpus = Vec::new(alloc);
    for number in 0..count {
        let share = uncut.shares.split_off(1, 0);
        let own = uncut.rest.take(number);
        let front = writer.published().front::<N>();
        cpus.push(Cpu::new(number, front, share, own))?;
    }
    let mut monitors = Vec::new(alloc);
    for seat in 0..watchers {
        let front = writer.published().front::<N>();
        monitors.push(Monitor::new(reader_of(writer)?, front))?;
    }
    Ok((cpus, monitors))
}
