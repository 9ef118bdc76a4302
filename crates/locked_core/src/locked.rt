//! The value under the lock.

ghost use Rattle.std.specs.Prelude.{◌≡◌, ◌≤◌, ◌<◌, ◌+◌, ◌==◌, ◌^◌, ◌++◌, [], ◌∷◌, replicate, IfOk, IfErr, IfSome, IsErrOf, OnErr, OnOk, List, length, true, ◌⊎◌};
ghost use Rattle.kernel_calls.specs.Translations.{ended_by, of_call, Ends};
ghost use Rattle.left_right.specs.Sides.{view};
ghost use Rattle.locked_core.specs.Counts.{last_of};
ghost use Rattle.locked_core.specs.Endings.{EndsAtLast};
ghost use Rattle.locked_core.specs.Makers.{AreAll, AreOfCpus, Closes, IsFollowed, IsHistory, IsLeft, IsRefused, Makes, Prevents, Refuses, calls_of_all, maker_of};
ghost use Rattle.locked_core.specs.Moments.{Begins, Follows, core_after, entries_in, moment};
ghost use Rattle.locked_core.specs.Pages.{page};
ghost use Rattle.locked_core.specs.Published.{view_of};
ghost use Rattle.memory_image.specs.Machine.{IsImageOf};
ghost use Rattle.memory_image.specs.Sound.{StandsFor};
ghost use Rattle.memory_report.specs.Histories.{AreGuarded, AreIsolated, Legal, StartsWith, state_after, calls_of, entry_after};
ghost use Rattle.locked_core.specs.Rules.{head_of, turn_after};
ghost use Rattle.locked_core.specs.Storing.{IsPlace};
ghost use Rattle.wide_image.specs.Stored.{StoresMachine, StoresFront};
ghost use Rattle.memory_report.specs.declared.entries.LogEntry.{LogEntry};
ghost use Rattle.process_table.specs.State.{open_with};

use crate::book::{Calls, Front, Name, Opened};
use crate::call_log::{CallLog, entry_of};
use crate::closing::{History, are_all, merged};
use crate::cpu::Cpu;
use crate::faults::{Fault, StoreFault};
use crate::gate::{Gate, Point};
use crate::head::Head;
use crate::publish::keep_up;
use crate::rule::LogWriter;
use crate::tally::Tally;
use crate::turn::Turn;
use kernel_calls::{Call, Core, Ended, Event, Reply};
use memory_image::{CoreImageFault, Image};
use page_words::Pid;
use std::io::Write;
use std::marker::Model;
use std::sync::Wait;
use std::sync::ledger::Book;
use wide_image::write_core;

/// A call that was checked under the lock: how many entries its CPU had then, its event, and its turn to add the next
/// entry to the history. It can be carried out only on the log that it was checked on.
#[derive(Drop)]
pub struct Ready<N: Name> {
    nth: usize,
    event: Event,
    turn: Turn<N>,
}

/// A call of a process, and whether it is asked which translations the call ends.
#[derive(Drop)]
pub(crate) struct Asked {
    pub(crate) pid: Pid,
    pub(crate) call: Call,
    pub(crate) ends: bool,
}

/// The core, the log of all calls, the history that it is, and what publishes it. Contracts see the core and the log,
/// which is a legal history. The core is in the state after it, and it is all that was added to the kernel's history.
/// If a monitor is to read it, what is published reports on it, and otherwise on a prefix of it, as the side that is
/// not published does.
pub struct Locked<N: Name> {
    core: Core,
    log: CallLog,
    head: Head<N>,
    writer: LogWriter,
    /// Whether there is a monitor, which reads what is published.
    is_watched: bool,
    /// The total of the calls that the CPUs made.
    counted: Book<Calls<N>>,
    /// How many calls each CPU made.
    tally: Tally<N>,
}

impl<N: Name> Model for Locked<N> {
    ghost use Rattle.locked_core.specs.Held.{UnderLock};
    ghost use Rattle.locked_core.specs.Invariant.{IsUnderLock};

    ghost Value = { UnderLock };

    ghost view = { λ l. record {
      core = l.core;
      log = l.log.entries;
      moments = l.head;
      is_watched = l.is_watched;
    } };

    ghost invariant = { λ l. IsUnderLock N.frames N.book.parts N.book.keeps N.book.history N.book.opening l.core l.log.entries
        l.log.keeps l.head
        l.counted.total l.tally l.is_watched l.writer.desk.shown.value l.writer.desk.spare.value
        l.writer.desk.place.me.0.client };
}

impl<N: Name> Locked<N> {
    /// The core in its opening state, and no entry. What is published is kept up with the log where a monitor reads it.
    pub(crate) fn new(
        core: Core,
        log: CallLog,
        opened: Opened,
        writer: LogWriter,
        is_watched: bool,
        counted: Book<Calls<N>>,
        tally: Tally<N>,
    ) -> Locked<N>
        requires size { (16 ≤ N.frames) × (N.frames ≤ 1048576) }
        requires log { (log.entries ≡ []) × (log.keeps ≡ N.book.keeps) }
        requires keeps { 2 ≤ N.book.keeps }
        requires counted { (counted.total ≡ 0) × (tally ≡ replicate 8 0) }
        requires core { core.state ≡ open_with N.frames }
        requires opening { core ≡ N.book.opening }
        requires book { opened.seen.book ≡ N.book.history }
        requires writer { (writer.desk.shown.value ≡ page N.frames N.book.history [])
            × (view writer.desk.place ≡ view_of N.frames N.book.history) }
        requires spare { writer.desk.spare.value ≡ page N.frames N.book.history [] }
        ensures log { result.log ≡ [] }
        ensures core { result.core.state ≡ open_with N.frames }
        ensures watched { result.is_watched ≡ is_watched }
    {
        core.stands();
        Locked {
            core,
            log,
            head: Head::new(opened),
            writer,
            is_watched,
            counted,
            tally,
        }
    }

    /// Takes the turn to add the next entry, with which this CPU fits the log: it has as many calls as the log has of
    /// it, and what it has seen begins the log. None where the turn can't be taken. Nothing changes that contracts see.
    fn fit(&mut self, cpu: &mut Cpu<N>) -> Option<Turn<N>>
        ensures turn { IfSome result (λ t. t ≡ turn_after self.old.moments) }
        ensures legal { Legal N.frames self.old.log }
        ensures opened { N.book.opening.state ≡ open_with N.frames }
        ensures follows { Follows N.book.opening self.old.moments }
        ensures fits { IfSome result (λ _. StartsWith self.old.log cpu.old.seen
            × (calls_of cpu.old.number self.old.log ≡ calls_of cpu.old.number cpu.old.seen)) }
        ensures begins { IfSome result (λ _. Begins self.old.moments cpu.old.moments) }
        ensures told { IfSome result (λ _. Begins self.old.moments cpu.old.told) }
        ensures history { entries_in self.old.moments ≡ self.old.log }
        ensures cpus { AreOfCpus N.book.parts self.old.log }
        ensures stands { self.old.core.state ≡ state_after N.frames self.old.log }
        ensures left { core_after N.book.opening self.old.moments ≡ self.old.core }
        ensures same { (self.new ≡ self.old) × (cpu.new ≡ cpu.old) }
    {
        let turn = self.head.take_turn(&self.log, &cpu.told)?;
        cpu.audit(&mut self.tally);
        Some(turn)
    }

    /// The image of the core, for this CPU.
    ///
    /// Unread as for a call; TooManyFrames where the kernel has more than 4,096, else NoMemory where there is no memory for
    /// the image.
    pub(crate) fn snapshot(&mut self, cpu: &mut Cpu<N>) -> Result<Image, Fault>
        ensures legal { IfOk result (λ _. Legal N.frames self.old.log) }
        ensures stands { IfOk result (λ image. StandsFor image (state_after N.frames self.old.log)) }
        ensures shows { IfOk result (λ image. IsImageOf (core_after N.book.opening self.old.moments) image) }
        ensures follows { Follows N.book.opening self.old.moments }
        ensures begins { IfOk result (λ _. Begins self.old.moments cpu.old.moments) }
        ensures fits { IfOk result (λ _. StartsWith self.old.log cpu.old.seen
            × (calls_of cpu.old.number self.old.log ≡ calls_of cpu.old.number cpu.old.seen)) }
        ensures large { 4096 < N.frames → IsErrOf result Fault.TooManyFrames ⊎ IsErrOf result Fault.Unread }
        ensures refused { IfErr result (IsRefused N.frames self.old.log cpu.old) }
        ensures same { (self.new ≡ self.old) × (cpu.new ≡ cpu.old) }
    {
        let Some(turn) = self.fit(cpu) else {
            return Err(Fault::Unread);
        };
        self.head.give_back(turn);
        self.core.stands();
        match Image::of(self.log.allocator(), &self.core) {
            Ok(image) => Ok(image),
            Err(CoreImageFault::TooManyFrames) => Err(Fault::TooManyFrames),
            Err(CoreImageFault::NoMemory) => Err(Fault::NoMemory),
        }
    }

    /// Writes the snapshot of the core, with its offers, for this CPU.
    ///
    /// Unread as for a call, NoMemory where there is none for the offers; nothing is written then. WriteFailed where a write
    /// fails.
    pub(crate) fn store<W: Write>(
        &mut self,
        cpu: &mut Cpu<N>,
        writer: &mut W,
    ) -> Result<(), StoreFault>
        ensures place { IsErrOf result StoreFault.Unread
            ⊎ IsPlace N.frames N.book.opening cpu.old self.old.moments }
        ensures stored { OnOk result (StoresMachine (core_after N.book.opening self.old.moments)
            (W.contents writer.old) (W.contents writer.new)) }
        ensures part { OnErr result (StoresFront (core_after N.book.opening self.old.moments)
            (W.contents writer.old) (W.contents writer.new)) }
        ensures unread { IsErrOf result StoreFault.Unread → W.contents writer.new ≡ W.contents writer.old }
        ensures unwritten { IsErrOf result StoreFault.NoMemory → W.contents writer.new ≡ W.contents writer.old }
        ensures same { (self.new ≡ self.old) × (cpu.new ≡ cpu.old) }
    {
        let Some(turn) = self.fit(cpu) else {
            return Err(StoreFault::Unread);
        };
        self.head.give_back(turn);
        match write_core(self.log.allocator(), &self.core, writer) {
            Ok(()) => Ok(()),
            Err(wide_image::StoreFault::NoMemory) => Err(StoreFault::NoMemory),
            Err(wide_image::StoreFault::WriteFailed) => Err(StoreFault::WriteFailed),
        }
    }

    /// Checks a call of this CPU, and takes its turn to add the next entry. Nothing changes that contracts see.
    ///
    /// Unread where the turn can't be taken.
    pub(crate) fn judge(
        &mut self,
        cpu: &mut Cpu<N>,
        pid: Pid,
        call: Call,
    ) -> Result<Ready<N>, Fault>
        ensures legal { IfOk result (λ _. Legal N.frames self.old.log) }
        ensures nth { IfOk result (λ r. (cpu.old.number < 8) × (r.nth ≡ calls_of cpu.old.number self.old.log)) }
        ensures part { IfOk result (λ _. cpu.old.number < N.book.parts) }
        ensures cpus { AreOfCpus N.book.parts self.old.log }
        ensures event { IfOk result (λ r. r.event ≡ record { cpu = cpu.old.number; pid = pid; call = call }) }
        ensures turn { IfOk result (λ r. r.turn ≡ turn_after self.old.moments) }
        ensures fits { IfOk result (λ _. StartsWith self.old.log cpu.old.seen
            × (calls_of cpu.old.number self.old.log ≡ calls_of cpu.old.number cpu.old.seen)) }
        ensures begins { IfOk result (λ _. Begins self.old.moments cpu.old.moments) }
        ensures told { IfOk result (λ _. Begins self.old.moments cpu.old.told) }
        ensures opened { N.book.opening.state ≡ open_with N.frames }
        ensures follows { Follows N.book.opening self.old.moments }
        ensures history { entries_in self.old.moments ≡ self.old.log }
        ensures refused { IfErr result (IsRefused N.frames self.old.log cpu.old) }
        ensures unread { IfErr result (λ f. f ≡ Fault.Unread) }
        ensures same { (self.new ≡ self.old) × (cpu.new ≡ cpu.old) }
    {
        let Some(turn) = self.fit(cpu) else {
            return Err(Fault::Unread);
        };
        let event = Event {
            cpu: cpu.number(),
            pid,
            call,
        };
        let nth = self.log.calls_of(event.cpu);
        Ok(Ready { nth, event, turn })
    }

    /// Carries out a call of this CPU that was checked on this very log. It reserves space in the log, decides and
    /// carries the call out in one step, and adds its entry and the core that it left to the history. Then it logs,
    /// counts and publishes it. Returns its reply; the CPU has then seen the log with its entry. It may wait only to
    /// publish.
    ///
    /// NoMemory where the log can't grow; the CPU has then seen the log, and nothing else has changed. A log that keeps only
    /// its last entries can't grow once it has 2 ^ 62.
    pub(crate) fn carry_out<R: Wait>(
        &mut self,
        rt: &R,
        ready: Ready<N>,
        cpu: &mut Cpu<N>,
    ) -> Result<Reply, Fault>
        requires nth { (ready.event.cpu < 8) × (ready.nth ≡ calls_of ready.event.cpu self.old.log) }
        requires part { ready.event.cpu < N.book.parts }
        requires turn { ready.turn ≡ turn_after self.old.moments }
        requires own { (ready.event.cpu ≡ cpu.old.number)
            × (calls_of cpu.old.number self.old.log ≡ calls_of cpu.old.number cpu.old.seen) }
        ensures log { IfOk result (λ _. self.new.log
            ≡ self.old.log ++ entry_after N.frames self.old.log ready.event.cpu ready.event.pid ready.event.call ∷ []) }
        ensures reply { IfOk result (λ r. r ≡ (entry_after N.frames self.old.log ready.event.cpu ready.event.pid
            ready.event.call).reply) }
        ensures made { IfOk result (λ _. cpu.new ≡ maker_of cpu.old.number self.new.moments) }
        ensures moments { IfOk result (λ _. self.new.moments
            ≡ self.old.moments ++ moment (entry_after N.frames self.old.log ready.event.cpu ready.event.pid
            ready.event.call) self.new.core ∷ []) }
        ensures told { IfOk result (λ _. (entries_in self.old.moments ≡ self.old.log)
            × (entries_in self.new.moments ≡ self.new.log)) }
        ensures left { IfOk result (λ _. core_after N.book.opening self.old.moments ≡ self.old.core) }
        ensures follows { IfOk result (λ _. Follows N.book.opening self.new.moments) }
        ensures number { cpu.new.number ≡ cpu.old.number }
        ensures legal { IfOk result (λ _. Legal N.frames self.new.log) }
        ensures calls { IfOk result (λ _. calls_of ready.event.cpu self.new.log
            ≡ calls_of ready.event.cpu self.old.log + 1) }
        ensures state { IfOk result (λ _. self.new.core.state ≡ state_after N.frames self.new.log) }
        ensures ends { IfOk result (λ _. Ends (ended_by self.old.core ready.event) self.old.core self.new.core) }
        ensures watched { self.new.is_watched ≡ self.old.is_watched }
        ensures prevented { IfErr result Prevents }
        ensures spent { OnErr result (N.book.keeps < 2 ^ 62 → 2 ^ 62 ≤ length self.old.log) }
        ensures found { OnErr result (cpu.new ≡ maker_of cpu.old.number self.old.moments) }
        ensures err { OnErr result (self.new ≡ self.old) }
    {
        let Locked {
            core,
            log,
            head,
            writer,
            is_watched,
            counted,
            tally,
        } = self;
        let Ready { nth, event, turn } = ready;
        if log.reserve().is_err() {
            head.give_back(turn);
            cpu.found(front_of(log, head));
            return Err(Fault::NoMemory);
        }
        let outcome = core.perform(&event);
        core.stands();
        let entry = entry_of(&event, nth, &outcome);
        head.add(turn, log, &entry, core);
        let all = head.all();
        log.push(&entry, &all);
        keep_up(rt, writer, *is_watched, log, &all);
        cpu.made(front_of(log, head), counted, tally);
        Ok(entry.reply)
    }

    /// Which translations an event ends on the core under the lock if it completes, if that is asked; otherwise Nothing.
    #[inline(always)]
    fn may_end(&self, asked: bool, event: &Event) -> Ended
        ensures asked { asked ≡ true → result ≡ of_call self.now.core event.now.pid event.now.call }
        ensures stands { self.now.core.state ≡ state_after N.frames self.now.log }
    {
        if asked {
            self.core.may_end(event)
        } else {
            Ended::Nothing
        }
    }

    /// Makes a call of this CPU: checks it, reaches the gate, and carries it out. Returns its reply. If it is asked to,
    /// it also returns which translations the call ended, and otherwise Nothing.
    ///
    /// Refused as `judge` and `carry_out` are; nothing has changed then that lies under the lock.
    pub(crate) fn make<G: Gate + Drop, R: Wait>(
        &mut self,
        rt: &R,
        gate: &G,
        cpu: &mut Cpu<N>,
        asked: Asked,
    ) -> Result<(Reply, Ended), Fault>
        ensures made { IfOk result (λ r. Makes N.frames cpu.old asked.pid asked.call cpu.new r.0) }
        ensures ended { asked.ends ≡ true → IfOk result (λ r. EndsAtLast N.frames N.book.opening cpu.new r.1) }
        ensures followed { IfOk result (λ _. IsFollowed N.book.opening cpu.old cpu.new) }
        ensures learned { IfOk result (λ _. Begins cpu.new.moments cpu.old.told) }
        ensures isolated { IfOk result (λ _. AreIsolated N.frames cpu.new.seen) }
        ensures guarded { IfOk result (λ _. AreGuarded N.frames cpu.new.seen) }
        ensures cpus { IfOk result (λ _. AreOfCpus N.book.parts cpu.new.seen) }
        ensures opened { N.book.opening.state ≡ open_with N.frames }
        ensures number { cpu.new.number ≡ cpu.old.number }
        ensures calls { IfOk result (λ _. calls_of cpu.new.number cpu.new.seen
            ≡ calls_of cpu.old.number cpu.old.seen + 1) }
        ensures all { IfOk result (λ _. cpu.new.moments ≡ self.new.moments) }
        ensures watched { self.new.is_watched ≡ self.old.is_watched }
        ensures refused { IfErr result (IsRefused N.frames self.old.log cpu.old) }
        ensures found { IfErr result (Refuses N.frames N.book cpu.old cpu.new) }
        ensures err { OnErr result (self.new ≡ self.old) }
    {
        let ready = self.judge(cpu, asked.pid, asked.call)?;
        gate.reach(Point::Locked);
        let ended = self.may_end(asked.ends, &ready.event);
        let reply = self.carry_out(rt, ready, cpu)?;
        let ended = ended.if_completed(&reply);
        Ok((reply, ended))
    }

    /// Returns the history, if these CPUs are all of so many, and agree with the log.
    ///
    /// Disagree if they are not, or do not; nothing is returned then.
    pub(crate) fn close<R: Wait>(
        self,
        rt: &R,
        cpus: Vec<Cpu<N>>,
        count: u8,
    ) -> Result<History, Fault>
        requires count { (0 < count) × (count ≡ N.book.parts) }
        ensures log { Legal N.frames self.log }
        ensures history { IsHistory N.frames N.book.opening count cpus.items self.moments }
        ensures told { entries_in self.moments ≡ self.log }
        ensures closes { Closes count self.log cpus.items result }
        ensures entries { IfOk result (λ h. h.entries ≡ self.log) }
        ensures kept { IfOk result (λ h. h.kept ≡ last_of N.book.keeps h.entries) }
        ensures few { IfOk result (λ h. length h.entries ≤ 2 ^ 62) }
        ensures legal { IfOk result (λ h. Legal N.frames h.entries × (h.core.state ≡ state_after N.frames h.entries)) }
        ensures all { IfOk result (λ h. AreAll count h.entries cpus.items) }
        ensures left { IfOk result (λ h. IsLeft N.book.opening cpus.items h.entries h.core self.moments) }
        ensures counted { IfOk result (λ h. calls_of_all cpus.items ≡ length h.entries) }
    {
        let Locked {
            core,
            log,
            head,
            writer,
            is_watched: _,
            mut counted,
            mut tally,
        } = self;
        let front = front_of(&log, &head);
        writer.take(rt);
        let agree = are_all(cpus.as_slice(), count, &log, &front);
        let mut others = cpus;
        let Some(first) = others.pop() else {
            return Err(Fault::Disagree);
        };
        counted.audit(&mut merged(first, others, &front, &mut tally));
        if !agree {
            return Err(Fault::Disagree);
        }
        let (kept, all) = log.into_entries();
        Ok(History::new(kept, core, all))
    }
}

/// The log, as the beginning of the history that was seen.
fn front_of<N: Name>(log: &CallLog, head: &Head<N>) -> Front<N>
    requires all { entries_in head.now ≡ log.now.entries }
    requires legal { Legal N.frames log.now.entries }
    ensures { result ≡ head.now }
{
    Front::new(log.len(), head.all())
}
