//! What a closed kernel returns, and whether the CPUs that came back are all of its log's.

ghost use Rattle.std.specs.Prelude.{◌≡◌, ◌+◌, ◌<◌, ◌↔◌, All, Any, IsTrue, vec_len};
ghost use Rattle.locked_core.specs.Makers.{AreAll, IsFit, IsOfOne, IsOneOf, IsTallied, calls_of_all};
ghost use Rattle.locked_core.specs.Moments.{Begins, entries_in};
ghost use Rattle.memory_report.specs.Histories.{calls_of};

use crate::book::{Beginning, Calls, Front, Name};
use crate::call_log::CallLog;
use crate::cpu::Cpu;
use crate::tally::Tally;
use kernel_calls::Core;
use memory_report::LogEntry;
use std::marker::Model;
use std::sync::ledger::Share;

/// All calls of a kernel that was closed, and the core that they left. Contracts see the entries of all calls, those of
/// the last ones that were kept, and the core.
#[derive(Drop)]
pub struct History {
    kept: Vec<LogEntry>,
    core: Core,
    /// All entries, of which nothing is stored.
    all: Beginning,
}

impl Model for History {
    ghost use Rattle.locked_core.specs.Held.{Closed};
    ghost use Rattle.locked_core.specs.Moments.{entries_in};

    ghost Value = { Closed };

    ghost view = { λ h. record { entries = entries_in h.all.log; kept = h.kept.items; core = h.core } };
}

impl History {
    pub(crate) fn new(kept: Vec<LogEntry>, core: Core, all: Beginning) -> History
        ensures { result ≡ record { entries = entries_in all.log; kept = kept.items; core = core } }
    {
        History { kept, core, all }
    }

    /// The entries that were kept, in the order in which their calls were carried out: those of all calls, unless the
    /// kernel keeps only the last ones.
    pub fn entries(&self) -> &[LogEntry]
        ensures { result.now ≡ self.now.kept }
    {
        self.kept.as_slice()
    }

    /// The core, as the last call left it.
    pub fn core(&self) -> &Core
        ensures { result.now ≡ self.now.core }
    {
        &self.core
    }
}

/// Whether each CPU made the calls that the log has of it, and has seen no more than the log. What it
/// has seen then begins the log.
fn agree<N: Name>(cpus: &[Cpu<N>], log: &CallLog, front: &Front<N>) -> bool
    requires { entries_in front.now ≡ log.now.entries }
    ensures fit { IsTrue result ↔ All (λ c. IsFit log.now.entries c) cpus.now }
    ensures moments { IsTrue result → All (λ c. Begins front.now c.moments) cpus.now }
{
    cpus.iter().all(|c| c.agrees(log, front))
}

/// Whether the number is of one of these CPUs.
#[tactic(auto, unfolding(crate::specs::Makers::IsOneOf))]
fn is_one_of<N: Name>(cpus: &[Cpu<N>], number: u8) -> bool
    ensures { IsTrue result ↔ IsOneOf cpus.now number }
{
    cpus.iter().any(|c| c.number() == number)
}

/// Whether the number is of one of these CPUs, or of none that has an entry.
fn is_known<N: Name>(cpus: &[Cpu<N>], log: &CallLog, number: u8) -> bool
    requires { number < 8 }
    ensures { IsTrue result ↔ (0 < calls_of number log.now.entries → IsOneOf cpus.now number) }
{
    log.calls_of(number) == 0 || is_one_of(cpus, number)
}

/// Whether each entry is of one of these CPUs. It reads no entry, since the log knows how many each CPU has.
fn all_known<N: Name>(cpus: &[Cpu<N>], log: &CallLog) -> bool
    ensures { IsTrue result ↔ All (λ e. IsOneOf cpus.now e.cpu) log.now.entries }
{
    log.small_numbers();
    for number in 0..8 {
        if !is_known(cpus, log, number) {
            return false;
        }
    }
    true
}

/// Whether these are all of so many CPUs, whose calls are the log.
pub fn are_all<N: Name>(cpus: &[Cpu<N>], count: u8, log: &CallLog, front: &Front<N>) -> bool
    requires { entries_in front.now ≡ log.now.entries }
    ensures all { IsTrue result ↔ AreAll count log.now.entries cpus.now }
    ensures moments { IsTrue result → All (λ c. Begins front.now c.moments) cpus.now }
{
    if cpus.len() != usize::from(count) {
        return false;
    }
    if !agree(cpus, log, front) {
        return false;
    }
    all_known(cpus, log)
}

/// The share of a CPU, which counts its calls. What it has seen is compared with the front, and its number of calls with
/// the one that is counted for it.
fn share_of<N: Name>(mut cpu: Cpu<N>, front: &Front<N>, tally: &mut Tally<N>) -> Share<Calls<N>>
    ensures share { (result.parts ≡ 1) × (result.amount ≡ calls_of cpu.number cpu.seen) }
    ensures one { IsOfOne front.now cpu }
    ensures tallied { IsTallied tally.old cpu }
    ensures tally { tally.new ≡ tally.old }
{
    cpu.is_of_one(front);
    cpu.audit(tally);
    cpu.into_share()
}

/// The shares of these CPUs as one, which counts all their calls. What each has seen is compared with the front, and its
/// number of calls with the one that is counted for it.
pub fn merged<N: Name>(
    first: Cpu<N>,
    mut others: Vec<Cpu<N>>,
    front: &Front<N>,
    tally: &mut Tally<N>,
) -> Share<Calls<N>>
    ensures parts { result.parts ≡ vec_len others + 1 }
    ensures amount { result.amount ≡ calls_of_all others.items + calls_of first.number first.seen }
    ensures one { IsOfOne front.now first × All (λ c. IsOfOne front.now c) others.items }
    ensures tallied { IsTallied tally.old first × All (λ c. IsTallied tally.old c) others.items }
{
    let mut all = share_of(first, front, tally);
    while let Some(cpu) = others.pop() {
        all.merge(share_of(cpu, front, tally));
    }
    all
}
