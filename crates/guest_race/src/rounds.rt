//! A round of a race, from the kernel's boot to its end.

ghost use Rattle.std.specs.Prelude.{◌≡◌, ◌∷◌, ◌≤◌, [], IfOk, IfSome, IsTrue, None, Some, Ok, vec_len};
ghost use Rattle.std.specs.Vec.{vec_capacity};
ghost use Rattle.locked_core.specs.Makers.{maker};
ghost use Rattle.memory_report.specs.Reports.{report_of};
ghost use Rattle.guest_race.specs.Asked.{IsAsked};
ghost use Rattle.guest_race.specs.Rounds.{Closes, IsReported, Reports};

use crate::audits::audit_memory;
use crate::faults::{RoundFault, graver, told_cause};
use crate::guests::play_opened;
use crate::referees::{Asks, Referee};
use locked_core::{Blank, Boot, Cpu, History, Kernel, Monitor, Name, OpenGate};
use memory_report::{Report, report_of};
use std::alloc::Global;
use std::marker::Brand;
use std::sync::Wait;
use std::thread::Threads;

/// Returns the report of a monitor that has learned what both CPUs have seen; None if it gives none.
fn report_told<N: Name, F: Referee>(
    referee: &mut F,
    monitor: &mut Monitor<N>,
    first: &Cpu<N>,
    second: &Cpu<N>,
) -> Option<Report>
    ensures asked { IfSome result (λ report. F.reported referee.old report referee.new) }
    ensures report { IfSome result (λ report. Reports N.frames first.now.seen second.now.seen report) }
{
    monitor.learn(first.tell());
    monitor.learn(second.tell());
    let seen = referee.report(monitor)?;
    Some(seen.report)
}

fn is_same(a: &Report, b: &Report) -> bool
    ensures { IsTrue result → a.now ≡ b.now }
{
    a == b
}

/// The report of a kernel that was closed, where it is also the one that its monitor gave.
fn same_report(reported: Option<Report>, history: &History) -> Result<Report, RoundFault>
    ensures core { IfOk result (λ report. report ≡ report_of history.now.core.state) }
    ensures reported { IfOk result (λ report. reported ≡ Some report) }
{
    let report = report_of(history.core());
    match reported {
        Some(found) if is_same(&found, &report) => Ok(report),
        _ => Err(RoundFault::Failed),
    }
}

/// Returns the report if there is no cause. Otherwise returns the cause, or the graver of it and the fault.
fn judged(
    cause: Option<RoundFault>,
    report: Result<Report, RoundFault>,
) -> Result<Report, RoundFault>
    ensures { IfOk result (λ rows. (cause ≡ None) × (report ≡ Ok rows)) }
{
    match (cause, report) {
        (None, report) => report,
        (Some(cause), Ok(_)) => Err(cause),
        (Some(cause), Err(fault)) => Err(graver(cause, fault)),
    }
}

/// The two CPUs, which are all.
fn take_both<N: Name>(cpus: &mut Vec<Cpu<N>>) -> (Cpu<N>, Cpu<N>)
    requires { cpus.old.items ≡ maker 0 [] ∷ maker 1 [] ∷ [] }
    ensures both { (result.0 ≡ maker 0 []) × (result.1 ≡ maker 1 []) }
    ensures none { (vec_len cpus.new ≡ 0) × (2 ≤ vec_capacity cpus.new) }
{
    let second = cpus.pop().unwrap();
    let first = cpus.pop().unwrap();
    (first, second)
}

/// Puts both back into their place.
fn put_both<N: Name>(cpus: &mut Vec<Cpu<N>>, first: Cpu<N>, second: Cpu<N>)
    requires { (vec_len cpus.old ≡ 0) × (2 ≤ vec_capacity cpus.old) }
    ensures { cpus.new.items ≡ first ∷ second ∷ [] }
{
    cpus.push(first).unwrap();
    cpus.push(second).unwrap();
}

/// Closes a kernel. Its report, where it is also the one that its monitor gave.
fn close_all<N: Name, R: Wait>(
    rt: &R,
    kernel: Kernel<N, OpenGate>,
    cpus: Vec<Cpu<N>>,
    reported: Option<Report>,
) -> Result<Report, RoundFault>
    ensures { IfOk result (λ rows. Closes N.frames cpus.items rows × (reported ≡ Some rows)) }
{
    let history = kernel.close(rt, cpus)?;
    same_report(reported, &history)
}

/// Plays a round on a kernel that has just booted. Both guests are played, a monitor that received what both CPUs had
/// seen reports, an image of the memory is checked, and the kernel is closed. Returns the report, which is the same
/// before and after.
fn play_round<N: Name + Send + Sync, R: Threads + Wait + Sync, F: Referee>(
    rt: &R,
    alloc: Global,
    blank: Blank<OpenGate>,
    referee: &mut F,
) -> Result<Report, RoundFault>
    requires name { (blank.frames ≡ N.frames) × (blank.book ≡ N.book) }
    requires seats { (blank.cpus ≡ 2) × (blank.monitors ≡ 1) }
    requires few { blank.frames ≤ 4096 }
    ensures round { IfOk result (IsReported blank.frames) }
    ensures asked { IfOk result (λ rows. IsAsked F.reported F.judged referee.old rows referee.new) }
{
    let Boot {
        kernel,
        mut cpus,
        mut monitors,
    } = blank.open::<N, R>(rt)?;
    let (first, second) = take_both(&mut cpus);
    let mut monitor = monitors.pop().unwrap();
    let (mut first, second, played) = play_opened(rt, &kernel, first, second);
    let reported = report_told(referee, &mut monitor, &first, &second);
    let audited = audit_memory(rt, alloc, &kernel, &mut first, referee);
    put_both(&mut cpus, first, second);
    let report = close_all(rt, kernel, cpus, reported);
    judged(told_cause(played, audited), report)
}

/// Plays a round on its own kernel of 16 to 4,096 frames. The referee questions a monitor for its report, and then an
/// audit for its verdict, once each. Returns the report on the memory at the end, which is the monitor's; by the
/// audit's verdict nothing fails.
///
/// NoMemory where there is not enough memory, else Turns where a guest ran out of turns, else Failed
/// where anything else ended it early, as a number of frames that no kernel has.
pub fn round_by<R: Threads + Wait + Sync, F: Referee>(
    rt: &R,
    alloc: Global,
    frames: u32,
    referee: &mut F,
) -> Result<Report, RoundFault>
    ensures round { IfOk result (IsReported frames) }
    ensures asked { IfOk result (λ rows. IsAsked F.reported F.judged referee.old rows referee.new) }
{
    let blank = Kernel::<Brand, OpenGate>::boot(rt, alloc, frames, 2, 1, OpenGate)?;
    play_round::<Brand, R, F>(rt, alloc, blank, referee)
}

/// A round as `round_by` makes it, with a referee that keeps nothing.
pub fn round<R: Threads + Wait + Sync>(
    rt: &R,
    alloc: Global,
    frames: u32,
) -> Result<Report, RoundFault>
    ensures { IfOk result (IsReported frames) }
{
    round_by(rt, alloc, frames, &mut Asks)
}
