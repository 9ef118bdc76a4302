//! The two guests of a round, each on a CPU and in a thread of its own.

ghost use Rattle.std.specs.Prelude.{◌≡◌, ◌++◌, ◌∷◌, ◌≤◌, [], IfNone, OnOk};
ghost use Rattle.guest_cpu.specs.Guests.{GuestView, opening_guest};
ghost use Rattle.guest_cpu.specs.Runs.{HasRun};
ghost use Rattle.locked_core.specs.Makers.{maker};
ghost use Rattle.locked_core.specs.Ports.{IsCpuStep};
ghost use Rattle.memory_report.specs.Histories.{entries_of};
ghost use Rattle.guest_race.specs.Programs.{opening_events, turns};
ghost use Rattle.guest_race.specs.Rounds.{BothHalt, Halts, made_by};

use crate::faults::{RoundFault, cause_of, told_cause};
use crate::programs::{opening, program_of};
use guest_cpu::{End, Guest, Instruction, run};
use kernel_calls::Event;
use locked_core::{Cpu, CpuPort, Kernel, Name, OpenGate};
use page_words::Pid;
use std::sync::Wait;
use std::thread;
use std::thread::Threads;

/// How many turns each guest has.
const TURNS: u32 = 3_000_000;

/// Makes a call on a CPU.
fn make_call<N: Name, R: Wait>(
    rt: &R,
    kernel: &Kernel<N, OpenGate>,
    cpu: &mut Cpu<N>,
    event: &Event,
) -> Result<(), RoundFault>
    requires { event.now.cpu ≡ cpu.old.number }
    ensures number { cpu.new.number ≡ cpu.old.number }
    ensures made { OnOk result (made_by cpu.new ≡ made_by cpu.old ++ event.now ∷ []) }
{
    cpu.call(rt, kernel, event.pid, event.call)?;
    Ok(())
}

/// Makes the calls of the opening, until one of them is not answered.
fn open_page<N: Name, R: Wait>(
    rt: &R,
    kernel: &Kernel<N, OpenGate>,
    cpu: &mut Cpu<N>,
) -> Result<(), RoundFault>
    requires { cpu.old.number ≡ 0 }
    ensures number { cpu.new.number ≡ 0 }
    ensures made { OnOk result (made_by cpu.new ≡ made_by cpu.old ++ opening_events) }
{
    let events = opening();
    for event in &events {
        make_call(rt, kernel, cpu, event)?;
    }
    Ok(())
}

/// Runs a guest of that process over a port of a CPU.
fn run_guest<N: Name, R: Wait>(
    rt: &R,
    kernel: &Kernel<N, OpenGate>,
    cpu: &mut Cpu<N>,
    pid: Pid,
    program: &[Instruction],
) -> End
    ensures { (guest : GuestView) × HasRun (IsCpuStep N.frames N.book) program.now turns
        (opening_guest cpu.old.number pid) cpu.old result guest cpu.new }
{
    let mut guest = Guest::new(cpu.number(), pid);
    let mut port = CpuPort::new(rt, cpu, kernel);
    run(&mut guest, program, TURNS, &mut port)
}

/// The guest of process 0, which counts from 0, or of process 1, which counts from 1, on the CPU of the
/// same number. Why that ends the round; None where the guest halted.
fn play_guest<N: Name, R: Wait>(
    rt: &R,
    kernel: &Kernel<N, OpenGate>,
    cpu: Cpu<N>,
    pid: Pid,
) -> (Cpu<N>, Option<RoundFault>)
    requires { (pid ≤ 1) × (cpu.number ≡ pid) }
    ensures { IfNone result.1 ((result.0.number ≡ pid)
        × Halts pid (entries_of pid cpu.seen) (entries_of pid result.0.seen)) }
{
    let program = program_of(u32::from(pid.number()));
    let mut cpu = cpu;
    let end = run_guest(rt, kernel, &mut cpu, pid, &program);
    (cpu, cause_of(&end))
}

/// Plays both guests, in two threads, until both have ended.
fn play_guests<N: Name + Send + Sync, R: Threads + Wait + Sync>(
    rt: &R,
    kernel: &Kernel<N, OpenGate>,
    first: Cpu<N>,
    second: Cpu<N>,
) -> (Cpu<N>, Cpu<N>, Option<RoundFault>)
    requires { (first.number ≡ 0) × (second.number ≡ 1) }
    ensures numbers { IfNone result.2 ((result.0.number ≡ 0) × (result.1.number ≡ 1)) }
    ensures first { IfNone result.2 (Halts 0 (entries_of 0 first.seen) (entries_of 0 result.0.seen)) }
    ensures second { IfNone result.2 (Halts 1 (entries_of 1 second.seen) (entries_of 1 result.1.seen)) }
{
    let root = Pid::new(0).unwrap();
    let child = Pid::new(1).unwrap();
    let (one, two) = thread::join(
        rt,
        move || play_guest(rt, kernel, first, root),
        move || play_guest(rt, kernel, second, child),
    );
    (one.0, two.0, told_cause(one.1, two.1))
}

/// Makes the opening's calls, and then plays both guests.
pub(crate) fn play_opened<N: Name + Send + Sync, R: Threads + Wait + Sync>(
    rt: &R,
    kernel: &Kernel<N, OpenGate>,
    mut first: Cpu<N>,
    second: Cpu<N>,
) -> (Cpu<N>, Cpu<N>, Option<RoundFault>)
    requires { (first ≡ maker 0 []) × (second ≡ maker 1 []) }
    ensures numbers { IfNone result.2 ((result.0.number ≡ 0) × (result.1.number ≡ 1)) }
    ensures both { IfNone result.2 (BothHalt (entries_of 0 result.0.seen) (entries_of 1 result.1.seen)) }
{
    match open_page(rt, kernel, &mut first) {
        Ok(()) => play_guests(rt, kernel, first, second),
        Err(fault) => (first, second, Some(fault)),
    }
}
