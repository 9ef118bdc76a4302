//! The guests of a round, one after the other instead of concurrently: on a core, and on a kernel as a round runs them.

ghost use Rattle.std.specs.Prelude.{◌≡◌};

use crate::comparing::same;
use guest_cpu::{End, Guest, Instruction, run};
use guest_race::{opening, program_of};
use kernel_calls::{Core, Reply};
use locked_core::{Blank, Boot, Cpu, CpuPort, Kernel, Name, OpenGate};
use page_words::Pid;
use std::marker::Brand;
use std::process::Abort;
use std::sync::Wait;
use std::test::Fail;

/// How many turns each guest has: one that is alone has nothing to do after the first of them.
const TURNS: u32 = 30_000;

fn process<R: Abort>(rt: &R, number: u8) -> Pid {
    Pid::new(number).expect(rt, "a process")
}

/// The program of the guest of a process: that of process 0 begins with 0, the other with 1.
fn program(number: u8) -> [Instruction; 13] {
    program_of(if number == 0 { 0 } else { 1 })
}

/// The calls before the guests run, and what each is answered.
fn open_core<R: Abort>(rt: &R, core: &mut Core) {
    let replies = [
        Reply::Done,
        Reply::Child(process(rt, 1)),
        Reply::Done,
        Reply::Done,
    ];
    for (event, reply) in opening().iter().zip(replies) {
        same(rt, &core.step(event), &reply);
    }
}

fn check_end<R: Abort>(rt: &R, end: End, number: u8) {
    same(rt, &(number, end), &(number, End::OutOfTurns));
}

/// A guest of a process that runs alone on the core runs out of turns.
fn check_on_core<R: Abort>(rt: &R, core: &mut Core, number: u8) {
    let mut guest = Guest::new(number, process(rt, number));
    let end = run(&mut guest, &program(number), TURNS, core);
    check_end(rt, end, number);
}

#[test]
fn guests_one_after_the_other_run_out_of_turns(rt: HostRuntime) -> Result<(), Fail> {
    let mut core = Core::boot(rt.alloc(), 16)?;
    open_core(&rt, &mut core);
    check_on_core(&rt, &mut core, 0);
    check_on_core(&rt, &mut core, 1);
    Ok(())
}

/// The calls before the guests run, each of which is answered.
fn open_kernel<N: Name, R: Wait + Abort>(rt: &R, kernel: &Kernel<N, OpenGate>, cpu: &mut Cpu<N>) {
    for event in opening().iter() {
        assert!(rt; cpu.call(rt, kernel, event.pid, event.call).is_ok());
    }
}

/// A guest of a process that runs alone on a CPU runs out of turns.
fn check_on_kernel<N: Name, R: Wait + Abort>(
    rt: &R,
    kernel: &Kernel<N, OpenGate>,
    cpu: &mut Cpu<N>,
    number: u8,
) {
    let mut guest = Guest::new(cpu.number(), process(rt, number));
    let mut port = CpuPort::new(rt, cpu, kernel);
    let end = run(&mut guest, &program(number), TURNS, &mut port);
    check_end(rt, end, number);
}

/// The kernel closes with these CPUs.
fn check_closed<N: Name, R: Wait + Abort>(
    rt: &R,
    kernel: Kernel<N, OpenGate>,
    mut cpus: Vec<Cpu<N>>,
    first: Cpu<N>,
    second: Cpu<N>,
) {
    cpus.push(first).expect(rt, "a place");
    cpus.push(second).expect(rt, "a place");
    assert!(rt; kernel.close(rt, cpus).is_ok());
}

/// The calls before the guests run, and then one guest behind the other, each on its CPU.
fn one_by_one<N: Name, R: Wait + Abort>(rt: &R, blank: Blank<OpenGate>)
    requires { (blank.frames ≡ N.frames) × (blank.book ≡ N.book) }
{
    let Boot {
        kernel,
        mut cpus,
        monitors: _,
    } = blank.open::<N, R>(rt).expect(rt, "no memory");
    let mut second = cpus.pop().expect(rt, "a CPU");
    let mut first = cpus.pop().expect(rt, "a CPU");
    open_kernel(rt, &kernel, &mut first);
    check_on_kernel(rt, &kernel, &mut first, 0);
    check_on_kernel(rt, &kernel, &mut second, 1);
    check_closed(rt, kernel, cpus, first, second);
}

/// Boots a kernel of 16 frames and two CPUs.
fn booted<R: AllocGlobal + Wait + Abort>(rt: &R) -> Blank<OpenGate> {
    Kernel::<Brand, OpenGate>::boot(rt, rt.alloc(), 16, 2, 0, OpenGate).expect(rt, "not booted")
}

#[test]
fn guests_of_a_kernel_one_after_the_other_run_out_of_turns(rt: HostRuntime) {
    one_by_one::<Brand, HostRuntime>(&rt, booted(&rt));
}
