//! Kernels for the tests: booted, opened, called and closed. Each helper asserts what it says, so that a test is a list
//! of calls of them.

ghost use Rattle.std.specs.Prelude.{◌≡◌};

use guest_cpu::{End, Guest, Instruction, run};
use kernel_calls::{Call, Reply};
use locked_core::{
    Blank, Boot, Cpu, CpuPort, Fault, Gate, History, Kernel, Monitor, Name, OpenGate, Seen,
};
use memory_image::Image;
use page_words::{Pid, Size, Vaddr};
use std::fmt::Debug;
use std::marker::Brand;
use std::process::Abort;
use std::sync::Wait;

/// What was found is what was expected.
pub(crate) fn same<T: PartialEq + Debug>(rt: &impl Abort, found: &T, expected: &T) {
    assert_eq!(rt; found, expected);
}

pub(crate) fn process<R: Abort>(rt: &R, number: u8) -> Pid {
    Pid::new(number).expect(rt, "a process")
}

/// Stores a number in the first word of the user range.
pub(crate) fn store(value: u32) -> Call {
    Call::Store {
        addr: Vaddr(0x4000_0000),
        size: Size::Four,
        value,
    }
}

/// Loads the first word of the user range.
pub(crate) fn load() -> Call {
    Call::Load {
        addr: Vaddr(0x4000_0000),
        size: Size::Four,
    }
}

/// Boots a kernel of so many frames, CPUs and monitors.
pub(crate) fn booted<G: Gate + Drop, R: AllocGlobal + Wait + Abort>(
    rt: &R,
    frames: u32,
    cpus: u8,
    monitors: u8,
    gate: G,
) -> Blank<G> {
    Kernel::<Brand, G>::boot(rt, rt.alloc(), frames, cpus, monitors, gate).expect(rt, "not booted")
}

pub(crate) fn opened<N: Name, G: Gate + Drop, R: Wait + Abort>(
    rt: &R,
    blank: Blank<G>,
) -> Boot<N, G>
    requires { (blank.frames ≡ N.frames) × (blank.book ≡ N.book) }
{
    blank.open::<N, R>(rt).expect(rt, "no memory")
}

/// Takes the last of the CPUs.
pub(crate) fn taken<N: Name, R: Abort>(rt: &R, cpus: &mut Vec<Cpu<N>>) -> Cpu<N> {
    cpus.pop().expect(rt, "a CPU")
}

/// Takes the last of the monitors.
pub(crate) fn watcher<N: Name, R: Abort>(rt: &R, monitors: &mut Vec<Monitor<N>>) -> Monitor<N> {
    monitors.pop().expect(rt, "a monitor")
}

/// Puts a CPU back behind the others.
pub(crate) fn put<N: Name, R: Abort>(rt: &R, mut cpus: Vec<Cpu<N>>, cpu: Cpu<N>) -> Vec<Cpu<N>> {
    cpus.push(cpu).expect(rt, "a place");
    cpus
}

/// Makes a call of a process, which must be answered so.
pub(crate) fn answered<N: Name, G: Gate + Drop, R: Wait + Abort>(
    rt: &R,
    kernel: &Kernel<N, G>,
    cpu: &mut Cpu<N>,
    pid: Pid,
    call: Call,
    reply: Reply,
) {
    same(rt, &cpu.call(rt, kernel, pid, call), &Ok(reply));
}

/// How a guest of a process ends that runs a program by a CPU's calls, up to so many turns.
pub(crate) fn ended<N: Name, R: Wait + Abort>(
    rt: &R,
    kernel: &Kernel<N, OpenGate>,
    cpu: &mut Cpu<N>,
    pid: Pid,
    program: &[Instruction],
    turns: u32,
) -> End {
    let mut guest = Guest::new(cpu.number(), pid);
    run(
        &mut guest,
        program,
        turns,
        &mut CpuPort::new(rt, cpu, kernel),
    )
}

/// Gives a monitor what a CPU has seen.
pub(crate) fn tell<N: Name>(cpu: &Cpu<N>, monitor: &mut Monitor<N>) {
    monitor.learn(cpu.tell());
}

pub(crate) fn reported<N: Name, R: Abort>(rt: &R, monitor: &mut Monitor<N>) -> Seen {
    monitor.report().expect(rt, "a report")
}

/// A report is on so many entries.
pub(crate) fn check_front<R: Abort>(rt: &R, seen: &Seen, front: usize) {
    same(rt, &seen.front, &front);
}

/// A report is that of the core that the kernel was closed with.
pub(crate) fn check_report<R: Abort>(rt: &R, seen: &Seen, history: &History) {
    same(rt, &seen.report, &memory_report::report_of(history.core()));
}

/// The image of a kernel's memory between two calls.
pub(crate) fn image_of<N: Name, G: Gate + Drop, R: Wait + Abort>(
    rt: &R,
    kernel: &Kernel<N, G>,
    cpu: &mut Cpu<N>,
) -> Image {
    kernel.snapshot(rt, cpu).expect(rt, "an image")
}

/// Closes a kernel with these CPUs.
pub(crate) fn closed<N: Name, G: Gate + Drop, R: Wait + Abort>(
    rt: &R,
    kernel: Kernel<N, G>,
    cpus: Vec<Cpu<N>>,
) -> History {
    kernel.close(rt, cpus).expect(rt, "not closed")
}

/// The kernel is not closed with these CPUs.
pub(crate) fn check_not_closed<N: Name, G: Gate + Drop, R: Wait + Abort>(
    rt: &R,
    kernel: Kernel<N, G>,
    cpus: Vec<Cpu<N>>,
) {
    same(rt, &kernel.close(rt, cpus).err(), &Some(Fault::Disagree));
}

/// A history has so many entries.
pub(crate) fn check_length<R: Abort>(rt: &R, history: &History, length: usize) {
    same(rt, &history.entries().len(), &length);
}

/// A history has two entries, both of CPU 0, after each of which 3 frames were used.
pub(crate) fn check_two_entries<R: Abort>(rt: &R, history: &History) {
    let mut nth = 0;
    for entry in history.entries() {
        same(rt, &(entry.cpu, entry.nth, entry.used_after), &(0, nth, 3));
        nth = 1;
    }
    check_length(rt, history, 2);
}
