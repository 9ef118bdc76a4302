//! What a kernel answers where memory is refused.
//!
//! `rt try --test --fail-alloc N` refuses the Nth allocation of each test here, and no other; each is one of
//! the kernel's. A call that meets it answers NoMemory and changes nothing, the same call with memory then
//! succeeds (`open` on a new blank), and a line is printed that says so.

ghost use Rattle.std.specs.Prelude.{◌≡◌};

use crate::kernels::{
    check_length, check_two_entries, closed, load, process, put, same, store, taken, watcher,
};
use guest_cpu::{Port, PortFault};
use kernel_calls::{Call, Event, Reply};
use locked_core::{Blank, Boot, BootFault, Cpu, CpuPort, Fault, Kernel, Monitor, Name, OpenGate};
use std::marker::Brand;
use std::process::Abort;
use std::sync::Wait;

/// Says what was refused, and what follows.
fn say<R: Print>(rt: &R, line: &str) {
    let _ = println!(rt; "{line}");
}

/// A kernel of one CPU and one monitor; None where memory was refused.
fn new_blank<R: AllocGlobal + Wait + Abort>(rt: &R) -> Option<Blank<OpenGate>> {
    match Kernel::<Brand, OpenGate>::boot(rt, rt.alloc(), 16, 1, 1, OpenGate) {
        Ok(blank) => Some(blank),
        Err(fault) => {
            same(rt, &fault, &BootFault::NoMemory);
            None
        }
    }
}

/// Boots a kernel of one CPU and one monitor, again where memory was refused.
fn booted<R: AllocGlobal + Wait + Abort + Print>(rt: &R) -> Blank<OpenGate> {
    match new_blank(rt) {
        Some(blank) => blank,
        None => {
            say(rt, "NoMemory, and then a blank");
            new_blank(rt).expect(rt, "not booted")
        }
    }
}

/// Opens a kernel; None where memory was refused.
fn opened<N: Name, R: Wait + Abort + Print>(
    rt: &R,
    blank: Blank<OpenGate>,
) -> Option<Boot<N, OpenGate>>
    requires { (blank.frames ≡ N.frames) × (blank.book ≡ N.book) }
{
    match blank.open::<N, R>(rt) {
        Ok(boot) => Some(boot),
        Err(fault) => {
            same(rt, &fault, &BootFault::NoMemory);
            say(rt, "NoMemory, and then a kernel of a new blank");
            None
        }
    }
}

/// The length and the total of what a monitor reports.
fn reported<N: Name>(monitor: &mut Monitor<N>) -> Option<(usize, u64)> {
    let seen = monitor.report()?;
    Some((seen.front, seen.report.total()))
}

/// What must stay where memory is refused: the CPU's calls, how much it has seen, and what the monitor reports.
#[derive(Clone, Copy, Debug, PartialEq, Eq)]
struct Noted {
    calls: usize,
    front: usize,
    shown: Option<(usize, u64)>,
}

fn noted_now<N: Name>(cpu: &Cpu<N>, monitor: &mut Monitor<N>) -> Noted {
    Noted {
        calls: cpu.calls(),
        front: cpu.tell().front(),
        shown: reported(monitor),
    }
}

fn check_noted<N: Name, R: Abort>(rt: &R, cpu: &Cpu<N>, monitor: &mut Monitor<N>, before: &Noted) {
    same(rt, &noted_now(cpu, monitor), before);
}

/// Makes a call of process 0, which must be answered so; whether there was memory for it.
fn is_made<N: Name, R: Wait + Abort>(
    rt: &R,
    kernel: &Kernel<N, OpenGate>,
    cpu: &mut Cpu<N>,
    call: &Call,
    reply: &Reply,
) -> bool {
    match cpu.call(rt, kernel, process(rt, 0), *call) {
        Ok(given) => {
            same(rt, &given, reply);
            true
        }
        Err(fault) => {
            same(rt, &fault, &Fault::NoMemory);
            false
        }
    }
}

/// Makes a call of process 0, with memory for it, and checks the reply.
fn check_made<N: Name, R: Wait + Abort>(
    rt: &R,
    kernel: &Kernel<N, OpenGate>,
    cpu: &mut Cpu<N>,
    call: &Call,
    reply: &Reply,
) {
    assert!(rt; is_made(rt, kernel, cpu, call, reply));
}

/// Makes a call, again where memory was refused: then the CPU has the calls and has seen what it had, and the
/// monitor reports what it did.
fn called<N: Name, R: Wait + Abort + Print>(
    rt: &R,
    kernel: &Kernel<N, OpenGate>,
    cpu: &mut Cpu<N>,
    monitor: &mut Monitor<N>,
    call: Call,
    reply: Reply,
) {
    let before = noted_now(cpu, monitor);
    if !is_made(rt, kernel, cpu, &call, &reply) {
        check_noted(rt, cpu, monitor, &before);
        say(rt, "NoMemory, and then a call");
        check_made(rt, kernel, cpu, &call, &reply);
    }
}

/// One CPU stores and loads.
fn store_and_load<N: Name, R: Wait + Abort + Print>(rt: &R, boot: Boot<N, OpenGate>) {
    let Boot {
        kernel,
        mut cpus,
        mut monitors,
    } = boot;
    let mut cpu = taken(rt, &mut cpus);
    let mut monitor = watcher(rt, &mut monitors);
    called(rt, &kernel, &mut cpu, &mut monitor, store(7), Reply::Done);
    called(rt, &kernel, &mut cpu, &mut monitor, load(), Reply::Value(7));
    check_two_entries(rt, &closed(rt, kernel, put(rt, cpus, cpu)));
}

/// Opens the kernel, and stores and loads on one CPU. Returns whether the kernel was opened.
fn stored_and_loaded<N: Name, R: Wait + Abort + Print>(rt: &R, blank: Blank<OpenGate>) -> bool
    requires { (blank.frames ≡ N.frames) × (blank.book ≡ N.book) }
{
    match opened::<N, R>(rt, blank) {
        Some(boot) => {
            store_and_load(rt, boot);
            true
        }
        None => false,
    }
}

/// Boots a kernel, and stores and loads on one CPU. Returns whether the kernel was opened.
fn is_stored_and_loaded<R: AllocGlobal + Wait + Abort + Print>(rt: &R) -> bool {
    stored_and_loaded::<Brand, R>(rt, booted(rt))
}

/// Stores and loads on a booted kernel, and once more if it was not opened.
fn check_stored_and_loaded<R: AllocGlobal + Wait + Abort + Print>(rt: &R) {
    if !is_stored_and_loaded(rt) {
        assert!(rt; is_stored_and_loaded(rt));
    }
}

#[test]
fn calls_go_on_after_want_of_memory(rt: HostRuntime) {
    check_stored_and_loaded(&rt);
}

/// Makes a store by a port of CPU 0.
fn port_call<N: Name, R: Wait + Abort>(
    rt: &R,
    cpu: &mut Cpu<N>,
    kernel: &Kernel<N, OpenGate>,
) -> Result<Reply, PortFault> {
    let mut port = CpuPort::new(rt, cpu, kernel);
    port.call(Event {
        cpu: 0,
        pid: process(rt, 0),
        call: store(7),
    })
}

/// Makes a store by a port, which must be done; whether there was memory for it.
fn is_ported<N: Name, R: Wait + Abort>(
    rt: &R,
    kernel: &Kernel<N, OpenGate>,
    cpu: &mut Cpu<N>,
) -> bool {
    match port_call(rt, cpu, kernel) {
        Ok(reply) => {
            same(rt, &reply, &Reply::Done);
            true
        }
        Err(fault) => {
            same(rt, &fault, &PortFault(1));
            false
        }
    }
}

/// Makes a store by a port, with memory for it, after a refusal: the CPU still has as many calls.
fn check_ported<N: Name, R: Wait + Abort>(
    rt: &R,
    kernel: &Kernel<N, OpenGate>,
    cpu: &mut Cpu<N>,
    calls: usize,
) {
    same(rt, &cpu.calls(), &calls);
    assert!(rt; is_ported(rt, kernel, cpu));
}

/// A store by a port of CPU 0, again where memory was refused: then the CPU has the calls that it had.
fn ported<N: Name, R: Wait + Abort + Print>(
    rt: &R,
    kernel: &Kernel<N, OpenGate>,
    cpu: &mut Cpu<N>,
) {
    let calls = cpu.calls();
    if !is_ported(rt, kernel, cpu) {
        say(rt, "PortFault(1), and then a call");
        check_ported(rt, kernel, cpu, calls);
    }
}

/// Takes the image of a kernel of 16 frames; whether there was memory for it.
fn is_taken<N: Name, R: Wait + Abort>(
    rt: &R,
    kernel: &Kernel<N, OpenGate>,
    cpu: &mut Cpu<N>,
) -> bool {
    match kernel.snapshot(rt, cpu) {
        Ok(image) => {
            same(rt, &image.frames(), &16);
            true
        }
        Err(fault) => {
            same(rt, &fault, &Fault::NoMemory);
            false
        }
    }
}

/// Takes an image, with memory for it, after a refusal: the CPU still has as many calls.
fn check_taken<N: Name, R: Wait + Abort>(
    rt: &R,
    kernel: &Kernel<N, OpenGate>,
    cpu: &mut Cpu<N>,
    calls: usize,
) {
    same(rt, &cpu.calls(), &calls);
    assert!(rt; is_taken(rt, kernel, cpu));
}

/// Takes the image of a kernel, again where memory was refused: then the CPU has the calls that it had.
fn snapped<N: Name, R: Wait + Abort + Print>(
    rt: &R,
    kernel: &Kernel<N, OpenGate>,
    cpu: &mut Cpu<N>,
) {
    let calls = cpu.calls();
    if !is_taken(rt, kernel, cpu) {
        say(rt, "NoMemory, and then a snapshot");
        check_taken(rt, kernel, cpu, calls);
    }
}

/// A port's call and an image.
fn port_and_take<N: Name, R: Wait + Abort + Print>(rt: &R, boot: Boot<N, OpenGate>) {
    let Boot {
        kernel,
        mut cpus,
        monitors: _,
    } = boot;
    let mut cpu = taken(rt, &mut cpus);
    ported(rt, &kernel, &mut cpu);
    snapped(rt, &kernel, &mut cpu);
    check_length(rt, &closed(rt, kernel, put(rt, cpus, cpu)), 1);
}

/// Opens the kernel, makes a port's call and takes an image. Returns whether the kernel was opened.
fn ported_and_taken<N: Name, R: Wait + Abort + Print>(rt: &R, blank: Blank<OpenGate>) -> bool
    requires { (blank.frames ≡ N.frames) × (blank.book ≡ N.book) }
{
    match opened::<N, R>(rt, blank) {
        Some(boot) => {
            port_and_take(rt, boot);
            true
        }
        None => false,
    }
}

/// Boots a kernel, makes a port's call and takes an image. Returns whether the kernel was opened.
fn is_ported_and_taken<R: AllocGlobal + Wait + Abort + Print>(rt: &R) -> bool {
    ported_and_taken::<Brand, R>(rt, booted(rt))
}

/// Makes a port's call and takes an image on a booted kernel, and once more if it was not opened.
fn check_ported_and_taken<R: AllocGlobal + Wait + Abort + Print>(rt: &R) {
    if !is_ported_and_taken(rt) {
        assert!(rt; is_ported_and_taken(rt));
    }
}

#[test]
fn ports_and_snapshots_go_on_after_want_of_memory(rt: HostRuntime) {
    check_ported_and_taken(&rt);
}
