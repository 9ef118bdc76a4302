//! Kernels that keep only their last entries, and make a million calls in the memory that they had at first.

ghost use Rattle.std.specs.Prelude.{◌≡◌};

use crate::kernels::{
    answered, check_front, check_length, check_report, closed, opened, process, put, reported,
    same, taken, tell, watcher,
};
use kernel_calls::{Call, Reply};
use locked_core::{Blank, Boot, Cpu, Kernel, Name, OpenGate};
use page_words::{Pid, Size, Vaddr};
use std::marker::Brand;
use std::process::Abort;
use std::rt::Files;
use std::sync::Wait;
use std::thread::Threads;
use std::{fs, thread};

/// How many entries the kernels keep.
const KEEPS: usize = 64;

/// How often each of four CPUs stores and loads.
const TIMES: u32 = 125_000;

/// How often before the memory is looked at for the first time.
const WARM: u32 = 1000;

/// The word of a CPU, in the first page of the user range.
fn word(number: u8) -> Vaddr {
    Vaddr(0x4000_0000 + 4 * u32::from(number))
}

/// Stores a number in the CPU's own word, and loads it.
fn store_and_load<N: Name, R: Wait + Abort>(
    rt: &R,
    kernel: &Kernel<N, OpenGate>,
    cpu: &mut Cpu<N>,
    pid: Pid,
    value: u32,
) {
    let addr = word(cpu.number());
    let size = Size::Four;
    answered(
        rt,
        kernel,
        cpu,
        pid,
        Call::Store { addr, size, value },
        Reply::Done,
    );
    answered(
        rt,
        kernel,
        cpu,
        pid,
        Call::Load { addr, size },
        Reply::Value(value),
    );
}

/// Stores and loads so often.
fn work<N: Name, R: Wait + Abort>(
    rt: &R,
    kernel: &Kernel<N, OpenGate>,
    mut cpu: Cpu<N>,
    times: u32,
) -> Cpu<N> {
    let pid = process(rt, 0);
    for value in 0..times {
        store_and_load(rt, kernel, &mut cpu, pid, value);
    }
    cpu
}

/// Two CPUs work in two threads.
fn work_both<N: Name + Send + Sync, R: Threads + Wait + Abort + Sync>(
    rt: &R,
    kernel: &Kernel<N, OpenGate>,
    one: Cpu<N>,
    two: Cpu<N>,
    times: u32,
) -> (Cpu<N>, Cpu<N>) {
    thread::join(
        rt,
        move || work(rt, kernel, one, times),
        move || work(rt, kernel, two, times),
    )
}

/// Four CPUs work in four threads.
fn work_all<N: Name + Send + Sync, R: Threads + Wait + Abort + Sync>(
    rt: &R,
    kernel: &Kernel<N, OpenGate>,
    low: (Cpu<N>, Cpu<N>),
    high: (Cpu<N>, Cpu<N>),
    times: u32,
) -> ((Cpu<N>, Cpu<N>), (Cpu<N>, Cpu<N>)) {
    thread::join(
        rt,
        move || work_both(rt, kernel, low.0, low.1, times),
        move || work_both(rt, kernel, high.0, high.1, times),
    )
}

/// How many kilobytes of memory the process has, and None where the system doesn't say.
fn resident<R: AllocGlobal + Files>(rt: &R) -> Option<u64> {
    let text = fs::read_to_string(rt, "/proc/self/statm").ok()?;
    let pages: u64 = text.split(' ').nth(1)?.parse().ok()?;
    Some(pages.wrapping_mul(4))
}

/// Boots a kernel of 16 frames that keeps only its last entries.
fn booted<R: AllocGlobal + Wait + Abort>(rt: &R) -> Blank<OpenGate> {
    Kernel::<Brand, OpenGate>::boot_keeping(rt, rt.alloc(), 16, 4, 1, OpenGate, KEEPS).expect(
        rt,
        "not booted",
    )
}

/// The memory grew by less than 16 MiB, where the system says how much it is. A log of all entries would grow by 48.
fn check_memory<R: Abort>(rt: &R, before: Option<u64>, after: Option<u64>) {
    if let (Some(before), Some(after)) = (before, after) {
        assert!(rt;
            after < before.wrapping_add(16_384),
            "{before} kB, and then {after} kB"
        );
    }
}

/// Each of the CPUs made as many calls.
fn check_calls<N: Name, R: Abort>(rt: &R, cpus: &[Cpu<N>]) {
    for cpu in cpus {
        same(rt, &cpu.calls(), &(2 * (TIMES + WARM) as usize));
    }
}

/// A million calls by four CPUs in four threads, in the memory that the first thousands left. Then a monitor reports on all
/// of them, and the last ones have entries.
fn million<N: Name + Send + Sync, R: Threads + Wait + Abort + AllocGlobal + Files + Sync>(
    rt: &R,
    blank: Blank<OpenGate>,
)
    requires { (blank.frames ≡ N.frames) × (blank.book ≡ N.book) }
{
    let Boot {
        kernel,
        mut cpus,
        mut monitors,
    } = opened::<N, OpenGate, R>(rt, blank);
    let mut monitor = watcher(rt, &mut monitors);
    let three = taken(rt, &mut cpus);
    let two = taken(rt, &mut cpus);
    let one = taken(rt, &mut cpus);
    let zero = taken(rt, &mut cpus);
    let (low, high) = work_all(rt, &kernel, (zero, one), (two, three), WARM);
    let before = resident(rt);
    let (low, high) = work_all(rt, &kernel, low, high, TIMES);
    check_memory(rt, before, resident(rt));
    let low = put(rt, put(rt, cpus, low.0), low.1);
    let cpus = put(rt, put(rt, low, high.0), high.1);
    check_calls(rt, cpus.as_slice());
    for cpu in cpus.as_slice() {
        tell(cpu, &mut monitor);
    }
    let seen = reported(rt, &mut monitor);
    check_front(rt, &seen, 8 * (TIMES + WARM) as usize);
    let history = closed(rt, kernel, cpus);
    check_report(rt, &seen, &history);
    check_length(rt, &history, KEEPS);
}

#[test]
fn a_million_calls_in_constant_memory(rt: HostRuntime) {
    million::<Brand, HostRuntime>(&rt, booted(&rt));
}
