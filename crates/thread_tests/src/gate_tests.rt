//! A call that is held under the lock, while a monitor in another thread reports.

ghost use Rattle.std.specs.Prelude.{◌≡◌};

use crate::kernels;
use crate::kernels::{
    booted, check_front, check_length, closed, opened, process, put, same, taken, tell, watcher,
};
use kernel_calls::Call;
use locked_core::{Blank, Boot, Cpu, Ended, Gate, Invalidate, Kernel, Monitor, Name, Point};
use page_words::Pid;
use std::alloc::{AllocError, Global};
use std::marker::Brand;
use std::process::Abort;
use std::sync::atomic::{AtomicU64, Ordering};
use std::sync::{Arc, Wait};
use std::test::Fail;
use std::thread;
use std::thread::Threads;

/// How often a flag is looked at before a test gives up.
const LOOKS: u64 = 1_000_000_000;

/// How often the call of a second CPU is looked for while the first CPU's is held.
const SHORT_LOOKS: u64 = 20_000_000;

/// Polls a flag until it is set, and returns whether it was before the polls were spent.
fn is_set(flag: &AtomicU64) -> bool {
    is_set_within(flag, LOOKS)
}

/// Polls a flag so often, or until it is set, and returns whether it was.
fn is_set_within(flag: &AtomicU64, looks: u64) -> bool {
    for _ in 0..looks {
        if flag.load(Ordering::SeqCst) == 1 {
            return true;
        }
    }
    false
}

/// What a gate and the test signal to each other, each 0 until it is so.
#[derive(Drop)]
struct Flags {
    /// The next call is to be held.
    armed: AtomicU64,
    /// A call is held.
    reached: AtomicU64,
    /// A second CPU is about to call.
    started: AtomicU64,
    /// Its call is back.
    back: AtomicU64,
    /// That call may continue.
    released: AtomicU64,
    /// It went on because it might, and not because the looks were spent.
    let_go: AtomicU64,
}

impl Flags {
    /// Nothing is so.
    fn new() -> Flags {
        Flags {
            armed: AtomicU64::new(0),
            reached: AtomicU64::new(0),
            started: AtomicU64::new(0),
            back: AtomicU64::new(0),
            released: AtomicU64::new(0),
            let_go: AtomicU64::new(0),
        }
    }

    /// Holds a call, if one is to be held, until it may continue.
    fn hold(&self) {
        if self.armed.swap(0, Ordering::SeqCst) == 1 {
            self.reached.store(1, Ordering::SeqCst);
            if is_set(&self.released) {
                self.let_go.store(1, Ordering::SeqCst);
            }
        }
    }
}

/// Holds one call at a point, once it is armed, until it is released.
#[derive(Drop)]
struct HeldGate {
    at: Point,
    flags: Arc<Flags, Global>,
}

impl Gate for HeldGate {
    fn reach(&self, point: Point) {
        if point == self.at {
            self.flags.hold();
        }
    }
}

/// Holds one call as it invalidates what it ended, once it is armed, until it is released.
#[derive(Drop)]
struct HeldProcessors {
    flags: Arc<Flags, Global>,
}

impl Invalidate for HeldProcessors {
    ghost use Rattle.std.specs.Prelude.{⊤};

    ghost told = { λ before ended after. ⊤ };

    fn invalidate(&mut self, _ended: &Ended) {
        self.flags.hold();
    }
}

/// Makes one call: whether it was answered.
fn call<N: Name, R: Wait>(
    rt: &R,
    kernel: &Kernel<N, HeldGate>,
    mut cpu: Cpu<N>,
    pid: Pid,
) -> (Cpu<N>, bool) {
    let answered = cpu.call(rt, kernel, pid, Call::Quota).is_ok();
    (cpu, answered)
}

/// Waits for the held call, reports, and only then releases the call. Returns whether the call was held, and the front
/// of the report.
fn report_beside<N: Name>(
    mut monitor: Monitor<N>,
    flags: &Flags,
) -> (Monitor<N>, bool, Option<usize>) {
    let held = is_set(&flags.reached);
    let front = monitor.report().map(|seen| seen.front);
    flags.released.store(1, Ordering::SeqCst);
    (monitor, held, front)
}

/// A call that was held was answered, and went on because it might.
fn check_let_go<R: Abort>(rt: &R, answered: bool, flags: &Flags) {
    same(
        rt,
        &(answered, flags.let_go.load(Ordering::SeqCst)),
        &(true, 1),
    );
}

/// A call is held until a monitor in another thread has reported so many entries.
fn called_beside<N: Name + Send + Sync, R: Threads + Wait + Abort + Sync>(
    rt: &R,
    kernel: &Kernel<N, HeldGate>,
    cpu: Cpu<N>,
    monitor: Monitor<N>,
    flags: &Flags,
    reported: usize,
) -> (Cpu<N>, Monitor<N>) {
    let root = process(rt, 0);
    let ((cpu, answered), (monitor, held, front)) = thread::join(
        rt,
        move || call(rt, kernel, cpu, root),
        move || report_beside(monitor, flags),
    );
    same(rt, &(held, front), &(true, Some(reported)));
    check_let_go(rt, answered, flags);
    (cpu, monitor)
}

/// Makes a Quota call of process 0, which must be answered.
fn check_answered<N: Name, R: Wait + Abort>(
    rt: &R,
    kernel: &Kernel<N, HeldGate>,
    cpu: &mut Cpu<N>,
) {
    assert!(rt; cpu.call(rt, kernel, process(rt, 0), Call::Quota).is_ok());
}

/// Three calls, and a fourth that is held until a monitor in another thread has reported so many entries.
fn held<N: Name + Send + Sync, R: Threads + Wait + Abort + Sync>(
    rt: &R,
    blank: Blank<HeldGate>,
    flags: &Flags,
    reported: usize,
)
    requires { (blank.frames ≡ N.frames) × (blank.book ≡ N.book) }
{
    let Boot {
        kernel,
        mut cpus,
        mut monitors,
    } = opened::<N, HeldGate, R>(rt, blank);
    let mut cpu = taken(rt, &mut cpus);
    let monitor = watcher(rt, &mut monitors);
    check_answered(rt, &kernel, &mut cpu);
    check_answered(rt, &kernel, &mut cpu);
    check_answered(rt, &kernel, &mut cpu);
    flags.armed.store(1, Ordering::SeqCst);
    let (cpu, mut monitor) = called_beside(rt, &kernel, cpu, monitor, flags, reported);
    tell(&cpu, &mut monitor);
    check_front(rt, &kernels::reported(rt, &mut monitor), 4);
    check_length(rt, &closed(rt, kernel, put(rt, cpus, cpu)), 4);
}

/// A gate that holds a call at that point, and what it shares with the test.
fn gate_at(alloc: Global, at: Point) -> Result<(Arc<Flags, Global>, HeldGate), AllocError> {
    let flags = Arc::new(alloc, Flags::new())?;
    let gate = HeldGate {
        at,
        flags: Arc::try_clone(&flags)?,
    };
    Ok((flags, gate))
}

#[test]
fn a_monitor_reports_while_a_call_is_held(rt: HostRuntime) -> Result<(), Fail> {
    let (flags, gate) = gate_at(rt.alloc(), Point::Locked)?;
    held::<Brand, HostRuntime>(&rt, booted(&rt, 16, 1, 1, gate), &flags, 3);
    Ok(())
}

#[test]
fn a_call_is_published_before_it_is_back(rt: HostRuntime) -> Result<(), Fail> {
    let (flags, gate) = gate_at(rt.alloc(), Point::Published)?;
    held::<Brand, HostRuntime>(&rt, booted(&rt, 16, 1, 1, gate), &flags, 4);
    Ok(())
}

/// Waits until a call is held, and makes one of a second CPU: whether a call was held, and whether its own was
/// answered.
fn call_second<N: Name, R: Wait>(
    rt: &R,
    kernel: &Kernel<N, HeldGate>,
    cpu: Cpu<N>,
    pid: Pid,
    flags: &Flags,
) -> (Cpu<N>, bool, bool) {
    let held = is_set(&flags.reached);
    flags.started.store(1, Ordering::SeqCst);
    let (cpu, answered) = call(rt, kernel, cpu, pid);
    flags.back.store(1, Ordering::SeqCst);
    (cpu, held, answered)
}

/// Polls for the second CPU's call, and only then releases the first one's. Returns whether the second was called, and
/// whether it was back by then.
fn look_for_the_second(flags: &Flags) -> (bool, bool) {
    let started = is_set(&flags.started);
    let back = is_set_within(&flags.back, SHORT_LOOKS);
    flags.released.store(1, Ordering::SeqCst);
    (started, back)
}

/// The second CPU's call, and who looks for it, in two threads: the call was answered while another was held, and it
/// was called but not back then.
fn called_second<N: Name + Send + Sync, R: Threads + Wait + Abort + Sync>(
    rt: &R,
    kernel: &Kernel<N, HeldGate>,
    cpu: Cpu<N>,
    flags: &Flags,
) -> Cpu<N> {
    let root = process(rt, 0);
    let ((cpu, held, answered), looked) = thread::join(
        rt,
        move || call_second(rt, kernel, cpu, root, flags),
        move || look_for_the_second(flags),
    );
    same(rt, &(held, looked, answered), &(true, (true, false), true));
    cpu
}

/// A call of the first CPU that is held, while the second makes one.
fn called_both<N: Name + Send + Sync, R: Threads + Wait + Abort + Sync>(
    rt: &R,
    kernel: &Kernel<N, HeldGate>,
    first: Cpu<N>,
    second: Cpu<N>,
    flags: &Flags,
) -> (Cpu<N>, Cpu<N>) {
    let root = process(rt, 0);
    let ((first, answered), second) = thread::join(
        rt,
        move || call(rt, kernel, first, root),
        move || called_second(rt, kernel, second, flags),
    );
    check_let_go(rt, answered, flags);
    (first, second)
}

/// A call of CPU 0 that is held, while CPU 1 makes one.
fn waited<N: Name + Send + Sync, R: Threads + Wait + Abort + Sync>(
    rt: &R,
    blank: Blank<HeldGate>,
    flags: &Flags,
)
    requires { (blank.frames ≡ N.frames) × (blank.book ≡ N.book) }
{
    let Boot {
        kernel,
        mut cpus,
        monitors: _,
    } = opened::<N, HeldGate, R>(rt, blank);
    let second = taken(rt, &mut cpus);
    let first = taken(rt, &mut cpus);
    flags.armed.store(1, Ordering::SeqCst);
    let (first, second) = called_both(rt, &kernel, first, second, flags);
    let back = put(rt, put(rt, cpus, first), second);
    check_length(rt, &closed(rt, kernel, back), 2);
}

/// Whether a second CPU waits while a call is held at that point.
fn waits_at<R: AllocGlobal + Threads + Wait + Abort + Sync>(rt: &R, at: Point) -> Result<(), Fail> {
    let (flags, gate) = gate_at(rt.alloc(), at)?;
    waited::<Brand, R>(rt, booted(rt, 16, 2, 0, gate), &flags);
    Ok(())
}

#[test]
fn a_second_cpu_waits_while_a_call_is_held(rt: HostRuntime) -> Result<(), Fail> {
    waits_at(&rt, Point::Locked)
}

#[test]
fn a_second_cpu_waits_while_a_call_is_published(rt: HostRuntime) -> Result<(), Fail> {
    waits_at(&rt, Point::Published)
}

/// Makes one call that reports what it ended, and returns whether it was answered.
fn call_ending<N: Name, R: Wait>(
    rt: &R,
    kernel: &Kernel<N, HeldGate>,
    mut cpu: Cpu<N>,
    pid: Pid,
    mut processors: HeldProcessors,
) -> (Cpu<N>, bool) {
    let told = cpu.call_ending(rt, kernel, pid, Call::Quota, &mut processors);
    (cpu, told.is_ok())
}

/// A call of the first CPU that is held as it invalidates, while the second makes one.
fn ended_both<N: Name + Send + Sync, R: Threads + Wait + Abort + Sync>(
    rt: &R,
    kernel: &Kernel<N, HeldGate>,
    first: Cpu<N>,
    second: Cpu<N>,
    processors: HeldProcessors,
    flags: &Flags,
) -> (Cpu<N>, Cpu<N>) {
    let root = process(rt, 0);
    let ((first, answered), second) = thread::join(
        rt,
        move || call_ending(rt, kernel, first, root, processors),
        move || called_second(rt, kernel, second, flags),
    );
    check_let_go(rt, answered, flags);
    (first, second)
}

/// A call of CPU 0 that is held as it invalidates, while CPU 1 makes one.
fn ended<N: Name + Send + Sync, R: Threads + Wait + Abort + Sync>(
    rt: &R,
    blank: Blank<HeldGate>,
    processors: HeldProcessors,
    flags: &Flags,
)
    requires { (blank.frames ≡ N.frames) × (blank.book ≡ N.book) }
{
    let Boot {
        kernel,
        mut cpus,
        monitors: _,
    } = opened::<N, HeldGate, R>(rt, blank);
    let second = taken(rt, &mut cpus);
    let first = taken(rt, &mut cpus);
    flags.armed.store(1, Ordering::SeqCst);
    let (first, second) = ended_both(rt, &kernel, first, second, processors, flags);
    let back = put(rt, put(rt, cpus, first), second);
    check_length(rt, &closed(rt, kernel, back), 2);
}

#[test]
fn a_second_cpu_waits_while_a_call_invalidates(rt: HostRuntime) -> Result<(), Fail> {
    let (flags, gate) = gate_at(rt.alloc(), Point::Published)?;
    let processors = HeldProcessors {
        flags: Arc::try_clone(&flags)?,
    };
    ended::<Brand, HostRuntime>(&rt, booted(&rt, 16, 2, 0, gate), processors, &flags);
    Ok(())
}
