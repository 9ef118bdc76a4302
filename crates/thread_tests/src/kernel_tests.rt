//! Kernels whose CPUs call in turn and in threads, with monitors that read.

ghost use Rattle.std.specs.Prelude.{◌≡◌};

use crate::kernels::{
    answered, booted, check_front, check_length, check_not_closed, check_report, check_two_entries,
    closed, load, opened, process, put, reported, same, store, taken, tell, watcher,
};
use guest_cpu::{Port, PortFault};
use kernel_calls::{Call, Event, Reply};
use locked_core::{Blank, Boot, BootFault, Cpu, CpuPort, Kernel, Monitor, Name, OpenGate, Seen};
use page_words::Pid;
use std::marker::Brand;
use std::process::Abort;
use std::sync::Wait;
use std::thread;
use std::thread::Threads;

/// No kernel is booted of so many frames, CPUs and monitors.
fn check_refused<R: AllocGlobal + Wait + Abort>(
    rt: &R,
    frames: u32,
    cpus: u8,
    monitors: u8,
    fault: BootFault,
) {
    match Kernel::<Brand, OpenGate>::boot(rt, rt.alloc(), frames, cpus, monitors, OpenGate) {
        Ok(blank) => {
            empty::<Brand, R>(rt, blank);
            panic!(rt; "{frames} frames, {cpus} CPUs and {monitors} monitors were taken");
        }
        Err(refused) => same(rt, &refused, &fault),
    }
}

#[test]
fn refuses_sizes_and_counts(rt: HostRuntime) {
    check_refused(&rt, 15, 0, 0, BootFault::BadSize);
    check_refused(&rt, 4097, 1, 1, BootFault::BadSize);
    check_refused(&rt, 16, 0, 0, BootFault::BadCount);
    check_refused(&rt, 16, 9, 0, BootFault::BadCount);
    check_refused(&rt, 16, 1, 9, BootFault::BadCount);
}

/// A report is on so many entries, and its rows use so much.
fn check_seen<R: Abort>(rt: &R, seen: &Seen, front: usize, total: u64) {
    same(rt, &(seen.front, seen.report.total()), &(front, total));
}

/// A process uses so much by a report.
fn check_used<R: Abort>(rt: &R, seen: &Seen, pid: Pid, used: u32) {
    same(rt, &seen.report.row(pid).map(|row| row.used), &Some(used));
}

/// A CPU made so many calls, and has seen so many entries.
fn check_calls<N: Name, R: Abort>(rt: &R, cpu: &Cpu<N>, calls: usize) {
    same(rt, &(cpu.tell().front(), cpu.calls()), &(calls, calls));
}

/// One CPU stores and loads, and one monitor reports before and after.
fn stored_and_loaded<N: Name, R: Wait + Abort>(rt: &R, blank: Blank<OpenGate>)
    requires { (blank.frames ≡ N.frames) × (blank.book ≡ N.book) }
{
    let Boot {
        kernel,
        mut cpus,
        mut monitors,
    } = opened::<N, OpenGate, R>(rt, blank);
    let mut cpu = taken(rt, &mut cpus);
    let mut monitor = watcher(rt, &mut monitors);
    let root = process(rt, 0);
    check_seen(rt, &reported(rt, &mut monitor), 0, 1);
    answered(rt, &kernel, &mut cpu, root, store(7), Reply::Done);
    answered(rt, &kernel, &mut cpu, root, load(), Reply::Value(7));
    check_calls(rt, &cpu, 2);
    tell(&cpu, &mut monitor);
    let seen = reported(rt, &mut monitor);
    let history = closed(rt, kernel, put(rt, cpus, cpu));
    check_seen(rt, &seen, 2, 3);
    check_used(rt, &seen, root, 3);
    check_report(rt, &seen, &history);
    check_two_entries(rt, &history);
}

#[test]
fn one_cpu_and_one_monitor(rt: HostRuntime) {
    stored_and_loaded::<Brand, HostRuntime>(&rt, booted(&rt, 16, 1, 1, OpenGate));
}

/// Closes a kernel without its CPUs.
pub(crate) fn empty<N: Name, R: AllocGlobal + Wait + Abort>(rt: &R, blank: Blank<OpenGate>)
    requires { (blank.frames ≡ N.frames) × (blank.book ≡ N.book) }
{
    let Boot {
        kernel,
        cpus: _,
        monitors: _,
    } = opened::<N, OpenGate, R>(rt, blank);
    check_not_closed(rt, kernel, Vec::new(rt.alloc()));
}

#[test]
fn closes_with_all_cpus_alone(rt: HostRuntime) {
    empty::<Brand, HostRuntime>(&rt, booted(&rt, 16, 1, 0, OpenGate));
}

/// What one port of CPU 0 answers to an event of CPU 1, and then to one of CPU 0.
fn calls_of_two<N: Name, R: Wait + Abort>(
    rt: &R,
    cpu: &mut Cpu<N>,
    kernel: &Kernel<N, OpenGate>,
) -> (Result<Reply, PortFault>, Result<Reply, PortFault>) {
    let mut port = CpuPort::new(rt, cpu, kernel);
    let other = port.call(Event {
        cpu: 1,
        pid: process(rt, 0),
        call: store(7),
    });
    let own = port.call(Event {
        cpu: 0,
        pid: process(rt, 0),
        call: store(7),
    });
    (other, own)
}

/// A port takes the events of its own CPU, and makes no call for those of another.
fn check_port<N: Name, R: Wait + Abort>(rt: &R, cpu: &mut Cpu<N>, kernel: &Kernel<N, OpenGate>) {
    let answers = calls_of_two(rt, cpu, kernel);
    same(rt, &answers, &(Err(PortFault(6)), Ok(Reply::Done)));
    same(rt, &cpu.calls(), &1);
}

/// A port of a kernel's one CPU, whose one call is in the history.
fn ported<N: Name, R: Wait + Abort>(rt: &R, blank: Blank<OpenGate>)
    requires { (blank.frames ≡ N.frames) × (blank.book ≡ N.book) }
{
    let Boot {
        kernel,
        mut cpus,
        monitors: _,
    } = opened::<N, OpenGate, R>(rt, blank);
    let mut cpu = taken(rt, &mut cpus);
    check_port(rt, &mut cpu, &kernel);
    check_length(rt, &closed(rt, kernel, put(rt, cpus, cpu)), 1);
}

#[test]
fn ports_take_their_own_events(rt: HostRuntime) {
    ported::<Brand, HostRuntime>(&rt, booted(&rt, 16, 1, 0, OpenGate));
}

/// Makes a Quota call: 1 where it was answered.
fn asked<N: Name, R: Wait>(
    rt: &R,
    kernel: &Kernel<N, OpenGate>,
    cpu: &mut Cpu<N>,
    pid: Pid,
) -> u64 {
    u64::from(cpu.call(rt, kernel, pid, Call::Quota).is_ok())
}

/// Makes a thousand Quota calls of process 0: how many were answered.
fn work<N: Name, R: Wait>(
    rt: &R,
    kernel: &Kernel<N, OpenGate>,
    mut cpu: Cpu<N>,
    pid: Pid,
) -> (Cpu<N>, u64) {
    let mut done = 0u64;
    for _ in 0..1000u64 {
        done = done.wrapping_add(asked(rt, kernel, &mut cpu, pid));
    }
    (cpu, done)
}

/// The results of a monitor that reports repeatedly.
#[derive(Clone, Copy, Drop)]
struct Watched {
    /// How many reports there were.
    seen: u64,
    /// How often a front was lower than the one before.
    fell: u64,
    /// The last front.
    last: usize,
}

/// Takes one report more.
fn watch_once<N: Name>(monitor: &mut Monitor<N>, before: Watched) -> Watched {
    match monitor.report() {
        Some(now) => Watched {
            seen: before.seen.wrapping_add(1),
            fell: before.fell.wrapping_add(u64::from(now.front < before.last)),
            last: now.front,
        },
        None => before,
    }
}

/// Takes a thousand reports: how many there were, and how often a front was lower than the one before.
fn watch<N: Name>(mut monitor: Monitor<N>) -> (Monitor<N>, u64, u64) {
    let mut watched = Watched {
        seen: 0,
        fell: 0,
        last: 0,
    };
    for _ in 0..1000u64 {
        watched = watch_once(&mut monitor, watched);
    }
    (monitor, watched.seen, watched.fell)
}

/// A CPU was answered a thousand times.
fn check_worked<R: Abort>(rt: &R, done: u64) {
    same(rt, &done, &1000);
}

/// A monitor reported a thousand times, and no front was lower than the one before.
fn check_watched<R: Abort>(rt: &R, seen: u64, fell: u64) {
    same(rt, &(seen, fell), &(1000, 0));
}

/// Two CPUs call in two threads, a thousand times each.
fn both_worked<N: Name + Send + Sync, R: Threads + Wait + Abort + Sync>(
    rt: &R,
    kernel: &Kernel<N, OpenGate>,
    one: Cpu<N>,
    two: Cpu<N>,
) -> (Cpu<N>, Cpu<N>) {
    let pid = process(rt, 0);
    let (one, two) = thread::join(
        rt,
        move || work(rt, kernel, one, pid),
        move || work(rt, kernel, two, pid),
    );
    check_worked(rt, one.1);
    check_worked(rt, two.1);
    (one.0, two.0)
}

/// Two CPUs call in two threads, a thousand times each, while a monitor reports in a third.
fn all_worked<N: Name + Send + Sync, R: Threads + Wait + Abort + Sync>(
    rt: &R,
    kernel: &Kernel<N, OpenGate>,
    one: Cpu<N>,
    two: Cpu<N>,
    monitor: Monitor<N>,
) -> ((Cpu<N>, Cpu<N>), Monitor<N>) {
    let (cpus, (monitor, seen, fell)) = thread::join(
        rt,
        move || both_worked(rt, kernel, one, two),
        move || watch(monitor),
    );
    check_watched(rt, seen, fell);
    (cpus, monitor)
}

/// Two CPUs call a thousand times each, in two threads, while a monitor reports in a third.
fn in_threads<N: Name + Send + Sync, R: Threads + Wait + Abort + Sync>(
    rt: &R,
    blank: Blank<OpenGate>,
)
    requires { (blank.frames ≡ N.frames) × (blank.book ≡ N.book) }
{
    let Boot {
        kernel,
        mut cpus,
        mut monitors,
    } = opened::<N, OpenGate, R>(rt, blank);
    let second = taken(rt, &mut cpus);
    let first = taken(rt, &mut cpus);
    let monitor = watcher(rt, &mut monitors);
    let ((first, second), mut late) = all_worked(rt, &kernel, first, second, monitor);
    tell(&first, &mut late);
    tell(&second, &mut late);
    let end = reported(rt, &mut late);
    let back = put(rt, put(rt, cpus, second), first);
    let history = closed(rt, kernel, back);
    check_length(rt, &history, 2000);
    check_front(rt, &end, 2000);
    check_report(rt, &end, &history);
}

#[test]
fn two_cpus_and_a_monitor_in_threads(rt: HostRuntime) {
    in_threads::<Brand, HostRuntime>(&rt, booted(&rt, 16, 2, 1, OpenGate));
}

/// A call, of which the monitor learns, and then a report: 0 where it is on so many entries.
fn wrong_in_turn<N: Name, R: Wait>(
    rt: &R,
    kernel: &Kernel<N, OpenGate>,
    cpu: &mut Cpu<N>,
    monitor: &mut Monitor<N>,
    pid: Pid,
    made: usize,
) -> u64 {
    let answered = asked(rt, kernel, cpu, pid);
    tell(cpu, monitor);
    let front = monitor.report().map(|seen| seen.front);
    u64::from(answered != 1 || front != Some(made))
}

/// A thousand Quota calls of one CPU; after each the monitor learns, and reports so many entries.
fn check_in_turn<N: Name, R: Wait + Abort>(
    rt: &R,
    kernel: &Kernel<N, OpenGate>,
    cpu: &mut Cpu<N>,
    monitor: &mut Monitor<N>,
) {
    let pid = process(rt, 0);
    let mut wrong = 0u64;
    for made in 1..1001usize {
        wrong = wrong.wrapping_add(wrong_in_turn(rt, kernel, cpu, monitor, pid, made));
    }
    same(rt, &wrong, &0);
}

/// A kernel with a thousand calls of one CPU, each of which the monitor reports immediately.
fn in_turn<N: Name, R: Wait + Abort>(rt: &R, blank: Blank<OpenGate>)
    requires { (blank.frames ≡ N.frames) × (blank.book ≡ N.book) }
{
    let Boot {
        kernel,
        mut cpus,
        mut monitors,
    } = opened::<N, OpenGate, R>(rt, blank);
    let mut cpu = taken(rt, &mut cpus);
    let mut monitor = watcher(rt, &mut monitors);
    check_in_turn(rt, &kernel, &mut cpu, &mut monitor);
    check_length(rt, &closed(rt, kernel, put(rt, cpus, cpu)), 1000);
}

#[test]
fn a_monitor_reports_each_call(rt: HostRuntime) {
    in_turn::<Brand, HostRuntime>(&rt, booted(&rt, 16, 1, 1, OpenGate));
}

/// One CPU calls a thousand times, while a monitor in another thread takes a thousand reports.
fn worked_beside<N: Name + Send + Sync, R: Threads + Wait + Abort + Sync>(
    rt: &R,
    kernel: &Kernel<N, OpenGate>,
    cpu: Cpu<N>,
    monitor: Monitor<N>,
) -> Cpu<N> {
    let pid = process(rt, 0);
    let (called, watched) = thread::join(
        rt,
        move || work(rt, kernel, cpu, pid),
        move || watch(monitor),
    );
    check_worked(rt, called.1);
    check_watched(rt, watched.1, watched.2);
    called.0
}

/// A kernel of one CPU with a monitor that reads during its calls.
fn beside<N: Name + Send + Sync, R: Threads + Wait + Abort + Sync>(rt: &R, blank: Blank<OpenGate>)
    requires { (blank.frames ≡ N.frames) × (blank.book ≡ N.book) }
{
    let Boot {
        kernel,
        mut cpus,
        mut monitors,
    } = opened::<N, OpenGate, R>(rt, blank);
    let cpu = taken(rt, &mut cpus);
    let monitor = watcher(rt, &mut monitors);
    let cpu = worked_beside(rt, &kernel, cpu, monitor);
    check_length(rt, &closed(rt, kernel, put(rt, cpus, cpu)), 1000);
}

#[test]
fn a_monitor_reports_beside_the_calls(rt: HostRuntime) {
    beside::<Brand, HostRuntime>(&rt, booted(&rt, 16, 1, 1, OpenGate));
}

/// Two CPUs make a call each, and only one of them comes back.
fn one_missing<N: Name, R: Wait + Abort>(rt: &R, blank: Blank<OpenGate>)
    requires { (blank.frames ≡ N.frames) × (blank.book ≡ N.book) }
{
    let Boot {
        kernel,
        mut cpus,
        monitors: _,
    } = opened::<N, OpenGate, R>(rt, blank);
    let mut second = taken(rt, &mut cpus);
    let mut first = taken(rt, &mut cpus);
    let root = process(rt, 0);
    answered(rt, &kernel, &mut first, root, store(7), Reply::Done);
    answered(rt, &kernel, &mut second, root, load(), Reply::Value(7));
    check_not_closed(rt, kernel, put(rt, cpus, first));
}

#[test]
fn does_not_close_with_one_of_two_cpus(rt: HostRuntime) {
    one_missing::<Brand, HostRuntime>(&rt, booted(&rt, 16, 2, 0, OpenGate));
}

/// Which of two CPUs has seen no more than the other.
fn check_begins<N: Name, R: Abort>(rt: &R, one: &Cpu<N>, other: &Cpu<N>, begins: (bool, bool)) {
    same(rt, &(one.begins(other), other.begins(one)), &begins);
}

/// CPU 0 makes two calls. CPU 1 receives what CPU 0 has seen, and makes one.
fn told_and_called<N: Name, R: Wait + Abort>(rt: &R, blank: Blank<OpenGate>)
    requires { (blank.frames ≡ N.frames) × (blank.book ≡ N.book) }
{
    let Boot {
        kernel,
        mut cpus,
        monitors: _,
    } = opened::<N, OpenGate, R>(rt, blank);
    let mut second = taken(rt, &mut cpus);
    let mut first = taken(rt, &mut cpus);
    let root = process(rt, 0);
    check_begins(rt, &first, &second, (true, true));
    answered(rt, &kernel, &mut first, root, store(7), Reply::Done);
    answered(rt, &kernel, &mut first, root, load(), Reply::Value(7));
    second.learn(first.tell());
    check_begins(rt, &first, &second, (false, true));
    answered(rt, &kernel, &mut second, root, load(), Reply::Value(7));
    check_begins(rt, &first, &second, (true, false));
    let back = put(rt, put(rt, cpus, first), second);
    check_length(rt, &closed(rt, kernel, back), 3);
}

#[test]
fn a_cpu_that_received_a_list_sees_it(rt: HostRuntime) {
    told_and_called::<Brand, HostRuntime>(&rt, booted(&rt, 16, 2, 0, OpenGate));
}
