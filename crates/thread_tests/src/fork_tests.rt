//! A process that copies itself by calls of two CPUs, with a monitor that reads.

ghost use Rattle.std.specs.Prelude.{◌≡◌};

use crate::kernels::{
    answered, booted, check_report, closed, load, opened, process, put, reported, same, store,
    taken, tell, watcher,
};
use kernel_calls::{Call, Cause, Reply};
use locked_core::{Blank, Boot, Cpu, Kernel, Name, OpenGate, Seen};
use page_words::{Page, Size, Vaddr};
use std::marker::Brand;
use std::process::Abort;
use std::sync::Wait;

/// The parent requests a copy with that quota, and gets this reply.
fn fork<N: Name, R: Wait + Abort>(
    rt: &R,
    kernel: &Kernel<N, OpenGate>,
    cpu: &mut Cpu<N>,
    quota: u32,
    reply: Reply,
) {
    answered(rt, kernel, cpu, process(rt, 0), Call::Fork { quota }, reply);
}

/// The parent's calls up to its copy.
fn call_parent<N: Name, R: Wait + Abort>(rt: &R, kernel: &Kernel<N, OpenGate>, cpu: &mut Cpu<N>) {
    let root = process(rt, 0);
    let (page, write) = (Page(0x40001), false);
    answered(rt, kernel, cpu, root, store(7), Reply::Done);
    answered(
        rt,
        kernel,
        cpu,
        root,
        Call::Map { page, write },
        Reply::Done,
    );
    fork(rt, kernel, cpu, 0, Reply::Refused(Cause::BadQuota));
    fork(rt, kernel, cpu, 3, Reply::Refused(Cause::TooSmall));
    fork(rt, kernel, cpu, 28, Reply::Refused(Cause::Quota));
    fork(rt, kernel, cpu, 10, Reply::Child(process(rt, 1)));
}

/// The copy's calls up to its store.
fn store_in_copy<N: Name, R: Wait + Abort>(rt: &R, kernel: &Kernel<N, OpenGate>, cpu: &mut Cpu<N>) {
    let copy = process(rt, 1);
    answered(rt, kernel, cpu, copy, load(), Reply::Value(7));
    answered(rt, kernel, cpu, copy, store(9), Reply::Done);
}

/// A page of the copy, whose flags are all set or of which only the right to write may be had, has one holder.
fn check_page<N: Name, R: Wait + Abort>(
    rt: &R,
    kernel: &Kernel<N, OpenGate>,
    cpu: &mut Cpu<N>,
    page: Page,
    set: bool,
) {
    let info = Reply::Info {
        write: set,
        may: true,
        accessed: set,
        dirty: set,
        holders: 1,
    };
    answered(rt, kernel, cpu, process(rt, 1), Call::Info { page }, info);
}

/// The process has this quota, of which it uses 4 frames and gave away so many.
fn check_quota<N: Name, R: Wait + Abort>(
    rt: &R,
    kernel: &Kernel<N, OpenGate>,
    cpu: &mut Cpu<N>,
    number: u8,
    quota: u32,
    given: u32,
) {
    let reply = Reply::Quota {
        quota,
        used: 4,
        given,
    };
    answered(rt, kernel, cpu, process(rt, number), Call::Quota, reply);
}

/// The copy's other calls: its pages, a store that its rights forbid, and its quota.
fn ask_copy<N: Name, R: Wait + Abort>(rt: &R, kernel: &Kernel<N, OpenGate>, cpu: &mut Cpu<N>) {
    let (addr, size, value) = (Vaddr(0x4000_1000), Size::One, 1);
    let forbidden = Call::Store { addr, size, value };
    let fault = Reply::Fault { addr, code: 7 };
    check_page(rt, kernel, cpu, Page(0x40000), true);
    check_page(rt, kernel, cpu, Page(0x40001), false);
    answered(rt, kernel, cpu, process(rt, 1), forbidden, fault);
    check_quota(rt, kernel, cpu, 1, 10, 0);
}

/// A report on fourteen entries, by which both use 8, the parent gave 10 and the copy uses 4.
fn check_seen<R: Abort>(rt: &R, seen: &Seen) {
    let given = seen.report.row(process(rt, 0)).map(|row| row.given);
    let used = seen.report.row(process(rt, 1)).map(|row| row.used);
    same(rt, &(seen.front, seen.report.total()), &(14, 8));
    same(rt, &(given, used), &(Some(10), Some(4)));
}

/// The monitor's report in the end is that of the core.
fn copied<N: Name, R: Wait + Abort>(rt: &R, blank: Blank<OpenGate>)
    requires { (blank.frames ≡ N.frames) × (blank.book ≡ N.book) }
{
    let Boot {
        kernel,
        mut cpus,
        mut monitors,
    } = opened::<N, OpenGate, R>(rt, blank);
    let mut second = taken(rt, &mut cpus);
    let mut first = taken(rt, &mut cpus);
    let mut monitor = watcher(rt, &mut monitors);
    call_parent(rt, &kernel, &mut first);
    store_in_copy(rt, &kernel, &mut second);
    answered(
        rt,
        &kernel,
        &mut first,
        process(rt, 0),
        load(),
        Reply::Value(7),
    );
    ask_copy(rt, &kernel, &mut second);
    check_quota(rt, &kernel, &mut first, 0, 31, 10);
    tell(&first, &mut monitor);
    tell(&second, &mut monitor);
    let seen = reported(rt, &mut monitor);
    let history = closed(rt, kernel, put(rt, put(rt, cpus, first), second));
    check_seen(rt, &seen);
    check_report(rt, &seen, &history);
}

#[test]
fn reports_a_copy(rt: HostRuntime) {
    copied::<Brand, HostRuntime>(&rt, booted(&rt, 32, 2, 1, OpenGate));
}
