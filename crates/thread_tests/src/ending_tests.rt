//! What the calls of a CPU report of the translations that they ended.

ghost use Rattle.std.specs.Prelude.{◌≡◌};

use crate::kernels::{
    booted, check_length, closed, opened, process, put, same, store, taken, watcher,
};
use kernel_calls::Call;
use locked_core::{
    Blank, Boot, Cpu, Ended, Gate, Invalidate, Kernel, Monitor, Name, OpenGate, Point,
};
use page_words::{Page, Pid, Size, Vaddr};
use std::alloc::Global;
use std::marker::Brand;
use std::process::Abort;
use std::sync::atomic::{AtomicU64, Ordering};
use std::sync::{Arc, Wait};
use std::test::Fail;

/// The report of a call as a number: 0 for nothing, otherwise a kind, a process and its pages.
fn number_of(ended: &Ended) -> u64 {
    match ended {
        Ended::Nothing => 0,
        Ended::Page { pid, page } => 1 + 4 * u64::from(pid.number()) + 256 * u64::from(page.0),
        Ended::Pages { pid, first, .. } => {
            2 + 4 * u64::from(pid.number()) + 256 * u64::from(first.0)
        }
        Ended::Space { pid } => 3 + 4 * u64::from(pid.number()),
    }
}

/// Keeps the last report, and how many there were.
#[derive(Drop)]
struct Listener {
    last: u64,
    count: u64,
}

impl Invalidate for Listener {
    ghost use Rattle.std.specs.Prelude.{⊤};

    ghost told = { λ before ended after. ⊤ };

    fn invalidate(&mut self, ended: &Ended) {
        self.last = number_of(ended);
        self.count = self.count.wrapping_add(1);
    }
}

/// Checks that a call of process 0 reports the same to the listener and to its caller.
fn check_ends<N: Name, R: Wait + Abort>(
    rt: &R,
    kernel: &Kernel<N, OpenGate>,
    cpu: &mut Cpu<N>,
    listener: &mut Listener,
    call: Call,
    ended: &Ended,
) {
    let told = cpu.call_ending(rt, kernel, process(rt, 0), call, listener);
    same(rt, &told.map(|told| told.1), &Ok(*ended));
    same(rt, &listener.last, &number_of(ended));
}

/// A store fills a mapped page, and an Unmap unmaps it: both make its translation stale.
fn told<N: Name, R: Wait + Abort>(rt: &R, blank: Blank<OpenGate>, listener: &mut Listener)
    requires { (blank.frames ≡ N.frames) × (blank.book ≡ N.book) }
{
    let Boot {
        kernel,
        mut cpus,
        monitors: _,
    } = opened::<N, OpenGate, R>(rt, blank);
    let mut cpu = taken(rt, &mut cpus);
    let (pid, page) = (process(rt, 0), Page(0x40000));
    let (none, own) = (Ended::Nothing, Ended::Page { pid, page });
    let map = Call::Map { page, write: true };
    check_ends(rt, &kernel, &mut cpu, listener, map, &none);
    check_ends(rt, &kernel, &mut cpu, listener, store(7), &own);
    check_ends(rt, &kernel, &mut cpu, listener, store(8), &none);
    let unmap = Call::Unmap { page };
    check_ends(rt, &kernel, &mut cpu, listener, unmap, &own);
    same(rt, &listener.count, &4);
    check_length(rt, &closed(rt, kernel, put(rt, cpus, cpu)), 4);
}

#[test]
fn a_call_tells_the_processors_what_it_ended(rt: HostRuntime) -> Result<(), Fail> {
    let mut listener = Listener { last: 9, count: 0 };
    told::<Brand, HostRuntime>(&rt, booted(&rt, 16, 1, 0, OpenGate), &mut listener);
    Ok(())
}

/// Counts how many calls reached Published.
#[derive(Drop)]
struct CountingGate {
    published: Arc<AtomicU64, Global>,
}

impl Gate for CountingGate {
    fn reach(&self, point: Point) {
        if point == Point::Published {
            self.published.fetch_add(1, Ordering::SeqCst);
        }
    }
}

/// A listener with a monitor. It keeps the last report, and how many there were. It also keeps whether each came when
/// the monitor's page had the call, and the call had not reached Published.
#[derive(Drop)]
struct Watcher<N: Name> {
    monitor: Monitor<N>,
    published: Arc<AtomicU64, Global>,
    last: u64,
    count: u64,
    in_order: bool,
}

impl<N: Name> Invalidate for Watcher<N> {
    ghost use Rattle.std.specs.Prelude.{⊤};

    ghost told = { λ before ended after. ⊤ };

    fn invalidate(&mut self, ended: &Ended) {
        let shown = self.monitor.report().map(|seen| seen.front as u64);
        let reached = self.published.load(Ordering::SeqCst);
        let before = self.count;
        self.count = before.wrapping_add(1);
        self.last = number_of(ended);
        self.in_order = self.in_order && reached == before && shown == Some(self.count);
    }
}

/// Checks that a call of a process reports this to the watcher and to its caller, in order.
fn check_told<N: Name, R: Wait + Abort>(
    rt: &R,
    kernel: &Kernel<N, CountingGate>,
    cpu: &mut Cpu<N>,
    watcher: &mut Watcher<N>,
    by: u8,
    call: Call,
    ended: &Ended,
) {
    let told = cpu.call_ending(rt, kernel, process(rt, by), call, watcher);
    same(rt, &told.map(|told| told.1), &Ok(*ended));
    same(rt, &watcher.last, &number_of(ended));
    assert!(rt; watcher.in_order);
}

/// A store over two lazy pages fills both.
fn store_over_two<N: Name, R: Wait + Abort>(
    rt: &R,
    kernel: &Kernel<N, CountingGate>,
    cpu: &mut Cpu<N>,
    watcher: &mut Watcher<N>,
) {
    let (first, second) = (Page(0x40000), Page(0x40001));
    let map_first = Call::Map {
        page: first,
        write: true,
    };
    let map_second = Call::Map {
        page: second,
        write: true,
    };
    let store_both = Call::Store {
        addr: Vaddr(0x4000_0ffe),
        size: Size::Four,
        value: 7,
    };
    let both = Ended::Pages {
        pid: process(rt, 0),
        first,
        second,
    };
    check_told(rt, kernel, cpu, watcher, 0, map_first, &Ended::Nothing);
    check_told(rt, kernel, cpu, watcher, 0, map_second, &Ended::Nothing);
    check_told(rt, kernel, cpu, watcher, 0, store_both, &both);
}

/// Process 0 makes process 1 and offers it a lazy page. The accept fills the giver's page.
fn accept_a_lazy_page<N: Name, R: Wait + Abort>(
    rt: &R,
    kernel: &Kernel<N, CountingGate>,
    cpu: &mut Cpu<N>,
    watcher: &mut Watcher<N>,
) {
    let (root, page) = (process(rt, 0), Page(0x40002));
    let offer = Call::Offer {
        page,
        target: process(rt, 1),
        write: true,
    };
    let accept = Call::Accept {
        giver: root,
        giver_page: page,
        page: Page(0x40005),
    };
    let map = Call::Map { page, write: true };
    let givers = Ended::Page { pid: root, page };
    check_told(rt, kernel, cpu, watcher, 0, map, &Ended::Nothing);
    check_told(
        rt,
        kernel,
        cpu,
        watcher,
        0,
        Call::Spawn { quota: 5 },
        &Ended::Nothing,
    );
    check_told(rt, kernel, cpu, watcher, 0, offer, &Ended::Nothing);
    check_told(rt, kernel, cpu, watcher, 1, accept, &givers);
}

/// The three kinds of reports, each after the page and before Published.
fn watched<N: Name, R: Wait + Abort>(
    rt: &R,
    blank: Blank<CountingGate>,
    published: Arc<AtomicU64, Global>,
)
    requires { (blank.frames ≡ N.frames) × (blank.book ≡ N.book) }
{
    let Boot {
        kernel,
        mut cpus,
        mut monitors,
    } = opened::<N, CountingGate, R>(rt, blank);
    let mut cpu = taken(rt, &mut cpus);
    let mut listener = Watcher {
        monitor: watcher(rt, &mut monitors),
        published,
        last: 9,
        count: 0,
        in_order: true,
    };
    store_over_two(rt, &kernel, &mut cpu, &mut listener);
    accept_a_lazy_page(rt, &kernel, &mut cpu, &mut listener);
    let gone = Ended::Space {
        pid: process(rt, 1),
    };
    check_told(rt, &kernel, &mut cpu, &mut listener, 1, Call::Exit, &gone);
    same(rt, &listener.count, &8);
    check_length(rt, &closed(rt, kernel, put(rt, cpus, cpu)), 8);
}

#[test]
fn a_report_comes_after_the_page_and_before_the_gate(rt: HostRuntime) -> Result<(), Fail> {
    let published = Arc::new(rt.alloc(), AtomicU64::new(0))?;
    let gate = CountingGate {
        published: Arc::try_clone(&published)?,
    };
    watched::<Brand, HostRuntime>(&rt, booted(&rt, 32, 1, 1, gate), published);
    Ok(())
}
