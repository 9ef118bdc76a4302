//! A core that CPUs take and give back, and monitors read reports on.

ghost use Rattle.std.specs.Prelude.{◌≡◌};

use crate::common::{check, process, same};
use core_handover::{Cpu, Monitor, Refusal, ShareFault, Shared, Unshared, share};
use kernel_calls::{Call, Core, Reply};
use memory_report::report_of;
use page_words::{Size, Vaddr};
use std::process::Abort;
use std::test::Fail;

/// Stores a number in the first word of the user range.
fn store(value: u32) -> Call {
    Call::Store {
        addr: Vaddr(0x4000_0000),
        size: Size::Four,
        value,
    }
}

/// Loads the first word of the user range.
fn load() -> Call {
    Call::Load {
        addr: Vaddr(0x4000_0000),
        size: Size::Four,
    }
}

/// A core of 16 frames.
fn booted<R: AllocGlobal + Abort>(rt: &R) -> Box<Core> {
    let core = Core::boot(rt.alloc(), 16).expect(rt, "no memory");
    Box::new(rt.alloc(), core).expect(rt, "no memory")
}

/// Shares a core of 16 frames.
fn shared<R: AllocGlobal + Abort>(rt: &R, cpus: usize, monitors: usize) -> Shared {
    share(rt.alloc(), booted(rt), cpus, monitors)
        .ok()
        .expect(rt, "not shared")
}

/// Takes the last of the CPUs.
fn cpu_of(rt: &impl Abort, shared: &mut Shared) -> Box<Cpu> {
    shared.cpus.pop().expect(rt, "a CPU")
}

/// Takes the last of the monitors.
fn monitor_of(rt: &impl Abort, shared: &mut Shared) -> Box<Monitor> {
    shared.monitors.pop().expect(rt, "a monitor")
}

/// A CPU takes the core.
fn taken(rt: &impl Abort, cpu: &mut Cpu) -> Box<Core> {
    cpu.take().expect(rt, "the core")
}

/// A CPU gives the core back.
fn give(rt: &impl Abort, cpu: &mut Cpu, core: Box<Core>, publish: bool) {
    assert!(rt; cpu.give(core, publish).is_ok());
}

/// A CPU gets no core, for this reason.
fn refused(rt: &impl Abort, cpu: &mut Cpu, why: Refusal) {
    same(rt, &cpu.take().err(), &Some(why));
}

/// A CPU takes the core, makes a call of process 0, and gives the core back.
fn made(rt: &impl Abort, cpu: &mut Cpu, call: Call, reply: Reply, publish: bool) {
    let mut core = taken(rt, cpu);
    check(rt, &mut core, 0, call, reply);
    give(rt, cpu, core, publish);
}

/// A monitor reads the report on the core that was given back so often, with this total.
fn reads(rt: &impl Abort, monitor: &mut Monitor, count: u64, total: u64)
    ensures { monitor.new.book ≡ monitor.old.book }
{
    assert!(rt; monitor.read());
    same(rt, &monitor.page().front().count(), &count);
    same(rt, &monitor.page().report().total(), &total);
}

#[test]
fn hands_the_core_over(rt: HostRuntime) {
    let mut shared = shared(&rt, 2, 0);
    let (mut one, mut other) = (cpu_of(&rt, &mut shared), cpu_of(&rt, &mut shared));
    let mut core = taken(&rt, &mut one);
    refused(&rt, &mut other, Refusal::Busy);
    refused(&rt, &mut one, Refusal::Misplaced);
    check(&rt, &mut core, 0, store(7), Reply::Done);
    give(&rt, &mut one, core, true);
    made(&rt, &mut other, load(), Reply::Value(7), false);
    same(&rt, &(one.count(), other.count()), &(1, 2));
}

#[test]
fn closes(rt: HostRuntime) {
    let mut shared = shared(&rt, 2, 0);
    let (mut one, mut other) = (cpu_of(&rt, &mut shared), cpu_of(&rt, &mut shared));
    same(&rt, &one.close(), &Err(Refusal::Misplaced));
    let mut core = taken(&rt, &mut one);
    same(&rt, &one.close(), &Ok(()));
    refused(&rt, &mut one, Refusal::Closed);
    refused(&rt, &mut other, Refusal::Closed);
    check(&rt, &mut core, 0, load(), Reply::Value(0));
}

#[test]
fn gives_what_was_taken(rt: HostRuntime) {
    let mut shared = shared(&rt, 1, 0);
    let mut cpu = cpu_of(&rt, &mut shared);
    let kept = cpu.give(booted(&rt), false).err().expect(&rt, "refused");
    same(&rt, &kept.why, &Refusal::Misplaced);
    same(&rt, &(kept.core.frames(), cpu.count()), &(16, 0));
}

#[test]
fn reports_never_go_back(rt: HostRuntime) {
    let mut shared = shared(&rt, 1, 2);
    let (mut cpu, mut monitor) = (cpu_of(&rt, &mut shared), monitor_of(&rt, &mut shared));
    reads(&rt, &mut monitor, 0, 1);
    made(&rt, &mut cpu, store(7), Reply::Done, true);
    reads(&rt, &mut monitor, 1, 3);
    let known = monitor.page().front().again();
    made(&rt, &mut cpu, load(), Reply::Value(7), false);
    reads(&rt, &mut monitor, 1, 3);
    made(&rt, &mut cpu, load(), Reply::Value(7), true);
    reads(&rt, &mut monitor, 3, 3);
    assert!(rt; known.begins(monitor.page().front()));
    assert!(rt; !monitor.page().front().begins(&known));
    same(
        &rt,
        &monitor.page().report(),
        &report_of(&taken(&rt, &mut cpu)),
    );
}

/// A core isn't shared among these, for this reason, and comes back.
fn unshared<R: AllocGlobal + Abort>(rt: &R, cpus: usize, monitors: usize) {
    let Err(Unshared { core, why }) = share(rt.alloc(), booted(rt), cpus, monitors) else {
        panic!(rt; "shared among {cpus} and {monitors}")
    };
    same(rt, &(why, core.frames()), &(ShareFault::BadCount, 16));
}

#[test]
fn shares_among_eight(rt: HostRuntime) {
    unshared(&rt, 0, 0);
    unshared(&rt, 9, 0);
    unshared(&rt, 8, 9);
    let shared = shared(&rt, 8, 8);
    same(&rt, &(shared.cpus.len(), shared.monitors.len()), &(8, 8));
}

/// `rt try --test --fail-alloc N` refuses the Nth allocation of this test alone. The first five make the core. A share
/// that meets another answers NoMemory with the core, which is then shared with memory, and a line says so.
#[test]
fn shares_after_want_of_memory(rt: HostRuntime) -> Result<(), Fail> {
    let core = Box::new(rt.alloc(), Core::boot(rt.alloc(), 16)?)?;
    if let Err(Unshared { core, why }) = share(rt.alloc(), core, 1, 1) {
        same(&rt, &why, &ShareFault::NoMemory);
        assert!(rt; share(rt.alloc(), core, 1, 1).is_ok());
        println!(rt; "NoMemory, and then shared")?;
    }
    Ok(())
}
