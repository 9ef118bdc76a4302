//! A core and its shadow: events, faults, and what a processor finds through the shadow.
use crate::common::{process, same, zeros};
use kernel_calls::{Call, Core, Event, Reply};
use page_words::{Page, Pid, Size, Vaddr};
use shadow_core::{Handled, ShadowedCore};
use shadow_tables::{LEAST_FRAMES, LongEnd, ShadowTables, is_kernel_half, long_walk};
use std::process::Abort;
use table_walk::Access;

const POOL: u64 = 0x10000;

const BLOCK: u64 = 0x1_0000_0000;

/// The last page of the user range.
const LAST: u64 = 0xefff_f000;

fn event_of(pid: Pid, call: Call) -> Event {
    Event { cpu: 0, pid, call }
}

/// The byte of the core's memory that a walk of the shadow reaches.
fn byte_at(shadowed: &ShadowedCore, pid: Pid, address: u64, access: Access) -> Result<u8, LongEnd> {
    let shadow = shadowed.shadow();
    let root = shadow.root(pid).ok_or(LongEnd::Foreign)?;
    let bytes = shadow.bytes();
    if bytes.len() > 0x10000 {
        return Err(LongEnd::Foreign);
    }
    let physical = long_walk(bytes, POOL, root, address, access)?;
    let place = physical.checked_sub(BLOCK).ok_or(LongEnd::Foreign)?;
    shadowed
        .core()
        .memory()
        .bytes()
        .get(place as usize)
        .copied()
        .ok_or(LongEnd::Foreign)
}

/// Handles a fault, and compares how with what it is to be.
fn check_fault<R: Abort>(
    rt: &R,
    shadowed: &mut ShadowedCore,
    pid: Pid,
    address: u64,
    access: Access,
    handled: Handled,
) {
    same(rt, &shadowed.fault(pid, address, access).0, &handled);
}

fn check_event<R: Abort>(rt: &R, shadowed: &mut ShadowedCore, pid: Pid, call: Call) {
    same(rt, &shadowed.event(&event_of(pid, call)).0, &Reply::Done);
}

/// The byte that a walk of the shadow reaches is this one, or there is none for this reason.
fn check_byte(
    rt: &impl Abort,
    shadowed: &ShadowedCore,
    pid: Pid,
    address: u64,
    access: Access,
    expected: Result<u8, LongEnd>,
) {
    same(rt, &byte_at(shadowed, pid, address, access), &expected);
}

/// A core with these shadow tables' bytes, which are the least pool, and this half.
fn shadowed_over<R: AllocGlobal + Abort>(
    rt: &R,
    core: Core,
    bytes: Vec<u8>,
    kernel: Vec<u8>,
) -> ShadowedCore {
    assert!(rt; bytes.len() == 45056 && kernel.len() == 2048);
    assert!(rt; is_kernel_half(&kernel));
    let shadow = ShadowTables::new(rt.alloc(), bytes, LEAST_FRAMES, POOL, BLOCK, kernel);
    ShadowedCore::new(core, shadow.expect(rt, "shadow tables"))
}

/// A core of 32 frames with shadow tables over the least pool.
fn shadowed_core<R: AllocGlobal + Abort>(rt: &R) -> ShadowedCore {
    let core = Core::boot(rt.alloc(), 32).ok().expect(rt, "a core");
    shadowed_over(rt, core, zeros(rt, 45056), zeros(rt, 2048))
}

#[test]
fn serves_faults_of_mapped_pages(rt: HostRuntime) {
    let mut shadowed = shadowed_core(&rt);
    let pid = process(&rt, 0);
    let page = Page(0x40000);
    let at = 0x40000123;
    let (addr, size, value) = (Vaddr(0x40000123), Size::One, 0x5a);
    let store = Call::Store { addr, size, value };
    check_event(&rt, &mut shadowed, pid, Call::Map { page, write: true });
    check_event(&rt, &mut shadowed, pid, store);
    check_fault(&rt, &mut shadowed, pid, at, Access::Read, Handled::Filled);
    check_byte(&rt, &shadowed, pid, at, Access::Write, Ok(0x5a));
    check_event(&rt, &mut shadowed, pid, Call::Unmap { page });
    let missing = Err(LongEnd::Missing);
    check_byte(&rt, &shadowed, pid, at, Access::Read, missing);
}

#[test]
fn marks_a_page_before_it_may_be_written(rt: HostRuntime) {
    let mut shadowed = shadowed_core(&rt);
    let pid = process(&rt, 0);
    let at = 0x40000123;
    let denied = Err(LongEnd::Denied);
    check_fault(&rt, &mut shadowed, pid, at, Access::Read, Handled::Filled);
    check_byte(&rt, &shadowed, pid, at, Access::Write, denied);
    check_fault(&rt, &mut shadowed, pid, at, Access::Write, Handled::Filled);
    check_byte(&rt, &shadowed, pid, at, Access::Write, Ok(0));
}

/// Twelve pages, each in a region of its own, have faults.
fn fill_the_pool(shadowed: &mut ShadowedCore, pid: Pid) {
    for page in 0..12u64 {
        shadowed.fault(pid, 0x4000_0000 + 0x20_0000 * page, Access::Read);
    }
}

#[test]
fn stops_faults_outside_and_in_a_full_pool(rt: HostRuntime) {
    let mut shadowed = shadowed_core(&rt);
    let pid = process(&rt, 0);
    let (write, first) = (Access::Write, 0x4000_0000);
    let outside = Handled::Fault {
        addr: Vaddr(u32::MAX),
        code: 4,
    };
    let far = 0x1_4000_0000;
    check_fault(&rt, &mut shadowed, pid, far, Access::Read, outside);
    fill_the_pool(&mut shadowed, pid);
    check_fault(&rt, &mut shadowed, pid, LAST, write, Handled::Full);
    check_fault(&rt, &mut shadowed, pid, first, write, Handled::Filled);
    shadowed.forget_all();
    check_fault(&rt, &mut shadowed, pid, LAST, write, Handled::Filled);
}
