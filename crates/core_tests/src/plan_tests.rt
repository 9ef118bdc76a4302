//! Accesses, planned and settled.
use crate::common::{process, same};
use crate::process_tests::{check_lazy, map, spawn};
use fault_handler::{PageStep, Plan, Stop, plan, settle};
use page_words::{Page, Pid, Size, Vaddr};
use process_table::{Cause, Processes};
use std::process::Abort;
use std::test::Fail;
use table_walk::{Access, PageFault};

const PAGE: Page = Page(0x40000);

const ADDRESS: Vaddr = Vaddr(0x4000_0ffc);

const BELOW: Vaddr = Vaddr(0x3fff_fffe);

/// An access of the root of four bytes has this plan.
fn check_plan(
    rt: &impl Abort,
    processes: &Processes,
    address: Vaddr,
    access: Access,
    expected: Plan,
) {
    let pid = process(rt, 0);
    assert!(rt; processes.live(pid));
    let found = plan(processes, pid, address, Size::Four, access);
    same(rt, &found, &expected);
}

fn one(first: PageStep) -> Plan {
    Plan::Ready {
        first,
        second: None,
    }
}

fn fault(addr: Vaddr, code: u8) -> Plan {
    Plan::Fault(PageFault { addr, code })
}

#[test]
fn plans_by_the_first_line_that_applies(rt: HostRuntime) -> Result<(), Fail> {
    let mut processes = Processes::new(rt.alloc(), 16)?;
    check_plan(&rt, &processes, BELOW, Access::Read, fault(BELOW, 4));
    check_plan(&rt, &processes, BELOW, Access::Write, fault(BELOW, 6));
    check_plan(
        &rt,
        &processes,
        ADDRESS,
        Access::Write,
        one(PageStep::MapZero),
    );
    map(&rt, &mut processes, process(&rt, 0), PAGE, false);
    check_plan(&rt, &processes, ADDRESS, Access::Write, fault(ADDRESS, 7));
    check_plan(
        &rt,
        &processes,
        ADDRESS,
        Access::Read,
        one(PageStep::Complete),
    );
    spawn(&rt, &mut processes, process(&rt, 0), 12);
    let elsewhere = Vaddr(0x4000_1000);
    check_plan(
        &rt,
        &processes,
        elsewhere,
        Access::Read,
        Plan::Refused(Cause::Quota),
    );
    Ok(())
}

/// Carries out an access that completes: it reads this.
fn check_settled(
    rt: &impl Abort,
    processes: &mut Processes,
    access: Access,
    value: u32,
    expected: u32,
) {
    let pid = process(rt, 0);
    assert!(rt; processes.live(pid));
    let plan = plan(processes, pid, ADDRESS, Size::Four, access);
    let read = match plan {
        Plan::Ready { .. } => settle(processes, plan, pid, ADDRESS, Size::Four, access, value),
        _ => 0xffff_ffff,
    };
    same(rt, &read, &expected);
}

#[test]
fn settles_with_the_value_read(rt: HostRuntime) -> Result<(), Fail> {
    let mut processes = Processes::new(rt.alloc(), 16)?;
    check_settled(&rt, &mut processes, Access::Read, 7, 0);
    check_settled(&rt, &mut processes, Access::Write, 0x00c0_ffee, 0);
    check_settled(&rt, &mut processes, Access::Read, 7, 0x00c0_ffee);
    Ok(())
}

/// Checks the result of the root's four-byte access.
fn check_access(
    rt: &impl Abort,
    processes: &mut Processes,
    address: Vaddr,
    access: Access,
    value: u32,
    expected: Result<u32, Stop>,
) {
    let pid = process(rt, 0);
    let found = fault_handler::access(processes, pid, address, Size::Four, access, value);
    same(rt, &found, &expected);
}

#[test]
fn accesses_one_page(rt: HostRuntime) -> Result<(), Fail> {
    let mut processes = Processes::new(rt.alloc(), 16)?;
    check_access(&rt, &mut processes, ADDRESS, Access::Read, 7, Ok(0));
    check_access(
        &rt,
        &mut processes,
        ADDRESS,
        Access::Write,
        0x00c0_ffee,
        Ok(0),
    );
    check_access(
        &rt,
        &mut processes,
        ADDRESS,
        Access::Read,
        7,
        Ok(0x00c0_ffee),
    );
    check_access(
        &rt,
        &mut processes,
        ADDRESS,
        Access::Write,
        0x00c0_ffff,
        Ok(0),
    );
    check_access(
        &rt,
        &mut processes,
        ADDRESS,
        Access::Read,
        7,
        Ok(0x00c0_ffff),
    );
    Ok(())
}

/// An access of a process that is not live is refused.
fn check_nobody(rt: &impl Abort, processes: &mut Processes, nobody: Pid) {
    let (size, read) = (Size::Four, Access::Read);
    let found = fault_handler::access(processes, nobody, ADDRESS, size, read, 0);
    same(rt, &found, &Err(Stop::Refused(Cause::NoProcess)));
}

#[test]
fn an_access_stops_by_its_plan(rt: HostRuntime) -> Result<(), Fail> {
    let mut processes = Processes::new(rt.alloc(), 16)?;
    let beside = Vaddr(0x4000_1000);
    map(&rt, &mut processes, process(&rt, 0), Page(0x40001), false);
    let barred = PageFault {
        addr: beside,
        code: 7,
    };
    check_access(
        &rt,
        &mut processes,
        beside,
        Access::Write,
        7,
        Err(Stop::Fault(barred)),
    );
    check_access(&rt, &mut processes, beside, Access::Read, 7, Ok(0));
    spawn(&rt, &mut processes, process(&rt, 0), 12);
    check_access(
        &rt,
        &mut processes,
        ADDRESS,
        Access::Read,
        7,
        Err(Stop::Refused(Cause::Quota)),
    );
    check_nobody(&rt, &mut processes, process(&rt, 63));
    Ok(())
}

#[test]
fn accesses_two_pages(rt: HostRuntime) -> Result<(), Fail> {
    let mut processes = Processes::new(rt.alloc(), 16)?;
    let over = Vaddr(0x4000_0ffe);
    check_access(&rt, &mut processes, over, Access::Read, 7, Ok(0));
    check_access(&rt, &mut processes, over, Access::Write, 0x00c0_ffee, Ok(0));
    check_access(&rt, &mut processes, over, Access::Read, 7, Ok(0x00c0_ffee));
    let outside = PageFault {
        addr: Vaddr(0xf000_0000),
        code: 6,
    };
    check_access(
        &rt,
        &mut processes,
        Vaddr(0xefff_fffe),
        Access::Write,
        7,
        Err(Stop::Fault(outside)),
    );
    Ok(())
}

#[test]
fn fills_a_page_that_is_written(rt: HostRuntime) -> Result<(), Fail> {
    let mut processes = Processes::new(rt.alloc(), 16)?;
    let pid = process(&rt, 0);
    map(&rt, &mut processes, pid, PAGE, true);
    check_access(&rt, &mut processes, ADDRESS, Access::Read, 7, Ok(0));
    check_lazy(&rt, &processes, pid, PAGE, true);
    check_access(&rt, &mut processes, ADDRESS, Access::Write, 7, Ok(0));
    check_lazy(&rt, &processes, pid, PAGE, false);
    check_access(&rt, &mut processes, ADDRESS, Access::Write, 9, Ok(0));
    check_access(&rt, &mut processes, ADDRESS, Access::Read, 7, Ok(9));
    let below = PageFault {
        addr: BELOW,
        code: 6,
    };
    let outside = Err(Stop::Fault(below));
    check_access(&rt, &mut processes, BELOW, Access::Write, 7, outside);
    Ok(())
}
