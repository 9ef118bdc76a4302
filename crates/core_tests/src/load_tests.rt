//! A kernel loads bytes into the pages of a process: all of them, or none.

use crate::common::{check, info, peek, process, same, share};
use kernel_acts::load_bytes;
use kernel_calls::{Call, Cause, Core, Page, Reply, Size, Vaddr};
use std::process::Abort;
use std::test::Fail;

const LOW: Page = Page(0x40000);

const HIGH: Page = Page(0x40001);

/// The last three bytes of LOW, and three of HIGH.
const ADDRESS: Vaddr = Vaddr(0x4000_0ffd);

const BYTES: [u8; 6] = [1, 2, 3, 4, 5, 6];

/// A core with process 1, which has that quota.
fn with_child<R: AllocGlobal + Abort>(rt: &R, quota: u32) -> Core {
    let mut core = Core::boot(rt.alloc(), 32).ok().expect(rt, "a core");
    let child = Reply::Child(process(rt, 1));
    check(rt, &mut core, 0, Call::Spawn { quota }, child);
    core
}

/// A load of these bytes has this result.
fn load_of(
    rt: &impl Abort,
    core: &mut Core,
    number: u8,
    at: Vaddr,
    bytes: &[u8],
    write: bool,
    told: Result<(), Cause>,
) {
    let pid = process(rt, number);
    same(rt, &load_bytes(core, pid, at, bytes, write), &told);
}

/// A load of the six bytes has this result.
fn load(
    rt: &impl Abort,
    core: &mut Core,
    number: u8,
    at: Vaddr,
    write: bool,
    told: Result<(), Cause>,
) {
    load_of(rt, core, number, at, &BYTES, write, told);
}

/// A process has neither LOW nor HIGH, and is charged for so many frames.
fn check_untouched(rt: &impl Abort, core: &Core, number: u8, used: u32) {
    let pid = process(rt, number);
    let container = core.container(pid).expect(rt, "a live process");
    same(rt, &container.used, &used);
    same(rt, &core.next_page(pid, Page(0)), &None);
}

#[test]
fn loads_bytes_into_two_pages_and_leaves_the_right(rt: HostRuntime) {
    let mut core = with_child(&rt, 4);
    let (page, write) = (LOW, false);
    check(&rt, &mut core, 1, Call::Map { page, write }, Reply::Done);
    load(&rt, &mut core, 1, ADDRESS, false, Ok(()));
    peek(&rt, &core, 1, ADDRESS, 6, BYTES);
    info(&rt, &mut core, 1, LOW, [false, true, true, true], 1);
    info(&rt, &mut core, 1, HIGH, [false, true, true, true], 1);
    load(&rt, &mut core, 1, Vaddr(0x4000_0fff), true, Ok(()));
    peek(&rt, &core, 1, ADDRESS, 6, [1, 2, 1, 2, 3, 4]);
    info(&rt, &mut core, 1, LOW, [true, true, true, true], 1);
    info(&rt, &mut core, 1, HIGH, [true, true, true, true], 1);
}

#[test]
fn loads_a_page_between_two_others(rt: HostRuntime) {
    let mut core = with_child(&rt, 5);
    load_of(&rt, &mut core, 1, ADDRESS, &[7; 4100], true, Ok(()));
    peek(&rt, &core, 1, Vaddr(0x4000_0ffb), 6, [0, 0, 7, 7, 7, 7]);
    peek(&rt, &core, 1, Vaddr(0x4000_1ffd), 6, [7, 7, 7, 7, 0, 0]);
    peek(&rt, &core, 1, Vaddr(0x4000_2ffd), 3, [0, 0, 0, 9, 9, 9]);
}

/// With that quota process 1 can't load the six bytes there: nothing changes.
fn refuses<R: AllocGlobal + Abort>(rt: &R, at: Vaddr, quota: u32) {
    let mut core = with_child(rt, quota);
    load(rt, &mut core, 1, at, true, Err(Cause::Quota));
    check_untouched(rt, &core, 1, 1);
}

/// With that quota process 1 loads the six bytes there.
fn loads<R: AllocGlobal + Abort>(rt: &R, at: Vaddr, quota: u32) -> Core {
    let mut core = with_child(rt, quota);
    load(rt, &mut core, 1, at, true, Ok(()));
    core
}

/// The directory, a table and two pages are four frames.
#[test]
fn loads_nothing_where_the_quota_ends_at_the_last_page(rt: HostRuntime) {
    refuses(&rt, ADDRESS, 3);
    loads(&rt, ADDRESS, 4);
}

/// Pages 403ff and 40400 lie in two regions, so that each needs a table.
#[test]
fn counts_the_table_of_each_region(rt: HostRuntime) {
    let address = Vaddr(0x403f_fffd);
    refuses(&rt, address, 4);
    let core = loads(&rt, address, 5);
    peek(&rt, &core, 1, address, 6, BYTES);
}

/// Page effff is the last of the user range.
#[test]
fn loads_nothing_outside_the_user_range(rt: HostRuntime) {
    let mut core = with_child(&rt, 1);
    let page = Err(Cause::BadPage);
    load(&rt, &mut core, 1, Vaddr(0xefff_fffd), true, page);
    load(&rt, &mut core, 1, Vaddr(0x3fff_fffd), true, page);
    load(&rt, &mut core, 1, Vaddr(0xffff_fffd), true, page);
    check_untouched(&rt, &core, 1, 1);
    let none = Err(Cause::NoProcess);
    load(&rt, &mut core, 2, Vaddr(0xefff_fffd), true, none);
}

/// The root stores 4 bytes at the start of LOW.
fn store(rt: &impl Abort, core: &mut Core) {
    let (addr, size, value) = (Vaddr(0x4000_0000), Size::Four, 0x0403_0201);
    check(rt, core, 0, Call::Store { addr, size, value }, Reply::Done);
}

/// Process 1 has no room for LOW, and may never write to HIGH. Two pages are in nobody's range.
#[test]
fn loads_nothing_without_a_right(rt: HostRuntime) {
    let mut core = with_child(&rt, 3);
    store(&rt, &mut core);
    share(&rt, &mut core, 1, HIGH, false);
    load(&rt, &mut core, 1, ADDRESS, false, Err(Cause::Rights));
    peek(&rt, &core, 1, Vaddr(0x4000_1000), 6, [1, 2, 3, 4, 0, 0]);
    info(&rt, &mut core, 1, HIGH, [false, false, false, false], 2);
    let low = process(&rt, 1);
    same(&rt, &core.next_page(low, Page(0)), &Some(HIGH));
}

/// Process 1 has one page at LOW and at HIGH: the bytes that come last stay, and the root has them too.
#[test]
fn last_byte_of_a_page_at_two_addresses_stays(rt: HostRuntime) {
    let mut core = with_child(&rt, 4);
    store(&rt, &mut core);
    share(&rt, &mut core, 1, LOW, true);
    share(&rt, &mut core, 1, HIGH, true);
    load(&rt, &mut core, 1, ADDRESS, true, Ok(()));
    peek(&rt, &core, 1, ADDRESS, 6, BYTES);
    let quota = Err(Cause::Quota);
    load_of(&rt, &mut core, 1, ADDRESS, &[7; 4100], true, quota);
    let at = Vaddr(0x4000_0fff);
    load_of(&rt, &mut core, 1, at, &[5; 4097], true, Ok(()));
    peek(&rt, &core, 0, Vaddr(0x4000_0000), 6, [5; 6]);
}

#[test]
fn loads_no_byte_at_all(rt: HostRuntime) {
    let mut core = with_child(&rt, 1);
    let far = Vaddr(0xffff_ffff);
    load_of(&rt, &mut core, 1, far, &[], true, Ok(()));
    load_of(&rt, &mut core, 2, far, &[], true, Err(Cause::NoProcess));
    check_untouched(&rt, &core, 1, 1);
}
