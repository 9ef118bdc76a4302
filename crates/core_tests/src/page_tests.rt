//! What a kernel does with a page of a process: it clears marks, copies bytes out, and installs bytes.

use crate::common;
use crate::common::{check, info, peek, process, same};
use kernel_calls::{Call, Cause, Core, Page, Reply, Size, Vaddr};
use page_words::offset_of;
use std::process::Abort;
use std::test::Fail;

const LOW: Page = Page(0x40000);

const HIGH: Page = Page(0x40001);

/// The last four bytes of LOW.
const ADDRESS: Vaddr = Vaddr(0x4000_0ffc);

/// A process stores the bytes 1 to 4 to the last of LOW.
fn store(rt: &impl Abort, core: &mut Core, reply: Reply) {
    let (addr, size, value) = (ADDRESS, Size::Four, 0x0403_0201);
    check(rt, core, 0, Call::Store { addr, size, value }, reply);
}

fn map(rt: &impl Abort, core: &mut Core, page: Page, write: bool) {
    check(rt, core, 0, Call::Map { page, write }, Reply::Done);
}

/// Process 1 accepts the root's page LOW as its page HIGH, with that right.
fn share(rt: &impl Abort, core: &mut Core, write: bool) {
    let child = Reply::Child(process(rt, 1));
    check(rt, core, 0, Call::Spawn { quota: 5 }, child);
    common::share(rt, core, 1, HIGH, write);
}

/// The root's first page is LOW. Its marks are cleared; it was dirty or not.
fn clean(rt: &impl Abort, core: &mut Core, dirty: bool) {
    let root = process(rt, 0);
    let page = core.next_page(root, LOW).expect(rt, "a mapped page");
    same(rt, &page, &LOW);
    same(rt, &core.clean(root, page), &dirty);
}

/// The root's next dirty page from there on.
fn next_dirty(rt: &impl Abort, core: &Core, from: Page, page: Option<Page>) {
    same(
        rt,
        &kernel_acts::next_dirty(core, process(rt, 0), from),
        &page,
    );
}

#[test]
fn clears_marks_and_returns_whether_a_page_was_dirty(rt: HostRuntime) -> Result<(), Fail> {
    let mut core = Core::boot(rt.alloc(), 16)?;
    let (addr, size) = (ADDRESS, Size::Four);
    store(&rt, &mut core, Reply::Done);
    map(&rt, &mut core, HIGH, true);
    next_dirty(&rt, &core, Page(0), Some(LOW));
    next_dirty(&rt, &core, HIGH, None);
    clean(&rt, &mut core, true);
    next_dirty(&rt, &core, Page(0), None);
    info(&rt, &mut core, 0, LOW, [true, true, false, false], 1);
    check(
        &rt,
        &mut core,
        0,
        Call::Load { addr, size },
        Reply::Value(0x0403_0201),
    );
    info(&rt, &mut core, 0, LOW, [true, true, true, false], 1);
    clean(&rt, &mut core, false);
    info(&rt, &mut core, 0, LOW, [true, true, false, false], 1);
    Ok(())
}

/// LOW is real and HIGH lazy; process 1 has LOW at HIGH, where nothing is marked yet.
#[test]
fn copies_bytes_up_to_a_hole_and_marks_nothing(rt: HostRuntime) -> Result<(), Fail> {
    let mut core = Core::boot(rt.alloc(), 16)?;
    let unmarked = [true, true, false, false];
    store(&rt, &mut core, Reply::Done);
    map(&rt, &mut core, HIGH, true);
    share(&rt, &mut core, true);
    info(&rt, &mut core, 0, HIGH, unmarked, 1);
    info(&rt, &mut core, 1, HIGH, unmarked, 2);
    peek(&rt, &core, 0, Vaddr(0x4000_0ffd), 6, [2, 3, 4, 0, 0, 0]);
    peek(&rt, &core, 0, Vaddr(0x4000_1ffe), 2, [0, 0, 9, 9, 9, 9]);
    peek(&rt, &core, 1, Vaddr(0x4000_1ffc), 4, [1, 2, 3, 4, 9, 9]);
    peek(&rt, &core, 1, ADDRESS, 0, [9; 6]);
    info(&rt, &mut core, 0, HIGH, unmarked, 1);
    info(&rt, &mut core, 1, HIGH, unmarked, 2);
    Ok(())
}

/// The bytes 1 to 4 are installed at an address of a process, or refused with this reply.
fn install(
    rt: &impl Abort,
    core: &mut Core,
    number: u8,
    at: Vaddr,
    write: bool,
    told: Option<Reply>,
) {
    assert!(rt; offset_of(at) <= 4092);
    let put = kernel_acts::install(core, process(rt, number), at, &[1, 2, 3, 4], write);
    same(rt, &put.err(), &told);
}

#[test]
fn installs_bytes_and_leaves_the_right(rt: HostRuntime) -> Result<(), Fail> {
    let mut core = Core::boot(rt.alloc(), 16)?;
    let (addr, size) = (ADDRESS, Size::Four);
    map(&rt, &mut core, LOW, false);
    install(&rt, &mut core, 0, ADDRESS, false, None);
    info(&rt, &mut core, 0, LOW, [false, true, true, true], 1);
    check(
        &rt,
        &mut core,
        0,
        Call::Load { addr, size },
        Reply::Value(0x0403_0201),
    );
    store(&rt, &mut core, Reply::Fault { addr, code: 7 });
    install(&rt, &mut core, 0, ADDRESS, true, None);
    info(&rt, &mut core, 0, LOW, [true, true, true, true], 1);
    install(&rt, &mut core, 0, Vaddr(0x4000_1000), false, None);
    info(&rt, &mut core, 0, HIGH, [false, true, true, true], 1);
    install(&rt, &mut core, 0, Vaddr(0x4000_2000), true, None);
    info(
        &rt,
        &mut core,
        0,
        Page(0x40002),
        [true, true, true, true],
        1,
    );
    Ok(())
}

/// Process 1 may never write to its page, and page 3ffff lies below the user range.
#[test]
fn installs_no_bytes_without_a_right(rt: HostRuntime) -> Result<(), Fail> {
    let mut core = Core::boot(rt.alloc(), 16)?;
    let (rights, page) = (
        Reply::Refused(Cause::Rights),
        Reply::Refused(Cause::BadPage),
    );
    store(&rt, &mut core, Reply::Done);
    share(&rt, &mut core, false);
    install(&rt, &mut core, 1, Vaddr(0x4000_1000), true, Some(rights));
    install(&rt, &mut core, 0, Vaddr(0x3fff_f000), true, Some(page));
    peek(&rt, &core, 1, Vaddr(0x4000_1000), 6, [0; 6]);
    info(&rt, &mut core, 1, HIGH, [false, false, false, false], 2);
    Ok(())
}
