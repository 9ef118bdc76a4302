//! What a kernel does for its processes: it ends a family, and takes a page back from all others.

use crate::common::{check, process, same, share};
use kernel_acts::{Holder, end_family, next_beside, take_back};
use kernel_calls::{Call, Cause, Core, Page, Reply, Size, Vaddr};
use std::process::Abort;
use std::test::Fail;

const PAGE: Page = Page(0x40000);

/// The first address of the page.
const ADDRESS: Vaddr = Vaddr(0x4000_0000);

/// A process gets a child with that quota and this number.
fn spawn(rt: &impl Abort, core: &mut Core, parent: u8, quota: u32, child: u8) {
    let child = Reply::Child(process(rt, child));
    check(rt, core, parent, Call::Spawn { quota }, child);
}

/// Which of the processes 0 to 5 are live.
fn live(rt: &impl Abort, core: &Core) -> [bool; 6] {
    [0, 1, 2, 3, 4, 5].map(|number| core.container(process(rt, number)).is_some())
}

/// A process has these two children, and no other.
fn check_children(rt: &impl Abort, core: &Core, number: u8, children: [u8; 2]) {
    let mut found = [process(rt, 0); 64];
    same(
        rt,
        &kernel_acts::children(core, process(rt, number), &mut found),
        &2,
    );
    let [first, second, ..] = found;
    same(
        rt,
        &[first, second],
        &children.map(|child| process(rt, child)),
    );
}

/// A family is not ended, for this cause.
fn refuses_to_end(rt: &impl Abort, core: &mut Core, number: u8, cause: Cause) {
    let pid = process(rt, number);
    let mut exited = [pid; 64];
    same(rt, &end_family(core, pid, &mut exited), &Err(cause));
}

/// Which of the processes 0 to 5 are live.
fn check_live(rt: &impl Abort, core: &Core, expected: [bool; 6]) {
    same(rt, &live(rt, core), &expected);
}

/// A family of three processes is ended, in this order.
fn check_ended(rt: &impl Abort, core: &mut Core, number: u8, expected: [u8; 3]) {
    let mut exited = [process(rt, 0); 64];
    let ended = end_family(core, process(rt, number), &mut exited);
    let [first, second, third, ..] = exited;
    let expected = expected.map(|number| process(rt, number));
    same(rt, &(ended, [first, second, third]), &(Ok(3), expected));
}

/// Process 2 is a child of process 1, and process 3 of process 2. Process 4 is not of the family.
#[test]
fn ends_a_family_from_its_leaves_up(rt: HostRuntime) -> Result<(), Fail> {
    let mut core = Core::boot(rt.alloc(), 32)?;
    spawn(&rt, &mut core, 0, 20, 1);
    spawn(&rt, &mut core, 1, 9, 2);
    spawn(&rt, &mut core, 2, 3, 3);
    spawn(&rt, &mut core, 0, 4, 4);
    check_live(&rt, &core, [true, true, true, true, true, false]);
    check_children(&rt, &core, 0, [1, 4]);
    check_ended(&rt, &mut core, 1, [3, 2, 1]);
    check_live(&rt, &core, [true, false, false, false, true, false]);
    let (quota, used, given) = (31, 1, 4);
    let left = Reply::Quota { quota, used, given };
    check(&rt, &mut core, 0, Call::Quota, left);
    refuses_to_end(&rt, &mut core, 1, Cause::NoProcess);
    refuses_to_end(&rt, &mut core, 0, Cause::RootExit);
    Ok(())
}

/// The root stores 7 to its page, which process 1 then has at two pages, and process 2 at one.
fn shared<R: AllocGlobal + Abort>(rt: &R) -> Core {
    let mut core = Core::boot(rt.alloc(), 16).ok().expect(rt, "a core");
    let (addr, size, value) = (ADDRESS, Size::Four, 7);
    check(
        rt,
        &mut core,
        0,
        Call::Store { addr, size, value },
        Reply::Done,
    );
    spawn(rt, &mut core, 0, 6, 1);
    spawn(rt, &mut core, 0, 4, 2);
    share(rt, &mut core, 1, Page(0x50000), true);
    share(rt, &mut core, 1, Page(0x50001), true);
    share(rt, &mut core, 2, PAGE, true);
    core
}

/// The lowest page, from there on, at which a process shares the page of a slot.
fn beside(rt: &impl Abort, core: &Core, slot: (u8, u32), holder: u8, from: u32, page: Option<u32>) {
    let (pid, own) = (process(rt, slot.0), Page(slot.1));
    assert!(rt; page_words::in_user_range(own));
    let found = next_beside(core, pid, own, process(rt, holder), Page(from));
    same(rt, &found, &page.map(|page| Page(page)));
}

#[test]
fn finds_who_else_has_a_page(rt: HostRuntime) {
    let core = shared(&rt);
    beside(&rt, &core, (0, 0x40000), 1, 0, Some(0x50000));
    beside(&rt, &core, (0, 0x40000), 1, 0x50001, Some(0x50001));
    beside(&rt, &core, (0, 0x40000), 1, 0x50002, None);
    beside(&rt, &core, (0, 0x40000), 2, 0, Some(0x40000));
    beside(&rt, &core, (0, 0x40000), 0, 0, None);
    beside(&rt, &core, (1, 0x50001), 1, 0, Some(0x50000));
    beside(&rt, &core, (0, 0x40001), 1, 0, None);
}

/// The root maps a page, with the right to write.
fn map(rt: &impl Abort, core: &mut Core, page: Page) {
    let write = true;
    check(rt, core, 0, Call::Map { page, write }, Reply::Done);
}

/// The root offers a page to a process.
fn offer(rt: &impl Abort, core: &mut Core, page: Page, target: u8, write: bool) {
    let target = process(rt, target);
    let offer = Call::Offer {
        page,
        target,
        write,
    };
    check(rt, core, 0, offer, Reply::Done);
}

/// The root's first offer from a page and a target on.
fn next_offer(rt: &impl Abort, core: &Core, from: (Page, u32), found: Option<(Page, u8, bool)>) {
    let told = core.next_offer(process(rt, 0), from.0, from.1);
    same(
        rt,
        &told.map(|offer| (offer.page, offer.target.number(), offer.write)),
        &found,
    );
}

#[test]
fn finds_offers_by_page_and_target(rt: HostRuntime) -> Result<(), Fail> {
    let mut core = Core::boot(rt.alloc(), 16)?;
    let other = Page(0x40001);
    spawn(&rt, &mut core, 0, 4, 1);
    spawn(&rt, &mut core, 0, 4, 2);
    map(&rt, &mut core, PAGE);
    map(&rt, &mut core, other);
    offer(&rt, &mut core, other, 1, false);
    offer(&rt, &mut core, PAGE, 2, true);
    offer(&rt, &mut core, PAGE, 1, false);
    next_offer(&rt, &core, (Page(0), 0), Some((PAGE, 1, false)));
    next_offer(&rt, &core, (PAGE, 2), Some((PAGE, 2, true)));
    next_offer(&rt, &core, (PAGE, 3), Some((other, 1, false)));
    next_offer(&rt, &core, (other, 2), None);
    Ok(())
}

/// A slot that lost its page.
fn holder(rt: &impl Abort, number: u8, page: u32) -> Holder {
    let (pid, page) = (process(rt, number), Page(page));
    Holder { pid, page }
}

/// A process doesn't have a page.
fn check_none(rt: &impl Abort, core: &mut Core, number: u8, page: u32) {
    let page = Page(page);
    let none = Reply::Refused(Cause::NotMapped);
    check(rt, core, number, Call::Info { page }, none);
}

/// Only the root has its page, with bytes and flags as before.
fn check_alone(rt: &impl Abort, core: &mut Core) {
    let info = Reply::Info {
        write: true,
        may: true,
        accessed: true,
        dirty: true,
        holders: 1,
    };
    let load = Call::Load {
        addr: ADDRESS,
        size: Size::Four,
    };
    check(rt, core, 0, Call::Info { page: PAGE }, info);
    check(rt, core, 0, load, Reply::Value(7));
    check_none(rt, core, 1, 0x50000);
    check_none(rt, core, 1, 0x50001);
    check_none(rt, core, 2, 0x40000);
}

#[test]
fn takes_a_page_back_from_all_others(rt: HostRuntime) {
    let mut core = shared(&rt);
    let root = process(&rt, 0);
    let none = holder(&rt, 0, 0);
    let mut lost = [none; 4];
    same(&rt, &take_back(&mut core, root, PAGE, &mut lost), &Ok(3));
    let first = holder(&rt, 1, 0x50000);
    let second = holder(&rt, 1, 0x50001);
    let third = holder(&rt, 2, 0x40000);
    same(&rt, &lost, &[first, second, third, none]);
    check_alone(&rt, &mut core);
}

/// The root takes its page back from so many slots, with a list of one: this slot, or what the list had.
fn takes_one(rt: &impl Abort, core: &mut Core, count: usize, slot: Holder) {
    let mut lost = [holder(rt, 0, 0)];
    same(
        rt,
        &take_back(core, process(rt, 0), PAGE, &mut lost),
        &Ok(count),
    );
    same(rt, &lost, &[slot]);
}

#[test]
fn takes_a_page_back_slot_by_slot(rt: HostRuntime) {
    let mut core = shared(&rt);
    takes_one(&rt, &mut core, 1, holder(&rt, 1, 0x50000));
    takes_one(&rt, &mut core, 1, holder(&rt, 1, 0x50001));
    takes_one(&rt, &mut core, 1, holder(&rt, 2, 0x40000));
    takes_one(&rt, &mut core, 0, holder(&rt, 0, 0));
    check_alone(&rt, &mut core);
}

/// A page is not taken back, for this cause.
fn refuses_to_take(rt: &impl Abort, core: &mut Core, number: u8, page: u32, cause: Cause) {
    let mut lost = [];
    same(
        rt,
        &take_back(core, process(rt, number), Page(page), &mut lost),
        &Err(cause),
    );
}

#[test]
fn takes_back_what_an_info_finds(rt: HostRuntime) {
    let mut core = shared(&rt);
    refuses_to_take(&rt, &mut core, 3, 0x40000, Cause::NoProcess);
    refuses_to_take(&rt, &mut core, 0, 0x3ffff, Cause::BadPage);
    refuses_to_take(&rt, &mut core, 0, 0x40001, Cause::NotMapped);
}
