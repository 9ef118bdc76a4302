//! Walks of a core's memory as a processor makes them, and what it does to a directory word.

use crate::common::{process, same};
use kernel_calls::{Call, Core, Event, Page, Pid, Reply, Size, Vaddr};
use page_words::{DirWord, in_user_range, slot_of};
use std::process::Abort;
use std::test::Fail;
use table_walk::{Access, walk};

/// Two bytes in each of two pages.
const ACROSS: Vaddr = Vaddr(0x4000_0ffe);

/// The first byte of the second page.
const BEHIND: Vaddr = Vaddr(0x4000_1000);

fn load(pid: Pid) -> Event {
    let (addr, size) = (ACROSS, Size::Four);
    let call = Call::Load { addr, size };
    Event { cpu: 0, pid, call }
}

fn store(pid: Pid, value: u32) -> Event {
    let (addr, size) = (ACROSS, Size::Four);
    let call = Call::Store { addr, size, value };
    Event { cpu: 0, pid, call }
}

/// Whether the walks of the root's directory find a frame for each of the two pages.
fn finds(rt: &impl Abort, core: &Core, access: Access) -> bool {
    let directory = core.directory(process(rt, 0)).expect(rt, "a directory");
    walk(core.memory(), directory, ACROSS, access).is_ok()
        && walk(core.memory(), directory, BEHIND, access).is_ok()
}

/// Sets or clears accessed in the directory word of a page, where a process has a directory.
fn walk_by(core: &mut Core, pid: Pid, page: Page, walked: bool) {
    if core.container(pid).is_some() && in_user_range(page) {
        core.set_walked(pid, page, walked);
    }
}

/// An event has this reply. Whether the walks for a load and for a store find a frame for each page then.
fn check(rt: &impl Abort, core: &mut Core, event: &Event, reply: Reply, found: [bool; 2]) {
    let told = core.step(event);
    let finds = [
        finds(rt, core, Access::Read),
        finds(rt, core, Access::Write),
    ];
    same(rt, &(told, finds), &(reply, found));
}

/// Whether accessed is set in the directory word of a page of the root.
fn is_walked(rt: &impl Abort, core: &Core, page: Page) -> bool {
    let directory = core.directory(process(rt, 0)).expect(rt, "a directory");
    let slot = slot_of(page) as usize;
    let place = directory.0 as usize * 4096 + slot * 4;
    assert!(rt; place + 4 <= core.memory().bytes().len());
    DirWord::read(core.memory().read_word(place)).accessed()
}

#[test]
fn walks_find_a_store_once_both_pages_have_frames(rt: HostRuntime) -> Result<(), Fail> {
    let mut core = Core::boot(rt.alloc(), 16)?;
    let (load, store) = (load(process(&rt, 0)), store(process(&rt, 0), 0xdead_beef));
    assert!(rt; !finds(&rt, &core, Access::Read));
    check(&rt, &mut core, &load, Reply::Value(0), [true, false]);
    check(&rt, &mut core, &store, Reply::Done, [true, true]);
    check(
        &rt,
        &mut core,
        &load,
        Reply::Value(0xdead_beef),
        [true, true],
    );
    Ok(())
}

#[test]
fn a_directory_word_is_marked_by_itself(rt: HostRuntime) -> Result<(), Fail> {
    let mut core = Core::boot(rt.alloc(), 16)?;
    let page = Page(0x40000);
    core.step(&load(process(&rt, 0)));
    walk_by(&mut core, process(&rt, 0), page, true);
    assert!(rt; is_walked(&rt, &core, page));
    walk_by(&mut core, process(&rt, 0), page, false);
    assert!(rt; !is_walked(&rt, &core, page));
    Ok(())
}
