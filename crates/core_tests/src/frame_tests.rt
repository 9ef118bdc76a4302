//! Which frames an event may write.

use crate::common::{check, process, same};
use kernel_calls::{Call, Core, Event, Frame, Page, Reply, Size, Vaddr};
use std::process::Abort;

const LOW: Page = Page(0x40000);

const HIGH: Page = Page(0x40001);

/// An event may write a frame or not.
fn may_write(rt: &impl Abort, core: &Core, event: &Event, frame: u32) -> bool {
    assert!(rt; frame < core.frames());
    kernel_acts::may_write(core, event, Frame(frame))
}

/// Of the frames 0 to 7, a call of a process may write these.
fn writes(rt: &impl Abort, core: &Core, number: u8, call: Call, frames: [bool; 8]) {
    let pid = process(rt, number);
    let event = Event { cpu: 0, pid, call };
    let found = [0, 1, 2, 3, 4, 5, 6, 7].map(|frame| may_write(rt, core, &event, frame));
    same(rt, &found, &frames);
}

fn offer(rt: &impl Abort, core: &mut Core, page: Page) {
    let (target, write) = (process(rt, 1), true);
    let offer = Call::Offer {
        page,
        target,
        write,
    };
    check(rt, core, 0, offer, Reply::Done);
}

/// The root has LOW on a frame, and HIGH without one. Process 1 has no page. The root offers both.
fn shared<R: AllocGlobal + Abort>(rt: &R) -> Core {
    let mut core = Core::boot(rt.alloc(), 16).ok().expect(rt, "a core");
    let (page, write) = (HIGH, true);
    let (addr, size, value) = (Vaddr(0x4000_0000), Size::Four, 7);
    let store = Call::Store { addr, size, value };
    check(rt, &mut core, 0, store, Reply::Done);
    check(rt, &mut core, 0, Call::Map { page, write }, Reply::Done);
    let child = Reply::Child(process(rt, 1));
    check(rt, &mut core, 0, Call::Spawn { quota: 6 }, child);
    offer(rt, &mut core, LOW);
    offer(rt, &mut core, HIGH);
    core
}

fn accept(rt: &impl Abort, giver_page: Page) -> Call {
    Call::Accept {
        giver: process(rt, 0),
        giver_page,
        page: LOW,
    }
}

/// Of the frames 0 to 7, an Accept of a page of the root may write these.
fn accept_writes(rt: &impl Abort, core: &Core, giver_page: Page, frames: [bool; 8]) {
    writes(rt, core, 1, accept(rt, giver_page), frames);
}

/// Of the frames 0 to 7, a process's call that does nothing may write these.
fn own(rt: &impl Abort, core: &Core, number: u8, frames: [bool; 8]) {
    writes(rt, core, number, Call::Quota, frames);
}

/// Frame 1 is the root's directory, 2 its table, 3 the frame of LOW, and 4 the directory of process 1.
#[test]
fn an_event_may_write_free_frames_and_its_own(rt: HostRuntime) {
    let core = shared(&rt);
    let (no, yes) = (false, true);
    own(&rt, &core, 0, [no, yes, yes, yes, no, yes, yes, yes]);
    own(&rt, &core, 1, [no, no, no, no, yes, yes, yes, yes]);
    own(&rt, &core, 2, [no, no, no, no, no, yes, yes, yes]);
}

#[test]
fn an_accept_of_a_lazy_page_may_write_what_leads_to_it(rt: HostRuntime) {
    let mut core = shared(&rt);
    let (no, yes) = (false, true);
    accept_writes(&rt, &core, HIGH, [no, yes, yes, no, yes, yes, yes, yes]);
    accept_writes(&rt, &core, LOW, [no, no, no, no, yes, yes, yes, yes]);
    let outside = Page(0x3ffff);
    accept_writes(&rt, &core, outside, [no, no, no, no, yes, yes, yes, yes]);
    check(&rt, &mut core, 1, accept(&rt, LOW), Reply::Done);
    own(&rt, &core, 1, [no, no, no, yes, yes, yes, yes, yes]);
}
