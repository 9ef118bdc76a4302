//! Cores restored from images: they continue as the old core does, and an image that fails a clause is refused.

use crate::common::{
    call, image_in, image_of, line_of, other_bytes, process, shared_both_ways, spelled,
};
use crate::comparing::{same, same_bytes};
use crate::damaged_tests::{Damage, damaged, damages, frames_of, image_bytes, lines_of};
use crate::images::PAGE_WORDS;
use image_restore::{Failed, FrameClause, ProcessClause, RestoreFault, restore};
use kernel_calls::{Call, Cause, Core, Event, Reply};
use memory_image::Image;
use page_words::{Frame, Page, Size, Vaddr};
use script_run::resume_script;
use std::process::Abort;

const PAGE: Page = Page(0x40000);

/// Where process 1 has the page of process 0.
const OTHER_PAGE: Page = Page(0x50000);

/// The core of an image.
fn restored<R: AllocGlobal + Abort>(rt: &R, image: Image) -> Core {
    restore(rt.alloc(), image).ok().expect(rt, "a core")
}

/// The reply to a call of a process.
pub(crate) fn reply(rt: &impl Abort, core: &mut Core, number: u8, call: Call) -> Reply {
    let pid = process(rt, number);
    core.step(&Event { cpu: 0, pid, call })
}

/// The replies to calls of two processes that first share a page.
fn replies(rt: &impl Abort, core: &mut Core) -> [Reply; 6] {
    let (addr, size) = (Vaddr(0x4000_0000), Size::Four);
    [
        reply(rt, core, 0, Call::Load { addr, size }),
        reply(rt, core, 0, Call::Info { page: PAGE }),
        reply(rt, core, 1, Call::Unmap { page: OTHER_PAGE }),
        reply(rt, core, 1, Call::Info { page: OTHER_PAGE }),
        reply(rt, core, 0, Call::Spawn { quota: 3 }),
        reply(rt, core, 0, Call::Quota),
    ]
}

/// What they are.
fn expected(rt: &impl Abort) -> [Reply; 6] {
    let info = Reply::Info {
        write: true,
        may: true,
        accessed: true,
        dirty: true,
        holders: 2,
    };
    let (quota, used, given) = (15, 3, 8);
    [
        Reply::Value(9),
        info,
        Reply::Done,
        Reply::Refused(Cause::NotMapped),
        Reply::Child(process(rt, 2)),
        Reply::Quota { quota, used, given },
    ]
}

/// Two cores have one image.
fn check_alike<R: AllocGlobal + Abort>(rt: &R, core: &Core, other: &Core) {
    let bytes = spelled(rt, &image_of(rt, core));
    let other_bytes = spelled(rt, &image_of(rt, other));
    same_bytes(rt, bytes.as_slice(), other_bytes.as_slice());
}

#[test]
fn a_restored_core_continues_as_the_old_one(rt: HostRuntime) {
    let mut core = shared_both_ways(&rt);
    let mut other = restored(&rt, image_of(&rt, &core));
    check_alike(&rt, &core, &other);
    same(&rt, &replies(&rt, &mut core), &expected(&rt));
    same(&rt, &replies(&rt, &mut other), &expected(&rt));
    check_alike(&rt, &core, &other);
}

/// Process 1 requests the page that process 0 offered, with this reply.
fn check_accept(rt: &impl Abort, core: &mut Core, expected: Reply) {
    let giver = process(rt, 0);
    let accept = Call::Accept {
        giver,
        giver_page: PAGE,
        page: Page(0x50001),
    };
    same(rt, &reply(rt, core, 1, accept), &expected);
}

#[test]
fn a_restored_core_has_no_offer(rt: HostRuntime) {
    let mut core = shared_both_ways(&rt);
    let target = process(&rt, 1);
    let offer = Call::Offer {
        page: PAGE,
        target,
        write: false,
    };
    call(&mut core, process(&rt, 0), offer);
    let mut other = restored(&rt, image_of(&rt, &core));
    check_accept(&rt, &mut core, Reply::Done);
    check_accept(&rt, &mut other, Reply::Refused(Cause::NoOffer));
}

/// The other kernel's image of a version, with these words put to it, is refused for this reason.
fn check_refused<R: AllocGlobal + Abort>(
    rt: &R,
    version: u32,
    changes: &[(usize, u32)],
    fault: RestoreFault,
) {
    let bytes = other_bytes(rt, version, PAGE_WORDS[2], changes);
    let made = restore(rt.alloc(), image_in(rt, bytes.as_slice()));
    same(rt, &made.err(), &Some(fault));
}

/// The reason is the first process that fails a clause; if none does, the first frame.
#[test]
fn an_image_that_is_not_sound_is_refused(rt: HostRuntime) {
    let quota = Failed::Process {
        pid: process(&rt, 0),
        clause: ProcessClause::Parent,
    };
    let used = Failed::Process {
        pid: process(&rt, 1),
        clause: ProcessClause::Used,
    };
    let count = Failed::Frame {
        frame: Frame(11),
        clause: FrameClause::Page,
    };
    check_refused(&rt, 2, &[(20, 16)], RestoreFault::NotSound(quota));
    check_refused(&rt, 2, &[(48, 4), (1736, 3)], RestoreFault::NotSound(used));
    check_refused(&rt, 2, &[(1736, 3)], RestoreFault::NotSound(count));
    check_refused(&rt, 1, &[], RestoreFault::OldWords);
    check_refused(&rt, 1, &[(20, 16)], RestoreFault::OldWords);
}

/// The line of a clause that fails, as a verdict writes it.
fn failed_line<R: AllocGlobal + Abort>(rt: &R, failed: Failed) -> String {
    match failed {
        Failed::Process { pid, clause } => {
            let number = u32::from(pid.number());
            line_of(rt, "process", number, "P", clause.number())
        }
        Failed::Frame { frame, clause } => line_of(rt, "frame", frame.0, "F", clause.number()),
    }
}

/// No core comes of an image with a changed word, and the reason is the first line of its verdict.
fn check_damage<R: AllocGlobal + Abort>(rt: &R, damage: &Damage) {
    let made = restore(rt.alloc(), image_in(rt, &damaged(rt, damage)));
    let lines = lines_of(rt, damage);
    match made.err() {
        Some(RestoreFault::NotSound(failed)) => {
            let line = failed_line(rt, failed);
            let first = lines.get(..line.len()).expect(rt, "a line");
            same_bytes(rt, first, line.as_bytes());
        }
        other => same(rt, &other, &Some(RestoreFault::NoMemory)),
    }
}

#[test]
fn each_damaged_image_is_refused_by_its_first_line(rt: HostRuntime) {
    for damage in damages(&frames_of(&image_bytes(&rt))) {
        check_damage(&rt, &damage);
    }
}

#[test]
fn a_script_resumes_on_another_kernels_image(rt: HostRuntime) {
    let bytes = other_bytes(&rt, 2, PAGE_WORDS[2], &[]);
    let core = restored(&rt, image_in(&rt, bytes.as_slice()));
    let mut script: &[u8] = b"0 1 load 50000000 4\n0 0 info 40000\n0 1 quota\n0 0 spawn 8\n";
    let mut written = Vec::new(rt.alloc());
    let ended = resume_script(rt.alloc(), core, &mut script, &mut written);
    same(&rt, &ended.map(|core| core.frames()), &Ok(16));
    same_bytes(
        &rt,
        written.as_slice(),
        b"value 00000009\ninfo 1 1 1 1 2\nquota 5 3 0\nrefused Quota\n",
    );
}
