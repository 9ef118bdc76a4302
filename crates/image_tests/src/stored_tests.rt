//! Snapshots: a machine of any size is stored and resumed, with its offers.

use crate::common::{booted, check_fault, image_of, process, spelled};
use crate::comparing::{same, same_bytes};
use crate::images::put;
use crate::restore_tests::reply;
use image_restore::{WideRestoreFault, restore_wide};
use kernel_calls::{Call, Cause, Core, Reply};
use memory_image::ImageFault;
use page_words::{Page, Size, Vaddr};
use std::process::Abort;
use wide_image::{
    WideImageFault, WideReadFault, read_wide_image, read_wide_image_from, write_core,
};

/// How many frames the core has.
const FRAMES: u32 = 5000;

/// The page that process 0 offers.
const OFFERED: Page = Page(0x40003);

/// Where process 1 accepts it.
const ACCEPTED: Page = Page(0x50000);

/// Process 0 stores the number of each of its first pages in it.
fn fill(rt: &impl Abort, core: &mut Core, pages: u8) {
    for page in 0..pages {
        let page = u32::from(page);
        let store = Call::Store {
            addr: Vaddr(0x4000_0000 + 4096 * page),
            size: Size::Four,
            value: page,
        };
        same(rt, &reply(rt, core, 0, store), &Reply::Done);
    }
}

/// Process 0 offers a page to process 1.
fn offer(rt: &impl Abort, core: &mut Core, page: Page, write: bool) {
    let target = process(rt, 1);
    let call = Call::Offer {
        page,
        target,
        write,
    };
    same(rt, &reply(rt, core, 0, call), &Reply::Done);
}

/// A core with a child, two offers, and a free frame that still holds what was stored.
fn prepared<R: AllocGlobal + Abort>(rt: &R) -> Core {
    let core = Core::boot_wide(rt.alloc(), FRAMES);
    let mut core = core.ok().expect(rt, "a wide core");
    fill(rt, &mut core, 20);
    let spawned = reply(rt, &mut core, 0, Call::Spawn { quota: 9 });
    same(rt, &spawned, &Reply::Child(process(rt, 1)));
    offer(rt, &mut core, Page(0x40005), false);
    offer(rt, &mut core, OFFERED, true);
    let page = Page(0x40013);
    let unmapped = reply(rt, &mut core, 0, Call::Unmap { page });
    same(rt, &unmapped, &Reply::Done);
    core
}

/// The snapshot of a core.
fn stored<R: AllocGlobal + Abort>(rt: &R, core: &Core) -> Vec<u8> {
    let mut bytes = Vec::new(rt.alloc());
    let written = write_core(rt.alloc(), core, &mut bytes);
    written.ok().expect(rt, "a snapshot of a core");
    bytes
}

/// The core of a snapshot.
fn resumed<R: AllocGlobal + Abort>(rt: &R, bytes: &[u8]) -> Core {
    let image = read_wide_image(rt.alloc(), bytes);
    let core = restore_wide(rt.alloc(), image.ok().expect(rt, "a snapshot"));
    core.ok().expect(rt, "a core")
}

/// Process 1 accepts the offered page.
fn accepted(rt: &impl Abort, core: &mut Core) -> Reply {
    let giver = process(rt, 0);
    let call = Call::Accept {
        giver,
        giver_page: OFFERED,
        page: ACCEPTED,
    };
    reply(rt, core, 1, call)
}

/// Process 1 reads where it accepts the page.
fn read(rt: &impl Abort, core: &mut Core) -> Reply {
    let call = Call::Load {
        addr: Vaddr(0x5000_0000),
        size: Size::Four,
    };
    reply(rt, core, 1, call)
}

/// Process 1 accepts the offered page, reads it, and can't accept it again.
fn check_offer(rt: &impl Abort, core: &mut Core) {
    same(rt, &accepted(rt, core), &Reply::Done);
    same(rt, &read(rt, core), &Reply::Value(3));
    same(rt, &accepted(rt, core), &Reply::Refused(Cause::NoOffer));
}

#[test]
fn a_machine_is_stored_and_resumed_whole(rt: HostRuntime) {
    let mut core = prepared(&rt);
    let bytes = stored(&rt, &core);
    // Frame 0, two directories, a table and 19 pages.
    same(&rt, &bytes.len(), &(1556 + 16 * 2 + 4116 * 23));
    let mut other = resumed(&rt, bytes.as_slice());
    same_bytes(&rt, stored(&rt, &other).as_slice(), bytes.as_slice());
    check_offer(&rt, &mut core);
    check_offer(&rt, &mut other);
    same_bytes(
        &rt,
        stored(&rt, &other).as_slice(),
        stored(&rt, &core).as_slice(),
    );
}

/// Bytes with one changed.
fn with_byte<R: AllocGlobal + Abort>(rt: &R, bytes: &[u8], place: usize, byte: u8) -> Vec<u8> {
    let mut changed = Vec::from_slice(rt.alloc(), bytes).ok().expect(rt, "memory");
    if place < changed.len() {
        changed[place] = byte;
    }
    changed
}

/// With that byte at a place, the bytes are refused so.
fn check_refused<R: AllocGlobal + Abort>(
    rt: &R,
    bytes: &[u8],
    place: usize,
    byte: u8,
    expected: WideImageFault,
) {
    let changed = with_byte(rt, bytes, place, byte);
    let fault = read_wide_image(rt.alloc(), changed.as_slice()).err();
    same(rt, &fault, &Some(expected));
}

#[test]
fn other_bytes_are_refused_by_the_first_reason(rt: HostRuntime) {
    let bytes = stored(&rt, &prepared(&rt));
    let bytes = bytes.as_slice();
    let bad = |offset| WideImageFault::BadField { offset };
    check_refused(&rt, bytes, 0, 0, WideImageFault::NotImage);
    check_refused(&rt, bytes, 4, 2, WideImageFault::BadVersion);
    check_refused(&rt, bytes, 10, 0x11, bad(8));
    check_refused(&rt, bytes, 12, 2, bad(12));
    check_refused(&rt, bytes, 1548, 3, WideImageFault::BadLength);
    check_refused(&rt, bytes, 1556, 64, bad(1556));
    check_refused(&rt, bytes, 1556 + 12, 2, bad(1556 + 12));
    check_refused(&rt, bytes, 1556 + 16 + 4, 0, bad(1556 + 16));
    check_refused(&rt, bytes, 1588 + 4, 1, bad(1588 + 4));
    check_refused(&rt, bytes, 1588 + 4116, 0, bad(1588 + 4116));
    let cut = &bytes[..bytes.len().saturating_sub(1)];
    let fault = read_wide_image(rt.alloc(), cut).err();
    same(&rt, &fault, &Some(WideImageFault::BadLength));
}

/// The bytes are refused so as a snapshot, in one piece and piece by piece.
fn check_no_snapshot<R: AllocGlobal + Abort>(rt: &R, bytes: &[u8], expected: WideImageFault) {
    let fault = read_wide_image(rt.alloc(), bytes).err();
    same(rt, &fault, &Some(expected));
    let mut reader = bytes;
    let fault = read_wide_image_from(rt.alloc(), &mut reader).err();
    same(rt, &fault, &Some(WideReadFault::NotRead(expected)));
}

/// With this version, an image is of an unknown one. It is no snapshot in any.
fn check_unknown_image<R: AllocGlobal + Abort>(rt: &R, bytes: &mut [u8], version: u32) {
    put(bytes, 4, version);
    check_fault(rt, bytes, Some(ImageFault::BadVersion));
    check_no_snapshot(rt, bytes, WideImageFault::NotImage);
}

/// With this version, a snapshot is of an unknown one. It is no image in any.
fn check_unknown_snapshot<R: AllocGlobal + Abort>(rt: &R, bytes: &mut [u8], version: u32) {
    put(bytes, 4, version);
    check_no_snapshot(rt, bytes, WideImageFault::BadVersion);
    check_fault(rt, bytes, Some(ImageFault::NotImage));
}

#[test]
fn images_and_snapshots_have_versions_of_their_own(rt: HostRuntime) {
    let mut image = spelled(&rt, &image_of(&rt, &booted(&rt, 16)));
    check_fault(&rt, &image, None);
    check_no_snapshot(&rt, &image, WideImageFault::NotImage);
    for version in [0, 3, 4, 99, u32::MAX] {
        check_unknown_image(&rt, &mut image, version);
    }
    let mut snapshot = stored(&rt, &prepared(&rt));
    check_fault(&rt, &snapshot, Some(ImageFault::NotImage));
    for version in [0, 2, 3, 99, u32::MAX] {
        check_unknown_snapshot(&rt, &mut snapshot, version);
    }
}

/// With that byte at a place, no core comes of the snapshot, for this reason.
fn check_unsound<R: AllocGlobal + Abort>(
    rt: &R,
    bytes: &[u8],
    place: usize,
    byte: u8,
    number: u32,
    reply: Reply,
) {
    let changed = with_byte(rt, bytes, place, byte);
    let image = read_wide_image(rt.alloc(), changed.as_slice());
    let fault = restore_wide(rt.alloc(), image.ok().expect(rt, "a snapshot")).err();
    same(
        rt,
        &fault,
        &Some(WideRestoreFault::BadOffer { number, reply }),
    );
}

#[test]
fn an_offer_that_the_machine_refuses_makes_no_core(rt: HostRuntime) {
    let bytes = stored(&rt, &prepared(&rt));
    let bytes = bytes.as_slice();
    let unmapped = Reply::Refused(Cause::NotMapped);
    check_unsound(&rt, bytes, 1556 + 16 + 4, 0x20, 1, unmapped);
    let no_target = Reply::Refused(Cause::NoTarget);
    check_unsound(&rt, bytes, 1556 + 8, 7, 0, no_target);
}
