//! Cores, images and bytes that tests make, and comparisons that assert. So a test is a list of calls.

use crate::comparing::{same, same_bytes};
use crate::images::{other_image, put_all};
use image_check::{Verdict, check};
use kernel_calls::{Call, Core, Event};
use memory_image::{Image, ImageFault, read_image, write_image};
use page_words::{Page, Pid, Size, Vaddr};
use std::fmt::Display;
use std::process::Abort;
use tower_cli::write_script_image;

const PAGE: Page = Page(0x40000);

/// The second page that process 1 has of process 0's.
const OTHER_PAGE: Page = Page(0x50000);

/// The process of a number.
pub(crate) fn process(rt: &impl Abort, number: u8) -> Pid {
    Pid::new(number).expect(rt, "a number below 64")
}

/// A freshly booted core of so many frames.
pub(crate) fn booted<R: AllocGlobal + Abort>(rt: &R, frames: u32) -> Core {
    Core::boot(rt.alloc(), frames).ok().expect(rt, "a core")
}

/// A process's call, on CPU 0.
pub(crate) fn call(core: &mut Core, pid: Pid, call: Call) {
    core.step(&Event { cpu: 0, pid, call });
}

/// A process stores four bytes.
pub(crate) fn store(core: &mut Core, pid: Pid, addr: Vaddr, value: u32) {
    let size = Size::Four;
    call(core, pid, Call::Store { addr, size, value });
}

/// Process 1 gets a page of process 0, at another place, and each stores to it.
fn share_both_ways(core: &mut Core, root: Pid, child: Pid) {
    let offer = Call::Offer {
        page: PAGE,
        target: child,
        write: true,
    };
    let accept = Call::Accept {
        giver: root,
        giver_page: PAGE,
        page: OTHER_PAGE,
    };
    store(core, root, Vaddr(0x4000_0000), 7);
    call(core, root, Call::Spawn { quota: 5 });
    call(core, root, offer);
    call(core, child, accept);
    store(core, child, Vaddr(0x5000_0000), 9);
    let (addr, size) = (Vaddr(0x4000_0000), Size::Four);
    call(core, root, Call::Load { addr, size });
}

/// A core of 16 frames on which two processes share a page.
pub(crate) fn shared_both_ways<R: AllocGlobal + Abort>(rt: &R) -> Core {
    let mut core = booted(rt, 16);
    share_both_ways(&mut core, process(rt, 0), process(rt, 1));
    core
}

/// The image of a core.
pub(crate) fn image_of<R: AllocGlobal + Abort>(rt: &R, core: &Core) -> Image {
    let image = Image::of(rt.alloc(), core);
    image.ok().expect(rt, "an image of a core")
}

/// The bytes of the image of the state that a script ends in, on so many frames.
pub(crate) fn image_after<R: AllocGlobal + Abort>(rt: &R, script: &str, frames: u32) -> Vec<u8> {
    let mut bytes = Vec::new(rt.alloc());
    let made = write_script_image(rt.alloc(), &mut script.as_bytes(), &mut bytes, frames);
    made.ok().expect(rt, "an image after a script");
    bytes
}

/// The bytes of an image of 16 frames, in one allocation.
pub(crate) fn spelled<R: AllocGlobal + Abort>(rt: &R, image: &Image) -> Vec<u8> {
    let mut bytes = Vec::with_capacity(rt.alloc(), 67_340)
        .ok()
        .expect(rt, "memory for an image");
    write_image(image, &mut bytes).ok().expect(rt, "an image");
    bytes
}

/// The bytes of the other kernel's image of a version, with this word for its page, and with these words put to it.
pub(crate) fn other_bytes<R: AllocGlobal + Abort>(
    rt: &R,
    version: u32,
    page: u32,
    changes: &[(usize, u32)],
) -> Vec<u8> {
    let mut bytes = other_image(rt.alloc(), version, page)
        .ok()
        .expect(rt, "memory for an image");
    put_all(&mut bytes, changes);
    bytes
}

/// The image in these bytes.
pub(crate) fn image_in<R: AllocGlobal + Abort>(rt: &R, bytes: &[u8]) -> Image {
    let image = read_image(rt.alloc(), bytes);
    image.ok().expect(rt, "an image of bytes")
}

/// The verdict on an image.
pub(crate) fn verdict_on<R: AllocGlobal + Abort>(rt: &R, image: &Image) -> Verdict {
    check(rt.alloc(), image).ok().expect(rt, "a verdict")
}

/// A verdict's text.
pub(crate) fn text_on<R: AllocGlobal + Abort>(rt: &R, told: &Verdict) -> Vec<u8> {
    let mut text = Vec::new(rt.alloc());
    told.write_text(&mut text).ok().expect(rt, "a text");
    text
}

/// A verdict that nothing fails, or that something does.
pub(crate) fn check_sound(rt: &impl Abort, told: &Verdict, expected: bool) {
    same(rt, &told.sound(), &expected);
}

/// Bytes are refused so as an image, or are one.
pub(crate) fn check_fault<R: AllocGlobal + Abort>(
    rt: &R,
    bytes: &[u8],
    expected: Option<ImageFault>,
) {
    let fault = read_image(rt.alloc(), bytes).err();
    same(rt, &(bytes.len(), fault), &(bytes.len(), expected));
}

/// An image that lacks its last byte is refused.
pub(crate) fn check_cut<R: AllocGlobal + Abort>(rt: &R, bytes: &[u8]) {
    let (_, front) = bytes.split_last().expect(rt, "a byte");
    check_fault(rt, front, Some(ImageFault::BadLength));
}

/// Adds bytes to a text.
pub(crate) fn add(rt: &impl Abort, text: &mut Vec<u8>, part: &[u8]) {
    text.extend_from_slice(part)
        .ok()
        .expect(rt, "memory for a text");
}

/// Prints a line.
pub(crate) fn say<R: Abort + Print>(rt: &R, line: &str) {
    println!(rt; "{line}").ok().expect(rt, "standard output");
}

/// A fault has this text.
pub(crate) fn check_fault_text<F: Display, R: AllocGlobal + Abort>(
    rt: &R,
    fault: &F,
    expected: &str,
) {
    let text = format!(in rt.alloc(); "{fault}")
        .ok()
        .expect(rt, "memory for a text");
    same_bytes(rt, text.as_bytes(), expected.as_bytes());
}

/// The line of a process or a frame that fails a clause, with the letter of its clauses.
pub(crate) fn line_of<R: AllocGlobal + Abort>(
    rt: &R,
    kind: &str,
    number: u32,
    letter: &str,
    clause: u32,
) -> String {
    format!(in rt.alloc(); "{kind} {number} {letter}{clause}\n")
        .ok()
        .expect(rt, "memory for a line")
}
