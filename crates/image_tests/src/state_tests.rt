//! What an image represents: one pair of spaces and book at most. So the tests compare the processes with what they
//! have, and the mapped pages with their flags, bytes and groups.

use crate::common::{image_in, image_of, other_bytes, process, shared_both_ways};
use crate::comparing::same;
use crate::images::PAGE_WORDS;
use image_check::Image;
use page_words::{DirWord, Frame, Pid, TableWord};
use std::alloc::{AllocError, Global};
use std::process::Abort;

/// What an image says of one mapped page of a process: the process's number, the page, and its flags. These are whether
/// the process may write to it now, whether it may be given that right, accessed, dirty, and whether the page is lazy.
type Mapped = (u8, u32, [bool; 5]);

/// Whether a process may write to a page now, by its word in an image of this version.
fn may_write(version: u32, entry: TableWord) -> bool {
    if version == 2 {
        entry.granted()
    } else {
        entry.writable()
    }
}

/// Whether a page has no frame yet.
fn is_lazy(version: u32, entry: TableWord) -> bool {
    version == 2 && entry.lazy()
}

/// What the word of a page says, in an image of this version.
fn mapped_by(version: u32, pid: u8, page: u32, word: u32) -> Mapped {
    let entry = TableWord::read(word);
    let flags = [
        may_write(version, entry),
        entry.may(),
        entry.accessed(),
        entry.dirty(),
        is_lazy(version, entry),
    ];
    (pid, page, flags)
}

/// Adds the mapped pages of a table of a process, each with its frame.
fn add_pages(
    image: &Image,
    pid: u8,
    slot: u32,
    table: Frame,
    pages: &mut Vec<(Mapped, Frame)>,
) -> Result<(), AllocError> {
    for index in 0..1024 {
        let word = image.word(table, index);
        let entry = TableWord::read(word);
        if entry.present() {
            let page = slot.wrapping_mul(1024).wrapping_add(index);
            pages.push((mapped_by(image.version(), pid, page, word), entry.frame()))?;
        }
    }
    Ok(())
}

/// Adds the mapped pages of the table that a directory word links.
fn add_table(
    image: &Image,
    pid: u8,
    slot: u32,
    word: DirWord,
    pages: &mut Vec<(Mapped, Frame)>,
) -> Result<(), AllocError> {
    if word.present() {
        add_pages(image, pid, slot, word.frame(), pages)
    } else {
        Ok(())
    }
}

/// Adds the mapped pages of a directory.
fn add_directory(
    image: &Image,
    pid: u8,
    directory: Frame,
    pages: &mut Vec<(Mapped, Frame)>,
) -> Result<(), AllocError> {
    for slot in 256..960 {
        let word = DirWord::read(image.word(directory, slot));
        add_table(image, pid, slot, word, pages)?;
    }
    Ok(())
}

/// Adds the mapped pages of a process, where it is live.
fn add_process(
    image: &Image,
    pid: Pid,
    pages: &mut Vec<(Mapped, Frame)>,
) -> Result<(), AllocError> {
    match image.process(pid) {
        Some(process) => add_directory(image, pid.number(), process.directory, pages),
        None => Ok(()),
    }
}

/// The mapped pages of processes 0 and 1 of an image, each with its frame, in ascending order.
fn pages_of(
    rt: &impl Abort,
    alloc: Global,
    image: &Image,
) -> Result<Vec<(Mapped, Frame)>, AllocError> {
    let mut pages = Vec::new(alloc);
    add_process(image, process(rt, 0), &mut pages)?;
    add_process(image, process(rt, 1), &mut pages)?;
    Ok(pages)
}

/// The bytes of a frame of an image.
fn bytes_in(image: &Image, frame: Frame) -> Option<&[u8]> {
    let start = (frame.0 as usize).wrapping_mul(4096);
    image.bytes().get(start..start.wrapping_add(4096))
}

/// What an image has of a process, without the frame of its directory.
fn record_of(image: &Image, pid: Pid) -> Option<(Pid, [u32; 3])> {
    let process = image.process(pid)?;
    Some((process.parent, [process.quota, process.used, process.given]))
}

/// Whether two images agree on all processes.
fn have_same_processes(rt: &impl Abort, one: &Image, other: &Image) -> bool {
    for number in 0..64 {
        let pid = process(rt, number);
        if record_of(one, pid) != record_of(other, pid) {
            return false;
        }
    }
    true
}

/// Whether these frames are one where the others are.
fn has_same_group(
    mine: &[(Mapped, Frame)],
    theirs: &[(Mapped, Frame)],
    frame: Frame,
    same: Frame,
) -> bool {
    for ((_, next), (_, same_next)) in mine.iter().zip(theirs.iter()) {
        if (frame == *next) != (same == *same_next) {
            return false;
        }
    }
    true
}

/// Whether two images agree on all pages: which are mapped, with which flags and bytes, and which of them are one
/// frame.
fn have_same_pages(
    one: &Image,
    other: &Image,
    mine: &[(Mapped, Frame)],
    theirs: &[(Mapped, Frame)],
) -> bool {
    for ((page, frame), (same_page, same)) in mine.iter().zip(theirs.iter()) {
        let same_bytes = bytes_in(one, *frame) == bytes_in(other, *same);
        if page != same_page || !same_bytes || !has_same_group(mine, theirs, *frame, *same) {
            return false;
        }
    }
    mine.len() == theirs.len()
}

/// Checks whether it agrees with an image of ours on processes, and on pages.
fn check_same(
    rt: &impl Abort,
    alloc: Global,
    own: &Image,
    other: &Image,
    processes: bool,
    pages: bool,
) {
    let mine = pages_of(rt, alloc, own).ok().expect(rt, "memory for pages");
    let theirs = pages_of(rt, alloc, other)
        .ok()
        .expect(rt, "memory for pages");
    let are_same = have_same_pages(own, other, &mine, &theirs);
    let found = (mine.len(), have_same_processes(rt, own, other), are_same);
    same(rt, &found, &(2, processes, pages));
}

/// Checks that the other kernel's image of version 1, with these words put into it, agrees on processes, and on pages
/// or not.
fn check_pages<R: AllocGlobal + Abort>(rt: &R, own: &Image, changes: &[(usize, u32)], pages: bool) {
    let other = image_in(rt, &other_bytes(rt, 1, PAGE_WORDS[1], changes));
    check_same(rt, rt.alloc(), own, &other, true, pages);
}

/// Checks that the other kernel's image of version 2, with these words put into it, agrees on pages, and on processes
/// or not.
fn check_processes<R: AllocGlobal + Abort>(
    rt: &R,
    own: &Image,
    changes: &[(usize, u32)],
    processes: bool,
) {
    let other = image_in(rt, &other_bytes(rt, 2, PAGE_WORDS[2], changes));
    check_same(rt, rt.alloc(), own, &other, processes, true);
}

#[test]
fn another_kernels_images_stand_for_the_same_state(rt: HostRuntime) {
    let own = image_of(&rt, &shared_both_ways(&rt));
    check_pages(&rt, &own, &[], true);
    check_processes(&rt, &own, &[], true);
}

/// One byte of the shared page, one flag, one page moved, or one number of a process: another state.
#[test]
fn a_changed_image_stands_for_another_state(rt: HostRuntime) {
    let own = image_of(&rt, &shared_both_ways(&rt));
    check_pages(&rt, &own, &[(46_860, 8)], false);
    check_pages(&rt, &own, &[(50_956, 0xb265)], false);
    check_pages(&rt, &own, &[(50_956, 0xb227)], false);
    check_pages(&rt, &own, &[(50_956, 0)], false);
    check_processes(&rt, &own, &[(44, 6)], false);
}
