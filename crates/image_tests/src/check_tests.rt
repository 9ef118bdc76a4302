//! Verdicts on the images of cores, on images that were changed, and on those of another kernel.

use crate::common::{
    booted, check_cut, check_sound, image_in, image_of, other_bytes, process, say, spelled,
    text_on, verdict_on,
};
use crate::comparing::{same, same_bytes};
use crate::damaged_tests::{
    Frames, a_page_turned_to_a_table, damaged, frames_of, image_bytes, lines_of,
};
use crate::images::{PAGE_WORDS, place_of, put, word};
use base_tests::streams::{BrokenWriter, Pieces};
use image_check::{FrameClause, Image, NoMemory, ProcessClause, Verdict, WriteFailed, check};
use page_words::Frame;
use std::process::Abort;

#[test]
fn a_booted_core_is_sound(rt: HostRuntime) {
    let bytes = spelled(&rt, &image_of(&rt, &booted(&rt, 16)));
    check_text(&rt, &bytes, b"sound\n");
}

#[test]
fn the_largest_core_is_sound(rt: HostRuntime) {
    let image = image_of(&rt, &booted(&rt, 4096));
    check_sound(&rt, &verdict_on(&rt, &image), true);
}

/// Process 1 alone fails, with this clause.
fn check_processes(rt: &impl Abort, told: &Verdict, clause: ProcessClause) {
    for number in 0..64 {
        let expected = (number == 1).then_some(clause);
        same(rt, &told.process(process(rt, number)), &expected);
    }
}

/// Of 17 frames a table and a page alone fail.
fn check_frames(rt: &impl Abort, told: &Verdict, table: u32, page: u32) {
    for number in 0..17 {
        let is_table = (number == table).then_some(FrameClause::Table);
        let is_page = (number == page).then_some(FrameClause::Page);
        same(rt, &told.frame(Frame(number)), &is_table.or(is_page));
    }
}

/// Checks that the verdict on these bytes has the clauses of process 1 and of two frames.
fn check_clauses<R: AllocGlobal + Abort>(rt: &R, bytes: &[u8], at: &Frames) {
    let told = verdict_on(rt, &image_in(rt, bytes));
    check_processes(rt, &told, ProcessClause::Pages);
    check_frames(rt, &told, at.own_table, at.shared);
}

#[test]
fn a_page_turned_to_a_table_is_told(rt: HostRuntime) {
    let sound = image_bytes(&rt);
    let at = frames_of(&sound);
    let damage = a_page_turned_to_a_table(&sound, &at);
    let bytes = damaged(&rt, &damage);
    check_clauses(&rt, &bytes, &at);
    check_text(&rt, &bytes, &lines_of(&rt, &damage));
    check_cut(&rt, &bytes);
}

/// Checks that the verdict on the image in these bytes has this text.
fn check_text<R: AllocGlobal + Abort>(rt: &R, bytes: &[u8], expected: &[u8]) {
    let told = verdict_on(rt, &image_in(rt, bytes));
    same_bytes(rt, &text_on(rt, &told), expected);
}

/// The other kernel's image of version 2, in which one word is changed, has a verdict of this text.
fn check_changed<R: AllocGlobal + Abort>(rt: &R, place: usize, word: u32, expected: &str) {
    let bytes = other_bytes(rt, 2, PAGE_WORDS[2], &[(place, word)]);
    check_text(rt, &bytes, expected.as_bytes());
}

/// The other kernel's image of a version, with this word for a page, has a verdict of this text.
fn check_version<R: AllocGlobal + Abort>(rt: &R, version: u32, page: u32, expected: &str) {
    let bytes = other_bytes(rt, version, page, &[]);
    check_text(rt, &bytes, expected.as_bytes());
}

#[test]
fn another_kernels_images_are_sound(rt: HostRuntime) {
    check_version(&rt, 1, PAGE_WORDS[1], "sound\n");
    check_version(&rt, 2, PAGE_WORDS[2], "sound\n");
}

#[test]
fn a_version_is_judged_by_its_own_words(rt: HostRuntime) {
    check_version(&rt, 1, PAGE_WORDS[2], "process 0 P4\nprocess 1 P4\n");
    check_version(&rt, 2, PAGE_WORDS[1], "process 0 P4\nprocess 1 P4\n");
}

/// A word of the other kernel's image that is changed, and the verdict's text.
const CASES: [(usize, u32, &str); 14] = [
    // quota of process 0, and directory of process 1
    (20, 16, "process 0 P1\n"),
    (56, 0, "process 1 P2\nframe 5 F2\nframe 6 F3\nframe 11 F4\n"),
    // a word of directory 10, in slot 0 and in slot 256
    (42_764, 1, "process 0 P3\n"),
    (43_788, 0xc0a7, "process 0 P3\n"),
    // used of process 1, given of process 0, quota of process 1
    (48, 4, "process 1 P5\n"),
    (28, 6, "process 0 P6\n"),
    (44, 2, "process 0 P6\nprocess 1 P7\n"),
    // a word of frame 0, and roles of frame 1
    (1808, 1, "frame 0 F1\n"),
    (1564, 0, "frame 1 F1\n"),
    (1564, 2, "frame 1 F2\n"),
    (1564, 3, "frame 1 F3\n"),
    // count of frame 11
    (1736, 3, "frame 11 F4\n"),
    // a word of table 12: a page in a free frame, and a lazy page that nobody is charged for
    (50_960, 0x1005, "process 0 P4\nframe 1 F5\n"),
    (50_960, 0x0405, "process 0 P5\n"),
];

#[test]
fn a_changed_word_fails_its_clauses(rt: HostRuntime) {
    for (place, word, expected) in CASES {
        check_changed(&rt, place, word, expected);
    }
}

/// All 704 slots of process 0 name its one table, and process 1 has its page too.
fn one_table_everywhere<R: AllocGlobal + Abort>(rt: &R) -> Vec<u8> {
    let mut bytes = other_bytes(rt, 2, PAGE_WORDS[2], &[]);
    let link = word(&bytes, place_of(10, 256));
    for slot in 257..960 {
        put(&mut bytes, place_of(10, slot), link);
    }
    bytes
}

/// With this count of the shared frame the verdict has this text.
fn check_count<R: AllocGlobal + Abort>(rt: &R, bytes: &mut [u8], count: u32, expected: &str) {
    put(bytes, 1736, count);
    check_text(rt, bytes, expected.as_bytes());
}

#[test]
fn a_table_counts_for_each_slot_that_names_it(rt: HostRuntime) {
    let wrong = "process 0 P3\nframe 11 F4\nframe 12 F3\n";
    let mut bytes = one_table_everywhere(&rt);
    check_count(&rt, &mut bytes, 2, wrong);
    check_count(&rt, &mut bytes, 704, wrong);
    check_count(&rt, &mut bytes, 705, "process 0 P3\nframe 12 F3\n");
    check_count(&rt, &mut bytes, 706, wrong);
}

/// The other kernel's image of a version with a lazy page that process 0 is charged for.
fn check_lazy<R: AllocGlobal + Abort>(rt: &R, version: u32, page: u32, expected: &str) {
    let bytes = other_bytes(rt, version, page, &[(50_960, 0x0405), (24, 4)]);
    check_text(rt, &bytes, expected.as_bytes());
}

#[test]
fn a_lazy_page_is_sound_in_version_2_alone(rt: HostRuntime) {
    check_lazy(&rt, 1, PAGE_WORDS[1], "process 0 P4\n");
    check_lazy(&rt, 2, PAGE_WORDS[2], "sound\n");
}

/// A writer that fails behind 20 bytes has so much of the verdict's text.
fn check_broken(rt: &impl Abort, told: &Verdict, expected: &[u8]) {
    let mut writer = BrokenWriter::new(20, Pieces::Whole);
    same(rt, &told.write_text(&mut writer), &Err(WriteFailed));
    same_bytes(rt, writer.written.as_slice(), expected);
}

#[test]
fn a_verdict_stops_where_a_write_fails(rt: HostRuntime) {
    let bytes = other_bytes(&rt, 2, PAGE_WORDS[2], &[(44, 2)]);
    let told = verdict_on(&rt, &image_in(&rt, &bytes));
    check_broken(&rt, &told, b"process 0 P6\nprocess");
}

/// The verdict on an image. Where memory is refused it is asked for again, and a line is printed that says so.
fn told_again<R: AllocGlobal + Abort + Print>(rt: &R, image: &Image) -> Verdict {
    match check(rt.alloc(), image) {
        Ok(told) => told,
        Err(NoMemory) => {
            say(rt, "NoMemory, and then a verdict");
            verdict_on(rt, image)
        }
    }
}

/// `rt try --test --fail-alloc N` refuses the Nth allocation of this test alone. The first four are those
/// of the core, then come two of `Image::of` and three of `check`. A call of `check` that meets a refusal answers
/// NoMemory, and the same call with memory then succeeds.
#[test]
fn goes_on_after_want_of_memory(rt: HostRuntime) {
    let image = image_of(&rt, &booted(&rt, 16));
    check_sound(&rt, &told_again(&rt, &image), true);
}
