//! Images that were damaged in one word, and images that were cut off: what the check and the command that
//! checks a file find.

use crate::common::{add, check_fault, image_after, image_in, line_of, text_on, verdict_on};
use crate::comparing::{same, same_bytes};
use crate::images::{place_of, put, record_of, word};
use command_answers::ToolFault;
use image_check::ImageFault;
use script_examples::sharing::SHARE_BOTH_WAYS;
use std::process::Abort;
use tower_cli::check_bytes;

/// No frame, and no clause.
const NONE: (u32, u32) = (u32::MAX, 0);

/// Frames of the image after the script.
#[derive(Clone, Copy)]
pub(crate) struct Frames {
    pub(crate) own_directory: u32,
    pub(crate) own_table: u32,
    other_directory: u32,
    other_table: u32,
    /// The page of both.
    pub(crate) shared: u32,
    /// The least free frame.
    free: u32,
}

/// One word that is changed, and the clauses that then fail.
#[derive(Clone, Copy)]
pub(crate) struct Damage {
    pub(crate) place: usize,
    pub(crate) word: u32,
    processes: &'static str,
    /// Each frame that fails, and the number of its clause.
    frames: [(u32, u32); 3],
}

/// The least frame whose role is Free.
fn least_free(bytes: &[u8]) -> u32 {
    for frame in 0..16 {
        if word(bytes, record_of(frame)) == 1 {
            return frame;
        }
    }
    0
}

/// The frames of an image in which process 1 has page 40000 of process 0 at 50000.
pub(crate) fn frames_of(bytes: &[u8]) -> Frames {
    let own_directory = word(bytes, 32);
    let other_directory = word(bytes, 56);
    let own_table = word(bytes, place_of(own_directory, 256)) / 4096;
    let other_table = word(bytes, place_of(other_directory, 320)) / 4096;
    Frames {
        own_directory,
        own_table,
        other_directory,
        other_table,
        shared: word(bytes, place_of(own_table, 0)) / 4096,
        free: least_free(bytes),
    }
}

/// A change of a word by which processes alone fail.
fn of_processes(place: usize, word: u32, processes: &'static str) -> Damage {
    Damage {
        place,
        word,
        processes,
        frames: [NONE; 3],
    }
}

/// A change of a word by which one frame fails a clause.
fn of_frame(place: usize, word: u32, frame: u32, clause: u32) -> Damage {
    Damage {
        place,
        word,
        processes: "",
        frames: [(frame, clause), NONE, NONE],
    }
}

/// Changes of one word each, and what then fails.
pub(crate) fn damages(at: &Frames) -> [Damage; 11] {
    let orphans = [(at.other_directory, 2), (at.other_table, 3), (at.shared, 4)];
    [
        // quota of process 0
        of_processes(20, 16, "process 0 P1\n"),
        // directory of process 1
        Damage {
            place: 56,
            word: 0,
            processes: "process 1 P2\n",
            frames: orphans,
        },
        // a word outside the user range
        of_processes(place_of(at.own_directory, 0), 1, "process 0 P3\n"),
        // used of process 1, given of process 0, quota of process 1
        of_processes(48, 4, "process 1 P5\n"),
        of_processes(28, 6, "process 0 P6\n"),
        of_processes(44, 2, "process 0 P6\nprocess 1 P7\n"),
        // a word of frame 0
        of_frame(place_of(0, 1), 1, 0, 1),
        // roles of a free frame, and the count of the shared page
        of_frame(record_of(at.free), 2, at.free, 2),
        of_frame(record_of(at.free), 3, at.free, 3),
        of_frame(record_of(at.shared).wrapping_add(12), 3, at.shared, 4),
        // a page in a free frame
        Damage {
            place: place_of(at.own_table, 1),
            word: at.free.wrapping_mul(4096).wrapping_add(5),
            processes: "process 0 P4\n",
            frames: [(at.free, 5), NONE, NONE],
        },
    ]
}

/// The change by which a page of process 1 names a table of process 0: the row of process 1's table for page 50000.
pub(crate) fn a_page_turned_to_a_table(bytes: &[u8], at: &Frames) -> Damage {
    let place = place_of(at.other_table, 0);
    Damage {
        place,
        word: at.own_table.wrapping_mul(4096) | word(bytes, place) % 4096,
        processes: "process 1 P4\n",
        frames: [(at.own_table, 3), (at.shared, 4), NONE],
    }
}

/// Adds the line of a frame that fails a clause.
fn add_line<R: AllocGlobal + Abort>(rt: &R, lines: &mut Vec<u8>, frame: u32, clause: u32) {
    add(
        rt,
        lines,
        line_of(rt, "frame", frame, "F", clause).as_bytes(),
    );
}

/// Adds the line of the frame of that number, where it fails a clause.
fn add_line_of<R: AllocGlobal + Abort>(rt: &R, lines: &mut Vec<u8>, damage: &Damage, number: u32) {
    for (frame, clause) in damage.frames {
        if frame == number {
            add_line(rt, lines, frame, clause);
        }
    }
}

/// Adds the lines of all frames that fail, in ascending order.
fn add_frames<R: AllocGlobal + Abort>(rt: &R, lines: &mut Vec<u8>, damage: &Damage) {
    for number in 0..16u32 {
        add_line_of(rt, lines, damage, number);
    }
}

/// The lines of what fails: processes first, then frames in ascending order.
pub(crate) fn lines_of<R: AllocGlobal + Abort>(rt: &R, damage: &Damage) -> Vec<u8> {
    let mut lines = Vec::new(rt.alloc());
    add(rt, &mut lines, damage.processes.as_bytes());
    add_frames(rt, &mut lines, damage);
    lines
}

/// The bytes of the image after the script.
pub(crate) fn image_bytes<R: AllocGlobal + Abort>(rt: &R) -> Vec<u8> {
    image_after(rt, SHARE_BOTH_WAYS.script, 16)
}

/// The bytes of that image with one word changed.
pub(crate) fn damaged<R: AllocGlobal + Abort>(rt: &R, damage: &Damage) -> Vec<u8> {
    let mut bytes = image_bytes(rt);
    put(&mut bytes, damage.place, damage.word);
    bytes
}

/// What the check finds.
fn checked<R: AllocGlobal + Abort>(rt: &R, bytes: &[u8]) -> Vec<u8> {
    text_on(rt, &verdict_on(rt, &image_in(rt, bytes)))
}

/// What the command on a file's bytes writes.
fn commanded<R: AllocGlobal + Abort>(rt: &R, bytes: &[u8]) -> Vec<u8> {
    let mut text = Vec::new(rt.alloc());
    let sound = check_bytes(rt.alloc(), bytes, &mut text);
    sound.ok().expect(rt, "a verdict on bytes");
    text
}

/// The check and the command find these lines.
fn check_both<R: AllocGlobal + Abort>(rt: &R, bytes: &[u8], lines: &[u8]) {
    same_bytes(rt, &checked(rt, bytes), lines);
    same_bytes(rt, &commanded(rt, bytes), lines);
}

/// The check and the command find of each damaged image what fails.
fn check_damages<R: AllocGlobal + Abort>(rt: &R, damages: &[Damage]) {
    for damage in damages {
        check_both(rt, &damaged(rt, damage), &lines_of(rt, damage));
    }
}

#[test]
fn a_changed_word_fails_the_same_for_both(rt: HostRuntime) {
    check_damages(&rt, &damages(&frames_of(&image_bytes(&rt))));
}

/// The command refuses so many bytes of an image, and writes nothing.
fn check_command<R: AllocGlobal + Abort>(rt: &R, front: &[u8], fault: ToolFault) {
    let mut written = Vec::new(rt.alloc());
    let ended = check_bytes(rt.alloc(), front, &mut written).err();
    let found = (front.len(), ended, written.len());
    same(rt, &found, &(front.len(), Some(fault), 0));
}

/// Why so many bytes of an image are refused, by the read and by the command: fewer than four begin no image.
fn faults_of(length: usize) -> (ImageFault, ToolFault) {
    if length < 4 {
        (ImageFault::NotImage, ToolFault::NotImage)
    } else {
        (ImageFault::BadLength, ToolFault::BadLength)
    }
}

/// The read and the command refuse less than an image.
fn check_front<R: AllocGlobal + Abort>(rt: &R, front: &[u8]) {
    let (read, told) = faults_of(front.len());
    check_fault(rt, front, Some(read));
    check_command(rt, front, told);
}

/// The first bytes of an image are refused, however many they are.
fn check_fronts<R: AllocGlobal + Abort>(rt: &R, bytes: &[u8]) {
    for length in 0..bytes.len() {
        check_front(rt, bytes.get(..length).expect(rt, "a front"));
    }
}

#[test]
fn an_image_that_is_cut_off_is_refused(rt: HostRuntime) {
    let bytes = image_bytes(&rt);
    same(&rt, &bytes.len(), &67_340);
    check_fronts(&rt, &bytes);
}
