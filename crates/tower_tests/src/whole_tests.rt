//! Machines that are stored whole and resumed, by the command line.

use crate::command_lines::{Ended, check_ended, end_of};
use crate::comparing::{same, same_bytes};
use crate::images::{of_version, opening_of_version};
use command_answers::Opens;
use map_jobs::draw;
use std::fs;
use std::fs::Files;
use std::process::Abort;
use std::sync::Wait;
use std::thread::Threads;
use tower_jobs::{Asks, answer};

/// A script that leaves an offer pending, and what follows it.
const FRONT: &str = "0 0 store 40000000 4 7\n0 0 spawn 5\n0 0 offer 40000 1 rw\n";

const REST: &str = "0 1 accept 0 40000 50000\n0 1 load 50000000 4\n0 0 quota\n";

const REPLIES: &str = "done\nvalue 00000007\nquota 4999 3 5\n";

/// The bytes of a snapshot before its offers, of an offer, and of a frame's record.
const HEAD: usize = 1556;

const OFFER: usize = 16;

const RECORD: usize = 4116;

/// The outcome of words of `tower` with a script.
fn outcome<R: AllocGlobal + Files + Opens<Opened = R::File> + Threads + Wait + Abort + Sync>(
    rt: &R,
    words: &[&str],
    script: &str,
) -> Ended {
    let mut output = Vec::new(rt.alloc());
    let answer = answer(rt, words, &mut script.as_bytes(), &mut output, &mut Asks);
    end_of(rt, "tower", &answer, output)
}

/// The outcome of a script on so many frames for a snapshot.
fn imaged<R: AllocGlobal + Files + Opens<Opened = R::File> + Threads + Wait + Abort + Sync>(
    rt: &R,
    frames: &str,
    script: &str,
) -> Ended {
    outcome(
        rt,
        &["tower", "image", "--whole", "--frames", frames],
        script,
    )
}

/// The snapshot of 5,000 frames after a script.
fn stored<R: AllocGlobal + Files + Opens<Opened = R::File> + Threads + Wait + Abort + Sync>(
    rt: &R,
    script: &str,
) -> Vec<u8> {
    let ended = imaged(rt, "5000", script);
    same(rt, &(ended.status, ended.errors.len()), &(0, 0));
    ended.output
}

/// The outcome of words of `tower` and the name of a file of these bytes, with a script.
fn on_file<R: AllocGlobal + Files + Opens<Opened = R::File> + Threads + Wait + Abort + Sync>(
    rt: &R,
    name: &str,
    words: &[&str],
    bytes: &[u8],
    script: &str,
) -> Ended {
    fs::write(rt, name, bytes).ok().expect(rt, "a file");
    let ended = outcome(rt, words, script);
    fs::remove_file(rt, name).ok().expect(rt, "no file");
    ended
}

/// The outcome of `resume` on a file of these bytes.
fn resumed<R: AllocGlobal + Files + Opens<Opened = R::File> + Threads + Wait + Abort + Sync>(
    rt: &R,
    bytes: &[u8],
    script: &str,
) -> Ended {
    let name = "whole.resumed.by.a.test.image";
    on_file(rt, name, &["tower", "resume", name], bytes, script)
}

/// The outcome of `resume --image` on a file of these bytes.
fn imaged_again<R: AllocGlobal + Files + Opens<Opened = R::File> + Threads + Wait + Abort + Sync>(
    rt: &R,
    bytes: &[u8],
    script: &str,
) -> Ended {
    let name = "whole.imaged.by.a.test.image";
    on_file(
        rt,
        name,
        &["tower", "resume", "--image", name],
        bytes,
        script,
    )
}

/// A file of these bytes is checked with this status, and these texts.
fn check_checked<R: AllocGlobal + Files + Opens<Opened = R::File> + Threads + Wait + Abort + Sync>(
    rt: &R,
    bytes: &[u8],
    status: u8,
    output: &str,
    errors: &str,
) {
    let name = "whole.checked.by.a.test.image";
    let ended = on_file(rt, name, &["tower", "check", name], bytes, "");
    check_ended(rt, &ended, status, output, errors);
}

/// The offer is pending after the cut, and a run without a script leaves the same snapshot.
#[test]
fn a_stored_machine_resumes_with_its_offers(rt: HostRuntime) {
    let bytes = stored(&rt, FRONT);
    // Frame 0, two directories, a table and a page.
    same(&rt, &bytes.len(), &(HEAD + OFFER + 5 * RECORD));
    check_checked(&rt, &bytes, 0, "sound\n", "");
    check_ended(&rt, &resumed(&rt, &bytes, REST), 0, REPLIES, "");
    same_bytes(&rt, &imaged_again(&rt, &bytes, "").output, &bytes);
}

/// Frames are taken as in one run, if none was freed.
#[test]
fn an_image_of_a_resumed_machine_is_whole(rt: HostRuntime) {
    let front = stored(&rt, FRONT);
    let once = concat!(
        "0 0 store 40000000 4 7\n0 0 spawn 5\n0 0 offer 40000 1 rw\n",
        "0 0 offer 40000 1 ro\n0 1 map 60000 rw\n",
    );
    let rest = "0 0 offer 40000 1 ro\n0 1 map 60000 rw\n";
    let whole = stored(&rt, once);
    same_bytes(&rt, &imaged_again(&rt, &front, rest).output, &whole);
    let malformed = imaged_again(&rt, &front, "0 0 quota\n0 0 map\n");
    check_ended(&rt, &malformed, 2, "", "tower: line 2 is malformed\n");
}

/// Bytes with one changed.
fn with_byte<R: AllocGlobal + Abort>(rt: &R, bytes: &[u8], place: usize, byte: u8) -> Vec<u8> {
    let mut changed = Vec::from_slice(rt.alloc(), bytes).ok().expect(rt, "memory");
    if place < changed.len() {
        changed[place] = byte;
    }
    changed
}

/// With that byte at a place, no script resumes on the snapshot, and the check ends with this status and these texts.
fn check_changed<R: AllocGlobal + Files + Opens<Opened = R::File> + Threads + Wait + Abort + Sync>(
    rt: &R,
    bytes: &[u8],
    place: usize,
    byte: u8,
    status: u8,
    output: &str,
    errors: &str,
) {
    let changed = with_byte(rt, bytes, place, byte);
    check_checked(rt, &changed, status, output, errors);
    check_ended(rt, &resumed(rt, &changed, REST), status, "", errors);
}

/// An offer of a page that isn't mapped, one to a process that isn't live, a quota that is too large, and a field that
/// breaks its rule.
#[test]
fn a_changed_image_resumes_no_script(rt: HostRuntime) {
    let bytes = stored(&rt, FRONT);
    let unmapped = "offer 0 refused NotMapped\n";
    let no_target = "offer 0 refused NoTarget\n";
    let field = "tower: bad field at byte 1568\n";
    check_changed(&rt, &bytes, HEAD + 4, 0x20, 3, unmapped, "");
    check_changed(&rt, &bytes, HEAD + 8, 7, 3, no_target, "");
    check_changed(&rt, &bytes, 20, 0x88, 3, "process 0 P1\n", "");
    check_changed(&rt, &bytes, HEAD + 12, 2, 2, "", field);
}

/// The check of bytes that are no snapshot ends with status 2 and this line.
fn check_refused<R: AllocGlobal + Files + Opens<Opened = R::File> + Threads + Wait + Abort + Sync>(
    rt: &R,
    bytes: &[u8],
    errors: &str,
) {
    check_checked(rt, bytes, 2, "", errors);
}

/// So many bytes from the first on, or all.
fn front(bytes: &[u8], count: usize) -> &[u8] {
    &bytes[..bytes.len().min(count)]
}

#[test]
fn a_cut_image_is_refused(rt: HostRuntime) {
    let bytes = stored(&rt, "");
    let length = "tower: wrong image length\n";
    let (_, cut) = bytes.split_last().expect(&rt, "a byte");
    check_refused(&rt, cut, length);
    check_refused(&rt, front(&bytes, 12), length);
    check_refused(&rt, front(&bytes, 7), length);
    check_refused(&rt, front(&bytes, 3), "tower: not an image\n");
    let four = with_byte(&rt, &bytes, 4, 4);
    check_refused(&rt, &four, "tower: unknown image version\n");
}

/// A snapshot has 16 to 1,048,576 frames; an image at most 4,096.
#[test]
fn a_machine_is_stored_of_so_many_frames(rt: HostRuntime) {
    let line = "tower: frames must be 16 to 1048576\n";
    let plain = ["tower", "image", "--frames", "5000"];
    let narrow = "tower: frames must be 16 to 4096\n";
    check_ended(&rt, &imaged(&rt, "15", ""), 2, "", line);
    check_ended(&rt, &imaged(&rt, "1048577", ""), 2, "", line);
    check_ended(&rt, &outcome(&rt, &plain, ""), 2, "", narrow);
    let malformed = "tower: line 1 is malformed\n";
    check_ended(&rt, &imaged(&rt, "16", "0 0 map\n"), 2, "", malformed);
}

/// The map of a file of these bytes.
fn drawn<R: AllocGlobal + Files + Abort>(rt: &R, words: &[&str], bytes: &[u8]) -> Ended {
    let name = "whole.drawn.by.a.test.image";
    fs::write(rt, name, bytes).ok().expect(rt, "a file");
    let mut output = Vec::new(rt.alloc());
    let answer = draw(rt, words, &mut output);
    fs::remove_file(rt, name).ok().expect(rt, "no file");
    end_of(rt, "memory_map", &answer, output)
}

/// The map of 5,000 frames of which few are in use.
const MAP: &str = concat!(
    "snapshot frames 5000 reserved 1 free 4995 directory 2 table 1 page 1 shared 0\n",
    "process 0 parent 0 quota 4999 used 3 given 5 room 4991\n",
    "  [#g......................................]\n",
    "  40000000-40000fff rwmad frame 3\n",
    "process 1 parent 0 quota 5 used 1 given 0 room 4\n",
    "  [########................................]\n",
    "frames # reserved . free D directory T table P page S shared\n",
    "      0 #DTPD...........................................................\n",
    "     64 free 4936\n",
    "sound\n",
);

#[test]
fn a_map_of_many_frames_has_a_line_for_free_ones(rt: HostRuntime) {
    let bytes = stored(&rt, FRONT);
    let name = "whole.drawn.by.a.test.image";
    let text = drawn(&rt, &["memory_map", name], &bytes);
    check_ended(&rt, &text, 0, MAP, "");
    let picture = drawn(&rt, &["memory_map", "--svg", name], &bytes);
    let found = (picture.status, picture.output.ends_with(b"</svg>\n"));
    same(&rt, &found, &(0, true));
}

/// Each program refuses bytes of an unknown version.
fn check_unknown<R: AllocGlobal + Files + Opens<Opened = R::File> + Threads + Wait + Abort + Sync>(
    rt: &R,
    bytes: &[u8],
) {
    let line = "tower: unknown image version\n";
    check_refused(rt, bytes, line);
    check_ended(rt, &resumed(rt, bytes, REST), 2, "", line);
    check_ended(rt, &imaged_again(rt, bytes, REST), 2, "", line);
    let map = drawn(rt, &["memory_map", "whole.drawn.by.a.test.image"], bytes);
    check_ended(rt, &map, 2, "", "memory_map: unknown image version\n");
}

/// Version 3 has the first bytes of an image: it is none that is known, and no snapshot.
#[test]
fn other_versions_are_unknown_to_the_programs(rt: HostRuntime) {
    for version in [0, 3, 4, 99, u32::MAX] {
        check_unknown(&rt, &opening_of_version(&rt, version));
    }
    let snapshot = stored(&rt, FRONT);
    for version in [0, 2, 3, 99, u32::MAX] {
        check_unknown(&rt, &of_version(&rt, &snapshot, version));
    }
}
