//! Scripts that resume on the machine of an image, by the command line.

use crate::command_lines::{Ended, check_ended, check_nothing_done, end_of};
use crate::comparing::{same, same_bytes};
use crate::images::{image_after, opening, opening_of_version, opening_with_quota};
use command_answers::Opens;
use std::fs;
use std::fs::Files;
use std::process::Abort;
use std::sync::Wait;
use std::thread::Threads;
use tower_jobs::{Asks, answer};

const FRONT: &str = "0 0 store 40000000 4 7\n0 0 spawn 5\n0 0 offer 40000 1 rw\n";

const REST: &str = "0 0 load 40000000 4\n0 0 map 40000 rw\n0 1 accept 0 40000 40000\n0 0 quota\n";

const REPLIES: &str = "value 00000007\nrefused Mapped\nrefused NoOffer\nquota 15 3 5\n";

/// The outcome of words with a script.
fn outcome<R: AllocGlobal + Files + Opens<Opened = R::File> + Threads + Wait + Abort + Sync>(
    rt: &R,
    words: &[&str],
    script: &str,
) -> Ended {
    let mut output = Vec::new(rt.alloc());
    let answer = answer(rt, words, &mut script.as_bytes(), &mut output, &mut Asks);
    end_of(rt, "tower", &answer, output)
}

/// The outcome of `resume` with a file's name and a script.
fn resume<R: AllocGlobal + Files + Opens<Opened = R::File> + Threads + Wait + Abort + Sync>(
    rt: &R,
    name: &str,
    script: &str,
) -> Ended {
    outcome(rt, &["tower", "resume", name], script)
}

/// The outcome of `resume --image` on a file of these bytes.
fn image_resumed<R: AllocGlobal + Files + Opens<Opened = R::File> + Threads + Wait + Abort + Sync>(
    rt: &R,
    bytes: &[u8],
    script: &str,
) -> Ended {
    let name = "imaged.by.a.test.image";
    fs::write(rt, name, bytes).ok().expect(rt, "a file");
    let ended = outcome(rt, &["tower", "resume", "--image", name], script);
    fs::remove_file(rt, name).ok().expect(rt, "no file");
    ended
}

/// The image of a run that resumes on a file of these bytes has these bytes.
fn check_image<R: AllocGlobal + Files + Opens<Opened = R::File> + Threads + Wait + Abort + Sync>(
    rt: &R,
    bytes: &[u8],
    script: &str,
    expected: &[u8],
) {
    let ended = image_resumed(rt, bytes, script);
    same(rt, &ended.status, &0);
    same_bytes(rt, &ended.output, expected);
}

/// A script that resumes on a file of these bytes ends with this status, and these texts.
fn check_resume<R: AllocGlobal + Files + Opens<Opened = R::File> + Threads + Wait + Abort + Sync>(
    rt: &R,
    bytes: &[u8],
    script: &str,
    status: u8,
    output: &str,
    errors: &str,
) {
    let name = "resumed.by.a.test.image";
    fs::write(rt, name, bytes).ok().expect(rt, "a file");
    let ended = resume(rt, name, script);
    fs::remove_file(rt, name).ok().expect(rt, "no file");
    check_ended(rt, &ended, status, output, errors);
}

/// No script resumes on a file of these bytes: the status and the line say why.
fn check_not_resumed<
    R: AllocGlobal + Files + Opens<Opened = R::File> + Threads + Wait + Abort + Sync,
>(rt: &R, bytes: &[u8], status: u8, errors: &str) {
    check_resume(rt, bytes, REST, status, "", errors);
}

/// The machine has all but the offer.
#[test]
fn a_script_resumes_on_an_image(rt: HostRuntime) {
    let malformed = "0 0 load 40000000 4\n0 0 map\n";
    let line = "tower: line 2 is malformed\n";
    let image = image_after(&rt, FRONT);
    check_resume(&rt, &image, REST, 0, REPLIES, "");
    check_resume(&rt, &image, malformed, 2, "value 00000007\n", line);
    check_resume(&rt, &opening(&rt), "0 0 quota\n", 0, "quota 15 1 0\n", "");
}

#[test]
fn no_script_resumes_on_another_file(rt: HostRuntime) {
    let version = "tower: unknown image version\n";
    let missing = resume(&rt, "no.such.image", REST);
    check_not_resumed(&rt, &opening_with_quota(&rt, 16), 3, "");
    check_not_resumed(&rt, &opening_of_version(&rt, 1), 2, version);
    check_not_resumed(&rt, &opening_of_version(&rt, 4), 2, version);
    check_not_resumed(&rt, &opening_of_version(&rt, 3), 2, version);
    check_not_resumed(&rt, b"mC2", 2, "tower: not an image\n");
    check_ended(&rt, &missing, 1, "", "tower: read failed\n");
}

/// Without a script it is the file itself. Frames are taken as in one run, if none was freed.
#[test]
fn the_image_of_a_resumed_run_is_written(rt: HostRuntime) {
    let image = image_after(&rt, FRONT);
    let whole = concat!(
        "0 0 store 40000000 4 7\n0 0 spawn 5\n",
        "0 1 store 40000000 4 8\n"
    );
    check_image(&rt, &image, "", &image);
    check_image(
        &rt,
        &image,
        "0 1 store 40000000 4 8\n",
        &image_after(&rt, whole),
    );
}

#[test]
fn no_image_of_a_resumed_run_is_written(rt: HostRuntime) {
    let image = opening(&rt);
    let version = "tower: unknown image version\n";
    let malformed = image_resumed(&rt, &image, "0 0 quota\n0 0 map\n");
    let unsound = image_resumed(&rt, &opening_with_quota(&rt, 16), REST);
    let old = image_resumed(&rt, &opening_of_version(&rt, 1), REST);
    check_ended(&rt, &malformed, 2, "", "tower: line 2 is malformed\n");
    check_ended(&rt, &unsound, 3, "", "");
    check_ended(&rt, &old, 2, "", version);
}

#[test]
fn resume_requires_the_name_of_a_file(rt: HostRuntime) {
    let words = ["tower", "resume"];
    check_nothing_done(&rt, &outcome(&rt, &words, REST), 2, &words);
}
