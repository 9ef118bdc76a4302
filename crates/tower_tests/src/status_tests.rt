//! The four exit statuses, standard output, and the messages on standard error.

use crate::command_lines::{Ended, check_answer, check_ended, check_nothing_done, end_of};
use crate::images::{opening, opening_with_quota};
use base_tests::streams::FullWriter;
use command_answers::{Answer, Opens, ToolFault};
use std::fs;
use std::fs::Files;
use std::process::Abort;
use std::sync::Wait;
use std::thread::Threads;
use tower_jobs::{Asks, answer};

const MAP: &str = "0 0 map 40000 rw\n";

const MALFORMED: &str = "0 0 map 40000 rw\n0 0 map\n";

const ONE_ROUND: &str =
    "rounds 1\nhistory legal\nreport equal\nverdict sound\nprocess 0 parent 0 quota 15 used 3 given 5\nprocess 1 parent 0 quota 5 used 3 given 0\ntotal 6\n";

const BAD_SIZE: &str = "tower: frames must be 16 to 4096\n";

/// The outcome of arguments and a script on standard input.
fn run<R: AllocGlobal + Files + Opens<Opened = R::File> + Threads + Wait + Abort + Sync>(
    rt: &R,
    words: &[&str],
    script: &str,
) -> Ended {
    let mut output = Vec::new(rt.alloc());
    let answer = answer(rt, words, &mut script.as_bytes(), &mut output, &mut Asks);
    end_of(rt, "tower", &answer, output)
}

/// Words and a script come to this status, and these texts.
fn check_run<R: AllocGlobal + Files + Opens<Opened = R::File> + Threads + Wait + Abort + Sync>(
    rt: &R,
    words: &[&str],
    script: &str,
    status: u8,
    output: &str,
    errors: &str,
) {
    check_ended(rt, &run(rt, words, script), status, output, errors);
}

#[test]
fn a_command_line_ends_with_its_status(rt: HostRuntime) {
    let malformed = "tower: line 2 is malformed\n";
    let too_few = ["tower", "run", "--frames", "15"];
    let too_many = ["tower", "race", "--frames", "4097"];
    let one_round = ["tower", "race", "--rounds", "1"];
    let no_file = ["tower", "check", "no.such.image"];
    check_run(&rt, &["tower", "run"], MAP, 0, "done\n", "");
    check_run(&rt, &["tower", "run"], MALFORMED, 2, "done\n", malformed);
    check_run(&rt, &too_few, MAP, 2, "", BAD_SIZE);
    check_run(&rt, &["tower", "image"], MALFORMED, 2, "", malformed);
    check_run(&rt, &too_many, "", 2, "", BAD_SIZE);
    check_run(&rt, &one_round, "", 0, ONE_ROUND, "");
    check_run(&rt, &no_file, "", 1, "", "tower: read failed\n");
}

/// Words end with status 2, with nothing on standard output and something on standard error.
fn check_refused<R: AllocGlobal + Files + Opens<Opened = R::File> + Threads + Wait + Abort + Sync>(
    rt: &R,
    words: &[&str],
) {
    check_nothing_done(rt, &run(rt, words, ""), 2, words);
}

/// Standard error begins with this text, once these words were refused.
fn check_told<R: AllocGlobal + Files + Opens<Opened = R::File> + Threads + Wait + Abort + Sync>(
    rt: &R,
    words: &[&str],
    text: &str,
) {
    let ended = run(rt, words, "");
    assert!(rt; ended.errors.starts_with(text.as_bytes()));
}

#[test]
fn refused_words_end_with_status_2(rt: HostRuntime) {
    check_refused(&rt, &["tower"]);
    check_refused(&rt, &["tower", "walk"]);
    check_refused(&rt, &["tower", "help"]);
    let text = "error: unrecognized subcommand 'walk'";
    check_told(&rt, &["tower", "walk"], text);
}

/// The outcome of a check of a file with these bytes.
fn run_on_file<R: AllocGlobal + Files + Opens<Opened = R::File> + Threads + Wait + Abort + Sync>(
    rt: &R,
    bytes: &[u8],
) -> Ended {
    let name = "checked.by.a.test.image";
    fs::write(rt, name, bytes).ok().expect(rt, "a file");
    let ended = run(rt, &["tower", "check", name], "");
    fs::remove_file(rt, name).ok().expect(rt, "no file");
    ended
}

/// A file of these bytes comes to this status, and these texts.
fn check_file<R: AllocGlobal + Files + Opens<Opened = R::File> + Threads + Wait + Abort + Sync>(
    rt: &R,
    bytes: &[u8],
    status: u8,
    output: &str,
    errors: &str,
) {
    check_ended(rt, &run_on_file(rt, bytes), status, output, errors);
}

#[test]
fn files_are_checked_by_their_names(rt: HostRuntime) {
    let sound = opening(&rt);
    let unsound = opening_with_quota(&rt, 16);
    check_file(&rt, &sound, 0, "sound\n", "");
    check_file(&rt, &unsound, 3, "process 0 P1\n", "");
    check_file(&rt, b"mC2", 2, "", "tower: not an image\n");
}

/// Words end with status 1 where no byte can be written.
fn check_unwritten<
    R: AllocGlobal + Files + Opens<Opened = R::File> + Threads + Wait + Abort + Sync,
>(rt: &R, words: &[&str]) {
    let answer = answer(
        rt,
        words,
        &mut MAP.as_bytes(),
        &mut FullWriter::new(0),
        &mut Asks,
    );
    check_answer(rt, "tower", &answer, 1, "tower: write failed\n");
}

#[test]
fn a_write_that_fails_ends_with_status_1(rt: HostRuntime) {
    check_unwritten(&rt, &["tower", "run"]);
    check_unwritten(&rt, &["tower", "image"]);
    check_unwritten(&rt, &["tower", "race", "--rounds=1"]);
}

/// A fault ends with this status, and this line on standard error, which is its own text.
fn check_fault<R: AllocGlobal + Abort>(rt: &R, fault: ToolFault, status: u8, line: &str) {
    let text = format!(in rt.alloc(); "{fault}\n").expect(rt, "memory");
    assert_eq!(rt; text.as_str(), line);
    check_answer(rt, "tower", &Answer::Failed(fault), status, line);
}

#[test]
fn each_fault_has_its_text_and_status(rt: HostRuntime) {
    let version = "tower: unknown image version\n";
    let length = "tower: wrong image length\n";
    let malformed = ToolFault::Malformed { line: 7 };
    let field = ToolFault::BadField { offset: 1548 };
    let field_line = "tower: bad field at byte 1548\n";
    let turns = "tower: race ran out of turns\n";
    let wide = "tower: frames must be 16 to 1048576\n";
    check_fault(&rt, ToolFault::BadSize, 2, BAD_SIZE);
    check_fault(&rt, ToolFault::BadWideSize, 2, wide);
    check_fault(&rt, ToolFault::NoMemory, 1, "tower: out of memory\n");
    check_fault(&rt, malformed, 2, "tower: line 7 is malformed\n");
    check_fault(&rt, ToolFault::TooLong, 2, "tower: script is too long\n");
    check_fault(&rt, ToolFault::ReadFailed, 1, "tower: read failed\n");
    check_fault(&rt, ToolFault::WriteFailed, 1, "tower: write failed\n");
    check_fault(&rt, ToolFault::NotImage, 2, "tower: not an image\n");
    check_fault(&rt, ToolFault::BadVersion, 2, version);
    check_fault(&rt, ToolFault::BadLength, 2, length);
    check_fault(&rt, field, 2, field_line);
    check_fault(&rt, ToolFault::RaceTurns, 1, turns);
    check_fault(&rt, ToolFault::RaceFailed, 1, "tower: race failed\n");
}
