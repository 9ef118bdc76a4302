//! What the commands answer where memory is refused.
//!
//! `rt try --test --fail-alloc N` refuses the Nth allocation of each test here, and no other. A call that meets the
//! refusal answers that memory ran out, with nothing written. The same call with memory then succeeds, and a line is
//! printed that says so.

use crate::command_lines::TwoWords;
use crate::common::say;
use crate::comparing::{same, same_bytes};
use clap::error::ErrorKind;
use command_answers::{ToolFault, WordsFault, words};
use script_examples::sharing::SHARE_BOTH_WAYS;
use script_run::ScriptFault;
use std::alloc::Global;
use std::process::Abort;
use tower_cli::{Job, check_bytes, job_of, write_script_image};

/// The job in the arguments of a race, or why they are refused.
fn race_asked(alloc: Global) -> Result<Job<'static>, ErrorKind> {
    match job_of(alloc, &["tower", "race", "--frames", "64", "--rounds=7"]) {
        Ok(job) => Ok(job),
        Err(error) => Err(error.kind()),
    }
}

/// Checks that the arguments request seven rounds on 64 frames.
fn check_race(rt: &impl Abort, asked: Result<Job<'static>, ErrorKind>) {
    let race = Job::Race {
        frames: 64,
        rounds: 7,
    };
    same(rt, &asked, &Ok(race));
}

/// Arguments were refused for lack of memory. They are read again, and a line is printed that says so.
fn ask_again<R: AllocGlobal + Abort + Print>(rt: &R, kind: ErrorKind) {
    same(rt, &kind, &ErrorKind::OutOfMemory);
    check_race(rt, race_asked(rt.alloc()));
    say(rt, "OutOfMemory, and then a job");
}

/// Reads the arguments of a race, immediately or after OutOfMemory.
fn check_asked<R: AllocGlobal + Abort + Print>(rt: &R) {
    match race_asked(rt.alloc()) {
        Ok(race) => check_race(rt, Ok(race)),
        Err(kind) => ask_again(rt, kind),
    }
}

#[test]
fn a_command_line_is_read_after_want_of_memory(rt: HostRuntime) {
    check_asked(&rt);
}

/// How many words are read of a command line of two.
fn count_words(alloc: Global) -> Result<usize, WordsFault> {
    let line = TwoWords { second: b"race" };
    words(&(line, alloc)).map(|words| words.len())
}

/// Arguments were not read for lack of memory. They are read again, and a line is printed that says so.
fn read_again<R: AllocGlobal + Abort + Print>(rt: &R, fault: WordsFault) {
    same(rt, &fault, &WordsFault::NoMemory);
    same(rt, &count_words(rt.alloc()), &Ok(2));
    say(rt, "NoMemory, and then words");
}

/// Reads two arguments, immediately or after NoMemory.
fn check_read<R: AllocGlobal + Abort + Print>(rt: &R) {
    match count_words(rt.alloc()) {
        Ok(count) => same(rt, &count, &2),
        Err(fault) => read_again(rt, fault),
    }
}

#[test]
fn words_are_read_after_want_of_memory(rt: HostRuntime) {
    check_read(&rt);
}

/// Makes the image after a script: its bytes and the fault.
fn imaged(alloc: Global, bytes: &mut Vec<u8>) -> Option<ScriptFault> {
    let mut reader = SHARE_BOTH_WAYS.script.as_bytes();
    write_script_image(alloc, &mut reader, bytes, 16).err()
}

/// For lack of memory nothing was written of an image. It is made again, and a line is printed that says so.
fn image_again<R: AllocGlobal + Abort + Print>(rt: &R, bytes: &mut Vec<u8>, fault: ScriptFault) {
    same(rt, &(fault, bytes.len()), &(ScriptFault::NoMemory, 0));
    same(rt, &imaged(rt.alloc(), bytes), &None);
    say(rt, "NoMemory, and then an image");
}

/// Makes the image after a script, immediately or after NoMemory.
fn make_image<R: AllocGlobal + Abort + Print>(rt: &R, bytes: &mut Vec<u8>) {
    match imaged(rt.alloc(), bytes) {
        None => {}
        Some(fault) => image_again(rt, bytes, fault),
    }
}

/// For lack of memory nothing was written of a verdict. The image is checked again, and a line is printed that says so.
fn judge_again<R: AllocGlobal + Abort + Print>(
    rt: &R,
    bytes: &[u8],
    text: &mut Vec<u8>,
    fault: ToolFault,
) {
    same(rt, &(fault, text.len()), &(ToolFault::NoMemory, 0));
    same(rt, &check_bytes(rt.alloc(), bytes, text), &Ok(true));
    say(rt, "NoMemory, and then a verdict");
}

/// Checks an image, immediately or after NoMemory.
fn judge<R: AllocGlobal + Abort + Print>(rt: &R, bytes: &[u8], text: &mut Vec<u8>) {
    match check_bytes(rt.alloc(), bytes, text) {
        Ok(sound) => same(rt, &sound, &true),
        Err(fault) => judge_again(rt, bytes, text, fault),
    }
}

/// Memory for so many bytes.
fn room<R: AllocGlobal + Abort>(rt: &R, bytes: usize) -> Vec<u8> {
    Vec::with_capacity(rt.alloc(), bytes)
        .ok()
        .expect(rt, "memory for bytes")
}

#[test]
fn an_image_is_made_and_checked_after_want_of_memory(rt: HostRuntime) {
    let mut bytes = room(&rt, 67_340);
    let mut text = room(&rt, 64);
    make_image(&rt, &mut bytes);
    judge(&rt, &bytes, &mut text);
    same_bytes(&rt, &text, b"sound\n");
}
