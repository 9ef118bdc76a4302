//! The outcome of a command line.

use crate::comparing::{same, same_bytes};
use command_answers::{Answer, status_of, tell};
use std::process::Abort;

/// The outcome of a command line: its status, and the bytes of standard output and standard error.
#[derive(Drop)]
pub(crate) struct Ended {
    pub(crate) status: u8,
    pub(crate) output: Vec<u8>,
    pub(crate) errors: Vec<u8>,
}

/// The message of a program on standard error about an answer.
fn told<R: AllocGlobal + Abort>(rt: &R, program: &str, answer: &Answer) -> Vec<u8> {
    let mut errors = Vec::new(rt.alloc());
    tell(program, answer, &mut errors)
        .ok()
        .expect(rt, "what is told");
    errors
}

/// The outcome of a program's answer, with what was written before.
pub(crate) fn end_of<R: AllocGlobal + Abort>(
    rt: &R,
    program: &str,
    answer: &Answer,
    output: Vec<u8>,
) -> Ended {
    Ended {
        status: status_of(answer),
        output,
        errors: told(rt, program, answer),
    }
}

/// A program's answer has this status, and this text on standard error.
pub(crate) fn check_answer<R: AllocGlobal + Abort>(
    rt: &R,
    program: &str,
    answer: &Answer,
    status: u8,
    errors: &str,
) {
    same(rt, &status_of(answer), &status);
    same_bytes(rt, &told(rt, program, answer), errors.as_bytes());
}

/// A command line came to this status, and these texts.
pub(crate) fn check_ended(rt: &impl Abort, ended: &Ended, status: u8, output: &str, errors: &str) {
    same(rt, &ended.status, &status);
    same_bytes(rt, &ended.output, output.as_bytes());
    same_bytes(rt, &ended.errors, errors.as_bytes());
}

/// Words came to this status, with nothing on standard output and something on standard error.
pub(crate) fn check_nothing_done(rt: &impl Abort, ended: &Ended, status: u8, words: &[&str]) {
    let found = (
        words,
        ended.status,
        ended.output.len(),
        ended.errors.is_empty(),
    );
    same(rt, &found, &(words, status, 0, false));
}
