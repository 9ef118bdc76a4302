//! The exit statuses of the program that draws maps, what it writes, and its messages on standard error.

use crate::command_lines::{Ended, check_answer, check_nothing_done, end_of};
use crate::comparing::{same, same_bytes};
use crate::images::opening_with_quota;
use base_tests::streams::FullWriter;
use map_jobs::{answer, draw};
use std::fs;
use std::fs::Files;
use std::process::Abort;

const PROGRAM: &str = "memory_map";

const MAP: &str = "0 0 map 40000 rw\n";

const MALFORMED: &str = "0 0 map 40000 rw\n0 0 map\n";

const BAD_SIZE: &str = "memory_map: frames must be 16 to 4096\n";

/// Runs a command line.
fn drawn<R: AllocGlobal + Files + Abort>(rt: &R, words: &[&str]) -> Ended {
    let mut output = Vec::new(rt.alloc());
    let answer = draw(rt, words, &mut output);
    end_of(rt, PROGRAM, &answer, output)
}

fn put_file<R: Files + Abort>(rt: &R, name: &str, bytes: &[u8]) {
    fs::write(rt, name, bytes).ok().expect(rt, "a file");
}

fn remove_file<R: Files + Abort>(rt: &R, name: &str) {
    fs::remove_file(rt, name).ok().expect(rt, "no file");
}

/// Draws a file of these bytes.
fn drawn_file<R: AllocGlobal + Files + Abort>(rt: &R, bytes: &[u8]) -> Ended {
    let name = "drawn.by.a.test.image";
    put_file(rt, name, bytes);
    let ended = drawn(rt, &["memory_map", name]);
    remove_file(rt, name);
    ended
}

/// Checks a status, the end of standard output, and standard error.
fn check_ended(rt: &impl Abort, ended: &Ended, status: u8, last: &str, errors: &str) {
    let found = (ended.status, ended.output.ends_with(last.as_bytes()));
    same(rt, &found, &(status, true));
    same_bytes(rt, &ended.errors, errors.as_bytes());
}

/// Checks the outcome of drawing a file of these bytes.
fn check_file<R: AllocGlobal + Files + Abort>(
    rt: &R,
    bytes: &[u8],
    status: u8,
    last: &str,
    errors: &str,
) {
    check_ended(rt, &drawn_file(rt, bytes), status, last, errors);
}

#[test]
fn files_are_drawn_by_their_names(rt: HostRuntime) {
    let sound = opening_with_quota(&rt, 15);
    let unsound = opening_with_quota(&rt, 16);
    check_file(&rt, &sound, 0, "sound\n", "");
    check_file(&rt, &unsound, 3, "process 0 P1\n", "");
    check_file(&rt, b"mC2", 2, "", "memory_map: not an image\n");
}

/// Draws a file of these bytes as a picture.
fn pictured<R: AllocGlobal + Files + Abort>(rt: &R, bytes: &[u8]) -> Ended {
    let name = "pictured.by.a.test.image";
    put_file(rt, name, bytes);
    let ended = drawn(rt, &["memory_map", "--svg", name]);
    remove_file(rt, name);
    ended
}

/// What was written begins and ends as a picture.
fn is_picture(output: &[u8]) -> bool {
    output.starts_with(b"<svg ") && output.ends_with(b"</svg>\n")
}

/// With this quota of process 0 a picture is drawn, with this status.
fn check_pictured<R: AllocGlobal + Files + Abort>(rt: &R, quota: u32, status: u8) {
    let ended = pictured(rt, &opening_with_quota(rt, quota));
    same(
        rt,
        &(ended.status, is_picture(&ended.output)),
        &(status, true),
    );
}

#[test]
fn pictures_are_drawn_where_they_are_asked(rt: HostRuntime) {
    check_pictured(&rt, 15, 0);
    check_pictured(&rt, 16, 3);
}

/// Words end with this status, with nothing on standard output and something on standard error.
fn check_not_drawn<R: AllocGlobal + Files + Abort>(rt: &R, words: &[&str], status: u8) {
    check_nothing_done(rt, &drawn(rt, words), status, words);
}

#[test]
fn a_map_that_is_not_drawn_has_its_status(rt: HostRuntime) {
    check_not_drawn(&rt, &["memory_map"], 2);
    check_not_drawn(&rt, &["memory_map", "--png", "an.image"], 2);
    check_not_drawn(&rt, &["memory_map", "no.such.image"], 1);
}

/// Words end with status 1 where no byte can be written.
fn check_unwritten<R: AllocGlobal + Files + Abort>(rt: &R, words: &[&str]) {
    let answer = draw(rt, words, &mut FullWriter::new(0));
    check_answer(rt, PROGRAM, &answer, 1, "memory_map: write failed\n");
}

#[test]
fn a_map_that_can_not_be_written_ends_with_status_1(rt: HostRuntime) {
    let name = "unwritten.by.a.test.image";
    put_file(&rt, name, &opening_with_quota(&rt, 15));
    check_unwritten(&rt, &["memory_map", name]);
    check_unwritten(&rt, &["memory_map", "--svg", name]);
    remove_file(&rt, name);
}

/// Runs a command line, with a script on standard input.
fn answered<R: AllocGlobal + Files + Abort>(rt: &R, words: &[&str], script: &str) -> Ended {
    let mut output = Vec::new(rt.alloc());
    let answer = answer(rt, words, script.as_bytes(), &mut output);
    end_of(rt, PROGRAM, &answer, output)
}

/// Checks the outcome of a command line with a script: status, the end of standard output, and standard error.
fn check_film<R: AllocGlobal + Files + Abort>(
    rt: &R,
    words: &[&str],
    script: &str,
    status: u8,
    last: &str,
    errors: &str,
) {
    check_ended(rt, &answered(rt, words, script), status, last, errors);
}

#[test]
fn films_are_written_of_scripts(rt: HostRuntime) {
    let film = [PROGRAM, "--film"];
    let few = [PROGRAM, "--frames", "15", "--film"];
    let malformed = "memory_map: line 2 is malformed\n";
    check_film(&rt, &film, MAP, 0, "</html>\n", "");
    check_film(&rt, &film, MALFORMED, 2, "</html>\n", malformed);
    check_film(&rt, &few, MAP, 2, "", BAD_SIZE);
}

/// Checks that arguments with `--film` that request something else too are refused.
fn check_no_film<R: AllocGlobal + Files + Abort>(rt: &R, words: &[&str]) {
    check_nothing_done(rt, &answered(rt, words, MAP), 2, words);
}

#[test]
fn a_film_of_a_file_is_refused(rt: HostRuntime) {
    check_no_film(&rt, &[PROGRAM, "--film", "an.image"]);
    check_no_film(&rt, &[PROGRAM, "--film", "--svg"]);
    check_no_film(&rt, &[PROGRAM, "--film", "--frames", "many"]);
}

#[test]
fn words_without_a_film_draw_a_file(rt: HostRuntime) {
    let name = "answered.by.a.test.image";
    put_file(&rt, name, &opening_with_quota(&rt, 16));
    check_film(&rt, &[PROGRAM, name], MAP, 3, "process 0 P1\n", "");
    remove_file(&rt, name);
}
