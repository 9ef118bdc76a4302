//! Command lines, and words that are not text.

use crate::command_lines::TwoWords;
use crate::comparing::same;
use clap::error::ErrorKind;
use command_answers::{WordsFault, answer_of_words, status_of, words};
use std::alloc::Global;
use std::process::Abort;
use tower_cli::{Job, job_of};

/// The job in these arguments, or why they are refused.
fn asked<'a>(alloc: Global, words: &'a [&'a str]) -> Result<Job<'a>, ErrorKind> {
    match job_of(alloc, words) {
        Ok(job) => Ok(job),
        Err(error) => Err(error.kind()),
    }
}

/// Checks that these arguments request this job, or are refused so.
fn check_asked<'a, R: AllocGlobal + Abort>(
    rt: &R,
    words: &'a [&'a str],
    expected: Result<Job<'a>, ErrorKind>,
) {
    same(rt, &(words, asked(rt.alloc(), words)), &(words, expected));
}

/// These words are refused so.
fn check_refused<R: AllocGlobal + Abort>(rt: &R, words: &[&str], kind: ErrorKind) {
    check_asked(rt, words, Err(kind));
}

/// These words ask to run a script on so many frames.
fn check_run<R: AllocGlobal + Abort>(rt: &R, words: &[&str], frames: u32) {
    check_asked(rt, words, Ok(Job::Run { frames }));
}

#[test]
fn reads_numbers_of_frames_as_clap_does(rt: HostRuntime) {
    let value = ErrorKind::ValueValidation;
    check_run(&rt, &["tower", "run"], 16);
    check_run(&rt, &["tower", "run", "--frames", "64"], 64);
    check_run(&rt, &["tower", "run", "--frames=0064"], 64);
    check_run(&rt, &["tower", "run", "--frames=+64"], 64);
    check_run(&rt, &["tower", "run", "--frames=-0"], 0);
    check_run(&rt, &["tower", "run", "--frames=4294967295"], 4_294_967_295);
    check_refused(&rt, &["tower", "run", "--frames=4294967296"], value);
    check_refused(&rt, &["tower", "run", "--frames=-1"], value);
    check_refused(&rt, &["tower", "run", "--frames", "abc"], value);
}

#[test]
fn refuses_other_words_as_clap_does(rt: HostRuntime) {
    let unknown = ErrorKind::UnknownArgument;
    let conflict = ErrorKind::ArgumentConflict;
    let help = ErrorKind::DisplayHelp;
    let twice = ["tower", "run", "--frames", "16", "--frames", "17"];
    check_refused(&rt, &["tower", "run", "--frames", "-0"], unknown);
    check_refused(&rt, &twice, conflict);
    check_refused(&rt, &["tower", "run", "16"], unknown);
    check_refused(&rt, &["tower", "run", "--help"], help);
    check_refused(&rt, &["tower", "help"], help);
    check_refused(&rt, &["tower", "walk"], ErrorKind::InvalidSubcommand);
    check_refused(&rt, &["tower", "run", "--rounds", "2"], unknown);
    check_refused(&rt, &["tower"], ErrorKind::MissingSubcommand);
}

/// Checks that these arguments request so many rounds of a race, each on so many frames.
fn check_race<R: AllocGlobal + Abort>(rt: &R, words: &[&str], frames: u32, rounds: u32) {
    check_asked(rt, words, Ok(Job::Race { frames, rounds }));
}

#[test]
fn reads_races_as_clap_does(rt: HostRuntime) {
    let value = ErrorKind::ValueValidation;
    let both = ["tower", "race", "--rounds=1000", "--frames=4097"];
    let twice = ["tower", "race", "--rounds", "2", "--rounds", "2"];
    check_race(&rt, &["tower", "race"], 16, 100);
    check_race(&rt, &["tower", "race", "--rounds", "1"], 16, 1);
    check_race(&rt, &both, 4097, 1000);
    check_race(&rt, &["tower", "race", "--rounds=+7"], 16, 7);
    check_refused(&rt, &["tower", "race", "--rounds", "0"], value);
    check_refused(&rt, &["tower", "race", "--rounds=1001"], value);
    check_refused(&rt, &["tower", "race", "--rounds=-0"], value);
    check_refused(&rt, &["tower", "race", "--rounds", "all"], value);
    check_refused(&rt, &twice, ErrorKind::ArgumentConflict);
    check_refused(&rt, &["tower", "race", "--help"], ErrorKind::DisplayHelp);
}

/// Checks that these arguments request an image of so many frames.
fn check_image<R: AllocGlobal + Abort>(rt: &R, words: &[&str], frames: u32) {
    check_asked(rt, words, Ok(Job::Image { frames }));
}

/// Checks that these arguments request a snapshot of so many frames.
fn check_whole<R: AllocGlobal + Abort>(rt: &R, words: &[&str], frames: u32) {
    check_asked(rt, words, Ok(Job::Whole { frames }));
}

/// These words ask to check a file.
fn check_file<R: AllocGlobal + Abort>(rt: &R, words: &[&str], file: &'static str) {
    check_asked(rt, words, Ok(Job::Check { file }));
}

#[test]
fn reads_images_and_checks_as_clap_does(rt: HostRuntime) {
    let unknown = ErrorKind::UnknownArgument;
    let missing = ErrorKind::MissingRequiredArgument;
    check_image(&rt, &["tower", "image"], 16);
    check_image(&rt, &["tower", "image", "--frames=64"], 64);
    check_whole(&rt, &["tower", "image", "--whole"], 16);
    check_whole(&rt, &["tower", "image", "--whole", "--frames=5000"], 5000);
    check_refused(&rt, &["tower", "run", "--whole"], unknown);
    check_refused(&rt, &["tower", "image", "--rounds", "2"], unknown);
    check_file(&rt, &["tower", "check", "an.image"], "an.image");
    check_refused(&rt, &["tower", "check"], missing);
    check_refused(&rt, &["tower", "check", "one", "two"], unknown);
}

/// These words request the image of a resumed run.
fn check_resumed_image<R: AllocGlobal + Abort>(rt: &R, words: &[&str]) {
    let file = "an.image";
    check_asked(rt, words, Ok(Job::ResumeImage { file }));
}

#[test]
fn reads_a_file_to_resume_as_clap_does(rt: HostRuntime) {
    let file = "an.image";
    let frames = ["tower", "resume", "an.image", "--frames=16"];
    check_asked(
        &rt,
        &["tower", "resume", "an.image"],
        Ok(Job::Resume { file }),
    );
    check_resumed_image(&rt, &["tower", "resume", "--image", "an.image"]);
    check_resumed_image(&rt, &["tower", "resume", "an.image", "--image"]);
    check_refused(
        &rt,
        &["tower", "resume"],
        ErrorKind::MissingRequiredArgument,
    );
    check_refused(&rt, &frames, ErrorKind::UnknownArgument);
}

/// Why a command line whose second word is not text is not read.
fn refused_words(alloc: Global) -> Option<WordsFault> {
    let line = TwoWords { second: b"\xff" };
    words(&(line, alloc)).err()
}

/// Checks the status of the answer to arguments that could not be read.
fn check_status(rt: &impl Abort, fault: WordsFault, status: u8) {
    same(rt, &status_of(&answer_of_words(fault)), &status);
}

#[test]
fn refuses_words_that_are_not_text(rt: HostRuntime) {
    same(&rt, &refused_words(rt.alloc()), &Some(WordsFault::NotText));
    check_status(&rt, WordsFault::NotText, 2);
    check_status(&rt, WordsFault::NoMemory, 1);
}
