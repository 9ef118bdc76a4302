//! `tower run [--frames N]`: runs a script of kernel calls from standard input on a freshly booted
//! machine, and writes a line for each reply on standard output. `tower race [--frames N] [--rounds N]`:
//! plays rounds of two guests in two threads, and writes the report of the last one. `tower image
//! [--frames N] [--whole]`: runs a script, and writes the image of its last state. `tower check FILE`: writes what
//! fails of an image. `tower resume [--image] FILE`: runs a script on the machine of an image.
#![tactic(auto)]

use command_answers::{answer_of_words, status_of, tell, words};
use std::io;
use std::process::ExitCode;
use tower_jobs::{Asks, answer};

fn main(rt: HostRuntime) -> ExitCode {
    let answer = match words(&rt) {
        Ok(words) => answer(
            &rt,
            words.as_slice(),
            &mut rt.reader(),
            &mut io::writer(&rt),
            &mut Asks,
        ),
        Err(fault) => answer_of_words(fault),
    };
    let _ = tell("tower", &answer, &mut io::writer(&rt.stderr()));
    ExitCode::from(status_of(&answer))
}
