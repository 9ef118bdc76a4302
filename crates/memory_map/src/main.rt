//! `memory_map [--svg] FILE`: writes the map of the memory in an image, as text or as a picture: its frames, and what
//! each process holds. `memory_map --film [--frames N]`: writes the film of a script from standard input, as a page. It
//! exits with 0 for a film or a sound image, 3 for an unsound image, 2 for a refused command line, script or file, and
//! 1 if memory runs out or a device fails.
#![tactic(auto)]

use command_answers::{answer_of_words, status_of, tell, words};
use map_jobs::answer;
use std::io;
use std::process::ExitCode;

fn main(rt: HostRuntime) -> ExitCode {
    let answer = match words(&rt) {
        Ok(words) => answer(&rt, words.as_slice(), rt.reader(), &mut io::writer(&rt)),
        Err(fault) => answer_of_words(fault),
    };
    let _ = tell("memory_map", &answer, &mut io::writer(&rt.stderr()));
    ExitCode::from(status_of(&answer))
}
