//! The commands of `tower`: running a script, writing the image of its last state, checking an image, resuming on one,
//! and playing rounds of a race. Each job has an answer, which decides the exit status and the message on standard
//! error.
#![tactic(auto)]

mod commands;
mod races;

pub use commands::answer;
pub use guest_race::{Asks, Referee};
pub use races::race;
