//! The command of `memory_map`: its command line, and the drawing or film that it requests. The result is an answer, as
//! for `tower`.
#![tactic(auto)]

mod commands;
mod drawing;
mod film_page;
mod films;
mod jobs;

pub use command_answers::{Answer, ToolFault};
pub use commands::{answer, draw};
pub use drawing::{Form, draw_bytes, draw_whole};
pub use films::{film_script, write_film};
pub use jobs::{Request, asks_film, frames_of, request_of};
pub use script_film::End;
