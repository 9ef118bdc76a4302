//! The language of scripts: bytes of a script in, bytes of replies out.
//!
//! A script is lines, each of which says nothing or has one event of the machine. `run_script` reads them in blocks,
//! carries the events out on a freshly booted core, and writes a line for each reply. Definitions of its own say what a
//! script means (specs/Tokens.antt, Numbers.antt, Lines.antt, Replies.antt, Script.antt). What a run that ended early
//! read and wrote is in specs/Progress.antt.
#![tactic(auto)]

mod faults;
mod lines;
mod numbers;
mod output;
mod replies;
mod script;
mod session;
mod takers;
mod tokens;

pub use faults::ScriptFault;
pub use lines::{Line, line_of};
pub use replies::{Block, push_reply_line};
pub use script::{follow_script, malformed_line_ends_a_script, resume_script, run_script};
pub use session::{SCRIPT_BYTES, split_line};
