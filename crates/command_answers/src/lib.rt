//! What the programs share of their command lines: the arguments, the file that one of them names, and the answer to a
//! command, which decides the exit status and the message on standard error.
#![tactic(auto)]

mod answers;
mod faults;
mod file_words;
mod files;
mod given_words;
mod named_files;
mod options;

pub use answers::{Answer, answer_of_words, refuse, status_of, tell};
pub use faults::{Message, ToolFault};
pub use file_words::{file_argument, file_in};
pub use files::{bytes_of, front_of, says_whole};
pub use given_words::{WordsFault, words};
pub use named_files::Opens;
pub use options::{frames_in, frames_option, number_in};
