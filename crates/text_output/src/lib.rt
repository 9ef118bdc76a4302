//! Text for a writer: words and decimal numbers appended to a line, and bytes written whole or reported as cut short.
//!
//! What a writer has of a text after a write that failed is said once, by `AppendsFront`
//! (specs/Output.antt), for all crates that write.
#![tactic(auto)]

mod lines;
mod output;

pub use lines::{push_decimal, push_number, push_word};
pub use output::{WriteFailed, write_whole};
