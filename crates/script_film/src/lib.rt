//! The film of a script: each line's event, the reply, and what it changes in memory, as rows of text. Definitions give
//! the rows of a script (specs/Rows.antt, Changes.antt, Film.antt).
#![tactic(auto)]

mod changes;
mod ends;
mod film;
mod recording;
mod rows;
mod seen;

pub use ends::End;
pub use film::{Film, film_of};
pub use script_run::ScriptFault;
