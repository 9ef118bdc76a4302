//! A core with shadow tables and processors in long mode, which walk these and cache what they read.
#![tactic(auto)]

mod calls;
mod laws;
mod worked;

pub use calls::{call_moves, fault_moves, forget_all_moves, forget_moves};
pub use laws::{long_mode_makes_steps, wide_accesses_are_moves};
pub use worked::worked_run;
