//! Shootdowns as they happen: a core carries out events, and processors invalidate what those end when they do.
//!
//! Until the last processor has invalidated, each uses what it keeps. This crate says which events such steps are, and
//! in which order (specs/Windows.antt).
#![tactic(auto)]

mod laws;
mod worked;

pub use laws::{shootdowns_make_events, zeros_leave_others_be};
pub use worked::{worked_protect, worked_window, worked_zeros};
