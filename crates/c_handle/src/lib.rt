//! A core and shadow tables in handles of C's: what the libraries for C share.
#![tactic(auto)]

mod handle;
mod hold;
mod loose;
mod shadow_handle;
mod shadow_hold;

pub use handle::{Passes, Tower, put, take};
pub use shadow_handle::{TowerShadow, put_tables, take_tables};
