//! What a kernel does for its processes: runs of their own events, as a kernel needs them that ends or reclaims what
//! others have. It copies their memory in and out, handles their page faults, and finds their dirty pages. Each is made of
//! the core's public calls.
#![tactic(auto)]

mod acts;
mod installing;
mod loading;
mod peeking;
mod steps;
mod taking;
mod touching;
mod transfers;
mod writing;

pub use acts::{children, end_family};
pub use installing::install;
pub use loading::load_bytes;
pub use peeking::{next_dirty, peek};
pub use taking::{Holder, next_beside, take_back};
pub use touching::touch;
pub use transfers::{Transfer, read_bytes, write_bytes};
pub use writing::may_write;
