//! A lock that passes its value from thread to thread, without waiting.
//!
//! A thread takes the value out and gives it back, or another in its place. What was given is one history, of which each
//! thread knows a prefix. What is taken is the last of it. Only the thread that has the value adds to the history. A give
//! is therefore a store, which always succeeds. A take is one compare-exchange, which fails only if another thread has the
//! value, or has closed the lock. A static library may use it, since no function waits.
#![tactic(auto)]

mod law;
mod lock;

pub use law::{Doing, Law};
pub use lock::{Absent, Place, SeatLock};
