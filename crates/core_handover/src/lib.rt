//! One core that threads pass from one to the other, and reports on it that are read meanwhile.
//!
//! The core lies in a room. A CPU, the handle of one thread, takes it out, works on it with any function of a core, and
//! gives it back. While it is out, no other CPU can take it. What was given back is one history (`history`), of which
//! each CPU and each monitor knows a prefix. The core that a CPU takes is the last one of it.
//!
//! No function waits. A take that finds the core out says so, and the caller tries again when it likes. So the crate
//! needs nothing of a system: neither threads nor a lock, which a static library may not use.
#![tactic(auto)]

mod cpu;
mod given;
mod history;
mod monitor;
mod page;
mod room;
mod sharing;

pub use cpu::{Cpu, Kept, Refusal};
pub use given::Given;
pub use history::{Beginning, Front};
pub use monitor::Monitor;
pub use page::Page;
pub use sharing::{ShareFault, Shared, Unshared, share};
