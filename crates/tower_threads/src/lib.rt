//! A core that threads of C share: it passes from one to the other, and only one has it at a time.
//!
//! C holds a `TowerCpu` for each thread and a `TowerMonitor` for each reader, all zeros at first, and gives each to one
//! thread at a time. A thread takes the core into a `Tower` (`tower_cpu_take`), calls any function of `tower_c` with
//! that, and gives the core back (`tower_cpu_give`). No function waits. docs/C-LIBRARY.md says what C owes.
#![tactic(auto)]

mod cpu_hold;
mod cpus;
mod handles;
mod loose;
mod monitor_hold;
mod monitors;
mod sharing;

pub use cpus::{tower_cpu_close, tower_cpu_count, tower_cpu_free, tower_cpu_give, tower_cpu_take};
pub use handles::{TowerCpu, TowerMonitor};
pub use monitors::{TowerRow, tower_monitor_free, tower_monitor_read};
pub use sharing::tower_share;
