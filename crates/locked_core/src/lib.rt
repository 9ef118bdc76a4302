//! One core behind one lock, whose log of calls is one legal history, and reports on it that are read
//! without waiting for the lock.
//!
//! CPUs are handles of threads: each call of one is decided, carried out, logged and published under the lock
//! (`Cpu::call`). The log is one history of the whole kernel (`Front`). Each CPU, each monitor and what is published
//! know a prefix of it. A monitor reads what is published, and never waits.
#![tactic(auto)]

mod book;
mod call_log;
mod closing;
mod cpu;
mod faults;
mod gate;
mod head;
mod invalidate;
mod kernel;
mod laws;
mod locked;
mod moment;
mod monitor;
mod port;
mod publish;
mod published_report;
mod rule;
mod tally;
mod turn;

pub use book::Name;
pub use closing::History;
pub use cpu::{Cpu, Told};
pub use faults::{BootFault, Fault, StoreFault};
pub use gate::{Gate, OpenGate, Point};
pub use invalidate::Invalidate;
pub use kernel::{Blank, Boot, Kernel};
pub use kernel_calls::{Call, Ended, Reply};
pub use laws::{calls_and_processors_make_events, calls_follow_one_another};
pub use memory_image::Image;
pub use memory_report::{LogEntry, Report};
pub use moment::Moment;
pub use monitor::{Monitor, Seen};
pub use page_words::Pid;
pub use port::{Caller, CallerPort, CpuPort, OnKernel};
