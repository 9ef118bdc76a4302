//! One round of a race on a kernel of its own. Two guests, each on a CPU and in a thread of its own, count one number
//! up in turn. Then a monitor reports, two helpers check an image of the memory, and the kernel is closed.
//!
//! A round's promise is in specs/Rounds.antt. The closed history is legal, and has the calls of both guests and no
//! others. Each guest halted with the replies in it, both reports are the same, and the image is sound. A referee asks
//! the monitor and the audit, each once (specs/Asked.antt).
#![tactic(auto)]

mod audits;
mod faults;
mod guests;
mod programs;
mod referees;
mod rounds;

pub use faults::RoundFault;
pub use programs::{opening, program_of};
pub use referees::{Asks, Referee};
pub use rounds::{round, round_by};
