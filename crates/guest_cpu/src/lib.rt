//! Guest programs over anything that answers calls.
//!
//! A guest is a process's program: a list of instructions, eight registers of 32 bits and a counter.
//! It runs over a port, which answers the calls that its instructions make; the core is one. What a run
//! may be is a relation (specs/Runs.antt) between the program, the guest, the turns and the port's
//! answers on one side and the events, the end and the guest afterwards on the other.
#![tactic(auto)]

mod guests;
mod instructions;
mod laws;
mod ports;
mod runs;

pub use guests::Guest;
pub use instructions::{Instruction, Reg};
pub use laws::{
    cores_answer_as_the_machine, guests_are_isolated, guests_hear_their_own, runs_are_determined,
    runs_go_on,
};
pub use ports::{Port, PortFault};
pub use runs::{End, run};
