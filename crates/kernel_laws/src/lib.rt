//! Laws of the machine's runs, and worked runs. Nothing below needs them: each is the contract of a function that
//! computes nothing.
#![tactic(auto)]

mod laws;
mod worked;

pub use laws::{
    accesses_beside_an_event, acts_write_their_own, calls_complete_unless_refused,
    cleaning_is_its_own, completes_by_kind, cpus_make_no_difference, done_means_done,
    events_write_their_own, processes_are_isolated, runs_write_their_own,
};
pub use worked::{
    worked_runs, worked_runs_of_accesses, worked_runs_of_authority, worked_runs_of_forks,
    worked_runs_of_isolation, worked_runs_of_processes, worked_runs_of_sharing,
};
