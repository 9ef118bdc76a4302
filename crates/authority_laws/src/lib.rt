//! Laws on what one process can do to another, and learn of it. Each is the contract of a function that computes nothing.
#![tactic(auto)]

mod laws;

pub use laws::{
    authority_spreads_by_consent, children_are_their_makers, confined_processes_stay_confined,
    members_see_their_own, newborns_are_families, others_never_refuse,
    processes_keep_their_integrity, what_a_process_has_is_enough, what_is_given_up_goes,
};
