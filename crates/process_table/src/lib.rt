//! The processes: their spaces, quotas and offers together, which is the machine's state.
#![tactic(auto)]

mod accesses;
mod calls;
mod causes;
mod charges;
mod families;
mod laws;
mod mapping;
mod parts;
mod places;
mod processes;
mod restoring;
mod sharing;
mod walked;

pub use causes::Cause;
pub use charges::left_of;
pub use laws::{calls_keep_states_well_formed, images_stand_for_one, processes_apart_stand_alone};
pub use places::Places;
pub use processes::Processes;
