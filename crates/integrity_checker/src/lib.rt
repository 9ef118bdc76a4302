//! Images of a machine and their check, by one helper or by several concurrently, which draw the numbers of processes
//! from one word. The crate exports all that images and verdicts need.
#![tactic(auto)]

mod audit;
mod draw;
mod faults;
mod findings;
mod helper_step;
mod parts;

pub use draw::{About, Drawer, Draws};
pub use faults::AuditFault;
pub use image_check::{
    FrameClause, Image, ImageFault, NoMemory, Process, ProcessClause, Verdict, WriteFailed,
    bytes_are_refused_where_they_spell_none, check, fault_in, images_have_one_spelling,
    images_of_machines_stand, images_stand_for_one, read_image, sound_where_nothing_fails,
    tests_decide, write_image,
};
pub use parts::{Audit, DrawTable, Helper, Step};
