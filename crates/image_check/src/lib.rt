//! The check of an image of a machine: for each process and each frame the first clause that fails, none
//! exactly where the image is sound.
#![tactic(auto)]

mod clauses;
mod counting;
mod frame_clauses;
mod kernel_words;
mod laws;
mod process_clauses;
mod repeated_names;
mod text;
mod verdicts;
mod walking;

pub use clauses::{FrameClause, ProcessClause};
pub use counting::pid_of;
pub use laws::{draws_add_up, sound_where_nothing_fails, tests_decide};
pub use memory_image::{
    Image, ImageFault, ImageRef, NoMemory, Process, WriteFailed,
    bytes_are_refused_where_they_spell_none, fault_in, images_have_one_spelling,
    images_of_machines_stand, images_stand_for_one, read_image, write_image,
};
pub use process_clauses::judge_process;
pub use verdicts::{Verdict, check, check_by_ref};
