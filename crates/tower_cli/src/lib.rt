//! The command line of `tower`: the job that its arguments request, and its jobs on images. These are the image of the
//! state that a script ends in, the check of an image, and a core made of one.
#![tactic(auto)]

mod images;
mod jobs;
mod whole;

pub use images::{check_bytes, restore_bytes, write_resumed_image, write_script_image};
pub use jobs::{Job, job_of};
pub use whole::{check_whole, restore_whole, write_resumed_whole, write_script_whole};
