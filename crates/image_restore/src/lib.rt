//! Cores made of images. If the check finds an image sound, the core is the one of the state that the image represents,
//! without any offer. A core of a snapshot has the snapshot's offers.
#![tactic(auto)]

mod faults;
mod laws;
mod restoring;
mod wide;
mod wide_faults;

pub use faults::{Failed, RestoreFault};
pub use image_check::{FrameClause, Image, ProcessClause, read_image};
pub use laws::{
    restored_cores_answer_alike, restored_cores_have_their_files, stored_machines_resume,
};
pub use restoring::{first_failed, restore};
pub use wide::restore_wide;
pub use wide_faults::WideRestoreFault;
pub use wide_image::{WideImage, read_wide_image};
