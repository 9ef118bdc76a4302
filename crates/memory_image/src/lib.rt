//! Images of a machine: what they hold, when they are sound, which state they represent, and how they are encoded in
//! bytes.
#![tactic(auto)]

mod by_reference;
mod core_image;
mod faults;
mod fields;
mod images;
mod laws;
mod processes;
mod reading;
mod restoring;
mod writing;

pub use by_reference::ImageRef;
pub use core_image::processes_of;
pub use faults::{CoreImageFault, ImageFault, NoMemory};
pub use fields::{bad_in_processes, begins, fault_in, number_at};
pub use images::Image;
pub use laws::{
    bytes_are_refused_where_they_spell_none, images_have_one_spelling, images_of_machines_stand,
    images_stand_for_one,
};
pub use processes::Process;
pub use reading::{processes_in, read_image};
pub use restoring::core_of;
pub use text_output::WriteFailed;
pub use writing::{record_of, role_numbers, write_image, write_processes};
