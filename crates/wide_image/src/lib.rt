//! Snapshots: a machine of up to 1,048,576 frames with its pending offers, and how it is encoded in bytes. Only frames
//! that aren't free are stored.
#![tactic(auto)]

mod faults;
mod fields;
mod first_bytes;
mod frames;
mod fronts;
mod gathering;
mod images;
mod laws;
mod machines;
mod offers;
mod reader;
mod reading;
mod streams;
mod writing;

pub use faults::WideImageFault;
pub use fields::fault_in;
pub use first_bytes::begins_snapshot;
pub use fronts::Front;
pub use gathering::offers_of;
pub use images::WideImage;
pub use laws::{
    formats_are_apart, free_frames_do_not_matter, machines_are_read, pieces_make_images,
    texts_tell_machines,
};
pub use machines::{StoreFault, copy_frame_record, write_core, write_core_head};
pub use offers::PendingOffer;
pub use reader::WideReader;
pub use reading::read_wide_image;
pub use streams::{WideReadFault, fill, read_wide_image_from};
pub use text_output::WriteFailed;
pub use writing::write_wide_image;
