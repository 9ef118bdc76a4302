//! The map of an image of a machine: which frame serves whom, and what each process holds. As text it is a
//! function of the image (specs/Text.antt); as a picture it is SVG.
#![tactic(auto)]

mod formats;
mod frames;
mod laws;
mod layout;
mod lines;
mod owners;
mod page_flags;
mod panel;
mod picture;
mod runs;
mod squares;
mod text;

pub use formats::Format;
pub use image_check::{Image, ImageRef, Verdict, WriteFailed, check, read_image};
pub use laws::maps_list_each_slot;
pub use picture::{PictureFault, write_picture};
pub use runs::Run;
pub use text::write_map;
