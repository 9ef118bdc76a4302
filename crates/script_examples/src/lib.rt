//! Worked scripts and the replies that they must get, which were written before the program was. Tests alone use
//! them, and hold to them whatever runs a script or makes an image of where one ends.
#![tactic(auto)]

pub mod alone;
pub mod forks;
pub mod processes;
pub mod sharing;

/// A script and what it must get.
#[derive(Clone, Copy)]
pub struct Worked {
    pub name: &'static str,
    pub frames: u32,
    pub script: &'static str,
    pub replies: &'static str,
    /// The malformed line that ends it, if one does.
    pub malformed: Option<u32>,
}
