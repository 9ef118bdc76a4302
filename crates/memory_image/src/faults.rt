//! Why an image could not be read, made or written.

use thiserror::Error;

/// Why bytes could not be read as an image: the first that applies, in the order of `fault_in`.
#[derive(Clone, Copy, Debug, PartialEq, Eq, Error)]
pub enum ImageFault {
    /// They do not begin with the four bytes of an image.
    #[error("not an image")]
    NotImage,
    /// They are fewer than 12, or not as many as the number of frames says.
    #[error("wrong image length")]
    BadLength,
    /// A version other than 1 and 2.
    #[error("unknown image version")]
    BadVersion,
    /// The first field that breaks its rule, by the place of its first byte.
    #[error("bad field at byte {offset}")]
    BadField { offset: u32 },
    /// There was no memory for the image.
    #[error("out of memory")]
    NoMemory,
}

/// Why there is no image of a core.
#[derive(Clone, Copy, Debug, PartialEq, Eq, Error)]
pub enum CoreImageFault {
    /// The core has more than 4,096 frames, which are the most of an image.
    #[error("more than 4096 frames")]
    TooManyFrames,
    /// There was no memory for the image.
    #[error("out of memory")]
    NoMemory,
}

/// The allocator refused what a call needs.
#[derive(Clone, Copy, Debug, PartialEq, Eq, Error)]
#[error("out of memory")]
pub struct NoMemory;
