//! Why a snapshot could not be read.

use thiserror::Error;

/// Why bytes could not be read as a snapshot: the first that applies, in the order of `fault_in`.
#[derive(Clone, Copy, Debug, PartialEq, Eq, Error)]
pub enum WideImageFault {
    /// They do not begin with the four bytes of a snapshot.
    #[error("not an image")]
    NotImage,
    /// They are fewer than 1,556, or not as many as they say.
    #[error("wrong image length")]
    BadLength,
    /// A version other than 1.
    #[error("unknown image version")]
    BadVersion,
    /// The first field that breaks its rule, by the place of its first byte.
    #[error("bad field at byte {offset}")]
    BadField { offset: u64 },
    /// There was no memory for the snapshot.
    #[error("out of memory")]
    NoMemory,
}
