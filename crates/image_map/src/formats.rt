//! What a file has that is drawn.

/// The format of a file.
#[derive(Clone, Copy, Debug, PartialEq, Eq)]
pub enum Format {
    /// An image of this version.
    Image(u32),
    /// A snapshot, of which all but the offers is drawn.
    Snapshot,
}
