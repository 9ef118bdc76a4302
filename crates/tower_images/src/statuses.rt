//! What the functions answer.

/// The image was written, or it is sound.
pub const DONE: u32 = 0;
/// The handle has no core.
pub const NO_CORE: u32 = 1;
/// There is no memory for the image or its check.
pub const NO_MEMORY: u32 = 2;
/// There are fewer bytes than the image has.
pub const TOO_SHORT: u32 = 3;
/// A process fails a clause.
pub const PROCESS_FAILS: u32 = 3;
/// A frame fails a clause.
pub const FRAME_FAILS: u32 = 4;
/// The bytes are no image.
pub const NOT_IMAGE: u32 = 5;
/// The tables of the image have the words of version 1.
pub const OLD_WORDS: u32 = 6;
/// The handle has a core already.
pub const HAS_CORE: u32 = 1;
/// The core has more frames than an image.
pub const TOO_MANY_FRAMES: u32 = 4;
/// The frame is free, or there is none of that number: it has no record.
pub const FREE_FRAME: u32 = 4;
/// The machine refuses an offer of the image.
pub const OFFER_REFUSED: u32 = 8;
