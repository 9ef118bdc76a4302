//! The simulated physical memory of a machine: 16 to 4,096 frames of 4,096 bytes, or up to 1,048,576 of a
//! wide one, as one list of bytes. Frame f is the bytes from place 4,096 f on.
//!
//! Words have four bytes, the lowest first, as the Intel SDM, volume 3, stores the entries of its
//! paging structures. The laws at the end say what each write leaves of every word and every frame,
//! and compute nothing.
#![tactic(auto, unfolding(crate::specs::Bytes::blank_bytes, crate::specs::Bytes::word_at, crate::specs::Bytes::with_word, crate::specs::Bytes::frame_bytes, crate::specs::Bytes::with_frame_bytes))]

ghost use Rattle.std.specs.Prelude.{◌≡◌, ◌+◌, ◌*◌, ◌<◌, ◌≤◌, ◌↔◌, ◌⊎◌, IfOk, length, replicate, slice_index, slice_set};
ghost use Rattle.std.specs.List.{splice, slice_range};
ghost use Rattle.phys_memory.specs.Bytes.{blank_bytes, word_at, with_word, frame_bytes, with_frame_bytes};
ghost use Rattle.phys_memory.specs.Bytes.{WordsReadBack, WordsStandApart, BytesStandApart, WordsFit};
ghost use Rattle.phys_memory.specs.Bytes.{WordsChangeFrames, BytesChangeFrames, FramesChangeAlone};
ghost use Rattle.phys_memory.specs.Bytes.{FramesBeginBlank, FramesEnd, BytesLieInFrames, WordsLieInFrames, BlankWords};
ghost use Rattle.phys_memory.specs.Bytes.{FramesAreWhole, WordsKeepLengths, FramesKeepLengths};

use byteorder::{ByteOrder, LittleEndian};
pub use page_words::MachineFault as MemoryFault;
use page_words::{Frame, WIDE_FRAMES, WideFault, is_frame_count, is_wide_frame_count};
use std::alloc::Global;
use std::marker::Model;

/// How many bytes a frame has.
pub const FRAME_BYTES: usize = 4096;

/// The memory of a machine of 16 to 1,048,576 frames. A contract sees the list of its bytes.
#[derive(Debug, Drop)]
pub struct Memory {
    bytes: Vec<u8>,
    frames: u32,
}

impl Model for Memory {
    ghost use Rattle.std.specs.Prelude.{◌≡◌, ℕ, ◌*◌, ◌≤◌, List, length};

    ghost Value = { List ℕ };

    ghost view = { λ m. m.bytes.items };

    ghost invariant = { λ m. (length m.bytes.items ≡ 4096 * m.frames) × (16 ≤ m.frames) × (m.frames ≤ 1048576) };
}

impl Memory {
    /// A memory of that many frames, all zero. The size is checked first: BadSize if it is not 16 to 4,096, otherwise
    /// NoMemory if the allocator refuses the bytes.
    pub fn new(alloc: Global, frames: u32) -> Result<Memory, MemoryFault>
        ensures zero { IfOk result (λ memory. memory ≡ blank_bytes frames) }
        ensures length { IfOk result (λ memory. length memory ≡ 4096 * frames) }
        ensures size { (result ≡ Err MemoryFault.BadSize) ↔ ((frames < 16) ⊎ (4096 < frames)) }
    {
        if !is_frame_count(frames) {
            return Err(MemoryFault::BadSize);
        }
        Ok(Memory::wide(alloc, frames)?)
    }

    /// As `new`, of up to 1,048,576 frames, which are 4 GiB: BadSize if it is not 16 to 1,048,576.
    pub fn wide(alloc: Global, frames: u32) -> Result<Memory, WideFault>
        ensures zero { IfOk result (λ memory. memory ≡ blank_bytes frames) }
        ensures length { IfOk result (λ memory. length memory ≡ 4096 * frames) }
        ensures size { (result ≡ Err WideFault.BadSize) ↔ ((frames < 16) ⊎ (WIDE_FRAMES < frames)) }
    {
        if !is_wide_frame_count(frames) {
            return Err(WideFault::BadSize);
        }
        match vec![in alloc; 0u8; frames as usize * FRAME_BYTES] {
            Ok(bytes) => Ok(Memory { bytes, frames }),
            Err(_) => Err(WideFault::NoMemory),
        }
    }

    /// A memory that holds these bytes, in 16 to 1,048,576 frames. It allocates nothing of its own.
    pub fn of_bytes(bytes: Vec<u8>, frames: u32) -> Memory
        requires size { length bytes.items ≡ 4096 * frames }
        requires least { 16 ≤ frames }
        requires most { frames ≤ WIDE_FRAMES }
        ensures { result ≡ bytes.items }
    {
        Memory { bytes, frames }
    }

    /// The number of frames, 16 to 1,048,576.
    pub fn frames(&self) -> u32
        ensures length { length self.now ≡ 4096 * result }
        ensures least { 16 ≤ result }
        ensures most { result ≤ WIDE_FRAMES }
    {
        self.frames
    }

    /// All bytes, from place 0 on.
    pub fn bytes(&self) -> &[u8]
        ensures { result.now ≡ self.now }
    {
        self.bytes.as_slice()
    }

    /// The address of the first byte, at which the bytes lie while the memory exists. No clause says anything of it.
    pub fn begins(&self) -> *const u8 {
        self.bytes.as_ptr()
    }

    /// Reads a byte. `place` must lie inside memory.
    pub fn read_byte(&self, place: usize) -> u8
        requires { place < length self.now }
        ensures { result ≡ slice_index self.now place }
    {
        self.bytes[place]
    }

    /// Writes a byte, and no other. `place` must lie inside memory.
    pub fn write_byte(&mut self, place: usize, value: u8)
        requires { place < length self.old }
        ensures bytes { self.new ≡ slice_set self.old place value }
        ensures length { length self.new ≡ length self.old }
    {
        self.bytes[place] = value;
    }

    /// The word in the four bytes from a place on, the lowest byte first. The place is any at which
    /// four bytes lie in memory.
    pub fn read_word(&self, place: usize) -> u32
        requires { place + 4 ≤ length self.now }
        ensures { result ≡ word_at self.now place }
    {
        LittleEndian::read_u32(&self.bytes[place..])
    }

    /// Writes a word into the four bytes from a place on, the lowest byte first. The place is any at
    /// which four bytes lie in memory.
    pub fn write_word(&mut self, place: usize, value: u32)
        requires { place + 4 ≤ length self.old }
        ensures bytes { self.new ≡ with_word self.old place value }
        ensures length { length self.new ≡ length self.old }
    {
        LittleEndian::write_u32(&mut self.bytes[place..place + 4], value);
    }

    /// Writes bytes from a place on, one behind another.
    pub fn write_bytes(&mut self, place: usize, part: &[u8])
        requires { place + length part.now ≤ length self.old }
        ensures bytes { self.new ≡ splice self.old place (place + length part.now) part.now }
        ensures length { length self.new ≡ length self.old }
    {
        self.bytes[place..place + part.len()].copy_from_slice(part);
    }

    /// Makes all 4,096 bytes of a frame zero.
    pub fn zero_frame(&mut self, frame: Frame)
        requires { 4096 * frame < length self.old }
        ensures bytes { self.new ≡ with_frame_bytes self.old frame (replicate 4096 0) }
        ensures length { length self.new ≡ length self.old }
    {
        let start = frame.0 as usize * FRAME_BYTES;
        self.bytes[start..start + FRAME_BYTES].fill(0);
    }

    /// Copies the 4,096 bytes of one frame to another.
    pub fn copy_frame(&mut self, from: Frame, to: Frame)
        requires source { 4096 * from < length self.old }
        requires target { 4096 * to < length self.old }
        ensures bytes { self.new ≡ with_frame_bytes self.old to (frame_bytes self.old from) }
        ensures length { length self.new ≡ length self.old }
    {
        let source = from.0 as usize * FRAME_BYTES;
        let target = to.0 as usize * FRAME_BYTES;
        if source < target {
            copy_up(&mut self.bytes, source, target);
        } else if target < source {
            copy_down(&mut self.bytes, source, target);
        }
    }
}

/// Copies a frame's bytes to one that begins above it.
fn copy_up(bytes: &mut [u8], source: usize, target: usize)
    requires below { source + 4096 ≤ target }
    requires within { target + 4096 ≤ length bytes.old }
    ensures { bytes.new ≡ splice bytes.old target (target + 4096) (slice_range bytes.old source (source + 4096)) }
{
    let (below, above) = bytes.split_at_mut(target);
    put_at(above, 0, &below[source..source + FRAME_BYTES]);
}

/// Copies a frame's bytes to one that begins below it.
fn copy_down(bytes: &mut [u8], source: usize, target: usize)
    requires below { target + 4096 ≤ source }
    requires within { source + 4096 ≤ length bytes.old }
    ensures { bytes.new ≡ splice bytes.old target (target + 4096) (slice_range bytes.old source (source + 4096)) }
{
    let (below, above) = bytes.split_at_mut(source);
    put_at(below, target, &above[0..FRAME_BYTES]);
}

/// Puts a frame's bytes at a place.
fn put_at(bytes: &mut [u8], place: usize, part: &[u8])
    requires whole { length part.now ≡ 4096 }
    requires within { place + 4096 ≤ length bytes.old }
    ensures { bytes.new ≡ splice bytes.old place (place + 4096) part.now }
{
    bytes[place..place + FRAME_BYTES].copy_from_slice(part);
}

/// A word that was written reads back, every word and every byte apart from it is as it was, and four
/// bytes make a number of 32 bits.
pub fn words_stand_alone()
    ensures read_back { WordsReadBack }
    ensures apart { WordsStandApart }
    ensures bytes { BytesStandApart }
    ensures fit { WordsFit }
{}

/// With memory seen as a function from frames to bytes, each write inside a frame is a change of that
/// frame alone. The equations are of whole functions, so they speak of frames past the end as well.
pub fn writes_change_one_frame()
    ensures word { WordsChangeFrames }
    ensures byte { BytesChangeFrames }
    ensures frame { FramesChangeAlone }
{}

/// What the frames of a memory hold: in a blank memory zeros, past the end nothing, and inside it the
/// bytes and the words of memory.
pub fn frames_hold_memory()
    ensures blank { FramesBeginBlank }
    ensures past { FramesEnd }
    ensures bytes { BytesLieInFrames }
    ensures words { WordsLieInFrames }
    ensures blank_words { BlankWords }
{}

/// A frame inside memory has 4,096 bytes, and no write changes the number of bytes.
pub fn lengths_stay()
    ensures whole { FramesAreWhole }
    ensures word { WordsKeepLengths }
    ensures frame { FramesKeepLengths }
{}
