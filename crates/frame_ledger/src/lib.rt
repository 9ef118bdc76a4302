//! Which frames of physical memory are free.
//!
//! A contract sees a ledger as the finite set of its free frames, and the number of frames that it was made for. Frame
//! 0 is never free.
#![tactic(auto)]

ghost use Rattle.std.specs.Prelude.{◌≡◌, ℕ, ◌<◌, ◌≤◌, ◌↔◌, false, IfOk, IfErr, IsErrOf, IfSome, IsNone};
ghost use Rattle.page_words.specs.FiniteSet as set;
ghost use Rattle.frame_ledger.specs.FreeFrames.{opening, IsFree, IsTakenFrom, with_free};
ghost use Rattle.frame_ledger.specs.FreeList.{all_in_use};

use page_words::{
    Frame, MAX_FRAMES, MIN_FRAMES, MachineFault, WIDE_FRAMES, WideFault, is_frame_count,
    is_wide_frame_count,
};
use std::alloc::Global;
use std::marker::Model;

/// What ends the list of free frames: the number of frame 0, which is never free.
const END: u32 = 0;

/// The number in the place of a frame in use: no frame has this number.
const IN_USE: u32 = u32::MAX;

/// The free frames among the frames 0 to n - 1, as a list through one place a frame.
#[derive(Debug, Drop)]
pub struct Ledger {
    /// For each frame the next free one, END at the last of them, and IN_USE where it isn't free.
    places: Vec<u32>,
    /// The first free frame, or END.
    head: u32,
    /// How many frames are free.
    count: u32,
}

impl Model for Ledger {
    ghost use Rattle.frame_ledger.specs.FreeFrames.{FreeFrames, free_frames_code};

    ghost Value = { FreeFrames };

    ghost coded = { free_frames_code };

    ghost use Rattle.frame_ledger.specs.FreeList.{seen_as, IsLedger};

    ghost view = { λ ledger. seen_as ledger.places.items };

    ghost invariant = { λ ledger. IsLedger ledger.places.items ledger.head ledger.count };
}

impl Ledger {
    /// A ledger for the frames 0 to `frames` - 1, in which all but frame 0 are free.
    ///
    /// BadSize where `frames` is outside 16 to 4,096, and else NoMemory where there is no memory.
    pub fn new(alloc: Global, frames: u32) -> Result<Ledger, MachineFault>
        ensures ledger { IfOk result (λ ledger. ledger ≡ opening frames) }
        ensures size { IfOk result (λ ledger. ledger.frames ≡ frames) }
        ensures bad_size { IsErrOf result MachineFault.BadSize ↔ (MIN_FRAMES ≤ frames → frames ≤ MAX_FRAMES → ⊥) }
    {
        if !is_frame_count(frames) {
            return Err(MachineFault::BadSize);
        }
        Ok(Ledger::wide(alloc, frames)?)
    }

    /// As `new`, for up to 1,048,576 frames: BadSize if `frames` is outside 16 to 1,048,576.
    pub fn wide(alloc: Global, frames: u32) -> Result<Ledger, WideFault>
        ensures ledger { IfOk result (λ ledger. ledger ≡ opening frames) }
        ensures size { IfOk result (λ ledger. ledger.frames ≡ frames) }
        ensures bad_size { IsErrOf result WideFault.BadSize ↔ (MIN_FRAMES ≤ frames → frames ≤ WIDE_FRAMES → ⊥) }
    {
        if !is_wide_frame_count(frames) {
            return Err(WideFault::BadSize);
        }
        let Ok(mut ledger) = Ledger::full(alloc, frames) else {
            return Err(WideFault::NoMemory);
        };
        for frame in (1..frames).rev() {
            ledger.put_back(Frame(frame));
        }
        Ok(ledger)
    }

    /// A ledger of which no frame is free, of 16 to 1,048,576 frames.
    pub fn full(alloc: Global, frames: u32) -> Result<Ledger, MachineFault>
        requires fewest { MIN_FRAMES ≤ frames }
        requires most { frames ≤ WIDE_FRAMES }
        ensures ledger { IfOk result (λ ledger. ledger ≡ all_in_use frames) }
        ensures no_memory { IfErr result (λ fault. fault ≡ MachineFault.NoMemory) }
    {
        match vec![in alloc; IN_USE; frames as usize] {
            Ok(places) => Ok(Ledger {
                places,
                head: END,
                count: 0,
            }),
            Err(_) => Err(MachineFault::NoMemory),
        }
    }

    /// Takes a free frame, whichever it is. None exactly where none is free.
    pub fn take(&mut self) -> Option<Frame>
        ensures taken { IfSome result (λ frame. IsTakenFrom self.old frame self.new) }
        ensures within { IfSome result (λ frame. (1 ≤ frame) × (frame < self.old.frames)) }
        ensures gone { IfSome result (λ frame. set.contains self.new.free frame ≡ false) }
        ensures none { IsNone result ↔ (set.len self.old.free ≡ 0) }
        ensures kept { IsNone result → (self.new ≡ self.old) }
    {
        let frame = self.head;
        if frame == END {
            return None;
        }
        let place = frame as usize;
        self.head = self.places[place];
        self.places[place] = IN_USE;
        self.count -= 1;
        Some(Frame(frame))
    }

    /// Makes a frame free. It is one of 1 to n - 1, and isn't free.
    pub fn put_back(&mut self, frame: Frame)
        requires not_reserved { 1 ≤ frame }
        requires within { frame < self.old.frames }
        requires in_use { set.contains self.old.free frame ≡ false }
        ensures { self.new ≡ with_free self.old frame }
    {
        let place = frame.0 as usize;
        self.places[place] = self.head;
        self.head = frame.0;
        self.count += 1;
    }

    /// Whether a frame, one of 0 to n - 1, is free.
    pub fn is_free(&self, frame: Frame) -> bool
        requires { frame < self.now.frames }
        ensures { result ≡ set.contains self.now.free frame }
    {
        self.places[frame.0 as usize] != IN_USE
    }

    /// How many frames are free: 0 to n - 1.
    pub fn free_count(&self) -> u32
        ensures { result ≡ set.len self.now.free }
    {
        self.count
    }

    /// There are 16 to 1,048,576 frames, and each that is free is one of 1 to n - 1.
    pub fn within(&self)
        ensures fewest { MIN_FRAMES ≤ self.now.frames }
        ensures most { self.now.frames ≤ WIDE_FRAMES }
        ensures free { (frame : ℕ) → IsFree self.now frame → (1 ≤ frame) × (frame < self.now.frames) }
    {
        let _ = &self.places;
    }
}
