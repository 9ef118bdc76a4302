//! Whose each frame of the pool is: for each process, and for the free frames, a list through one number a frame.
ghost use Rattle.std.specs.Prelude.{◌≡◌, ℕ, ◌+◌, ◌-◌, ◌<◌, ◌^◌, ◌↔◌, IfSome, IfOk, IsNone, length, map, replicate, slice_set};
ghost use Rattle.std.specs.List.{range_with_len};
ghost use Rattle.shadow_tables.specs.Holdings.{Places, with_place, count_of, frame_count, IsNth, AreHeld, IsHeld, IsTakenBy, IsReleased, opening_places};

use std::alloc::{AllocError, Global};

/// The place in the lists of the free frames.
pub(crate) const FREE: usize = 64;

/// For each process the list of its frames, and the list of the free ones.
#[derive(Drop)]
pub(crate) struct Holdings {
    /// For each frame the one that its owner took before it, where there is one.
    pub next: Vec<u32>,
    /// For each owner the frame that it took last, where it has one.
    pub heads: [u32; 65],
    /// For each owner how many frames it has.
    pub counts: [u32; 65],
}

/// Writes for each frame the one before it.
fn number(next: &mut [u32])
    requires { length next.old < 2 ^ 32 }
    ensures { next.new ≡ map (λ frame. frame - 1) (range_with_len 0 (length next.old)) }
{
    for (frame, before) in next.iter_mut().enumerate() {
        *before = (frame as u32).saturating_sub(1);
    }
}

/// For each frame the one before it. All of its memory is one request.
fn frames_before(alloc: Global, frames: u32) -> Result<Vec<u32>, AllocError>
    ensures { IfOk result (λ next. next.items ≡ map (λ frame. frame - 1) (range_with_len 0 frames)) }
{
    let mut next = vec![in alloc; 0u32; frames as usize]?;
    number(next.as_mut_slice());
    Ok(next)
}

impl Holdings {
    /// All of that many frames are free.
    pub fn new(alloc: Global, frames: u32) -> Result<Holdings, AllocError>
        ensures held { IfOk result (λ new. AreHeld opening_places new) }
        ensures counts { IfOk result (λ new. new.counts ≡ slice_set (replicate 65 0) 64 frames) }
        ensures frames { IfOk result (λ new. frame_count new ≡ frames) }
    {
        let next = frames_before(alloc, frames)?;
        let mut heads = [0; 65];
        heads[FREE] = frames.saturating_sub(1);
        let mut counts = [0; 65];
        counts[FREE] = frames;
        Ok(Holdings {
            next,
            heads,
            counts,
        })
    }

    /// Takes a free frame for a process, if there is one.
    pub fn take(&mut self, owner: usize) -> Option<u32>
        requires process { owner < 64 }
        requires held { IsHeld self.old }
        ensures taken { IfSome result (λ frame. IsTakenBy self.old owner frame self.new) }
        ensures none { IsNone result ↔ (count_of self.old 64 ≡ 0) }
        ensures kept { IsNone result → self.new ≡ self.old }
    {
        let count = self.counts[FREE];
        if count == 0 {
            return None;
        }
        let taken = self.counts[owner];
        let frame = self.heads[FREE];
        let last = self.heads[owner];
        self.heads[FREE] = self.next[frame as usize];
        self.heads[owner] = frame;
        self.next[frame as usize] = last;
        self.counts[FREE] = count - 1;
        self.counts[owner] = taken + 1;
        Some(frame)
    }

    /// Makes all frames of a process free. The first that it took is this one.
    pub fn release(&mut self, owner: usize, first: u32)
        requires process { owner < 64 }
        requires held { (places : Places) × AreHeld places self.old × IsNth places self.old owner 0 first }
        ensures { IsReleased self.old owner first self.new }
    {
        let count = self.counts[FREE] + self.counts[owner];
        self.next[first as usize] = self.heads[FREE];
        self.heads[FREE] = self.heads[owner];
        self.counts[FREE] = count;
        self.counts[owner] = 0;
    }
}
