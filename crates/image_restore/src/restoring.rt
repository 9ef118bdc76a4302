//! The check of an image, and the core that comes of it.

ghost use Rattle.std.specs.Prelude.{◌≡◌, ◌≢◌, ◌↔◌, ◌<◌, ◌≤◌, ℕ, None, IfOk, IfErr, IfSome, IfNone};
ghost use Rattle.page_words.specs.FiniteMap as map;
ghost use Rattle.memory_image.specs.Image.{frames};
ghost use Rattle.memory_image.specs.Machine.{IsImageOf};
ghost use Rattle.memory_image.specs.Sound.{IsSound, StandsFor};
ghost use Rattle.image_check.specs.Told.{process_told, frame_told, verdict_on};
ghost use Rattle.image_restore.specs.Failing.{IsFirst, FailsFirst, NamesClause};

use crate::faults::{Failed, RestoreFault};
use image_check::{FrameClause, Image, ImageRef, ProcessClause, Verdict, check, pid_of};
use kernel_calls::Core;
use page_words::Frame;
use std::alloc::Global;

/// The first process that fails a clause, and which.
fn first_process(verdict: &Verdict) -> Option<(u8, ProcessClause)>
    ensures found { IfSome result (λ found. (found.0 < 64) × IsFirst (process_told verdict.now) found.0 found.1) }
    ensures none { IfNone result ((p : ℕ) → p < 64 → process_told verdict.now p ≡ None) }
{
    for number in 0..64 {
        if let Some(clause) = verdict.process(pid_of(number)) {
            return Some((number, clause));
        }
    }
    None
}

/// The first of so many frames that fails a clause, and which.
fn first_frame(verdict: &Verdict, frames: u32) -> Option<(u32, FrameClause)>
    ensures found { IfSome result (λ found. (found.0 < frames) × IsFirst (frame_told verdict.now) found.0 found.1) }
    ensures none { IfNone result ((f : ℕ) → f < frames → frame_told verdict.now f ≡ None) }
{
    for number in 0..frames {
        if let Some(clause) = verdict.frame(Frame(number)) {
            return Some((number, clause));
        }
    }
    None
}

/// The first clause that fails of an image, by the verdict on it; None where it is sound.
pub fn first_failed(image: &ImageRef<'_>, verdict: &Verdict) -> Option<Failed>
    requires { verdict.now ≡ verdict_on image.now }
    ensures failed { IfSome result (FailsFirst image.now) }
    ensures sound { IfNone result (IsSound image.now) }
{
    image.within();
    if let Some((number, clause)) = first_process(verdict) {
        let pid = pid_of(number);
        return Some(Failed::Process { pid, clause });
    }
    if let Some((number, clause)) = first_frame(verdict, image.frames()) {
        let frame = Frame(number);
        return Some(Failed::Frame { frame, clause });
    }
    None
}

/// Makes a core of an image. Apart from NoMemory, it is Ok exactly if the image is sound and has the words of version
/// 2. Then the core's state is the one that the image represents, without any offer, and its image is this image.
///
/// OldWords if the image is of version 1. Otherwise NoMemory if there is no memory for the check. Otherwise NotSound
/// with the first clause that fails. Otherwise NoMemory if there is none for what a core keeps in addition to the
/// image's bytes and roles. No clause says when NoMemory comes: an image that isn't sound may get it too.
pub fn restore(alloc: Global, image: Image) -> Result<Core, RestoreFault>
    ensures shows { IfOk result (λ core. IsImageOf core image) }
    ensures stands { IfOk result (λ core. StandsFor image core.state) }
    ensures offers { IfOk result (λ core. core.state.offers ≡ map.empty) }
    ensures old { (result ≡ Err RestoreFault.OldWords) ↔ (image.version ≢ 2) }
    ensures failed { IfErr result (NamesClause image) }
    ensures passes { image.version ≡ 2 → IsSound image → IfErr result (λ fault. fault ≡ RestoreFault.NoMemory) }
{
    image.within();
    if image.version() != 2 {
        return Err(RestoreFault::OldWords);
    }
    let Ok(verdict) = check(alloc, &image) else {
        return Err(RestoreFault::NoMemory);
    };
    if let Some(failed) = first_failed(&image.by_ref(), &verdict) {
        return Err(RestoreFault::NotSound(failed));
    }
    match image.into_core(alloc) {
        Ok(core) => Ok(core),
        Err(_) => Err(RestoreFault::NoMemory),
    }
}
