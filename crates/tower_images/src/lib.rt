//! The image of the core in a handle of C's, and the check of an image, for C: an archive of its own, to link with that
//! of the core.
//!
//! Each function allocates with `rattle_alloc`, and frees all of it before it ends. Only what a restored core needs
//! stays allocated.
#![tactic(auto)]

ghost use Rattle.std.specs.Prelude.{◌≡◌, ◌≢◌, ◌↔◌, ◌≤◌, ◌<◌, ◌⊎◌, [], IfSome, length, take, drop, true, false};
ghost use Rattle.memory_image.specs.Sound.{IsSound};
ghost use Rattle.memory_image.specs.Spelling.{Spells};
ghost use Rattle.c_handle.specs.Handle.{IsTower};
ghost use Rattle.tower_images.specs.Images.{image_length, SpellsCore, HasSoundImage};
ghost use Rattle.process_table.specs.Image.{StandsFor, image_of};
ghost use Rattle.image_restore.specs.Restored.{HasOldWords, IsRestored};
ghost use Rattle.image_restore.specs.Resumed.{IsResumed, IsSoundWide};
ghost use Rattle.wide_image.specs.Stored.{IsHeadOf, frame_record};
ghost use Rattle.tower_images.specs.Whole.{EncodesOne, FailsWholeFrame, FailsWholeProcess, IsHeadLength, IsNoWhole, IsRefusal, RefusesWhole};
ghost use Rattle.tower_images.specs.Audits.{SpellsOne, FailsProcess, FailsFrame, IsNoImage};

mod checking;
mod image_bytes;
mod restoring;
mod restoring_whole;
mod statuses;
mod storing;
mod verdicts;

use c_handle::{Tower, put, take};
use checking::{check_bytes, check_core};
use image_bytes::write_core;
use restoring::restore_bytes;
use restoring_whole::{check_whole, restore_whole};
use statuses::{DONE, HAS_CORE, NO_CORE};
use std::alloc::Global;
use storing::{store_frame, store_head};
pub use verdicts::TowerVerdict;

/// Writes the image of the core (docs/IMAGES.md) at the start of `bytes`, and its length to `size`. Returns 0.
/// Otherwise `bytes` is unchanged. 1: the handle has no core. 4: the core has more than 4,096 frames, the most of an
/// image. 3: `bytes` is too short. 2: memory ran out. At 1 and 4 `size` is unchanged too.
#[unsafe(no_mangle)]
pub extern "C" fn tower_image(
    alloc: Global,
    tower: &mut Tower,
    bytes: &mut [u8],
    size: &mut usize,
) -> u32
    requires { IsTower tower.old }
    ensures kept { IsTower tower.new }
    ensures same { tower.new.hold.core ≡ tower.old.hold.core }
    ensures statuses { result ≤ 4 }
    ensures image { result ≡ 0 → IfSome tower.old.hold.core (λ core. SpellsCore core (take size.new bytes.new)) }
    ensures behind { result ≡ 0 → drop size.new bytes.new ≡ drop size.new bytes.old }
    ensures size { IfSome tower.old.hold.core (λ core. length core.roles ≤ 4096 → size.new ≡ image_length core) }
    ensures short { IfSome tower.old.hold.core (λ core. result ≡ 3 ↔ (length core.roles ≤ 4096)
        × (length bytes.old < image_length core)) }
    ensures many { IfSome tower.old.hold.core (λ core. result ≡ 4 ↔ 4096 < length core.roles) }
    ensures empty { result ≡ 1 ↔ tower.old.live ≡ false }
    ensures unwritten { result ≢ 0 → bytes.new ≡ bytes.old }
    ensures none { (result ≡ 1) ⊎ (result ≡ 4) → size.new ≡ size.old }
{
    match take(alloc, tower) {
        Some(core) => {
            let status = write_core(alloc, &core, bytes, size);
            put(tower, core);
            status
        }
        None => NO_CORE,
    }
}

/// Checks the core's own image, where its parts lie in the core: of a wide core too. Returns 0 if it is sound, 1 if the
/// handle has no core, and 2 if memory ran out. For a core that only these libraries have written these are all;
/// otherwise 3 and 4 are as for `tower_check_bytes`.
#[unsafe(no_mangle)]
pub extern "C" fn tower_check(alloc: Global, tower: &mut Tower, verdict: &mut TowerVerdict) -> u32
    requires { IsTower tower.old }
    ensures kept { IsTower tower.new }
    ensures same { tower.new.hold.core ≡ tower.old.hold.core }
    ensures sound { result ≡ 0 → IfSome tower.old.hold.core HasSoundImage }
    ensures passes { tower.old.live ≡ true → (result ≡ 0) ⊎ (result ≡ 2) }
    ensures empty { result ≡ 1 ↔ tower.old.live ≡ false }
    ensures none { verdict.new ≡ verdict.old }
{
    match take(alloc, tower) {
        Some(core) => {
            let status = check_core(alloc, &core, verdict);
            put(tower, core);
            status
        }
        None => NO_CORE,
    }
}

/// Checks the image in bytes. 0: it is sound. 2: there is no memory for the check. 3: a process fails a clause. The
/// verdict has the first that does, and the number of the first clause that it fails, 1 to 7 for P1 to P7. 4: no
/// process fails one, but a frame does. The verdict has the first, and the number of its clause, 1 to 5 for F1 to F5.
/// 5: the bytes are no image, with the first reason against them. It is 1 not an image, 2 wrong length, 3 unknown
/// version, 4 a field that breaks its rule, at that place. At 0 and 2 nothing is written.
#[unsafe(no_mangle)]
pub extern "C" fn tower_check_bytes(alloc: Global, bytes: &[u8], verdict: &mut TowerVerdict) -> u32
    ensures statuses { (result ≤ 5) × (result ≢ 1) }
    ensures sound { result ≡ 0 → SpellsOne bytes.now IsSound }
    ensures passes { SpellsOne bytes.now IsSound → (result ≡ 0) ⊎ (result ≡ 2) }
    ensures process { result ≡ 3 → SpellsOne bytes.now (FailsProcess verdict.new) }
    ensures frame { result ≡ 4 → SpellsOne bytes.now (FailsFrame verdict.new) }
    ensures refused { result ≡ 5 → IsNoImage verdict.new bytes.now }
    ensures none { (result ≡ 0) ⊎ (result ≡ 2) → verdict.new ≡ verdict.old }
{
    check_bytes(alloc, bytes, verdict)
}

/// Restores a core from the image in bytes, without any offer, and returns 0. Otherwise the handle stays as it was. 1:
/// it has a core already. 2: there is no memory for the image, its check or the core. 3, 4 and 5: as for
/// `tower_check_bytes`, with its verdict. 6: the image is of version 1. At 0, 1, 2 and 6 no verdict is written.
#[unsafe(no_mangle)]
pub extern "C" fn tower_restore(
    alloc: Global,
    bytes: &[u8],
    tower: &mut Tower,
    verdict: &mut TowerVerdict,
) -> u32
    requires { IsTower tower.old }
    ensures kept { IsTower tower.new }
    ensures statuses { result ≤ 6 }
    ensures live { result ≡ 0 → tower.new.live ≡ true }
    ensures restored { result ≡ 0 → IfSome tower.new.hold.core (λ core. SpellsOne bytes.now (IsRestored core)) }
    ensures stands { result ≡ 0 → IfSome tower.new.hold.core (λ core. StandsFor (image_of core) core.state) }
    ensures busy { result ≡ 1 ↔ tower.old.live ≡ true }
    ensures passes { SpellsOne bytes.now IsSound → tower.old.live ≡ false → (result ≡ 0)
        ⊎ ((result ≡ 2) ⊎ (result ≡ 6)) }
    ensures process { result ≡ 3 → SpellsOne bytes.now (FailsProcess verdict.new) }
    ensures frame { result ≡ 4 → SpellsOne bytes.now (FailsFrame verdict.new) }
    ensures refused { result ≡ 5 → IsNoImage verdict.new bytes.now }
    ensures words { result ≡ 6 → SpellsOne bytes.now HasOldWords }
    ensures old { SpellsOne bytes.now HasOldWords → tower.old.live ≡ false → (result ≡ 2) ⊎ (result ≡ 6) }
    ensures none { (result < 3) ⊎ (result ≡ 6) → verdict.new ≡ verdict.old }
    ensures otherwise { result ≢ 0 → tower.new ≡ tower.old }
{
    if tower.live {
        return HAS_CORE;
    }
    match restore_bytes(alloc, bytes, verdict) {
        Ok(core) => {
            put(tower, core);
            DONE
        }
        Err(status) => status,
    }
}

/// Writes what the snapshot of the core begins with (docs/IMAGES.md) at the start of `bytes`, and its length to `size`:
/// all before the records of frames, with the offers. Returns 0. Otherwise `bytes` is unchanged. 1: the handle has no
/// core. 2: memory ran out. 3: `bytes` is too short for as many as `size` then says. At 1 and 2 `size` is unchanged
/// too.
#[unsafe(no_mangle)]
pub extern "C" fn tower_store_front(
    alloc: Global,
    tower: &mut Tower,
    bytes: &mut [u8],
    size: &mut usize,
) -> u32
    requires { IsTower tower.old }
    ensures kept { IsTower tower.new }
    ensures same { tower.new.hold.core ≡ tower.old.hold.core }
    ensures statuses { result ≤ 3 }
    ensures front { result ≡ 0 → IfSome tower.old.hold.core (λ core. IsHeadOf core (take size.new bytes.new)) }
    ensures behind { result ≡ 0 → drop size.new bytes.new ≡ drop size.new bytes.old }
    ensures size { (result ≡ 0) ⊎ (result ≡ 3) → IfSome tower.old.hold.core (λ core. IsHeadLength core size.new) }
    ensures fits { result ≡ 0 → size.new ≤ length bytes.old }
    ensures short { result ≡ 3 → length bytes.old < size.new }
    ensures empty { result ≡ 1 ↔ tower.old.live ≡ false }
    ensures unwritten { result ≢ 0 → bytes.new ≡ bytes.old }
    ensures none { (result ≡ 1) ⊎ (result ≡ 2) → size.new ≡ size.old }
{
    match take(alloc, tower) {
        Some(core) => {
            let status = store_head(alloc, &core, bytes, size);
            put(tower, core);
            status
        }
        None => NO_CORE,
    }
}

/// Writes the record of a frame at the start of `bytes`, 4,116 of them, and returns 0. The snapshot is what
/// `tower_store_front` writes, and then the records of all frames in order. Otherwise nothing is written. 1: the handle
/// has no core. 3: `bytes` is too short. 4: the frame is free, or there is none of that number: it has no record.
#[unsafe(no_mangle)]
pub extern "C" fn tower_store_frame(
    alloc: Global,
    tower: &mut Tower,
    frame: u32,
    bytes: &mut [u8],
) -> u32
    requires { IsTower tower.old }
    ensures kept { IsTower tower.new }
    ensures same { tower.new.hold.core ≡ tower.old.hold.core }
    ensures statuses { (result ≤ 4) × (result ≢ 2) }
    ensures record { result ≡ 0 → IfSome tower.old.hold.core (λ core. take 4116 bytes.new ≡ frame_record core frame) }
    ensures behind { result ≡ 0 → drop 4116 bytes.new ≡ drop 4116 bytes.old }
    ensures short { tower.old.live ≡ true → result ≡ 3 ↔ length bytes.old < 4116 }
    ensures free { result ≡ 4 → IfSome tower.old.hold.core (λ core. frame_record core frame ≡ []) }
    ensures empty { result ≡ 1 ↔ tower.old.live ≡ false }
    ensures unwritten { result ≢ 0 → bytes.new ≡ bytes.old }
{
    match take(alloc, tower) {
        Some(core) => {
            let status = store_frame(&core, frame, bytes);
            put(tower, core);
            status
        }
        None => NO_CORE,
    }
}

/// Checks the snapshot in bytes, and its offers. 0: it is sound, and a core comes of it. 2: there is no memory for the
/// snapshot, its check or the core. 3, 4 and 5: as for `tower_check_bytes`, with its verdict; a place past the highest
/// number of 32 bits is that number. 8: the machine refuses an offer, and the verdict has the number of the first. At 0
/// and 2 nothing is written.
#[unsafe(no_mangle)]
pub extern "C" fn tower_check_whole(alloc: Global, bytes: &[u8], verdict: &mut TowerVerdict) -> u32
    ensures statuses { result ≢ 0 → IsRefusal result }
    ensures sound { result ≡ 0 → EncodesOne bytes.now IsSoundWide }
    ensures passes { EncodesOne bytes.now IsSoundWide → (result ≡ 0) ⊎ (result ≡ 2) }
    ensures process { result ≡ 3 → EncodesOne bytes.now (FailsWholeProcess verdict.new) }
    ensures frame { result ≡ 4 → EncodesOne bytes.now (FailsWholeFrame verdict.new) }
    ensures refused { result ≡ 5 → IsNoWhole verdict.new bytes.now }
    ensures offer { result ≡ 8 → EncodesOne bytes.now (RefusesWhole verdict.new) }
    ensures none { (result ≡ 0) ⊎ (result ≡ 2) → verdict.new ≡ verdict.old }
{
    check_whole(alloc, bytes, verdict)
}

/// Restores a core from the snapshot in bytes, with its offers, and returns 0. Otherwise the handle stays as it was. 1:
/// it has a core already. Any other status, with its verdict, is as for `tower_check_whole`. At 0, 1 and 2 no verdict
/// is written.
#[unsafe(no_mangle)]
pub extern "C" fn tower_restore_whole(
    alloc: Global,
    bytes: &[u8],
    tower: &mut Tower,
    verdict: &mut TowerVerdict,
) -> u32
    requires { IsTower tower.old }
    ensures kept { IsTower tower.new }
    ensures statuses { 1 < result → IsRefusal result }
    ensures live { result ≡ 0 → tower.new.live ≡ true }
    ensures resumed { result ≡ 0 → IfSome tower.new.hold.core (λ core. EncodesOne bytes.now (IsResumed core)) }
    ensures stands { result ≡ 0 → IfSome tower.new.hold.core (λ core. StandsFor (image_of core) core.state) }
    ensures busy { result ≡ 1 ↔ tower.old.live ≡ true }
    ensures passes { EncodesOne bytes.now IsSoundWide → tower.old.live ≡ false → (result ≡ 0) ⊎ (result ≡ 2) }
    ensures process { result ≡ 3 → EncodesOne bytes.now (FailsWholeProcess verdict.new) }
    ensures frame { result ≡ 4 → EncodesOne bytes.now (FailsWholeFrame verdict.new) }
    ensures refused { result ≡ 5 → IsNoWhole verdict.new bytes.now }
    ensures offer { result ≡ 8 → EncodesOne bytes.now (RefusesWhole verdict.new) }
    ensures none { result < 3 → verdict.new ≡ verdict.old }
    ensures otherwise { result ≢ 0 → tower.new ≡ tower.old }
{
    if tower.live {
        return HAS_CORE;
    }
    match restore_whole(alloc, bytes, verdict) {
        Ok(core) => {
            put(tower, core);
            DONE
        }
        Err(status) => status,
    }
}
