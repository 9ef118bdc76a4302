//! The check of an image, told in numbers.

ghost use Rattle.std.specs.Prelude.{◌≡◌, ◌≢◌, ◌≤◌, ◌⊎◌};
ghost use Rattle.memory_image.specs.Sound.{IsSound};
ghost use Rattle.tower_images.specs.Audits.{SpellsOne, FailsProcess, FailsFrame, IsNoImage};
ghost use Rattle.tower_images.specs.Images.{HasSoundImage};

use crate::statuses::{DONE, NO_MEMORY, NOT_IMAGE};
use crate::verdicts::{TowerVerdict, tell_failed, verdict_from};
use image_check::check_by_ref;
use image_restore::first_failed;
use kernel_calls::Core;
use memory_image::{ImageFault, ImageRef, processes_of, read_image};
use std::alloc::Global;

/// Checks an image.
fn check_image(alloc: Global, image: &ImageRef<'_>, told: &mut TowerVerdict) -> u32
    ensures statuses { (result ≢ 1) × (result ≤ 4) }
    ensures sound { result ≡ 0 → IsSound image.now }
    ensures passes { IsSound image.now → (result ≡ 0) ⊎ (result ≡ 2) }
    ensures process { result ≡ 3 → FailsProcess told.new image.now }
    ensures frame { result ≡ 4 → FailsFrame told.new image.now }
    ensures none { (result ≡ 0) ⊎ (result ≡ 2) → told.new ≡ told.old }
{
    image.within();
    match check_by_ref(alloc, image) {
        Ok(verdict) => match first_failed(image, &verdict) {
            Some(failed) => tell_failed(failed, told),
            None => DONE,
        },
        Err(_) => NO_MEMORY,
    }
}

/// Checks the image of a core, where its parts lie.
pub fn check_core(alloc: Global, core: &Core, told: &mut TowerVerdict) -> u32
    ensures sound { result ≡ 0 → HasSoundImage core.now }
    ensures passes { (result ≡ 0) ⊎ (result ≡ 2) }
    ensures none { told.new ≡ told.old }
{
    let processes = processes_of(core);
    check_image(alloc, &ImageRef::of_core(core, &processes), told)
}

/// Checks the image in bytes.
pub fn check_bytes(alloc: Global, bytes: &[u8], told: &mut TowerVerdict) -> u32
    ensures statuses { (result ≢ 1) × (result ≤ 5) }
    ensures sound { result ≡ 0 → SpellsOne bytes.now IsSound }
    ensures passes { SpellsOne bytes.now IsSound → (result ≡ 0) ⊎ (result ≡ 2) }
    ensures process { result ≡ 3 → SpellsOne bytes.now (FailsProcess told.new) }
    ensures frame { result ≡ 4 → SpellsOne bytes.now (FailsFrame told.new) }
    ensures refused { result ≡ 5 → IsNoImage told.new bytes.now }
    ensures none { (result ≡ 0) ⊎ (result ≡ 2) → told.new ≡ told.old }
{
    match read_image(alloc, bytes) {
        Ok(image) => check_image(alloc, &image.by_ref(), told),
        Err(ImageFault::NoMemory) => NO_MEMORY,
        Err(fault) => {
            *told = verdict_from(fault);
            NOT_IMAGE
        }
    }
}
