//! A core of the image in bytes.

ghost use Rattle.std.specs.Prelude.{◌≡◌, ◌≢◌, ◌≤◌, ◌⊎◌, Err, IfOk, IfErr};
ghost use Rattle.memory_image.specs.Sound.{IsSound};
ghost use Rattle.process_table.specs.Image.{StandsFor, image_of};
ghost use Rattle.tower_images.specs.Audits.{FailsFrame, FailsProcess, IsNoImage, SpellsOne};
ghost use Rattle.image_restore.specs.Restored.{HasOldWords, IsRestored};

use crate::statuses::{NO_MEMORY, NOT_IMAGE, OLD_WORDS};
use crate::verdicts::{TowerVerdict, tell_failed, verdict_from};
use image_restore::{RestoreFault, restore};
use kernel_calls::Core;
use memory_image::{ImageFault, read_image};
use std::alloc::Global;

/// Makes a core of the image in bytes, or returns why there is none.
pub fn restore_bytes(alloc: Global, bytes: &[u8], told: &mut TowerVerdict) -> Result<Box<Core>, u32>
    ensures restored { IfOk result (λ core. SpellsOne bytes.now (IsRestored core.value)) }
    ensures stands { IfOk result (λ core. StandsFor (image_of core.value) core.value.state) }
    ensures statuses { IfErr result (λ status. (status ≢ 0) × (status ≢ 1) × (status ≤ 6)) }
    ensures passes { SpellsOne bytes.now IsSound → IfErr result (λ status. (status ≡ 2) ⊎ (status ≡ 6)) }
    ensures process { IfErr result (λ status. status ≡ 3 → SpellsOne bytes.now (FailsProcess told.new)) }
    ensures frame { IfErr result (λ status. status ≡ 4 → SpellsOne bytes.now (FailsFrame told.new)) }
    ensures refused { IfErr result (λ status. status ≡ 5 → IsNoImage told.new bytes.now) }
    ensures words { IfErr result (λ status. status ≡ 6 → SpellsOne bytes.now HasOldWords) }
    ensures old { SpellsOne bytes.now HasOldWords → (result ≡ Err 2) ⊎ (result ≡ Err 6) }
    ensures done { IfOk result (λ _. told.new ≡ told.old) }
    ensures untold { IfErr result (λ status. (status ≡ 2) ⊎ (status ≡ 6) → told.new ≡ told.old) }
{
    let image = match read_image(alloc, bytes) {
        Ok(image) => image,
        Err(ImageFault::NoMemory) => return Err(NO_MEMORY),
        Err(fault) => {
            *told = verdict_from(fault);
            return Err(NOT_IMAGE);
        }
    };
    match restore(alloc, image) {
        Ok(core) => {
            core.stands();
            match Box::new(alloc, core) {
                Ok(core) => Ok(core),
                Err(_) => Err(NO_MEMORY),
            }
        }
        Err(RestoreFault::NotSound(failed)) => Err(tell_failed(failed, told)),
        Err(RestoreFault::OldWords) => Err(OLD_WORDS),
        Err(RestoreFault::NoMemory) => Err(NO_MEMORY),
    }
}
