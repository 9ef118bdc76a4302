//! A core of the snapshot in bytes, with its offers.

ghost use Rattle.std.specs.Prelude.{◌≡◌, ◌≢◌, ◌⊎◌, min, IfOk, IfErr};
ghost use Rattle.process_table.specs.Image.{StandsFor, image_of};
ghost use Rattle.image_restore.specs.Resumed.{IsResumed, IsSoundWide};
ghost use Rattle.wide_image.specs.Wide.{Encodes};
ghost use Rattle.tower_images.specs.Whole.{EncodesOne, IsAny, IsNoWhole, IsRefusal, FailsWholeProcess, FailsWholeFrame, RefusesWhole, whole_numbers};

use crate::statuses::{DONE, NO_MEMORY, NOT_IMAGE, OFFER_REFUSED};
use crate::verdicts::{TowerVerdict, tell_failed};
use image_restore::{WideRestoreFault, restore_wide};
use kernel_calls::Core;
use std::alloc::Global;
use wide_image::{WideImage, WideImageFault, read_wide_image};

/// A place in 32 bits: the highest number for one that needs more.
fn short_place(offset: u64) -> u32
    ensures { result ≡ min offset 4294967295 }
{
    if offset < 4_294_967_295 {
        offset as u32
    } else {
        4_294_967_295
    }
}

/// Why bytes are no snapshot, in numbers.
fn whole_verdict_from(fault: WideImageFault) -> TowerVerdict
    ensures { result ≡ whole_numbers fault }
{
    let (clause, number) = match fault {
        WideImageFault::NotImage => (1, 0),
        WideImageFault::BadLength => (2, 0),
        WideImageFault::BadVersion => (3, 0),
        WideImageFault::BadField { offset } => (4, short_place(offset)),
        WideImageFault::NoMemory => (0, 0),
    };
    TowerVerdict { number, clause }
}

/// Reads the snapshot in bytes.
fn read_whole(alloc: Global, bytes: &[u8], told: &mut TowerVerdict) -> Result<WideImage, u32>
    ensures encoded { IfOk result (λ image. Encodes bytes.now image) }
    ensures statuses { IfErr result (λ status. (status ≡ 2) ⊎ (status ≡ 5)) }
    ensures refused { IfErr result (λ status. status ≡ 5 → IsNoWhole told.new bytes.now) }
    ensures read { EncodesOne bytes.now IsAny → IfErr result (λ status. status ≡ 2) }
    ensures done { IfOk result (λ _. told.new ≡ told.old) }
    ensures untold { IfErr result (λ status. status ≡ 2 → told.new ≡ told.old) }
{
    match read_wide_image(alloc, bytes) {
        Ok(image) => Ok(image),
        Err(WideImageFault::NoMemory) => Err(NO_MEMORY),
        Err(fault) => {
            *told = whole_verdict_from(fault);
            Err(NOT_IMAGE)
        }
    }
}

/// Makes a core of the snapshot in bytes, with its offers, or returns why there is none.
pub fn restore_whole(alloc: Global, bytes: &[u8], told: &mut TowerVerdict) -> Result<Box<Core>, u32>
    ensures resumed { IfOk result (λ core. EncodesOne bytes.now (IsResumed core.value)) }
    ensures stands { IfOk result (λ core. StandsFor (image_of core.value) core.value.state) }
    ensures sound { IfOk result (λ _. EncodesOne bytes.now IsSoundWide) }
    ensures statuses { IfErr result IsRefusal }
    ensures passes { EncodesOne bytes.now IsSoundWide → IfErr result (λ status. status ≡ 2) }
    ensures process { IfErr result (λ status. status ≡ 3 → EncodesOne bytes.now (FailsWholeProcess told.new)) }
    ensures frame { IfErr result (λ status. status ≡ 4 → EncodesOne bytes.now (FailsWholeFrame told.new)) }
    ensures refused { IfErr result (λ status. status ≡ 5 → IsNoWhole told.new bytes.now) }
    ensures offer { IfErr result (λ status. status ≡ 8 → EncodesOne bytes.now (RefusesWhole told.new)) }
    ensures done { IfOk result (λ _. told.new ≡ told.old) }
    ensures untold { IfErr result (λ status. status ≡ 2 → told.new ≡ told.old) }
{
    let image = match read_whole(alloc, bytes, told) {
        Ok(image) => image,
        Err(status) => return Err(status),
    };
    match restore_wide(alloc, image) {
        Ok(core) => {
            core.stands();
            match Box::new(alloc, core) {
                Ok(core) => Ok(core),
                Err(_) => Err(NO_MEMORY),
            }
        }
        Err(WideRestoreFault::NotSound(failed)) => Err(tell_failed(failed, told)),
        Err(WideRestoreFault::BadOffer { number, reply: _ }) => {
            *told = TowerVerdict { number, clause: 0 };
            Err(OFFER_REFUSED)
        }
        Err(WideRestoreFault::NoMemory) => Err(NO_MEMORY),
    }
}

/// Checks the snapshot in bytes, by a core that is made of it and dropped.
pub fn check_whole(alloc: Global, bytes: &[u8], told: &mut TowerVerdict) -> u32
    ensures statuses { result ≢ 0 → IsRefusal result }
    ensures sound { result ≡ 0 → EncodesOne bytes.now IsSoundWide }
    ensures passes { EncodesOne bytes.now IsSoundWide → (result ≡ 0) ⊎ (result ≡ 2) }
    ensures process { result ≡ 3 → EncodesOne bytes.now (FailsWholeProcess told.new) }
    ensures frame { result ≡ 4 → EncodesOne bytes.now (FailsWholeFrame told.new) }
    ensures refused { result ≡ 5 → IsNoWhole told.new bytes.now }
    ensures offer { result ≡ 8 → EncodesOne bytes.now (RefusesWhole told.new) }
    ensures none { (result ≡ 0) ⊎ (result ≡ 2) → told.new ≡ told.old }
{
    let Err(status) = restore_whole(alloc, bytes, told) else {
        return DONE;
    };
    status
}
