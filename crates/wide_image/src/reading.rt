//! Reading a snapshot from bytes.

ghost use Rattle.std.specs.Prelude.{◌≡◌, ℕ, ◌+◌, ◌*◌, ◌<◌, ◌≤◌, None, IfOk, IfErr, IfSome, length};
ghost use Rattle.wide_image.specs.declared.faults.WideImageFault.TheVariants.{NoMemory};
ghost use Rattle.wide_image.specs.Wide.{HasWideFields, Encodes, text};
ghost use Rattle.wide_image.specs.Faults.{fault_of};
ghost use Rattle.wide_image.specs.Reading.{HasParties, offer_at, offer_in, offers_in, IsRefusal};
ghost use Rattle.wide_image.specs.Wide as wide;

use crate::faults::WideImageFault;
use crate::fields::fault_in;
use crate::frames::{frames_in, pid_at};
use crate::images::WideImage;
use crate::offers::PendingOffer;
use memory_image::{number_at, processes_in};
use page_words::Page;
use std::alloc::Global;

/// The offer at a place.
pub(crate) fn offer_at(bytes: &[u8], at: usize) -> PendingOffer
    requires inside { at + 16 ≤ length bytes.now }
    requires parties { HasParties bytes.now at }
    ensures { result ≡ offer_at bytes.now at }
{
    PendingOffer {
        offerer: pid_at(bytes, at),
        page: Page(number_at(bytes, at + 4)),
        target: pid_at(bytes, at + 8),
        write: number_at(bytes, at + 12) == 1,
    }
}

/// So many offers.
fn offers_in(alloc: Global, bytes: &[u8], count: u32) -> Option<Vec<PendingOffer>>
    requires long { 1556 + 16 * count ≤ length bytes.now }
    requires parties { (i : ℕ) → i < count → HasParties bytes.now (1556 + 16 * i) }
    ensures { IfSome result (λ offers. offers.items ≡ offers_in bytes.now count) }
{
    let Ok(mut offers) = Vec::with_capacity(alloc, count as usize) else {
        return None;
    };
    for number in 0..count {
        let offer = offer_at(bytes, 1556 + 16 * number as usize);
        let Ok(()) = offers.push(offer) else {
            return None;
        };
    }
    Some(offers)
}

/// The snapshot in bytes.
fn image_in(alloc: Global, bytes: &[u8]) -> Option<WideImage>
    requires { fault_of bytes.now ≡ None }
    ensures { IfSome result (λ image. Encodes bytes.now image) }
{
    let frames = number_at(bytes, 8);
    let count = number_at(bytes, 1548);
    let stored = number_at(bytes, 1552);
    let offers = offers_in(alloc, bytes, count)?;
    let start = 1556 + 16 * count as usize;
    let read = frames_in(alloc, bytes, frames, start, stored)?;
    Some(WideImage::with_parts(processes_in(bytes), read.0, read.1, offers))
}

/// Reads a snapshot. If memory is there, it returns Ok exactly for bytes that encode one. Frames that aren't stored are
/// free, and hold zeros.
///
/// NoMemory if there is no memory for the snapshot and nothing is wrong with the bytes. Any other fault is the first
/// reason against them, in the order of `fault_in`.
pub fn read_wide_image(alloc: Global, bytes: &[u8]) -> Result<WideImage, WideImageFault>
    ensures encoded { IfOk result (λ image. Encodes bytes.now image) }
    ensures refused { IfErr result (λ fault. IsRefusal bytes.now fault) }
    ensures read { (image : wide.WideImage) → HasWideFields image → bytes.now ≡ text image
        → IfErr result (λ fault. fault ≡ NoMemory) }
{
    match fault_in(bytes) {
        Some(fault) => Err(fault),
        None => match image_in(alloc, bytes) {
            Some(image) => Ok(image),
            None => Err(WideImageFault::NoMemory),
        },
    }
}
