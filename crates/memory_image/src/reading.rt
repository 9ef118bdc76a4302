//! Reading an image from bytes.

ghost use Rattle.std.specs.Prelude.{◌≡◌, ℕ, ◌+◌, ◌*◌, ◌<◌, ◌≤◌, None, IfOk, IfErr, IfSome, length, drop, map};
ghost use Rattle.std.specs.List.{range_with_len};
ghost use Rattle.phys_memory.specs.Bytes.{word_at};
ghost use Rattle.memory_image.specs.declared.faults.ImageFault.TheVariants.{NoMemory};
ghost use Rattle.memory_image.specs.Image as spelled;
ghost use Rattle.memory_image.specs.Spelling.{Spells};
ghost use Rattle.memory_image.specs.Refusals.{role_place};
ghost use Rattle.memory_image.specs.Reading.{process_in, role_in, image_in, HasParent, HasOwner, IsRefusal};

use crate::faults::ImageFault;
use crate::fields::{fault_in, number_at};
use crate::images::Image;
use crate::processes::Process;
use alloc_table::Role;
use page_words::{Frame, Pid};
use std::alloc::Global;

/// The number of a process at a place.
fn pid_at(bytes: &[u8], place: usize) -> Pid
    requires inside { place + 4 ≤ length bytes.now }
    requires small { word_at bytes.now place < 64 }
    ensures { result ≡ word_at bytes.now place }
{
    Pid::new(number_at(bytes, place) as u8).unwrap()
}

/// What the record of a process says.
fn process_in(bytes: &[u8], number: u32) -> Option<Process>
    requires number { number < 64 }
    requires long { 1548 ≤ length bytes.now }
    requires parent { HasParent bytes.now number }
    ensures { result ≡ process_in bytes.now number }
{
    let at = 12 + 24 * number as usize;
    if number_at(bytes, at) != 1 {
        return None;
    }
    Some(Process {
        parent: pid_at(bytes, at + 4),
        quota: number_at(bytes, at + 8),
        used: number_at(bytes, at + 12),
        given: number_at(bytes, at + 16),
        directory: Frame(number_at(bytes, at + 20)),
    })
}

/// What the 64 records of processes say.
pub fn processes_in(bytes: &[u8]) -> [Option<Process>; 64]
    requires long { 1548 ≤ length bytes.now }
    requires parents { (p : ℕ) → p < 64 → HasParent bytes.now p }
    ensures { result ≡ map (process_in bytes.now) (range_with_len 0 64) }
{
    let mut processes = [None; 64];
    for number in 0..64 {
        processes[number as usize] = process_in(bytes, number);
    }
    processes
}

/// What the record of a frame says.
fn role_in(bytes: &[u8], frame: u32) -> Role
    requires frame { frame < 4096 }
    requires long { 1548 + 16 * frame + 16 ≤ length bytes.now }
    requires owner { HasOwner bytes.now frame }
    ensures { result ≡ role_in bytes.now frame }
{
    let at = 1548 + 16 * frame as usize;
    match number_at(bytes, at) {
        0 => Role::Reserved,
        1 => Role::Free,
        2 => Role::Directory {
            pid: pid_at(bytes, at + 4),
        },
        3 => Role::Table {
            pid: pid_at(bytes, at + 4),
            slot: number_at(bytes, at + 8),
        },
        _ => Role::Page {
            count: number_at(bytes, at + 12),
        },
    }
}

/// What the records of that many frames say.
fn roles_in(alloc: Global, bytes: &[u8], frames: u32) -> Option<Vec<Role>>
    requires frames { frames ≤ 4096 }
    requires long { 1548 + 16 * frames ≤ length bytes.now }
    requires owners { (f : ℕ) → f < frames → HasOwner bytes.now f }
    ensures { IfSome result (λ roles. roles.items ≡ map (role_in bytes.now) (range_with_len 0 frames)) }
{
    let Ok(mut roles) = Vec::with_capacity(alloc, frames as usize) else {
        return None;
    };
    for frame in 0..frames {
        let Ok(()) = roles.push(role_in(bytes, frame)) else {
            return None;
        };
    }
    Some(roles)
}

/// The bytes of all frames, behind the records of that many.
fn body_in(bytes: &[u8], frames: u32) -> &[u8]
    requires frames { frames ≤ 4096 }
    requires long { 1548 + 16 * frames ≤ length bytes.now }
    ensures { result.now ≡ drop (role_place frames) bytes.now }
{
    &bytes[1548 + 16 * frames as usize..]
}

/// The image in bytes.
fn image_in(alloc: Global, bytes: &[u8]) -> Option<Image>
    requires most { word_at bytes.now 8 ≤ 4096 }
    requires long { length bytes.now ≡ 1548 + 4112 * word_at bytes.now 8 }
    requires parents { (p : ℕ) → p < 64 → HasParent bytes.now p }
    requires owners { (f : ℕ) → f < word_at bytes.now 8 → HasOwner bytes.now f }
    requires fields { spelled.IsImage (image_in bytes.now) }
    ensures { IfSome result (λ image. image ≡ image_in bytes.now) }
{
    let frames = number_at(bytes, 8);
    let roles = roles_in(alloc, bytes, frames)?;
    let Ok(body) = Vec::from_slice(alloc, body_in(bytes, frames)) else {
        return None;
    };
    Some(Image::with_parts(number_at(bytes, 4), processes_in(bytes), roles, body))
}

/// Reads an image. If memory is there, it returns Ok exactly for bytes that encode an image.
///
/// NoMemory if there is no memory for the image and nothing else is wrong with the bytes. Any other fault is the first
/// reason against them, in the order of `fault_in`.
pub fn read_image(alloc: Global, bytes: &[u8]) -> Result<Image, ImageFault>
    ensures spelled { IfOk result (λ image. Spells bytes.now image) }
    ensures refused { IfErr result (λ fault. IsRefusal bytes.now fault) }
    ensures read { (image : spelled.Image) → Spells bytes.now image → IfErr result (λ fault. fault ≡ NoMemory) }
{
    match fault_in(bytes) {
        Some(fault) => Err(fault),
        None => match image_in(alloc, bytes) {
            Some(image) => Ok(image),
            None => Err(ImageFault::NoMemory),
        },
    }
}
