//! The image of a core as bytes.

ghost use Rattle.std.specs.Prelude.{◌≡◌, ◌≢◌, ◌↔◌, ◌+◌, ◌*◌, ◌<◌, ◌≤◌, ◌++◌, IfSome, length, take, drop};
ghost use Rattle.memory_image.specs.Machine.{IsImageOf};
ghost use Rattle.memory_image.specs.Spelling.{Spells};
ghost use Rattle.memory_image.specs.Image.{frames};
ghost use Rattle.tower_images.specs.Images.{image_length, SpellsCore};

use crate::statuses::{DONE, NO_MEMORY, TOO_MANY_FRAMES, TOO_SHORT};
use kernel_calls::Core;
use memory_image::{Image, images_have_one_spelling, write_image};
use page_words::MAX_FRAMES;
use std::alloc::Global;

/// How many bytes the image of so many frames has.
pub fn image_length(frames: u32) -> usize
    ensures { result ≡ 1548 + 4112 * frames }
{
    1548 + 4112 * frames as usize
}

/// The bytes of an image; None if there is no memory for them.
fn bytes_of(alloc: Global, image: &Image) -> Option<Vec<u8>>
    ensures spelled { IfSome result (λ bytes. Spells bytes.items image.now) }
    ensures length { IfSome result (λ bytes. length bytes.items ≡ 1548 + 4112 * frames image.now) }
{
    image.within();
    images_have_one_spelling();
    let mut bytes = Vec::with_capacity(alloc, image_length(image.frames())).ok()?;
    write_image(image, &mut bytes).ok()?;
    Some(bytes)
}

/// The bytes of a core's image; None if there is no memory for them.
fn core_bytes(alloc: Global, core: &Core) -> Option<Vec<u8>>
    ensures spelled { IfSome result (λ bytes. SpellsCore core.now bytes.items) }
    ensures length { IfSome result (λ bytes. length bytes.items ≡ image_length core.now) }
{
    let image = Image::of(alloc, core).ok()?;
    bytes_of(alloc, &image)
}

/// Copies bytes to the front of others.
pub(crate) fn copy_to_front(from: &[u8], to: &mut [u8])
    requires { length from.now ≤ length to.old }
    ensures front { take (length from.now) to.new ≡ from.now }
    ensures behind { drop (length from.now) to.new ≡ drop (length from.now) to.old }
{
    to[..from.len()].copy_from_slice(from);
}

/// Writes the bytes of a core's image to the front of others, if these have room for them, and how many they are.
pub fn write_core(alloc: Global, core: &Core, bytes: &mut [u8], size: &mut usize) -> u32
    ensures statuses { (result ≤ 4) × (result ≢ 1) }
    ensures image { result ≡ 0 → SpellsCore core.now (take (image_length core.now) bytes.new) }
    ensures behind { result ≡ 0 → drop (image_length core.now) bytes.new ≡ drop (image_length core.now) bytes.old }
    ensures size { result ≢ 4 → size.new ≡ image_length core.now }
    ensures none { result ≡ 4 → size.new ≡ size.old }
    ensures many { result ≡ 4 ↔ 4096 < length core.now.roles }
    ensures short { result ≡ 3 ↔ (length core.now.roles ≤ 4096) × (length bytes.old < image_length core.now) }
    ensures unwritten { result ≢ 0 → bytes.new ≡ bytes.old }
{
    if core.frames() > MAX_FRAMES {
        return TOO_MANY_FRAMES;
    }
    *size = image_length(core.frames());
    if bytes.len() < *size {
        return TOO_SHORT;
    }
    let Some(spelled) = core_bytes(alloc, core) else {
        return NO_MEMORY;
    };
    copy_to_front(&spelled, bytes);
    DONE
}
