//! The image of a core of any size as bytes, with its offers: its beginning, and then frame by frame.

ghost use Rattle.std.specs.Prelude.{◌≡◌, ◌≢◌, ◌↔◌, ◌⊎◌, ◌<◌, ◌≤◌, [], IfSome, length, take, drop};
ghost use Rattle.tower_images.specs.Whole.{IsHeadLength};
ghost use Rattle.wide_image.specs.Stored.{IsHeadOf, frame_record};

use crate::image_bytes::copy_to_front;
use crate::statuses::{DONE, FREE_FRAME, NO_MEMORY, TOO_SHORT};
use kernel_calls::Core;
use page_words::Frame;
use std::alloc::Global;
use wide_image::{copy_frame_record, write_core_head};

/// How many bytes a frame's record has.
const RECORD_BYTES: usize = 4116;

/// What a core's image begins with; None if there is no memory for it.
fn head_of(alloc: Global, core: &Core) -> Option<Vec<u8>>
    ensures { IfSome result (λ head. IsHeadOf core.now head.items) }
{
    let mut head = Vec::new(alloc);
    write_core_head(alloc, core, &mut head).ok()?;
    Some(head)
}

/// Writes what a core's image begins with to the front of bytes, if these have room for it, and how many it has.
pub fn store_head(alloc: Global, core: &Core, bytes: &mut [u8], size: &mut usize) -> u32
    ensures statuses { (result ≤ 3) × (result ≢ 1) }
    ensures head { result ≡ 0 → IsHeadOf core.now (take size.new bytes.new) }
    ensures behind { result ≡ 0 → drop size.new bytes.new ≡ drop size.new bytes.old }
    ensures size { (result ≡ 0) ⊎ (result ≡ 3) → IsHeadLength core.now size.new }
    ensures fits { result ≡ 0 → size.new ≤ length bytes.old }
    ensures short { result ≡ 3 → length bytes.old < size.new }
    ensures unwritten { result ≢ 0 → bytes.new ≡ bytes.old }
    ensures none { result ≡ 2 → size.new ≡ size.old }
{
    let Some(head) = head_of(alloc, core) else {
        return NO_MEMORY;
    };
    *size = head.len();
    if bytes.len() < *size {
        return TOO_SHORT;
    }
    copy_to_front(&head, bytes);
    DONE
}

/// Writes the record of a core's frame to the front of bytes, if these have room for one.
pub fn store_frame(core: &Core, frame: u32, bytes: &mut [u8]) -> u32
    ensures statuses { (result ≡ 0) ⊎ ((result ≡ 3) ⊎ (result ≡ 4)) }
    ensures record { result ≡ 0 → take 4116 bytes.new ≡ frame_record core.now frame }
    ensures behind { result ≡ 0 → drop 4116 bytes.new ≡ drop 4116 bytes.old }
    ensures short { result ≡ 3 ↔ length bytes.old < 4116 }
    ensures free { result ≡ 4 → frame_record core.now frame ≡ [] }
    ensures unwritten { result ≢ 0 → bytes.new ≡ bytes.old }
{
    if bytes.len() < RECORD_BYTES {
        return TOO_SHORT;
    }
    if copy_frame_record(core, Frame(frame), bytes) {
        DONE
    } else {
        FREE_FRAME
    }
}
