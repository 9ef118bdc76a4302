//! The fields of an image's bytes, each at its place.

ghost use Rattle.std.specs.Prelude.{◌≡◌, ◌+◌, ◌*◌, ◌<◌, ◌≤◌, ◌==◌, ◌||◌, length};
ghost use Rattle.std.specs.List.{flat_map, range_with_len};
ghost use Rattle.phys_memory.specs.Bytes.{word_at};
ghost use Rattle.memory_image.specs.Tests.{first_failing};
ghost use Rattle.memory_image.specs.Refusals.{process_fields, role_fields, first_bad, begins, fault_with, fault_of};

use crate::faults::ImageFault;
use page_words::is_frame_count;

/// The number in four bytes, the lowest first.
#[tactic(auto, using(crate::proofs::PieceLemmas::number_of_four))]
pub fn number_at(bytes: &[u8], place: usize) -> u32
    requires { place + 4 ≤ length bytes.now }
    ensures { result ≡ word_at bytes.now place }
{
    u32::from_le_bytes([
        bytes[place],
        bytes[place + 1],
        bytes[place + 2],
        bytes[place + 3],
    ])
}

/// The place of the first field of a process's record that breaks its rule.
fn bad_process(bytes: &[u8], frames: u32, number: u32) -> Option<u32>
    requires number { number < 64 }
    requires long { 1548 ≤ length bytes.now }
    ensures { result ≡ first_failing (process_fields bytes.now frames number) }
{
    let place = 12 + 24 * number;
    let at = place as usize;
    let live = number_at(bytes, at);
    let parent = number_at(bytes, at + 4);
    let quota = number_at(bytes, at + 8);
    let used = number_at(bytes, at + 12);
    let given = number_at(bytes, at + 16);
    let directory = number_at(bytes, at + 20);
    if live > 1 {
        Some(place)
    } else if live == 1 {
        if parent >= 64 || (number == 0 && parent != 0) {
            Some(place + 4)
        } else if directory >= frames {
            Some(place + 20)
        } else {
            None
        }
    } else if parent != 0 {
        Some(place + 4)
    } else if quota != 0 {
        Some(place + 8)
    } else if used != 0 {
        Some(place + 12)
    } else if given != 0 {
        Some(place + 16)
    } else if directory != 0 {
        Some(place + 20)
    } else {
        None
    }
}

/// The place of the first field of a frame's record that breaks its rule.
fn bad_role(bytes: &[u8], frame: u32) -> Option<u32>
    requires frame { frame < 4096 }
    requires long { 1548 + 16 * frame + 16 ≤ length bytes.now }
    ensures { result ≡ first_failing (role_fields bytes.now frame) }
{
    let place = 1548 + 16 * frame;
    let at = place as usize;
    let role = number_at(bytes, at);
    let pid = number_at(bytes, at + 4);
    let slot = number_at(bytes, at + 8);
    let count = number_at(bytes, at + 12);
    let has_pid = role == 2 || role == 3;
    if role > 4 {
        Some(place)
    } else if (has_pid && pid >= 64) || (!has_pid && pid != 0) {
        Some(place + 4)
    } else if (role == 3 && slot >= 1024) || (role != 3 && slot != 0) {
        Some(place + 8)
    } else if role != 4 && count != 0 {
        Some(place + 12)
    } else {
        None
    }
}

/// The place of the first field of the 64 records of processes that breaks its rule.
pub fn bad_in_processes(bytes: &[u8], frames: u32) -> Option<u32>
    requires { 1548 ≤ length bytes.now }
    ensures { result ≡ first_failing (flat_map (process_fields bytes.now frames) (range_with_len 0 64)) }
{
    for number in 0..64 {
        let bad = bad_process(bytes, frames, number);
        if bad.is_some() {
            return bad;
        }
    }
    None
}

/// The place of the first field of the records of frames that breaks its rule.
fn bad_in_roles(bytes: &[u8], frames: u32) -> Option<u32>
    requires frames { frames ≤ 4096 }
    requires long { 1548 + 16 * frames ≤ length bytes.now }
    ensures { result ≡ first_failing (flat_map (role_fields bytes.now) (range_with_len 0 frames)) }
{
    for frame in 0..frames {
        let bad = bad_role(bytes, frame);
        if bad.is_some() {
            return bad;
        }
    }
    None
}

/// The place of the first field that breaks its rule.
#[tactic(auto, unfolding(crate::specs::Refusals::fields))]
fn first_bad(bytes: &[u8], frames: u32) -> Option<u32>
    requires frames { frames ≤ 4096 }
    requires long { 1548 + 16 * frames ≤ length bytes.now }
    ensures { result ≡ first_bad bytes.now frames }
{
    let bad = bad_in_processes(bytes, frames);
    if bad.is_some() {
        return bad;
    }
    bad_in_roles(bytes, frames)
}

/// Whether bytes begin with the four of an image.
pub fn begins(bytes: &[u8]) -> bool
    ensures { result ≡ begins bytes.now }
{
    match bytes {
        [a, b, c, d, ..] => *a == 0x6d && *b == 0x43 && *c == 0x32 && *d == 0x49,
        _ => false,
    }
}

fn fault_with(bytes: &[u8], frames: u32) -> Option<ImageFault>
    ensures { result ≡ fault_with bytes.now frames }
{
    if !is_frame_count(frames) {
        return Some(ImageFault::BadField { offset: 8 });
    }
    if bytes.len() != 1548 + 4112 * frames as usize {
        return Some(ImageFault::BadLength);
    }
    match first_bad(bytes, frames) {
        Some(offset) => Some(ImageFault::BadField { offset }),
        None => None,
    }
}

/// Whether it is a version that is read.
fn is_known(version: u32) -> bool
    ensures { result ≡ (version == 1 || version == 2) }
{
    version == 1 || version == 2
}

/// Returns the first reason why bytes are no image, apart from a lack of memory: None exactly if they encode one.
///
/// The reasons come in this order. NotImage: they don't begin with the four bytes of an image. BadLength: they are
/// fewer than 12. BadVersion. BadField at 8: the number of frames isn't 16 to 4,096. BadLength: they aren't as many as
/// that number says. BadField at the first field that breaks its rule.
#[tactic(auto, unfolding(crate::specs::Refusals::fault_of))]
pub fn fault_in(bytes: &[u8]) -> Option<ImageFault>
    ensures { result ≡ fault_of bytes.now }
{
    if !begins(bytes) {
        Some(ImageFault::NotImage)
    } else if bytes.len() < 12 {
        Some(ImageFault::BadLength)
    } else if !is_known(number_at(bytes, 4)) {
        Some(ImageFault::BadVersion)
    } else {
        fault_with(bytes, number_at(bytes, 8))
    }
}
