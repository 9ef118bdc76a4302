//! The fields of a snapshot, each at its place.

ghost use Rattle.std.specs.Prelude.{◌≡◌, ◌+◌, ◌*◌, ◌<◌, ◌≤◌, ◌==◌, ◌^◌, length};
ghost use Rattle.phys_memory.specs.Bytes.{word_at};
ghost use Rattle.memory_image.specs.Tests.{first_failing};
ghost use Rattle.memory_image.specs.Refusals.{role_tests};
ghost use Rattle.wide_image.specs.Offers.{rank};
ghost use Rattle.wide_image.specs.Pieces.{offer_piece, frame_piece, front_bad, front_fault, front_fault_with};
ghost use Rattle.wide_image.specs.Faults.{offer_tests, offer_fields, bad_offer, frame_tests, frame_fields, bad_frame, stored_field, front_fields, frames_place, first_bad, fault_by, fault_with, fault_of};

use crate::faults::WideImageFault;
use crate::first_bytes::begins_snapshot;
use crate::offers::rank;
use memory_image::{bad_in_processes, number_at};
use page_words::is_wide_frame_count;

/// The place of the first number of an offer that breaks its rule, after offers whose places are below `from`. Its
/// numbers begin at a place.
fn bad_in_numbers(
    place: u64,
    from: u64,
    offerer: u32,
    page: u32,
    target: u32,
    right: u32,
) -> Option<u64>
    requires { place + 16 < 2 ^ 64 }
    ensures { result ≡ first_failing (offer_tests from place offerer page target right) }
{
    if offerer >= 64 {
        Some(place)
    } else if page >= 983_040 {
        Some(place + 4)
    } else if target >= 64 {
        Some(place + 8)
    } else if right > 1 {
        Some(place + 12)
    } else if rank(offerer, page, target) < from {
        Some(place)
    } else {
        None
    }
}

/// The place of the first field of the offer in these 16 bytes that breaks its rule. The bytes stand at a place, after
/// offers whose places are below `from`.
pub(crate) fn bad_in_offer_piece(piece: &[u8], place: u64, from: u64) -> Option<u64>
    requires long { 16 ≤ length piece.now }
    requires place { place + 16 < 2 ^ 64 }
    ensures { result ≡ first_failing (offer_piece piece.now from place) }
{
    bad_in_numbers(
        place,
        from,
        number_at(piece, 0),
        number_at(piece, 4),
        number_at(piece, 8),
        number_at(piece, 12),
    )
}

/// The place of the first field of an offer that breaks its rule, after offers whose places are below `from`.
fn bad_in_offer(bytes: &[u8], at: usize, from: u64) -> Option<u64>
    requires { at + 16 ≤ length bytes.now }
    ensures { result ≡ first_failing (offer_fields bytes.now from at) }
{
    bad_in_numbers(
        at as u64,
        from,
        number_at(bytes, at),
        number_at(bytes, at + 4),
        number_at(bytes, at + 8),
        number_at(bytes, at + 12),
    )
}

/// The place, among all that there can be, of the offer at a place of bytes.
fn rank_at(bytes: &[u8], at: usize) -> u64
    requires { at + 16 ≤ length bytes.now }
    ensures is { result ≡ rank (word_at bytes.now at) (word_at bytes.now (at + 4)) (word_at bytes.now (at + 8)) }
    ensures most { result < 2 ^ 60 }
{
    rank(
        number_at(bytes, at),
        number_at(bytes, at + 4),
        number_at(bytes, at + 8),
    )
}

/// The place of the first field of so many offers that breaks its rule.
fn bad_in_offers(bytes: &[u8], count: u32) -> Option<u64>
    requires { 1556 + 16 * count ≤ length bytes.now }
    ensures { result ≡ bad_offer bytes.now 0 1556 count }
{
    let mut from = 0;
    for number in 0..count {
        let at = 1556 + 16 * number as usize;
        let bad = bad_in_offer(bytes, at, from);
        if bad.is_some() {
            return bad;
        }
        from = rank_at(bytes, at) + 1;
    }
    None
}

/// The place of the first field of a role, whose numbers begin at a place, that breaks its rule.
fn bad_in_role(place: u64, role: u32, pid: u32, slot: u32, count: u32) -> Option<u64>
    requires { place + 12 < 2 ^ 64 }
    ensures { result ≡ first_failing (role_tests place role pid slot count) }
{
    let has_pid = role == 2 || role == 3;
    if role > 4 {
        Some(place)
    } else if (has_pid && pid >= 64) || (!has_pid && pid != 0) {
        Some(place + 4)
    } else if (role == 3 && slot >= 1024) || (role != 3 && slot != 0) {
        Some(place + 8)
    } else if role != 4 && count != 0 {
        Some(place + 12)
    } else {
        None
    }
}

/// The place of the first number of a frame's record that breaks its rule, after records of frames below `from`. Its
/// numbers begin at a place.
fn bad_in_record(
    place: u64,
    frames: u32,
    from: u64,
    frame: u32,
    role: u32,
    pid: u32,
    slot: u32,
    count: u32,
) -> Option<u64>
    requires { place + 20 < 2 ^ 64 }
    ensures { result ≡ first_failing (frame_tests frames from place frame role pid slot count) }
{
    if u64::from(frame) < from || frame >= frames {
        Some(place)
    } else if role == 1 {
        Some(place + 4)
    } else {
        bad_in_role(place + 4, role, pid, slot, count)
    }
}

/// The place of the first field of the record in these bytes that breaks its rule. The bytes stand at a place, after
/// records of frames below `from`.
pub(crate) fn bad_in_frame_piece(piece: &[u8], frames: u32, from: u64, place: u64) -> Option<u64>
    requires long { 20 ≤ length piece.now }
    requires place { place + 20 < 2 ^ 64 }
    ensures { result ≡ first_failing (frame_piece piece.now frames from place) }
{
    bad_in_record(
        place,
        frames,
        from,
        number_at(piece, 0),
        number_at(piece, 4),
        number_at(piece, 8),
        number_at(piece, 12),
        number_at(piece, 16),
    )
}

/// The place of the first field of a frame's record that breaks its rule, after records of frames below `from`.
fn bad_in_frame(bytes: &[u8], frames: u32, from: u64, at: usize) -> Option<u64>
    requires { at + 20 ≤ length bytes.now }
    ensures { result ≡ first_failing (frame_fields bytes.now frames from at) }
{
    bad_in_record(
        at as u64,
        frames,
        from,
        number_at(bytes, at),
        number_at(bytes, at + 4),
        number_at(bytes, at + 8),
        number_at(bytes, at + 12),
        number_at(bytes, at + 16),
    )
}

/// The number after that of the frame whose record is at a place.
fn frame_after(bytes: &[u8], at: usize) -> u64
    requires { at + 4 ≤ length bytes.now }
    ensures { result ≡ word_at bytes.now at + 1 }
{
    u64::from(number_at(bytes, at)) + 1
}

/// The place of the first field that breaks its rule of so many frames' records, of which the first begins at a place.
fn bad_in_frames(bytes: &[u8], frames: u32, start: usize, count: u32) -> Option<u64>
    requires { start + 4116 * count ≤ length bytes.now }
    ensures { result ≡ bad_frame bytes.now frames 0 start count }
{
    let mut from = 0;
    for number in 0..count {
        let at = start + 4116 * number as usize;
        let bad = bad_in_frame(bytes, frames, from, at);
        if bad.is_some() {
            return bad;
        }
        from = frame_after(bytes, at);
    }
    None
}

/// The place of the number of frames that are stored, if they are more than all.
fn bad_in_count(stored: u32, frames: u32) -> Option<u64>
    ensures { result ≡ first_failing (stored_field stored frames) }
{
    if stored > frames { Some(1552) } else { None }
}

/// The place of the first of these fields that breaks its rule: those of the records of processes, and the number of
/// frames that are stored.
fn bad_in_front(bytes: &[u8], frames: u32, stored: u32) -> Option<u64>
    requires { 1556 ≤ length bytes.now }
    ensures { result ≡ first_failing (front_fields bytes.now frames stored) }
{
    match bad_in_processes(bytes, frames) {
        Some(place) => Some(place as u64),
        None => bad_in_count(stored, frames),
    }
}

/// The place of the first field that breaks its rule.
#[tactic(auto, unfolding(crate::specs::Faults::first_bad))]
fn first_bad(bytes: &[u8], frames: u32, offers: u32, stored: u32) -> Option<u64>
    requires { length bytes.now ≡ 1556 + 16 * offers + 4116 * stored }
    ensures { result ≡ first_bad bytes.now frames offers stored }
{
    let bad = bad_in_front(bytes, frames, stored);
    if bad.is_some() {
        return bad;
    }
    let bad = bad_in_offers(bytes, offers);
    if bad.is_some() {
        return bad;
    }
    bad_in_frames(bytes, frames, 1556 + 16 * offers as usize, stored)
}

/// The first field of a front that breaks its rule, where it says that it has so many frames.
#[tactic(auto, unfolding(crate::specs::Pieces::front_bad))]
fn front_bad(bytes: &[u8], frames: u32, stored: u32) -> Option<WideImageFault>
    requires { 1556 ≤ length bytes.now }
    ensures { result ≡ front_bad bytes.now frames stored }
{
    match bad_in_front(bytes, frames, stored) {
        Some(offset) => Some(WideImageFault::BadField { offset }),
        None => None,
    }
}

/// The first fault of a front, which says that it has so many frames.
fn front_fault_with(bytes: &[u8], frames: u32) -> Option<WideImageFault>
    ensures { result ≡ front_fault_with bytes.now frames }
{
    if !is_wide_frame_count(frames) {
        return Some(WideImageFault::BadField { offset: 8 });
    }
    if bytes.len() < 1556 {
        return Some(WideImageFault::BadLength);
    }
    front_bad(bytes, frames, number_at(bytes, 1552))
}

/// Returns the first reason why bytes are no front of a snapshot, which has 1,556: the reasons of `fault_in` against
/// these, in its order. It reads none of the bytes after them.
#[tactic(auto, unfolding(crate::specs::Pieces::front_fault))]
pub(crate) fn fault_in_front(bytes: &[u8]) -> Option<WideImageFault>
    ensures { result ≡ front_fault bytes.now }
{
    if !begins_snapshot(bytes) {
        Some(WideImageFault::NotImage)
    } else if bytes.len() < 12 {
        Some(WideImageFault::BadLength)
    } else if number_at(bytes, 4) != 1 {
        Some(WideImageFault::BadVersion)
    } else {
        front_fault_with(bytes, number_at(bytes, 8))
    }
}

/// The first fault of bytes that say they have so many frames, offers and stored frames.
fn fault_by(bytes: &[u8], frames: u32, offers: u32, stored: u32) -> Option<WideImageFault>
    ensures { result ≡ fault_by bytes.now frames offers stored }
{
    if bytes.len() != 1556 + 16 * offers as usize + 4116 * stored as usize {
        return Some(WideImageFault::BadLength);
    }
    match first_bad(bytes, frames, offers, stored) {
        Some(offset) => Some(WideImageFault::BadField { offset }),
        None => None,
    }
}

/// The first fault of bytes that say they have so many frames.
fn fault_with(bytes: &[u8], frames: u32) -> Option<WideImageFault>
    ensures { result ≡ fault_with bytes.now frames }
{
    if !is_wide_frame_count(frames) {
        return Some(WideImageFault::BadField { offset: 8 });
    }
    if bytes.len() < 1556 {
        return Some(WideImageFault::BadLength);
    }
    fault_by(
        bytes,
        frames,
        number_at(bytes, 1548),
        number_at(bytes, 1552),
    )
}

/// Returns the first reason why bytes are no snapshot, apart from a lack of memory: None exactly if they encode one.
///
/// The reasons come in this order. NotImage: they don't begin with the four bytes of a snapshot. BadLength: they are
/// fewer than 12. BadVersion. BadField at 8: the number of frames isn't 16 to 1,048,576. BadLength: they are fewer than
/// 1,556, or not as many as the numbers of offers and stored frames say. BadField at the first field that breaks its
/// rule.
#[tactic(auto, unfolding(crate::specs::Faults::fault_of))]
pub fn fault_in(bytes: &[u8]) -> Option<WideImageFault>
    ensures { result ≡ fault_of bytes.now }
{
    if !begins_snapshot(bytes) {
        Some(WideImageFault::NotImage)
    } else if bytes.len() < 12 {
        Some(WideImageFault::BadLength)
    } else if number_at(bytes, 4) != 1 {
        Some(WideImageFault::BadVersion)
    } else {
        fault_with(bytes, number_at(bytes, 8))
    }
}
