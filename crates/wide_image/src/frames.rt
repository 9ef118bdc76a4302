//! The frames of a snapshot, as they are read one after the other.

ghost use Rattle.std.specs.Prelude.{◌≡◌, ◌+◌, ◌-◌, ◌*◌, ◌<◌, ◌≤◌, ◌++◌, ◌∷◌, [], true, None, IfSome, length, replicate, slice_index, ℕ, take, drop, vec_capacity};
ghost use Rattle.phys_memory.specs.Bytes.{word_at};
ghost use Rattle.alloc_table.specs.declared.Role.TheVariants.{Free};
ghost use Rattle.wide_image.specs.Faults.{bad_frame};
ghost use Rattle.wide_image.specs.Reading.{AreFrames, AreRead, HasOwner, role_at};

use alloc_table::Role;
use memory_image::number_at;
use page_words::Pid;
use std::alloc::Global;

/// The number of a process at a place.
pub(crate) fn pid_at(bytes: &[u8], at: usize) -> Pid
    requires inside { at + 4 ≤ length bytes.now }
    requires small { word_at bytes.now at < 64 }
    ensures { result ≡ word_at bytes.now at }
{
    Pid::new(number_at(bytes, at) as u8).unwrap()
}

/// The 4,096 bytes from a place on.
pub(crate) fn part_at(bytes: &[u8], at: usize) -> &[u8]
    requires { at + 4096 ≤ length bytes.now }
    ensures { result.now ≡ take 4096 (drop at bytes.now) }
{
    &bytes[at..at + 4096]
}

/// The role in the frame's record at a place.
fn role_at(bytes: &[u8], at: usize) -> Role
    requires inside { at + 20 ≤ length bytes.now }
    requires owner { HasOwner bytes.now at }
    ensures { result ≡ role_at bytes.now at }
{
    match number_at(bytes, at + 4) {
        0 => Role::Reserved,
        1 => Role::Free,
        2 => Role::Directory {
            pid: pid_at(bytes, at + 8),
        },
        3 => Role::Table {
            pid: pid_at(bytes, at + 8),
            slot: number_at(bytes, at + 12),
        },
        _ => Role::Page {
            count: number_at(bytes, at + 16),
        },
    }
}

/// Fills up with free frames, which hold zeros, to so many. Whether there was memory.
pub(crate) fn fill_to(roles: &mut Vec<Role>, store: &mut Vec<u8>, frames: u32) -> bool
    requires most { length roles.old.items ≤ frames }
    requires size { length store.old.items ≡ 4096 * length roles.old.items }
    ensures roles { result ≡ true → roles.new.items
        ≡ roles.old.items ++ replicate (frames - length roles.old.items) Free }
    ensures store { result ≡ true → store.new.items
        ≡ store.old.items ++ replicate (4096 * (frames - length roles.old.items)) 0 }
    ensures room { frames ≤ vec_capacity roles.old → 4096 * frames ≤ vec_capacity store.old → result ≡ true }
    ensures more { (vec_capacity roles.old ≤ vec_capacity roles.new) × (vec_capacity store.old
        ≤ vec_capacity store.new) }
{
    let count = frames as usize;
    roles.resize(count, Role::Free).is_ok() && store.resize(4096 * count, 0).is_ok()
}

/// Adds a frame, after free ones up to it. Whether there was memory.
fn add_frame(
    roles: &mut Vec<Role>,
    store: &mut Vec<u8>,
    frame: u32,
    role: Role,
    part: &[u8],
) -> bool
    requires from { length roles.old.items ≤ frame }
    requires size { length store.old.items ≡ 4096 * length roles.old.items }
    ensures roles { result ≡ true → roles.new.items
        ≡ roles.old.items ++ (replicate (frame - length roles.old.items) Free ++ role ∷ []) }
    ensures store { result ≡ true → store.new.items
        ≡ store.old.items ++ (replicate (4096 * (frame - length roles.old.items)) 0 ++ part.now) }
    ensures room { frame + 1 ≤ vec_capacity roles.old → 4096 * frame + length part.now ≤ vec_capacity store.old
        → result ≡ true }
    ensures more { (vec_capacity roles.old ≤ vec_capacity roles.new) × (vec_capacity store.old
        ≤ vec_capacity store.new) }
{
    fill_to(roles, store, frame)
        && roles.push(role).is_ok()
        && store.extend_from_slice(part).is_ok()
}

/// Adds the frame whose record is at a place. Whether there was memory.
pub(crate) fn read_frame(
    roles: &mut Vec<Role>,
    store: &mut Vec<u8>,
    bytes: &[u8],
    at: usize,
) -> bool
    requires inside { at + 4116 ≤ length bytes.now }
    requires owner { HasOwner bytes.now at }
    requires from { length roles.old.items ≤ word_at bytes.now at }
    requires size { length store.old.items ≡ 4096 * length roles.old.items }
    ensures roles { result ≡ true → roles.new.items ≡ roles.old.items
        ++ (replicate (word_at bytes.now at - length roles.old.items) Free ++ role_at bytes.now at ∷ []) }
    ensures store { result ≡ true → store.new.items ≡ store.old.items
        ++ (replicate (4096 * (word_at bytes.now at - length roles.old.items)) 0
        ++ take 4096 (drop (at + 20) bytes.now)) }
    ensures room { word_at bytes.now at + 1 ≤ vec_capacity roles.old
        → 4096 * (word_at bytes.now at + 1) ≤ vec_capacity store.old → result ≡ true }
    ensures more { (vec_capacity roles.old ≤ vec_capacity roles.new) × (vec_capacity store.old
        ≤ vec_capacity store.new) }
{
    let frame = number_at(bytes, at);
    let role = role_at(bytes, at);
    add_frame(roles, store, frame, role, part_at(bytes, at + 20))
}

/// Each byte is less than 256. It computes nothing.
pub(crate) fn are_small(bytes: &[u8])
    ensures { (i : ℕ) → slice_index bytes.now i < 256 }
{
    let _ = bytes;
}

/// Roles and bytes of all frames, by so many records, of which the first begins at a place.
pub(crate) fn frames_in(
    alloc: Global,
    bytes: &[u8],
    frames: u32,
    start: usize,
    count: u32,
) -> Option<(Vec<Role>, Vec<u8>)>
    requires long { start + 4116 * count ≤ length bytes.now }
    requires few { frames ≤ 1048576 }
    requires kept { bad_frame bytes.now frames 0 start count ≡ None }
    ensures { IfSome result (λ read. AreFrames bytes.now frames start count read.0.items read.1.items) }
{
    let Ok(mut roles) = Vec::with_capacity(alloc, frames as usize) else {
        return None;
    };
    let Ok(mut store) = Vec::with_capacity(alloc, 4096 * frames as usize) else {
        return None;
    };
    for number in 0..count {
        let at = start + 4116 * number as usize;
        let added = read_frame(&mut roles, &mut store, bytes, at);
        if !added {
            return None;
        }
    }
    let filled = fill_to(&mut roles, &mut store, frames);
    if !filled {
        return None;
    }
    are_small(store.as_slice());
    Some((roles, store))
}
