//! Address spaces from what an image has of memory: directories, bytes and roles.

ghost use Rattle.std.specs.Prelude.{IfErr, IfOk, IfSome, Some, length, map, ◌*◌, ◌+◌, ◌<◌, ◌≡◌, ◌≤◌};
ghost use Rattle.std.specs.List.{range_with_len};
ghost use Rattle.address_space.specs.Words.{HasRoom, IsSoundImage, StandsFor, counted_at, image_from, view_from, words_by};

use crate::{Directories, Spaces};
use alloc_table::{FrameTable, Role};
use page_map::words_present;
use page_words::{Frame, MachineFault, WIDE_FRAMES};
use phys_memory::Memory;
use std::alloc::Global;

/// How many words of a frame are present, where it is a table.
fn words_of(memory: &Memory, frame: Frame, role: Role) -> u32
    requires { 4096 * frame + 4096 ≤ length memory.now }
    ensures { result ≡ words_by memory.now frame role }
{
    match role {
        Role::Table { .. } => words_present(memory, frame),
        Role::Reserved => 0,
        Role::Free => 0,
        Role::Directory { .. } => 0,
        Role::Page { .. } => 0,
    }
}

/// How many words of each frame are present, where it is a table.
fn counts_of(alloc: Global, memory: &Memory, roles: &[Role]) -> Option<Vec<u32>>
    requires size { length memory.now ≡ 4096 * length roles.now }
    requires most { length roles.now ≤ WIDE_FRAMES }
    ensures { IfSome result (λ counts. counts.items
        ≡ map (counted_at memory.now roles.now) (range_with_len 0 (length roles.now))) }
{
    let frames = roles.len();
    let Ok(mut counts) = Vec::with_capacity(alloc, frames) else {
        return None;
    };
    for place in 0..frames {
        let count = words_of(memory, Frame(place as u32), roles[place]);
        let Ok(()) = counts.push(count) else {
            return None;
        };
    }
    Some(counts)
}

/// States that there is a place for each process. It computes nothing.
pub fn have_places(directories: &Directories)
    ensures { length directories.now ≡ 64 }
{
    let _ = directories;
}

impl Spaces {
    /// The address spaces that directories, bytes and roles represent: a sound image of 16 to 1,048,576 frames, whose
    /// processes cost no more than all frames except frame 0.
    ///
    /// NoMemory where there is none for the counts of the pages or for the ledger of the free frames.
    pub fn of_image(
        alloc: Global,
        directories: Directories,
        bytes: Vec<u8>,
        roles: Vec<Role>,
    ) -> Result<Spaces, MachineFault>
        requires fewest { 16 ≤ length roles.items }
        requires most { length roles.items ≤ WIDE_FRAMES }
        requires sound { IsSoundImage (image_from directories bytes.items roles.items) }
        requires room { HasRoom directories bytes.items roles.items }
        ensures view { IfOk result (λ new. new ≡ view_from directories bytes.items roles.items) }
        ensures stands { IfOk result (λ new. StandsFor (image_from directories bytes.items roles.items) new.spaces) }
        ensures fault { IfErr result (λ fault. fault ≡ MachineFault.NoMemory) }
    {
        have_places(&directories);
        let memory = Memory::of_bytes(bytes, roles.len() as u32);
        let Some(counts) = counts_of(alloc, &memory, roles.as_slice()) else {
            return Err(MachineFault::NoMemory);
        };
        let frames = FrameTable::of_roles(alloc, roles)?;
        Ok(Spaces {
            memory,
            frames,
            directories,
            counts,
        })
    }
}
