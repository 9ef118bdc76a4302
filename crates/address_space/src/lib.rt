//! The address spaces of all processes over one memory.
//!
//! A space is seen as slots, cells and groups (specs/Spaces.antt). It is kept as a directory and tables
//! of real page words, page frames, and a role for each frame. Each call leaves exactly the spaces that
//! the definitions say, and under its condition it succeeds: a frame is found wherever the sum of the
//! costs allows.
#![tactic(auto)]

ghost use Rattle.std.specs.Prelude.{◌≡◌, ◌↔◌, IfOk, IsErrOf, replicate, ℕ, ◌+◌, ◌*◌, ◌<◌, ◌≤◌, Some, None, length, slice_get, is_some, true};
ghost use Rattle.address_space.specs.Below.{blank_bytes, free_frames, CanBeTaken, IsTaken, opening_roles};
ghost use Rattle.address_space.specs.Words.{accessed, cost, StandsFor, StandsForOne, LeavesRoom, image_of, WaysAgree, PlacesTell, WalksAgree, directory_of, spaces_in, total_cost};
ghost use Rattle.page_words.specs.FiniteMap as map;

mod accesses;
mod charges;
mod copies;
mod mapping;
mod parts;
mod place;
mod processor;
mod restoring;
mod unmapping;

use alloc_table::{FrameTable, Role};
use page_words::{
    Frame, MachineFault, Pid, Size, Vaddr, WIDE_FRAMES, WideFault, is_frame_count, page_of,
    second_page, start_of,
};
use phys_memory::Memory;
pub use place::{Found, Place};
pub use restoring::have_places;
use std::alloc::Global;
use std::marker::Model;

/// The directory of each process, where it has one.
type Directories = [Option<Frame>; 64];

/// The address spaces, by directories, memory and roles.
#[derive(Drop)]
pub struct Spaces {
    memory: Memory,
    frames: FrameTable,
    directories: Directories,
    /// For each frame how many pages it maps, as a table.
    counts: Vec<u32>,
}

impl Model for Spaces {
    ghost use Rattle.address_space.specs.View.{View, view_code, spaces_in};
    ghost use Rattle.address_space.specs.Counts.{AreCountedSpaces};

    ghost Value = { View };

    ghost coded = { view_code };

    ghost view = { λ s. record {
      spaces = spaces_in s.directories s.memory;
      directories = s.directories;
      bytes =
          s.memory;
      roles = s.frames;
    } };

    ghost invariant = { λ s. AreCountedSpaces s.directories s.memory s.frames s.counts.items };
}

/// A frame for a role, where one is free.
fn take(frames: &mut FrameTable, role: Role) -> Frame
    requires free { 0 < free_frames frames.old }
    requires role { CanBeTaken role }
    ensures { IsTaken frames.old result role frames.new }
{
    frames.take(role).unwrap()
}

/// The directory of a process, where it has one.
fn space_of(directories: &Directories, pid: Pid) -> Option<Frame>
    ensures { result ≡ directory_of directories.now pid }
{
    directories[pid.number() as usize]
}

/// The directory of a process that has one.
fn home(directories: &Directories, pid: Pid) -> Frame
    requires { is_some (directory_of directories.now pid) ≡ true }
    ensures { directory_of directories.now pid ≡ Some result }
{
    directories[pid.number() as usize].unwrap()
}

/// Address spaces over blank memory, without any space.
fn opened(memory: Memory, table: FrameTable, counts: Vec<u32>, frames: u32) -> Spaces
    requires memory { memory ≡ blank_bytes frames }
    requires roles { table ≡ opening_roles frames }
    requires counts { counts.items ≡ replicate frames 0 }
    requires least { 16 ≤ frames }
    requires most { frames ≤ WIDE_FRAMES }
    ensures spaces { result.spaces ≡ map.empty }
    ensures directories { result.directories ≡ replicate 64 None }
    ensures roles { result.roles ≡ opening_roles frames }
    ensures frames { length result.roles ≡ frames }
    ensures costs { total_cost result.directories result.spaces ≡ 0 }
{
    Spaces {
        memory,
        frames: table,
        directories: [None; 64],
        counts,
    }
}

/// What a process has at a mapped page, as `Spaces::cell` returns it.
#[derive(Clone, Copy, Debug, PartialEq, Eq)]
pub struct Cell {
    /// The process may write now.
    pub write: bool,
    /// The process may make the page writable.
    pub may: bool,
    /// An access has completed through this slot.
    pub accessed: bool,
    /// A store has completed through this slot.
    pub dirty: bool,
    /// How many slots the page's group has, this one among them.
    pub holders: u32,
}

impl Spaces {
    /// Address spaces over that many frames of zeros, 16 to 4,096, without any space.
    ///
    /// BadSize for another number of frames, else NoMemory where there is none for the frames, for their
    /// roles or for the counts of their pages.
    pub fn new(alloc: Global, frames: u32) -> Result<Spaces, MachineFault>
        ensures spaces { IfOk result (λ new. new.spaces ≡ map.empty) }
        ensures directories { IfOk result (λ new. new.directories ≡ replicate 64 None) }
        ensures roles { IfOk result (λ new. new.roles ≡ opening_roles frames) }
        ensures frames { IfOk result (λ new. length new.roles ≡ frames) }
        ensures costs { IfOk result (λ new. total_cost new.directories new.spaces ≡ 0) }
        ensures size { IsErrOf result MachineFault.BadSize ↔ (16 ≤ frames → frames ≤ 4096 → ⊥) }
    {
        if !is_frame_count(frames) {
            return Err(MachineFault::BadSize);
        }
        Ok(Spaces::wide(alloc, frames)?)
    }

    /// As `new`, over up to 1,048,576 frames: BadSize for another number than 16 to 1,048,576.
    pub fn wide(alloc: Global, frames: u32) -> Result<Spaces, WideFault>
        ensures spaces { IfOk result (λ new. new.spaces ≡ map.empty) }
        ensures directories { IfOk result (λ new. new.directories ≡ replicate 64 None) }
        ensures roles { IfOk result (λ new. new.roles ≡ opening_roles frames) }
        ensures frames { IfOk result (λ new. length new.roles ≡ frames) }
        ensures costs { IfOk result (λ new. total_cost new.directories new.spaces ≡ 0) }
        ensures size { IsErrOf result WideFault.BadSize ↔ (16 ≤ frames → frames ≤ WIDE_FRAMES → ⊥) }
    {
        let memory = Memory::wide(alloc, frames)?;
        let table = FrameTable::wide(alloc, frames)?;
        let Ok(counts) = vec![in alloc; 0u32; frames as usize] else {
            return Err(WideFault::NoMemory);
        };
        Ok(opened(memory, table, counts, frames))
    }

    /// The memory: 4,096 bytes for each frame.
    pub fn memory(&self) -> &Memory
        ensures { result.now ≡ self.now.bytes }
    {
        &self.memory
    }

    /// How many frames the memory has.
    pub fn frames(&self) -> u32
        ensures roles { length self.now.roles ≡ result }
        ensures bytes { length self.now.bytes ≡ 4096 * result }
        ensures least { 16 ≤ result }
        ensures most { result ≤ WIDE_FRAMES }
    {
        self.memory.frames()
    }

    /// The frame of a process's directory; None where it has no space.
    pub fn directory(&self, pid: Pid) -> Option<Frame>
        ensures { result ≡ directory_of self.now.directories pid }
    {
        space_of(&self.directories, pid)
    }

    /// What a frame serves.
    pub fn role(&self, frame: Frame) -> Role
        requires { frame < length self.now.roles }
        ensures { slice_get self.now.roles frame ≡ Some result }
    {
        self.frames.role(frame)
    }

    /// What each frame serves, by number.
    pub fn roles(&self) -> &[Role]
        ensures { result.now ≡ self.now.roles }
    {
        self.frames.roles()
    }

    /// What memory's own words say of these spaces, that their costs leave frame 0 alone, and that the
    /// frames in use and the lazy pages are together no more than they cost. It computes nothing.
    pub fn stands(&self)
        ensures image { StandsFor (image_of self.now) self.now.spaces }
        ensures walks { WalksAgree (image_of self.now) self.now.spaces }
        ensures ways { WaysAgree (image_of self.now) }
        ensures costs { 1 + total_cost self.now.directories self.now.spaces ≤ length self.now.roles }
        ensures each { (p : ℕ) → is_some (directory_of self.now.directories p) ≡ true
            → 1 + cost self.now.spaces p ≤ length self.now.roles }
        ensures few { length self.now.roles ≤ WIDE_FRAMES }
        ensures pids { length self.now.directories ≡ 64 }
        ensures used { LeavesRoom (image_of self.now) (total_cost self.now.directories self.now.spaces) }
        ensures places { PlacesTell (image_of self.now) self.now.spaces }
    {
        let _ = &self.memory;
    }
}

/// States that an image represents at most one set of spaces. It computes nothing.
pub fn images_stand_for_one()
    ensures { StandsForOne }
{}
