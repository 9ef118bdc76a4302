//! Pages that come: of zeros, on the frame of another, and lazy ones that get their frame.

ghost use Rattle.std.specs.Prelude.{None, Option, Some, false, is_some, length, slice_get, slice_set, true, ℕ, ◌*◌, ◌+◌, ◌-◌, ◌<◌, ◌≡◌, ◌≢◌, ◌≤◌};
ghost use Rattle.address_space.specs.Below.{IsUserPage, frame_bytes, free_frames, slot_number};
ghost use Rattle.address_space.specs.Words.{CountedUp, FrameGiven, FramesStay, LiesIn, TableGot, TakesPage, at_page, directory_of, found_of, fresh, image_of, is_lazy_at, joined, need, none_goes, place_in, table_in, total_cost};
ghost use Rattle.page_words.specs.FiniteMap as map;

use crate::place::{Found, Place};
use crate::{Directories, Spaces, home, take};
use alloc_table::{FrameTable, Role};
use page_map::PageEntry;
use page_words::{Frame, Page, Pid, Size, Vaddr, WIDE_FRAMES, page_of, slot_of};
use phys_memory::Memory;

impl Spaces {
    /// Maps a page of zeros, as `map_zero` does, whose place this is: the place that it is at then.
    #[inline(always)]
    pub fn map_at(&mut self, pid: Pid, page: Page, write: bool, place: &Place) -> Place
        requires live { is_some (directory_of self.old.directories pid) ≡ true }
        requires user { IsUserPage page }
        requires unmapped { map.get self.old.spaces (at_page pid page) ≡ None }
        requires room { 1 + total_cost self.old.directories self.old.spaces + need self.old.spaces pid page
            ≤ length self.old.roles }
        requires place { place.now ≡ place_in self.old.directories self.old.bytes pid page }
        ensures spaces { self.new.spaces ≡ map.insert self.old.spaces (at_page pid page)
            (fresh (at_page pid page) write) }
        ensures stay { FramesStay none_goes (image_of self.old) (image_of self.new) }
        ensures lazy { is_lazy_at (image_of self.new) (at_page pid page) ≡ true }
        ensures directories { self.new.directories ≡ self.old.directories }
        ensures frames { length self.new.roles ≡ length self.old.roles }
        ensures place { result ≡ place_in self.new.directories self.new.bytes pid page }
        ensures beside { (p other : ℕ) → at_page p other ≢ at_page pid page
            → is_some (found_of (place_in self.old.directories self.old.bytes p other)) ≡ true
            → place_in self.new.directories self.new.bytes p other
            ≡ place_in self.old.directories self.old.bytes p other }
    {
        let all = &self.directories;
        let linked = place.table();
        let table = give_table(linked, &mut self.memory, &mut self.frames, all, pid, page);
        count_page(&mut self.counts, table);
        let entry = untouched(Frame(0), write, true, true);
        let found = Found { page, table, entry };
        page_map::put_entry(&mut self.memory, table, page, found.entry);
        Place::Mapped(found)
    }

    /// Maps a page of zeros, which is lazy: it takes no frame but one for its table, where that is missing.
    pub fn map_zero(&mut self, pid: Pid, page: Page, write: bool)
        requires live { is_some (directory_of self.old.directories pid) ≡ true }
        requires user { IsUserPage page }
        requires unmapped { map.get self.old.spaces (at_page pid page) ≡ None }
        requires room { 1 + total_cost self.old.directories self.old.spaces + need self.old.spaces pid page
            ≤ length self.old.roles }
        ensures spaces { self.new.spaces ≡ map.insert self.old.spaces (at_page pid page)
            (fresh (at_page pid page) write) }
        ensures stay { FramesStay none_goes (image_of self.old) (image_of self.new) }
        ensures lazy { is_lazy_at (image_of self.new) (at_page pid page) ≡ true }
        ensures directories { self.new.directories ≡ self.old.directories }
        ensures frames { length self.new.roles ≡ length self.old.roles }
    {
        let place = self.place(pid, page);
        self.map_at(pid, page, write, &place);
    }

    /// Lets a slot join the group of another, as `join` does, whose places these are.
    #[inline(always)]
    pub fn join_at(
        &mut self,
        giver: Pid,
        giver_page: Page,
        given: &Place,
        pid: Pid,
        page: Page,
        own: &Place,
        right: bool,
    )
        requires given { is_some (map.get self.old.spaces (at_page giver giver_page)) ≡ true }
        requires from { IsUserPage giver_page }
        requires live { is_some (directory_of self.old.directories pid) ≡ true }
        requires user { IsUserPage page }
        requires unmapped { map.get self.old.spaces (at_page pid page) ≡ None }
        requires real { is_lazy_at (image_of self.old) (at_page giver giver_page) ≡ false }
        requires room { 1 + total_cost self.old.directories self.old.spaces + need self.old.spaces pid page
            ≤ length self.old.roles }
        requires place { given.now ≡ place_in self.old.directories self.old.bytes giver giver_page }
        requires own { own.now ≡ place_in self.old.directories self.old.bytes pid page }
        ensures spaces { self.new.spaces ≡ joined self.old.spaces (at_page giver giver_page) (at_page pid page) right }
        ensures stay { FramesStay none_goes (image_of self.old) (image_of self.new) }
        ensures directories { self.new.directories ≡ self.old.directories }
        ensures frames { length self.new.roles ≡ length self.old.roles }
    {
        let _ = &self.memory;
        let found = given.found().unwrap();
        let frame = found.entry.frame;
        let all = &self.directories;
        let linked = own.table();
        let table = give_table(linked, &mut self.memory, &mut self.frames, all, pid, page);
        count_page(&mut self.counts, table);
        self.frames.hold(frame);
        let entry = untouched(frame, right, right, false);
        page_map::put_entry(&mut self.memory, table, page, entry);
    }

    /// Lets a slot join the group of another.
    pub fn join(&mut self, giver: Pid, giver_page: Page, pid: Pid, page: Page, right: bool)
        requires given { is_some (map.get self.old.spaces (at_page giver giver_page)) ≡ true }
        requires from { IsUserPage giver_page }
        requires live { is_some (directory_of self.old.directories pid) ≡ true }
        requires user { IsUserPage page }
        requires unmapped { map.get self.old.spaces (at_page pid page) ≡ None }
        requires real { is_lazy_at (image_of self.old) (at_page giver giver_page) ≡ false }
        requires room { 1 + total_cost self.old.directories self.old.spaces + need self.old.spaces pid page
            ≤ length self.old.roles }
        ensures spaces { self.new.spaces ≡ joined self.old.spaces (at_page giver giver_page) (at_page pid page) right }
        ensures stay { FramesStay none_goes (image_of self.old) (image_of self.new) }
        ensures directories { self.new.directories ≡ self.old.directories }
        ensures frames { length self.new.roles ≡ length self.old.roles }
    {
        let given = self.place(giver, giver_page);
        let own = self.place(pid, page);
        self.join_at(giver, giver_page, &given, pid, page, &own, right);
    }
}

/// The table of a page's region, where it has one; else a blank one is linked.
#[inline(always)]
pub fn give_table(
    linked: Option<Frame>,
    memory: &mut Memory,
    frames: &mut FrameTable,
    directories: &Directories,
    pid: Pid,
    page: Page,
) -> Frame
    requires takes { TakesPage directories.now memory.old frames.old pid page }
    requires linked { linked ≡ table_in (directory_of directories.now) (frame_bytes memory.old) pid (slot_number page) }
    ensures { TableGot directories.now memory.old frames.old pid page result memory.new frames.new }
{
    if let Some(table) = linked {
        return table;
    }
    link_new(memory, frames, directories, pid, page)
}

/// Links a blank table for a page's region, which has none: only then its process's directory is looked up.
#[inline(never)]
fn link_new(
    memory: &mut Memory,
    frames: &mut FrameTable,
    directories: &Directories,
    pid: Pid,
    page: Page,
) -> Frame
    requires takes { TakesPage directories.now memory.old frames.old pid page }
    requires none { table_in (directory_of directories.now) (frame_bytes memory.old) pid (slot_number page) ≡ None }
    ensures { TableGot directories.now memory.old frames.old pid page result memory.new frames.new }
{
    let directory = home(directories, pid);
    let slot = slot_of(page);
    let table = take(frames, Role::Table { pid, slot });
    page_map::link_table(memory, directory, slot, table);
    table
}

/// The entry of a page that was not accessed yet.
fn untouched(frame: Frame, write: bool, may: bool, lazy: bool) -> PageEntry
    ensures { result ≡ record {
      frame = frame;
      write = write;
      may = may;
      accessed = false;
      dirty = false;
      lazy = lazy;
    } }
{
    PageEntry {
        frame,
        write,
        may,
        accessed: false,
        dirty: false,
        lazy,
    }
}

/// Gives a page a frame of zeros of its own: the entry that it has then.
pub fn give_frame(memory: &mut Memory, frames: &mut FrameTable, found: &Found) -> PageEntry
    requires lies { LiesIn memory.old found.now }
    requires size { length memory.old ≡ 4096 * length frames.old }
    requires few { length frames.old ≤ WIDE_FRAMES }
    requires free { 0 < free_frames frames.old }
    ensures { FrameGiven memory.old frames.old found.now result memory.new frames.new }
{
    let frame = take(frames, Role::Page { count: 1 });
    memory.zero_frame(frame);
    let mut given = *found;
    given.entry.frame = frame;
    given.entry.lazy = false;
    page_map::put_entry(memory, found.table, found.page, given.entry);
    given.entry
}

/// Returns how many pages a frame maps as a table.
pub fn count_at(counts: &Vec<u32>, table: Frame) -> u32
    requires { table < length counts.now.items }
    ensures { slice_get counts.now.items table ≡ Some result }
{
    counts[table.0 as usize]
}

/// Sets the count of a table.
pub fn set_count(counts: &mut Vec<u32>, table: Frame, count: u32)
    requires { table < length counts.old.items }
    ensures { counts.new.items ≡ slice_set counts.old.items table count }
{
    counts[table.0 as usize] = count;
}

/// Counts a page that a table is going to map.
pub fn count_page(counts: &mut Vec<u32>, table: Frame)
    requires inside { table < length counts.old.items }
    requires few { (n : ℕ) → slice_get counts.old.items table ≡ Some n → n ≤ 1024 }
    ensures { CountedUp counts.old.items table counts.new.items }
{
    let count = count_at(counts, table);
    set_count(counts, table, count + 1);
}

/// Takes a page that is going to be unmapped off its table's count, and says how many pages the table maps, this
/// one among them.
pub fn uncount_page(counts: &mut Vec<u32>, table: Frame) -> u32
    requires inside { table < length counts.old.items }
    requires some { (n : ℕ) → slice_get counts.old.items table ≡ Some n → 1 ≤ n }
    ensures mapped { slice_get counts.old.items table ≡ Some result }
    ensures left { counts.new.items ≡ slice_set counts.old.items table (result - 1) }
{
    let count = count_at(counts, table);
    set_count(counts, table, count - 1);
    count
}
