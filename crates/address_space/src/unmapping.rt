//! Pages and whole spaces that go, and the blank directory that a process begins with.

ghost use Rattle.std.specs.Prelude.{IfNone, IfSome, None, Some, false, is_some, length, true, ℕ, ◌*◌, ◌+◌, ◌<◌, ◌≡◌, ◌≢◌, ◌≤◌, ◌⊎◌};
ghost use Rattle.address_space.specs.Below.{IsInUse, IsPageMap, IsUserPage, frame_bytes, table_of};
ghost use Rattle.address_space.specs.Words.{DroppedBelow, EntryGone, EntryLeft, FramesStay, IsEmptySpace, LooseStay, Slot, TableFreed, View, at_page, cost, directory_of, found_in, image_of, is_lazy_at, is_of, is_slot, none_goes, of_page, of_process, place_in, total_cost, without};
ghost use Rattle.page_words.specs.FiniteMap as map;

use crate::charges::relief;
use crate::copies::next_left;
use crate::mapping::{count_at, uncount_page};
use crate::place::{Found, Place};
use crate::{Spaces, home, take};
use alloc_table::{FrameTable, Role};
use page_map::{FIRST_SLOT, PageEntry, Region};
use page_words::{Frame, Page, Pid};
use phys_memory::Memory;

/// Frees a table that was unlinked.
pub fn free_table(frames: &mut FrameTable, freed: Option<Frame>)
    requires { (t : ℕ) → freed ≡ Some t → IsInUse frames.old t }
    ensures { TableFreed frames.old freed frames.new }
{
    if let Some(table) = freed {
        frames.release(table);
    }
}

/// Releases the frame of an entry that went, where it had one of its own.
pub fn leave(frames: &mut FrameTable, entry: PageEntry)
    requires { entry.lazy ≡ false → IsInUse frames.old entry.frame }
    ensures { EntryLeft frames.old entry frames.new }
{
    if !entry.lazy {
        frames.release(entry.frame);
    }
}

impl Spaces {
    /// Takes a slot out of its group, by its process's directory and what was found at the page. The result is what the
    /// process's cost falls by.
    #[inline(always)]
    fn unmap_found(&mut self, pid: Pid, page: Page, directory: Frame, found: &Found) -> u32
        requires home { directory_of self.old.directories pid ≡ Some directory }
        requires user { IsUserPage page }
        requires found { found_in (directory_of self.old.directories) (frame_bytes self.old.bytes) pid page
            ≡ Some found.now }
        ensures spaces { self.new.spaces ≡ without self.old.spaces (is_slot pid page) }
        ensures relief { cost self.new.spaces pid + result ≡ cost self.old.spaces pid }
        ensures stay { FramesStay (of_page pid page) (image_of self.old) (image_of self.new) }
        ensures loose { LooseStay (image_of self.old) (image_of self.new) }
        ensures words { EntryGone (frame_bytes self.old.bytes) directory found.now.table page
            (frame_bytes self.new.bytes) }
        ensures long { length self.new.bytes ≡ length self.old.bytes }
        ensures directories { self.new.directories ≡ self.old.directories }
        ensures frames { length self.new.roles ≡ length self.old.roles }
    {
        let _ = &self.memory;
        let mapped = uncount_page(&mut self.counts, found.table);
        let freed = page_map::clear_found_entry(
            &mut self.memory,
            directory,
            found.table,
            page,
            mapped,
        );
        leave(&mut self.frames, found.entry);
        free_table(&mut self.frames, freed);
        relief(mapped)
    }

    /// Takes a slot out of its group, whose place this is.
    #[inline(always)]
    pub fn unmap_at(&mut self, pid: Pid, page: Page, place: &Place)
        requires mapped { is_some (map.get self.old.spaces (at_page pid page)) ≡ true }
        requires user { IsUserPage page }
        requires place { place.now ≡ place_in self.old.directories self.old.bytes pid page }
        ensures spaces { self.new.spaces ≡ without self.old.spaces (is_slot pid page) }
        ensures stay { FramesStay (of_page pid page) (image_of self.old) (image_of self.new) }
        ensures loose { LooseStay (image_of self.old) (image_of self.new) }
        ensures directories { self.new.directories ≡ self.old.directories }
        ensures frames { length self.new.roles ≡ length self.old.roles }
    {
        let _ = &self.memory;
        let found = place.found().unwrap();
        let directory = home(&self.directories, pid);
        self.unmap_found(pid, page, directory, &found);
    }

    /// Takes a slot out of its group.
    pub fn unmap(&mut self, pid: Pid, page: Page)
        requires mapped { is_some (map.get self.old.spaces (at_page pid page)) ≡ true }
        requires user { IsUserPage page }
        ensures spaces { self.new.spaces ≡ without self.old.spaces (is_slot pid page) }
        ensures stay { FramesStay (of_page pid page) (image_of self.old) (image_of self.new) }
        ensures loose { LooseStay (image_of self.old) (image_of self.new) }
        ensures directories { self.new.directories ≡ self.old.directories }
        ensures frames { length self.new.roles ≡ length self.old.roles }
    {
        let place = self.place(pid, page);
        self.unmap_at(pid, page, &place);
    }

    /// Gives a process an empty space: a blank directory. The lazy slots stay those that were lazy.
    pub fn fresh(&mut self, pid: Pid)
        requires none { directory_of self.old.directories pid ≡ None }
        requires room { 2 + total_cost self.old.directories self.old.spaces ≤ length self.old.roles }
        ensures spaces { self.new.spaces ≡ self.old.spaces }
        ensures stay { FramesStay none_goes (image_of self.old) (image_of self.new) }
        ensures lazy { (slot : Slot) → is_lazy_at (image_of self.new) slot ≡ is_lazy_at (image_of self.old) slot }
        ensures costs { total_cost self.new.directories self.new.spaces
            ≡ total_cost self.old.directories self.old.spaces + 1 }
        ensures live { is_some (directory_of self.new.directories pid) ≡ true }
        ensures others { (other : ℕ) → other ≢ pid → directory_of self.new.directories other
            ≡ directory_of self.old.directories other }
        ensures frames { length self.new.roles ≡ length self.old.roles }
    {
        let directory = take(&mut self.frames, Role::Directory { pid });
        self.memory.zero_frame(directory);
        self.directories[pid.number() as usize] = Some(directory);
    }
}

/// The next region of a directory from a slot on, if its tables and pages from there on are so many. If there are none,
/// it reads no word and returns None.
pub fn region_left(memory: &Memory, directory: Frame, first: u32, left: u32) -> Option<Region>
    requires { IsPageMap memory.now directory }
    ensures within { IfSome result (λ region. (first ≤ region.slot) × (region.slot < 960)) }
    ensures table { IfSome result (λ region. table_of (frame_bytes memory.now) directory region.slot
        ≡ Some region.table) }
    ensures least { IfSome result (λ region. (slot : ℕ) → first ≤ slot → slot < region.slot
        → table_of (frame_bytes memory.now) directory slot ≡ None) }
    ensures none { IfNone result ((left ≡ 0) ⊎ ((slot : ℕ) → first ≤ slot → slot < 960
        → table_of (frame_bytes memory.now) directory slot ≡ None)) }
{
    if left == 0 {
        return None;
    }
    page_map::next_region(memory, directory, first)
}

impl Spaces {
    /// Takes each page of a region out of its group, by the table that the process has there. It reads each word of the
    /// table up to the last that is present once. The process is charged for `used` before, and for the result then.
    fn drop_region(&mut self, pid: Pid, directory: Frame, slot: u32, table: Frame, used: u32) -> u32
        requires home { directory_of self.old.directories pid ≡ Some directory }
        requires table { table_of (frame_bytes self.old.bytes) directory slot ≡ Some table }
        requires low { 256 ≤ slot }
        requires high { slot < 960 }
        requires used { used ≡ cost self.old.spaces pid }
        ensures used { result ≡ cost self.new.spaces pid }
        ensures dropped { (v : View) → DroppedBelow v pid (1024 * slot) self.old
            → DroppedBelow v pid (1024 * slot + 1024) self.new }
        ensures directories { self.new.directories ≡ self.old.directories }
    {
        let mut used = used;
        let mut left = count_at(&self.counts, table);
        let mut index = 0;
        while let Some(listed) = next_left(&self.memory, table, index, left) {
            let page = Page(1024 * slot + listed.index);
            let entry = listed.entry;
            let found = Found { page, table, entry };
            used -= self.unmap_found(pid, page, directory, &found);
            index = listed.index + 1;
            left -= 1;
        }
        used
    }

    /// Takes each page of a process out of its group, region by region. It reads each directory word of the user range
    /// once, up to that of the last region. The process is charged for `used`.
    fn drop_pages(&mut self, pid: Pid, directory: Frame, used: u32)
        requires home { directory_of self.old.directories pid ≡ Some directory }
        requires used { used ≡ cost self.old.spaces pid }
        ensures spaces { self.new.spaces ≡ without self.old.spaces (is_of pid) }
        ensures stay { FramesStay (of_process pid) (image_of self.old) (image_of self.new) }
        ensures loose { LooseStay (image_of self.old) (image_of self.new) }
        ensures empty { IsEmptySpace self.new.spaces pid }
        ensures directories { self.new.directories ≡ self.old.directories }
        ensures frames { length self.new.roles ≡ length self.old.roles }
    {
        let _ = &self.memory;
        let mut used = used;
        let mut first = FIRST_SLOT;
        while let Some(region) = region_left(
            &self.memory,
            directory,
            first,
            used.saturating_sub(1),
        ) {
            used = self.drop_region(pid, directory, region.slot, region.table, used);
            first = region.slot + 1;
        }
    }

    /// Takes away a directory that maps no page.
    fn drop_directory(&mut self, pid: Pid, directory: Frame)
        requires live { directory_of self.old.directories pid ≡ Some directory }
        requires empty { IsEmptySpace self.old.spaces pid }
        ensures spaces { self.new.spaces ≡ self.old.spaces }
        ensures stay { FramesStay (of_process pid) (image_of self.old) (image_of self.new) }
        ensures loose { LooseStay (image_of self.old) (image_of self.new) }
        ensures none { directory_of self.new.directories pid ≡ None }
        ensures others { (other : ℕ) → other ≢ pid → directory_of self.new.directories other
            ≡ directory_of self.old.directories other }
        ensures frames { length self.new.roles ≡ length self.old.roles }
    {
        self.frames.release(directory);
        self.directories[pid.number() as usize] = None;
    }

    /// Takes away a process's space: its pages leave their groups, and the frames of its pages that nobody else holds,
    /// its tables and its directory come free. It counts first what the process is charged for.
    pub fn drop_space(&mut self, pid: Pid)
        requires live { is_some (directory_of self.old.directories pid) ≡ true }
        ensures spaces { self.new.spaces ≡ without self.old.spaces (is_of pid) }
        ensures stay { FramesStay (of_process pid) (image_of self.old) (image_of self.new) }
        ensures loose { LooseStay (image_of self.old) (image_of self.new) }
        ensures none { directory_of self.new.directories pid ≡ None }
        ensures others { (other : ℕ) → other ≢ pid → directory_of self.new.directories other
            ≡ directory_of self.old.directories other }
        ensures frames { length self.new.roles ≡ length self.old.roles }
    {
        let used = self.cost(pid);
        self.drop_charged_space(pid, used);
    }

    /// Takes away a process's space as `drop_space` does. The process is charged for `used`, and no more words are read
    /// than that takes.
    pub fn drop_charged_space(&mut self, pid: Pid, used: u32)
        requires live { is_some (directory_of self.old.directories pid) ≡ true }
        requires used { used ≡ cost self.old.spaces pid }
        ensures spaces { self.new.spaces ≡ without self.old.spaces (is_of pid) }
        ensures stay { FramesStay (of_process pid) (image_of self.old) (image_of self.new) }
        ensures loose { LooseStay (image_of self.old) (image_of self.new) }
        ensures none { directory_of self.new.directories pid ≡ None }
        ensures others { (other : ℕ) → other ≢ pid → directory_of self.new.directories other
            ≡ directory_of self.old.directories other }
        ensures frames { length self.new.roles ≡ length self.old.roles }
    {
        let directory = home(&self.directories, pid);
        self.drop_pages(pid, directory, used);
        self.drop_directory(pid, directory);
    }
}
