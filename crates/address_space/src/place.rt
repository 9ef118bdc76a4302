//! The result of one lookup of a page, which is passed on, and what it says about the page.

ghost use Rattle.std.specs.Prelude.{◌≡◌, ◌≤◌, ◌==◌, ◌&&◌, not, Some, is_some, if◌then◌else◌, ◌≢◌, ℕ, ◌+◌, ◌*◌, ◌<◌, length, slice_get, IfSome, true, false, IfNone, option_map};
ghost use Rattle.address_space.specs.Below.{slot_number, page_number, offset_number, byte_count, covered, second_page, EachTouched, IsUserPage, frame_bytes, IsPageBelow};
ghost use Rattle.address_space.specs.Words.{takes_stores_through, found_of, table_of_place, lazy_place, need_of, takes_place, place_by, place_in, shown, Slot, need, access_need, stored, bytes_of, byte_at, number_of, cell_or_fresh, accessed, protected, at_page, slot_at, image_of, is_lazy_at, takes_stores, FramesStay, none_goes, of_lazy, directory_of};
ghost use Rattle.page_words.specs.FiniteMap as map;

use crate::{Cell, Spaces, accesses, mapping, space_of};
use alloc_table::{FrameTable, Role};
use page_map::PageEntry;
use page_words::{
    Frame, Page, Pid, Size, Vaddr, in_user_range, offset_of, page_of, second_page, slot_of,
};
use phys_memory::Memory;

/// A mapped page: its table, and the entry that the table has for it.
#[derive(Clone, Copy, Debug, PartialEq, Eq)]
pub struct Found {
    pub page: Page,
    pub table: Frame,
    pub entry: PageEntry,
}

impl Found {
    /// Returns whether a store succeeds immediately: the page may be written, and has a frame of its own.
    #[inline(always)]
    pub fn takes_stores(&self) -> bool
        ensures { result ≡ takes_stores_through (Some self.now.entry) }
    {
        self.entry.write && !self.entry.lazy
    }
}

/// The result of one lookup of a page of a process. A lookup reads one directory word, and one table word if the
/// directory word leads to a table.
#[derive(Clone, Copy, Debug, PartialEq, Eq)]
pub enum Place {
    /// The page is not mapped, and its region of 1,024 pages has no table.
    Bare,
    /// The page is not mapped; its region has this table.
    Open { table: Frame },
    /// The page is mapped.
    Mapped(Found),
}

impl Place {
    /// Where the page is mapped, what was found there.
    #[inline(always)]
    pub fn found(&self) -> Option<Found>
        ensures { result ≡ found_of self.now }
    {
        match self {
            Place::Bare => None,
            Place::Open { .. } => None,
            Place::Mapped(found) => Some(*found),
        }
    }

    /// The table of the page's region, where it has one.
    #[inline(always)]
    pub fn table(&self) -> Option<Frame>
        ensures { result ≡ table_of_place self.now }
    {
        match self {
            Place::Bare => None,
            Place::Open { table } => Some(*table),
            Place::Mapped(found) => Some(found.table),
        }
    }

    /// Whether the page is mapped.
    #[inline(always)]
    pub fn is_mapped(&self) -> bool
        ensures { result ≡ is_some (found_of self.now) }
    {
        matches!(self, Place::Mapped(_))
    }

    /// Whether the page is lazy.
    pub fn is_lazy(&self) -> bool
        ensures { result ≡ lazy_place self.now }
    {
        match self {
            Place::Bare => false,
            Place::Open { .. } => false,
            Place::Mapped(found) => found.entry.lazy,
        }
    }

    /// Returns whether a store succeeds as memory is.
    #[inline(always)]
    pub fn takes_stores(&self) -> bool
        ensures { result ≡ takes_place self.now }
    {
        match self {
            Place::Bare => false,
            Place::Open { .. } => false,
            Place::Mapped(found) => found.takes_stores(),
        }
    }

    /// What one more page costs there: 1 where its region has a table, else 2.
    pub fn need(&self) -> u32
        ensures value { result ≡ need_of self.now }
        ensures most { result ≤ 2 }
    {
        match self {
            Place::Bare => 2,
            Place::Open { .. } => 1,
            Place::Mapped(_) => 1,
        }
    }

    /// What the process needs for the page: nothing where it is mapped.
    pub fn page_need(&self) -> u32
        ensures value { result ≡ (if is_some (found_of self.now) then 0 else need_of self.now) }
        ensures most { result ≤ 2 }
    {
        if self.is_mapped() { 0 } else { self.need() }
    }

    /// Returns what the process needs for the page once it has mapped another, whose place was found before. If that
    /// page was not mapped and is in the same region of 1,024 pages, the region has a table by then.
    pub fn need_behind(&self, page: Page, first: &Place, first_page: Page) -> u32
        ensures value { result ≡ (if is_some (found_of self.now) then 0
            else (if not (is_some (found_of first.now)) && (slot_number first_page == slot_number page) then 1
            else need_of self.now)) }
        ensures most { result ≤ 2 }
    {
        if self.is_mapped() {
            return 0;
        }
        if !first.is_mapped() && slot_of(first_page) == slot_of(page) {
            1
        } else {
            self.need()
        }
    }
}

/// The place of a page, by the table of its region.
#[inline(always)]
fn place_behind(memory: &Memory, table: Option<Frame>, page: Page) -> Place
    requires { IfSome table (λ table. 4096 * table + 4096 ≤ length memory.now) }
    ensures { result ≡ place_by (frame_bytes memory.now) page table }
{
    let Some(table) = table else {
        return Place::Bare;
    };
    match page_map::entry_in(memory, table, page) {
        None => Place::Open { table },
        Some(entry) => Place::Mapped(Found { page, table, entry }),
    }
}

/// The cell of a mapped page, by its entry.
fn cell_of(frames: &FrameTable, entry: &PageEntry) -> Cell
    requires real { entry.now.lazy ≡ false → IsPageBelow frames.now entry.now.frame 4294967295 }
    ensures flags { result ≡ record {
      write = entry.now.write;
      may = entry.now.may;
      accessed = entry.now.accessed;
      dirty
          = entry.now.dirty;
      holders = result.holders;
    } }
    ensures lazy { entry.now.lazy ≡ true → result.holders ≡ 1 }
    ensures page { entry.now.lazy ≡ false → slice_get frames.now entry.now.frame ≡ Some (Role.Page result.holders) }
{
    Cell {
        write: entry.write,
        may: entry.may,
        accessed: entry.accessed,
        dirty: entry.dirty,
        holders: if entry.lazy {
            1
        } else {
            holders(frames, entry.frame)
        },
    }
}

impl Spaces {
    /// Returns the place of a page of a process, with one lookup. `stands` states what places say.
    #[inline(always)]
    pub fn place(&self, pid: Pid, page: Page) -> Place
        requires { IsUserPage page }
        ensures { result ≡ place_in self.now.directories self.now.bytes pid page }
    {
        let Some(directory) = space_of(&self.directories, pid) else {
            return Place::Bare;
        };
        let table = page_map::table(&self.memory, directory, slot_of(page));
        place_behind(&self.memory, table, page)
    }

    /// The number at an address of a mapped page, in which its bytes lie; accessed is set in its slot. The place is the
    /// page's.
    #[inline(always)]
    pub fn load_at(&mut self, pid: Pid, address: Vaddr, size: Size, place: &Place) -> u32
        requires within { second_page address size ≡ None }
        requires mapped { is_some (map.get self.old.spaces (slot_at pid address)) ≡ true }
        requires user { IsUserPage (page_number address) }
        requires place { place.now ≡ place_in self.old.directories self.old.bytes pid (page_number address) }
        ensures value { result ≡ number_of self.old.spaces pid (covered address size) }
        ensures spaces { self.new.spaces ≡ accessed self.old.spaces (slot_at pid address) }
        ensures stay { FramesStay none_goes (image_of self.old) (image_of self.new) }
        ensures directories { self.new.directories ≡ self.old.directories }
        ensures roles { self.new.roles ≡ self.old.roles }
        ensures beside { (other : ℕ) → other ≢ page_number address
            → place_in self.new.directories self.new.bytes pid other
            ≡ place_in self.old.directories self.old.bytes pid other }
    {
        let memory = &mut self.memory;
        let found = place.found().unwrap();
        let entry = found.entry;
        let value = accesses::number_at(memory, entry.frame, offset_of(address), size);
        accesses::set_flags(memory, &found, entry.write, true, entry.dirty);
        value
    }

    /// Stores bytes that lie in one page, which is mapped and isn't lazy, and sets accessed and dirty in its slot. The
    /// place is the page's.
    #[inline(always)]
    pub fn store_at(&mut self, pid: Pid, address: Vaddr, size: Size, value: u32, place: &Place)
        requires within { second_page address size ≡ None }
        requires mapped { is_some (map.get self.old.spaces (slot_at pid address)) ≡ true }
        requires user { IsUserPage (page_number address) }
        requires real { is_lazy_at (image_of self.old) (slot_at pid address) ≡ false }
        requires place { place.now ≡ place_in self.old.directories self.old.bytes pid (page_number address) }
        ensures spaces { self.new.spaces ≡ stored self.old.spaces (slot_at pid address) (offset_number address)
            (bytes_of (byte_count size) value) }
        ensures stay { FramesStay none_goes (image_of self.old) (image_of self.new) }
        ensures directories { self.new.directories ≡ self.old.directories }
        ensures roles { self.new.roles ≡ self.old.roles }
        ensures lazy { (slot : Slot) → is_lazy_at (image_of self.new) slot ≡ is_lazy_at (image_of self.old) slot }
        ensures beside { (other : ℕ) → other ≢ page_number address
            → place_in self.new.directories self.new.bytes pid other
            ≡ place_in self.old.directories self.old.bytes pid other }
    {
        let memory = &mut self.memory;
        let found = place.found().unwrap();
        accesses::store(memory, &found, offset_of(address), size, value);
    }

    /// Whether a slot has a lazy page, which has no frame of its own yet. A page outside the user range is none.
    pub fn is_lazy(&self, pid: Pid, page: Page) -> bool
        ensures { result ≡ is_lazy_at (image_of self.now) (at_page pid page) }
    {
        if !in_user_range(page) {
            return false;
        }
        self.stands();
        self.place(pid, page).is_lazy()
    }

    /// The flags of a slot and the size of its group; None where the page is not mapped.
    pub fn cell(&self, pid: Pid, page: Page) -> Option<Cell>
        requires user { IsUserPage page }
        ensures { result ≡ option_map shown (map.get self.now.spaces (at_page pid page)) }
    {
        let place = self.place(pid, page);
        self.cell_at(pid, page, &place)
    }

    /// The flags of a slot and the size of its group, as `cell` gives them. The place is the page's.
    pub fn cell_at(&self, pid: Pid, page: Page, place: &Place) -> Option<Cell>
        requires user { IsUserPage page }
        requires place { place.now ≡ place_in self.now.directories self.now.bytes pid page }
        ensures { result ≡ option_map shown (map.get self.now.spaces (at_page pid page)) }
    {
        let frames = &self.frames;
        let found = place.found()?;
        Some(cell_of(frames, &found.entry))
    }

    /// What a process needs for an access: 1 for each page that it touches and that is not mapped, and 1 for each of
    /// their regions of 1,024 pages in which the process has none.
    pub fn access_need(&self, pid: Pid, address: Vaddr, size: Size) -> u32
        requires live { is_some (directory_of self.now.directories pid) ≡ true }
        requires user { EachTouched address size IsUserPage }
        ensures value { result ≡ access_need self.now.spaces pid address size }
        ensures most { result ≤ 4 }
    {
        self.stands();
        let page = page_of(address);
        let first = self.place(pid, page);
        let Some(second) = second_page(address, size) else {
            return first.page_need();
        };
        let other = self.place(pid, second);
        first.page_need() + other.need_behind(second, &first, page)
    }

    /// Gives a lazy page a frame of its own, and returns the page's place afterwards. A real page is unchanged, and no
    /// page becomes lazy. The spaces do not change. `place` is the page's.
    #[inline(always)]
    pub fn fill_at(&mut self, pid: Pid, page: Page, place: &Place) -> Place
        requires mapped { is_some (map.get self.old.spaces (at_page pid page)) ≡ true }
        requires user { IsUserPage page }
        requires place { place.now ≡ place_in self.old.directories self.old.bytes pid page }
        ensures spaces { self.new.spaces ≡ self.old.spaces }
        ensures stay { FramesStay (of_lazy pid page) (image_of self.old) (image_of self.new) }
        ensures directories { self.new.directories ≡ self.old.directories }
        ensures real { is_lazy_at (image_of self.new) (at_page pid page) ≡ false }
        ensures others { (slot : Slot) → is_lazy_at (image_of self.old) slot ≡ false
            → is_lazy_at (image_of self.new) slot ≡ false }
        ensures frames { length self.new.roles ≡ length self.old.roles }
        ensures beside { (p other : ℕ) → at_page p other ≢ at_page pid page
            → place_in self.new.directories self.new.bytes p other
            ≡ place_in self.old.directories self.old.bytes p other }
        ensures place { result ≡ place_in self.new.directories self.new.bytes pid page }
    {
        self.stands();
        let found = place.found().unwrap();
        if !found.entry.lazy {
            return *place;
        }
        let entry = mapping::give_frame(&mut self.memory, &mut self.frames, &found);
        let table = found.table;
        Place::Mapped(Found { page, table, entry })
    }

    /// Sets whether a process may write to a mapped page, whose place this is; to set it, the process must be allowed
    /// to.
    #[inline(always)]
    pub fn protect_at(&mut self, pid: Pid, page: Page, write: bool, place: &Place)
        requires mapped { is_some (map.get self.old.spaces (at_page pid page)) ≡ true }
        requires user { IsUserPage page }
        requires right { write ≡ true → (cell_or_fresh self.old.spaces (at_page pid page)).may ≡ true }
        requires place { place.now ≡ place_in self.old.directories self.old.bytes pid page }
        ensures spaces { self.new.spaces ≡ protected self.old.spaces (at_page pid page) write }
        ensures stay { FramesStay none_goes (image_of self.old) (image_of self.new) }
        ensures directories { self.new.directories ≡ self.old.directories }
        ensures roles { self.new.roles ≡ self.old.roles }
    {
        let memory = &mut self.memory;
        let found = place.found().unwrap();
        let entry = found.entry;
        accesses::set_flags(memory, &found, write, entry.accessed, entry.dirty);
    }

    /// Clears accessed and dirty of a mapped page, whose place this is.
    pub fn clean_at(&mut self, pid: Pid, page: Page, place: &Place)
        requires mapped { is_some (map.get self.old.spaces (at_page pid page)) ≡ true }
        requires user { IsUserPage page }
        requires place { place.now ≡ place_in self.old.directories self.old.bytes pid page }
        ensures spaces { self.new.spaces ≡ map.insert self.old.spaces (at_page pid page)
            (record (cell_or_fresh self.old.spaces (at_page pid page)) { accessed = false; dirty = false }) }
        ensures stay { FramesStay none_goes (image_of self.old) (image_of self.new) }
        ensures directories { self.new.directories ≡ self.old.directories }
        ensures roles { self.new.roles ≡ self.old.roles }
    {
        let memory = &mut self.memory;
        let found = place.found().unwrap();
        accesses::set_flags(memory, &found, found.entry.write, false, false);
    }

    /// Sets whether a process may write to a mapped page; to set it, the process must be allowed to.
    pub fn protect(&mut self, pid: Pid, page: Page, write: bool)
        requires mapped { is_some (map.get self.old.spaces (at_page pid page)) ≡ true }
        requires user { IsUserPage page }
        requires right { write ≡ true → (cell_or_fresh self.old.spaces (at_page pid page)).may ≡ true }
        ensures spaces { self.new.spaces ≡ protected self.old.spaces (at_page pid page) write }
        ensures stay { FramesStay none_goes (image_of self.old) (image_of self.new) }
        ensures directories { self.new.directories ≡ self.old.directories }
        ensures roles { self.new.roles ≡ self.old.roles }
    {
        let place = self.place(pid, page);
        self.protect_at(pid, page, write, &place);
    }
}

/// How many slots name a page's frame.
fn holders(frames: &FrameTable, frame: Frame) -> u32
    requires { IsPageBelow frames.now frame 4294967295 }
    ensures { slice_get frames.now frame ≡ Some (Role.Page result) }
{
    match frames.role(frame) {
        Role::Page { count } => count,
        _ => unreachable!(),
    }
}

impl Spaces {
    /// The least page from there on that a process has mapped; None where it has none. `from` may be any page.
    pub fn next_page(&self, pid: Pid, from: Page) -> Option<Page>
        ensures mapped { IfSome result (λ page. map.contains_key self.now.spaces (at_page pid page) ≡ true) }
        ensures user { IfSome result IsUserPage }
        ensures from { IfSome result (λ page. from ≤ page) }
        ensures least { IfSome result (λ page. (other : ℕ) → from ≤ other → other < page
            → map.contains_key self.now.spaces (at_page pid other) ≡ false) }
        ensures none { IfNone result ((other : ℕ) → from ≤ other
            → map.contains_key self.now.spaces (at_page pid other) ≡ false) }
    {
        let Some(directory) = space_of(&self.directories, pid) else {
            return None;
        };
        page_map::next_page(&self.memory, directory, from)
    }
}
