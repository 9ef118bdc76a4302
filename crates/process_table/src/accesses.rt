//! Accesses through mapped pages, and lazy pages that get their frames.

ghost use Rattle.std.specs.Prelude.{false, true, ℕ, ◌≡◌, ◌≢◌};
ghost use Rattle.process_table.specs.Below.{EachTouched, FramesStay, IsUserPage, Slot, at_page, cell_or_fresh, is_lazy_at, none_goes, of_lazy, page_number, place_in, second_page, slot_at, takes_stores};
ghost use Rattle.process_table.specs.Words.{access_places, access_value, after_access, after_load, after_store, is_mapped, loaded, memory_of};

use crate::places::Places;
use crate::processes::Processes;
use address_space::Place;
use page_words::{Page, Pid, Size, Vaddr};
use table_walk::Access;

impl Processes {
    /// Makes an access through mapped pages, one or two by where its bytes lie, that the process may access so. A read
    /// sets accessed, and returns the value. A write writes the low bytes of the value, sets accessed and dirty, and
    /// returns 0. The places are those of the pages that it touches.
    #[inline(always)]
    pub fn access_at(
        &mut self,
        pid: Pid,
        address: Vaddr,
        size: Size,
        access: Access,
        value: u32,
        places: &Places,
    ) -> u32
        requires mapped { EachTouched address size (λ page. is_mapped self.old.state (at_page pid page) ≡ true) }
        requires right { access ≡ Access.Write → EachTouched address size
            (λ page. (cell_or_fresh self.old.state.spaces (at_page pid page)).write ≡ true) }
        requires real { access ≡ Access.Write → EachTouched address size
            (λ page. is_lazy_at (memory_of self.old) (at_page pid page) ≡ false) }
        requires places { places.now ≡ access_places self.old pid address size }
        ensures value { result ≡ access_value self.old.state pid address size access }
        ensures state { self.new.state ≡ after_access self.old.state pid address size access value }
        ensures stay { FramesStay none_goes (memory_of self.old) (memory_of self.new) }
        ensures roles { self.new.roles ≡ self.old.roles }
    {
        self.stands();
        let first = places.first.unwrap();
        let second = &places.second;
        match access {
            Access::Read => self.spaces.read_at(pid, address, size, &first, second),
            Access::Write => {
                self.spaces
                    .write_at(pid, address, size, value, &first, second);
                0
            }
        }
    }

    /// Loads, as `access_at` does, bytes that lie in one page, which is mapped and whose place this is.
    #[inline(always)]
    pub fn load_at(&mut self, pid: Pid, address: Vaddr, size: Size, place: &Place) -> u32
        requires within { second_page address size ≡ None }
        requires user { IsUserPage (page_number address) }
        requires mapped { is_mapped self.old.state (slot_at pid address) ≡ true }
        requires place { place.now ≡ place_in self.old.directories self.old.bytes pid (page_number address) }
        ensures value { result ≡ loaded self.old.state pid address size }
        ensures state { self.new.state ≡ after_load self.old.state pid address size }
        ensures stay { FramesStay none_goes (memory_of self.old) (memory_of self.new) }
        ensures roles { self.new.roles ≡ self.old.roles }
    {
        self.spaces.load_at(pid, address, size, place)
    }

    /// Stores, as `access_at` does, bytes that lie in one page, which takes a store as memory stands: it is mapped, with
    /// the right to write, and isn't lazy. The place is the page's.
    #[inline(always)]
    pub fn store_at(&mut self, pid: Pid, address: Vaddr, size: Size, value: u32, place: &Place)
        requires within { second_page address size ≡ None }
        requires user { IsUserPage (page_number address) }
        requires takes { takes_stores self.old.state.spaces (memory_of self.old) (slot_at pid address) ≡ true }
        requires place { place.now ≡ place_in self.old.directories self.old.bytes pid (page_number address) }
        ensures state { self.new.state ≡ after_store self.old.state pid address size value }
        ensures stay { FramesStay none_goes (memory_of self.old) (memory_of self.new) }
        ensures roles { self.new.roles ≡ self.old.roles }
    {
        self.spaces.store_at(pid, address, size, value, place);
    }

    /// Whether a process's page is lazy: it has no frame of its own yet. A page outside the user range is not.
    pub fn is_lazy(&self, pid: Pid, page: Page) -> bool
        ensures { result ≡ is_lazy_at (memory_of self.now) (at_page pid page) }
    {
        self.spaces.is_lazy(pid, page)
    }

    /// Gives a mapped page a frame of its own, where it is lazy; no other page becomes lazy. The state stays, and so do
    /// the places of other pages. The place is the page's, and the result the place that it is at then.
    #[inline(always)]
    pub fn fill_at(&mut self, pid: Pid, page: Page, place: &Place) -> Place
        requires mapped { is_mapped self.old.state (at_page pid page) ≡ true }
        requires place { place.now ≡ place_in self.old.directories self.old.bytes pid page }
        ensures state { self.new.state ≡ self.old.state }
        ensures stay { FramesStay (of_lazy pid page) (memory_of self.old) (memory_of self.new) }
        ensures real { is_lazy_at (memory_of self.new) (at_page pid page) ≡ false }
        ensures others { (slot : Slot) → is_lazy_at (memory_of self.old) slot ≡ false
            → is_lazy_at (memory_of self.new) slot ≡ false }
        ensures beside { (p other : ℕ) → at_page p other ≢ at_page pid page
            → place_in self.new.directories self.new.bytes p other
            ≡ place_in self.old.directories self.old.bytes p other }
        ensures place { result ≡ place_in self.new.directories self.new.bytes pid page }
    {
        self.spaces.fill_at(pid, page, place)
    }
}
