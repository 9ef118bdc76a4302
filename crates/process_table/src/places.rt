//! The place of a page, looked up by process and page, and what it says about the state.

ghost use Rattle.std.specs.Prelude.{◌≡◌, ◌≤◌, IfSome, is_some, true};
ghost use Rattle.process_table.specs.Below.{IsUserPage, is_lazy_at, takes_stores, found_of, lazy_place, need_of, takes_place, place_in, entry_flags, cell_flags, cell_or_fresh, need, at_page};
ghost use Rattle.process_table.specs.Words.{memory_of, place_at, access_places, is_live, is_mapped};

use crate::processes::Processes;
use address_space::Place;
use page_words::{Page, Pid, Size, Vaddr, in_user_range, page_of, second_page};

/// What stands at the pages that an access touches, one or two. None outside the user range, and where it touches no
/// second page.
#[derive(Clone, Copy, Debug, PartialEq, Eq)]
pub struct Places {
    pub first: Option<Place>,
    pub second: Option<Place>,
}

impl Processes {
    /// Returns the place of a page of a process, with one lookup; None outside the user range.
    #[inline(always)]
    pub fn place(&self, pid: Pid, page: Page) -> Option<Place>
        ensures { result ≡ place_at self.now pid page }
    {
        if in_user_range(page) {
            Some(self.spaces.place(pid, page))
        } else {
            None
        }
    }

    /// What stands at the pages that an access touches, one or two.
    #[inline(always)]
    pub fn access_places(&self, pid: Pid, address: Vaddr, size: Size) -> Places
        ensures { result ≡ access_places self.now pid address size }
    {
        let second = match second_page(address, size) {
            Some(page) => self.place(pid, page),
            None => None,
        };
        Places {
            first: self.place(pid, page_of(address)),
            second,
        }
    }

    /// States what the place of a page of the user range says about the state. It computes nothing.
    pub fn tells(&self, pid: Pid, page: Page, place: &Place)
        requires user { IsUserPage page }
        requires place { place.now ≡ place_in self.now.directories self.now.bytes pid page }
        ensures mapped { is_some (found_of place.now) ≡ is_mapped self.now.state (at_page pid page) }
        ensures flags { IfSome (found_of place.now) (λ found. entry_flags found.entry
            ≡ cell_flags (cell_or_fresh self.now.state.spaces (at_page pid page))) }
        ensures write { IfSome (found_of place.now) (λ found. found.entry.write
            ≡ (cell_or_fresh self.now.state.spaces (at_page pid page)).write) }
        ensures may { IfSome (found_of place.now) (λ found. found.entry.may
            ≡ (cell_or_fresh self.now.state.spaces (at_page pid page)).may) }
        ensures lazy { lazy_place place.now ≡ is_lazy_at (memory_of self.now) (at_page pid page) }
        ensures takes { takes_place place.now ≡ takes_stores self.now.state.spaces (memory_of self.now)
            (at_page pid page) }
        ensures need { need_of place.now ≡ need self.now.state.spaces pid page }
        ensures most { need_of place.now ≤ 2 }
        ensures live { is_some (found_of place.now) ≡ true → is_live self.now.state pid ≡ true }
    {
        self.stands();
    }
}
