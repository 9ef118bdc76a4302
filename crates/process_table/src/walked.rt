//! Flags that no call of a process sets: accessed of a directory word, and accessed and dirty that are cleared.

ghost use Rattle.std.specs.Prelude.{Some, false, true, ℕ, ◌≡◌};
ghost use Rattle.process_table.specs.Below.{FramesStay, IsUserPage, at_page, cell_or_fresh, directory_of, none_goes, with_walked};
ghost use Rattle.process_table.specs.Words.{is_live, is_mapped, memory_of};
ghost use Rattle.page_words.specs.FiniteMap as map;

use crate::processes::Processes;
use page_words::{Page, Pid};

impl Processes {
    /// Sets or clears accessed in the directory word that leads to a page of a live process, if the word is present.
    /// Nothing else shows it.
    pub fn set_walked(&mut self, pid: Pid, page: Page, walked: bool)
        requires live { is_live self.old.state pid ≡ true }
        requires user { IsUserPage page }
        ensures state { self.new.state ≡ self.old.state }
        ensures stay { FramesStay none_goes (memory_of self.old) (memory_of self.new) }
        ensures directories { self.new.directories ≡ self.old.directories }
        ensures roles { self.new.roles ≡ self.old.roles }
        ensures bytes { (directory : ℕ) → directory_of self.old.directories pid ≡ Some directory
            → self.new.bytes ≡ with_walked self.old.bytes directory page walked }
    {
        self.spaces.set_walked(pid, page, walked);
    }

    /// Clears accessed and dirty of a mapped page of the user range. Nothing else changes.
    pub fn clean(&mut self, pid: Pid, page: Page)
        requires mapped { is_mapped self.old.state (at_page pid page) ≡ true }
        requires user { IsUserPage page }
        ensures state { self.new.state ≡ record self.old.state {
          spaces = map.insert self.old.state.spaces (at_page pid page)
              (record (cell_or_fresh self.old.state.spaces (at_page pid page)) { accessed = false; dirty = false });
        } }
        ensures stay { FramesStay none_goes (memory_of self.old) (memory_of self.new) }
        ensures directories { self.new.directories ≡ self.old.directories }
        ensures roles { self.new.roles ≡ self.old.roles }
    {
        let place = self.spaces.place(pid, page);
        self.spaces.clean_at(pid, page, &place);
    }
}
