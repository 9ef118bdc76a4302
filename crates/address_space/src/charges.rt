//! What a process is charged for, and what its charge falls by when a page goes.

ghost use Rattle.std.specs.Prelude.{List, Option, Some, if◌then◌else◌, is_some, true, ℕ, ◌+◌, ◌==◌, ◌≡◌, ◌≤◌};
ghost use Rattle.address_space.specs.Below.{IsPageMap, IsUserPage};
ghost use Rattle.address_space.specs.Words.{IsSpaces, at_page, cost, directory_of, is_slot, pages_of, place_in, regions_of, spaces_in, without};
ghost use Rattle.alloc_table.specs.declared.Role.{Role as RoleValue};
ghost use Rattle.page_words.specs.FiniteMap as map;
ghost use Rattle.page_words.specs.FiniteSet as set;

use crate::mapping::count_at;
use crate::place::Place;
use crate::{Spaces, home};
use page_map::{FIRST_SLOT, SLOT_END};
use page_words::{Frame, Page, Pid, WIDE_FRAMES};
use phys_memory::Memory;

/// A process's directory, tables and pages together.
fn sum(tables: u32, pages: u32) -> u32
    requires { 1 + tables + pages ≤ WIDE_FRAMES }
    ensures { result ≡ 1 + tables + pages }
{
    tables + pages + 1
}

/// How many tables a directory has, one for each region of 1,024 pages in which its process has a page.
fn tables(memory: &Memory, directory: Frame) -> u32
    requires { IsPageMap memory.now directory }
    ensures { (directories : List (Option ℕ)) (roles : List RoleValue) (p : ℕ) → IsSpaces directories memory.now roles
        → directory_of directories p ≡ Some directory
        → result ≡ set.len (regions_of (pages_of (spaces_in directories memory.now) p)) }
{
    let mut tables = 0;
    for slot in FIRST_SLOT..SLOT_END {
        tables += page_map::has_table(memory, directory, slot) as u32;
    }
    tables
}

/// What a process's cost falls by when a page goes whose table maps so many: 2 where it is the last, whose table goes
/// too, else 1.
pub(crate) fn relief(mapped: u32) -> u32
    ensures { result ≡ (if mapped == 1 then 2 else 1) }
{
    if mapped == 1 { 2 } else { 1 }
}

impl Spaces {
    /// What a process is charged for: 1 for its directory, 1 for each region of 1,024 pages with a
    /// mapped page, 1 for each mapped page.
    pub fn cost(&self, pid: Pid) -> u32
        requires live { is_some (directory_of self.now.directories pid) ≡ true }
        ensures { result ≡ cost self.now.spaces pid }
    {
        let directory = home(&self.directories, pid);
        let tables = tables(&self.memory, directory);
        let pages = page_map::pages(&self.memory, directory);
        sum(tables, pages)
    }

    /// What a process's cost falls by when a mapped page goes, whose place this is: 2 where it is the last of its
    /// region of 1,024 pages, whose table goes too, else 1.
    #[inline(always)]
    pub fn relief_at(&self, pid: Pid, page: Page, place: &Place) -> u32
        requires mapped { is_some (map.get self.now.spaces (at_page pid page)) ≡ true }
        requires user { IsUserPage page }
        requires place { place.now ≡ place_in self.now.directories self.now.bytes pid page }
        ensures { cost (without self.now.spaces (is_slot pid page)) pid + result ≡ cost self.now.spaces pid }
    {
        let counts = &self.counts;
        let found = place.found().unwrap();
        relief(count_at(counts, found.table))
    }
}
