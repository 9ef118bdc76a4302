//! All pages of a process are copied to another process.

ghost use Rattle.std.specs.Prelude.{IfNone, IfSome, List, None, Some, false, is_some, length, true, ℕ, ◌*◌, ◌+◌, ◌<◌, ◌^◌, ◌≡◌, ◌≤◌};
ghost use Rattle.address_space.specs.Below.{frame_bytes, free_frames, word_entry, word_in};
ghost use Rattle.address_space.specs.Words.{CopyIn, EntryCopied, FramesStay, Inside, IsCopying, at_page, copied, cost, directory_of, image_of, is_lazy_at, none_goes, spaces_in, total_cost, words_left};
ghost use Rattle.alloc_table.specs.declared.Role.{Role as RoleValue};
ghost use Rattle.page_words.specs.FiniteMap as map;

use crate::mapping::{count_at, give_table, set_count};
use crate::unmapping::region_left;
use crate::{Spaces, home, take};
use alloc_table::{FrameTable, Role};
use page_map::{FIRST_SLOT, Listed, PageEntry};
use page_words::{Frame, Page, Pid, WIDE_FRAMES};
use phys_memory::Memory;

/// The frame of the copy of a page: of a lazy page its own, of any other a new one with equal bytes.
fn copy_frame(memory: &mut Memory, frames: &mut FrameTable, entry: PageEntry) -> Frame
    requires frame { Inside memory.old entry.frame }
    requires size { length memory.old ≡ 4096 * length frames.old }
    requires few { length frames.old ≤ WIDE_FRAMES }
    requires free { 0 < free_frames frames.old }
    ensures copied { EntryCopied memory.old frames.old entry
        (record entry { frame = result; accessed = false; dirty = false }) memory.new frames.new }
    ensures length { length memory.new ≡ length memory.old }
    ensures small { result < 2 ^ 20 }
{
    if entry.lazy {
        return entry.frame;
    }
    let frame = take(frames, Role::Page { count: 1 });
    memory.copy_frame(entry.frame, frame);
    frame
}

/// Returns the first entry of a table from an index on, if so many are left there. If none is left, it reads no word
/// and returns None.
#[inline(always)]
pub fn next_left(memory: &Memory, table: Frame, first: u32, left: u32) -> Option<Listed>
    requires inside { 4096 * table + 4096 ≤ length memory.now }
    requires left { left ≡ words_left memory.now table first }
    ensures within { IfSome result (λ listed. (first ≤ listed.index) × (listed.index < 1024)) }
    ensures entry { IfSome result (λ listed. word_entry (word_in (frame_bytes memory.now table) listed.index)
        ≡ Some listed.entry) }
    ensures word { IfSome result (λ listed. listed.word ≡ word_in (frame_bytes memory.now table) listed.index) }
    ensures least { IfSome result (λ listed. (index : ℕ) → first ≤ index → index < listed.index
        → word_entry (word_in (frame_bytes memory.now table) index) ≡ None) }
    ensures left { IfSome result (λ listed. left ≡ words_left memory.now table (listed.index + 1) + 1) }
    ensures none { IfNone result ((index : ℕ) → first ≤ index → index < 1024
        → word_entry (word_in (frame_bytes memory.now table) index) ≡ None) }
{
    if left == 0 {
        return None;
    }
    page_map::next_listed(memory, table, first)
}

impl Spaces {
    /// Copies the pages of a region, by the table that a process has there, to the same pages of another process, which
    /// has none there, and so no table. It reads each word of that table once, up to the last that is present. The other
    /// process is charged for `used` before, and for the result then.
    fn copy_region(&mut self, to: Pid, slot: u32, table: Frame, used: u32) -> u32
        requires copying { IsCopying self.old.directories to slot table self.old.bytes self.old.roles }
        requires live { is_some (directory_of self.old.directories to) ≡ true }
        requires slot { slot < 960 }
        requires used { used ≡ cost (spaces_in self.old.directories self.old.bytes) to }
        ensures used { result ≡ cost (spaces_in self.new.directories self.new.bytes) to }
        ensures copied { (from source : ℕ) (bytes : List ℕ) (roles : List RoleValue)
            → CopyIn self.old.directories from source to slot table 0 bytes roles self.old.bytes self.old.roles
            → CopyIn self.old.directories from source to slot table 1024 bytes roles self.new.bytes self.new.roles }
        ensures directories { self.new.directories ≡ self.old.directories }
    {
        let pages = count_at(&self.counts, table);
        let mut left = pages;
        let mut linked = None;
        let mut index = 0;
        while let Some(listed) = next_left(&self.memory, table, index, left) {
            let page = Page(1024 * slot + listed.index);
            let all = &self.directories;
            let made = give_table(linked, &mut self.memory, &mut self.frames, all, to, page);
            let frame = copy_frame(&mut self.memory, &mut self.frames, listed.entry);
            page_map::put_copy(&mut self.memory, made, page, listed.word, frame);
            linked = Some(made);
            index = listed.index + 1;
            left -= 1;
        }
        let charged = used + pages;
        let Some(made) = linked else {
            return charged;
        };
        set_count(&mut self.counts, made, pages);
        charged + 1
    }

    /// Copies each page of a process to the same page of another, whose space is as `fresh` leaves it: equal bytes and
    /// rights, untouched, in groups of their own. The copy of a lazy page is lazy. The first process is charged for
    /// `used`, and no more words are read than that takes.
    pub fn copy_charged_space(&mut self, from: Pid, to: Pid, used: u32)
        requires from { is_some (directory_of self.old.directories from) ≡ true }
        requires live { is_some (directory_of self.old.directories to) ≡ true }
        requires empty { (page : ℕ) → map.get self.old.spaces (at_page to page) ≡ None }
        requires room { cost self.old.spaces from + total_cost self.old.directories self.old.spaces
            ≤ length self.old.roles }
        requires used { used ≡ cost self.old.spaces from }
        ensures spaces { self.new.spaces ≡ copied self.old.spaces from to }
        ensures stay { FramesStay none_goes (image_of self.old) (image_of self.new) }
        ensures lazy { (page : ℕ) → is_lazy_at (image_of self.new) (at_page to page)
            ≡ is_lazy_at (image_of self.old) (at_page from page) }
        ensures directories { self.new.directories ≡ self.old.directories }
        ensures frames { length self.new.roles ≡ length self.old.roles }
    {
        let source = home(&self.directories, from);
        let mut made = 1;
        let mut first = FIRST_SLOT;
        while let Some(region) = region_left(
            &self.memory,
            source,
            first,
            used.saturating_sub(made),
        ) {
            made = self.copy_region(to, region.slot, region.table, made);
            first = region.slot + 1;
        }
    }
}
