//! One process's page map: a directory and its tables in memory, as a finite map from pages to entries.
//!
//! The words are those of the Intel SDM, volume 3, chapter on paging, 32-bit paging; bit 9 of a table word, which a
//! processor ignores, is this kernel's own. Each call requires that the directory and its tables lie in memory, are
//! distinct frames, and hold words that the kernel writes. Pages and slots are those of the user range. No call changes
//! a frame that is neither the directory nor one of its tables.
#![tactic(auto)]

ghost use Rattle.std.specs.Prelude.{◌≡◌, ◌≢◌, ℕ, ◌+◌, ◌*◌, ◌<◌, ◌≤◌, ◌^◌, true, false, is_some, Some, None, IfSome, IfNone, length};
ghost use Rattle.page_words.specs.Words.{is_present, frame_number};
ghost use Rattle.page_words.specs.Addresses.{slot_number, index_number, IsUserPage};
ghost use Rattle.page_words.specs.FiniteMap as map;
ghost use Rattle.phys_memory.specs.Bytes.{frame_bytes, word_in, with_word_in, with_frame};
ghost use Rattle.page_map.specs.Entries.{IsPageMap, IsForeign, IsFreshTable, IsKernelEntry, IsLastEntry, HasOtherEntry, IsCleared, dir_word, table_of, entry_at, word_entry, entry_word, with_entry, with_table, link_word};
ghost use Rattle.page_map.specs.declared.PageEntry.{PageEntry};
ghost use Rattle.page_map.specs.Laws.{EntriesAreTheWords, EntriesAreUserPages, EntriesReadBack, EntryWordsAreKernelWords, TablesReadBack, LinkWordsAreKernelWords, BlankFramesAreMaps, BlankFramesMapNothing, WalksReadEntries, MarksTouchEntries};
ghost use Rattle.page_map.specs.Pages.{entries_of, is_mapped, counted, count_range};

mod regions;

use page_words::{DirWord, Frame, Page, TableWord, index_of, slot_of};
use phys_memory::{FRAME_BYTES, Memory};
pub use regions::{Listed, Region, next_listed, next_region};

/// The first slot of the user range.
pub const FIRST_SLOT: u32 = 256;

/// The slot behind the last one of the user range.
pub const SLOT_END: u32 = 960;

/// What a page map says of a page.
#[derive(Clone, Copy, Debug, PartialEq, Eq)]
pub struct PageEntry {
    /// The frame that holds the page's bytes: frame 0, which holds zeros, for a lazy page.
    pub frame: Frame,
    /// Whether the process may write to the page now.
    pub write: bool,
    /// Whether the process may make the page writable.
    pub may: bool,
    /// Whether the page was read or written.
    pub accessed: bool,
    /// Whether the page was written.
    pub dirty: bool,
    /// Whether the page has no frame of its own yet. It reads as zeros, and the processor lets no write
    /// to it through.
    pub lazy: bool,
}

fn word_of(entry: PageEntry) -> u32
    requires { entry.frame < 2 ^ 20 }
    ensures { result ≡ entry_word entry }
{
    let mut word = TableWord::read(0);
    word.set_frame(entry.frame);
    word.set_present(true);
    word.set_user(true);
    word.set_writable(entry.write && !entry.lazy);
    word.set_may(entry.may);
    word.set_accessed(entry.accessed);
    word.set_dirty(entry.dirty);
    word.set_lazy(entry.lazy);
    word.set_granted(entry.write);
    word.word()
}

fn linking(table: Frame) -> u32
    requires { table < 2 ^ 20 }
    ensures { result ≡ link_word table }
{
    let mut word = DirWord::read(0);
    word.set_frame(table);
    word.set_present(true);
    word.set_writable(true);
    word.set_user(true);
    word.word()
}

/// The place in memory of a byte of a frame.
pub fn place_of(frame: Frame, at: u32) -> usize
    requires frame { frame < 2 ^ 20 }
    requires inside { at < 4096 }
    ensures { result ≡ 4096 * frame + at }
{
    frame.0 as usize * FRAME_BYTES + at as usize
}

/// The word of an index of a frame.
pub fn word(memory: &Memory, frame: Frame, index: u32) -> u32
    requires inside { 4096 * frame + 4096 ≤ length memory.now }
    requires index { index < 1024 }
    ensures { result ≡ word_in (frame_bytes memory.now frame) index }
{
    let frames = memory.frames();
    prove!(frame.0 < frames);
    memory.read_word(place_of(frame, index * 4))
}

/// Writes the word of an index of a frame.
fn set_word(memory: &mut Memory, frame: Frame, index: u32, word: u32)
    requires inside { 4096 * frame + 4096 ≤ length memory.old }
    requires index { index < 1024 }
    ensures frames { frame_bytes memory.new ≡ with_frame (frame_bytes memory.old) frame
        (with_word_in (frame_bytes memory.old frame) index word) }
    ensures length { length memory.new ≡ length memory.old }
{
    let frames = memory.frames();
    prove!(frame.0 < frames);
    memory.write_word(place_of(frame, index * 4), word);
}

/// The table of a slot of the directory, which may be empty, or None where the slot has none.
pub fn table(memory: &Memory, directory: Frame, slot: u32) -> Option<Frame>
    requires slot { slot < 1024 }
    requires map { IsPageMap memory.now directory }
    ensures { result ≡ table_of (frame_bytes memory.now) directory slot }
{
    let word = DirWord::read(word(memory, directory, slot));
    if word.present() {
        Some(word.frame())
    } else {
        None
    }
}

/// The entry of a word of a table.
fn word_entry(word: u32) -> Option<PageEntry>
    ensures { result ≡ word_entry word }
{
    let word = TableWord::read(word);
    if word.present() {
        Some(PageEntry {
            frame: word.frame(),
            write: word.granted(),
            may: word.may(),
            accessed: word.accessed(),
            dirty: word.dirty(),
            lazy: word.lazy(),
        })
    } else {
        None
    }
}

/// The entry that a table has for a page, or None where it has none.
pub fn entry_in(memory: &Memory, table: Frame, page: Page) -> Option<PageEntry>
    requires { 4096 * table + 4096 ≤ length memory.now }
    ensures { result ≡ word_entry (word_in (frame_bytes memory.now table) (index_number page)) }
{
    word_entry(word(memory, table, index_of(page)))
}

/// The entry of a page, or None where it is not mapped.
#[tactic(auto, using(crate::proofs::PageLemmas::entry_of_map))]
pub fn entry(memory: &Memory, directory: Frame, page: Page) -> Option<PageEntry>
    requires user { IsUserPage page }
    requires map { IsPageMap memory.now directory }
    ensures words { result ≡ entry_at (frame_bytes memory.now) directory page }
    ensures entry { result ≡ map.get (entries_of (frame_bytes memory.now) directory) page }
{
    let table = table(memory, directory, slot_of(page))?;
    entry_in(memory, table, page)
}

/// Whether a slot of the directory has a table, which may be empty.
pub fn has_table(memory: &Memory, directory: Frame, slot: u32) -> bool
    requires slot { slot < 1024 }
    requires map { IsPageMap memory.now directory }
    ensures { result ≡ is_some (table_of (frame_bytes memory.now) directory slot) }
{
    table(memory, directory, slot).is_some()
}

/// Makes a frame zero and links it as the table of a slot. No page is mapped by it yet.
///
/// The map stays a map, with the entries that it had, where the slot had no table and the frame is none
/// of the map's and not frame 0.
pub fn link_table(memory: &mut Memory, directory: Frame, slot: u32, table: Frame)
    requires slot { slot < 1024 }
    requires map { IsPageMap memory.old directory }
    requires inside { 4096 * table + 4096 ≤ length memory.old }
    requires apart { table ≢ directory }
    ensures frames { frame_bytes memory.new ≡ with_table (frame_bytes memory.old) directory slot table }
    ensures length { length memory.new ≡ length memory.old }
    ensures entries { IsFreshTable (frame_bytes memory.old) directory slot table
        → entries_of (frame_bytes memory.new) directory ≡ entries_of (frame_bytes memory.old) directory }
    ensures map { IsFreshTable (frame_bytes memory.old) directory slot table → IsPageMap memory.new directory }
    ensures foreign { (frame : ℕ) → IsForeign (frame_bytes memory.old) directory frame → frame ≢ table
        → frame_bytes memory.new frame ≡ frame_bytes memory.old frame }
{
    let frames = memory.frames();
    prove!(table.0 < frames);
    memory.zero_frame(table);
    set_word(memory, directory, slot, linking(table));
}

/// Writes the entry that a table has for a page.
pub fn put_entry(memory: &mut Memory, table: Frame, page: Page, entry: PageEntry)
    requires inside { 4096 * table + 4096 ≤ length memory.old }
    requires frame { entry.frame < 2 ^ 20 }
    ensures frames { frame_bytes memory.new ≡ with_entry (frame_bytes memory.old) table page entry }
    ensures length { length memory.new ≡ length memory.old }
{
    set_word(memory, table, index_of(page), word_of(entry));
}

/// The word of the copy of a page on this frame, by the page's word: the same rights, untouched.
fn copied_word(word: u32, frame: Frame) -> u32
    requires { frame < 2 ^ 20 }
    ensures { (e : PageEntry) → word ≡ entry_word e
        → result ≡ entry_word (record e { frame = frame; accessed = false; dirty = false }) }
{
    let mut word = TableWord::read(word);
    word.set_frame(frame);
    word.set_accessed(false);
    word.set_dirty(false);
    word.word()
}

/// Writes the entry that a table has for the copy of a page, by the page's word: with this frame, and untouched. Other
/// frames keep their bytes, whatever the word.
pub fn put_copy(memory: &mut Memory, table: Frame, page: Page, word: u32, frame: Frame)
    requires inside { 4096 * table + 4096 ≤ length memory.old }
    requires frame { frame < 2 ^ 20 }
    ensures frames { (e : PageEntry) → word ≡ entry_word e
        → frame_bytes memory.new ≡ with_entry (frame_bytes memory.old) table page
        (record e { frame = frame; accessed = false; dirty = false }) }
    ensures others { (other : ℕ) → other ≢ table → frame_bytes memory.new other ≡ frame_bytes memory.old other }
    ensures length { length memory.new ≡ length memory.old }
{
    set_word(memory, table, index_of(page), copied_word(word, frame));
}

/// Sets a page's entry. The slot of the page must have a table.
///
/// The map stays a map if the entry is one that the kernel writes. A lazy one names frame 0 and is not dirty, and any
/// other names another frame. `write` is set only with `may`, and `dirty` only with `accessed`.
pub fn set_entry(memory: &mut Memory, directory: Frame, page: Page, entry: PageEntry)
    requires user { IsUserPage page }
    requires frame { entry.frame < 2 ^ 20 }
    requires map { IsPageMap memory.old directory }
    requires table { is_present (dir_word (frame_bytes memory.old) directory (slot_number page)) ≡ true }
    ensures frames { frame_bytes memory.new ≡ with_entry (frame_bytes memory.old)
        (frame_number (dir_word (frame_bytes memory.old) directory (slot_number page))) page entry }
    ensures length { length memory.new ≡ length memory.old }
    ensures entries { entries_of (frame_bytes memory.new) directory
        ≡ map.insert (entries_of (frame_bytes memory.old) directory) page entry }
    ensures map { IsKernelEntry entry → IsPageMap memory.new directory }
    ensures foreign { (frame : ℕ) → IsForeign (frame_bytes memory.old) directory frame
        → frame_bytes memory.new frame ≡ frame_bytes memory.old frame }
{
    let table = table(memory, directory, slot_of(page)).unwrap();
    put_entry(memory, table, page, entry);
}

#[tactic(auto, using(crate::proofs::PageLemmas::present_word, crate::proofs::PageLemmas::absent_word))]
fn remove_entry(memory: &mut Memory, directory: Frame, page: Page) -> Option<Frame>
    requires user { IsUserPage page }
    requires map { IsPageMap memory.old directory }
    requires table { is_present (dir_word (frame_bytes memory.old) directory (slot_number page)) ≡ true }
    ensures cleared { IsCleared (frame_bytes memory.old) directory page result (frame_bytes memory.new) }
    ensures length { length memory.new ≡ length memory.old }
{
    let slot = slot_of(page);
    let table = table(memory, directory, slot)?;
    set_word(memory, table, index_of(page), 0);
    match next_listed(memory, table, 0) {
        Some(_) => None,
        None => {
            set_word(memory, directory, slot, 0);
            Some(table)
        }
    }
}

/// Clears a page's entry. Where that was the last entry of its table, it unlinks the table and returns
/// it; else it returns None. The slot of the page must have a table.
pub fn clear_entry(memory: &mut Memory, directory: Frame, page: Page) -> Option<Frame>
    requires user { IsUserPage page }
    requires map { IsPageMap memory.old directory }
    requires table { is_present (dir_word (frame_bytes memory.old) directory (slot_number page)) ≡ true }
    ensures cleared { IsCleared (frame_bytes memory.old) directory page result (frame_bytes memory.new) }
    ensures length { length memory.new ≡ length memory.old }
    ensures entries { entries_of (frame_bytes memory.new) directory
        ≡ map.remove (entries_of (frame_bytes memory.old) directory) page }
    ensures map { IsPageMap memory.new directory }
    ensures foreign { (frame : ℕ) → IsForeign (frame_bytes memory.old) directory frame
        → frame_bytes memory.new frame ≡ frame_bytes memory.old frame }
{
    remove_entry(memory, directory, page)
}

fn remove_found_entry(
    memory: &mut Memory,
    directory: Frame,
    table: Frame,
    page: Page,
    mapped: u32,
) -> Option<Frame>
    requires user { IsUserPage page }
    requires map { IsPageMap memory.old directory }
    requires table { table_of (frame_bytes memory.old) directory (slot_number page) ≡ Some table }
    requires last { mapped ≡ 1 → IsLastEntry (frame_bytes memory.old)
        (frame_number (dir_word (frame_bytes memory.old) directory (slot_number page))) page }
    requires others { mapped ≢ 1 → HasOtherEntry (frame_bytes memory.old)
        (frame_number (dir_word (frame_bytes memory.old) directory (slot_number page))) page }
    ensures cleared { IsCleared (frame_bytes memory.old) directory page result (frame_bytes memory.new) }
    ensures length { length memory.new ≡ length memory.old }
    ensures last { is_some result ≡ true → mapped ≡ 1 }
{
    set_word(memory, table, index_of(page), 0);
    if mapped == 1 {
        set_word(memory, directory, slot_of(page), 0);
        Some(table)
    } else {
        None
    }
}

/// Clears the entry of a mapped page in its slot's table, as `clear_entry` does. That many pages are mapped in the
/// table, this one included. If it was the last one, the call unlinks the table and returns it; otherwise it returns
/// None. The caller found the table and counted, so that it reads no word at all.
pub fn clear_found_entry(
    memory: &mut Memory,
    directory: Frame,
    table: Frame,
    page: Page,
    mapped: u32,
) -> Option<Frame>
    requires user { IsUserPage page }
    requires map { IsPageMap memory.old directory }
    requires table { table_of (frame_bytes memory.old) directory (slot_number page) ≡ Some table }
    requires entry { is_some (entry_at (frame_bytes memory.old) directory page) ≡ true }
    requires mapped { mapped ≡ count_range (λ other. is_some (entry_at (frame_bytes memory.old) directory other))
        (1024 * slot_number page) 1024 }
    ensures cleared { IsCleared (frame_bytes memory.old) directory page result (frame_bytes memory.new) }
    ensures length { length memory.new ≡ length memory.old }
    ensures last { is_some result ≡ true → mapped ≡ 1 }
    ensures entries { entries_of (frame_bytes memory.new) directory
        ≡ map.remove (entries_of (frame_bytes memory.old) directory) page }
    ensures map { IsPageMap memory.new directory }
    ensures foreign { (frame : ℕ) → IsForeign (frame_bytes memory.old) directory frame
        → frame_bytes memory.new frame ≡ frame_bytes memory.old frame }
{
    remove_found_entry(memory, directory, table, page, mapped)
}

/// How many words of a table are present.
pub fn words_present(memory: &Memory, table: Frame) -> u32
    requires inside { 4096 * table + 4096 ≤ length memory.now }
    ensures count { result ≡ count_range (λ i. is_present (word_in (frame_bytes memory.now table) i)) 0 1024 }
    ensures bound { result ≤ 1024 }
{
    let mut count = 0;
    for index in 0..1024 {
        count += TableWord::read(word(memory, table, index)).present() as u32;
    }
    count
}

/// How many pages of a slot are mapped.
fn pages_of_slot(memory: &Memory, directory: Frame, slot: u32) -> u32
    requires slot { slot < 1024 }
    requires map { IsPageMap memory.now directory }
    ensures count { result ≡ count_range (λ page. is_some (entry_at (frame_bytes memory.now) directory page))
        (1024 * slot) 1024 }
    ensures bound { result ≤ 1024 }
{
    match table(memory, directory, slot) {
        Some(table) => words_present(memory, table),
        None => 0,
    }
}

/// The number of mapped pages, 0 to 720,896.
pub fn pages(memory: &Memory, directory: Frame) -> u32
    requires { IsPageMap memory.now directory }
    ensures { result ≡ map.len (entries_of (frame_bytes memory.now) directory) }
{
    let mut pages = 0;
    for slot in FIRST_SLOT..SLOT_END {
        pages += pages_of_slot(memory, directory, slot);
    }
    pages
}

/// The least mapped page that is not below `from`, or None where there is none. `from` may be any page.
pub fn next_page(memory: &Memory, directory: Frame, from: Page) -> Option<Page>
    requires { IsPageMap memory.now directory }
    ensures mapped { IfSome result (λ page. is_mapped (frame_bytes memory.now) directory page ≡ true) }
    ensures user { IfSome result IsUserPage }
    ensures from { IfSome result (λ page. from ≤ page) }
    ensures least { IfSome result (λ page. (other : ℕ) → from ≤ other → other < page
        → is_mapped (frame_bytes memory.now) directory other ≡ false) }
    ensures none { IfNone result ((other : ℕ) → from ≤ other
        → is_mapped (frame_bytes memory.now) directory other ≡ false) }
{
    let mut first = from.0.max(FIRST_SLOT * 1024);
    while let Some(region) = next_region(memory, directory, first / 1024) {
        let start = region.slot * 1024;
        if let Some(listed) = next_listed(memory, region.table, first.saturating_sub(start)) {
            return Some(Page(start + listed.index));
        }
        first = start + 1024;
    }
    None
}

/// The finite map of a directory has at each page of the user range what the page's two words say, and
/// nothing at any other page.
pub fn entries_are_the_words()
    ensures user { EntriesAreTheWords }
    ensures other { EntriesAreUserPages }
{}

/// The words that `set_entry` and `link_table` write read back, and are words that the kernel writes.
pub fn words_read_back()
    ensures entries { EntriesReadBack }
    ensures entry_words { EntryWordsAreKernelWords }
    ensures tables { TablesReadBack }
    ensures table_words { LinkWordsAreKernelWords }
{}

/// A blank frame is a directory that maps no page.
pub fn blank_frames_map_nothing()
    ensures map { BlankFramesAreMaps }
    ensures entries { BlankFramesMapNothing }
{}

/// A processor's walk of a page map ends as the entry of the page says: at its frame, or in the fault
/// that the missing entry or the missing right makes.
pub fn walks_read_entries()
    ensures { WalksReadEntries }
{}

/// A mark of an access on a page map changes the page's entry, which is then accessed, and for a write
/// dirty. The map stays a map, and each foreign frame keeps its bytes.
pub fn marks_touch_entries()
    ensures { MarksTouchEntries }
{}
