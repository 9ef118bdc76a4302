//! The tables of a directory, and the entries of a table, one after the other: each word is read once.

ghost use Rattle.std.specs.Prelude.{◌≡◌, ℕ, ◌+◌, ◌*◌, ◌<◌, ◌≤◌, Some, None, IfSome, IfNone, length};
ghost use Rattle.phys_memory.specs.Bytes.{frame_bytes, word_in};
ghost use Rattle.page_map.specs.Entries.{IsPageMap, table_of, word_entry};

use crate::{PageEntry, SLOT_END, table, word, word_entry};
use page_words::Frame;
use phys_memory::Memory;

/// A region of 1,024 pages that has a table: the slot of the directory that leads there, and the table.
#[derive(Clone, Copy, Debug, PartialEq, Eq)]
pub struct Region {
    pub slot: u32,
    pub table: Frame,
}

/// An entry of a table, its word, and the index of that.
#[derive(Clone, Copy, Debug, PartialEq, Eq)]
pub struct Listed {
    pub index: u32,
    pub word: u32,
    pub entry: PageEntry,
}

/// The region of a slot, where it has a table.
fn region_at(memory: &Memory, directory: Frame, place: usize) -> Option<Region>
    requires place { place < 1024 }
    requires map { IsPageMap memory.now directory }
    ensures slot { IfSome result (λ region. region.slot ≡ place) }
    ensures table { IfSome result (λ region. table_of (frame_bytes memory.now) directory place ≡ Some region.table) }
    ensures none { IfNone result (table_of (frame_bytes memory.now) directory place ≡ None) }
{
    let slot = place as u32;
    let table = table(memory, directory, slot)?;
    Some(Region { slot, table })
}

/// The first region of two slots, one behind the other, that has a table; None where none has.
fn region_of_two(memory: &Memory, directory: Frame, place: usize) -> Option<Region>
    requires place { place < 1023 }
    requires map { IsPageMap memory.now directory }
    ensures within { IfSome result (λ region. (place ≤ region.slot) × (region.slot < place + 2)) }
    ensures table { IfSome result (λ region. table_of (frame_bytes memory.now) directory region.slot
        ≡ Some region.table) }
    ensures least { IfSome result (λ region. (slot : ℕ) → place ≤ slot → slot < region.slot
        → table_of (frame_bytes memory.now) directory slot ≡ None) }
    ensures none { IfNone result ((slot : ℕ) → place ≤ slot → slot < place + 2
        → table_of (frame_bytes memory.now) directory slot ≡ None) }
{
    match region_at(memory, directory, place) {
        Some(region) => Some(region),
        None => region_at(memory, directory, place + 1),
    }
}

/// The first region from a slot on, below the end of the user range, that has a table; None where none has. It reads
/// each directory word from that slot on once, up to the one that it finds.
pub fn next_region(memory: &Memory, directory: Frame, first: u32) -> Option<Region>
    requires { IsPageMap memory.now directory }
    ensures within { IfSome result (λ region. (first ≤ region.slot) × (region.slot < 960)) }
    ensures table { IfSome result (λ region. table_of (frame_bytes memory.now) directory region.slot
        ≡ Some region.table) }
    ensures least { IfSome result (λ region. (slot : ℕ) → first ≤ slot → slot < region.slot
        → table_of (frame_bytes memory.now) directory slot ≡ None) }
    ensures none { IfNone result ((slot : ℕ) → first ≤ slot → slot < 960
        → table_of (frame_bytes memory.now) directory slot ≡ None) }
{
    // Two by two, and over places of the machine's width, so that a slot without a table takes few instructions.
    let first = first as usize;
    if first % 2 == 1 && first < SLOT_END as usize {
        if let Some(region) = region_at(memory, directory, first) {
            return Some(region);
        }
    }
    for pair in (first + 1) / 2..SLOT_END as usize / 2 {
        if let Some(region) = region_of_two(memory, directory, 2 * pair) {
            return Some(region);
        }
    }
    None
}

/// The entry of an index of a table, where there is one.
fn listed_at(memory: &Memory, table: Frame, place: usize) -> Option<Listed>
    requires inside { 4096 * table + 4096 ≤ length memory.now }
    requires place { place < 1024 }
    ensures index { IfSome result (λ listed. listed.index ≡ place) }
    ensures entry { IfSome result (λ listed. word_entry (word_in (frame_bytes memory.now table) place)
        ≡ Some listed.entry) }
    ensures word { IfSome result (λ listed. listed.word ≡ word_in (frame_bytes memory.now table) place) }
    ensures none { IfNone result (word_entry (word_in (frame_bytes memory.now table) place) ≡ None) }
{
    let index = place as u32;
    let word = word(memory, table, index);
    let entry = word_entry(word)?;
    Some(Listed { index, word, entry })
}

/// The first entry of two indexes of a table, one behind the other; None where there is none.
fn listed_of_two(memory: &Memory, table: Frame, place: usize) -> Option<Listed>
    requires inside { 4096 * table + 4096 ≤ length memory.now }
    requires place { place < 1023 }
    ensures within { IfSome result (λ listed. (place ≤ listed.index) × (listed.index < place + 2)) }
    ensures entry { IfSome result (λ listed. word_entry (word_in (frame_bytes memory.now table) listed.index)
        ≡ Some listed.entry) }
    ensures word { IfSome result (λ listed. listed.word ≡ word_in (frame_bytes memory.now table) listed.index) }
    ensures least { IfSome result (λ listed. (index : ℕ) → place ≤ index → index < listed.index
        → word_entry (word_in (frame_bytes memory.now table) index) ≡ None) }
    ensures none { IfNone result ((index : ℕ) → place ≤ index → index < place + 2
        → word_entry (word_in (frame_bytes memory.now table) index) ≡ None) }
{
    match listed_at(memory, table, place) {
        Some(listed) => Some(listed),
        None => listed_at(memory, table, place + 1),
    }
}

/// The first entry of a table from an index on; None where there is none. It reads each word of the table from that
/// index on once, up to the one that it finds.
pub fn next_listed(memory: &Memory, table: Frame, first: u32) -> Option<Listed>
    requires { 4096 * table + 4096 ≤ length memory.now }
    ensures within { IfSome result (λ listed. (first ≤ listed.index) × (listed.index < 1024)) }
    ensures entry { IfSome result (λ listed. word_entry (word_in (frame_bytes memory.now table) listed.index)
        ≡ Some listed.entry) }
    ensures word { IfSome result (λ listed. listed.word ≡ word_in (frame_bytes memory.now table) listed.index) }
    ensures least { IfSome result (λ listed. (index : ℕ) → first ≤ index → index < listed.index
        → word_entry (word_in (frame_bytes memory.now table) index) ≡ None) }
    ensures none { IfNone result ((index : ℕ) → first ≤ index → index < 1024
        → word_entry (word_in (frame_bytes memory.now table) index) ≡ None) }
{
    let first = first as usize;
    if first % 2 == 1 && first < 1024 {
        if let Some(listed) = listed_at(memory, table, first) {
            return Some(listed);
        }
    }
    for pair in (first + 1) / 2..512 {
        if let Some(listed) = listed_of_two(memory, table, 2 * pair) {
            return Some(listed);
        }
    }
    None
}
