//! Loads and stores through pages that were found, one page or two.

ghost use Rattle.std.specs.Prelude.{Some, [], false, is_some, length, slice_index, true, ◌*◌, ◌++◌, ◌+◌, ◌-◌, ◌<◌, ◌^◌, ◌∷◌, ◌≡◌, ◌≤◌, option_map};
ghost use Rattle.address_space.specs.Below.{EachTouched, IsUserPage, byte_count, covered, frame_bytes, page_number, second_page, touched, with_frame};
ghost use Rattle.address_space.specs.Words.{BytesStored, EntryIs, FramesStay, Inside, LiesIn, all_accessed, all_stored, at_page, bytes_at, bytes_of, cell_or_fresh, image_of, is_lazy_at, none_goes, number_of, place_in, value_of, write_at};
ghost use Rattle.page_words.specs.FiniteMap as map;

use crate::Spaces;
use crate::place::{Found, Place};
use page_map::{PageEntry, place_of};
use page_words::{Frame, Page, Pid, Size, Vaddr, offset_of, page_of, second_page, start_of};
use phys_memory::Memory;

/// The number of two bytes, the lowest first.
pub fn of_two(first: u8, second: u8) -> u32
    ensures value { result ≡ value_of (first ∷ second ∷ []) }
    ensures bound { result < 2 ^ 16 }
{
    u32::from(first) + 256 * u32::from(second)
}

/// The number in some bytes that lie in one page.
#[inline(always)]
pub fn number_at(memory: &Memory, frame: Frame, at: u32, size: Size) -> u32
    requires frame { Inside memory.now frame }
    requires inside { at + byte_count size ≤ 4096 }
    ensures { result ≡ value_of (bytes_at (frame_bytes memory.now frame) at (byte_count size)) }
{
    let place = place_of(frame, at);
    match size {
        Size::One => u32::from(memory.read_byte(place)),
        Size::Two => of_two(memory.read_byte(place), memory.read_byte(place + 1)),
        Size::Four => memory.read_word(place),
    }
}

/// The byte at a place of a frame.
pub fn byte_of(memory: &Memory, frame: Frame, at: u32) -> u8
    requires frame { Inside memory.now frame }
    requires inside { at < 4096 }
    ensures { result ≡ slice_index (frame_bytes memory.now frame) at }
{
    memory.read_byte(place_of(frame, at))
}

/// The number in one to three bytes of a frame, from a place on.
fn few_at(memory: &Memory, frame: Frame, at: u32, count: u32) -> u32
    requires frame { Inside memory.now frame }
    requires some { 0 < count }
    requires few { count < 4 }
    requires inside { at + count ≤ 4096 }
    ensures value { result ≡ value_of (bytes_at (frame_bytes memory.now frame) at count) }
    ensures bound { result < 256 ^ count }
{
    let first = byte_of(memory, frame, at);
    match count {
        1 => u32::from(first),
        2 => of_two(first, byte_of(memory, frame, at + 1)),
        _ => {
            let low = of_two(first, byte_of(memory, frame, at + 1));
            low + 65_536 * u32::from(byte_of(memory, frame, at + 2))
        }
    }
}

/// A number of one to three bytes, behind which those of another come.
fn joined(low: u32, count: u32, high: u32) -> u32
    requires some { 0 < count }
    requires few { count < 4 }
    requires low { low < 256 ^ count }
    requires high { high < 256 ^ (4 - count) }
    ensures { result ≡ low + 256 ^ count * high }
{
    match count {
        1 => low + 256 * high,
        2 => low + 65_536 * high,
        _ => low + 16_777_216 * high,
    }
}

/// The number in bytes of which the first lie at the end of a frame, and the others at the start of another one.
#[inline(always)]
fn number_across(memory: &Memory, first: Frame, second: Frame, at: u32, size: Size) -> u32
    requires first { Inside memory.now first }
    requires second { Inside memory.now second }
    requires at { at < 4096 }
    requires over { 4096 < at + byte_count size }
    ensures { result ≡ value_of (bytes_at (frame_bytes memory.now first) at (4096 - at)
        ++ bytes_at (frame_bytes memory.now second) 0 (at + byte_count size - 4096)) }
{
    let cut = 4096 - at;
    let low = few_at(memory, first, at, cut);
    let high = few_at(memory, second, 0, size.bytes() - cut);
    joined(low, cut, high)
}

/// Sets three flags of a page's entry. A word that stays as it is isn't written.
pub fn set_flags(memory: &mut Memory, found: &Found, write: bool, accessed: bool, dirty: bool)
    requires lies { LiesIn memory.old found.now }
    ensures entry { EntryIs memory.old found.now (record found.now.entry
        { write = write; accessed = accessed; dirty = dirty }) memory.new }
    ensures length { length memory.new ≡ length memory.old }
{
    let entry = found.entry;
    if write != entry.write || accessed != entry.accessed || dirty != entry.dirty {
        let changed = PageEntry {
            write,
            accessed,
            dirty,
            ..entry
        };
        page_map::put_entry(memory, found.table, found.page, changed);
    }
}

/// Writes the lowest byte of a number.
pub fn put_byte(memory: &mut Memory, frame: Frame, at: u32, value: u32)
    requires frame { Inside memory.old frame }
    requires inside { at < 4096 }
    ensures frames { frame_bytes memory.new ≡ with_frame (frame_bytes memory.old) frame
        (write_at (frame_bytes memory.old frame) at (bytes_of 1 value)) }
    ensures length { length memory.new ≡ length memory.old }
{
    memory.write_byte(place_of(frame, at), (value % 256) as u8);
}

/// The frame, the place in it and the bytes of a store that lie in one page.
fn put_bytes(memory: &mut Memory, frame: Frame, at: u32, size: Size, value: u32)
    requires frame { Inside memory.old frame }
    requires inside { at + byte_count size ≤ 4096 }
    ensures frames { frame_bytes memory.new ≡ with_frame (frame_bytes memory.old) frame
        (write_at (frame_bytes memory.old frame) at (bytes_of (byte_count size) value)) }
    ensures length { length memory.new ≡ length memory.old }
{
    match size {
        Size::One => put_byte(memory, frame, at, value),
        Size::Two => {
            put_byte(memory, frame, at, value);
            put_byte(memory, frame, at + 1, value / 256);
        }
        Size::Four => memory.write_word(place_of(frame, at), value),
    }
}

/// Stores into a page, and sets accessed and dirty in its entry.
pub fn store(memory: &mut Memory, found: &Found, at: u32, size: Size, value: u32)
    requires lies { LiesIn memory.old found.now }
    requires inside { at + byte_count size ≤ 4096 }
    ensures { BytesStored memory.old found.now at (bytes_of (byte_count size) value) memory.new }
{
    put_bytes(memory, found.entry.frame, at, size, value);
    set_flags(memory, found, found.entry.write, true, true);
}

/// The second page of an access that has one.
#[inline(always)]
fn page_behind(address: Vaddr, size: Size) -> Page
    requires { is_some (second_page address size) ≡ true }
    ensures { second_page address size ≡ Some result }
{
    let _ = size;
    Page(page_of(address).0 + 1)
}

/// The four bytes of a number, the lowest first.
fn four_bytes(value: u32) -> [u8; 4]
    ensures { result ≡ bytes_of 4 value }
{
    [
        (value % 256) as u8,
        (value / 256 % 256) as u8,
        (value / 65536 % 256) as u8,
        (value / 16_777_216 % 256) as u8,
    ]
}

impl Spaces {
    /// The frame that has the bytes of a page, whose place this is: where it isn't mapped, frame 0, which is all zero.
    #[inline(always)]
    fn frame_at(&self, pid: Pid, page: Page, place: &Place) -> Frame
        requires user { IsUserPage page }
        requires place { place.now ≡ place_in self.now.directories self.now.bytes pid page }
        ensures inside { Inside self.now.bytes result }
        ensures bytes { (cell_or_fresh self.now.spaces (at_page pid page)).bytes ≡ frame_bytes self.now.bytes result }
    {
        let _ = &self.memory;
        match place.found() {
            Some(found) => found.entry.frame,
            None => Frame(0),
        }
    }

    /// The number in bytes that lie in two pages, whose places these are.
    #[inline(always)]
    fn number_over(
        &self,
        pid: Pid,
        address: Vaddr,
        size: Size,
        behind: Page,
        first: &Place,
        second: &Place,
    ) -> u32
        requires user { EachTouched address size IsUserPage }
        requires behind { second_page address size ≡ Some behind }
        requires first { first.now ≡ place_in self.now.directories self.now.bytes pid (page_number address) }
        requires second { second.now ≡ place_in self.now.directories self.now.bytes pid behind }
        ensures { result ≡ number_of self.now.spaces pid (covered address size) }
    {
        let one = self.frame_at(pid, page_of(address), first);
        let other = self.frame_at(pid, behind, second);
        number_across(&self.memory, one, other, offset_of(address), size)
    }

    /// What stands at the second page of an access, where there is one.
    fn place_behind(&self, pid: Pid, address: Vaddr, size: Size) -> Option<Place>
        requires { EachTouched address size IsUserPage }
        ensures { result ≡ option_map (place_in self.now.directories self.now.bytes pid) (second_page address size) }
    {
        match second_page(address, size) {
            Some(page) => Some(self.place(pid, page)),
            None => None,
        }
    }

    /// The number at an address, the lowest byte first: 0 for each byte whose page isn't mapped. The bytes may lie
    /// in two pages. It sets no flag.
    pub fn peek(&self, pid: Pid, address: Vaddr, size: Size) -> u32
        requires { EachTouched address size IsUserPage }
        ensures { result ≡ number_of self.now.spaces pid (covered address size) }
    {
        let first = self.place(pid, page_of(address));
        let second = self.place_behind(pid, address, size);
        self.peek_at(pid, address, size, &first, &second)
    }

    /// The number at an address, as `peek` gives it. The places are those of the pages that its bytes lie in.
    pub fn peek_at(
        &self,
        pid: Pid,
        address: Vaddr,
        size: Size,
        first: &Place,
        second: &Option<Place>,
    ) -> u32
        requires user { EachTouched address size IsUserPage }
        requires first { first.now ≡ place_in self.now.directories self.now.bytes pid (page_number address) }
        requires second { second.now ≡ option_map (place_in self.now.directories self.now.bytes pid)
            (second_page address size) }
        ensures { result ≡ number_of self.now.spaces pid (covered address size) }
    {
        match second {
            None => {
                let frame = self.frame_at(pid, page_of(address), first);
                number_at(&self.memory, frame, offset_of(address), size)
            }
            Some(second) => {
                let behind = page_behind(address, size);
                self.number_over(pid, address, size, behind, first, second)
            }
        }
    }

    /// The number at an address of mapped pages, one or two by where the bytes lie; accessed is set in the slot of
    /// each.
    pub fn read(&mut self, pid: Pid, address: Vaddr, size: Size) -> u32
        requires mapped { EachTouched address size (λ page. is_some (map.get self.old.spaces (at_page pid page))
            ≡ true) }
        requires user { EachTouched address size IsUserPage }
        ensures value { result ≡ number_of self.old.spaces pid (covered address size) }
        ensures spaces { self.new.spaces ≡ all_accessed self.old.spaces pid (touched address size) }
        ensures stay { FramesStay none_goes (image_of self.old) (image_of self.new) }
        ensures directories { self.new.directories ≡ self.old.directories }
        ensures roles { self.new.roles ≡ self.old.roles }
    {
        let first = self.place(pid, page_of(address));
        let second = self.place_behind(pid, address, size);
        self.read_at(pid, address, size, &first, &second)
    }

    /// The number at an address, as `read` gives it. The places are those of the pages that its bytes lie in.
    #[inline(always)]
    pub fn read_at(
        &mut self,
        pid: Pid,
        address: Vaddr,
        size: Size,
        first: &Place,
        second: &Option<Place>,
    ) -> u32
        requires mapped { EachTouched address size (λ page. is_some (map.get self.old.spaces (at_page pid page))
            ≡ true) }
        requires user { EachTouched address size IsUserPage }
        requires first { first.now ≡ place_in self.old.directories self.old.bytes pid (page_number address) }
        requires second { second.now ≡ option_map (place_in self.old.directories self.old.bytes pid)
            (second_page address size) }
        ensures value { result ≡ number_of self.old.spaces pid (covered address size) }
        ensures spaces { self.new.spaces ≡ all_accessed self.old.spaces pid (touched address size) }
        ensures stay { FramesStay none_goes (image_of self.old) (image_of self.new) }
        ensures directories { self.new.directories ≡ self.old.directories }
        ensures roles { self.new.roles ≡ self.old.roles }
    {
        match second {
            None => self.load_at(pid, address, size, first),
            Some(second) => {
                let behind = page_behind(address, size);
                let value = self.number_over(pid, address, size, behind, first, second);
                self.load_at(pid, address, Size::One, first);
                self.load_at(pid, start_of(behind), Size::One, second);
                value
            }
        }
    }

    /// Stores through mapped slots that aren't lazy, one or two by where the bytes lie, and sets accessed and
    /// dirty in each.
    pub fn write(&mut self, pid: Pid, address: Vaddr, size: Size, value: u32)
        requires mapped { EachTouched address size (λ page. is_some (map.get self.old.spaces (at_page pid page))
            ≡ true) }
        requires user { EachTouched address size IsUserPage }
        requires real { EachTouched address size (λ page. is_lazy_at (image_of self.old) (at_page pid page) ≡ false) }
        ensures spaces { self.new.spaces ≡ all_stored self.old.spaces pid address (bytes_of (byte_count size) value) }
        ensures stay { FramesStay none_goes (image_of self.old) (image_of self.new) }
        ensures directories { self.new.directories ≡ self.old.directories }
        ensures roles { self.new.roles ≡ self.old.roles }
    {
        let first = self.place(pid, page_of(address));
        let second = self.place_behind(pid, address, size);
        self.write_at(pid, address, size, value, &first, &second);
    }

    /// Stores, as `write` does. The places are those of the pages that the bytes lie in.
    #[inline(always)]
    pub fn write_at(
        &mut self,
        pid: Pid,
        address: Vaddr,
        size: Size,
        value: u32,
        first: &Place,
        second: &Option<Place>,
    )
        requires mapped { EachTouched address size (λ page. is_some (map.get self.old.spaces (at_page pid page))
            ≡ true) }
        requires user { EachTouched address size IsUserPage }
        requires real { EachTouched address size (λ page. is_lazy_at (image_of self.old) (at_page pid page) ≡ false) }
        requires first { first.now ≡ place_in self.old.directories self.old.bytes pid (page_number address) }
        requires second { second.now ≡ option_map (place_in self.old.directories self.old.bytes pid)
            (second_page address size) }
        ensures spaces { self.new.spaces ≡ all_stored self.old.spaces pid address (bytes_of (byte_count size) value) }
        ensures stay { FramesStay none_goes (image_of self.old) (image_of self.new) }
        ensures directories { self.new.directories ≡ self.old.directories }
        ensures roles { self.new.roles ≡ self.old.roles }
    {
        match second {
            None => self.store_at(pid, address, size, value, first),
            Some(second) => {
                let start = start_of(page_behind(address, size));
                let bytes = four_bytes(value);
                let cut = (4096 - offset_of(address)) as usize;
                let end = size.bytes() as usize;
                self.store_part_at(pid, address, &bytes[..cut], first);
                self.store_part_at(pid, start, &bytes[cut..end], second);
            }
        }
    }
}
