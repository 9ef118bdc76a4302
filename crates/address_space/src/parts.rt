//! Parts of a page: bytes that are read or written as one slice, as a load or a store of each would do it.

ghost use Rattle.std.specs.Prelude.{false, is_some, length, map, true, ℕ, ◌+◌, ◌<◌, ◌≡◌, ◌≢◌, ◌≤◌};
ghost use Rattle.std.specs.List.{range_with_len};
ghost use Rattle.address_space.specs.Below.{IsUserPage, frame_bytes, offset_number, page_number, with_frame};
ghost use Rattle.address_space.specs.Words.{BytesStored, FramesStay, Inside, LiesIn, Slot, accessed, byte_at, bytes_at, image_of, is_lazy_at, none_goes, place_in, slot_at, stored, takes_stores, write_at};
ghost use Rattle.page_words.specs.FiniteMap as finite_map;

use crate::Spaces;
use crate::accesses::{put_byte, set_flags};
use crate::place::{Found, Place};
use page_map::place_of;
use page_words::{Frame, Pid, Vaddr, offset_of, page_of};
use phys_memory::Memory;

/// Copies bytes of a frame out.
fn copy_part(memory: &Memory, frame: Frame, at: u32, out: &mut [u8])
    requires frame { Inside memory.now frame }
    requires place { at < 4096 }
    requires inside { at + length out.old ≤ 4096 }
    ensures { out.new ≡ bytes_at (frame_bytes memory.now frame) at (length out.old) }
{
    let place = place_of(frame, at);
    out.copy_from_slice(&memory.bytes()[place..place + out.len()]);
}

/// Writes bytes into a frame, as one move.
#[inline(never)]
fn move_part(memory: &mut Memory, frame: Frame, at: u32, part: &[u8])
    requires frame { Inside memory.old frame }
    requires place { at < 4096 }
    requires inside { at + length part.now ≤ 4096 }
    ensures frames { frame_bytes memory.new ≡ with_frame (frame_bytes memory.old) frame
        (write_at (frame_bytes memory.old frame) at part.now) }
    ensures length { length memory.new ≡ length memory.old }
{
    memory.write_bytes(place_of(frame, at), part);
}

/// Writes bytes into a frame. So few as a number has in one of two pages are written one by one.
#[inline(always)]
fn put_part(memory: &mut Memory, frame: Frame, at: u32, part: &[u8])
    requires frame { Inside memory.old frame }
    requires place { at < 4096 }
    requires inside { at + length part.now ≤ 4096 }
    ensures frames { frame_bytes memory.new ≡ with_frame (frame_bytes memory.old) frame
        (write_at (frame_bytes memory.old frame) at part.now) }
    ensures length { length memory.new ≡ length memory.old }
{
    match part.len() {
        1 => put_byte(memory, frame, at, u32::from(part[0])),
        2 => {
            put_byte(memory, frame, at, u32::from(part[0]));
            put_byte(memory, frame, at + 1, u32::from(part[1]));
        }
        3 => {
            put_byte(memory, frame, at, u32::from(part[0]));
            put_byte(memory, frame, at + 1, u32::from(part[1]));
            put_byte(memory, frame, at + 2, u32::from(part[2]));
        }
        _ => move_part(memory, frame, at, part),
    }
}

/// Writes bytes into a page, and sets accessed and dirty in its entry.
#[inline(always)]
fn write_part(memory: &mut Memory, found: &Found, at: u32, part: &[u8])
    requires lies { LiesIn memory.old found.now }
    requires place { at < 4096 }
    requires inside { at + length part.now ≤ 4096 }
    ensures { BytesStored memory.old found.now at part.now memory.new }
{
    put_part(memory, found.entry.frame, at, part);
    set_flags(memory, found, found.entry.write, true, true);
}

impl Spaces {
    /// Copies the bytes from an address on, which lie in one page, where it is mapped; accessed is set in its slot.
    /// Whether it is mapped; where it isn't, nothing changes.
    pub fn try_read_part(&mut self, pid: Pid, address: Vaddr, out: &mut [u8]) -> bool
        requires within { offset_number address + length out.old ≤ 4096 }
        requires user { IsUserPage (page_number address) }
        ensures mapped { result ≡ finite_map.contains_key self.old.spaces (slot_at pid address) }
        ensures bytes { result ≡ true → out.new ≡ map (byte_at self.old.spaces pid)
            (range_with_len address (length out.old)) }
        ensures spaces { result ≡ true → self.new.spaces ≡ accessed self.old.spaces (slot_at pid address) }
        ensures stay { FramesStay none_goes (image_of self.old) (image_of self.new) }
        ensures directories { self.new.directories ≡ self.old.directories }
        ensures roles { self.new.roles ≡ self.old.roles }
        ensures none { result ≡ false → (self.new ≡ self.old) × (out.new ≡ out.old) }
    {
        self.stands();
        let place = self.place(pid, page_of(address));
        let Some(found) = place.found() else {
            return false;
        };
        let entry = found.entry;
        copy_part(&self.memory, entry.frame, offset_of(address), out);
        set_flags(&mut self.memory, &found, entry.write, true, entry.dirty);
        true
    }

    /// Writes bytes from an address on, all in one page, if the slot takes a store as memory is: mapped, with the right
    /// to write, and not lazy. Sets accessed and dirty. Returns whether it did; otherwise nothing changes.
    pub fn try_write_part(&mut self, pid: Pid, address: Vaddr, part: &[u8]) -> bool
        requires within { offset_number address + length part.now ≤ 4096 }
        requires user { IsUserPage (page_number address) }
        ensures done { result ≡ takes_stores self.old.spaces (image_of self.old) (slot_at pid address) }
        ensures spaces { result ≡ true → self.new.spaces
            ≡ stored self.old.spaces (slot_at pid address) (offset_number address) part.now }
        ensures stay { FramesStay none_goes (image_of self.old) (image_of self.new) }
        ensures directories { self.new.directories ≡ self.old.directories }
        ensures roles { self.new.roles ≡ self.old.roles }
        ensures none { result ≡ false → self.new ≡ self.old }
    {
        self.stands();
        let place = self.place(pid, page_of(address));
        if !place.takes_stores() {
            return false;
        }
        self.store_part_at(pid, address, part, &place);
        true
    }

    /// Writes bytes from an address on, which lie in one page, which is mapped and isn't lazy; accessed and dirty are
    /// set. The place is the page's.
    #[inline(always)]
    pub(crate) fn store_part_at(&mut self, pid: Pid, address: Vaddr, part: &[u8], place: &Place)
        requires within { offset_number address + length part.now ≤ 4096 }
        requires user { IsUserPage (page_number address) }
        requires mapped { is_some (finite_map.get self.old.spaces (slot_at pid address)) ≡ true }
        requires real { is_lazy_at (image_of self.old) (slot_at pid address) ≡ false }
        requires place { place.now ≡ place_in self.old.directories self.old.bytes pid (page_number address) }
        ensures spaces { self.new.spaces ≡ stored self.old.spaces (slot_at pid address)
            (offset_number address) part.now }
        ensures stay { FramesStay none_goes (image_of self.old) (image_of self.new) }
        ensures directories { self.new.directories ≡ self.old.directories }
        ensures roles { self.new.roles ≡ self.old.roles }
        ensures mapped { (slot : Slot) → finite_map.contains_key self.new.spaces slot
            ≡ finite_map.contains_key self.old.spaces slot }
        ensures lazy { (slot : Slot) → is_lazy_at (image_of self.new) slot ≡ is_lazy_at (image_of self.old) slot }
        ensures beside { (other : ℕ) → other ≢ page_number address
            → place_in self.new.directories self.new.bytes pid other
            ≡ place_in self.old.directories self.old.bytes pid other }
    {
        let memory = &mut self.memory;
        let found = place.found().unwrap();
        write_part(memory, &found, offset_of(address), part);
    }
}
