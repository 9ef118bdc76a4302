//! Parts of a process's page: bytes that are loaded or stored as one slice, as an access of each would do it.

ghost use Rattle.std.specs.Prelude.{false, length, map, true, ◌+◌, ◌≡◌, ◌≤◌};
ghost use Rattle.std.specs.List.{range_with_len};
ghost use Rattle.process_table.specs.Below.{FramesStay, IsUserPage, byte_at, none_goes, offset_number, page_number, slot_at, takes_stores};
ghost use Rattle.process_table.specs.Words.{after_loads, after_stores, is_live, is_mapped, memory_of};

use crate::processes::Processes;
use page_words::{Pid, Vaddr};

impl Processes {
    /// Loads the bytes from an address on, which lie in one page of the user range, where it is mapped: they are copied
    /// out, and accessed is set. Whether it is mapped; where it isn't, nothing changes.
    pub fn try_load_part(&mut self, pid: Pid, address: Vaddr, out: &mut [u8]) -> bool
        requires within { offset_number address + length out.old ≤ 4096 }
        requires user { IsUserPage (page_number address) }
        ensures mapped { result ≡ is_mapped self.old.state (slot_at pid address) }
        ensures live { result ≡ true → is_live self.old.state pid ≡ true }
        ensures bytes { result ≡ true → out.new ≡ map (byte_at self.old.state.spaces pid)
            (range_with_len address (length out.old)) }
        ensures state { result ≡ true → self.new.state ≡ after_loads self.old.state pid address }
        ensures stay { FramesStay none_goes (memory_of self.old) (memory_of self.new) }
        ensures roles { self.new.roles ≡ self.old.roles }
        ensures none { result ≡ false → (self.new ≡ self.old) × (out.new ≡ out.old) }
    {
        self.spaces.try_read_part(pid, address, out)
    }

    /// Stores bytes from an address on, all in one page of the user range, if the page takes a store as memory is:
    /// mapped, with the right to write, and not lazy. Sets accessed and dirty. Returns whether it did; otherwise
    /// nothing changes.
    pub fn try_store_part(&mut self, pid: Pid, address: Vaddr, part: &[u8]) -> bool
        requires within { offset_number address + length part.now ≤ 4096 }
        requires user { IsUserPage (page_number address) }
        ensures done { result ≡ takes_stores self.old.state.spaces (memory_of self.old) (slot_at pid address) }
        ensures live { result ≡ true → is_live self.old.state pid ≡ true }
        ensures state { result ≡ true → self.new.state ≡ after_stores self.old.state pid address part.now }
        ensures stay { FramesStay none_goes (memory_of self.old) (memory_of self.new) }
        ensures roles { self.new.roles ≡ self.old.roles }
        ensures none { result ≡ false → self.new ≡ self.old }
    {
        self.spaces.try_write_part(pid, address, part)
    }
}
