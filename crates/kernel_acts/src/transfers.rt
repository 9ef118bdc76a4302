//! Copies a process's memory in and out, as copyin and copyout do: with the effect of one-byte accesses, up to the
//! first that is refused or faults. A page that is ready is looked up once, and its bytes are copied as one slice.

ghost use Rattle.std.specs.Prelude.{◌≡◌, ◌+◌, ◌++◌, ◌<◌, ◌≤◌, Some, IfSome, IsSome, IsNone, false, length, drop, slice_index};
ghost use Rattle.kernel_acts.specs.Below.{FramesStay, IsUserPage, StandsFor, answer, answers, completes, end_of, image_of, memory_of, none_goes, of_lazy, offset_number, page_number};
ghost use Rattle.kernel_calls.specs.declared.calls.Call.TheVariants as call;
ghost use Rattle.page_words.specs.declared.addresses.Size.TheVariants.{One};
ghost use Rattle.kernel_acts.specs.Transfers.{load_byte, store_byte, loads, stores, carried, stop_of, values, of_lazy_pages, AreLoaded, AreStored, Reads, Writes};

use crate::steps::{completes, step};
use kernel_calls::{Call, Core, Reply};
use page_words::{Pid, Size, Vaddr, offset_of};

/// How far a transfer went.
#[derive(Clone, Copy, Debug, PartialEq, Eq)]
pub struct Transfer {
    /// How many bytes went.
    pub count: usize,
    /// The reply to the access of the byte after them, which stopped the transfer; None if all were transferred.
    pub stop: Option<Reply>,
}

/// A transfer that stopped behind so many bytes.
fn stopped_at(count: usize, reply: Reply) -> Transfer
    ensures { result ≡ record { count = count; stop = Some reply } }
{
    let stop = Some(reply);
    Transfer { count, stop }
}

/// The store of a byte at an address.
fn store_byte(addr: Vaddr, byte: u8) -> Call
    ensures { result ≡ call.Store addr One byte }
{
    let (size, value) = (Size::One, u32::from(byte));
    Call::Store { addr, size, value }
}

/// How many of so many bytes from an address on lie in its page: one at least.
pub(crate) fn count_in_page(address: Vaddr, left: usize) -> usize
    requires some { 0 < left }
    ensures within { offset_number address + result ≤ 4096 }
    ensures some { 0 < result }
    ensures most { result ≤ left }
    ensures whole { result < left → offset_number address + result ≡ 4096 }
{
    let room = 4096 - offset_of(address) as usize;
    room.min(left)
}

/// Loads bytes from an address on, all in one page. Returns None if all were loaded. Otherwise returns the reply to
/// the load of the first byte, and nothing changes.
fn load_in_page(core: &mut Core, pid: Pid, address: Vaddr, out: &mut [u8]) -> Option<Reply>
    requires within { offset_number address + length out.old ≤ 4096 }
    requires some { 0 < length out.old }
    ensures loaded { IsNone result → AreLoaded core.old.state pid address (length out.old) out.new core.new.state }
    ensures stay { FramesStay none_goes (memory_of core.old) (memory_of core.new) }
    ensures user { IsNone result → IsUserPage (page_number address) }
    ensures told { IfSome result (λ reply. reply ≡ answer core.old.state (load_byte pid address)) }
    ensures stops { IfSome result (λ reply. completes reply ≡ false) }
    ensures kept { IsSome result → (core.new ≡ core.old) × (out.new ≡ out.old) }
{
    if core.load_mapped(pid, address, out) {
        return None;
    }
    load_first(core, pid, address, out)
}

/// Loads bytes of one page as `load_in_page` does, but loads the first byte by itself, which maps the page if it
/// may.
#[inline(never)]
fn load_first(core: &mut Core, pid: Pid, address: Vaddr, out: &mut [u8]) -> Option<Reply>
    requires within { offset_number address + length out.old ≤ 4096 }
    requires some { 0 < length out.old }
    ensures loaded { IsNone result → AreLoaded core.old.state pid address (length out.old) out.new core.new.state }
    ensures stay { FramesStay none_goes (memory_of core.old) (memory_of core.new) }
    ensures user { IsNone result → IsUserPage (page_number address) }
    ensures told { IfSome result (λ reply. reply ≡ answer core.old.state (load_byte pid address)) }
    ensures stops { IfSome result (λ reply. completes reply ≡ false) }
    ensures kept { IsSome result → (core.new ≡ core.old) × (out.new ≡ out.old) }
{
    let (addr, size) = (address, Size::One);
    let reply = step(core, pid, Call::Load { addr, size });
    if !completes(&reply) {
        return Some(reply);
    }
    core.load_mapped(pid, address, out);
    None
}

/// Loads page by page.
fn load_pages(core: &mut Core, pid: Pid, address: Vaddr, out: &mut [u8]) -> Transfer
    ensures read { Reads core.old.state pid address out.old out.new result core.new.state }
    ensures stay { FramesStay none_goes (memory_of core.old) (memory_of core.new) }
    ensures kept { result.count ≡ 0 → core.new ≡ core.old }
{
    let (mut done, mut at) = (0, address);
    while done < out.len() {
        let count = count_in_page(at, out.len() - done);
        if let Some(reply) = load_in_page(core, pid, at, &mut out[done..done + count]) {
            return stopped_at(done, reply);
        }
        done += count;
        at = Vaddr(at.0 + count as u32);
    }
    Transfer {
        count: done,
        stop: None,
    }
}

/// Reads a process's memory from an address on, with the effect of one-byte loads in order, up to the first that is
/// refused or faults. An unmapped page is mapped first, which may take a table; each page that was mapped keeps its
/// frame. The rest of `out` is unchanged.
pub fn read_bytes(core: &mut Core, pid: Pid, address: Vaddr, out: &mut [u8]) -> Transfer
    ensures count { result.count ≡ length (carried core.old.state (loads pid address (length out.old))) }
    ensures stop { result.stop ≡ stop_of core.old.state (loads pid address (length out.old)) }
    ensures bytes { out.new ≡ values (answers core.old.state
        (carried core.old.state (loads pid address (length out.old)))) ++ drop result.count out.old }
    ensures state { core.new.state ≡ end_of core.old.state
        (carried core.old.state (loads pid address (length out.old))) }
    ensures stay { FramesStay none_goes (memory_of core.old) (memory_of core.new) }
    ensures stands { StandsFor (image_of core.new) core.new.state }
    ensures kept { result.count ≡ 0 → core.new ≡ core.old }
{
    let transfer = load_pages(core, pid, address, out);
    core.stands();
    transfer
}

/// Stores bytes from an address on, all in one page. Returns None if all were stored. Otherwise returns the reply
/// to the store of the first byte, and nothing changes.
fn store_in_page(core: &mut Core, pid: Pid, address: Vaddr, part: &[u8]) -> Option<Reply>
    requires within { offset_number address + length part.now ≤ 4096 }
    requires some { 0 < length part.now }
    ensures stored { IsNone result → AreStored core.old.state pid address part.now core.new.state }
    ensures stay { FramesStay (of_lazy pid (page_number address)) (memory_of core.old) (memory_of core.new) }
    ensures user { IsNone result → IsUserPage (page_number address) }
    ensures told { IfSome result (λ reply. reply ≡ answer core.old.state
        (store_byte pid address (slice_index part.now 0))) }
    ensures stops { IfSome result (λ reply. completes reply ≡ false) }
    ensures kept { IsSome result → core.new ≡ core.old }
{
    if core.store_taken(pid, address, part) {
        return None;
    }
    store_first(core, pid, address, part)
}

/// Stores bytes of one page as `store_in_page` does, but stores the first byte by itself, which maps the page or
/// gives it a frame if it may.
#[inline(never)]
fn store_first(core: &mut Core, pid: Pid, address: Vaddr, part: &[u8]) -> Option<Reply>
    requires within { offset_number address + length part.now ≤ 4096 }
    requires some { 0 < length part.now }
    ensures stored { IsNone result → AreStored core.old.state pid address part.now core.new.state }
    ensures stay { FramesStay (of_lazy pid (page_number address)) (memory_of core.old) (memory_of core.new) }
    ensures user { IsNone result → IsUserPage (page_number address) }
    ensures told { IfSome result (λ reply. reply ≡ answer core.old.state
        (store_byte pid address (slice_index part.now 0))) }
    ensures stops { IfSome result (λ reply. completes reply ≡ false) }
    ensures kept { IsSome result → core.new ≡ core.old }
{
    let reply = step(core, pid, store_byte(address, part[0]));
    if !completes(&reply) {
        return Some(reply);
    }
    if part.len() > 1 {
        core.stands();
        core.store_taken(pid, Vaddr(address.0 + 1), &part[1..]);
        return None;
    }
    None
}

/// Stores page by page.
fn store_pages(core: &mut Core, pid: Pid, address: Vaddr, bytes: &[u8]) -> Transfer
    ensures written { Writes core.old.state pid address bytes.now result core.new.state }
    ensures stay { FramesStay (of_lazy_pages pid address result.count) (memory_of core.old) (memory_of core.new) }
    ensures kept { result.count ≡ 0 → core.new ≡ core.old }
{
    let (mut done, mut at) = (0, address);
    while done < bytes.len() {
        let count = count_in_page(at, bytes.len() - done);
        if let Some(reply) = store_in_page(core, pid, at, &bytes[done..done + count]) {
            return stopped_at(done, reply);
        }
        done += count;
        at = Vaddr(at.0 + count as u32);
    }
    Transfer {
        count: done,
        stop: None,
    }
}

/// Writes a process's memory from an address on, with the effect of one-byte stores in order, up to the first that
/// is refused or faults. An unmapped page is mapped first, and a lazy one gets a frame. Only ways to frames of lazy
/// pages change: whoever caches translations invalidates those of the process's pages from the first byte's page to
/// that of the last byte written.
pub fn write_bytes(core: &mut Core, pid: Pid, address: Vaddr, bytes: &[u8]) -> Transfer
    ensures count { result.count ≡ length (carried core.old.state (stores pid address bytes.now)) }
    ensures stop { result.stop ≡ stop_of core.old.state (stores pid address bytes.now) }
    ensures state { core.new.state ≡ end_of core.old.state (carried core.old.state (stores pid address bytes.now)) }
    ensures stay { FramesStay (of_lazy_pages pid address result.count) (memory_of core.old) (memory_of core.new) }
    ensures stands { StandsFor (image_of core.new) core.new.state }
    ensures kept { result.count ≡ 0 → core.new ≡ core.old }
{
    let transfer = store_pages(core, pid, address, bytes);
    core.stands();
    transfer
}
