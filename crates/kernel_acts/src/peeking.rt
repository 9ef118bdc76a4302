//! Looking at a process's pages without a call: nothing is mapped, marked or charged.

ghost use Rattle.std.specs.Prelude.{◌≡◌, ℕ, ◌+◌, ◌*◌, ◌++◌, ◌<◌, ◌≤◌, true, false, IfSome, IfNone, length, map, drop};
ghost use Rattle.std.specs.List.{range_with_len};
ghost use Rattle.kernel_acts.specs.Below.{IsUserPage, at_page, byte_at, bytes_at, frame_bytes, is_dirty_at, is_mapped, offset_number, page_number, slot_at};

use crate::taking::frame_at;
use crate::transfers::count_in_page;
use kernel_calls::Core;
use page_words::{Frame, Page, Pid, Vaddr, in_user_range, offset_of, page_of};
use phys_memory::Memory;

/// Copies bytes of a frame out.
fn copy_part(memory: &Memory, frame: Frame, at: u32, out: &mut [u8])
    requires frame { 4096 * frame + 4096 ≤ length memory.now }
    requires inside { at + length out.old ≤ 4096 }
    ensures { out.new ≡ bytes_at (frame_bytes memory.now frame) at (length out.old) }
{
    let place = frame.0 as usize * 4096 + at as usize;
    out.copy_from_slice(&memory.bytes()[place..place + out.len()]);
}

/// Copies the bytes from an address on, which lie in one page, where it is mapped. Whether it is; where it isn't,
/// nothing is copied.
fn peek_in_page(core: &Core, pid: Pid, address: Vaddr, out: &mut [u8]) -> bool
    requires within { offset_number address + length out.old ≤ 4096 }
    ensures mapped { result ≡ is_mapped core.now.state (slot_at pid address) }
    ensures user { result ≡ true → IsUserPage (page_number address) }
    ensures bytes { result ≡ true → out.new ≡ map (byte_at core.now.state.spaces pid)
        (range_with_len address (length out.old)) }
    ensures none { result ≡ false → out.new ≡ out.old }
{
    core.stands();
    let page = page_of(address);
    if !in_user_range(page) {
        return false;
    }
    let Some(frame) = frame_at(core, pid, page) else {
        return false;
    };
    copy_part(core.memory(), frame, offset_of(address), out);
    true
}

/// Copies bytes of a process's memory from an address on, up to the first that is not mapped, and returns how many.
/// No page is mapped, no flag is set, and the rest of `out` stays as it was.
pub fn peek(core: &Core, pid: Pid, address: Vaddr, out: &mut [u8]) -> usize
    ensures most { result ≤ length out.old }
    ensures bytes { out.new ≡ map (byte_at core.now.state.spaces pid) (range_with_len address result)
        ++ drop result out.old }
    ensures mapped { (i : ℕ) → i < result → is_mapped core.now.state (slot_at pid (address + i)) ≡ true }
    ensures stop { result < length out.old → is_mapped core.now.state (slot_at pid (address + result)) ≡ false }
{
    let (mut done, mut at) = (0, address);
    while done < out.len() {
        let count = count_in_page(at, out.len() - done);
        if !peek_in_page(core, pid, at, &mut out[done..done + count]) {
            return done;
        }
        done += count;
        at = Vaddr(at.0 + count as u32);
    }
    done
}

/// The least page from there on that a process has mapped and that is dirty; None where it has none. `from` may be
/// any page.
pub fn next_dirty(core: &Core, pid: Pid, from: Page) -> Option<Page>
    ensures dirty { IfSome result (λ page. is_dirty_at core.now.state (at_page pid page) ≡ true) }
    ensures user { IfSome result IsUserPage }
    ensures from { IfSome result (λ page. from ≤ page) }
    ensures least { IfSome result (λ page. (other : ℕ) → from ≤ other → other < page
        → is_dirty_at core.now.state (at_page pid other) ≡ false) }
    ensures none { IfNone result ((other : ℕ) → from ≤ other
        → is_dirty_at core.now.state (at_page pid other) ≡ false) }
{
    let mut at = from;
    while let Some(page) = core.next_page(pid, at) {
        if core.is_dirty(pid, page) {
            return Some(page);
        }
        at = Page(page.0 + 1);
    }
    None
}
