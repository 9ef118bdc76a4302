//! Putting bytes into the pages of a process in which they lie: all of them, or none.

ghost use Rattle.std.specs.Prelude.{◌≡◌, ℕ, ◌+◌, ◌-◌, ◌∷◌, ◌<◌, ◌≤◌, ◌==◌, ◌&&◌, not, if◌then◌else◌, true, None, [], IsOk, IsErr, length, slice_index};
ghost use Rattle.std.specs.List.{list_all};
ghost use Rattle.kernel_acts.specs.Below.{EndsMarks, IsCore, IsUserPage, StandsFor, at_page, byte_at, done_unless, extra_cost, image_of, is_mapped, is_user_page, need, offset_number, page_number, slot_at, slot_number};
ghost use Rattle.kernel_acts.specs.Installed.{is_writable_at, installed, Installs};
ghost use Rattle.kernel_acts.specs.Loaded.{pages_under, may_at, load_refusal, Loads, IsLastThere};
ghost use Rattle.kernel_calls.specs.declared.translations.Ended.TheVariants as end;

use crate::installing::install;
use crate::transfers::count_in_page;
use kernel_calls::Core;
use page_words::{Page, Pid, Vaddr, in_user_range, page_of, slot_of};
use process_table::{Cause, left_of};

/// Whether each page in which so many bytes from an address on lie is of the user range.
fn are_user(address: Vaddr, count: usize) -> bool
    ensures { result ≡ list_all is_user_page (pages_under address count) }
{
    let (mut done, mut at) = (0, address);
    while done < count {
        if !in_user_range(page_of(at)) {
            return false;
        }
        let part = count_in_page(at, count - done);
        done += part;
        at = Vaddr(at.0 + part as u32);
    }
    true
}

/// Whether a page lies in the same region of 1,024 pages as the page before it.
fn is_in_region_before(page: Page) -> bool
    requires some { 0 < page }
    ensures { result ≡ (slot_number (page - 1) == slot_number page) }
{
    slot_of(Page(page.0 - 1)) == slot_of(page)
}

/// Whether a process may make a page writable, or map it.
fn may_at(core: &Core, pid: Pid, page: Page) -> bool
    requires user { IsUserPage page }
    ensures { result ≡ may_at core.now.state pid page }
{
    match core.page(pid, page) {
        Some(state) => state.cell.may,
        None => true,
    }
}

/// Whether a process may make writable, or map, each page in which so many bytes from an address on lie.
fn may_all(core: &Core, pid: Pid, address: Vaddr, count: usize) -> bool
    requires user { list_all is_user_page (pages_under address count) ≡ true }
    ensures { result ≡ list_all (may_at core.now.state pid) (pages_under address count) }
{
    let (mut done, mut at) = (0, address);
    while done < count {
        if !may_at(core, pid, page_of(at)) {
            return false;
        }
        let part = count_in_page(at, count - done);
        done += part;
        at = Vaddr(at.0 + part as u32);
    }
    true
}

/// What a page costs a process in addition, if it also maps the page before it, unless this one is the first.
fn need_behind(core: &Core, pid: Pid, page: Page, is_first: bool) -> usize
    requires user { IsUserPage page }
    ensures value { result ≡ (if is_mapped core.now.state (at_page pid page) then 0
        else (if not is_first && (slot_number (page - 1) == slot_number page) then 1
        else need core.now.state.spaces pid page)) }
    ensures most { result ≤ 2 }
{
    if core.page(pid, page).is_some() {
        return 0;
    }
    if !is_first && is_in_region_before(page) {
        return 1;
    }
    core.need_at(pid, page) as usize
}

/// What the pages in which so many bytes from an address on lie cost a process in addition.
fn need_of_all(core: &Core, pid: Pid, address: Vaddr, count: usize) -> usize
    requires user { list_all is_user_page (pages_under address count) ≡ true }
    ensures { result ≡ extra_cost core.now.state pid (pages_under address count) }
{
    let (mut done, mut at, mut need) = (0, address, 0);
    while done < count {
        need += need_behind(core, pid, page_of(at), done == 0);
        let part = count_in_page(at, count - done);
        done += part;
        at = Vaddr(at.0 + part as u32);
    }
    need
}

/// The first cause against a load of so many bytes from an address on; None where there is none.
fn load_refusal(core: &Core, pid: Pid, address: Vaddr, count: usize) -> Option<Cause>
    ensures { result ≡ load_refusal core.now.state pid (pages_under address count) }
{
    core.stands();
    let Some(container) = core.container(pid) else {
        return Some(Cause::NoProcess);
    };
    if !are_user(address, count) {
        return Some(Cause::BadPage);
    }
    if !may_all(core, pid, address, count) {
        return Some(Cause::Rights);
    }
    if (left_of(&container) as usize) < need_of_all(core, pid, address, count) {
        return Some(Cause::Quota);
    }
    None
}

/// Puts bytes into one page, against which there is no cause.
fn install_part(core: &mut Core, pid: Pid, address: Vaddr, part: &[u8], write: bool)
    requires within { offset_number address + length part.now ≤ 4096 }
    requires some { 0 < length part.now }
    requires none { load_refusal core.old.state pid (page_number address ∷ []) ≡ None }
    ensures installed { Installs core.old.state pid address part.now write core.new.state }
    ensures state { core.new.state ≡ installed core.old.state pid address part.now write }
    ensures marks { EndsMarks (end.Page pid (page_number address)) core.old core.new }
    ensures core { IsCore core.new }
{
    core.stands();
    let _ = install(core, pid, address, part, write);
    core.stands();
}

/// Loads page by page.
fn load_parts(core: &mut Core, pid: Pid, address: Vaddr, bytes: &[u8], write: bool)
    requires none { load_refusal core.old.state pid (pages_under address (length bytes.now)) ≡ None }
    ensures loaded { Loads pid address write core.old bytes.now core.new }
    ensures bytes { (i : ℕ) → i < length bytes.now → IsLastThere core.old.state pid address (length bytes.now) i
        → byte_at core.new.state.spaces pid (address + i) ≡ slice_index bytes.now i }
    ensures write { (i : ℕ) → i < length bytes.now
        → is_writable_at core.new.state (slot_at pid (address + i)) ≡ write }
    ensures mapped { (i : ℕ) → i < length bytes.now → is_mapped core.new.state (slot_at pid (address + i)) ≡ true }
{
    let (mut done, mut at) = (0, address);
    while done < bytes.len() {
        core.stands();
        let count = count_in_page(at, bytes.len() - done);
        install_part(core, pid, at, &bytes[done..done + count], write);
        done += count;
        at = Vaddr(at.0 + count as u32);
    }
}

/// Puts bytes into a process's memory from an address on, as `install` does page after page, and leaves each page
/// with the right that `write` says: all of them, or none. Each processor that cached the pages' translations
/// invalidates them. Where a process has one page at two of these addresses, the byte that comes last stays.
///
/// Otherwise nothing changes, and the error is the first cause. NoProcess comes before BadPage, where a page is not
/// of the user range. Next is Rights, where the process may not make a mapped page writable. The last is Quota,
/// where it has no room for the pages that are not mapped.
pub fn load_bytes(
    core: &mut Core,
    pid: Pid,
    address: Vaddr,
    bytes: &[u8],
    write: bool,
) -> Result<(), Cause>
    ensures refused { result ≡ done_unless (load_refusal core.old.state pid
        (pages_under address (length bytes.now))) }
    ensures loaded { IsOk result → Loads pid address write core.old bytes.now core.new }
    ensures bytes { IsOk result → (i : ℕ) → i < length bytes.now
        → IsLastThere core.old.state pid address (length bytes.now) i
        → byte_at core.new.state.spaces pid (address + i) ≡ slice_index bytes.now i }
    ensures write { IsOk result → (i : ℕ) → i < length bytes.now
        → is_writable_at core.new.state (slot_at pid (address + i)) ≡ write }
    ensures mapped { IsOk result → (i : ℕ) → i < length bytes.now
        → is_mapped core.new.state (slot_at pid (address + i)) ≡ true }
    ensures kept { IsErr result → core.new ≡ core.old }
    ensures stands { StandsFor (image_of core.new) core.new.state }
{
    core.stands();
    if let Some(cause) = load_refusal(core, pid, address, bytes.len()) {
        return Err(cause);
    }
    load_parts(core, pid, address, bytes, write);
    core.stands();
    Ok(())
}
