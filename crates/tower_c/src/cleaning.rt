//! What changed of a process's pages: dirty, cleared and looked for; and their bytes, copied as they are.

ghost use Rattle.std.specs.Prelude.{◌≡◌, ◌≤◌, Some, IfSome, IfNone, length, true, false};
ghost use Rattle.process_table.specs.Image.{StandsFor, image_of};
ghost use Rattle.tower_c.specs.Border.{given, pid_of};
ghost use Rattle.tower_c.specs.Cleaning.{IsCleanedIn, mapped_by, mapped_in, IsNextDirtyIn, HasNoDirty, PeeksIn};
ghost use Rattle.c_handle.specs.Handle.{IsTower};

use crate::numbers::pid_from;
use c_handle::{Tower, put, take};
use kernel_calls::Core;
use page_words::{Page, Vaddr, in_user_range};
use std::alloc::Global;

/// Clears accessed and dirty of a mapped page. Returns whether it was dirty; None if the page isn't mapped.
fn clean(core: &mut Core, pid: u32, page: u32) -> Option<bool>
    ensures cleaned { IfSome result (λ dirty. IsCleanedIn core.old (pid_of pid) page dirty core.new) }
    ensures none { IfNone result ((core.new ≡ core.old) × (mapped_by core.old.state (pid_of pid) page ≡ false)) }
    ensures stands { StandsFor (image_of core.new) core.new.state }
{
    core.stands();
    let Some(pid) = pid_from(pid) else {
        return None;
    };
    let page = Page(page);
    if !in_user_range(page) {
        return None;
    }
    if core.page(pid, page).is_none() {
        return None;
    }
    Some(core.clean(pid, page))
}

/// Clears accessed and dirty of a mapped page. `dirty` becomes whether it was dirty. It is no event: an Info of the
/// page shows it. Whoever caches translations invalidates the page's before anything else is done. Returns false if the
/// handle has no core, the number is no process, or the process has not mapped the page; then nothing changes.
#[unsafe(no_mangle)]
pub extern "C" fn tower_clean(
    alloc: Global,
    tower: &mut Tower,
    pid: u32,
    page: u32,
    dirty: &mut bool,
) -> bool
    requires { IsTower tower.old }
    ensures kept { IsTower tower.new }
    ensures live { tower.new.live ≡ tower.old.live }
    ensures mapped { result ≡ mapped_in tower.old.hold.core (pid_of pid) page }
    ensures cleaned { result ≡ true → IfSome tower.old.hold.core
        (λ core. IfSome tower.new.hold.core (λ next. IsCleanedIn core (pid_of pid) page dirty.new next)) }
    ensures stands { IfSome tower.new.hold.core (λ core. StandsFor (image_of core) core.state) }
    ensures none { result ≡ false → (tower.new.hold.core ≡ tower.old.hold.core) × (dirty.new ≡ dirty.old) }
{
    match take(alloc, tower) {
        Some(mut core) => {
            let told = clean(&mut core, pid, page);
            put(tower, core);
            match told {
                Some(was) => {
                    *dirty = was;
                    true
                }
                None => false,
            }
        }
        None => false,
    }
}

/// Returns the lowest dirty page of a process from `from` on. None if there is none, or the number is no process.
fn next_dirty(core: &Core, pid: u32, from: u32) -> Option<u32>
    ensures found { IfSome result (λ page. IsNextDirtyIn core.now.state (pid_of pid) from page) }
    ensures none { IfNone result (HasNoDirty core.now.state (pid_of pid) from) }
{
    let Some(pid) = pid_from(pid) else {
        return None;
    };
    match kernel_acts::next_dirty(core, pid, Page(from)) {
        Some(page) => Some(page.0),
        None => None,
    }
}

/// Finds the lowest page of a process from `from` on that is mapped and dirty. It looks up each mapped page from there
/// on. Returns false if the handle has no core, the number is no process, or there is no such page. `from` may be any
/// page.
#[unsafe(no_mangle)]
pub extern "C" fn tower_next_dirty(
    alloc: Global,
    tower: &mut Tower,
    pid: u32,
    from: u32,
    page: &mut u32,
) -> bool
    requires { IsTower tower.old }
    ensures kept { IsTower tower.new }
    ensures same { tower.new.hold.core ≡ tower.old.hold.core }
    ensures core { tower.old.live ≡ false → result ≡ false }
    ensures found { result ≡ true → IfSome tower.old.hold.core
        (λ core. IsNextDirtyIn core.state (pid_of pid) from page.new) }
    ensures last { result ≡ false → IfSome tower.old.hold.core (λ core. HasNoDirty core.state (pid_of pid) from) }
    ensures none { result ≡ false → page.new ≡ page.old }
{
    match take(alloc, tower) {
        Some(core) => {
            let told = next_dirty(&core, pid, from);
            put(tower, core);
            match told {
                Some(told) => {
                    *page = told;
                    true
                }
                None => false,
            }
        }
        None => false,
    }
}

/// Copies bytes of a process's memory as they are, up to the first that is not mapped. Returns how many.
fn peek(core: &Core, pid: u32, address: u32, bytes: &mut [u8]) -> usize
    ensures { PeeksIn core.now.state (pid_of pid) address bytes.old bytes.new result }
{
    match pid_from(pid) {
        Some(pid) => kernel_acts::peek(core, pid, Vaddr(address), bytes),
        None => 0,
    }
}

/// Copies bytes of a process's memory from an address on, up to the first that is not mapped. `moved` becomes their
/// number, 0 if the number is no process. The other bytes are unchanged. No page is mapped and no flag is set. Returns
/// false if the handle has no core.
#[unsafe(no_mangle)]
pub extern "C" fn tower_peek(
    alloc: Global,
    tower: &mut Tower,
    pid: u32,
    address: u32,
    bytes: &mut [u8],
    moved: &mut usize,
) -> bool
    requires { IsTower tower.old }
    ensures kept { IsTower tower.new }
    ensures same { tower.new.hold.core ≡ tower.old.hold.core }
    ensures core { result ≡ tower.old.live }
    ensures peeks { IfSome tower.old.hold.core (λ core. PeeksIn core.state
        (pid_of pid) address bytes.old bytes.new moved.new) }
    ensures none { result ≡ false → (bytes.new ≡ bytes.old) × (moved.new ≡ moved.old) }
{
    match take(alloc, tower) {
        Some(core) => {
            *moved = peek(&core, pid, address, bytes);
            put(tower, core);
            true
        }
        None => false,
    }
}
