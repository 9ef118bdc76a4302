//! A process's pages, one after the other.

ghost use Rattle.std.specs.Prelude.{◌≡◌, IfSome, IfNone, true, false};
ghost use Rattle.tower_c.specs.Border.{pid_of};
ghost use Rattle.c_handle.specs.Handle.{IsTower};
ghost use Rattle.tower_c.specs.Pages.{page_numbers, IsNextIn, HasNone};

use crate::numbers::pid_from;
use c_handle::{Tower, put, take};
use kernel_calls::{Core, PageState};
use page_words::Page;
use std::alloc::Global;

/// What stands at a mapped page.
#[repr(C)]
#[derive(Clone, Copy)]
pub struct TowerPage {
    /// How many slots share it, this one among them.
    pub holders: u32,
    pub write: bool,
    pub may: bool,
    pub accessed: bool,
    pub dirty: bool,
    /// It has no frame of its own yet.
    pub lazy: bool,
}

/// What stands at a page, as numbers.
fn page_from(state: &PageState) -> TowerPage
    ensures { result ≡ page_numbers state.now }
{
    TowerPage {
        holders: state.cell.holders,
        write: state.cell.write,
        may: state.cell.may,
        accessed: state.cell.accessed,
        dirty: state.cell.dirty,
        lazy: state.lazy,
    }
}

/// Returns the lowest mapped page of a process from `from` on, and the page's state. None if there is none, or the
/// number is no process.
fn next(core: &Core, pid: u32, from: u32) -> Option<(u32, TowerPage)>
    ensures found { IfSome result (λ next. IsNextIn core.now (pid_of pid) from next.0 next.1) }
    ensures none { IfNone result (HasNone core.now (pid_of pid) from) }
{
    let Some(pid) = pid_from(pid) else {
        return None;
    };
    let Some(page) = core.next_page(pid, Page(from)) else {
        return None;
    };
    let state = core.page(pid, page).unwrap();
    Some((page.0, page_from(&state)))
}

/// Finds the lowest mapped page of a process from `from` on, and its state. Returns false if the handle has no core,
/// the number is no process, or there is no such page. `from` may be any page.
#[unsafe(no_mangle)]
pub extern "C" fn tower_next_page(
    alloc: Global,
    tower: &mut Tower,
    pid: u32,
    from: u32,
    page: &mut u32,
    found: &mut TowerPage,
) -> bool
    requires { IsTower tower.old }
    ensures kept { IsTower tower.new }
    ensures same { tower.new.hold.core ≡ tower.old.hold.core }
    ensures core { tower.old.live ≡ false → result ≡ false }
    ensures found { result ≡ true → IfSome tower.old.hold.core
        (λ core. IsNextIn core (pid_of pid) from page.new found.new) }
    ensures last { result ≡ false → IfSome tower.old.hold.core (λ core. HasNone core (pid_of pid) from) }
    ensures none { result ≡ false → (page.new ≡ page.old) × (found.new ≡ found.old) }
{
    match take(alloc, tower) {
        Some(core) => {
            let told = next(&core, pid, from);
            put(tower, core);
            match told {
                Some(told) => {
                    *page = told.0;
                    *found = told.1;
                    true
                }
                None => false,
            }
        }
        None => false,
    }
}
