//! Which frames an event may write: for whoever keeps something by frames, such as code that was translated.

ghost use Rattle.std.specs.Prelude.{◌≡◌, ◌↔◌, ◌⊎◌, ℕ, ◌<◌, IsTrue, Some, length};
ghost use Rattle.kernel_acts.specs.Below.{IsUserPage, MayWrite, TakesLazy, at_page, is_lazy_at, memory_of, page_frame};

use crate::taking::{are_one, frame_at};
use alloc_table::Role;
use kernel_calls::{Call, Core, Event};
use page_words::{Frame, Page, Pid, in_user_range, slot_of};

/// Whether a page of a process is lazy.
#[inline(always)]
pub(crate) fn is_lazy(core: &Core, pid: Pid, page: Page) -> bool
    ensures { result ≡ is_lazy_at (memory_of core.now) (at_page pid page) }
{
    core.stands();
    if !in_user_range(page) {
        return false;
    }
    match core.page(pid, page) {
        Some(state) => state.lazy,
        None => false,
    }
}

/// Whether an event takes a lazy page of a giver.
fn takes_lazy(core: &Core, event: &Event, giver: Pid) -> bool
    ensures { IsTrue result ↔ ((region : ℕ) × TakesLazy core.now event.now giver region) }
{
    match event.call {
        Call::Accept {
            giver: from,
            giver_page,
            ..
        } => from == giver && is_lazy(core, from, giver_page),
        _ => false,
    }
}

/// Whether an event takes a lazy page of a region of a giver.
fn takes_lazy_in(core: &Core, event: &Event, giver: Pid, region: u32) -> bool
    ensures { IsTrue result ↔ TakesLazy core.now event.now giver region }
{
    match event.call {
        Call::Accept { giver_page, .. } => {
            slot_of(giver_page) == region && takes_lazy(core, event, giver)
        }
        _ => false,
    }
}

/// Whether a page of a process has a frame, which isn't frame 0.
fn is_on(core: &Core, pid: Pid, page: Page, frame: Frame) -> bool
    requires user { IsUserPage page }
    ensures { IsTrue result ↔ (page_frame (memory_of core.now) (at_page pid page) ≡ Some frame) }
{
    core.stands();
    match frame_at(core, pid, page) {
        Some(found) => are_one(found, frame),
        None => false,
    }
}

/// Whether a process has a page on a frame. It looks up its mapped pages, up to that one.
fn has_on(core: &Core, pid: Pid, frame: Frame) -> bool
    ensures { IsTrue result ↔ ((page : ℕ) × (page_frame (memory_of core.now) (at_page pid page) ≡ Some frame)) }
{
    core.stands();
    let mut at = Page(0);
    while let Some(page) = core.next_page(pid, at) {
        if is_on(core, pid, page, frame) {
            return true;
        }
        at = Page(page.0 + 1);
    }
    false
}

/// Whether an event may write the directory of a process: its own, or that of a giver of whom it takes a lazy page.
fn may_write_directory(core: &Core, event: &Event, pid: Pid) -> bool
    ensures { IsTrue result ↔ ((pid ≡ event.now.pid) ⊎ ((region : ℕ) × TakesLazy core.now event.now pid region)) }
{
    if pid == event.pid {
        return true;
    }
    takes_lazy(core, event, pid)
}

/// Whether an event may write the table of a region of a process: its own, or that of a lazy page that it takes.
fn may_write_table(core: &Core, event: &Event, pid: Pid, region: u32) -> bool
    ensures { IsTrue result ↔ ((pid ≡ event.now.pid) ⊎ TakesLazy core.now event.now pid region) }
{
    if pid == event.pid {
        return true;
    }
    takes_lazy_in(core, event, pid, region)
}

/// Returns whether an event may write a frame, if it were the next one. It may write free frames, the directory, the
/// tables and the pages of its process, and, if it is an Accept of a lazy page, the giver's directory and the page's
/// table. What it frees is among them. Every other frame stays as it is, except that accessed may be set or cleared in
/// a directory's words. So whoever keeps something by frames drops what it keeps of those for which this is true.
///
/// For a frame of a page it looks up the pages that the process has mapped, up to that one; for any other frame it
/// looks up no more than one page.
pub fn may_write(core: &Core, event: &Event, frame: Frame) -> bool
    requires frame { frame < length core.now.roles }
    ensures { IsTrue result ↔ MayWrite core.now event.now frame }
{
    core.stands();
    match core.role(frame) {
        Role::Reserved => false,
        Role::Free => true,
        Role::Directory { pid } => may_write_directory(core, event, pid),
        Role::Table { pid, slot } => may_write_table(core, event, pid, slot),
        Role::Page { .. } => has_on(core, event.pid, frame),
    }
}
