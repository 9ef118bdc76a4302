//! Accesses, each by one call: what completes as memory stands, in one page or in two, and any other by its plan.

ghost use Rattle.std.specs.Prelude.{◌≡◌, ◌↔◌, true, false, Some, None, IfSome, IsSome, IsNone, IsOk, IsErr};
ghost use Rattle.fault_handler.specs.Below.{page_number, second_page, IsUserPage, is_lazy_at, place_in, at_page, cell_or_fresh, slot_at, FramesStay, none_goes, access_value, after_access, after_load, after_store, loaded, memory_of, access_places, is_live, is_mapped};
ghost use Rattle.fault_handler.specs.Fills.{lazy_written};
ghost use Rattle.fault_handler.specs.Plans.{access_result, at_once, goes_on, outside, plan_at, takes_at, takes_no_frame};

use crate::planning::{plan_within, reach};
use crate::plans::{Plan, Stop};
use crate::{both, map_new, settle_over};
use address_space::Place;
use page_words::{Page, Pid, Size, Vaddr, page_of};
use process_table::{Cause, Places, Processes, left_of};
use table_walk::{Access, PageFault};

/// A load in one page of the user range, where it completes as memory stands: the page is mapped. The value read; None
/// where it doesn't, and nothing changes.
#[inline(never)]
fn try_load(processes: &mut Processes, pid: Pid, address: Vaddr, size: Size) -> Option<u32>
    requires within { second_page address size ≡ None }
    requires user { IsUserPage (page_number address) }
    ensures live { IsSome result → is_live processes.old.state pid ≡ true }
    ensures plan { IsSome result ↔ plan_at processes.old pid address size Access.Read ≡ at_once }
    ensures value { IfSome result (λ value. value ≡ loaded processes.old.state pid address size) }
    ensures state { IsSome result → processes.new.state ≡ after_load processes.old.state pid address size }
    ensures stay { FramesStay none_goes (memory_of processes.old) (memory_of processes.new) }
    ensures roles { processes.new.roles ≡ processes.old.roles }
    ensures none { IsNone result → processes.new ≡ processes.old }
{
    let page = page_of(address);
    let place = processes.spaces().place(pid, page);
    processes.tells(pid, page, &place);
    if place.is_mapped() {
        Some(processes.load_at(pid, address, size, &place))
    } else {
        None
    }
}

/// A store in one page of the user range, where it completes as memory stands: the page is mapped with the right to
/// write, and isn't lazy. 0; None where it doesn't, and nothing changes.
#[inline(never)]
fn try_store(
    processes: &mut Processes,
    pid: Pid,
    address: Vaddr,
    size: Size,
    value: u32,
) -> Option<u32>
    requires within { second_page address size ≡ None }
    requires user { IsUserPage (page_number address) }
    ensures live { IsSome result → is_live processes.old.state pid ≡ true }
    ensures plan { IsSome result ↔ plan_at processes.old pid address size Access.Write ≡ at_once }
    ensures value { IfSome result (λ value. value ≡ 0) }
    ensures state { IsSome result → processes.new.state ≡ after_store processes.old.state pid address size value }
    ensures stay { FramesStay none_goes (memory_of processes.old) (memory_of processes.new) }
    ensures roles { processes.new.roles ≡ processes.old.roles }
    ensures none { IsNone result → processes.new ≡ processes.old }
{
    let page = page_of(address);
    let place = processes.spaces().place(pid, page);
    processes.tells(pid, page, &place);
    if !place.takes_stores() {
        return None;
    }
    processes.store_at(pid, address, size, value, &place);
    Some(0)
}

/// Tries an access in one page of the user range that completes as memory is, as nearly every access does. It looks the
/// page up once. Returns the value read, or 0 after a write. For any other access it returns None, and nothing changes:
/// `access` then begins anew, since a place that is passed on has to be in memory, which each access would pay.
#[inline(always)]
pub fn try_access(
    processes: &mut Processes,
    pid: Pid,
    address: Vaddr,
    size: Size,
    access: Access,
    value: u32,
) -> Option<u32>
    ensures live { IsSome result → is_live processes.old.state pid ≡ true }
    ensures plan { IsSome result ↔ plan_at processes.old pid address size access ≡ at_once }
    ensures value { IfSome result (λ value. value ≡ access_value processes.old.state pid address size access) }
    ensures state { IsSome result → processes.new.state
        ≡ after_access processes.old.state pid address size access value }
    ensures stay { FramesStay none_goes (memory_of processes.old) (memory_of processes.new) }
    ensures roles { processes.new.roles ≡ processes.old.roles }
    ensures none { IsNone result → processes.new ≡ processes.old }
{
    let Ok(None) = reach(address, size) else {
        return None;
    };
    match access {
        Access::Read => try_load(processes, pid, address, size),
        Access::Write => try_store(processes, pid, address, size, value),
    }
}

/// Stores bytes that lie in one page, which is mapped and may be written. It gets a frame of its own first, where it is
/// lazy. The place is the page's.
#[inline(always)]
fn store_filled(
    processes: &mut Processes,
    pid: Pid,
    address: Vaddr,
    size: Size,
    value: u32,
    place: &Place,
)
    requires within { second_page address size ≡ None }
    requires user { IsUserPage (page_number address) }
    requires mapped { is_mapped processes.old.state (slot_at pid address) ≡ true }
    requires right { (cell_or_fresh processes.old.state.spaces (slot_at pid address)).write ≡ true }
    requires place { place.now ≡ place_in processes.old.directories processes.old.bytes pid (page_number address) }
    ensures state { processes.new.state ≡ after_store processes.old.state pid address size value }
    ensures stay { FramesStay (lazy_written Access.Write pid address size) (memory_of processes.old)
        (memory_of processes.new) }
{
    let filled = processes.fill_at(pid, page_of(address), place);
    processes.store_at(pid, address, size, value, &filled);
}

/// An access in one page of the user range that isn't mapped, by the process's container. The page is mapped first, and
/// the place is the page's. Refused(NoProcess) for a process that isn't live, or Refused(Quota).
#[inline(always)]
fn access_new(
    processes: &mut Processes,
    pid: Pid,
    address: Vaddr,
    size: Size,
    access: Access,
    value: u32,
    place: &Place,
) -> Result<u32, Stop>
    requires within { second_page address size ≡ None }
    requires user { IsUserPage (page_number address) }
    requires place { place.now ≡ place_in processes.old.directories processes.old.bytes pid (page_number address) }
    requires unmapped { is_mapped processes.old.state (slot_at pid address) ≡ false }
    ensures result { result ≡ access_result processes.old pid address size access }
    ensures state { IsOk result → processes.new.state ≡ after_access processes.old.state pid address size access value }
    ensures stay { FramesStay (lazy_written access pid address size) (memory_of processes.old)
        (memory_of processes.new) }
    ensures kept { IsErr result → processes.new ≡ processes.old }
{
    processes.tells(pid, page_of(address), place);
    let Some(container) = processes.container(pid) else {
        return Err(Stop::Refused(Cause::NoProcess));
    };
    if left_of(&container) < place.need() {
        return Err(Stop::Refused(Cause::Quota));
    }
    let mapped = map_new(processes, pid, page_of(address), place);
    match access {
        Access::Read => Ok(processes.load_at(pid, address, size, &mapped)),
        Access::Write => {
            store_filled(processes, pid, address, size, value, &mapped);
            Ok(0)
        }
    }
}

/// An access in one page of the user range, as `access` makes it. The page is looked up once.
#[inline(never)]
fn access_in_page(
    processes: &mut Processes,
    pid: Pid,
    address: Vaddr,
    size: Size,
    access: Access,
    value: u32,
) -> Result<u32, Stop>
    requires within { second_page address size ≡ None }
    requires user { IsUserPage (page_number address) }
    ensures result { result ≡ access_result processes.old pid address size access }
    ensures state { IsOk result → processes.new.state ≡ after_access processes.old.state pid address size access value }
    ensures stay { FramesStay (lazy_written access pid address size) (memory_of processes.old)
        (memory_of processes.new) }
    ensures frames { takes_no_frame (plan_at processes.old pid address size access) ≡ true
        → processes.new.roles ≡ processes.old.roles }
    ensures kept { IsErr result → processes.new ≡ processes.old }
{
    let page = page_of(address);
    let place = processes.spaces().place(pid, page);
    processes.tells(pid, page, &place);
    let Some(found) = place.found() else {
        return access_new(processes, pid, address, size, access, value, &place);
    };
    if access == Access::Read {
        return Ok(processes.load_at(pid, address, size, &place));
    }
    if !found.entry.write {
        let fault = PageFault::new(address, Access::Write, true);
        return Err(Stop::Fault(fault));
    }
    if found.entry.lazy {
        store_filled(processes, pid, address, size, value, &place);
        return Ok(0);
    }
    processes.store_at(pid, address, size, value, &place);
    Ok(0)
}

/// Whether a page takes an access as memory stands: it is mapped, and for a write has the right to write and a frame of
/// its own. The place is the page's.
#[inline(always)]
fn takes(processes: &Processes, pid: Pid, page: Page, access: Access, place: &Place) -> bool
    requires user { IsUserPage page }
    requires place { place.now ≡ place_in processes.now.directories processes.now.bytes pid page }
    ensures takes { result ≡ takes_at processes.now pid access page }
    ensures real { result ≡ true → access ≡ Access.Write
        → is_lazy_at (memory_of processes.now) (at_page pid page) ≡ false }
    ensures live { result ≡ true → is_live processes.now.state pid ≡ true }
{
    processes.tells(pid, page, place);
    match access {
        Access::Read => place.is_mapped(),
        Access::Write => place.takes_stores(),
    }
}

/// An access over two pages by its plan, as `access` makes it. The places are those of the pages.
#[inline(never)]
fn plan_over(
    processes: &mut Processes,
    pid: Pid,
    address: Vaddr,
    size: Size,
    access: Access,
    value: u32,
    behind: Page,
    places: &Places,
) -> Result<u32, Stop>
    requires within { outside address size ≡ None }
    requires behind { second_page address size ≡ Some behind }
    requires places { places.now ≡ access_places processes.old pid address size }
    ensures result { result ≡ access_result processes.old pid address size access }
    ensures state { IsOk result → processes.new.state ≡ after_access processes.old.state pid address size access value }
    ensures stay { FramesStay (lazy_written access pid address size) (memory_of processes.old)
        (memory_of processes.new) }
    ensures kept { IsErr result → processes.new ≡ processes.old }
{
    let Some(container) = processes.container(pid) else {
        return Err(Stop::Refused(Cause::NoProcess));
    };
    let second = Some(behind);
    let planned = plan_within(processes, pid, address, second, access, &container, places);
    match planned.plan {
        Plan::Ready { first, second } => {
            let second = second.unwrap();
            Ok(settle_over(
                processes, first, second, pid, address, size, access, value, behind, places,
            ))
        }
        Plan::Fault(fault) => Err(Stop::Fault(fault)),
        Plan::Refused(cause) => Err(Stop::Refused(cause)),
    }
}

/// An access over two pages of the user range, as `access` makes it. Each page is looked up once; the places serve the
/// attempt, which needs no plan if both pages take the access as memory stands, and otherwise the plan.
#[inline(never)]
fn access_over(
    processes: &mut Processes,
    pid: Pid,
    address: Vaddr,
    size: Size,
    access: Access,
    value: u32,
    second: Page,
) -> Result<u32, Stop>
    requires within { outside address size ≡ None }
    requires second { second_page address size ≡ Some second }
    ensures result { result ≡ access_result processes.old pid address size access }
    ensures state { IsOk result → processes.new.state ≡ after_access processes.old.state pid address size access value }
    ensures stay { FramesStay (lazy_written access pid address size) (memory_of processes.old)
        (memory_of processes.new) }
    ensures frames { takes_no_frame (plan_at processes.old pid address size access) ≡ true
        → processes.new.roles ≡ processes.old.roles }
    ensures kept { IsErr result → processes.new ≡ processes.old }
{
    let page = page_of(address);
    let first = processes.spaces().place(pid, page);
    let behind = processes.spaces().place(pid, second);
    if takes(processes, pid, page, access, &first)
        && takes(processes, pid, second, access, &behind)
    {
        let places = both(&first, &behind);
        return Ok(processes.access_at(pid, address, size, access, value, &places));
    }
    let planned = both(&first, &behind);
    plan_over(
        processes, pid, address, size, access, value, second, &planned,
    )
}

/// An access, by its plan: the value read, or 0 after a write.
///
/// The first that applies: Refused(NoProcess) for a process that isn't live, and else what stops its plan: a page
/// fault, or Refused(Quota). Then nothing changes.
#[inline(always)]
pub fn access(
    processes: &mut Processes,
    pid: Pid,
    address: Vaddr,
    size: Size,
    access: Access,
    value: u32,
) -> Result<u32, Stop>
    ensures result { result ≡ access_result processes.old pid address size access }
    ensures state { IsOk result → processes.new.state ≡ after_access processes.old.state pid address size access value }
    ensures stay { FramesStay (lazy_written access pid address size) (memory_of processes.old)
        (memory_of processes.new) }
    ensures frames { takes_no_frame (plan_at processes.old pid address size access) ≡ true
        → processes.new.roles ≡ processes.old.roles }
    ensures kept { IsErr result → processes.new ≡ processes.old }
{
    match reach(address, size) {
        Ok(None) => access_in_page(processes, pid, address, size, access, value),
        Ok(Some(second)) => access_over(processes, pid, address, size, access, value, second),
        Err(_) if !processes.live(pid) => Err(Stop::Refused(Cause::NoProcess)),
        Err(byte) => Err(Stop::Fault(PageFault::new(byte, access, false))),
    }
}

/// Carries out an access that completes, by the plan of this state: the value read, or 0 after a write.
/// An access that completes as memory stands takes no frame.
pub fn settle(
    processes: &mut Processes,
    plan: Plan,
    pid: Pid,
    address: Vaddr,
    size: Size,
    access: Access,
    value: u32,
) -> u32
    requires plan { plan ≡ plan_at processes.old pid address size access }
    requires ready { goes_on plan ≡ true }
    ensures value { result ≡ access_value processes.old.state pid address size access }
    ensures state { processes.new.state ≡ after_access processes.old.state pid address size access value }
    ensures stay { FramesStay (lazy_written access pid address size) (memory_of processes.old)
        (memory_of processes.new) }
    ensures frames { takes_no_frame plan ≡ true → processes.new.roles ≡ processes.old.roles }
{
    processes.stands();
    let _ = plan;
    crate::access(processes, pid, address, size, access, value).unwrap()
}
