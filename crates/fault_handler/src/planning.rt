//! Plans accesses, and computes the charge after each plan.

ghost use Rattle.std.specs.Prelude.{◌≡◌, ◌<◌, ◌≤◌, ℕ, true, false, IfSome, Some, option_and_then};
ghost use Rattle.fault_handler.specs.Below.{page_number, second_page, IsUserPage, Size, place_in, cost, after_load, after_store, access_places, place_at, container_of, is_live};
ghost use Rattle.fault_handler.specs.Plans.{outside, plan_at, goes_on};
ghost use Rattle.fault_handler.specs.Looks.{planned_at, planned_by_looks, reach_by, ready_by, roomy_by};

use crate::looks::{barred, look_at, look_behind, need_by};
use crate::plans::{Look, Plan, Planned};
use page_words::{
    Page, Pid, Size, Vaddr, WIDE_FRAMES, in_user_range, page_of, second_page, start_of,
};
use process_table::{Cause, Places, Processes, left_of};
use quota_tree::Container;
use table_walk::{Access, PageFault};

/// The second page of an access to the user range, if it has one; or its first byte that lies outside.
#[inline(always)]
pub(crate) fn reach(address: Vaddr, size: Size) -> Result<Option<Page>, Vaddr>
    ensures { result ≡ reach_by (outside address size) (second_page address size) }
{
    if !in_user_range(page_of(address)) {
        return Err(address);
    }
    match second_page(address, size) {
        None => Ok(None),
        Some(second) if in_user_range(second) => Ok(Some(second)),
        Some(second) => Err(start_of(second)),
    }
}

/// The plan of an access to pages that it may have.
#[inline(always)]
fn ready(first: &Look, second: &Option<Look>) -> Plan
    ensures { result ≡ ready_by first.now second.now }
{
    Plan::Ready {
        first: first.step,
        second: match second {
            Some(second) => Some(second.step),
            None => None,
        },
    }
}

/// Pairs a plan with the charge after it.
fn planned(plan: Plan, charge: u32) -> Planned
    ensures { result ≡ record { plan = plan; charge = charge } }
{
    Planned { plan, charge }
}

/// Plans an access to pages that it may have: Ready if what is left of the process's quota covers what they need,
/// otherwise Quota.
#[inline(always)]
fn by_room(first: &Look, second: &Option<Look>, container: &Container) -> Planned
    requires first { first.now.need ≤ 2 }
    requires second { IfSome second.now (λ look. look.need ≤ 2) }
    requires used { container.now.used < WIDE_FRAMES }
    ensures { result ≡ roomy_by first.now second.now container.now }
{
    let need = need_by(first, second);
    if left_of(container) < need {
        planned(Plan::Refused(Cause::Quota), container.used)
    } else {
        planned(ready(first, second), container.used + need)
    }
}

/// Plans an access to pages of the user range: a fault at the first byte that it may not have, or a plan by the quota
/// that is left.
#[inline(always)]
pub(crate) fn by_looks(
    access: Access,
    first: &Look,
    second: &Option<Look>,
    container: &Container,
) -> Planned
    requires first { first.now.need ≤ 2 }
    requires second { IfSome second.now (λ look. look.need ≤ 2) }
    requires used { container.now.used < WIDE_FRAMES }
    ensures { result ≡ planned_by_looks access first.now second.now container.now }
{
    match barred(access, first, second) {
        Some(byte) => planned(
            Plan::Fault(PageFault::new(byte, access, true)),
            container.used,
        ),
        None => by_room(first, second, container),
    }
}

/// Plans a live process's access to pages of the user range, from their places. `second` is the second page.
#[inline(always)]
pub(crate) fn plan_within(
    processes: &Processes,
    pid: Pid,
    address: Vaddr,
    second: Option<Page>,
    access: Access,
    container: &Container,
    places: &Places,
) -> Planned
    requires live { is_live processes.now.state pid ≡ true }
    requires container { container_of processes.now.state pid ≡ Some container.now }
    requires user { IsUserPage (page_number address) }
    requires behind { IfSome second IsUserPage }
    requires first { places.now.first ≡ Some (place_in processes.now.directories processes.now.bytes pid
        (page_number address)) }
    requires second { places.now.second ≡ option_and_then (place_at processes.now pid) second }
    ensures { (size : Size) → second_page address size ≡ second → outside address size ≡ None
        → result ≡ planned_at processes.now pid address size access }
{
    processes.stands();
    processes.spaces().stands();
    let place = places.first.unwrap();
    let first = look_at(processes, pid, access, address, &place);
    let second = look_behind(processes, pid, access, second, &places.second);
    by_looks(access, &first, &second, container)
}

/// Returns the plan of a live process's access, as `plan` does, and the process's charge after it. After a fault or a
/// refusal that is the current charge. `container` is the process's, and `places` are those of the pages that the
/// access touches.
#[inline(always)]
pub fn plan_by(
    processes: &Processes,
    pid: Pid,
    address: Vaddr,
    size: Size,
    access: Access,
    container: &Container,
    places: &Places,
) -> Planned
    requires live { is_live processes.now.state pid ≡ true }
    requires container { container_of processes.now.state pid ≡ Some container.now }
    requires places { places.now ≡ access_places processes.now pid address size }
    ensures plan { result.plan ≡ plan_at processes.now pid address size access }
    ensures load { goes_on result.plan ≡ true → result.charge
        ≡ cost (after_load processes.now.state pid address size).spaces pid }
    ensures store { (value : ℕ) → goes_on result.plan ≡ true
        → result.charge ≡ cost (after_store processes.now.state pid address size value).spaces pid }
    ensures stays { goes_on result.plan ≡ false → result.charge ≡ cost processes.now.state.spaces pid }
{
    match reach(address, size) {
        Ok(second) => plan_within(processes, pid, address, second, access, container, places),
        Err(byte) => planned(
            Plan::Fault(PageFault::new(byte, access, false)),
            container.used,
        ),
    }
}

/// Returns the plan of a live process's access.
///
/// It is the first of these that applies. A fault of code 4 (read) or 6 (write) comes at the first byte outside the
/// user range. A fault of code 7 comes for a write at the first byte in a page that is mapped without the right to
/// write. Quota comes if there is no room for the pages that are not mapped. Otherwise the access completes. An
/// unmapped page is mapped first, and a lazy page that is written is filled first.
pub fn plan(processes: &Processes, pid: Pid, address: Vaddr, size: Size, access: Access) -> Plan
    requires live { is_live processes.now.state pid ≡ true }
    ensures { result ≡ plan_at processes.now pid address size access }
{
    let container = processes.container(pid).unwrap();
    let places = processes.access_places(pid, address, size);
    plan_by(processes, pid, address, size, access, &container, &places).plan
}
