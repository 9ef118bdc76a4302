//! Accesses of processes: planning an access, and carrying its plan out.
//!
//! A plan is made from a state, before anything changes. It is a refusal, a page fault, or completion. Refusals and
//! faults change nothing. An access completes immediately, or after the one or two pages that it touches have been
//! mapped or filled.
#![tactic(auto)]

ghost use Rattle.std.specs.Prelude.{◌≡◌, ◌≢◌, ℕ, true, false, not, [], ◌∷◌, Some, is_some};
ghost use Rattle.fault_handler.specs.Below.{second_page, IsUserPage, at_page, with_page, is_mapped, overdrawn, access_value, after_access, FramesStay, none_goes, found_of, place_in, access_places, memory_of};
ghost use Rattle.fault_handler.specs.Fills.{lazy_written};
ghost use Rattle.fault_handler.specs.Plans.{maps_page, plan_at};
ghost use Rattle.fault_handler.specs.declared.plans.Plan.TheVariants as plan;

mod accesses;
mod looks;
mod planning;
mod plans;

pub use accesses::{access, settle, try_access};
use address_space::Place;
use page_words::{Page, Pid, Size, Vaddr, page_of};
pub use planning::{plan, plan_by};
pub use plans::{PageStep, Plan, Planned, Stop};
use process_table::{Places, Processes};
use table_walk::Access;

/// Maps a page that isn't mapped, and that there is room for: its place then.
#[inline(always)]
pub(crate) fn map_new(processes: &mut Processes, pid: Pid, page: Page, place: &Place) -> Place
    requires user { IsUserPage page }
    requires unmapped { is_mapped processes.old.state (at_page pid page) ≡ false }
    requires room { overdrawn processes.old.state pid (page ∷ []) ≡ false }
    requires place { place.now ≡ place_in processes.old.directories processes.old.bytes pid page }
    ensures state { processes.new.state ≡ record processes.old.state
        { spaces = with_page processes.old.state.spaces pid page } }
    ensures stay { FramesStay none_goes (memory_of processes.old) (memory_of processes.new) }
    ensures place { result ≡ place_in processes.new.directories processes.new.bytes pid page }
    ensures beside { (other : ℕ) → other ≢ page
        → is_some (found_of (place_in processes.old.directories processes.old.bytes pid other)) ≡ true
        → place_in processes.new.directories processes.new.bytes pid other
        ≡ place_in processes.old.directories processes.old.bytes pid other }
{
    processes.map_at(pid, page, true, place)
}

/// The places of two pages, each in the user range.
#[inline(always)]
pub(crate) fn both(first: &Place, second: &Place) -> Places
    ensures { result ≡ record { first = Some first.now; second = Some second.now } }
{
    Places {
        first: Some(*first),
        second: Some(*second),
    }
}

/// Maps one of two pages, where its step says so: the places of both then. The other is looked up again only if it isn't
/// mapped, since their region may get its table by that.
#[inline(always)]
fn map_of_two(
    processes: &mut Processes,
    pid: Pid,
    page: Page,
    how: PageStep,
    place: &Place,
    other: Page,
    beside: &Place,
) -> (Place, Place)
    requires user { IsUserPage page }
    requires other { IsUserPage other }
    requires apart { other ≢ page }
    requires how { is_mapped processes.old.state (at_page pid page) ≡ not (maps_page how) }
    requires room { overdrawn processes.old.state pid (page ∷ []) ≡ false }
    requires place { place.now ≡ place_in processes.old.directories processes.old.bytes pid page }
    requires beside { beside.now ≡ place_in processes.old.directories processes.old.bytes pid other }
    ensures state { processes.new.state ≡ record processes.old.state
        { spaces = with_page processes.old.state.spaces pid page } }
    ensures stay { FramesStay none_goes (memory_of processes.old) (memory_of processes.new) }
    ensures place { result.0 ≡ place_in processes.new.directories processes.new.bytes pid page }
    ensures beside { result.1 ≡ place_in processes.new.directories processes.new.bytes pid other }
{
    if how != PageStep::MapZero {
        return (*place, *beside);
    }
    let mapped = map_new(processes, pid, page, place);
    if beside.is_mapped() {
        return (mapped, *beside);
    }
    (mapped, processes.spaces().place(pid, other))
}

/// Carries out an access over two pages, which completes by these steps of them: the value read, or 0 after a write.
/// The places are those of the pages.
pub(crate) fn settle_over(
    processes: &mut Processes,
    first: PageStep,
    second: PageStep,
    pid: Pid,
    address: Vaddr,
    size: Size,
    access: Access,
    value: u32,
    behind: Page,
    places: &Places,
) -> u32
    requires plan { plan.Ready first (Some second) ≡ plan_at processes.old pid address size access }
    requires behind { second_page address size ≡ Some behind }
    requires places { places.now ≡ access_places processes.old pid address size }
    ensures value { result ≡ access_value processes.old.state pid address size access }
    ensures state { processes.new.state ≡ after_access processes.old.state pid address size access value }
    ensures stay { FramesStay (lazy_written access pid address size) (memory_of processes.old)
        (memory_of processes.new) }
{
    let page = page_of(address);
    let (one, two) = (places.first.unwrap(), places.second.unwrap());
    let (one, two) = map_of_two(processes, pid, page, first, &one, behind, &two);
    let (two, one) = map_of_two(processes, pid, behind, second, &two, page, &one);
    match access {
        Access::Read => {
            let places = both(&one, &two);
            processes.access_at(pid, address, size, Access::Read, value, &places)
        }
        Access::Write => {
            let one = processes.fill_at(pid, page, &one);
            let two = processes.fill_at(pid, behind, &two);
            let places = both(&one, &two);
            processes.access_at(pid, address, size, Access::Write, value, &places)
        }
    }
}
