//! What a live process is charged for, and what it has room for.

ghost use Rattle.std.specs.Prelude.{Err, Ok, Some, [], if◌then◌else◌, length, true, ◌+◌, ◌-◌, ◌<◌, ◌∷◌, ◌≡◌, ◌≤◌};
ghost use Rattle.process_table.specs.Below.{IsLive, IsUserPage, at_page, cost, need, place_in, room_of, total_cost, used_of, with_used};
ghost use Rattle.process_table.specs.Words.{IsProcesses, container_of, is_live, is_mapped, number_unless, overdrawn, room};
ghost use Rattle.process_table.specs.declared.causes.Cause.TheVariants as cause;
ghost use Rattle.address_space.specs.View as seen;

use crate::causes::Cause;
use crate::processes::Processes;
use address_space::Place;
use page_words::{Page, Pid, WIDE_FRAMES};
use quota_tree::{Container, Quotas};

/// What a live process is charged for.
pub fn charge_of(processes: &Processes, pid: Pid) -> u32
    requires live { is_live processes.now.state pid ≡ true }
    ensures charge { result ≡ cost processes.now.state.spaces pid }
    ensures few { result < WIDE_FRAMES }
{
    processes.stands();
    processes.spaces().stands();
    processes.container(pid).unwrap().used
}

/// What is left of a container's quota.
pub fn left_of(container: &Container) -> u32
    ensures { result ≡ container.now.quota - container.now.used - container.now.given }
{
    container
        .quota
        .saturating_sub(container.used)
        .saturating_sub(container.given)
}

/// What a live process needs for a page that it hasn't, and is charged for once it has it, or the cause against it:
/// Mapped, Quota. The container is the process's, and the place the page's.
#[tactic(auto, using(crate::proofs::Overdrawn::extra_new))]
#[inline(always)]
pub fn charge_with(
    processes: &Processes,
    container: &Container,
    pid: Pid,
    page: Page,
    place: &Place,
) -> Result<(u32, u32), Cause>
    requires container { container_of processes.now.state pid ≡ Some container.now }
    requires live { is_live processes.now.state pid ≡ true }
    requires user { IsUserPage page }
    requires place { place.now ≡ place_in processes.now.directories processes.now.bytes pid page }
    ensures { result ≡ (if is_mapped processes.now.state (at_page pid page) then Err cause.Mapped
        else if overdrawn processes.now.state pid (page ∷ []) then Err cause.Quota
        else Ok (
          need processes.now.state.spaces pid page,
          cost processes.now.state.spaces pid + need processes.now.state.spaces pid page,
        )) }
{
    processes.stands();
    processes.spaces().stands();
    processes.tells(pid, page, place);
    if place.is_mapped() {
        return Err(Cause::Mapped);
    }
    let frames = place.need();
    if left_of(container) < frames {
        return Err(Cause::Quota);
    }
    Ok((frames, container.used + frames))
}

/// Charges a live process for frames that it has room for, which are then free.
pub fn take_room(quotas: &mut Quotas, pid: Pid, frames: u32)
    requires live { IsLive quotas.old pid }
    requires room { frames ≤ room_of quotas.old pid }
    ensures quotas { quotas.new ≡ with_used quotas.old pid (used_of quotas.old pid + frames) }
    ensures room { (v : seen.View) → IsProcesses v quotas.old
        → 1 + total_cost v.directories v.spaces + frames ≤ length v.roles }
{
    quotas.charge(pid, frames);
    quotas.within();
}

/// What a process is charged for, where nothing is against its call.
pub fn charge_or(charge: u32, refused: Option<Cause>) -> Result<u32, Cause>
    ensures { result ≡ number_unless refused charge }
{
    match refused {
        Some(cause) => Err(cause),
        None => Ok(charge),
    }
}
