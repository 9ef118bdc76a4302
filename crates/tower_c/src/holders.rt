//! Who else has a page of a process, and taking it back.

ghost use Rattle.std.specs.Prelude.{◌≡◌, ◌≢◌, ◌<◌, ◌≤◌, ℕ, Some, IfSome, IfNone, length, map, take, drop, true, false};
ghost use Rattle.address_space.specs.Spaces.{at_page};
ghost use Rattle.process_table.specs.Image.{StandsFor, image_of};
ghost use Rattle.kernel_calls.specs.Effects.{IsAlone};
ghost use Rattle.kernel_calls.specs.Machine.{answer, completes};
ghost use Rattle.kernel_calls.specs.Cleaned.{info_of_page};
ghost use Rattle.kernel_acts.specs.TakenBack.{Taking};
ghost use Rattle.tower_c.specs.Border.{pid_of};
ghost use Rattle.tower_c.specs.Holders.{holder_of, IsNextHolderIn, HasNoHolder, take_refusal, take_told, TakesIn, IsAloneIn};
ghost use Rattle.c_handle.specs.Handle.{IsTower};

use crate::numbers::{TowerReply, done, no_event, pid_from, refused_for};
use c_handle::{Tower, put, take};
use kernel_acts::Holder;
use kernel_calls::{Cause, Core};
use page_words::{Page, Pid, in_user_range};
use std::alloc::Global;

/// A page of a process.
#[repr(C)]
#[derive(Clone, Copy)]
pub struct TowerHolder {
    pub pid: u32,
    pub page: u32,
}

/// Returns the lowest page from `from` on at which a process also has the page of a slot. None if there is none, or a
/// number is no process.
fn next_holder(core: &Core, pid: u32, page: u32, holder: u32, from: u32) -> Option<u32>
    ensures found { IfSome result (λ found. IsNextHolderIn core.now (pid_of pid) page (pid_of holder) from found) }
    ensures none { IfNone result (HasNoHolder core.now (pid_of pid) page (pid_of holder) from) }
{
    core.stands();
    let Some(pid) = pid_from(pid) else {
        return None;
    };
    let Some(holder) = pid_from(holder) else {
        return None;
    };
    if !in_user_range(Page(page)) {
        return None;
    }
    match kernel_acts::next_beside(core, pid, Page(page), holder, Page(from)) {
        Some(found) => Some(found.0),
        None => None,
    }
}

/// Finds the lowest page from `from` on at which process `holder` also has a page of process `pid`, at another place
/// than that page itself: both share it. It looks up each page that the holder has mapped from there on. Returns false
/// if the handle has no core, a number is no process, or there is no such page. `from` may be any page.
#[unsafe(no_mangle)]
pub extern "C" fn tower_next_holder(
    alloc: Global,
    tower: &mut Tower,
    pid: u32,
    page: u32,
    holder: u32,
    from: u32,
    found: &mut u32,
) -> bool
    requires { IsTower tower.old }
    ensures kept { IsTower tower.new }
    ensures same { tower.new.hold.core ≡ tower.old.hold.core }
    ensures core { tower.old.live ≡ false → result ≡ false }
    ensures found { result ≡ true → IfSome tower.old.hold.core
        (λ core. IsNextHolderIn core (pid_of pid) page (pid_of holder) from found.new) }
    ensures last { result ≡ false → IfSome tower.old.hold.core
        (λ core. HasNoHolder core (pid_of pid) page (pid_of holder) from) }
    ensures none { result ≡ false → found.new ≡ found.old }
{
    match take(alloc, tower) {
        Some(core) => {
            let told = next_holder(&core, pid, page, holder, from);
            put(tower, core);
            match told {
                Some(told) => {
                    *found = told;
                    true
                }
                None => false,
            }
        }
        None => false,
    }
}

/// A slot, as numbers.
fn holder_from(holder: &Holder) -> TowerHolder
    ensures { holder_of result ≡ holder.now }
{
    TowerHolder {
        pid: u32::from(holder.pid.number()),
        page: holder.page.0,
    }
}

/// Writes slots as numbers.
fn list(holders: &[Holder], lost: &mut [TowerHolder])
    requires { length lost.old ≡ length holders.now }
    ensures { map holder_of lost.new ≡ holders.now }
{
    for (i, holder) in holders.iter().enumerate() {
        lost[i] = holder_from(holder);
    }
}

/// Takes a page back from up to 64 other slots, as many as there are places.
fn take_some(core: &mut Core, pid: Pid, page: Page, lost: &mut [TowerHolder]) -> usize
    requires shown { completes (answer core.old.state (info_of_page pid page)) ≡ true }
    requires few { length lost.old ≤ 64 }
    ensures taken { Taking core.old core.new (at_page pid page) (map holder_of (take result lost.new)) }
    ensures alone { result < length lost.old → IsAlone core.new.state (at_page pid page) }
    ensures most { result ≤ length lost.old }
    ensures rest { drop result lost.new ≡ drop result lost.old }
{
    let mut part = [Holder { pid, page }; 64];
    let count = kernel_acts::take_back(core, pid, page, &mut part[..lost.len()]).unwrap();
    list(&part[..count], &mut lost[..count]);
    count
}

/// Takes a page back from all other slots, in parts, while there are places.
fn take_all(core: &mut Core, pid: Pid, page: Page, lost: &mut [TowerHolder]) -> usize
    requires shown { completes (answer core.old.state (info_of_page pid page)) ≡ true }
    ensures taken { Taking core.old core.new (at_page pid page) (map holder_of (take result lost.new)) }
    ensures alone { result < length lost.old → IsAlone core.new.state (at_page pid page) }
    ensures most { result ≤ length lost.old }
    ensures rest { drop result lost.new ≡ drop result lost.old }
{
    let mut count = 0;
    while count < lost.len() {
        let places = (lost.len() - count).min(64);
        let more = take_some(core, pid, page, &mut lost[count..count + places]);
        count += more;
        if more < places {
            return count;
        }
    }
    count
}

/// Why a page can't be taken back: the cause for which an Info of it would be refused.
fn refusal(core: &Core, pid: Pid, page: Page) -> Option<Cause>
    ensures { take_refusal core.now.state pid page ≡ result }
{
    core.stands();
    if core.container(pid).is_none() {
        return Some(Cause::NoProcess);
    }
    if !in_user_range(page) {
        return Some(Cause::BadPage);
    }
    if core.page(pid, page).is_none() {
        return Some(Cause::NotMapped);
    }
    None
}

/// Takes a page back. Returns how many slots lost it, and Done or why not.
fn take_back(core: &mut Core, pid: u32, page: u32, lost: &mut [TowerHolder]) -> (usize, TowerReply)
    ensures told { result.1 ≡ take_told core.old.state (pid_of pid) page }
    ensures taken { result.1.kind ≡ 0 → TakesIn core.old core.new (pid_of pid) page
        (map holder_of (take result.0 lost.new)) }
    ensures alone { result.1.kind ≡ 0 → result.0 < length lost.old → IsAloneIn core.new.state (pid_of pid) page }
    ensures most { result.0 ≤ length lost.old }
    ensures rest { drop result.0 lost.new ≡ drop result.0 lost.old }
    ensures stands { StandsFor (image_of core.new) core.new.state }
    ensures refused { result.1.kind ≢ 0 → (core.new ≡ core.old) × (result.0 ≡ 0) }
{
    core.stands();
    let Some(pid) = pid_from(pid) else {
        return (0, no_event());
    };
    if let Some(cause) = refusal(core, pid, Page(page)) {
        return (0, refused_for(cause));
    }
    let count = take_all(core, pid, Page(page), lost);
    core.stands();
    (count, done())
}

/// Takes a page of a process back from all others that share it: the run of the Unmaps of every other slot of its
/// group, each of which is done. `lost` gets the slots that lost it, in that order, and `count` how many did; the other
/// places are unchanged. Whoever caches translations invalidates those of these slots. If `count` is less than the
/// number of places, the process has the page alone; otherwise others may still have it, so call again. `told` becomes
/// Done. It becomes Refused with the cause for which an Info of the page would be refused, and no event if the number
/// is no process; then nothing is taken, and `count` is 0. Returns false if the handle has no core.
#[unsafe(no_mangle)]
pub extern "C" fn tower_take_back(
    alloc: Global,
    tower: &mut Tower,
    pid: u32,
    page: u32,
    lost: &mut [TowerHolder],
    count: &mut usize,
    told: &mut TowerReply,
) -> bool
    requires { IsTower tower.old }
    ensures kept { IsTower tower.new }
    ensures live { (result ≡ tower.old.live) × (tower.new.live ≡ tower.old.live) }
    ensures told { IfSome tower.old.hold.core (λ core. told.new ≡ take_told core.state (pid_of pid) page) }
    ensures taken { IfSome tower.old.hold.core (λ core. IfSome tower.new.hold.core
        (λ next. told.new.kind ≡ 0 → TakesIn core next (pid_of pid) page (map holder_of (take count.new lost.new)))) }
    ensures alone { result ≡ true → IfSome tower.new.hold.core
        (λ core. told.new.kind ≡ 0 → count.new < length lost.old → IsAloneIn core.state (pid_of pid) page) }
    ensures most { result ≡ true → count.new ≤ length lost.old }
    ensures rest { result ≡ true → drop count.new lost.new ≡ drop count.new lost.old }
    ensures stands { IfSome tower.new.hold.core (λ core. StandsFor (image_of core) core.state) }
    ensures refused { IfSome tower.old.hold.core (λ core. told.new.kind ≢ 0 → (tower.new.hold.core ≡ Some core)
        × (count.new ≡ 0)) }
    ensures none { result ≡ false → (lost.new ≡ lost.old) × (count.new ≡ count.old) × (told.new ≡ told.old) }
{
    match take(alloc, tower) {
        Some(mut core) => {
            let taken = take_back(&mut core, pid, page, lost);
            *count = taken.0;
            *told = taken.1;
            put(tower, core);
            true
        }
        None => false,
    }
}
