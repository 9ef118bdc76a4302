//! Who else has a page, and taking it back: the Unmaps of all other slots of its group.

ghost use Rattle.std.specs.Prelude.{◌≡◌, ℕ, ◌<◌, ◌≤◌, ◌==◌, ◌&&◌, not, true, false, IsOk, IfSome, IfNone, IfOk, IfErr, IsErr, length, take, drop};
ghost use Rattle.kernel_acts.specs.Below.{EndAlong, IsUserPage, Slot, StandsFor, View, answer, at_page, completes, image_of, info_of_page, is_mapped, is_slot};
ghost use Rattle.kernel_calls.specs.Effects.{IsAlone};
ghost use Rattle.kernel_acts.specs.TakenBack.{Leads, unmaps, pages_of_all, is_beside, TakesBack, Taking, Unmapped};
ghost use Rattle.kernel_calls.specs.declared.calls.Reply.TheVariants as reply;
ghost use Rattle.kernel_calls.specs.declared.translations.Ended.TheVariants as end;

use crate::steps::step;
use kernel_calls::{Call, Core, Event, Reply};
use page_words::{Frame, Page, Pid, in_user_range, start_of};
use process_table::Cause;
use table_walk::{Access, walk};

/// A slot: a page of a process.
#[derive(Clone, Copy, Debug, PartialEq, Eq)]
pub struct Holder {
    pub pid: Pid,
    pub page: Page,
}

/// Whether two slots are one.
#[tactic(auto, using(crate::proofs::Unmaps::slot_test))]
fn is_slot(pid: Pid, page: Page, other: Pid, other_page: Page) -> bool
    ensures { result ≡ is_slot pid page (at_page other other_page) }
{
    other == pid && other_page == page
}

/// Whether two frames are one, and not frame 0.
pub(crate) fn are_one(frame: Frame, other: Frame) -> bool
    ensures { result ≡ (not (frame == 0) && (frame == other)) }
{
    frame.0 != 0 && frame == other
}

/// The frame to which a page of a process leads, frame 0 where it is lazy; None where it is not mapped.
pub(crate) fn frame_at(core: &Core, pid: Pid, page: Page) -> Option<Frame>
    requires user { IsUserPage page }
    ensures leads { IfSome result (Leads core.now pid page) }
    ensures none { IfNone result (is_mapped core.now.state (at_page pid page) ≡ false) }
{
    core.stands();
    let Some(directory) = core.directory(pid) else {
        return None;
    };
    match walk(core.memory(), directory, start_of(page), Access::Read) {
        Ok(frame) => Some(frame),
        Err(_) => None,
    }
}

/// Whether a slot is another than a slot, and shares its page: both lead to one frame, which is not frame 0.
fn is_beside(core: &Core, pid: Pid, page: Page, other: Pid, other_page: Page) -> bool
    requires user { IsUserPage page }
    requires other_user { IsUserPage other_page }
    ensures { result ≡ is_beside core.now.state (at_page pid page) (at_page other other_page) }
{
    core.stands();
    if is_slot(pid, page, other, other_page) {
        return false;
    }
    let Some(frame) = frame_at(core, pid, page) else {
        return false;
    };
    let Some(found) = frame_at(core, other, other_page) else {
        return false;
    };
    are_one(frame, found)
}

/// Returns the lowest page from there on at which a process also has the page of a slot, at another slot; None if
/// it has it at none. It looks up each page that the process has mapped from there on.
pub fn next_beside(core: &Core, pid: Pid, page: Page, holder: Pid, from: Page) -> Option<Page>
    requires user { IsUserPage page }
    ensures found { IfSome result (λ found. is_beside core.now.state (at_page pid page) (at_page holder found)
        ≡ true) }
    ensures user { IfSome result IsUserPage }
    ensures from { IfSome result (λ found. from ≤ found) }
    ensures least { IfSome result (λ found. (other : ℕ) → from ≤ other → other < found
        → is_beside core.now.state (at_page pid page) (at_page holder other) ≡ false) }
    ensures none { IfNone result ((other : ℕ) → from ≤ other
        → is_beside core.now.state (at_page pid page) (at_page holder other) ≡ false) }
{
    core.stands();
    let mut at = from;
    while let Some(found) = core.next_page(holder, at) {
        if is_beside(core, pid, page, holder, found) {
            return Some(found);
        }
        at = Page(found.0 + 1);
    }
    None
}

/// Whether a mapped page's group has this slot alone, by the count of its slots.
fn is_alone(core: &Core, pid: Pid, page: Page) -> bool
    requires user { IsUserPage page }
    ensures { result ≡ true → IsAlone core.now.state (at_page pid page) }
{
    core.stands();
    match core.page(pid, page) {
        Some(state) => state.cell.holders == 1,
        None => false,
    }
}

/// Makes the Unmap of another slot of a slot's group.
fn unmap_beside(core: &mut Core, pid: Pid, page: Page, other: Pid, other_page: Page)
    requires beside { is_beside core.old.state (at_page pid page) (at_page other other_page) ≡ true }
    ensures unmapped { Unmapped core.old core.new (at_page pid page) (record { pid = other; page = other_page }) }
{
    core.stands();
    step(core, other, Call::Unmap { page: other_page });
}

/// Takes the page of a slot from one process, while there are places to report it in.
fn take_from(
    core: &mut Core,
    pid: Pid,
    page: Page,
    holder: Pid,
    lost: &mut [Holder],
    start: usize,
) -> usize
    requires user { IsUserPage page }
    requires room { start ≤ length lost.old }
    ensures taking { (v : View) → Taking v core.old (at_page pid page) (take start lost.old)
        → Taking v core.new (at_page pid page) (take result lost.new) }
    ensures clear { result < length lost.old → (other : ℕ)
        → is_beside core.new.state (at_page pid page) (at_page holder other) ≡ false }
    ensures others { (slot : Slot) → is_beside core.old.state (at_page pid page) slot ≡ false
        → is_beside core.new.state (at_page pid page) slot ≡ false }
    ensures room { result ≤ length lost.old }
    ensures more { start ≤ result }
    ensures rest { drop result lost.new ≡ drop result lost.old }
{
    let (mut at, mut count) = (Page(0), start);
    while let Some(found) = next_beside(core, pid, page, holder, at) {
        if count == lost.len() {
            return count;
        }
        core.stands();
        unmap_beside(core, pid, page, holder, found);
        lost[count] = Holder {
            pid: holder,
            page: found,
        };
        count += 1;
        at = Page(found.0 + 1);
    }
    count
}

/// Takes the page of a slot from one process after another.
fn take_from_all(core: &mut Core, pid: Pid, page: Page, lost: &mut [Holder]) -> usize
    requires user { IsUserPage page }
    ensures taking { Taking core.old core.new (at_page pid page) (take result lost.new) }
    ensures alone { result < length lost.old → IsAlone core.new.state (at_page pid page) }
    ensures most { result ≤ length lost.old }
    ensures rest { drop result lost.new ≡ drop result lost.old }
{
    let mut count = 0;
    for number in 0..64u8 {
        if count == lost.len() || is_alone(core, pid, page) {
            return count;
        }
        let holder = Pid::new(number).unwrap();
        count = take_from(core, pid, page, holder, lost, count);
    }
    core.stands();
    count
}

/// Why a page can't be looked at, as an Info of it would be refused.
fn refusal_of(core: &Core, pid: Pid, page: Page) -> Option<Cause>
    ensures refused { IfSome result (λ cause. answer core.now.state (info_of_page pid page) ≡ reply.Refused cause) }
    ensures user { IfNone result (IsUserPage page) }
{
    let event = Event {
        cpu: 0,
        pid,
        call: Call::Info { page },
    };
    match core.decide(&event).reply {
        Reply::Refused(cause) => Some(cause),
        _ => None,
    }
}

/// Takes a page back from all others that have it: the run of the Unmaps of every other slot of its group, each of
/// which is done. Then the group has only this slot. `lost` gets the slots that lost it, in that order, and the
/// result is how many did; its other places stay. Each processor that cached their translations invalidates them.
/// If `lost` is full, others may still have the page: call again. A group has fewer slots than memory has frames,
/// and `page` returns how many.
///
/// It looks up the pages that processes have mapped, process by process, until the group has only this slot.
///
/// Refused where an Info of the page would be; then nothing changes.
pub fn take_back(core: &mut Core, pid: Pid, page: Page, lost: &mut [Holder]) -> Result<usize, Cause>
    ensures refused { IfErr result (λ cause. answer core.old.state (info_of_page pid page) ≡ reply.Refused cause) }
    ensures done { completes (answer core.old.state (info_of_page pid page)) ≡ true → IsOk result }
    ensures kept { IsErr result → (core.new ≡ core.old) × (lost.new ≡ lost.old) }
    ensures taken { IfOk result (λ count. TakesBack core.old.state (at_page pid page)
        (take count lost.new) core.new.state) }
    ensures ended { IfOk result (λ count. EndAlong (unmaps (take count lost.new))
        (pages_of_all (take count lost.new)) core.old core.new) }
    ensures alone { IfOk result (λ count. count < length lost.old → IsAlone core.new.state (at_page pid page)) }
    ensures most { IfOk result (λ count. count ≤ length lost.old) }
    ensures rest { IfOk result (λ count. drop count lost.new ≡ drop count lost.old) }
    ensures stands { StandsFor (image_of core.new) core.new.state }
{
    core.stands();
    if let Some(cause) = refusal_of(core, pid, page) {
        return Err(cause);
    }
    let count = take_from_all(core, pid, page, lost);
    core.stands();
    Ok(count)
}
