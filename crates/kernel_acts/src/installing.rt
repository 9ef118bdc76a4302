//! Putting bytes into a page of a process, whatever right the process has there: a run of its own events.

ghost use Rattle.std.specs.Prelude.{◌≡◌, ◌+◌, ◌<◌, ◌≤◌, true, false, IsOk, IsErr, IfSome, IfNone, IfErr, MatchOption, length};
ghost use Rattle.kernel_acts.specs.Below.{EndsMarks, StandsFor, after_stores, at_page, image_of, is_mapped, offset_number, page_number, slot_at};
ghost use Rattle.kernel_acts.specs.Installed.{is_writable_at, store_run, closed, installed, IsRunTo, Installs, IsNotOpened, IsOpening, IsOpened};
ghost use Rattle.kernel_acts.specs.Steps.{event_of};
ghost use Rattle.kernel_acts.specs.Transfers.{AreStored};
ghost use Rattle.kernel_calls.specs.declared.translations.Ended.TheVariants as end;

use crate::steps::{completes, step};
use crate::transfers::write_bytes;
use kernel_calls::{Call, Core, Reply};
use page_words::{Page, Pid, Vaddr, in_user_range, page_of};

/// Whether a process may write to a page now; None where it is not mapped.
fn right_at(core: &Core, pid: Pid, page: Page) -> Option<bool>
    ensures { MatchOption result (is_mapped core.now.state (at_page pid page) ≡ false)
        (λ write. (is_mapped core.now.state (at_page pid page) ≡ true)
        × (is_writable_at core.now.state (at_page pid page) ≡ write)) }
{
    core.stands();
    if !in_user_range(page) {
        return None;
    }
    match core.page(pid, page) {
        Some(state) => Some(state.cell.write),
        None => None,
    }
}

/// Stores bytes that lie in one page, which is mapped with the right to write: all of them go.
fn store_all(core: &mut Core, pid: Pid, address: Vaddr, part: &[u8])
    requires within { offset_number address + length part.now ≤ 4096 }
    requires some { 0 < length part.now }
    requires mapped { is_mapped core.old.state (slot_at pid address) ≡ true }
    requires write { is_writable_at core.old.state (slot_at pid address) ≡ true }
    ensures stored { AreStored core.old.state pid address part.now core.new.state }
    ensures state { core.new.state ≡ after_stores core.old.state pid address part.now }
    ensures marks { EndsMarks (end.Page pid (page_number address)) core.old core.new }
{
    core.stands();
    write_bytes(core, pid, address, part);
    core.stands();
}

/// The call that makes a page of a process writable: its Map where it is not mapped, its Protect where it has no right
/// to write. None where it is writable.
fn opening(core: &Core, pid: Pid, page: Page) -> Option<Call>
    ensures call { IfSome result (λ call. IsOpening core.now.state pid page (event_of pid call)) }
    ensures none { IfNone result (IsOpened core.now.state pid page core.now.state) }
{
    match right_at(core, pid, page) {
        Some(true) => None,
        Some(false) => Some(Call::Protect { page, write: true }),
        None => Some(Call::Map { page, write: true }),
    }
}

/// Makes a page of a process writable. Nothing changes if that is refused; then the result is the reply.
fn open(core: &mut Core, pid: Pid, page: Page) -> Result<(), Reply>
    ensures opened { IsOk result → IsOpened core.old.state pid page core.new.state }
    ensures refused { IfErr result (IsNotOpened core.old.state pid page) }
    ensures marks { EndsMarks (end.Page pid page) core.old core.new }
    ensures kept { IsErr result → core.new ≡ core.old }
{
    core.stands();
    let Some(call) = opening(core, pid, page) else {
        return Ok(());
    };
    let reply = step(core, pid, call);
    if !completes(&reply) {
        return Err(reply);
    }
    Ok(())
}

/// Stores bytes that lie in one page, which is mapped with the right to write, and leaves that right or takes it.
fn store_and_close(core: &mut Core, pid: Pid, address: Vaddr, part: &[u8], write: bool)
    requires within { offset_number address + length part.now ≤ 4096 }
    requires some { 0 < length part.now }
    requires mapped { is_mapped core.old.state (slot_at pid address) ≡ true }
    requires right { is_writable_at core.old.state (slot_at pid address) ≡ true }
    ensures run { IsRunTo core.old.state (store_run pid address part.now write) core.new.state }
    ensures state { core.new.state ≡ closed (after_stores core.old.state pid address part.now) pid
        (page_number address) write }
    ensures marks { EndsMarks (end.Page pid (page_number address)) core.old core.new }
{
    store_all(core, pid, address, part);
    if write {
        return;
    }
    core.stands();
    let page = page_of(address);
    step(core, pid, Call::Protect { page, write: false });
    core.stands();
}

/// Puts bytes into one page of a process, and leaves the page with the right that `write` says. A page that is not
/// mapped is mapped, and one that may not be written to gets that right first. It is the run of the process's own
/// Map or Protect, of the stores of one byte each, and of a Protect that takes the right, if the page is to have
/// none. Each processor that cached the page's translation invalidates it. Nothing changes if the page can't be
/// made writable; then the result is the reply to that event.
pub fn install(
    core: &mut Core,
    pid: Pid,
    address: Vaddr,
    part: &[u8],
    write: bool,
) -> Result<(), Reply>
    requires within { offset_number address + length part.now ≤ 4096 }
    requires some { 0 < length part.now }
    ensures installed { IsOk result → Installs core.old.state pid address part.now write core.new.state }
    ensures state { IsOk result → core.new.state ≡ installed core.old.state pid address part.now write }
    ensures refused { IfErr result (IsNotOpened core.old.state pid (page_number address)) }
    ensures marks { EndsMarks (end.Page pid (page_number address)) core.old core.new }
    ensures kept { IsErr result → core.new ≡ core.old }
    ensures stands { StandsFor (image_of core.new) core.new.state }
{
    core.stands();
    open(core, pid, page_of(address))?;
    store_and_close(core, pid, address, part, write);
    core.stands();
    Ok(())
}
