//! A processor's page fault: the access of one byte, as an event that changes no byte.

ghost use Rattle.std.specs.Prelude.{◌≡◌, ℕ, true, false};
ghost use Rattle.kernel_acts.specs.Below.{Ends, FramesStay, IsUserPage, StandsFor, answer, byte_at, completes, ended_by, finds_at, gone_by, image_of, memory_of, next, of_call, page_number, slot_at};
ghost use Rattle.table_walk.specs.declared.Access.TheVariants as access;
ghost use Rattle.kernel_calls.specs.declared.calls.Reply.TheVariants as reply;
ghost use Rattle.kernel_calls.specs.declared.translations.Ended.TheVariants as end;
ghost use Rattle.kernel_acts.specs.Touched.{near, touch_of, access_of_byte, AreMarked, TakesNoStore, Touches};
ghost use Rattle.kernel_acts.specs.Transfers.{load_byte, store_byte};

use crate::writing::is_lazy;
use kernel_calls::{Call, Core, Ended, Event, Reply};
use page_words::{Pid, Size, Vaddr, page_of};
use table_walk::Access;

/// The address as one of 32 bits. Any above is the highest one, which is outside the user range.
fn near(address: u64) -> Vaddr
    ensures { result ≡ near address }
{
    if address < 0x1_0000_0000 {
        Vaddr(address as u32)
    } else {
        Vaddr(u32::MAX)
    }
}

/// The Store of a zero, which is carried out.
#[inline(never)]
fn store_of_zero(core: &mut Core, pid: Pid, addr: Vaddr) -> Reply
    ensures reply { result ≡ answer core.old.state (store_byte pid addr 0) }
    ensures state { core.new.state ≡ next core.old.state (store_byte pid addr 0) }
    ensures ends { Ends (ended_by core.old (store_byte pid addr 0)) core.old core.new }
    ensures stay { FramesStay (gone_by core.old.state (store_byte pid addr 0))
        (memory_of core.old) (memory_of core.new) }
    ensures kept { completes result ≡ false → core.new ≡ core.old }
{
    let (size, value) = (Size::One, 0);
    let call = Call::Store { addr, size, value };
    core.step(&Event { cpu: 0, pid, call })
}

/// The Load of a byte, which sets accessed of its page.
fn touch_to_read(core: &mut Core, pid: Pid, address: Vaddr) -> (Reply, Ended)
    ensures { Touches core.old (load_byte pid address) pid address access.Read result.0 result.1 core.new }
{
    core.stands();
    let (addr, size) = (address, Size::One);
    let call = Call::Load { addr, size };
    let reply = core.step(&Event { cpu: 0, pid, call });
    core.stands();
    (reply, Ended::Nothing)
}

/// Sets accessed and dirty of a page that takes stores as memory is, as the Store of the byte that is there does. No
/// byte is written. Returns whether the page is such a one; otherwise nothing changes.
#[inline(always)]
fn mark_written(core: &mut Core, pid: Pid, address: Vaddr) -> bool
    ensures marked { result ≡ true → Touches core.old (access_of_byte core.old.state pid address access.Write)
        pid address access.Write reply.Done end.Nothing core.new }
    ensures none { result ≡ false → TakesNoStore core.old pid address }
    ensures kept { result ≡ false → core.new ≡ core.old }
{
    core.stands();
    let marked = core.store_taken(pid, address, &[]);
    core.stands();
    marked
}

/// What the Store of a byte makes stale if it completes: the translation of its page, if that is lazy.
#[inline(always)]
fn stale_by_store(core: &Core, pid: Pid, address: Vaddr) -> Ended
    ensures { result ≡ of_call core.now pid (store_byte pid address 0).call }
{
    let page = page_of(address);
    if is_lazy(core, pid, page) {
        Ended::Page { pid, page }
    } else {
        Ended::Nothing
    }
}

/// The Store of the byte that is there, in a page that takes no store as memory is: it has zeros, or the Store doesn't
/// complete.
#[inline(always)]
fn store_zero(core: &mut Core, pid: Pid, address: Vaddr) -> (Reply, Ended)
    requires { TakesNoStore core.old pid address }
    ensures { Touches core.old (access_of_byte core.old.state pid address access.Write) pid address access.Write
        result.0 result.1 core.new }
{
    core.stands();
    let ended = stale_by_store(core, pid, address);
    let reply = store_of_zero(core, pid, address);
    core.stands();
    let ended = ended.if_completed(&reply);
    (reply, ended)
}

/// The Store of the byte that is there, which sets accessed and dirty of its page.
#[inline(always)]
fn touch_to_write(core: &mut Core, pid: Pid, address: Vaddr) -> (Reply, Ended)
    ensures { Touches core.old (access_of_byte core.old.state pid address access.Write) pid address access.Write
        result.0 result.1 core.new }
{
    if mark_written(core, pid, address) {
        return (Reply::Done, Ended::Nothing);
    }
    store_zero(core, pid, address)
}

/// The Load of a byte, or the Store of the byte that is there.
#[inline(always)]
fn touch_byte(core: &mut Core, pid: Pid, address: Vaddr, access: Access) -> (Reply, Ended)
    ensures { Touches core.old (access_of_byte core.old.state pid address access) pid address access
        result.0 result.1 core.new }
{
    match access {
        Access::Read => touch_to_read(core, pid, address),
        Access::Write => touch_to_write(core, pid, address),
    }
}

/// Makes the access of one byte for which a processor faulted: its Load, or the Store of the byte that is there. It
/// changes no byte. It maps the page or gives it a frame, if it has none, and sets accessed, and for a write dirty. Then
/// the processor's walk lets the access through. The translations that it ended are the result's second part. Each
/// processor that cached one invalidates it before anything else is done.
///
/// An address of more than 32 bits is taken as the highest one, which is outside the user range. A refusal or a fault
/// changes nothing.
#[inline(always)]
pub fn touch(core: &mut Core, pid: Pid, address: u64, access: Access) -> (Reply, Ended)
    ensures reply { result.0 ≡ answer core.old.state (touch_of core.old.state pid address access) }
    ensures ended { result.1 ≡ ended_by core.old (touch_of core.old.state pid address access) }
    ensures state { core.new.state ≡ next core.old.state (touch_of core.old.state pid address access) }
    ensures ends { Ends result.1 core.old core.new }
    ensures stay { FramesStay (gone_by core.old.state (touch_of core.old.state pid address access))
        (memory_of core.old) (memory_of core.new) }
    ensures kept { completes result.0 ≡ false → core.new ≡ core.old }
    ensures bytes { (p at : ℕ) → byte_at core.new.state.spaces p at ≡ byte_at core.old.state.spaces p at }
    ensures user { completes result.0 ≡ true → IsUserPage (page_number address) }
    ensures finds { completes result.0 ≡ true → finds_at (memory_of core.new) pid access address ≡ true }
    ensures marked { completes result.0 ≡ true → AreMarked core.new.state.spaces (slot_at pid address) access }
    ensures stands { StandsFor (image_of core.new) core.new.state }
{
    let told = touch_byte(core, pid, near(address), access);
    core.stands();
    told
}
