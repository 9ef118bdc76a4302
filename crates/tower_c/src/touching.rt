//! A processor's page fault: the access of one byte, as an event that changes no byte.

ghost use Rattle.std.specs.Prelude.{◌≡◌, Some, IfSome, false};
ghost use Rattle.process_table.specs.Image.{StandsFor, image_of};
ghost use Rattle.kernel_calls.specs.Translations.{ended_by};
ghost use Rattle.kernel_acts.specs.Touched.{near, access_of_byte};
ghost use Rattle.tower_c.specs.Border.{access_of, given, is_carried_out, pid_of};
ghost use Rattle.tower_c.specs.Touching.{touch_in, touch_ends, IsTouchedIn};
ghost use Rattle.c_handle.specs.Handle.{IsTower};

use crate::numbers::{
    TowerEnded, TowerReply, access_from, ended_from, no_event, pid_from, told_from,
};
use c_handle::{Tower, put, take};
use kernel_calls::{Call, Core, Ended, Event};
use page_words::{Pid, Size, Vaddr};
use std::alloc::Global;

/// Handles a fault of a process on a core: its reply, and what it ended. A number of no process changes nothing.
fn touch(core: &mut Core, pid: u32, address: u64, write: bool) -> (TowerReply, TowerEnded)
    ensures touched { IsTouchedIn core.old (pid_of pid) address write result.0 result.1 core.new }
    ensures stands { StandsFor (image_of core.new) core.new.state }
    ensures refused { is_carried_out core.old.state (touch_in core.old.state (pid_of pid) address write) ≡ false
        → core.new ≡ core.old }
{
    core.stands();
    let Some(pid) = pid_from(pid) else {
        return (no_event(), ended_from(Ended::Nothing));
    };
    let (reply, ended) = kernel_acts::touch(core, pid, address, access_from(write));
    let numbers = told_from(&reply);
    let ends = ended_from(ended);
    (numbers, ends)
}

/// The address as one of 32 bits. Any above is the highest one, which is outside the user range.
fn near(address: u64) -> Vaddr
    ensures { result ≡ near address }
{
    if address < 0x1_0000_0000 {
        Vaddr(address as u32)
    } else {
        Vaddr(u32::MAX)
    }
}

/// What the access of a byte will end. Of a Store that doesn't depend on the byte.
fn access_ends(core: &Core, pid: Pid, addr: Vaddr, write: bool) -> Ended
    ensures { result ≡ ended_by core.now (access_of_byte core.now.state pid addr (access_of write)) }
{
    let size = Size::One;
    let call = if write {
        Call::Store {
            addr,
            size,
            value: 0,
        }
    } else {
        Call::Load { addr, size }
    };
    core.ends(&Event { cpu: 0, pid, call })
}

/// What a fault of a process will end on a core; None for a number of no process.
fn ends(core: &Core, pid: u32, address: u64, write: bool) -> Option<TowerEnded>
    ensures { result ≡ touch_ends (Some core.now) (pid_of pid) address write }
{
    let pid = pid_from(pid)?;
    let ended = access_ends(core, pid, near(address), write);
    Some(ended_from(ended))
}

/// Which cached translations `tower_touch` and `tower_shadow_fault` will end for these arguments, and no others. It
/// changes nothing. Returns false where there is no core, or the number is no process's.
#[unsafe(no_mangle)]
pub extern "C" fn tower_touch_ends(
    alloc: Global,
    tower: &mut Tower,
    pid: u32,
    address: u64,
    write: bool,
    ended: &mut TowerEnded,
) -> bool
    requires { IsTower tower.old }
    ensures kept { IsTower tower.new }
    ensures same { tower.new.hold.core ≡ tower.old.hold.core }
    ensures ended { given result ended.new ≡ touch_ends tower.old.hold.core (pid_of pid) address write }
    ensures none { result ≡ false → ended.new ≡ ended.old }
{
    match take(alloc, tower) {
        Some(core) => {
            let found = ends(&core, pid, address, write);
            put(tower, core);
            match found {
                Some(found) => {
                    *ended = found;
                    true
                }
                None => false,
            }
        }
        None => false,
    }
}

/// Makes the access of one byte for which a processor faulted, at an address of 64 bits: its Load, or the Store of the
/// byte that is there. No byte changes. The page is mapped, gets a frame and is marked as accessed, and for a write as
/// dirty, as far as it isn't. `reply` becomes that of the event, and `ended` what it ended: whoever caches that
/// invalidates it before anything else is done. If the event is carried out, the processor's walk lets the access
/// through. An address of more than 32 bits is outside the user range: its fault is at ffffffff. Returns false if the
/// handle has no core.
#[unsafe(no_mangle)]
pub extern "C" fn tower_touch(
    alloc: Global,
    tower: &mut Tower,
    pid: u32,
    address: u64,
    write: bool,
    reply: &mut TowerReply,
    ended: &mut TowerEnded,
) -> bool
    requires { IsTower tower.old }
    ensures kept { IsTower tower.new }
    ensures live { (result ≡ tower.old.live) × (tower.new.live ≡ tower.old.live) }
    ensures touched { IfSome tower.old.hold.core (λ core. IfSome tower.new.hold.core
        (λ next. IsTouchedIn core (pid_of pid) address write reply.new ended.new next)) }
    ensures stands { IfSome tower.new.hold.core (λ core. StandsFor (image_of core) core.state) }
    ensures refused { IfSome tower.old.hold.core (λ core. is_carried_out core.state
        (touch_in core.state (pid_of pid) address write) ≡ false → tower.new.hold.core ≡ Some core) }
    ensures none { result ≡ false → (reply.new ≡ reply.old) × (ended.new ≡ ended.old) }
{
    match take(alloc, tower) {
        Some(mut core) => {
            let told = touch(&mut core, pid, address, write);
            *reply = told.0;
            *ended = told.1;
            put(tower, core);
            true
        }
        None => false,
    }
}
