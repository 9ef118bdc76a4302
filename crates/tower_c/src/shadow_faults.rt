//! Faults and events of a core with shadow tables, for C.

ghost use Rattle.std.specs.Prelude.{◌≡◌, ◌≤◌, ◌↔◌, ◌&&◌, IfSome, Some, true, false};
ghost use Rattle.process_table.specs.Image.{StandsFor, image_of};
ghost use Rattle.kernel_calls.specs.Translations.{Ends};
ghost use Rattle.c_handle.specs.Handle.{IsTower};
ghost use Rattle.c_handle.specs.ShadowHandle.{IsTowerShadow};
ghost use Rattle.shadow_core.specs.Paired.{IsShadowed};
ghost use Rattle.tower_c.specs.Border.{LeavesMemory, event_in, pid_of, reply_in, state_after, is_carried_out, ends_in, ended_numbers};
ghost use Rattle.tower_c.specs.Shadows.{AreShadowed, HandlesIn, Forgets, status_of, told_of};

use crate::numbers::{
    TowerEnded, TowerEvent, TowerReply, access_from, done, ended_from, event_from, no_event,
    pid_from, refused_for, told_from,
};
use c_handle::{Tower, TowerShadow, put, put_tables, take, take_tables};
use kernel_calls::{Core, Ended, Reply};
use shadow_core::{Handled, carry_out, handle_fault};
use shadow_tables::ShadowTables;
use std::alloc::Global;

/// How a fault was handled.
const FILLED: u32 = 0;

const FULL: u32 = 1;

const STOPPED: u32 = 2;

const NOTHING: u32 = 3;

/// The number of how a fault was handled.
fn status_of(handled: &Handled) -> u32
    ensures { result ≡ status_of handled.now }
{
    match handled {
        Handled::Filled => FILLED,
        Handled::Full => FULL,
        Handled::Fault { .. } => STOPPED,
        Handled::Refused(_) => STOPPED,
    }
}

/// The reply that stopped a fault.
fn told_of(handled: &Handled) -> TowerReply
    ensures { result ≡ told_of handled.now }
{
    match handled {
        Handled::Filled => done(),
        Handled::Full => done(),
        Handled::Fault { addr, code } => told_from(&Reply::Fault {
            addr: *addr,
            code: *code,
        }),
        Handled::Refused(cause) => refused_for(*cause),
    }
}

/// Handles a fault of a process: the status, the reply and what it ended. A number of no process changes nothing.
fn fault(
    core: &mut Core,
    tables: &mut ShadowTables,
    pid: u32,
    address: u64,
    write: bool,
) -> (u32, TowerReply, TowerEnded)
    requires { IsShadowed core.old tables.old }
    ensures shadowed { IsShadowed core.new tables.new }
    ensures handled { HandlesIn core.old tables.old (pid_of pid) address write result.0 result.1 result.2
        core.new tables.new }
    ensures statuses { result.0 ≤ 2 }
    ensures stands { StandsFor (image_of core.new) core.new.state }
{
    core.stands();
    let Some(pid) = pid_from(pid) else {
        return (STOPPED, no_event(), ended_from(Ended::Nothing));
    };
    let (handled, ended) = handle_fault(core, tables, pid, address, access_from(write));
    let status = status_of(&handled);
    let told = told_of(&handled);
    let ends = ended_from(ended);
    (status, told, ends)
}

/// Handles a fault of a processor in user mode, at an address of 64 bits. It makes the access of the byte there as an
/// event that changes no byte, as `tower_touch` does, and forgets what that ended. Then it fills the page's translation,
/// so that the processor completes the access: 0. `ended` becomes what it ended; whoever caches that invalidates it, and
/// what was cached of the page that faulted, before anything else is done.
///
/// 1 if the fill needs more frames of the pool than are free: nothing changed then, and the caller forgets all, or a
/// process, and repeats. 2 if the core stopped the access: `reply` becomes its fault or its refusal, or no event if the number is no
/// process; nothing changed then. 3 if one of the handles has nothing.
#[unsafe(no_mangle)]
pub extern "C" fn tower_shadow_fault(
    alloc: Global,
    tower: &mut Tower,
    shadow: &mut TowerShadow,
    pid: u32,
    address: u64,
    write: bool,
    reply: &mut TowerReply,
    ended: &mut TowerEnded,
) -> u32
    requires core { IsTower tower.old }
    requires tables { IsTowerShadow shadow.old }
    requires agree { AreShadowed tower.old.hold.core shadow.old.hold.tables }
    ensures kept_core { IsTower tower.new }
    ensures kept_tables { IsTowerShadow shadow.new }
    ensures kept_agree { AreShadowed tower.new.hold.core shadow.new.hold.tables }
    ensures live { (tower.new.live ≡ tower.old.live) × (shadow.new.live ≡ shadow.old.live) }
    ensures statuses { result ≤ 3 }
    ensures there { (result ≤ 2) ↔ ((tower.old.live && shadow.old.live) ≡ true) }
    ensures handled { result ≤ 2 → IfSome tower.old.hold.core (λ core. IfSome shadow.old.hold.tables
        (λ tables. IfSome tower.new.hold.core (λ next. IfSome shadow.new.hold.tables
        (λ later. HandlesIn core tables (pid_of pid) address write result reply.new ended.new next later)))) }
    ensures stands { result ≤ 2 → IfSome tower.new.hold.core (λ core. StandsFor (image_of core) core.state) }
    ensures none { result ≡ 3 → (reply.new ≡ reply.old) × (ended.new ≡ ended.old)
        × (tower.new.hold.core ≡ tower.old.hold.core) × (shadow.new.hold.tables ≡ shadow.old.hold.tables) }
{
    match take(alloc, tower) {
        Some(mut core) => match take_tables(alloc, shadow) {
            Some(mut tables) => {
                let told = fault(&mut core, &mut tables, pid, address, write);
                *reply = told.1;
                *ended = told.2;
                put(tower, core);
                put_tables(shadow, tables);
                told.0
            }
            None => {
                put(tower, core);
                NOTHING
            }
        },
        None => NOTHING,
    }
}

/// Carries out an event, and forgets what it ended. Numbers that are no event change nothing.
#[tactic(auto, unfolding(crate::specs::Border::is_carried_out))]
fn step(core: &mut Core, tables: &mut ShadowTables, event: &TowerEvent) -> (TowerReply, TowerEnded)
    requires { IsShadowed core.old tables.old }
    ensures shadowed { IsShadowed core.new tables.new }
    ensures reply { result.0 ≡ reply_in core.old.state (event_in event.now) }
    ensures ended { result.1 ≡ ended_numbers (ends_in core.old (event_in event.now)) }
    ensures state { core.new.state ≡ state_after core.old.state (event_in event.now) }
    ensures ends { Ends (ends_in core.old (event_in event.now)) core.old core.new }
    ensures memory { LeavesMemory core.old core.new (event_in event.now) }
    ensures forgets { Forgets tables.old (ends_in core.old (event_in event.now)) tables.new }
    ensures refused { is_carried_out core.old.state (event_in event.now) ≡ false
        → (core.new ≡ core.old) × (tables.new ≡ tables.old) }
    ensures stands { StandsFor (image_of core.new) core.new.state }
{
    core.stands();
    let Some(event) = event_from(event) else {
        return (no_event(), ended_from(Ended::Nothing));
    };
    let told = carry_out(core, tables, &event);
    (told_from(&told.0), ended_from(told.1))
}

/// Carries out one event, as `tower_step_ending` does, and forgets what it ended. If that is all of a process, no
/// processor may have its root. A refusal or a fault changes nothing, nor do numbers that are no event. Returns false if
/// one of the handles has nothing; then nothing changes.
#[unsafe(no_mangle)]
pub extern "C" fn tower_shadow_step(
    alloc: Global,
    tower: &mut Tower,
    shadow: &mut TowerShadow,
    event: &TowerEvent,
    reply: &mut TowerReply,
    ended: &mut TowerEnded,
) -> bool
    requires core { IsTower tower.old }
    requires tables { IsTowerShadow shadow.old }
    requires agree { AreShadowed tower.old.hold.core shadow.old.hold.tables }
    ensures kept_core { IsTower tower.new }
    ensures kept_tables { IsTowerShadow shadow.new }
    ensures kept_agree { AreShadowed tower.new.hold.core shadow.new.hold.tables }
    ensures live { (tower.new.live ≡ tower.old.live) × (shadow.new.live ≡ shadow.old.live) }
    ensures there { result ≡ (tower.old.live && shadow.old.live) }
    ensures reply { result ≡ true → IfSome tower.old.hold.core
        (λ core. reply.new ≡ reply_in core.state (event_in event.now)) }
    ensures ended { result ≡ true → IfSome tower.old.hold.core
        (λ core. ended.new ≡ ended_numbers (ends_in core (event_in event.now))) }
    ensures state { result ≡ true → IfSome tower.old.hold.core (λ core. IfSome tower.new.hold.core
        (λ next. next.state ≡ state_after core.state (event_in event.now))) }
    ensures ends { result ≡ true → IfSome tower.old.hold.core (λ core. IfSome tower.new.hold.core
        (λ next. Ends (ends_in core (event_in event.now)) core next)) }
    ensures memory { result ≡ true → IfSome tower.old.hold.core (λ core. IfSome tower.new.hold.core
        (λ next. LeavesMemory core next (event_in event.now))) }
    ensures forgets { result ≡ true → IfSome tower.old.hold.core (λ core. IfSome shadow.old.hold.tables
        (λ tables. IfSome shadow.new.hold.tables
        (λ later. Forgets tables (ends_in core (event_in event.now)) later))) }
    ensures refused { result ≡ true → IfSome tower.old.hold.core (λ core. is_carried_out core.state
        (event_in event.now) ≡ false → (tower.new.hold.core ≡ tower.old.hold.core)
        × (shadow.new.hold.tables ≡ shadow.old.hold.tables)) }
    ensures stands { result ≡ true → IfSome tower.new.hold.core (λ core. StandsFor (image_of core) core.state) }
    ensures none { result ≡ false → (reply.new ≡ reply.old) × (ended.new ≡ ended.old)
        × (tower.new.hold.core ≡ tower.old.hold.core) × (shadow.new.hold.tables ≡ shadow.old.hold.tables) }
{
    match take(alloc, tower) {
        Some(mut core) => match take_tables(alloc, shadow) {
            Some(mut tables) => {
                let told = step(&mut core, &mut tables, event);
                *reply = told.0;
                *ended = told.1;
                put(tower, core);
                put_tables(shadow, tables);
                true
            }
            None => {
                put(tower, core);
                false
            }
        },
        None => false,
    }
}
