//! A CPU takes the core and gives it back.

ghost use Rattle.std.specs.Prelude.{◌≡◌, ◌≢◌, ◌+◌, ◌≤◌, IfSome, None, Some, IsSome, length, true, false};
ghost use Rattle.c_handle.specs.Handle.{IsTower};
ghost use Rattle.tower_threads.specs.Calls.{IsGiven, IsTaken};
ghost use Rattle.tower_threads.specs.Handles.{IsTowerCpu};

use crate::handles::{TowerCpu, put_cpu, take_cpu};
use c_handle::{Tower, put, take};
use core_handover::{Cpu, Kept, Refusal};
use kernel_calls::Core;
use std::alloc::Global;

/// The status of a CPU's refusal.
fn status_from(refusal: Refusal) -> u32
    ensures { (1 ≤ result) × (result ≤ 4) }
{
    match refusal {
        Refusal::Busy => 1,
        Refusal::Closed => 2,
        Refusal::NoTurn => 3,
        Refusal::Misplaced => 4,
    }
}

/// Takes the core into a handle that has none. The status is 0, or 1 if another CPU has the core, and 2 if a CPU keeps
/// it. It is 3 if the history has more than this CPU could know. It is 4 if this CPU has taken the core already or the
/// handle has a core, and 5 if the handle of a CPU has none. All but 0 leave both handles as they were. It never waits.
#[unsafe(no_mangle)]
pub extern "C" fn tower_cpu_take(alloc: Global, handle: &mut TowerCpu, tower: &mut Tower) -> u32
    requires { IsTowerCpu handle.old × IsTower tower.old }
    ensures kept { IsTowerCpu handle.new × IsTower tower.new }
    ensures statuses { result ≤ 5 }
    ensures taken { result ≡ 0 → IfSome handle.old.hold.cpu (λ seat. IsTaken seat handle.new.hold.cpu tower.new.hold.core) }
    ensures refused { result ≢ 0 → (handle.new.hold.cpu ≡ handle.old.hold.cpu)
        × (tower.new.hold.core ≡ tower.old.hold.core) }
    ensures none { handle.old.live ≡ false → result ≡ 5 }
{
    let Some(mut cpu) = take_cpu(alloc, handle) else {
        return 5;
    };
    let status = take_into(&mut cpu, tower);
    put_cpu(handle, cpu);
    status
}

/// Takes the core into a handle.
fn take_into(cpu: &mut Cpu, tower: &mut Tower) -> u32
    requires { IsTower tower.old }
    ensures kept { IsTower tower.new }
    ensures statuses { result ≤ 4 }
    ensures taken { result ≡ 0 → IsTaken cpu.old (Some cpu.new) tower.new.hold.core }
    ensures refused { result ≢ 0 → (cpu.new ≡ cpu.old) × (tower.new.hold.core ≡ tower.old.hold.core) }
{
    if tower.live {
        return 4;
    }
    match cpu.take() {
        Ok(core) => {
            put(tower, core);
            0
        }
        Err(refusal) => status_from(refusal),
    }
}

/// Gives the core back that the handle has. The status is 0, or 3 or 5 as that of `tower_cpu_take`. It is 4 if this CPU
/// has not taken the core or the handle has none. All but 0 leave the core in the handle. If it is to be published,
/// monitors read the report on it from then on. It never waits.
#[unsafe(no_mangle)]
pub extern "C" fn tower_cpu_give(
    alloc: Global,
    handle: &mut TowerCpu,
    tower: &mut Tower,
    publish: bool,
) -> u32
    requires { IsTowerCpu handle.old × IsTower tower.old }
    ensures kept { IsTowerCpu handle.new × IsTower tower.new }
    ensures statuses { result ≤ 5 }
    ensures given { result ≡ 0 → IfSome handle.old.hold.cpu (λ seat. IfSome tower.old.hold.core
        (λ core. IsGiven seat handle.new.hold.cpu core)) }
    ensures gone { result ≡ 0 → IsSome tower.old.hold.core × (tower.new.hold.core ≡ None) }
    ensures refused { result ≢ 0 → tower.new.hold.core ≡ tower.old.hold.core }
    ensures none { handle.old.live ≡ false → result ≡ 5 }
{
    let Some(mut cpu) = take_cpu(alloc, handle) else {
        return 5;
    };
    let status = give_from(alloc, &mut cpu, tower, publish);
    put_cpu(handle, cpu);
    status
}

/// Gives the core of a handle back.
fn give_from(alloc: Global, cpu: &mut Cpu, tower: &mut Tower, publish: bool) -> u32
    requires { IsTower tower.old }
    ensures kept { IsTower tower.new }
    ensures statuses { result ≤ 4 }
    ensures given { result ≡ 0 → IfSome tower.old.hold.core (λ core. IsGiven cpu.old (Some cpu.new) core) }
    ensures gone { result ≡ 0 → IsSome tower.old.hold.core × (tower.new.hold.core ≡ None) }
    ensures refused { result ≢ 0 → tower.new.hold.core ≡ tower.old.hold.core }
{
    let Some(core) = take(alloc, tower) else {
        return 4;
    };
    match cpu.give(core, publish) {
        Ok(()) => 0,
        Err(Kept { core, why }) => {
            put(tower, core);
            status_from(why)
        }
    }
}

/// Returns how often the core was given back in the history that the CPU knows; 0 if there is no CPU in the handle.
#[unsafe(no_mangle)]
pub extern "C" fn tower_cpu_count(alloc: Global, handle: &mut TowerCpu) -> u64
    requires { IsTowerCpu handle.old }
    ensures kept { IsTowerCpu handle.new }
    ensures same { handle.new.hold.cpu ≡ handle.old.hold.cpu }
    ensures count { IfSome handle.old.hold.cpu (λ seat. length seat.log ≡ result + 1) }
{
    let Some(cpu) = take_cpu(alloc, handle) else {
        return 0;
    };
    let count = cpu.count();
    put_cpu(handle, cpu);
    count
}

/// Keeps the core that this CPU has taken for good: no CPU can take it afterwards. The status is 0, or 3, 4 or 5 as that
/// of `tower_cpu_give`. The core stays where it is.
#[unsafe(no_mangle)]
pub extern "C" fn tower_cpu_close(alloc: Global, handle: &mut TowerCpu) -> u32
    requires { IsTowerCpu handle.old }
    ensures kept { IsTowerCpu handle.new }
    ensures statuses { result ≤ 5 }
    ensures closed { result ≡ 0 → IfSome handle.old.hold.cpu (λ seat. seat.has ≡ true) }
    ensures refused { result ≢ 0 → handle.new.hold.cpu ≡ handle.old.hold.cpu }
{
    let Some(mut cpu) = take_cpu(alloc, handle) else {
        return 5;
    };
    let status = match cpu.close() {
        Ok(()) => 0,
        Err(refusal) => status_from(refusal),
    };
    put_cpu(handle, cpu);
    status
}

/// Frees a CPU. If it has taken the core, no CPU can take it afterwards. The last handle frees what all share, with the
/// core if that was given back.
#[unsafe(no_mangle)]
pub extern "C" fn tower_cpu_free(alloc: Global, handle: &mut TowerCpu)
    requires { IsTowerCpu handle.old }
    ensures { (handle.new.live ≡ false) × (handle.new.hold.cpu ≡ None) }
{
    if let Some(mut cpu) = take_cpu(alloc, handle) {
        let _closed = cpu.close();
    }
}
