//! A core comes to be shared.

ghost use Rattle.std.specs.Prelude.{◌≡◌, ◌≢◌, ◌<◌, ◌≤◌, All, length, slice_set, true};
ghost use Rattle.core_handover.specs.Histories.{Known};
ghost use Rattle.core_handover.specs.Seats.{Seat};
ghost use Rattle.c_handle.specs.Handle.{IsTower};
ghost use Rattle.tower_threads.specs.Calls.{IsShared};
ghost use Rattle.tower_threads.specs.Handles.{AreFree, IsSeated, IsTowerCpu, IsTowerMonitor, IsWatching};
ghost use Rattle.tower_threads.specs.declared.handles.TowerCpu.{TowerCpu};
ghost use Rattle.tower_threads.specs.declared.handles.TowerMonitor.{TowerMonitor};

use crate::handles::{TowerCpu, TowerMonitor, put_cpu, put_monitor};
use c_handle::{Tower, put, take};
use core_handover::{Cpu, Monitor, ShareFault, Shared, Unshared, share};
use std::alloc::Global;

/// Whether none of these handles has a CPU or a monitor.
fn are_free(cpus: &[TowerCpu], monitors: &[TowerMonitor]) -> bool
    ensures { result ≡ true → AreFree cpus.now monitors.now }
{
    cpus.iter().all(|cpu| !cpu.live) && monitors.iter().all(|monitor| !monitor.live)
}

/// Shares the core of a handle among as many CPUs and monitors as there are handles for them. The status is 0, or 1 if
/// these are not 1 to 8 CPUs, or more than 8 monitors. It is 2 if there is no memory, and 4 if one of these handles is in
/// use or the first has no core. All but 0 leave the core in its handle. After 0 that has none, and the report on the
/// core is published.
#[unsafe(no_mangle)]
pub extern "C" fn tower_share(
    alloc: Global,
    tower: &mut Tower,
    cpus: &mut [TowerCpu],
    monitors: &mut [TowerMonitor],
) -> u32
    requires { IsTower tower.old × All IsTowerCpu cpus.old × All IsTowerMonitor monitors.old }
    ensures kept { IsTower tower.new }
    ensures handles { All IsTowerCpu cpus.new × All IsTowerMonitor monitors.new }
    ensures statuses { result ≤ 4 }
    ensures shared { result ≡ 0 → IsShared tower.old.hold.core tower.new cpus.new monitors.new }
    ensures free { result ≡ 0 → AreFree cpus.old monitors.old }
    ensures refused { result ≢ 0 → (tower.new.hold.core ≡ tower.old.hold.core) × (cpus.new ≡ cpus.old)
        × (monitors.new ≡ monitors.old) }
{
    if !are_free(cpus, monitors) {
        return 4;
    }
    let Some(core) = take(alloc, tower) else {
        return 4;
    };
    match share(alloc, core, cpus.len(), monitors.len()) {
        Ok(
            Shared {
                cpus: seats,
                monitors: watchers,
            },
        ) => {
            seat_cpus(cpus, seats);
            seat_monitors(monitors, watchers);
            0
        }
        Err(Unshared { core, why }) => {
            put(tower, core);
            match why {
                ShareFault::BadCount => 1,
                ShareFault::NoMemory => 2,
            }
        }
    }
}

/// Puts a CPU into each handle, from the last one on.
fn seat_cpus(handles: &mut [TowerCpu], mut seats: Vec<Box<Cpu>>)
    requires { length seats.items ≡ length handles.old }
    ensures { (x : Seat) → All (λ b. b.value ≡ x) seats.items → All (IsSeated x) handles.new }
{
    for place in 0..handles.len() {
        seat_cpu(handles, place, seats.pop().unwrap());
    }
}

/// Puts a CPU into the handle at this place.
fn seat_cpu(handles: &mut [TowerCpu], place: usize, cpu: Box<Cpu>)
    requires { place < length handles.old }
    ensures { (h : TowerCpu) × (handles.new ≡ slice_set handles.old place h) × IsSeated cpu.value h }
{
    put_cpu(&mut handles[place], cpu);
}

/// Puts a monitor into each handle, likewise.
fn seat_monitors(handles: &mut [TowerMonitor], mut watchers: Vec<Box<Monitor>>)
    requires { length watchers.items ≡ length handles.old }
    ensures { (x : Known) → All (λ b. b.value ≡ x) watchers.items → All (IsWatching x) handles.new }
{
    for place in 0..handles.len() {
        seat_monitor(handles, place, watchers.pop().unwrap());
    }
}

/// Puts a monitor into the handle at this place.
fn seat_monitor(handles: &mut [TowerMonitor], place: usize, monitor: Box<Monitor>)
    requires { place < length handles.old }
    ensures { (h : TowerMonitor) × (handles.new ≡ slice_set handles.old place h) × IsWatching monitor.value h }
{
    put_monitor(&mut handles[place], monitor);
}
