//! C's handles of CPUs and monitors.

ghost use Rattle.std.specs.Prelude.{◌≡◌, None, Some, true, false};
ghost use Rattle.std.specs.Option.{option_map};
ghost use Rattle.tower_threads.specs.Handles.{IsTowerCpu, IsTowerMonitor};

use crate::cpu_hold::CpuHold;
use crate::loose::Loose;
use crate::monitor_hold::MonitorHold;
use c_handle::Passes;
use core_handover::{Cpu, Monitor};
use std::alloc::Global;

/// C's handle of a CPU: whether there is one, and its pointer. All zeros at first.
#[repr(C)]
#[derive(Drop)]
pub struct TowerCpu {
    pub live: bool,
    pub hold: CpuHold,
}

/// C's handle of a monitor, likewise.
#[repr(C)]
#[derive(Drop)]
pub struct TowerMonitor {
    pub live: bool,
    pub hold: MonitorHold,
}

/// Takes the CPU out, if there is one.
pub fn take_cpu(alloc: Global, cpu: &mut TowerCpu) -> Option<Box<Cpu>>
    requires { IsTowerCpu cpu.old }
    ensures cpu { option_map (λ b. b.value) result ≡ cpu.old.hold.cpu }
    ensures none { cpu.new.hold.cpu ≡ None }
    ensures live { cpu.new.live ≡ false }
{
    if cpu.live {
        cpu.live = false;
        let held = std::mem::replace(&mut cpu.hold, CpuHold::none(alloc));
        Some(held.into_loose().into_box())
    } else {
        None
    }
}

/// Puts a CPU into a handle that has none.
pub fn put_cpu(handle: &mut TowerCpu, cpu: Box<Cpu>)
    ensures cpu { handle.new.hold.cpu ≡ Some cpu.value }
    ensures live { handle.new.live ≡ true }
{
    handle.hold = CpuHold::of(Loose::of(cpu));
    handle.live = true;
}

/// Takes the monitor out, if there is one.
pub fn take_monitor(alloc: Global, monitor: &mut TowerMonitor) -> Option<Box<Monitor>>
    requires { IsTowerMonitor monitor.old }
    ensures monitor { option_map (λ b. b.value) result ≡ monitor.old.hold.monitor }
    ensures none { monitor.new.hold.monitor ≡ None }
    ensures live { monitor.new.live ≡ false }
{
    if monitor.live {
        monitor.live = false;
        let held = std::mem::replace(&mut monitor.hold, MonitorHold::none(alloc));
        Some(held.into_loose().into_box())
    } else {
        None
    }
}

/// Puts a monitor into a handle that has none.
pub fn put_monitor(handle: &mut TowerMonitor, monitor: Box<Monitor>)
    ensures monitor { handle.new.hold.monitor ≡ Some monitor.value }
    ensures live { handle.new.live ≡ true }
{
    handle.hold = MonitorHold::of(Loose::of(monitor));
    handle.live = true;
}

impl Passes for TowerCpu {}

impl Passes for TowerMonitor {}
