//! The pointer in the handle of a monitor, and what it owns.

ghost use Rattle.std.specs.Prelude.{◌≡◌, None, Some, IsSome};
ghost use Rattle.std.specs.declared.option.Option.{Option};
ghost use Rattle.std.specs.Coded.{coded_option};
ghost use Rattle.core_handover.specs.Histories.{Known};
ghost use Rattle.tower_threads.specs.Codes.{known_code};
ghost use Rattle.tower_threads.specs.HeldMonitor.{monitor_at};

use crate::loose::Loose;
use core_handover::Monitor;
use std::alloc::Global;
use std::marker::Model;

/// A pointer to a monitor, or null. C sees the pointer alone: an allocator takes no bytes.
#[repr(C)]
#[derive(Drop)]
pub struct MonitorHold {
    at: *mut u8,
    alloc: Global,
    pub ghost monitor: { Option Known } by { coded_option known_code },
}

impl Model for MonitorHold {
    ghost also_owns = { λ h. monitor_at h.at h.alloc h.monitor };
}

impl MonitorHold {
    /// One that holds no monitor.
    #[inline(always)]
    pub fn none(alloc: Global) -> MonitorHold
        ensures { result.monitor ≡ None }
    {
        MonitorHold {
            at: std::ptr::null_mut(),
            alloc,
        }
    }

    /// Takes ownership of a monitor's pointer.
    #[inline(always)]
    pub fn of(monitor: Loose<Monitor, Global>) -> MonitorHold
        ensures { result.monitor ≡ Some monitor.value }
    {
        let Loose { at, alloc } = monitor;
        MonitorHold {
            at: at as *mut u8,
            alloc,
        }
    }

    /// Gives up the monitor. The hold must not be empty.
    #[inline(always)]
    pub fn into_loose(self) -> Loose<Monitor, Global>
        requires { IsSome self.monitor }
        ensures { self.monitor ≡ Some result.value }
    {
        let MonitorHold { at, alloc } = self;
        Loose {
            at: at as *mut Monitor,
            alloc,
        }
    }
}

unsafe impl Send for MonitorHold {}
