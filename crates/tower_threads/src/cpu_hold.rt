//! The pointer in the handle of a CPU, and what it owns.

ghost use Rattle.std.specs.Prelude.{◌≡◌, None, Some, IsSome};
ghost use Rattle.std.specs.declared.option.Option.{Option};
ghost use Rattle.std.specs.Coded.{coded_option};
ghost use Rattle.core_handover.specs.Seats.{Seat};
ghost use Rattle.tower_threads.specs.Codes.{seat_code};
ghost use Rattle.tower_threads.specs.HeldCpu.{cpu_at};

use crate::loose::Loose;
use core_handover::Cpu;
use std::alloc::Global;
use std::marker::Model;

/// A pointer to a CPU, or null. C sees the pointer alone: an allocator takes no bytes.
#[repr(C)]
#[derive(Drop)]
pub struct CpuHold {
    at: *mut u8,
    alloc: Global,
    pub ghost cpu: { Option Seat } by { coded_option seat_code },
}

impl Model for CpuHold {
    ghost also_owns = { λ h. cpu_at h.at h.alloc h.cpu };
}

impl CpuHold {
    /// One that holds no CPU.
    #[inline(always)]
    pub fn none(alloc: Global) -> CpuHold
        ensures { result.cpu ≡ None }
    {
        CpuHold {
            at: std::ptr::null_mut(),
            alloc,
        }
    }

    /// Takes ownership of a CPU's pointer.
    #[inline(always)]
    pub fn of(cpu: Loose<Cpu, Global>) -> CpuHold
        ensures { result.cpu ≡ Some cpu.value }
    {
        let Loose { at, alloc } = cpu;
        CpuHold {
            at: at as *mut u8,
            alloc,
        }
    }

    /// Gives up the CPU. The hold must not be empty.
    #[inline(always)]
    pub fn into_loose(self) -> Loose<Cpu, Global>
        requires { IsSome self.cpu }
        ensures { self.cpu ≡ Some result.value }
    {
        let CpuHold { at, alloc } = self;
        Loose {
            at: at as *mut Cpu,
            alloc,
        }
    }
}

unsafe impl Send for CpuHold {}
