//! The pointer in the handle, and the core that it owns.

ghost use Rattle.std.specs.Prelude.{◌≡◌, None, Some, IsSome};
ghost use Rattle.std.specs.declared.option.Option.{Option};
ghost use Rattle.std.specs.Coded.{coded_option};
ghost use Rattle.process_table.specs.View.{View, view_code};
ghost use Rattle.c_handle.specs.Held.{core_at};

use crate::loose::Loose;
use kernel_calls::Core;
use std::alloc::Global;
use std::marker::Model;

/// A core's pointer, or null. C sees the pointer alone: an allocator takes no bytes.
#[repr(C)]
#[derive(Drop)]
pub struct Hold {
    at: *mut u8,
    alloc: Global,
    pub ghost core: { Option View } by { coded_option view_code },
}

impl Model for Hold {
    ghost also_owns = { λ h. core_at h.at h.alloc h.core };
}

impl Hold {
    /// One that holds no core.
    #[inline(always)]
    pub fn none(alloc: Global) -> Hold
        ensures { result.core ≡ None }
    {
        Hold {
            at: std::ptr::null_mut(),
            alloc,
        }
    }

    /// Takes ownership of a core's pointer.
    #[inline(always)]
    pub fn of(core: Loose<Core, Global>) -> Hold
        ensures { result.core ≡ Some core.value }
    {
        let Loose { at, alloc } = core;
        Hold {
            at: at as *mut u8,
            alloc,
        }
    }

    /// Gives up the core. The hold must not be empty.
    #[inline(always)]
    pub fn into_loose(self) -> Loose<Core, Global>
        requires { IsSome self.core }
        ensures { self.core ≡ Some result.value }
    {
        let Hold { at, alloc } = self;
        Loose {
            at: at as *mut Core,
            alloc,
        }
    }
}

unsafe impl Send for Hold {}
