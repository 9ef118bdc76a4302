//! The pointer in the handle of shadow tables, and what it owns.

ghost use Rattle.std.specs.Prelude.{◌≡◌, None, Some, IsSome};
ghost use Rattle.std.specs.declared.option.Option.{Option};
ghost use Rattle.std.specs.Coded.{coded_option};
ghost use Rattle.shadow_tables.specs.Shadow.{Shadow, shadow_code};
ghost use Rattle.c_handle.specs.HeldShadow.{tables_at};

use crate::loose::Loose;
use shadow_tables::ShadowTables;
use std::alloc::Global;
use std::marker::Model;

/// A pointer to shadow tables, or null. C sees the pointer alone: an allocator takes no bytes.
#[repr(C)]
#[derive(Drop)]
pub struct ShadowHold {
    at: *mut u8,
    alloc: Global,
    pub ghost tables: { Option Shadow } by { coded_option shadow_code },
}

impl Model for ShadowHold {
    ghost also_owns = { λ h. tables_at h.at h.alloc h.tables };
}

impl ShadowHold {
    /// One that holds no tables.
    #[inline(always)]
    pub fn none(alloc: Global) -> ShadowHold
        ensures { result.tables ≡ None }
    {
        ShadowHold {
            at: std::ptr::null_mut(),
            alloc,
        }
    }

    /// Takes ownership of a pointer to tables.
    #[inline(always)]
    pub fn of(tables: Loose<ShadowTables, Global>) -> ShadowHold
        ensures { result.tables ≡ Some tables.value }
    {
        let Loose { at, alloc } = tables;
        ShadowHold {
            at: at as *mut u8,
            alloc,
        }
    }

    /// Gives up the tables. The hold must not be empty.
    #[inline(always)]
    pub fn into_loose(self) -> Loose<ShadowTables, Global>
        requires { IsSome self.tables }
        ensures { self.tables ≡ Some result.value }
    {
        let ShadowHold { at, alloc } = self;
        Loose {
            at: at as *mut ShadowTables,
            alloc,
        }
    }
}

unsafe impl Send for ShadowHold {}
