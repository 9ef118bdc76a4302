//! Shadow tables in a handle of C's.

ghost use Rattle.std.specs.Prelude.{◌≡◌, None, Some, true, false};
ghost use Rattle.std.specs.Option.{option_map};
ghost use Rattle.c_handle.specs.ShadowHandle.{IsTowerShadow};

use crate::handle::Passes;
use crate::loose::Loose;
use crate::shadow_hold::ShadowHold;
use shadow_tables::ShadowTables;
use std::alloc::Global;

/// C's handle: whether there are shadow tables, and their pointer. All zeros at first.
#[repr(C)]
#[derive(Drop)]
pub struct TowerShadow {
    pub live: bool,
    pub hold: ShadowHold,
}

impl TowerShadow {
    /// A handle that holds no tables.
    pub fn none(alloc: Global) -> TowerShadow
        ensures live { result.live ≡ false }
        ensures tables { result.hold.tables ≡ None }
    {
        TowerShadow {
            live: false,
            hold: ShadowHold::none(alloc),
        }
    }
}

/// Takes the tables out, if there are any.
#[inline(always)]
pub fn take_tables(alloc: Global, shadow: &mut TowerShadow) -> Option<Box<ShadowTables>>
    requires { IsTowerShadow shadow.old }
    ensures tables { option_map (λ b. b.value) result ≡ shadow.old.hold.tables }
    ensures none { shadow.new.hold.tables ≡ None }
    ensures live { shadow.new.live ≡ false }
{
    if shadow.live {
        shadow.live = false;
        let held = std::mem::replace(&mut shadow.hold, ShadowHold::none(alloc));
        Some(held.into_loose().into_box())
    } else {
        None
    }
}

/// Puts tables into a handle that has none.
#[inline(always)]
pub fn put_tables(shadow: &mut TowerShadow, tables: Box<ShadowTables>)
    ensures tables { shadow.new.hold.tables ≡ Some tables.value }
    ensures live { shadow.new.live ≡ true }
{
    shadow.hold = ShadowHold::of(Loose::of(tables));
    shadow.live = true;
}

impl Passes for TowerShadow {}
