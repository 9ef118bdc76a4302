//! A core in a handle of C's.

ghost use Rattle.std.specs.Prelude.{◌≡◌, None, Some, true, false};
ghost use Rattle.std.specs.Option.{option_map};
ghost use Rattle.c_handle.specs.Handle.{IsTower};

use crate::hold::Hold;
use crate::loose::Loose;
use kernel_calls::Core;
use std::alloc::Global;

/// C's handle: whether a core is booted, and its pointer. All zeros at first.
#[repr(C)]
#[derive(Drop)]
pub struct Tower {
    pub live: bool,
    pub hold: Hold,
}

impl Tower {
    /// A handle that holds no core.
    pub fn none(alloc: Global) -> Tower
        ensures live { result.live ≡ false }
        ensures core { result.hold.core ≡ None }
    {
        Tower {
            live: false,
            hold: Hold::none(alloc),
        }
    }
}

/// Takes the core out, if there is one.
#[inline(always)]
pub fn take(alloc: Global, tower: &mut Tower) -> Option<Box<Core>>
    requires { IsTower tower.old }
    ensures core { option_map (λ b. b.value) result ≡ tower.old.hold.core }
    ensures none { tower.new.hold.core ≡ None }
    ensures live { tower.new.live ≡ false }
{
    if tower.live {
        tower.live = false;
        let held = std::mem::replace(&mut tower.hold, Hold::none(alloc));
        Some(held.into_loose().into_box())
    } else {
        None
    }
}

/// Puts a core into a handle that has none.
#[inline(always)]
pub fn put(tower: &mut Tower, core: Box<Core>)
    ensures core { tower.new.hold.core ≡ Some core.value }
    ensures live { tower.new.live ≡ true }
{
    tower.hold = Hold::of(Loose::of(core));
    tower.live = true;
}

/// What may pass to another thread: a type is this only where `Send` is proved of it.
pub trait Passes: Send {}

impl Passes for Tower {}
