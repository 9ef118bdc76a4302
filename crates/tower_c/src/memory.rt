//! Where a core's memory lies, for a processor that walks its directories.

ghost use Rattle.std.specs.Prelude.{◌≡◌, false};
ghost use Rattle.tower_c.specs.Border.{given};
ghost use Rattle.c_handle.specs.Handle.{IsTower};
ghost use Rattle.tower_c.specs.Memory.{length_in};

use c_handle::{Tower, put, take};
use std::alloc::Global;

/// Where a core's memory begins, and how many bytes it has.
#[repr(C)]
#[derive(Drop)]
pub struct TowerMemory {
    /// The address of its first byte.
    pub begins: *const u8,
    /// 4,096 for each frame.
    pub length: usize,
}

/// Where the core's memory lies, from the boot until the core is freed: false where the handle has none.
/// Frame f is the 4,096 bytes from place 4,096 f on. Of the address no clause says anything.
#[unsafe(no_mangle)]
pub extern "C" fn tower_memory(alloc: Global, tower: &mut Tower, memory: &mut TowerMemory) -> bool
    requires { IsTower tower.old }
    ensures kept { IsTower tower.new }
    ensures same { tower.new.hold.core ≡ tower.old.hold.core }
    ensures length { given result memory.new.length ≡ length_in tower.old.hold.core }
    ensures none { result ≡ false → memory.new ≡ memory.old }
{
    match take(alloc, tower) {
        Some(core) => {
            memory.begins = core.memory().begins();
            memory.length = core.memory().bytes().len();
            put(tower, core);
            true
        }
        None => false,
    }
}
