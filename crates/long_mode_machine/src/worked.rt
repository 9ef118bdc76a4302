//! A worked run, as a theorem on a core that boots: the rules of moves apply one after another.

ghost use Rattle.std.specs.Prelude.{◌≡◌, ◌≤◌, ◌*◌, false, IfSome, length};
ghost use Rattle.page_words.specs.FiniteMap as map;
ghost use Rattle.process_table.specs.State.{open_with};
ghost use Rattle.shadow_core.specs.Paired.{lacks_frames};
ghost use Rattle.shadow_tables.specs.Kernel.{AreKernelWords};
ghost use Rattle.long_mode_machine.specs.LongMode.{IsAligned};
ghost use Rattle.long_mode_machine.specs.WorkedRun.{WorkedRun};

use crate::calls::{call_moves, fault_moves};
use kernel_calls::{Call, Core, Event};
use page_words::{Page, Pid};
use shadow_tables::{LEAST_FRAMES, ShadowTables};
use std::alloc::Global;
use table_walk::Access;

/// Handles a fault of process 0 at its first page, and unmaps that page.
fn fault_and_unmap(core: &mut Core, shadow: &mut ShadowTables)
    requires opening { core.old.state ≡ open_with 16 }
    requires empty { shadow.old.translations ≡ map.empty }
    requires aligned { IsAligned shadow.old }
    requires size { 4096 * 11 ≤ length shadow.old.bytes }
    requires room { lacks_frames shadow.old 0 0x40000000 ≡ false }
    ensures { WorkedRun core.new }
{
    core.stands();
    shadow.walks();
    let root = Pid::new(0).unwrap();
    fault_moves(core, shadow, root, 0x4000_0000, Access::Write);
    let page = Page(0x40000);
    let (cpu, pid, call) = (0, root, Call::Unmap { page });
    call_moves(core, shadow, &Event { cpu, pid, call });
}

/// Boots a core of 16 frames, next to shadow tables in a pool of the least size, handles a fault of process 0 at its first
/// page, and unmaps that page. States that a processor may have cached the page's translation, and loaded by it after the
/// core has carried out the Unmap and before the tables have forgotten. These are moves, whose order has the load before
/// the Unmap.
///
/// None if there is no memory.
pub fn worked_run(alloc: Global, bytes: Vec<u8>, kernel: Vec<u8>) -> Option<Core>
    requires size { length bytes.items ≡ 45056 }
    requires half { length kernel.items ≡ 2048 }
    requires words { AreKernelWords kernel.items }
    ensures { IfSome result WorkedRun }
{
    let Ok(mut core) = Core::boot(alloc, 16) else {
        return None;
    };
    let (frames, pool, block) = (LEAST_FRAMES, 0x10000, 0x1_0000_0000);
    let Ok(mut shadow) = ShadowTables::new(alloc, bytes, frames, pool, block, kernel) else {
        return None;
    };
    fault_and_unmap(&mut core, &mut shadow);
    Some(core)
}
