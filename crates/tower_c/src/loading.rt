//! Bytes put into a process's pages, whatever right the process has there: all of them, or none.

ghost use Rattle.std.specs.Prelude.{◌≡◌, ◌≢◌, Some, IfSome, length, false};
ghost use Rattle.process_table.specs.Image.{StandsFor, image_of};
ghost use Rattle.tower_c.specs.Border.{pid_of};
ghost use Rattle.tower_c.specs.Loading.{load_told, IsLoadedIn};
ghost use Rattle.c_handle.specs.Handle.{IsTower};

use crate::numbers::{TowerReply, done, no_event, pid_from, refused_for};
use c_handle::{Tower, put, take};
use kernel_calls::Core;
use page_words::Vaddr;
use std::alloc::Global;

/// Loads bytes into a process's memory. Returns Done, or why not.
fn load(core: &mut Core, pid: u32, address: u32, bytes: &[u8], write: bool) -> TowerReply
    ensures told { result ≡ load_told core.old.state (pid_of pid) address (length bytes.now) }
    ensures loaded { result.kind ≡ 0 → IsLoadedIn core.old (pid_of pid) address bytes.now write core.new }
    ensures stands { StandsFor (image_of core.new) core.new.state }
    ensures refused { result.kind ≢ 0 → core.new ≡ core.old }
{
    let Some(pid) = pid_from(pid) else {
        core.stands();
        return no_event();
    };
    match kernel_acts::load_bytes(core, pid, Vaddr(address), bytes, write) {
        Ok(_) => done(),
        Err(cause) => refused_for(cause),
    }
}

/// Puts bytes into a process's memory from an address on, all or none, and leaves their pages with the right that
/// `write` says. A page that is not mapped is mapped, and one that may not be written to gets that right for the time.
/// `told` becomes Done; then whoever caches translations invalidates those of the process's pages from the first byte's
/// page to that of the last. It becomes Refused with the first cause against it, which is NoProcess, BadPage, Rights or
/// Quota, and no event if the number is no process; then nothing else changes. Returns false if the handle has no core.
#[unsafe(no_mangle)]
pub extern "C" fn tower_load_bytes(
    alloc: Global,
    tower: &mut Tower,
    pid: u32,
    address: u32,
    bytes: &[u8],
    write: bool,
    told: &mut TowerReply,
) -> bool
    requires { IsTower tower.old }
    ensures kept { IsTower tower.new }
    ensures live { (result ≡ tower.old.live) × (tower.new.live ≡ tower.old.live) }
    ensures told { IfSome tower.old.hold.core (λ core. told.new
        ≡ load_told core.state (pid_of pid) address (length bytes.now)) }
    ensures loaded { IfSome tower.old.hold.core (λ core. IfSome tower.new.hold.core
        (λ next. told.new.kind ≡ 0 → IsLoadedIn core (pid_of pid) address bytes.now write next)) }
    ensures stands { IfSome tower.new.hold.core (λ core. StandsFor (image_of core) core.state) }
    ensures refused { IfSome tower.old.hold.core (λ core. told.new.kind ≢ 0 → tower.new.hold.core ≡ Some core) }
    ensures none { result ≡ false → told.new ≡ told.old }
{
    match take(alloc, tower) {
        Some(mut core) => {
            *told = load(&mut core, pid, address, bytes, write);
            put(tower, core);
            true
        }
        None => false,
    }
}
