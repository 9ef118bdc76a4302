//! A process's memory in and out.

ghost use Rattle.std.specs.Prelude.{◌≡◌, ◌++◌, Some, IfSome, length, drop, false};
ghost use Rattle.address_space.specs.Stays.{FramesStay, none_goes};
ghost use Rattle.process_table.specs.Image.{StandsFor, image_of, memory_of};
ghost use Rattle.kernel_calls.specs.Machine.{answers, end_of};
ghost use Rattle.kernel_acts.specs.Transfers.{carried, values};
ghost use Rattle.tower_c.specs.Border.{pid_of};
ghost use Rattle.c_handle.specs.Handle.{IsTower};
ghost use Rattle.tower_c.specs.Transfers.{loads_in, stores_in, gone_in, stop_in, stop_numbers};

use crate::numbers::{TowerReply, done, no_event, pid_from, told_from};
use c_handle::{Tower, put, take};
use kernel_calls::{Core, Reply};
use page_words::Vaddr;
use std::alloc::Global;

/// What stopped a transfer, as numbers.
fn stop_from(stop: &Option<Reply>) -> TowerReply
    ensures { result ≡ stop_numbers stop.now }
{
    match stop {
        Some(reply) => told_from(reply),
        None => done(),
    }
}

/// Reads a process's memory. Returns how many bytes were read, and what stopped it.
fn read(core: &mut Core, pid: u32, address: u32, bytes: &mut [u8]) -> (usize, TowerReply)
    ensures count { result.0 ≡ length (carried core.old.state (loads_in (pid_of pid) address (length bytes.old))) }
    ensures stop { result.1 ≡ stop_in core.old.state (pid_of pid) (loads_in (pid_of pid) address (length bytes.old)) }
    ensures bytes { bytes.new ≡ values (answers core.old.state
        (carried core.old.state (loads_in (pid_of pid) address (length bytes.old)))) ++ drop result.0 bytes.old }
    ensures state { core.new.state ≡ end_of core.old.state
        (carried core.old.state (loads_in (pid_of pid) address (length bytes.old))) }
    ensures stay { FramesStay none_goes (memory_of core.old) (memory_of core.new) }
    ensures stands { StandsFor (image_of core.new) core.new.state }
    ensures refused { result.0 ≡ 0 → core.new ≡ core.old }
{
    match pid_from(pid) {
        Some(pid) => {
            let transfer = kernel_acts::read_bytes(core, pid, Vaddr(address), bytes);
            (transfer.count, stop_from(&transfer.stop))
        }
        None => {
            core.stands();
            (0, no_event())
        }
    }
}

/// Reads a process's memory from an address on, with the effect of one-byte loads in order, up to the first that is
/// refused or faults. `moved` becomes the number of bytes read, and `stop` what stopped it: Done if all were read, no
/// event if the number is no process. The other bytes are unchanged. Returns false if the handle has no core.
#[unsafe(no_mangle)]
pub extern "C" fn tower_read(
    alloc: Global,
    tower: &mut Tower,
    pid: u32,
    address: u32,
    bytes: &mut [u8],
    moved: &mut usize,
    stop: &mut TowerReply,
) -> bool
    requires { IsTower tower.old }
    ensures kept { IsTower tower.new }
    ensures live { (result ≡ tower.old.live) × (tower.new.live ≡ tower.old.live) }
    ensures moved { IfSome tower.old.hold.core (λ core. moved.new
        ≡ length (carried core.state (loads_in (pid_of pid) address (length bytes.old)))) }
    ensures stop { IfSome tower.old.hold.core (λ core. stop.new
        ≡ stop_in core.state (pid_of pid) (loads_in (pid_of pid) address (length bytes.old))) }
    ensures bytes { IfSome tower.old.hold.core (λ core. bytes.new
        ≡ values (answers core.state (carried core.state (loads_in (pid_of pid) address (length bytes.old))))
        ++ drop moved.new bytes.old) }
    ensures state { IfSome tower.old.hold.core (λ core. IfSome tower.new.hold.core
        (λ next. next.state ≡ end_of core.state
        (carried core.state (loads_in (pid_of pid) address (length bytes.old))))) }
    ensures stay { IfSome tower.old.hold.core (λ core. IfSome tower.new.hold.core
        (λ next. FramesStay none_goes (memory_of core) (memory_of next))) }
    ensures stands { IfSome tower.new.hold.core (λ core. StandsFor (image_of core) core.state) }
    ensures refused { IfSome tower.old.hold.core (λ core. moved.new ≡ 0 → tower.new.hold.core ≡ Some core) }
    ensures none { result ≡ false → (bytes.new ≡ bytes.old) × (moved.new ≡ moved.old) × (stop.new ≡ stop.old) }
{
    match take(alloc, tower) {
        Some(mut core) => {
            let told = read(&mut core, pid, address, bytes);
            *moved = told.0;
            *stop = told.1;
            put(tower, core);
            true
        }
        None => false,
    }
}

/// Writes a process's memory. Returns how many bytes were written, and what stopped it.
fn write(core: &mut Core, pid: u32, address: u32, bytes: &[u8]) -> (usize, TowerReply)
    ensures count { result.0 ≡ length (carried core.old.state (stores_in (pid_of pid) address bytes.now)) }
    ensures stop { result.1 ≡ stop_in core.old.state (pid_of pid) (stores_in (pid_of pid) address bytes.now) }
    ensures state { core.new.state ≡ end_of core.old.state
        (carried core.old.state (stores_in (pid_of pid) address bytes.now)) }
    ensures stay { FramesStay (gone_in (pid_of pid) address result.0) (memory_of core.old) (memory_of core.new) }
    ensures stands { StandsFor (image_of core.new) core.new.state }
    ensures refused { result.0 ≡ 0 → core.new ≡ core.old }
{
    match pid_from(pid) {
        Some(pid) => {
            let transfer = kernel_acts::write_bytes(core, pid, Vaddr(address), bytes);
            (transfer.count, stop_from(&transfer.stop))
        }
        None => {
            core.stands();
            (0, no_event())
        }
    }
}

/// Writes a process's memory from an address on, with the effect of one-byte stores in order, up to the first that is
/// refused or faults. `moved` and `stop` are as for `tower_read`. Only ways to frames of lazy pages change: whoever
/// caches translations invalidates those of the process's pages from the first byte's page to that of the last byte
/// written. Returns false if the handle has no core.
#[unsafe(no_mangle)]
pub extern "C" fn tower_write(
    alloc: Global,
    tower: &mut Tower,
    pid: u32,
    address: u32,
    bytes: &[u8],
    moved: &mut usize,
    stop: &mut TowerReply,
) -> bool
    requires { IsTower tower.old }
    ensures kept { IsTower tower.new }
    ensures live { (result ≡ tower.old.live) × (tower.new.live ≡ tower.old.live) }
    ensures moved { IfSome tower.old.hold.core (λ core. moved.new
        ≡ length (carried core.state (stores_in (pid_of pid) address bytes.now))) }
    ensures stop { IfSome tower.old.hold.core (λ core. stop.new
        ≡ stop_in core.state (pid_of pid) (stores_in (pid_of pid) address bytes.now)) }
    ensures state { IfSome tower.old.hold.core (λ core. IfSome tower.new.hold.core
        (λ next. next.state ≡ end_of core.state (carried core.state (stores_in (pid_of pid) address bytes.now)))) }
    ensures stay { IfSome tower.old.hold.core (λ core. IfSome tower.new.hold.core
        (λ next. FramesStay (gone_in (pid_of pid) address moved.new) (memory_of core) (memory_of next))) }
    ensures stands { IfSome tower.new.hold.core (λ core. StandsFor (image_of core) core.state) }
    ensures refused { IfSome tower.old.hold.core (λ core. moved.new ≡ 0 → tower.new.hold.core ≡ Some core) }
    ensures none { result ≡ false → (moved.new ≡ moved.old) × (stop.new ≡ stop.old) }
{
    match take(alloc, tower) {
        Some(mut core) => {
            let told = write(&mut core, pid, address, bytes);
            *moved = told.0;
            *stop = told.1;
            put(tower, core);
            true
        }
        None => false,
    }
}
