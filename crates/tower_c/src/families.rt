//! The processes below a process: its children, and its end with all that descend from it.

ghost use Rattle.std.specs.Prelude.{◌≡◌, ◌≢◌, ◌≤◌, Some, IfSome, take, drop, false};
ghost use Rattle.process_table.specs.Image.{StandsFor, image_of};
ghost use Rattle.kernel_acts.specs.Acts.{exits, spaces_of_all};
ghost use Rattle.kernel_calls.specs.Along.{EndAlong};
ghost use Rattle.tower_c.specs.Border.{given, pid_of};
ghost use Rattle.tower_c.specs.Families.{pids_in, children_at, end_told, EndsFamilyIn};
ghost use Rattle.c_handle.specs.Handle.{IsTower};

use crate::numbers::{TowerReply, done, no_event, pid_from, refused_for};
use c_handle::{Tower, put, take};
use kernel_calls::Core;
use page_words::Pid;
use std::alloc::Global;

/// Up to 64 processes.
#[repr(C)]
#[derive(Clone, Copy)]
pub struct TowerProcesses {
    /// How many there are.
    pub count: u32,
    /// Their numbers, in the first places.
    pub pids: [u32; 64],
}

/// Writes numbers of processes in the first places. The other places stay. As a call of its own it keeps its callers'
/// arrays above the stack's end.
#[inline(never)]
fn list(pids: &[Pid; 64], count: usize, list: &mut TowerProcesses)
    requires { count ≤ 64 }
    ensures pids { pids_in list.new ≡ take count pids.now }
    ensures rest { drop count list.new.pids ≡ drop count list.old.pids }
{
    for (i, pid) in pids[..count].iter().enumerate() {
        list.pids[i] = u32::from(pid.number());
    }
    list.count = count as u32;
}

/// Lists a process's children; None if the number is no process.
fn children(core: &Core, pid: u32, children: &mut TowerProcesses) -> bool
    ensures children { given result (pids_in children.new) ≡ children_at (Some core.now) (pid_of pid) }
    ensures none { result ≡ false → children.new ≡ children.old }
{
    let Some(pid) = pid_from(pid) else {
        return false;
    };
    let mut found = [pid; 64];
    let count = kernel_acts::children(core, pid, &mut found);
    list(&found, count, children);
    true
}

/// Lists a process's children in order of their numbers. The other places of `children` are unchanged. A process that
/// is not live has none. Returns false if the handle has no core or the number is no process.
#[unsafe(no_mangle)]
pub extern "C" fn tower_children(
    alloc: Global,
    tower: &mut Tower,
    pid: u32,
    found: &mut TowerProcesses,
) -> bool
    requires { IsTower tower.old }
    ensures kept { IsTower tower.new }
    ensures same { tower.new.hold.core ≡ tower.old.hold.core }
    ensures children { given result (pids_in found.new) ≡ children_at tower.old.hold.core (pid_of pid) }
    ensures none { result ≡ false → found.new ≡ found.old }
{
    match take(alloc, tower) {
        Some(core) => {
            let is_listed = children(&core, pid, found);
            put(tower, core);
            is_listed
        }
        None => false,
    }
}

/// Ends a process with all that descend from it. Returns Done, or why not.
fn end(core: &mut Core, pid: u32, exited: &mut TowerProcesses) -> TowerReply
    ensures told { result ≡ end_told core.old.state (pid_of pid) }
    ensures family { result.kind ≡ 0 → EndsFamilyIn core.old.state (pid_of pid) (pids_in exited.new) core.new.state }
    ensures ends { result.kind ≡ 0 → EndAlong (exits (pids_in exited.new))
        (spaces_of_all (pids_in exited.new)) core.old core.new }
    ensures stands { StandsFor (image_of core.new) core.new.state }
    ensures refused { result.kind ≢ 0 → (core.new ≡ core.old) × (exited.new ≡ exited.old) }
{
    let Some(pid) = pid_from(pid) else {
        core.stands();
        return no_event();
    };
    let mut pids = [pid; 64];
    match kernel_acts::end_family(core, pid, &mut pids) {
        Ok(count) => {
            list(&pids, count, exited);
            done()
        }
        Err(cause) => refused_for(cause),
    }
}

/// Ends a process with all that descend from it, children first: the run of their Exits, each of which is done.
/// `exited` lists the processes in that order; whoever caches translations invalidates all of each of them. `told`
/// becomes Done. It becomes Refused with RootExit for process 0 and with NoProcess for a process that is not live, and
/// no event if the number is no process; then nothing else changes. Returns false if the handle has no core.
#[unsafe(no_mangle)]
pub extern "C" fn tower_end(
    alloc: Global,
    tower: &mut Tower,
    pid: u32,
    exited: &mut TowerProcesses,
    told: &mut TowerReply,
) -> bool
    requires { IsTower tower.old }
    ensures kept { IsTower tower.new }
    ensures live { (result ≡ tower.old.live) × (tower.new.live ≡ tower.old.live) }
    ensures told { IfSome tower.old.hold.core (λ core. told.new ≡ end_told core.state (pid_of pid)) }
    ensures family { IfSome tower.old.hold.core (λ core. IfSome tower.new.hold.core
        (λ next. told.new.kind ≡ 0 → EndsFamilyIn core.state (pid_of pid) (pids_in exited.new) next.state)) }
    ensures ends { IfSome tower.old.hold.core (λ core. IfSome tower.new.hold.core
        (λ next. told.new.kind ≡ 0 → EndAlong (exits (pids_in exited.new))
        (spaces_of_all (pids_in exited.new)) core next)) }
    ensures stands { IfSome tower.new.hold.core (λ core. StandsFor (image_of core) core.state) }
    ensures refused { IfSome tower.old.hold.core (λ core. told.new.kind ≢ 0 → (tower.new.hold.core ≡ Some core)
        × (exited.new ≡ exited.old)) }
    ensures none { result ≡ false → (exited.new ≡ exited.old) × (told.new ≡ told.old) }
{
    match take(alloc, tower) {
        Some(mut core) => {
            *told = end(&mut core, pid, exited);
            put(tower, core);
            true
        }
        None => false,
    }
}
