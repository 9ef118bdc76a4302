//! What the kernel does for its processes: runs of their own events, as a kernel needs them that ends or reclaims what
//! others have.

ghost use Rattle.std.specs.Prelude.{◌≡◌, ◌≢◌, ℕ, ◌+◌, ◌<◌, ◌≤◌, ◌++◌, ◌∷◌, [], if◌then◌else◌, true, false, Err, IfSome, IfNone, IsOk, IfOk, IsErr, take, drop};
ghost use Rattle.kernel_acts.specs.Below.{CarriesOut, EndAlong, Member, StandsFor, answer, ended_by, image_of, is_live, next};
ghost use Rattle.kernel_acts.specs.Acts.{children_in, exit_of, exits, spaces_of_all, Descends, EndsFamily};
ghost use Rattle.kernel_calls.specs.Integrity.{is_child_of};
ghost use Rattle.kernel_calls.specs.declared.calls.Reply.TheVariants as reply;
ghost use Rattle.kernel_calls.specs.declared.translations.Ended.TheVariants as end;
ghost use Rattle.page_words.specs.FiniteMap as map;

use crate::steps::step;
use kernel_calls::{Call, Core};
use page_words::Pid;
use process_table::Cause;

/// Writes a process at the next place of a list, if it belongs there. Returns how many places are used then.
fn note_if(is_one: bool, pid: Pid, pids: &mut [Pid; 64], count: usize) -> usize
    requires { count < 64 }
    ensures count { result ≡ count + (if is_one then 1 else 0) }
    ensures noted { take result pids.new ≡ take count pids.old ++ (if is_one then pid ∷ [] else []) }
    ensures rest { drop result pids.new ≡ drop result pids.old }
{
    if is_one {
        pids[count] = pid;
        return count + 1;
    }
    count
}

/// Whether a process is a child of another.
fn is_child(core: &Core, pid: Pid, child: Pid) -> bool
    ensures { result ≡ is_child_of core.now.state pid child }
{
    match core.container(child) {
        Some(container) => child.number() != 0 && container.parent == pid,
        None => false,
    }
}

/// Returns whether a process is live and has no child, by its container.
fn is_leaf(core: &Core, pid: Pid) -> bool
    ensures { result ≡ true → (q : ℕ) → is_child_of core.now.state pid q ≡ false }
{
    match core.container(pid) {
        Some(container) => container.children == 0,
        None => false,
    }
}

/// A child of a process; None where it has none. One that has none is not looked for.
fn child_of(core: &Core, pid: Pid) -> Option<Pid>
    ensures child { IfSome result (λ child. is_child_of core.now.state pid child ≡ true) }
    ensures none { IfNone result ((q : ℕ) → is_child_of core.now.state pid q ≡ false) }
{
    core.stands();
    if is_leaf(core, pid) {
        return None;
    }
    for number in 0..64u8 {
        let child = Pid::new(number).unwrap();
        if is_child(core, pid, child) {
            return Some(child);
        }
    }
    None
}

/// Writes a process's children in order of their numbers, and returns how many there are. The other places stay. A
/// process that is not live has none.
pub fn children(core: &Core, pid: Pid, children: &mut [Pid; 64]) -> usize
    ensures children { take result children.new ≡ children_in core.now.state pid }
    ensures rest { drop result children.new ≡ drop result children.old }
    ensures few { result ≤ 64 }
{
    let mut count = 0;
    for number in 0..64u8 {
        let child = Pid::new(number).unwrap();
        count = note_if(is_child(core, pid, child), child, children, count);
    }
    count
}

/// A process without children that descends from a live one.
fn leaf_below(core: &Core, pid: Pid) -> Pid
    ensures below { Descends core.now.state pid result }
    ensures childless { (q : ℕ) → is_child_of core.now.state result q ≡ false }
{
    core.stands();
    let mut at = pid;
    while let Some(child) = child_of(core, at) {
        at = child;
    }
    at
}

/// The parent of a live process.
fn parent_of(core: &Core, pid: Pid) -> Pid
    requires { is_live core.now.state pid ≡ true }
    ensures { (member : Member) → map.get core.now.state.book pid ≡ Some member → result ≡ member.parent }
{
    core.container(pid).unwrap().parent
}

/// The Exit of a live process without children, other than the root.
fn exit_leaf(core: &mut Core, pid: Pid)
    requires live { is_live core.old.state pid ≡ true }
    requires not_root { pid ≢ 0 }
    requires childless { (q : ℕ) → is_child_of core.old.state pid q ≡ false }
    ensures done { answer core.old.state (exit_of pid) ≡ reply.Done }
    ensures state { core.new.state ≡ next core.old.state (exit_of pid) }
    ensures ended { end.Space pid ≡ ended_by core.old (exit_of pid) }
    ensures carried { CarriesOut core.old (exit_of pid) core.new }
{
    step(core, pid, Call::Exit);
}

/// Ends the family of a live process other than the root, from the leaves up.
fn end_members(core: &mut Core, pid: Pid, exited: &mut [Pid; 64]) -> usize
    requires live { is_live core.old.state pid ≡ true }
    requires not_root { pid ≢ 0 }
    ensures family { EndsFamily core.old.state pid (take result exited.new) core.new.state }
    ensures ended { EndAlong (exits (take result exited.new))
        (spaces_of_all (take result exited.new)) core.old core.new }
    ensures few { result ≤ 64 }
    ensures rest { drop result exited.new ≡ drop result exited.old }
{
    core.stands();
    let (mut at, mut count) = (pid, 0);
    'leaves: loop {
        core.stands();
        let leaf = leaf_below(core, at);
        let parent = parent_of(core, leaf);
        exit_leaf(core, leaf);
        exited[count] = leaf;
        count += 1;
        if leaf == pid {
            return count;
        }
        at = parent;
    }
}

/// Ends a process with all that descend from it, children first: the run of their Exits, each of which is done. It
/// leaves the state without them. Their quotas are back with the parent, and all others have their pages as they
/// were. `exited` gets the processes that exited, in that order, and the result is how many did; its other places
/// stay. Each processor that cached translations invalidates all of each of these.
///
/// RootExit for process 0, NoProcess where the process is not live; then nothing changes.
pub fn end_family(core: &mut Core, pid: Pid, exited: &mut [Pid; 64]) -> Result<usize, Cause>
    ensures root { pid ≡ 0 → result ≡ Err Cause.RootExit }
    ensures dead { is_live core.old.state pid ≡ false → result ≡ Err Cause.NoProcess }
    ensures refused { IsErr result → (core.new ≡ core.old) × (exited.new ≡ exited.old) }
    ensures done { pid ≢ 0 → is_live core.old.state pid ≡ true → IsOk result }
    ensures family { IfOk result (λ count. EndsFamily core.old.state pid (take count exited.new) core.new.state) }
    ensures ended { IfOk result (λ count. EndAlong (exits (take count exited.new))
        (spaces_of_all (take count exited.new)) core.old core.new) }
    ensures few { IfOk result (λ count. count ≤ 64) }
    ensures rest { IfOk result (λ count. drop count exited.new ≡ drop count exited.old) }
    ensures stands { StandsFor (image_of core.new) core.new.state }
{
    core.stands();
    if pid.number() == 0 {
        return Err(Cause::RootExit);
    }
    if core.container(pid).is_none() {
        return Err(Cause::NoProcess);
    }
    let count = end_members(core, pid, exited);
    core.stands();
    Ok(count)
}
