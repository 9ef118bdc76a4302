//! The kernel's core for C: one call for each event.
//!
//! C holds a `Tower` in storage of its own, all zeros at first, and passes it to these functions alone,
//! to one at a time. Each function says what it does of the core in it; docs/C-LIBRARY.md has the numbers
//! of events and replies, and what C owes.
#![tactic(auto)]

ghost use Rattle.std.specs.Prelude.{◌≡◌, ◌≢◌, ◌↔◌, ◌≤◌, ◌<◌, ◌*◌, ◌++◌, None, Some, IfSome, length, take, drop, true, false};
ghost use Rattle.process_table.specs.State.{open_with};
ghost use Rattle.process_table.specs.Image.{StandsFor, image_of};
ghost use Rattle.phys_memory.specs.Bytes.{frame_bytes};
ghost use Rattle.tower_c.specs.Border.{EndInOrder, LeavesMemory, event_in, numbers, reply_in, state_after, is_carried_out, none_is_carried_out, replies_in, end_after, given, frames_in, directory_in, container_in, role_in, copy_in, walk_in, ended_in, ends_in, ended_numbers, version};
ghost use Rattle.c_handle.specs.Handle.{IsTower};
ghost use Rattle.kernel_calls.specs.Translations.{Ends};

mod cleaning;
mod families;
mod holders;
mod loading;
mod memory;
mod numbers;
mod pages;
mod pending;
mod runs;
mod shadow_faults;
mod shadows;
mod touching;
mod transfers;
mod writing;

pub use c_handle::{Passes, Tower, TowerShadow};
use c_handle::{put, take};
pub use cleaning::{tower_clean, tower_next_dirty, tower_peek};
pub use families::{TowerProcesses, tower_children, tower_end};
pub use holders::{TowerHolder, tower_next_holder, tower_take_back};
use kernel_calls::{Core, Ended, WideFault};
pub use loading::tower_load_bytes;
pub use memory::{TowerMemory, tower_memory};
use numbers::{
    access_from, container_from, done, ended_from, event_from, no_event, pid_from, role_from, tell,
    told_from, walk_from,
};
pub use numbers::{TowerContainer, TowerEnded, TowerEvent, TowerReply, TowerRole, TowerWalk};
use page_words::{Frame, Vaddr, WIDE_FRAMES, is_frame_count};
pub use pages::{TowerPage, tower_next_page};
pub use pending::{TowerOffer, tower_next_offer};
pub use runs::tower_run_until;
pub use shadow_faults::{tower_shadow_fault, tower_shadow_step};
pub use shadows::{
    TowerTranslation, tower_shadow_close, tower_shadow_forget, tower_shadow_forget_all,
    tower_shadow_free_frames, tower_shadow_open, tower_shadow_pool, tower_shadow_root,
    tower_shadow_taken_frames, tower_shadow_translation,
};
use std::alloc::Global;
use table_walk::walk;
pub use touching::tower_touch;
pub use transfers::{tower_read, tower_write};
pub use writing::tower_may_write;

/// The library's version, 0.2.0.
const VERSION: u32 = 200;

/// The library's version: 10,000 for each major version, 100 for each minor one, 1 for each patch.
#[unsafe(no_mangle)]
pub extern "C" fn tower_version() -> u32
    ensures { result ≡ version }
{
    VERSION
}

/// Boots a core of that many frames: 0; or 1 where that is not 16 to 4,096, 2 where there is no memory,
/// and 3 where the handle has a core already. All but 0 leave the handle as it was.
#[unsafe(no_mangle)]
pub extern "C" fn tower_boot(alloc: Global, frames: u32, tower: &mut Tower) -> u32
    requires { IsTower tower.old }
    ensures kept { IsTower tower.new }
    ensures statuses { result ≤ 3 }
    ensures live { result ≡ 0 → tower.new.live ≡ true }
    ensures opening { result ≡ 0 → IfSome tower.new.hold.core (λ core. core.state ≡ open_with frames) }
    ensures stands { result ≡ 0 → IfSome tower.new.hold.core (λ core. StandsFor (image_of core) core.state) }
    ensures size { result ≡ 1 ↔ (tower.old.live ≡ false) × (16 ≤ frames → frames ≤ 4096 → ⊥) }
    ensures busy { result ≡ 3 ↔ tower.old.live ≡ true }
    ensures otherwise { result ≢ 0 → tower.new ≡ tower.old }
{
    if !tower.live && !is_frame_count(frames) {
        return 1;
    }
    tower_boot_wide(alloc, frames, tower)
}

/// As `tower_boot`, of up to 1,048,576 frames: 1 where that is not 16 to 1,048,576.
#[unsafe(no_mangle)]
pub extern "C" fn tower_boot_wide(alloc: Global, frames: u32, tower: &mut Tower) -> u32
    requires { IsTower tower.old }
    ensures kept { IsTower tower.new }
    ensures statuses { result ≤ 3 }
    ensures live { result ≡ 0 → tower.new.live ≡ true }
    ensures opening { result ≡ 0 → IfSome tower.new.hold.core (λ core. core.state ≡ open_with frames) }
    ensures stands { result ≡ 0 → IfSome tower.new.hold.core (λ core. StandsFor (image_of core) core.state) }
    ensures size { result ≡ 1 ↔ (tower.old.live ≡ false) × (16 ≤ frames → frames ≤ WIDE_FRAMES → ⊥) }
    ensures busy { result ≡ 3 ↔ tower.old.live ≡ true }
    ensures otherwise { result ≢ 0 → tower.new ≡ tower.old }
{
    if tower.live {
        return 3;
    }
    match Core::boot_wide(alloc, frames) {
        Ok(core) => match Box::new(alloc, core) {
            Ok(core) => {
                put(tower, core);
                0
            }
            Err(_) => 2,
        },
        Err(WideFault::BadSize) => 1,
        Err(WideFault::NoMemory) => 2,
    }
}

/// Carries out an event on a core, and writes its reply into numbers that are all 0. Numbers that are no event change
/// nothing.
#[tactic(auto, unfolding(crate::specs::Border::is_carried_out))]
#[inline(always)]
fn step_to(core: &mut Core, event: &TowerEvent, reply: &mut TowerReply)
    requires blank { reply.old ≡ numbers 0 0 0 0 }
    ensures reply { reply.new ≡ reply_in core.old.state (event_in event.now) }
    ensures state { core.new.state ≡ state_after core.old.state (event_in event.now) }
    ensures stands { StandsFor (image_of core.new) core.new.state }
    ensures ends { Ends (ends_in core.old (event_in event.now)) core.old core.new }
    ensures memory { LeavesMemory core.old core.new (event_in event.now) }
    ensures refused { is_carried_out core.old.state (event_in event.now) ≡ false → core.new ≡ core.old }
{
    match event_from(event) {
        Some(event) => tell(&core.step(&event), reply),
        None => {
            core.stands();
            *reply = no_event();
        }
    }
}

/// Carries out an event on a core, and returns its reply. Numbers that are no event change nothing.
#[inline(always)]
pub(crate) fn step(core: &mut Core, event: &TowerEvent) -> TowerReply
    ensures reply { result ≡ reply_in core.old.state (event_in event.now) }
    ensures state { core.new.state ≡ state_after core.old.state (event_in event.now) }
    ensures stands { StandsFor (image_of core.new) core.new.state }
    ensures ends { Ends (ends_in core.old (event_in event.now)) core.old core.new }
    ensures memory { LeavesMemory core.old core.new (event_in event.now) }
    ensures refused { is_carried_out core.old.state (event_in event.now) ≡ false → core.new ≡ core.old }
{
    let mut reply = done();
    step_to(core, event, &mut reply);
    reply
}

/// Carries out one event: false where the handle has no core. Numbers that are no event change nothing,
/// and their reply is of kind 7; a refusal or a fault changes nothing either.
#[unsafe(no_mangle)]
pub extern "C" fn tower_step(
    alloc: Global,
    tower: &mut Tower,
    event: &TowerEvent,
    reply: &mut TowerReply,
) -> bool
    requires { IsTower tower.old }
    ensures kept { IsTower tower.new }
    ensures live { (result ≡ tower.old.live) × (tower.new.live ≡ tower.old.live) }
    ensures reply { IfSome tower.old.hold.core (λ core. reply.new ≡ reply_in core.state (event_in event.now)) }
    ensures state { IfSome tower.old.hold.core (λ core. IfSome tower.new.hold.core
        (λ next. next.state ≡ state_after core.state (event_in event.now))) }
    ensures stands { IfSome tower.new.hold.core (λ core. StandsFor (image_of core) core.state) }
    ensures ends { IfSome tower.old.hold.core (λ core. IfSome tower.new.hold.core
        (λ next. Ends (ends_in core (event_in event.now)) core next)) }
    ensures memory { IfSome tower.old.hold.core (λ core. IfSome tower.new.hold.core
        (λ next. LeavesMemory core next (event_in event.now))) }
    ensures refused { IfSome tower.old.hold.core (λ core. is_carried_out core.state (event_in event.now) ≡ false
        → tower.new.hold.core ≡ Some core) }
    ensures none { result ≡ false → reply.new ≡ reply.old }
{
    match take(alloc, tower) {
        Some(mut core) => {
            *reply = done();
            step_to(&mut core, event, reply);
            put(tower, core);
            true
        }
        None => false,
    }
}

/// What an event ends on a core; None where the numbers are no event.
fn ends(core: &Core, event: &TowerEvent) -> Option<TowerEnded>
    ensures { result ≡ ended_in (Some core.now) (event_in event.now) }
{
    match event_from(event) {
        Some(event) => Some(ended_from(core.ends(&event))),
        None => None,
    }
}

/// Which cached translations an event will end: a processor that keeps what its walks gave has to invalidate these
/// once the event is carried out, and no others. It changes nothing. False where there is no core or the numbers are
/// no event.
#[unsafe(no_mangle)]
pub extern "C" fn tower_ends(
    alloc: Global,
    tower: &mut Tower,
    event: &TowerEvent,
    ended: &mut TowerEnded,
) -> bool
    requires { IsTower tower.old }
    ensures kept { IsTower tower.new }
    ensures same { tower.new.hold.core ≡ tower.old.hold.core }
    ensures ended { given result ended.new ≡ ended_in tower.old.hold.core (event_in event.now) }
    ensures none { result ≡ false → ended.new ≡ ended.old }
{
    match take(alloc, tower) {
        Some(core) => {
            let found = ends(&core, event);
            put(tower, core);
            match found {
                Some(found) => {
                    *ended = found;
                    true
                }
                None => false,
            }
        }
        None => false,
    }
}

/// Carries out an event like `step`, and also returns which translations it ended.
#[tactic(auto, unfolding(crate::specs::Border::is_carried_out))]
#[inline(always)]
fn step_ending(core: &mut Core, event: &TowerEvent) -> (TowerReply, TowerEnded)
    ensures reply { result.0 ≡ reply_in core.old.state (event_in event.now) }
    ensures ended { result.1 ≡ ended_numbers (ends_in core.old (event_in event.now)) }
    ensures state { core.new.state ≡ state_after core.old.state (event_in event.now) }
    ensures stands { StandsFor (image_of core.new) core.new.state }
    ensures ends { Ends (ends_in core.old (event_in event.now)) core.old core.new }
    ensures memory { LeavesMemory core.old core.new (event_in event.now) }
    ensures refused { is_carried_out core.old.state (event_in event.now) ≡ false → core.new ≡ core.old }
{
    match event_from(event) {
        Some(event) => {
            let (reply, ended) = core.step_ending(&event);
            (told_from(&reply), ended_from(ended))
        }
        None => {
            core.stands();
            (no_event(), ended_from(Ended::Nothing))
        }
    }
}

/// Carries out one event, as `tower_step` does, and reports which cached translations it ended. The caller invalidates
/// these on all processors before anything else is done. False if the handle has no core. Numbers that are no event, a
/// refusal and a fault end none. What was ended is for the kernel, and not for the process.
#[unsafe(no_mangle)]
pub extern "C" fn tower_step_ending(
    alloc: Global,
    tower: &mut Tower,
    event: &TowerEvent,
    reply: &mut TowerReply,
    ended: &mut TowerEnded,
) -> bool
    requires { IsTower tower.old }
    ensures kept { IsTower tower.new }
    ensures live { (result ≡ tower.old.live) × (tower.new.live ≡ tower.old.live) }
    ensures reply { IfSome tower.old.hold.core (λ core. reply.new ≡ reply_in core.state (event_in event.now)) }
    ensures ended { IfSome tower.old.hold.core (λ core. ended.new ≡ ended_numbers (ends_in core (event_in event.now))) }
    ensures state { IfSome tower.old.hold.core (λ core. IfSome tower.new.hold.core
        (λ next. next.state ≡ state_after core.state (event_in event.now))) }
    ensures stands { IfSome tower.new.hold.core (λ core. StandsFor (image_of core) core.state) }
    ensures ends { IfSome tower.old.hold.core (λ core. IfSome tower.new.hold.core
        (λ next. Ends (ends_in core (event_in event.now)) core next)) }
    ensures memory { IfSome tower.old.hold.core (λ core. IfSome tower.new.hold.core
        (λ next. LeavesMemory core next (event_in event.now))) }
    ensures refused { IfSome tower.old.hold.core (λ core. is_carried_out core.state (event_in event.now) ≡ false
        → tower.new.hold.core ≡ Some core) }
    ensures none { result ≡ false → (reply.new ≡ reply.old) × (ended.new ≡ ended.old) }
{
    match take(alloc, tower) {
        Some(mut core) => {
            let told = step_ending(&mut core, event);
            *reply = told.0;
            *ended = told.1;
            put(tower, core);
            true
        }
        None => false,
    }
}

/// Carries out events in order, and writes the reply to each in its place.
fn run(core: &mut Core, events: &[TowerEvent], replies: &mut [TowerReply])
    requires { length events.now ≡ length replies.old }
    ensures replies { replies.new ≡ replies_in core.old.state events.now }
    ensures state { core.new.state ≡ end_after core.old.state events.now }
    ensures stands { StandsFor (image_of core.new) core.new.state }
    ensures ends { EndInOrder events.now core.old core.new }
    ensures refused { none_is_carried_out core.old.state events.now ≡ true → core.new ≡ core.old }
{
    for (i, event) in events.iter().enumerate() {
        replies[i] = step(core, event);
    }
    core.stands();
}

/// Carries out events in order, and writes the reply to each in its place: false where the handle has no
/// core or the two lengths differ, and then nothing changes. Where none of them is carried out, no byte of the
/// core changes either.
#[unsafe(no_mangle)]
pub extern "C" fn tower_run(
    alloc: Global,
    tower: &mut Tower,
    events: &[TowerEvent],
    replies: &mut [TowerReply],
) -> bool
    requires { IsTower tower.old }
    ensures kept { IsTower tower.new }
    ensures live { tower.new.live ≡ tower.old.live }
    ensures ran { result ≡ true ↔ (tower.old.live ≡ true) × (length events.now ≡ length replies.old) }
    ensures replies { result ≡ true → IfSome tower.old.hold.core
        (λ core. replies.new ≡ replies_in core.state events.now) }
    ensures state { result ≡ true → IfSome tower.old.hold.core
        (λ core. IfSome tower.new.hold.core (λ next. next.state ≡ end_after core.state events.now)) }
    ensures stands { result ≡ true → IfSome tower.new.hold.core (λ core. StandsFor (image_of core) core.state) }
    ensures ends { result ≡ true → IfSome tower.old.hold.core
        (λ core. IfSome tower.new.hold.core (λ next. EndInOrder events.now core next)) }
    ensures refused { IfSome tower.old.hold.core (λ core. none_is_carried_out core.state events.now ≡ true
        → tower.new.hold.core ≡ Some core) }
    ensures none { result ≡ false → replies.new ≡ replies.old }
    ensures same { result ≡ false → tower.new.hold.core ≡ tower.old.hold.core }
{
    if events.len() != replies.len() {
        return false;
    }
    match take(alloc, tower) {
        Some(mut core) => {
            run(&mut core, events, replies);
            put(tower, core);
            true
        }
        None => false,
    }
}

/// Frees the core, if the handle has one.
#[unsafe(no_mangle)]
pub extern "C" fn tower_free(alloc: Global, tower: &mut Tower)
    requires { IsTower tower.old }
    ensures none { tower.new.hold.core ≡ None }
    ensures dead { tower.new.live ≡ false }
{
    if let Some(core) = take(alloc, tower) {
        drop(core);
    }
}

/// How many frames the core has: 0 where the handle has none.
#[unsafe(no_mangle)]
pub extern "C" fn tower_frames(alloc: Global, tower: &mut Tower) -> u32
    requires { IsTower tower.old }
    ensures kept { IsTower tower.new }
    ensures same { tower.new.hold.core ≡ tower.old.hold.core }
    ensures frames { result ≡ frames_in tower.old.hold.core }
{
    match take(alloc, tower) {
        Some(core) => {
            let frames = core.frames();
            put(tower, core);
            frames
        }
        None => 0,
    }
}

/// The frame of a process's directory: false where there is no core or the process is not live.
#[unsafe(no_mangle)]
pub extern "C" fn tower_directory(
    alloc: Global,
    tower: &mut Tower,
    pid: u32,
    frame: &mut u32,
) -> bool
    requires { IsTower tower.old }
    ensures kept { IsTower tower.new }
    ensures same { tower.new.hold.core ≡ tower.old.hold.core }
    ensures directory { given result frame.new ≡ directory_in tower.old.hold.core pid }
    ensures none { result ≡ false → frame.new ≡ frame.old }
{
    match take(alloc, tower) {
        Some(core) => {
            let found = match pid_from(pid) {
                Some(pid) => core.directory(pid),
                None => None,
            };
            put(tower, core);
            match found {
                Some(Frame(at)) => {
                    *frame = at;
                    true
                }
                None => false,
            }
        }
        None => false,
    }
}

/// What a frame serves: false where there is no core or no such frame.
#[unsafe(no_mangle)]
pub extern "C" fn tower_role(
    alloc: Global,
    tower: &mut Tower,
    frame: u32,
    role: &mut TowerRole,
) -> bool
    requires { IsTower tower.old }
    ensures kept { IsTower tower.new }
    ensures same { tower.new.hold.core ≡ tower.old.hold.core }
    ensures role { given result role.new ≡ role_in tower.old.hold.core frame }
    ensures none { result ≡ false → role.new ≡ role.old }
{
    match take(alloc, tower) {
        Some(core) => {
            let is_frame = frame < core.frames();
            if is_frame {
                *role = role_from(core.role(Frame(frame)));
            }
            put(tower, core);
            is_frame
        }
        None => false,
    }
}

/// What a process may use, uses and gives: false where there is no core or the process is not live.
#[unsafe(no_mangle)]
pub extern "C" fn tower_container(
    alloc: Global,
    tower: &mut Tower,
    pid: u32,
    container: &mut TowerContainer,
) -> bool
    requires { IsTower tower.old }
    ensures kept { IsTower tower.new }
    ensures same { tower.new.hold.core ≡ tower.old.hold.core }
    ensures container { given result container.new ≡ container_in tower.old.hold.core pid }
    ensures none { result ≡ false → container.new ≡ container.old }
{
    match take(alloc, tower) {
        Some(core) => {
            let found = match pid_from(pid) {
                Some(pid) => core.container(pid),
                None => None,
            };
            put(tower, core);
            match found {
                Some(found) => {
                    *container = container_from(&found);
                    true
                }
                None => false,
            }
        }
        None => false,
    }
}

/// How the walk ends from the directory of that process; None where the process is not live.
fn walked(core: &Core, pid: u32, address: u32, write: bool) -> Option<TowerWalk>
    ensures { result ≡ walk_in (Some core.now) pid address write }
{
    let directory = core.directory(pid_from(pid)?)?;
    let end = walk(core.memory(), directory, Vaddr(address), access_from(write));
    Some(walk_from(end))
}

/// How the processor's walk of a process's tables ends, for a load or a store at an address. It changes
/// nothing, and reads the words as they stand. False where there is no core or the process is not live.
#[unsafe(no_mangle)]
pub extern "C" fn tower_walk(
    alloc: Global,
    tower: &mut Tower,
    pid: u32,
    address: u32,
    write: bool,
    found: &mut TowerWalk,
) -> bool
    requires { IsTower tower.old }
    ensures kept { IsTower tower.new }
    ensures same { tower.new.hold.core ≡ tower.old.hold.core }
    ensures walk { given result found.new ≡ walk_in tower.old.hold.core pid address write }
    ensures none { result ≡ false → found.new ≡ found.old }
{
    match take(alloc, tower) {
        Some(core) => {
            let end = walked(&core, pid, address, write);
            put(tower, core);
            match end {
                Some(end) => {
                    *found = end;
                    true
                }
                None => false,
            }
        }
        None => false,
    }
}

/// Copies a frame's 4,096 bytes out.
#[tactic(auto, unfolding(phys_memory::specs::Bytes::frame_bytes))]
fn copy_out(core: &Core, frame: u32, out: &mut [u8])
    requires frame { frame < length core.now.roles }
    requires room { length out.old ≡ 4096 }
    ensures { out.new ≡ frame_bytes core.now.bytes frame }
{
    let _ = core.frames();
    let at = 4096 * frame as usize;
    out.copy_from_slice(&core.memory().bytes()[at..at + 4096]);
}

/// Copies a frame's 4,096 bytes out: false where there is no core or no such frame, or where the room is
/// not 4,096 bytes.
#[unsafe(no_mangle)]
pub extern "C" fn tower_copy_frame(
    alloc: Global,
    tower: &mut Tower,
    frame: u32,
    out: &mut [u8],
) -> bool
    requires { IsTower tower.old }
    ensures kept { IsTower tower.new }
    ensures same { tower.new.hold.core ≡ tower.old.hold.core }
    ensures bytes { given result out.new ≡ copy_in tower.old.hold.core frame (length out.old) }
    ensures none { result ≡ false → out.new ≡ out.old }
{
    match take(alloc, tower) {
        Some(core) => {
            let fits = frame < core.frames() && out.len() == 4096;
            if fits {
                copy_out(&core, frame, out);
            }
            put(tower, core);
            fits
        }
        None => false,
    }
}
