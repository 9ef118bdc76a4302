//! Runs that stop at the first event that is not carried out.

ghost use Rattle.std.specs.Prelude.{◌≡◌, ◌↔◌, Some, IfSome, length, true, false};
ghost use Rattle.process_table.specs.Image.{StandsFor, image_of};
ghost use Rattle.tower_c.specs.Border.{EndInOrder, event_in, reply_in, state_after, is_carried_out, end_after, ends_in};
ghost use Rattle.kernel_calls.specs.Translations.{Ends};
ghost use Rattle.c_handle.specs.Handle.{IsTower};
ghost use Rattle.tower_c.specs.Runs.{carried_in, replies_until};

use crate::numbers::{TowerEvent, TowerReply};
use crate::step;
use c_handle::{Tower, put, take};
use kernel_calls::Core;
use std::alloc::Global;

/// Carries out an event on a core, and returns its reply and whether it completed.
fn step_with_outcome(core: &mut Core, event: &TowerEvent) -> (TowerReply, bool)
    ensures reply { result.0 ≡ reply_in core.old.state (event_in event.now) }
    ensures done { result.1 ≡ is_carried_out core.old.state (event_in event.now) }
    ensures state { core.new.state ≡ state_after core.old.state (event_in event.now) }
    ensures stands { StandsFor (image_of core.new) core.new.state }
    ensures ends { Ends (ends_in core.old (event_in event.now)) core.old core.new }
    ensures refused { is_carried_out core.old.state (event_in event.now) ≡ false → core.new ≡ core.old }
{
    let told = step(core, event);
    (told, told.kind < 5)
}

/// Carries out events in order up to the first that is not carried out, and writes the reply to each in its place. How
/// many were carried out.
fn run_until(core: &mut Core, events: &[TowerEvent], replies: &mut [TowerReply]) -> usize
    requires { length events.now ≡ length replies.old }
    ensures carried { result ≡ length (carried_in core.old.state events.now) }
    ensures replies { replies.new ≡ replies_until core.old.state events.now replies.old }
    ensures state { core.new.state ≡ end_after core.old.state (carried_in core.old.state events.now) }
    ensures stands { StandsFor (image_of core.new) core.new.state }
    ensures ends { EndInOrder (carried_in core.old.state events.now) core.old core.new }
    ensures refused { result ≡ 0 → core.new ≡ core.old }
{
    for (i, event) in events.iter().enumerate() {
        let told = step_with_outcome(core, event);
        replies[i] = told.0;
        if !told.1 {
            return i;
        }
    }
    core.stands();
    events.len()
}

/// Carries out events in order up to the first that is refused, faults or is no event, and writes the reply to each in
/// its place, to that one too. `carried` is how many were carried out, and so the place of that one; where all were, it
/// is their number. False where the handle has no core or the two lengths differ, and then nothing changes.
#[unsafe(no_mangle)]
pub extern "C" fn tower_run_until(
    alloc: Global,
    tower: &mut Tower,
    events: &[TowerEvent],
    replies: &mut [TowerReply],
    carried: &mut usize,
) -> bool
    requires { IsTower tower.old }
    ensures kept { IsTower tower.new }
    ensures live { tower.new.live ≡ tower.old.live }
    ensures ran { result ≡ true ↔ (tower.old.live ≡ true) × (length events.now ≡ length replies.old) }
    ensures carried { result ≡ true → IfSome tower.old.hold.core
        (λ core. carried.new ≡ length (carried_in core.state events.now)) }
    ensures replies { result ≡ true → IfSome tower.old.hold.core
        (λ core. replies.new ≡ replies_until core.state events.now replies.old) }
    ensures state { result ≡ true → IfSome tower.old.hold.core
        (λ core. IfSome tower.new.hold.core
        (λ next. next.state ≡ end_after core.state (carried_in core.state events.now))) }
    ensures stands { result ≡ true → IfSome tower.new.hold.core (λ core. StandsFor (image_of core) core.state) }
    ensures ends { result ≡ true → IfSome tower.old.hold.core
        (λ core. IfSome tower.new.hold.core (λ next. EndInOrder (carried_in core.state events.now) core next)) }
    ensures refused { result ≡ true → IfSome tower.old.hold.core
        (λ core. carried.new ≡ 0 → tower.new.hold.core ≡ Some core) }
    ensures none { result ≡ false → (replies.new ≡ replies.old) × (carried.new ≡ carried.old) }
    ensures same { result ≡ false → tower.new.hold.core ≡ tower.old.hold.core }
{
    if events.len() != replies.len() {
        return false;
    }
    match take(alloc, tower) {
        Some(mut core) => {
            *carried = run_until(&mut core, events, replies);
            put(tower, core);
            true
        }
        None => false,
    }
}
