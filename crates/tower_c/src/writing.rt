//! Which frames an event may write, for whoever keeps something by frames.

ghost use Rattle.std.specs.Prelude.{◌≡◌, ◌↔◌, IsTrue, IfSome, is_some, true, false};
ghost use Rattle.tower_c.specs.Border.{event_in};
ghost use Rattle.tower_c.specs.Writing.{MayWriteIn, asks_frame, asks_frame_in};
ghost use Rattle.c_handle.specs.Handle.{IsTower};

use crate::numbers::{TowerEvent, event_from};
use c_handle::{Tower, put, take};
use kernel_calls::Core;
use page_words::Frame;
use std::alloc::Global;

/// Whether an event may write a frame; None if the numbers are no event, or there is no such frame.
fn may_write(core: &Core, event: &TowerEvent, frame: u32) -> Option<bool>
    ensures may { IfSome result (λ may. IsTrue may ↔ MayWriteIn core.now (event_in event.now) frame) }
    ensures asked { is_some result ≡ asks_frame core.now (event_in event.now) frame }
{
    let Some(event) = event_from(event) else {
        return None;
    };
    if frame >= core.frames() {
        return None;
    }
    Some(kernel_acts::may_write(core, &event, Frame(frame)))
}

/// Reports whether an event may write a frame, if it were the next one. It may write free frames, and the directory,
/// the tables and the pages of its process. An Accept of a lazy page may also write the giver's directory and that
/// page's table. What the event frees is among them. Every other frame stays as it is, except that accessed may be set
/// or cleared in a directory's words. Returns false if the handle has no core, the numbers are no event, or there is no
/// such frame.
#[unsafe(no_mangle)]
pub extern "C" fn tower_may_write(
    alloc: Global,
    tower: &mut Tower,
    event: &TowerEvent,
    frame: u32,
    may: &mut bool,
) -> bool
    requires { IsTower tower.old }
    ensures kept { IsTower tower.new }
    ensures same { tower.new.hold.core ≡ tower.old.hold.core }
    ensures asked { result ≡ asks_frame_in tower.old.hold.core (event_in event.now) frame }
    ensures may { result ≡ true → IfSome tower.old.hold.core
        (λ core. IsTrue may.new ↔ MayWriteIn core (event_in event.now) frame) }
    ensures none { result ≡ false → may.new ≡ may.old }
{
    match take(alloc, tower) {
        Some(core) => {
            let told = may_write(&core, event, frame);
            put(tower, core);
            match told {
                Some(told) => {
                    *may = told;
                    true
                }
                None => false,
            }
        }
        None => false,
    }
}
