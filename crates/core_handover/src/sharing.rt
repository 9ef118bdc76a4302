//! How a core comes to be shared.

ghost use Rattle.std.specs.Prelude.{◌≡◌, ◌∷◌, ◌≤◌, [], IfErr, IfOk, false};
ghost use Rattle.std.specs.Arc.{arc_value};
ghost use Rattle.core_handover.specs.Histories.{given, head_of};
ghost use Rattle.core_handover.specs.Rooms.{IsRest};
ghost use Rattle.core_handover.specs.Seats.{AreAll, AreSeats, seat};

use crate::cpu::Cpu;
use crate::history::{Front, Head, open};
use crate::monitor::Monitor;
use crate::page::{Page, Sheet};
use crate::room::{Held, Rest, Room};
use kernel_calls::Core;
use std::alloc::{AllocError, Global};
use std::sync::Arc;

/// The most CPUs, and the most monitors.
const MOST: usize = 8;

/// The handles of a core that threads share.
#[derive(Drop)]
pub struct Shared {
    pub cpus: Vec<Box<Cpu>>,
    pub monitors: Vec<Box<Monitor>>,
}

/// Why a core was not shared.
#[derive(Clone, Copy, Debug, PartialEq, Eq)]
pub enum ShareFault {
    /// The CPUs are not 1 to 8, or the monitors more than 8.
    BadCount,
    NoMemory,
}

/// A core that was not shared, and why.
#[derive(Drop)]
pub struct Unshared {
    pub core: Box<Core>,
    pub why: ShareFault,
}

/// The room, the handles, and what is passed on with the core.
#[derive(Drop)]
struct Made {
    room: Arc<Room, Global>,
    shared: Shared,
    rest: Rest,
}

/// Shares a core among so many CPUs and monitors. It is in the room then, and the report on it is published.
pub fn share(
    alloc: Global,
    core: Box<Core>,
    cpus: usize,
    monitors: usize,
) -> Result<Shared, Unshared>
    ensures shared { IfOk result (λ s. AreSeats core.value cpus monitors s.cpus.items s.monitors.items) }
    ensures counts { IfOk result (λ _. (1 ≤ cpus) × (cpus ≤ 8) × (monitors ≤ 8)) }
    ensures back { IfErr result (λ u. u.core ≡ core) }
{
    if cpus < 1 || cpus > MOST || monitors > MOST {
        return Err(Unshared {
            core,
            why: ShareFault::BadCount,
        });
    }
    let (front, head) = open(&core);
    let Ok(made) = make(alloc, &core, &front, head, cpus, monitors) else {
        return Err(Unshared {
            core,
            why: ShareFault::NoMemory,
        });
    };
    let Made { room, shared, rest } = made;
    match room.put(Held { core, front, rest }) {
        Ok(()) => Ok(shared),
        Err(
            Held {
                core,
                front: _,
                rest: _,
            },
        ) => Err(Unshared {
            core,
            why: ShareFault::NoMemory,
        }),
    }
}

/// Makes a room without a core, and the handles.
fn make(
    alloc: Global,
    core: &Core,
    front: &Front,
    head: Head,
    cpus: usize,
    monitors: usize,
) -> Result<Made, AllocError>
    requires front { front.now.log ≡ given core.now ∷ [] }
    requires head { head ≡ head_of front.now.book }
    requires monitors { monitors ≤ 8 }
    ensures room { IfOk result (λ m. (arc_value m.room).lock.book ≡ front.now.book) }
    ensures rest { IfOk result (λ m. IsRest front.now.book m.rest) }
    ensures cpus { IfOk result (λ m. AreAll (seat front.now.book front.now.log false) cpus m.shared.cpus.items) }
    ensures monitors { IfOk result (λ m. AreAll front.now monitors m.shared.monitors.items) }
{
    let page = Page::new(core, front.again());
    let spare = Sheet::new(alloc, page.again())?;
    let Ok(room) = Arc::new(alloc, Room::new(alloc, &page, monitors)?) else {
        return Err(AllocError);
    };
    let shared = Shared {
        cpus: seats(alloc, &room, front, cpus)?,
        monitors: watchers(alloc, &room, &page, monitors)?,
    };
    let spare = room.publish(spare);
    let rest = Rest { head, spare };
    Ok(Made { room, shared, rest })
}

/// So many CPUs.
fn seats(
    alloc: Global,
    room: &Arc<Room, Global>,
    front: &Front,
    count: usize,
) -> Result<Vec<Box<Cpu>>, AllocError>
    requires { (arc_value room.now).lock.book ≡ front.now.book }
    ensures { IfOk result (λ v. AreAll (seat front.now.book front.now.log false) count v.items) }
{
    let mut cpus = Vec::new(alloc);
    for number in 0..count {
        let room = Arc::try_clone(room)?;
        let Ok(cpu) = Box::new(alloc, Cpu::new(room, front.again())) else {
            return Err(AllocError);
        };
        cpus.push(cpu)?;
    }
    Ok(cpus)
}

/// So many monitors.
fn watchers(
    alloc: Global,
    room: &Arc<Room, Global>,
    page: &Page,
    count: usize,
) -> Result<Vec<Box<Monitor>>, AllocError>
    requires { (arc_value room.now).lock.book ≡ page.now.book }
    ensures { IfOk result (λ v. AreAll page.now count v.items) }
{
    let mut monitors = Vec::new(alloc);
    for number in 0..count {
        let room = Arc::try_clone(room)?;
        let Ok(monitor) = Box::new(alloc, Monitor::new(room, page.again())) else {
            return Err(AllocError);
        };
        monitors.push(monitor)?;
    }
    Ok(monitors)
}
