//! CPUs: the handles by which threads take the core and give it back.

ghost use Rattle.std.specs.Prelude.{◌≡◌, ◌+◌, ◌++◌, ◌∷◌, [], IfErr, IfOk, OnErr, OnOk, length, true, false};
ghost use Rattle.std.specs.Arc.{arc_value};
ghost use Rattle.core_handover.specs.Histories.{Begins, given, last_core};
ghost use Rattle.core_handover.specs.Rooms.{IsRest};
ghost use Rattle.core_handover.specs.Seats.{seat};

use crate::history::Front;
use crate::page::{Page, Sheet};
use crate::room::{Absent, Held, Rest, Room};
use kernel_calls::Core;
use std::alloc::Global;
use std::marker::Model;
use std::sync::Arc;

/// Why a core was not taken, or not given back.
#[derive(Clone, Copy, Debug, PartialEq, Eq)]
pub enum Refusal {
    /// Another CPU has the core: try again.
    Busy,
    /// A CPU keeps the core for good.
    Closed,
    /// This CPU has taken the core, or has not.
    Misplaced,
    /// The history has more than this CPU could know. No run gets here, but no clause says so.
    NoTurn,
}

/// One thread's handle. Contracts see the history that it knows, and whether it has the core.
#[derive(Drop)]
pub struct Cpu {
    room: Arc<Room, Global>,
    front: Front,
    /// What belongs to the core while it is out with this CPU.
    rest: Option<Rest>,
}

impl Model for Cpu {
    ghost use Rattle.std.specs.Prelude.{◌≡◌, IfSome, is_some};
    ghost use Rattle.std.specs.Arc.{arc_value};
    ghost use Rattle.core_handover.specs.Rooms.{IsRest};
    ghost use Rattle.core_handover.specs.Seats.{Seat, seat};

    ghost Value = { Seat };

    ghost view = { λ c. seat c.front.book c.front.log (is_some c.rest) };

    ghost invariant = { λ c. ((arc_value c.room).lock.book ≡ c.front.book) × IfSome c.rest (IsRest c.front.book) };
}

/// A core that was not given back, and why.
#[derive(Drop)]
pub struct Kept {
    pub core: Box<Core>,
    pub why: Refusal,
}

impl Cpu {
    pub(crate) fn new(room: Arc<Room, Global>, front: Front) -> Cpu
        requires { (arc_value room).lock.book ≡ front.book }
        ensures { result ≡ seat front.book front.log false }
    {
        Cpu {
            room,
            front,
            rest: None,
        }
    }

    /// How often the core was given back, as far as this CPU knows.
    pub fn count(&self) -> u64
        ensures { length self.now.log ≡ result + 1 }
    {
        self.front.count()
    }

    /// Takes the core out, if no other CPU has it. It never waits, and a refusal changes nothing.
    pub fn take(&mut self) -> Result<Box<Core>, Refusal>
        ensures core { IfOk result (λ core. core.value ≡ last_core self.new.log) }
        ensures has { OnOk result ((self.old.has ≡ false) × (self.new ≡ seat self.old.book self.new.log true)) }
        ensures begins { OnOk result (Begins self.new.log self.old.log) }
        ensures refused { OnErr result (self.new ≡ self.old) }
    {
        if self.rest.is_some() {
            return Err(Refusal::Misplaced);
        }
        let Held { core, front, rest } = match self.room.take() {
            Ok(held) => held,
            Err(Absent::Out) => return Err(Refusal::Busy),
            Err(Absent::Kept) => return Err(Refusal::Closed),
        };
        if !self.front.begins(&front) {
            let _back = self.room.put(Held { core, front, rest });
            return Err(Refusal::NoTurn);
        }
        self.front = front;
        self.rest = Some(rest);
        Ok(core)
    }

    /// Gives the core back. If it is to be published, monitors read the report on it from now on.
    #[tactic(auto, using(crate::proofs::Beginnings::begins_itself))]
    pub fn give(&mut self, core: Box<Core>, publish: bool) -> Result<(), Kept>
        ensures given { OnOk result ((self.old.has ≡ true)
            × (self.new ≡ seat self.old.book (self.old.log ++ given core.value ∷ []) false)) }
        ensures kept { IfErr result (λ k. k.core ≡ core) }
        ensures had { OnErr result ((self.new.has ≡ self.old.has) × Begins self.new.log self.old.log) }
    {
        let Some(rest) = self.rest.take() else {
            return Err(Kept {
                core,
                why: Refusal::Misplaced,
            });
        };
        if !self.front.add(&rest.head, &core) {
            self.rest = Some(rest);
            return Err(Kept {
                core,
                why: Refusal::NoTurn,
            });
        }
        let rest = if publish {
            self.published(&core, rest)
        } else {
            rest
        };
        match self.room.put(Held {
            core,
            front: self.front.again(),
            rest,
        }) {
            Ok(()) => Ok(()),
            Err(
                Held {
                    core,
                    front: _,
                    rest,
                },
            ) => {
                self.rest = Some(rest);
                Err(Kept {
                    core,
                    why: Refusal::NoTurn,
                })
            }
        }
    }

    fn published(&self, core: &Core, rest: Rest) -> Rest
        requires rest { IsRest self.now.book rest }
        requires core { core.now ≡ last_core self.now.log }
        ensures { IsRest self.now.book result }
    {
        if !self.room.is_watched() {
            return rest;
        }
        let Rest { head, mut spare } = rest;
        *spare.page = Page::new(core, self.front.again());
        Rest {
            head,
            spare: self.room.publish(spare),
        }
    }

    /// Keeps the core that it has taken for good: no CPU can take it afterwards.
    pub fn close(&mut self) -> Result<(), Refusal>
        ensures closed { OnOk result ((self.old.has ≡ true) × (self.new ≡ seat self.old.book self.old.log false)) }
        ensures refused { OnErr result (self.new ≡ self.old) }
    {
        if self.rest.is_none() {
            return Err(Refusal::Misplaced);
        }
        if !self.room.close() {
            return Err(Refusal::NoTurn);
        }
        self.rest = None;
        Ok(())
    }
}
