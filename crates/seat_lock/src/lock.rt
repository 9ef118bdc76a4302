//! The lock, and the places of its threads.

ghost use Rattle.std.specs.Prelude.{◌≡◌, ◌++◌, ◌∷◌, [], true, false, None, Some, IfErr, IfOk, OnErr, OnOk};
ghost use Rattle.atomic_table.specs.Seated.{TableId};
ghost use Rattle.seat_lock.specs.Locks.{Begins, EndsWith, doing};
ghost use Rattle.seat_lock.specs.Places.{PlaceView, place};

use crate::law::{Another, Begin, Close, Doing, Give, Law, Take};
use atomic_table::{Seat, Table};
use std::alloc::{AllocError, Global};
use std::marker::Model;

/// The word's values: the value is there, a thread has it, it is closed, none was given yet.
const HERE: u64 = 0;

const OUT: u64 = 1;

const CLOSED: u64 = 2;

const FRESH: u64 = 3;

/// What is found in place of the value.
#[derive(Clone, Copy, Debug, PartialEq, Eq)]
pub enum Absent {
    /// A thread has it, or none was given yet.
    Out,
    /// A thread closed the lock: no thread can take the value.
    Closed,
}

/// A value that threads pass on. Contracts see which lock it is.
#[derive(Drop)]
pub struct SeatLock<T: Drop> {
    table: Table<Option<T>, Doing<T>, (), Law<T>, Global>,
}

impl<T: Drop> Model for SeatLock<T> {
    ghost use Rattle.std.specs.Prelude.{◌≡◌};
    ghost use Rattle.atomic_table.specs.Seated.{TableId};

    ghost Value = { TableId };

    ghost view = { λ l. l.table.shared.table_id };

    ghost invariant = { λ l. (l.table.shared.table_id.words ≡ 1) × (l.table.shared.table_id.slots ≡ 1) };
}

/// What one thread knows of a lock's history, and whether it has the value. It has no bytes.
#[derive(Drop)]
pub struct Place<T: Drop> {
    seat: Seat<Option<T>, Doing<T>>,
}

impl<T: Drop> Model for Place<T> {
    ghost use Rattle.std.specs.Prelude.{◌≡◌};
    ghost use Rattle.seat_lock.specs.Places.{PlaceView, place, slots_of};

    ghost Value = { PlaceView T };

    ghost view = { λ p. place p.seat.table_id p.seat.me.0.has p.seat.me.0.log };

    ghost invariant = { λ p. p.seat.me.1 ≡ slots_of p.seat.me.0.has };
}

impl<T: Drop> SeatLock<T> {
    /// A lock without a value, and a first place.
    pub fn new(alloc: Global) -> Result<(SeatLock<T>, Place<T>), AllocError>
        ensures { IfOk result (λ l. l.1 ≡ place l.0 false []) }
    {
        let (table, seat) = Table::vacant(alloc, &[FRESH], 1, &())?;
        Ok((SeatLock { table }, Place { seat }))
    }

    /// The place of one thread more, which knows as much of the history.
    pub fn another(&self, of: &mut Place<T>) -> Place<T>
        requires { of.old.table ≡ self.now }
        ensures same { of.new ≡ of.old }
        ensures another { result ≡ place of.old.table false of.old.log }
    {
        Place {
            seat: self.table.shared.split_seat::<Another>(&mut of.seat),
        }
    }

    /// Takes nothing from a lock to which nothing was given yet, so that a first value can be given.
    pub fn begin(&self, by: &mut Place<T>) -> bool
        requires table { by.old.table ≡ self.now }
        requires idle { by.old.has ≡ false }
        ensures begun { result ≡ true → by.new ≡ place by.old.table true [] }
        ensures refused { result ≡ false → by.new ≡ by.old }
    {
        let top = &self.table.shared;
        top.compare_exchange::<Begin>(&mut by.seat, 0, FRESH, OUT) == FRESH
    }

    /// Takes the value, if it is there. The thread then knows all of the history, of which the value is the last.
    pub fn take(&self, by: &mut Place<T>) -> Result<T, Absent>
        requires table { by.old.table ≡ self.now }
        requires idle { by.old.has ≡ false }
        ensures has { OnOk result (by.new ≡ place by.old.table true by.new.log) }
        ensures begins { OnOk result (Begins by.new.log by.old.log) }
        ensures last { IfOk result (EndsWith by.new.log) }
        ensures refused { OnErr result (by.new ≡ by.old) }
    {
        let top = &self.table.shared;
        let word = top.peek(0);
        if word == CLOSED {
            return Err(Absent::Closed);
        }
        if word != HERE || top.compare_exchange::<Take>(&mut by.seat, 0, HERE, OUT) != HERE {
            return Err(Absent::Out);
        }
        Ok(top.exchange(&mut by.seat, 0, None).unwrap())
    }

    /// Gives a value, which is the last of the history then. It always succeeds.
    pub fn give(&self, by: &mut Place<T>, value: T)
        requires table { by.old.table ≡ self.now }
        requires has { by.old.has ≡ true }
        ensures { by.new ≡ place by.old.table false (by.old.log ++ value ∷ []) }
    {
        let top = &self.table.shared;
        let _none = top.exchange(&mut by.seat, 0, Some(value));
        top.store::<Give>(&mut by.seat, 0, HERE);
    }

    /// Closes the lock: no thread can take a value from now on. The thread that closes has it.
    pub fn close(&self, by: &mut Place<T>)
        requires table { by.old.table ≡ self.now }
        requires has { by.old.has ≡ true }
        ensures { by.new ≡ by.old }
    {
        self.table.shared.store::<Close>(&mut by.seat, 0, CLOSED);
    }
}
