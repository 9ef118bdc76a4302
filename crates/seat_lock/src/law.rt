//! The rule of the word and the slot.

use atomic_table::{Play, Split, TableRule};
use std::collections::LinkedList;
use std::marker::PhantomData;

/// What one thread knows: whether it has what the slot holds, and what was given. No value of it is made.
pub struct Doing<T> {
    pub has: bool,
    /// The history.
    pub log: LinkedList<T>,
}

/// The rule.
pub struct Law<T> {
    of: PhantomData<T>,
}

impl<T> TableRule<Option<T>, Doing<T>, ()> for Law<T> {
    ghost use Rattle.std.specs.Prelude.{false, []};
    ghost use Rattle.seat_lock.specs.Locks.{Holds, doing};

    ghost holds = { λ _. Holds };

    ghost first = { λ _. doing false [] };
}

/// A take.
pub struct Take;

impl<T> Play<Option<T>, Doing<T>> for Take {
    ghost use Rattle.seat_lock.specs.Locks.{Takes};

    ghost then = { Takes };
}

/// A give.
pub struct Give;

impl<T> Play<Option<T>, Doing<T>> for Give {
    ghost use Rattle.seat_lock.specs.Locks.{Gives};

    ghost then = { Gives };
}

/// The first take, of nothing.
pub struct Begin;

impl<T> Play<Option<T>, Doing<T>> for Begin {
    ghost use Rattle.seat_lock.specs.Locks.{Begun};

    ghost then = { Begun };
}

/// A step after which nothing can be taken.
pub struct Close;

impl<T> Play<Option<T>, Doing<T>> for Close {
    ghost use Rattle.seat_lock.specs.Locks.{Closes};

    ghost then = { Closes };
}

/// One thread more, which knows as much.
pub struct Another;

impl<T> Split<Doing<T>> for Another {
    ghost use Rattle.std.specs.Prelude.{false};
    ghost use Rattle.seat_lock.specs.Locks.{doing};

    ghost left = { λ v. v };

    ghost right = { λ v. doing false v.log };
}
