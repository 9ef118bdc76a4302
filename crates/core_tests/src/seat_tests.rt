//! A value that places of a lock take and give.

ghost use Rattle.std.specs.Prelude.{◌≡◌, false, true};

use crate::common::same;
use seat_lock::{Absent, Place, SeatLock};
use std::process::Abort;
use std::test::Fail;

/// A place takes this value.
fn takes(rt: &impl Abort, lock: &SeatLock<u64>, place: &mut Place<u64>, value: u64)
    requires table { place.old.table ≡ lock.now }
    requires idle { place.old.has ≡ false }
    ensures table { place.new.table ≡ lock.now }
    ensures has { place.new.has ≡ true }
{
    let Ok(found) = lock.take(place) else {
        panic!(rt; "{value} isn't there")
    };
    same(rt, &found, &value);
}

/// A place takes nothing, for this reason.
fn refuses(rt: &impl Abort, lock: &SeatLock<u64>, place: &mut Place<u64>, why: Absent)
    requires table { place.old.table ≡ lock.now }
    requires idle { place.old.has ≡ false }
    ensures { place.new ≡ place.old }
{
    let Err(found) = lock.take(place) else {
        panic!(rt; "a value is there")
    };
    same(rt, &found, &why);
}

#[test]
fn passes_a_value_on(rt: HostRuntime) -> Result<(), Fail> {
    let (lock, mut one) = SeatLock::<u64>::new(rt.alloc())?;
    let mut other = lock.another(&mut one);
    refuses(&rt, &lock, &mut other, Absent::Out);
    assert!(rt; lock.begin(&mut one));
    assert!(rt; !lock.begin(&mut other));
    lock.give(&mut one, 7);
    takes(&rt, &lock, &mut other, 7);
    refuses(&rt, &lock, &mut one, Absent::Out);
    lock.give(&mut other, 8);
    takes(&rt, &lock, &mut one, 8);
    lock.close(&mut one);
    refuses(&rt, &lock, &mut other, Absent::Closed);
    Ok(())
}
