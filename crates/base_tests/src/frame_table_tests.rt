//! Roles of frames.

ghost use Rattle.std.specs.Prelude.{◌≡◌, ◌<◌, length, Some, slice_get};

use crate::comparing::same;
use alloc_table::{FrameTable, Role, weights_add_up};
use page_words::{Frame, MachineFault, Pid, WideFault};
use std::process::Abort;
use std::test::Fail;

const PAGE: Role = Role::Page { count: 1 };

/// Takes a frame for a page of one holder.
fn take_page(rt: &impl Abort, table: &mut FrameTable) {
    let frame = table.take(PAGE).expect(rt, "a frame is free");
    same(rt, &table.role(frame), &PAGE);
}

/// A frame has this role.
fn check_role(rt: &impl Abort, table: &FrameTable, frame: Frame, role: Role)
    requires { frame < length table.now }
    ensures { slice_get table.now frame ≡ Some role }
{
    assert!(rt; table.role(frame) == role);
}

#[test]
fn frees_a_page_with_its_last_holder(rt: HostRuntime) -> Result<(), Fail> {
    let mut table = FrameTable::new(rt.alloc(), 16)?;
    let frame = table.take(PAGE).ok_or("a frame is free")?;
    check_role(&rt, &table, frame, PAGE);
    table.hold(frame);
    check_role(&rt, &table, frame, Role::Page { count: 2 });
    assert!(rt; !table.release(frame));
    check_role(&rt, &table, frame, PAGE);
    assert!(rt; table.release(frame));
    check_role(&rt, &table, frame, Role::Free);
    same(&rt, &table.free_count(), &15);
    Ok(())
}

/// Takes all frames that are free.
fn take_all(rt: &impl Abort, table: &mut FrameTable) {
    for _ in 0..15 {
        take_page(rt, table);
    }
}

#[test]
fn gives_each_frame_once(rt: HostRuntime) -> Result<(), Fail> {
    let mut table = FrameTable::new(rt.alloc(), 16)?;
    take_all(&rt, &mut table);
    same(&rt, &(table.free_count(), table.take(PAGE)), &(0, None));
    table.within();
    Ok(())
}

/// A frame that is taken for this role has it until it is released.
fn check_taken(rt: &impl Abort, table: &mut FrameTable, pid: Pid) {
    let role = Role::Table { pid, slot: 256 };
    let frame = table.take(role).expect(rt, "a frame is free");
    assert!(rt; table.role(frame) == role);
    assert!(rt; table.release(frame));
    assert!(rt; table.role(frame) == Role::Free);
}

#[test]
fn frees_a_table(rt: HostRuntime) -> Result<(), Fail> {
    let mut table = FrameTable::new(rt.alloc(), 16)?;
    check_taken(&rt, &mut table, Pid::new(1).expect(&rt, "1 is below 64"));
    weights_add_up();
    Ok(())
}

#[test]
fn has_the_roles_that_it_is_given(rt: HostRuntime) -> Result<(), Fail> {
    let mut roles = vec![in rt.alloc(); Role::Free; 16]?;
    roles[0] = Role::Reserved;
    roles[3] = PAGE;
    let mut table = FrameTable::of_roles(rt.alloc(), roles)?;
    same(
        &rt,
        &(table.role(Frame(3)), table.free_count()),
        &(PAGE, 14),
    );
    assert!(rt; table.role(Frame(3)) == PAGE);
    assert!(rt; table.release(Frame(3)));
    same(&rt, &table.free_count(), &15);
    Ok(())
}

#[test]
fn takes_more_frames_where_it_is_wide(rt: HostRuntime) {
    let sizes = [15, 4097, 1048576, 1048577].map(|frames| FrameTable::wide(rt.alloc(), frames).map(
        |table| table.free_count(),
    ));
    same(
        &rt,
        &sizes,
        &[
            Err(WideFault::BadSize),
            Ok(4096),
            Ok(1048575),
            Err(WideFault::BadSize),
        ],
    );
}

#[test]
fn takes_16_to_4096_frames(rt: HostRuntime) {
    let sizes = [15, 16, 4096, 4097].map(|frames| FrameTable::new(rt.alloc(), frames).map(
        |table| table.free_count(),
    ));
    same(
        &rt,
        &sizes,
        &[
            Err(MachineFault::BadSize),
            Ok(15),
            Ok(4095),
            Err(MachineFault::BadSize),
        ],
    );
}

/// `rt try --test --fail-alloc N` refuses the Nth allocation of this test alone, and each is one of
/// `new`. A call that meets it answers NoMemory, the same call with memory then succeeds, and a line
/// is printed that says so.
#[test]
fn goes_on_after_want_of_memory(rt: HostRuntime) -> Result<(), Fail> {
    let first = FrameTable::new(rt.alloc(), 16).map(|table| table.free_count());
    if first.is_err() {
        same(&rt, &first, &Err(MachineFault::NoMemory));
        let again = FrameTable::new(rt.alloc(), 16).map(|table| table.free_count());
        same(&rt, &again, &Ok(15));
        println!(rt; "NoMemory, and then a table")?;
    }
    Ok(())
}
