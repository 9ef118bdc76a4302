//! Worked windows on cores, and the worked run of a machine in long mode.

use crate::common::{check, process, same, zeros};
use kernel_calls::{Call, Core, Reply, Size, Vaddr};
use long_mode_machine::worked_run;
use shadow_tables::is_kernel_half;
use shootdowns::{worked_protect, worked_window};
use std::process::Abort;
use std::test::Fail;
use table_walk::{Access, walk};

/// The first address of the user range.
const ADDRESS: Vaddr = Vaddr(0x4000_0000);

/// Loads the first four bytes of the user range.
fn load() -> Call {
    Call::Load {
        addr: ADDRESS,
        size: Size::Four,
    }
}

/// Whether the walk of the root's directory for a load finds a frame.
fn finds(rt: &impl Abort, core: &Core) -> bool {
    let directory = core.directory(process(rt, 0)).expect(rt, "a directory");
    walk(core.memory(), directory, ADDRESS, Access::Read).is_ok()
}

/// After the worked window its page is no longer mapped: a load maps it again, with zeros.
#[test]
fn a_worked_window_unmaps_its_page(rt: HostRuntime) -> Result<(), Fail> {
    let mut core = worked_window(rt.alloc())?;
    check(&rt, &mut core, 0, load(), Reply::Value(0));
    Ok(())
}

/// After the worked Protect parent and child have the byte, and the child may not write its copy.
#[test]
fn a_worked_protect_takes_the_right(rt: HostRuntime) -> Result<(), Fail> {
    let mut core = worked_protect(rt.alloc())?;
    check(&rt, &mut core, 0, load(), Reply::Value(7));
    check(&rt, &mut core, 1, load(), Reply::Value(7));
    let (addr, size, value) = (ADDRESS, Size::One, 8);
    let fault = Reply::Fault { addr, code: 7 };
    check(&rt, &mut core, 1, Call::Store { addr, size, value }, fault);
    Ok(())
}

/// After the worked run in long mode no walk ends in its page. A load maps it again, with a zero.
#[test]
fn a_worked_run_in_long_mode_unmaps_its_page(rt: HostRuntime) {
    let (bytes, kernel) = (zeros(&rt, 45056), zeros(&rt, 2048));
    assert!(rt; bytes.len() == 45056 && kernel.len() == 2048);
    assert!(rt; is_kernel_half(&kernel));
    let mut core = worked_run(rt.alloc(), bytes, kernel).expect(&rt, "a core");
    same(&rt, &finds(&rt, &core), &false);
    check(&rt, &mut core, 0, load(), Reply::Value(0));
    same(&rt, &finds(&rt, &core), &true);
}
