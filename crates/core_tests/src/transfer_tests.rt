//! A process's memory in and out, and its pages one after the other.
ghost use Rattle.c_handle.specs.Handle.{IsTower};

use crate::common::{process, same};
use c_handle::{Tower, put, take};
use kernel_acts::{Transfer, read_bytes, write_bytes};
use kernel_calls::{Core, Pid, Reply};
use page_words::{Page, Vaddr, in_user_range};
use std::process::Abort;
use std::test::Fail;

/// So many bytes of the root go in from an address on, and then this stops them.
fn writes(rt: &impl Abort, core: &mut Core, at: Vaddr, bytes: &[u8], told: &Transfer) {
    same(rt, &write_bytes(core, process(rt, 0), at, bytes), told);
}

/// Four bytes of the root from an address on are these; those behind the last that went stay 9.
fn reads(rt: &impl Abort, core: &mut Core, at: Vaddr, bytes: [u8; 4], told: &Transfer) {
    let mut out = [9; 4];
    let went = read_bytes(core, process(rt, 0), at, &mut out);
    same(rt, &went, told);
    same(rt, &out, &bytes);
}

/// A transfer of so many bytes, stopped by a fault at an address where there is one.
fn transfer(count: usize, fault: Option<(u32, u8)>) -> Transfer {
    let stop = fault.map(|(at, code)| Reply::Fault {
        addr: Vaddr(at),
        code,
    });
    Transfer { count, stop }
}

#[test]
fn copies_a_processs_memory_in_and_out(rt: HostRuntime) -> Result<(), Fail> {
    let mut core = Core::boot(rt.alloc(), 16)?;
    let (across, last) = (Vaddr(0x4000_0ffe), Vaddr(0xefff_fffe));
    let (all, stopped) = (transfer(4, None), transfer(2, Some((0xf000_0000, 6))));
    writes(&rt, &mut core, across, &[1, 2, 3, 4], &all);
    reads(&rt, &mut core, across, [1, 2, 3, 4], &all);
    writes(&rt, &mut core, last, &[5, 6, 7], &stopped);
    let stopped = transfer(2, Some((0xf000_0000, 4)));
    reads(&rt, &mut core, last, [5, 6, 9, 9], &stopped);
    Ok(())
}

/// The root's next page from there on.
fn next(rt: &impl Abort, core: &Core, from: u32, page: Option<u32>) {
    let page = page.map(|page| Page(page));
    same(rt, &core.next_page(process(rt, 0), Page(from)), &page);
}

/// Whether a page of the root is lazy, and how many slots its group has; None where it is not mapped.
fn stands(rt: &impl Abort, core: &Core, page: u32, told: Option<(bool, u32)>) {
    let page = Page(page);
    assert!(rt; in_user_range(page));
    let state = core.page(process(rt, 0), page);
    same(rt, &state.map(|it| (it.lazy, it.cell.holders)), &told);
}

#[test]
fn goes_over_a_processs_pages(rt: HostRuntime) -> Result<(), Fail> {
    let mut core = Core::boot(rt.alloc(), 16)?;
    let (first, second) = (Vaddr(0x4000_1000), Vaddr(0x8000_0000));
    writes(&rt, &mut core, first, &[1], &transfer(1, None));
    reads(&rt, &mut core, second, [0; 4], &transfer(4, None));
    next(&rt, &core, 0, Some(0x40001));
    next(&rt, &core, 0x40002, Some(0x80000));
    next(&rt, &core, 0x80001, None);
    stands(&rt, &core, 0x40001, Some((false, 1)));
    stands(&rt, &core, 0x80000, Some((true, 1)));
    stands(&rt, &core, 0x40002, None);
    Ok(())
}

/// The handle's core has so many frames, and is put back; None where it has none.
fn holds<R: AllocGlobal + Abort>(rt: &R, tower: &mut Tower, frames: Option<u32>)
    requires { IsTower tower.old }
    ensures { IsTower tower.new }
{
    let core = take(rt.alloc(), tower);
    assert!(rt; !tower.live);
    same(rt, &core.as_ref().map(|core| core.frames()), &frames);
    if let Some(core) = core {
        put(tower, core);
    }
}

#[test]
fn a_handle_keeps_its_core(rt: HostRuntime) -> Result<(), Fail> {
    let alloc = rt.alloc();
    let mut tower = Tower::none(alloc);
    holds(&rt, &mut tower, None);
    put(&mut tower, Box::new(alloc, Core::boot(alloc, 16)?)?);
    holds(&rt, &mut tower, Some(16));
    holds(&rt, &mut tower, Some(16));
    drop(take(alloc, &mut tower));
    holds(&rt, &mut tower, None);
    Ok(())
}
