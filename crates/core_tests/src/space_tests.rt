//! Spaces by their calls: what each leaves of pages, frames and costs.
ghost use Rattle.std.specs.Prelude.{◌≡◌, ◌+◌, ◌≤◌, length};
ghost use Rattle.page_words.specs.Addresses.{IsUserPage};
ghost use Rattle.address_space.specs.View.{total_cost};

use crate::common::{process, same};
use address_space::{Cell, Spaces};
use alloc_table::Role;
use page_words::{
    Frame, MachineFault, Page, Pid, Size, Vaddr, WideFault, in_user_range, page_of, second_page,
};
use std::process::Abort;
use std::test::Fail;

const PAGE: Page = Page(0x40000);

/// The last four bytes of the page.
const ADDRESS: Vaddr = Vaddr(0x4000_0ffc);

/// The last page of the first region.
const LAST: Page = Page(0x403ff);

/// Gives a process an empty space.
fn begin(rt: &impl Abort, spaces: &mut Spaces, pid: Pid)
    requires room { 2 + total_cost spaces.old.directories spaces.old.spaces ≤ length spaces.old.roles }
    ensures costs { total_cost spaces.new.directories spaces.new.spaces
        ≡ 1 + total_cost spaces.old.directories spaces.old.spaces }
    ensures frames { length spaces.new.roles ≡ length spaces.old.roles }
{
    assert!(rt; spaces.directory(pid).is_none());
    spaces.fresh(pid);
}

/// Takes away the space of a process that has one.
fn end(rt: &impl Abort, spaces: &mut Spaces, pid: Pid) {
    assert!(rt; spaces.directory(pid).is_some());
    spaces.drop_space(pid);
    assert!(rt; spaces.directory(pid).is_none());
}

/// Maps a page of zeros of a process that has a space. It needs so many frames then.
#[tactic(auto, using(address_space::proofs::costs::Totals::total_mapped_most))]
fn map_page(rt: &impl Abort, spaces: &mut Spaces, pid: Pid, page: Page, need: u32)
    requires user { IsUserPage page }
    requires room { 3 + total_cost spaces.old.directories spaces.old.spaces ≤ length spaces.old.roles }
    ensures costs { total_cost spaces.new.directories spaces.new.spaces
        ≤ 2 + total_cost spaces.old.directories spaces.old.spaces }
    ensures frames { length spaces.new.roles ≡ length spaces.old.roles }
{
    assert!(rt; pid.number() < 64);
    assert!(rt; spaces.directory(pid).is_some());
    assert!(rt; spaces.cell(pid, page).is_none());
    same(rt, &spaces.place(pid, page).need(), &need);
    spaces.map_zero(pid, page, true);
}

/// Lets a page join the group of the same page of another process, which may write to it.
fn share_page(rt: &impl Abort, spaces: &mut Spaces, giver: Pid, pid: Pid, page: Page)
    requires user { IsUserPage page }
    requires room { 3 + total_cost spaces.old.directories spaces.old.spaces ≤ length spaces.old.roles }
{
    assert!(rt; spaces.directory(pid).is_some());
    assert!(rt; spaces.cell(giver, page).is_some());
    assert!(rt; spaces.cell(pid, page).is_none());
    let place = spaces.place(giver, page);
    spaces.fill_at(giver, page, &place);
    spaces.join(giver, page, pid, page, false);
}

/// Unmaps a page that is mapped, by which its process's charge falls by so many.
fn unmap_page(rt: &impl Abort, spaces: &mut Spaces, pid: Pid, page: Page, relief: u32)
    requires user { IsUserPage page }
{
    assert!(rt; spaces.cell(pid, page).is_some());
    let place = spaces.place(pid, page);
    same(rt, &spaces.relief_at(pid, page, &place), &relief);
    spaces.unmap(pid, page);
    assert!(rt; spaces.cell(pid, page).is_none());
}

/// Has a frame given to a page that is mapped and lazy.
fn fill_page(rt: &impl Abort, spaces: &mut Spaces, pid: Pid, page: Page)
    requires user { IsUserPage page }
{
    assert!(rt; spaces.is_lazy(pid, page));
    assert!(rt; spaces.cell(pid, page).is_some());
    let place = spaces.place(pid, page);
    spaces.fill_at(pid, page, &place);
    assert!(rt; !spaces.is_lazy(pid, page));
}

/// Stores four bytes to one page that has a frame.
fn store_word(rt: &impl Abort, spaces: &mut Spaces, pid: Pid, address: Vaddr, value: u32) {
    let page = page_of(address);
    assert!(rt; in_user_range(page));
    assert!(rt; second_page(address, Size::Four).is_none());
    assert!(rt; spaces.cell(pid, page).is_some());
    assert!(rt; !spaces.is_lazy(pid, page));
    spaces.write(pid, address, Size::Four, value);
}

/// Loads four bytes of one page that is mapped.
fn load_word(rt: &impl Abort, spaces: &mut Spaces, pid: Pid, address: Vaddr, value: u32) {
    let page = page_of(address);
    assert!(rt; in_user_range(page));
    assert!(rt; second_page(address, Size::Four).is_none());
    assert!(rt; spaces.cell(pid, page).is_some());
    same(rt, &spaces.read(pid, address, Size::Four), &value);
}

/// Reads four bytes, whose pages need not be mapped.
fn peek_word(rt: &impl Abort, spaces: &Spaces, pid: Pid, address: Vaddr, value: u32) {
    assert!(rt; in_user_range(page_of(address)));
    assert!(rt;
        match second_page(address, Size::Four) {
            Some(page) => in_user_range(page),
            None => true,
        }
    );
    same(rt, &spaces.peek(pid, address, Size::Four), &value);
}

fn check_cell(rt: &impl Abort, spaces: &Spaces, pid: Pid, page: Page, cell: Option<Cell>) {
    assert!(rt; in_user_range(page));
    same(rt, &spaces.cell(pid, page), &cell);
}

/// What a process that has a space is charged for.
fn check_cost(rt: &impl Abort, spaces: &Spaces, pid: Pid, cost: u32) {
    assert!(rt; spaces.directory(pid).is_some());
    same(rt, &spaces.cost(pid), &cost);
}

/// All frames are free but frame 0, and so many more.
fn check_frames(rt: &impl Abort, spaces: &Spaces, used: u32) {
    let mut free = 0_u32;
    for frame in 0..spaces.frames() {
        free = free.wrapping_add((spaces.role(Frame(frame)) == Role::Free) as u32);
    }
    same(
        rt,
        &free.wrapping_add(used).wrapping_add(1),
        &spaces.frames(),
    );
}

#[test]
fn takes_16_to_4096_frames(rt: HostRuntime) {
    let sizes = [15, 4096, 4097].map(|frames| Spaces::new(rt.alloc(), frames).map(
        |spaces| spaces.frames(),
    ));
    same(
        &rt,
        &sizes,
        &[
            Err(MachineFault::BadSize),
            Ok(4096),
            Err(MachineFault::BadSize),
        ],
    );
}

#[test]
fn takes_more_frames_where_it_is_wide(rt: HostRuntime) {
    let sizes = [15, 5000, 1048577].map(|frames| Spaces::wide(rt.alloc(), frames).map(
        |spaces| spaces.frames(),
    ));
    same(
        &rt,
        &sizes,
        &[Err(WideFault::BadSize), Ok(5000), Err(WideFault::BadSize)],
    );
}

#[test]
fn maps_writes_reads_and_unmaps(rt: HostRuntime) -> Result<(), Fail> {
    let mut spaces = Spaces::new(rt.alloc(), 16)?;
    let root = process(&rt, 0);
    begin(&rt, &mut spaces, root);
    map_page(&rt, &mut spaces, root, PAGE, 2);
    fill_page(&rt, &mut spaces, root, PAGE);
    store_word(&rt, &mut spaces, root, ADDRESS, 0x00c0_ffee);
    peek_word(&rt, &spaces, root, Vaddr(0x4000_0ffd), 0x0000_c0ff);
    load_word(&rt, &mut spaces, root, ADDRESS, 0x00c0_ffee);
    unmap_page(&rt, &mut spaces, root, PAGE, 2);
    check_frames(&rt, &spaces, 1);
    Ok(())
}

#[test]
fn charges_for_directory_tables_and_pages(rt: HostRuntime) -> Result<(), Fail> {
    let mut spaces = Spaces::new(rt.alloc(), 16)?;
    let root = process(&rt, 0);
    begin(&rt, &mut spaces, root);
    check_cost(&rt, &spaces, root, 1);
    map_page(&rt, &mut spaces, root, PAGE, 2);
    map_page(&rt, &mut spaces, root, LAST, 1);
    check_cost(&rt, &spaces, root, 4);
    map_page(&rt, &mut spaces, root, Page(0x40400), 2);
    check_cost(&rt, &spaces, root, 6);
    Ok(())
}

#[test]
fn a_table_goes_with_its_last_page(rt: HostRuntime) -> Result<(), Fail> {
    let mut spaces = Spaces::new(rt.alloc(), 16)?;
    let root = process(&rt, 0);
    begin(&rt, &mut spaces, root);
    map_page(&rt, &mut spaces, root, PAGE, 2);
    map_page(&rt, &mut spaces, root, LAST, 1);
    check_frames(&rt, &spaces, 2);
    unmap_page(&rt, &mut spaces, root, PAGE, 1);
    check_frames(&rt, &spaces, 2);
    unmap_page(&rt, &mut spaces, root, LAST, 2);
    check_frames(&rt, &spaces, 1);
    Ok(())
}

/// A cell of a page that nobody has accessed.
fn untouched(write: bool, may: bool, holders: u32) -> Option<Cell> {
    Some(Cell {
        write,
        may,
        accessed: false,
        dirty: false,
        holders,
    })
}

/// Sets the right to write of a page that may be written to.
fn protect(rt: &impl Abort, spaces: &mut Spaces, pid: Pid, page: Page, write: bool)
    requires user { IsUserPage page }
{
    let may = spaces.cell(pid, page).map(|cell| cell.may);
    assert_eq!(rt; may, Some(true));
    spaces.protect(pid, page, write);
}

#[test]
fn protects_a_page_and_gives_the_right_back(rt: HostRuntime) -> Result<(), Fail> {
    let mut spaces = Spaces::new(rt.alloc(), 16)?;
    let root = process(&rt, 0);
    begin(&rt, &mut spaces, root);
    map_page(&rt, &mut spaces, root, PAGE, 2);
    protect(&rt, &mut spaces, root, PAGE, false);
    check_cell(&rt, &spaces, root, PAGE, untouched(false, true, 1));
    protect(&rt, &mut spaces, root, PAGE, true);
    check_cell(&rt, &spaces, root, PAGE, untouched(true, true, 1));
    Ok(())
}

#[test]
fn drops_a_space_and_keeps_what_is_shared(rt: HostRuntime) -> Result<(), Fail> {
    let mut spaces = Spaces::new(rt.alloc(), 16)?;
    let (root, child) = (process(&rt, 0), process(&rt, 1));
    begin(&rt, &mut spaces, root);
    begin(&rt, &mut spaces, child);
    map_page(&rt, &mut spaces, root, PAGE, 2);
    share_page(&rt, &mut spaces, root, child, PAGE);
    store_word(&rt, &mut spaces, root, ADDRESS, 0x00c0_ffee);
    check_cell(&rt, &spaces, child, PAGE, untouched(false, false, 2));
    end(&rt, &mut spaces, root);
    check_cell(&rt, &spaces, root, PAGE, None);
    check_cell(&rt, &spaces, child, PAGE, untouched(false, false, 1));
    peek_word(&rt, &spaces, child, ADDRESS, 0x00c0_ffee);
    check_frames(&rt, &spaces, 3);
    end(&rt, &mut spaces, child);
    check_frames(&rt, &spaces, 0);
    Ok(())
}

/// Loads two bytes of one page of the user range, as memory is.
fn load_at_once(
    rt: &impl Abort,
    spaces: &mut Spaces,
    pid: Pid,
    address: Vaddr,
    value: Option<u32>,
) {
    let page = page_of(address);
    assert!(rt; in_user_range(page));
    assert!(rt; second_page(address, Size::Two).is_none());
    let place = spaces.place(pid, page);
    let read = match spaces.cell_at(pid, page, &place) {
        Some(_) => Some(spaces.load_at(pid, address, Size::Two, &place)),
        None => None,
    };
    same(rt, &read, &value);
    same(rt, &place.is_mapped(), &value.is_some());
}

/// Stores beef to one page of the user range, as memory is, and checks whether it was done.
fn store_at_once(rt: &impl Abort, spaces: &mut Spaces, pid: Pid, address: Vaddr, done: bool) {
    let page = page_of(address);
    assert!(rt; in_user_range(page));
    assert!(rt; second_page(address, Size::Two).is_none());
    let place = spaces.place(pid, page);
    same(rt, &place.takes_stores(), &done);
    if done {
        assert!(rt; spaces.cell(pid, page).is_some());
        assert!(rt; !spaces.is_lazy(pid, page));
        spaces.store_at(pid, address, Size::Two, 0xbeef, &place);
    }
}

#[test]
fn loads_and_stores_at_once_what_is_there(rt: HostRuntime) -> Result<(), Fail> {
    let mut spaces = Spaces::new(rt.alloc(), 16)?;
    let root = process(&rt, 0);
    begin(&rt, &mut spaces, root);
    load_at_once(&rt, &mut spaces, root, ADDRESS, None);
    store_at_once(&rt, &mut spaces, root, ADDRESS, false);
    Ok(())
}

#[test]
fn stores_at_once_where_a_page_has_a_frame_and_the_right(rt: HostRuntime) -> Result<(), Fail> {
    let mut spaces = Spaces::new(rt.alloc(), 16)?;
    let root = process(&rt, 0);
    begin(&rt, &mut spaces, root);
    map_page(&rt, &mut spaces, root, PAGE, 2);
    load_at_once(&rt, &mut spaces, root, ADDRESS, Some(0));
    store_at_once(&rt, &mut spaces, root, ADDRESS, false);
    fill_page(&rt, &mut spaces, root, PAGE);
    store_at_once(&rt, &mut spaces, root, ADDRESS, true);
    load_at_once(&rt, &mut spaces, root, ADDRESS, Some(0xbeef));
    protect(&rt, &mut spaces, root, PAGE, false);
    store_at_once(&rt, &mut spaces, root, ADDRESS, false);
    Ok(())
}

/// What an access of two bytes needs of a process that has a space.
fn check_need(rt: &impl Abort, spaces: &Spaces, pid: Pid, address: Vaddr, need: u32) {
    assert!(rt; spaces.directory(pid).is_some());
    assert!(rt; in_user_range(page_of(address)));
    assert!(rt;
        match second_page(address, Size::Two) {
            Some(page) => in_user_range(page),
            None => true,
        }
    );
    same(rt, &spaces.access_need(pid, address, Size::Two), &need);
}

#[test]
fn an_access_of_two_pages_needs_both(rt: HostRuntime) -> Result<(), Fail> {
    let mut spaces = Spaces::new(rt.alloc(), 16)?;
    let root = process(&rt, 0);
    let across = Vaddr(0x403f_ffff);
    begin(&rt, &mut spaces, root);
    check_need(&rt, &spaces, root, across, 4);
    map_page(&rt, &mut spaces, root, LAST, 2);
    check_need(&rt, &spaces, root, across, 2);
    fill_page(&rt, &mut spaces, root, LAST);
    store_word(&rt, &mut spaces, root, Vaddr(0x403f_fffc), 0xff00_0000);
    peek_word(&rt, &spaces, root, across, 0xff);
    Ok(())
}

/// `rt try --test --fail-alloc N` refuses the Nth allocation of this test alone, and each is one of
/// `new`. A call that meets it answers NoMemory, the same call with memory then succeeds, and a line
/// is printed that says so.
#[test]
fn goes_on_after_want_of_memory(rt: HostRuntime) -> Result<(), Fail> {
    let first = Spaces::new(rt.alloc(), 16).map(|spaces| spaces.memory().frames());
    if first.is_err() {
        same(&rt, &first, &Err(MachineFault::NoMemory));
        let again = Spaces::new(rt.alloc(), 16).map(|spaces| spaces.memory().frames());
        same(&rt, &again, &Ok(16));
        println!(rt; "NoMemory, and then spaces")?;
    }
    Ok(())
}
