//! Processes by their calls: an example of each test and of each call.
use crate::common::{process, same};
use address_space::Cell;
use page_words::{
    MachineFault, Page, Pid, Size, Vaddr, WideFault, in_user_range, page_of, second_page,
};
use process_table::{Cause, Processes, calls_keep_states_well_formed, images_stand_for_one};
use std::process::Abort;
use std::test::Fail;
use table_walk::Access;

const LOW: Page = Page(0x40000);

const HIGH: Page = Page(0x40001);

const OUTSIDE: Page = Page(0x3ffff);

/// An address in LOW.
const THERE: Vaddr = Vaddr(0x4000_0008);

/// An address in HIGH.
const HERE: Vaddr = Vaddr(0x4000_1008);

pub fn map(rt: &impl Abort, processes: &mut Processes, pid: Pid, page: Page, write: bool) {
    assert!(rt; processes.can_map(pid, page).is_ok());
    processes.map(pid, page, write);
}

fn unmap(rt: &impl Abort, processes: &mut Processes, pid: Pid, page: Page) {
    assert!(rt; processes.can_unmap(pid, page).is_ok());
    processes.unmap(pid, page);
}

fn protect(rt: &impl Abort, processes: &mut Processes, pid: Pid, page: Page, write: bool) {
    assert!(rt; processes.can_protect(pid, page, write).is_ok());
    processes.protect(pid, page, write);
}

fn offer(
    rt: &impl Abort,
    processes: &mut Processes,
    pid: Pid,
    page: Page,
    target: Pid,
    write: bool,
) {
    assert!(rt; processes.can_offer(pid, page, target, write).is_ok());
    processes.offer(pid, page, target, write);
}

fn withdraw(rt: &impl Abort, processes: &mut Processes, pid: Pid, page: Page, target: Pid) {
    assert!(rt; processes.can_withdraw(pid, page, target).is_ok());
    processes.withdraw(pid, page, target);
}

fn accept(
    rt: &impl Abort,
    processes: &mut Processes,
    pid: Pid,
    giver: Pid,
    giver_page: Page,
    page: Page,
) {
    assert!(rt; processes.can_accept(pid, giver, giver_page, page).is_ok());
    processes.accept(pid, giver, giver_page, page);
}

pub fn spawn(rt: &impl Abort, processes: &mut Processes, pid: Pid, quota: u32) -> Pid {
    assert!(rt; processes.can_spawn(pid, quota).is_ok());
    processes.spawn(pid, quota)
}

fn fork(rt: &impl Abort, processes: &mut Processes, pid: Pid, quota: u32) -> Pid {
    processes.try_fork(pid, quota).ok().expect(rt, "a child")
}

fn exit(rt: &impl Abort, processes: &mut Processes, pid: Pid) {
    assert!(rt; processes.can_exit(pid).is_ok());
    processes.exit(pid);
    assert!(rt; !processes.live(pid));
}

/// Loads four bytes of one page that is mapped.
fn load(rt: &impl Abort, processes: &mut Processes, pid: Pid, address: Vaddr, value: u32) {
    let page = page_of(address);
    assert!(rt; in_user_range(page));
    assert!(rt; second_page(address, Size::Four).is_none());
    assert!(rt; processes.spaces().cell(pid, page).is_some());
    let read = processes.access(pid, address, Size::Four, Access::Read, 0);
    same(rt, &read, &value);
}

/// Stores four bytes to one page that is mapped with the right to write.
fn store(rt: &impl Abort, processes: &mut Processes, pid: Pid, address: Vaddr, value: u32) {
    let page = page_of(address);
    assert!(rt; in_user_range(page));
    assert!(rt; second_page(address, Size::Four).is_none());
    let cell = processes
        .spaces()
        .cell(pid, page)
        .expect(rt, "a mapped page");
    assert!(rt; cell.write);
    let place = processes.spaces().place(pid, page);
    processes.fill_at(pid, page, &place);
    processes.access(pid, address, Size::Four, Access::Write, value);
}

/// A process has this quota, uses so much, and has given so much.
fn check_container(
    rt: &impl Abort,
    processes: &Processes,
    pid: Pid,
    quota: u32,
    used: u32,
    given: u32,
) {
    let found = match processes.container(pid) {
        Some(container) => [container.quota, container.used, container.given],
        None => [0, 0, 0],
    };
    same(rt, &found, &[quota, used, given]);
}

/// A cell of a page that the process has not accessed.
fn check_untouched(
    rt: &impl Abort,
    processes: &Processes,
    pid: Pid,
    page: Page,
    write: bool,
    holders: u32,
) {
    let cell = Cell {
        write,
        may: write,
        accessed: false,
        dirty: false,
        holders,
    };
    assert!(rt; in_user_range(page));
    same(rt, &processes.spaces().cell(pid, page), &Some(cell));
}

pub fn check_lazy(rt: &impl Abort, processes: &Processes, pid: Pid, page: Page, lazy: bool) {
    assert!(rt; in_user_range(page));
    same(rt, &processes.is_lazy(pid, page), &lazy);
}

#[test]
fn takes_more_frames_where_it_is_wide(rt: HostRuntime) {
    let sizes = [15, 5000, 1048577].map(|frames| Processes::wide(rt.alloc(), frames).map(
        |processes| processes.spaces().frames(),
    ));
    same(
        &rt,
        &sizes,
        &[Err(WideFault::BadSize), Ok(5000), Err(WideFault::BadSize)],
    );
}

#[test]
fn takes_16_to_4096_frames(rt: HostRuntime) {
    let sizes = [15, 4096, 4097].map(|frames| Processes::new(rt.alloc(), frames).map(
        |processes| processes.spaces().frames(),
    ));
    same(
        &rt,
        &sizes,
        &[
            Err(MachineFault::BadSize),
            Ok(4096),
            Err(MachineFault::BadSize),
        ],
    );
    images_stand_for_one();
    calls_keep_states_well_formed();
}

#[test]
fn maps_stores_loads_and_unmaps(rt: HostRuntime) -> Result<(), Fail> {
    let mut processes = Processes::new(rt.alloc(), 16)?;
    let root = process(&rt, 0);
    map(&rt, &mut processes, root, LOW, true);
    check_untouched(&rt, &processes, root, LOW, true, 1);
    store(&rt, &mut processes, root, THERE, 0x00c0_ffee);
    load(&rt, &mut processes, root, THERE, 0x00c0_ffee);
    check_container(&rt, &processes, root, 15, 3, 0);
    unmap(&rt, &mut processes, root, LOW);
    check_container(&rt, &processes, root, 15, 1, 0);
    processes.stands();
    Ok(())
}

#[test]
fn shares_a_page_both_ways(rt: HostRuntime) -> Result<(), Fail> {
    let mut processes = Processes::new(rt.alloc(), 16)?;
    let (root, child) = (process(&rt, 0), process(&rt, 1));
    map(&rt, &mut processes, root, LOW, true);
    store(&rt, &mut processes, root, THERE, 7);
    spawn(&rt, &mut processes, root, 5);
    offer(&rt, &mut processes, root, LOW, child, true);
    accept(&rt, &mut processes, child, root, LOW, HIGH);
    check_untouched(&rt, &processes, child, HIGH, true, 2);
    load(&rt, &mut processes, child, HERE, 7);
    store(&rt, &mut processes, child, HERE, 0x00c0_ffee);
    load(&rt, &mut processes, root, THERE, 0x00c0_ffee);
    Ok(())
}

/// The right that goes with the offer of LOW from one process to another.
fn check_offer(
    rt: &impl Abort,
    processes: &Processes,
    giver: Pid,
    target: Pid,
    right: Option<bool>,
) {
    same(rt, &processes.offers().get(giver, LOW, target), &right);
}

#[test]
fn offers_withdraws_and_protects(rt: HostRuntime) -> Result<(), Fail> {
    let mut processes = Processes::new(rt.alloc(), 16)?;
    let (root, child) = (process(&rt, 0), process(&rt, 1));
    map(&rt, &mut processes, root, LOW, true);
    spawn(&rt, &mut processes, root, 5);
    offer(&rt, &mut processes, root, LOW, child, true);
    check_offer(&rt, &processes, root, child, Some(true));
    withdraw(&rt, &mut processes, root, LOW, child);
    check_offer(&rt, &processes, root, child, None);
    protect(&rt, &mut processes, root, LOW, false);
    offer(&rt, &mut processes, root, LOW, child, false);
    unmap(&rt, &mut processes, root, LOW);
    check_offer(&rt, &processes, root, child, None);
    Ok(())
}

#[test]
fn spawns_and_takes_a_quota_back(rt: HostRuntime) -> Result<(), Fail> {
    let mut processes = Processes::new(rt.alloc(), 32)?;
    let (root, child) = (process(&rt, 0), process(&rt, 1));
    same(&rt, &spawn(&rt, &mut processes, root, 20), &child);
    map(&rt, &mut processes, child, LOW, true);
    check_container(&rt, &processes, child, 20, 3, 0);
    check_container(&rt, &processes, root, 31, 1, 20);
    exit(&rt, &mut processes, child);
    check_container(&rt, &processes, root, 31, 1, 0);
    Ok(())
}

#[test]
fn forks_a_stored_page_and_a_lazy_one(rt: HostRuntime) -> Result<(), Fail> {
    let mut processes = Processes::new(rt.alloc(), 32)?;
    let (root, child) = (process(&rt, 0), process(&rt, 1));
    map(&rt, &mut processes, root, LOW, true);
    map(&rt, &mut processes, root, HIGH, true);
    store(&rt, &mut processes, root, THERE, 7);
    same(&rt, &fork(&rt, &mut processes, root, 10), &child);
    check_container(&rt, &processes, child, 10, 4, 0);
    check_untouched(&rt, &processes, child, LOW, true, 1);
    check_lazy(&rt, &processes, child, LOW, false);
    check_lazy(&rt, &processes, child, HIGH, true);
    store(&rt, &mut processes, root, THERE, 8);
    load(&rt, &mut processes, child, THERE, 7);
    Ok(())
}

/// The number of the cause that a test answers, and 0 for none.
fn cause<T: Drop>(answer: Result<T, Cause>) -> u8 {
    match answer {
        Ok(_) => 0,
        Err(cause) => cause as u8,
    }
}

/// What each test answers a process that is not live.
fn answers_to(processes: &Processes, nobody: Pid) -> [u8; 9] {
    [
        cause(processes.can_map(nobody, LOW)),
        cause(processes.can_unmap(nobody, LOW)),
        cause(processes.can_protect(nobody, LOW, true)),
        cause(processes.can_offer(nobody, LOW, nobody, true)),
        cause(processes.can_withdraw(nobody, LOW, nobody)),
        cause(processes.can_accept(nobody, nobody, LOW, LOW)),
        cause(processes.can_spawn(nobody, 0)),
        cause(processes.can_fork(nobody, 0)),
        cause(processes.can_exit(nobody)),
    ]
}

/// What the tests answer the root, which has mapped LOW alone.
fn answers_to_root(processes: &Processes, root: Pid, nobody: Pid) -> [u8; 14] {
    [
        cause(processes.can_map(root, OUTSIDE)),
        cause(processes.can_map(root, LOW)),
        cause(processes.can_unmap(root, HIGH)),
        cause(processes.can_protect(root, HIGH, true)),
        cause(processes.can_offer(root, LOW, root, true)),
        cause(processes.can_offer(root, LOW, nobody, true)),
        cause(processes.can_withdraw(root, LOW, nobody)),
        cause(processes.can_accept(root, nobody, LOW, HIGH)),
        cause(processes.can_spawn(root, 0)),
        cause(processes.can_spawn(root, 13)),
        cause(processes.can_fork(root, 0)),
        cause(processes.can_fork(root, 2)),
        cause(processes.can_fork(root, 13)),
        cause(processes.can_exit(root)),
    ]
}

#[test]
fn tests_answer_the_first_cause(rt: HostRuntime) -> Result<(), Fail> {
    let mut processes = Processes::new(rt.alloc(), 16)?;
    let (root, nobody) = (process(&rt, 0), process(&rt, 9));
    map(&rt, &mut processes, root, LOW, true);
    same(&rt, &answers_to(&processes, nobody), &[1; 9]);
    same(
        &rt,
        &answers_to_root(&processes, root, nobody),
        &[2, 5, 4, 4, 8, 9, 12, 12, 14, 6, 14, 17, 6, 16],
    );
    Ok(())
}

/// What the root is charged for once an access of so many bytes has been made.
fn check_charge(rt: &impl Abort, processes: &Processes, address: Vaddr, size: Size, charge: u32) {
    let root = process(rt, 0);
    assert!(rt; processes.live(root));
    assert!(rt; in_user_range(page_of(address)));
    assert!(rt;
        match second_page(address, size) {
            Some(page) => in_user_range(page),
            None => true,
        }
    );
    same(rt, &processes.access_charge(root, address, size), &charge);
}

#[test]
fn charges_an_access_for_its_pages(rt: HostRuntime) -> Result<(), Fail> {
    let mut processes = Processes::new(rt.alloc(), 16)?;
    let last_of_a_region = Vaddr(0x403f_ffff);
    check_charge(&rt, &processes, last_of_a_region, Size::One, 3);
    check_charge(&rt, &processes, last_of_a_region, Size::Two, 5);
    map(&rt, &mut processes, process(&rt, 0), LOW, true);
    check_charge(&rt, &processes, THERE, Size::Four, 3);
    check_charge(&rt, &processes, Vaddr(0x4000_0ffd), Size::Four, 4);
    Ok(())
}

/// `rt try --test --fail-alloc N` refuses the Nth allocation of this test alone, and each is one of
/// `new`. A call that meets it answers NoMemory, the same call with memory then succeeds, and a line
/// is printed that says so.
#[test]
fn goes_on_after_want_of_memory(rt: HostRuntime) -> Result<(), Fail> {
    let first = Processes::new(rt.alloc(), 16).map(|processes| processes.spaces().frames());
    if first.is_err() {
        same(&rt, &first, &Err(MachineFault::NoMemory));
        let again = Processes::new(rt.alloc(), 16).map(|processes| processes.spaces().frames());
        same(&rt, &again, &Ok(16));
        println!(rt; "NoMemory, and then processes")?;
    }
    Ok(())
}
