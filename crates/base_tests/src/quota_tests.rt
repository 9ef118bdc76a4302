//! Containers and their quotas.
use crate::comparing::process;
use page_words::Pid;
use quota_tree::{QuotaFault, Quotas};
use std::process::Abort;

/// Charges a process for so many frames, which it has room for.
fn charge(rt: &impl Abort, quotas: &mut Quotas, pid: Pid, frames: u32) {
    assert!(rt; quotas.get(pid).is_some());
    assert!(rt; frames <= quotas.room(pid));
    quotas.charge(pid, frames);
}

/// Takes back the charge of so many frames, with which it isn't charged for them alone.
fn refund(rt: &impl Abort, quotas: &mut Quotas, pid: Pid, frames: u32) {
    let container = quotas.get(pid).expect(rt, "the process is live");
    assert!(rt; frames < container.used);
    quotas.refund(pid, frames);
}

/// Closes the container of a process that has no child, and is not the root.
fn close(rt: &impl Abort, quotas: &mut Quotas, pid: Pid) {
    let container = quotas.get(pid).expect(rt, "the process is live");
    assert_eq!(rt; container.children, 0);
    assert!(rt; pid.number() != 0);
    quotas.close(pid);
    assert!(rt; quotas.get(pid).is_none());
}

/// Gives a child this quota: it has this number.
fn split(rt: &impl Abort, quotas: &mut Quotas, parent: Pid, quota: u32, number: u8) {
    assert!(rt; quotas.get(parent).is_some());
    assert!(rt; quotas.can_split(parent, quota).is_ok());
    assert_eq!(rt; quotas.split(parent, quota).number(), number);
}

/// What a child of the root has: quota, used, given, children.
fn check_child(rt: &impl Abort, quotas: &Quotas, pid: Pid, expected: [u32; 4]) {
    let found = quotas.get(pid).expect(rt, "the process is live");
    assert_eq!(rt;
        [found.quota, found.used, found.given, found.children as u32],
        expected
    );
    assert_eq!(rt; found.parent, process(rt, 0));
}

fn check_room(rt: &impl Abort, quotas: &Quotas, pid: Pid, room: u32) {
    assert!(rt; quotas.get(pid).is_some());
    assert_eq!(rt; quotas.room(pid), room);
}

/// Checks the answer to the root if it gives a child this quota.
fn check_split(rt: &impl Abort, quotas: &Quotas, quota: u32, expected: Result<Pid, QuotaFault>) {
    let root = process(rt, 0);
    assert!(rt; quotas.get(root).is_some());
    assert_eq!(rt; quotas.can_split(root, quota), expected);
}

#[test]
fn gives_and_takes_back(rt: HostRuntime) {
    let (root, child) = (process(&rt, 0), process(&rt, 1));
    let mut quotas = Quotas::new(15);
    split(&rt, &mut quotas, root, 12, 1);
    check_room(&rt, &quotas, root, 2);
    charge(&rt, &mut quotas, child, 11);
    check_child(&rt, &quotas, child, [12, 12, 0, 0]);
    refund(&rt, &mut quotas, child, 10);
    check_room(&rt, &quotas, child, 10);
    close(&rt, &mut quotas, child);
    check_room(&rt, &quotas, root, 14);
}

/// The root has as many children as there are numbers, each with a quota of 1.
fn split_all(rt: &impl Abort, quotas: &mut Quotas) {
    for number in 1..64 {
        split(rt, quotas, process(rt, 0), 1, number);
    }
}

#[test]
fn numbers_children_from_the_least(rt: HostRuntime) {
    let seventh = process(&rt, 7);
    let mut quotas = Quotas::new(127);
    split_all(&rt, &mut quotas);
    check_split(&rt, &quotas, 1, Err(QuotaFault::TableFull));
    check_split(&rt, &quotas, 0, Err(QuotaFault::BadQuota));
    close(&rt, &mut quotas, seventh);
    check_split(&rt, &quotas, 1, Ok(seventh));
    check_split(&rt, &quotas, 100, Err(QuotaFault::NoRoom));
    quotas.within();
}
