//! Containers made of what an image has of each live process.

ghost use Rattle.std.specs.Prelude.{◌≡◌, ℕ, ◌<◌, ◌≤◌, Some, slice_get, length};
ghost use Rattle.quota_tree.specs.Book.{number_of_children};
ghost use Rattle.quota_tree.specs.Accounts.{Agree, book_in, containers_in, container_in, counts_child};

use crate::{Container, Quotas};
use page_words::Pid;

/// What an image has of a live process, without the number of its children.
#[derive(Clone, Copy, Debug, PartialEq, Eq)]
pub struct Account {
    /// The process that gave the quota; for process 0, itself.
    pub parent: Pid,
    /// How many frames the process may use and give in all.
    pub quota: u32,
    /// How many frames the process is charged for.
    pub used: u32,
    /// The sum of the quotas of its live children.
    pub given: u32,
}

/// 1 where the account at a place is that of a child of a process, and else 0. Process 0 is nobody's child.
fn child_count(account: Option<Account>, place: usize, parent: Pid) -> u32
    ensures count { result ≡ counts_child parent place account }
    ensures bound { result ≤ 1 }
{
    match account {
        Some(account) => {
            if place != 0 && account.parent.number() == parent.number() {
                1
            } else {
                0
            }
        }
        None => 0,
    }
}

/// How many children a process has.
fn children_of(accounts: &[Option<Account>; 64], parent: Pid) -> u32
    ensures { result ≡ number_of_children (book_in accounts.now) parent }
{
    let mut children = 0;
    for place in (0..64usize).rev() {
        children += child_count(accounts[place], place, parent);
    }
    children
}

/// The container of a process that has an account.
fn container_of(accounts: &[Option<Account>; 64], pid: Pid) -> Option<Container>
    ensures { result ≡ container_in accounts.now pid }
{
    let account = accounts[pid.number() as usize]?;
    Some(Container {
        parent: account.parent,
        quota: account.quota,
        used: account.used,
        given: account.given,
        children: children_of(accounts, pid),
    })
}

/// The containers of all processes that have accounts.
fn containers_of(accounts: &[Option<Account>; 64]) -> [Option<Container>; 64]
    ensures length { length result ≡ 64 }
    ensures each { (p : ℕ) → p < 64 → slice_get result p ≡ Some (container_in accounts.now p) }
{
    let mut containers = [None; 64];
    for number in 0..64u8 {
        containers[number as usize] = container_of(accounts, Pid::new(number).unwrap());
    }
    containers
}

impl Quotas {
    /// The containers of the live processes, by accounts that agree with one another.
    pub fn of_accounts(accounts: &[Option<Account>; 64]) -> Quotas
        requires { Agree accounts.now }
        ensures { result ≡ containers_in accounts.now }
    {
        Quotas {
            containers: containers_of(accounts),
        }
    }
}
