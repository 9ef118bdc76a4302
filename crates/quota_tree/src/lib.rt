//! Containers: how many frames each process may use, and which part of that it has given away.
//!
//! Each live process has a container. Its quota is what it may use and give, in frames; what it gives
//! goes to its children, and comes back when they close. A contract sees the containers as two finite
//! maps by process: the book (parent and quota) and what each process uses. What a process has given
//! and how many children it has are sums over the book.
#![tactic(auto)]

ghost use Rattle.std.specs.Prelude.{◌≡◌, ℕ, ◌+◌, ◌-◌, ◌<◌, ◌≤◌, ◌≢◌, ◌^◌, ◌↔◌, IfSome, None, Ok, IsOk, IsSome, Some, is_some, not, slice_index_or, slice_set, position};
ghost use Rattle.page_words.specs.FiniteMap as map;
ghost use Rattle.quota_tree.specs.Book.{Member, given, quota_of, number_of_children, next_number};
ghost use Rattle.quota_tree.specs.Containers.{opening, IsLive, opened_container, room_of, used_of, split_answer, after_split, with_used, after_close, container_of, total_used, charged_with, giver_after_split, giver_after_close};

mod accounts;

pub use accounts::Account;
use page_words::Pid;
use std::marker::Model;

/// What a process may use, and what it uses and gives of that.
#[derive(Clone, Copy, Debug, PartialEq, Eq)]
pub struct Container {
    /// The process that gave the quota; for process 0, itself.
    pub parent: Pid,
    /// How many frames the process may use and give in all.
    pub quota: u32,
    /// How many frames the process is charged for.
    pub used: u32,
    /// The sum of the quotas of its live children.
    pub given: u32,
    /// How many live children it has.
    pub children: u32,
}

/// Why a process can't have that child.
#[derive(Clone, Copy, Debug, PartialEq, Eq)]
pub enum QuotaFault {
    /// The quota asked is 0.
    BadQuota,
    /// All 64 numbers are taken.
    TableFull,
    /// The quota asked is more than the parent's room.
    NoRoom,
}

/// The containers of all live processes, of which process 0 is one.
#[derive(Clone, Debug, Drop)]
pub struct Quotas {
    containers: [Option<Container>; 64],
}

impl Model for Quotas {
    ghost use Rattle.quota_tree.specs.Containers.{Containers, containers_code};

    ghost Value = { Containers };

    ghost coded = { containers_code };

    ghost use Rattle.quota_tree.specs.Invariant.{seen_as, IsQuotas};

    ghost view = { λ quotas. seen_as quotas.containers };

    ghost invariant = { λ quotas. IsQuotas quotas.containers };
}

/// A container that gives nothing, and uses that many frames.
fn opened(parent: Pid, quota: u32, used: u32) -> Container
    ensures { result ≡ charged_with (opened_container parent quota) used }
{
    Container {
        parent,
        quota,
        used,
        given: 0,
        children: 0,
    }
}

/// The container of a parent with one child more, of that quota.
fn with_child(parent: Container, quota: u32) -> Container
    requires given { parent.given + quota < 2 ^ 32 }
    requires children { parent.children + 1 < 2 ^ 32 }
    ensures { result ≡ giver_after_split parent quota }
{
    Container {
        given: parent.given + quota,
        children: parent.children + 1,
        ..parent
    }
}

/// The container of a parent with one child less, of that quota.
fn without_child(parent: Container, quota: u32) -> Container
    requires given { quota ≤ parent.given }
    requires children { 1 ≤ parent.children }
    ensures { result ≡ giver_after_close parent quota }
{
    Container {
        given: parent.given - quota,
        children: parent.children - 1,
        ..parent
    }
}

/// What is left of a quota.
fn left_of(container: Container) -> u32
    requires { container.used + container.given ≤ container.quota }
    ensures { result ≡ container.quota - container.used - container.given }
{
    container.quota - container.used - container.given
}

fn container_at(containers: &[Option<Container>; 64], pid: Pid) -> Option<Container>
    ensures { result ≡ slice_index_or containers.now pid None }
{
    containers[pid.number() as usize]
}

fn live(containers: &[Option<Container>; 64], pid: Pid) -> Container
    requires { IsSome (slice_index_or containers.now pid None) }
    ensures container { slice_index_or containers.now pid None ≡ Some result }
    ensures fits { result.quota < 2 ^ 32 }
{
    container_at(containers, pid).unwrap()
}

fn put(containers: &mut [Option<Container>; 64], pid: Pid, container: Option<Container>)
    ensures { containers.new ≡ slice_set containers.old pid container }
{
    containers[pid.number() as usize] = container;
}

fn set_used(containers: &mut [Option<Container>; 64], pid: Pid, used: u32)
    ensures { (container : _) → slice_index_or containers.old pid None ≡ Some container
        → containers.new ≡ slice_set containers.old pid (Some (charged_with container used)) }
{
    if let Some(container) = &mut containers[pid.number() as usize] {
        container.used = used;
    }
}

fn first_absent(containers: &[Option<Container>; 64]) -> Option<usize>
    ensures { result ≡ position (λ container. not (is_some container)) containers.now }
{
    containers.iter().position(|container| container.is_none())
}

/// Gives a part of a parent's room to a new child, which has the least number that isn't live, and uses that many
/// frames of it. The container is the parent's.
fn add_child(
    containers: &mut [Option<Container>; 64],
    parent: Pid,
    giver: Container,
    quota: u32,
    child: Pid,
    used: u32,
)
    requires child { position (λ container. not (is_some container)) containers.old ≡ Some child }
    requires given { giver.given + quota < 2 ^ 32 }
    requires children { giver.children + 1 < 2 ^ 32 }
    ensures { containers.new ≡ slice_set (slice_set containers.old parent (Some (giver_after_split giver quota))) child
        (Some (charged_with (opened_container parent quota) used)) }
{
    put(containers, parent, Some(with_child(giver, quota)));
    put(containers, child, Some(opened(parent, quota, used)));
}

impl Quotas {
    /// The least number that isn't live.
    fn next_number(&self) -> Option<Pid>
        ensures { result ≡ next_number self.now.book }
    {
        let place = first_absent(&self.containers)?;
        Pid::new(place as u8)
    }

    /// How many frames a process may still use or give. The container is the process's.
    fn left_of(&self, container: &Container, pid: Pid) -> u32
        requires { container_of self.now pid ≡ Some container.now }
        ensures { result ≡ room_of self.now pid }
    {
        let _ = &self.containers;
        left_of(*container)
    }

    /// Process 0 alone, with that quota, of which it uses one frame. The quota is at least 1.
    pub fn new(root: u32) -> Quotas
        requires { 1 ≤ root }
        ensures { result ≡ opening root }
    {
        let mut containers = [None; 64];
        containers[0] = Some(opened(Pid::new(0).unwrap(), root, 1));
        Quotas { containers }
    }

    /// The number that a new child of a live process would have, if it can have one of that quota.
    ///
    /// BadQuota where the quota is 0, else TableFull where all 64 numbers are taken, else NoRoom where
    /// the quota is more than the parent's room.
    pub fn can_split(&self, parent: Pid, quota: u32) -> Result<Pid, QuotaFault>
        requires { IsLive self.now parent }
        ensures { result ≡ split_answer self.now parent quota }
    {
        self.split_test(&self.get(parent).unwrap(), parent, quota)
    }

    /// Returns what `can_split` returns, from the parent's container.
    pub fn split_test(
        &self,
        container: &Container,
        parent: Pid,
        quota: u32,
    ) -> Result<Pid, QuotaFault>
        requires container { container_of self.now parent ≡ Some container.now }
        ensures { result ≡ split_answer self.now parent quota }
    {
        if quota == 0 {
            return Err(QuotaFault::BadQuota);
        }
        let Some(child) = self.next_number() else {
            return Err(QuotaFault::TableFull);
        };
        if quota > self.left_of(container, parent) {
            return Err(QuotaFault::NoRoom);
        }
        Ok(child)
    }

    /// Gives a part of a live process's room to a new child, which uses one frame of it. The child has
    /// the least number that isn't live.
    pub fn split(&mut self, parent: Pid, quota: u32) -> Pid
        requires live { IsLive self.old parent }
        requires can { IsOk (split_answer self.old parent quota) }
        ensures child { split_answer self.old parent quota ≡ Ok result }
        ensures containers { self.new ≡ after_split self.old parent quota result }
    {
        let child = self.can_split(parent, quota).unwrap();
        self.split_as(parent, quota, child);
        child
    }

    /// Does what `split` does, with the number that `split_test` returned.
    pub fn split_as(&mut self, parent: Pid, quota: u32, child: Pid)
        requires live { IsLive self.old parent }
        requires can { split_answer self.old parent quota ≡ Ok child }
        ensures { self.new ≡ after_split self.old parent quota child }
    {
        let giver = live(&self.containers, parent);
        add_child(&mut self.containers, parent, giver, quota, child, 1);
    }

    /// Does what `split_as` does, but charges the child what its parent uses, which is at most `quota`.
    pub fn fork_as(&mut self, parent: Pid, quota: u32, child: Pid)
        requires live { IsLive self.old parent }
        requires can { split_answer self.old parent quota ≡ Ok child }
        requires large { used_of self.old parent ≤ quota }
        ensures { self.new ≡ with_used (after_split self.old parent quota child) child (used_of self.old parent) }
    {
        let giver = live(&self.containers, parent);
        let used = giver.used;
        add_child(&mut self.containers, parent, giver, quota, child, used);
    }

    /// Charges a live process for that many frames more, at most its room.
    pub fn charge(&mut self, pid: Pid, frames: u32)
        requires live { IsLive self.old pid }
        requires room { frames ≤ room_of self.old pid }
        ensures { self.new ≡ with_used self.old pid (used_of self.old pid + frames) }
    {
        let used = live(&self.containers, pid).used + frames;
        set_used(&mut self.containers, pid, used);
    }

    /// Charges a live process for that many frames less, fewer than it uses.
    pub fn refund(&mut self, pid: Pid, frames: u32)
        requires live { IsLive self.old pid }
        requires used { frames < used_of self.old pid }
        ensures { self.new ≡ with_used self.old pid (used_of self.old pid - frames) }
    {
        let used = live(&self.containers, pid).used - frames;
        set_used(&mut self.containers, pid, used);
    }

    /// Takes out a live process, which isn't process 0 and has no children. Its quota returns to its
    /// parent.
    pub fn close(&mut self, pid: Pid)
        requires live { IsLive self.old pid }
        requires not_root { pid ≢ 0 }
        requires childless { number_of_children self.old.book pid ≡ 0 }
        ensures { self.new ≡ after_close self.old pid }
    {
        let closed = live(&self.containers, pid);
        let giver = live(&self.containers, closed.parent);
        let giver = without_child(giver, closed.quota);
        put(&mut self.containers, closed.parent, Some(giver));
        put(&mut self.containers, pid, None);
    }

    /// How many frames a live process may still use or give.
    pub fn room(&self, pid: Pid) -> u32
        requires { IsLive self.now pid }
        ensures { result ≡ room_of self.now pid }
    {
        self.left_of(&self.get(pid).unwrap(), pid)
    }

    /// The container of a process; None where it isn't live.
    pub fn get(&self, pid: Pid) -> Option<Container>
        ensures container { result ≡ container_of self.now pid }
        ensures live { IsSome result ↔ IsLive self.now pid }
        ensures used { IfSome result (λ container. container.used ≡ used_of self.now pid) }
        ensures children { IfSome result (λ container. container.children ≡ number_of_children self.now.book pid) }
    {
        container_at(&self.containers, pid)
    }

    /// Process 0 is live. Each live process has a number below 64 and a live parent, uses at least one
    /// frame, and uses and gives no more than its quota. All together use at most the quota of process
    /// 0.
    pub fn within(&self)
        ensures root { IsLive self.now 0 }
        ensures numbers { (p : ℕ) → IsLive self.now p → p < 64 }
        ensures parents { (p : ℕ) (member : Member) → map.get self.now.book p ≡ Some member
            → IsLive self.now member.parent }
        ensures used { (p : ℕ) → IsLive self.now p → 1 ≤ used_of self.now p }
        ensures quota { (p : ℕ) → IsLive self.now p → used_of self.now p + given self.now.book p
            ≤ quota_of self.now.book p }
        ensures total { total_used self.now ≤ quota_of self.now.book 0 }
    {
        let _ = &self.containers;
    }
}
