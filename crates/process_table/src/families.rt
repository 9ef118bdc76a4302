//! Children, copies and exits: of each call its test and its change.

ghost use Rattle.std.specs.Prelude.{Err, IfErr, IfOk, IsErr, IsOk, Ok, Some, true, ℕ, ◌≡◌};
ghost use Rattle.process_table.specs.Below.{FramesStay, LooseStay, at_page, cost, is_lazy_at, none_goes, of_process};
ghost use Rattle.process_table.specs.Words.{after_exit, after_fork, after_spawn, container_of, done_unless, exit_answer, exit_refusal, first_cause, for_copy, fork_answer, is_live, memory_of, spawn_answer, translated};

use crate::causes::Cause;
use crate::charges::charge_of;
use crate::processes::Processes;
use page_words::Pid;
use quota_tree::{Container, QuotaFault};

/// The number of a process's next child, or the cause against it.
fn child_number(test: Result<Pid, QuotaFault>) -> Result<Pid, Cause>
    ensures { result ≡ translated test }
{
    match test {
        Ok(child) => Ok(child),
        Err(QuotaFault::BadQuota) => Err(Cause::BadQuota),
        Err(QuotaFault::TableFull) => Err(Cause::TableFull),
        Err(QuotaFault::NoRoom) => Err(Cause::Quota),
    }
}

/// The child's number, where the quota is no less than a copy of its parent costs.
fn copy_number(test: Result<Pid, Cause>, too_small: bool) -> Result<Pid, Cause>
    ensures { result ≡ for_copy too_small test }
{
    match test {
        Ok(_) | Err(Cause::Quota) if too_small => Err(Cause::TooSmall),
        _ => test,
    }
}

impl Processes {
    /// The number that a process's child of that quota would have, or the first cause against it:
    /// NoProcess, BadQuota, TableFull, Quota.
    pub fn can_spawn(&self, pid: Pid, quota: u32) -> Result<Pid, Cause>
        ensures { result ≡ spawn_answer self.now.state pid quota }
    {
        match self.container(pid) {
            Some(container) => self.child_test(&container, pid, quota),
            None => Err(Cause::NoProcess),
        }
    }

    /// The number that a live process's child of that quota would have, or the first cause against it: BadQuota,
    /// TableFull, Quota. The container is the process's.
    fn child_test(&self, container: &Container, pid: Pid, quota: u32) -> Result<Pid, Cause>
        requires container { container_of self.now.state pid ≡ Some container.now }
        requires live { is_live self.now.state pid ≡ true }
        ensures { result ≡ spawn_answer self.now.state pid quota }
    {
        child_number(self.quotas.split_test(container, pid, quota))
    }

    /// Makes a child of a process, where nothing is against it, with that quota and an empty space: its number; else the
    /// first cause against it, as `can_spawn` gives it, and nothing changes.
    #[inline(never)]
    pub fn try_spawn(&mut self, pid: Pid, quota: u32) -> Result<Pid, Cause>
        ensures result { result ≡ spawn_answer self.old.state pid quota }
        ensures state { IsOk result → self.new.state ≡ after_spawn self.old.state pid quota }
        ensures stay { FramesStay none_goes (memory_of self.old) (memory_of self.new) }
        ensures kept { IsErr result → self.new ≡ self.old }
    {
        let number = self.can_spawn(pid, quota)?;
        self.spaces.stands();
        self.quotas.within();
        self.quotas.split_as(pid, quota, number);
        self.quotas.within();
        self.spaces.fresh(number);
        Ok(number)
    }

    /// Returns what `can_fork` does, and with the number what the process is charged for.
    #[inline(always)]
    fn copy_test(&self, pid: Pid, quota: u32) -> Result<(Pid, u32), Cause>
        ensures copy { IfOk result (λ found. fork_answer self.now.state pid quota ≡ Ok found.0) }
        ensures used { IfOk result (λ found. found.1 ≡ cost self.now.state.spaces pid) }
        ensures cause { IfErr result (λ cause. fork_answer self.now.state pid quota ≡ Err cause) }
    {
        let container = self.container(pid).ok_or(Cause::NoProcess)?;
        let used = container.used;
        let copy = copy_number(self.child_test(&container, pid, quota), quota < used)?;
        Ok((copy, used))
    }

    /// The number that a process's copy with that quota would have, or the first cause against it: NoProcess,
    /// BadQuota, TableFull, TooSmall (the quota is less than the process costs), Quota.
    pub fn can_fork(&self, pid: Pid, quota: u32) -> Result<Pid, Cause>
        ensures { result ≡ fork_answer self.now.state pid quota }
    {
        Ok(self.copy_test(pid, quota)?.0)
    }

    /// Makes a child with that quota and a copy of each of the process's pages, where nothing is against it: its number.
    /// Otherwise it returns the first cause against it, as `can_fork` gives it, and nothing changes. The copy of a page
    /// is lazy exactly if the page is.
    #[inline(never)]
    pub fn try_fork(&mut self, pid: Pid, quota: u32) -> Result<Pid, Cause>
        ensures result { result ≡ fork_answer self.old.state pid quota }
        ensures state { IsOk result → self.new.state ≡ after_fork self.old.state pid quota }
        ensures stay { FramesStay none_goes (memory_of self.old) (memory_of self.new) }
        ensures lazy { (copy page : ℕ) → result ≡ Ok copy
            → is_lazy_at (memory_of self.new) (at_page copy page) ≡ is_lazy_at (memory_of self.old) (at_page pid page) }
        ensures kept { IsErr result → self.new ≡ self.old }
    {
        let (copy, used) = self.copy_test(pid, quota)?;
        self.spaces.stands();
        self.quotas.within();
        self.quotas.fork_as(pid, quota, copy);
        self.quotas.within();
        self.spaces.fresh(copy);
        self.spaces.copy_charged_space(pid, copy, used);
        Ok(copy)
    }

    /// That a process that exits is charged nothing then, or the first cause against it: NoProcess,
    /// RootExit, HasChildren.
    pub fn can_exit(&self, pid: Pid) -> Result<u32, Cause>
        ensures { result ≡ exit_answer self.now.state pid }
    {
        let container = self.container(pid).ok_or(Cause::NoProcess)?;
        if pid.number() == 0 {
            Err(Cause::RootExit)
        } else if container.children > 0 {
            Err(Cause::HasChildren)
        } else {
            Ok(0)
        }
    }

    /// Takes away a process, where nothing is against it: its space, its offers and the offers to it go, and its quota
    /// returns to its parent. Otherwise it returns the first cause against it, as `can_exit` gives it, and nothing
    /// changes.
    #[inline(never)]
    pub fn try_exit(&mut self, pid: Pid) -> Result<(), Cause>
        ensures result { result ≡ done_unless (first_cause self.old.state pid (exit_refusal self.old.state pid)) }
        ensures state { IsOk result → self.new.state ≡ after_exit self.old.state pid }
        ensures stay { FramesStay (of_process pid) (memory_of self.old) (memory_of self.new) }
        ensures loose { LooseStay (memory_of self.old) (memory_of self.new) }
        ensures kept { IsErr result → self.new ≡ self.old }
    {
        self.can_exit(pid)?;
        let used = charge_of(self, pid);
        self.spaces.drop_charged_space(pid, used);
        self.quotas.close(pid);
        self.offers.drop_process(pid);
        Ok(())
    }
}
