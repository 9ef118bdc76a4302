//! The reply to an event, which is carried out: each call is tested and made by one function.

ghost use Rattle.std.specs.Prelude.{◌≡◌, false, true};
ghost use Rattle.kernel_calls.specs.Below.{LooseStay, memory_of};
ghost use Rattle.kernel_calls.specs.Decisions.{call_of, done_told, child_told};
ghost use Rattle.kernel_calls.specs.Lazy.{LeavesLazy};
ghost use Rattle.kernel_calls.specs.Gone.{gives_back};
ghost use Rattle.kernel_calls.specs.Machine.{answer};
ghost use Rattle.kernel_calls.specs.Replied.{IsReplied};
ghost use Rattle.kernel_calls.specs.declared.calls.Event.{Event};
ghost use Rattle.kernel_calls.specs.declared.calls.Call.TheVariants as call;

use crate::calls::{Call, Event, Reply};
use crate::decisions::{fault_told, info_told, quota_told, value_told};
use fault_handler::Stop;
use page_words::{Page, Pid, Size, Vaddr};
use process_table::{Cause, Processes};
use table_walk::Access;

/// The reply to a call that is done, or refused.
#[inline(always)]
fn done_told<T: Drop>(done: Result<T, Cause>) -> Reply
    ensures { result ≡ done_told done }
{
    match done {
        Ok(_) => Reply::Done,
        Err(cause) => Reply::Refused(cause),
    }
}

/// The reply to a call that makes a child, or is refused.
#[inline(always)]
fn child_told(made: Result<Pid, Cause>) -> Reply
    ensures { result ≡ child_told made }
{
    match made {
        Ok(child) => Reply::Child(child),
        Err(cause) => Reply::Refused(cause),
    }
}

/// The reply to an access, by its plan.
#[inline(always)]
fn reply_access(
    processes: &mut Processes,
    event: &Event,
    address: Vaddr,
    size: Size,
    access: Access,
    value: u32,
) -> Reply
    requires { event.now.call ≡ call_of access address size value }
    ensures { IsReplied processes.old event.now result processes.new }
{
    match fault_handler::access(processes, event.pid, address, size, access, value) {
        Ok(value) => value_told(access, value),
        Err(Stop::Refused(cause)) => Reply::Refused(cause),
        Err(Stop::Fault(fault)) => fault_told(&fault),
    }
}

/// The reply to a load: immediate if it completes as memory is, in one page, and otherwise by its plan.
#[inline(always)]
fn reply_load(processes: &mut Processes, event: &Event, address: Vaddr, size: Size) -> Reply
    requires { event.now.call ≡ call.Load address size }
    ensures { IsReplied processes.old event.now result processes.new }
{
    let read = Access::Read;
    match fault_handler::try_access(processes, event.pid, address, size, read, 0) {
        Some(value) => Reply::Value(value),
        None => reply_access(processes, event, address, size, read, 0),
    }
}

/// The reply to a store: immediate if it completes as memory is, in one page, and otherwise by its plan.
#[inline(always)]
fn reply_store(
    processes: &mut Processes,
    event: &Event,
    address: Vaddr,
    size: Size,
    value: u32,
) -> Reply
    requires { event.now.call ≡ call.Store address size value }
    ensures { IsReplied processes.old event.now result processes.new }
{
    let write = Access::Write;
    match fault_handler::try_access(processes, event.pid, address, size, write, value) {
        Some(_) => Reply::Done,
        None => reply_access(processes, event, address, size, write, value),
    }
}

/// The reply to a process that asks about a page.
#[inline(never)]
fn info_of(processes: &Processes, pid: Pid, page: Page) -> Reply
    ensures { (event : Event) → event.pid ≡ pid → event.call ≡ call.Info page
        → result ≡ answer processes.now.state event }
{
    let Some(place) = processes.place(pid, page) else {
        return Reply::Refused(processes.first_cause(pid, Cause::BadPage));
    };
    processes.tells(pid, page, &place);
    match processes.spaces().cell_at(pid, page, &place) {
        Some(cell) => info_told(&cell),
        None => Reply::Refused(processes.first_cause(pid, Cause::NotMapped)),
    }
}

/// The reply to an event, which is carried out.
#[inline(always)]
pub(crate) fn reply_once(processes: &mut Processes, event: &Event) -> Reply
    ensures made { IsReplied processes.old event.now result processes.new }
    ensures loose { gives_back event.now.call ≡ true → LooseStay (memory_of processes.old) (memory_of processes.new) }
    ensures lazy { LeavesLazy processes.old event.now result processes.new }
{
    let pid = event.pid;
    match event.call {
        Call::Load { addr, size } => reply_load(processes, event, addr, size),
        Call::Store { addr, size, value } => reply_store(processes, event, addr, size, value),
        Call::Map { page, write } => done_told(processes.try_map(pid, page, write)),
        Call::Unmap { page } => done_told(processes.try_unmap(pid, page)),
        Call::Protect { page, write } => done_told(processes.try_protect(pid, page, write)),
        Call::Info { page } => info_of(processes, pid, page),
        Call::Offer {
            page,
            target,
            write,
        } => done_told(processes.try_offer(pid, page, target, write)),
        Call::Withdraw { page, target } => done_told(processes.try_withdraw(pid, page, target)),
        Call::Accept {
            giver,
            giver_page,
            page,
        } => done_told(processes.try_accept(pid, giver, giver_page, page)),
        Call::Spawn { quota } => child_told(processes.try_spawn(pid, quota)),
        Call::Fork { quota } => child_told(processes.try_fork(pid, quota)),
        Call::Exit => done_told(processes.try_exit(pid)),
        Call::Quota => match processes.container(pid) {
            Some(container) => quota_told(&container),
            None => Reply::Refused(Cause::NoProcess),
        },
    }
}
