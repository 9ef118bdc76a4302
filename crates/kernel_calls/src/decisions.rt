//! What is decided of an event: its plan, its reply and the charge of its process afterwards.

ghost use Rattle.std.specs.Prelude.{◌≡◌, true, Some};
ghost use Rattle.kernel_calls.specs.Below.{cost, is_live, container_of, loaded, plan_at, goes_on, access_places};
ghost use Rattle.kernel_calls.specs.Decisions.{judged_of, refusal_of, reply_of, reply_to, tested, spawned, planned, quota_told};
ghost use Rattle.table_walk.specs.declared.Access.TheVariants as access;
ghost use Rattle.kernel_calls.specs.declared.calls.Call.TheVariants as call;
ghost use Rattle.kernel_calls.specs.declared.calls.Reply.TheVariants as reply;

use crate::calls::{Call, Decision, Event, Reply};
use address_space::Cell;
use fault_handler::{PageStep, Plan, plan_by};
use page_words::{Page, Pid, Size, Vaddr};
use process_table::{Cause, Places, Processes};
use quota_tree::Container;
use table_walk::{Access, PageFault};

/// What is decided of an event, without the event itself and the places of its pages.
#[derive(Clone, Copy, Debug, PartialEq, Eq)]
pub struct Judgement {
    pub plan: Plan,
    pub reply: Reply,
    /// The charge of the event's process after it, in frames; 0 where it is not live then.
    pub used_after: u32,
}

fn refusal(cause: Cause, used: u32) -> Judgement
    ensures { result ≡ refusal_of cause used }
{
    Judgement {
        plan: Plan::Refused(cause),
        reply: Reply::Refused(cause),
        used_after: used,
    }
}

/// A reply to a call that is neither refused nor a fault, with the charge afterwards.
fn answered(reply: Reply, used_after: u32) -> Judgement
    ensures { result ≡ reply_of reply used_after }
{
    Judgement {
        plan: Plan::Ready {
            first: PageStep::Complete,
            second: None,
        },
        reply,
        used_after,
    }
}

/// The reply to a process whose access faults.
pub(crate) fn fault_told(fault: &PageFault) -> Reply
    ensures { result ≡ reply.Fault fault.now.addr fault.now.code }
{
    Reply::Fault {
        addr: fault.addr,
        code: fault.code,
    }
}

/// The reply to an access that completes with this value.
pub(crate) fn value_told(access: Access, value: u32) -> Reply
    ensures { result ≡ reply_to access value }
{
    match access {
        Access::Read => Reply::Value(value),
        Access::Write => Reply::Done,
    }
}

/// Done with the charge that a call's test gives, or refused.
fn done_or_refused(test: Result<u32, Cause>, used: u32) -> Judgement
    ensures { result ≡ tested test used }
{
    match test {
        Ok(charge) => answered(Reply::Done, charge),
        Err(cause) => refusal(cause, used),
    }
}

/// The child that the test of a spawn or a fork gives, or a refusal.
fn child_or_refused(test: Result<Pid, Cause>, used: u32) -> Judgement
    ensures { result ≡ spawned test used }
{
    match test {
        Ok(child) => answered(Reply::Child(child), used),
        Err(cause) => refusal(cause, used),
    }
}

/// A judgement of these parts.
fn made(plan: &Plan, reply: &Reply, used_after: u32) -> Judgement
    ensures { result ≡ record { plan = plan.now; reply = reply.now; used_after = used_after } }
{
    Judgement {
        plan: *plan,
        reply: *reply,
        used_after,
    }
}

/// An access as it was planned: a refusal, a fault, or this reply.
fn by_plan(plan: &Plan, reply: &Reply, charge: u32) -> Judgement
    ensures { result ≡ planned plan.now reply.now charge }
{
    match plan {
        Plan::Refused(cause) => refusal(*cause, charge),
        Plan::Fault(fault) => made(plan, &fault_told(fault), charge),
        Plan::Ready { .. } => made(plan, reply, charge),
    }
}

/// The value of a load of a live process whose plan is Ready.
fn value_by(
    processes: &Processes,
    plan: &Plan,
    pid: Pid,
    address: Vaddr,
    size: Size,
    places: &Places,
) -> u32
    requires plan { plan.now ≡ plan_at processes.now pid address size access.Read }
    requires places { places.now ≡ access_places processes.now pid address size }
    ensures { goes_on plan.now ≡ true → result ≡ loaded processes.now.state pid address size }
{
    match plan {
        Plan::Ready { .. } => {
            let place = places.first.unwrap();
            let spaces = processes.spaces();
            spaces.peek_at(pid, address, size, &place, &places.second)
        }
        Plan::Refused(_) => 0,
        Plan::Fault(_) => 0,
    }
}

#[inline(always)]
fn decide_load(
    processes: &Processes,
    event: &Event,
    container: &Container,
    address: Vaddr,
    size: Size,
) -> Judgement
    requires live { is_live processes.now.state event.now.pid ≡ true }
    requires container { container_of processes.now.state event.now.pid ≡ Some container.now }
    requires load { event.now.call ≡ call.Load address size }
    ensures { result ≡ judged_of processes.now event.now }
{
    let pid = event.pid;
    let places = processes.access_places(pid, address, size);
    let planned = plan_by(
        processes,
        pid,
        address,
        size,
        Access::Read,
        container,
        &places,
    );
    let value = value_by(processes, &planned.plan, pid, address, size, &places);
    by_plan(&planned.plan, &Reply::Value(value), planned.charge)
}

#[inline(always)]
fn decide_store(
    processes: &Processes,
    event: &Event,
    container: &Container,
    address: Vaddr,
    size: Size,
    value: u32,
) -> Judgement
    requires live { is_live processes.now.state event.now.pid ≡ true }
    requires container { container_of processes.now.state event.now.pid ≡ Some container.now }
    requires store { event.now.call ≡ call.Store address size value }
    ensures { result ≡ judged_of processes.now event.now }
{
    let places = processes.access_places(event.pid, address, size);
    let planned = plan_by(
        processes,
        event.pid,
        address,
        size,
        Access::Write,
        container,
        &places,
    );
    by_plan(&planned.plan, &Reply::Done, planned.charge)
}

/// The reply to a process that asks about a page with this cell.
pub(crate) fn info_told(cell: &Cell) -> Reply
    ensures { result ≡ reply.Info cell.now.write cell.now.may cell.now.accessed cell.now.dirty cell.now.holders }
{
    Reply::Info {
        write: cell.write,
        may: cell.may,
        accessed: cell.accessed,
        dirty: cell.dirty,
        holders: cell.holders,
    }
}

#[inline(always)]
fn decide_info(processes: &Processes, event: &Event, page: Page, used: u32) -> Judgement
    requires live { is_live processes.now.state event.now.pid ≡ true }
    requires info { event.now.call ≡ call.Info page }
    requires used { used ≡ cost processes.now.state.spaces event.now.pid }
    ensures { result ≡ judged_of processes.now event.now }
{
    let Some(place) = processes.place(event.pid, page) else {
        return refusal(Cause::BadPage, used);
    };
    match processes.spaces().cell_at(event.pid, page, &place) {
        Some(cell) => answered(info_told(&cell), used),
        None => refusal(Cause::NotMapped, used),
    }
}

/// The reply to a Quota call.
pub(crate) fn quota_told(container: &Container) -> Reply
    ensures { result ≡ quota_told container.now }
{
    Reply::Quota {
        quota: container.quota,
        used: container.used,
        given: container.given,
    }
}

/// What is decided of an event of a live process, which has this container.
#[tactic(auto, using(crate::proofs::Charges::map_charge, crate::proofs::Charges::spawn_lives, crate::proofs::Charges::exit_gone))]
#[inline(always)]
fn decide_live(processes: &Processes, event: &Event, container: &Container) -> Judgement
    requires live { is_live processes.now.state event.now.pid ≡ true }
    requires container { container_of processes.now.state event.now.pid ≡ Some container.now }
    ensures { result ≡ judged_of processes.now event.now }
{
    let pid = event.pid;
    let used = container.used;
    match event.call {
        Call::Load { addr, size } => decide_load(processes, event, container, addr, size),
        Call::Store { addr, size, value } => {
            decide_store(processes, event, container, addr, size, value)
        }
        Call::Map { page, .. } => done_or_refused(processes.can_map(pid, page), used),
        Call::Unmap { page } => done_or_refused(processes.can_unmap(pid, page), used),
        Call::Protect { page, write } => {
            done_or_refused(processes.can_protect(pid, page, write), used)
        }
        Call::Info { page } => decide_info(processes, event, page, used),
        Call::Offer {
            page,
            target,
            write,
        } => done_or_refused(processes.can_offer(pid, page, target, write), used),
        Call::Withdraw { page, target } => {
            done_or_refused(processes.can_withdraw(pid, page, target), used)
        }
        Call::Accept {
            giver,
            giver_page,
            page,
        } => done_or_refused(processes.can_accept(pid, giver, giver_page, page), used),
        Call::Spawn { quota } => child_or_refused(processes.can_spawn(pid, quota), used),
        Call::Fork { quota } => child_or_refused(processes.can_fork(pid, quota), used),
        Call::Exit => done_or_refused(processes.can_exit(pid), used),
        Call::Quota => answered(quota_told(container), used),
    }
}

/// What is decided of an event, without the event.
#[inline(always)]
pub(crate) fn judge(processes: &Processes, event: &Event) -> Judgement
    ensures { result ≡ judged_of processes.now event.now }
{
    match processes.container(event.pid) {
        Some(container) => decide_live(processes, event, &container),
        None => refusal(Cause::NoProcess, 0),
    }
}
