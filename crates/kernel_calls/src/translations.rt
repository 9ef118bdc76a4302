//! Which cached translations an event ends.

ghost use Rattle.std.specs.Prelude.{◌≡◌, if◌then◌else◌, option_and_then};
ghost use Rattle.kernel_calls.specs.Below.{second_page, at_page, takes_stores, memory_of, IsWellFormed};
ghost use Rattle.kernel_calls.specs.Machine.{completes};
ghost use Rattle.kernel_calls.specs.Translations.{if_lazy, of_pages, of_call};
ghost use Rattle.kernel_calls.specs.declared.translations.Ended.TheVariants as end;

use crate::calls::{Call, Event, Reply};
use page_words::{Page, Pid, Size, Vaddr, page_of, second_page};
use process_table::Processes;

/// The cached translations that an event ends: a processor that caches them has to invalidate these.
#[derive(Clone, Copy, Debug, PartialEq, Eq)]
pub enum Ended {
    /// None.
    Nothing,
    /// That of one page of a process.
    Page { pid: Pid, page: Page },
    /// Those of two pages of a process.
    Pages { pid: Pid, first: Page, second: Page },
    /// All of a process, which is gone.
    Space { pid: Pid },
}

impl Ended {
    /// These, if the event that ends them completes, as its reply says; otherwise Nothing.
    pub fn if_completed(self, reply: &Reply) -> Ended
        ensures { result ≡ (if completes reply.now then self else end.Nothing) }
    {
        match reply {
            Reply::Refused(_) => Ended::Nothing,
            Reply::Fault { .. } => Ended::Nothing,
            _ => self,
        }
    }
}

/// A page, if it is lazy.
#[tactic(auto, using(crate::proofs::MayEnd::outside_lazy))]
fn if_lazy(processes: &Processes, pid: Pid, page: Page) -> Option<Page>
    ensures { result ≡ if_lazy (memory_of processes.now) pid page }
{
    let place = processes.place(pid, page)?;
    processes.tells(pid, page, &place);
    if place.is_lazy() { Some(page) } else { None }
}

/// The second page of an access, if it has one that is lazy.
fn if_second_lazy(processes: &Processes, pid: Pid, address: Vaddr, size: Size) -> Option<Page>
    ensures { result
        ≡ option_and_then (if_lazy (memory_of processes.now) pid) (second_page address size) }
{
    if_lazy(processes, pid, second_page(address, size)?)
}

fn pages(pid: Pid, first: Option<Page>, second: Option<Page>) -> Ended
    ensures { result ≡ of_pages pid first second }
{
    match (first, second) {
        (None, None) => Ended::Nothing,
        (Some(page), None) => Ended::Page { pid, page },
        (None, Some(page)) => Ended::Page { pid, page },
        (Some(first), Some(second)) => Ended::Pages { pid, first, second },
    }
}

/// What a Protect to read-only of a page ends: the translation of a page that lets writes through.
fn by_protect(processes: &Processes, pid: Pid, page: Page) -> Ended
    requires { IsWellFormed processes.now.state }
    ensures { result ≡ (if takes_stores processes.now.state.spaces (memory_of processes.now)
        (at_page pid page) then end.Page pid page else end.Nothing) }
{
    let Some(place) = processes.place(pid, page) else {
        return Ended::Nothing;
    };
    processes.tells(pid, page, &place);
    if place.takes_stores() {
        Ended::Page { pid, page }
    } else {
        Ended::Nothing
    }
}

/// What an event ends if it completes. It tests nothing of the call.
pub fn may_end(processes: &Processes, event: &Event) -> Ended
    requires { IsWellFormed processes.now.state }
    ensures { result ≡ of_call processes.now event.now.pid event.now.call }
{
    let pid = event.pid;
    match event.call {
        Call::Store { addr, size, .. } => {
            let first = if_lazy(processes, pid, page_of(addr));
            pages(pid, first, if_second_lazy(processes, pid, addr, size))
        }
        Call::Unmap { page } => Ended::Page { pid, page },
        Call::Protect { page, write } => {
            if write {
                return Ended::Nothing;
            }
            by_protect(processes, pid, page)
        }
        Call::Accept {
            giver,
            giver_page,
            ..
        } => pages(giver, if_lazy(processes, giver, giver_page), None),
        Call::Exit => Ended::Space { pid },
        _ => Ended::Nothing,
    }
}
