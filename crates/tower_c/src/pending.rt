//! A process's pending offers, one after another.

ghost use Rattle.std.specs.Prelude.{◌≡◌, IfSome, IfNone, true, false};
ghost use Rattle.tower_c.specs.Border.{pid_of};
ghost use Rattle.tower_c.specs.Pending.{offer_numbers, IsNextOfferIn, HasNoOffer};
ghost use Rattle.c_handle.specs.Handle.{IsTower};

use crate::numbers::pid_from;
use c_handle::{Tower, put, take};
use kernel_calls::{Core, Offer};
use page_words::Page;
use std::alloc::Global;

/// A pending offer.
#[repr(C)]
#[derive(Clone, Copy)]
pub struct TowerOffer {
    /// The offerer's page.
    pub page: u32,
    pub target: u32,
    /// Whether the target may write to the page.
    pub write: bool,
}

/// An offer, as numbers.
fn offer_from(offer: &Offer) -> TowerOffer
    ensures { result ≡ offer_numbers offer.now }
{
    TowerOffer {
        page: offer.page.0,
        target: u32::from(offer.target.number()),
        write: offer.write,
    }
}

/// Returns a process's first pending offer from a page and a target on. None if there is none, or the number is no
/// process.
fn next_offer(core: &Core, pid: u32, page: u32, target: u32) -> Option<TowerOffer>
    ensures found { IfSome result (λ offer. IsNextOfferIn core.now.state (pid_of pid) page target offer) }
    ensures none { IfNone result (HasNoOffer core.now.state (pid_of pid) page target) }
{
    let Some(pid) = pid_from(pid) else {
        return None;
    };
    match core.next_offer(pid, Page(page), target) {
        Some(offer) => Some(offer_from(&offer)),
        None => None,
    }
}

/// Finds a process's first pending offer from a page and a target on, in the order of pages, and of targets for one
/// page. The next one is found from the same page and the target after. `page` and `target` may be any numbers; a
/// target past 63 leads to the next page. Returns false if the handle has no core, the number is no process, or there
/// is no such offer.
#[unsafe(no_mangle)]
pub extern "C" fn tower_next_offer(
    alloc: Global,
    tower: &mut Tower,
    pid: u32,
    page: u32,
    target: u32,
    offer: &mut TowerOffer,
) -> bool
    requires { IsTower tower.old }
    ensures kept { IsTower tower.new }
    ensures same { tower.new.hold.core ≡ tower.old.hold.core }
    ensures core { tower.old.live ≡ false → result ≡ false }
    ensures found { result ≡ true → IfSome tower.old.hold.core
        (λ core. IsNextOfferIn core.state (pid_of pid) page target offer.new) }
    ensures last { result ≡ false → IfSome tower.old.hold.core
        (λ core. HasNoOffer core.state (pid_of pid) page target) }
    ensures none { result ≡ false → offer.new ≡ offer.old }
{
    match take(alloc, tower) {
        Some(core) => {
            let told = next_offer(&core, pid, page, target);
            put(tower, core);
            match told {
                Some(told) => {
                    *offer = told;
                    true
                }
                None => false,
            }
        }
        None => false,
    }
}
