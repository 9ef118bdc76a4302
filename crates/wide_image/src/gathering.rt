//! The pending offers of a core, in the order in which a snapshot has them.

ghost use Rattle.std.specs.Prelude.{◌≡◌, ◌+◌, ◌<◌, ◌≤◌, true, IfOk};
ghost use Rattle.wide_image.specs.Offers.{AreListed};
ghost use Rattle.wide_image.specs.Wide.{AreOffers};
ghost use Rattle.wide_image.specs.Gathered.{ListedBelow, AreValid, place_of};

use crate::offers::PendingOffer;
use kernel_calls::Core;
use memory_image::NoMemory;
use page_sharing::Offer;
use page_words::{Page, Pid};
use std::alloc::Global;

/// The process of a number below 64.
fn pid_of(number: u8) -> Pid
    requires { number < 64 }
    ensures { result ≡ number }
{
    Pid::new(number).unwrap()
}

/// Each pending offer's numbers are within their limits. It computes nothing.
fn are_valid(core: &Core)
    ensures { AreValid core.now.state.offers }
{
    core.stands();
}

/// An offer of a process.
fn pending_by(offerer: Pid, offer: Offer) -> PendingOffer
    ensures { result ≡ record {
      offerer = offerer;
      page = offer.page;
      target = offer.target;
      write = offer.write;
    } }
{
    PendingOffer {
        offerer,
        page: offer.page,
        target: offer.target,
        write: offer.write,
    }
}

/// The number of an offer's page.
fn page_in(offer: &PendingOffer) -> u32
    ensures { result ≡ offer.now.page }
{
    offer.page.0
}

/// The number after that of an offer's target.
fn target_after(offer: &PendingOffer) -> u32
    ensures is { result ≡ offer.now.target + 1 }
    ensures most { result ≤ 64 }
{
    u32::from(offer.target.number()) + 1
}

/// Adds the pending offers of a process to those of processes before it. Whether there was memory.
fn gather(core: &Core, pid: Pid, offers: &mut Vec<PendingOffer>) -> bool
    requires { ListedBelow core.now.state.offers (place_of pid 0) offers.old.items }
    ensures { result ≡ true → ListedBelow core.now.state.offers (place_of (pid + 1) 0) offers.new.items }
{
    are_valid(core);
    let mut page = 0;
    let mut target = 0;
    'next: loop {
        let found = match core.next_offer(pid, Page(page), target) {
            Some(found) => found,
            None => return true,
        };
        let offer = pending_by(pid, found);
        let Ok(()) = offers.push(offer) else {
            return false;
        };
        page = page_in(&offer);
        target = target_after(&offer);
    }
}

/// The pending offers of a core, by offerer, then by page, then by target.
///
/// NoMemory if there is no memory for the list.
pub fn offers_of(alloc: Global, core: &Core) -> Result<Vec<PendingOffer>, NoMemory>
    ensures listed { IfOk result (λ offers. AreListed core.now.state.offers offers.items) }
    ensures fields { IfOk result (λ offers. AreOffers offers.items) }
{
    are_valid(core);
    let mut offers = Vec::new(alloc);
    for number in 0..64 {
        let gathered = gather(core, pid_of(number), &mut offers);
        if !gathered {
            return Err(NoMemory);
        }
    }
    Ok(offers)
}
