//! Offers of pages, and pages that are accepted: of each call its test and its change.

ghost use Rattle.std.specs.Prelude.{IsErr, IsOk, None, Some, [], false, if◌then◌else◌, nat_le, true, ◌∷◌, ◌≡◌};
ghost use Rattle.process_table.specs.Below.{FramesStay, IsUserPage, at_page, need, none_goes, of_lazy, offer_key, pending, place_in};
ghost use Rattle.process_table.specs.Words.{accept_answer, after_accept, after_offer, after_withdraw, done_unless, first_cause, is_live, is_mapped, memory_of, offer_answer, offer_refusal, overdrawn, place_at, withdraw_answer, withdraw_refusal};
ghost use Rattle.page_words.specs.FiniteMap as map;
ghost use Rattle.process_table.specs.declared.causes.Cause.TheVariants as cause;

use crate::causes::Cause;
use crate::charges::{charge_or, charge_with, take_room};
use crate::processes::Processes;
use address_space::Place;
use page_sharing::{OfferFault, Offers};
use page_words::{Page, Pid, in_user_range};

/// Why no further offer of that page to that process may be pending, where none may.
fn pending_check(offers: &Offers, pid: Pid, page: Page, target: Pid) -> Option<Cause>
    ensures { result ≡ (if map.contains_key offers.now (offer_key pid page target) then Some cause.OfferPending
        else if nat_le 32 (map.len (pending offers.now pid)) then Some cause.TooManyOffers else None) }
{
    match offers.can_offer(pid, page, target) {
        Ok(()) => None,
        Err(OfferFault::OfferPending) => Some(Cause::OfferPending),
        Err(OfferFault::TooManyOffers) => Some(Cause::TooManyOffers),
        Err(OfferFault::NoOffer) => unreachable!(),
    }
}

impl Processes {
    /// Returns the charge of a process once it has offered a page, or the first cause against it: NoProcess, BadPage,
    /// NotMapped, SelfOffer, NoTarget, Rights, OfferPending, TooManyOffers. Rights comes if the offer has the right to
    /// write, and the process may not have it.
    #[inline(never)]
    pub fn can_offer(&self, pid: Pid, page: Page, target: Pid, write: bool) -> Result<u32, Cause>
        ensures { result ≡ offer_answer self.now.state pid page target write }
    {
        let container = self.container(pid).ok_or(Cause::NoProcess)?;
        let place = self.place(pid, page);
        charge_or(
            container.used,
            self.offer_check(pid, page, target, write, &place),
        )
    }

    /// Why a live process may not offer a page, where it may not. The place is the page's.
    fn offer_check(
        &self,
        pid: Pid,
        page: Page,
        target: Pid,
        write: bool,
        place: &Option<Place>,
    ) -> Option<Cause>
        requires place { place.now ≡ place_at self.now pid page }
        ensures { result ≡ offer_refusal self.now.state pid page target write }
    {
        let Some(place) = place else {
            return Some(Cause::BadPage);
        };
        self.tells(pid, page, place);
        let Some(found) = place.found() else {
            return Some(Cause::NotMapped);
        };
        if target == pid {
            Some(Cause::SelfOffer)
        } else if !self.live(target) {
            Some(Cause::NoTarget)
        } else if write && !found.entry.may {
            Some(Cause::Rights)
        } else {
            pending_check(self.offers(), pid, page, target)
        }
    }

    /// Makes an offer, where nothing is against it, with the right to write or without it; else the first cause against
    /// it, as `can_offer` gives it, and nothing changes. The page is looked up once.
    #[inline(never)]
    pub fn try_offer(&mut self, pid: Pid, page: Page, target: Pid, write: bool) -> Result<(), Cause>
        ensures result { result ≡ done_unless (first_cause self.old.state pid
            (offer_refusal self.old.state pid page target write)) }
        ensures state { IsOk result → self.new.state ≡ after_offer self.old.state pid page target write }
        ensures stay { FramesStay none_goes (memory_of self.old) (memory_of self.new) }
        ensures kept { IsErr result → self.new ≡ self.old }
    {
        if !self.live(pid) {
            return Err(Cause::NoProcess);
        }
        let place = self.place(pid, page);
        match self.offer_check(pid, page, target, write, &place) {
            None => {
                self.offers.offer(pid, page, target, write);
                Ok(())
            }
            Some(cause) => Err(cause),
        }
    }

    /// What a process would be charged for once it has withdrawn an offer, or the first cause against
    /// it: NoProcess, BadPage, NoOffer.
    pub fn can_withdraw(&self, pid: Pid, page: Page, target: Pid) -> Result<u32, Cause>
        ensures { result ≡ withdraw_answer self.now.state pid page target }
    {
        match self.container(pid) {
            Some(container) => charge_or(container.used, self.withdraw_check(pid, page, target)),
            None => Err(Cause::NoProcess),
        }
    }

    /// Why a live process may not withdraw an offer, where it may not.
    fn withdraw_check(&self, pid: Pid, page: Page, target: Pid) -> Option<Cause>
        ensures { result ≡ withdraw_refusal self.now.state pid page target }
    {
        if !in_user_range(page) {
            Some(Cause::BadPage)
        } else if self.offers().get(pid, page, target).is_none() {
            Some(Cause::NoOffer)
        } else {
            None
        }
    }

    /// Takes back an offer, where nothing is against it; else the first cause against it, as `can_withdraw` gives it,
    /// and nothing changes. The offer is looked up once.
    #[inline(never)]
    pub fn try_withdraw(&mut self, pid: Pid, page: Page, target: Pid) -> Result<(), Cause>
        ensures result { result ≡ done_unless (first_cause self.old.state pid
            (withdraw_refusal self.old.state pid page target)) }
        ensures state { IsOk result → self.new.state ≡ after_withdraw self.old.state pid page target }
        ensures stay { FramesStay none_goes (memory_of self.old) (memory_of self.new) }
        ensures kept { IsErr result → self.new ≡ self.old }
    {
        if !self.live(pid) {
            return Err(Cause::NoProcess);
        }
        if !in_user_range(page) {
            return Err(Cause::BadPage);
        }
        let Ok(_) = self.offers.take(pid, page, target) else {
            return Err(Cause::NoOffer);
        };
        Ok(())
    }

    /// What a process would be charged for once it has accepted an offer at a page of its own, or the
    /// first cause against it: NoProcess, BadPage (the own page), NoOffer, Mapped, Quota.
    #[tactic(auto, using(crate::proofs::Refusals::test_accept))]
    #[inline(never)]
    pub fn can_accept(
        &self,
        pid: Pid,
        giver: Pid,
        giver_page: Page,
        page: Page,
    ) -> Result<u32, Cause>
        ensures { result ≡ accept_answer self.now.state pid giver giver_page page }
    {
        let container = self.container(pid).ok_or(Cause::NoProcess)?;
        let place = self.place(pid, page).ok_or(Cause::BadPage)?;
        if self.offers().get(giver, giver_page, pid).is_none() {
            return Err(Cause::NoOffer);
        }
        Ok(charge_with(self, &container, pid, page, &place)?.1)
    }

    /// Accepts an offer, where nothing is against it: what the process is charged for then, or the first cause against
    /// it, as `can_accept` gives it. Its page is the giver's page too from then on, with the right that was offered,
    /// and the offer goes. Each page is looked up once, and so is the offer.
    #[inline(never)]
    pub fn try_accept(
        &mut self,
        pid: Pid,
        giver: Pid,
        giver_page: Page,
        page: Page,
    ) -> Result<u32, Cause>
        ensures result { result ≡ accept_answer self.old.state pid giver giver_page page }
        ensures state { IsOk result → self.new.state ≡ after_accept self.old.state pid giver giver_page page }
        ensures stay { FramesStay (of_lazy giver giver_page) (memory_of self.old) (memory_of self.new) }
        ensures kept { IsErr result → self.new ≡ self.old }
    {
        let Some(container) = self.container(pid) else {
            return Err(Cause::NoProcess);
        };
        let Some(own) = self.place(pid, page) else {
            return Err(Cause::BadPage);
        };
        match charge_with(self, &container, pid, page, &own) {
            Ok((frames, charge)) => {
                self.accept_offered(pid, giver, giver_page, page, &own, frames)?;
                Ok(charge)
            }
            Err(cause) if self.offers().get(giver, giver_page, pid).is_some() => Err(cause),
            Err(_) => Err(Cause::NoOffer),
        }
    }

    /// Accepts an offer, where it is pending, at a page that the process may map and whose place this is. NoOffer
    /// where it isn't, and nothing changes.
    fn accept_offered(
        &mut self,
        pid: Pid,
        giver: Pid,
        giver_page: Page,
        page: Page,
        own: &Place,
        frames: u32,
    ) -> Result<(), Cause>
        requires live { is_live self.old.state pid ≡ true }
        requires user { IsUserPage page }
        requires unmapped { is_mapped self.old.state (at_page pid page) ≡ false }
        requires room { overdrawn self.old.state pid (page ∷ []) ≡ false }
        requires own { own.now ≡ place_in self.old.directories self.old.bytes pid page }
        requires need { frames ≡ need self.old.state.spaces pid page }
        ensures there { result ≡ done_unless (if map.contains_key self.old.state.offers (offer_key giver giver_page pid)
            then None else Some cause.NoOffer) }
        ensures state { IsOk result → self.new.state ≡ after_accept self.old.state pid giver giver_page page }
        ensures stay { FramesStay (of_lazy giver giver_page) (memory_of self.old) (memory_of self.new) }
        ensures none { IsErr result → self.new ≡ self.old }
    {
        let Ok(right) = self.offers.take(giver, giver_page, pid) else {
            return Err(Cause::NoOffer);
        };
        take_room(&mut self.quotas, pid, frames);
        let given = self.spaces.place(giver, giver_page);
        let given = self.spaces.fill_at(giver, giver_page, &given);
        self.spaces
            .join_at(giver, giver_page, &given, pid, page, own, right);
        Ok(())
    }
}
