//! Offers: which pages processes have offered to others, and with which right.
//!
//! A contract sees them as a finite map from the offer (offerer, page and target) to the right that goes with it. A
//! process has at most 32 offers pending, in a list of its own.
#![tactic(auto)]

ghost use Rattle.std.specs.Prelude.{◌≡◌, if◌then◌else◌, ℕ, ◌+◌, ◌<◌, ◌≤◌, ◌==◌, ◌&&◌, ◌↔◌, not, false, [], ◌∷◌, ◌++◌, IsErrOf, IfErr, IfOk, IfSome, IfNone, IsOk, OnOk, OnErr, Some, List, filter, find, position, remove, slice_get, length};
ghost use Rattle.std.specs.Option.{option_map};
ghost use Rattle.page_words.specs.FiniteMap as map;
ghost use Rattle.page_sharing.specs.Offers.{offer_key, offer_number, offer_answer, pending, without_page, without_process};
ghost use Rattle.page_sharing.specs.declared.Offer.{Offer};
ghost use Rattle.page_sharing.specs.Listed.{is_of, number_in, IsFirstFrom, offers_by, with_list, all_pending};

use arrayvec::ArrayVec;
use page_words::{Page, Pid};
use std::array;
use std::marker::Model;

/// How many offers a process can have pending.
pub const MOST_PENDING: usize = 32;

/// How many processes there can be.
const MOST_PROCESSES: usize = 64;

/// Why an offer is refused.
#[derive(Clone, Copy, Debug, PartialEq, Eq)]
pub enum OfferFault {
    /// That offer is pending already.
    OfferPending,
    /// The offerer has 32 offers pending.
    TooManyOffers,
    /// That offer isn't pending.
    NoOffer,
}

/// A pending offer of a process, which its offerer's list holds.
#[derive(Clone, Copy, Debug)]
pub struct Offer {
    pub page: Page,
    pub target: Pid,
    /// Whether the target may write to the page.
    pub write: bool,
}

impl Default for Offer {
    fn default() -> Offer {
        Offer {
            page: Page(0),
            target: Pid::new(0).unwrap(),
            write: false,
        }
    }
}

impl Offer {
    fn is_of(&self, page: Page, target: Pid) -> bool
        ensures { result ≡ is_of page target self.now }
    {
        self.page == page && self.target == target
    }
}

/// The offers of one process.
type OfferList = ArrayVec<Offer, MOST_PENDING>;

/// The list of each process, by its number.
type OfferLists = [OfferList; MOST_PROCESSES];

/// All pending offers.
#[derive(Debug, Drop)]
pub struct Offers {
    lists: OfferLists,
    /// How many offers all lists have.
    count: u32,
}

impl Model for Offers {
    ghost use Rattle.page_sharing.specs.Offers.{Offers, offers_code};

    ghost Value = { Offers };

    ghost coded = { offers_code };

    ghost use Rattle.page_sharing.specs.declared.Offer.{Offer};
    ghost use Rattle.page_sharing.specs.Listed.{offers_in, IsCounted};

    ghost view = { λ offers. offers_in offers.lists };

    ghost invariant = { λ offers. IsCounted offers.lists offers.count };
}

fn right_of(offers: &[Offer], page: Page, target: Pid) -> Option<bool>
    ensures { result ≡ option_map (λ offer. offer.write) (find (is_of page target) offers.now) }
{
    offers
        .iter()
        .find(|offer| offer.is_of(page, target))
        .map(|offer| offer.write)
}

/// The place of an offer in a list; None where it isn't there.
fn place_of(offers: &[Offer], page: Page, target: Pid) -> Option<usize>
    ensures { result ≡ position (is_of page target) offers.now }
{
    offers.iter().position(|offer| offer.is_of(page, target))
}

/// The place of an offer among those of its offerer, which come by page and then by target.
fn number_of(page: Page, target: u32) -> u64
    ensures { result ≡ offer_number page target }
{
    64 * u64::from(page.0) + u64::from(target)
}

impl Offer {
    /// Its place among the offers of its offerer.
    fn number(&self) -> u64
        ensures { result ≡ number_in self.now }
    {
        number_of(self.page, u32::from(self.target.number()))
    }
}

/// Whether an offer's place is `from` or later, and before that of the first one that was found.
fn comes_first(offer: &Offer, first: &Option<Offer>, from: u64) -> bool
    ensures { (offers : List Offer) → IsFirstFrom from offers first.now
        → IsFirstFrom from (offers ++ offer.now ∷ []) (if result then Some offer.now else first.now) }
{
    if offer.number() < from {
        return false;
    }
    match first {
        Some(found) => offer.number() < found.number(),
        None => true,
    }
}

/// The first offer of a list whose place is `from` or later.
fn first_from(offers: &[Offer], from: u64) -> Option<Offer>
    ensures { IsFirstFrom from offers.now result }
{
    let mut first = None;
    for offer in offers {
        if comes_first(offer, &first, from) {
            first = Some(*offer);
        }
    }
    first
}

/// Takes the offers of a page out of a list, and gives how many went.
fn keep_other_pages(offers: &mut OfferList, page: Page) -> u32
    ensures kept { offers.new.items ≡ filter (λ offer. not (offer.page == page)) offers.old.items }
    ensures gone { result + length offers.new.items ≡ length offers.old.items }
{
    let before = offers.len();
    offers.retain(|offer| offer.page != page);
    (before - offers.len()) as u32
}

/// Takes the offers to a process out of a list, and gives how many went.
// Out of line, so that the loop over the lists passes over an empty one in a few instructions.
#[inline(never)]
fn keep_other_targets(offers: &mut OfferList, target: Pid) -> u32
    ensures kept { offers.new.items ≡ filter (λ offer. not (offer.target == target)) offers.old.items }
    ensures gone { result + length offers.new.items ≡ length offers.old.items }
{
    let before = offers.len();
    offers.retain(|offer| offer.target != target);
    (before - offers.len()) as u32
}

/// Takes all offers out of a list, and gives how many went.
fn keep_none(offers: &mut OfferList) -> u32
    ensures kept { offers.new.items ≡ [] }
    ensures gone { result + length offers.new.items ≡ length offers.old.items }
{
    let gone = offers.len() as u32;
    offers.clear();
    gone
}

/// No process has an offer pending.
fn no_offers() -> OfferLists
    ensures offers { (p : ℕ) → offers_by result p ≡ [] }
    ensures places { length result ≡ MOST_PROCESSES }
{
    array::from_fn(|_| OfferList::new())
}

/// The offers by a process.
fn list_by(lists: &OfferLists, giver: Pid) -> &[Offer]
    ensures { result.now ≡ offers_by lists.now giver }
{
    &lists[giver.number() as usize]
}

fn add_offer(lists: &mut OfferLists, giver: Pid, offer: Offer)
    requires { length (offers_by lists.old giver) < MOST_PENDING }
    ensures listed { giver < length lists.old }
    ensures list { lists.new ≡ with_list lists.old giver (offers_by lists.old giver ++ offer ∷ []) }
    ensures came { all_pending lists.new ≡ all_pending lists.old + 1 }
{
    lists[giver.number() as usize].push(offer);
}

/// Takes out the offer at a place in the list of a process, and gives its right.
fn remove_at(lists: &mut OfferLists, giver: Pid, place: usize) -> bool
    requires { place < length (offers_by lists.old giver) }
    ensures listed { giver < length lists.old }
    ensures right { option_map (λ offer. offer.write) (slice_get (offers_by lists.old giver) place) ≡ Some result }
    ensures list { lists.new ≡ with_list lists.old giver (remove (offers_by lists.old giver) place) }
    ensures gone { 1 + all_pending lists.new ≡ all_pending lists.old }
{
    lists[giver.number() as usize].remove(place).write
}

/// Takes the offers of a page out, and gives how many went.
fn remove_page(lists: &mut OfferLists, giver: Pid, page: Page) -> u32
    ensures listed { giver < length lists.old }
    ensures list { lists.new ≡ with_list lists.old giver
        (filter (λ offer. not (offer.page == page)) (offers_by lists.old giver)) }
    ensures gone { result + all_pending lists.new ≡ all_pending lists.old }
{
    keep_other_pages(&mut lists[giver.number() as usize], page)
}

/// Takes the offers by a process out, and gives how many went.
fn remove_all_by(lists: &mut OfferLists, giver: Pid) -> u32
    ensures listed { giver < length lists.old }
    ensures list { lists.new ≡ with_list lists.old giver [] }
    ensures gone { result + all_pending lists.new ≡ all_pending lists.old }
{
    keep_none(&mut lists[giver.number() as usize])
}

/// How many offers a list has.
fn pending_at(lists: &OfferLists, place: usize) -> u32
    requires { place < MOST_PROCESSES }
    ensures { result ≡ length (offers_by lists.now place) }
{
    lists[place].len() as u32
}

/// Takes the offers to a process out of a list, and gives how many went.
fn remove_to(lists: &mut OfferLists, place: usize, target: Pid) -> u32
    requires { place < MOST_PROCESSES }
    ensures list { lists.new ≡ with_list lists.old place
        (filter (λ offer. not (offer.target == target)) (offers_by lists.old place)) }
    ensures gone { result + all_pending lists.new ≡ all_pending lists.old }
{
    keep_other_targets(&mut lists[place], target)
}

/// Takes the offers to a process out of each list, and gives how many went.
///
/// The lists have `count` offers, so that none is behind the list where that many were seen.
fn remove_all_to(lists: &mut OfferLists, target: Pid, count: u32) -> u32
    requires { count ≡ all_pending lists.old }
    ensures offers { (p : ℕ) → offers_by lists.new p
        ≡ filter (λ offer. not (offer.target == target)) (offers_by lists.old p) }
    ensures places { length lists.new ≡ length lists.old }
    ensures gone { result + all_pending lists.new ≡ all_pending lists.old }
{
    let mut unseen = count;
    let mut gone = 0;
    for place in 0..MOST_PROCESSES {
        if unseen == 0 {
            break;
        }
        let pending = pending_at(lists, place);
        if pending == 0 {
            continue;
        }
        unseen -= pending;
        gone += remove_to(lists, place, target);
    }
    gone
}

impl Offers {
    /// No offer is pending.
    pub fn new() -> Offers
        ensures { result ≡ map.empty }
    {
        Offers {
            lists: no_offers(),
            count: 0,
        }
    }

    /// Whether a process may offer a page to another.
    ///
    /// OfferPending where that offer is pending, else TooManyOffers where the giver has 32 offers
    /// pending.
    pub fn can_offer(&self, giver: Pid, page: Page, target: Pid) -> Result<(), OfferFault>
        ensures { result ≡ offer_answer self.now (offer_key giver page target) }
    {
        if self.get(giver, page, target).is_some() {
            return Err(OfferFault::OfferPending);
        }
        if list_by(&self.lists, giver).len() >= MOST_PENDING {
            return Err(OfferFault::TooManyOffers);
        }
        Ok(())
    }

    /// Makes an offer, with the right to write or without it.
    pub fn offer(&mut self, giver: Pid, page: Page, target: Pid, write: bool)
        requires { IsOk (offer_answer self.old (offer_key giver page target)) }
        ensures { self.new ≡ map.insert self.old (offer_key giver page target) write }
    {
        let offer = Offer {
            page,
            target,
            write,
        };
        add_offer(&mut self.lists, giver, offer);
        self.count += 1;
    }

    /// The right of a pending offer: whether the target may write. None where it isn't pending.
    pub fn get(&self, giver: Pid, page: Page, target: Pid) -> Option<bool>
        ensures { result ≡ map.get self.now (offer_key giver page target) }
    {
        right_of(list_by(&self.lists, giver), page, target)
    }

    /// Returns a process's first pending offer from a page and a target on, in the order of pages, and of targets for
    /// one page. `target` may be any number: past 63 it leads to the next page. None if no such offer is pending.
    pub fn next(&self, giver: Pid, page: Page, target: u32) -> Option<Offer>
        ensures pending { IfSome result (λ offer. map.get self.now (offer_key giver offer.page offer.target)
            ≡ Some offer.write) }
        ensures from { IfSome result (λ offer. offer_number page target ≤ offer_number offer.page offer.target) }
        ensures least { IfSome result (λ offer. (p t : ℕ) → offer_number page target ≤ offer_number p t
            → offer_number p t < offer_number offer.page offer.target
            → map.contains_key self.now (offer_key giver p t) ≡ false) }
        ensures none { IfNone result ((p t : ℕ) → offer_number page target ≤ offer_number p t
            → map.contains_key self.now (offer_key giver p t) ≡ false) }
    {
        first_from(list_by(&self.lists, giver), number_of(page, target))
    }

    /// Takes a pending offer back. NoOffer where it isn't pending, and nothing changes then.
    pub fn withdraw(&mut self, giver: Pid, page: Page, target: Pid) -> Result<(), OfferFault>
        ensures withdrawn { OnOk result (self.new ≡ map.remove self.old (offer_key giver page target)) }
        ensures absent { IsErrOf result OfferFault.NoOffer
            ↔ (map.contains_key self.old (offer_key giver page target) ≡ false) }
        ensures fault { IfErr result (λ fault. fault ≡ OfferFault.NoOffer) }
        ensures kept { OnErr result (self.new ≡ self.old) }
    {
        self.take(giver, page, target)?;
        Ok(())
    }

    /// Takes a pending offer out, and gives its right: whether the target may write. NoOffer where it
    /// isn't pending, and nothing changes then.
    pub fn take(&mut self, giver: Pid, page: Page, target: Pid) -> Result<bool, OfferFault>
        ensures right { IfOk result (λ write. map.get self.old (offer_key giver page target) ≡ Some write) }
        ensures taken { OnOk result (self.new ≡ map.remove self.old (offer_key giver page target)) }
        ensures absent { IsErrOf result OfferFault.NoOffer
            ↔ (map.contains_key self.old (offer_key giver page target) ≡ false) }
        ensures fault { IfErr result (λ fault. fault ≡ OfferFault.NoOffer) }
        ensures kept { OnErr result (self.new ≡ self.old) }
    {
        let Some(place) = place_of(list_by(&self.lists, giver), page, target) else {
            return Err(OfferFault::NoOffer);
        };
        self.count -= 1;
        Ok(remove_at(&mut self.lists, giver, place))
    }

    /// Drops the offers of a page of a process.
    pub fn drop_page(&mut self, pid: Pid, page: Page)
        ensures { self.new ≡ without_page self.old pid page }
    {
        if self.count == 0 {
            return;
        }
        self.count -= remove_page(&mut self.lists, pid, page);
    }

    /// Drops the offers by a process and those to it.
    pub fn drop_process(&mut self, pid: Pid)
        ensures { self.new ≡ without_process self.old pid }
    {
        if self.count == 0 {
            return;
        }
        self.count -= remove_all_by(&mut self.lists, pid);
        self.count -= remove_all_to(&mut self.lists, pid, self.count);
    }

    /// No process has more than 32 offers pending.
    pub fn within(&self)
        ensures { (p : ℕ) → map.len (pending self.now p) ≤ MOST_PENDING }
    {
        let _ = &self.lists;
    }
}
