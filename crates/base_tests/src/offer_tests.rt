//! Offers, and which of them go.
use crate::comparing::{process, same};
use page_sharing::{OfferFault, Offers};
use page_words::{Page, Pid};
use std::process::Abort;

const LOW: Page = Page(0x40000);

const HIGH: Page = Page(0x40001);

/// Makes an offer that can be made.
fn offer(rt: &impl Abort, offers: &mut Offers, giver: Pid, page: Page, target: Pid, write: bool) {
    assert!(rt; offers.can_offer(giver, page, target).is_ok());
    offers.offer(giver, page, target, write);
}

/// The right that goes with an offer, or that it is not pending.
fn check_right(
    rt: &impl Abort,
    offers: &Offers,
    giver: Pid,
    page: Page,
    target: Pid,
    right: Option<bool>,
) {
    same(rt, &offers.get(giver, page, target), &right);
}

/// Why an offer can't be made.
fn check_fault(
    rt: &impl Abort,
    offers: &Offers,
    giver: Pid,
    page: Page,
    target: Pid,
    fault: OfferFault,
) {
    same(rt, &offers.can_offer(giver, page, target), &Err(fault));
}

#[test]
fn gives_each_right_once(rt: HostRuntime) {
    let (giver, target) = (process(&rt, 0), process(&rt, 1));
    let mut offers = Offers::new();
    offer(&rt, &mut offers, giver, LOW, target, true);
    check_right(&rt, &offers, giver, LOW, target, Some(true));
    check_right(&rt, &offers, target, LOW, giver, None);
    check_fault(&rt, &offers, giver, LOW, target, OfferFault::OfferPending);
    let first = offers.take(giver, LOW, target);
    let again = offers.take(giver, LOW, target);
    same(&rt, &(first, again), &(Ok(true), Err(OfferFault::NoOffer)));
}

#[test]
fn withdraws_an_offer_once(rt: HostRuntime) {
    let (giver, target) = (process(&rt, 0), process(&rt, 1));
    let mut offers = Offers::new();
    offer(&rt, &mut offers, giver, LOW, target, false);
    let first = offers.withdraw(giver, LOW, target);
    let again = offers.withdraw(giver, LOW, target);
    same(&rt, &(first, again), &(Ok(()), Err(OfferFault::NoOffer)));
}

#[test]
fn drops_with_the_page_and_the_process(rt: HostRuntime) {
    let (first, second, third) = (process(&rt, 0), process(&rt, 1), process(&rt, 2));
    let mut offers = Offers::new();
    offer(&rt, &mut offers, first, LOW, second, true);
    offer(&rt, &mut offers, first, HIGH, second, false);
    offer(&rt, &mut offers, first, HIGH, third, false);
    offer(&rt, &mut offers, second, LOW, first, true);
    offers.drop_page(first, LOW);
    check_right(&rt, &offers, first, LOW, second, None);
    check_right(&rt, &offers, first, HIGH, second, Some(false));
    check_right(&rt, &offers, second, LOW, first, Some(true));
    offers.drop_process(second);
    check_right(&rt, &offers, first, HIGH, second, None);
    check_right(&rt, &offers, second, LOW, first, None);
    check_right(&rt, &offers, first, HIGH, third, Some(false));
}

/// Offers 32 pages of a process to another, from the first on.
fn offer_most(rt: &impl Abort, offers: &mut Offers, giver: Pid, target: Pid) {
    for page in 0x40000..0x40020 {
        offer(rt, offers, giver, Page(page), target, true);
    }
}

#[test]
fn keeps_32_for_each_offerer(rt: HostRuntime) {
    let (first, last) = (process(&rt, 0), process(&rt, 63));
    let (page, many) = (Page(0x40020), OfferFault::TooManyOffers);
    let mut offers = Offers::new();
    offer_most(&rt, &mut offers, first, last);
    check_fault(&rt, &offers, first, page, last, many);
    check_fault(&rt, &offers, first, LOW, last, OfferFault::OfferPending);
    offer_most(&rt, &mut offers, last, first);
    check_fault(&rt, &offers, last, page, first, many);
    offers.drop_page(first, LOW);
    offer(&rt, &mut offers, first, page, last, true);
    check_fault(&rt, &offers, last, page, first, many);
}
