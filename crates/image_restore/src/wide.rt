//! A core with its offers, made of a snapshot.

ghost use Rattle.std.specs.Prelude.{◌≡◌, ◌<◌, ◌^◌, length, IfOk, IfErr, OnOk, IfSome, IfNone};
ghost use Rattle.address_space.specs.Stays.{FramesStay, none_goes};
ghost use Rattle.page_words.specs.FiniteMap as map;
ghost use Rattle.kernel_calls.specs.Machine.{answer, next};
ghost use Rattle.memory_image.specs.Sound.{IsSound};
ghost use Rattle.process_table.specs.Image.{memory_of};
ghost use Rattle.wide_image.specs.Offers.{AreListed, Rise};
ghost use Rattle.image_restore.specs.Resumed.{offer_event, is_done, DifferInOffers, IsResumed, IsRefused, IsSoundWide, KeepsWhatStands, NamesFault};

use crate::restoring::first_failed;
use crate::wide_faults::WideRestoreFault;
use image_check::check_by_ref;
use kernel_calls::{Call, Core, Event, Reply};
use std::alloc::Global;
use wide_image::{PendingOffer, WideImage};

/// Makes an offer in a core.
fn make_offer(core: &mut Core, offer: &PendingOffer) -> Reply
    ensures reply { result ≡ answer core.old.state (offer_event offer.now) }
    ensures state { core.new.state ≡ next core.old.state (offer_event offer.now) }
    ensures stay { FramesStay none_goes (memory_of core.old) (memory_of core.new) }
{
    core.step(&Event {
        cpu: 0,
        pid: offer.offerer,
        call: Call::Offer {
            page: offer.page,
            target: offer.target,
            write: offer.write,
        },
    })
}

/// Whether a call is done.
fn is_done(reply: &Reply) -> bool
    ensures { result ≡ is_done reply.now }
{
    matches!(reply, Reply::Done)
}

/// Makes these offers in a core that has none, in order. None if all are made. Otherwise the number of the first that the
/// core refuses, and its reply; those before it are made then.
fn make_offers(core: &mut Core, offers: &[PendingOffer]) -> Option<(u32, Reply)>
    requires few { length offers.now < 2 ^ 32 }
    requires none { core.old.state.offers ≡ map.empty }
    ensures stands { IfNone result (KeepsWhatStands core.old.state core.new.state) }
    ensures offers { IfNone result (AreListed core.new.state.offers offers.now) }
    ensures state { IfNone result (DifferInOffers core.old.state core.new.state) }
    ensures stay { IfNone result (FramesStay none_goes (memory_of core.old) (memory_of core.new)) }
    ensures refused { IfSome result (λ found. IsRefused core.old.state offers.now found.0 found.1) }
{
    for place in 0..offers.len() {
        let reply = make_offer(core, &offers[place]);
        let done = is_done(&reply);
        if !done {
            return Some((place as u32, reply));
        }
    }
    None
}

/// The first clause that fails of a snapshot, apart from its offers, if one does.
fn check_wide(alloc: Global, image: &WideImage) -> Result<(), WideRestoreFault>
    ensures sound { OnOk result (IsSound image.now.image) }
    ensures fault { IfErr result (NamesFault image.now) }
    ensures passes { IsSound image.now.image → IfErr result (λ fault. fault ≡ WideRestoreFault.NoMemory) }
{
    image.within();
    let shown = image.image();
    let Ok(verdict) = check_by_ref(alloc, &shown) else {
        return Err(WideRestoreFault::NoMemory);
    };
    match first_failed(&shown, &verdict) {
        Some(failed) => Err(WideRestoreFault::NotSound(failed)),
        None => Ok(()),
    }
}

/// A snapshot's offers are in order, and how many they are is a number of 32 bits. It computes nothing.
fn has_offers(image: &WideImage)
    ensures few { length image.now.offers < 2 ^ 32 }
    ensures rise { Rise 0 image.now.offers }
{
    image.within();
}

/// Makes the core of a snapshot, with its offers: the machine that was stored. The core's state is the one that the
/// snapshot represents, and its pending offers are the snapshot's. The core has as many frames. Each process has the
/// account and the directory that the snapshot says, and each page the table and the frame.
///
/// NoMemory if there is no memory for the check. Otherwise NotSound with the first clause that fails. Otherwise
/// NoMemory if there is none for what a core keeps in addition to the snapshot's bytes and roles. Otherwise BadOffer
/// with the first offer that the machine refuses, and its reply.
pub fn restore_wide(alloc: Global, image: WideImage) -> Result<Core, WideRestoreFault>
    ensures resumed { IfOk result (λ core. IsResumed core image) }
    ensures fault { IfErr result (NamesFault image) }
    ensures passes { IsSoundWide image → IfErr result (λ fault. fault ≡ WideRestoreFault.NoMemory) }
{
    has_offers(&image);
    if let Err(fault) = check_wide(alloc, &image) {
        return Err(fault);
    }
    let Ok(made) = image.into_core(alloc) else {
        return Err(WideRestoreFault::NoMemory);
    };
    made.0.stands();
    let (mut core, offers) = made;
    match make_offers(&mut core, offers.as_slice()) {
        None => {
            core.stands();
            Ok(core)
        }
        Some(refused) => Err(WideRestoreFault::BadOffer {
            number: refused.0,
            reply: refused.1,
        }),
    }
}
