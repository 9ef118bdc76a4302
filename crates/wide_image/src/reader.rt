//! A reader of snapshots that is given them piece by piece.

ghost use Rattle.std.specs.Prelude.{◌≡◌, ◌+◌, ◌*◌, ◌<◌, ◌≤◌, ◌^◌, ◌⊎◌, ◌++◌, ◌∷◌, [], if◌then◌else◌, nat_lt, None, Some, IfOk, IfErr, IfSome, IsErrOf, OnOk, OnErr, length, take, drop, vec_capacity};
ghost use Rattle.phys_memory.specs.Bytes.{word_at};
ghost use Rattle.memory_image.specs.Tests.{first_failing};
ghost use Rattle.wide_image.specs.declared.faults.WideImageFault.TheVariants.{NoMemory};
ghost use Rattle.wide_image.specs.Layout.{frames_stored};
ghost use Rattle.wide_image.specs.Offers.{rank_of};
ghost use Rattle.wide_image.specs.Pieces.{IsBegun, offer_piece, frame_piece, front_fault, so_far, place_of, wanted, left, next_rank, piece_fields, piece_fault, with_offer, with_frame};
ghost use Rattle.wide_image.specs.Reading.{HasParties, offer_at, role_at};
ghost use Rattle.wide_image.specs.Wide.{Encodes};

use crate::faults::WideImageFault;
use crate::fields::{bad_in_frame_piece, bad_in_offer_piece};
use crate::frames::{are_small, fill_to, read_frame};
use crate::fronts::{Front, read_front};
use crate::images::WideImage;
use crate::offers::{PendingOffer, rank};
use crate::reading::offer_at;
use alloc_table::Role;
use memory_image::number_at;
use std::alloc::Global;
use std::marker::Model;

/// A snapshot as far as it was read.
///
/// It is given the first 1,556 bytes of the snapshot (`begin`), then piece after piece as many bytes as it wants
/// (`wants`, `take`): 16 for each offer, then 4,116 for each frame that isn't free. It wants none once it has all
/// (`finish`).
#[derive(Drop)]
pub struct WideReader {
    front: Front,
    offers: Vec<PendingOffer>,
    roles: Vec<Role>,
    bytes: Vec<u8>,
    next_rank: u64,
    stored: u32,
}

impl Model for WideReader {
    ghost use Rattle.std.specs.Prelude.{vec_capacity};
    ghost use Rattle.wide_image.specs.Pieces.{Begun};
    ghost use Rattle.wide_image.specs.Begun.{begun_code, KeepsBegun};

    ghost Value = { Begun };

    ghost coded = { begun_code };

    ghost view = { λ r. record {
      front = r.front;
      offers = r.offers.items;
      roles = r.roles.items;
      bytes = r.bytes.items;
    } };

    ghost invariant = { λ r. KeepsBegun (record {
      front = r.front;
      offers = r.offers.items;
      roles = r.roles.items;
      bytes = r.bytes.items;
    }) r.next_rank r.stored (vec_capacity r.roles) (vec_capacity r.bytes) };
}

/// Room for the roles and the bytes of so many frames.
fn room_for(alloc: Global, frames: u32) -> Option<(Vec<Role>, Vec<u8>)>
    requires { frames ≤ 1048576 }
    ensures roles { IfSome result (λ room. (room.0.items ≡ []) × (frames ≤ vec_capacity room.0)) }
    ensures bytes { IfSome result (λ room. (room.1.items ≡ []) × (4096 * frames ≤ vec_capacity room.1)) }
{
    let roles = Vec::with_capacity(alloc, frames as usize).ok()?;
    let bytes = Vec::with_capacity(alloc, 4096 * frames as usize).ok()?;
    Some((roles, bytes))
}

/// Adds the offer in 16 bytes. Whether there was memory.
fn add_offer(offers: &mut Vec<PendingOffer>, piece: &[u8]) -> bool
    requires long { 16 ≤ length piece.now }
    requires parties { HasParties piece.now 0 }
    ensures { offers.new.items ≡ (if result then offers.old.items ++ offer_at piece.now 0 ∷ [] else offers.old.items) }
{
    offers.push(offer_at(piece, 0)).is_ok()
}

/// The place after that of the offer in 16 bytes, among all that there can be.
fn rank_after(piece: &[u8]) -> u64
    requires { 16 ≤ length piece.now }
    ensures { result ≡ rank_of (offer_at piece.now 0) + 1 }
{
    rank(
        number_at(piece, 0),
        number_at(piece, 4),
        number_at(piece, 8),
    ) + 1
}

impl WideReader {
    /// Begins with a snapshot's front, the first 1,556 of these bytes.
    ///
    /// NoMemory if there is no memory for the frames that it says. Any other fault is the first reason against the front:
    /// NotImage; BadLength if they are fewer; BadVersion; BadField at the first field that breaks its rule.
    pub fn begin(alloc: Global, front: &[u8]) -> Result<WideReader, WideImageFault>
        ensures text { IfOk result (λ begun. so_far begun ≡ take 1556 front.now) }
        ensures none { IfOk result (λ begun. (begun.offers ≡ []) × (begun.roles ≡ [])) }
        ensures fault { IfErr result (λ fault. (front_fault front.now ≡ Some fault)
            ⊎ ((fault ≡ NoMemory) × (front_fault front.now ≡ None))) }
    {
        let front = read_front(front)?;
        let Some((roles, bytes)) = room_for(alloc, front.frames) else {
            return Err(WideImageFault::NoMemory);
        };
        Ok(WideReader {
            front,
            offers: Vec::new(alloc),
            roles,
            bytes,
            next_rank: 0,
            stored: 0,
        })
    }

    /// That its fields keep their rules. It computes nothing.
    pub(crate) fn within(&self)
        ensures { IsBegun self.now }
    {
        let _ = &self.roles;
    }

    /// Whether the next piece is an offer.
    fn wants_offer(&self) -> bool
        ensures { result ≡ nat_lt (length self.now.offers) self.now.front.offers }
    {
        (self.offers.len() as u64) < u64::from(self.front.offers)
    }

    /// How many bytes the next piece has: 16, 4,116, or 0 at the end.
    pub fn wants(&self) -> usize
        ensures wanted { result ≡ wanted self.now }
        ensures most { result ≤ 4116 }
    {
        if self.wants_offer() {
            16
        } else if self.stored < self.front.stored {
            4116
        } else {
            0
        }
    }

    /// How many bytes were read.
    fn place(&self) -> u64
        ensures is { result ≡ place_of self.now }
        ensures most { result < 2 ^ 60 }
    {
        1556 + 16 * self.offers.len() as u64 + 4116 * u64::from(self.stored)
    }

    /// The place of the first field of the next piece that breaks its rule.
    fn bad_in(&self, piece: &[u8]) -> Option<u64>
        requires some { 0 < wanted self.now }
        requires long { length piece.now ≡ wanted self.now }
        ensures { result ≡ first_failing (piece_fields self.now piece.now) }
    {
        let place = self.place();
        if self.wants_offer() {
            bad_in_offer_piece(piece, place, self.next_rank)
        } else {
            let next = self.roles.len() as u64;
            bad_in_frame_piece(piece, self.front.frames, next, place)
        }
    }

    /// Adds the offer of the next piece. Whether there was memory.
    fn take_offer(&mut self, piece: &[u8]) -> bool
        requires wanted { length self.old.offers < self.old.front.offers }
        requires long { length piece.now ≡ 16 }
        requires passed { first_failing (offer_piece piece.now (next_rank 0 self.old.offers) (place_of self.old)) ≡ None }
        ensures { self.new ≡ (if result then with_offer self.old (offer_at piece.now 0) else self.old) }
    {
        let added = add_offer(&mut self.offers, piece);
        if added {
            self.next_rank = rank_after(piece);
        }
        added
    }

    /// Adds the frame of the next piece.
    fn take_frame(&mut self, piece: &[u8])
        requires offers { length self.old.offers ≡ self.old.front.offers }
        requires wanted { frames_stored self.old.roles < self.old.front.stored }
        requires long { length piece.now ≡ 4116 }
        requires passed { first_failing (frame_piece piece.now self.old.front.frames (length self.old.roles)
            (place_of self.old)) ≡ None }
        ensures { self.new ≡ with_frame self.old (word_at piece.now 0) (role_at piece.now 0)
            (take 4096 (drop 20 piece.now)) }
    {
        let added = read_frame(&mut self.roles, &mut self.bytes, piece, 0);
        if !added {
            unreachable!();
        }
        self.stored += 1;
    }

    /// Takes a piece of which no field breaks its rule. With a fault, which is NoMemory, nothing of it is taken.
    fn take_passed(&mut self, piece: &[u8]) -> Result<(), WideImageFault>
        requires some { 0 < wanted self.old }
        requires long { length piece.now ≡ wanted self.old }
        requires passed { first_failing (piece_fields self.old piece.now) ≡ None }
        ensures text { OnOk result (so_far self.new ≡ so_far self.old ++ piece.now) }
        ensures left { OnOk result (left self.old ≡ left self.new + 1) }
        ensures fault { IfErr result (λ fault. fault ≡ NoMemory) }
        ensures offer { OnErr result (length self.old.offers < self.old.front.offers) }
        ensures kept { OnErr result (self.new ≡ self.old) }
    {
        self.within();
        if self.wants_offer() {
            let taken = self.take_offer(piece);
            return if taken {
                Ok(())
            } else {
                Err(WideImageFault::NoMemory)
            };
        }
        self.take_frame(piece);
        Ok(())
    }

    /// Takes the next piece, of as many bytes as it wants. With a fault nothing of it is taken.
    ///
    /// BadField at the first field of it that breaks its rule, by its place in the snapshot. NoMemory if there is no
    /// memory for an offer of which no field does. Frames have their memory since `begin`.
    pub fn take(&mut self, piece: &[u8]) -> Result<(), WideImageFault>
        requires some { 0 < wanted self.old }
        requires long { length piece.now ≡ wanted self.old }
        ensures text { OnOk result (so_far self.new ≡ so_far self.old ++ piece.now) }
        ensures left { OnOk result (left self.old ≡ left self.new + 1) }
        ensures passed { OnOk result (piece_fault self.old piece.now ≡ None) }
        ensures fault { IfErr result (λ fault. (piece_fault self.old piece.now ≡ Some fault) ⊎ (fault ≡ NoMemory)) }
        ensures memory { IsErrOf result NoMemory → (piece_fault self.old piece.now ≡ None)
            × (length self.old.offers < self.old.front.offers) }
        ensures kept { OnErr result (self.new ≡ self.old) }
    {
        match self.bad_in(piece) {
            Some(offset) => Err(WideImageFault::BadField { offset }),
            None => self.take_passed(piece),
        }
    }

    /// The snapshot, once no piece is left.
    pub fn finish(self) -> WideImage
        requires { wanted self ≡ 0 }
        ensures { Encodes (so_far self) result }
    {
        let WideReader {
            front,
            offers,
            mut roles,
            mut bytes,
            next_rank: _,
            stored: _,
        } = self;
        let filled = fill_to(&mut roles, &mut bytes, front.frames);
        if !filled {
            unreachable!();
        }
        are_small(&bytes);
        WideImage::with_parts(front.processes, roles, bytes, offers)
    }
}
