//! Snapshots.

ghost use Rattle.std.specs.Prelude.{◌≡◌};
ghost use Rattle.memory_image.specs.Restored.{image_with};
ghost use Rattle.wide_image.specs.Wide.{IsWhole};

use crate::offers::PendingOffer;
use alloc_table::Role;
use memory_image::{ImageRef, Process};
use std::marker::Model;

/// A snapshot: what a machine is at one moment, with its pending offers. Its fields keep their rules; whether they
/// agree with one another is for a check to say. Free frames hold zeros.
#[derive(Drop)]
pub struct WideImage {
    processes: [Option<Process>; 64],
    roles: Vec<Role>,
    bytes: Vec<u8>,
    offers: Vec<PendingOffer>,
}

impl Model for WideImage {
    ghost use Rattle.memory_image.specs.Restored.{image_with};
    ghost use Rattle.wide_image.specs.Wide.{WideImage, IsWhole};
    ghost use Rattle.wide_image.specs.Codes.{wide_code};

    ghost Value = { WideImage };

    ghost coded = { wide_code };

    ghost view = { λ w. record {
      image = image_with w.processes w.roles.items w.bytes.items;
      offers = w.offers.items;
    } };

    ghost invariant = { λ w. IsWhole (record {
      image = image_with w.processes w.roles.items w.bytes.items;
      offers = w.offers.items;
    }) };
}

impl WideImage {
    /// The snapshot with these fields.
    pub(crate) fn with_parts(
        processes: [Option<Process>; 64],
        roles: Vec<Role>,
        bytes: Vec<u8>,
        offers: Vec<PendingOffer>,
    ) -> WideImage
        requires { IsWhole (record {
          image = image_with processes roles.items bytes.items;
          offers = offers.items;
        }) }
        ensures { result ≡ record {
          image = image_with processes roles.items bytes.items;
          offers = offers.items;
        } }
    {
        WideImage {
            processes,
            roles,
            bytes,
            offers,
        }
    }

    /// What each process has, by number, what each frame serves, all bytes, and the offers.
    pub(crate) fn into_parts(self) -> ([Option<Process>; 64], Vec<Role>, Vec<u8>, Vec<PendingOffer>)
        ensures image { image_with result.0 result.1.items result.2.items ≡ self.image }
        ensures offers { result.3.items ≡ self.offers }
        ensures whole { IsWhole self }
    {
        let WideImage {
            processes,
            roles,
            bytes,
            offers,
        } = self;
        (processes, roles, bytes, offers)
    }

    /// That its fields keep their rules. It computes nothing.
    pub fn within(&self)
        ensures { IsWhole self.now }
    {
        let _ = &self.roles;
    }

    /// The machine's image, with its parts where they are, as the check of images takes it.
    pub fn image(&self) -> ImageRef<'_>
        ensures { result ≡ self.now.image }
    {
        ImageRef::of_parts(2, &self.processes, &self.roles, &self.bytes)
    }

    /// The pending offers, by offerer, then by page, then by target.
    pub fn offers(&self) -> &[PendingOffer]
        ensures { result.now ≡ self.now.offers }
    {
        self.offers.as_slice()
    }
}
