//! Processes from an image: their directories and accounts, and memory's bytes and roles.

ghost use Rattle.std.specs.Prelude.{IfErr, IfOk, length, slice_index, ℕ, ◌<◌, ◌≡◌, ◌≤◌};
ghost use Rattle.process_table.specs.Words.{IsSoundImage, RootIsItsParent, StandsFor, image_in};
ghost use Rattle.page_words.specs.FiniteMap as finite_map;

use crate::processes::Processes;
use address_space::{Spaces, have_places};
use alloc_table::Role;
use page_sharing::Offers;
use page_words::{Frame, MachineFault, WIDE_FRAMES};
use quota_tree::{Account, Quotas};
use std::alloc::Global;

impl Processes {
    /// The processes that directories, accounts, bytes and roles represent: a sound image of 16 to 1,048,576 frames. No
    /// offer is pending.
    ///
    /// NoMemory if there is none for what is kept in addition to the bytes and the roles.
    pub fn of_image(
        alloc: Global,
        directories: [Option<Frame>; 64],
        accounts: &[Option<Account>; 64],
        bytes: Vec<u8>,
        roles: Vec<Role>,
    ) -> Result<Processes, MachineFault>
        requires fewest { 16 ≤ length roles.items }
        requires most { length roles.items ≤ WIDE_FRAMES }
        requires small { (i : ℕ) → slice_index bytes.items i < 256 }
        requires root { RootIsItsParent accounts.now }
        requires sound { IsSoundImage (image_in directories accounts.now bytes.items roles.items) }
        ensures stands { IfOk result (λ new. StandsFor (image_in directories accounts.now bytes.items roles.items)
            new.state) }
        ensures offers { IfOk result (λ new. new.state.offers ≡ finite_map.empty) }
        ensures directories { IfOk result (λ new. new.directories ≡ directories) }
        ensures bytes { IfOk result (λ new. new.bytes ≡ bytes.items) }
        ensures roles { IfOk result (λ new. new.roles ≡ roles.items) }
        ensures fault { IfErr result (λ fault. fault ≡ MachineFault.NoMemory) }
    {
        have_places(&directories);
        let spaces = Spaces::of_image(alloc, directories, bytes, roles)?;
        Ok(Processes {
            spaces,
            quotas: Quotas::of_accounts(accounts),
            offers: Offers::new(),
        })
    }
}
