//! The type of the processes, and its calls.

ghost use Rattle.std.specs.Prelude.{◌≡◌, ◌↔◌, ◌+◌, ◌≤◌, None, IfOk, IsErrOf, length, replicate};
ghost use Rattle.process_table.specs.Below.{total_cost, opening, LeavesRoom, WaysAgree, PlacesTell, WalksAgree};
ghost use Rattle.process_table.specs.Words.{is_live, container_of, open_with, StandsFor, image_of, memory_of, IsWellFormed, total};
ghost use Rattle.page_words.specs.FiniteMap as map;

use address_space::Spaces;
use page_sharing::Offers;
use page_words::{MachineFault, Pid, WIDE_FRAMES, WideFault, is_frame_count};
use quota_tree::{Container, Quotas};
use std::alloc::Global;
use std::marker::Model;

/// All live processes: their address spaces, quotas and offers.
#[derive(Drop)]
pub struct Processes {
    pub(crate) spaces: Spaces,
    pub(crate) quotas: Quotas,
    pub(crate) offers: Offers,
}

impl Model for Processes {
    ghost use Rattle.process_table.specs.View.{View, view_code, view_of, IsWhole};

    ghost Value = { View };

    ghost coded = { view_code };

    ghost view = { λ p. view_of p.spaces p.quotas p.offers };

    ghost invariant = { λ p. IsWhole p.spaces p.quotas p.offers };
}

/// Process 0 alone.
fn opened(mut spaces: Spaces) -> Processes
    requires spaces { spaces.spaces ≡ map.empty }
    requires directories { spaces.directories ≡ replicate 64 None }
    requires costs { total_cost spaces.directories spaces.spaces ≡ 0 }
    requires frames { 16 ≤ length spaces.roles }
    ensures { result.state ≡ open_with (length spaces.roles) }
{
    let quota = spaces.frames() - 1;
    spaces.fresh(Pid::new(0).unwrap());
    Processes {
        spaces,
        quotas: Quotas::new(quota),
        offers: Offers::new(),
    }
}

impl Processes {
    /// Process 0 alone, over that many frames, 16 to 4,096; its quota is one less.
    ///
    /// BadSize for another number of frames, else NoMemory where there is none for them.
    pub fn new(alloc: Global, frames: u32) -> Result<Processes, MachineFault>
        ensures opening { IfOk result (λ new. new.state ≡ open_with frames) }
        ensures size { IsErrOf result MachineFault.BadSize ↔ (16 ≤ frames → frames ≤ 4096 → ⊥) }
    {
        if !is_frame_count(frames) {
            return Err(MachineFault::BadSize);
        }
        Ok(Processes::wide(alloc, frames)?)
    }

    /// As `new`, over up to 1,048,576 frames: BadSize for another number than 16 to 1,048,576.
    pub fn wide(alloc: Global, frames: u32) -> Result<Processes, WideFault>
        ensures opening { IfOk result (λ new. new.state ≡ open_with frames) }
        ensures size { IsErrOf result WideFault.BadSize ↔ (16 ≤ frames → frames ≤ WIDE_FRAMES → ⊥) }
    {
        let spaces = Spaces::wide(alloc, frames)?;
        Ok(opened(spaces))
    }

    /// Whether a process is live.
    pub fn live(&self, pid: Pid) -> bool
        ensures { result ≡ is_live self.now.state pid }
    {
        self.quotas.get(pid).is_some()
    }

    /// What a process may use, uses and gives; None where it is not live.
    pub fn container(&self, pid: Pid) -> Option<Container>
        ensures { result ≡ container_of self.now.state pid }
    {
        self.quotas.get(pid)
    }

    /// The address spaces.
    pub fn spaces(&self) -> &Spaces
        ensures spaces { result.now.spaces ≡ self.now.state.spaces }
        ensures directories { result.now.directories ≡ self.now.directories }
        ensures bytes { result.now.bytes ≡ self.now.bytes }
        ensures roles { result.now.roles ≡ self.now.roles }
    {
        &self.spaces
    }

    /// Returns all offers that are pending, of all processes.
    pub fn offers(&self) -> &Offers
        ensures { result.now ≡ self.now.state.offers }
    {
        &self.offers
    }

    /// What memory's own words and the containers say of this state, that all processes together cost
    /// at most all frames but frame 0, and that the state is well formed. It computes nothing.
    pub fn stands(&self)
        ensures image { StandsFor (image_of self.now) self.now.state }
        ensures walks { WalksAgree (memory_of self.now) self.now.state.spaces }
        ensures ways { WaysAgree (memory_of self.now) }
        ensures total { 1 + total self.now.state ≤ length self.now.roles }
        ensures few { length self.now.roles ≤ WIDE_FRAMES }
        ensures pids { length self.now.directories ≡ 64 }
        ensures used { LeavesRoom (memory_of self.now) (total self.now.state) }
        ensures well_formed { IsWellFormed self.now.state }
        ensures places { PlacesTell (memory_of self.now) self.now.state.spaces }
    {
        self.spaces.stands();
        self.quotas.within();
    }
}
