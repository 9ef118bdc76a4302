//! Each call of a process that may make it, and accesses, with one condition: that the test passes.

ghost use Rattle.std.specs.Prelude.{IsOk, Ok, false, true, ℕ, ◌≡◌};
ghost use Rattle.process_table.specs.Below.{EachTouched, FramesStay, IsUserPage, LooseStay, at_page, cell_or_fresh, cost, is_lazy_at, none_goes, of_lazy, of_page, of_process};
ghost use Rattle.process_table.specs.Words.{accept_answer, access_value, after_accept, after_access, after_exit, after_load, after_map, after_offer, after_protect, after_spawn, after_store, after_unmap, after_withdraw, exit_answer, is_live, is_mapped, map_answer, memory_of, offer_answer, protect_answer, spawn_answer, unmap_answer, withdraw_answer};

use crate::charges::charge_of;
use crate::processes::Processes;
use page_words::{Page, Pid, Size, Vaddr};
use table_walk::Access;

impl Processes {
    /// Maps a page of zeros that the process may map, with the right to write as asked. The page is lazy.
    pub fn map(&mut self, pid: Pid, page: Page, write: bool)
        requires { IsOk (map_answer self.old.state pid page) }
        ensures state { self.new.state ≡ after_map self.old.state pid page write }
        ensures stay { FramesStay none_goes (memory_of self.old) (memory_of self.new) }
        ensures lazy { is_lazy_at (memory_of self.new) (at_page pid page) ≡ true }
    {
        let _ = self.try_map(pid, page, write);
    }

    /// Takes a page away that the process may unmap; the offers of it go.
    pub fn unmap(&mut self, pid: Pid, page: Page)
        requires { IsOk (unmap_answer self.old.state pid page) }
        ensures state { self.new.state ≡ after_unmap self.old.state pid page }
        ensures stay { FramesStay (of_page pid page) (memory_of self.old) (memory_of self.new) }
        ensures loose { LooseStay (memory_of self.old) (memory_of self.new) }
    {
        let _ = self.try_unmap(pid, page);
    }

    /// Sets or clears the right to write to a page, which the process may.
    pub fn protect(&mut self, pid: Pid, page: Page, write: bool)
        requires { IsOk (protect_answer self.old.state pid page write) }
        ensures state { self.new.state ≡ after_protect self.old.state pid page write }
        ensures stay { FramesStay none_goes (memory_of self.old) (memory_of self.new) }
    {
        let _ = self.try_protect(pid, page, write);
    }

    /// Makes an offer that the process may make, with the right to write or without it.
    pub fn offer(&mut self, pid: Pid, page: Page, target: Pid, write: bool)
        requires { IsOk (offer_answer self.old.state pid page target write) }
        ensures state { self.new.state ≡ after_offer self.old.state pid page target write }
        ensures stay { FramesStay none_goes (memory_of self.old) (memory_of self.new) }
    {
        let _ = self.try_offer(pid, page, target, write);
    }

    /// Takes back an offer that is pending.
    pub fn withdraw(&mut self, pid: Pid, page: Page, target: Pid)
        requires { IsOk (withdraw_answer self.old.state pid page target) }
        ensures state { self.new.state ≡ after_withdraw self.old.state pid page target }
        ensures stay { FramesStay none_goes (memory_of self.old) (memory_of self.new) }
    {
        let _ = self.try_withdraw(pid, page, target);
    }

    /// Accepts an offer that the process may accept: its page is the giver's page too from now on, with
    /// the right that was offered, and the offer goes.
    pub fn accept(&mut self, pid: Pid, giver: Pid, giver_page: Page, page: Page)
        requires { IsOk (accept_answer self.old.state pid giver giver_page page) }
        ensures state { self.new.state ≡ after_accept self.old.state pid giver giver_page page }
        ensures stay { FramesStay (of_lazy giver giver_page) (memory_of self.old) (memory_of self.new) }
    {
        let _ = self.try_accept(pid, giver, giver_page, page);
    }

    /// Makes a child of a process that may have it, with that quota and an empty space, and gives its
    /// number.
    pub fn spawn(&mut self, pid: Pid, quota: u32) -> Pid
        requires { IsOk (spawn_answer self.old.state pid quota) }
        ensures child { spawn_answer self.old.state pid quota ≡ Ok result }
        ensures state { self.new.state ≡ after_spawn self.old.state pid quota }
        ensures stay { FramesStay none_goes (memory_of self.old) (memory_of self.new) }
    {
        self.try_spawn(pid, quota).unwrap()
    }

    /// Takes away a process that may exit: its space, its offers and the offers to it go, and its quota
    /// returns to its parent.
    pub fn exit(&mut self, pid: Pid)
        requires { IsOk (exit_answer self.old.state pid) }
        ensures state { self.new.state ≡ after_exit self.old.state pid }
        ensures stay { FramesStay (of_process pid) (memory_of self.old) (memory_of self.new) }
        ensures loose { LooseStay (memory_of self.old) (memory_of self.new) }
    {
        let _ = self.try_exit(pid);
    }

    /// What a live process is charged for after a load or a store that completes, once each page that it touches is
    /// mapped. They lie in the user range.
    pub fn access_charge(&self, pid: Pid, address: Vaddr, size: Size) -> u32
        requires live { is_live self.now.state pid ≡ true }
        requires user { EachTouched address size IsUserPage }
        ensures load { result ≡ cost (after_load self.now.state pid address size).spaces pid }
        ensures store { (value : ℕ) → result ≡ cost (after_store self.now.state pid address size value).spaces pid }
    {
        self.stands();
        charge_of(self, pid) + self.spaces().access_need(pid, address, size)
    }

    /// Makes an access through mapped pages, one or two by where its bytes lie, that the process may access so. A read
    /// sets accessed, and returns the value. A write writes the low bytes of the value, sets accessed and dirty, and
    /// returns 0.
    pub fn access(
        &mut self,
        pid: Pid,
        address: Vaddr,
        size: Size,
        access: Access,
        value: u32,
    ) -> u32
        requires mapped { EachTouched address size (λ page. is_mapped self.old.state (at_page pid page) ≡ true) }
        requires right { access ≡ Access.Write → EachTouched address size
            (λ page. (cell_or_fresh self.old.state.spaces (at_page pid page)).write ≡ true) }
        requires real { access ≡ Access.Write → EachTouched address size
            (λ page. is_lazy_at (memory_of self.old) (at_page pid page) ≡ false) }
        ensures value { result ≡ access_value self.old.state pid address size access }
        ensures state { self.new.state ≡ after_access self.old.state pid address size access value }
        ensures stay { FramesStay none_goes (memory_of self.old) (memory_of self.new) }
        ensures roles { self.new.roles ≡ self.old.roles }
    {
        let places = self.access_places(pid, address, size);
        self.access_at(pid, address, size, access, value, &places)
    }
}
