//! The kernel's core: one machine's memory and its processes.

ghost use Rattle.std.specs.Prelude.{◌≡◌, ◌↔◌, ℕ, ◌+◌, ◌*◌, ◌<◌, ◌≤◌, true, false, Some, IfOk, IfErr, IfSome, IfNone, IsErrOf, length, map, slice_get, slice_index};
ghost use Rattle.std.specs.List.{range_with_len};
ghost use Rattle.kernel_calls.specs.Below.{directory_of, page_number, offset_number, IsUserPage, FramesStay, LooseStay, WaysAgree, none_goes, WalksAgree, with_walked, open_with, container_of, is_live, is_mapped, after_loads, after_stores, offer_key, offer_number, image_in, RootIsItsParent, StandsFor, IsSoundImage, image_of, memory_of, IsWellFormed, total, LeavesRoom, takes_stores, zeros, need, at_page, slot_at, byte_at, frame_bytes};
ghost use Rattle.kernel_calls.specs.Cleaned.{is_dirty_at, cleaned, EndsMarks};
ghost use Rattle.kernel_calls.specs.Isolation.{IsIsolated};
ghost use Rattle.kernel_calls.specs.Lazy.{LeavesLazy};
ghost use Rattle.kernel_calls.specs.Pages.{page_in};
ghost use Rattle.kernel_calls.specs.Machine.{answer, next, answers, end_of, completes, none_completes};
ghost use Rattle.kernel_calls.specs.Decisions.{decision_of, charge_in, charge_after};
ghost use Rattle.kernel_calls.specs.Gone.{gone_by, gives_back};
ghost use Rattle.kernel_calls.specs.Along.{EndsInOrder};
ghost use Rattle.kernel_calls.specs.Processors.{IsCore};
ghost use Rattle.kernel_calls.specs.Translations.{ended_by, of_call, Ends};
ghost use Rattle.kernel_calls.specs.Written.{WritesItsOwn};
ghost use Rattle.page_words.specs.FiniteMap as finite_map;
ghost use Rattle.kernel_calls.specs.declared.translations.Ended.TheVariants as end;

use crate::calls::{Decision, Event, Outcome, Reply};
use crate::decisions::judge;
use crate::pages::PageState;
use crate::replies::reply_once;
use crate::translations::{self, Ended};
use crate::{BootFault, WideFault};
use alloc_table::Role;
use page_sharing::Offer;
use page_words::{Frame, Page, Pid, Vaddr, WIDE_FRAMES, in_user_range, page_of};
use phys_memory::Memory;
use process_table::Processes;
use quota_tree::{Account, Container};
use std::alloc::Global;
use std::marker::Model;

/// The core: processes, their spaces, quotas and offers, over one memory.
#[derive(Drop)]
pub struct Core {
    processes: Processes,
}

impl Model for Core {
    ghost use Rattle.process_table.specs.View.{View, view_code};

    ghost Value = { View };

    ghost coded = { view_code };

    ghost view = { λ c. c.processes };
}

/// What a process is charged for; 0 where it is not live.
fn charge_now(processes: &Processes, pid: Pid) -> u32
    ensures { result ≡ charge_in processes.now.state pid }
{
    match processes.container(pid) {
        Some(container) => container.used,
        None => 0,
    }
}

impl Core {
    /// A core of that many frames, 16 to 4,096, with process 0 alone, whose quota is one less.
    ///
    /// BadSize for another number of frames, else NoMemory where there is none for them.
    pub fn boot(alloc: Global, frames: u32) -> Result<Core, BootFault>
        ensures opening { IfOk result (λ core. core.state ≡ open_with frames) }
        ensures stands { IfOk result (λ core. StandsFor (image_of core) core.state) }
        ensures size { IsErrOf result BootFault.BadSize ↔ (16 ≤ frames → frames ≤ 4096 → ⊥) }
    {
        let processes = Processes::new(alloc, frames)?;
        processes.stands();
        Ok(Core { processes })
    }

    /// As `boot`, of 16 to 1,048,576 frames: up to all 4 GiB that a page word can name.
    ///
    /// BadSize for another number of frames, else NoMemory where there is none for them.
    pub fn boot_wide(alloc: Global, frames: u32) -> Result<Core, WideFault>
        ensures opening { IfOk result (λ core. core.state ≡ open_with frames) }
        ensures stands { IfOk result (λ core. StandsFor (image_of core) core.state) }
        ensures size { IsErrOf result WideFault.BadSize ↔ (16 ≤ frames → frames ≤ WIDE_FRAMES → ⊥) }
    {
        let processes = Processes::wide(alloc, frames)?;
        processes.stands();
        Ok(Core { processes })
    }

    /// The core that directories, accounts, bytes and roles represent: a sound image of 16 to 1,048,576 frames. No
    /// offer is pending.
    ///
    /// NoMemory if there is none for what is kept in addition to the bytes and the roles.
    pub fn of_image(
        alloc: Global,
        directories: [Option<Frame>; 64],
        accounts: &[Option<Account>; 64],
        bytes: Vec<u8>,
        roles: Vec<Role>,
    ) -> Result<Core, BootFault>
        requires fewest { 16 ≤ length roles.items }
        requires most { length roles.items ≤ WIDE_FRAMES }
        requires small { (i : ℕ) → slice_index bytes.items i < 256 }
        requires root { RootIsItsParent accounts.now }
        requires sound { IsSoundImage (image_in directories accounts.now bytes.items roles.items) }
        ensures stands { IfOk result (λ core. StandsFor
            (image_in directories accounts.now bytes.items roles.items) core.state) }
        ensures offers { IfOk result (λ core. core.state.offers ≡ finite_map.empty) }
        ensures directories { IfOk result (λ core. core.directories ≡ directories) }
        ensures bytes { IfOk result (λ core. core.bytes ≡ bytes.items) }
        ensures roles { IfOk result (λ core. core.roles ≡ roles.items) }
        ensures fault { IfErr result (λ fault. fault ≡ BootFault.NoMemory) }
    {
        let processes = Processes::of_image(alloc, directories, accounts, bytes, roles)?;
        Ok(Core { processes })
    }

    /// What is decided of an event: its plan, its reply and the charge of its process afterwards.
    #[inline(never)]
    pub fn decide(&self, event: &Event) -> Decision
        ensures decision { result ≡ decision_of self.now event.now }
        ensures reply { result.reply ≡ answer self.now.state event.now }
        ensures charge { result.used_after ≡ charge_after self.now.state event.now }
    {
        let judged = judge(&self.processes, event);
        Decision {
            event: *event,
            plan: judged.plan,
            reply: judged.reply,
            used_after: judged.used_after,
        }
    }

    /// Which cached translations an event ends: a processor that keeps what its walks gave has to invalidate these
    /// once the event is carried out, and no others.
    pub fn ends(&self, event: &Event) -> Ended
        ensures { result ≡ ended_by self.now event.now }
    {
        self.may_end(event).if_completed(&self.decide(event).reply)
    }

    /// Which cached translations an event ends if it completes (`Ended::if_completed`), as `ends` says. It looks pages
    /// up, and tests nothing of the call.
    pub fn may_end(&self, event: &Event) -> Ended
        ensures { result ≡ of_call self.now event.now.pid event.now.call }
    {
        self.stands();
        translations::may_end(&self.processes, event)
    }

    /// Carries out what was decided on this state.
    pub fn commit(&mut self, decision: Decision) -> Reply
        requires { decision ≡ decision_of self.old decision.event }
        ensures reply { result ≡ decision.reply }
        ensures state { self.new.state ≡ next self.old.state decision.event }
        ensures stands { StandsFor (image_of self.new) self.new.state }
        ensures ends { Ends (ended_by self.old decision.event) self.old self.new }
        ensures kept { completes decision.reply ≡ false → self.new ≡ self.old }
        ensures lazy { LeavesLazy self.old decision.event decision.reply self.new }
        ensures stay { FramesStay (gone_by self.old.state decision.event) (memory_of self.old) (memory_of self.new) }
        ensures loose { gives_back decision.event.call ≡ true → LooseStay (memory_of self.old) (memory_of self.new) }
        ensures writes { WritesItsOwn self.old self.new decision.event }
    {
        self.step(&decision.event)
    }

    /// Decides an event and carries it out, as `step` does, and gives the charge too: what `decide` says of the state
    /// before.
    pub fn perform(&mut self, event: &Event) -> Outcome
        ensures reply { result.reply ≡ answer self.old.state event.now }
        ensures charge { result.used_after ≡ charge_after self.old.state event.now }
        ensures state { self.new.state ≡ next self.old.state event.now }
        ensures stands { StandsFor (image_of self.new) self.new.state }
        ensures ends { Ends (ended_by self.old event.now) self.old self.new }
        ensures kept { completes result.reply ≡ false → self.new ≡ self.old }
        ensures lazy { LeavesLazy self.old event.now result.reply self.new }
        ensures stay { FramesStay (gone_by self.old.state event.now) (memory_of self.old) (memory_of self.new) }
        ensures loose { gives_back event.now.call ≡ true → LooseStay (memory_of self.old) (memory_of self.new) }
        ensures writes { WritesItsOwn self.old self.new event.now }
    {
        let reply = self.step(event);
        Outcome {
            reply,
            used_after: charge_now(&self.processes, event.pid),
        }
    }

    /// Decides an event and carries it out. It writes only frames that the event may write. Each other page keeps its
    /// bytes, each other table its words, and each other directory its words except for accessed. An event that gives
    /// frames back leaves the bytes of pages and of free frames.
    #[inline(always)]
    pub fn step(&mut self, event: &Event) -> Reply
        ensures reply { result ≡ answer self.old.state event.now }
        ensures state { self.new.state ≡ next self.old.state event.now }
        ensures stands { StandsFor (image_of self.new) self.new.state }
        ensures ends { Ends (ended_by self.old event.now) self.old self.new }
        ensures kept { completes result ≡ false → self.new ≡ self.old }
        ensures lazy { LeavesLazy self.old event.now result self.new }
        ensures stay { FramesStay (gone_by self.old.state event.now) (memory_of self.old) (memory_of self.new) }
        ensures loose { gives_back event.now.call ≡ true → LooseStay (memory_of self.old) (memory_of self.new) }
        ensures writes { WritesItsOwn self.old self.new event.now }
    {
        self.stands();
        let reply = reply_once(&mut self.processes, event);
        self.stands();
        reply
    }

    /// Carries out events in order, and writes each reply in its place. If no event completes, nothing changes, not
    /// even a byte of memory. A process that the run made, and that involves no other, gets the replies that it would
    /// get alone.
    pub fn run(&mut self, events: &[Event], replies: &mut [Reply])
        requires { length events.now ≡ length replies.old }
        ensures replies { replies.new ≡ answers self.old.state events.now }
        ensures state { self.new.state ≡ end_of self.old.state events.now }
        ensures stands { StandsFor (image_of self.new) self.new.state }
        ensures isolated { IsIsolated self.old.state events.now replies.new }
        ensures ends { EndsInOrder events.now self.old self.new }
        ensures kept { none_completes replies.new ≡ true → self.new ≡ self.old }
    {
        self.stands();
        for (i, event) in events.iter().enumerate() {
            replies[i] = self.step(event);
            self.stands();
        }
        self.stands();
    }

    /// Decides an event and carries it out, and reports which translations it ended. Each processor that cached what
    /// the walks gave has to invalidate these before anything else is done. Only the reply is for the process; what was
    /// ended is not.
    pub fn step_ending(&mut self, event: &Event) -> (Reply, Ended)
        ensures reply { result.0 ≡ answer self.old.state event.now }
        ensures ended { result.1 ≡ ended_by self.old event.now }
        ensures state { self.new.state ≡ next self.old.state event.now }
        ensures stands { StandsFor (image_of self.new) self.new.state }
        ensures ends { Ends result.1 self.old self.new }
        ensures kept { completes result.0 ≡ false → self.new ≡ self.old }
        ensures lazy { LeavesLazy self.old event.now result.0 self.new }
        ensures stay { FramesStay (gone_by self.old.state event.now) (memory_of self.old) (memory_of self.new) }
        ensures loose { gives_back event.now.call ≡ true → LooseStay (memory_of self.old) (memory_of self.new) }
        ensures writes { WritesItsOwn self.old self.new event.now }
    {
        let ended = self.may_end(event);
        let reply = self.step(event);
        let ended = ended.if_completed(&reply);
        (reply, ended)
    }

    /// Loads the bytes from an address on, which lie in one page, where it is of the user range and mapped. Whether it
    /// is so; where it isn't, nothing changes.
    pub fn load_mapped(&mut self, pid: Pid, address: Vaddr, out: &mut [u8]) -> bool
        requires within { offset_number address + length out.old ≤ 4096 }
        ensures user { result ≡ true → IsUserPage (page_number address) }
        ensures mapped { IsUserPage (page_number address) → result ≡ is_mapped self.old.state (slot_at pid address) }
        ensures live { result ≡ true → is_live self.old.state pid ≡ true }
        ensures bytes { result ≡ true → out.new ≡ map (byte_at self.old.state.spaces pid)
            (range_with_len address (length out.old)) }
        ensures state { result ≡ true → self.new.state ≡ after_loads self.old.state pid address }
        ensures stay { FramesStay none_goes (memory_of self.old) (memory_of self.new) }
        ensures none { result ≡ false → (self.new ≡ self.old) × (out.new ≡ out.old) }
    {
        in_user_range(page_of(address)) && self.processes.try_load_part(pid, address, out)
    }

    /// Stores bytes from an address on, which lie in one page, where it is of the user range and takes a store as
    /// memory stands. Whether it is so; where it isn't, nothing changes.
    pub fn store_taken(&mut self, pid: Pid, address: Vaddr, part: &[u8]) -> bool
        requires within { offset_number address + length part.now ≤ 4096 }
        ensures user { result ≡ true → IsUserPage (page_number address) }
        ensures done { IsUserPage (page_number address)
            → result ≡ takes_stores self.old.state.spaces (memory_of self.old) (slot_at pid address) }
        ensures takes { result ≡ true → takes_stores self.old.state.spaces (memory_of self.old) (slot_at pid address)
            ≡ true }
        ensures live { result ≡ true → is_live self.old.state pid ≡ true }
        ensures state { result ≡ true → self.new.state ≡ after_stores self.old.state pid address part.now }
        ensures stay { FramesStay none_goes (memory_of self.old) (memory_of self.new) }
        ensures none { result ≡ false → self.new ≡ self.old }
    {
        in_user_range(page_of(address)) && self.processes.try_store_part(pid, address, part)
    }

    /// Sets or clears accessed in the directory word that leads to a page of a live process, if the word is present.
    /// The state and all replies stay, and memory represents the state as before.
    pub fn set_walked(&mut self, pid: Pid, page: Page, walked: bool)
        requires live { is_live self.old.state pid ≡ true }
        requires user { IsUserPage page }
        ensures state { self.new.state ≡ self.old.state }
        ensures ends { Ends end.Nothing self.old self.new }
        ensures directories { self.new.directories ≡ self.old.directories }
        ensures roles { self.new.roles ≡ self.old.roles }
        ensures bytes { (directory : ℕ) → directory_of self.old.directories pid ≡ Some directory
            → self.new.bytes ≡ with_walked self.old.bytes directory page walked }
        ensures stands { StandsFor (image_of self.new) self.new.state }
        ensures walks { WalksAgree (memory_of self.new) self.new.state.spaces }
    {
        self.stands();
        self.processes.set_walked(pid, page, walked);
        self.stands();
    }

    /// Whether dirty is set at a page of the user range of a process.
    pub fn is_dirty(&self, pid: Pid, page: Page) -> bool
        requires user { IsUserPage page }
        ensures { result ≡ is_dirty_at self.now.state (at_page pid page) }
    {
        match self.page(pid, page) {
            Some(state) => state.cell.dirty,
            None => false,
        }
    }

    /// Clears accessed and dirty of a mapped page, and returns whether it was dirty. It ends the page's translation:
    /// each processor that cached it invalidates it before anything else is done. It is no event: an Info of the page
    /// shows it.
    pub fn clean(&mut self, pid: Pid, page: Page) -> bool
        requires user { IsUserPage page }
        requires mapped { is_mapped self.old.state (at_page pid page) ≡ true }
        ensures dirty { result ≡ is_dirty_at self.old.state (at_page pid page) }
        ensures state { self.new.state ≡ cleaned self.old.state (at_page pid page) }
        ensures marks { EndsMarks (end.Page pid page) self.old self.new }
        ensures directories { self.new.directories ≡ self.old.directories }
        ensures roles { self.new.roles ≡ self.old.roles }
        ensures stands { StandsFor (image_of self.new) self.new.state }
        ensures walks { WalksAgree (memory_of self.new) self.new.state.spaces }
    {
        self.stands();
        let dirty = self.is_dirty(pid, page);
        self.processes.clean(pid, page);
        self.stands();
        dirty
    }

    /// States that memory's own words say what the state says, and that the processor's walk of any directory, at any
    /// address, ends as the state says. The frames in use and the lazy pages are together no more than all live
    /// processes cost. Frame 0 holds zeros, the state is well formed, and memory has no more than 1,048,576 frames. It
    /// computes nothing.
    pub fn stands(&self)
        ensures image { StandsFor (image_of self.now) self.now.state }
        ensures walks { WalksAgree (image_of self.now).memory self.now.state.spaces }
        ensures ways { WaysAgree (memory_of self.now) }
        ensures used { LeavesRoom (memory_of self.now) (total self.now.state) }
        ensures zeros { frame_bytes self.now.bytes 0 ≡ zeros }
        ensures well_formed { IsWellFormed self.now.state }
        ensures core { IsCore self.now }
    {
        self.processes.stands();
    }

    /// The memory: 4,096 bytes for each frame.
    pub fn memory(&self) -> &Memory
        ensures { result.now ≡ self.now.bytes }
    {
        self.processes.spaces().memory()
    }

    /// How many frames the memory has.
    pub fn frames(&self) -> u32
        ensures roles { length self.now.roles ≡ result }
        ensures bytes { length self.now.bytes ≡ 4096 * result }
    {
        self.processes.spaces().frames()
    }

    /// The frame of a process's directory; None where it is not live.
    pub fn directory(&self, pid: Pid) -> Option<Frame>
        ensures { result ≡ directory_of self.now.directories pid }
    {
        self.processes.spaces().directory(pid)
    }

    /// What a frame serves.
    pub fn role(&self, frame: Frame) -> Role
        requires { frame < length self.now.roles }
        ensures { slice_get self.now.roles frame ≡ Some result }
    {
        self.processes.spaces().role(frame)
    }

    /// What each frame serves, by number.
    pub fn roles(&self) -> &[Role]
        ensures { result.now ≡ self.now.roles }
    {
        self.processes.spaces().roles()
    }

    /// The least page from there on that a process has mapped; None where it has none. `from` may be any page.
    pub fn next_page(&self, pid: Pid, from: Page) -> Option<Page>
        ensures mapped { IfSome result (λ page. is_mapped self.now.state (at_page pid page) ≡ true) }
        ensures user { IfSome result IsUserPage }
        ensures from { IfSome result (λ page. from ≤ page) }
        ensures least { IfSome result (λ page. (other : ℕ) → from ≤ other → other < page
            → is_mapped self.now.state (at_page pid other) ≡ false) }
        ensures none { IfNone result ((other : ℕ) → from ≤ other
            → is_mapped self.now.state (at_page pid other) ≡ false) }
    {
        self.processes.spaces().next_page(pid, from)
    }

    /// What stands at a page of the user range of a process; None where it is not mapped.
    pub fn page(&self, pid: Pid, page: Page) -> Option<PageState>
        requires user { IsUserPage page }
        ensures { result ≡ page_in self.now pid page }
    {
        let spaces = self.processes.spaces();
        let place = spaces.place(pid, page);
        self.processes.tells(pid, page, &place);
        let cell = spaces.cell_at(pid, page, &place)?;
        Some(PageState {
            cell,
            lazy: place.is_lazy(),
        })
    }

    /// What a page of the user range that is not mapped costs a process: 1 where it has a page in the region of 1,024
    /// pages, else 2.
    pub fn need_at(&self, pid: Pid, page: Page) -> u32
        requires user { IsUserPage page }
        ensures value { result ≡ need self.now.state.spaces pid page }
        ensures most { result ≤ 2 }
    {
        let place = self.processes.spaces().place(pid, page);
        self.processes.tells(pid, page, &place);
        place.need()
    }

    /// Returns a process's first pending offer from a page and a target on, in the order of pages, and of targets for
    /// one page. `target` may be any number: past 63 it leads to the next page. None if no such offer is pending.
    pub fn next_offer(&self, pid: Pid, page: Page, target: u32) -> Option<Offer>
        ensures pending { IfSome result (λ offer. finite_map.get self.now.state.offers
            (offer_key pid offer.page offer.target) ≡ Some offer.write) }
        ensures from { IfSome result (λ offer. offer_number page target ≤ offer_number offer.page offer.target) }
        ensures least { IfSome result (λ offer. (p t : ℕ) → offer_number page target ≤ offer_number p t
            → offer_number p t < offer_number offer.page offer.target
            → finite_map.contains_key self.now.state.offers (offer_key pid p t) ≡ false) }
        ensures none { IfNone result ((p t : ℕ) → offer_number page target ≤ offer_number p t
            → finite_map.contains_key self.now.state.offers (offer_key pid p t) ≡ false) }
    {
        self.processes.offers().next(pid, page, target)
    }

    /// What a process may use, uses and gives; None where it is not live.
    pub fn container(&self, pid: Pid) -> Option<Container>
        ensures { result ≡ container_of self.now.state pid }
    {
        self.processes.container(pid)
    }
}
