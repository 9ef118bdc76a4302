//! Pages of a process that are mapped, unmapped and protected: of each call its test and its change.

ghost use Rattle.std.specs.Prelude.{Err, IfErr, IfOk, IsErr, IsOk, None, Ok, Some, is_some, true, ℕ, ◌≡◌, ◌≢◌};
ghost use Rattle.process_table.specs.Below.{FramesStay, LooseStay, at_page, found_of, is_lazy_at, need, none_goes, of_page, place_in};
ghost use Rattle.process_table.specs.Words.{after_map, after_protect, after_unmap, done_unless, first_cause, map_answer, map_refusal, memory_of, protect_answer, protect_refusal, unmap_answer, unmap_refusal};

use crate::causes::Cause;
use crate::charges::{charge_of, charge_with, take_room};
use crate::processes::Processes;
use address_space::Place;
use page_words::{Page, Pid};

impl Processes {
    /// The place of a page that a process may map, and what it would be charged for then; or the first cause against
    /// it: NoProcess, BadPage, Mapped, Quota.
    #[tactic(auto, using(crate::proofs::Refusals::test_map))]
    #[inline(always)]
    fn place_to_map(&self, pid: Pid, page: Page) -> Result<(Place, u32), Cause>
        ensures place { IfOk result (λ found. found.0 ≡ place_in self.now.directories self.now.bytes pid page) }
        ensures charge { IfOk result (λ found. map_answer self.now.state pid page ≡ Ok found.1) }
        ensures cause { IfErr result (λ cause. map_answer self.now.state pid page ≡ Err cause) }
    {
        let Some(container) = self.container(pid) else {
            return Err(Cause::NoProcess);
        };
        let Some(place) = self.place(pid, page) else {
            return Err(Cause::BadPage);
        };
        let (_, charge) = charge_with(self, &container, pid, page, &place)?;
        Ok((place, charge))
    }

    /// What a process would be charged for once it has mapped a page, or the first cause against it:
    /// NoProcess, BadPage, Mapped, Quota.
    #[inline(never)]
    pub fn can_map(&self, pid: Pid, page: Page) -> Result<u32, Cause>
        ensures { result ≡ map_answer self.now.state pid page }
    {
        Ok(self.place_to_map(pid, page)?.1)
    }

    /// Maps a page of zeros that the process may map, with the right to write as asked. The page is lazy. The place is
    /// the page's, and the result the place that it is at then.
    #[inline(always)]
    pub fn map_at(&mut self, pid: Pid, page: Page, write: bool, place: &Place) -> Place
        requires may { IsOk (map_answer self.old.state pid page) }
        requires place { place.now ≡ place_in self.old.directories self.old.bytes pid page }
        ensures state { self.new.state ≡ after_map self.old.state pid page write }
        ensures stay { FramesStay none_goes (memory_of self.old) (memory_of self.new) }
        ensures lazy { is_lazy_at (memory_of self.new) (at_page pid page) ≡ true }
        ensures place { result ≡ place_in self.new.directories self.new.bytes pid page }
        ensures beside { (p other : ℕ) → at_page p other ≢ at_page pid page
            → is_some (found_of (place_in self.old.directories self.old.bytes p other)) ≡ true
            → place_in self.new.directories self.new.bytes p other
            ≡ place_in self.old.directories self.old.bytes p other }
    {
        self.tells(pid, page, place);
        take_room(&mut self.quotas, pid, place.need());
        self.spaces.map_at(pid, page, write, place)
    }

    /// The first cause against a call of a process, where this is the cause against that of a live one.
    pub fn first_cause(&self, pid: Pid, cause: Cause) -> Cause
        ensures { Some result ≡ first_cause self.now.state pid (Some cause) }
    {
        if self.live(pid) {
            cause
        } else {
            Cause::NoProcess
        }
    }

    /// Maps a page of zeros, where nothing is against it, with the right to write as asked; else the first cause
    /// against it, as `can_map` gives it, and nothing changes. The page is looked up once.
    #[inline(never)]
    pub fn try_map(&mut self, pid: Pid, page: Page, write: bool) -> Result<(), Cause>
        ensures result { result ≡ done_unless (first_cause self.old.state pid (map_refusal self.old.state pid page)) }
        ensures state { IsOk result → self.new.state ≡ after_map self.old.state pid page write }
        ensures stay { FramesStay none_goes (memory_of self.old) (memory_of self.new) }
        ensures lazy { IsOk result → is_lazy_at (memory_of self.new) (at_page pid page) ≡ true }
        ensures kept { IsErr result → self.new ≡ self.old }
    {
        let (place, _) = self.place_to_map(pid, page)?;
        self.map_at(pid, page, write, &place);
        Ok(())
    }

    /// The place of a page that a process may unmap, or the first cause against it: NoProcess, BadPage, NotMapped.
    #[inline(always)]
    fn place_to_unmap(&self, pid: Pid, page: Page) -> Result<Place, Cause>
        ensures place { IfOk result (λ place. place ≡ place_in self.now.directories self.now.bytes pid page) }
        ensures done { IsOk result → first_cause self.now.state pid (unmap_refusal self.now.state pid page) ≡ None }
        ensures cause { IfErr result (λ cause. first_cause self.now.state pid (unmap_refusal self.now.state pid page)
            ≡ Some cause) }
    {
        let Some(place) = self.place(pid, page) else {
            return Err(self.first_cause(pid, Cause::BadPage));
        };
        self.tells(pid, page, &place);
        if place.is_mapped() {
            Ok(place)
        } else {
            Err(self.first_cause(pid, Cause::NotMapped))
        }
    }

    /// What a process would be charged for once a page is unmapped, or the first cause against it:
    /// NoProcess, BadPage, NotMapped.
    #[inline(never)]
    pub fn can_unmap(&self, pid: Pid, page: Page) -> Result<u32, Cause>
        ensures { result ≡ unmap_answer self.now.state pid page }
    {
        let place = self.place_to_unmap(pid, page)?;
        let relief = self.spaces.relief_at(pid, page, &place);
        Ok(charge_of(self, pid) - relief)
    }

    /// Takes a page away, where nothing is against it, and the offers of it go; else the first cause against it, as
    /// `can_unmap` gives it, and nothing changes. The page is looked up once.
    #[inline(never)]
    pub fn try_unmap(&mut self, pid: Pid, page: Page) -> Result<(), Cause>
        ensures result { result ≡ done_unless (first_cause self.old.state pid (unmap_refusal self.old.state pid page)) }
        ensures state { IsOk result → self.new.state ≡ after_unmap self.old.state pid page }
        ensures stay { FramesStay (of_page pid page) (memory_of self.old) (memory_of self.new) }
        ensures loose { LooseStay (memory_of self.old) (memory_of self.new) }
        ensures kept { IsErr result → self.new ≡ self.old }
    {
        let place = self.place_to_unmap(pid, page)?;
        let relief = self.spaces.relief_at(pid, page, &place);
        self.spaces.unmap_at(pid, page, &place);
        self.quotas.refund(pid, relief);
        self.offers.drop_page(pid, page);
        Ok(())
    }

    /// The place of a page whose right to write a process may set so, or the first cause against it: NoProcess,
    /// BadPage, NotMapped, Rights.
    #[inline(always)]
    fn place_to_protect(&self, pid: Pid, page: Page, write: bool) -> Result<Place, Cause>
        ensures place { IfOk result (λ place. place ≡ place_in self.now.directories self.now.bytes pid page) }
        ensures done { IsOk result → first_cause self.now.state pid (protect_refusal self.now.state pid page write)
            ≡ None }
        ensures cause { IfErr result (λ cause. first_cause self.now.state pid
            (protect_refusal self.now.state pid page write) ≡ Some cause) }
    {
        let Some(place) = self.place(pid, page) else {
            return Err(self.first_cause(pid, Cause::BadPage));
        };
        self.tells(pid, page, &place);
        let Some(found) = place.found() else {
            return Err(self.first_cause(pid, Cause::NotMapped));
        };
        if write && !found.entry.may {
            return Err(Cause::Rights);
        }
        Ok(place)
    }

    /// Returns the charge of a process once a page's right is set, or the first cause against it: NoProcess, BadPage,
    /// NotMapped, Rights. Rights comes if the call requests the right to write, and the process may not have it.
    #[inline(never)]
    pub fn can_protect(&self, pid: Pid, page: Page, write: bool) -> Result<u32, Cause>
        ensures { result ≡ protect_answer self.now.state pid page write }
    {
        self.place_to_protect(pid, page, write)?;
        Ok(charge_of(self, pid))
    }

    /// Sets or clears the right to write to a page, where nothing is against it; else the first cause against it, as
    /// `can_protect` gives it, and nothing changes. The page is looked up once.
    #[inline(never)]
    pub fn try_protect(&mut self, pid: Pid, page: Page, write: bool) -> Result<(), Cause>
        ensures result { result ≡ done_unless (first_cause self.old.state pid
            (protect_refusal self.old.state pid page write)) }
        ensures state { IsOk result → self.new.state ≡ after_protect self.old.state pid page write }
        ensures stay { FramesStay none_goes (memory_of self.old) (memory_of self.new) }
        ensures kept { IsErr result → self.new ≡ self.old }
    {
        let place = self.place_to_protect(pid, page, write)?;
        self.spaces.protect_at(pid, page, write, &place);
        Ok(())
    }
}
