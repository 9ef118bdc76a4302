//! Shadow page tables: four-level tables for a processor in long mode, which hold for each of 64 processes some of the
//! translations that 32-bit tables give.
//!
//! They are a cache, as a TLB is: an entry is filled when the processor faults, and forgotten when an event makes the
//! translation stale. A caller may forget more at any time. The tables lie in a pool of frames that the caller gives.
//!
//! The words are those of the Intel SDM, volume 3, 4-level paging, with 4 KiB pages. Each word has its accessed flag
//! set beforehand, and its dirty flag if it is writable, so that a processor writes none of them. That takes CR0.WP.
//!
//! Other processors may walk the tables while one is filled. A table is cleared before a word leads to it, and each word
//! that a walk can reach is written by one store. Of the moments within a call no clause says anything.
#![tactic(auto)]

ghost use Rattle.std.specs.Prelude.{◌≡◌, ◌≢◌, ℕ, ◌+◌, ◌*◌, ◌%◌, ◌^◌, ◌<◌, ◌≤◌, ◌↔◌, not, ◌==◌, IfOk, IfErr, IsOk, IsSome, Some, None, length, sum, replicate, slice_set, slice_index};
ghost use Rattle.page_words.specs.FiniteMap as map;
ghost use Rattle.page_words.specs.Addresses.{IsUserPage};
ghost use Rattle.shadow_tables.specs.Kernel.{AreKernelWords};
ghost use Rattle.shadow_tables.specs.Shadow.{at_page, root_frame, root_of, opening, IsFixed};
ghost use Rattle.shadow_tables.specs.Needs.{frames_needed, shared_missing, IsWay, TablesStay};
ghost use Rattle.shadow_tables.specs.Laws.{WalksAgree, LinksAreExact, PagesAreExact, KernelHalves, UpperHalvesAreClosed, UserPagesOnly};

mod halves;
mod holdings;
mod tables;
mod walk;

pub use halves::is_kernel_half;
use page_words::{Frame, Page, Pid};
use std::alloc::{AllocError, Global};
use std::marker::Model;
use tables::Tables;
pub use tables::{Full, Translation, Way};
pub use walk::{LongEnd, long_walk};

/// The fewest frames of a pool, for each processor that walks it. An instruction accesses three places at most: its own
/// bytes, a source and a destination, each in at most two pages. The pages of a process share five tables: its root, the
/// table below it, and a directory for each of the three GiB of the user range. Each of the six pages needs one more. With
/// fewer frames, an instruction may fault for ever: each fill forgets what it needs, too.
pub const LEAST_FRAMES: u32 = 11;

/// The shadow tables of 64 processes.
#[derive(Drop)]
pub struct ShadowTables {
    tables: Tables,
}

impl Model for ShadowTables {
    ghost use Rattle.shadow_tables.specs.Shadow.{Shadow, shadow_code};

    ghost Value = { Shadow };

    ghost coded = { shadow_code };

    ghost use Rattle.shadow_tables.specs.Tables.{seen_as, IsShadow};

    ghost view = { λ s. seen_as s.tables };

    ghost invariant = { λ s. IsShadow s.tables };
}

impl ShadowTables {
    /// Shadow tables in these bytes, which lie at the physical address `pool`, in frames of 4,096 bytes. No process has
    /// a root. Frame 0 of the translations lies at the physical address `block`. Each root gets `kernel` as its upper
    /// half, as it is. `is_kernel_half` tells whether the words of a half are as they are to be.
    pub fn new(
        alloc: Global,
        bytes: Vec<u8>,
        frames: u32,
        pool: u64,
        block: u64,
        kernel: Vec<u8>,
    ) -> Result<ShadowTables, AllocError>
        requires size { length bytes.items ≡ 4096 * frames }
        requires pool { pool % 4096 ≡ 0 }
        requires pool_end { pool + 4096 * frames ≤ 2 ^ 52 }
        requires block { block % 4096 ≡ 0 }
        requires block_end { block + 2 ^ 32 ≤ 2 ^ 52 }
        requires half { length kernel.items ≡ 2048 }
        requires words { AreKernelWords kernel.items }
        ensures { IfOk result (λ shadow. shadow ≡ opening bytes.items frames pool block kernel.items) }
    {
        Ok(ShadowTables {
            tables: Tables::new(alloc, bytes, frames, pool, block, kernel)?,
        })
    }

    /// The physical address of a process's root, for CR3, if it has one.
    pub fn root(&self, pid: Pid) -> Option<u64>
        ensures { result ≡ root_of self.now pid }
    {
        self.tables.root_address(pid)
    }

    /// The translation of a page of a process, if there is one.
    pub fn translation(&self, pid: Pid, page: Page) -> Option<Translation>
        ensures { result ≡ map.get self.now.translations (at_page pid page) }
    {
        self.tables.translation(pid, page)
    }

    /// How many frames of the pool a fill of a user page of a process takes: one for each table on the way to it that is
    /// missing, at most four.
    pub fn needed(&self, pid: Pid, page: Page) -> u32
        requires { IsUserPage page }
        ensures value { result ≡ frames_needed self.now pid page }
        ensures most { result ≤ 4 }
    {
        self.way_to(pid, page).missing
    }

    /// How far the tables for a user page of a process go, for `fill_along`.
    pub fn way_to(&self, pid: Pid, page: Page) -> Way
        requires { IsUserPage page }
        ensures { IsWay self.now pid page result }
    {
        self.tables.way_to(pid, page)
    }

    /// Enters the translation of a user page of a process, in place of any other. It makes the root and the tables that
    /// are missing, and takes no other frame. Each table that there was stays where it is. Full if fewer frames are free
    /// than that needs; nothing changes then.
    pub fn fill(&mut self, pid: Pid, page: Page, frame: Frame, write: bool) -> Result<(), Full>
        requires user { IsUserPage page }
        requires frame { frame < 2 ^ 20 }
        ensures filled { IfOk result (λ _. self.new.translations
            ≡ map.insert self.old.translations (at_page pid page) (record { frame = frame; write = write })) }
        ensures root { IfOk result (λ _. IsSome (root_of self.new pid)) }
        ensures enough { IsOk result ↔ (frames_needed self.old pid page ≤ self.old.free) }
        ensures spent { IfOk result (λ _. self.old.free ≡ self.new.free + frames_needed self.old pid page) }
        ensures shared { IfOk result (λ _. shared_missing self.new pid + frames_needed self.old pid page
            ≤ shared_missing self.old pid + 1) }
        ensures less { (p at : ℕ) → IsUserPage at → frames_needed self.new p at ≤ frames_needed self.old p at }
        ensures kept { IfErr result (λ _. self.new ≡ self.old) }
        ensures tables { (p : ℕ) → TablesStay self.old p self.new }
        ensures roots { (p frame : ℕ) → root_frame self.old p ≡ Some frame → root_frame self.new p ≡ Some frame }
        ensures others { (p : ℕ) → p ≢ pid → root_frame self.new p ≡ root_frame self.old p }
        ensures taken { (p : ℕ) → p ≢ pid → slice_index self.new.taken p ≡ slice_index self.old.taken p }
        ensures fixed { IsFixed self.old self.new }
    {
        let way = self.way_to(pid, page);
        if way.missing > self.free_count() {
            return Err(Full);
        }
        self.fill_along(pid, page, way, frame, write);
        Ok(())
    }

    /// Enters a translation as `fill` does, for a page to which the tables go so far (`way_to`). As many frames are free as
    /// are needed.
    pub fn fill_along(&mut self, pid: Pid, page: Page, way: Way, frame: Frame, write: bool)
        requires user { IsUserPage page }
        requires frame { frame < 2 ^ 20 }
        requires way { IsWay self.old pid page way }
        requires room { way.missing ≤ self.old.free }
        ensures filled { self.new.translations
            ≡ map.insert self.old.translations (at_page pid page) (record { frame = frame; write = write }) }
        ensures root { IsSome (root_of self.new pid) }
        ensures spent { self.old.free ≡ self.new.free + frames_needed self.old pid page }
        ensures shared { shared_missing self.new pid + frames_needed self.old pid page
            ≤ shared_missing self.old pid + 1 }
        ensures less { (p at : ℕ) → IsUserPage at → frames_needed self.new p at ≤ frames_needed self.old p at }
        ensures tables { (p : ℕ) → TablesStay self.old p self.new }
        ensures roots { (p frame : ℕ) → root_frame self.old p ≡ Some frame → root_frame self.new p ≡ Some frame }
        ensures others { (p : ℕ) → p ≢ pid → root_frame self.new p ≡ root_frame self.old p }
        ensures taken { (p : ℕ) → p ≢ pid → slice_index self.new.taken p ≡ slice_index self.old.taken p }
        ensures fixed { IsFixed self.old self.new }
    {
        self.tables.fill_along(pid, page, way, frame, write);
    }

    /// Forgets the translation of a page of a process, if there is one.
    pub fn forget_page(&mut self, pid: Pid, page: Page)
        ensures translations { self.new.translations ≡ map.remove self.old.translations (at_page pid page) }
        ensures roots { self.new.roots ≡ self.old.roots }
        ensures taken { self.new.taken ≡ self.old.taken }
        ensures free { self.new.free ≡ self.old.free }
        ensures tables { (p : ℕ) → TablesStay self.old p self.new }
        ensures needed { (p at : ℕ) → IsUserPage at → frames_needed self.new p at ≡ frames_needed self.old p at }
        ensures fixed { IsFixed self.old self.new }
    {
        self.tables.forget_page(pid, page);
    }

    /// Forgets all translations of a process. Its root and its tables become free.
    pub fn forget_process(&mut self, pid: Pid)
        ensures translations { self.new.translations
            ≡ map.retain_keys self.old.translations (λ slot. not (slot.pid == pid)) }
        ensures roots { self.new.roots ≡ slice_set self.old.roots pid None }
        ensures taken { self.new.taken ≡ slice_set self.old.taken pid 0 }
        ensures tables { (p : ℕ) → p ≢ pid → TablesStay self.old p self.new }
        ensures needed { (p at : ℕ) → p ≢ pid → frames_needed self.new p at ≡ frames_needed self.old p at }
        ensures fixed { IsFixed self.old self.new }
    {
        self.tables.forget_process(pid);
    }

    /// Forgets all translations. All frames become free.
    pub fn forget_all(&mut self)
        ensures translations { self.new.translations ≡ map.empty }
        ensures roots { self.new.roots ≡ replicate 64 None }
        ensures free { 4096 * self.new.free ≡ length self.new.bytes }
        ensures fixed { IsFixed self.old self.new }
    {
        self.tables.forget_all();
    }

    /// The bytes of the pool, as a processor walks them.
    pub fn bytes(&self) -> &[u8]
        ensures { result.now ≡ self.now.bytes }
    {
        self.tables.bytes.as_slice()
    }

    /// The address of the pool's first byte, at which the bytes lie while the value exists. No clause says anything of
    /// it.
    pub fn begins(&self) -> *const u8 {
        self.tables.bytes.as_ptr()
    }

    /// How many frames of the pool are free.
    pub fn free_count(&self) -> u32
        ensures { result ≡ self.now.free }
    {
        self.tables.holdings.counts[64]
    }

    /// How many frames of the pool a process's tables take.
    pub fn taken_count(&self, pid: Pid) -> u32
        ensures { result ≡ slice_index self.now.taken pid }
    {
        self.tables.holdings.counts[pid.number() as usize]
    }

    /// The walk of each address of the lower half ends as the translation of its page says, which is one of the user
    /// range. Each word that it reads has the address of what it leads to and the flags of `entry_word`, and no other
    /// bit; where it ends, the word is 0. The upper half of each root is the kernel's, through which no walk reaches a page. Each frame is free or
    /// taken.
    pub fn walks(&self)
        ensures walks { WalksAgree self.now }
        ensures links { LinksAreExact self.now }
        ensures pages { PagesAreExact self.now }
        ensures kernel { KernelHalves self.now }
        ensures closed { UpperHalvesAreClosed self.now }
        ensures user { UserPagesOnly self.now }
        ensures frames { 4096 * (self.now.free + sum self.now.taken) ≡ length self.now.bytes }
    {
        let _ = &self.tables;
    }
}
