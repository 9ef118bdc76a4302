//! The tables of all processes, as words in the frames of the pool.
ghost use Rattle.std.specs.Prelude.{◌≡◌, ◌≢◌, ℕ, suc, ◌+◌, ◌*◌, ◌%◌, ◌^◌, ◌<◌, ◌≤◌, ◌↔◌, not, ◌==◌, IfOk, IfErr, IsOk, IfSome, IfNone, IsTrue, IsSome, IsNone, true, false, Some, None, length, replicate, take, slice_set, slice_index_or};
ghost use Rattle.std.specs.List.{splice};
ghost use Rattle.std.specs.Option.{option_map};
ghost use Rattle.page_words.specs.FiniteMap as map;
ghost use Rattle.page_words.specs.Addresses.{IsUserPage};
ghost use Rattle.shadow_tables.specs.LongWords.{entry_word, with_long, long_place};
ghost use Rattle.shadow_tables.specs.Kernel.{AreKernelWords};
ghost use Rattle.shadow_tables.specs.Shadow.{at_page, frame_address, opening, word_for, IsFixed};
ghost use Rattle.shadow_tables.specs.Holdings.{count_of, frame_count, AreHeld, IsHeld, opening_places};
ghost use Rattle.shadow_tables.specs.Tables.{IsShadow, AreBlocks, frames_of, word_of, named_by, index_at, way, missing_in, shared_in, GoesSo, WaysStay, translation_in, translations_in, seen_as, SameButBytes, SameBlocks, SameOthers, IsFresh, IsStep, IsChanged};

use crate::holdings::Holdings;
use crate::walk::long_at;
use byteorder::{ByteOrder, LittleEndian};
use page_words::{Frame, Page, Pid, in_user_range};
use std::alloc::{AllocError, Global};

/// What the shadow has for a page: the frame, and whether it lets writes through.
#[derive(Clone, Copy, Debug, PartialEq, Eq)]
pub struct Translation {
    /// The frame, counted from the block's first.
    pub frame: Frame,
    /// Whether a processor lets writes through.
    pub write: bool,
}

/// How far the tables for a page of a process go.
#[derive(Clone, Copy, Debug, PartialEq, Eq)]
pub struct Way {
    /// How many of the four tables are missing.
    pub missing: u32,
    /// The page's table, a frame of the pool, if none is missing.
    pub table: u32,
}

/// Fewer frames of the pool are free than are needed.
#[derive(Clone, Copy, Debug, PartialEq, Eq)]
pub struct Full;

/// The tables of all processes.
#[derive(Drop)]
pub(crate) struct Tables {
    /// The bytes of the pool.
    pub bytes: Vec<u8>,
    /// Whose each frame of the pool is.
    pub holdings: Holdings,
    /// The root of each process, where it has one: the first frame that it took.
    pub roots: [Option<u32>; 64],
    /// The physical address of the pool.
    pub pool: u64,
    /// The physical address of the frames that are translated.
    pub block: u64,
    /// The upper half of each root.
    pub kernel: Vec<u8>,
}

/// A present word of user mode, accessed, and dirty if it is writable.
fn entry_word(target: u64, write: bool) -> u64
    requires { target < 2 ^ 52 }
    ensures { result ≡ entry_word target write }
{
    target + if write { 0x67 } else { 0x25 }
}

/// The index of a page's word in the table that this many tables lead to.
fn index_at(depth: u32, page: Page) -> u32
    requires { depth ≤ 3 }
    ensures value { result ≡ index_at depth page }
    ensures bound { result < 512 }
{
    (page.0 >> (27 - 9 * depth)) % 512
}

/// So many of the four tables for a page are missing, at least one.
fn ends_above(missing: u32) -> Way
    ensures { result ≡ record { missing = missing; table = 0 } }
{
    Way { missing, table: 0 }
}

/// Makes the 4,096 bytes from a place on zero.
fn clear(bytes: &mut [u8], place: usize)
    requires { place + 4096 ≤ length bytes.old }
    ensures { bytes.new ≡ splice bytes.old place (place + 4096) (replicate 4096 0) }
{
    bytes[place..place + 4096].fill(0);
}

/// Writes the upper half of a root from a place on.
fn put(bytes: &mut [u8], place: usize, half: &[u8])
    requires half { length half.now ≡ 2048 }
    requires inside { place + 2048 ≤ length bytes.old }
    ensures { bytes.new ≡ splice bytes.old place (place + 2048) half.now }
{
    bytes[place..place + 2048].copy_from_slice(half);
}

/// The tables of processes without a root, over frames that are all free.
fn opened(bytes: Vec<u8>, holdings: Holdings, pool: u64, block: u64, kernel: Vec<u8>) -> Tables
    requires held { AreHeld opening_places holdings }
    requires counts { holdings.counts ≡ slice_set (replicate 65 0) 64 (frame_count holdings) }
    requires size { length bytes.items ≡ 4096 * frame_count holdings }
    requires pool { pool % 4096 ≡ 0 }
    requires pool_end { pool + 4096 * frame_count holdings ≤ 2 ^ 52 }
    requires block { block % 4096 ≡ 0 }
    requires block_end { block + 2 ^ 32 ≤ 2 ^ 52 }
    requires half { length kernel.items ≡ 2048 }
    requires words { AreKernelWords kernel.items }
    ensures stands { IsShadow result }
    ensures seen { seen_as result ≡ opening bytes.items (frame_count holdings) pool block kernel.items }
{
    Tables {
        bytes,
        holdings,
        roots: [None; 64],
        pool,
        block,
        kernel,
    }
}

impl Tables {
    /// No process has a root.
    pub fn new(
        alloc: Global,
        bytes: Vec<u8>,
        frames: u32,
        pool: u64,
        block: u64,
        kernel: Vec<u8>,
    ) -> Result<Tables, AllocError>
        requires size { length bytes.items ≡ 4096 * frames }
        requires pool { pool % 4096 ≡ 0 }
        requires pool_end { pool + 4096 * frames ≤ 2 ^ 52 }
        requires block { block % 4096 ≡ 0 }
        requires block_end { block + 2 ^ 32 ≤ 2 ^ 52 }
        requires half { length kernel.items ≡ 2048 }
        requires words { AreKernelWords kernel.items }
        ensures stands { IfOk result (λ new. IsShadow new) }
        ensures seen { IfOk result (λ new. seen_as new ≡ opening bytes.items frames pool block kernel.items) }
    {
        let holdings = Holdings::new(alloc, frames)?;
        Ok(opened(bytes, holdings, pool, block, kernel))
    }

    /// The physical address of a process's root.
    pub fn root_address(&self, pid: Pid) -> Option<u64>
        requires { IsShadow self.now }
        ensures { result ≡ option_map (frame_address self.now.pool) (way self.now pid 0 0) }
    {
        let frame = self.root(pid)?;
        Some(self.address(frame))
    }

    /// The physical address of a frame of the pool.
    fn address(&self, frame: u32) -> u64
        requires blocks { AreBlocks self.now }
        requires inside { frame < frames_of self.now }
        ensures value { result ≡ frame_address self.now.pool frame }
        ensures bound { result < 2 ^ 52 }
    {
        self.pool + 4096 * frame as u64
    }

    /// The root of a process, where it has one.
    fn root(&self, pid: Pid) -> Option<u32>
        requires stands { IsShadow self.now }
        ensures root { result ≡ slice_index_or self.now.roots pid None }
        ensures inside { IfSome result (λ frame. frame < frames_of self.now) }
        ensures process { pid < 64 }
    {
        self.roots[pid.number() as usize]
    }

    /// The word of an index of a frame.
    fn word(&self, frame: u32, index: u32) -> u64
        requires blocks { AreBlocks self.now }
        requires inside { frame < frames_of self.now }
        requires index { index < 512 }
        ensures { result ≡ word_of self.now frame index }
    {
        long_at(&self.bytes, frame as usize * 4096 + index as usize * 8)
    }

    /// Writes the word of an index of a frame, by one store of eight bytes. A processor that walks the tables at the same
    /// time finds the word before or the word after. That it is one store is no clause's: a test watches it.
    #[tactic(auto, unfolding(crate::specs::LongWords::with_long))]
    fn set_word(&mut self, frame: u32, index: u32, word: u64)
        requires blocks { AreBlocks self.old }
        requires inside { frame < frames_of self.old }
        requires index { index < 512 }
        ensures bytes { self.new.bytes.items ≡ with_long self.old.bytes.items (long_place frame index) word }
        ensures others { SameButBytes self.old self.new }
    {
        let place = frame as usize * 4096 + index as usize * 8;
        LittleEndian::write_u64(&mut self.bytes[place..place + 8], word);
    }

    /// The frame of the pool that a word names, where it names one.
    fn named(&self, word: u64) -> Option<u32>
        requires { frames_of self.now < 2 ^ 32 }
        ensures value { result ≡ named_by self.now word }
        ensures inside { IfSome result (λ frame. frame < frames_of self.now) }
    {
        let number = word / 4096;
        let first = self.pool / 4096;
        if word % 2 == 1 && first <= number && number - first < self.holdings.next.len() as u64 {
            Some((number - first) as u32)
        } else {
            None
        }
    }

    /// The table for a page, if there is one.
    fn table(&self, pid: Pid, page: Page) -> Option<u32>
        requires stands { IsShadow self.now }
        ensures way { result ≡ way self.now pid page 3 }
        ensures inside { IfSome result (λ frame. frame < frames_of self.now) }
        ensures process { pid < 64 }
    {
        let root = self.root(pid)?;
        let pointers = self.named(self.word(root, index_at(0, page)))?;
        let directory = self.named(self.word(pointers, index_at(1, page)))?;
        self.named(self.word(directory, index_at(2, page)))
    }

    /// The translation of a page, if there is one.
    pub fn translation(&self, pid: Pid, page: Page) -> Option<Translation>
        requires stands { IsShadow self.now }
        ensures { result ≡ map.get (translations_in self.now) (at_page pid page) }
    {
        if !in_user_range(page) {
            return None;
        }
        let table = self.table(pid, page)?;
        self.translation_in(self.word(table, index_at(3, page)))
    }

    /// The translation in a word.
    fn translation_in(&self, word: u64) -> Option<Translation>
        ensures { result ≡ translation_in self.now.block word }
    {
        if word % 2 == 1 {
            let frame = (word / 4096).saturating_sub(self.block / 4096) % (1 << 20);
            Some(Translation {
                frame: Frame(frame as u32),
                write: (word >> 1) % 2 == 1,
            })
        } else {
            None
        }
    }

    /// The word of a translation, or of none.
    fn word_for(&self, entry: Option<Translation>) -> u64
        requires blocks { AreBlocks self.now }
        requires frame { IfSome entry (λ entry. entry.frame < 2 ^ 20) }
        ensures { result ≡ word_for self.now.block entry }
    {
        match entry {
            Some(entry) => entry_word(self.block + 4096 * entry.frame.0 as u64, entry.write),
            None => 0,
        }
    }

    /// Writes the translation of a page, or none, into the table for the page.
    fn change(&mut self, pid: Pid, page: Page, table: u32, entry: Option<Translation>)
        requires stands { IsShadow self.old }
        requires user { IsUserPage page }
        requires way { way self.old pid page 3 ≡ Some table }
        requires frame { IfSome entry (λ entry. entry.frame < 2 ^ 20) }
        ensures { IsChanged self.old pid page entry self.new }
    {
        let word = self.word_for(entry);
        self.set_word(table, index_at(3, page), word);
    }

    /// Takes a free frame for a process, if there is one, and makes it zero.
    fn fresh(&mut self, pid: Pid) -> Option<u32>
        requires blocks { AreBlocks self.old }
        requires held { IsHeld self.old.holdings }
        ensures fresh { IfSome result (λ frame. IsFresh self.old pid frame self.new) }
        ensures kept { IsNone result → self.new ≡ self.old }
        ensures none { IsNone result → count_of self.old.holdings 64 ≡ 0 }
        ensures process { pid < 64 }
    {
        let frame = self.holdings.take(pid.number() as usize)?;
        clear(&mut self.bytes, 4096 * frame as usize);
        Some(frame)
    }

    /// The root of a process, which is made where it is missing.
    fn root_for(&mut self, pid: Pid) -> Option<u32>
        requires stands { IsShadow self.old }
        ensures step { (page : ℕ) → IsUserPage page → IsStep self.old pid page 0 result self.new }
    {
        if let Some(frame) = self.root(pid) {
            return Some(frame);
        }
        let frame = self.fresh(pid)?;
        put(&mut self.bytes, 4096 * frame as usize + 2048, &self.kernel);
        self.roots[pid.number() as usize] = Some(frame);
        Some(frame)
    }

    /// The table for a page that a table leads to, which is made where it is missing.
    fn table_below(&mut self, pid: Pid, page: Page, depth: u32, frame: u32) -> Option<u32>
        requires stands { IsShadow self.old }
        requires user { IsUserPage page }
        requires depth { depth < 3 }
        requires way { way self.old pid page depth ≡ Some frame }
        ensures step { IsStep self.old pid page (suc depth) result self.new }
    {
        let index = index_at(depth, page);
        if let Some(below) = self.named(self.word(frame, index)) {
            return Some(below);
        }
        let below = self.fresh(pid)?;
        let word = entry_word(self.address(below), true);
        self.set_word(frame, index, word);
        Some(below)
    }

    /// The table for a page, which is made where it is missing, with all above it.
    fn table_for(&mut self, pid: Pid, page: Page) -> Option<u32>
        requires stands { IsShadow self.old }
        requires user { IsUserPage page }
        ensures { IsStep self.old pid page 3 result self.new }
    {
        let root = self.root_for(pid)?;
        let pointers = self.table_below(pid, page, 0, root)?;
        let directory = self.table_below(pid, page, 1, pointers)?;
        self.table_below(pid, page, 2, directory)
    }

    /// How far the tables for a page go.
    pub fn way_to(&self, pid: Pid, page: Page) -> Way
        requires stands { IsShadow self.now }
        requires user { IsUserPage page }
        ensures { GoesSo self.now pid page result }
    {
        let Some(root) = self.root(pid) else {
            return ends_above(4);
        };
        let Some(pointers) = self.named(self.word(root, index_at(0, page))) else {
            return ends_above(3);
        };
        let Some(directory) = self.named(self.word(pointers, index_at(1, page))) else {
            return ends_above(2);
        };
        match self.named(self.word(directory, index_at(2, page))) {
            Some(table) => Way { missing: 0, table },
            None => ends_above(1),
        }
    }

    /// The table for a page, which is made if it is missing, with all above it. There is a frame for each.
    #[inline(never)]
    fn table_made(&mut self, pid: Pid, page: Page) -> u32
        requires stands { IsShadow self.old }
        requires user { IsUserPage page }
        requires room { missing_in self.old pid page ≤ count_of self.old.holdings 64 }
        ensures { IsStep self.old pid page 3 (Some result) self.new }
    {
        let Some(table) = self.table_for(pid, page) else {
            unreachable!()
        };
        table
    }

    /// The table for a page to which the tables go so far. It is made if it is missing.
    fn table_along(&mut self, pid: Pid, page: Page, goes: Way) -> u32
        requires stands { IsShadow self.old }
        requires user { IsUserPage page }
        requires goes { GoesSo self.old pid page goes }
        requires room { goes.missing ≤ count_of self.old.holdings 64 }
        ensures { IsStep self.old pid page 3 (Some result) self.new }
    {
        if goes.missing == 0 {
            return goes.table;
        }
        self.table_made(pid, page)
    }

    /// Enters the translation of a page, to which the tables go so far. There is a frame for each that is missing.
    pub fn fill_along(&mut self, pid: Pid, page: Page, goes: Way, frame: Frame, write: bool)
        requires stands { IsShadow self.old }
        requires user { IsUserPage page }
        requires frame { frame < 2 ^ 20 }
        requires goes { GoesSo self.old pid page goes }
        requires room { goes.missing ≤ count_of self.old.holdings 64 }
        ensures filled { translations_in self.new ≡ map.insert (translations_in self.old)
            (at_page pid page) (record { frame = frame; write = write }) }
        ensures spent { count_of self.old.holdings 64
            ≡ count_of self.new.holdings 64 + missing_in self.old pid page }
        ensures shared { shared_in self.new pid + missing_in self.old pid page ≤ shared_in self.old pid + 1 }
        ensures ways { WaysStay self.old self.new }
        ensures root { IsSome (way self.new pid 0 0) }
        ensures roots { (p frame : ℕ) → way self.old p 0 0 ≡ Some frame → way self.new p 0 0 ≡ Some frame }
        ensures others { SameOthers self.old self.new pid }
        ensures blocks { SameBlocks self.old self.new }
        ensures stands { IsShadow self.new }
    {
        let table = self.table_along(pid, page, goes);
        self.change(pid, page, table, Some(Translation { frame, write }));
    }

    /// Forgets the translation of a page.
    pub fn forget_page(&mut self, pid: Pid, page: Page)
        requires stands { IsShadow self.old }
        ensures translations { translations_in self.new ≡ map.remove (translations_in self.old) (at_page pid page) }
        ensures same { SameButBytes self.old self.new }
        ensures ways { WaysStay self.old self.new }
        ensures missing { (p at : ℕ) → IsUserPage at → missing_in self.new p at ≡ missing_in self.old p at }
        ensures stands { IsShadow self.new }
    {
        if !in_user_range(page) {
            return;
        }
        if let Some(table) = self.table(pid, page) {
            self.change(pid, page, table, None);
        }
    }

    /// Forgets all translations, and makes all frames free.
    pub fn forget_all(&mut self)
        requires stands { IsShadow self.old }
        ensures translations { translations_in self.new ≡ map.empty }
        ensures roots { self.new.roots ≡ replicate 64 None }
        ensures free { 4096 * count_of self.new.holdings 64 ≡ length self.new.bytes.items }
        ensures blocks { SameBlocks self.old self.new }
        ensures stands { IsShadow self.new }
    {
        for number in 0..64u8 {
            self.forget_numbered(number);
        }
    }

    /// Forgets all translations of the process of a number below 64.
    fn forget_numbered(&mut self, number: u8)
        requires stands { IsShadow self.old }
        requires process { number < 64 }
        ensures roots { self.new.roots ≡ slice_set self.old.roots number None }
        ensures blocks { SameBlocks self.old self.new }
        ensures stands { IsShadow self.new }
    {
        let pid = Pid::new(number).unwrap();
        self.forget_process(pid);
    }

    /// Forgets all translations of a process, and makes its frames free.
    pub fn forget_process(&mut self, pid: Pid)
        requires stands { IsShadow self.old }
        ensures translations { translations_in self.new
            ≡ map.retain_keys (translations_in self.old) (λ slot. not (slot.pid == pid)) }
        ensures roots { self.new.roots ≡ slice_set self.old.roots pid None }
        ensures taken { take 64 self.new.holdings.counts ≡ slice_set (take 64 self.old.holdings.counts) pid 0 }
        ensures bytes { self.new.bytes ≡ self.old.bytes }
        ensures ways { (p at depth : ℕ) → p ≢ pid → way self.new p at depth ≡ way self.old p at depth }
        ensures missing { (p at : ℕ) → p ≢ pid → missing_in self.new p at ≡ missing_in self.old p at }
        ensures blocks { SameBlocks self.old self.new }
        ensures stands { IsShadow self.new }
    {
        let process = pid.number() as usize;
        if let Some(root) = self.roots[process] {
            self.holdings.release(process, root);
            self.roots[process] = None;
        }
    }
}
