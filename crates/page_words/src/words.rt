//! The words of page directories and page tables.
ghost use Rattle.std.specs.Prelude.{◌≡◌, ◌<◌, ◌^◌};
ghost use Rattle.page_words.specs.Words.{flag, with_flag, frame_number, word_with_frame, is_present, is_writable, is_user, is_accessed, is_dirty, has_may, is_lazy, is_granted};
ghost use Rattle.page_words.specs.Words.{DirWordsByFields, TableWordsByFields, FlagsStandAlone, FrameStandsAlone};

use super::addresses::Frame;
use std::marker::{Model, PhantomData};

const PRESENT: u32 = 0;

const WRITABLE: u32 = 1;

const USER: u32 = 2;

const ACCESSED: u32 = 5;

const DIRTY: u32 = 6;

const MAY: u32 = 9;

const LAZY: u32 = 10;

const GRANTED: u32 = 11;

/// Whether a bit is 1.
fn bit(word: u32, place: u32) -> bool
    requires { place < 32 }
    ensures { result ≡ flag word place }
{
    (word >> place) & 1 == 1
}

/// The word with one bit as given.
fn set_bit(word: u32, place: u32, value: bool) -> u32
    requires { place < 32 }
    ensures { result ≡ with_flag word place value }
{
    if value {
        word | (1 << place)
    } else {
        word & !(1 << place)
    }
}

/// The frame that a word names.
fn frame_in(word: u32) -> Frame
    ensures value { result ≡ frame_number word }
    ensures bound { result < 2 ^ 20 }
{
    Frame(word >> 12)
}

/// The word with another frame.
fn naming(word: u32, frame: Frame) -> u32
    requires { frame < 2 ^ 20 }
    ensures { result ≡ word_with_frame word frame }
{
    (frame.0 << 12) | (word & 0xfff)
}

/// A kind of words: of page directories, or of page tables.
#[derive(Clone, Copy, Debug, PartialEq, Eq)]
pub struct OfDirectory;

/// The kind of the words of page tables.
#[derive(Clone, Copy, Debug, PartialEq, Eq)]
pub struct OfTable;

/// A word of a page directory, which leads to the table of 1,024 pages, or of a page table, which leads to one page.
///
/// Source of the bits: Intel SDM, volume 3, 32-bit paging, formats of a page-directory entry that references a page
/// table, and of a page-table entry that maps a 4-KByte page. Of the latter the processor ignores bits 11 to 9.
#[derive(Clone, Copy, Debug, PartialEq, Eq)]
pub struct PagingWord<K> {
    word: u32,
    kind: PhantomData<K>,
}

/// A word of a page directory.
pub type DirWord = PagingWord<OfDirectory>;

/// A word of a page table.
pub type TableWord = PagingWord<OfTable>;

impl<K> Model for PagingWord<K> {
    ghost use Rattle.std.specs.Prelude.{ℕ};

    ghost Value = { ℕ };

    ghost view = { λ w. w.word };

    ghost inverse = { λ n. record { word = n; kind = record {} } };
}

impl<K> PagingWord<K> {
    /// The word with these 32 bits; every number is one.
    pub fn read(word: u32) -> PagingWord<K>
        ensures { result ≡ word }
    {
        PagingWord {
            word,
            kind: PhantomData,
        }
    }

    /// The 32 bits.
    pub fn word(self) -> u32
        ensures { result ≡ self }
    {
        self.word
    }

    /// The frame that it names (bits 31 to 12).
    pub fn frame(self) -> Frame
        ensures value { result ≡ frame_number self }
        ensures bound { result < 2 ^ 20 }
    {
        frame_in(self.word)
    }

    /// Names another frame, below 2 to the 20; all flags stay.
    pub fn set_frame(&mut self, frame: Frame)
        requires { frame < 2 ^ 20 }
        ensures { self.new ≡ word_with_frame self.old frame }
    {
        self.word = naming(self.word, frame);
    }

    /// Whether it is present (bit 0, P): else the processor reads nothing else of it.
    pub fn present(self) -> bool
        ensures { result ≡ is_present self }
    {
        bit(self.word, PRESENT)
    }

    /// Whether it lets accesses write (bit 1, R/W).
    pub fn writable(self) -> bool
        ensures { result ≡ is_writable self }
    {
        bit(self.word, WRITABLE)
    }

    /// Whether it lets accesses in user mode through (bit 2, U/S).
    pub fn user(self) -> bool
        ensures { result ≡ is_user self }
    {
        bit(self.word, USER)
    }

    /// Whether an access has gone through it (bit 5, A).
    pub fn accessed(self) -> bool
        ensures { result ≡ is_accessed self }
    {
        bit(self.word, ACCESSED)
    }

    /// Sets or clears bit 0, and no other bit.
    pub fn set_present(&mut self, value: bool)
        ensures { self.new ≡ with_flag self.old 0 value }
    {
        self.word = set_bit(self.word, PRESENT, value);
    }

    /// Sets or clears bit 1, and no other bit.
    pub fn set_writable(&mut self, value: bool)
        ensures { self.new ≡ with_flag self.old 1 value }
    {
        self.word = set_bit(self.word, WRITABLE, value);
    }

    /// Sets or clears bit 2, and no other bit.
    pub fn set_user(&mut self, value: bool)
        ensures { self.new ≡ with_flag self.old 2 value }
    {
        self.word = set_bit(self.word, USER, value);
    }

    /// Sets or clears bit 5, and no other bit.
    pub fn set_accessed(&mut self, value: bool)
        ensures { self.new ≡ with_flag self.old 5 value }
    {
        self.word = set_bit(self.word, ACCESSED, value);
    }
}

impl PagingWord<OfTable> {
    /// Whether a write has gone to its page (bit 6, D).
    pub fn dirty(self) -> bool
        ensures { result ≡ is_dirty self }
    {
        bit(self.word, DIRTY)
    }

    /// Whether the process may make the page writable (bit 9, which the processor ignores; this
    /// kernel's own).
    pub fn may(self) -> bool
        ensures { result ≡ has_may self }
    {
        bit(self.word, MAY)
    }

    /// Whether the page has no frame of its own yet and reads as zeros (bit 10, which the processor
    /// ignores; this kernel's own).
    pub fn lazy(self) -> bool
        ensures { result ≡ is_lazy self }
    {
        bit(self.word, LAZY)
    }

    /// Whether the process may write to the page now (bit 11, which the processor ignores; this
    /// kernel's own).
    pub fn granted(self) -> bool
        ensures { result ≡ is_granted self }
    {
        bit(self.word, GRANTED)
    }

    /// Sets or clears bit 6, and no other bit.
    pub fn set_dirty(&mut self, value: bool)
        ensures { self.new ≡ with_flag self.old 6 value }
    {
        self.word = set_bit(self.word, DIRTY, value);
    }

    /// Sets or clears bit 9, and no other bit.
    pub fn set_may(&mut self, value: bool)
        ensures { self.new ≡ with_flag self.old 9 value }
    {
        self.word = set_bit(self.word, MAY, value);
    }

    /// Sets or clears bit 10, and no other bit.
    pub fn set_lazy(&mut self, value: bool)
        ensures { self.new ≡ with_flag self.old 10 value }
    {
        self.word = set_bit(self.word, LAZY, value);
    }

    /// Sets or clears bit 11, and no other bit.
    pub fn set_granted(&mut self, value: bool)
        ensures { self.new ≡ with_flag self.old 11 value }
    {
        self.word = set_bit(self.word, GRANTED, value);
    }
}

/// States that fields distinguish the words that the kernel writes. It computes nothing.
pub fn kernel_words_by_fields()
    ensures directories { DirWordsByFields }
    ensures tables { TableWordsByFields }
{}

/// Each field is set by itself: a flag or the frame that was set reads back, and all others stay. It
/// computes nothing.
pub fn fields_stand_alone()
    ensures flags { FlagsStandAlone }
    ensures frame { FrameStandsAlone }
{}
