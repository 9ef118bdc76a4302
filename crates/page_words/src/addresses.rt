//! Addresses, pages, frames, sizes and processes, and the parts of an address.
ghost use Rattle.std.specs.Prelude.{◌≡◌, ◌<◌, ◌≤◌, ◌^◌, ◌↔◌, IsTrue, IsSome, IfSome};
ghost use Rattle.page_words.specs.Addresses.{page_number, slot_number, index_number, offset_number, byte_count, start_number, second_page, IsUserPage};

use std::marker::Model;

/// A 32-bit linear address, in bytes.
#[derive(Clone, Copy, Debug, PartialEq, Eq, PartialOrd, Ord, Hash)]
pub struct Vaddr(pub u32);

impl Model for Vaddr {
    ghost use Rattle.std.specs.Prelude.{ℕ};

    ghost Value = { ℕ };

    ghost view = { λ a. a.0 };

    ghost inverse = { λ n. record { 0 = n } };
}

/// The number of a page of linear addresses: an address divided by 4,096.
#[derive(Clone, Copy, Debug, PartialEq, Eq, PartialOrd, Ord, Hash)]
pub struct Page(pub u32);

impl Model for Page {
    ghost use Rattle.std.specs.Prelude.{ℕ};

    ghost Value = { ℕ };

    ghost view = { λ p. p.0 };

    ghost inverse = { λ n. record { 0 = n } };
}

/// The number of a frame of physical memory: a physical address divided by 4,096.
#[derive(Clone, Copy, Debug, PartialEq, Eq, PartialOrd, Ord, Hash)]
pub struct Frame(pub u32);

/// The fewest frames of a machine's memory.
pub const MIN_FRAMES: u32 = 16;

/// The most frames of a machine's memory.
pub const MAX_FRAMES: u32 = 4096;

/// The most frames of a wide machine's memory: all that a page word can name, 4 GiB.
pub const WIDE_FRAMES: u32 = 1048576;

impl Model for Frame {
    ghost use Rattle.std.specs.Prelude.{ℕ};

    ghost Value = { ℕ };

    ghost view = { λ f. f.0 };

    ghost inverse = { λ n. record { 0 = n } };
}

/// How many bytes an access covers.
#[derive(Clone, Copy, Debug, PartialEq, Eq, PartialOrd, Ord, Hash)]
pub enum Size {
    /// One byte.
    One,
    /// Two bytes, the lowest first.
    Two,
    /// Four bytes, the lowest first.
    Four,
}

impl Size {
    /// The number of bytes: 1, 2 or 4.
    pub fn bytes(self) -> u32
        ensures value { result ≡ byte_count self }
        ensures most { result ≤ 4 }
    {
        match self {
            Size::One => 1,
            Size::Two => 2,
            Size::Four => 4,
        }
    }
}

/// The number of a process, 0 to 63. Process 0 is the root.
#[derive(Clone, Copy, Debug, PartialEq, Eq, PartialOrd, Ord, Hash)]
pub struct Pid {
    number: u8,
}

impl Model for Pid {
    ghost use Rattle.std.specs.Prelude.{ℕ, ◌<◌};

    ghost Value = { ℕ };

    ghost view = { λ p. p.number };

    ghost invariant = { λ p. p.number < 64 };

    ghost inverse = { λ n. record { number = n } };
}

impl Pid {
    /// The process of that number; None from 64 on.
    pub fn new(number: u8) -> Option<Pid>
        ensures exists { IsSome result ↔ (number < 64) }
        ensures value { IfSome result (λ pid. pid ≡ number) }
    {
        if number < 64 {
            Some(Pid { number })
        } else {
            None
        }
    }

    /// The number, 0 to 63.
    pub fn number(self) -> u8
        ensures value { result ≡ self }
        ensures bound { result < 64 }
    {
        self.number
    }
}

/// The page that an address lies in (bits 31 to 12).
pub fn page_of(address: Vaddr) -> Page
    ensures value { result ≡ page_number address }
    ensures bound { result < 2 ^ 20 }
{
    Page(address.0 >> 12)
}

/// The directory slot that leads to a page (bits 31 to 22 of its addresses).
pub fn slot_of(page: Page) -> u32
    ensures { result ≡ slot_number page }
{
    page.0 >> 10
}

/// The index of a page's word in its table, 0 to 1,023 (bits 21 to 12 of its addresses).
pub fn index_of(page: Page) -> u32
    ensures value { result ≡ index_number page }
    ensures bound { result < 1024 }
{
    page.0 % 1024
}

/// The place of an address in its page, 0 to 4,095 (bits 11 to 0).
pub fn offset_of(address: Vaddr) -> u32
    ensures value { result ≡ offset_number address }
    ensures bound { result < 4096 }
{
    address.0 % 4096
}

/// The first address of a page, which is one of the 2 to the 20 that addresses have.
pub fn start_of(page: Page) -> Vaddr
    requires { page < 2 ^ 20 }
    ensures { result ≡ start_number page }
{
    Vaddr(page.0 * 4096)
}

/// The second page that an access touches: the next, where its last bytes lie past the end of the page that
/// its address lies in. Addresses do not begin again at 0: past the last page this is page 2 to the 20.
pub fn second_page(address: Vaddr, size: Size) -> Option<Page>
    ensures { result ≡ second_page address size }
{
    if offset_of(address) + size.bytes() <= 4096 {
        None
    } else {
        Some(Page(page_of(address).0 + 1))
    }
}

/// Whether a page is one that processes may map: 0x40000 to 0xeffff, whose directory slots are 256
/// to 959.
pub fn in_user_range(page: Page) -> bool
    ensures { IsTrue result ↔ IsUserPage page }
{
    (0x40000..0xf0000).contains(&page.0)
}
