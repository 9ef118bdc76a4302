//! The walk of a four-level page map, as a processor makes it for a user-mode access.
ghost use Rattle.std.specs.Prelude.{◌≡◌, ◌+◌, ◌≤◌, ◌<◌, ◌^◌, length};
ghost use Rattle.shadow_tables.specs.LongWords.{long_at, target_of, is_foreign};
ghost use Rattle.shadow_tables.specs.LongWalk.{long_walk as walk_of, step_of, allows, is_marked};

use byteorder::{ByteOrder, LittleEndian};
use table_walk::Access;

/// How a walk ends that reaches no page.
#[derive(Clone, Copy, Debug, PartialEq, Eq)]
pub enum LongEnd {
    /// A word on the way isn't present.
    Missing,
    /// A word on the way doesn't give the right.
    Denied,
    /// The processor would first set an accessed or a dirty flag on the way.
    Unmarked,
    /// A table on the way isn't in the pool, or a word is of a kind that shadow tables don't have: bit 7 is set, or one
    /// from 52 on. A processor may go on there.
    Foreign,
}

/// The word in the eight bytes from a place on, the lowest byte first.
#[tactic(auto, unfolding(crate::specs::LongWords::long_at))]
pub(crate) fn long_at(bytes: &[u8], place: usize) -> u64
    requires { place + 8 ≤ length bytes.now }
    ensures { result ≡ long_at bytes.now place }
{
    LittleEndian::read_u64(&bytes[place..])
}

/// Whether a word is of a kind that shadow tables don't have.
fn is_foreign(word: u64) -> bool
    ensures { result ≡ is_foreign word }
{
    (word >> 7) & 1 == 1 || word >= 1 << 52
}

/// Whether a word lets the access through.
fn allows(word: u64, access: Access) -> bool
    ensures { result ≡ allows word access }
{
    (word >> 2) & 1 == 1 && !(access == Access::Write && (word >> 1) & 1 == 0)
}

/// Whether the access changes nothing in a word.
fn is_marked(word: u64, access: Access, is_last: bool) -> bool
    ensures { result ≡ is_marked word access is_last }
{
    (word >> 5) & 1 == 1 && !(is_last && access == Access::Write && (word >> 6) & 1 == 0)
}

/// One step of a walk: the target of the word for an address in a table.
fn step(
    bytes: &[u8],
    pool: u64,
    table: u64,
    address: u64,
    access: Access,
    shift: u32,
    is_last: bool,
) -> Result<u64, LongEnd>
    requires size { length bytes.now ≤ 2 ^ 52 }
    requires pool { pool ≤ 2 ^ 52 }
    requires shift { shift < 64 }
    ensures { result ≡ step_of bytes.now pool table address access shift is_last }
{
    if table < pool
        || table - pool > bytes.len() as u64
        || bytes.len() as u64 - (table - pool) < 4096
    {
        return Err(LongEnd::Foreign);
    }
    let word = long_at(
        bytes,
        (table - pool + 8 * ((address >> shift) % 512)) as usize,
    );
    if word % 2 == 0 {
        return Err(LongEnd::Missing);
    }
    if is_foreign(word) {
        return Err(LongEnd::Foreign);
    }
    if !allows(word, access) {
        return Err(LongEnd::Denied);
    }
    if !is_marked(word, access, is_last) {
        return Err(LongEnd::Unmarked);
    }
    Ok(word / 4096 * 4096)
}

/// The physical address that an address below 2 to the 48 leads to, from a root's physical address on, for a user-mode
/// access that changes no word. The bytes lie at the physical address `pool`. It ends on any bytes, and for any root.
#[tactic(auto, unfolding(crate::specs::LongWalk::long_walk))]
pub fn long_walk(
    bytes: &[u8],
    pool: u64,
    root: u64,
    address: u64,
    access: Access,
) -> Result<u64, LongEnd>
    requires size { length bytes.now ≤ 2 ^ 52 }
    requires pool { pool ≤ 2 ^ 52 }
    ensures { result ≡ walk_of bytes.now pool root address access }
{
    let pointers = step(bytes, pool, root, address, access, 39, false)?;
    let directory = step(bytes, pool, pointers, address, access, 30, false)?;
    let table = step(bytes, pool, directory, address, access, 21, false)?;
    let page = step(bytes, pool, table, address, access, 12, true)?;
    Ok(page + address % 4096)
}
