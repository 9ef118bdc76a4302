//! Shadow tables for C: opened over a pool, asked, and forgotten.

ghost use Rattle.std.specs.Prelude.{◌≡◌, ◌≢◌, ◌↔◌, ◌*◌, ◌≤◌, ◌&&◌, is_some, IsTrue, IfOk, IfSome, None, length, replicate, true, false};
ghost use Rattle.page_words.specs.FiniteMap as map;
ghost use Rattle.shadow_tables.specs.Shadow.{opening, IsFixed};
ghost use Rattle.c_handle.specs.ShadowHandle.{IsTowerShadow};
ghost use Rattle.tower_c.specs.Border.{given, pid_of};
ghost use Rattle.tower_c.specs.Shadows.{AreNumbers, IsHalf, Forgets, ended_from, root_in, translation_at, translation_in, free_in, taken_in, pool_in};

use crate::memory::TowerMemory;
use crate::numbers::{TowerEnded, pid_from};
use c_handle::{TowerShadow, put_tables, take_tables};
use kernel_calls::Ended;
use page_words::Page;
use shadow_tables::{LEAST_FRAMES, ShadowTables, is_kernel_half};
use std::alloc::{AllocError, Global};

/// The statuses of an opening.
const OPENED: u32 = 0;

const BAD_PLACES: u32 = 1;

const NO_MEMORY: u32 = 2;

const HAS_TABLES: u32 = 3;

/// The most frames of a pool.
const MOST: u32 = 1048576;

/// The bytes of half a root.
const HALF_BYTES: usize = 2048;

/// A page's translation in shadow tables.
#[repr(C)]
#[derive(Clone, Copy)]
pub struct TowerTranslation {
    /// The core's frame.
    pub frame: u32,
    /// Whether a processor lets writes through.
    pub write: bool,
}

/// Whether these are numbers of a pool and a block.
fn are_numbers(frames: u32, pool: u64, block: u64) -> bool
    ensures { IsTrue result ↔ AreNumbers frames pool block }
{
    if frames < LEAST_FRAMES || frames > MOST {
        return false;
    }
    let most = (1 << 52) - 4096 * u64::from(frames);
    let places = pool % 4096 == 0 && pool <= most && block % 4096 == 0;
    places && block <= (1 << 52) - (1 << 32)
}

/// Whether this is half a root of a kernel's.
fn is_half(half: &[u8]) -> bool
    ensures { IsTrue result ↔ IsHalf half.now }
{
    half.len() == HALF_BYTES && is_kernel_half(half)
}

/// Shadow tables without a translation, over a pool of zeros.
fn tables_over(
    alloc: Global,
    frames: u32,
    pool: u64,
    block: u64,
    half: &[u8],
) -> Result<ShadowTables, AllocError>
    requires numbers { AreNumbers frames pool block }
    requires half { IsHalf half.now }
    ensures { IfOk result (λ tables. tables
        ≡ opening (replicate (4096 * frames) 0) frames pool block half.now) }
{
    let bytes = vec![in alloc; 0u8; 4096 * frames as usize]?;
    let kernel = Vec::from_slice(alloc, half)?;
    ShadowTables::new(alloc, bytes, frames, pool, block, kernel)
}

/// Opens shadow tables without a translation, over a pool of that many frames, which are zeros: 0. They are of any
/// core. The pool lies at the physical address `pool`, and frame 0 of the core at the physical address `block`. Each
/// root gets `half` as its upper half. Each word of it that is present has accessed set, and isn't one of user mode.
/// 1 if the numbers are none of a pool and a block, or the half is none; 2 where there is no memory; 3 where the handle
/// has tables already. All but 0 leave the handle as it was.
#[unsafe(no_mangle)]
pub extern "C" fn tower_shadow_open(
    alloc: Global,
    frames: u32,
    pool: u64,
    block: u64,
    half: &[u8],
    shadow: &mut TowerShadow,
) -> u32
    requires { IsTowerShadow shadow.old }
    ensures kept { IsTowerShadow shadow.new }
    ensures statuses { result ≤ 3 }
    ensures opening { result ≡ 0 → IfSome shadow.new.hold.tables
        (λ tables. tables ≡ opening (replicate (4096 * frames) 0) frames pool block half.now) }
    ensures live { result ≡ 0 → shadow.new.live ≡ true }
    ensures places { result ≡ 1 ↔ (shadow.old.live ≡ false) × (AreNumbers frames pool block × IsHalf half.now → ⊥) }
    ensures busy { result ≡ 3 ↔ shadow.old.live ≡ true }
    ensures otherwise { result ≢ 0 → shadow.new ≡ shadow.old }
{
    if shadow.live {
        return HAS_TABLES;
    }
    if !are_numbers(frames, pool, block) || !is_half(half) {
        return BAD_PLACES;
    }
    match tables_over(alloc, frames, pool, block, half) {
        Ok(tables) => match Box::new(alloc, tables) {
            Ok(tables) => {
                put_tables(shadow, tables);
                OPENED
            }
            Err(_) => NO_MEMORY,
        },
        Err(_) => NO_MEMORY,
    }
}

/// Frees the tables, if the handle has any. No processor may have a root of theirs.
#[unsafe(no_mangle)]
pub extern "C" fn tower_shadow_close(alloc: Global, shadow: &mut TowerShadow)
    requires { IsTowerShadow shadow.old }
    ensures none { shadow.new.hold.tables ≡ None }
    ensures dead { shadow.new.live ≡ false }
{
    if let Some(tables) = take_tables(alloc, shadow) {
        drop(tables);
    }
}

/// What the numbers say was ended; None where they say nothing.
fn ended_said(ended: &TowerEnded) -> Option<Ended>
    ensures { result ≡ ended_from ended.now }
{
    let pid = pid_from(ended.pid)?;
    match ended.kind {
        0 => Some(Ended::Nothing),
        1 => Some(Ended::Page {
            pid,
            page: Page(ended.first),
        }),
        2 => Some(Ended::Pages {
            pid,
            first: Page(ended.first),
            second: Page(ended.second),
        }),
        3 => Some(Ended::Space { pid }),
        _ => None,
    }
}

/// Forgets what was ended, in tables that are there.
fn forget_in(tables: &mut ShadowTables, ended: &Ended)
    ensures { Forgets tables.old ended.now tables.new }
{
    shadow_core::forget(tables, ended);
}

/// Forgets what was ended: translations of pages, or all of a process. Then no processor may have its root. Returns false
/// where there are no tables or the numbers don't say what was ended; then nothing changes.
#[unsafe(no_mangle)]
pub extern "C" fn tower_shadow_forget(
    alloc: Global,
    shadow: &mut TowerShadow,
    ended: &TowerEnded,
) -> bool
    requires { IsTowerShadow shadow.old }
    ensures kept { IsTowerShadow shadow.new }
    ensures live { shadow.new.live ≡ shadow.old.live }
    ensures there { result ≡ (shadow.old.live && is_some (ended_from ended.now)) }
    ensures forgets { result ≡ true → IfSome shadow.old.hold.tables (λ old. IfSome shadow.new.hold.tables
        (λ new. IfSome (ended_from ended.now) (λ ended. Forgets old ended new))) }
    ensures none { result ≡ false → shadow.new.hold.tables ≡ shadow.old.hold.tables }
{
    let Some(ended) = ended_said(ended) else {
        return false;
    };
    match take_tables(alloc, shadow) {
        Some(mut tables) => {
            forget_in(&mut tables, &ended);
            put_tables(shadow, tables);
            true
        }
        None => false,
    }
}

/// Forgets all translations. All frames of the pool become free: no processor may have a root. Returns false where there
/// are no tables.
#[unsafe(no_mangle)]
pub extern "C" fn tower_shadow_forget_all(alloc: Global, shadow: &mut TowerShadow) -> bool
    requires { IsTowerShadow shadow.old }
    ensures kept { IsTowerShadow shadow.new }
    ensures live { (result ≡ shadow.old.live) × (shadow.new.live ≡ shadow.old.live) }
    ensures translations { IfSome shadow.new.hold.tables (λ new. new.translations ≡ map.empty) }
    ensures roots { IfSome shadow.new.hold.tables (λ new. new.roots ≡ replicate 64 None) }
    ensures free { IfSome shadow.new.hold.tables (λ new. 4096 * new.free ≡ length new.bytes) }
    ensures fixed { IfSome shadow.old.hold.tables (λ old. IfSome shadow.new.hold.tables (λ new. IsFixed old new)) }
{
    match take_tables(alloc, shadow) {
        Some(mut tables) => {
            tables.forget_all();
            put_tables(shadow, tables);
            true
        }
        None => false,
    }
}

/// The physical address of a process's root, for CR3: false where there are no tables, or the process has none.
#[unsafe(no_mangle)]
pub extern "C" fn tower_shadow_root(
    alloc: Global,
    shadow: &mut TowerShadow,
    pid: u32,
    root: &mut u64,
) -> bool
    requires { IsTowerShadow shadow.old }
    ensures kept { IsTowerShadow shadow.new }
    ensures same { shadow.new.hold.tables ≡ shadow.old.hold.tables }
    ensures root { given result root.new ≡ root_in shadow.old.hold.tables pid }
    ensures none { result ≡ false → root.new ≡ root.old }
{
    match take_tables(alloc, shadow) {
        Some(tables) => {
            let found = match pid_from(pid) {
                Some(pid) => tables.root(pid),
                None => None,
            };
            put_tables(shadow, tables);
            match found {
                Some(at) => {
                    *root = at;
                    true
                }
                None => false,
            }
        }
        None => false,
    }
}

/// The translation of a page in some tables; None where it has none.
fn translation_of(tables: &ShadowTables, pid: u32, page: u32) -> Option<TowerTranslation>
    ensures { result ≡ translation_at tables.now (pid_of pid) page }
{
    let found = tables.translation(pid_from(pid)?, Page(page))?;
    Some(TowerTranslation {
        frame: found.frame.0,
        write: found.write,
    })
}

/// A page's translation: false where there are no tables, or the page has none.
#[unsafe(no_mangle)]
pub extern "C" fn tower_shadow_translation(
    alloc: Global,
    shadow: &mut TowerShadow,
    pid: u32,
    page: u32,
    found: &mut TowerTranslation,
) -> bool
    requires { IsTowerShadow shadow.old }
    ensures kept { IsTowerShadow shadow.new }
    ensures same { shadow.new.hold.tables ≡ shadow.old.hold.tables }
    ensures translation { given result found.new ≡ translation_in shadow.old.hold.tables pid page }
    ensures none { result ≡ false → found.new ≡ found.old }
{
    match take_tables(alloc, shadow) {
        Some(tables) => {
            let told = translation_of(&tables, pid, page);
            put_tables(shadow, tables);
            match told {
                Some(told) => {
                    *found = told;
                    true
                }
                None => false,
            }
        }
        None => false,
    }
}

/// How many frames of the pool are free: 0 where there are no tables.
#[unsafe(no_mangle)]
pub extern "C" fn tower_shadow_free_frames(alloc: Global, shadow: &mut TowerShadow) -> u32
    requires { IsTowerShadow shadow.old }
    ensures kept { IsTowerShadow shadow.new }
    ensures same { shadow.new.hold.tables ≡ shadow.old.hold.tables }
    ensures free { result ≡ free_in shadow.old.hold.tables }
{
    match take_tables(alloc, shadow) {
        Some(tables) => {
            let free = tables.free_count();
            put_tables(shadow, tables);
            free
        }
        None => 0,
    }
}

/// How many frames of the pool a process's tables take: 0 where there are no tables or no such process.
#[unsafe(no_mangle)]
pub extern "C" fn tower_shadow_taken_frames(
    alloc: Global,
    shadow: &mut TowerShadow,
    pid: u32,
) -> u32
    requires { IsTowerShadow shadow.old }
    ensures kept { IsTowerShadow shadow.new }
    ensures same { shadow.new.hold.tables ≡ shadow.old.hold.tables }
    ensures taken { result ≡ taken_in shadow.old.hold.tables pid }
{
    match take_tables(alloc, shadow) {
        Some(tables) => {
            let taken = match pid_from(pid) {
                Some(pid) => tables.taken_count(pid),
                None => 0,
            };
            put_tables(shadow, tables);
            taken
        }
        None => 0,
    }
}

/// Where the pool lies in the program, until the tables are freed: false where there are none. Of the address no clause
/// says anything.
#[unsafe(no_mangle)]
pub extern "C" fn tower_shadow_pool(
    alloc: Global,
    shadow: &mut TowerShadow,
    memory: &mut TowerMemory,
) -> bool
    requires { IsTowerShadow shadow.old }
    ensures kept { IsTowerShadow shadow.new }
    ensures same { shadow.new.hold.tables ≡ shadow.old.hold.tables }
    ensures length { given result memory.new.length ≡ pool_in shadow.old.hold.tables }
    ensures none { result ≡ false → memory.new ≡ memory.old }
{
    match take_tables(alloc, shadow) {
        Some(tables) => {
            memory.begins = tables.begins();
            memory.length = tables.bytes().len();
            put_tables(shadow, tables);
            true
        }
        None => false,
    }
}
