//! The walk of four-level tables on words that are written here, and shadow tables in pools of a few frames.
ghost use Rattle.std.specs.Prelude.{◌<◌};

use crate::comparing::{process, same};
use byteorder::{ByteOrder, LittleEndian};
use page_words::{Frame, Page, Pid, in_user_range};
use shadow_tables::{LongEnd, ShadowTables, is_kernel_half, long_walk};
use std::process::Abort;
use table_walk::Access;

type End = Result<u64, LongEnd>;

const POOL: u64 = 0x10000;

const BLOCK: u64 = 0x1_0000_0000;

/// Writes a word of eight bytes, where it lies inside.
fn put(bytes: &mut [u8], place: usize, word: u64) {
    if bytes.len() >= 8 && place <= bytes.len() - 8 {
        LittleEndian::write_u64(&mut bytes[place..place + 8], word);
    }
}

/// How the walk of a pool of at most 16 frames ends.
fn walked(bytes: &[u8], root: u64, address: u64, access: Access) -> Option<End> {
    if bytes.len() > 0x10000 {
        return None;
    }
    Some(long_walk(bytes, POOL, root, address, access))
}

/// The ends of the walks of one address for a read and for a write, by the words of its four tables.
fn ends<R: AllocGlobal + Abort>(rt: &R, words: [u64; 4]) -> [Option<End>; 2] {
    let mut bytes = vec![in rt.alloc(); 0u8; 4 * 4096]
        .ok()
        .expect(rt, "four tables");
    put(&mut bytes, 8, words[0]);
    put(&mut bytes, 4112, words[1]);
    put(&mut bytes, 8216, words[2]);
    put(&mut bytes, 12320, words[3]);
    [
        walked(&bytes, POOL, 0x80_8060_4abc, Access::Read),
        walked(&bytes, POOL, 0x80_8060_4abc, Access::Write),
    ]
}

/// The walks of one address for a read and for a write end so, by these words.
fn check_ends<R: AllocGlobal + Abort>(rt: &R, words: [u64; 4], expected: [Option<End>; 2]) {
    same(rt, &ends(rt, words), &expected);
}

#[test]
fn walks_four_levels(rt: HostRuntime) {
    let found = Some(Ok(0x777abc));
    let denied = Some(Err(LongEnd::Denied));
    let missing = Some(Err(LongEnd::Missing));
    let unmarked = Some(Err(LongEnd::Unmarked));
    let foreign = Some(Err(LongEnd::Foreign));
    check_ends(&rt, [0x11027, 0x12027, 0x13027, 0x777067], [found, found]);
    check_ends(&rt, [0x11027, 0x12027, 0x13027, 0x777025], [found, denied]);
    check_ends(&rt, [0x11025, 0x12027, 0x13027, 0x777067], [found, denied]);
    check_ends(&rt, [0x11027, 0x12023, 0x13027, 0x777067], [denied, denied]);
    check_ends(
        &rt,
        [0x11027, 0x12027, 0x13026, 0x777067],
        [missing, missing],
    );
    check_ends(
        &rt,
        [0x11027, 0x12027, 0x13007, 0x777067],
        [unmarked, unmarked],
    );
    check_ends(
        &rt,
        [0x11027, 0x12027, 0x13027, 0x777027],
        [found, unmarked],
    );
    check_ends(
        &rt,
        [0x11027, 0x120a7, 0x13027, 0x777067],
        [foreign, foreign],
    );
    check_ends(
        &rt,
        [0x11027, 0x12027, 0x14027, 0x777067],
        [foreign, foreign],
    );
    check_ends(
        &rt,
        [0x11027, 0x12027, 0x13027, 0x8000_0000_0077_7067],
        [foreign, foreign],
    );
}

/// So many times this byte.
fn bytes_of<R: AllocGlobal + Abort>(rt: &R, byte: u8, count: usize) -> Vec<u8> {
    vec![in rt.alloc(); byte; count].ok().expect(rt, "memory")
}

/// Shadow tables over that many frames.
fn shadow_of<R: AllocGlobal + Abort>(rt: &R, frames: u32) -> ShadowTables
    requires { frames < 16 }
{
    let bytes = bytes_of(rt, 7, 4096 * frames as usize);
    let kernel = bytes_of(rt, 8, 2048);
    assert!(rt; bytes.len() == 4096 * frames as usize && kernel.len() == 2048);
    assert!(rt; is_kernel_half(&kernel));
    let shadow = ShadowTables::new(rt.alloc(), bytes, frames, POOL, BLOCK, kernel);
    shadow.expect(rt, "shadow tables")
}

/// Whether a page of the user range can be mapped to a frame.
fn fills(
    rt: &impl Abort,
    shadow: &mut ShadowTables,
    pid: Pid,
    page: u32,
    frame: u32,
    write: bool,
) -> bool {
    assert!(rt; in_user_range(Page(page)));
    assert!(rt; frame < 0x10_0000);
    shadow.fill(pid, Page(page), Frame(frame), write).is_ok()
}

/// How the walk of an address ends.
fn end_at(shadow: &ShadowTables, pid: Pid, address: u64, access: Access) -> Option<End> {
    walked(shadow.bytes(), shadow.root(pid)?, address, access)
}

/// The walk of an address ends so, if the process has a root.
fn check_end(
    rt: &impl Abort,
    shadow: &ShadowTables,
    pid: Pid,
    address: u64,
    access: Access,
    expected: Option<End>,
) {
    same(rt, &end_at(shadow, pid, address, access), &expected);
}

/// The last byte of a process's root.
fn last_of_root(shadow: &ShadowTables, pid: Pid) -> Option<u8> {
    let place = shadow.root(pid)?.checked_sub(POOL)?.checked_add(4095)?;
    shadow.bytes().get(place as usize).copied()
}

/// A process without a root needs four frames for a page.
fn check_full(rt: &impl Abort, shadow: &ShadowTables, pid: Pid) {
    let found = (shadow.needed(pid, Page(0x40124)), shadow.root(pid));
    same(rt, &found, &(4, None));
}

/// A page is still mapped to this frame.
fn check_frame(rt: &impl Abort, shadow: &ShadowTables, pid: Pid, frame: Frame) {
    let found = shadow.translation(pid, Page(0x40124));
    same(rt, &found.map(|found| found.frame), &Some(frame));
}

#[test]
fn fills_and_forgets(rt: HostRuntime) {
    let mut shadow = shadow_of(&rt, 4);
    let (pid, other) = (process(&rt, 5), process(&rt, 63));
    let missing = Some(Err(LongEnd::Missing));
    let denied = Some(Err(LongEnd::Denied));
    check_end(&rt, &shadow, pid, 0x40123abc, Access::Read, None);
    assert!(rt; fills(&rt, &mut shadow, pid, 0x40123, 0x777, true));
    let found = Some(Ok(0x1_0077_7abc));
    check_end(&rt, &shadow, pid, 0x40123abc, Access::Write, found);
    assert!(rt; fills(&rt, &mut shadow, pid, 0x40124, 0x778, false));
    let found = Some(Ok(0x1_0077_8abc));
    check_end(&rt, &shadow, pid, 0x40124abc, Access::Read, found);
    check_end(&rt, &shadow, pid, 0x40124abc, Access::Write, denied);
    assert!(rt; !fills(&rt, &mut shadow, other, 0x40124, 1, false));
    check_full(&rt, &shadow, other);
    shadow.forget_page(pid, Page(0x40123));
    check_end(&rt, &shadow, pid, 0x40123abc, Access::Read, missing);
    check_frame(&rt, &shadow, pid, Frame(0x778));
    shadow.forget_process(pid);
    same(&rt, &(shadow.root(pid), shadow.free_count()), &(None, 4));
}

#[test]
fn uses_its_frames_again(rt: HostRuntime) {
    let mut shadow = shadow_of(&rt, 5);
    let pid = process(&rt, 0);
    let missing = Some(Err(LongEnd::Missing));
    assert!(rt; fills(&rt, &mut shadow, pid, 0x40000, 0, true));
    assert!(rt; !fills(&rt, &mut shadow, pid, 0xeffff, 0xfffff, true));
    check_end(
        &rt,
        &shadow,
        pid,
        0x40000000,
        Access::Write,
        Some(Ok(BLOCK)),
    );
    shadow.forget_all();
    assert!(rt; fills(&rt, &mut shadow, pid, 0xeffff, 0xfffff, true));
    let found = Some(Ok(0x1_ffff_ffff));
    check_end(&rt, &shadow, pid, 0xefffffff, Access::Write, found);
    check_end(&rt, &shadow, pid, 0x40000000, Access::Read, missing);
    check_end(&rt, &shadow, pid, 0xc0000000, Access::Read, missing);
    same(&rt, &last_of_root(&shadow, pid), &Some(8));
}
