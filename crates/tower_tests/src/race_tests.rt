//! Races of few rounds, and races that are refused or cut short.

ghost use Rattle.std.specs.Prelude.{◌≤◌};

use crate::comparing::{same, same_bytes};
use base_tests::streams::FullWriter;
use command_answers::ToolFault;
use std::process::Abort;
use std::sync::Wait;
use std::thread::Threads;
use tower_jobs::{Asks, race};

const THREE_ROUNDS: &[u8] =
    b"rounds 3\nhistory legal\nreport equal\nverdict sound\nprocess 0 parent 0 quota 15 used 3 given 5\nprocess 1 parent 0 quota 5 used 3 given 0\ntotal 6\n";

const LARGEST: &[u8] =
    b"rounds 1\nhistory legal\nreport equal\nverdict sound\nprocess 0 parent 0 quota 4095 used 3 given 5\nprocess 1 parent 0 quota 5 used 3 given 0\ntotal 6\n";

/// A race of so many rounds on so many frames: how it ended, and what it wrote.
fn raced<R: AllocGlobal + Threads + Wait + Sync>(
    rt: &R,
    frames: u32,
    rounds: u32,
) -> (Result<(), ToolFault>, Vec<u8>)
    requires { 1 ≤ rounds }
{
    let mut written = Vec::new(rt.alloc());
    let ended = race(rt, rt.alloc(), &mut written, frames, rounds, &mut Asks);
    (ended, written)
}

/// Checks that a race ends, with this text.
fn check_played<R: AllocGlobal + Threads + Wait + Abort + Sync>(
    rt: &R,
    frames: u32,
    rounds: u32,
    text: &[u8],
)
    requires { 1 ≤ rounds }
{
    let (ended, written) = raced(rt, frames, rounds);
    same(rt, &ended, &Ok(()));
    same_bytes(rt, &written, text);
}

#[test]
fn plays_three_rounds(rt: HostRuntime) {
    check_played(&rt, 16, 3, THREE_ROUNDS);
}

#[test]
fn plays_on_the_largest_memory(rt: HostRuntime) {
    check_played(&rt, 4096, 1, LARGEST);
}

/// No race on so many frames, and nothing is written.
fn check_refused<R: AllocGlobal + Threads + Wait + Abort + Sync>(rt: &R, frames: u32) {
    let (ended, written) = raced(rt, frames, 1);
    let found = (frames, ended, written.len());
    same(rt, &found, &(frames, Err(ToolFault::BadSize), 0));
}

#[test]
fn refuses_sizes_before_it_writes(rt: HostRuntime) {
    check_refused(&rt, 0);
    check_refused(&rt, 15);
    check_refused(&rt, 4097);
    check_refused(&rt, 4_294_967_295);
}

/// A race of three rounds whose writer takes so many bytes: how it ended, and whether they are the text's first.
fn cut_short<R: AllocGlobal + Threads + Wait + Sync>(
    rt: &R,
    left: usize,
) -> (Option<ToolFault>, bool) {
    let mut writer = FullWriter::new(left);
    let ended = race(rt, rt.alloc(), &mut writer, 16, 3, &mut Asks).err();
    let front = THREE_ROUNDS.get(..left);
    (ended, Some(writer.written.as_slice()) == front)
}

/// Its text has 143 bytes. A writer that takes fewer fails, with all that it takes written.
fn check_cut_short<R: AllocGlobal + Threads + Wait + Abort + Sync>(rt: &R, left: usize) {
    let fault = (left < THREE_ROUNDS.len()).then_some(ToolFault::WriteFailed);
    same(rt, &(left, cut_short(rt, left)), &(left, (fault, true)));
}

#[test]
fn writes_a_front_before_a_write_fails(rt: HostRuntime) {
    check_cut_short(&rt, 0);
    check_cut_short(&rt, 8);
    check_cut_short(&rt, 22);
    check_cut_short(&rt, 35);
    check_cut_short(&rt, 49);
    check_cut_short(&rt, 94);
    check_cut_short(&rt, 142);
    check_cut_short(&rt, 143);
}
