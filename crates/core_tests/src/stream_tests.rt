//! Scripts from readers and to writers that give and take odd pieces, or fail in mid-stream.

use crate::common::same;
use base_tests::streams::{BrokenReader, BrokenWriter, FullWriter, Pieces};
use script_examples::sharing::SHARE_BOTH_WAYS;
use script_run::{ScriptFault, run_script};
use std::alloc::Global;
use std::process::Abort;

fn script() -> &'static [u8] {
    SHARE_BOTH_WAYS.script.as_bytes()
}

fn replies() -> &'static [u8] {
    SHARE_BOTH_WAYS.replies.as_bytes()
}

/// Where so many lines of the replies end.
fn end_of_lines(lines: usize) -> usize {
    let mut left = lines;
    let mut end = 0usize;
    for byte in replies() {
        if left == 0 {
            return end;
        }
        left = left.wrapping_sub((*byte == b'\n') as usize);
        end = end.wrapping_add(1);
    }
    end
}

/// The replies to the lines that end within the first bytes of the script, each of whose lines has one.
fn replies_within(count: usize) -> Option<&'static [u8]> {
    let lines = script()
        .iter()
        .take(count)
        .filter(|byte| **byte == b'\n')
        .count();
    replies().get(..end_of_lines(lines))
}

/// A read that fails after so many bytes leaves the replies to the lines that were complete.
fn check_read(rt: &impl Abort, alloc: Global, left: usize, pieces: Pieces) {
    let mut reader = BrokenReader {
        rest: script(),
        left,
        pieces,
    };
    let mut written = Vec::new(alloc);
    let fault = run_script(alloc, &mut reader, &mut written, 16).err();
    assert_eq!(rt;
        (fault, Some(written.as_slice())),
        (Some(ScriptFault::ReadFailed), replies_within(left)),
        "at {left}"
    );
}

fn check_reads(rt: &impl Abort, alloc: Global, pieces: Pieces) {
    for left in 0..=script().len() {
        check_read(rt, alloc, left, pieces);
    }
}

#[test]
fn a_failed_read_leaves_the_replies_to_complete_lines(rt: HostRuntime) {
    check_reads(&rt, rt.alloc(), Pieces::Whole);
    check_reads(&rt, rt.alloc(), Pieces::Single);
    check_reads(&rt, rt.alloc(), Pieces::Random(1));
}

/// A write that fails after so many bytes leaves just these of the replies.
fn check_write(rt: &impl Abort, alloc: Global, left: usize, pieces: Pieces) {
    let mut reader = script();
    let mut writer = BrokenWriter::new(left, pieces);
    let fault = run_script(alloc, &mut reader, &mut writer, 16).err();
    let expected = (left < replies().len()).then_some(ScriptFault::WriteFailed);
    assert_eq!(rt;
        (fault, Some(writer.written.as_slice())),
        (expected, replies().get(..left)),
        "at {left}"
    );
}

fn check_writes(rt: &impl Abort, alloc: Global, pieces: Pieces) {
    for left in 0..=replies().len() {
        check_write(rt, alloc, left, pieces);
    }
}

#[test]
fn a_failed_write_leaves_the_first_bytes(rt: HostRuntime) {
    check_writes(&rt, rt.alloc(), Pieces::Whole);
    check_writes(&rt, rt.alloc(), Pieces::Single);
    check_writes(&rt, rt.alloc(), Pieces::Random(1));
}

#[test]
fn fails_where_a_writer_takes_no_byte(rt: HostRuntime) {
    let mut reader = script();
    let ended = run_script(rt.alloc(), &mut reader, &mut FullWriter::new(0), 16);
    same(&rt, &ended.err(), &Some(ScriptFault::WriteFailed));
}

/// What is read and written in such pieces is what is read and written whole.
fn check_pieces(rt: &impl Abort, alloc: Global, reads: Pieces, writes: Pieces) {
    let mut reader = BrokenReader {
        rest: script(),
        left: usize::MAX,
        pieces: reads,
    };
    let mut writer = BrokenWriter::new(usize::MAX, writes);
    let fault = run_script(alloc, &mut reader, &mut writer, 16).err();
    assert_eq!(rt; (fault, writer.written.as_slice()), (None, replies()));
}

/// By 64 seeds.
fn check_random_pieces(rt: &impl Abort, alloc: Global) {
    for seed in 0..64u32 {
        check_pieces(rt, alloc, Pieces::Random(seed), Pieces::Random(!seed));
    }
}

#[test]
fn pieces_change_no_reply(rt: HostRuntime) {
    check_pieces(&rt, rt.alloc(), Pieces::Single, Pieces::Single);
    check_pieces(&rt, rt.alloc(), Pieces::Random(7), Pieces::Whole);
    check_random_pieces(&rt, rt.alloc());
}
