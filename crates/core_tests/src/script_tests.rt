//! A whole script, and running out of memory.

use crate::common::same;
use base_tests::streams::{BrokenWriter, Pieces};
use script_run::{ScriptFault, run_script};
use std::process::Abort;
use std::test::Fail;

const SCRIPT: &[u8] =
    b"0 0 map 40000 rw\n0 0 store 40000ffc 4 deadbeef\n0 0 load 40000ffc 4\n0 0 map 40000 ro\n0 0 load 3ffffffc 4\n";

const REPLIES: &[u8] = b"done\ndone\nvalue deadbeef\nrefused Mapped\nfault 3ffffffc 4\n";

#[test]
fn replies_to_a_script(rt: HostRuntime) {
    let mut reader = SCRIPT;
    let mut written = Vec::new(rt.alloc());
    let ended = run_script(rt.alloc(), &mut reader, &mut written, 16);
    same(&rt, &ended.map(|core| core.frames()), &Ok(16));
    assert_eq!(rt; written.as_slice(), REPLIES);
}

/// A run of the script on 16 frames ends with this fault, and has written these replies.
fn check_fault<R: AllocGlobal + Abort>(
    rt: &R,
    script: &[u8],
    writer: &mut BrokenWriter,
    fault: ScriptFault,
    replies: &[u8],
) {
    let mut reader = script;
    let found = run_script(rt.alloc(), &mut reader, writer, 16).err();
    assert_eq!(rt; (found, writer.written.as_slice()), (Some(fault), replies));
}

#[test]
fn tells_the_number_of_a_malformed_line(rt: HostRuntime) {
    let mut writer = BrokenWriter::new(256, Pieces::Whole);
    let script = b"0 0 quota\n0 0 lode 40000000 4\n0 0 quota\n";
    let fault = ScriptFault::Malformed { line: 2 };
    check_fault(&rt, script, &mut writer, fault, b"quota 15 1 0\n");
}

#[test]
fn a_write_that_fails_after_five_bytes_leaves_the_first_reply(rt: HostRuntime) {
    let mut writer = BrokenWriter::new(5, Pieces::Whole);
    let fault = ScriptFault::WriteFailed;
    check_fault(&rt, SCRIPT, &mut writer, fault, b"done\n");
}

/// `rt try --test --fail-alloc N` refuses the Nth allocation of this test alone, and each is one of
/// `run_script`. A run that meets it answers NoMemory before anything is read or written, the same
/// call with memory then gives all replies, and a line is printed that says so.
#[test]
fn goes_on_after_want_of_memory(rt: HostRuntime) -> Result<(), Fail> {
    let mut reader = SCRIPT;
    let mut writer = BrokenWriter::new(256, Pieces::Whole);
    let first = run_script(rt.alloc(), &mut reader, &mut writer, 16).err();
    if first.is_some() {
        same(&rt, &first, &Some(ScriptFault::NoMemory));
        assert_eq!(rt; reader, SCRIPT);
        assert!(rt; writer.written.is_empty());
        let again = run_script(rt.alloc(), &mut reader, &mut writer, 16).err();
        same(&rt, &again, &None);
        println!(rt; "NoMemory, and then all replies")?;
    }
    assert_eq!(rt; writer.written.as_slice(), REPLIES);
    Ok(())
}
