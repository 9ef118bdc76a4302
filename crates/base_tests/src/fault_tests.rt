//! How many frames a machine may have, and the texts of its faults.
use crate::comparing::same;
use page_words::{MachineFault, WideFault, is_frame_count, is_wide_frame_count};
use std::fmt::Display;
use std::process::Abort;

/// A fault has that text.
fn check_text<R: AllocGlobal + Abort, F: Display>(rt: &R, fault: &F, expected: &str) {
    let text = format!(in rt.alloc(); "{fault}").expect(rt, "memory");
    same(rt, &text.as_str(), &expected);
}

#[test]
fn faults_of_a_machine_have_texts(rt: HostRuntime) {
    check_text(&rt, &MachineFault::BadSize, "frames must be 16 to 4096");
    check_text(&rt, &MachineFault::NoMemory, "out of memory");
}

#[test]
fn faults_of_a_wide_machine_have_texts(rt: HostRuntime) {
    check_text(&rt, &WideFault::BadSize, "frames must be 16 to 1048576");
    check_text(&rt, &WideFault::NoMemory, "out of memory");
}

#[test]
fn a_machine_has_16_to_4096_frames(rt: HostRuntime) {
    same(
        &rt,
        &[15, 16, 4096, 4097].map(|frames| is_frame_count(frames)),
        &[false, true, true, false],
    );
}

#[test]
fn a_wide_machine_has_16_to_1048576_frames(rt: HostRuntime) {
    same(
        &rt,
        &[15, 16, 4097, 1048576, 1048577].map(|frames| is_wide_frame_count(frames)),
        &[false, true, true, true, false],
    );
}
