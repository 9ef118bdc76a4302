//! The texts of the faults of kernels and rounds.

use guest_race::RoundFault;
use locked_core::{BootFault, Fault, StoreFault};
use std::fmt::Display;
use std::process::Abort;

/// A fault has that text.
fn check_text<F: Display, R: AllocGlobal + Abort>(rt: &R, fault: &F, expected: &str) {
    let text = format!(in rt.alloc(); "{fault}").expect(rt, "memory");
    assert_eq!(rt; text.as_str(), expected);
}

#[test]
fn faults_of_a_boot_have_texts(rt: HostRuntime) {
    let counts = "not 1 to 8 CPUs, or more than 8 monitors";
    let sizes = "frames must be 16 to 4096, of a wide kernel 16 to 1048576";
    check_text(&rt, &BootFault::BadSize, sizes);
    check_text(&rt, &BootFault::BadCount, counts);
    check_text(&rt, &BootFault::NoMemory, "out of memory");
}

#[test]
fn faults_of_a_call_have_texts(rt: HostRuntime) {
    check_text(&rt, &Fault::NoMemory, "out of memory");
    check_text(&rt, &Fault::Unread, "the history is longer than the log");
    check_text(&rt, &Fault::Disagree, "the CPUs do not agree with the log");
    check_text(&rt, &Fault::TooManyFrames, "more than 4096 frames");
}

#[test]
fn faults_of_a_stored_kernel_have_texts(rt: HostRuntime) {
    check_text(&rt, &StoreFault::NoMemory, "out of memory");
    check_text(
        &rt,
        &StoreFault::Unread,
        "the history is longer than the log",
    );
    check_text(&rt, &StoreFault::WriteFailed, "write failed");
}

#[test]
fn faults_of_a_round_have_texts(rt: HostRuntime) {
    check_text(&rt, &RoundFault::NoMemory, "out of memory");
    check_text(&rt, &RoundFault::Turns, "a guest ran out of turns");
    check_text(&rt, &RoundFault::Failed, "the round failed");
}
