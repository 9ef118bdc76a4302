//! Tests of rounds of two guests in threads, of their guests one after the other, and of the texts of faults. They have a
//! crate of their own, so that the tests of kernels in threads don't wait for the proof of rounds.
#![tactic(auto)]

#[cfg(test)]
mod alone_tests;
#[cfg(test)]
mod comparing;
#[cfg(test)]
mod fault_tests;
#[cfg(test)]
mod round_tests;
