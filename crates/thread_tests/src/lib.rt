//! Tests of kernels in threads, by their public calls. They have a crate of their own, so that the crates that they use
//! are proved once.
#![tactic(auto)]

#[cfg(test)]
mod audit_gate_tests;
#[cfg(test)]
mod contention_tests;
#[cfg(test)]
mod ending_tests;
#[cfg(test)]
mod forever_tests;
#[cfg(test)]
mod fork_tests;
#[cfg(test)]
mod gate_tests;
#[cfg(test)]
mod kernel_tests;
#[cfg(test)]
mod kernels;
#[cfg(test)]
mod memory_tests;
#[cfg(test)]
mod snapshot_tests;
#[cfg(test)]
mod two_helpers;
#[cfg(test)]
mod wide_tests;
