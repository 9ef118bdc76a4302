//! Tests of the crates from address spaces to scripts and guests: an example of each call, and readers, writers and
//! allocators that fail. They have a crate of their own, so that each of those crates is proved once. The scripts of
//! `checks/` compare the replies of long runs.
#![tactic(auto)]

#[cfg(test)]
mod act_tests;
#[cfg(test)]
mod common;
#[cfg(test)]
mod frame_tests;
#[cfg(test)]
mod guest_tests;
#[cfg(test)]
mod handover_tests;
#[cfg(test)]
mod kernel_tests;
#[cfg(test)]
mod lazy_tests;
#[cfg(test)]
mod load_tests;
#[cfg(test)]
mod page_tests;
#[cfg(test)]
mod plan_tests;
#[cfg(test)]
mod process_tests;
#[cfg(test)]
mod report_tests;
#[cfg(test)]
mod script_tests;
#[cfg(test)]
mod seat_tests;
#[cfg(test)]
mod shadow_tests;
#[cfg(test)]
mod space_tests;
#[cfg(test)]
mod stream_tests;
#[cfg(test)]
mod transfer_tests;
#[cfg(test)]
mod walk_tests;
#[cfg(test)]
mod window_tests;
