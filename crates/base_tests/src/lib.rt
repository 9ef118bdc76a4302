//! Tests of the crates from page words to page maps: an example of each call, and allocators that fail. They have a
//! crate of their own, so that each of those crates is proved once. They aren't with the tests of the crates above, so
//! that they are proved without these. The readers and writers that fail are those of the other crates of tests too.
#![tactic(auto)]

#[cfg(test)]
mod address_tests;
#[cfg(test)]
mod comparing;
#[cfg(test)]
mod fault_tests;
#[cfg(test)]
mod frame_table_tests;
#[cfg(test)]
mod ledger_tests;
#[cfg(test)]
mod memory_tests;
#[cfg(test)]
mod offer_tests;
#[cfg(test)]
mod page_map_tests;
#[cfg(test)]
mod quota_tests;
#[cfg(test)]
mod shadow_tests;
pub mod streams;
#[cfg(test)]
mod text_tests;
#[cfg(test)]
mod walk_tests;
#[cfg(test)]
mod word_tests;
