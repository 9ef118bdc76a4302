//! Tests of images, their check, maps, films, audits and the arguments of the programs' command lines, by their public
//! calls. They have a crate of their own, so that each of those crates is proved once.
#![tactic(auto)]

#[cfg(test)]
mod audit_memory_tests;
#[cfg(test)]
mod audit_tests;
#[cfg(test)]
mod check_tests;
#[cfg(test)]
mod command_lines;
#[cfg(test)]
mod command_memory_tests;
#[cfg(test)]
mod command_tests;
#[cfg(test)]
mod common;
#[cfg(test)]
mod comparing;
#[cfg(test)]
mod damaged_tests;
#[cfg(test)]
mod film_tests;
#[cfg(test)]
mod images;
#[cfg(test)]
mod map_tests;
#[cfg(test)]
mod restore_tests;
#[cfg(test)]
mod spelling_tests;
#[cfg(test)]
mod state_tests;
#[cfg(test)]
mod stored_tests;
#[cfg(test)]
mod wide_tests;
#[cfg(test)]
mod worked_tests;
