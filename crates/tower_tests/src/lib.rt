//! Tests of the programs' whole commands: their statuses, what they write, their messages on standard error, and races
//! of few rounds.
#![tactic(auto)]

#[cfg(test)]
mod command_lines;
#[cfg(test)]
mod comparing;
#[cfg(test)]
mod images;
#[cfg(test)]
mod map_status_tests;
#[cfg(test)]
mod race_tests;
#[cfg(test)]
mod resume_tests;
#[cfg(test)]
mod status_tests;
#[cfg(test)]
mod whole_tests;
