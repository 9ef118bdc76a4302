//! Log entries, histories and reports.
//!
//! An entry is one event with its reply. A list of entries is a legal history if its replies are those of the machine's
//! run over its events, from its opening (specs/Histories.antt). A report has for each live process its parent, and
//! what it may use, uses and gives (specs/Reports.antt). It can be read off a core, or be kept up to date by absorbing
//! entries in sequence.
#![tactic(auto)]

mod entries;
mod laws;
mod report;
mod rows;
mod text;

pub use entries::LogEntry;
pub use laws::{
    histories_are_guarded, histories_are_isolated, reports_add_up_costs, runs_are_legal,
};
pub use report::{Report, report_of};
pub use rows::Row;
pub use text_output::WriteFailed;
