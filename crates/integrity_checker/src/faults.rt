//! Why an audit was not made, or not finished.

use thiserror::Error;

/// Why an audit was not made, or not finished.
#[derive(Clone, Copy, Debug, PartialEq, Eq, Error)]
pub enum AuditFault {
    /// The number of helpers is not 1 to 8.
    #[error("not 1 to 8 helpers")]
    BadCount,
    /// A helper is not handed back, or has not answered that no number is left.
    #[error("a helper is missing")]
    Missing,
    /// There was no memory for the audit.
    #[error("out of memory")]
    NoMemory,
}
