//! How a film ends.

/// How the film of a script ends.
#[derive(Clone, Copy, Debug, PartialEq, Eq)]
pub enum End {
    /// It shows the whole script.
    Whole,
    /// It shows the lines before one, counted from 1, that says nothing which a script may say.
    Malformed {
        /// The line's number.
        line: u32,
    },
    /// It shows the first 2,000 events; more follow.
    Cut,
}
