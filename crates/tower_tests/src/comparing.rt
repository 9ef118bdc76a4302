//! Comparisons that assert: so a test is a list of calls.

use std::fmt::Debug;
use std::process::Abort;

/// What was found is what was expected.
pub(crate) fn same<T: PartialEq + Debug>(rt: &impl Abort, found: &T, expected: &T) {
    assert_eq!(rt; found, expected);
}

/// These bytes are the expected ones.
pub(crate) fn same_bytes(rt: &impl Abort, bytes: &[u8], expected: &[u8]) {
    assert_eq!(rt; bytes, expected);
}
