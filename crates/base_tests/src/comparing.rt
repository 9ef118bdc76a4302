//! What the tests share: the comparison that they assert by, and processes.

use page_words::Pid;
use std::fmt::Debug;
use std::process::Abort;

/// What was found is what was expected.
pub(crate) fn same<T: PartialEq + Debug>(rt: &impl Abort, found: &T, expected: &T) {
    assert_eq!(rt; found, expected);
}

/// The process of a number.
pub(crate) fn process(rt: &impl Abort, number: u8) -> Pid {
    Pid::new(number).expect(rt, "a number below 64")
}
