//! What a test has seen, and what is due.

use std::fmt::Debug;
use std::process::Abort;

/// Asserts that what was seen is what is due. It is proved once, and not with each test that compares.
pub fn assert_same<R: Abort, T: Debug + PartialEq + Drop>(rt: &R, seen: T, due: T) {
    assert_eq!(rt; seen, due);
}
