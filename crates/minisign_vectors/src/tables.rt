//! Assertions over tables.

use std::fmt::Debug;
use std::process::Abort;

/// Asserts that the condition holds, and names the row if it does not.
pub fn assert_row<T: Debug>(rt: &impl Abort, right: bool, row: &T) {
    assert!(rt; right, "at {row:?}");
}
