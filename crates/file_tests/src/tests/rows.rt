//! Rows of tables.

use std::process::Abort;

/// Asserts that what a row says holds.
pub(super) fn expect(rt: &impl Abort, row: &str, holds: bool) {
    assert!(rt; holds, "{row}");
}

/// Asserts that the row of this place holds, or what is said of a number.
pub(super) fn expect_at(rt: &impl Abort, place: usize, holds: bool) {
    assert!(rt; holds, "at {place}");
}
