//! Rows of tables.

use std::process::Abort;

/// Asserts that what a row says holds.
pub(super) fn expect(rt: &impl Abort, row: &str, holds: bool) {
    assert!(rt; holds, "{row}");
}

/// Asserts that what is said of a number holds, as of a length, a cut or the number of a row.
pub(super) fn expect_at(rt: &impl Abort, number: usize, holds: bool) {
    assert!(rt; holds, "at {number}");
}
