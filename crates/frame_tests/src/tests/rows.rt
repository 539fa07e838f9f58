//! Rows of tables, and ranges that are told by the numbers of their ticks.

ghost use Rattle.std.specs.Prelude.{◌≤ℤ◌, pos};

use mse_base::{Ranges, Span, Ticks};
use std::process::Abort;

/// The start and the end of a range, in ticks.
pub(super) type Bounds = (i128, i128);

/// Asserts that what a row of a case says holds.
pub(super) fn expect(rt: &impl Abort, case: &str, row: usize, holds: bool) {
    assert!(rt; holds, "{case}, row {row}");
}

/// The same time, which is not to be negative.
pub(super) fn not_negative(rt: &impl Abort, t: Ticks) -> Ticks
    ensures { pos 0 ≤ℤ result }
{
    assert!(rt; 0 <= t.get());
    t
}

pub(super) fn ticks(rt: &impl Abort, number: i128) -> Ticks {
    Ticks::new(number).expect(rt, "ticks in range")
}

pub(super) fn span(rt: &impl Abort, bounds: Bounds) -> Span {
    Span {
        start: ticks(rt, bounds.0),
        end: ticks(rt, bounds.1),
    }
}

pub(super) fn bounds_of(span: Option<Span>) -> Option<Bounds> {
    match span {
        Some(span) => Some((span.start.get(), span.end.get())),
        None => None,
    }
}

/// Whether these are all ranges, in this order.
pub(super) fn are(ranges: &Ranges, wanted: &[Bounds]) -> bool {
    for (i, bounds) in wanted.iter().enumerate() {
        if bounds_of(ranges.get(i)) != Some(*bounds) {
            return false;
        }
    }
    ranges.len() == wanted.len() && ranges.get(wanted.len()).is_none()
}
