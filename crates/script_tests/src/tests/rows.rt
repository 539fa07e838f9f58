//! What rows of tables tell by numbers: times and ranges; and texts that are printed.

use mse_base::{OutOfMemory, Ranges, Span, Text, Ticks};
use mse_calls::TimeRanges;
use std::process::Abort;

/// The start and the end of a range, in ticks.
pub(super) type Bounds = (i128, i128);

pub(super) fn time(rt: &impl Abort, ticks: i128) -> Ticks {
    Ticks::new(ticks).expect(rt, "ticks in range")
}

pub(super) fn span(rt: &impl Abort, bounds: Bounds) -> Span {
    Span {
        start: time(rt, bounds.0),
        end: time(rt, bounds.1),
    }
}

pub(super) fn time_ranges(rt: &(impl Abort + AllocGlobal), rows: &[Bounds]) -> TimeRanges {
    let mut ranges = Ranges::new(rt.alloc());
    for bounds in rows {
        ranges.reserve(1).expect(rt, "memory");
        ranges.add_span(span(rt, *bounds), Ticks::zero());
    }
    TimeRanges::new(ranges)
}

pub(super) fn text(rt: &(impl Abort + AllocGlobal), chars: &str) -> Text {
    Text::copy_of(rt.alloc(), chars).expect(rt, "memory")
}

/// Asserts that what is printed is the text of a row.
pub(super) fn expect_printed(rt: &impl Abort, printed: Result<Text, OutOfMemory>, wanted: &str) {
    let printed = printed.expect(rt, "memory");
    assert!(rt; printed.as_str() == wanted, "{wanted}");
}
