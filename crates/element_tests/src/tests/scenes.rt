//! What an element is told of its source, as constants. Times are in ticks.

use element_seek::Scene;
use mse_base::{Moment, Span, Ticks};
use std::process::Abort;

/// Ticks in a second.
pub(super) const SECOND: i128 = 141_120_000_000;

/// The start and the end of a range.
type Interval = (i128, i128);

/// The duration, infinite where there is none; whether the source is ended; the range round the
/// position; and what can be sought.
pub(super) type Told = (Option<i128>, bool, Option<Interval>, Option<Interval>);

pub(super) fn time(rt: &impl Abort, t: i128) -> Ticks {
    Ticks::new(t).expect(rt, "ticks in range")
}

fn span_of(rt: &impl Abort, interval: Option<Interval>) -> Option<Span> {
    match interval {
        Some((start, end)) => Some(Span {
            start: time(rt, start),
            end: time(rt, end),
        }),
        None => None,
    }
}

fn moment_of(rt: &impl Abort, t: Option<i128>) -> Moment {
    match t {
        Some(t) => Moment::At(time(rt, t)),
        None => Moment::Infinite,
    }
}

pub(super) fn scene_of(rt: &impl Abort, told: &Told) -> Scene {
    let (duration, ended, span, seekable) = *told;
    Scene {
        duration: moment_of(rt, duration),
        ended,
        span: span_of(rt, span),
        seekable: span_of(rt, seekable),
    }
}
