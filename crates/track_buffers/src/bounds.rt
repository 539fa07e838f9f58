//! The first and the last buffered range, found without memory: each round looks at one range of
//! each track.

ghost use Rattle.std.specs.Prelude.{◌≡◌, ◌≤ℤ◌, pos, false, find, map, slice_get, IfSome};
ghost use Rattle.std.specs.List.{AllByRecursion, filter};
ghost use Rattle.mse_base.specs.Meets.{meet_of_all, narrowed_of_two, narrowed_of_all};
ghost use Rattle.mse_base.specs.Spans.{has_end_after, first_of, last_of, has_start_before};
ghost use Rattle.track_store.specs.Kept.{AreSoundAndCountable, gaps_of};
ghost use Rattle.track_store.specs.State.{states_of};
ghost use Rattle.track_buffers.specs.Buffered.{with_common_end, with_end, ranges_in};

use crate::buffered::{common_end, highest_range_end};
use crate::holding::ended_last_span;
use crate::sought::{Sought, span_at};
use mse_base::{Span, Ticks};
use track_store::{FrameStore, Tracks};

/// From the later start of two spans to the earlier end, which may be before it. Neither span is
/// missing.
fn narrowed_of_two(x: Option<Span>, y: Option<Span>) -> Option<Span>
    ensures { result ≡ narrowed_of_two x y }
{
    match (x, y) {
        (Some(x), Some(y)) => Some(Span {
            start: x.start.max(y.start),
            end: x.end.min(y.end),
        }),
        _ => None,
    }
}

/// Of each track the first range that ends after a time: from the latest start to the earliest
/// end, which may be before it. `None` exactly where a track has no such range, or there is no
/// track.
fn narrowed_after<S: FrameStore>(tracks: &Tracks<S>, t: Ticks, end: &Option<Ticks>) -> Option<Span>
    requires { AllByRecursion (λ g. pos 0 ≤ℤ g) (gaps_of S.gap tracks.now.items) }
    ensures { result ≡ narrowed_of_all (map (find (has_end_after t))
        (map (with_end end.now) (ranges_in S.frames S.gap tracks.now.items))) }
{
    if tracks.len() == 0 {
        return None;
    }
    let mut span = span_at(tracks, 0, Sought::EndAfter(t), end);
    for i in 1..tracks.len() {
        span = narrowed_of_two(span, span_at(tracks, i, Sought::EndAfter(t), end));
    }
    span
}

/// The first buffered range of tracks. Where the first ranges of all that end after a time share
/// no tick, one of them has ended where another begins: no tick before that is buffered, and the
/// next round looks from there on.
pub(crate) fn first_span<S: FrameStore>(tracks: &Tracks<S>, ended: bool) -> Option<Span>
    requires gaps_from_zero { AllByRecursion (λ g. pos 0 ≤ℤ g) (gaps_of S.gap tracks.now.items) }
    requires sound_and_countable { AreSoundAndCountable (states_of S.frames tracks.now.items) }
    ensures { result ≡ first_of
        (meet_of_all (with_common_end ended (ranges_in S.frames S.gap tracks.now.items))) }
{
    let end = common_end(tracks, ended);
    let mut t = Ticks::zero();
    while let Some(span) = narrowed_after(tracks, t, &end) {
        if span.start < span.end {
            return Some(span);
        }
        t = span.start;
    }
    None
}

fn span_before_at<S: FrameStore>(tracks: &Tracks<S>, i: usize, t: Ticks) -> Option<Span>
    ensures { IfSome (slice_get (ranges_in S.frames S.gap tracks.now.items) i)
        (λ r. result ≡ last_of (filter (has_start_before t) r)) }
{
    tracks.get(i)?.store.last_span_before(t)
}

/// Of each track the last range that starts before a time: from the latest start to the earliest
/// end, which may be before it. `None` exactly where a track has no such range, or there is no
/// track.
fn narrowed_before<S: FrameStore>(tracks: &Tracks<S>, t: Ticks) -> Option<Span>
    ensures { result ≡ narrowed_of_all (map (λ r. last_of (filter (has_start_before t) r))
        (ranges_in S.frames S.gap tracks.now.items)) }
{
    if tracks.len() == 0 {
        return None;
    }
    let mut span = span_before_at(tracks, 0, t);
    for i in 1..tracks.len() {
        span = narrowed_of_two(span, span_before_at(tracks, i, t));
    }
    span
}

/// The last buffered range of tracks, where the source is not ended: as the first one, backwards
/// from the highest end of all.
fn open_last_span<S: FrameStore>(tracks: &Tracks<S>) -> Option<Span>
    requires { AllByRecursion (λ g. pos 0 ≤ℤ g) (gaps_of S.gap tracks.now.items) }
    ensures { result ≡ last_of
        (meet_of_all (with_common_end false (ranges_in S.frames S.gap tracks.now.items))) }
{
    let mut t = match highest_range_end(tracks) {
        Some(end) => end,
        None => return None,
    };
    while let Some(span) = narrowed_before(tracks, t) {
        if span.start < span.end {
            return Some(span);
        }
        t = span.end;
    }
    None
}

/// The last buffered range of tracks. Where the source is ended, it is the one that holds the
/// highest end of all.
pub(crate) fn last_span<S: FrameStore>(tracks: &Tracks<S>, ended: bool) -> Option<Span>
    requires { AllByRecursion (λ g. pos 0 ≤ℤ g) (gaps_of S.gap tracks.now.items) }
    ensures { result ≡ last_of
        (meet_of_all (with_common_end ended (ranges_in S.frames S.gap tracks.now.items))) }
{
    if ended {
        ended_last_span(tracks)
    } else {
        open_last_span(tracks)
    }
}
