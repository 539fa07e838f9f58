//! The buffered range that holds a time, found without memory.

ghost use Rattle.std.specs.Prelude.{◌≡◌, ◌≤ℤ◌, pos, true, find, slice_get, IfSome};
ghost use Rattle.std.specs.List.{AllByRecursion};
ghost use Rattle.mse_base.specs.Meets.{meet_of_all, overlap_of_two};
ghost use Rattle.mse_base.specs.Spans.{last_of, reaches};
ghost use Rattle.track_store.specs.Kept.{gaps_of};
ghost use Rattle.track_buffers.specs.Buffered.{lasts_to, with_common_end, ranges_in};

use crate::buffered::{common_end, highest_range_end};
use crate::sought::{Sought, span_at};
use mse_base::{Span, Ticks};
use track_store::{FrameStore, Tracks};

/// The ticks that two spans share, neither of which is missing.
pub fn overlap_of_two(x: Option<Span>, y: Option<Span>) -> Option<Span>
    ensures { result ≡ overlap_of_two x y }
{
    match (x, y) {
        (Some(x), Some(y)) => x.overlap(y),
        _ => None,
    }
}

/// Whether there is a range, and it ends at a time or after it.
pub fn lasts_to(span: &Option<Span>, t: Ticks) -> bool
    ensures { result ≡ lasts_to t span.now }
{
    match span {
        Some(span) => t <= span.end,
        None => false,
    }
}

/// The buffered range of tracks that holds a time: one look-up in each track.
#[cold]
#[inline(never)]
fn shared_span_holding<S: FrameStore>(tracks: &Tracks<S>, t: Ticks, ended: bool) -> Option<Span>
    requires { AllByRecursion (λ g. pos 0 ≤ℤ g) (gaps_of S.gap tracks.now.items) }
    ensures { result ≡ find (reaches t)
        (meet_of_all (with_common_end ended (ranges_in S.frames S.gap tracks.now.items))) }
{
    let end = common_end(tracks, ended);
    if tracks.len() == 0 {
        return None;
    }
    let mut span = span_at(tracks, 0, Sought::Holding(t), &end);
    for i in 1..tracks.len() {
        span = overlap_of_two(span, span_at(tracks, i, Sought::Holding(t), &end));
    }
    span
}

/// The range that holds a time of the track at a place.
pub(crate) fn own_span_at<S: FrameStore>(tracks: &Tracks<S>, i: usize, t: Ticks) -> Option<Span>
    ensures { IfSome (slice_get (ranges_in S.frames S.gap tracks.now.items) i)
        (λ r. result ≡ find (reaches t) r) }
{
    match tracks.get(i) {
        Some(track) => track.store.span_holding(t),
        None => None,
    }
}

/// The buffered range of tracks that holds a time. That of one track is its own where the source is
/// not ended.
pub(crate) fn span_holding<S: FrameStore>(tracks: &Tracks<S>, t: Ticks, ended: bool) -> Option<Span>
    requires { AllByRecursion (λ g. pos 0 ≤ℤ g) (gaps_of S.gap tracks.now.items) }
    ensures { result ≡ find (reaches t)
        (meet_of_all (with_common_end ended (ranges_in S.frames S.gap tracks.now.items))) }
{
    if !ended && tracks.len() == 1 {
        return own_span_at(tracks, 0, t);
    }
    shared_span_holding(tracks, t, ended)
}

/// The last buffered range of tracks, where the source is ended: the one that holds the highest end
/// of all, to which the last range of each track lasts.
pub(crate) fn ended_last_span<S: FrameStore>(tracks: &Tracks<S>) -> Option<Span>
    requires { AllByRecursion (λ g. pos 0 ≤ℤ g) (gaps_of S.gap tracks.now.items) }
    ensures { result ≡ last_of
        (meet_of_all (with_common_end true (ranges_in S.frames S.gap tracks.now.items))) }
{
    match highest_range_end(tracks) {
        Some(end) => shared_span_holding(tracks, end, true),
        None => None,
    }
}
