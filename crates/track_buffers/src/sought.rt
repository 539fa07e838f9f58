//! The range that is looked for in each track.

ghost use Rattle.std.specs.Prelude.{◌≡◌, ◌≤ℤ◌, pos, find, map, slice_get, IfSome};
ghost use Rattle.std.specs.List.{AllByRecursion};
ghost use Rattle.mse_base.specs.Spans.{has_end_after, reaches};
ghost use Rattle.track_store.specs.Frames.{ranges_of};
ghost use Rattle.track_store.specs.Kept.{gaps_of};
ghost use Rattle.track_buffers.specs.Buffered.{is_sought, with_end, with_last_end, ranges_in};

use crate::buffered::span_up_to;
use mse_base::{Span, Ticks};
use track_store::{FrameStore, Track, Tracks};

/// Which range of a track is looked for.
#[derive(Clone, Copy, Debug)]
pub(crate) enum Sought {
    /// The one that holds a time.
    Holding(Ticks),
    /// The first that ends after a time.
    EndAfter(Ticks),
}

/// The range of a track that holds a time, where the last one lasts to an end.
fn extended_span_holding<S: FrameStore>(track: &Track<S>, t: Ticks, end: Ticks) -> Option<Span>
    requires { pos 0 ≤ℤ S.gap track.now.store }
    ensures { result ≡ find (reaches t)
        (with_last_end end (ranges_of (S.gap track.now.store) (S.frames track.now.store))) }
{
    let Some(last) = track.store.last_span() else {
        return None;
    };
    if t < last.start {
        return track.store.span_holding(t);
    }
    let extended = span_up_to(last, end);
    if extended.end < t {
        None
    } else {
        Some(extended)
    }
}

/// The first range of a track that ends after a time, where the last one lasts to an end.
fn extended_span_after<S: FrameStore>(track: &Track<S>, t: Ticks, end: Ticks) -> Option<Span>
    requires { pos 0 ≤ℤ S.gap track.now.store }
    ensures { result ≡ find (has_end_after t)
        (with_last_end end (ranges_of (S.gap track.now.store) (S.frames track.now.store))) }
{
    let Some(last) = track.store.last_span() else {
        return None;
    };
    let span = track.store.first_span_after(t).unwrap_or(last);
    if span.start < last.start {
        return Some(span);
    }
    let span = span_up_to(last, end);
    if t < span.end { Some(span) } else { None }
}

/// The range of a track that is looked for, where its last one lasts to an end if there is one.
fn span_of_track<S: FrameStore>(
    track: &Track<S>,
    sought: Sought,
    end: &Option<Ticks>,
) -> Option<Span>
    requires { pos 0 ≤ℤ S.gap track.now.store }
    ensures { result ≡ find (is_sought sought)
        (with_end end.now (ranges_of (S.gap track.now.store) (S.frames track.now.store))) }
{
    match sought {
        Sought::Holding(t) => match end {
            Some(end) => extended_span_holding(track, t, *end),
            None => track.store.span_holding(t),
        },
        Sought::EndAfter(t) => match end {
            Some(end) => extended_span_after(track, t, *end),
            None => track.store.first_span_after(t),
        },
    }
}

/// The range of the track at a place that is looked for, where its last one lasts
/// to an end if there is one.
pub(crate) fn span_at<S: FrameStore>(
    tracks: &Tracks<S>,
    i: usize,
    sought: Sought,
    end: &Option<Ticks>,
) -> Option<Span>
    requires { AllByRecursion (λ g. pos 0 ≤ℤ g) (gaps_of S.gap tracks.now.items) }
    ensures { IfSome (slice_get
        (map (with_end end.now) (ranges_in S.frames S.gap tracks.now.items)) i)
        (λ r. result ≡ find (is_sought sought) r) }
{
    match tracks.get(i) {
        Some(track) => span_of_track(track, sought, end),
        None => None,
    }
}
