//! The buffered range at a time that is looked up at each step: it stays known while frames come,
//! so that a frame costs about the same in a buffer of many tracks as in one of few.

ghost use Rattle.std.specs.Prelude.{◌≡◌, ◌≤◌, ◌≤ℤ◌, ◌<◌, pos, List, length, find, slice_get, slice_set, IfSome};
ghost use Rattle.std.specs.List.{list_all, AllByRecursion};
ghost use Rattle.mse_base.specs.declared.span.Span.{Span};
ghost use Rattle.mse_base.specs.Meets.{meet_of_all};
ghost use Rattle.mse_base.specs.Spans.{reaches, IsNormalized};
ghost use Rattle.track_store.specs.Kept.{gaps_of};
ghost use Rattle.track_buffers.specs.Buffered.{is_buffered_up_to, ranges_in, with_common_end};
ghost use Rattle.track_buffers.specs.Watching.{IsWatchOf, end_or, is_ended_at, is_watched, least_after, least_after_end, least_with};

use crate::holding::{lasts_to, overlap_of_two, own_span_at, span_holding};
use mse_base::{Span, Ticks};
use track_store::{FrameStore, Tracks};

/// A time, and the buffered range that holds it where the source is not ended.
#[derive(Clone, Copy, Debug)]
pub(crate) struct Watch {
    pub(crate) t: Ticks,
    pub(crate) span: Option<Span>,
    /// Of how many tracks, at least, the range that holds the time ends where `span` ends.
    pub(crate) least: usize,
}

/// How many ranges end where the shared one does, where one more track has the range `own`.
fn least_with(shared: &Option<Span>, n: usize, own: &Option<Span>) -> usize
    ensures at_most { result ≤ least_with shared.now n own.now }
    ensures value { n < 18446744073709551615 → result ≡ least_with shared.now n own.now }
{
    match (shared, own) {
        (Some(shared), Some(own)) => {
            if own.end == shared.end {
                n.saturating_add(1)
            } else if own.end < shared.end {
                1
            } else {
                n
            }
        }
        _ => 0,
    }
}

/// The watch of a time: one look-up in each track.
#[cold]
#[inline(never)]
pub(crate) fn watch_of<S: FrameStore>(tracks: &Tracks<S>, t: Ticks) -> Watch
    requires some { 1 ≤ length tracks.now.items }
    requires gaps_from_zero { AllByRecursion (λ g. pos 0 ≤ℤ g) (gaps_of S.gap tracks.now.items) }
    ensures { IsWatchOf result (ranges_in S.frames S.gap tracks.now.items) }
{
    let mut span = own_span_at(tracks, 0, t);
    let mut least = 1;
    for i in 1..tracks.len() {
        let own = own_span_at(tracks, i, t);
        least = least_with(&span, least, &own);
        span = overlap_of_two(span, own);
    }
    Watch { t, span, least }
}

/// The range of the track at a place that holds the time of a watch, if there is a watch.
pub(crate) fn own_span<S: FrameStore>(
    tracks: &Tracks<S>,
    i: usize,
    watch: &Option<Watch>,
) -> Option<Span>
    ensures { IfSome watch.now
        (λ w. IfSome (slice_get (ranges_in S.frames S.gap tracks.now.items) i)
        (λ r. result ≡ find (reaches w.t) r)) }
{
    match watch {
        Some(watch) => own_span_at(tracks, i, watch.t),
        None => None,
    }
}

fn end_or(t: Ticks, span: &Option<Span>) -> Ticks
    ensures { result ≡ end_or t span.now }
{
    match span {
        Some(span) => span.end,
        None => t,
    }
}

/// Whether the range that all tracks share ends at a time.
fn is_ended_at(t: Ticks, span: &Option<Span>) -> bool
    ensures { result ≡ is_ended_at t span.now }
{
    match span {
        Some(span) => span.end == t,
        None => false,
    }
}

/// How many ranges still end where the one that all tracks share does, where that of one track keeps
/// its start and gets another end; `None` where the shared one may change.
fn least_after_end(watch: &Watch, old: Ticks, new: Ticks) -> Option<usize>
    ensures { result ≡ least_after_end watch.now old new }
{
    let end = end_or(watch.t, &watch.span);
    if new <= end {
        return None;
    }
    if end < old {
        return Some(watch.least);
    }
    if 2 <= watch.least && is_ended_at(old, &watch.span) {
        return Some(watch.least - 1);
    }
    None
}

/// The same, where the range of one track changes so.
fn least_after(watch: &Watch, old: &Option<Span>, new: &Option<Span>) -> Option<usize>
    ensures { result ≡ least_after watch.now old.now new.now }
{
    match (old, new) {
        (Some(old), Some(new)) if old.start != new.start => None,
        (Some(old), Some(new)) if old.end == new.end => Some(watch.least),
        (Some(old), Some(new)) => least_after_end(watch, old.end, new.end),
        (None, None) => Some(watch.least),
        _ => None,
    }
}

/// Makes the watch that of the same time, where the track at a place has changed alone, whose own
/// range was `old`. Where there is no watch, nothing is written.
pub(crate) fn watch_after<S: FrameStore>(
    tracks: &Tracks<S>,
    i: usize,
    watch: &mut Option<Watch>,
    old: &Option<Span>,
)
    requires some { 1 ≤ length tracks.now.items }
    requires gaps_from_zero { AllByRecursion (λ g. pos 0 ≤ℤ g) (gaps_of S.gap tracks.now.items) }
    ensures { (rs : List (List Span))
        → i < length (ranges_in S.frames S.gap tracks.now.items)
        → AllByRecursion IsNormalized rs
        → IfSome (slice_get (ranges_in S.frames S.gap tracks.now.items) i)
        (λ r. ranges_in S.frames S.gap tracks.now.items ≡ slice_set rs i r)
        → IfSome watch.old (λ w. IsWatchOf w rs)
        → IfSome watch.old (λ w. IfSome (slice_get rs i) (λ r. old.now ≡ find (reaches w.t) r))
        → IfSome watch.new (λ w. IsWatchOf w (ranges_in S.frames S.gap tracks.now.items)) }
{
    if let Some(watch) = watch {
        let new = own_span_at(tracks, i, watch.t);
        match least_after(watch, old, &new) {
            Some(least) => watch.least = least,
            None => *watch = watch_of(tracks, watch.t),
        }
    }
}

/// Whether a time is watched.
pub(crate) fn is_watched(watch: &Option<Watch>, t: Ticks) -> bool
    ensures { result ≡ is_watched t watch.now }
{
    match watch {
        Some(watch) => watch.t == t,
        None => false,
    }
}

/// The buffered range that holds a time: that of the watch, or by a look-up in each track.
pub(crate) fn watched_span<S: FrameStore>(
    tracks: &Tracks<S>,
    watch: &Option<Watch>,
    t: Ticks,
    ended: bool,
) -> Option<Span>
    requires gaps_from_zero { AllByRecursion (λ g. pos 0 ≤ℤ g) (gaps_of S.gap tracks.now.items) }
    requires watch { IfSome watch.now
        (λ w. IsWatchOf w (ranges_in S.frames S.gap tracks.now.items)) }
    ensures { result ≡ find (reaches t)
        (meet_of_all (with_common_end ended (ranges_in S.frames S.gap tracks.now.items))) }
{
    match watch {
        Some(watch) if !ended && watch.t == t => watch.span,
        _ => span_holding(tracks, t, ended),
    }
}

/// Whether a range of the track at a place holds a time, and it lasts to another.
fn is_own_up_to<S: FrameStore>(tracks: &Tracks<S>, i: usize, t: Ticks, until: Ticks) -> bool
    ensures { IfSome (slice_get (ranges_in S.frames S.gap tracks.now.items) i)
        (λ r. result ≡ is_buffered_up_to t until r) }
{
    lasts_to(&own_span_at(tracks, i, t), until)
}

/// The same of all tracks.
fn are_all_up_to<S: FrameStore>(tracks: &Tracks<S>, t: Ticks, until: Ticks) -> bool
    ensures { result
        ≡ list_all (is_buffered_up_to t until) (ranges_in S.frames S.gap tracks.now.items) }
{
    for i in 0..tracks.len() {
        if !is_own_up_to(tracks, i, t, until) {
            return false;
        }
    }
    true
}

/// Whether a buffered range holds a time, and it lasts to another. This is asked at each step, and no
/// range of one track is copied for it.
pub(crate) fn is_buffered_up_to<S: FrameStore>(
    tracks: &Tracks<S>,
    watch: &Option<Watch>,
    t: Ticks,
    until: Ticks,
    ended: bool,
) -> bool
    requires gaps_from_zero { AllByRecursion (λ g. pos 0 ≤ℤ g) (gaps_of S.gap tracks.now.items) }
    requires watch { IfSome watch.now
        (λ w. IsWatchOf w (ranges_in S.frames S.gap tracks.now.items)) }
    ensures { result ≡ is_buffered_up_to t until
        (meet_of_all (with_common_end ended (ranges_in S.frames S.gap tracks.now.items))) }
{
    if !ended && tracks.len() == 1 {
        return is_own_up_to(tracks, 0, t, until);
    }
    is_shared_up_to(tracks, watch, t, until, ended)
}

/// The same of several tracks. There may be a watch where there are more than two.
#[inline(never)]
fn is_shared_up_to<S: FrameStore>(
    tracks: &Tracks<S>,
    watch: &Option<Watch>,
    t: Ticks,
    until: Ticks,
    ended: bool,
) -> bool
    requires gaps_from_zero { AllByRecursion (λ g. pos 0 ≤ℤ g) (gaps_of S.gap tracks.now.items) }
    requires watch { IfSome watch.now
        (λ w. IsWatchOf w (ranges_in S.frames S.gap tracks.now.items)) }
    ensures { result ≡ is_buffered_up_to t until
        (meet_of_all (with_common_end ended (ranges_in S.frames S.gap tracks.now.items))) }
{
    if !ended && tracks.len() == 2 && t < until {
        return are_all_up_to(tracks, t, until);
    }
    lasts_to(&watched_span(tracks, watch, t, ended), until)
}
