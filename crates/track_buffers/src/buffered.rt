//! The buffered ranges of a source buffer (Media Source Extensions, 3.1, buffered).

ghost use Rattle.std.specs.Prelude.{◌≡◌, ◌≤ℤ◌, ℤ, pos, map, slice_get, IfSome, IfOk, OnOk, OnErr};
ghost use Rattle.std.specs.List.{AllByRecursion};
ghost use Rattle.std.specs.Int.{int_max};
ghost use Rattle.mse_base.specs.Spans.{IsNormalized};
ghost use Rattle.mse_base.specs.Meets.{meet_of_all};
ghost use Rattle.mse_base.specs.Moments.{greatest};
ghost use Rattle.track_store.specs.Frames.{ranges_of};
ghost use Rattle.track_store.specs.Kept.{gaps_of};
ghost use Rattle.track_buffers.specs.Buffered.{last_end, last_ends, with_last_end, with_end, with_common_end, ranges_in};

use mse_base::{OutOfMemory, Ranges, Span, Ticks};
use std::alloc::Global;
use track_store::{FrameStore, Track, Tracks};

/// Where the last range of the track at a place ends.
fn last_end_at<S: FrameStore>(tracks: &Tracks<S>, i: usize) -> Option<Ticks>
    ensures { IfSome (slice_get (ranges_in S.frames S.gap tracks.now.items) i)
        (λ r. result ≡ last_end r) }
{
    let last = tracks.get(i)?.store.last_span()?;
    Some(last.end)
}

/// The highest end of the ranges of all tracks.
pub(crate) fn highest_range_end<S: FrameStore>(tracks: &Tracks<S>) -> Option<Ticks>
    ensures { result ≡ greatest (last_ends (ranges_in S.frames S.gap tracks.now.items)) }
{
    let mut best = None;
    for i in 0..tracks.len() {
        best = best.max(last_end_at(tracks, i));
    }
    best
}

/// A span that lasts to an end, if it ends before.
pub fn span_up_to(span: Span, end: Ticks) -> Span
    ensures { result ≡ record { start = span.start; end = int_max span.end end } }
{
    Span {
        start: span.start,
        end: span.end.max(end),
    }
}

/// The last range lasts to an end, if it ends before. An `Err` changes nothing.
pub fn extend_last(ranges: &mut Ranges, end: Ticks) -> Result<(), OutOfMemory>
    requires { IsNormalized ranges.old.spans }
    ensures ok { OnOk result (ranges.new.spans ≡ with_last_end end ranges.old.spans) }
    ensures err { OnErr result (ranges.new.spans ≡ ranges.old.spans) }
{
    let Some(last) = ranges.last() else {
        return Ok(());
    };
    ranges.reserve(1)?;
    ranges.add_span(span_up_to(last, end), Ticks::zero());
    Ok(())
}

/// The ranges of a track, of which the last lasts to an end, where there is one.
fn ranges_with_end<S: FrameStore>(
    track: &Track<S>,
    end: &Option<Ticks>,
) -> Result<Ranges, OutOfMemory>
    requires { pos 0 ≤ℤ S.gap track.now.store }
    ensures { IfOk result (λ r. r.spans
        ≡ with_end end.now (ranges_of (S.gap track.now.store) (S.frames track.now.store))) }
{
    let mut ranges = track.store.copy_ranges()?;
    if let Some(end) = end {
        extend_last(&mut ranges, *end)?;
    }
    Ok(ranges)
}

fn ranges_at<S: FrameStore>(
    tracks: &Tracks<S>,
    alloc: Global,
    i: usize,
    end: &Option<Ticks>,
) -> Result<Ranges, OutOfMemory>
    requires { AllByRecursion (λ g. pos 0 ≤ℤ g) (gaps_of S.gap tracks.now.items) }
    ensures { IfOk result (λ r. IfSome (slice_get
        (map (with_end end.now) (ranges_in S.frames S.gap tracks.now.items)) i)
        (λ x. r.spans ≡ x)) }
{
    match tracks.get(i) {
        Some(track) => ranges_with_end(track, end),
        None => Ok(Ranges::new(alloc)),
    }
}

/// The ticks that all tracks have, where the last range of each lasts to an end.
fn meet_of_all<S: FrameStore>(
    tracks: &Tracks<S>,
    alloc: Global,
    end: &Option<Ticks>,
) -> Result<Ranges, OutOfMemory>
    requires { AllByRecursion (λ g. pos 0 ≤ℤ g) (gaps_of S.gap tracks.now.items) }
    ensures { IfOk result (λ r. r.spans
        ≡ meet_of_all (map (with_end end.now) (ranges_in S.frames S.gap tracks.now.items))) }
{
    if tracks.len() == 0 {
        return Ok(Ranges::new(alloc));
    }
    let mut common = ranges_at(tracks, alloc, 0, end)?;
    for i in 1..tracks.len() {
        let ranges = ranges_at(tracks, alloc, i, end)?;
        common = common.meet(&ranges)?;
    }
    Ok(common)
}

/// The end that the last range of each track lasts to: where the source is ended, the highest of
/// all.
pub(crate) fn common_end<S: FrameStore>(tracks: &Tracks<S>, ended: bool) -> Option<Ticks>
    ensures { map (with_end result) (ranges_in S.frames S.gap tracks.now.items)
        ≡ with_common_end ended (ranges_in S.frames S.gap tracks.now.items) }
{
    if ended {
        highest_range_end(tracks)
    } else {
        None
    }
}

/// The buffered ranges of tracks.
pub(crate) fn buffered_of<S: FrameStore>(
    tracks: &Tracks<S>,
    alloc: Global,
    ended: bool,
) -> Result<Ranges, OutOfMemory>
    requires { AllByRecursion (λ g. pos 0 ≤ℤ g) (gaps_of S.gap tracks.now.items) }
    ensures { IfOk result (λ r. r.spans
        ≡ meet_of_all (with_common_end ended (ranges_in S.frames S.gap tracks.now.items))) }
{
    let end = common_end(tracks, ended);
    meet_of_all(tracks, alloc, &end)
}
