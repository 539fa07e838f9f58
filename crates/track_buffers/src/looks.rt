//! What is stored in all track buffers.

ghost use Rattle.std.specs.Prelude.{◌≡◌, ◌<◌, ◌^◌, map, slice_get, IfSome, IfOk, OnOk, flat_map, [], ◌∷◌, ◌++◌};
ghost use Rattle.mse_base.specs.Moments.{greatest};
ghost use Rattle.track_store.specs.Frames.{bytes_of, starts, ends};
ghost use Rattle.track_store.specs.State.{state_of, states_of};
ghost use Rattle.track_buffers.specs.Views.{track_view};

use mse_base::{OutOfMemory, Ticks};
use mse_calls::{TimeRanges, TrackView, TrackViews};
use std::alloc::Global;
use track_store::{FrameStore, Track, Tracks};

/// The bytes that are stored in the track buffer at a place, where there is one.
pub(crate) fn used_at<S: FrameStore>(tracks: &Tracks<S>, i: usize) -> u64
    ensures value { IfSome (slice_get (states_of S.frames tracks.now.items) i)
        (λ t. result ≡ bytes_of t.frames) }
    ensures small { result < 2 ^ 62 }
{
    match tracks.get(i) {
        Some(track) => track.store.used(),
        None => 0,
    }
}

fn highest_start_at<S: FrameStore>(tracks: &Tracks<S>, i: usize) -> Option<Ticks>
    ensures { IfSome (slice_get (states_of S.frames tracks.now.items) i)
        (λ t. result ≡ greatest (starts t.frames)) }
{
    match tracks.get(i) {
        Some(track) => track.store.highest_start(),
        None => None,
    }
}

/// The greatest presentation timestamp of all stored frames.
pub(crate) fn highest_start<S: FrameStore>(tracks: &Tracks<S>) -> Option<Ticks>
    ensures { result ≡ greatest (flat_map
        (λ t. starts t.frames) (states_of S.frames tracks.now.items)) }
{
    let mut best = None;
    for i in 0..tracks.len() {
        best = best.max(highest_start_at(tracks, i));
    }
    best
}

fn highest_end_at<S: FrameStore>(tracks: &Tracks<S>, i: usize) -> Option<Ticks>
    ensures { IfSome (slice_get (states_of S.frames tracks.now.items) i)
        (λ t. result ≡ greatest (ends t.frames)) }
{
    match tracks.get(i) {
        Some(track) => track.store.highest_end(),
        None => None,
    }
}

/// The greatest frame end timestamp of all stored frames.
pub(crate) fn highest_end<S: FrameStore>(tracks: &Tracks<S>) -> Option<Ticks>
    ensures { result ≡ greatest (flat_map
        (λ t. ends t.frames) (states_of S.frames tracks.now.items)) }
{
    let mut best = None;
    for i in 0..tracks.len() {
        best = best.max(highest_end_at(tracks, i));
    }
    best
}

fn view_of<S: FrameStore>(track: &Track<S>) -> Result<TrackView, OutOfMemory>
    ensures { IfOk result (λ v. v ≡ track_view (S.gap track.now.store)
        (state_of S.frames track.now)) }
{
    let ranges = track.store.copy_ranges()?;
    Ok(TrackView {
        id: track.id,
        kind: track.kind,
        codec: track.codec,
        frames: track.store.len() as u64,
        ranges: TimeRanges::new(ranges),
    })
}

fn push_view<S: FrameStore>(
    views: &mut Vec<TrackView>,
    tracks: &Tracks<S>,
    i: usize,
) -> Result<(), OutOfMemory>
    ensures { OnOk result (IfSome (slice_get tracks.now.items i) (λ t. views.new.items
        ≡ views.old.items ++ track_view (S.gap t.store) (state_of S.frames t) ∷ [])) }
{
    if let Some(track) = tracks.get(i) {
        let view = view_of(track)?;
        views.push(view)?;
    }
    Ok(())
}

/// What the track buffers hold.
pub(crate) fn track_views<S: FrameStore>(
    tracks: &Tracks<S>,
    alloc: Global,
) -> Result<TrackViews, OutOfMemory>
    ensures { IfOk result (λ v. v
        ≡ map (λ t. track_view (S.gap t.store) (state_of S.frames t)) tracks.now.items) }
{
    let mut views = Vec::new(alloc);
    for i in 0..tracks.len() {
        push_view(&mut views, tracks, i)?;
    }
    Ok(TrackViews::from_vec(views))
}
