//! Initialization segment received (Media Source Extensions, 3.5.7).

ghost use Rattle.std.specs.Prelude.{◌≡◌, ◌≤◌, ◌+◌, [], ◌∷◌, ◌++◌, ℤ, pos, ◌≤ℤ◌, true, false, map, filter, length};
ghost use Rattle.std.specs.List.{AllByRecursion};
ghost use Rattle.mse_base.specs.declared.ticks.Moment.{Moment};
ghost use Rattle.track_store.specs.declared.tracks.Settings.{Settings};
ghost use Rattle.track_store.specs.Kept.{AreSoundAndCountable, gaps_of};
ghost use Rattle.track_store.specs.State.{state_of, states_of, stores_of};
ghost use Rattle.track_buffers.specs.Media.{media_of, is_empty_list, AreEndedWithin};
ghost use Rattle.track_buffers.specs.Initialized.{is_media_track, segment_effect, has_same_tracks, init_fault, new_track, tracks_after};

use crate::effects::{MediaFault, SourceEffect, duration_change, no_effect};
use crate::kinds::{are_known, count_new, media_track_count};
use crate::partners::{count_held, has_all_partners, renew_all};
use mse_base::{Kind, Moment, Presentation, Ticks, TrackInfo};
use std::alloc::Global;
use track_store::{FrameStore, Marks, Track, Tracks};

/// Step 1: what the segment tells of the duration.
pub(crate) fn segment_effect(presentation: &Presentation, duration: &Moment) -> SourceEffect
    ensures { result ≡ segment_effect presentation.now duration.now }
{
    match duration {
        Moment::Nan => duration_change(&presentation.duration, duration),
        Moment::At(_) | Moment::Infinite => no_effect(duration),
    }
}

/// Whether the tracks of a segment are those of the buffer.
fn has_same_tracks<S: FrameStore>(tracks: &Tracks<S>, pending: bool, news: &[TrackInfo]) -> bool
    ensures { (settings : Settings) (gap : ℤ) →
        result ≡ has_same_tracks (filter is_media_track news.now)
        (media_of S.frames tracks.now.items settings pending gap) }
{
    count_new(news, Kind::Video) == count_held(tracks, Kind::Video)
        && count_new(news, Kind::Audio) == count_held(tracks, Kind::Audio)
        && has_all_partners(tracks, news, pending)
}

/// The first thing that is wrong with a segment.
pub(crate) fn init_fault<S: FrameStore>(
    tracks: &Tracks<S>,
    pending: bool,
    presentation: &Presentation,
) -> Option<MediaFault>
    ensures { (settings : Settings) (gap : ℤ) → result ≡ init_fault presentation.now
        (media_of S.frames tracks.now.items settings pending gap) }
{
    let news = presentation.tracks.as_slice();
    if media_track_count(presentation) == 0 {
        return Some(MediaFault::NoTracks);
    }
    if !are_known(news) {
        return Some(MediaFault::UnknownCodec);
    }
    if tracks.len() == 0 || has_same_tracks(tracks, pending, news) {
        None
    } else {
        Some(MediaFault::TracksDiffer)
    }
}

fn new_track<S: FrameStore>(alloc: Global, gap: Ticks, track: &TrackInfo) -> Track<S>
    requires { pos 0 ≤ℤ gap }
    ensures state { state_of S.frames result ≡ new_track track.now }
    ensures gap { S.gap result.store ≡ gap }
{
    Track {
        id: track.id,
        kind: track.kind,
        codec: track.codec,
        store: S::new(alloc, gap),
        marks: Marks::new(),
    }
}

/// A track buffer is made for a video or audio track.
fn add_one<S: FrameStore>(tracks: &mut Tracks<S>, alloc: Global, gap: Ticks, track: &TrackInfo)
    requires room { length (filter is_media_track (track.now ∷ [])) ≤ tracks.old.spare }
    requires gap_from_zero { pos 0 ≤ℤ gap }
    ensures states { states_of S.frames tracks.new.items ≡ states_of S.frames tracks.old.items
        ++ map new_track (filter is_media_track (track.now ∷ [])) }
    ensures places_taken { tracks.old.spare
        ≤ tracks.new.spare + length (filter is_media_track (track.now ∷ [])) }
    ensures gaps { AllByRecursion (λ g. g ≡ gap) (gaps_of S.gap tracks.old.items)
        → AllByRecursion (λ g. g ≡ gap) (gaps_of S.gap tracks.new.items) }
{
    if track.kind.is_media() {
        tracks.add(new_track(alloc, gap, track));
    }
}

/// Step 5: a track buffer for each video or audio track.
fn add_all<S: FrameStore>(tracks: &mut Tracks<S>, alloc: Global, gap: Ticks, news: &[TrackInfo])
    requires room { length (filter is_media_track news.now) ≤ tracks.old.spare }
    requires gap_from_zero { pos 0 ≤ℤ gap }
    ensures states { states_of S.frames tracks.new.items ≡ states_of S.frames tracks.old.items
        ++ map new_track (filter is_media_track news.now) }
    ensures places_taken { tracks.old.spare
        ≤ tracks.new.spare + length (filter is_media_track news.now) }
    ensures gaps { AllByRecursion (λ g. g ≡ gap) (gaps_of S.gap tracks.old.items)
        → AllByRecursion (λ g. g ≡ gap) (gaps_of S.gap tracks.new.items) }
{
    for track in news {
        add_one(tracks, alloc, gap, track);
    }
}

/// The track buffers go on with the tracks of a segment, or are made for them.
pub(crate) fn take_tracks<S: FrameStore>(
    tracks: &mut Tracks<S>,
    alloc: Global,
    gap: Ticks,
    news: &[TrackInfo],
)
    requires room { is_empty_list (states_of S.frames tracks.old.items) ≡ true
        → length (filter is_media_track news.now) ≤ tracks.old.spare }
    requires gap_from_zero { pos 0 ≤ℤ gap }
    ensures states { states_of S.frames tracks.new.items
        ≡ tracks_after (filter is_media_track news.now) (states_of S.frames tracks.old.items) }
    ensures stores { is_empty_list (states_of S.frames tracks.old.items) ≡ false
        → stores_of tracks.new.items ≡ stores_of tracks.old.items }
    ensures places { is_empty_list (states_of S.frames tracks.old.items) ≡ false
        → tracks.new.spare ≡ tracks.old.spare }
    ensures places_taken { tracks.old.spare
        ≤ tracks.new.spare + length (filter is_media_track news.now) }
    ensures sound_and_countable { AreSoundAndCountable (states_of S.frames tracks.old.items)
        → AreSoundAndCountable (states_of S.frames tracks.new.items) }
    ensures within_duration { (duration : Moment) →
        AreEndedWithin duration (states_of S.frames tracks.old.items)
        → AreEndedWithin duration (states_of S.frames tracks.new.items) }
    ensures gaps { AllByRecursion (λ g. g ≡ gap) (gaps_of S.gap tracks.old.items)
        → AllByRecursion (λ g. g ≡ gap) (gaps_of S.gap tracks.new.items) }
{
    if tracks.len() == 0 {
        add_all(tracks, alloc, gap, news);
    } else {
        renew_all(tracks, news);
    }
}
