//! Coded frames, and the marks where the parser is reset.

ghost use Rattle.std.specs.Prelude.{◌≡◌, ◌≤◌, ◌<◌, ℕ, ℤ, pos, ◌≤ℤ◌, ◌==◌, Bool, false, Some, map, length, slice_get, slice_set, IfSome};
ghost use Rattle.mse_base.specs.declared.ticks.Moment.{Moment};
ghost use Rattle.track_store.specs.Kept.{AreSoundAndCountable, HasSpareRoom, bytes_in, gaps_of};
ghost use Rattle.track_store.specs.State.{state_of, states_of};
ghost use Rattle.range_removal.specs.Rooms.{IsRoomKept};
ghost use Rattle.track_buffers.specs.Effects.{media_result, source_effect};
ghost use Rattle.track_buffers.specs.Media.{media_of};
ghost use Rattle.track_buffers.specs.Placed.{AreKeptButAt, IsFrameEffect, IsReadyAt};
ghost use Rattle.frame_rules.specs.Placing.{AreStoresKept};
ghost use Rattle.track_buffers.specs.Frames.{has_number, place_of, frame_result_at, unset_track, IsTrackPlace};

use crate::effects::{MediaEffect, MediaFault, duration_change, no_effect};
use frame_rules::{Placed, place_with_used};
use mse_base::{CodedFrame, Moment};
use track_store::{FrameStore, Settings, Track, Tracks};

fn has_number_at<S: FrameStore>(tracks: &Tracks<S>, i: usize, id: u32) -> bool
    ensures { IfSome (slice_get (states_of S.frames tracks.now.items) i)
        (λ t. result ≡ has_number id t) }
{
    match tracks.get(i) {
        Some(track) => track.id == id,
        None => false,
    }
}

/// The place of the track buffer of a number.
fn place_of<S: FrameStore>(tracks: &Tracks<S>, id: u32) -> Option<usize>
    ensures place { result ≡ place_of id (states_of S.frames tracks.now.items) }
    ensures in_range { IfSome result (λ i. i < length tracks.now.items) }
{
    for i in 0..tracks.len() {
        if has_number_at(tracks, i, id) {
            return Some(i);
        }
    }
    None
}

/// The number of a track, and the place of its track buffer.
#[derive(Clone, Copy, Debug)]
pub(crate) struct TrackPlace {
    pub(crate) id: u32,
    pub(crate) place: usize,
}

/// The same, where the place of one track is known: the frames of a track mostly come in a row.
pub(crate) fn place_from<S: FrameStore>(
    tracks: &Tracks<S>,
    last: &Option<TrackPlace>,
    id: u32,
) -> Option<usize>
    requires { IfSome last.now (λ l. IsTrackPlace l (states_of S.frames tracks.now.items)) }
    ensures place { result ≡ place_of id (states_of S.frames tracks.now.items) }
    ensures in_range { IfSome result (λ i. i < length tracks.now.items) }
{
    match last {
        Some(last) if last.id == id => Some(last.place),
        _ => place_of(tracks, id),
    }
}

/// Processes a frame of the track buffer at a place.
pub(crate) fn process_at<S: FrameStore>(
    tracks: &mut Tracks<S>,
    settings: &mut Settings,
    i: usize,
    frame: CodedFrame,
    duration: &Moment,
    used: u64,
) -> MediaEffect
    requires used { used ≡ bytes_in (states_of S.frames tracks.old.items) }
    requires ready { IsReadyAt S.frames S.spare i frame settings.old tracks.old.items }
    ensures result { (pending : Bool) (gap : ℤ)
        → media_result result (media_of S.frames tracks.new.items settings.new pending gap)
        ≡ frame_result_at (Some i) frame
        (media_of S.frames tracks.old.items settings.old pending gap) duration.now }
    ensures effect { IsFrameEffect duration.now (states_of S.frames tracks.old.items)
        (states_of S.frames tracks.new.items) (source_effect result) }
    ensures tracks { AreKeptButAt i (states_of S.frames tracks.old.items)
        (states_of S.frames tracks.new.items) }
    ensures window_start { pos 0 ≤ℤ settings.new.window_start }
    ensures window_end { settings.new.window_end ≡ settings.old.window_end }
    ensures stores { AreStoresKept S.spare S.gap i tracks.old.items tracks.new.items }
    ensures places { tracks.new.spare ≡ tracks.old.spare }
{
    match place_with_used(tracks, settings, i, frame, used) {
        Placed::Stored => {
            let new_duration = duration.at_least(settings.group_end);
            MediaEffect::Done(duration_change(&new_duration, duration))
        }
        Placed::Dropped(_) => MediaEffect::Done(no_effect(duration)),
        Placed::TimeRange => MediaEffect::AppendError(MediaFault::TimeRange, no_effect(duration)),
        Placed::Counts => MediaEffect::AppendError(MediaFault::Counts, no_effect(duration)),
    }
}

fn unset<S: FrameStore>(track: &mut Track<S>)
    ensures state { state_of S.frames track.new ≡ unset_track (state_of S.frames track.old) }
    ensures no_room_lost { S.spare track.old.store ≤ S.spare track.new.store }
    ensures gap { S.gap track.new.store ≡ S.gap track.old.store }
{
    track.marks = track.marks.unset_marks();
}

fn unset_at<S: FrameStore>(tracks: &mut Tracks<S>, i: usize)
    ensures states { IfSome (slice_get (states_of S.frames tracks.old.items) i)
        (λ t. states_of S.frames tracks.new.items
        ≡ slice_set (states_of S.frames tracks.old.items) i (unset_track t)) }
    ensures no_room_lost { IsRoomKept S.spare tracks.old.items tracks.new.items }
    ensures gaps { gaps_of S.gap tracks.new.items ≡ gaps_of S.gap tracks.old.items }
    ensures places { tracks.new.spare ≡ tracks.old.spare }
{
    match tracks.get_mut(i) {
        Some(track) => unset(track),
        None => {}
    }
}

/// Unsets the marks of all track buffers.
pub(crate) fn unset_all<S: FrameStore>(tracks: &mut Tracks<S>)
    ensures states { states_of S.frames tracks.new.items
        ≡ map unset_track (states_of S.frames tracks.old.items) }
    ensures sound_and_countable { AreSoundAndCountable (states_of S.frames tracks.old.items)
        → AreSoundAndCountable (states_of S.frames tracks.new.items) }
    ensures room { (n : ℕ) → HasSpareRoom S.spare n tracks.old.items
        → HasSpareRoom S.spare n tracks.new.items }
    ensures gaps { gaps_of S.gap tracks.new.items ≡ gaps_of S.gap tracks.old.items }
    ensures places { tracks.new.spare ≡ tracks.old.spare }
{
    for i in 0..tracks.len() {
        unset_at(tracks, i);
    }
}
