ghost use Rattle.std.specs.Prelude.{◌≡◌, ◌≤◌, ℕ, ℤ, None, length, slice_get, slice_set, IfSome};
ghost use Rattle.track_store.specs.Kept.{AreSoundAndCountable, AreEndedBy, AreStillSound, HasSpareRoom, gaps_of};
ghost use Rattle.track_store.specs.Sound.{last_serial};
ghost use Rattle.track_store.specs.State.{state_of, states_of};
ghost use Rattle.range_removal.specs.Removal.{remove_end, track_after_removal, tracks_after_removal};
ghost use Rattle.range_removal.specs.Rooms.{IsRoomKept};

use mse_base::{Moment, Ticks};
use track_store::{FrameStore, Track, Tracks, remove_between};

/// The remove end timestamp of a track buffer.
fn remove_end<S: FrameStore>(store: &S, end: &Moment, duration: &Moment) -> Moment
    ensures { result ≡ remove_end end.now duration.now (S.frames store.now) }
{
    Moment::time_or(store.sync_at_or_after(*end), *duration)
}

/// The serial of the frame that was stored last.
fn last_serial<S: FrameStore>(store: &S) -> Option<u64>
    ensures { result ≡ last_serial None (S.frames store.now) }
{
    let len = store.len();
    if len == 0 {
        return None;
    }
    match store.get(len - 1) {
        Some(stored) => Some(stored.serial),
        None => None,
    }
}

/// Removes the frames of a range from a track buffer.
fn remove_from<S: FrameStore>(track: &mut Track<S>, start: Ticks, end: &Moment, duration: &Moment)
    ensures state { state_of S.frames track.new
        ≡ track_after_removal start end.now duration.now (state_of S.frames track.old) }
    ensures no_room_lost { S.spare track.old.store ≤ S.spare track.new.store }
    ensures gap { S.gap track.new.store ≡ S.gap track.old.store }
{
    // The proof reads off this that the serials ascend.
    track.store.serials_ascend();
    let to = remove_end(&track.store, end, duration);
    let last = last_serial(&track.store);
    remove_between(&mut track.store, start, to);
    if last_serial(&track.store) != last {
        track.marks = track.marks.unset_marks();
    }
}

fn remove_at<S: FrameStore>(
    tracks: &mut Tracks<S>,
    i: usize,
    start: Ticks,
    end: &Moment,
    duration: &Moment,
)
    ensures states { IfSome (slice_get (states_of S.frames tracks.old.items) i)
        (λ t. states_of S.frames tracks.new.items
        ≡ slice_set (states_of S.frames tracks.old.items) i
        (track_after_removal start end.now duration.now t)) }
    ensures no_room_lost { IsRoomKept S.spare tracks.old.items tracks.new.items }
    ensures gaps { gaps_of S.gap tracks.new.items ≡ gaps_of S.gap tracks.old.items }
    ensures places { tracks.new.spare ≡ tracks.old.spare }
{
    match tracks.get_mut(i) {
        Some(track) => remove_from(track, start, end, duration),
        None => {}
    }
}

/// Removes the frames from `start` on and before the remove end timestamp from all track buffers
/// of a source buffer, with their decoding dependencies (Media Source Extensions, 3.5.9, step 3).
/// The remove end timestamp of a track is that of its first random access point at or after `end`,
/// and the duration where it has none. It needs no memory, no store loses room, and the places for
/// further tracks stay.
///
/// A track whose last stored frame goes needs a random access point from then on, and each track
/// that was sound stays so. Where `duration` is `Moment::Nan`, a track without such a random access
/// point keeps its frames. Where `end` is `Moment::Nan`, the first random access point is the first
/// of all.
pub fn remove_frames<S: FrameStore>(
    tracks: &mut Tracks<S>,
    start: Ticks,
    end: Moment,
    duration: Moment,
)
    ensures states { states_of S.frames tracks.new.items
        ≡ tracks_after_removal start end duration (states_of S.frames tracks.old.items) }
    ensures sound { AreStillSound (states_of S.frames tracks.old.items)
        (states_of S.frames tracks.new.items) }
    ensures sound_and_countable { AreSoundAndCountable (states_of S.frames tracks.old.items)
        → AreSoundAndCountable (states_of S.frames tracks.new.items) }
    ensures ends { (limit : ℤ) → AreEndedBy limit (states_of S.frames tracks.old.items)
        → AreEndedBy limit (states_of S.frames tracks.new.items) }
    ensures no_room_lost { IsRoomKept S.spare tracks.old.items tracks.new.items }
    ensures room { (n : ℕ) → HasSpareRoom S.spare n tracks.old.items
        → HasSpareRoom S.spare n tracks.new.items }
    ensures gaps { gaps_of S.gap tracks.new.items ≡ gaps_of S.gap tracks.old.items }
    ensures len { length tracks.new.items ≡ length tracks.old.items }
    ensures places { tracks.new.spare ≡ tracks.old.spare }
{
    for i in 0..tracks.len() {
        remove_at(tracks, i, start, &end, &duration);
    }
}
