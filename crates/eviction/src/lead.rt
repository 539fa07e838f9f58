ghost use Rattle.std.specs.Prelude.{◌≡◌, ◌+ℤ◌, pos, int_lt, not, filter, slice_get, IfSome};
ghost use Rattle.mse_base.specs.Time.{IsTick, tick};
ghost use Rattle.mse_base.specs.Moments.{is_before, is_video, greatest};
ghost use Rattle.track_store.specs.Frames.{starts};
ghost use Rattle.track_store.specs.State.{states_of};
ghost use Rattle.eviction.specs.Evicting.{first_of, frames_of, lead_of};
ghost use Rattle.eviction.specs.Steps.{times_at};

use mse_base::{Moment, Ticks};
use track_store::{FrameStore, Tracks};

fn is_video_at<S: FrameStore>(tracks: &Tracks<S>, i: usize) -> bool
    ensures { IfSome (slice_get tracks.now.items i) (λ t. result ≡ is_video t.kind) }
{
    match tracks.get(i) {
        Some(track) => track.kind.is_video(),
        None => false,
    }
}

/// The place of the lead track, by whose random access points is evicted: the first video track,
/// and the first track where there is no video track.
pub fn lead_of<S: FrameStore>(tracks: &Tracks<S>) -> usize
    ensures { slice_get (states_of S.frames tracks.now.items) result
        ≡ lead_of (states_of S.frames tracks.now.items) }
{
    for i in 0..tracks.len() {
        if is_video_at(tracks, i) {
            return i;
        }
    }
    0
}

/// The first random access point of a track at or after a moment.
fn sync_from<S: FrameStore>(tracks: &Tracks<S>, lead: usize, t: Moment) -> Option<Ticks>
    ensures { result ≡ first_of (filter (λ u. not (is_before u t))
        (times_at lead (states_of S.frames tracks.now.items))) }
{
    match tracks.get(lead) {
        Some(track) => track.store.sync_at_or_after(t),
        None => None,
    }
}

/// The first random access point of a track.
pub fn first_sync<S: FrameStore>(tracks: &Tracks<S>, lead: usize) -> Option<Ticks>
    ensures { result ≡ first_of (times_at lead (states_of S.frames tracks.now.items)) }
{
    sync_from(tracks, lead, Moment::Nan)
}

/// The greatest presentation timestamp of a track.
pub fn highest_start<S: FrameStore>(tracks: &Tracks<S>, lead: usize) -> Option<Ticks>
    ensures { result ≡ greatest (starts (frames_of
        (slice_get (states_of S.frames tracks.now.items) lead))) }
{
    match tracks.get(lead) {
        Some(track) => track.store.highest_start(),
        None => None,
    }
}

fn next_tick(t: Ticks) -> Option<Ticks>
    ensures value { result ≡ tick (t +ℤ pos 1) }
    ensures is_tick { IsTick t }
{
    Ticks::new(t.get() + 1)
}

/// The greatest presentation timestamp of a track, which is in range.
fn highest_in_range<S: FrameStore>(tracks: &Tracks<S>, lead: usize) -> Option<Ticks>
    ensures value { result
        ≡ greatest (starts (frames_of (slice_get (states_of S.frames tracks.now.items) lead))) }
    ensures is_tick { IfSome result IsTick }
{
    let highest = highest_start(tracks, lead);
    if let Some(t) = highest {
        // A Ticks is in range, which the proof reads off this.
        let _in_range = t.get();
    }
    highest
}

/// The first random access point of a track after a time.
pub fn sync_after<S: FrameStore>(tracks: &Tracks<S>, lead: usize, t: Ticks) -> Option<Ticks>
    ensures { result ≡ first_of (filter (int_lt t)
        (times_at lead (states_of S.frames tracks.now.items))) }
{
    match next_tick(t) {
        Some(u) => sync_from(tracks, lead, Moment::At(u)),
        None => {
            // No time is after the greatest, and the frames begin at times.
            let _highest = highest_in_range(tracks, lead);
            None
        }
    }
}
