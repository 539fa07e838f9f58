//! What follows from the definitions of this crate: functions that do nothing, with the laws as
//! their contracts.

ghost use Rattle.std.specs.Prelude.{◌≡◌, ◌↔◌, ℕ, ℤ, true, false, List, Some, slice_get, IfSome};
ghost use Rattle.std.specs.List.{AllByRecursion};
ghost use Rattle.mse_base.specs.declared.ticks.Moment.{Moment};
ghost use Rattle.eviction.specs.Evicting.{RemovalRange, frames_of, has_time, lead_of, ranges_in_order, removal_ranges, sync_times, tracks_after_eviction};
ghost use Rattle.eviction.specs.Spared.{HasRange, IsLeftOf, IsSparedIn};
ghost use Rattle.eviction.specs.Times.{IsRising, IsAmong, HasSyncAt};
ghost use Rattle.track_store.specs.State.{TrackState};
ghost use Rattle.track_store.specs.declared.store.Stored.{Stored};

/// The times between which the removal ranges lie are the presentation timestamps of the random
/// access points and no others, each once and in ascending order.
pub fn times_of_random_access_points()
    ensures rising { (fs : List Stored) → IsRising (sync_times fs) }
    ensures exactly { (t : ℤ) (fs : List Stored)
        → IsAmong t (sync_times fs) ↔ HasSyncAt t fs }
{}

/// No range that is removed holds the current playback position.
pub fn no_range_holds_the_position()
    ensures { (position : ℤ) (ranges : List RemovalRange)
        → AllByRecursion (λ r. has_time r position ≡ false) (ranges_in_order position ranges) }
{}

/// What is left after an eviction of the frames that begin in the removal range which holds the
/// position. In the lead track such a frame goes only as a decoding dependency of a frame that
/// begins elsewhere. In another track a frame may go by itself too, where it begins before each
/// random access point that its track has in the range.
pub fn position_stays()
    ensures lead { (position : ℤ) (new quota : ℕ) (d : Moment) (ts : List TrackState)
        (r : RemovalRange) (k : ℕ) (t : TrackState)
        → HasRange r (removal_ranges d (sync_times (frames_of (lead_of ts))))
        → has_time r position ≡ true → lead_of ts ≡ Some t → slice_get ts k ≡ Some t
        → IfSome (slice_get (tracks_after_eviction position new quota d ts) k)
        (λ u. IsSparedIn r t.frames u.frames) }
    ensures every_track { (position : ℤ) (new quota : ℕ) (d : Moment) (ts : List TrackState)
        (r : RemovalRange) (k : ℕ) (t : TrackState)
        → HasRange r (removal_ranges d (sync_times (frames_of (lead_of ts))))
        → has_time r position ≡ true → slice_get ts k ≡ Some t
        → IfSome (slice_get (tracks_after_eviction position new quota d ts) k)
        (λ u. IsLeftOf r t.frames u.frames) }
{}
