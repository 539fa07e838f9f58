//! What follows from the definitions of this crate: functions that do nothing, with the laws as
//! their contracts.

ghost use Rattle.std.specs.Prelude.{ℤ, List, None};
ghost use Rattle.track_store.specs.Frames.{overlapped};
ghost use Rattle.track_store.specs.Sound.{IsSound};
ghost use Rattle.track_store.specs.State.{TrackState};
ghost use Rattle.track_store.specs.declared.store.Stored.{Stored};
ghost use Rattle.decoder_feed.specs.Feed.{feed_of, IsGroupUpTo, IsInOrder};
ghost use Rattle.decoder_feed.specs.Runs.{frames_given, AreGiven, IsFeeding};
ghost use Rattle.decoder_feed.specs.Steps.{FeederState, feeder_after_seek};

/// In a track that is sound, the feed for a time is a group from its random access point up to the
/// frame that is shown then, and there is none exactly where no frame is.
pub fn feed_is_a_group()
    ensures { (t : TrackState) (time : ℤ) → IsSound t
        → IsGroupUpTo (overlapped time t.frames) (feed_of time t.frames) }
{}

/// However the track changes between the calls, each frame that a feeder gives after a seek is a
/// random access point and the first, or has the serial after that of the frame given just before
/// it. The same holds from the midst of a run on.
pub fn frames_come_in_order()
    ensures seek { (time : ℤ) (fs : List Stored) (ts : List TrackState)
        → IsInOrder None (frames_given (feeder_after_seek time fs) ts) }
    ensures midst { (s : FeederState) (ts : List TrackState) → IsFeeding s
        → IsInOrder s.given (frames_given s ts) }
{}

/// Over a track that does not change, what a feeder gives between a seek and the frame that is shown
/// at its time is the feed for it, a frame a call.
pub fn feed_is_given()
    ensures { (t : TrackState) (time : ℤ) → IsSound t
        → AreGiven (feeder_after_seek time t.frames) t (feed_of time t.frames) }
{}
