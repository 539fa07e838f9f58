//! What follows from the definitions: functions that do nothing, with the laws as their contracts.

ghost use Rattle.std.specs.Prelude.{◌≡◌, ◌≤◌, ◌+◌, ◌++◌, ℕ, ℤ, List, Some, None, IsSome, length};
ghost use Rattle.track_store.specs.declared.store.Stored.{Stored};
ghost use Rattle.track_store.specs.Sound.{IsSound, last_serial};
ghost use Rattle.track_store.specs.State.{TrackState};
ghost use Rattle.track_store.specs.Frames.{overlapped};
ghost use Rattle.decoder_feed.specs.Feed.{feed_of};
ghost use Rattle.decoder_feed.specs.Steps.{next_answer};
ghost use Rattle.feed_lines.specs.Groups.{IsEnd, feeding};
ghost use Rattle.feed_lines.specs.Lines.{lines_of_track, groups_lines};

/// In a track that is sound, the frames that are given to show a time begin with the feed for it,
/// where a frame is shown then. What ends them is one of three answers, and the one that a feeder
/// gives behind the last of these frames. No number of groups above that of the track's frames
/// changes its lines.
pub fn lines_of_a_sound_track()
    ensures feed { (at : ℤ) (t : TrackState) (feed : List Stored) → IsSound t
        → feed_of at t.frames ≡ Some feed
        → (rest : List Stored) × ((feeding at t).frames ≡ feed ++ rest) }
    ensures end { (at : ℤ) (t : TrackState) → IsSound t → IsSome (overlapped at t.frames)
        → IsEnd (feeding at t).end }
    ensures answer { (at : ℤ) (t : TrackState) (last : ℕ)
        → last_serial None (feeding at t).frames ≡ Some last
        → (feeding at t).end
        ≡ next_answer (record { next = Some (last + 1); given = Some last }) t }
    ensures groups { (at : ℤ) (t : TrackState) (n : ℕ) → IsSound t → length t.frames ≤ n
        → groups_lines n at t ≡ lines_of_track at t }
{}
