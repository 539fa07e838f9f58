//! What follows from the definitions of this crate: functions that do nothing, with the laws as
//! their contracts.

ghost use Rattle.std.specs.Prelude.{◌≡◌, ◌↔◌, ◌++◌, ◌==◌, ℕ, ℤ, pos, slice_get, ◌≤ℤ◌, Bool, true, false, List, [], None, Some, IsSome, if◌then◌else◌};
ghost use Rattle.std.specs.List.{AllByRecursion};
ghost use Rattle.track_store.specs.State.{TrackState};
ghost use Rattle.mse_base.specs.declared.span.Span.{Span};
ghost use Rattle.mse_base.specs.declared.ticks.Moment.{Moment};
ghost use Rattle.mse_base.specs.declared.frame.CodedFrame.{CodedFrame};
ghost use Rattle.mse_base.specs.declared.track.Presentation.{Presentation};
ghost use Rattle.mse_base.specs.Moments.{greater_moment, IsNotAfter};
ghost use Rattle.mse_base.specs.Presentation.{HasDistinctIds};
ghost use Rattle.mse_base.specs.Spans.{IsNormalized, IsUnion};
ghost use Rattle.track_buffers.specs.declared.effects.SourceEffect.{SourceEffect};
ghost use Rattle.track_buffers.specs.declared.effects.MediaFault.{MediaFault};
ghost use Rattle.track_buffers.specs.Media.{Media, Done, AppendError, effect_of, AreEndedWithin};
ghost use Rattle.track_buffers.specs.Initialized.{init_result, count_of, kinds_of};
ghost use Rattle.track_buffers.specs.Frames.{frame_result, highest_end_in, track_ids, place_of};
ghost use Rattle.track_buffers.specs.Numbers.{AreApart, HasBuffers, IsOfMediaTrack};
ghost use Rattle.track_buffers.specs.Buffered.{last_up_to, with_last_end, buffered_of, IsBuffered};

/// The buffered ranges cover the ticks that the ranges of all tracks cover.
pub fn buffered_law()
    ensures { (ended : Bool) (m : Media) → pos 0 ≤ℤ m.gap →
        IsBuffered ended m (buffered_of ended m) }
{}

/// Where the last range lasts to an end, the ranges are the normalized list of the ticks that they
/// have and of those from the start of the last on up to the end.
pub fn last_end()
    ensures { (e : ℤ) (ranges : List Span) → IsNormalized ranges
        → IsUnion (ranges ++ last_up_to e ranges) (with_last_end e ranges) }
{}

/// An initialization segment that is not refused is told as received and leaves the buffered
/// ranges; behind the first one there are none. One that is refused, and a coded frame, are not
/// told as received.
pub fn received()
    ensures leaves { (p : Presentation) (m n : Media) (d : Moment) (b : SourceEffect)
        → init_result p m d ≡ Done n b → (ended : Bool)
        → buffered_of ended n ≡ (if b.activated then [] else buffered_of ended m) }
    ensures done { (p : Presentation) (m n : Media) (d : Moment) (b : SourceEffect)
        → init_result p m d ≡ Done n b → b.received_init ≡ true }
    ensures refused { (p : Presentation) (m n : Media) (d : Moment) (x : MediaFault)
        (b : SourceEffect) → init_result p m d ≡ AppendError x n b → b.received_init ≡ false }
    ensures frame { (f : CodedFrame) (m : Media) (d : Moment)
        → (effect_of (frame_result f m d)).received_init ≡ false }
{}

/// A coded frame finds its track buffer: behind an initialization segment that is not refused each
/// video or audio track of it has one, and so it stays while the numbers of the track buffers do.
/// Where each has one, a coded frame of such a track finds it. The numbers of the segment's tracks
/// are apart, as each that was read has them, and so are those of the track buffers.
pub fn frames_find_their_buffers()
    ensures found { (p : Presentation) (m n : Media) (d : Moment) (b : SourceEffect)
        → HasDistinctIds p.tracks → AreApart (track_ids m.tracks) → init_result p m d ≡ Done n b
        → HasBuffers p n.tracks }
    ensures apart { (p : Presentation) (m n : Media) (d : Moment) (b : SourceEffect)
        → HasDistinctIds p.tracks → AreApart (track_ids m.tracks) → init_result p m d ≡ Done n b
        → AreApart (track_ids n.tracks) }
    ensures kept { (p : Presentation) (ts us : List TrackState) → track_ids us ≡ track_ids ts
        → HasBuffers p ts → HasBuffers p us }
    ensures frame { (p : Presentation) (ts : List TrackState) (f : CodedFrame)
        → HasBuffers p ts → IsOfMediaTrack f p → IsSome (place_of f.track_id ts) }
{}

/// Where a source buffer has several track buffers of a kind, an initialization segment
/// that is not refused leaves the numbers of those of that kind; the one of a kind that is alone may
/// get another. An initialization segment leaves the kind of each track buffer.
pub fn numbers_stay()
    ensures kept { (p : Presentation) (m n : Media) (d : Moment) (b : SourceEffect) (i : ℕ)
        (t : TrackState) → init_result p m d ≡ Done n b → slice_get m.tracks i ≡ Some t
        → (count_of t.kind (kinds_of m.tracks) == 1) ≡ false
        → (u : TrackState) × (slice_get n.tracks i ≡ Some u) × (u.id ≡ t.id) }
    ensures kind { (p : Presentation) (m n : Media) (d : Moment) (b : SourceEffect) (i : ℕ)
        (t : TrackState) → init_result p m d ≡ Done n b → slice_get m.tracks i ≡ Some t
        → (u : TrackState) × (slice_get n.tracks i ≡ Some u) × (u.kind ≡ t.kind) }
{}

/// One duration is not after another exactly where all frames that end within it end within the
/// other. What a duration is raised to is not before it.
pub fn durations()
    ensures ends { (d e : Moment) → IsNotAfter d e
        ↔ ((ts : List TrackState) → AreEndedWithin d ts → AreEndedWithin e ts) }
    ensures raised { (d : Moment) (t : ℤ) → IsNotAfter d (greater_moment d t) }
{}

/// The highest end bounds the ends of all frames; there is none exactly where no frame is stored.
pub fn highest_end()
    ensures bound { (m : Media) (e : ℤ) → highest_end_in m ≡ Some e
        → AreEndedWithin (Moment.At e) m.tracks }
    ensures none { (m : Media) → (highest_end_in m ≡ None)
        ↔ AllByRecursion (λ t. t.frames ≡ []) m.tracks }
{}
