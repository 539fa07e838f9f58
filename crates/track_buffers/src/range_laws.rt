//! What follows from the definition of the buffered ranges: functions that do nothing, with the
//! laws as their contracts.

ghost use Rattle.std.specs.Prelude.{◌≡◌, ℤ, pos, ◌≤ℤ◌, Bool, true, List, [], map, find, None, Some};
ghost use Rattle.std.specs.List.{AllByRecursion};
ghost use Rattle.mse_base.specs.declared.span.Span.{Span};
ghost use Rattle.mse_base.specs.declared.ticks.Moment.{Moment};
ghost use Rattle.mse_base.specs.declared.track.Presentation.{Presentation};
ghost use Rattle.mse_base.specs.Meets.{meet_of_all, overlap_of_all};
ghost use Rattle.mse_base.specs.Moments.{greatest};
ghost use Rattle.mse_base.specs.Spans.{IsNormalized, first_of, reaches, last_of};
ghost use Rattle.track_store.specs.Sound.{IsSound};
ghost use Rattle.track_buffers.specs.declared.effects.MediaFault.{MediaFault};
ghost use Rattle.track_buffers.specs.declared.effects.SourceEffect.{SourceEffect};
ghost use Rattle.track_buffers.specs.Buffered.{buffered_of, last_ends, track_ranges, with_common_end, with_last_end};
ghost use Rattle.track_buffers.specs.Extended.{IsSpanWithin, common_end, held_up_to, held_with_end, last_up_to_end};
ghost use Rattle.track_buffers.specs.Frames.{highest_end_in};
ghost use Rattle.track_buffers.specs.Initialized.{init_result};
ghost use Rattle.track_buffers.specs.Media.{AppendError, Done, AreEndedWithin, Media};

/// The buffered ranges are ascending, none empty, no two overlapping or touching (HTML,
/// "normalized TimeRanges object").
pub fn normalized()
    ensures { (ended : Bool) (m : Media) → pos 0 ≤ℤ m.gap → IsNormalized (buffered_of ended m) }
{}

/// The range that holds a time is found by look-ups, without the list: where the last range lasts
/// to an end, and in what the ranges of all tracks share.
pub fn held()
    ensures last_grown { (t e : ℤ) (ranges : List Span) → IsNormalized ranges
        → find (reaches t) (with_last_end e ranges)
        ≡ held_up_to t e (last_of ranges) (find (reaches t) ranges) }
    ensures shared { (t : ℤ) (ended : Bool) (rs : List (List Span))
        → AllByRecursion IsNormalized rs
        → find (reaches t) (meet_of_all (with_common_end ended rs))
        ≡ overlap_of_all (map (λ r. held_with_end t (common_end ended rs) (last_of r)
        (find (reaches t) r)) rs) }
    ensures buffered { (t : ℤ) (ended : Bool) (m : Media) → pos 0 ≤ℤ m.gap
        → find (reaches t) (buffered_of ended m)
        ≡ overlap_of_all (map (λ r. held_with_end t (common_end ended (track_ranges m))
        (last_of r) (find (reaches t) r)) (track_ranges m)) }
{}

/// Where the last ranges of all tracks share a tick, what they share is the last buffered range,
/// and likewise the first. Where the source is ended, all last to the highest end: so what they
/// then share is the last buffered range, and it is the one that holds this end; where no track
/// has a range there is none.
pub fn last_and_first()
    ensures last { (rs : List (List Span)) (s : Span)
        → overlap_of_all (map last_of rs) ≡ Some s → last_of (meet_of_all rs) ≡ Some s }
    ensures first { (rs : List (List Span)) (s : Span)
        → overlap_of_all (map first_of rs) ≡ Some s → first_of (meet_of_all rs) ≡ Some s }
    ensures ended { (rs : List (List Span)) → AllByRecursion IsNormalized rs
        → last_of (meet_of_all (with_common_end true rs))
        ≡ overlap_of_all (map (λ r. last_up_to_end (common_end true rs) (last_of r)) rs) }
    ensures held { (rs : List (List Span)) (e : ℤ) → AllByRecursion IsNormalized rs
        → greatest (last_ends rs) ≡ Some e → last_of (meet_of_all (with_common_end true rs))
        ≡ find (reaches e) (meet_of_all (with_common_end true rs)) }
    ensures none { (rs : List (List Span)) → AllByRecursion IsNormalized rs
        → greatest (last_ends rs) ≡ None
        → last_of (meet_of_all (with_common_end true rs)) ≡ None }
{}

/// The buffered ranges begin at or after 0, and end at or before each time by which all frames
/// end, as the highest end or the duration; without a frame there is none.
pub fn within()
    ensures times { (e : ℤ) (ended : Bool) (m : Media) → AllByRecursion IsSound m.tracks
        → AreEndedWithin (Moment.At e) m.tracks
        → AllByRecursion (IsSpanWithin (pos 0) e) (buffered_of ended m) }
    ensures highest { (e : ℤ) (ended : Bool) (m : Media) → AllByRecursion IsSound m.tracks
        → highest_end_in m ≡ Some e → AllByRecursion (IsSpanWithin (pos 0) e)
        (buffered_of ended m) }
    ensures none { (ended : Bool) (m : Media) → highest_end_in m ≡ None
        → buffered_of ended m ≡ [] }
{}

/// An initialization segment that is taken leaves the highest end, and one that is refused leaves
/// the media (Media Source Extensions, initialization segment received).
pub fn after_initialization_segment()
    ensures taken { (p : Presentation) (m n : Media) (d : Moment) (e : SourceEffect)
        → init_result p m d ≡ Done n e → highest_end_in n ≡ highest_end_in m }
    ensures refused { (p : Presentation) (m n : Media) (d : Moment) (fault : MediaFault)
        (e : SourceEffect) → init_result p m d ≡ AppendError fault n e → n ≡ m }
{}
