ghost use Rattle.std.specs.Prelude.{ℕ, ◌≡◌, List, take};
ghost use Rattle.std.specs.List.{concat};
ghost use Rattle.parser_loop.specs.Walk.{Lookahead, kept_with_all};
ghost use Rattle.segment_walk.specs.Moves.{WalkState, segments};
ghost use Rattle.segment_walk.specs.Tables.{SegmentItem};
ghost use Rattle.segment_walk.specs.Segments.{items_of_string};
ghost use Rattle.parser_loop.specs.Items.{latest_after_all};
ghost use Rattle.parser_loop.specs.StringReadings.{StringReading, with_bytes};
ghost use Rattle.segment_stream.specs.Streams.{IsKeptFor};

/// However a string was cut, what is kept after its pieces stands for the whole string. And its presentation
/// is that of the last initialization segment that was given.
pub fn pieces_law()
    ensures pieces { (kept : Lookahead WalkState SegmentItem) (pieces : List (List ℕ))
        (r : StringReading) → IsKeptFor kept r →
        IsKeptFor (kept_with_all segments kept pieces) (with_bytes (concat pieces) r) }
    ensures latest { (kept : Lookahead WalkState SegmentItem) (r : StringReading) →
        IsKeptFor kept r → kept.state.last
        ≡ latest_after_all r.before (take r.taken (items_of_string r.before r.whole)) }
{}
