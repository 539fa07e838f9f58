//! What follows from the definitions of this crate: functions that do nothing, with the laws as
//! their contracts.

ghost use Rattle.std.specs.Prelude.{◌≡◌, ◌≢◌, ◌⊎◌, ◌↔◌, ℤ, ℕ, ◌<◌, ◌≤◌, ◌≤ℤ◌, pos, List, [], ◌∷◌, ◌++◌, length, map, find, Option, true, false};
ghost use Rattle.std.specs.List.{AllByRecursion, list_all};
ghost use Rattle.mse_base.specs.Time.{floor_div, IsFloor};
ghost use Rattle.mse_base.specs.Spans.{has_tick, has_tick_in, reaches, IsNormalized, IsUnion, IsIntersection, IsDifference, IsBridging, IsBridged, IsInGap};
ghost use Rattle.mse_base.specs.Bridging.{bridged_ranges, ranges_with};
ghost use Rattle.mse_base.specs.Meets.{meet, meet_of_all, overlap_of_two, overlap_of_all};
ghost use Rattle.mse_base.specs.declared.span.Span.{Span};

/// `convert` rounds to the greatest whole number of ticks that is not above the quotient.
pub fn floor()
    ensures { (z : ℤ) (d : ℕ) → 0 < d → IsFloor z d (floor_div z d) }
{}

/// A span that does not end after it starts has no tick, and adds nothing to ranges.
pub fn empty_spans()
    ensures no_tick { (s : Span) (t : ℤ) → s.end ≤ℤ s.start → has_tick s t ≡ false }
    ensures adds_nothing { (gap : ℤ) (rs : List Span) (s : Span) → s.end ≤ℤ s.start
        → ranges_with gap rs s ≡ rs }
{}

/// Ranges that are told by their ticks are one list.
pub fn one_list()
    ensures joined { (given xs ys : List Span) → IsUnion given xs → IsUnion given ys → xs ≡ ys }
    ensures met { (left right xs ys : List Span) → IsIntersection left right xs →
        IsIntersection left right ys → xs ≡ ys }
    ensures cut_out { (from to : ℤ) (given xs ys : List Span) → IsDifference from to given xs →
        IsDifference from to given ys → xs ≡ ys }
    ensures bridged { (gap : ℤ) (given xs ys : List Span) → IsBridging gap given xs →
        IsBridging gap given ys → xs ≡ ys }
{}

/// Joining spans one after another gives their bridged ranges, which are never more than the
/// spans. With no gap, or a gap below 0, these are the joined ranges.
pub fn bridging()
    ensures made { (gap : ℤ) (given : List Span) → pos 0 ≤ℤ gap →
        IsBridging gap given (bridged_ranges gap given) }
    ensures not_more { (gap : ℤ) (given : List Span) →
        length (bridged_ranges gap given) ≤ length given }
    ensures no_gap { (gap : ℤ) (given xs : List Span) → gap ≤ℤ pos 0 →
        IsBridging gap given xs ↔ IsUnion given xs }
{}

/// A tick is bridged exactly where it is a tick of the joined ranges, or lies in a gap of at most
/// `gap` ticks between two neighbours of them.
pub fn gaps_between_neighbours()
    ensures { (gap : ℤ) (given joined : List Span) (t : ℤ) → pos 0 ≤ℤ gap → IsUnion given joined →
        IsBridged gap given t ↔ ((has_tick_in joined t ≡ true) ⊎ IsInGap gap joined t) }
{}

/// The meet of two lists of ranges is the one normalized list of the ticks that both have. Its
/// range that has a time, or ends at it, is the overlap of the range of each list that does, where
/// that overlap has a tick; elsewhere there is none.
pub fn meets()
    ensures met { (xs ys : List Span) → IsNormalized xs → IsNormalized ys →
        IsIntersection xs ys (meet xs ys) }
    ensures found { (t : ℤ) (xs ys : List Span) → IsNormalized xs → IsNormalized ys
        → find (reaches t) (meet xs ys)
        ≡ overlap_of_two (find (reaches t) xs) (find (reaches t) ys) }
{}

/// The same of the meet of some lists. A loop over the lists keeps the overlap so far: with one
/// list more the meet is that of the meet so far and the list, and so is the overlap.
pub fn meets_of_all()
    ensures normalized { (rs : List (List Span)) → AllByRecursion IsNormalized rs →
        IsNormalized (meet_of_all rs) }
    ensures ticks { (rs : List (List Span)) (t : ℤ) → rs ≢ []
        → has_tick_in (meet_of_all rs) t ≡ list_all (λ r. has_tick_in r t) rs }
    ensures found { (t : ℤ) (rs : List (List Span)) → AllByRecursion IsNormalized rs
        → find (reaches t) (meet_of_all rs) ≡ overlap_of_all (map (find (reaches t)) rs) }
    ensures one_more { (rs : List (List Span)) (r : List Span) → 1 ≤ length rs
        → meet_of_all (rs ++ r ∷ []) ≡ meet (meet_of_all rs) r }
    ensures overlap_of_one_more { (ss : List (Option Span)) (s : Option Span) → 1 ≤ length ss
        → overlap_of_all (ss ++ s ∷ []) ≡ overlap_of_two (overlap_of_all ss) s }
{}
