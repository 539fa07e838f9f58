ghost use Rattle.std.specs.Prelude.{◌≡◌, ◌↔◌, ◌+◌, ◌≤◌, ◌<ℤ◌, ◌≤ℤ◌, ◌+ℤ◌, ◌-ℤ◌, pos, [], ◌∷◌, ◌++◌, length, slice_get, find, IsTrue, IfOk, OnOk, OnErr};
ghost use Rattle.std.specs.Int.{int_max};
ghost use Rattle.std.specs.List.{filter};
ghost use Rattle.std.specs.Option.{ForSome};
ghost use Rattle.mse_base.specs.Spans.{IsNormalized, IsUnion, IsIntersection, IsBridging, IsDifference, reaches, last_of, has_end_after, has_start_before};
ghost use Rattle.mse_base.specs.Bridging.{IsRanges, ranges_with, bridged_ranges, ranges_without};
ghost use Rattle.mse_base.specs.Meets.{meet};

use crate::bridge::{bridged_of, join_in};
use crate::carve::carve_out;
use crate::combine::{meet_of, union_of};
use crate::lookup::{first_after, last_before, span_holding};
use crate::span_list::SpanList;
use crate::{OutOfMemory, Span, Ticks};
use std::alloc::Global;
use std::marker::Model;

/// A set of ticks as normalized ranges: ascending, none empty, no two overlapping or touching
/// (HTML, "normalized TimeRanges object"), with room for more.
#[derive(Debug, Drop)]
pub struct Ranges {
    alloc: Global,
    spans: SpanList,
}

impl Model for Ranges {
    ghost use Rattle.mse_base.specs.Spans.{RangesView, IsNormalized};

    ghost Value = { RangesView };

    ghost view = { λ r. r.spans };

    ghost invariant = { λ r. IsNormalized r.spans.spans };
}

impl Ranges {
    /// No ranges.
    pub fn new(alloc: Global) -> Ranges
        ensures { result.spans ≡ [] }
    {
        Ranges {
            alloc,
            spans: SpanList::new(alloc),
        }
    }

    /// Makes room for at least `n` more ranges. An `Err` leaves the ranges and the room.
    pub fn reserve(&mut self, n: usize) -> Result<(), OutOfMemory>
        ensures spans { self.new.spans ≡ self.old.spans }
        ensures spare { OnOk result (n ≤ self.new.spare) }
        ensures room { self.old.spare + length self.old.spans ≤ self.new.spare + length
            self.new.spans }
        ensures same_room { OnErr result (self.new.spare ≡ self.old.spare) }
    {
        self.spans.reserve(self.alloc, n)?;
        Ok(())
    }

    /// Removes all ranges, and keeps their room.
    pub fn clear(&mut self)
        ensures spans { self.new.spans ≡ [] }
        ensures room { self.old.spare + length self.old.spans ≤ self.new.spare + length
            self.new.spans }
    {
        self.spans.clear();
    }

    /// Adds a span that begins no earlier than the last range, and the gaps of at most `gap`
    /// ticks round it.
    pub fn add_last(&mut self, span: Span, gap: Ticks)
        requires room { 1 ≤ self.old.spare }
        requires order { ForSome (last_of self.old.spans) (λ last. last.start ≤ℤ span.start) }
        requires gap_from_zero { pos 0 ≤ℤ gap }
        requires ranges { IsRanges gap self.old.spans }
        ensures bridged { IsBridging gap (self.old.spans ++ span ∷ []) self.new.spans }
        ensures spans { self.new.spans ≡ ranges_with gap self.old.spans span }
        ensures ranges { IsRanges gap self.new.spans }
        ensures room { self.old.spare + length self.old.spans
            ≡ self.new.spare + length self.new.spans }
        ensures len { length self.new.spans ≤ length self.old.spans + 1 }
    {
        self.add_span(span, gap);
    }

    /// Adds a span anywhere, and the gaps of at most `gap` ticks round it.
    pub fn add_span(&mut self, span: Span, gap: Ticks)
        requires room { 1 ≤ self.old.spare }
        requires gap_from_zero { pos 0 ≤ℤ gap }
        requires ranges { IsRanges gap self.old.spans }
        ensures bridged { IsBridging gap (self.old.spans ++ span ∷ []) self.new.spans }
        ensures spans { self.new.spans ≡ ranges_with gap self.old.spans span }
        ensures ranges { IsRanges gap self.new.spans }
        ensures room { self.old.spare + length self.old.spans
            ≡ self.new.spare + length self.new.spans }
        ensures len { length self.new.spans ≤ length self.old.spans + 1 }
    {
        join_in(&mut self.spans, gap, span);
    }

    /// Takes away the ticks of a span, and `gap` ticks on both sides of it.
    pub fn carve(&mut self, hole: Span, gap: Ticks)
        requires room { 1 ≤ self.old.spare }
        requires gap_from_zero { pos 0 ≤ℤ gap }
        requires hole_not_empty { hole.start <ℤ hole.end }
        requires ranges { IsRanges gap self.old.spans }
        ensures cut_out { IsDifference (hole.start -ℤ gap)
            (hole.end +ℤ gap) self.old.spans self.new.spans }
        ensures spans { self.new.spans
            ≡ ranges_without (hole.start -ℤ gap) (hole.end +ℤ gap) self.old.spans }
        ensures ranges { IsRanges gap self.new.spans }
        ensures room { self.old.spare + length self.old.spans
            ≡ self.new.spare + length self.new.spans }
    {
        carve_out(&mut self.spans, gap, &hole);
    }

    /// How many ranges there are.
    pub fn len(&self) -> usize
        ensures len { result ≡ length self.now.spans }
        ensures normalized { IsNormalized self.now.spans }
    {
        self.spans.len()
    }

    /// Whether there is no range.
    pub fn is_empty(&self) -> bool
        ensures { IsTrue result ↔ (self.now.spans ≡ []) }
    {
        self.spans.len() == 0
    }

    /// The range at a place; `None` exactly where `i` is past the last.
    pub fn get(&self, i: usize) -> Option<Span>
        ensures { result ≡ slice_get self.now.spans i }
    {
        if i < self.spans.len() {
            Some(self.spans.get(i))
        } else {
            None
        }
    }

    /// The last range; `None` exactly where there is none.
    pub fn last(&self) -> Option<Span>
        ensures { result ≡ last_of self.now.spans }
    {
        let len = self.spans.len();
        if len == 0 {
            None
        } else {
            Some(self.spans.get(len - 1))
        }
    }

    /// For how many more ranges there is room.
    pub fn spare(&self) -> usize
        ensures { result ≡ self.now.spare }
    {
        self.spans.spare()
    }

    /// The ranges of the ticks that one of the two has.
    pub fn union(&self, other: &Ranges) -> Result<Ranges, OutOfMemory>
        ensures { IfOk result (λ r. IsUnion (self.now.spans ++ other.now.spans) r.spans) }
    {
        let left = self.spans.to_vec(self.alloc)?;
        let right = other.spans.to_vec(self.alloc)?;
        let spans = union_of(self.alloc, left.as_slice(), right.as_slice())?;
        Ok(Ranges {
            alloc: self.alloc,
            spans,
        })
    }

    /// The ranges of the ticks that both have.
    pub fn meet(&self, other: &Ranges) -> Result<Ranges, OutOfMemory>
        ensures met { IfOk result (λ r. IsIntersection self.now.spans other.now.spans r.spans) }
        ensures spans { IfOk result (λ r. r.spans ≡ meet self.now.spans other.now.spans) }
    {
        let left = self.spans.to_vec(self.alloc)?;
        let right = other.spans.to_vec(self.alloc)?;
        let spans = meet_of(self.alloc, left.as_slice(), right.as_slice())?;
        Ok(Ranges {
            alloc: self.alloc,
            spans: SpanList::from_vec(spans),
        })
    }

    /// The ranges with the gaps of at most `gap` ticks filled. A negative gap fills none, as 0
    /// does.
    pub fn bridge(&self, gap: Ticks) -> Result<Ranges, OutOfMemory>
        ensures bridged { IfOk result (λ r. IsBridging gap self.now.spans r.spans) }
        ensures spans { IfOk result (λ r. r.spans
            ≡ bridged_ranges (int_max gap (pos 0)) self.now.spans) }
        ensures ranges { IfOk result (λ r. IsRanges (int_max gap (pos 0)) r.spans) }
        ensures unchanged { gap ≤ℤ pos 0 → IfOk result (λ r. r.spans ≡ self.now.spans) }
    {
        let longest_gap = gap.max(Ticks::zero());
        let list = self.spans.to_vec(self.alloc)?;
        let spans = bridged_of(self.alloc, list.as_slice(), longest_gap)?;
        Ok(Ranges {
            alloc: self.alloc,
            spans,
        })
    }

    /// The range that has a time, or ends at it; `None` exactly where there is none.
    pub fn holding(&self, t: Ticks) -> Option<Span>
        ensures { result ≡ find (reaches t) self.now.spans }
    {
        span_holding(&self.spans, t)
    }

    /// The first range that ends after a time; `None` exactly where none does.
    pub fn first_after(&self, t: Ticks) -> Option<Span>
        ensures { result ≡ find (has_end_after t) self.now.spans }
    {
        first_after(&self.spans, t)
    }

    /// The last range that starts before a time; `None` exactly where none does.
    pub fn last_before(&self, t: Ticks) -> Option<Span>
        ensures { result ≡ last_of (filter (has_start_before t) self.now.spans) }
    {
        last_before(&self.spans, t)
    }

    /// The same ranges again.
    pub fn copy(&self) -> Result<Ranges, OutOfMemory>
        ensures { IfOk result (λ r. r.spans ≡ self.now.spans) }
    {
        let spans = self.spans.to_vec(self.alloc)?;
        Ok(Ranges {
            alloc: self.alloc,
            spans: SpanList::from_vec(spans),
        })
    }
}
