ghost use Rattle.std.specs.Prelude.{◌≡◌, ◌+◌, ◌^◌, ◌<◌, ◌≤◌, ◌++◌, ◌<ℤ◌, ◌≤ℤ◌, ◌+ℤ◌, ◌-ℤ◌, pos, int_lt, length, take, drop, option_to_list};
ghost use Rattle.std.specs.Int.{int_min, int_max};
ghost use Rattle.mse_base.specs.Bridging.{IsRanges, ranges_without, span_between};

use crate::lookup::place_reaching;
use crate::span_list::SpanList;
use crate::{Span, Ticks};

/// The span from a start up to an end, if it has a tick.
fn span_between(start: Ticks, end: Ticks) -> Option<Span>
    ensures { option_to_list result ≡ span_between start end }
{
    if start < end {
        Some(Span { start, end })
    } else {
        None
    }
}

/// The part of a span that ends by the gap before a time.
fn left_of(s: &Span, low: Ticks, gap: Ticks) -> Option<Span>
    requires { pos 0 ≤ℤ gap }
    ensures { option_to_list result ≡ span_between s.now.start (int_min s.now.end (low -ℤ gap)) }
{
    // Both times are in range, which the proof of the result needs.
    let _first = s.start.get();
    let _low = low.get();
    match low.checked_sub(gap) {
        Some(cut) => span_between(s.start, s.end.min(cut)),
        None => None,
    }
}

/// The part of a span that begins after the gap after a time.
fn right_of(s: &Span, high: Ticks, gap: Ticks) -> Option<Span>
    requires { pos 0 ≤ℤ gap }
    ensures { option_to_list result ≡ span_between (int_max s.now.start (high +ℤ gap)) s.now.end }
{
    // Both times are in range, which the proof of the result needs.
    let _last = s.end.get();
    let _high = high.get();
    match high.checked_add(gap) {
        Some(cut) => span_between(s.start.max(cut), s.end),
        None => None,
    }
}

/// Whether a span starts before the gap behind a time ends.
fn has_start_before_gap_end(s: &Span, high: Ticks, gap: Ticks) -> bool
    ensures { result ≡ int_lt s.now.start (high +ℤ gap) }
{
    s.start.get() < high.get() + gap.get()
}

/// Puts a part in the place of a span, if there is one; the place after it.
fn replace(ranges: &mut SpanList, i: usize, part: Option<Span>) -> usize
    requires within { i < length ranges.old.spans }
    requires small { length ranges.old.spans < 2 ^ 64 }
    ensures spans { ranges.new.spans ≡ take i ranges.old.spans
        ++ (option_to_list part ++ drop (i + 1) ranges.old.spans) }
    ensures place { result ≡ i + length (option_to_list part) }
    ensures step { result ≤ i + 1 }
    ensures room { ranges.old.spare + length ranges.old.spans
        ≡ ranges.new.spare + length ranges.new.spans }
    ensures len { length ranges.new.spans + (i + 1) ≡ length ranges.old.spans + result }
{
    match part {
        Some(span) => {
            ranges.set(i, span);
            i + 1
        }
        None => {
            ranges.remove(i);
            i
        }
    }
}

/// Cuts a hole out of the ranges from a place on, longer by the gap on both sides.
fn carve_from(ranges: &mut SpanList, gap: Ticks, from: usize, hole: &Span)
    requires room { 1 ≤ ranges.old.spare }
    requires gap_from_zero { pos 0 ≤ℤ gap }
    requires hole_not_empty { hole.now.start <ℤ hole.now.end }
    requires within { from ≤ length ranges.old.spans }
    requires ranges { IsRanges gap (drop from ranges.old.spans) }
    ensures spans { ranges.new.spans ≡ take from ranges.old.spans
        ++ ranges_without (hole.now.start -ℤ gap) (hole.now.end +ℤ gap)
        (drop from ranges.old.spans) }
    ensures room { ranges.old.spare + length ranges.old.spans
        ≡ ranges.new.spare + length ranges.new.spans }
{
    let mut i = from;
    while i < ranges.len() {
        let s = ranges.get(i);
        if !has_start_before_gap_end(&s, hole.end, gap) {
            return;
        }
        i = replace(ranges, i, left_of(&s, hole.start, gap));
        if let Some(right) = right_of(&s, hole.end, gap) {
            ranges.insert(i, right);
            return;
        }
    }
}

/// Cuts a hole out of ranges, longer by the gap on both sides.
pub(crate) fn carve_out(ranges: &mut SpanList, gap: Ticks, hole: &Span)
    requires room { 1 ≤ ranges.old.spare }
    requires gap_from_zero { pos 0 ≤ℤ gap }
    requires hole_not_empty { hole.now.start <ℤ hole.now.end }
    requires ranges { IsRanges gap ranges.old.spans }
    ensures spans { ranges.new.spans
        ≡ ranges_without (hole.now.start -ℤ gap) (hole.now.end +ℤ gap) ranges.old.spans }
    ensures room { ranges.old.spare + length ranges.old.spans
        ≡ ranges.new.spare + length ranges.new.spans }
{
    let from = place_reaching(ranges, gap, hole);
    carve_from(ranges, gap, from, hole);
}
