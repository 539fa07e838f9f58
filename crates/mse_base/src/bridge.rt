ghost use Rattle.std.specs.Prelude.{◌≡◌, ◌+◌, ◌<◌, ◌≤◌, ◌∷◌, ◌++◌, ◌≤ℤ◌, pos, true, false, length, take, drop, IfOk};
ghost use Rattle.mse_base.specs.Bridging.{bridged_ranges, ranges_with, ranges_with_lasting, span_round, is_empty, IsRanges};

use crate::lookup::{is_far_before, place_reaching};
use crate::span_list::SpanList;
use crate::{OutOfMemory, Span, Ticks};
use std::alloc::Global;

fn is_empty(s: &Span) -> bool
    ensures { result ≡ is_empty s.now }
{
    s.end <= s.start
}

/// The least span round both.
fn span_round(s: &Span, r: &Span) -> Span
    ensures { result ≡ span_round s.now r.now }
{
    Span {
        start: s.start.min(r.start),
        end: s.end.max(r.end),
    }
}

/// Whether the range behind a place, if any, begins more than the gap after a span.
fn is_last_near(ranges: &SpanList, gap: Ticks, i: usize, s: &Span) -> bool
    requires { i < length ranges.now.spans }
    ensures { result ≡ true → ranges_with_lasting gap s.now (drop (i + 1) ranges.now.spans)
        ≡ s.now ∷ drop (i + 1) ranges.now.spans }
{
    let len = ranges.len();
    if i + 1 == len {
        return true;
    }
    let next = ranges.get(i + 1);
    is_far_before(gap, s, &next)
}

/// Joins a span that is not empty to the ranges from a place on.
fn join_from(ranges: &mut SpanList, gap: Ticks, from: usize, span: Span)
    requires room { 1 ≤ ranges.old.spare }
    requires within { from ≤ length ranges.old.spans }
    ensures spans { ranges.new.spans ≡ take from ranges.old.spans
        ++ ranges_with_lasting gap span (drop from ranges.old.spans) }
    ensures room { ranges.old.spare + length ranges.old.spans
        ≡ ranges.new.spare + length ranges.new.spans }
{
    let mut s = span;
    let mut i = from;
    while i < ranges.len() {
        let r = ranges.get(i);
        if is_far_before(gap, &s, &r) {
            break;
        }
        if is_far_before(gap, &r, &s) {
            i += 1;
        } else {
            s = span_round(&s, &r);
            if is_last_near(ranges, gap, i, &s) {
                ranges.set(i, s);
                return;
            }
            ranges.remove(i);
        }
    }
    ranges.insert(i, s);
}

/// A span with what another has behind it, which begins no earlier.
fn longer_span(r: &Span, s: &Span) -> Span
    requires { r.now.start ≤ℤ s.now.start }
    ensures { result ≡ span_round s.now r.now }
{
    Span {
        start: r.start,
        end: s.end.max(r.end),
    }
}

/// Joins a span that is not empty to the range before the last, where it begins within that or at
/// most the gap behind; whether it does.
fn join_before_last(ranges: &mut SpanList, gap: Ticks, span: &Span) -> bool
    requires gap_from_zero { pos 0 ≤ℤ gap }
    requires not_empty { is_empty span.now ≡ false }
    requires ranges { IsRanges gap ranges.old.spans }
    ensures spans { result ≡ true
        → ranges.new.spans ≡ ranges_with gap ranges.old.spans span.now }
    ensures unchanged { result ≡ false → ranges.new.spans ≡ ranges.old.spans }
    ensures room { ranges.old.spare + length ranges.old.spans
        ≡ ranges.new.spare + length ranges.new.spans }
{
    let len = ranges.len();
    if len < 2 {
        return false;
    }
    let before = ranges.get(len - 2);
    if span.start < before.start {
        return false;
    }
    if is_far_before(gap, &before, span) {
        return false;
    }
    let last = ranges.get(len - 1);
    let longer = longer_span(&before, span);
    if is_far_before(gap, &longer, &last) {
        ranges.set(len - 2, longer);
        return true;
    }
    ranges.set(len - 2, span_round(&longer, &last));
    ranges.remove(len - 1);
    true
}

/// Joins a span that is not empty to one of the last two ranges, or puts it behind all, where it
/// belongs there, as most do; whether it does.
fn join_late(ranges: &mut SpanList, gap: Ticks, span: &Span) -> bool
    requires room { 1 ≤ ranges.old.spare }
    requires gap_from_zero { pos 0 ≤ℤ gap }
    requires not_empty { is_empty span.now ≡ false }
    requires ranges { IsRanges gap ranges.old.spans }
    ensures spans { result ≡ true
        → ranges.new.spans ≡ ranges_with gap ranges.old.spans span.now }
    ensures unchanged { result ≡ false → ranges.new.spans ≡ ranges.old.spans }
    ensures room { ranges.old.spare + length ranges.old.spans
        ≡ ranges.new.spare + length ranges.new.spans }
{
    let len = ranges.len();
    if len == 0 {
        return false;
    }
    let last = ranges.get(len - 1);
    if span.start < last.start {
        return join_before_last(ranges, gap, span);
    }
    if is_far_before(gap, &last, span) {
        ranges.insert(len, *span);
        return true;
    }
    ranges.set(len - 1, longer_span(&last, span));
    true
}

/// Joins a span to ranges.
pub(crate) fn join_in(ranges: &mut SpanList, gap: Ticks, span: Span)
    requires room { 1 ≤ ranges.old.spare }
    requires gap_from_zero { pos 0 ≤ℤ gap }
    requires ranges { IsRanges gap ranges.old.spans }
    ensures spans { ranges.new.spans ≡ ranges_with gap ranges.old.spans span }
    ensures room { ranges.old.spare + length ranges.old.spans
        ≡ ranges.new.spare + length ranges.new.spans }
{
    if is_empty(&span) {
        return;
    }
    if join_late(ranges, gap, &span) {
        return;
    }
    let from = place_reaching(ranges, gap, &span);
    join_from(ranges, gap, from, span);
}

/// The bridged ranges of spans.
pub(crate) fn bridged_of(alloc: Global, spans: &[Span], gap: Ticks) -> Result<SpanList, OutOfMemory>
    requires { pos 0 ≤ℤ gap }
    ensures { IfOk result (λ v. v.spans ≡ bridged_ranges gap spans.now) }
{
    let mut ranges = SpanList::new(alloc);
    for span in spans {
        ranges.reserve(alloc, 1)?;
        join_in(&mut ranges, gap, *span);
    }
    Ok(ranges)
}
