ghost use Rattle.std.specs.Prelude.{◌≡◌, ◌≤◌, ◌<ℤ◌, ◌≤ℤ◌, ◌-ℤ◌, int_lt, pos, length, take, drop, find, slice_get, true};
ghost use Rattle.std.specs.List.{AllByRecursion, filter};
ghost use Rattle.mse_base.specs.Spans.{IsNormalized, reaches, last_of, has_end_after, has_start_before};
ghost use Rattle.mse_base.specs.Bridging.{IsRanges, is_far_before};

use crate::span_list::SpanList;
use crate::{Span, Ticks};

/// Whether the first span ends more than the gap before the second begins.
pub(crate) fn is_far_before(gap: Ticks, s: &Span, r: &Span) -> bool
    ensures { result ≡ is_far_before gap s.now r.now }
{
    s.end.get() + gap.get() < r.start.get()
}

/// Whether a span ends more than the gap before a time.
pub(crate) fn is_far_before_time(s: &Span, t: Ticks, gap: Ticks) -> bool
    ensures { result ≡ int_lt s.now.end (t -ℤ gap) }
{
    s.end.get() < t.get() - gap.get()
}

/// How many ranges end more than the gap before a time.
pub(crate) fn ending_before(ranges: &[Span], t: Ticks, gap: Ticks) -> usize
    requires { IsNormalized ranges.now }
    ensures within { result ≤ length ranges.now }
    ensures before { AllByRecursion (λ r. r.end <ℤ (t -ℤ gap)) (take result ranges.now) }
    ensures after { AllByRecursion (λ r. (t -ℤ gap) ≤ℤ r.end) (drop result ranges.now) }
{
    let mut low = 0;
    let mut high = ranges.len();
    while low < high {
        let middle = low + (high - low) / 2;
        if is_far_before_time(&ranges[middle], t, gap) {
            low = middle + 1;
        } else {
            high = middle;
        }
    }
    low
}

/// The place of the first range that does not end more than the gap before a span.
pub(crate) fn place_reaching(ranges: &SpanList, gap: Ticks, span: &Span) -> usize
    requires gap_from_zero { pos 0 ≤ℤ gap }
    requires ranges { IsRanges gap ranges.now.spans }
    ensures within { result ≤ length ranges.now.spans }
    ensures skipped { AllByRecursion
        (λ r. is_far_before gap r span.now ≡ true) (take result ranges.now.spans) }
{
    ranges.count_ending(span.start, gap)
}

/// The range that has a time, or ends at it, by a search among all.
fn search_holding(ranges: &SpanList, t: Ticks) -> Option<Span>
    requires { IsNormalized ranges.now.spans }
    ensures { result ≡ find (reaches t) ranges.now.spans }
{
    let place = ranges.count_ending(t, Ticks::zero());
    if place < ranges.len() {
        let span = ranges.get(place);
        if span.start <= t {
            return Some(span);
        }
    }
    None
}

/// The range that has a time, or ends at it. Mostly there is one range, or the first has the time:
/// then nothing is searched.
pub(crate) fn span_holding(ranges: &SpanList, t: Ticks) -> Option<Span>
    requires { IsNormalized ranges.now.spans }
    ensures { result ≡ find (reaches t) ranges.now.spans }
{
    let len = ranges.len();
    if len == 0 {
        return None;
    }
    let first = ranges.get(0);
    if t <= first.end {
        return if first.start <= t { Some(first) } else { None };
    }
    if len == 1 {
        return None;
    }
    search_holding(ranges, t)
}

/// The span at a place; `None` exactly where `i` is past the last.
fn span_at(ranges: &SpanList, i: usize) -> Option<Span>
    ensures { result ≡ slice_get ranges.now.spans i }
{
    if i < ranges.len() {
        Some(ranges.get(i))
    } else {
        None
    }
}

/// How many ranges end before a time or at it.
fn count_ended(ranges: &SpanList, t: Ticks) -> usize
    requires { IsNormalized ranges.now.spans }
    ensures ended { AllByRecursion (λ r. r.end ≤ℤ t) (take result ranges.now.spans) }
    ensures left { AllByRecursion (λ r. t <ℤ r.end) (drop result ranges.now.spans) }
{
    let count = ranges.count_ending(t, Ticks::zero());
    if count < ranges.len() && ranges.get(count).end == t {
        count + 1
    } else {
        count
    }
}

/// How many ranges start before a time.
fn count_started(ranges: &SpanList, t: Ticks) -> usize
    requires { IsNormalized ranges.now.spans }
    ensures within { result ≤ length ranges.now.spans }
    ensures started { AllByRecursion (λ r. r.start <ℤ t) (take result ranges.now.spans) }
    ensures left { AllByRecursion (λ r. t ≤ℤ r.start) (drop result ranges.now.spans) }
{
    let count = ranges.count_ending(t, Ticks::zero());
    if count < ranges.len() && ranges.get(count).start < t {
        count + 1
    } else {
        count
    }
}

/// The first range that ends after a time.
pub(crate) fn first_after(ranges: &SpanList, t: Ticks) -> Option<Span>
    requires { IsNormalized ranges.now.spans }
    ensures { result ≡ find (has_end_after t) ranges.now.spans }
{
    span_at(ranges, count_ended(ranges, t))
}

/// The last range that starts before a time.
pub(crate) fn last_before(ranges: &SpanList, t: Ticks) -> Option<Span>
    requires { IsNormalized ranges.now.spans }
    ensures { result ≡ last_of (filter (has_start_before t) ranges.now.spans) }
{
    let count = count_started(ranges, t);
    if count == 0 {
        None
    } else {
        Some(ranges.get(count - 1))
    }
}
