//! The ranges of a store, repaired where its frames changed.

ghost use Rattle.std.specs.Prelude.{◌≡◌, ◌+◌, ◌<◌, ◌≤◌, ◌≤ℤ◌, pos, true, ◌||◌, List, ◌∷◌, length, map, IfSome, ℤ};
ghost use Rattle.std.specs.List.{AllByRecursion};
ghost use Rattle.mse_base.specs.Bridging.{IsRanges, bridged_ranges, is_near_any, is_near};
ghost use Rattle.mse_base.specs.Rows.{row_items};
ghost use Rattle.track_store.specs.Frames.{intervals, IsTimed};
ghost use Rattle.track_index.specs.Order.{span_of};
ghost use Rattle.track_index.specs.Keyed.{IsKeyed};
ghost use Rattle.track_index.specs.Repair.{AreTimed, AreRepairable, AreGrownBy, HasTicksBetween, HasTicksPast, AreBetween};
ghost use Rattle.track_index.specs.Runs.{IsRun, frames_in};

use crate::entry::{entry_of, span_of};
use crate::frames::{Frames, Run};
use crate::key::Key;
use crate::mark::TimeMark;
use crate::order::Order;
use block_list::BlockPlace;
use mse_base::{Ranges, Span, Ticks};

/// Joins in a span, where there is room for one range more; whether there was.
fn join(ranges: &mut Ranges, span: Span, gap: Ticks) -> bool
    requires gap_from_zero { pos 0 ≤ℤ gap }
    requires ranges { IsRanges gap ranges.old.spans }
    ensures ranges { IsRanges gap ranges.new.spans }
    ensures room { ranges.new.spare + length ranges.new.spans ≡ ranges.old.spare
        + length ranges.old.spans }
    ensures ticks { result ≡ true → (t : ℤ) → is_near_any gap t ranges.new.spans
        ≡ (is_near gap t span || is_near_any gap t ranges.old.spans) }
{
    if ranges.spare() == 0 {
        return false;
    }
    ranges.add_span(span, gap);
    true
}

/// Makes the ranges anew from all frames.
fn remake(ranges: &mut Ranges, order: &Order, gap: Ticks)
    requires gap_from_zero { pos 0 ≤ℤ gap }
    requires room { length (row_items order.now.rows) ≤ ranges.old.spare + length ranges.old.spans }
    requires timed { AreTimed (row_items order.now.rows) }
    ensures spans { ranges.new.spans ≡ bridged_ranges gap (map span_of (row_items order.now.rows)) }
    ensures room { ranges.old.spare + length ranges.old.spans ≤ ranges.new.spare
        + length ranges.new.spans }
{
    ranges.clear();
    let mut place = order.start();
    while place.block < order.blocks() {
        let entry = order.entry(place);
        ranges.add_span(span_of(&entry), gap);
        place = order.next(place);
    }
}

/// A span between marks, where both are times.
fn span_between(start: TimeMark, end: TimeMark) -> Option<Span>
    ensures { IfSome result (λ s. (s.start ≡ start) × (s.end ≡ end)) }
{
    match start.time() {
        Some(start) => match end.time() {
            Some(end) => Some(Span { start, end }),
            None => None,
        },
        None => None,
    }
}

/// Joins in what the frames that stand before a key have from its time on; whether there was room.
fn join_past(ranges: &mut Ranges, order: &Order, key: &Key, gap: Ticks) -> bool
    requires gap_from_zero { pos 0 ≤ℤ gap }
    requires ranges { IsRanges gap ranges.old.spans }
    requires keyed { IsKeyed (row_items order.now.rows) }
    ensures ranges { IsRanges gap ranges.new.spans }
    ensures room { ranges.new.spare + length ranges.new.spans ≡ ranges.old.spare
        + length ranges.old.spans }
    ensures grown { result ≡ true
        → AreGrownBy gap (row_items order.now.rows) ranges.old.spans ranges.new.spans }
    ensures past { result ≡ true
        → HasTicksPast gap key.now (row_items order.now.rows) ranges.new.spans }
{
    match order.greatest_end_before(key) {
        None => true,
        Some(end) => {
            if end <= key.mark {
                return true;
            }
            match span_between(key.mark, end) {
                Some(span) => join(ranges, span, gap),
                None => false,
            }
        }
    }
}

/// Joins in the frames that stand at or behind a key and begin before `high`; whether there was
/// room.
fn join_between(ranges: &mut Ranges, order: &Order, key: &Key, high: TimeMark, gap: Ticks) -> bool
    requires gap_from_zero { pos 0 ≤ℤ gap }
    requires ranges { IsRanges gap ranges.old.spans }
    requires keyed { IsKeyed (row_items order.now.rows) }
    requires timed { AreTimed (row_items order.now.rows) }
    ensures ranges { IsRanges gap ranges.new.spans }
    ensures room { ranges.new.spare + length ranges.new.spans ≡ ranges.old.spare
        + length ranges.old.spans }
    ensures grown { result ≡ true
        → AreGrownBy gap (row_items order.now.rows) ranges.old.spans ranges.new.spans }
    ensures between { result ≡ true
        → HasTicksBetween gap key.now high (row_items order.now.rows) ranges.new.spans }
{
    let mut place = order.place_at(key);
    while place.block < order.blocks() {
        let entry = order.entry(place);
        if high.is_by(entry.pts) {
            return true;
        }
        if !join(ranges, span_of(&entry), gap) {
            return false;
        }
        place = order.next(place);
    }
    true
}

/// Joins in what the frames have from a key's time on and before `high`; whether there was room.
fn refill(ranges: &mut Ranges, order: &Order, key: &Key, high: TimeMark, gap: Ticks) -> bool
    requires gap_from_zero { pos 0 ≤ℤ gap }
    requires ranges { IsRanges gap ranges.old.spans }
    requires keyed { IsKeyed (row_items order.now.rows) }
    requires timed { AreTimed (row_items order.now.rows) }
    ensures ranges { IsRanges gap ranges.new.spans }
    ensures room { ranges.new.spare + length ranges.new.spans ≡ ranges.old.spare
        + length ranges.old.spans }
    ensures grown { result ≡ true
        → AreGrownBy gap (row_items order.now.rows) ranges.old.spans ranges.new.spans }
    ensures past { result ≡ true
        → HasTicksPast gap key.now (row_items order.now.rows) ranges.new.spans }
    ensures between { result ≡ true
        → HasTicksBetween gap key.now high (row_items order.now.rows) ranges.new.spans }
{
    if join_past(ranges, order, key, gap) {
        join_between(ranges, order, key, high, gap)
    } else {
        false
    }
}

/// Repairs the ranges after what was there in a span of time changed: what lies there, and within
/// the gap of it, is taken out, and what the frames have there is joined in again.
pub(crate) fn mend(ranges: &mut Ranges, order: &Order, hole: Span, gap: Ticks)
    requires { AreRepairable gap (row_items order.now.rows) ranges.old.spans
        (ranges.old.spare + length ranges.old.spans) }
    ensures ranges { IsRanges gap ranges.new.spans }
    ensures room { ranges.old.spare + length ranges.old.spans ≤ ranges.new.spare
        + length ranges.new.spans }
    ensures between { (holes : List Span)
        → AreBetween gap (map span_of (row_items order.now.rows)) (hole ∷ holes) ranges.old.spans
        → AreBetween gap (map span_of (row_items order.now.rows)) holes ranges.new.spans }
{
    if hole.end <= hole.start {
        return;
    }
    let key = Key::at(TimeMark::ahead(hole.start, gap));
    let high = TimeMark::beyond(hole.end, gap);
    if ranges.spare() == 0 {
        remake(ranges, order, gap);
        return;
    }
    ranges.carve(hole, gap);
    if !refill(ranges, order, &key, high, gap) {
        remake(ranges, order, gap);
    }
}

/// Repairs the ranges where some frames were that are no more in the order.
pub(crate) fn mend_run(ranges: &mut Ranges, order: &Order, frames: &Frames, run: &Run, gap: Ticks)
    requires repairable { AreRepairable gap (row_items order.now.rows) ranges.old.spans
        (ranges.old.spare + length ranges.old.spans) }
    requires frames { AllByRecursion IsTimed (row_items frames.now.rows) }
    requires run { IsRun frames.now.rows run.now }
    requires between { AreBetween gap (map span_of (row_items order.now.rows))
        (intervals (frames_in frames.now.rows run.now)) ranges.old.spans }
    ensures spans { ranges.new.spans ≡ bridged_ranges gap (map span_of (row_items order.now.rows)) }
    ensures room { ranges.old.spare + length ranges.old.spans ≤ ranges.new.spare
        + length ranges.new.spans }
{
    let mut place = run.from;
    for n in 0..run.count {
        let hole = span_of(&entry_of(frames.item(place)));
        mend(ranges, order, hole, gap);
        place = frames.next(place);
    }
}
