ghost use Rattle.std.specs.Prelude.{◌≡◌, ◌&&◌, not, ◌+◌, ◌<◌, ◌^◌, ◌≤◌, ◌≤ℤ◌, ◌+ℤ◌, pos, false, slice_get, vec_capacity, vec_len, IfSome, length, if◌then◌else◌, Some};
ghost use Rattle.std.specs.List.{AllByRecursion};
ghost use Rattle.mse_base.specs.Time.{IsTick};
ghost use Rattle.mse_base.specs.Moments.{is_before, least, greatest};
ghost use Rattle.track_store.specs.Frames.{frames_left, is_in_frame, later_frame, overlapped, frame_at, starts, ends, interval, ranges_of, sync_times_from, bytes_of, IsTimed};
ghost use Rattle.track_store.specs.Named.{is_named};

use crate::named::Named;
use crate::places::{group_start, place_of};
use crate::{FrameStore, Stored};
use mse_base::{Moment, OutOfMemory, Ranges, Span, Ticks};
use std::alloc::Global;
use std::marker::Model;

fn clear(frames: &mut Vec<Stored>, named: &Named)
    ensures items { frames.new.items ≡ frames_left false (is_named named.now) frames.old.items }
    ensures capacity { vec_capacity frames.new ≡ vec_capacity frames.old }
    ensures no_longer { vec_len frames.new ≤ vec_len frames.old }
{
    let mut i = 0;
    let mut is_gone = false;
    while i < frames.len() {
        is_gone = named.is_taking(&frames[i], is_gone);
        if is_gone {
            frames.remove(i);
        } else {
            i += 1;
        }
    }
}

fn is_in_frame(stored: &Stored, t: Ticks) -> bool
    ensures { result ≡ is_in_frame t stored.now }
{
    stored.frame.pts <= t && t.get() < stored.frame.pts.get() + stored.frame.dur.get()
}

fn is_no_later(frames: &[Stored], best: Option<usize>, stored: &Stored) -> bool
    requires { IfSome best (λ i. i < length frames.now) }
    ensures { later_frame (frame_at frames.now best) stored.now
        ≡ (if result then Some stored.now else frame_at frames.now best) }
{
    match best {
        None => true,
        Some(i) => frames[i].frame.pts <= stored.frame.pts,
    }
}

/// The place of the later of two frames that hold the time, where the one at `i` holds it.
fn later(frames: &[Stored], best: Option<usize>, i: usize, t: Ticks) -> Option<usize>
    requires best_in_range { IfSome best (λ j. j < length frames.now) }
    requires in_range { i < length frames.now }
    ensures frame { IfSome (slice_get frames.now i) (λ f. frame_at frames.now result
        ≡ (if is_in_frame t f then later_frame (frame_at frames.now best) f
        else frame_at frames.now best)) }
    ensures in_range { IfSome result (λ j. j < length frames.now) }
{
    let stored = &frames[i];
    if is_in_frame(stored, t) && is_no_later(frames, best, stored) {
        Some(i)
    } else {
        best
    }
}

fn overlapped(frames: &[Stored], t: Ticks) -> Option<usize>
    ensures frame { frame_at frames.now result ≡ overlapped t frames.now }
    ensures in_range { IfSome result (λ i. i < length frames.now) }
{
    let mut best = None;
    for i in 0..frames.len() {
        best = later(frames, best, i, t);
    }
    best
}

fn is_sync_from(stored: &Stored, t: &Moment) -> bool
    ensures { result ≡ (stored.now.frame.sync && not (is_before stored.now.frame.pts t.now)) }
{
    let before = stored.frame.pts.is_before(*t);
    stored.frame.sync && !before
}

fn sync_at_or_after(frames: &[Stored], t: &Moment) -> Option<Ticks>
    ensures { result ≡ least (sync_times_from t.now frames.now) }
{
    let mut best = None;
    for stored in frames {
        if is_sync_from(stored, t) {
            best = stored.frame.pts.lesser_of(best);
        }
    }
    best
}

fn highest_start(frames: &[Stored]) -> Option<Ticks>
    ensures { result ≡ greatest (starts frames.now) }
{
    let mut best = None;
    for stored in frames {
        best = stored.frame.pts.greater_of(best);
    }
    best
}

fn highest_end(frames: &[Stored]) -> Option<Ticks>
    requires { AllByRecursion IsTimed frames.now }
    ensures { result ≡ greatest (ends frames.now) }
{
    let mut best = None;
    for stored in frames {
        best = stored.end().greater_of(best);
    }
    best
}

fn used(frames: &[Stored]) -> u64
    requires { bytes_of frames.now < 2 ^ 62 }
    ensures { result ≡ bytes_of frames.now }
{
    let mut total = 0;
    for stored in frames {
        total += stored.frame.payload.len() as u64;
    }
    total
}

fn interval(stored: &Stored) -> Span
    requires { IsTick (stored.now.frame.pts +ℤ stored.now.frame.dur) }
    ensures { result ≡ interval stored.now }
{
    Span {
        start: stored.frame.pts,
        end: stored.end(),
    }
}

/// Makes the ranges anew from all frames.
fn rejoin(ranges: &mut Ranges, frames: &[Stored], gap: Ticks)
    requires gap_from_zero { pos 0 ≤ℤ gap }
    requires timed { AllByRecursion IsTimed frames.now }
    requires room { length frames.now ≤ ranges.old.spare + length ranges.old.spans }
    ensures spans { ranges.new.spans ≡ ranges_of gap frames.now }
    ensures room { ranges.old.spare + length ranges.old.spans
        ≤ ranges.new.spare + length ranges.new.spans }
{
    ranges.clear();
    for stored in frames {
        ranges.add_span(interval(stored), gap);
    }
}

/// A plain list of frames, with their ranges beside it: the store for tests. Its look-ups go
/// through all frames, and each change makes the ranges anew.
#[derive(Drop)]
pub struct ListStore {
    items: Vec<Stored>,
    ranges: Ranges,
    gap: Ticks,
}

impl Model for ListStore {
    ghost use Rattle.std.specs.Prelude.{◌-◌, ◌+◌, length, min, vec_capacity, vec_len};
    ghost use Rattle.track_store.specs.Frames.{StoreState};
    ghost use Rattle.track_store.specs.Listed.{IsPlainStore};

    ghost Value = { StoreState };

    ghost view = { λ s. record {
      frames = s.items.items;
      gap = s.gap;
      spare = min (vec_capacity s.items - vec_len s.items)
          ((s.ranges.spare + length s.ranges.spans) - vec_len s.items);
    } };

    ghost invariant = { λ s. IsPlainStore s.items.items s.ranges.spans s.gap
        (s.ranges.spare + length s.ranges.spans) };
}

impl ListStore {
    ghost use Rattle.track_store.specs.Frames.{frames_without};

    fn remove(&mut self, named: &Named)
        ensures frames { self.new.frames ≡ frames_without (is_named named.now) self.old.frames }
        ensures no_room_lost { self.old.spare ≤ self.new.spare }
        ensures gap { self.new.gap ≡ self.old.gap }
    {
        clear(&mut self.items, named);
        rejoin(&mut self.ranges, &self.items, self.gap);
    }
}

impl FrameStore for ListStore {
    ghost frames = { λ s. s.frames };

    ghost spare = { λ s. s.spare };

    ghost gap = { λ s. s.gap };

    fn new(alloc: Global, tolerance: Ticks) -> Self {
        ListStore {
            items: Vec::new(alloc),
            ranges: Ranges::new(alloc),
            gap: tolerance,
        }
    }

    fn serials_ascend(&self) {
        // It is kept of the items.
        let _frames = self.items.len();
    }

    fn reserve(&mut self, n: usize) -> Result<(), OutOfMemory> {
        self.items.reserve(n)?;
        self.ranges
            .reserve(n + (self.items.len() - self.ranges.len()))
    }

    fn add(&mut self, frame: Stored) {
        self.ranges.add_span(interval(&frame), self.gap);
        self.items.push_reserved(frame);
    }

    fn len(&self) -> usize {
        self.items.len()
    }

    fn get(&self, i: usize) -> Option<&Stored> {
        self.items.get(i)
    }

    fn place_of(&self, serial: u64) -> Option<usize> {
        place_of(&self.items, serial)
    }

    fn group_start(&self, i: usize) -> Option<usize> {
        group_start(&self.items, i)
    }

    fn cut(&mut self, i: usize, dur: Ticks) {
        let stored = &mut self.items[i];
        // A Ticks is in range, so the frame still ends at one.
        let _begins = stored.frame.pts.get();
        stored.frame.dur = dur;
        rejoin(&mut self.ranges, &self.items, self.gap);
    }

    fn remove_at(&mut self, i: usize) {
        let serial = self.items[i].serial;
        self.remove(&Named::Serial(serial));
    }

    fn remove_where_time(&mut self, from: Ticks, to: Moment, below: u64) {
        self.remove(&Named::Within { from, to, below });
    }

    fn overlapped(&self, t: Ticks) -> Option<usize> {
        overlapped(&self.items, t)
    }

    fn sync_at_or_after(&self, t: Moment) -> Option<Ticks> {
        sync_at_or_after(&self.items, &t)
    }

    fn span_holding(&self, t: Ticks) -> Option<Span> {
        self.ranges.holding(t)
    }

    fn first_span_after(&self, t: Ticks) -> Option<Span> {
        self.ranges.first_after(t)
    }

    fn last_span_before(&self, t: Ticks) -> Option<Span> {
        self.ranges.last_before(t)
    }

    fn last_span(&self) -> Option<Span> {
        self.ranges.last()
    }

    fn highest_start(&self) -> Option<Ticks> {
        highest_start(&self.items)
    }

    fn highest_end(&self) -> Option<Ticks> {
        highest_end(&self.items)
    }

    fn used(&self) -> u64 {
        used(&self.items)
    }

    fn copy_ranges(&self) -> Result<Ranges, OutOfMemory> {
        self.ranges.copy()
    }
}
