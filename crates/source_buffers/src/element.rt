//! What is buffered at one source buffer, and at the element.

ghost use Rattle.std.specs.Prelude.{◌≡◌, map, slice_get, find, option_map, true, false, None, IfSome, IfOk};
ghost use Rattle.std.specs.List.{list_all};
ghost use Rattle.mse_base.specs.Moments.{greatest};
ghost use Rattle.mse_base.specs.Spans.{reaches};
ghost use Rattle.track_buffers.specs.Buffered.{buffered_of, is_buffered_up_to, last_end, last_ends, with_end, with_last_end};
ghost use Rattle.source_buffers.specs.State.{all_kept_media, in_slot, kept_media};
ghost use Rattle.source_buffers.specs.Buffered.{active_ranges, buffered_at, element_ranges, element_span, shared_ranges, slot_ranges};

use crate::all::{buffer_at, slot_at, sound};
use buffer_state::Buffer;
use mse_base::{OutOfMemory, Ranges, Span, Ticks};
use std::alloc::Global;
use track_buffers::{extend_last, lasts_to, overlap_of_two, span_up_to};
use track_store::FrameStore;

fn slot_ranges<S: FrameStore>(
    slot: &Option<Buffer<S>>,
    ended: bool,
) -> Result<Option<Ranges>, OutOfMemory>
    ensures { IfOk result (λ ranges. option_map (λ r. r.spans) ranges
        ≡ option_map (buffered_of ended) (kept_media slot.now)) }
{
    match slot {
        Some(buffer) => Ok(Some(buffer.buffered(ended)?)),
        None => Ok(None),
    }
}

/// The ranges of the buffer of a number, if it is there.
pub(crate) fn buffered_at<S: FrameStore>(
    slots: &Vec<Option<Buffer<S>>>,
    k: usize,
    ended: bool,
) -> Result<Option<Ranges>, OutOfMemory>
    ensures { IfOk result (λ ranges. option_map (λ r. r.spans) ranges
        ≡ buffered_at ended k (all_kept_media slots.now.items)) }
{
    match slot_at(slots, k) {
        Some(slot) => slot_ranges(slot, ended),
        None => Ok(None),
    }
}

fn number_at(active: &[u32], i: usize) -> Option<u32>
    ensures { result ≡ slice_get active.now i }
{
    active.get(i).copied()
}

/// Where the last range of a buffer ends, where the source is ended.
fn buffer_end<S: FrameStore>(buffer: &Buffer<S>) -> Option<Ticks>
    ensures { result ≡ last_end (buffered_of true buffer.now.media) }
{
    match buffer.last_span(true) {
        Some(last) => Some(last.end),
        None => None,
    }
}

fn end_in<S: FrameStore>(slots: &Vec<Option<Buffer<S>>>, k: usize) -> Option<Ticks>
    ensures { result ≡ last_end (slot_ranges true (in_slot k (all_kept_media slots.now.items))) }
{
    match buffer_at(slots, k) {
        Some(buffer) => buffer_end(buffer),
        None => None,
    }
}

/// Where the last range of the active buffer at a place ends, where the source is ended.
fn end_at<S: FrameStore>(slots: &Vec<Option<Buffer<S>>>, active: &[u32], i: usize) -> Option<Ticks>
    ensures { IfSome (slice_get
        (active_ranges true active.now (all_kept_media slots.now.items)) i)
        (λ r. result ≡ last_end r) }
{
    match number_at(active, i) {
        Some(k) => end_in(slots, k as usize),
        None => None,
    }
}

/// The highest end of the ranges of all active buffers, where the source is ended.
fn highest_range_end<S: FrameStore>(slots: &Vec<Option<Buffer<S>>>, active: &[u32]) -> Option<Ticks>
    ensures { result ≡ greatest
        (last_ends (active_ranges true active.now (all_kept_media slots.now.items))) }
{
    let mut best = None;
    for i in 0..active.len() {
        best = best.max(end_at(slots, active, i));
    }
    best
}

/// The end that the last range of each active buffer lasts to: where the source is ended, the
/// highest of all.
fn common_end<S: FrameStore>(
    slots: &Vec<Option<Buffer<S>>>,
    active: &[u32],
    ended: bool,
) -> Option<Ticks>
    ensures shared { map (with_end result)
        (active_ranges ended active.now (all_kept_media slots.now.items))
        ≡ shared_ranges ended active.now (all_kept_media slots.now.items) }
    ensures open { ended ≡ false → result ≡ None }
{
    if ended {
        highest_range_end(slots, active)
    } else {
        None
    }
}

/// The ranges of the buffer of a number, of which the last lasts to an end, where there is one;
/// none where no buffer is.
fn ranges_in<S: FrameStore>(
    slots: &Vec<Option<Buffer<S>>>,
    alloc: Global,
    k: usize,
    ended: bool,
    end: &Option<Ticks>,
) -> Result<Ranges, OutOfMemory>
    ensures { IfOk result (λ r. r.spans
        ≡ with_end end.now (slot_ranges ended (in_slot k (all_kept_media slots.now.items)))) }
{
    match buffered_at(slots, k, ended)? {
        Some(ranges) => ranges_with_end(ranges, end),
        None => Ok(Ranges::new(alloc)),
    }
}

/// Ranges of which the last lasts to an end, where there is one.
fn ranges_with_end(ranges: Ranges, end: &Option<Ticks>) -> Result<Ranges, OutOfMemory>
    ensures { IfOk result (λ r. r.spans ≡ with_end end.now ranges.spans) }
{
    let mut ranges = ranges;
    // The proof reads off this that the spans of ranges are normalized.
    let _count = ranges.len();
    if let Some(end) = end {
        extend_last(&mut ranges, *end)?;
    }
    Ok(ranges)
}

/// The ranges of the active buffer at a place.
fn ranges_at<S: FrameStore>(
    slots: &Vec<Option<Buffer<S>>>,
    alloc: Global,
    active: &[u32],
    i: usize,
    ended: bool,
    end: &Option<Ticks>,
) -> Result<Ranges, OutOfMemory>
    ensures { IfOk result (λ r. IfSome (slice_get
        (map (with_end end.now)
        (active_ranges ended active.now (all_kept_media slots.now.items))) i)
        (λ x. r.spans ≡ x)) }
{
    match number_at(active, i) {
        Some(k) => ranges_in(slots, alloc, k as usize, ended, end),
        None => Ok(Ranges::new(alloc)),
    }
}

/// What is buffered at the element.
pub(crate) fn element_ranges<S: FrameStore>(
    slots: &Vec<Option<Buffer<S>>>,
    alloc: Global,
    active: &[u32],
    ended: bool,
) -> Result<Ranges, OutOfMemory>
    ensures { IfOk result (λ r. r.spans
        ≡ element_ranges ended active.now (all_kept_media slots.now.items)) }
{
    if active.len() == 0 {
        return Ok(Ranges::new(alloc));
    }
    // The proof reads off this that the tracks are sound.
    sound(slots);
    let end = common_end(slots, active, ended);
    let mut common = ranges_at(slots, alloc, active, 0, ended, &end)?;
    for i in 1..active.len() {
        let ranges = ranges_at(slots, alloc, active, i, ended, &end)?;
        common = common.meet(&ranges)?;
    }
    Ok(common)
}

/// The range of a buffer that holds a time, where the source is ended and the last range lasts to
/// an end.
fn ended_span_holding<S: FrameStore>(buffer: &Buffer<S>, t: Ticks, end: Ticks) -> Option<Span>
    ensures { result ≡ find (reaches t) (with_last_end end (buffered_of true buffer.now.media)) }
{
    // The proof reads off this that the tracks are sound.
    buffer.sound();
    match buffer.last_span(true) {
        Some(last) => {
            if t < last.start {
                return buffer.span_holding(t, true);
            }
            let span = span_up_to(last, end);
            if span.end < t { None } else { Some(span) }
        }
        None => None,
    }
}

/// The range of a buffer that holds a time, where the last one lasts to an end if there is one:
/// there is none where the source is not ended.
fn span_holding<S: FrameStore>(
    buffer: &Buffer<S>,
    t: Ticks,
    ended: bool,
    end: &Option<Ticks>,
) -> Option<Span>
    requires { ended ≡ false → end.now ≡ None }
    ensures { result ≡ find (reaches t) (with_end end.now (buffered_of ended buffer.now.media)) }
{
    match end {
        Some(end) => ended_span_holding(buffer, t, *end),
        None => buffer.span_holding(t, ended),
    }
}

/// The same of the buffer of a number; `None` where no buffer is.
fn span_in<S: FrameStore>(
    slots: &Vec<Option<Buffer<S>>>,
    k: usize,
    t: Ticks,
    ended: bool,
    end: &Option<Ticks>,
) -> Option<Span>
    requires { ended ≡ false → end.now ≡ None }
    ensures { result ≡ find (reaches t)
        (with_end end.now (slot_ranges ended (in_slot k (all_kept_media slots.now.items)))) }
{
    match buffer_at(slots, k) {
        Some(buffer) => span_holding(buffer, t, ended, end),
        None => None,
    }
}

/// The range of the active buffer at a place that holds a time.
fn span_at<S: FrameStore>(
    slots: &Vec<Option<Buffer<S>>>,
    active: &[u32],
    i: usize,
    t: Ticks,
    ended: bool,
    end: &Option<Ticks>,
) -> Option<Span>
    requires { ended ≡ false → end.now ≡ None }
    ensures { IfSome (slice_get
        (map (with_end end.now)
        (active_ranges ended active.now (all_kept_media slots.now.items))) i)
        (λ r. result ≡ find (reaches t) r) }
{
    match number_at(active, i) {
        Some(k) => span_in(slots, k as usize, t, ended, end),
        None => None,
    }
}

/// The range of the element that holds a time: one look-up in each track of each active buffer.
#[inline(never)]
fn shared_span<S: FrameStore>(
    slots: &Vec<Option<Buffer<S>>>,
    active: &[u32],
    t: Ticks,
    ended: bool,
) -> Option<Span>
    ensures { result ≡ element_span t ended active.now (all_kept_media slots.now.items) }
{
    if active.len() == 0 {
        return None;
    }
    // The proof reads off this that the tracks are sound.
    sound(slots);
    let end = common_end(slots, active, ended);
    let mut span = span_at(slots, active, 0, t, ended, &end);
    for i in 1..active.len() {
        span = overlap_of_two(span, span_at(slots, active, i, t, ended, &end));
    }
    span
}

/// The range of the element that holds a time. That of one active buffer is its own where the
/// source is not ended.
pub(crate) fn element_span<S: FrameStore>(
    slots: &Vec<Option<Buffer<S>>>,
    active: &[u32],
    t: Ticks,
    ended: bool,
) -> Option<Span>
    ensures { result ≡ element_span t ended active.now (all_kept_media slots.now.items) }
{
    if !ended && active.len() == 1 {
        return span_at(slots, active, 0, t, false, &None);
    }
    shared_span(slots, active, t, ended)
}

/// Whether a range of the buffer of a number holds a time, and it lasts to another, where the source
/// is not ended; false where no buffer is.
fn is_own_up_to<S: FrameStore>(
    slots: &Vec<Option<Buffer<S>>>,
    k: usize,
    t: Ticks,
    until: Ticks,
) -> bool
    ensures { result ≡ is_buffered_up_to t until
        (slot_ranges false (in_slot k (all_kept_media slots.now.items))) }
{
    match buffer_at(slots, k) {
        Some(buffer) => buffer.is_buffered_up_to(t, until, false),
        None => false,
    }
}

/// The same of the active buffer at a place.
fn is_active_up_to<S: FrameStore>(
    slots: &Vec<Option<Buffer<S>>>,
    active: &[u32],
    i: usize,
    t: Ticks,
    until: Ticks,
) -> bool
    ensures { IfSome (slice_get
        (active_ranges false active.now (all_kept_media slots.now.items)) i)
        (λ r. result ≡ is_buffered_up_to t until r) }
{
    match number_at(active, i) {
        Some(k) => is_own_up_to(slots, k as usize, t, until),
        None => false,
    }
}

/// The same of all active buffers.
fn are_all_up_to<S: FrameStore>(
    slots: &Vec<Option<Buffer<S>>>,
    active: &[u32],
    t: Ticks,
    until: Ticks,
) -> bool
    ensures { result ≡ list_all (is_buffered_up_to t until)
        (active_ranges false active.now (all_kept_media slots.now.items)) }
{
    for i in 0..active.len() {
        if !is_active_up_to(slots, active, i, t, until) {
            return false;
        }
    }
    true
}

/// Whether a range of the element holds a time, and it lasts to another. This is asked at each step,
/// and no range of one active buffer is copied for it.
pub(crate) fn is_buffered_up_to<S: FrameStore>(
    slots: &Vec<Option<Buffer<S>>>,
    active: &[u32],
    t: Ticks,
    until: Ticks,
    ended: bool,
) -> bool
    ensures { result ≡ is_buffered_up_to t until
        (element_ranges ended active.now (all_kept_media slots.now.items)) }
{
    if !ended && active.len() == 1 {
        return is_active_up_to(slots, active, 0, t, until);
    }
    is_shared_up_to(slots, active, t, until, ended)
}

/// The same of several active buffers.
#[inline(never)]
fn is_shared_up_to<S: FrameStore>(
    slots: &Vec<Option<Buffer<S>>>,
    active: &[u32],
    t: Ticks,
    until: Ticks,
    ended: bool,
) -> bool
    ensures { result ≡ is_buffered_up_to t until
        (element_ranges ended active.now (all_kept_media slots.now.items)) }
{
    if !ended && active.len() > 0 && t < until {
        // The proof reads off this that the tracks are sound.
        sound(slots);
        return are_all_up_to(slots, active, t, until);
    }
    lasts_to(&shared_span(slots, active, t, ended), until)
}
