ghost use Rattle.std.specs.Prelude.{◌≡◌, ◌+◌, ◌<◌, ◌≤◌, ◌^◌, ℕ, ℤ, pos, ◌≤ℤ◌, ◌+ℤ◌, find, IfOk, List, [], ◌∷◌, ◌++◌, length, false, slice_get, option_copied, OnOk, IfSome};
ghost use Rattle.std.specs.List.{AllByRecursion, filter, position};
ghost use Rattle.mse_base.specs.Time.{IsTick};
ghost use Rattle.mse_base.specs.Spans.{reaches, last_of, has_end_after, has_start_before};
ghost use Rattle.mse_base.specs.Moments.{least, greatest};
ghost use Rattle.track_store.specs.Frames.{bytes_of, ends, ranges_of, has_serial, is_within, frames_without, frames_with_dur, group_start_of, overlapped, frame_at, sync_times_from, starts, IsAscending, IsTimed};
ghost use Rattle.track_store.specs.Sound.{HasPredecessor};
ghost use Rattle.track_store.specs.declared.store.Stored.{Stored};

use mse_base::{CodedFrame, Moment, OutOfMemory, Ranges, Span, Ticks};
use std::alloc::Global;

/// A coded frame, and its number among all frames that its track received.
#[derive(Debug, Drop)]
pub struct Stored {
    pub frame: CodedFrame,
    /// How many frames of the track were processed before it, dropped ones included.
    pub serial: u64,
}

impl Stored {
    /// When the frame ends.
    pub fn end(&self) -> Ticks
        requires { IsTick (self.now.frame.pts +ℤ self.now.frame.dur) }
        ensures { result ≡ self.now.frame.pts +ℤ self.now.frame.dur }
    {
        match self.frame.pts.checked_add(self.frame.dur) {
            Some(end) => end,
            None => unreachable!(),
        }
    }
}

/// The coded frames of one track, in the order in which they were appended.
///
/// Contracts see the list of frames, the number of further frames that there is room for, and the
/// gap across which ranges join. Only `reserve` and `copy_ranges` take memory.
pub trait FrameStore: Sized + Drop {
    /// The frames, in order of appending.
    ghost frames: { Self → List Stored };

    /// For how many more frames there is room.
    ghost spare: { Self → ℕ };

    /// Two ranges that are at most so many ticks apart are one.
    ghost gap: { Self → ℤ };

    /// A store with no frames, whose ranges join across gaps of at most `tolerance` ticks.
    fn new(alloc: Global, tolerance: Ticks) -> Self
        requires { pos 0 ≤ℤ tolerance }
        ensures frames { frames result ≡ [] }
        ensures gap { gap result ≡ tolerance };

    /// What is true of every store, for proofs: it does nothing. Serials ascend, no frame ends
    /// before it begins, each ends at a time in range, and the bytes stored can be counted.
    fn serials_ascend(&self)
        ensures ascending { IsAscending (frames self.now) }
        ensures timed { AllByRecursion IsTimed (frames self.now) }
        ensures small { bytes_of (frames self.now) < 2 ^ 62 };

    /// Makes room for `n` more frames. An `Err` leaves the frames, and no less room than before.
    fn reserve(&mut self, n: usize) -> Result<(), OutOfMemory>
        ensures frames { frames self.new ≡ frames self.old }
        ensures spare { OnOk result (n ≤ spare self.new) }
        ensures no_room_lost { spare self.old ≤ spare self.new }
        ensures gap { gap self.new ≡ gap self.old };

    /// Appends a frame.
    fn add(&mut self, frame: Stored)
        requires room { 1 ≤ spare self.old }
        requires later { AllByRecursion (λ f. f.serial < frame.serial) (frames self.old) }
        requires predecessor { frame.frame.sync ≡ false
            → HasPredecessor frame.serial (frames self.old) }
        requires dur_not_negative { pos 0 ≤ℤ frame.frame.dur }
        requires end_is_tick { IsTick (frame.frame.pts +ℤ frame.frame.dur) }
        requires small { bytes_of (frames self.old) + length frame.frame.payload < 2 ^ 62 }
        ensures frames { frames self.new ≡ frames self.old ++ frame ∷ [] }
        ensures spare { spare self.old ≤ spare self.new + 1 }
        ensures gap { gap self.new ≡ gap self.old };

    /// How many frames there are.
    fn len(&self) -> usize
        ensures { result ≡ length (frames self.now) };

    /// The frame at a place; `None` exactly where there are not more than `i` frames.
    fn get(&self, i: usize) -> Option<&Stored>
        ensures { option_copied result ≡ slice_get (frames self.now) i };

    /// The place of the frame of a serial; `None` exactly where no frame has it.
    fn place_of(&self, serial: u64) -> Option<usize>
        ensures { result ≡ position (has_serial serial) (frames self.now) };

    /// The place of the last random access point at or before a place, in order of appending: the
    /// one with which the group of the frame there begins. `None` exactly where there is none.
    fn group_start(&self, i: usize) -> Option<usize>
        ensures { result ≡ group_start_of i (frames self.now) };

    /// Gives the frame at a place a duration that is not greater than it has.
    fn cut(&mut self, i: usize, dur: Ticks)
        requires in_range { i < length (frames self.old) }
        requires no_longer { IfSome (slice_get (frames self.old) i)
            (λ f. (pos 0 ≤ℤ dur) × (dur ≤ℤ f.frame.dur)) }
        ensures frames { IfSome (slice_get (frames self.old) i)
            (λ f. frames self.new ≡ frames_with_dur f.serial dur (frames self.old)) }
        ensures no_room_lost { spare self.old ≤ spare self.new }
        ensures gap { gap self.new ≡ gap self.old };

    /// Removes the frame at a place, and its decoding dependencies.
    fn remove_at(&mut self, i: usize)
        requires { i < length (frames self.old) }
        ensures frames { IfSome (slice_get (frames self.old) i)
            (λ f. frames self.new ≡ frames_without (has_serial f.serial) (frames self.old)) }
        ensures no_room_lost { spare self.old ≤ spare self.new }
        ensures gap { gap self.new ≡ gap self.old };

    /// Removes the frames with `from <= pts`, `pts < to` and a serial below `below`, and their
    /// decoding dependencies. Where `to` is `Moment::Nan` there is none.
    fn remove_where_time(&mut self, from: Ticks, to: Moment, below: u64)
        ensures frames { frames self.new ≡ frames_without (is_within from to below)
            (frames self.old) }
        ensures no_room_lost { spare self.old ≤ spare self.new }
        ensures gap { gap self.new ≡ gap self.old };

    /// The place of the frame that begins last of those whose presentation interval holds a time,
    /// at a tie of the later appended; `None` exactly where no frame's does.
    fn overlapped(&self, t: Ticks) -> Option<usize>
        ensures frame { frame_at (frames self.now) result ≡ overlapped t (frames self.now) }
        ensures in_range { IfSome result (λ i. i < length (frames self.now)) };

    /// The least presentation timestamp of a random access point that is not before a moment;
    /// `None` exactly where there is none, and for `Moment::Infinite`.
    fn sync_at_or_after(&self, t: Moment) -> Option<Ticks>
        ensures { result ≡ least (sync_times_from t (frames self.now)) };

    /// The range with `start <= t` and `t <= end`; `None` exactly where there is none.
    fn span_holding(&self, t: Ticks) -> Option<Span>
        ensures { result ≡ find (reaches t) (ranges_of (gap self.now) (frames self.now)) };

    /// The first range that ends after a time; `None` exactly where none does.
    fn first_span_after(&self, t: Ticks) -> Option<Span>
        ensures { result ≡ find (has_end_after t) (ranges_of (gap self.now) (frames self.now)) };

    /// The last range that starts before a time; `None` exactly where none does.
    fn last_span_before(&self, t: Ticks) -> Option<Span>
        ensures { result
            ≡ last_of (filter (has_start_before t) (ranges_of (gap self.now) (frames self.now))) };

    /// The last range; `None` exactly where there is no range.
    fn last_span(&self) -> Option<Span>
        ensures { result ≡ last_of (ranges_of (gap self.now) (frames self.now)) };

    /// The greatest presentation timestamp; `None` exactly where there is no frame.
    fn highest_start(&self) -> Option<Ticks>
        ensures { result ≡ greatest (starts (frames self.now)) };

    /// The greatest frame end timestamp; `None` exactly where there is no frame.
    fn highest_end(&self) -> Option<Ticks>
        ensures { result ≡ greatest (ends (frames self.now)) };

    /// The sum of the payloads' lengths in bytes.
    fn used(&self) -> u64
        ensures value { result ≡ bytes_of (frames self.now) }
        ensures small { result < 2 ^ 62 };

    /// The ranges of time that the frames cover (Media Source Extensions, "track buffer ranges").
    fn copy_ranges(&self) -> Result<Ranges, OutOfMemory>
        ensures { IfOk result (λ r. r.spans ≡ ranges_of (gap self.now) (frames self.now)) };
}
