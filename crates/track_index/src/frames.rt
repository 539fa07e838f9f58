//! The frames of a store in order of appending, in blocks.

ghost use Rattle.std.specs.Prelude.{◌≡◌, ◌+◌, ◌^◌, ◌<◌, ◌≤◌, ◌+ℤ◌, length, take, drop, IfSome, None};
ghost use Rattle.std.specs.List.{AllByRecursion, list_any, position};
ghost use Rattle.track_store.specs.Frames.{IsAscending, IsTimed, has_serial, from_sync, group_start_of, bytes_of};
ghost use Rattle.track_store.specs.Sound.{IsChained};
ghost use Rattle.mse_base.specs.Time.{IsTick};
ghost use Rattle.mse_base.specs.Rows.{row_items};
ghost use Rattle.block_list.specs.BlockPlaces.{rank, IsPlace, IsItemPlace};
ghost use Rattle.track_index.specs.Syncs.{AreSyncsOf};
ghost use Rattle.track_index.specs.Runs.{IsRun, run_of_one, run_with};

use crate::entry::{entry_of, span_of};
use crate::syncs::last_up_to;
use block_list::{BlockPlace, Change, Fact, RankedList, Test};
use mse_base::{Span, Ticks};
use track_store::Stored;

/// Nothing is asked of the frames of a block.
#[derive(Drop)]
pub(crate) struct NoFact {}

/// Frames in blocks.
pub(crate) type Frames = RankedList<Stored, NoFact>;

impl Fact<Stored> for NoFact {
    ghost of = { λ _. record {} };

    fn of(_items: &[Stored]) -> NoFact {
        NoFact {}
    }

    fn with(&self, _x: &Stored) -> NoFact {
        NoFact {}
    }
}

/// The frames whose serial is lower.
#[derive(Clone, Copy, Drop)]
pub(crate) struct SerialBelow {
    pub(crate) serial: u64,
}

impl Test<Stored> for SerialBelow {
    ghost use Rattle.track_index.specs.Frames.{is_serial_below};

    ghost is_passed_by = { is_serial_below };

    fn is_passed_by(&self, x: &Stored) -> bool {
        x.serial < self.serial
    }
}

/// Another duration of a frame.
#[derive(Clone, Copy, Drop)]
pub(crate) struct NewDuration {
    pub(crate) dur: Ticks,
}

impl Change<Stored> for NewDuration {
    ghost use Rattle.track_index.specs.Frames.{with_new_dur};

    ghost after = { with_new_dur };

    fn apply(&self, x: &mut Stored) {
        x.frame.dur = self.dur;
    }
}

/// The place of the first frame whose serial is not lower.
pub(crate) fn place_below(frames: &Frames, serial: u64) -> BlockPlace
    requires { IsAscending (row_items frames.now.rows) }
    ensures place { IsPlace frames.now.rows result }
    ensures before { AllByRecursion (λ f. f.serial < serial)
        (take (rank frames.now.rows result) (row_items frames.now.rows)) }
    ensures after { AllByRecursion (λ f. serial ≤ f.serial)
        (drop (rank frames.now.rows result) (row_items frames.now.rows)) }
{
    if frames.blocks() == 0 {
        return BlockPlace { block: 0, index: 0 };
    }
    let place = frames.search(&SerialBelow { serial });
    frames.at_item(place)
}

/// The place of a frame by its serial.
pub(crate) fn place_of(frames: &Frames, serial: u64) -> Option<usize>
    requires { IsAscending (row_items frames.now.rows) }
    ensures place { result ≡ position (has_serial serial) (row_items frames.now.rows) }
    ensures in_range { IfSome result (λ i. i < length (row_items frames.now.rows)) }
{
    let place = place_below(frames, serial);
    if place.block >= frames.blocks() {
        return None;
    }
    if frames.item(place).serial == serial {
        Some(frames.rank(place))
    } else {
        None
    }
}

/// Whether a frame of a serial is held.
pub(crate) fn is_held(frames: &Frames, serial: u64) -> bool
    requires { IsAscending (row_items frames.now.rows) }
    ensures { result ≡ list_any (has_serial serial) (row_items frames.now.rows) }
{
    place_of(frames, serial).is_some()
}

/// The place of the last random access point at or before a place: that of the greatest of their
/// serials which is not above that of the frame there. The group of a frame is whole, so the frame
/// of that serial is held.
pub(crate) fn group_start(frames: &Frames, syncs: &[u64], i: usize) -> Option<usize>
    requires ascending { IsAscending (row_items frames.now.rows) }
    requires chained { IsChained None (row_items frames.now.rows) }
    requires syncs { AreSyncsOf (row_items frames.now.rows) syncs.now }
    ensures { result ≡ group_start_of i (row_items frames.now.rows) }
{
    let len = frames.len();
    if len == 0 {
        return None;
    }
    let number = if i < len { i } else { len - 1 };
    let place = frames.place(number);
    match last_up_to(syncs, frames.item(place).serial) {
        Some(start) => place_of(frames, start),
        None => None,
    }
}

/// Frames that stand side by side.
#[derive(Clone, Copy)]
pub(crate) struct Run {
    /// The place of the first.
    pub(crate) from: BlockPlace,
    /// The place of the last.
    pub(crate) last: BlockPlace,
    pub(crate) count: usize,
    /// A span that has their presentation intervals.
    pub(crate) hull: Span,
    /// The bytes of their payloads.
    pub(crate) bytes: u64,
}

impl Run {
    /// One frame, at a place.
    fn one(place: BlockPlace, stored: &Stored) -> Run
        requires { IsTick (stored.now.frame.pts +ℤ stored.now.frame.dur) }
        ensures { result ≡ run_of_one place stored.now }
    {
        Run {
            from: place,
            last: place,
            count: 1,
            hull: span_of(&entry_of(stored)),
            bytes: stored.frame.payload.len() as u64,
        }
    }

    /// With the frame behind the last, at a place.
    fn with(self, place: BlockPlace, stored: &Stored) -> Run
        requires timed { IsTick (stored.now.frame.pts +ℤ stored.now.frame.dur) }
        requires count { self.count + 1 < 2 ^ 64 }
        requires bytes { self.bytes + length stored.now.frame.payload < 2 ^ 64 }
        ensures { result ≡ run_with self place stored.now }
    {
        let span = span_of(&entry_of(stored));
        Run {
            from: self.from,
            last: place,
            count: self.count + 1,
            hull: Span {
                start: self.hull.start.min(span.start),
                end: self.hull.end.max(span.end),
            },
            bytes: self.bytes + stored.frame.payload.len() as u64,
        }
    }
}

/// A frame with those appended after it up to the next random access point.
pub(crate) fn run_from(frames: &Frames, from: BlockPlace) -> Run
    requires place { IsItemPlace frames.now.rows from }
    requires timed { AllByRecursion IsTimed (row_items frames.now.rows) }
    requires small { bytes_of (row_items frames.now.rows) < 2 ^ 62 }
    ensures from { result.from ≡ from }
    ensures run { IsRun frames.now.rows result }
    ensures rest { drop (rank frames.now.rows from + result.count) (row_items frames.now.rows)
        ≡ from_sync (drop (rank frames.now.rows from + 1) (row_items frames.now.rows)) }
{
    // The proof reads off this that the number of all frames is one.
    let _len = frames.len();
    let mut run = Run::one(from, frames.item(from));
    let mut next = frames.next(from);
    while next.block < frames.blocks() {
        let stored = frames.item(next);
        if stored.frame.sync {
            return run;
        }
        run = run.with(next, stored);
        next = frames.next(next);
    }
    run
}
