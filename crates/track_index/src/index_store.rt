ghost use Rattle.std.specs.Prelude.{◌≡◌, ◌+◌, ◌<◌, ◌≤◌, ◌≤ℤ◌, pos, true, [], length, map};
ghost use Rattle.std.specs.List.{AllByRecursion, list_any};
ghost use Rattle.mse_base.specs.Spans.{IsBridging};
ghost use Rattle.mse_base.specs.Bridging.{bridged_ranges};
ghost use Rattle.mse_base.specs.Rows.{row_items};
ghost use Rattle.track_store.specs.Frames.{frames_without, IsAscending, IsTimed, has_serial, intervals, ranges_of};
ghost use Rattle.track_index.specs.Order.{presentation_order, span_of};
ghost use Rattle.track_index.specs.Runs.{IsRun, frames_out};
ghost use Rattle.track_index.specs.Indexed.{IsNextKey};

use crate::entry::{end_at, end_of, entry_of, span_of};
use crate::frames::{Frames, NewDuration, Run, group_start, place_below, place_of, run_from};
use crate::key::Key;
use crate::mark::TimeMark;
use crate::order::Order;
use crate::repair::{mend, mend_run};
use crate::syncs::{make_room, note};
use block_list::{BlockPlace, RankedList};
use mse_base::{Moment, OutOfMemory, Ranges, Span, Ticks};
use std::alloc::Global;
use std::marker::Model;
use track_store::{FrameStore, Stored};

/// Half as many frames as a block may have.
const HALF: usize = 64;

/// The frames of a track with an index: the store that the program runs on.
///
/// It keeps the frames in order of appending and, by serial, in order of presentation, both in
/// blocks of at most 128; of each block of that order the greatest end, that of all entries up to
/// its last, and whether it has a random access point; the serials of the random access points;
/// and the ranges. Only `reserve` and `copy_ranges` take memory.
///
/// A call costs a search, work within one or two blocks, and at worst one look at what is known of
/// each block; a removal costs that for each run of frames that goes (one frame up to the next
/// random access point), and a look at each of them, or all of it for each frame where others stand
/// between those of the run in order of presentation; `add`, `cut` and removals move the ranges
/// behind theirs, which are repaired near the hole alone. The group of a frame is found by searches
/// alone. A removal leaves the serials of random access points as they are; those of
/// frames that are gone are dropped by `add` of a lower one, and by `reserve` where all are twice as
/// many as the frames and 64 more.
#[derive(Drop)]
pub struct IndexStore {
    pub(crate) items: Frames,
    pub(crate) order: Order,
    /// The serials of all random access points held, ascending, and perhaps of some that are gone.
    pub(crate) syncs: Vec<u64>,
    pub(crate) ranges: Ranges,
    /// The bytes of all payloads.
    pub(crate) total: u64,
    pub(crate) gap: Ticks,
}

impl Model for IndexStore {
    ghost use Rattle.std.specs.Prelude.{◌-◌, ◌+◌, length, vec_len, vec_capacity};
    ghost use Rattle.mse_base.specs.Rows.{row_items};
    ghost use Rattle.track_store.specs.Frames.{StoreState};
    ghost use Rattle.track_index.specs.Indexed.{IsIndexed, index_room};

    ghost Value = { StoreState };

    ghost view = { λ s. record {
      frames = row_items s.items.rows;
      gap = s.gap;
      spare = index_room s.items.spare s.order.spare
          (vec_capacity s.syncs - vec_len s.syncs)
          ((s.ranges.spare + length s.ranges.spans) - length (row_items s.items.rows));
    } };

    ghost invariant = { λ s. IsIndexed (row_items s.items.rows) (record {
      order = row_items s.order.rows;
      syncs = s.syncs.items;
      ranges = s.ranges.spans;
      total = s.total;
    }) s.gap (s.ranges.spare + length s.ranges.spans) };
}

/// Takes the frames of a run out of the order, one by one.
fn take_out_each(order: &mut Order, frames: &Frames, run: &Run)
    requires ascending { IsAscending (row_items frames.now.rows) }
    requires in_order { row_items order.old.rows ≡ presentation_order (row_items frames.now.rows) }
    requires run { IsRun frames.now.rows run.now }
    ensures in_order { row_items order.new.rows
        ≡ presentation_order (frames_out frames.now.rows run.now) }
    ensures no_room_lost { order.old.spare ≤ order.new.spare }
{
    let mut place = run.from;
    for n in 0..run.count {
        let stored = frames.item(place);
        order.take_out(stored.frame.pts, stored.serial);
        place = frames.next(place);
    }
}

/// Takes the frames of a run out of the order, and out of the ranges what no other frame has. Where
/// they stand side by side in the order too, that is one removal and one repair.
fn take_run_out(order: &mut Order, ranges: &mut Ranges, frames: &Frames, run: &Run, gap: Ticks)
    requires gap_from_zero { pos 0 ≤ℤ gap }
    requires ascending { IsAscending (row_items frames.now.rows) }
    requires timed { AllByRecursion IsTimed (row_items frames.now.rows) }
    requires in_order { row_items order.old.rows ≡ presentation_order (row_items frames.now.rows) }
    requires joined { ranges.old.spans ≡ ranges_of gap (row_items frames.now.rows) }
    requires room { length (row_items frames.now.rows) ≤ ranges.old.spare
        + length ranges.old.spans }
    requires run { IsRun frames.now.rows run.now }
    ensures in_order { row_items order.new.rows
        ≡ presentation_order (frames_out frames.now.rows run.now) }
    ensures spans { ranges.new.spans ≡ bridged_ranges gap (map span_of (row_items order.new.rows)) }
    ensures no_room_lost { order.old.spare ≤ order.new.spare }
    ensures room { ranges.old.spare + length ranges.old.spans ≤ ranges.new.spare
        + length ranges.new.spans }
{
    let first = frames.item(run.from).serial;
    let last = frames.item(run.last).serial;
    let key = Key {
        mark: TimeMark::at(run.hull.start),
        serial: first,
    };
    if order.take_out_run(&key, last, run.count) {
        mend(ranges, order, run.hull, gap);
        return;
    }
    take_out_each(order, frames, run);
    mend_run(ranges, order, frames, run, gap);
}

impl IndexStore {
    /// A store in blocks of at most `2 * half` frames.
    pub(crate) fn with_half(alloc: Global, tolerance: Ticks, half: usize) -> IndexStore
        requires gap_from_zero { pos 0 ≤ℤ tolerance }
        requires half_not_zero { 0 < half }
        requires half_at_most_64 { half ≤ 64 }
        ensures frames { result.frames ≡ [] }
        ensures gap { result.gap ≡ tolerance }
    {
        IndexStore {
            items: RankedList::new(alloc, half),
            order: Order::new(alloc, half),
            syncs: Vec::new(alloc),
            ranges: Ranges::new(alloc),
            total: 0,
            gap: tolerance,
        }
    }

    /// The ranges of the frames (Media Source Extensions, "track buffer ranges").
    pub fn kept(&self) -> &Ranges
        ensures spans { result.now.spans ≡ ranges_of self.now.gap self.now.frames }
        ensures bridged { IsBridging self.now.gap (intervals self.now.frames) result.now.spans }
    {
        &self.ranges
    }

    /// Removes the frame of a serial, and those appended after it up to the next random access
    /// point.
    fn remove_serial(&mut self, serial: u64)
        requires { list_any (has_serial serial) self.old.frames ≡ true }
        ensures frames { self.new.frames ≡ frames_without (has_serial serial) self.old.frames }
        ensures shorter { length self.new.frames < length self.old.frames }
        ensures no_room_lost { self.old.spare ≤ self.new.spare }
        ensures gap { self.new.gap ≡ self.old.gap }
    {
        let from = place_below(&self.items, serial);
        let run = run_from(&self.items, from);
        take_run_out(
            &mut self.order,
            &mut self.ranges,
            &self.items,
            &run,
            self.gap,
        );
        // A block has few items, so the place behind one is a number.
        let _few = self.items.block(run.last.block);
        let to = BlockPlace {
            block: run.last.block,
            index: run.last.index + 1,
        };
        self.items.remove_range(from, to);
        self.total -= run.bytes;
    }

    /// The serial of the first frame in order of presentation that is named, of those not before
    /// a key.
    fn next_named(&self, key: &Key, to: &Moment, below: u64) -> Option<Key>
        ensures { IsNextKey key.now to.now below result self.now.frames }
    {
        match self.order.first_named(key, to, below) {
            Some(entry) => Some(Key {
                mark: TimeMark::at(entry.pts),
                serial: entry.serial,
            }),
            None => None,
        }
    }
}

impl FrameStore for IndexStore {
    ghost frames = { λ s. s.frames };

    ghost spare = { λ s. s.spare };

    ghost gap = { λ s. s.gap };

    fn new(alloc: Global, tolerance: Ticks) -> Self {
        IndexStore::with_half(alloc, tolerance, HALF)
    }

    fn serials_ascend(&self) {
        // It is kept of the frames.
        let _bytes = self.total;
    }

    fn reserve(&mut self, n: usize) -> Result<(), OutOfMemory> {
        self.items.reserve(n)?;
        self.order.reserve(n)?;
        make_room(&mut self.syncs, &self.items, n)?;
        let more = match n.checked_add(2) {
            Some(more) => more,
            None => return Err(OutOfMemory),
        };
        // Where all frames of a range are cut, or one that the others lie in is removed, each may get
        // a range of its own; neither takes memory, so there is room for a range a frame.
        let surplus = self.items.len() - self.ranges.len();
        match more.checked_add(surplus) {
            Some(room) => self.ranges.reserve(room),
            None => Err(OutOfMemory),
        }
    }

    fn add(&mut self, frame: Stored) {
        let entry = entry_of(&frame);
        self.ranges.add_span(span_of(&entry), self.gap);
        self.total += frame.frame.payload.len() as u64;
        self.order.put(entry);
        note(&mut self.syncs, &frame);
        self.items.push(frame);
    }

    fn len(&self) -> usize {
        self.items.len()
    }

    fn get(&self, i: usize) -> Option<&Stored> {
        if i >= self.items.len() {
            return None;
        }
        let place = self.items.place(i);
        Some(self.items.item(place))
    }

    fn place_of(&self, serial: u64) -> Option<usize> {
        place_of(&self.items, serial)
    }

    fn group_start(&self, i: usize) -> Option<usize> {
        group_start(&self.items, self.syncs.as_slice(), i)
    }

    fn cut(&mut self, i: usize, dur: Ticks) {
        let place = self.items.place(i);
        let entry = entry_of(self.items.item(place));
        // A Ticks is in range, so the frame still ends at one.
        let _begins = entry.pts.get();
        let hole = Span {
            start: end_at(entry.pts, dur),
            end: end_of(&entry),
        };
        self.order.shorten(entry.pts, entry.serial, dur);
        mend(&mut self.ranges, &self.order, hole, self.gap);
        self.items.change(place, &NewDuration { dur });
    }

    fn remove_at(&mut self, i: usize) {
        let place = self.items.place(i);
        let serial = self.items.item(place).serial;
        self.remove_serial(serial);
    }

    fn remove_where_time(&mut self, from: Ticks, to: Moment, below: u64) {
        let mut key = Key::at(TimeMark::at(from));
        while let Some(next) = self.next_named(&key, &to, below) {
            self.remove_serial(next.serial);
            key = next;
        }
    }

    fn overlapped(&self, t: Ticks) -> Option<usize> {
        let mut visits = 0;
        self.overlapped_counted(t, &mut visits)
    }

    fn sync_at_or_after(&self, t: Moment) -> Option<Ticks> {
        self.order.sync_at_or_after(&t)
    }

    fn span_holding(&self, t: Ticks) -> Option<Span> {
        self.ranges.holding(t)
    }

    fn first_span_after(&self, t: Ticks) -> Option<Span> {
        self.ranges.first_after(t)
    }

    fn last_span_before(&self, t: Ticks) -> Option<Span> {
        self.ranges.last_before(t)
    }

    fn last_span(&self) -> Option<Span> {
        self.ranges.last()
    }

    fn highest_start(&self) -> Option<Ticks> {
        self.order.last_start()
    }

    fn highest_end(&self) -> Option<Ticks> {
        match self.order.highest_end() {
            None => None,
            Some(end) => end.time(),
        }
    }

    fn used(&self) -> u64 {
        self.total
    }

    fn copy_ranges(&self) -> Result<Ranges, OutOfMemory> {
        self.ranges.copy()
    }
}
