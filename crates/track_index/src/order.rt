//! The frames of a store in order of presentation, in blocks.

ghost use Rattle.std.specs.Prelude.{◌≡◌, ◌+◌, ◌-◌, ◌<◌, ◌≤◌, ◌≤ℤ◌, false, true, length, take, drop, map, filter, not, min, vec_len, vec_capacity, IfSome, IfNone, [], slice_index_or};
ghost use Rattle.std.specs.List.{AllByRecursion, list_all};
ghost use Rattle.mse_base.specs.Moments.{is_before};
ghost use Rattle.mse_base.specs.Rows.{row_items, row, start};
ghost use Rattle.block_list.specs.Rows.{IsReserved};
ghost use Rattle.block_list.specs.BlockPlaces.{rank, IsPlace, IsItemPlace, IsItemAt, IsPlaceAfter};
ghost use Rattle.track_index.specs.Order.{entries_with, is_in_entry, last_that, first_start, is_sync_from, last_start, with_entry_dur, is_ended};
ghost use Rattle.track_index.specs.Keyed.{is_before_key, IsKeyed, IsFound, is_entry_named, has_entry_serial, HasEntry, IsNamedAt};
ghost use Rattle.track_index.specs.Known.{greatest_end};
ghost use Rattle.track_index.specs.Tops.{tops_of};
ghost use Rattle.track_index.specs.Runs.{is_serial_from, IsLastBetween};

use crate::entry::{OrderEntry, is_in_entry, is_sync_from};
use crate::key::Key;
use crate::known::{Known, end_mark, greatest_end};
use crate::mark::TimeMark;
use crate::tops::{refresh, refresh_with, top_before};
use block_list::{BlockList, BlockPlace, Test, search};
use mse_base::{Moment, OutOfMemory, Ticks};
use std::alloc::Global;
use std::marker::Model;

/// Entries by presentation timestamp, at a tie in order of appending, in blocks; and the running
/// end of each block.
#[derive(Drop)]
pub(crate) struct Order {
    list: BlockList<OrderEntry, Known>,
    tops: Vec<Option<TimeMark>>,
}

impl Model for Order {
    ghost use Rattle.std.specs.Prelude.{◌≡◌, ◌-◌, min, vec_capacity, vec_len};
    ghost use Rattle.block_list.specs.Rows.{ListView};
    ghost use Rattle.track_index.specs.declared.entry.OrderEntry.{OrderEntry};

    ghost Value = { ListView OrderEntry };

    ghost use Rattle.track_index.specs.Tops.{tops_of};

    ghost view = { λ o. record
        { rows = o.list.rows; spare = min o.list.spare (vec_capacity o.tops - vec_len o.tops) } };

    ghost invariant = { λ o. o.tops.items ≡ tops_of o.list.rows };
}

/// The place of the entry of a serial.
fn place_of(list: &BlockList<OrderEntry, Known>, pts: Ticks, serial: u64) -> BlockPlace
    requires { HasEntry pts serial (row_items list.now.rows) }
    ensures place { IsItemPlace list.now.rows result }
    ensures names { IsNamedAt serial (row_items list.now.rows) (rank list.now.rows result) }
{
    let key = Key {
        mark: TimeMark::at(pts),
        serial,
    };
    let place = search(list, &key);
    list.at_item(place)
}

/// The last entry of some that holds a time; each that is looked at is counted.
fn last_in(items: &[OrderEntry], t: Ticks, visits: &mut u64) -> Option<OrderEntry>
    ensures last { result ≡ last_that (is_in_entry t) items.now }
    ensures not_less { visits.old ≤ visits.new }
    ensures at_most { visits.new ≤ visits.old + length items.now }
{
    let mut i = items.len();
    while i > 0 {
        i -= 1;
        *visits = visits.saturating_add(1);
        let entry = items[i];
        if is_in_entry(&entry, t) {
            return Some(entry);
        }
    }
    None
}

/// Whether an end, if there is one, is not after a time.
fn is_ended(end: &Option<TimeMark>, t: Ticks) -> bool
    ensures { result ≡ is_ended t end.now }
{
    match end {
        None => true,
        Some(end) => end.is_by(t),
    }
}

/// The last of the first `count` entries of a block that holds a time: no entry is looked at where
/// none of the block ends after it.
fn look(
    list: &BlockList<OrderEntry, Known>,
    b: usize,
    count: usize,
    t: Ticks,
    visits: &mut u64,
) -> Option<OrderEntry>
    requires block { b < length list.now.rows }
    requires in_block { count ≤ length (row list.now.rows b) }
    ensures last { result ≡ last_that (is_in_entry t) (take count (row list.now.rows b)) }
    ensures not_less { visits.old ≤ visits.new }
    ensures at_most { visits.new ≤ visits.old + 128 }
{
    if is_ended(&list.fact(b).end, t) {
        return None;
    }
    let items = list.block(b);
    last_in(&items[..count], t, visits)
}

/// Where the first random access point of some entries begins that is not before a moment.
fn first_sync(items: &[OrderEntry], t: &Moment) -> Option<Ticks>
    ensures { result ≡ first_start (is_sync_from t.now) items.now }
{
    for entry in items {
        if is_sync_from(entry, t) {
            return Some(entry.pts);
        }
    }
    None
}

/// The last entry of the first `from` blocks that holds a time: blocks are passed whole where
/// none of their entries ends after it, and in the first other block one does, since all begin by
/// the time.
fn last_in_blocks(
    list: &BlockList<OrderEntry, Known>,
    tops: &[Option<TimeMark>],
    from: usize,
    t: Ticks,
    visits: &mut u64,
) -> Option<OrderEntry>
    requires tops { tops.now ≡ tops_of list.now.rows }
    requires within { from ≤ length list.now.rows }
    requires start_by { AllByRecursion (λ o. o.pts ≤ℤ t) (row_items (take from list.now.rows)) }
    ensures last { result ≡ last_that (is_in_entry t) (row_items (take from list.now.rows)) }
    ensures not_less { visits.old ≤ visits.new }
    ensures at_most { visits.new ≤ visits.old + 128 }
{
    let mut b = from;
    while b > 0 {
        let top = top_before(tops, list, b);
        if is_ended(&top, t) {
            return None;
        }
        b -= 1;
        if !is_ended(&list.fact(b).end, t) {
            return last_in(list.block(b), t, visits);
        }
    }
    None
}

/// A place of a block before which all entries begin before a moment.
fn place_from(list: &BlockList<OrderEntry, Known>, t: &Moment) -> BlockPlace
    requires keyed { IsKeyed (row_items list.now.rows) }
    requires some { 0 < length list.now.rows }
    ensures block { result.block < length list.now.rows }
    ensures index { result.index ≤ length (row list.now.rows result.block) }
    ensures before { AllByRecursion (λ o. is_before o.pts t.now ≡ true)
        (take (rank list.now.rows result) (row_items list.now.rows)) }
{
    match t {
        Moment::At(t) => search(list, &Key::at(TimeMark::at(*t))),
        _ => BlockPlace { block: 0, index: 0 },
    }
}

/// Where the first random access point of a block begins that is not before a moment: no entry is
/// looked at where the block has none.
fn sync_in(list: &BlockList<OrderEntry, Known>, b: usize, t: &Moment) -> Option<Ticks>
    requires { b < length list.now.rows }
    ensures { result ≡ first_start (is_sync_from t.now) (row list.now.rows b) }
{
    if !list.fact(b).sync {
        return None;
    }
    first_sync(list.block(b), t)
}

/// Where the first random access point of the blocks from one on begins that is not before a
/// moment: blocks without one are passed whole.
fn sync_in_blocks(list: &BlockList<OrderEntry, Known>, from: usize, t: &Moment) -> Option<Ticks>
    requires { from ≤ length list.now.rows }
    ensures { result ≡ first_start (is_sync_from t.now) (row_items (drop from list.now.rows)) }
{
    for b in from..list.blocks() {
        match sync_in(list, b, t) {
            Some(pts) => return Some(pts),
            None => {}
        }
    }
    None
}

impl Order {
    /// An order of no entry, in blocks of at most `2 * half`.
    pub(crate) fn new(alloc: Global, half: usize) -> Order
        requires half_not_zero { 0 < half }
        requires half_at_most_64 { half ≤ 64 }
        ensures { row_items result.rows ≡ [] }
    {
        Order {
            list: BlockList::new(alloc, half),
            tops: Vec::new(alloc),
        }
    }

    /// Makes room for `n` more entries.
    pub(crate) fn reserve(&mut self, n: usize) -> Result<(), OutOfMemory>
        ensures { IsReserved n result self.old self.new }
    {
        self.list.reserve(n)?;
        self.tops.reserve(n)?;
        Ok(())
    }

    /// Puts an entry after all that begin no later.
    pub(crate) fn put(&mut self, entry: OrderEntry)
        requires room { 1 ≤ self.old.spare }
        requires keyed { IsKeyed (row_items self.old.rows) }
        ensures items { row_items self.new.rows ≡ entries_with entry (row_items self.old.rows) }
        ensures spare { self.old.spare ≤ self.new.spare + 1 }
    {
        let key = Key::at(TimeMark::after(entry.pts));
        if self.list.blocks() == 0 {
            self.list.push(entry);
            refresh(&mut self.tops, &self.list, 0, 0);
            return;
        }
        let place = search(&self.list, &key);
        let end = end_mark(&entry);
        self.list.insert(place, entry);
        refresh_with(&mut self.tops, &self.list, place.block, end);
    }

    /// Takes out the entry of a serial, which begins at `pts`.
    pub(crate) fn take_out(&mut self, pts: Ticks, serial: u64)
        requires { HasEntry pts serial (row_items self.old.rows) }
        ensures items { row_items self.new.rows
            ≡ filter (λ o. not (has_entry_serial serial o)) (row_items self.old.rows) }
        ensures no_room_lost { self.old.spare ≤ self.new.spare }
    {
        let place = place_of(&self.list, pts, serial);
        self.list.remove(place);
        refresh(&mut self.tops, &self.list, place.block, place.block);
    }

    /// The place of the last of `count` entries from a place on, where the serial of each lies
    /// between two.
    fn last_between(
        &self,
        from: BlockPlace,
        low: u64,
        high: u64,
        count: usize,
    ) -> Option<BlockPlace>
        requires place { IsPlace self.now.rows from }
        requires some { 0 < count }
        ensures { IfSome result (λ s. IsLastBetween low high self.now.rows from count s) }
    {
        let blocks = self.blocks();
        let mut last = from;
        let mut place = from;
        for n in 0..count {
            if place.block >= blocks {
                return None;
            }
            let serial = self.entry(place).serial;
            if serial < low || serial > high {
                return None;
            }
            last = place;
            place = self.next(place);
        }
        Some(last)
    }

    /// Takes out the entries from a key on whose serials lie between that of the key and another,
    /// where all of them stand side by side there; whether they did.
    pub(crate) fn take_out_run(&mut self, key: &Key, high: u64, count: usize) -> bool
        requires keyed { IsKeyed (row_items self.old.rows) }
        requires some { 0 < count }
        requires count { length (filter (is_serial_from key.now.serial high)
            (row_items self.old.rows)) ≡ count }
        ensures items { result ≡ true → row_items self.new.rows
            ≡ filter (λ o. not (is_serial_from key.now.serial high o)) (row_items self.old.rows) }
        ensures same { result ≡ false → row_items self.new.rows ≡ row_items self.old.rows }
        ensures no_room_lost { self.old.spare ≤ self.new.spare }
    {
        let from = self.place_at(key);
        match self.last_between(from, key.serial, high, count) {
            None => false,
            Some(last) => {
                // A block has few entries, so the place behind one is a number.
                let _few = self.list.block(last.block);
                let to = BlockPlace {
                    block: last.block,
                    index: last.index + 1,
                };
                self.list.remove_range(from, to);
                refresh(&mut self.tops, &self.list, from.block, to.block);
                true
            }
        }
    }

    /// Gives the entry of a serial, which begins at `pts`, another duration.
    pub(crate) fn shorten(&mut self, pts: Ticks, serial: u64, dur: Ticks)
        requires { HasEntry pts serial (row_items self.old.rows) }
        ensures items { row_items self.new.rows
            ≡ map (with_entry_dur serial dur) (row_items self.old.rows) }
        ensures no_room_lost { self.old.spare ≤ self.new.spare }
    {
        let place = place_of(&self.list, pts, serial);
        let entry = *self.list.item(place);
        let shorter = OrderEntry {
            pts: entry.pts,
            dur,
            serial: entry.serial,
            sync: entry.sync,
        };
        self.list.set(place, shorter);
        refresh(&mut self.tops, &self.list, place.block, place.block);
    }

    /// The last entry that holds a time.
    pub(crate) fn last_holding(&self, t: Ticks, visits: &mut u64) -> Option<OrderEntry>
        requires keyed { IsKeyed (row_items self.now.rows) }
        ensures last { result ≡ last_that (is_in_entry t) (row_items self.now.rows) }
        ensures not_less { visits.old ≤ visits.new }
        ensures at_most { visits.new ≤ visits.old + 256 }
    {
        let key = Key::at(TimeMark::after(t));
        if self.list.blocks() == 0 {
            return None;
        }
        let place = search(&self.list, &key);
        match look(&self.list, place.block, place.index, t, visits) {
            Some(entry) => Some(entry),
            None => last_in_blocks(&self.list, &self.tops, place.block, t, visits),
        }
    }

    /// Where the first random access point begins that is not before a moment.
    pub(crate) fn sync_at_or_after(&self, t: &Moment) -> Option<Ticks>
        requires keyed { IsKeyed (row_items self.now.rows) }
        ensures { result ≡ first_start (is_sync_from t.now) (row_items self.now.rows) }
    {
        if self.list.blocks() == 0 {
            return None;
        }
        let place = place_from(&self.list, t);
        let items = self.list.block(place.block);
        match first_sync(&items[place.index..], t) {
            Some(pts) => Some(pts),
            None => sync_in_blocks(&self.list, place.block + 1, t),
        }
    }

    /// The last entry.
    fn last_entry(&self) -> Option<OrderEntry>
        ensures last { IfSome result (λ o. (0 < length (row_items self.now.rows))
            × (o ≡ slice_index_or (row_items self.now.rows)
            (length (row_items self.now.rows) - 1) o)) }
        ensures none { IfNone result (row_items self.now.rows ≡ []) }
    {
        let n = self.list.blocks();
        if n == 0 {
            return None;
        }
        // No block is empty.
        let _spare = self.list.spare();
        let index = self.list.block(n - 1).len() - 1;
        Some(
            *self.list.item(BlockPlace {
                block: n - 1,
                index,
            }),
        )
    }

    /// Where the last entry begins.
    pub(crate) fn last_start(&self) -> Option<Ticks>
        ensures { result ≡ last_start (row_items self.now.rows) }
    {
        match self.last_entry() {
            Some(entry) => Some(entry.pts),
            None => None,
        }
    }

    /// The greatest end.
    pub(crate) fn highest_end(&self) -> Option<TimeMark>
        ensures { result ≡ greatest_end (row_items self.now.rows) }
    {
        top_before(&self.tops, &self.list, self.list.blocks())
    }

    /// The greatest end of the entries that stand before a key.
    pub(crate) fn greatest_end_before(&self, key: &Key) -> Option<TimeMark>
        requires keyed { IsKeyed (row_items self.now.rows) }
        ensures { result ≡ greatest_end (filter (is_before_key key.now) (row_items self.now.rows)) }
    {
        if self.list.blocks() == 0 {
            return None;
        }
        let place = search(&self.list, key);
        let items = self.list.block(place.block);
        let within = greatest_end(&items[..place.index]);
        top_before(&self.tops, &self.list, place.block).max(within)
    }

    /// The place of the first entry that does not stand before a key.
    pub(crate) fn place_at(&self, key: &Key) -> BlockPlace
        requires keyed { IsKeyed (row_items self.now.rows) }
        ensures place { IsPlace self.now.rows result }
        ensures before { AllByRecursion (λ o. is_before_key key.now o ≡ true)
            (take (rank self.now.rows result) (row_items self.now.rows)) }
        ensures after { AllByRecursion (λ o. is_before_key key.now o ≡ false)
            (drop (rank self.now.rows result) (row_items self.now.rows)) }
    {
        if self.list.blocks() == 0 {
            return BlockPlace { block: 0, index: 0 };
        }
        let place = search(&self.list, key);
        self.list.at_item(place)
    }

    /// The place of the first entry.
    pub(crate) fn start(&self) -> BlockPlace
        ensures { IsPlaceAfter self.now.rows 0 result }
    {
        // No block is empty.
        let _spare = self.list.spare();
        BlockPlace { block: 0, index: 0 }
    }

    /// How many blocks there are.
    pub(crate) fn blocks(&self) -> usize
        ensures { result ≡ length self.now.rows }
    {
        self.list.blocks()
    }

    /// The entry at a place.
    pub(crate) fn entry(&self, place: BlockPlace) -> OrderEntry
        requires { IsItemPlace self.now.rows place }
        ensures { IsItemAt self.now.rows place result }
    {
        *self.list.item(place)
    }

    /// The place behind that of an entry.
    pub(crate) fn next(&self, place: BlockPlace) -> BlockPlace
        requires { IsItemPlace self.now.rows place }
        ensures { IsPlaceAfter self.now.rows (rank self.now.rows place + 1) result }
    {
        self.list.next(place)
    }

    /// Whether all entries stand before a key, as they do where the last one does.
    fn is_all_before(&self, key: &Key) -> bool
        requires keyed { IsKeyed (row_items self.now.rows) }
        ensures { result ≡ list_all (is_before_key key.now) (row_items self.now.rows) }
    {
        match self.last_entry() {
            Some(entry) => key.is_passed_by(&entry),
            None => true,
        }
    }

    /// The first entry not before a key that begins before a moment and has a serial below a
    /// number.
    pub(crate) fn first_named(&self, key: &Key, to: &Moment, below: u64) -> Option<OrderEntry>
        requires keyed { IsKeyed (row_items self.now.rows) }
        ensures found { IfSome result (λ e. IsFound key.now to.now below e
            (row_items self.now.rows)) }
        ensures none { IfNone result (AllByRecursion
            (λ o. is_before_key key.now o ≡ false → is_entry_named to.now below o ≡ false)
            (row_items self.now.rows)) }
    {
        if self.is_all_before(key) {
            return None;
        }
        let mut place = self.place_at(key);
        while place.block < self.blocks() {
            let entry = self.entry(place);
            if !entry.pts.is_before(*to) {
                return None;
            }
            if entry.serial < below {
                return Some(entry);
            }
            place = self.next(place);
        }
        None
    }
}
