//! A list in blocks that knows how many items stand before each block.

ghost use Rattle.std.specs.Prelude.{◌≡◌, ◌+◌, ◌<◌, ◌≤◌, ◌^◌, [], ◌∷◌, ◌++◌, length, take, drop, true, false, slice_index_or, vec_capacity};
ghost use Rattle.std.specs.List.{AllByRecursion};
ghost use Rattle.mse_base.specs.Rows.{row_items, start, row};
ghost use Rattle.block_list.specs.Rows.{IsCut, IsReserved};
ghost use Rattle.block_list.specs.BlockPlaces.{rank, IsItemPlace, IsInBlock, IsItemAt, IsPlaceAfter, IsItemSet, AreBounds, items_outside};
ghost use Rattle.block_list.specs.Starts.{starts_of, AreStartsFrom, AreStartsUpTo};

use crate::block::{Change, Fact, take_out};
use crate::block_list::{BlockList, BlockPlace};
use crate::finding::{Test, search};
use mse_base::OutOfMemory;
use std::alloc::Global;
use std::marker::Model;

/// A list in blocks in which the place of an item is found by its number, and the number of a
/// place, by a search among the starts of the blocks.
///
/// A removal leaves the starts behind it as they are, too great by the items that went, and the
/// next one settles those between the two: so removals side by side move few.
#[derive(Drop)]
pub struct RankedList<T, F: Fact<T>> {
    list: BlockList<T, F>,
    /// How many items stand before each block; from `settled` on `excess` too many.
    starts: Vec<usize>,
    settled: usize,
    excess: usize,
}

impl<T, F: Fact<T>> Model for RankedList<T, F> {
    ghost use Rattle.std.specs.Prelude.{◌-◌, min, vec_capacity, vec_len};
    ghost use Rattle.block_list.specs.Rows.{ListView};
    ghost use Rattle.block_list.specs.Starts.{starts_of, AreStartsUpTo};

    ghost Value = { ListView T };

    ghost view = { λ l. record {
      rows = l.list.rows;
      spare = min l.list.spare
          (vec_capacity l.starts - vec_len l.starts);
    } };

    ghost invariant = { λ l. AreStartsUpTo l.starts.items l.settled l.excess
        (starts_of l.list.rows) };
}

/// Makes the starts of some blocks anew, with `before` items before the first of them; the number
/// of items before the block behind them.
fn restart<T, F: Fact<T>>(
    starts: &mut Vec<usize>,
    list: &BlockList<T, F>,
    from: usize,
    to: usize,
    before: usize,
) -> usize
    requires len { length starts.old.items ≡ length list.now.rows }
    requires in_order { from ≤ to }
    requires within { to ≤ length list.now.rows }
    requires before { before ≡ start list.now.rows from }
    requires front { take from starts.old.items ≡ take from (starts_of list.now.rows) }
    ensures count { result ≡ start list.now.rows to }
    ensures len { length starts.new.items ≡ length list.now.rows }
    ensures front { take to starts.new.items ≡ take to (starts_of list.now.rows) }
    ensures rest { drop to starts.new.items ≡ drop to starts.old.items }
    ensures capacity { vec_capacity starts.new ≡ vec_capacity starts.old }
{
    // The number of all items is one, so no sum is too great.
    let _len = list.len();
    let mut count = before;
    let mut b = from;
    while b < to {
        starts[b] = count;
        count += list.block(b).len();
        b += 1;
    }
    count
}

/// Settles the starts from `from` up to before `to`.
fn lower<T, F: Fact<T>>(
    starts: &mut Vec<usize>,
    list: &BlockList<T, F>,
    from: usize,
    to: usize,
    excess: usize,
)
    requires in_order { from ≤ to }
    requires within { to ≤ length list.now.rows }
    requires starts { AreStartsFrom starts.old.items from excess list.now.rows }
    ensures starts { AreStartsFrom starts.new.items to excess list.now.rows }
    ensures capacity { vec_capacity starts.new ≡ vec_capacity starts.old }
{
    let mut b = from;
    while b < to {
        starts[b] -= excess;
        b += 1;
    }
}

/// Makes the starts from `to` up to before `from` too great again.
fn raise<T, F: Fact<T>>(
    starts: &mut Vec<usize>,
    list: &BlockList<T, F>,
    from: usize,
    to: usize,
    excess: usize,
)
    requires in_order { to ≤ from }
    requires within { from ≤ length list.now.rows }
    requires starts { AreStartsFrom starts.old.items from excess list.now.rows }
    requires fits { start list.now.rows from + excess < 2 ^ 64 }
    ensures starts { AreStartsFrom starts.new.items to excess list.now.rows }
    ensures capacity { vec_capacity starts.new ≡ vec_capacity starts.old }
{
    let mut b = from;
    while b > to {
        b -= 1;
        starts[b] += excess;
    }
}

/// Settles the starts before `to`, and no others.
fn settle<T, F: Fact<T>>(
    starts: &mut Vec<usize>,
    list: &BlockList<T, F>,
    settled: usize,
    to: usize,
    excess: usize,
)
    requires starts { AreStartsUpTo starts.old.items settled excess (starts_of list.now.rows) }
    requires within { to ≤ length list.now.rows }
    ensures starts { AreStartsFrom starts.new.items to excess list.now.rows }
    ensures capacity { vec_capacity starts.new ≡ vec_capacity starts.old }
{
    if settled <= to {
        lower(starts, list, settled, to, excess);
        return;
    }
    // Where no start is too great the excess is 0.
    if settled < starts.len() {
        // The proof reads off this that a start with the excess is a number.
        let _first = starts[settled];
        raise(starts, list, settled, to, excess);
        return;
    }
    // The proof reads off this that the number of all items is one.
    let _len = list.len();
    raise(starts, list, settled, to, excess);
}

/// Sees to it that the number of all items with the excess is one that can be kept.
fn fit<T, F: Fact<T>>(
    starts: &mut Vec<usize>,
    list: &BlockList<T, F>,
    settled: &mut usize,
    excess: &mut usize,
    len: usize,
)
    requires { AreStartsUpTo starts.old.items settled.old excess.old (starts_of list.now.rows) }
    ensures starts { AreStartsUpTo starts.new.items settled.new excess.new
        (starts_of list.now.rows) }
    ensures fits { len + excess.new < 2 ^ 64 }
    ensures capacity { vec_capacity starts.new ≡ vec_capacity starts.old }
{
    if *excess <= usize::MAX - len {
        return;
    }
    let blocks = list.blocks();
    lower(starts, list, *settled, blocks, *excess);
    *settled = blocks;
    *excess = 0;
}

/// By how much a start is too great, where there is one.
fn excess_at(starts: &[usize], b: usize, before: usize) -> usize
    requires { b < length starts.now → before ≤ slice_index_or starts.now b 0 }
    ensures some { b < length starts.now → slice_index_or starts.now b 0 ≡ before + result }
    ensures none { length starts.now ≤ b → result ≡ 0 }
{
    if b < starts.len() {
        starts[b] - before
    } else {
        0
    }
}

impl<T, F: Fact<T>> RankedList<T, F> {
    /// A list with no item, in blocks of at most `2 * half`.
    pub fn new(alloc: Global, half: usize) -> RankedList<T, F>
        requires half_not_zero { 0 < half }
        requires half_at_most_64 { half ≤ 64 }
        ensures { result ≡ record { rows = []; spare = 0 } }
    {
        RankedList {
            list: BlockList::new(alloc, half),
            starts: Vec::new(alloc),
            settled: 0,
            excess: 0,
        }
    }

    /// How many blocks there are.
    pub fn blocks(&self) -> usize
        ensures { result ≡ length self.now.rows }
    {
        self.list.blocks()
    }

    /// How many items there are.
    pub fn len(&self) -> usize
        ensures { result ≡ length (row_items self.now.rows) }
    {
        self.list.len()
    }

    /// The items of a block.
    pub fn block(&self, b: usize) -> &[T]
        requires { b < length self.now.rows }
        ensures value { result.now ≡ row self.now.rows b }
        ensures at_most_128 { length result.now ≤ 128 }
    {
        self.list.block(b)
    }

    /// Makes room for `n` more items. An `Err` leaves the list.
    pub fn reserve(&mut self, n: usize) -> Result<(), OutOfMemory>
        ensures { IsReserved n result self.old self.new }
    {
        self.list.reserve(n)?;
        self.starts.reserve(n)?;
        Ok(())
    }

    /// How many items stand before a block.
    fn start(&self, b: usize) -> usize
        requires { b < length self.now.rows }
        ensures { result ≡ start self.now.rows b }
    {
        if b < self.settled {
            return self.starts[b];
        }
        self.starts[b] - self.excess
    }

    /// The place of item `k`.
    pub fn place(&self, k: usize) -> BlockPlace
        requires { k < length (row_items self.now.rows) }
        ensures item { IsItemPlace self.now.rows result }
        ensures place { start self.now.rows result.block + result.index ≡ k }
    {
        let mut low = 0;
        let mut high = self.blocks();
        'search: while high - low > 1 {
            let middle = low + (high - low) / 2;
            if self.start(middle) <= k {
                low = middle;
            } else {
                high = middle;
            }
        }
        BlockPlace {
            block: low,
            index: k - self.start(low),
        }
    }

    /// How many items stand before a place.
    pub fn rank(&self, place: BlockPlace) -> usize
        requires { IsInBlock self.now.rows place }
        ensures { result ≡ rank self.now.rows place }
    {
        // The proof reads off this that the number of all items is one.
        let _len = self.len();
        self.start(place.block) + place.index
    }

    /// The place behind the last item that passes.
    pub fn search<P: Test<T>>(&self, test: &P) -> BlockPlace
        requires { IsCut (P.is_passed_by test.now) (row_items self.now.rows) }
        ensures block { 0 < length self.now.rows → result.block < length self.now.rows }
        ensures index { result.index ≤ length (row self.now.rows result.block) }
        ensures before { AllByRecursion (λ x. P.is_passed_by test.now x ≡ true)
            (take (rank self.now.rows result) (row_items self.now.rows)) }
        ensures after { AllByRecursion (λ x. P.is_passed_by test.now x ≡ false)
            (drop (rank self.now.rows result) (row_items self.now.rows)) }
    {
        search(&self.list, test)
    }

    /// The item at a place.
    pub fn item(&self, place: BlockPlace) -> &T
        requires { IsItemPlace self.now.rows place }
        ensures { IsItemAt self.now.rows place result.now }
    {
        self.list.item(place)
    }

    /// The place behind that of an item.
    pub fn next(&self, place: BlockPlace) -> BlockPlace
        requires { IsItemPlace self.now.rows place }
        ensures { IsPlaceAfter self.now.rows (rank self.now.rows place + 1) result }
    {
        self.list.next(place)
    }

    /// The same place as that of an item, where it is behind a block's last and not at the end.
    pub fn at_item(&self, place: BlockPlace) -> BlockPlace
        requires { IsInBlock self.now.rows place }
        ensures { IsPlaceAfter self.now.rows (rank self.now.rows place) result }
    {
        self.list.at_item(place)
    }

    /// Changes the item at a place.
    pub fn change<C: Change<T>>(&mut self, place: BlockPlace, change: &C)
        requires { IsItemPlace self.old.rows place }
        ensures items { IsItemSet (C.after change.now) self.old.rows place self.new.rows }
        ensures spare { self.new.spare ≡ self.old.spare }
    {
        self.list.change(place, change);
    }
}

impl<T: Drop, F: Fact<T>> RankedList<T, F> {
    /// Appends an item.
    pub fn push(&mut self, x: T)
        requires { 1 ≤ self.old.spare }
        ensures items { row_items self.new.rows ≡ row_items self.old.rows ++ x ∷ [] }
        ensures spare { self.old.spare ≤ self.new.spare + 1 }
    {
        let len = self.list.len();
        fit(
            &mut self.starts,
            &self.list,
            &mut self.settled,
            &mut self.excess,
            len,
        );
        self.list.push(x);
        if self.starts.len() < self.list.blocks() {
            self.starts.push_reserved(len + self.excess);
        }
    }

    /// Takes out the items from a place up to before another.
    pub fn remove_range(&mut self, from: BlockPlace, to: BlockPlace)
        requires { AreBounds self.old.rows from to }
        ensures items { row_items self.new.rows ≡ items_outside self.old.rows from to }
        ensures no_room_lost { self.old.spare ≤ self.new.spare }
    {
        let blocks = self.list.blocks();
        let behind = to.block + 1;
        settle(
            &mut self.starts,
            &self.list,
            self.settled,
            behind,
            self.excess,
        );
        let before = self.starts[from.block];
        self.list.remove_range(from, to);
        let rest = behind - (blocks - self.list.blocks());
        take_out(&mut self.starts, rest, behind);
        let count = restart(&mut self.starts, &self.list, from.block, rest, before);
        self.settled = rest;
        self.excess = excess_at(&self.starts, rest, count);
    }
}
