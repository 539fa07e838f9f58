//! A list in blocks, with a pool of empty ones.

ghost use Rattle.std.specs.Prelude.{◌≡◌, ℕ, ◌+◌, ◌-◌, ◌*◌, ◌^◌, ◌<◌, ◌≤◌, [], ◌∷◌, ◌++◌, length, take, drop, OnOk, IfSome, IfNone, suc, slice_index_or, slice_set, vec_capacity, max, false};
ghost use Rattle.std.specs.List.{insert, remove};
ghost use Rattle.mse_base.specs.Rows.{row_items, start, row, split_row, AreEmpty};
ghost use Rattle.block_list.specs.Rows.{used_room, AreShort, AreNonEmpty, AreOneApart, IsListed, IsReserved};
ghost use Rattle.block_list.specs.BlockPlaces.{rank, IsItemPlace, IsInBlock, IsItemAt, IsPlaceAfter, IsItemSet, AreBounds, items_outside};
ghost use Rattle.block_list.specs.Starts.{starts_of};

use crate::block::{Block, Change, Fact, put_at};
use mse_base::OutOfMemory;
use std::alloc::Global;
use std::marker::Model;

/// A list in blocks.
#[derive(Drop)]
pub struct BlockList<T, F: Fact<T>> {
    alloc: Global,
    blocks: Vec<Block<T, F>>,
    pool: Vec<Block<T, F>>,
    spare: usize,
    len: usize,
    /// Half as many items as a block may have.
    half: usize,
}

impl<T, F: Fact<T>> Model for BlockList<T, F> {
    ghost use Rattle.std.specs.Prelude.{vec_capacity};
    ghost use Rattle.block_list.specs.Rows.{ListView, IsListed, IsCounted};

    ghost Value = { ListView T };

    ghost view = { λ l. record { rows = l.blocks.items; spare = l.spare } };

    ghost invariant = { λ l. IsListed (record {
      rows = l.blocks.items;
      pool = l.pool.items;
      block_capacity = vec_capacity l.blocks;
      pool_capacity = vec_capacity l.pool;
    }) l.half l.spare × IsCounted l.len l.spare l.blocks.items };
}

/// A place: a block, and how many of its items come before.
#[derive(Clone, Copy)]
pub struct BlockPlace {
    pub block: usize,
    pub index: usize,
}

fn len_at<T, F: Fact<T>>(blocks: &Vec<Block<T, F>>, b: usize) -> usize
    requires { b < length blocks.now.items }
    ensures value { result ≡ length (row blocks.now.items b) }
    ensures bound { result ≤ 128 }
{
    let block = &blocks[b];
    block.len()
}

/// The place behind the last item, where its block has room.
fn open_end<T, F: Fact<T>>(blocks: &Vec<Block<T, F>>, most: usize) -> Option<BlockPlace>
    ensures room { IfSome result
        (λ s. (s.block + 1 ≡ length blocks.now.items)
        × ((s.index ≡ length (row blocks.now.items s.block)) × (s.index < most))) }
    ensures full { IfNone result
        ((b : ℕ) → suc b ≡ length blocks.now.items → most ≤ length (row blocks.now.items b)) }
{
    let n = blocks.len();
    if n == 0 {
        return None;
    }
    let index = len_at(blocks, n - 1);
    if index < most {
        Some(BlockPlace {
            block: n - 1,
            index,
        })
    } else {
        None
    }
}

/// Puts an item into a block that has room.
fn put_in<T: Drop, F: Fact<T>>(blocks: &mut Vec<Block<T, F>>, b: usize, i: usize, x: T)
    requires block { b < length blocks.old.items }
    requires within { i ≤ length (row blocks.old.items b) }
    requires room { length (row blocks.old.items b) < 128 }
    ensures rows { blocks.new.items
        ≡ slice_set blocks.old.items b (insert (row blocks.old.items b) i x) }
    ensures capacity { vec_capacity blocks.new ≡ vec_capacity blocks.old }
{
    blocks[b].insert(i, x);
}

/// Cuts block `b` in two at `s`, by an empty block of the pool.
fn split_at<T: Copy + Drop, F: Fact<T>>(
    blocks: &mut Vec<Block<T, F>>,
    b: usize,
    s: usize,
    right: Block<T, F>,
)
    requires block { b < length blocks.old.items }
    requires within { s ≤ length (row blocks.old.items b) }
    requires empty { right ≡ [] }
    requires room { length blocks.old.items < vec_capacity blocks.old }
    ensures rows { blocks.new.items ≡ split_row blocks.old.items b s }
    ensures capacity { vec_capacity blocks.new ≡ vec_capacity blocks.old }
{
    let mut right = right;
    blocks[b].split_into(s, &mut right);
    put_at(blocks, b + 1, right);
}

/// Where a full block is cut: the last one behind what stands before the place.
fn cut_place(last: bool, i: usize, half: usize) -> usize
    requires { i ≤ 2 * half }
    ensures at_least_half { half ≤ result }
    ensures at_most_full { result ≤ 2 * half }
    ensures middle { last ≡ false → result ≡ half }
    ensures left { i < result → result ≡ half }
{
    if last && i > half { i } else { half }
}

/// Puts an item into a full block, which is cut in two.
fn put_apart<T: Copy + Drop, F: Fact<T>>(
    blocks: &mut Vec<Block<T, F>>,
    b: usize,
    i: usize,
    x: T,
    right: Block<T, F>,
    half: usize,
)
    requires block { b < length blocks.old.items }
    requires within { i ≤ length (row blocks.old.items b) }
    requires half_not_zero { 0 < half }
    requires half_at_most_64 { half ≤ 64 }
    requires full { length (row blocks.old.items b) ≡ 2 * half }
    requires empty { right ≡ [] }
    requires room { length blocks.old.items < vec_capacity blocks.old }
    requires short { AreShort half blocks.old.items }
    ensures items { row_items blocks.new.items
        ≡ insert (row_items blocks.old.items) (start blocks.old.items b + i) x }
    ensures short { AreShort half blocks.new.items }
    ensures used_room { used_room half blocks.new.items + half
        ≤ used_room half blocks.old.items + 1 }
    ensures len { length blocks.new.items ≡ length blocks.old.items + 1 }
    ensures front { take b blocks.new.items ≡ take b blocks.old.items }
    ensures rest { drop (b + 2) blocks.new.items ≡ drop (b + 1) blocks.old.items }
    ensures capacity { vec_capacity blocks.new ≡ vec_capacity blocks.old }
{
    let s = cut_place(b + 1 == blocks.len(), i, half);
    split_at(blocks, b, s, right);
    if i < s {
        put_in(blocks, b, i, x);
    } else {
        put_in(blocks, b + 1, i - s, x);
    }
}

/// How many blocks `n` additions can need.
fn blocks_for(blocks: usize, n: usize, half: usize) -> usize
    requires half_not_zero { 0 < half }
    requires blocks { blocks < 2 ^ 63 }
    requires small { n < 2 ^ 62 }
    ensures { n ≤ max result (half * result - (half * blocks + half)) }
{
    let most = blocks + n / half + 2;
    if n < most { n } else { most }
}

/// Adds an empty block to the pool.
fn add_empty<T, F: Fact<T>>(
    blocks: &mut Vec<Block<T, F>>,
    pool: &mut Vec<Block<T, F>>,
    alloc: Global,
) -> Result<(), OutOfMemory>
    ensures rows { blocks.new.items ≡ blocks.old.items }
    ensures empty { AreEmpty pool.old.items → AreEmpty pool.new.items }
    ensures ok { OnOk result (length pool.new.items ≡ length pool.old.items + 1) }
    ensures no_fewer_blocks { length pool.old.items ≤ length pool.new.items }
    ensures block_room { length pool.old.items + length blocks.old.items ≤ vec_capacity blocks.old
        → length pool.new.items + length blocks.new.items ≤ vec_capacity blocks.new }
    ensures pool_room { length pool.old.items + length blocks.old.items ≤ vec_capacity pool.old
        → length pool.new.items + length blocks.new.items ≤ vec_capacity pool.new }
{
    blocks.reserve(pool.len() + 1)?;
    pool.reserve(blocks.len() + 1)?;
    let block = Block::new(alloc)?;
    pool.push_reserved(block);
    Ok(())
}

/// Fills the pool.
fn fill<T, F: Fact<T>>(
    blocks: &mut Vec<Block<T, F>>,
    pool: &mut Vec<Block<T, F>>,
    alloc: Global,
    block_count: usize,
) -> Result<(), OutOfMemory>
    requires empty { AreEmpty pool.old.items }
    requires block_room { length pool.old.items + length blocks.old.items
        ≤ vec_capacity blocks.old }
    requires pool_room { length pool.old.items + length blocks.old.items ≤ vec_capacity pool.old }
    ensures rows { blocks.new.items ≡ blocks.old.items }
    ensures empty { AreEmpty pool.new.items }
    ensures ok { OnOk result (block_count ≤ length pool.new.items) }
    ensures no_fewer_blocks { length pool.old.items ≤ length pool.new.items }
    ensures block_room { length pool.new.items + length blocks.new.items ≤ vec_capacity blocks.new }
    ensures pool_room { length pool.new.items + length blocks.new.items ≤ vec_capacity pool.new }
{
    'fill: while pool.len() < block_count {
        add_empty(blocks, pool, alloc)?;
    }
    Ok(())
}

/// Takes an item out of a block.
fn take_from<T, F: Fact<T>>(blocks: &mut Vec<Block<T, F>>, b: usize, i: usize) -> T
    requires block { b < length blocks.old.items }
    requires within { i < length (row blocks.old.items b) }
    ensures value { result ≡ slice_index_or (row blocks.old.items b) i result }
    ensures rows { blocks.new.items
        ≡ slice_set blocks.old.items b (remove (row blocks.old.items b) i) }
    ensures capacity { vec_capacity blocks.new ≡ vec_capacity blocks.old }
{
    blocks[b].remove(i)
}

/// Changes an item of a block.
fn change_in<T, F: Fact<T>, C: Change<T>>(
    blocks: &mut Vec<Block<T, F>>,
    b: usize,
    i: usize,
    change: &C,
)
    requires block { b < length blocks.old.items }
    requires within { i < length (row blocks.old.items b) }
    ensures rows { (d : T) → blocks.new.items
        ≡ slice_set blocks.old.items b
        (slice_set (row blocks.old.items b) i
        (C.after change.now (slice_index_or (row blocks.old.items b) i d))) }
    ensures capacity { vec_capacity blocks.new ≡ vec_capacity blocks.old }
{
    blocks[b].change(i, change);
}

/// Puts another item in place of one of a block.
fn set_in<T: Drop, F: Fact<T>>(blocks: &mut Vec<Block<T, F>>, b: usize, i: usize, x: T)
    requires block { b < length blocks.old.items }
    requires within { i < length (row blocks.old.items b) }
    ensures rows { blocks.new.items
        ≡ slice_set blocks.old.items b (slice_set (row blocks.old.items b) i x) }
    ensures capacity { vec_capacity blocks.new ≡ vec_capacity blocks.old }
{
    blocks[b].set(i, x);
}

/// Takes out a stretch of a block.
fn cut_in<T: Drop, F: Fact<T>>(blocks: &mut Vec<Block<T, F>>, b: usize, from: usize, to: usize)
    requires block { b < length blocks.old.items }
    requires in_order { from ≤ to }
    requires within { to ≤ length (row blocks.old.items b) }
    ensures rows { blocks.new.items
        ≡ slice_set blocks.old.items b
        (take from (row blocks.old.items b) ++ drop to (row blocks.old.items b)) }
    ensures capacity { vec_capacity blocks.new ≡ vec_capacity blocks.old }
{
    blocks[b].remove_range(from, to);
}

/// Moves blocks to the pool, the last one first.
fn drop_blocks<T: Drop, F: Fact<T>>(
    blocks: &mut Vec<Block<T, F>>,
    pool: &mut Vec<Block<T, F>>,
    from: usize,
    to: usize,
) -> usize
    requires in_order { from ≤ to }
    requires within { to ≤ length blocks.old.items }
    requires room { length pool.old.items + length blocks.old.items ≤ vec_capacity pool.old }
    requires small { length (row_items blocks.old.items) < 2 ^ 64 }
    ensures count { result + length (row_items blocks.new.items)
        ≡ length (row_items blocks.old.items) }
    ensures rows { blocks.new.items ≡ take from blocks.old.items ++ drop to blocks.old.items }
    ensures listed { (half e : ℕ)
        → IsListed (record {
          rows = blocks.old.items;
          pool = pool.old.items;
          block_capacity = vec_capacity blocks.old;
          pool_capacity = vec_capacity pool.old;
        }) half e
        → IsListed (record {
          rows = blocks.new.items;
          pool = pool.new.items;
          block_capacity = vec_capacity blocks.new;
          pool_capacity = vec_capacity pool.new;
        }) half e }
{
    let mut end = to;
    let mut removed_count = 0;
    'dropping: while from < end {
        end -= 1;
        let mut block = blocks.remove(end);
        removed_count += block.len();
        block.clear();
        pool.push_reserved(block);
    }
    removed_count
}

impl<T, F: Fact<T>> BlockList<T, F> {
    /// A list with no item, in blocks of at most `2 * half`.
    pub fn new(alloc: Global, half: usize) -> BlockList<T, F>
        requires half_not_zero { 0 < half }
        requires half_at_most_64 { half ≤ 64 }
        ensures { result ≡ record { rows = []; spare = 0 } }
    {
        BlockList {
            alloc,
            blocks: Vec::new(alloc),
            pool: Vec::new(alloc),
            spare: 0,
            len: 0,
            half,
        }
    }

    /// How many items there are.
    pub fn len(&self) -> usize
        ensures { result ≡ length (row_items self.now.rows) }
    {
        self.len
    }

    /// How many blocks there are.
    pub fn blocks(&self) -> usize
        ensures { result ≡ length self.now.rows }
    {
        self.blocks.len()
    }

    /// The items of a block.
    pub fn block(&self, b: usize) -> &[T]
        requires { b < length self.now.rows }
        ensures value { result.now ≡ row self.now.rows b }
        ensures at_most_128 { length result.now ≤ 128 }
    {
        let block = &self.blocks[b];
        block.as_slice()
    }

    /// How many additions take no memory.
    pub fn spare(&self) -> usize
        ensures value { result ≡ self.now.spare }
        ensures none_empty { AreNonEmpty self.now.rows }
    {
        self.spare
    }

    /// What is known of a block.
    pub fn fact(&self, b: usize) -> &F
        requires { b < length self.now.rows }
        ensures { result.now ≡ F.of (row self.now.rows b) }
    {
        let block = &self.blocks[b];
        block.fact()
    }

    /// Makes room for `n` more items. An `Err` leaves the list.
    pub fn reserve(&mut self, n: usize) -> Result<(), OutOfMemory>
        ensures { IsReserved n result self.old self.new }
    {
        if n <= self.spare {
            return Ok(());
        }
        if n > usize::MAX / 4 || usize::MAX - self.len < n {
            return Err(OutOfMemory);
        }
        let block_count = blocks_for(self.blocks.len(), n, self.half);
        fill(&mut self.blocks, &mut self.pool, self.alloc, block_count)?;
        self.spare = n;
        Ok(())
    }

    /// The item at a place.
    pub fn item(&self, place: BlockPlace) -> &T
        requires { IsItemPlace self.now.rows place }
        ensures { IsItemAt self.now.rows place result.now }
    {
        let items = self.block(place.block);
        &items[place.index]
    }

    /// The place behind that of an item.
    pub fn next(&self, place: BlockPlace) -> BlockPlace
        requires { IsItemPlace self.now.rows place }
        ensures { IsPlaceAfter self.now.rows (rank self.now.rows place + 1) result }
    {
        // A block has few items, so the sum fits.
        let _len = len_at(&self.blocks, place.block);
        let behind = BlockPlace {
            block: place.block,
            index: place.index + 1,
        };
        self.at_item(behind)
    }

    /// The same place as that of an item, where it is behind a block's last and not at the end.
    pub fn at_item(&self, place: BlockPlace) -> BlockPlace
        requires { IsInBlock self.now.rows place }
        ensures { IsPlaceAfter self.now.rows (rank self.now.rows place) result }
    {
        // The proof reads off this what always holds of the fields.
        let _len = self.len;
        if place.index < len_at(&self.blocks, place.block) {
            return place;
        }
        BlockPlace {
            block: place.block + 1,
            index: 0,
        }
    }

    /// Changes the item at a place.
    pub fn change<C: Change<T>>(&mut self, place: BlockPlace, change: &C)
        requires { IsItemPlace self.old.rows place }
        ensures items { IsItemSet (C.after change.now) self.old.rows place self.new.rows }
        ensures starts { starts_of self.new.rows ≡ starts_of self.old.rows }
        ensures spare { self.new.spare ≡ self.old.spare }
    {
        // The proof reads off this what always holds of the fields.
        let _len = self.len;
        change_in(&mut self.blocks, place.block, place.index, change);
    }

    /// Takes out the item at a place.
    pub fn remove(&mut self, place: BlockPlace) -> T
        requires { IsItemPlace self.old.rows place }
        ensures value { result ≡ slice_index_or (row self.old.rows place.block) place.index result }
        ensures items { row_items self.new.rows
            ≡ remove (row_items self.old.rows) (start self.old.rows place.block + place.index) }
        // Only the block of the place changes, or goes.
        ensures front { take place.block self.new.rows ≡ take place.block self.old.rows }
        ensures rest { drop
            ((place.block + 1 + length self.new.rows) - length self.old.rows) self.new.rows
            ≡ drop (place.block + 1) self.old.rows }
        ensures one_block_apart { AreOneApart (length self.new.rows) (length self.old.rows) }
        ensures spare { self.new.spare ≡ self.old.spare }
    {
        // The proof reads off this what always holds of the fields.
        let _len = self.len;
        self.len -= 1;
        if len_at(&self.blocks, place.block) > 1 {
            return take_from(&mut self.blocks, place.block, place.index);
        }
        let mut block = self.blocks.remove(place.block);
        let x = block.remove(place.index);
        self.pool.push_reserved(block);
        x
    }
}

impl<T: Drop, F: Fact<T>> BlockList<T, F> {
    /// Puts another item in place of one.
    pub fn set(&mut self, place: BlockPlace, x: T)
        requires { IsItemPlace self.old.rows place }
        ensures items { row_items self.new.rows
            ≡ slice_set (row_items self.old.rows) (rank self.old.rows place) x }
        ensures front { take place.block self.new.rows ≡ take place.block self.old.rows }
        ensures rest { drop (place.block + 1) self.new.rows ≡ drop (place.block + 1) self.old.rows }
        ensures len { length self.new.rows ≡ length self.old.rows }
        ensures spare { self.new.spare ≡ self.old.spare }
    {
        // The proof reads off this what always holds of the fields.
        let _len = self.len;
        set_in(&mut self.blocks, place.block, place.index, x);
    }

    /// Takes out a stretch of a block, of which some item stays.
    pub fn cut(&mut self, b: usize, from: usize, to: usize)
        requires block { b < length self.old.rows }
        requires in_order { from ≤ to }
        requires within { to ≤ length (row self.old.rows b) }
        requires some { to < from + length (row self.old.rows b) }
        ensures rows { self.new.rows
            ≡ slice_set self.old.rows b
            (take from (row self.old.rows b) ++ drop to (row self.old.rows b)) }
        ensures spare { self.new.spare ≡ self.old.spare }
    {
        // The proof reads off this what always holds of the fields.
        let _len = self.len;
        self.len -= to - from;
        cut_in(&mut self.blocks, b, from, to);
    }

    /// Takes out whole blocks.
    pub fn remove_blocks(&mut self, from: usize, to: usize)
        requires in_order { from ≤ to }
        requires within { to ≤ length self.old.rows }
        ensures rows { self.new.rows ≡ take from self.old.rows ++ drop to self.old.rows }
        ensures spare { self.new.spare ≡ self.old.spare }
    {
        // The proof reads off this what always holds of the fields.
        let _len = self.len;
        let removed_count = drop_blocks(&mut self.blocks, &mut self.pool, from, to);
        self.len -= removed_count;
    }

    /// Takes out what stands behind a place in its block; the number of blocks up to there.
    fn cut_tail(&mut self, place: BlockPlace) -> usize
        requires { IsItemPlace self.old.rows place }
        ensures from_block { place.block ≤ result }
        ensures to_next { result ≤ place.block + 1 }
        ensures front { row_items (take result self.new.rows)
            ≡ row_items (take place.block self.old.rows)
            ++ take place.index (row self.old.rows place.block) }
        ensures before { take place.block self.new.rows ≡ take place.block self.old.rows }
        ensures rest { drop (place.block + 1) self.new.rows ≡ drop (place.block + 1) self.old.rows }
        ensures len { length self.new.rows ≡ length self.old.rows }
        ensures spare { self.new.spare ≡ self.old.spare }
    {
        if place.index > 0 {
            let len = len_at(&self.blocks, place.block);
            self.cut(place.block, place.index, len);
            return place.block + 1;
        }
        place.block
    }

    /// Takes out what stands before a place in its block; the number of blocks before the rest.
    fn cut_head(&mut self, place: BlockPlace) -> usize
        requires block { place.block < length self.old.rows }
        requires some { 0 < place.index }
        requires index { place.index ≤ length (row self.old.rows place.block) }
        ensures from_block { place.block ≤ result }
        ensures within { result ≤ length self.new.rows }
        ensures front { take place.block self.new.rows ≡ take place.block self.old.rows }
        ensures rest { row_items (drop result self.new.rows)
            ≡ drop place.index (row self.old.rows place.block)
            ++ row_items (drop (place.block + 1) self.old.rows) }
        ensures behind { drop (place.block + 1) self.new.rows
            ≡ drop (place.block + 1) self.old.rows }
        ensures to_next { result ≤ place.block + 1 }
        ensures len { length self.new.rows ≡ length self.old.rows }
        ensures spare { self.new.spare ≡ self.old.spare }
    {
        let len = len_at(&self.blocks, place.block);
        if place.index < len {
            self.cut(place.block, 0, place.index);
            return place.block;
        }
        place.block + 1
    }

    /// Takes out a stretch of a block, or the block.
    fn cut_out(&mut self, b: usize, from: usize, to: usize)
        requires block { b < length self.old.rows }
        requires in_order { from ≤ to }
        requires within { to ≤ length (row self.old.rows b) }
        ensures items { row_items self.new.rows
            ≡ (row_items (take b self.old.rows) ++ take from (row self.old.rows b))
            ++ (drop to (row self.old.rows b) ++ row_items (drop (b + 1) self.old.rows)) }
        ensures front { take b self.new.rows ≡ take b self.old.rows }
        ensures rest { drop ((b + 1 + length self.new.rows) - length self.old.rows) self.new.rows
            ≡ drop (b + 1) self.old.rows }
        ensures no_more_blocks { length self.new.rows ≤ length self.old.rows }
        ensures at_most_one_fewer { length self.old.rows ≤ length self.new.rows + 1 }
        ensures spare { self.new.spare ≡ self.old.spare }
    {
        let len = len_at(&self.blocks, b);
        if to - from < len {
            self.cut(b, from, to);
            return;
        }
        self.remove_blocks(b, b + 1);
    }

    /// Takes out the items from a place up to before another.
    pub fn remove_range(&mut self, from: BlockPlace, to: BlockPlace)
        requires { AreBounds self.old.rows from to }
        ensures items { row_items self.new.rows ≡ items_outside self.old.rows from to }
        // Only the blocks from one place to the other change, or go.
        ensures front { take from.block self.new.rows ≡ take from.block self.old.rows }
        ensures rest { drop
            ((to.block + 1 + length self.new.rows) - length self.old.rows) self.new.rows
            ≡ drop (to.block + 1) self.old.rows }
        ensures no_more_blocks { length self.new.rows ≤ length self.old.rows }
        ensures at_most_touched_gone { from.block + length self.old.rows
            ≤ to.block + 1 + length self.new.rows }
        ensures spare { self.new.spare ≡ self.old.spare }
    {
        if from.block == to.block {
            self.cut_out(from.block, from.index, to.index);
            return;
        }
        let last = self.cut_head(to);
        let first = self.cut_tail(from);
        self.remove_blocks(first, last);
    }

    /// Appends an item.
    pub fn push(&mut self, x: T)
        requires { 1 ≤ self.old.spare }
        ensures items { row_items self.new.rows ≡ row_items self.old.rows ++ x ∷ [] }
        // Only the last block changes, or comes.
        ensures front { take (length self.new.rows - 1) self.new.rows
            ≡ take (length self.new.rows - 1) self.old.rows }
        ensures one_block_apart { AreOneApart (length self.old.rows) (length self.new.rows) }
        ensures spare { self.new.spare + 1 ≡ self.old.spare }
    {
        self.spare -= 1;
        self.len += 1;
        match open_end(&self.blocks, 2 * self.half) {
            Some(place) => {
                put_in(&mut self.blocks, place.block, place.index, x);
                return;
            }
            None => {
                let mut block = self.pool.take_last();
                block.push(x);
                self.blocks.push_reserved(block);
                return;
            }
        }
    }
}

impl<T: Copy + Drop, F: Fact<T>> BlockList<T, F> {
    /// Puts an item before that at a place, or behind a block's last.
    pub fn insert(&mut self, place: BlockPlace, x: T)
        requires place { IsInBlock self.old.rows place }
        requires room { 1 ≤ self.old.spare }
        ensures items { row_items self.new.rows
            ≡ insert (row_items self.old.rows) (start self.old.rows place.block + place.index) x }
        // Only the block of the place changes, or two stand for it.
        ensures front { take place.block self.new.rows ≡ take place.block self.old.rows }
        ensures rest { drop
            ((place.block + 1 + length self.new.rows) - length self.old.rows) self.new.rows
            ≡ drop (place.block + 1) self.old.rows }
        ensures one_block_apart { AreOneApart (length self.old.rows) (length self.new.rows) }
        ensures spare { self.new.spare + 1 ≡ self.old.spare }
    {
        let len = len_at(&self.blocks, place.block);
        self.spare -= 1;
        self.len += 1;
        if len < 2 * self.half {
            put_in(&mut self.blocks, place.block, place.index, x);
            return;
        }
        let right = self.pool.take_last();
        put_apart(
            &mut self.blocks,
            place.block,
            place.index,
            x,
            right,
            self.half,
        );
    }
}
