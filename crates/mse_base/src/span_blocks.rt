//! Many spans: a list in blocks.

ghost use Rattle.std.specs.Prelude.{◌≡◌, ◌+◌, ◌-◌, ◌*◌, ◌^◌, ◌<◌, ◌≤◌, ◌<ℤ◌, ◌≤ℤ◌, ◌-ℤ◌, [], length, take, drop, IfOk, OnOk, OnErr, slice_index_or, slice_set, vec_capacity};
ghost use Rattle.std.specs.List.{AllByRecursion, insert, remove};
ghost use Rattle.mse_base.specs.Spans.{IsNormalized};
ghost use Rattle.mse_base.specs.Rows.{row_items, start, row, AreFilled, AreEmpty, AreStarts};

use crate::block_row::{drop_all, fill, gather, put, put_if_room, set_in, span_at, take_from};
use crate::block_starts::{BlockPlace, GROUP, len_at, lower, place_of, restart, start_of};
use crate::lookup::is_far_before_time;
use crate::span_block::Block;
use crate::{OutOfMemory, Span, Ticks};
use std::alloc::Global;
use std::marker::Model;

/// Half as many spans as a block has room for.
const HALF: usize = 256;

/// Spans in blocks of at most 512, none of which is empty, with a pool of empty blocks. A span that
/// is put in or taken out moves those of its block alone. The span of a number is found by how many
/// come before each group of blocks.
#[derive(Debug, Drop)]
pub(crate) struct SpanBlocks {
    alloc: Global,
    blocks: Vec<Block>,
    pool: Vec<Block>,
    starts: Vec<usize>,
    len: usize,
    spare: usize,
}

impl Model for SpanBlocks {
    ghost use Rattle.std.specs.Prelude.{vec_capacity};
    ghost use Rattle.mse_base.specs.Spans.{RangesView};
    ghost use Rattle.mse_base.specs.Rows.{row_items, IsRanked};

    ghost Value = { RangesView };

    ghost view = { λ s. record { spans = row_items s.blocks.items; spare = s.spare } };

    ghost invariant = { λ s. IsRanked (record {
      rows = s.blocks.items;
      pool = s.pool.items;
      block_capacity = vec_capacity s.blocks;
      pool_capacity = vec_capacity s.pool;
    }) s.starts.items s.len s.spare };
}

/// Sees to it that the pool has a block: where it has none, neighbours are joined.
fn refill(blocks: &mut Vec<Block>, pool: &mut Vec<Block>, starts: &mut Vec<usize>)
    requires room { length pool.old.items + length blocks.old.items ≤ vec_capacity pool.old }
    requires filled { AreFilled blocks.old.items }
    requires empty { AreEmpty pool.old.items }
    requires enough { 2 * length (row_items blocks.old.items) + 514
        ≤ 513 * (length blocks.old.items + length pool.old.items) }
    requires small { length (row_items blocks.old.items) + 1 < 2 ^ 64 }
    requires starts { AreStarts starts.old.items blocks.old.items }
    ensures some { 0 < length pool.new.items }
    ensures starts { AreStarts starts.new.items blocks.new.items }
    ensures spans { row_items blocks.new.items ≡ row_items blocks.old.items }
    ensures filled { AreFilled blocks.new.items }
    ensures empty { AreEmpty pool.new.items }
    ensures len { length pool.new.items + length blocks.new.items
        ≡ length pool.old.items + length blocks.old.items }
    ensures capacity { vec_capacity blocks.new ≡ vec_capacity blocks.old }
    ensures pool_capacity { vec_capacity pool.new ≡ vec_capacity pool.old }
{
    if pool.is_empty() {
        gather(blocks, pool);
        restart(blocks, starts, 0);
    }
}

/// Takes an empty block from the pool.
fn take_fresh(blocks: &mut Vec<Block>, pool: &mut Vec<Block>, starts: &mut Vec<usize>) -> Block
    requires room { length pool.old.items + length blocks.old.items ≤ vec_capacity pool.old }
    requires filled { AreFilled blocks.old.items }
    requires empty { AreEmpty pool.old.items }
    requires enough { 2 * length (row_items blocks.old.items) + 514
        ≤ 513 * (length blocks.old.items + length pool.old.items) }
    requires small { length (row_items blocks.old.items) + 1 < 2 ^ 64 }
    requires starts { AreStarts starts.old.items blocks.old.items }
    ensures fresh { result ≡ [] }
    ensures starts { AreStarts starts.new.items blocks.new.items }
    ensures spans { row_items blocks.new.items ≡ row_items blocks.old.items }
    ensures filled { AreFilled blocks.new.items }
    ensures empty { AreEmpty pool.new.items }
    ensures len { length pool.new.items + length blocks.new.items + 1
        ≡ length pool.old.items + length blocks.old.items }
    ensures capacity { vec_capacity blocks.new ≡ vec_capacity blocks.old }
    ensures pool_capacity { vec_capacity pool.new ≡ vec_capacity pool.old }
{
    refill(blocks, pool, starts);
    pool.take_last()
}

/// Puts in a span, by a block of the pool where none has room.
fn put_in_place(
    blocks: &mut Vec<Block>,
    pool: &mut Vec<Block>,
    starts: &mut Vec<usize>,
    len: usize,
    i: usize,
    x: Span,
)
    requires len { len ≡ length (row_items blocks.old.items) }
    requires within { i ≤ len }
    requires room { length pool.old.items + length blocks.old.items ≤ vec_capacity pool.old }
    requires block_room { length pool.old.items + length blocks.old.items
        ≤ vec_capacity blocks.old }
    requires filled { AreFilled blocks.old.items }
    requires empty { AreEmpty pool.old.items }
    requires enough { 2 * length (row_items blocks.old.items) + 514
        ≤ 513 * (length blocks.old.items + length pool.old.items) }
    requires small { length (row_items blocks.old.items) + 1 < 2 ^ 64 }
    requires starts { AreStarts starts.old.items blocks.old.items }
    ensures spans { row_items blocks.new.items ≡ insert (row_items blocks.old.items) i x }
    ensures starts { AreStarts starts.new.items blocks.new.items }
    ensures filled { AreFilled blocks.new.items }
    ensures empty { AreEmpty pool.new.items }
    ensures len { length pool.new.items + length blocks.new.items
        ≡ length pool.old.items + length blocks.old.items }
    ensures capacity { vec_capacity blocks.new ≡ vec_capacity blocks.old }
    ensures pool_capacity { vec_capacity pool.new ≡ vec_capacity pool.old }
{
    let fresh = take_fresh(blocks, pool, starts);
    match put(blocks, starts, len, i, x, fresh) {
        Some(block) => pool.push_reserved(block),
        None => {}
    }
}

/// The first span of a block.
fn first_of(blocks: &Vec<Block>, b: usize) -> Span
    requires block { b < length blocks.now.items }
    requires filled { AreFilled blocks.now.items }
    ensures value { result
        ≡ slice_index_or (row_items blocks.now.items) (start blocks.now.items b) result }
    ensures within { start blocks.now.items b < length (row_items blocks.now.items) }
{
    span_at(blocks, BlockPlace { block: b, index: 0 })
}

/// Up to which block the first spans end more than the gap before a time.
fn blocks_ending(blocks: &Vec<Block>, t: Ticks, gap: Ticks) -> usize
    requires filled { AreFilled blocks.now.items }
    requires normalized { IsNormalized (row_items blocks.now.items) }
    ensures within { result ≤ length blocks.now.items }
    ensures before { 0 < result → AllByRecursion (λ r. r.end <ℤ (t -ℤ gap))
        (take (start blocks.now.items (result - 1) + 1) (row_items blocks.now.items)) }
    ensures after { AllByRecursion (λ r. (t -ℤ gap) ≤ℤ r.end)
        (drop (start blocks.now.items result) (row_items blocks.now.items)) }
{
    let mut low = 0;
    let mut high = blocks.len();
    while low < high {
        let middle = low + (high - low) / 2;
        if is_far_before_time(&first_of(blocks, middle), t, gap) {
            low = middle + 1;
        } else {
            high = middle;
        }
    }
    low
}

/// How many spans of a block end more than the gap before a time, where the first does.
fn spans_ending(blocks: &Vec<Block>, b: usize, t: Ticks, gap: Ticks) -> usize
    requires block { b < length blocks.now.items }
    requires filled { AreFilled blocks.now.items }
    requires normalized { IsNormalized (row_items blocks.now.items) }
    requires before { AllByRecursion (λ r. r.end <ℤ (t -ℤ gap))
        (take (start blocks.now.items b + 1) (row_items blocks.now.items)) }
    requires after { AllByRecursion (λ r. (t -ℤ gap) ≤ℤ r.end)
        (drop (start blocks.now.items (b + 1)) (row_items blocks.now.items)) }
    ensures within { result ≤ length (row blocks.now.items b) }
    ensures before { AllByRecursion (λ r. r.end <ℤ (t -ℤ gap))
        (take (start blocks.now.items b + result) (row_items blocks.now.items)) }
    ensures after { AllByRecursion (λ r. (t -ℤ gap) ≤ℤ r.end)
        (drop (start blocks.now.items b + result) (row_items blocks.now.items)) }
{
    let mut low = 1;
    let mut high = len_at(blocks, b);
    while low < high {
        let middle = low + (high - low) / 2;
        let place = BlockPlace {
            block: b,
            index: middle,
        };
        if is_far_before_time(&span_at(blocks, place), t, gap) {
            low = middle + 1;
        } else {
            high = middle;
        }
    }
    low
}

impl SpanBlocks {
    /// No spans, and no room.
    pub fn new(alloc: Global) -> SpanBlocks
        ensures spans { result.spans ≡ [] }
        ensures spare { result.spare ≡ 0 }
    {
        SpanBlocks {
            alloc,
            blocks: Vec::new(alloc),
            pool: Vec::new(alloc),
            starts: Vec::new(alloc),
            len: 0,
            spare: 0,
        }
    }

    /// How many spans there are.
    pub fn len(&self) -> usize
        ensures { result ≡ length self.now.spans }
    {
        self.len
    }

    /// For how many more spans there is room.
    pub fn spare(&self) -> usize
        ensures { result ≡ self.now.spare }
    {
        self.spare
    }

    /// Makes room for at least `n` more spans.
    pub fn reserve(&mut self, n: usize) -> Result<(), OutOfMemory>
        ensures spans { self.new.spans ≡ self.old.spans }
        ensures spare { OnOk result (n ≤ self.new.spare) }
        ensures no_room_lost { self.old.spare ≤ self.new.spare }
        ensures same_room { OnErr result (self.new.spare ≡ self.old.spare) }
    {
        if n <= self.spare {
            return Ok(());
        }
        if n > usize::MAX / 8 || self.len > usize::MAX / 8 {
            return Err(OutOfMemory);
        }
        let block_count = (self.len + n) / HALF + 2;
        self.starts.reserve(block_count / GROUP)?;
        fill(&mut self.blocks, &mut self.pool, self.alloc, block_count)?;
        self.spare = n;
        Ok(())
    }

    /// Removes all spans, and keeps their room.
    pub fn clear(&mut self)
        ensures spans { self.new.spans ≡ [] }
        ensures room { self.new.spare ≡ self.old.spare + length self.old.spans }
    {
        drop_all(&mut self.blocks, &mut self.pool);
        self.starts.clear();
        self.spare += self.len;
        self.len = 0;
    }

    /// The span at a place.
    pub fn get(&self, i: usize) -> Span
        requires { i < length self.now.spans }
        ensures { result ≡ slice_index_or self.now.spans i result }
    {
        let place = place_of(&self.blocks, &self.starts, self.len, i);
        span_at(&self.blocks, place)
    }

    /// Puts another span in place of one.
    pub fn set(&mut self, i: usize, x: Span)
        requires { i < length self.old.spans }
        ensures spans { self.new.spans ≡ slice_set self.old.spans i x }
        ensures spare { self.new.spare ≡ self.old.spare }
    {
        let place = place_of(&self.blocks, &self.starts, self.len, i);
        set_in(&mut self.blocks, place.block, place.index, x);
    }

    /// Puts in a span.
    pub fn insert(&mut self, i: usize, x: Span)
        requires within { i ≤ length self.old.spans }
        requires room { 1 ≤ self.old.spare }
        ensures spans { self.new.spans ≡ insert self.old.spans i x }
        ensures spare { self.new.spare + 1 ≡ self.old.spare }
    {
        let len = self.len;
        self.len += 1;
        self.spare -= 1;
        if put_if_room(&mut self.blocks, &mut self.starts, len, i, &x) {
            return;
        }
        put_in_place(
            &mut self.blocks,
            &mut self.pool,
            &mut self.starts,
            len,
            i,
            x,
        );
    }

    /// Takes out a span.
    pub fn remove(&mut self, i: usize)
        requires { i < length self.old.spans }
        ensures spans { self.new.spans ≡ remove self.old.spans i }
        ensures spare { self.new.spare ≡ self.old.spare + 1 }
    {
        let place = place_of(&self.blocks, &self.starts, self.len, i);
        self.len -= 1;
        self.spare += 1;
        if len_at(&self.blocks, place.block) > 1 {
            take_from(&mut self.blocks, place.block, place.index);
            lower(&mut self.starts, place.block);
            return;
        }
        let mut block = self.blocks.remove(place.block);
        block.clear();
        self.pool.push_reserved(block);
        restart(&self.blocks, &mut self.starts, place.block);
    }

    /// How many spans end more than the gap before a time.
    pub fn count_ending(&self, t: Ticks, gap: Ticks) -> usize
        requires { IsNormalized self.now.spans }
        ensures within { result ≤ length self.now.spans }
        ensures before { AllByRecursion (λ r. r.end <ℤ (t -ℤ gap)) (take result self.now.spans) }
        ensures after { AllByRecursion (λ r. (t -ℤ gap) ≤ℤ r.end) (drop result self.now.spans) }
    {
        let b = blocks_ending(&self.blocks, t, gap);
        if b == 0 {
            return 0;
        }
        start_of(&self.blocks, &self.starts, b - 1) + spans_ending(&self.blocks, b - 1, t, gap)
    }

    /// The spans in one vector.
    pub fn to_vec(&self) -> Result<Vec<Span>, OutOfMemory>
        ensures { IfOk result (λ v. v.items ≡ self.now.spans) }
    {
        let mut all = Vec::with_capacity(self.alloc, self.len)?;
        let mut b = 0;
        while b < self.blocks.len() {
            let block = &self.blocks[b];
            all.extend_from_slice(block.as_slice())?;
            b += 1;
        }
        Ok(all)
    }
}
