//! Blocks side by side, and changes of one or two of them.

ghost use Rattle.std.specs.Prelude.{◌≡◌, ℕ, ◌+◌, ◌^◌, ◌<◌, ◌≤◌, [], length, true, false, OnOk, IfSome, IfNone, slice_index_or, slice_set, vec_capacity};
ghost use Rattle.std.specs.List.{insert, remove};
ghost use Rattle.mse_base.specs.Rows.{row_items, start, row, split_row, merge_rows, AreFilled, AreEmpty, AreDense, AreStarts};

use crate::block_starts::{BlockPlace, len_at, place_to_put, raise, restart};
use crate::span_block::{Block, LONG};
use crate::{OutOfMemory, Span};
use std::alloc::Global;

/// The span at a place.
pub(crate) fn span_at(blocks: &Vec<Block>, place: BlockPlace) -> Span
    requires block { place.block < length blocks.now.items }
    requires index { place.index < length (row blocks.now.items place.block) }
    ensures { result
        ≡ slice_index_or (row_items blocks.now.items)
        (start blocks.now.items place.block + place.index) result }
{
    let block = &blocks[place.block];
    block.get(place.index)
}

/// Puts a span into a block that has room.
fn put_in(blocks: &mut Vec<Block>, b: usize, i: usize, x: Span)
    requires block { b < length blocks.old.items }
    requires within { i ≤ length (row blocks.old.items b) }
    requires room { length (row blocks.old.items b) < 512 }
    ensures rows { blocks.new.items
        ≡ slice_set blocks.old.items b (insert (row blocks.old.items b) i x) }
    ensures capacity { vec_capacity blocks.new ≡ vec_capacity blocks.old }
{
    blocks[b].insert(i, x);
}

/// Puts another span in place of one.
pub(crate) fn set_in(blocks: &mut Vec<Block>, b: usize, i: usize, x: Span)
    requires block { b < length blocks.old.items }
    requires within { i < length (row blocks.old.items b) }
    ensures rows { blocks.new.items
        ≡ slice_set blocks.old.items b (slice_set (row blocks.old.items b) i x) }
    ensures capacity { vec_capacity blocks.new ≡ vec_capacity blocks.old }
{
    blocks[b].set(i, x);
}

/// Takes a span out of a block.
pub(crate) fn take_from(blocks: &mut Vec<Block>, b: usize, i: usize)
    requires block { b < length blocks.old.items }
    requires within { i < length (row blocks.old.items b) }
    ensures rows { blocks.new.items
        ≡ slice_set blocks.old.items b (remove (row blocks.old.items b) i) }
    ensures capacity { vec_capacity blocks.new ≡ vec_capacity blocks.old }
{
    blocks[b].remove(i);
}

/// Cuts block `b` in two at `s`, by an empty block.
fn split_at(blocks: &mut Vec<Block>, b: usize, s: usize, right: Block)
    requires block { b < length blocks.old.items }
    requires within { s ≤ length (row blocks.old.items b) }
    requires empty { right ≡ [] }
    requires room { length blocks.old.items < vec_capacity blocks.old }
    ensures rows { blocks.new.items ≡ split_row blocks.old.items b s }
    ensures capacity { vec_capacity blocks.new ≡ vec_capacity blocks.old }
{
    let mut right = right;
    blocks[b].split_into(s, &mut right);
    match blocks.insert(b + 1, right) {
        Ok(()) => {}
        Err(_) => unreachable!(),
    }
}

/// Where a full block is cut: the last one behind what stands before the place, so that spans
/// which come in order leave full blocks behind.
fn cut_place(last: bool, i: usize) -> usize
    requires { i ≤ 512 }
    ensures at_least_half { 256 ≤ result }
    ensures at_most_full { result ≤ 512 }
    ensures left { i < result → result ≡ 256 }
{
    if last && i > LONG / 2 { i } else { LONG / 2 }
}

/// Puts a span into a full block, which is cut in two.
fn put_apart(blocks: &mut Vec<Block>, b: usize, i: usize, x: Span, right: Block)
    requires block { b < length blocks.old.items }
    requires within { i ≤ length (row blocks.old.items b) }
    requires full { length (row blocks.old.items b) ≡ 512 }
    requires empty { right ≡ [] }
    requires room { length blocks.old.items < vec_capacity blocks.old }
    requires filled { AreFilled blocks.old.items }
    ensures spans { row_items blocks.new.items
        ≡ insert (row_items blocks.old.items) (start blocks.old.items b + i) x }
    ensures filled { AreFilled blocks.new.items }
    ensures front { (k : ℕ) → k ≤ b
        → start blocks.new.items k ≡ start blocks.old.items k }
    ensures len { length blocks.new.items ≡ length blocks.old.items + 1 }
    ensures capacity { vec_capacity blocks.new ≡ vec_capacity blocks.old }
{
    let s = cut_place(b + 1 == blocks.len(), i);
    split_at(blocks, b, s, right);
    if i < s {
        put_in(blocks, b, i, x);
    } else {
        put_in(blocks, b + 1, i - s, x);
    }
}

/// Puts a span at a place, where its block has room; whether it has.
pub(crate) fn put_if_room(
    blocks: &mut Vec<Block>,
    starts: &mut Vec<usize>,
    len: usize,
    i: usize,
    x: &Span,
) -> bool
    requires len { len ≡ length (row_items blocks.old.items) }
    requires within { i ≤ len }
    requires small { length (row_items blocks.old.items) + 1 < 2 ^ 64 }
    requires starts { AreStarts starts.old.items blocks.old.items }
    requires filled { AreFilled blocks.old.items }
    ensures spans { result ≡ true
        → row_items blocks.new.items ≡ insert (row_items blocks.old.items) i x.now }
    ensures unchanged { result ≡ false → blocks.new.items ≡ blocks.old.items }
    ensures starts { AreStarts starts.new.items blocks.new.items }
    ensures filled { AreFilled blocks.new.items }
    ensures len { length blocks.new.items ≡ length blocks.old.items }
    ensures capacity { vec_capacity blocks.new ≡ vec_capacity blocks.old }
{
    if blocks.is_empty() {
        return false;
    }
    let place = place_to_put(blocks, starts, len, i);
    if len_at(blocks, place.block) < LONG {
        put_in(blocks, place.block, place.index, *x);
        raise(starts, place.block);
        return true;
    }
    false
}

/// Puts a span at a place, by an empty block; that block, where it was not needed.
pub(crate) fn put(
    blocks: &mut Vec<Block>,
    starts: &mut Vec<usize>,
    len: usize,
    i: usize,
    x: Span,
    fresh: Block,
) -> Option<Block>
    requires len { len ≡ length (row_items blocks.old.items) }
    requires within { i ≤ len }
    requires small { length (row_items blocks.old.items) + 1 < 2 ^ 64 }
    requires starts { AreStarts starts.old.items blocks.old.items }
    requires empty { fresh ≡ [] }
    requires room { length blocks.old.items < vec_capacity blocks.old }
    requires filled { AreFilled blocks.old.items }
    ensures spans { row_items blocks.new.items ≡ insert (row_items blocks.old.items) i x }
    ensures starts { AreStarts starts.new.items blocks.new.items }
    ensures filled { AreFilled blocks.new.items }
    ensures one { IfSome result
        (λ q. (q ≡ []) × (length blocks.new.items ≡ length blocks.old.items)) }
    ensures two { IfNone result (length blocks.new.items ≡ length blocks.old.items + 1) }
    ensures capacity { vec_capacity blocks.new ≡ vec_capacity blocks.old }
{
    if blocks.is_empty() {
        let mut block = fresh;
        block.push(x);
        blocks.push_reserved(block);
        return None;
    }
    let place = place_to_put(blocks, starts, len, i);
    if len_at(blocks, place.block) < LONG {
        put_in(blocks, place.block, place.index, x);
        raise(starts, place.block);
        return Some(fresh);
    }
    put_apart(blocks, place.block, place.index, x, fresh);
    restart(blocks, starts, place.block);
    None
}

/// Makes one of block `b` and the one behind it; an empty block.
fn join_at(blocks: &mut Vec<Block>, b: usize) -> Block
    requires within { b + 1 < length blocks.old.items }
    requires few { length (row blocks.old.items b) + length (row blocks.old.items (b + 1)) ≤ 512 }
    ensures rows { blocks.new.items ≡ merge_rows blocks.old.items b }
    ensures empty { result ≡ [] }
    ensures capacity { vec_capacity blocks.new ≡ vec_capacity blocks.old }
{
    let mut right = blocks.remove(b + 1);
    blocks[b].append(&mut right);
    right
}

/// Makes one of neighbours that are few enough, until none are.
pub(crate) fn gather(blocks: &mut Vec<Block>, pool: &mut Vec<Block>)
    requires room { length pool.old.items + length blocks.old.items ≤ vec_capacity pool.old }
    requires filled { AreFilled blocks.old.items }
    requires empty { AreEmpty pool.old.items }
    ensures spans { row_items blocks.new.items ≡ row_items blocks.old.items }
    ensures filled { AreFilled blocks.new.items }
    ensures empty { AreEmpty pool.new.items }
    ensures dense { AreDense blocks.new.items }
    ensures len { length pool.new.items + length blocks.new.items
        ≡ length pool.old.items + length blocks.old.items }
    ensures capacity { vec_capacity blocks.new ≡ vec_capacity blocks.old }
    ensures pool_capacity { vec_capacity pool.new ≡ vec_capacity pool.old }
{
    let mut b = blocks.len();
    'gathering: while b > 1 {
        b -= 1;
        let front = b - 1;
        if len_at(blocks, front) + len_at(blocks, front + 1) <= LONG {
            let block = join_at(blocks, front);
            pool.push_reserved(block);
        }
    }
}

/// Moves all blocks to the pool.
pub(crate) fn drop_all(blocks: &mut Vec<Block>, pool: &mut Vec<Block>)
    requires room { length pool.old.items + length blocks.old.items ≤ vec_capacity pool.old }
    requires empty { AreEmpty pool.old.items }
    ensures rows { blocks.new.items ≡ [] }
    ensures empty { AreEmpty pool.new.items }
    ensures len { length pool.new.items ≡ length pool.old.items + length blocks.old.items }
    ensures capacity { vec_capacity blocks.new ≡ vec_capacity blocks.old }
    ensures pool_capacity { vec_capacity pool.new ≡ vec_capacity pool.old }
{
    'dropping: while !blocks.is_empty() {
        let mut block = blocks.take_last();
        block.clear();
        pool.push_reserved(block);
    }
}

/// Adds an empty block to the pool.
fn add_empty(
    blocks: &mut Vec<Block>,
    pool: &mut Vec<Block>,
    alloc: Global,
) -> Result<(), OutOfMemory>
    ensures rows { blocks.new.items ≡ blocks.old.items }
    ensures empty { AreEmpty pool.old.items → AreEmpty pool.new.items }
    ensures ok { OnOk result (length pool.new.items ≡ length pool.old.items + 1) }
    ensures no_fewer_blocks { length pool.old.items ≤ length pool.new.items }
    ensures block_room { length pool.old.items + length blocks.old.items ≤ vec_capacity blocks.old
        → length pool.new.items + length blocks.new.items ≤ vec_capacity blocks.new }
    ensures pool_room { length pool.old.items + length blocks.old.items ≤ vec_capacity pool.old
        → length pool.new.items + length blocks.new.items ≤ vec_capacity pool.new }
{
    blocks.reserve(pool.len() + 1)?;
    pool.reserve(blocks.len() + 1)?;
    let block = Block::new(alloc)?;
    pool.push_reserved(block);
    Ok(())
}

/// Fills the pool, until there are so many blocks with those in use.
pub(crate) fn fill(
    blocks: &mut Vec<Block>,
    pool: &mut Vec<Block>,
    alloc: Global,
    block_count: usize,
) -> Result<(), OutOfMemory>
    requires empty { AreEmpty pool.old.items }
    requires block_room { length pool.old.items + length blocks.old.items
        ≤ vec_capacity blocks.old }
    requires pool_room { length pool.old.items + length blocks.old.items ≤ vec_capacity pool.old }
    ensures rows { blocks.new.items ≡ blocks.old.items }
    ensures empty { AreEmpty pool.new.items }
    ensures ok { OnOk result (block_count ≤ length pool.new.items + length blocks.new.items) }
    ensures no_fewer_blocks { length pool.old.items ≤ length pool.new.items }
    ensures block_room { length pool.new.items + length blocks.new.items ≤ vec_capacity blocks.new }
    ensures pool_room { length pool.new.items + length blocks.new.items ≤ vec_capacity pool.new }
{
    let used_count = blocks.len();
    'fill: while used_count < block_count && pool.len() < block_count - used_count {
        add_empty(blocks, pool, alloc)?;
    }
    Ok(())
}
