//! Places in blocks, and how many spans come before some of the blocks: so few blocks are passed on
//! the way to a place.

ghost use Rattle.std.specs.Prelude.{◌≡◌, ℕ, ◌+◌, ◌*◌, ◌/◌, ◌^◌, ◌<◌, ◌≤◌, length, slice_index, vec_capacity};
ghost use Rattle.mse_base.specs.Rows.{row_items, start, row, AreFilled, AreStarts};

use crate::span_block::Block;

/// How many blocks a group has. The spans before each group but the first are counted.
pub(crate) const GROUP: usize = 32;

/// A place: a block, and how many of its spans come before.
#[derive(Clone, Copy)]
pub(crate) struct BlockPlace {
    pub block: usize,
    pub index: usize,
}

/// How many spans the block at a place holds.
pub(crate) fn len_at(blocks: &Vec<Block>, b: usize) -> usize
    requires { b < length blocks.now.items }
    ensures value { result ≡ length (row blocks.now.items b) }
    ensures bound { result ≤ 512 }
{
    let block = &blocks[b];
    block.len()
}

/// How many spans come before a group of blocks.
fn group_start(blocks: &Vec<Block>, starts: &Vec<usize>, group: usize) -> usize
    requires within { group ≤ length starts.now.items }
    requires starts { AreStarts starts.now.items blocks.now.items }
    ensures { result ≡ start blocks.now.items (32 * group) }
{
    if group == 0 {
        return 0;
    }
    starts[group - 1]
}

/// How many spans come before a block.
pub(crate) fn start_of(blocks: &Vec<Block>, starts: &Vec<usize>, b: usize) -> usize
    requires within { b ≤ length blocks.now.items }
    requires small { length (row_items blocks.now.items) < 2 ^ 64 }
    requires starts { AreStarts starts.now.items blocks.now.items }
    ensures { result ≡ start blocks.now.items b }
{
    let group = (b / GROUP).min(starts.len());
    let mut count = group_start(blocks, starts, group);
    let mut i = group * GROUP;
    while i < b {
        count += len_at(blocks, i);
        i += 1;
    }
    count
}

/// A group that at most `i` spans come before. It is the last such one, which no clause says: any other
/// makes the way to the block longer.
fn group_of(blocks: &Vec<Block>, starts: &Vec<usize>, i: usize) -> usize
    requires { AreStarts starts.now.items blocks.now.items }
    ensures within { result ≤ length starts.now.items }
    ensures before { start blocks.now.items (32 * result) ≤ i }
{
    let mut low = 0;
    let mut high = starts.len();
    while low < high {
        let middle = high - (high - low) / 2;
        if group_start(blocks, starts, middle) <= i {
            low = middle;
        } else {
            high = middle - 1;
        }
    }
    low
}

/// The place of a span, by a walk from the start of its group.
fn place_in_group(blocks: &Vec<Block>, starts: &Vec<usize>, i: usize) -> BlockPlace
    requires within { i < length (row_items blocks.now.items) }
    requires starts { AreStarts starts.now.items blocks.now.items }
    ensures block { result.block < length blocks.now.items }
    ensures index { result.index < length (row blocks.now.items result.block) }
    ensures rank { start blocks.now.items result.block + result.index ≡ i }
{
    let group = group_of(blocks, starts, i);
    let mut index = i - group_start(blocks, starts, group);
    let mut block = group * GROUP;
    'walk: loop {
        let len = len_at(blocks, block);
        if index < len {
            return BlockPlace { block, index };
        }
        index -= len;
        block += 1;
    }
}

/// The place of one of `len` spans. The first, and those of the last block, take no walk.
pub(crate) fn place_of(blocks: &Vec<Block>, starts: &Vec<usize>, len: usize, i: usize) -> BlockPlace
    requires len { len ≡ length (row_items blocks.now.items) }
    requires within { i < len }
    requires filled { AreFilled blocks.now.items }
    requires starts { AreStarts starts.now.items blocks.now.items }
    ensures block { result.block < length blocks.now.items }
    ensures index { result.index < length (row blocks.now.items result.block) }
    ensures rank { start blocks.now.items result.block + result.index ≡ i }
{
    if i == 0 {
        return BlockPlace { block: 0, index: 0 };
    }
    let last = blocks.len() - 1;
    let last_len = len_at(blocks, last);
    let from_end = len - i;
    if from_end <= last_len {
        return BlockPlace {
            block: last,
            index: last_len - from_end,
        };
    }
    place_in_group(blocks, starts, i)
}

/// The place at which one of `len` spans is put: that behind a block's last rather than before the
/// next one's first.
pub(crate) fn place_to_put(
    blocks: &Vec<Block>,
    starts: &Vec<usize>,
    len: usize,
    i: usize,
) -> BlockPlace
    requires len { len ≡ length (row_items blocks.now.items) }
    requires within { i ≤ len }
    requires some { 0 < length blocks.now.items }
    requires filled { AreFilled blocks.now.items }
    requires starts { AreStarts starts.now.items blocks.now.items }
    ensures block { result.block < length blocks.now.items }
    ensures index { result.index ≤ length (row blocks.now.items result.block) }
    ensures rank { start blocks.now.items result.block + result.index ≡ i }
{
    if i == 0 {
        return BlockPlace { block: 0, index: 0 };
    }
    let last = place_of(blocks, starts, len, i - 1);
    BlockPlace {
        block: last.block,
        index: last.index + 1,
    }
}

/// Counts one span more before the groups behind a block.
pub(crate) fn raise(starts: &mut Vec<usize>, b: usize)
    requires { (g : ℕ) → g < length starts.old.items
        → slice_index starts.old.items g + 1 < 2 ^ 64 }
    ensures len { length starts.new.items ≡ length starts.old.items }
    ensures front { (g : ℕ) → g < b / 32
        → slice_index starts.new.items g ≡ slice_index starts.old.items g }
    ensures behind { (g : ℕ) → b / 32 ≤ g → g < length starts.old.items
        → slice_index starts.new.items g ≡ slice_index starts.old.items g + 1 }
{
    let mut group = b / GROUP;
    while group < starts.len() {
        starts[group] += 1;
        group += 1;
    }
}

/// Counts one span less before the groups behind a block.
pub(crate) fn lower(starts: &mut Vec<usize>, b: usize)
    requires { (g : ℕ) → b / 32 ≤ g → g < length starts.old.items
        → 0 < slice_index starts.old.items g }
    ensures len { length starts.new.items ≡ length starts.old.items }
    ensures front { (g : ℕ) → g < b / 32
        → slice_index starts.new.items g ≡ slice_index starts.old.items g }
    ensures behind { (g : ℕ) → b / 32 ≤ g → g < length starts.old.items
        → slice_index starts.new.items g + 1 ≡ slice_index starts.old.items g }
{
    let mut group = b / GROUP;
    while group < starts.len() {
        starts[group] -= 1;
        group += 1;
    }
}

/// Counts anew the spans before the groups behind a block, as many as there is room for.
pub(crate) fn restart(blocks: &Vec<Block>, starts: &mut Vec<usize>, b: usize)
    requires within { b ≤ length blocks.now.items }
    requires small { length (row_items blocks.now.items) < 2 ^ 64 }
    requires front { (g : ℕ) → g < length starts.old.items → 32 * (g + 1) ≤ b
        → slice_index starts.old.items g ≡ start blocks.now.items (32 * (g + 1)) }
    ensures starts { AreStarts starts.new.items blocks.now.items }
    ensures all { length starts.new.items < vec_capacity starts.new
        → length blocks.now.items / 32 ≤ length starts.new.items }
{
    starts.truncate(b / GROUP);
    'counting: while starts.len() < blocks.len() / GROUP && starts.len() < starts.capacity() {
        let count = start_of(blocks, starts, (starts.len() + 1) * GROUP);
        starts.push_reserved(count);
    }
}
