//! The place up to which a test passes, by binary search.

ghost use Rattle.std.specs.Prelude.{◌≡◌, ◌+◌, ◌-◌, ◌^◌, ◌<◌, ◌≤◌, length, take, drop, true, false, IfSome};
ghost use Rattle.std.specs.List.{AllByRecursion};
ghost use Rattle.mse_base.specs.Rows.{row_items, row};
ghost use Rattle.block_list.specs.Rows.{IsCut, AreNonEmpty};
ghost use Rattle.block_list.specs.BlockPlaces.{rank};

use crate::block::Fact;
use crate::block_list::{BlockList, BlockPlace};

/// A test of items.
pub trait Test<T>: Sized {
    ghost use Rattle.std.specs.Prelude.{Bool};

    ghost is_passed_by: { Self → T → Bool };

    fn is_passed_by(&self, x: &T) -> bool
        ensures { result ≡ is_passed_by self.now x.now };
}

/// How many items pass.
fn place_in<T, P: Test<T>>(items: &[T], test: &P) -> usize
    requires cut { IsCut (P.is_passed_by test.now) items.now }
    requires small { length items.now < 2 ^ 63 }
    ensures within { result ≤ length items.now }
    ensures before { AllByRecursion
        (λ x. P.is_passed_by test.now x ≡ true) (take result items.now) }
    ensures after { AllByRecursion
        (λ x. P.is_passed_by test.now x ≡ false) (drop result items.now) }
{
    let mut low = 0;
    let mut high = items.len();
    'search: while low < high {
        let middle = low + (high - low) / 2;
        let x = &items[middle];
        if test.is_passed_by(x) {
            low = middle + 1;
        } else {
            high = middle;
        }
    }
    low
}

/// Whether the first item of a block passes.
fn is_passed_by_first<T, F: Fact<T>, P: Test<T>>(list: &BlockList<T, F>, test: &P, b: usize) -> bool
    requires cut { IsCut (P.is_passed_by test.now) (row_items list.now.rows) }
    requires none_empty { AreNonEmpty list.now.rows }
    requires block { b < length list.now.rows }
    ensures before { result ≡ true
        → AllByRecursion (λ x. P.is_passed_by test.now x ≡ true)
        (row_items (take b list.now.rows)) }
    ensures after { result ≡ false
        → AllByRecursion (λ x. P.is_passed_by test.now x ≡ false)
        (row_items (drop b list.now.rows)) }
{
    let items = list.block(b);
    let x = &items[0];
    test.is_passed_by(x)
}

/// How many blocks have a first item that passes.
fn block_of<T, F: Fact<T>, P: Test<T>>(list: &BlockList<T, F>, test: &P) -> usize
    requires cut { IsCut (P.is_passed_by test.now) (row_items list.now.rows) }
    requires none_empty { AreNonEmpty list.now.rows }
    ensures within { result ≤ length list.now.rows }
    ensures before { AllByRecursion (λ x. P.is_passed_by test.now x ≡ true)
        (row_items (take (result - 1) list.now.rows)) }
    ensures after { AllByRecursion (λ x. P.is_passed_by test.now x ≡ false)
        (row_items (drop result list.now.rows)) }
{
    let mut low = 0;
    let mut high = list.blocks();
    // Most items are put behind all others.
    if high > 0 && is_passed_by_first(list, test, high - 1) {
        return high;
    }
    'search: while low < high {
        let middle = low + (high - low) / 2;
        if is_passed_by_first(list, test, middle) {
            low = middle + 1;
        } else {
            high = middle;
        }
    }
    low
}

/// The place behind the last item that passes, where that is the last of all, or the one before
/// in the same block.
fn place_near_end<T, F: Fact<T>, P: Test<T>>(list: &BlockList<T, F>, test: &P) -> Option<BlockPlace>
    requires cut { IsCut (P.is_passed_by test.now) (row_items list.now.rows) }
    requires none_empty { AreNonEmpty list.now.rows }
    ensures block { IfSome result (λ s. s.block < length list.now.rows) }
    ensures index { IfSome result (λ s. s.index ≤ length (row list.now.rows s.block)) }
    ensures before { IfSome result (λ s. AllByRecursion (λ x. P.is_passed_by test.now x ≡ true)
        (take (rank list.now.rows s) (row_items list.now.rows))) }
    ensures after { IfSome result (λ s. AllByRecursion (λ x. P.is_passed_by test.now x ≡ false)
        (drop (rank list.now.rows s) (row_items list.now.rows))) }
{
    let blocks = list.blocks();
    if blocks == 0 {
        return None;
    }
    let block = blocks - 1;
    let len = list.block(block).len();
    let last = BlockPlace {
        block,
        index: len - 1,
    };
    if test.is_passed_by(list.item(last)) {
        return Some(BlockPlace { block, index: len });
    }
    if len > 1 {
        let before = BlockPlace {
            block,
            index: len - 2,
        };
        if test.is_passed_by(list.item(before)) {
            return Some(last);
        }
    }
    None
}

/// The place behind the last item that passes.
pub fn search<T, F: Fact<T>, P: Test<T>>(list: &BlockList<T, F>, test: &P) -> BlockPlace
    requires { IsCut (P.is_passed_by test.now) (row_items list.now.rows) }
    ensures block { 0 < length list.now.rows → result.block < length list.now.rows }
    ensures index { result.index ≤ length (row list.now.rows result.block) }
    ensures before { AllByRecursion (λ x. P.is_passed_by test.now x ≡ true)
        (take (rank list.now.rows result) (row_items list.now.rows)) }
    ensures after { AllByRecursion (λ x. P.is_passed_by test.now x ≡ false)
        (drop (rank list.now.rows result) (row_items list.now.rows)) }
{
    // The proof reads off this that no block is empty.
    let _spare = list.spare();
    // Most items are put behind all others, or before few.
    if let Some(place) = place_near_end(list, test) {
        return place;
    }
    let b = block_of(list, test);
    if b == 0 {
        return BlockPlace { block: 0, index: 0 };
    }
    let items = list.block(b - 1);
    let index = place_in(items, test);
    BlockPlace {
        block: b - 1,
        index,
    }
}
