ghost use Rattle.std.specs.Prelude.{◌≡◌, ◌+◌, ◌<◌, ◌≤◌, ◌^◌, length, drop};
ghost use Rattle.input_chunks.specs.Ends.{bytes_of, bytes_before, bytes_from, HasEnds};

use crate::piece_with_end::PieceWithEnd;
use std::collections::VecDeque;

/// A place in the queue: a piece by its index, and how many of its bytes come before.
#[derive(Clone, Copy, Debug, PartialEq, Eq)]
pub struct PieceOffset {
    pub index: usize,
    pub skip: usize,
}

/// How many bytes come before piece `i`, where the queue begins at `base`.
fn start(entries: &VecDeque<PieceWithEnd>, base: u64, i: usize) -> usize
    requires within { i ≤ length entries.now.items }
    requires ended { HasEnds base entries.now.items }
    requires small { length (bytes_of entries.now.items) < 2 ^ 64 }
    ensures { result ≡ length (bytes_before i entries.now.items) }
{
    if i == 0 {
        return 0;
    }
    let last = &entries[i - 1];
    last.end.wrapping_sub(base) as usize
}

/// The place of byte `from`, by binary search.
pub fn piece_offset_of(entries: &VecDeque<PieceWithEnd>, base: u64, from: usize) -> PieceOffset
    requires inside { from < length (bytes_of entries.now.items) }
    requires ended { HasEnds base entries.now.items }
    requires small { length (bytes_of entries.now.items) < 2 ^ 64 }
    ensures index { result.index < length entries.now.items }
    ensures bytes { drop result.skip (bytes_from result.index entries.now.items)
        ≡ drop from (bytes_of entries.now.items) }
    ensures before { length (bytes_before result.index entries.now.items) + result.skip ≡ from }
{
    let mut low = 0;
    let mut high = entries.len();
    'search: while high - low > 1 {
        let middle = low + (high - low) / 2;
        if start(entries, base, middle) <= from {
            low = middle;
        } else {
            high = middle;
        }
    }
    PieceOffset {
        index: low,
        skip: from - start(entries, base, low),
    }
}
