//! The running ends of an order in blocks: for each block the greatest end of its entries and of
//! all before them.

ghost use Rattle.std.specs.Prelude.{◌≡◌, ◌+◌, ◌-◌, ◌<◌, ◌≤◌, length, take, vec_capacity, drop, slice_index_or, Some, None};
ghost use Rattle.mse_base.specs.Rows.{row_items};
ghost use Rattle.mse_base.specs.Moments.{greatest_of_two};
ghost use Rattle.track_index.specs.Known.{greatest_end};
ghost use Rattle.track_index.specs.Tops.{tops_of, AreTopsFrom, AreTopsMendable};

use crate::entry::OrderEntry;
use crate::known::Known;
use crate::mark::TimeMark;
use block_list::{BlockList, take_out};

/// The running end of the block before one.
pub(crate) fn top_before(
    tops: &[Option<TimeMark>],
    list: &BlockList<OrderEntry, Known>,
    b: usize,
) -> Option<TimeMark>
    requires tops { tops.now ≡ tops_of list.now.rows }
    requires within { b ≤ length list.now.rows }
    ensures { result ≡ greatest_end (row_items (take b list.now.rows)) }
{
    end_before(tops, b)
}

/// The end before a place.
fn end_before(tops: &[Option<TimeMark>], b: usize) -> Option<TimeMark>
    requires { b ≤ length tops.now }
    ensures none { b ≡ 0 → result ≡ None }
    ensures some { 0 < b → result ≡ slice_index_or tops.now (b - 1) result }
{
    if b == 0 { None } else { tops[b - 1] }
}

/// Makes the running ends anew from a block on; from `to` on only until one stays as it is.
fn follow(
    tops: &mut Vec<Option<TimeMark>>,
    list: &BlockList<OrderEntry, Known>,
    from: usize,
    to: usize,
)
    requires len { length tops.old.items ≡ length list.now.rows }
    requires in_order { from ≤ to }
    requires within { from ≤ length list.now.rows }
    requires front { take from tops.old.items ≡ take from (tops_of list.now.rows) }
    requires rest { AreTopsFrom to tops.old.items to list.now.rows }
    ensures items { tops.new.items ≡ tops_of list.now.rows }
    ensures capacity { vec_capacity tops.new ≡ vec_capacity tops.old }
{
    let mut best = end_before(tops, from);
    let mut i = from;
    while i < tops.len() {
        let top = best.max(list.fact(i).end);
        if to <= i && tops[i] == top {
            return;
        }
        tops[i] = top;
        best = top;
        i += 1;
    }
}

/// Makes as many ends as there are blocks, after those from `b` up to before `behind` came to be
/// others: one was cut in two, or some went.
fn adjust(tops: &mut Vec<Option<TimeMark>>, b: usize, behind: usize, after: usize)
    requires within { b ≤ length tops.old.items }
    requires some { b < behind }
    requires at_most_one_more { after ≤ length tops.old.items + 1 }
    requires at_most_touched_gone { b + length tops.old.items ≤ behind + after }
    requires gone { after < length tops.old.items → behind ≤ length tops.old.items }
    requires room { after ≤ vec_capacity tops.old }
    ensures len { length tops.new.items ≡ after }
    ensures front { take b tops.new.items ≡ take b tops.old.items }
    ensures rest { drop ((behind + after) - length tops.old.items) tops.new.items
        ≡ drop behind tops.old.items }
    ensures capacity { vec_capacity tops.new ≡ vec_capacity tops.old }
{
    let before = tops.len();
    if after > before {
        match tops.insert(b, None) {
            Ok(()) => {}
            Err(_) => unreachable!(),
        }
        return;
    }
    take_out(tops, b, b + (before - after));
}

/// Makes the running ends anew after an entry that ends at `end` came into block `b`, which may
/// have been cut in two. No block follows the last one: only its own end may become later.
pub(crate) fn refresh_with(
    tops: &mut Vec<Option<TimeMark>>,
    list: &BlockList<OrderEntry, Known>,
    b: usize,
    end: TimeMark,
)
    requires mendable { AreTopsMendable tops.old.items list.now.rows b (b + 1)
        (vec_capacity tops.old) }
    requires last { b + 1 ≡ length tops.old.items
        → greatest_of_two (slice_index_or tops.old.items b None) (Some end)
        ≡ greatest_end (row_items list.now.rows) }
    ensures items { tops.new.items ≡ tops_of list.now.rows }
    ensures capacity { vec_capacity tops.new ≡ vec_capacity tops.old }
{
    let before = tops.len();
    let after = list.blocks();
    if after == before && b + 1 == after {
        tops[b] = tops[b].max(Some(end));
        return;
    }
    refresh(tops, list, b, b);
}

/// Makes the running ends anew after the blocks from `b` up to `last` changed: one may have been cut
/// in two, or some have gone.
pub(crate) fn refresh(
    tops: &mut Vec<Option<TimeMark>>,
    list: &BlockList<OrderEntry, Known>,
    b: usize,
    last: usize,
)
    requires { AreTopsMendable tops.old.items list.now.rows b (last + 1) (vec_capacity tops.old) }
    ensures items { tops.new.items ≡ tops_of list.now.rows }
    ensures capacity { vec_capacity tops.new ≡ vec_capacity tops.old }
{
    let after = list.blocks();
    let before = tops.len();
    let behind = last + 1;
    adjust(tops, b, behind, after);
    follow(tops, list, b, (behind + after) - before);
}
