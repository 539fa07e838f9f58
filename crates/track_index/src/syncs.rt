//! The serials of random access points, the lowest first.
//!
//! A removal of frames leaves the list as it is, so some may be of frames that are gone.

ghost use Rattle.std.specs.Prelude.{◌≡◌, ◌+◌, ◌-◌, ◌<◌, ◌≤◌, List, [], ◌∷◌, ◌++◌, nat_lt, filter, OnOk, vec_len, vec_capacity};
ghost use Rattle.std.specs.List.{AllByRecursion, list_any};
ghost use Rattle.track_store.specs.declared.store.Stored.{Stored};
ghost use Rattle.track_store.specs.Frames.{IsAscending, has_serial};
ghost use Rattle.mse_base.specs.Rows.{row_items};
ghost use Rattle.track_index.specs.Syncs.{AreAscending, IsLastUpTo, AreSyncsOf};

use crate::frames::{Frames, is_held};
use mse_base::OutOfMemory;
use track_store::Stored;

/// Half as many serials as are kept whatever frames are held.
const HALF_KEPT: usize = 32;

/// The greatest serial that is not above one.
pub(crate) fn last_up_to(syncs: &[u64], serial: u64) -> Option<u64>
    requires { AreAscending syncs.now }
    ensures { IsLastUpTo serial syncs.now result }
{
    let count = syncs.partition_point(|sync| *sync <= serial);
    if count == 0 {
        None
    } else {
        Some(syncs[count - 1])
    }
}

/// Takes out the serials from one on.
fn keep_below(syncs: &mut Vec<u64>, serial: u64)
    requires { AreAscending syncs.old.items }
    ensures serials { syncs.new.items ≡ filter (λ n. nat_lt n serial) syncs.old.items }
    ensures no_longer { vec_len syncs.new ≤ vec_len syncs.old }
    ensures capacity { vec_capacity syncs.new ≡ vec_capacity syncs.old }
{
    while let Some(last) = syncs.last() {
        if *last < serial {
            return;
        }
        syncs.pop();
    }
}

/// Notes a frame that comes behind all others. Serials that are not below its own are of frames
/// that are gone.
pub(crate) fn note(syncs: &mut Vec<u64>, frame: &Stored)
    requires ascending { AreAscending syncs.old.items }
    requires room { vec_len syncs.old < vec_capacity syncs.old }
    ensures syncs { (fs : List Stored) → AllByRecursion (λ f. f.serial < frame.now.serial) fs
        → AreSyncsOf fs syncs.old.items → AreSyncsOf (fs ++ frame.now ∷ []) syncs.new.items }
    ensures room { vec_capacity syncs.old - vec_len syncs.old
        ≤ (vec_capacity syncs.new - vec_len syncs.new) + 1 }
{
    keep_below(syncs, frame.serial);
    if frame.frame.sync {
        syncs.push_reserved(frame.serial);
    }
}

/// Drops the serials of frames that are gone.
fn drop_gone(syncs: &mut Vec<u64>, frames: &Frames)
    requires { IsAscending (row_items frames.now.rows) }
    ensures serials { syncs.new.items
        ≡ filter (λ n. list_any (has_serial n) (row_items frames.now.rows)) syncs.old.items }
    ensures no_longer { vec_len syncs.new ≤ vec_len syncs.old }
    ensures capacity { vec_capacity syncs.new ≡ vec_capacity syncs.old }
{
    syncs.retain(|sync| is_held(frames, *sync));
}

/// Makes room for `n` more serials. Where they are twice as many as the frames and 64 more, those
/// of frames that are gone go first. An `Err` keeps those of the frames held, and the room.
pub(crate) fn make_room(syncs: &mut Vec<u64>, frames: &Frames, n: usize) -> Result<(), OutOfMemory>
    requires { IsAscending (row_items frames.now.rows) }
    ensures syncs { AreSyncsOf (row_items frames.now.rows) syncs.old.items
        → AreSyncsOf (row_items frames.now.rows) syncs.new.items }
    ensures spare { OnOk result (n ≤ vec_capacity syncs.new - vec_len syncs.new) }
    ensures no_room_lost { vec_capacity syncs.old - vec_len syncs.old
        ≤ vec_capacity syncs.new - vec_len syncs.new }
{
    if syncs.len() / 2 >= frames.len().saturating_add(HALF_KEPT) {
        drop_gone(syncs, frames);
    }
    syncs.reserve(n)?;
    Ok(())
}
