//! Two kinds of stores, of which the same calls are made.

ghost use Rattle.std.specs.Prelude.{◌≡◌, ◌≤ℤ◌, pos, [], IfOk};
ghost use Rattle.track_store.specs.Calls.{AnswerView, AreAllowed, IsGiven, IsSameAnswer, answer_of, run_of};
ghost use Rattle.track_store.specs.declared.calls.StoreLook.{StoreLook};

use crate::IndexStore;
use mse_base::{OutOfMemory, Ticks};
use std::alloc::Global;
use track_store::calls::StoreCall;
use track_store::runs::run_calls;
use track_store::{FrameStore, ListStore};

/// An [`IndexStore`] and a `ListStore`, made by `new`, of each of which the same calls were made one
/// after another. Whatever the calls, both are left with the same frames, and each look-up has the
/// same answer in both, but that either may find no memory for a copy of the ranges.
pub fn stores_alike(
    alloc: Global,
    tolerance: Ticks,
    calls: Vec<StoreCall>,
    again: Vec<StoreCall>,
) -> Result<(IndexStore, ListStore), OutOfMemory>
    requires gap_from_zero { pos 0 ≤ℤ tolerance }
    requires same_calls { again.items ≡ calls.items }
    requires allowed { AreAllowed 0 calls.items [] }
    ensures index { IfOk result (λ stores. stores.0.frames
        ≡ (run_of tolerance [] calls.items).frames) }
    ensures list { IfOk result (λ stores. stores.1.frames
        ≡ (run_of tolerance [] calls.items).frames) }
    ensures gaps { IfOk result (λ stores. (stores.0.gap ≡ tolerance)
        × (stores.1.gap ≡ tolerance)) }
    ensures same_answers { IfOk result (λ stores. (look : StoreLook) (x y : AnswerView)
        → IsGiven (answer_of stores.0.gap look stores.0.frames) x
        → IsGiven (answer_of stores.1.gap look stores.1.frames) y → IsSameAnswer x y) }
{
    let mut index = IndexStore::new(alloc, tolerance);
    run_calls(&mut index, calls)?;
    let mut list = ListStore::new(alloc, tolerance);
    run_calls(&mut list, again)?;
    Ok((index, list))
}
