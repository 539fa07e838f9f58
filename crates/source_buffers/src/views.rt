//! What views show of the source buffers.

ghost use Rattle.std.specs.Prelude.{◌≡◌, ◌<◌, ◌^◌, [], ◌∷◌, ◌++◌, length, slice_get, Option, IfSome, IfOk, OnOk};
ghost use Rattle.source_buffers.specs.State.{BufferState, BufferStates, AreSlotsStanding, IsSlotStanding};
ghost use Rattle.source_buffers.specs.Views.{attributes_at, buffer_views, slot_attributes, views_from};

use crate::all::slot_at;
use buffer_state::Buffer;
use mse_base::OutOfMemory;
use mse_calls::{BufferAttributes, BufferView};
use std::alloc::Global;
use track_store::FrameStore;

/// Puts the view of the buffer in a slot, if there is one, behind the others.
fn push_slot<S: FrameStore>(
    views: &mut Vec<BufferView>,
    slot: &Option<Buffer<S>>,
    number: u32,
    ended: bool,
) -> Result<(), OutOfMemory>
    ensures { (s : Option BufferState) → IsSlotStanding slot.now s
        → OnOk result (views.new.items ≡ views.old.items ++ views_from number ended (s ∷ [])) }
{
    match slot {
        Some(buffer) => {
            let view = buffer.view(number, ended)?;
            views.push(view)?;
            Ok(())
        }
        None => Ok(()),
    }
}

fn push_at<S: FrameStore>(
    views: &mut Vec<BufferView>,
    slots: &Vec<Option<Buffer<S>>>,
    k: usize,
    ended: bool,
) -> Result<(), OutOfMemory>
    requires { k < 2 ^ 32 }
    ensures { (bs : BufferStates) → AreSlotsStanding slots.now.items bs
        → OnOk result (IfSome (slice_get bs k)
        (λ s. views.new.items ≡ views.old.items ++ views_from k ended (s ∷ []))) }
{
    match slot_at(slots, k) {
        Some(slot) => push_slot(views, slot, k as u32, ended),
        None => Ok(()),
    }
}

/// The views of the buffers that are there, in order of their numbers.
pub(crate) fn buffer_views<S: FrameStore>(
    slots: &Vec<Option<Buffer<S>>>,
    alloc: Global,
    ended: bool,
) -> Result<Vec<BufferView>, OutOfMemory>
    requires { length slots.now.items < 2 ^ 32 }
    ensures { (bs : BufferStates) → AreSlotsStanding slots.now.items bs
        → IfOk result (λ views. views.items ≡ buffer_views ended bs) }
{
    let mut views = Vec::new(alloc);
    for k in 0..slots.len() {
        push_at(&mut views, slots, k, ended)?;
    }
    Ok(views)
}

/// What a page reads of the buffer in a slot, if there is one.
fn slot_attributes<S: FrameStore>(
    slot: &Option<Buffer<S>>,
    number: u32,
    ended: bool,
    active: bool,
) -> Result<Option<BufferAttributes>, OutOfMemory>
    ensures { (s : Option BufferState) → IsSlotStanding slot.now s
        → IfOk result (λ found. found ≡ slot_attributes number ended active s) }
{
    match slot {
        Some(buffer) => {
            let attributes = buffer.attributes(number, ended, active)?;
            Ok(Some(attributes))
        }
        None => Ok(None),
    }
}

/// What a page reads of the buffer of a number, if it is there.
pub(crate) fn attributes_at<S: FrameStore>(
    slots: &Vec<Option<Buffer<S>>>,
    k: u32,
    ended: bool,
    active: bool,
) -> Result<Option<BufferAttributes>, OutOfMemory>
    ensures { (bs : BufferStates) → AreSlotsStanding slots.now.items bs
        → IfOk result (λ found. found ≡ attributes_at k ended active bs) }
{
    match slot_at(slots, k as usize) {
        Some(slot) => slot_attributes(slot, k, ended, active),
        None => Ok(None),
    }
}
