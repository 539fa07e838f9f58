//! What is told of all source buffers.

ghost use Rattle.std.specs.Prelude.{◌≡◌, ◌<◌, ◌≤◌, ◌^◌, length, slice_get, option_copied, option_map, IfSome};
ghost use Rattle.std.specs.List.{list_any};
ghost use Rattle.track_buffers.specs.Frames.{highest_start_in, highest_end_in};
ghost use Rattle.source_buffers.specs.State.{HasSlotReading, HasStates, all_kept_media, all_kept_running, in_slot, kept_media, kept_running};
ghost use Rattle.source_buffers.specs.All.{AreSound, IsSoundSlot, are_initialized, greatest_of_all, highest_end_of_all, is_initialized_slot, is_updating_at, is_updating_slot, lowest_running, most_changes_of, slot_times};
ghost use Rattle.source_buffers.specs.Buffered.{slot_track, track_at};
ghost use Rattle.mse_base.specs.Moments.{greatest};
ghost use Rattle.track_store.specs.State.{state_of};
ghost use Rattle.buffer_state.specs.AllCalls.{call_at};
ghost use Rattle.buffer_state.specs.declared.buffer_context.BufferContext.{BufferContext};

use buffer_state::{Buffer, BufferCall};
use mse_base::Ticks;
use track_store::{FrameStore, Track};

/// The slot of a number; `None` exactly where no buffer was ever made with it.
pub(crate) fn slot_at<S: FrameStore>(
    slots: &Vec<Option<Buffer<S>>>,
    k: usize,
) -> Option<&Option<Buffer<S>>>
    ensures { option_copied result ≡ slice_get slots.now.items k }
{
    slots.get(k)
}

/// The buffer of a number; `None` where none was ever made with it, or it was removed.
pub(crate) fn buffer_at<S: FrameStore>(
    slots: &Vec<Option<Buffer<S>>>,
    k: usize,
) -> Option<&Buffer<S>>
    ensures { option_copied result ≡ in_slot k slots.now.items }
{
    match slot_at(slots, k) {
        Some(Some(buffer)) => Some(buffer),
        Some(None) => None,
        None => None,
    }
}

/// Whether an append or a removal runs at the buffer in a slot.
fn is_updating<S: FrameStore>(slot: &Option<Buffer<S>>) -> bool
    ensures { result ≡ is_updating_slot (kept_running slot.now) }
{
    match slot {
        Some(buffer) => buffer.updating(),
        None => false,
    }
}

/// Whether an append or a removal runs at the buffer of a number; false where no buffer is.
pub(crate) fn is_updating_at<S: FrameStore>(slots: &Vec<Option<Buffer<S>>>, k: usize) -> bool
    ensures { result ≡ is_updating_at k (all_kept_running slots.now.items) }
{
    match slot_at(slots, k) {
        Some(slot) => is_updating(slot),
        None => false,
    }
}

/// Whether an append or a removal runs at a buffer.
pub(crate) fn is_any_updating<S: FrameStore>(slots: &Vec<Option<Buffer<S>>>) -> bool
    ensures { result ≡ list_any is_updating_slot (all_kept_running slots.now.items) }
{
    for slot in slots {
        if is_updating(slot) {
            return true;
        }
    }
    false
}

/// The lowest number of a buffer at which an append or a removal runs; `None` exactly where there is
/// none.
pub(crate) fn lowest_running<S: FrameStore>(slots: &Vec<Option<Buffer<S>>>) -> Option<u32>
    requires { length slots.now.items < 2 ^ 32 }
    ensures { result ≡ lowest_running (all_kept_running slots.now.items) }
{
    for k in 0..slots.len() {
        if is_updating_at(slots, k) {
            return Some(k as u32);
        }
    }
    None
}

/// How often a call on the buffer of a number changes the duration at most; 0 where no buffer is.
pub(crate) fn most_changes<S: FrameStore>(
    slots: &Vec<Option<Buffer<S>>>,
    k: usize,
    call: &BufferCall,
) -> usize
    ensures most { (a : BufferContext) → result ≡ most_changes_of k (call_at a call.now)
        slots.now.items }
    ensures few { result ≤ 2 ^ 20 }
{
    match buffer_at(slots, k) {
        Some(buffer) => buffer.most_changes(call),
        None => 0,
    }
}

/// Whether the buffer in a slot has received its first initialization segment; true of an empty slot.
fn is_initialized<S: FrameStore>(slot: &Option<Buffer<S>>) -> bool
    ensures { result ≡ is_initialized_slot (kept_media slot.now) }
{
    match slot {
        Some(buffer) => buffer.has_init(),
        None => true,
    }
}

/// Whether each buffer in the list has received its first initialization segment.
pub(crate) fn are_initialized<S: FrameStore>(slots: &Vec<Option<Buffer<S>>>) -> bool
    ensures { result ≡ are_initialized (all_kept_media slots.now.items) }
{
    for slot in slots {
        if !is_initialized(slot) {
            return false;
        }
    }
    true
}

/// The highest presentation timestamp of the frames of the buffer in a slot.
fn slot_start<S: FrameStore>(slot: &Option<Buffer<S>>) -> Option<Ticks>
    ensures { result ≡ greatest (slot_times highest_start_in (kept_media slot.now)) }
{
    match slot {
        Some(buffer) => buffer.highest_start(),
        None => None,
    }
}

/// The highest presentation timestamp of the frames of the buffer at a place.
fn start_at<S: FrameStore>(slots: &Vec<Option<Buffer<S>>>, i: usize) -> Option<Ticks>
    ensures { IfSome (slice_get (all_kept_media slots.now.items) i)
        (λ m. result ≡ greatest (slot_times highest_start_in m)) }
{
    match slot_at(slots, i) {
        Some(slot) => slot_start(slot),
        None => None,
    }
}

/// The highest presentation timestamp of the frames of all buffers.
pub(crate) fn highest_start<S: FrameStore>(slots: &Vec<Option<Buffer<S>>>) -> Option<Ticks>
    ensures { result ≡ greatest_of_all highest_start_in (all_kept_media slots.now.items) }
{
    let mut best = None;
    for i in 0..slots.len() {
        best = best.max(start_at(slots, i));
    }
    best
}

/// The highest end of the frames of the buffer in a slot.
fn slot_end<S: FrameStore>(slot: &Option<Buffer<S>>) -> Option<Ticks>
    ensures { result ≡ greatest (slot_times highest_end_in (kept_media slot.now)) }
{
    match slot {
        Some(buffer) => buffer.highest_end(),
        None => None,
    }
}

/// The highest end of the frames of the buffer at a place.
fn end_at<S: FrameStore>(slots: &Vec<Option<Buffer<S>>>, i: usize) -> Option<Ticks>
    ensures { IfSome (slice_get (all_kept_media slots.now.items) i)
        (λ m. result ≡ greatest (slot_times highest_end_in m)) }
{
    match slot_at(slots, i) {
        Some(slot) => slot_end(slot),
        None => None,
    }
}

/// The highest end of the frames of all buffers.
pub(crate) fn highest_end<S: FrameStore>(slots: &Vec<Option<Buffer<S>>>) -> Option<Ticks>
    ensures { result ≡ highest_end_of_all (all_kept_media slots.now.items) }
{
    let mut best = None;
    for i in 0..slots.len() {
        best = best.max(end_at(slots, i));
    }
    best
}

/// Each track buffer of the buffer in a slot is sound, and the slot stands for a state. It does nothing when it runs.
fn sound_slot<S: FrameStore>(slot: &Option<Buffer<S>>)
    ensures sound { IsSoundSlot (kept_media slot.now) }
    ensures stands { HasSlotReading slot.now }
{
    match slot {
        // The proof reads off this that the tracks of the buffer are sound, and what it stands for.
        Some(buffer) => buffer.sound(),
        None => {}
    }
}

/// Each track buffer of each buffer is sound, and the slots stand for some states. It does nothing when it runs.
pub(crate) fn sound<S: FrameStore>(slots: &Vec<Option<Buffer<S>>>)
    ensures sound { AreSound (all_kept_media slots.now.items) }
    ensures stands { HasStates slots.now.items }
{
    for slot in slots {
        // The proof reads off this that the tracks of this slot are sound, and what it stands for.
        sound_slot(slot);
    }
}

/// A track of the buffer in a slot.
fn slot_track<S: FrameStore>(slot: &Option<Buffer<S>>, i: usize) -> Option<&Track<S>>
    ensures { option_map (state_of S.frames) (option_copied result)
        ≡ slot_track i (kept_media slot.now) }
{
    match slot {
        Some(buffer) => buffer.tracks().get(i),
        None => None,
    }
}

/// A track of the buffer of a number.
pub(crate) fn track_at<S: FrameStore>(
    slots: &Vec<Option<Buffer<S>>>,
    k: usize,
    i: usize,
) -> Option<&Track<S>>
    ensures { option_map (state_of S.frames) (option_copied result)
        ≡ track_at k i (all_kept_media slots.now.items) }
{
    match slot_at(slots, k) {
        Some(slot) => slot_track(slot, i),
        None => None,
    }
}
