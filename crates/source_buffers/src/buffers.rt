ghost use Rattle.std.specs.Prelude.{◌≡◌, ◌+◌, ◌<◌, ◌≤◌, ◌^◌, ◌≤ℤ◌, pos, nat_lt, [], ◌∷◌, ◌++◌, length, Some, option_map, option_copied, IfOk, OnOk, OnErr};
ghost use Rattle.mse_base.specs.declared.ticks.Moment.{Moment};
ghost use Rattle.track_store.specs.State.{state_of};
ghost use Rattle.buffer_state.specs.State.{surroundings};
ghost use Rattle.buffer_state.specs.AllCalls.{call_at};
ghost use Rattle.buffer_state.specs.Replies.{IsReplyKeptUnlessDid, reply_of};
ghost use Rattle.buffer_state.specs.declared.buffer_context.BufferContext.{BufferContext};
ghost use Rattle.track_buffers.specs.Buffered.{is_buffered_up_to};
ghost use Rattle.source_buffers.specs.State.{BufferStates, AreSlotsStanding, HasStates, all_kept_media, all_kept_running, new_buffer};
ghost use Rattle.source_buffers.specs.Slots.{refusal_on_buffer, refusal_on_slot, removal_in_slot, removal_refusal_in_slot, removal_result};
ghost use Rattle.source_buffers.specs.Done.{IsCallDoneInAll, IsCallDoneInSlot, IsDoneInAll, IsDoneInSlot, IsTurnDoneInAll, IsTurnDoneInSlot};
ghost use Rattle.source_buffers.specs.All.{AreSlotsWithin, AreSound, all_buffers, are_initialized, is_updating_at, lowest_running, most_changes_of};
ghost use Rattle.source_buffers.specs.Buffered.{buffered_at, element_ranges, element_span, track_at};
ghost use Rattle.source_buffers.specs.Views.{attributes_at, buffer_views};

use crate::{all, element, views};
use buffer_state::{Buffer, BufferCall, BufferContext, Container, Reply, Turned};
use mse_base::{OutOfMemory, Ranges, Span, Ticks};
use mse_calls::{BufferAttributes, BufferView, Name};
use source_state::AllBuffers;
use std::alloc::Global;
use std::marker::Model;
use track_store::{FrameStore, Track};

/// The source buffers of a media source, each by the number that it was made with, and room for
/// more. A number is never given twice: the buffer that was removed leaves its slot empty.
#[derive(Drop)]
pub struct SourceBuffers<S: FrameStore> {
    alloc: Global,
    slots: Vec<Option<Buffer<S>>>,
}

impl<S: FrameStore> Model for SourceBuffers<S> {
    ghost use Rattle.std.specs.Prelude.{◌-◌, ◌<◌, ◌^◌, length, vec_len, vec_capacity};
    ghost use Rattle.source_buffers.specs.State.{BuffersView};

    ghost Value = { BuffersView };

    ghost view = { λ b. record {
      buffers = b.slots.items;
      spare = vec_capacity b.slots - vec_len b.slots;
    } };

    ghost invariant = { λ b. length b.slots.items < 2 ^ 32 };
}

impl<S: FrameStore> SourceBuffers<S> {
    /// No buffers. It takes no memory.
    pub fn new(alloc: Global) -> Self
        ensures { result.buffers ≡ [] }
    {
        SourceBuffers {
            alloc,
            slots: Vec::new(alloc),
        }
    }

    /// How many buffers were ever made. Their numbers are those below it.
    pub fn len(&self) -> usize
        ensures value { result ≡ length self.now.buffers }
        ensures small { result < 2 ^ 32 }
    {
        self.slots.len()
    }

    /// Makes room for `n` more buffers.
    pub fn reserve(&mut self, n: usize) -> Result<(), OutOfMemory>
        ensures buffers { self.new.buffers ≡ self.old.buffers }
        ensures spare { OnOk result (n ≤ self.new.spare) }
        ensures no_room_lost { self.old.spare ≤ self.new.spare }
    {
        self.slots.reserve(n)?;
        Ok(())
    }

    /// Makes a buffer of a container with the next number, whose ranges join across gaps of at most
    /// `gap` ticks (Media Source Extensions, 2.2, `addSourceBuffer`). It takes no memory.
    pub fn add_reserved(&mut self, gap: Ticks, container: Container)
        requires room { 1 ≤ self.old.spare }
        requires few { length self.old.buffers + 1 < 2 ^ 32 }
        requires gap_from_zero { pos 0 ≤ℤ gap }
        ensures stand { (bs : BufferStates) → AreSlotsStanding self.old.buffers bs
            → AreSlotsStanding self.new.buffers (bs ++ Some (new_buffer gap container) ∷ []) }
        ensures within_duration { (d : Moment) → AreSlotsWithin d (all_kept_media self.old.buffers)
            → AreSlotsWithin d (all_kept_media self.new.buffers) }
        ensures len { length self.new.buffers ≡ length self.old.buffers + 1 }
        ensures spare { self.old.spare ≤ self.new.spare + 1 }
    {
        let buffer = Buffer::new(self.alloc, gap, container);
        self.slots.push_reserved(Some(buffer));
    }

    /// Removes the buffer of a number (Media Source Extensions, 2.2, `removeSourceBuffer`). An
    /// append or a removal that runs is aborted, and what the buffer holds goes.
    ///
    /// NoSuchBuffer where no buffer was ever made with the number; NotFound where it was removed.
    pub fn remove(&mut self, k: u32, around: &BufferContext) -> Reply
        ensures done { IsDoneInAll (removal_result k (surroundings around.now)) 0
            around.now.duration self.old.buffers result self.new.buffers }
        ensures len { length self.new.buffers ≡ length self.old.buffers }
        ensures spare { self.new.spare ≡ self.old.spare }
    {
        let Some(slot) = self.slots.get_mut(k as usize) else {
            return Reply::refused(Name::NoSuchBuffer, false, &around.duration);
        };
        remove_slot(slot, around)
    }

    /// Makes a call on the buffer of a number. It takes its memory first; an `Err` changes nothing.
    ///
    /// NoSuchBuffer where no buffer was ever made with the number; where it was removed
    /// [`BufferCall::removed_name`]; and then as [`Buffer::call`].
    pub fn call(
        &mut self,
        k: u32,
        call: &BufferCall,
        around: &BufferContext,
    ) -> Result<Reply, OutOfMemory>
        ensures done { IfOk result (λ reply. IsCallDoneInAll k (call_at around.now call.now)
            (surroundings around.now) self.old.buffers reply self.new.buffers) }
        ensures len { length self.new.buffers ≡ length self.old.buffers }
        ensures spare { self.new.spare ≡ self.old.spare }
        ensures err { OnErr result (self.new ≡ self.old) }
    {
        let Some(slot) = self.slots.get_mut(k as usize) else {
            return Ok(Reply::refused(Name::NoSuchBuffer, false, &around.duration));
        };
        call_slot(slot, call, around)
    }

    /// The name by which [`call`](Self::call) would be refused before anything comes of it, if it
    /// would. It takes no memory.
    pub fn refusal_of(&self, k: u32, call: &BufferCall, around: &BufferContext) -> Option<Name>
        ensures { (bs : BufferStates) → AreSlotsStanding self.now.buffers bs
            → result ≡ refusal_on_buffer k (call_at around.now call.now)
            (surroundings around.now) bs }
    {
        match all::slot_at(&self.slots, k as usize) {
            Some(Some(buffer)) => buffer.refusal_of(call, around),
            Some(None) => Some(call.removed_name()),
            None => Some(Name::NoSuchBuffer),
        }
    }

    /// How often a call on the buffer of a number changes the duration at most: a reset of the
    /// parser once for each coded frame that is ready, of which there are at most `2^20`.
    pub fn most_changes(&self, k: u32, call: &BufferCall) -> usize
        ensures most { (a : BufferContext) → result ≡ most_changes_of k (call_at a call.now)
            self.now.buffers }
        ensures few { result ≤ 2 ^ 20 }
    {
        all::most_changes(&self.slots, k as usize, call)
    }

    /// One step of the work of the buffer of a number: the next item of an append or its end, or
    /// the whole of a removal; `Idle` exactly where nothing runs there, also where no buffer is. Where
    /// it answers `Did`, it has put its reply into `reply`; otherwise `reply` stays as it was. It takes
    /// its memory first; an `Err` changes nothing.
    pub fn turn(
        &mut self,
        k: u32,
        around: &BufferContext,
        reply: &mut Reply,
    ) -> Result<Turned, OutOfMemory>
        ensures done { IfOk result (λ turned. IsTurnDoneInAll k (surroundings around.now)
            self.old.buffers (reply_of around.now.duration reply.new turned) self.new.buffers) }
        ensures kept { IsReplyKeptUnlessDid result reply.old reply.new }
        ensures len { length self.new.buffers ≡ length self.old.buffers }
        ensures spare { self.new.spare ≡ self.old.spare }
        ensures err { OnErr result (self.new ≡ self.old) }
    {
        let Some(slot) = self.slots.get_mut(k as usize) else {
            return Ok(Turned::Idle);
        };
        turn_slot(slot, around, reply)
    }

    /// The name by which [`remove`](Self::remove) would be refused, if it would.
    pub fn removal_refusal(&self, k: u32) -> Option<Name>
        ensures { (bs : BufferStates) → AreSlotsStanding self.now.buffers bs
            → result ≡ refusal_on_slot k removal_refusal_in_slot bs }
    {
        match all::slot_at(&self.slots, k as usize) {
            Some(Some(_)) => None,
            Some(None) => Some(Name::NotFound),
            None => Some(Name::NoSuchBuffer),
        }
    }

    /// Whether a buffer was ever made with the number.
    pub fn is_made(&self, k: u32) -> bool
        ensures { result ≡ nat_lt k (length self.now.buffers) }
    {
        (k as usize) < self.slots.len()
    }

    /// Whether an append or a removal runs at the buffer of a number; false where no buffer is.
    pub fn is_updating_at(&self, k: u32) -> bool
        ensures { result ≡ is_updating_at k (all_kept_running self.now.buffers) }
    {
        all::is_updating_at(&self.slots, k as usize)
    }

    /// What a media source is told of all buffers in its list.
    pub fn all_buffers(&self) -> AllBuffers
        ensures { result ≡ all_buffers (all_kept_running self.now.buffers)
            (all_kept_media self.now.buffers) }
    {
        AllBuffers {
            updating: all::is_any_updating(&self.slots),
            highest_start: all::highest_start(&self.slots),
            highest_end: all::highest_end(&self.slots),
        }
    }

    /// Whether each buffer in the list has received its first initialization segment (Media Source
    /// Extensions, 3.5.7).
    pub fn are_initialized(&self) -> bool
        ensures { result ≡ are_initialized (all_kept_media self.now.buffers) }
    {
        all::are_initialized(&self.slots)
    }

    /// The lowest number of a buffer at which an append or a removal runs; `None` exactly where
    /// there is none.
    pub fn running(&self) -> Option<u32>
        ensures { result ≡ lowest_running (all_kept_running self.now.buffers) }
    {
        all::lowest_running(&self.slots)
    }

    /// What is buffered at the buffer of a number (Media Source Extensions, 3.1, `buffered`), where
    /// the source is ended or not; `None` exactly where no buffer is.
    pub fn buffered(&self, k: u32, ended: bool) -> Result<Option<Ranges>, OutOfMemory>
        ensures { IfOk result (λ ranges. option_map (λ r. r.spans) ranges
            ≡ buffered_at ended k (all_kept_media self.now.buffers)) }
    {
        element::buffered_at(&self.slots, k as usize, ended)
    }

    /// What is buffered at the element (Media Source Extensions, 6, `buffered`), where the buffers
    /// of some numbers are active, and the source is ended or not.
    pub fn element_ranges(&self, active: &[u32], ended: bool) -> Result<Ranges, OutOfMemory>
        ensures { IfOk result (λ ranges. ranges.spans
            ≡ element_ranges ended active.now (all_kept_media self.now.buffers)) }
    {
        element::element_ranges(&self.slots, self.alloc, active, ended)
    }

    /// The range of the element with `start <= t` and `t <= end`, as
    /// [`element_ranges`](Self::element_ranges) has it; `None` exactly where there is none. It
    /// takes no memory.
    pub fn element_span(&self, active: &[u32], t: Ticks, ended: bool) -> Option<Span>
        ensures { result ≡ element_span t ended active.now (all_kept_media self.now.buffers) }
    {
        element::element_span(&self.slots, active, t, ended)
    }

    /// Whether the element has a range with `start <= t` and `t <= end`, as
    /// [`element_ranges`](Self::element_ranges) has it, and `until <= end`. It takes no memory.
    pub fn is_buffered_up_to(&self, active: &[u32], t: Ticks, until: Ticks, ended: bool) -> bool
        ensures { result ≡ is_buffered_up_to t until
            (element_ranges ended active.now (all_kept_media self.now.buffers)) }
    {
        element::is_buffered_up_to(&self.slots, active, t, until, ended)
    }

    /// What views show of the buffers in the list, in order of their numbers, where the source is
    /// ended or not.
    pub fn views(&self, ended: bool) -> Result<Vec<BufferView>, OutOfMemory>
        ensures { (bs : BufferStates) → AreSlotsStanding self.now.buffers bs
            → IfOk result (λ views. views.items ≡ buffer_views ended bs) }
    {
        views::buffer_views(&self.slots, self.alloc, ended)
    }

    /// What a page reads of the buffer of a number, where the source is ended or not, and the buffer is active or
    /// not; `None` exactly where no buffer is.
    pub fn attributes(
        &self,
        k: u32,
        ended: bool,
        active: bool,
    ) -> Result<Option<BufferAttributes>, OutOfMemory>
        ensures { (bs : BufferStates) → AreSlotsStanding self.now.buffers bs
            → IfOk result (λ found. found ≡ attributes_at k ended active bs) }
    {
        views::attributes_at(&self.slots, k, ended, active)
    }

    /// The `i`-th track of the buffer of a number, in order of its first initialization segment;
    /// `None` exactly where no buffer is, or it has no such track.
    pub fn track(&self, k: u32, i: usize) -> Option<&Track<S>>
        ensures { option_map (state_of S.frames) (option_copied result)
            ≡ track_at k i (all_kept_media self.now.buffers) }
    {
        all::track_at(&self.slots, k as usize, i)
    }

    /// Each track buffer of each buffer is sound: each frame that it holds is a random access
    /// point, or the frame received just before it is held too. And the gap across which ranges
    /// join is not negative. The slots stand for some states of the buffers, of which the clauses of
    /// the calls speak. It does nothing when it runs.
    pub fn sound(&self)
        ensures sound { AreSound (all_kept_media self.now.buffers) }
        ensures stands { HasStates self.now.buffers }
    {
        // The proof reads off this that the tracks of each slot are sound, and what the slot stands for.
        all::sound(&self.slots);
    }
}

/// Makes a call on the buffer in a slot.
fn call_slot<S: FrameStore>(
    slot: &mut Option<Buffer<S>>,
    call: &BufferCall,
    around: &BufferContext,
) -> Result<Reply, OutOfMemory>
    ensures done { IfOk result (λ reply. IsCallDoneInSlot (call_at around.now call.now)
        (surroundings around.now) slot.old reply slot.new) }
    ensures err { OnErr result (slot.new ≡ slot.old) }
{
    match slot {
        Some(buffer) => buffer.call(call, around),
        None => Ok(Reply::refused(call.removed_name(), false, &around.duration)),
    }
}

/// Ends running work, and removes the buffer.
fn remove_slot<S: FrameStore>(slot: &mut Option<Buffer<S>>, around: &BufferContext) -> Reply
    ensures { IsDoneInSlot (removal_in_slot (surroundings around.now)) 0 around.now.duration
        slot.old result slot.new }
{
    match slot {
        Some(buffer) => {
            let reply = buffer.end_work(around);
            *slot = None;
            reply
        }
        None => Reply::refused(Name::NotFound, false, &around.duration),
    }
}

/// One step of the work that runs.
fn turn_slot<S: FrameStore>(
    slot: &mut Option<Buffer<S>>,
    around: &BufferContext,
    reply: &mut Reply,
) -> Result<Turned, OutOfMemory>
    ensures done { IfOk result (λ turned. IsTurnDoneInSlot (surroundings around.now) slot.old
        (reply_of around.now.duration reply.new turned) slot.new) }
    ensures kept { IsReplyKeptUnlessDid result reply.old reply.new }
    ensures err { OnErr result (slot.new ≡ slot.old) }
{
    match slot {
        Some(buffer) => buffer.turn(around, reply),
        None => Ok(Turned::Idle),
    }
}
