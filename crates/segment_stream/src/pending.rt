ghost use Rattle.std.specs.Prelude.{◌≡◌, ◌≢◌, ℕ, slice_range, slice_get, take, List, Option, Some, Ok, ◌+◌, ◌≤◌, ◌<◌, ◌^◌, length, IfOk};
ghost use Rattle.std.specs.List.{concat};
ghost use Rattle.mse_base.specs.declared.track.Presentation.{Presentation};
ghost use Rattle.parser_loop.specs.Walk.{item_of};
ghost use Rattle.bmff_fragment.specs.declared.slot.Slot.{Slot};
ghost use Rattle.bmff_fragment.specs.Plans.{plan_of};
ghost use Rattle.bmff_init.specs.Movies.{init_of};
ghost use Rattle.segment_walk.specs.Moves.{WalkState, move_of_init, move_of_moof};
ghost use Rattle.segment_stream.specs.Kept.{IsConsistent, IsStillAtFront, IsPendingItem, HasPendingBytes, IsLast, move_of_pending, kept_of, is_skipping, snapshot};
ghost use Rattle.parser_loop.specs.Items.{FrameItem, answer_item};

use crate::moves::next_step;
use crate::next::SegmentNext;
use crate::progress::{PendingItem, Progress, Tables};
use bmff_fragment::{MoofError, Slot, read_moof};
use bmff_init::{InitError, read_init};
use input_chunks::Chunks;
use mse_base::{Bytes, CodedFrame, OutOfMemory, Presentation};
use segment_walk::{BoxStep, ParserMode, StreamFault};
use std::alloc::Global;

/// The bytes from `start` up to `end`.
fn copy_payload(input: &Chunks, start: u64, end: u64) -> Result<Bytes, OutOfMemory>
    requires inside { end ≤ length (concat input.now) }
    requires ordered { start ≤ end }
    ensures { IfOk result (λ b. b ≡ slice_range (concat input.now) start end) }
{
    input.copy(start as usize, (end - start) as usize)
}

fn slot_at(slots: &[Slot], i: usize) -> Option<Slot>
    ensures { result ≡ slice_get slots.now i }
{
    slots.get(i).copied()
}

/// The ready frame that stands `i` places after the next one.
pub(crate) fn look_frame(
    progress: &Progress,
    tables: &Tables,
    input: &Chunks,
    i: usize,
) -> Result<(CodedFrame, u64), OutOfMemory>
    requires ready { i < progress.now.ready }
    requires front { progress.now.from ≡ 0 }
    requires consistent { IsConsistent progress.now tables.now (concat input.now) }
    ensures { (last : Option Presentation) → IfOk result (λ x. Some (FrameItem x.0 x.1)
        ≡ slice_get (kept_of (snapshot last progress.now tables.now input.now)).items i) }
{
    let Some(slot) = slot_at(tables.slots.as_slice(), progress.first + i) else {
        unreachable!();
    };
    let payload = copy_payload(input, slot.start, slot.end)?;
    let offset = progress.position.offset + slot.start;
    let frame = CodedFrame {
        track_id: slot.track_id,
        pts: slot.pts,
        dts: slot.dts,
        dur: slot.dur,
        sync: slot.sync,
        payload,
    };
    Ok((frame, offset))
}

/// The item of a moov of `len` bytes that is whole: its initialization segment, or its fault.
fn pending_init(alloc: Global, input: &Chunks, len: u64) -> Result<PendingItem, OutOfMemory>
    requires { len ≤ length (concat input.now) }
    ensures value { (s : WalkState) → IfOk result (λ item.
        move_of_init s len (init_of (take len (concat input.now))) ≡ move_of_pending s item) }
    ensures inside { IfOk result (HasPendingBytes (length (concat input.now))) }
{
    let moov = input.copy(0, len as usize)?;
    match read_init(alloc, moov.as_slice()) {
        Ok(presentation) => Ok(PendingItem::Init(presentation, len)),
        Err(InitError::OutOfMemory) => Err(OutOfMemory),
        Err(InitError::Fault(fault)) => Ok(PendingItem::Fault(StreamFault::Init(fault), 0)),
    }
}

/// The fault of a moof of `len` bytes that is whole and was not passed.
fn pending_moof(
    alloc: Global,
    last: &Option<Presentation>,
    input: &Chunks,
    len: u64,
) -> Result<PendingItem, OutOfMemory>
    requires whole { len ≤ length (concat input.now) }
    requires readable { IsLast last.now }
    requires not_passed { (p : Presentation) (slots : List Slot) → last.now ≡ Some p
        → plan_of p.tracks (take len (concat input.now)) ≢ Ok slots }
    ensures value { (s : WalkState) → s.rest ≡ concat input.now → IfOk result
        (λ item. move_of_moof s len last.now ≡ move_of_pending s item) }
    ensures inside { IfOk result (HasPendingBytes (length (concat input.now))) }
{
    let Some(with) = last else {
        return Ok(PendingItem::Fault(StreamFault::NoInit, 0));
    };
    let moof = input.copy(0, len as usize)?;
    match read_moof(alloc, moof.as_slice(), with) {
        Ok(_) => Ok(PendingItem::Dry),
        Err(MoofError::OutOfMemory) => Err(OutOfMemory),
        Err(MoofError::Fault(fault)) => Ok(PendingItem::Fault(StreamFault::Moof(fault), 0)),
    }
}

fn is_skipping(mode: ParserMode) -> bool
    ensures { result ≡ is_skipping mode }
{
    match mode {
        ParserMode::Between(_) => false,
        ParserMode::Skipping { .. } => true,
        ParserMode::Within(_) => false,
    }
}

/// The next item, where no frame is ready.
pub(crate) fn pending_item(
    alloc: Global,
    last: &Option<Presentation>,
    progress: &Progress,
    tables: &Tables,
    input: &Chunks,
) -> Result<PendingItem, OutOfMemory>
    requires at_front { IsStillAtFront (snapshot last.now progress.now tables.now input.now) }
    requires readable { IsLast last.now }
    ensures value { IfOk result
        (IsPendingItem (snapshot last.now progress.now tables.now input.now)) }
    ensures inside { IfOk result (HasPendingBytes (length (concat input.now))) }
{
    if progress.position.failed {
        return Ok(PendingItem::Dry);
    }
    if is_skipping(progress.position.mode) {
        return Ok(PendingItem::Dry);
    }
    match next_step(last, *progress, tables, input) {
        BoxStep::ReadInit(len) => pending_init(alloc, input, len),
        BoxStep::ReadMoof(len) => pending_moof(alloc, last, input, len),
        BoxStep::EndSegment(end) => Ok(PendingItem::End(end)),
        BoxStep::Fail(fault, at) => Ok(PendingItem::Fault(fault, at)),
        BoxStep::Wait(_) => Ok(PendingItem::Dry),
        BoxStep::Skip { .. } => Ok(PendingItem::Dry),
        BoxStep::EnterData { .. } => Ok(PendingItem::Dry),
        BoxStep::NextBox(_) => Ok(PendingItem::Dry),
        BoxStep::GiveFrame(_) => Ok(PendingItem::Dry),
    }
}

/// What the stream gives for an item that stands next, at an offset.
pub(crate) fn next_of(pending: PendingItem, offset: u64) -> SegmentNext
    requires small { (at : ℕ) (f : StreamFault) → pending ≡ PendingItem.Fault f at
        → offset + at < 2 ^ 64 }
    ensures { (s : WalkState) → s.offset ≡ offset
        → answer_item result ≡ item_of (move_of_pending s pending) }
{
    match pending {
        PendingItem::Dry => SegmentNext::Dry,
        PendingItem::Init(presentation, _) => SegmentNext::Init(presentation, offset),
        PendingItem::End(_) => SegmentNext::SegmentEnd,
        PendingItem::Fault(fault, at) => SegmentNext::Fault {
            fault,
            offset: offset + at,
        },
    }
}
