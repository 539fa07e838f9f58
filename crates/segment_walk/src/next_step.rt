ghost use Rattle.std.specs.Prelude.{◌≡◌, ◌+◌, ◌≤◌, ◌<◌, length, take, drop};
ghost use Rattle.std.specs.List.{concat};
ghost use Rattle.bmff_boxes.specs.Headers.{header_of};
ghost use Rattle.segment_walk.specs.Tables.{size_fault, box_type, greatest_size};
ghost use Rattle.segment_walk.specs.Moves.{place_fault, step_at_box, box_between, box_within, place_step, is_in_ranges, slot_step, step_of};
ghost use Rattle.segment_walk.specs.Ranges.{mode_of, AreRangesAscending, HasAscendingRanges};
ghost use Rattle.segment_walk.specs.Bounds.{IsHead, is_segment_start};

use crate::kinds::{BoxStep, DataRange, ParserMode, StreamFault, TopLevelBox, WalkPlace};
use crate::search::is_in_ranges;
use bmff_boxes::{HeadFault, Header, header};
use bmff_fragment::Slot;
use input_chunks::Chunks;
use mse_base::Phase;

/// The most bytes of a movie fragment with its data.
const LONGEST_FRAGMENT: u128 = 1 << 27;

fn box_type(kind: [u8; 4]) -> TopLevelBox
    ensures { result ≡ box_type kind }
{
    if kind == *b"ftyp" {
        TopLevelBox::FileType
    } else if kind == *b"styp" {
        TopLevelBox::SegmentType
    } else if kind == *b"moov" {
        TopLevelBox::Movie
    } else if kind == *b"moof" {
        TopLevelBox::MovieFragment
    } else if kind == *b"mdat" {
        TopLevelBox::MediaData
    } else {
        TopLevelBox::Other
    }
}

fn size_fault(fault: HeadFault) -> StreamFault
    ensures { result ≡ size_fault fault }
{
    match fault {
        HeadFault::SizeZero => StreamFault::SizeZero,
        HeadFault::BoxSize => StreamFault::BoxSize,
    }
}

/// What is out of place.
fn place_fault(ready: bool, phase: Phase, kind: TopLevelBox) -> Option<StreamFault>
    ensures { result ≡ place_fault ready phase kind }
{
    match (phase, kind) {
        (Phase::Waiting, TopLevelBox::Movie) => Some(StreamFault::MoovPlace),
        (Phase::InMedia, TopLevelBox::Movie) => Some(StreamFault::MoovPlace),
        (Phase::InInit, TopLevelBox::MovieFragment) => Some(StreamFault::MoofPlace),
        (Phase::Waiting, TopLevelBox::MovieFragment) => if ready {
            None
        } else {
            Some(StreamFault::NoInit)
        },
        (Phase::InMedia, TopLevelBox::MovieFragment) => if ready {
            None
        } else {
            Some(StreamFault::NoInit)
        },
        _ => None,
    }
}

fn greatest_size(kind: TopLevelBox) -> u64
    ensures { result ≡ greatest_size kind }
{
    match kind {
        TopLevelBox::Movie => 1 << 24,
        TopLevelBox::MovieFragment => 1 << 24,
        TopLevelBox::FileType => 1 << 40,
        TopLevelBox::SegmentType => 1 << 40,
        TopLevelBox::MediaData => 1 << 40,
        TopLevelBox::Other => 1 << 40,
    }
}

/// What a box does where no movie fragment is open and `there` bytes of it and of what follows are there.
fn step_at_box(phase: Phase, kind: TopLevelBox, there: u64, len: u64) -> BoxStep
    ensures { result ≡ step_at_box phase kind there len }
{
    match (phase, kind) {
        (Phase::InInit, TopLevelBox::Movie) => if there < len {
            BoxStep::Wait(len)
        } else {
            BoxStep::ReadInit(len)
        },
        (_, TopLevelBox::MovieFragment) => if there < len {
            BoxStep::Wait(len)
        } else {
            BoxStep::ReadMoof(len)
        },
        (Phase::Waiting, TopLevelBox::FileType) => BoxStep::Skip {
            to: Phase::InInit,
            len,
        },
        (Phase::InMedia, TopLevelBox::FileType) => BoxStep::Skip {
            to: Phase::InInit,
            len,
        },
        (Phase::Waiting, TopLevelBox::SegmentType) => BoxStep::Skip {
            to: Phase::InMedia,
            len,
        },
        _ => BoxStep::Skip { to: phase, len },
    }
}

fn box_between(ready: bool, phase: Phase, there: u64, front: Header) -> BoxStep
    ensures { result ≡ box_between ready phase there front }
{
    match front {
        Header::Short => BoxStep::Wait(0),
        Header::Bad(fault) => BoxStep::Fail(size_fault(fault), 0),
        Header::Whole { kind, len, .. } => {
            let kind = box_type(kind);
            if let Some(fault) = place_fault(ready, phase, kind) {
                return BoxStep::Fail(fault, 0);
            }
            if len > greatest_size(kind) {
                return BoxStep::Fail(StreamFault::TooLarge, 0);
            }
            step_at_box(phase, kind, there, len)
        }
    }
}

/// Whether a box begins a segment, or is one that only stands at the start of one.
fn is_segment_start(kind: TopLevelBox) -> bool
    ensures { result ≡ is_segment_start kind }
{
    match kind {
        TopLevelBox::MediaData => false,
        TopLevelBox::Other => false,
        TopLevelBox::FileType => true,
        TopLevelBox::SegmentType => true,
        TopLevelBox::Movie => true,
        TopLevelBox::MovieFragment => true,
    }
}

fn box_within(there: u64, at: u64, front: Header) -> BoxStep
    requires { IsHead front }
    ensures { result ≡ box_within there at front }
{
    match front {
        Header::Short => BoxStep::Wait(0),
        Header::Bad(fault) => BoxStep::Fail(size_fault(fault), at),
        Header::Whole { kind, head, len } => {
            let kind = box_type(kind);
            if is_segment_start(kind) {
                return BoxStep::Fail(StreamFault::InSegment, at);
            }
            if u128::from(at) + u128::from(len) > LONGEST_FRAGMENT {
                return BoxStep::Fail(StreamFault::TooLarge, at);
            }
            let end = at + len;
            if kind == TopLevelBox::MediaData {
                return BoxStep::EnterData {
                    start: at + head,
                    end,
                };
            }
            if there < end {
                BoxStep::Wait(end)
            } else {
                BoxStep::NextBox(end)
            }
        }
    }
}

/// The header that lies `at` bytes from `from` on.
fn header_at(input: &Chunks, from: usize, at: u64) -> Header
    ensures value { result ≡ header_of (drop at (drop from (concat input.now))) }
    ensures head { IsHead result }
{
    let place = from as u128 + u128::from(at);
    if place >= input.len() as u128 {
        return Header::Short;
    }
    let place = place as usize;
    let mut front = [0; 16];
    let len_left = input.len() - place;
    if len_left >= 16 {
        input.read(place, &mut front);
        return header(&front);
    }
    let (part, _) = front.split_at_mut(len_left);
    input.read(place, part);
    header(part)
}

/// The step at a place of a movie fragment; `is_done` says that no slot is left.
fn place_step(input: &Chunks, from: usize, is_done: bool, place: WalkPlace) -> BoxStep
    requires { from ≤ length (concat input.now) }
    ensures { result ≡ place_step (drop from (concat input.now)) is_done place }
{
    let there = (input.len() - from) as u64;
    match place {
        WalkPlace::AtBox(at) => box_within(there, at, header_at(input, from, at)),
        WalkPlace::InData(end) => {
            if there < end {
                BoxStep::Wait(end)
            } else if is_done {
                BoxStep::EndSegment(end)
            } else {
                BoxStep::NextBox(end)
            }
        }
    }
}

/// The step in a movie fragment, whose next slot is `slot`.
fn slot_step(
    input: &Chunks,
    from: usize,
    known: &[DataRange],
    end: u64,
    place: WalkPlace,
    slot: Option<Slot>,
) -> BoxStep
    requires inside { from ≤ length (concat input.now) }
    requires ascending { AreRangesAscending known.now }
    ensures { result ≡ slot_step (drop from (concat input.now)) known.now end place slot }
{
    let Some(slot) = slot else {
        return place_step(input, from, true, place);
    };
    let there = (input.len() - from) as u64;
    if is_in_ranges(known, &slot) {
        if there < slot.end {
            BoxStep::Wait(slot.end)
        } else {
            BoxStep::GiveFrame(slot)
        }
    } else if slot.start < end {
        BoxStep::Fail(StreamFault::OutsideMdat, slot.start)
    } else {
        place_step(input, from, false, place)
    }
}

#[tactic(auto, using(crate::proofs::Heads::front_min))]
fn first(known: &[DataRange], n: usize) -> &[DataRange]
    ensures { result.now ≡ take n known.now }
{
    let (front, _) = known.split_at(n.min(known.len()));
    front
}

/// What the parser does next, in the mode that `mode` and the tables tell, where the bytes from place `from`
/// of the input on are those from its offset on, and `ready` says that an initialization segment came. It
/// takes no memory, and reads of a box no more than its header.
#[tactic(auto, unfolding(crate::specs::Moves::step_of))]
pub fn step(
    ready: bool,
    mode: ParserMode,
    slots: &[Slot],
    known: &[DataRange],
    input: &Chunks,
    from: usize,
) -> BoxStep
    requires inside { from ≤ length (concat input.now) }
    requires ascending { HasAscendingRanges mode known.now }
    ensures { result ≡ step_of ready (drop from (concat input.now))
        (mode_of slots.now known.now mode) }
{
    match mode {
        ParserMode::Between(phase) => {
            let there = (input.len() - from) as u64;
            box_between(ready, phase, there, header_at(input, from, 0))
        }
        ParserMode::Skipping { .. } => BoxStep::Wait(0),
        ParserMode::Within(fragment) => {
            slot_step(
                input,
                from,
                first(known, fragment.known),
                fragment.end,
                fragment.place,
                slots.get(fragment.taken).copied(),
            )
        }
    }
}
