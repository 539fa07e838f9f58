ghost use Rattle.std.specs.Prelude.{◌≡◌, ◌+◌, ◌<◌, ◌≤◌, ◌^◌, length, Option, false, Some, IfOk, OnOk, OnErr};
ghost use Rattle.std.specs.List.{concat};
ghost use Rattle.parser_loop.specs.Walk.{item_of, settled_state};
ghost use Rattle.mse_base.specs.declared.track.Presentation.{Presentation};
ghost use Rattle.adts_stream.specs.declared.header.FrameHeader.{FrameHeader};
ghost use Rattle.parser_loop.specs.Items.{FrameItem, InitItem, latest_after_any, answer_item};
ghost use Rattle.adts_stream.specs.Walk.{adts, state_past, state_after_fault};
ghost use Rattle.adts_stream.specs.Frames.{coded_frame, presentation_of};
ghost use Rattle.adts_stream.specs.Values.{state_after_item, state_of};

use crate::header::FrameHeader;
use crate::next::AdtsNext;
use crate::position::{NextItem, ParsePoint, ParsePosition};
use crate::walk::{next_item_of, settle_on};
use input_chunks::Chunks;
use mse_base::{CodedFrame, Kind, Moment, OutOfMemory, Presentation, Ticks, TrackInfo, TrackList};
use std::alloc::Global;

/// The presentation of frames with so many samples in a second.
fn presentation(alloc: Global, rate: u32) -> Result<Presentation, OutOfMemory>
    ensures { IfOk result (λ p. p ≡ presentation_of rate) }
{
    let mut tracks = Vec::new(alloc);
    tracks.push(TrackInfo {
        id: 1,
        kind: Kind::Audio,
        codec: *b"mp4a",
        scale: rate,
        media_shift: 0,
        empty_shift: Ticks::zero(),
        default_duration: 0,
        default_size: 0,
        default_flags: 0,
    })?;
    Ok(Presentation {
        scale: 0,
        duration: Moment::Infinite,
        tracks: TrackList::from_vec(alloc, tracks),
    })
}

/// The coded frame of so many bytes at the front of the input.
fn frame(duration: Ticks, len: u64, input: &Chunks) -> Result<CodedFrame, OutOfMemory>
    requires { len ≤ length (concat input.now) }
    ensures { (h : FrameHeader) → h.duration ≡ duration → h.len ≡ len → IfOk result
        (λ f. f ≡ coded_frame h (concat input.now)) }
{
    let payload = input.copy(0, len as usize)?;
    Ok(CodedFrame {
        track_id: 1,
        pts: Ticks::zero(),
        dts: Ticks::zero(),
        dur: duration,
        sync: true,
        payload,
    })
}

/// The next item, which is not taken.
pub(crate) fn look_on(
    alloc: Global,
    last: &Option<Presentation>,
    position: ParsePosition,
    input: &Chunks,
) -> Result<AdtsNext, OutOfMemory>
    ensures { IfOk result
        (λ x. answer_item x ≡ item_of (adts.move (state_of last.now position (concat input.now)))) }
{
    let offset = position.offset;
    match next_item_of(last, position, input) {
        NextItem::Dry => Ok(AdtsNext::Dry),
        NextItem::Init(header) => Ok(AdtsNext::Init(presentation(alloc, header.rate)?, offset)),
        NextItem::Frame(header) => {
            let frame = frame(header.duration, header.len, input)?;
            Ok(AdtsNext::Frame(frame, offset))
        },
        NextItem::End(_) => Ok(AdtsNext::SegmentEnd),
        NextItem::Fault(fault) => Ok(AdtsNext::Fault { fault, offset }),
    }
}

/// Takes an initialization segment. An `Err` changes nothing.
fn init_on(
    alloc: Global,
    last: &mut Option<Presentation>,
    position: &mut ParsePosition,
    header: FrameHeader,
) -> Result<AdtsNext, OutOfMemory>
    ensures item { IfOk result
        (λ x. answer_item x ≡ Some (InitItem (presentation_of header.rate) position.old.offset)) }
    ensures last { OnOk result (last.new ≡ Some (presentation_of header.rate)) }
    ensures position { OnOk result (position.new
        ≡ record {
          point = ParsePoint.AtFrame header;
          offset = position.old.offset;
          failed = position.old.failed;
        }) }
    ensures err { OnErr result ((last.new ≡ last.old) × (position.new ≡ position.old)) }
{
    let answer = presentation(alloc, header.rate)?;
    let latest = Some(presentation(alloc, header.rate)?);
    *last = latest;
    position.point = ParsePoint::AtFrame(header);
    Ok(AdtsNext::Init(answer, position.offset))
}

/// Takes a coded frame. An `Err` changes nothing.
fn frame_on(
    position: &mut ParsePosition,
    input: &Chunks,
    header: FrameHeader,
) -> Result<AdtsNext, OutOfMemory>
    requires { header.len ≤ length (concat input.now) }
    ensures item { IfOk result
        (λ x. answer_item x
        ≡ Some (FrameItem (coded_frame header (concat input.now)) position.old.offset)) }
    ensures position { OnOk result (position.new
        ≡ record {
          point = ParsePoint.AtEnd header;
          offset = position.old.offset;
          failed = position.old.failed;
        }) }
    ensures err { OnErr result (position.new ≡ position.old) }
{
    let frame = frame(header.duration, header.len, input)?;
    position.point = ParsePoint::AtEnd(header);
    Ok(AdtsNext::Frame(frame, position.offset))
}

/// Takes the end of a segment of `len` bytes, and runs on behind it.
fn end_on(last: &Option<Presentation>, position: &mut ParsePosition, input: &mut Chunks, len: u64)
    requires inside { len ≤ length (concat input.old) }
    requires unfailed { position.old.failed ≡ false }
    requires bounded { position.old.offset + length (concat input.old) < 2 ^ 62 }
    ensures kept { state_of last.now position.new (concat input.new)
        ≡ settled_state adts (state_past (state_of last.now position.old (concat input.old)) len) }
    ensures total { position.new.offset + length (concat input.new)
        ≡ position.old.offset + length (concat input.old) }
{
    input.drop_front(len as usize);
    position.point = ParsePoint::AtHeader;
    position.offset += len;
    settle_on(last, position, input);
}

/// Takes a fault: no byte is kept.
fn fail_on(position: &mut ParsePosition, input: &mut Chunks)
    ensures kept { (last : Option Presentation) → state_of last position.new (concat input.new)
        ≡ state_after_fault (state_of last position.old (concat input.old)) }
    ensures total { position.new.offset + length (concat input.new) ≡ position.old.offset }
{
    let all = input.len();
    input.drop_front(all);
    position.point = ParsePoint::AtHeader;
    position.failed = true;
}

/// Takes the next item. An `Err` changes nothing.
pub(crate) fn next_on(
    alloc: Global,
    last: &mut Option<Presentation>,
    position: &mut ParsePosition,
    input: &mut Chunks,
) -> Result<AdtsNext, OutOfMemory>
    requires { position.old.offset + length (concat input.old) < 2 ^ 62 }
    ensures item { IfOk result
        (λ x. answer_item x ≡ item_of (adts.move
        (state_of last.old position.old (concat input.old)))) }
    ensures kept { OnOk result (state_of last.new position.new (concat input.new)
        ≡ state_after_item (state_of last.old position.old (concat input.old))
        (adts.move (state_of last.old position.old (concat input.old)))) }
    ensures last { IfOk result (λ x. last.new ≡ latest_after_any last.old (answer_item x)) }
    ensures total { position.new.offset + length (concat input.new)
        ≤ position.old.offset + length (concat input.old) }
    ensures err { OnErr result (state_of last.new position.new (concat input.new)
        ≡ state_of last.old position.old (concat input.old)) }
{
    match next_item_of(last, *position, input) {
        NextItem::Dry => Ok(AdtsNext::Dry),
        NextItem::Init(header) => init_on(alloc, last, position, header),
        NextItem::Frame(header) => frame_on(position, input, header),
        NextItem::End(header) => {
            end_on(last, position, input, header.len);
            Ok(AdtsNext::SegmentEnd)
        }
        NextItem::Fault(fault) => {
            let offset = position.offset;
            fail_on(position, input);
            Ok(AdtsNext::Fault { fault, offset })
        }
    }
}
