ghost use Rattle.std.specs.Prelude.{◌≡◌, ◌+◌, ◌<◌, ◌≤◌, ◌^◌, ◌⊎◌, length, None, Some, IsSome, IfSome, IfOk, OnOk, OnErr};
ghost use Rattle.parser_loop.specs.Items.{FrameItem, latest_after_any, answer_item};
ghost use Rattle.adts_stream.specs.Walk.{phase_of as phase_of_point};
ghost use Rattle.byte_stream.specs.Readings.{new_reading, next_item, item_ahead, with_bytes, after_answer, after_reset};
ghost use Rattle.byte_stream.specs.Streams.{Stands, HasReading, StandsAfter, ForEachReading, stream_view, latest_of, ready_of, phase_of, held_of};

use crate::next::{ByteFault, Next};
use adts_stream::{AdtsNext, AdtsStream};
use mse_base::{Bytes, CodedFrame, OutOfMemory, Phase};
use mse_types::Container;
use segment_stream::Stream;
use std::alloc::Global;

/// The parser of a container.
#[derive(Debug, Drop)]
pub(crate) enum Parser {
    Segments(Stream),
    Frames(AdtsStream),
}

impl Parser {
    /// A parser of the empty string, with no presentation from before.
    pub(crate) fn new(alloc: Global, container: Container) -> Parser
        ensures stands { Stands (stream_view result) (new_reading container) }
        ensures latest { latest_of (stream_view result) ≡ None }
        ensures fed { (stream_view result).fed ≡ 0 }
        ensures none_offered { (stream_view result).offered ≡ None }
    {
        match container {
            Container::Mp4 => Parser::Segments(Stream::new(alloc)),
            Container::Adts => Parser::Frames(AdtsStream::new(alloc)),
        }
    }

    /// Takes all memory that a feed of these bytes needs, and leaves the string.
    pub(crate) fn offer(&mut self, bytes: &[u8]) -> Result<(), OutOfMemory>
        requires none_offered { (stream_view self.old).offered ≡ None }
        requires countable { (stream_view self.old).fed + length bytes.now < 2 ^ 62 }
        ensures ok { OnOk result (stream_view self.new ≡ record {
          parser = (stream_view self.old).parser;
          fed = (stream_view self.old).fed;
          offered = Some bytes.now;
        }) }
        ensures err { OnErr result (stream_view self.new ≡ stream_view self.old) }
    {
        match self {
            Parser::Segments(stream) => stream.offer(bytes),
            Parser::Frames(stream) => stream.offer(bytes),
        }
    }

    /// As `offer` of the same bytes.
    pub(crate) fn offer_bytes(&mut self, bytes: Bytes) -> Result<(), OutOfMemory>
        requires none_offered { (stream_view self.old).offered ≡ None }
        requires countable { (stream_view self.old).fed + length bytes < 2 ^ 62 }
        ensures ok { OnOk result (stream_view self.new ≡ record {
          parser = (stream_view self.old).parser;
          fed = (stream_view self.old).fed;
          offered = Some bytes;
        }) }
        ensures err { OnErr result (stream_view self.new ≡ stream_view self.old) }
    {
        match self {
            Parser::Segments(stream) => stream.offer_bytes(bytes),
            Parser::Frames(stream) => stream.offer_bytes(bytes),
        }
    }

    /// Appends the bytes that are offered to the string.
    pub(crate) fn accept(&mut self)
        requires { IsSome (stream_view self.old).offered }
        ensures stands { IfSome (stream_view self.old).offered (λ bytes.
            StandsAfter (stream_view self.old) (with_bytes bytes) (stream_view self.new)) }
        ensures latest { latest_of (stream_view self.new) ≡ latest_of (stream_view self.old) }
        ensures fed { IfSome (stream_view self.old).offered
            (λ bytes. (stream_view self.new).fed ≡ (stream_view self.old).fed + length bytes) }
        ensures none_offered { (stream_view self.new).offered ≡ None }
    {
        match self {
            Parser::Segments(stream) => stream.accept(),
            Parser::Frames(stream) => stream.accept(),
        }
    }

    /// Forgets the bytes that are offered.
    pub(crate) fn decline(&mut self)
        requires { IsSome (stream_view self.old).offered }
        ensures { stream_view self.new ≡ record {
          parser = (stream_view self.old).parser;
          fed = (stream_view self.old).fed;
          offered = None;
        } }
    {
        match self {
            Parser::Segments(stream) => stream.decline(),
            Parser::Frames(stream) => stream.decline(),
        }
    }

    /// The item that stands `i` places after the next one, if the string gives one.
    pub(crate) fn look(&self, i: usize) -> Result<Next, OutOfMemory>
        requires none_offered { (stream_view self.now).offered ≡ None }
        requires ready { (i ≡ 0) ⊎ (i < ready_of (stream_view self.now)) }
        ensures { ForEachReading (stream_view self.now) (λ r.
            IfOk result (λ next. answer_item next ≡ item_ahead r i)) }
    {
        match self {
            Parser::Segments(stream) => Ok(stream.look(i)?.with_fault(ByteFault::Segments)),
            Parser::Frames(stream) => Ok(stream.look(i)?.with_fault(ByteFault::Frames)),
        }
    }

    /// The next item, if the string gives one.
    pub(crate) fn next(&mut self) -> Result<Next, OutOfMemory>
        requires { (stream_view self.old).offered ≡ None }
        ensures item { ForEachReading (stream_view self.old) (λ r.
            IfOk result (λ next. answer_item next ≡ next_item r)) }
        ensures stands { IfOk result (λ next. StandsAfter (stream_view self.old)
            (after_answer (answer_item next)) (stream_view self.new)) }
        ensures latest { IfOk result (λ next. latest_of (stream_view self.new)
            ≡ latest_after_any (latest_of (stream_view self.old)) (answer_item next)) }
        ensures fed { (stream_view self.new).fed ≡ (stream_view self.old).fed }
        ensures none_offered { (stream_view self.new).offered ≡ None }
        ensures dry { IfOk result
            (λ next. answer_item next ≡ None → stream_view self.new ≡ stream_view self.old) }
        ensures err { OnErr result (stream_view self.new ≡ stream_view self.old) }
    {
        match self {
            Parser::Segments(stream) => Ok(stream.next()?.with_fault(ByteFault::Segments)),
            Parser::Frames(stream) => Ok(stream.next()?.with_fault(ByteFault::Frames)),
        }
    }

    /// The coded frame that comes next, with the offset of its first byte.
    pub(crate) fn next_frame(&mut self) -> Result<(CodedFrame, u64), OutOfMemory>
        requires none_offered { (stream_view self.old).offered ≡ None }
        requires ready { 0 < ready_of (stream_view self.old) }
        requires stands { HasReading (stream_view self.old) }
        ensures item { ForEachReading (stream_view self.old) (λ r.
            IfOk result (λ x. Some (FrameItem x.0 x.1) ≡ next_item r)) }
        ensures stands { IfOk result (λ x. StandsAfter (stream_view self.old)
            (after_answer (Some (FrameItem x.0 x.1))) (stream_view self.new)) }
        ensures latest { OnOk result
            (latest_of (stream_view self.new) ≡ latest_of (stream_view self.old)) }
        ensures fed { (stream_view self.new).fed ≡ (stream_view self.old).fed }
        ensures none_offered { (stream_view self.new).offered ≡ None }
        ensures err { OnErr result (stream_view self.new ≡ stream_view self.old) }
    {
        match self {
            Parser::Segments(stream) => stream.next_frame(),
            Parser::Frames(stream) => match stream.next()? {
                AdtsNext::Frame(frame, offset) => Ok((frame, offset)),
                _ => unreachable!(),
            },
        }
    }

    /// Where the parser is before the next item.
    pub(crate) fn phase(&self) -> Phase
        requires { (stream_view self.now).offered ≡ None }
        ensures { result ≡ phase_of (stream_view self.now) }
    {
        match self {
            Parser::Segments(stream) => stream.phase(),
            Parser::Frames(stream) => frame_phase(stream),
        }
    }

    /// How many of the next items are coded frames, up to the first that is none.
    pub(crate) fn ready_frames(&self) -> usize
        requires { (stream_view self.now).offered ≡ None }
        ensures ready { result ≡ ready_of (stream_view self.now) }
        ensures few { result ≤ 2 ^ 20 }
    {
        match self {
            Parser::Segments(stream) => stream.ready_frames(),
            Parser::Frames(stream) => stream.ready_frames(),
        }
    }

    /// How many bytes are held in memory.
    pub(crate) fn held_len(&self) -> usize
        requires { (stream_view self.now).offered ≡ None }
        ensures { result ≡ length (held_of (stream_view self.now)) }
    {
        match self {
            Parser::Segments(stream) => stream.held_len(),
            Parser::Frames(stream) => stream.held_len(),
        }
    }

    /// The string becomes empty; the presentation stays.
    pub(crate) fn reset(&mut self)
        requires { (stream_view self.old).offered ≡ None }
        ensures stands { StandsAfter (stream_view self.old) after_reset (stream_view self.new) }
        ensures latest { latest_of (stream_view self.new) ≡ latest_of (stream_view self.old) }
        ensures fed { (stream_view self.new).fed ≡ 0 }
        ensures none_offered { (stream_view self.new).offered ≡ None }
    {
        match self {
            Parser::Segments(stream) => stream.reset(),
            Parser::Frames(stream) => stream.reset(),
        }
    }
}

/// Where the parser of ADTS frames is: each frame is a media segment, and none stands for an initialization segment
/// that is being parsed.
fn frame_phase(stream: &AdtsStream) -> Phase
    requires { stream.now.offered ≡ None }
    ensures { result ≡ phase_of_point stream.now.state.point }
{
    if stream.waiting() {
        Phase::Waiting
    } else {
        Phase::InMedia
    }
}
