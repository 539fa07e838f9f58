//! The calls on a source buffer (Media Source Extensions, 3.1 and 3.2).

ghost use Rattle.std.specs.Prelude.{[]};
ghost use Rattle.media_element.specs.State.{ElementState};
ghost use Rattle.mse_calls.specs.declared.calls.Call.TheVariants as call;
ghost use Rattle.mse_engine.specs.Calls.{after_buffer_call, after_call};
ghost use Rattle.mse_engine.specs.Standing.{IsSteady, kept_engine};
ghost use Rattle.mse_engine.specs.EngineCalls.{IsEngineCall, IsEngineRead};

use crate::finish::{PLACES, is_blank, settle, tell_call};
use crate::media_source::{MediaSource, around};
use crate::source_calls::answer_by;
use buffer_state::BufferCall;
use media_element::Element;
use mse_base::OutOfMemory;
use mse_calls::{Answer, Name, TimeRanges};
use source_buffers::SourceBuffers;
use track_store::FrameStore;

/// Makes a call on the buffer of a number. First it makes room for all events of the call.
pub(crate) fn call<S: FrameStore>(
    source: &mut MediaSource,
    buffers: &mut SourceBuffers<S>,
    element: &mut Element,
    k: u32,
    call: &BufferCall,
) -> Result<Answer, OutOfMemory>
    requires steady { IsSteady (kept_engine source.old buffers.old.buffers element.old.state) }
    ensures { IsEngineCall (kept_engine source.old buffers.old.buffers element.old.state) result
        (kept_engine source.new buffers.new.buffers element.new.state)
        (after_buffer_call k call.now) }
{
    element.reserve(buffers.most_changes(k, call) + PLACES)?;
    let around = around(source, element, k);
    let reply = buffers.call(k, call, &around)?;
    source.apply_reply(k, &reply, is_blank(element));
    tell_call(element, k, call, &reply);
    settle(source, buffers, element);
    Ok(answer_by(reply.refused))
}

/// What is buffered at a buffer.
pub(crate) fn buffered<S: FrameStore>(
    source: &MediaSource,
    buffers: &SourceBuffers<S>,
    k: u32,
) -> Result<Answer, OutOfMemory>
    ensures { (e : ElementState) → IsEngineRead (kept_engine source.now buffers.now.buffers e)
        result (after_call [] (call.Buffered k)) }
{
    if !buffers.is_made(k) {
        return Ok(Answer::Refused(Name::NoSuchBuffer));
    }
    match buffers.buffered(k, source.state.ready().is_ended())? {
        Some(ranges) => Ok(Answer::Ranges(TimeRanges::new(ranges))),
        None => Ok(Answer::Refused(Name::InvalidState)),
    }
}
