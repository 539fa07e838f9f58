//! One call, on the parts of the engine.

ghost use Rattle.std.specs.Prelude.{◌≡◌, OnErr};
ghost use Rattle.mse_engine.specs.Calls.{after_call};
ghost use Rattle.mse_engine.specs.Standing.{IsEngineAnswer, IsSteady, kept_engine};

use crate::media_source::MediaSource;
use crate::{buffer_calls as of_buffer, element_calls as of_element, source_calls as of_source};
use buffer_state::BufferCall;
use media_element::Element;
use mse_base::OutOfMemory;
use mse_calls::{Answer, Blobs, Call};
use mse_types::read_type;
use source_buffers::SourceBuffers;
use track_store::FrameStore;

/// Makes a call: it is made at once, and its events are queued.
pub(crate) fn make_call<S: FrameStore>(
    source: &mut MediaSource,
    buffers: &mut SourceBuffers<S>,
    element: &mut Element,
    call: &Call,
    blobs: &Blobs,
) -> Result<Answer, OutOfMemory>
    requires steady { IsSteady (kept_engine source.old buffers.old.buffers element.old.state) }
    ensures answered { IsEngineAnswer
        (kept_engine source.old buffers.old.buffers element.old.state) result
        (kept_engine source.new buffers.new.buffers element.new.state)
        (after_call blobs.now call.now) }
    ensures steady { IsSteady (kept_engine source.new buffers.new.buffers element.new.state) }
    ensures err { OnErr result (kept_engine source.new buffers.new.buffers element.new.state
        ≡ kept_engine source.old buffers.old.buffers element.old.state) }
{
    match call {
        Call::Attach => of_source::attach(source, buffers, element),
        Call::AddSourceBuffer(text) => {
            of_source::add_source_buffer(source, buffers, element, text.as_str())
        }
        Call::RemoveSourceBuffer(k) => {
            of_source::remove_source_buffer(source, buffers, element, *k)
        }
        Call::SetDuration(d) => of_source::set_duration(source, buffers, element, *d),
        Call::EndOfStream(kind) => of_source::end_of_stream(source, buffers, element, *kind),
        Call::SetLiveSeekableRange(a, b) => of_source::set_live(source, buffers, element, *a, *b),
        Call::ClearLiveSeekableRange => of_source::clear_live(source, buffers, element),
        Call::SetMode(k, mode) => {
            of_buffer::call(source, buffers, element, *k, &BufferCall::SetMode(*mode))
        }
        Call::SetTimestampOffset(k, t) => {
            of_buffer::call(source, buffers, element, *k, &BufferCall::SetOffset(*t))
        }
        Call::SetAppendWindowStart(k, t) => {
            let set = BufferCall::SetWindowStart(*t);
            of_buffer::call(source, buffers, element, *k, &set)
        }
        Call::SetAppendWindowEnd(k, t) => {
            of_buffer::call(source, buffers, element, *k, &BufferCall::SetWindowEnd(*t))
        }
        Call::AppendBuffer(k, piece) => {
            let bytes = blobs.shared_part(piece)?;
            let append = BufferCall::Append(bytes.as_ref());
            of_buffer::call(source, buffers, element, *k, &append)
        }
        Call::Abort(k) => of_buffer::call(source, buffers, element, *k, &BufferCall::Abort),
        Call::Remove(k, a, b) => {
            of_buffer::call(source, buffers, element, *k, &BufferCall::Remove(*a, *b))
        }
        Call::ChangeType(k, text) => {
            let change = BufferCall::ChangeType(read_type(text.as_str()));
            of_buffer::call(source, buffers, element, *k, &change)
        }
        Call::Buffered(k) => of_buffer::buffered(source, buffers, *k),
        Call::SourceState => Ok(Answer::State(of_element::state_view(source, element))),
        Call::Seek(t) => of_element::seek(source, buffers, element, *t),
        Call::Play => of_element::play(source, buffers, element),
        Call::Pause => of_element::pause(source, buffers, element),
        Call::Advance(t) => of_element::advance(source, buffers, element, *t),
        Call::ElementBuffered => of_element::element_buffered(source, buffers),
        Call::Seekable => of_element::seekable(source, buffers),
    }
}
