//! By which name a call would be refused before any effect, if it would. Nothing here takes memory.

ghost use Rattle.std.specs.Prelude.{◌≡◌, ◌==◌, nat_lt, length, Some, None, if◌then◌else◌};
ghost use Rattle.mse_calls.specs.declared.answers.Name.TheVariants as name;
ghost use Rattle.mse_calls.specs.Pieces.{bytes_of};
ghost use Rattle.source_state.specs.Calls.{after_attach, after_clear_live, after_remove_buffer, after_set_duration, duration_name, end_refusal, remove_name};
ghost use Rattle.source_buffers.specs.State.{AreSlotsStanding, all_kept_media, all_kept_running};
ghost use Rattle.source_buffers.specs.All.{all_buffers};
ghost use Rattle.media_element.specs.State.{ElementState};
ghost use Rattle.mse_engine.specs.State.{Core, State, core_of};
ghost use Rattle.mse_engine.specs.Scenes.{SourceView};
ghost use Rattle.mse_engine.specs.SourceCalls.{add_effect, set_live_effect};
ghost use Rattle.buffer_state.specs.AllCalls.{Append, call_view, input_at};
ghost use Rattle.mse_engine.specs.Calls.{advance_effect, read_effect, seek_effect};
ghost use Rattle.mse_engine.specs.Refusals.{buffer_refusal, call_refusal};
ghost use Rattle.mse_engine.specs.Standing.{Stands, kept_engine};

use crate::media_source::{MediaSource, around};
use buffer_state::BufferCall;
use media_element::Element;
use mse_base::{Moment, Ticks};
use mse_calls::{Blobs, Call, Name, Piece};
use mse_types::{TypeAnswer, read_type};
use source_buffers::SourceBuffers;
use track_store::FrameStore;

// ---- calls on the source

/// That of attaching the source.
fn attach_refusal(source: &MediaSource) -> Option<Name>
    ensures { result ≡ (after_attach source.now.state).answer }
{
    source.state.attach_refusal()
}

/// That of adding a source buffer of a type.
fn add_refusal(source: &MediaSource, text: &str) -> Option<Name>
    ensures { (c : Core) → c.source.state ≡ source.now.state
        → result ≡ (add_effect text.now c).refused }
{
    match read_type(text) {
        TypeAnswer::Empty => Some(Name::TypeError),
        TypeAnswer::Unsupported => Some(Name::NotSupported),
        TypeAnswer::Supported(_) => source.state.add_refusal(),
    }
}

/// That of removing a source buffer.
fn removal_refusal<S: FrameStore>(
    source: &MediaSource,
    buffers: &SourceBuffers<S>,
    k: u32,
) -> Option<Name>
    ensures { result ≡ (if nat_lt k (length buffers.now.buffers)
        then remove_name (after_remove_buffer k source.now.state).answer
        else Some name.NoSuchBuffer) }
{
    if !buffers.is_made(k) {
        return Some(Name::NoSuchBuffer);
    }
    source.state.remove_refusal(k)
}

/// That of setting the duration.
fn duration_refusal<S: FrameStore>(
    source: &MediaSource,
    buffers: &SourceBuffers<S>,
    duration: Moment,
) -> Option<Name>
    ensures { result ≡ duration_name (after_set_duration duration
        (all_buffers (all_kept_running buffers.now.buffers) (all_kept_media buffers.now.buffers))
        source.now.state).answer }
{
    let all = buffers.all_buffers();
    source.state.duration_refusal(duration, &all)
}

/// That of ending the stream.
fn end_refusal<S: FrameStore>(source: &MediaSource, buffers: &SourceBuffers<S>) -> Option<Name>
    ensures { result ≡ end_refusal (all_buffers (all_kept_running buffers.now.buffers)
        (all_kept_media buffers.now.buffers)).updating source.now.state }
{
    let all = buffers.all_buffers();
    source.state.end_refusal(all.updating)
}

/// That of setting the live seekable range.
fn set_live_refusal(source: &MediaSource, start: Moment, end: Moment) -> Option<Name>
    ensures { (c : Core) → c.source.state ≡ source.now.state
        → result ≡ (set_live_effect start end c).refused }
{
    let Moment::At(start) = start else {
        return Some(Name::TypeError);
    };
    let Moment::At(end) = end else {
        return Some(Name::TypeError);
    };
    source.state.set_live_refusal(start, end)
}

/// That of clearing the live seekable range.
fn clear_live_refusal(source: &MediaSource) -> Option<Name>
    ensures { result ≡ (after_clear_live source.now.state).answer }
{
    source.state.clear_live_refusal()
}

// ---- calls on a source buffer

/// That of a call on the buffer of a number.
fn buffer_refusal<S: FrameStore>(
    source: &MediaSource,
    buffers: &SourceBuffers<S>,
    element: &Element,
    k: u32,
    call: &BufferCall,
) -> Option<Name>
    ensures { (st : State) → Stands
        (kept_engine source.now buffers.now.buffers element.now.state) st
        → result ≡ buffer_refusal k
        (call_view st.element.player.position st.source.quota call.now) (core_of st) }
{
    buffers.refusal_of(k, call, &around(source, element, k))
}

/// That of an append of a piece of a blob, which is the same for all bytes that there are: never for
/// the quota, which is looked at behind an eviction.
fn append_refusal<S: FrameStore>(
    source: &MediaSource,
    buffers: &SourceBuffers<S>,
    element: &Element,
    k: u32,
    piece: &Piece,
    blobs: &Blobs,
) -> Option<Name>
    ensures { (st : State) → Stands
        (kept_engine source.now buffers.now.buffers element.now.state) st
        → result ≡ buffer_refusal k (Append (input_at st.element.player.position
        st.source.quota (bytes_of blobs.now piece.now))) (core_of st) }
{
    let bytes = match blobs.part(piece) {
        Some(_) => blobs.get(piece.blob as usize),
        None => None,
    };
    buffer_refusal(source, buffers, element, k, &BufferCall::Append(bytes))
}

/// That of reading what is buffered: a buffer is gone where it cannot be removed.
fn read_refusal<S: FrameStore>(buffers: &SourceBuffers<S>, k: u32) -> Option<Name>
    ensures { (c : Core) → AreSlotsStanding buffers.now.buffers c.buffers
        → result ≡ (read_effect k c).refused }
{
    if !buffers.is_made(k) {
        return Some(Name::NoSuchBuffer);
    }
    if buffers.removal_refusal(k).is_some() {
        return Some(Name::InvalidState);
    }
    None
}

// ---- calls on the element

/// That of a seek.
fn seek_refusal(t: Moment) -> Option<Name>
    ensures { (v : SourceView) (e : ElementState) → result ≡ (seek_effect t v e).answer }
{
    match t {
        Moment::At(_) => None,
        _ => Some(Name::TypeError),
    }
}

/// That of playing.
fn play_refusal(element: &Element) -> Option<Name>
    ensures { result ≡ (if element.now.state.player.error == 4
        then Some name.NotSupported else None) }
{
    if element.error() == 4 {
        Some(Name::NotSupported)
    } else {
        None
    }
}

/// That of letting a length of time pass.
fn advance_refusal(t: Moment) -> Option<Name>
    ensures { (v : SourceView) (e : ElementState) → result ≡ (advance_effect t v e).answer }
{
    let Moment::At(t) = t else {
        return Some(Name::TypeError);
    };
    if t < Ticks::zero() {
        Some(Name::TypeError)
    } else {
        None
    }
}

// ---- all calls

/// The name by which a call would be refused before any effect, if it would.
pub(crate) fn call_refusal<S: FrameStore>(
    source: &MediaSource,
    buffers: &SourceBuffers<S>,
    element: &Element,
    call: &Call,
    blobs: &Blobs,
) -> Option<Name>
    ensures { (st : State) → Stands
        (kept_engine source.now buffers.now.buffers element.now.state) st
        → result ≡ call_refusal blobs.now call.now st }
{
    match call {
        Call::Attach => attach_refusal(source),
        Call::AddSourceBuffer(text) => add_refusal(source, text.as_str()),
        Call::RemoveSourceBuffer(k) => removal_refusal(source, buffers, *k),
        Call::SetDuration(d) => duration_refusal(source, buffers, *d),
        Call::EndOfStream(_) => end_refusal(source, buffers),
        Call::SetLiveSeekableRange(start, end) => set_live_refusal(source, *start, *end),
        Call::ClearLiveSeekableRange => clear_live_refusal(source),
        Call::SetMode(k, mode) => {
            buffer_refusal(source, buffers, element, *k, &BufferCall::SetMode(*mode))
        }
        Call::SetTimestampOffset(k, t) => {
            buffer_refusal(source, buffers, element, *k, &BufferCall::SetOffset(*t))
        }
        Call::SetAppendWindowStart(k, t) => {
            let set = BufferCall::SetWindowStart(*t);
            buffer_refusal(source, buffers, element, *k, &set)
        }
        Call::SetAppendWindowEnd(k, t) => {
            buffer_refusal(source, buffers, element, *k, &BufferCall::SetWindowEnd(*t))
        }
        Call::AppendBuffer(k, piece) => append_refusal(source, buffers, element, *k, piece, blobs),
        Call::Abort(k) => { buffer_refusal(source, buffers, element, *k, &BufferCall::Abort) }
        Call::Remove(k, start, end) => {
            let remove = BufferCall::Remove(*start, *end);
            buffer_refusal(source, buffers, element, *k, &remove)
        }
        Call::ChangeType(k, text) => {
            let change = BufferCall::ChangeType(read_type(text.as_str()));
            buffer_refusal(source, buffers, element, *k, &change)
        }
        Call::Buffered(k) => read_refusal(buffers, *k),
        Call::Seek(t) => seek_refusal(*t),
        Call::Play => play_refusal(element),
        Call::Advance(t) => advance_refusal(*t),
        Call::Pause | Call::SourceState | Call::ElementBuffered | Call::Seekable => None,
    }
}
