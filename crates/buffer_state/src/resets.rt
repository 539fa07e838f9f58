//! Reset parser state (Media Source Extensions, 3.5.2), for `abort` and `changeType`.

ghost use Rattle.std.specs.Prelude.{◌≡◌, ◌≤◌, ◌≤ℤ◌, pos, length, false, Option, None, IfOk, OnErr};
ghost use Rattle.std.specs.List.{AllByRecursion};
ghost use Rattle.mse_base.specs.Moments.{IsNotAfter};
ghost use Rattle.mse_types.specs.declared.answer.Container.{Container};
ghost use Rattle.parser_loop.specs.Items.{answer_item};
ghost use Rattle.byte_stream.specs.Readings.{ready_at};
ghost use Rattle.byte_stream.specs.Streams.{ForEachReading, ready_of};
ghost use Rattle.track_buffers.specs.Media.{AreEndedWithin};
ghost use Rattle.track_buffers.specs.Frames.{flush_result};
ghost use Rattle.buffer_state.specs.State.{Feed, kept_buffer, ready_in, surroundings};
ghost use Rattle.buffer_state.specs.Replies.{IsDone};
ghost use Rattle.buffer_state.specs.Calls.{abort_refusal, abort_events, has_generated_timestamps, change_type_refusal_by_answer, change_type_result_after_flush};
ghost use Rattle.buffer_state.specs.AllCalls.{IsCallDone};
ghost use Rattle.buffer_state.specs.AllCalls as calls;
ghost use Rattle.buffer_state.specs.Steps.{frame_in};

use crate::buffer_context::BufferContext;
use crate::reply::{Reply, effect_reply, two};
use crate::running::Running;
use byte_stream::{ByteStream, Container, Next};
use mse_base::{CodedFrame, Moment, OutOfMemory};
use mse_calls::{Changes, EventKind, Name};
use mse_types::TypeAnswer;
use std::alloc::Global;
use track_buffers::{SourceEffect, TrackBuffers};
use track_store::FrameStore;

/// The coded frame of an item, if it is one.
fn frame_of(next: Next) -> Option<CodedFrame>
    ensures { result ≡ frame_in (answer_item next) }
{
    match next {
        Next::Frame(frame, _) => Some(frame),
        Next::Init(_, _) | Next::SegmentEnd | Next::Fault { .. } | Next::Dry => None,
    }
}

/// The coded frames that come next, up to the first item that is none.
fn ready_frames(alloc: Global, stream: &ByteStream) -> Result<Vec<CodedFrame>, OutOfMemory>
    requires { stream.now.offered ≡ None }
    ensures frames { ForEachReading stream.now (λ r.
        IfOk result (λ frames. frames.items ≡ ready_at r)) }
    ensures at_most_ready { IfOk result (λ frames. length frames.items ≤ ready_of stream.now) }
    ensures dur_not_negative { IfOk result (λ frames.
        AllByRecursion (λ f. pos 0 ≤ℤ f.dur) frames.items) }
{
    let mut frames = Vec::new(alloc);
    for i in 0..stream.ready_frames() {
        let next = stream.look(i)?;
        match frame_of(next) {
            Some(frame) => frames.push(frame)?,
            None => {}
        }
    }
    Ok(frames)
}

/// Processes the coded frames that are ready. It takes its memory first.
fn flush<S: FrameStore>(
    alloc: Global,
    stream: &ByteStream,
    media: &mut TrackBuffers<S>,
    duration: Moment,
) -> Result<SourceEffect, OutOfMemory>
    requires { stream.now.offered ≡ None }
    ensures flush_result { ForEachReading stream.now (λ r.
        IfOk result (λ effect. flush_result (ready_at r) media.old.media duration
        ≡ record { media = media.new.media; effect = effect })) }
    ensures within_duration { IfOk result (λ effect. AreEndedWithin duration media.old.media.tracks
        → AreEndedWithin effect.duration media.new.media.tracks) }
    ensures changes { IfOk result (λ effect. effect.duration_changes ≤ ready_of stream.now) }
    ensures unchanged { IfOk result (λ effect. ready_of stream.now ≡ 0
        → effect.duration ≡ duration) }
    ensures no_fall { IfOk result (λ effect. IsNotAfter duration effect.duration) }
    ensures no_init { IfOk result (λ effect. effect.received_init ≡ false) }
    ensures err { OnErr result (media.new.media ≡ media.old.media) }
{
    let frames = ready_frames(alloc, stream)?;
    media.reserve_frames(frames.len())?;
    Ok(media.flush(frames, duration))
}

/// What is fired where running work is aborted; nothing where none runs.
pub(crate) fn abort_events(running: bool) -> Changes
    ensures { result ≡ abort_events running }
{
    if running {
        two(EventKind::Abort, EventKind::UpdateEnd)
    } else {
        Changes::new()
    }
}

/// The refusal of an abort.
pub(crate) fn abort_refusal(running: &Running, around: &BufferContext) -> Option<Name>
    ensures { (f : Feed) → running.now ≡ f.running
        → result ≡ abort_refusal (surroundings around.now) f }
{
    if !around.ready.is_open() || running.is_removing() {
        Some(Name::InvalidState)
    } else {
        None
    }
}

/// `SourceBuffer.abort`.
pub(crate) fn abort<S: FrameStore>(
    alloc: Global,
    stream: &mut ByteStream,
    media: &mut TrackBuffers<S>,
    running: &mut Running,
    around: &BufferContext,
) -> Result<Reply, OutOfMemory>
    requires { stream.old.offered ≡ None }
    ensures done { IfOk result (λ reply. IsCallDone calls.Abort (surroundings around.now)
        (kept_buffer stream.old media.old.media running.old) reply
        (kept_buffer stream.new media.new.media running.new)) }
    ensures none_offered { stream.new.offered ≡ None }
    ensures err { OnErr result (kept_buffer stream.new media.new.media running.new
        ≡ kept_buffer stream.old media.old.media running.old) }
{
    if let Some(name) = abort_refusal(running, around) {
        return Ok(Reply::refused(name, false, &around.duration));
    }
    let effect = flush(alloc, stream, media, around.duration)?;
    let events = abort_events(running.is_appending());
    media.reset_parser();
    media.reset_window();
    stream.reset();
    *running = Running::Nothing;
    Ok(effect_reply(false, effect, events))
}

/// Whether the byte stream format of a container generates timestamps.
pub(crate) fn has_generated_timestamps(container: Container) -> bool
    ensures { result ≡ has_generated_timestamps container }
{
    match container {
        Container::Mp4 => false,
        Container::Adts => true,
    }
}

/// Takes a new type: the coded frames that are ready are processed, and the string is dropped.
fn take_type<S: FrameStore>(
    alloc: Global,
    stream: &mut ByteStream,
    media: &mut TrackBuffers<S>,
    container: Container,
    around: &BufferContext,
) -> Result<Reply, OutOfMemory>
    requires { stream.old.offered ≡ None }
    ensures done { IfOk result (λ reply. IsDone
        (λ f c. change_type_result_after_flush container
        (flush_result (ready_in f) c.media around.now.duration) (surroundings around.now))
        (ready_of stream.old) around.now.duration
        (kept_buffer stream.old media.old.media Running.Nothing) reply
        (kept_buffer stream.new media.new.media Running.Nothing)) }
    ensures none_offered { stream.new.offered ≡ None }
    ensures err { OnErr result ((stream.new ≡ stream.old) × (media.new.media ≡ media.old.media)) }
{
    let effect = flush(alloc, stream, media, around.duration)?;
    media.reset_parser();
    media.change_container(has_generated_timestamps(container));
    stream.restart(container);
    Ok(effect_reply(around.ready.is_ended(), effect, Changes::new()))
}

/// The refusal of a change of type.
pub(crate) fn change_type_refusal(running: &Running, answer: TypeAnswer) -> Option<Name>
    ensures { (f : Feed) → running.now ≡ f.running
        → result ≡ change_type_refusal_by_answer answer f }
{
    if let TypeAnswer::Empty = answer {
        return Some(Name::TypeError);
    }
    if running.is_updating() {
        return Some(Name::InvalidState);
    }
    match answer {
        TypeAnswer::Supported(_) => None,
        TypeAnswer::Empty | TypeAnswer::Unsupported => Some(Name::NotSupported),
    }
}

/// `SourceBuffer.changeType`.
pub(crate) fn change_type<S: FrameStore>(
    alloc: Global,
    stream: &mut ByteStream,
    media: &mut TrackBuffers<S>,
    running: &Running,
    answer: TypeAnswer,
    around: &BufferContext,
) -> Result<Reply, OutOfMemory>
    requires { stream.old.offered ≡ None }
    ensures done { IfOk result (λ reply. IsCallDone (calls.ChangeType answer)
        (surroundings around.now) (kept_buffer stream.old media.old.media running.now) reply
        (kept_buffer stream.new media.new.media running.now)) }
    ensures none_offered { stream.new.offered ≡ None }
    ensures err { OnErr result (kept_buffer stream.new media.new.media running.now
        ≡ kept_buffer stream.old media.old.media running.now) }
{
    if let TypeAnswer::Empty = answer {
        return Ok(Reply::refused(Name::TypeError, false, &around.duration));
    }
    if running.is_updating() {
        return Ok(Reply::refused(Name::InvalidState, false, &around.duration));
    }
    match answer {
        TypeAnswer::Supported(container) => take_type(alloc, stream, media, container, around),
        TypeAnswer::Empty | TypeAnswer::Unsupported => {
            Ok(Reply::refused(Name::NotSupported, false, &around.duration))
        }
    }
}
