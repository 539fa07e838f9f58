//! One step of the running work of a source buffer (Media Source Extensions, 3.5.5 and 3.5.6).

ghost use Rattle.std.specs.Prelude.{◌≡◌, ◌<◌, ◌≤◌, false, Option, Some, None, IfOk, OnOk, OnErr, IfSome};
ghost use Rattle.mse_base.specs.declared.ticks.Moment.{Moment};
ghost use Rattle.mse_base.specs.Moments.{IsNotAfter};
ghost use Rattle.mse_base.specs.declared.track.Presentation.{Presentation};
ghost use Rattle.parser_loop.specs.Items.{InitItem, latest_after_any, answer_item};
ghost use Rattle.byte_stream.specs.Readings.{IsLasting};
ghost use Rattle.byte_stream.specs.Readings as reading;
ghost use Rattle.byte_stream.specs.Streams.{ForEachReading, HasReading, StreamView, ready_of};
ghost use Rattle.track_buffers.specs.Effects.{media_result, source_effect};
ghost use Rattle.track_buffers.specs.Media.{Media, AreEndedWithin};
ghost use Rattle.buffer_state.specs.State.{Content, kept_buffer, next_item, surroundings};
ghost use Rattle.buffer_state.specs.Replies.{IsBufferAnswer, IsBufferAnswerIfOk, IsReplyKeptUnlessDid, IsStillWithin, IsTurnIfOk, changes_of, reply_of};
ghost use Rattle.buffer_state.specs.Turns.{append_turn_result, removal_turn_result, media_item_result};
ghost use Rattle.buffer_state.specs.Steps.{IsReadyFor, IsPrepared, IsLeftByStep, Took, content_at, step_result, step_of_item, duration_after, changes_after, step_turn};
ghost use Rattle.buffer_state.specs.StepsLeft.{IsFewer, IsIdle, steps_left};

use crate::buffer_context::BufferContext;
use crate::faults::{Fault, fault_view};
use crate::reply::{Reply, Turned, effect_reply, error_reply, event_reply, two};
use crate::running::Running;
use byte_stream::{ByteStream, Next};
use mse_base::{Moment, OutOfMemory, Presentation, Ticks};
use mse_calls::{Changes, EventKind};
use track_buffers::{
    MediaEffect, MediaFault, SourceEffect, TrackBuffers, media_track_count, no_effect,
};
use track_store::FrameStore;

/// What the next item did.
#[derive(Clone, Copy, Debug)]
pub(crate) enum ItemEffect {
    /// There was none.
    NoItem,
    /// It went well.
    Done(SourceEffect),
    /// It breaks the byte stream, at an offset.
    AppendError(Fault, u64, SourceEffect),
}

/// The step of a place of the string that did this to the media.
fn step_at(effect: MediaEffect, offset: u64) -> ItemEffect
    ensures step { (m : Media) (latest : Option Presentation) (c : Content)
        → step_result result (content_at m latest c effect) ≡ Took
        (media_item_result (media_result effect m) offset latest c) }
    ensures duration { (d : Moment) → duration_after result d ≡ (source_effect effect).duration }
    ensures changes { changes_after result ≡ (source_effect effect).duration_changes }
{
    match effect {
        MediaEffect::Done(effect) => ItemEffect::Done(effect),
        MediaEffect::AppendError(fault, effect) => {
            ItemEffect::AppendError(Fault::Media(fault), offset, effect)
        }
    }
}

/// Prepares an initialization segment that comes next: it makes room for the tracks of the first,
/// or finds the fault by which the segment is refused.
fn prepare_init<S: FrameStore>(
    media: &mut TrackBuffers<S>,
    presentation: &Presentation,
    offset: u64,
    duration: Moment,
) -> Result<Option<ItemEffect>, OutOfMemory>
    ensures media { media.new.media ≡ media.old.media }
    ensures prepared { IfOk result (λ o. IsPrepared o (Some (InitItem presentation.now offset))
        media.new duration) }
    ensures no_fall { IfOk result (λ o. IfSome o
        (λ step. IsNotAfter duration (duration_after step duration))) }
    ensures changes { IfOk result (λ o. IfSome o (λ step. changes_after step ≤ 1)) }
{
    if media.init_fault(presentation).is_some() {
        let effect = media.receive(presentation, duration);
        return Ok(Some(step_at(effect, offset)));
    }
    media.reserve_tracks(media_track_count(presentation))?;
    Ok(None)
}

/// Prepares the next item where it is no coded frame, before it is taken: it makes room for what the
/// item stores, or finds the fault by which it is refused.
fn prepare<S: FrameStore>(
    stream: &ByteStream,
    media: &mut TrackBuffers<S>,
    duration: Moment,
) -> Result<Option<ItemEffect>, OutOfMemory>
    requires none_offered { stream.now.offered ≡ None }
    requires none_ready { ready_of stream.now ≡ 0 }
    ensures media { media.new.media ≡ media.old.media }
    ensures prepared { ForEachReading stream.now (λ r.
        IfOk result (λ o. IsPrepared o (reading.next_item r) media.new duration)) }
    ensures no_fall { IfOk result (λ o. IfSome o
        (λ step. IsNotAfter duration (duration_after step duration))) }
    ensures changes { IfOk result (λ o. IfSome o (λ step. changes_after step ≤ 1)) }
{
    match stream.look(0)? {
        Next::Init(presentation, offset) => prepare_init(media, &presentation, offset, duration),
        _ => Ok(None),
    }
}

/// What an item that is prepared does to the media.
fn take_item<S: FrameStore>(media: &mut TrackBuffers<S>, next: Next, duration: Moment) -> ItemEffect
    requires prepared { IsReadyFor (answer_item next) media.old }
    requires dur_not_negative { IfSome (answer_item next) IsLasting }
    ensures step { (latest : Option Presentation) → step_result result
        (record { media = media.new.media; latest = latest_after_any latest (answer_item next) })
        ≡ step_of_item (answer_item next) (record {
          media = media.old.media;
          latest = latest;
        }) duration }
    ensures within_duration { AreEndedWithin duration media.old.media.tracks
        → AreEndedWithin (duration_after result duration) media.new.media.tracks }
    ensures no_fall { IsNotAfter duration (duration_after result duration) }
    ensures changes { changes_after result ≤ 1 }
{
    match next {
        Next::Dry => ItemEffect::NoItem,
        Next::Init(presentation, offset) => {
            step_at(media.receive(&presentation, duration), offset)
        }
        Next::Frame(frame, offset) => step_at(media.process(frame, duration), offset),
        Next::SegmentEnd => ItemEffect::Done(no_effect(&duration)),
        Next::Fault { fault, offset } => {
            ItemEffect::AppendError(Fault::Bytes(fault), offset, no_effect(&duration))
        }
    }
}

/// What comes of a step of an append.
fn answer<S: FrameStore>(
    stream: &mut ByteStream,
    media: &mut TrackBuffers<S>,
    running: &mut Running,
    step: ItemEffect,
    around: &BufferContext,
) -> Reply
    requires { stream.old.offered ≡ None }
    ensures answered { IsBufferAnswer (kept_buffer stream.old media.old.media running.old) result
        (kept_buffer stream.new media.new.media running.new)
        (step_turn step (surroundings around.now)) }
    ensures within_duration { (d : Moment) → AreEndedWithin d media.old.media.tracks
        → AreEndedWithin d media.new.media.tracks }
    ensures duration { result.duration ≡ duration_after step around.now.duration }
    ensures changes { result.duration_changes ≡ changes_after step }
    ensures leaves { IsLeftByStep step stream.old running.old stream.new running.new }
    ensures none_offered { stream.new.offered ≡ None }
{
    match step {
        ItemEffect::NoItem => {
            *running = Running::Nothing;
            let events = two(EventKind::Update, EventKind::UpdateEnd);
            event_reply(false, &around.duration, events)
        }
        ItemEffect::Done(effect) => effect_reply(false, effect, Changes::new()),
        ItemEffect::AppendError(fault, offset, effect) => {
            media.reset_parser();
            stream.reset();
            *running = Running::Nothing;
            error_reply(fault_view(fault, around.number, offset), effect)
        }
    }
}

/// The step of an append whose next item is no coded frame that is ready. It is apart, since what it
/// keeps on the stack is much, and a step that processes a ready frame needs none of it.
#[cold]
#[inline(never)]
fn item_turn<S: FrameStore>(
    stream: &mut ByteStream,
    media: &mut TrackBuffers<S>,
    running: &mut Running,
    around: &BufferContext,
) -> Result<Reply, OutOfMemory>
    requires none_offered { stream.old.offered ≡ None }
    requires none_ready { ready_of stream.old ≡ 0 }
    requires stands { HasReading stream.old }
    requires appending { running.old ≡ Running.Append }
    ensures answered { IsBufferAnswerIfOk
        (kept_buffer stream.old media.old.media running.old) result
        (kept_buffer stream.new media.new.media running.new)
        (λ f c. append_turn_result (next_item f) (surroundings around.now) f c) }
    ensures within_duration { IfOk result
        (λ reply. IsStillWithin around.now.duration media.old.media reply media.new.media) }
    ensures no_fall { IfOk result (λ reply. IsNotAfter around.now.duration reply.duration) }
    ensures changes { IfOk result (λ reply. reply.duration_changes ≤ 1) }
    ensures fewer { OnOk result
        (steps_left (kept_buffer stream.new media.new.media running.new) < steps_left
        (kept_buffer stream.old media.old.media running.old)) }
    ensures none_offered { stream.new.offered ≡ None }
    ensures err { OnErr result (kept_buffer stream.new media.new.media running.new
        ≡ kept_buffer stream.old media.old.media running.old) }
{
    match prepare(stream, media, around.duration)? {
        Some(step) => Ok(answer(stream, media, running, step, around)),
        None => {
            let next = stream.next()?;
            let step = take_item(media, next, around.duration);
            Ok(answer(stream, media, running, step, around))
        }
    }
}

/// What comes of a ready coded frame at an offset that breaks the byte stream. It is apart, as
/// `item_turn` is.
#[cold]
#[inline(never)]
fn frame_fault<S: FrameStore>(
    stream: &mut ByteStream,
    media: &mut TrackBuffers<S>,
    running: &mut Running,
    fault: MediaFault,
    offset: u64,
    effect: SourceEffect,
    around: &BufferContext,
) -> Reply
    requires { stream.old.offered ≡ None }
    ensures answered { IsBufferAnswer (kept_buffer stream.old media.old.media running.old) result
        (kept_buffer stream.new media.new.media running.new)
        (step_turn (ItemEffect.AppendError (Fault.Media fault) offset effect)
        (surroundings around.now)) }
    ensures within_duration { (d : Moment) → AreEndedWithin d media.old.media.tracks
        → AreEndedWithin d media.new.media.tracks }
    ensures duration { result.duration ≡ effect.duration }
    ensures changes { result.duration_changes ≡ effect.duration_changes }
    ensures leaves { IsLeftByStep (ItemEffect.AppendError (Fault.Media fault) offset effect)
        stream.old running.old stream.new running.new }
    ensures none_offered { stream.new.offered ≡ None }
{
    let step = ItemEffect::AppendError(Fault::Media(fault), offset, effect);
    answer(stream, media, running, step, around)
}

/// One step of an append, as [`Buffer::turn`](crate::Buffer::turn).
pub(crate) fn append_turn<S: FrameStore>(
    stream: &mut ByteStream,
    media: &mut TrackBuffers<S>,
    running: &mut Running,
    around: &BufferContext,
    reply: &mut Reply,
) -> Result<Turned, OutOfMemory>
    requires none_offered { stream.old.offered ≡ None }
    requires appending { running.old ≡ Running.Append }
    ensures answered { IsTurnIfOk around.now.duration reply.new
        (kept_buffer stream.old media.old.media running.old) result
        (kept_buffer stream.new media.new.media running.new)
        (λ f c. Some (append_turn_result (next_item f) (surroundings around.now) f c)) }
    ensures idle { IfOk result (λ turned. IsIdle (reply_of around.now.duration reply.new turned)
        (kept_buffer stream.old media.old.media running.old)
        (kept_buffer stream.new media.new.media running.new)) }
    ensures within_duration { IfOk result
        (λ turned. IfSome (reply_of around.now.duration reply.new turned)
        (λ reply. IsStillWithin around.now.duration media.old.media reply media.new.media)) }
    ensures no_fall { IfOk result (λ turned. IfSome (reply_of around.now.duration reply.new turned)
        (λ reply. IsNotAfter around.now.duration reply.duration)) }
    ensures changes { IfOk result
        (λ turned. changes_of (reply_of around.now.duration reply.new turned) ≤ 1) }
    ensures fewer { IfOk result (λ turned. IsFewer (reply_of around.now.duration reply.new turned)
        (kept_buffer stream.old media.old.media running.old)
        (kept_buffer stream.new media.new.media running.new)) }
    ensures none_offered { stream.new.offered ≡ None }
    ensures kept { IsReplyKeptUnlessDid result reply.old reply.new }
    ensures err { OnErr result (kept_buffer stream.new media.new.media running.new
        ≡ kept_buffer stream.old media.old.media running.old) }
{
    // The proof reads off this that the stream stands for some string.
    stream.stands();
    if stream.ready_frames() > 0 {
        media.reserve_frames(1)?;
        // `?` would move the frame twice more
        let Ok((frame, offset)) = stream.next_frame() else {
            return Err(OutOfMemory);
        };
        // what is buffered at the position is looked up behind the step
        media.watch(around.position);
        return match media.process(frame, around.duration) {
            MediaEffect::Done(effect) => {
                if effect == no_effect(&around.duration) {
                    Ok(Turned::Quiet)
                } else {
                    *reply = effect_reply(false, effect, Changes::new());
                    Ok(Turned::Did)
                }
            }
            MediaEffect::AppendError(fault, effect) => {
                *reply = frame_fault(stream, media, running, fault, offset, effect, around);
                Ok(Turned::Did)
            }
        };
    }
    *reply = item_turn(stream, media, running, around)?;
    Ok(Turned::Did)
}

/// A removal, in one step. It is apart, as `item_turn` is.
#[cold]
#[inline(never)]
pub(crate) fn removal_turn<S: FrameStore>(
    media: &mut TrackBuffers<S>,
    running: &mut Running,
    start: Ticks,
    end: Moment,
    around: &BufferContext,
) -> Reply
    ensures answered { (stream : StreamView)
        → IsBufferAnswer (kept_buffer stream media.old.media running.old) result
        (kept_buffer stream media.new.media running.new) (removal_turn_result start end
        (surroundings around.now)) }
    ensures within_duration { IsStillWithin around.now.duration media.old.media result
        media.new.media }
    ensures changes { result.duration_changes ≡ 0 }
    ensures duration { result.duration ≡ around.now.duration }
    ensures no_init { result.received_init ≡ false }
    ensures nothing_runs { running.new ≡ Running.Nothing }
{
    media.remove(start, end, around.duration);
    *running = Running::Nothing;
    let events = two(EventKind::Update, EventKind::UpdateEnd);
    event_reply(false, &around.duration, events)
}
