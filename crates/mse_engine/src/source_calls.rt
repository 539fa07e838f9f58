//! The calls on the media source (Media Source Extensions, 2.2).

ghost use Rattle.std.specs.Prelude.{◌≡◌, ◌≤◌, ◌+◌, []};
ghost use Rattle.mse_base.specs.declared.ticks.Moment.{Moment};
ghost use Rattle.mse_calls.specs.declared.answers.Answer.TheVariants.{Done};
ghost use Rattle.mse_calls.specs.declared.calls.Call.TheVariants as call;
ghost use Rattle.mse_types.specs.declared.answer.TypeAnswer.TheVariants.{Supported};
ghost use Rattle.source_state.specs.declared.answers.Changed.TheVariants.{To};
ghost use Rattle.media_element.specs.Queueing.{with_events};
ghost use Rattle.mse_engine.specs.State.{core_of};
ghost use Rattle.mse_engine.specs.Signals.{DurationChanged, after_signal, after_signals};
ghost use Rattle.mse_engine.specs.SourceCalls.{add_effect_of, change_signals, inactive_events};
ghost use Rattle.mse_engine.specs.Calls.{after_call, after_call_by, refused_or, no_element_effect};
ghost use Rattle.mse_engine.specs.Standing.{IsSteady, kept_engine, view_of};
ghost use Rattle.mse_engine.specs.EngineCalls.{IsEngineCall};

use crate::finish::{PLACES, event, settle};
use crate::media_source::{MediaSource, around};
use crate::scenes;
use media_element::Element;
use mse_base::{Moment, OutOfMemory};
use mse_calls::{Answer, EndKind, EventKind, Name, Target};
use mse_types::{Container, TypeAnswer, read_type};
use source_buffers::SourceBuffers;
use source_state::{Added, Changed, Removed};
use track_store::FrameStore;

/// The answer of a call that may be refused and tells nothing else.
pub(crate) fn answer_by(refusal: Option<Name>) -> Answer
    ensures { result ≡ refused_or refusal Done }
{
    match refusal {
        Some(name) => Answer::Refused(name),
        None => Answer::Done,
    }
}

/// Attaches the source to the element.
pub(crate) fn attach<S: FrameStore>(
    source: &mut MediaSource,
    buffers: &SourceBuffers<S>,
    element: &mut Element,
) -> Result<Answer, OutOfMemory>
    requires steady { IsSteady (kept_engine source.old buffers.now.buffers element.old.state) }
    ensures { IsEngineCall (kept_engine source.old buffers.now.buffers element.old.state) result
        (kept_engine source.new buffers.now.buffers element.new.state) (after_call [] call.Attach) }
{
    element.reserve(PLACES)?;
    if let Some(name) = source.state.attach() {
        return Ok(Answer::Refused(name));
    }
    element.tell(event(Target::Source, EventKind::SourceOpen));
    settle(source, buffers, element);
    Ok(Answer::Done)
}

/// Adds a source buffer of a container.
fn add<S: FrameStore>(
    source: &mut MediaSource,
    buffers: &mut SourceBuffers<S>,
    element: &mut Element,
    container: Container,
) -> Result<Answer, OutOfMemory>
    requires steady { IsSteady (kept_engine source.old buffers.old.buffers element.old.state) }
    ensures { IsEngineCall (kept_engine source.old buffers.old.buffers element.old.state) result
        (kept_engine source.new buffers.new.buffers element.new.state)
        (λ st. after_call_by (add_effect_of (Supported container) (core_of st))
        (no_element_effect st.element) Done) }
{
    element.reserve(PLACES)?;
    buffers.reserve(1)?;
    match source.state.add_buffer()? {
        Added::Refused(name) => Ok(Answer::Refused(name)),
        Added::Number(_) => {
            buffers.add_reserved(source.gap, container);
            element.tell(event(Target::SourceBuffers, EventKind::AddSourceBuffer));
            settle(source, buffers, element);
            Ok(Answer::Done)
        }
    }
}

/// Adds a source buffer of a type.
pub(crate) fn add_source_buffer<S: FrameStore>(
    source: &mut MediaSource,
    buffers: &mut SourceBuffers<S>,
    element: &mut Element,
    text: &str,
) -> Result<Answer, OutOfMemory>
    requires steady { IsSteady (kept_engine source.old buffers.old.buffers element.old.state) }
    ensures { IsEngineCall (kept_engine source.old buffers.old.buffers element.old.state) result
        (kept_engine source.new buffers.new.buffers element.new.state)
        (after_call [] (call.AddSourceBuffer text.now)) }
{
    match read_type(text) {
        TypeAnswer::Empty => Ok(Answer::Refused(Name::TypeError)),
        TypeAnswer::Unsupported => Ok(Answer::Refused(Name::NotSupported)),
        TypeAnswer::Supported(container) => add(source, buffers, element, container),
    }
}

/// Tells of a buffer that leaves the active ones, where it was there.
fn tell_inactive(element: &mut Element, active: bool)
    requires { 1 ≤ element.old.spare }
    ensures state { element.new.state ≡ with_events (inactive_events active) element.old.state }
    ensures spare { element.old.spare ≤ element.new.spare + 1 }
{
    if active {
        element.tell(event(Target::ActiveSourceBuffers, EventKind::RemoveSourceBuffer));
    }
}

/// Removes a source buffer.
pub(crate) fn remove_source_buffer<S: FrameStore>(
    source: &mut MediaSource,
    buffers: &mut SourceBuffers<S>,
    element: &mut Element,
    k: u32,
) -> Result<Answer, OutOfMemory>
    requires steady { IsSteady (kept_engine source.old buffers.old.buffers element.old.state) }
    ensures { IsEngineCall (kept_engine source.old buffers.old.buffers element.old.state) result
        (kept_engine source.new buffers.new.buffers element.new.state)
        (after_call [] (call.RemoveSourceBuffer k)) }
{
    if !buffers.is_made(k) {
        return Ok(Answer::Refused(Name::NoSuchBuffer));
    }
    element.reserve(PLACES)?;
    let around = around(source, element, k);
    match source.state.remove_buffer(k) {
        Removed::Refused(name) => Ok(Answer::Refused(name)),
        Removed::Gone { active } => {
            let reply = buffers.remove(k, &around);
            element.tell_kinds(Target::Buffer(k), &reply.events);
            tell_inactive(element, active);
            element.tell(event(Target::SourceBuffers, EventKind::RemoveSourceBuffer));
            settle(source, buffers, element);
            Ok(Answer::Done)
        }
    }
}

/// Tells the element that the duration was changed to this one, which it is now. It seeks only where
/// that is a time, and then what can be sought does not depend on what is buffered.
fn tell_duration<S: FrameStore>(
    source: &MediaSource,
    buffers: &SourceBuffers<S>,
    element: &mut Element,
    duration: Moment,
)
    requires room { 2 ≤ element.old.spare }
    requires duration_told { source.now.state.duration ≡ duration }
    ensures state { element.new.state
        ≡ after_signal (view_of source.now buffers.now.buffers)
        (DurationChanged duration) element.old.state }
    ensures spare { element.old.spare ≤ element.new.spare + 2 }
{
    let seekable = source.state.seekable(None, None);
    let scene = scenes::scene(source, buffers, element, seekable);
    element.change_duration(duration, &scene);
}

/// Tells the element what came of the duration.
fn tell_change<S: FrameStore>(
    source: &MediaSource,
    buffers: &SourceBuffers<S>,
    element: &mut Element,
    change: Changed,
)
    requires room { 2 ≤ element.old.spare }
    requires duration_told { (d : Moment) → change ≡ To d → source.now.state.duration ≡ d }
    ensures state { element.new.state
        ≡ after_signals (view_of source.now buffers.now.buffers)
        (change_signals change) element.old.state }
    ensures spare { element.old.spare ≤ element.new.spare + 2 }
{
    if let Changed::To(duration) = change {
        tell_duration(source, buffers, element, duration);
    }
}

/// Sets the duration.
pub(crate) fn set_duration<S: FrameStore>(
    source: &mut MediaSource,
    buffers: &SourceBuffers<S>,
    element: &mut Element,
    duration: Moment,
) -> Result<Answer, OutOfMemory>
    requires steady { IsSteady (kept_engine source.old buffers.now.buffers element.old.state) }
    ensures { IsEngineCall (kept_engine source.old buffers.now.buffers element.old.state) result
        (kept_engine source.new buffers.now.buffers element.new.state)
        (after_call [] (call.SetDuration duration)) }
{
    element.reserve(PLACES)?;
    let all = buffers.all_buffers();
    let change = source.state.set_duration(duration, &all);
    if let Changed::Refused(name) = change {
        return Ok(Answer::Refused(name));
    }
    tell_change(source, buffers, element, change);
    settle(source, buffers, element);
    Ok(Answer::Done)
}

/// Ends the stream.
pub(crate) fn end_of_stream<S: FrameStore>(
    source: &mut MediaSource,
    buffers: &SourceBuffers<S>,
    element: &mut Element,
    kind: EndKind,
) -> Result<Answer, OutOfMemory>
    requires steady { IsSteady (kept_engine source.old buffers.now.buffers element.old.state) }
    ensures { IsEngineCall (kept_engine source.old buffers.now.buffers element.old.state) result
        (kept_engine source.new buffers.now.buffers element.new.state)
        (after_call [] (call.EndOfStream kind)) }
{
    element.reserve(PLACES)?;
    let all = buffers.all_buffers();
    if let Some(name) = source.state.end_refusal(all.updating) {
        return Ok(Answer::Refused(name));
    }
    let change = source.state.end(kind, all.highest_end);
    element.tell(event(Target::Source, EventKind::SourceEnded));
    tell_change(source, buffers, element, change);
    element.fail(kind);
    settle(source, buffers, element);
    Ok(Answer::Done)
}

/// Sets the live seekable range.
pub(crate) fn set_live<S: FrameStore>(
    source: &mut MediaSource,
    buffers: &SourceBuffers<S>,
    element: &mut Element,
    start: Moment,
    end: Moment,
) -> Result<Answer, OutOfMemory>
    requires steady { IsSteady (kept_engine source.old buffers.now.buffers element.old.state) }
    ensures { IsEngineCall (kept_engine source.old buffers.now.buffers element.old.state) result
        (kept_engine source.new buffers.now.buffers element.new.state)
        (after_call [] (call.SetLiveSeekableRange start end)) }
{
    let Moment::At(start) = start else {
        return Ok(Answer::Refused(Name::TypeError));
    };
    let Moment::At(end) = end else {
        return Ok(Answer::Refused(Name::TypeError));
    };
    element.reserve(PLACES)?;
    let refusal = source.state.set_live(start, end);
    settle(source, buffers, element);
    Ok(answer_by(refusal))
}

/// Clears the live seekable range.
pub(crate) fn clear_live<S: FrameStore>(
    source: &mut MediaSource,
    buffers: &SourceBuffers<S>,
    element: &mut Element,
) -> Result<Answer, OutOfMemory>
    requires steady { IsSteady (kept_engine source.old buffers.now.buffers element.old.state) }
    ensures { IsEngineCall (kept_engine source.old buffers.now.buffers element.old.state) result
        (kept_engine source.new buffers.now.buffers element.new.state)
        (after_call [] call.ClearLiveSeekableRange) }
{
    element.reserve(PLACES)?;
    let refusal = source.state.clear_live();
    settle(source, buffers, element);
    Ok(answer_by(refusal))
}
