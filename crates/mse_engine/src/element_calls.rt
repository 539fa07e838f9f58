//! The calls on the element (HTML, media elements), and what is read.

ghost use Rattle.std.specs.Prelude.{◌≡◌, []};
ghost use Rattle.mse_calls.specs.declared.calls.Call.TheVariants as call;
ghost use Rattle.media_element.specs.State.{ElementState};
ghost use Rattle.mse_engine.specs.State.{State};
ghost use Rattle.mse_engine.specs.Calls.{after_call, state_view};
ghost use Rattle.mse_engine.specs.Standing.{IsSteady, kept_engine};
ghost use Rattle.mse_engine.specs.EngineCalls.{IsEngineCall, IsEngineRead};

use crate::finish::{PLACES, settle};
use crate::media_source::MediaSource;
use crate::scenes;
use crate::source_calls::answer_by;
use media_element::Element;
use mse_base::{Moment, OutOfMemory};
use mse_calls::{Answer, Name, StateView, TimeRanges};
use source_buffers::SourceBuffers;
use track_store::FrameStore;

/// Seeks to a time.
pub(crate) fn seek<S: FrameStore>(
    source: &MediaSource,
    buffers: &SourceBuffers<S>,
    element: &mut Element,
    t: Moment,
) -> Result<Answer, OutOfMemory>
    requires steady { IsSteady (kept_engine source.now buffers.now.buffers element.old.state) }
    ensures { IsEngineCall (kept_engine source.now buffers.now.buffers element.old.state) result
        (kept_engine source.now buffers.now.buffers element.new.state)
        (after_call [] (call.Seek t)) }
{
    let Moment::At(t) = t else {
        return Ok(Answer::Refused(Name::TypeError));
    };
    element.reserve(PLACES)?;
    let seekable = scenes::seekable(source, buffers)?;
    let scene = scenes::scene(source, buffers, element, seekable);
    element.seek(t, &scene);
    settle(source, buffers, element);
    Ok(Answer::Done)
}

/// Plays.
pub(crate) fn play<S: FrameStore>(
    source: &MediaSource,
    buffers: &SourceBuffers<S>,
    element: &mut Element,
) -> Result<Answer, OutOfMemory>
    requires steady { IsSteady (kept_engine source.now buffers.now.buffers element.old.state) }
    ensures { IsEngineCall (kept_engine source.now buffers.now.buffers element.old.state) result
        (kept_engine source.now buffers.now.buffers element.new.state) (after_call [] call.Play) }
{
    element.reserve(PLACES)?;
    let seekable = scenes::seekable(source, buffers)?;
    let scene = scenes::scene(source, buffers, element, seekable);
    let refusal = element.play(&scene);
    settle(source, buffers, element);
    Ok(answer_by(refusal))
}

/// Pauses.
pub(crate) fn pause<S: FrameStore>(
    source: &MediaSource,
    buffers: &SourceBuffers<S>,
    element: &mut Element,
) -> Result<Answer, OutOfMemory>
    requires steady { IsSteady (kept_engine source.now buffers.now.buffers element.old.state) }
    ensures { IsEngineCall (kept_engine source.now buffers.now.buffers element.old.state) result
        (kept_engine source.now buffers.now.buffers element.new.state) (after_call [] call.Pause) }
{
    element.reserve(PLACES)?;
    element.pause();
    settle(source, buffers, element);
    Ok(Answer::Done)
}

/// Lets a length of time pass.
pub(crate) fn advance<S: FrameStore>(
    source: &MediaSource,
    buffers: &SourceBuffers<S>,
    element: &mut Element,
    t: Moment,
) -> Result<Answer, OutOfMemory>
    requires steady { IsSteady (kept_engine source.now buffers.now.buffers element.old.state) }
    ensures { IsEngineCall (kept_engine source.now buffers.now.buffers element.old.state) result
        (kept_engine source.now buffers.now.buffers element.new.state)
        (after_call [] (call.Advance t)) }
{
    let Moment::At(t) = t else {
        return Ok(Answer::Refused(Name::TypeError));
    };
    element.reserve(PLACES)?;
    let scene = scenes::scene(source, buffers, element, None);
    let refusal = element.advance(t, &scene);
    settle(source, buffers, element);
    Ok(answer_by(refusal))
}

/// The state of the source and of the element.
pub(crate) fn state_view(source: &MediaSource, element: &Element) -> StateView
    ensures { (st : State) → source.now ≡ st.source → element.now.state ≡ st.element
        → result ≡ state_view st }
{
    StateView {
        source: source.state.ready(),
        duration: source.state.duration(),
        level: element.level(),
        position: element.position(),
        paused: element.paused(),
        seeking: element.seeking(),
        error: element.error(),
    }
}

/// What is buffered at the element.
pub(crate) fn element_buffered<S: FrameStore>(
    source: &MediaSource,
    buffers: &SourceBuffers<S>,
) -> Result<Answer, OutOfMemory>
    ensures { (e : ElementState) → IsEngineRead (kept_engine source.now buffers.now.buffers e)
        result (after_call [] call.ElementBuffered) }
{
    let ranges = scenes::buffered(source, buffers)?;
    Ok(Answer::Ranges(TimeRanges::new(ranges)))
}

/// What can be sought.
pub(crate) fn seekable<S: FrameStore>(
    source: &MediaSource,
    buffers: &SourceBuffers<S>,
) -> Result<Answer, OutOfMemory>
    ensures { (e : ElementState) → IsEngineRead (kept_engine source.now buffers.now.buffers e)
        result (after_call [] call.Seekable) }
{
    Ok(Answer::Range(scenes::seekable(source, buffers)?))
}
