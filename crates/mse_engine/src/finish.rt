//! What comes of a reply of a source buffer, and the end of each step.

ghost use Rattle.std.specs.Prelude.{◌≡◌, ◌≤◌, ◌+◌, ◌*◌, ◌+ℤ◌, ℕ, ℤ, pos, [], ◌∷◌, not, true, if◌then◌else◌};
ghost use Rattle.mse_base.specs.Time.{tick, SECOND};
ghost use Rattle.mse_calls.specs.Level.{has_metadata};
ghost use Rattle.mse_calls.specs.declared.events.EventKind.TheVariants as event;
ghost use Rattle.mse_calls.specs.declared.events.Target.TheVariants as target;
ghost use Rattle.media_element.specs.Queueing.{event_at, with_events};
ghost use Rattle.element_seek.specs.Settling.{is_unchanged_by_settle_in};
ghost use Rattle.buffer_state.specs.AllCalls.{call_view};
ghost use Rattle.mse_engine.specs.Scenes.{SourceView};
ghost use Rattle.mse_engine.specs.Signals.{Loaded, after_signals};
ghost use Rattle.mse_engine.specs.Replies.{open_events, duration_events, call_events, fault_signals};
ghost use Rattle.mse_engine.specs.Standing.{IsEndOfStep, IsFinished, IsReadyIfLoading, IsReadyToLoad, kept_engine, kept_scene, view_of};

use crate::media_source::MediaSource;
use crate::scenes::{self, LoadBounds};
use buffer_state::{BufferCall, Reply};
use element_ready::THREE_SECONDS;
use media_element::Element;
use mse_base::{Span, Ticks};
use mse_calls::{EndKind, Event, EventKind, FaultView, Target};
use source_buffers::SourceBuffers;
use track_store::FrameStore;

/// How many events a step queues at most, beside its duration changes: `sourceopen`; the four at a
/// buffer; that of the active buffers; two of metadata; two of a fault; and four of a new level.
pub(crate) const PLACES: usize = 14;

/// An event of a kind at a target.
pub(crate) fn event(target: Target, kind: EventKind) -> Event
    ensures { result ≡ event_at target kind }
{
    Event { target, kind }
}

/// Three seconds after a time; `None` exactly where that is more than `2^110` ticks from 0.
fn three_seconds_after(t: Ticks) -> Option<Ticks>
    ensures { result ≡ tick (t +ℤ pos (3 * SECOND)) }
{
    Ticks::new(t.get() + THREE_SECONDS)
}

/// Whether the level is HAVE_ENOUGH_DATA and stays so, by a buffered range that goes on for 3 seconds
/// or more, and no end of playback was told. This answers most steps, and no range is copied.
fn has_still_enough<S: FrameStore>(
    source: &MediaSource,
    buffers: &SourceBuffers<S>,
    element: &Element,
) -> bool
    ensures { result ≡ true → is_unchanged_by_settle_in (kept_scene
        (kept_engine source.now buffers.now.buffers element.now.state)) element.now.state.player
        ≡ true }
{
    let start = element.position();
    let Some(end) = three_seconds_after(start) else {
        return false;
    };
    if !element.is_unchanged_by_settle(&Some(Span { start, end }), source.state.duration()) {
        return false;
    }
    scenes::is_buffered_up_to(source, buffers, start, end)
}

/// Whether the level is that of the range at the position, and no end of playback was told.
#[inline(never)]
fn has_level_of_range<S: FrameStore>(
    source: &MediaSource,
    buffers: &SourceBuffers<S>,
    element: &Element,
) -> bool
    ensures { result ≡ is_unchanged_by_settle_in (kept_scene
        (kept_engine source.now buffers.now.buffers element.now.state)) element.now.state.player }
{
    let duration = source.state.duration();
    let span = scenes::span_at(source, buffers, element.position());
    element.is_unchanged_by_settle(&span, duration)
}

/// Whether the end of a step leaves the element as it is, since it has the level of its position.
fn is_unchanged_by_settle<S: FrameStore>(
    source: &MediaSource,
    buffers: &SourceBuffers<S>,
    element: &Element,
) -> bool
    ensures { result ≡ is_unchanged_by_settle_in (kept_scene
        (kept_engine source.now buffers.now.buffers element.now.state)) element.now.state.player }
{
    if is_blank(element) {
        return element.is_unchanged_by_settle(&None, source.state.duration());
    }
    if has_still_enough(source, buffers, element) {
        return true;
    }
    has_level_of_range(source, buffers, element)
}

/// The end of each step: the level that the position has now, with its events.
pub(crate) fn settle<S: FrameStore>(
    source: &MediaSource,
    buffers: &SourceBuffers<S>,
    element: &mut Element,
)
    requires { 4 ≤ element.old.spare }
    ensures { IsEndOfStep source.now buffers.now.buffers element.old.state element.new.state }
{
    if !is_unchanged_by_settle(source, buffers, element) {
        settle_level(source, buffers, element);
    }
}

/// The same, where the level may change.
#[cold]
#[inline(never)]
fn settle_level<S: FrameStore>(
    source: &MediaSource,
    buffers: &SourceBuffers<S>,
    element: &mut Element,
)
    requires { 4 ≤ element.old.spare }
    ensures { IsEndOfStep source.now buffers.now.buffers element.old.state element.new.state }
{
    let scene = scenes::scene(source, buffers, element, None);
    element.settle(&scene);
}

// ---- what the element hears

/// Tells of a source that is opened again, where a reply says so.
fn tell_open(element: &mut Element, reply: &Reply)
    requires { 1 ≤ element.old.spare }
    ensures state { element.new.state ≡ with_events (open_events reply.now) element.old.state }
    ensures spare { element.old.spare ≤ element.new.spare + 1 }
{
    if reply.reopened {
        element.tell(event(Target::Source, EventKind::SourceOpen));
    }
}

/// Tells of each change of the duration.
fn tell_durations(element: &mut Element, reply: &Reply)
    requires { reply.now.duration_changes ≤ element.old.spare }
    ensures state { element.new.state ≡ with_events (duration_events reply.now) element.old.state }
    ensures spare { element.old.spare ≤ element.new.spare + reply.now.duration_changes }
{
    let change = event(Target::Element, EventKind::DurationChange);
    element.tell_again(change, reply.duration_changes);
}

/// What the element hears of a call on the buffer of a number, in order.
pub(crate) fn tell_call(element: &mut Element, k: u32, call: &BufferCall, reply: &Reply)
    requires room { reply.now.duration_changes + 5 ≤ element.old.spare }
    ensures state { (position : ℤ) (quota : ℕ) → element.new.state
        ≡ with_events (call_events k (call_view position quota call.now) reply.now)
        element.old.state }
    ensures spare { element.old.spare ≤ element.new.spare + (reply.now.duration_changes + 5) }
{
    match call {
        BufferCall::Abort => {
            element.tell_kinds(Target::Buffer(k), &reply.events);
            tell_durations(element, reply);
        }
        BufferCall::ChangeType(_) => {
            tell_open(element, reply);
            tell_durations(element, reply);
        }
        _ => {
            tell_open(element, reply);
            element.tell_kinds(Target::Buffer(k), &reply.events);
        }
    }
}

/// Tells of a buffer that becomes active.
fn tell_active(element: &mut Element, activates: bool)
    requires { 1 ≤ element.old.spare }
    ensures state { element.new.state ≡ with_events
        (if activates then (event_at target.ActiveSourceBuffers event.AddSourceBuffer ∷ []) else [])
        element.old.state }
    ensures spare { element.old.spare ≤ element.new.spare + 1 }
{
    if activates {
        element.tell(event(Target::ActiveSourceBuffers, EventKind::AddSourceBuffer));
    }
}

/// The element gets its metadata, where a reply brings it.
fn load<S: FrameStore>(
    source: &MediaSource,
    buffers: &SourceBuffers<S>,
    element: &mut Element,
    loads: bool,
    bounds: &LoadBounds,
)
    requires room { 2 ≤ element.old.spare }
    requires ready_to_load { loads ≡ true
        → IsReadyToLoad bounds.now (view_of source.now buffers.now.buffers) element.old.state }
    ensures state { element.new.state ≡ after_signals (view_of source.now buffers.now.buffers)
        (if loads then (Loaded ∷ []) else []) element.old.state }
    ensures spare { element.old.spare ≤ element.new.spare + 2 }
{
    if loads {
        let bounds = bounds.at(source.state.ready().is_ended());
        let seekable = source.state.seekable(bounds.first, bounds.last);
        let scene = scenes::scene(source, buffers, element, seekable);
        element.load(&scene);
    }
}

/// The end of the stream by a fault, if there is one (Media Source Extensions, 2.4.7, with a decode
/// error).
fn tell_fault(element: &mut Element, fault: Option<FaultView>)
    requires { 2 ≤ element.old.spare }
    ensures state { (v : SourceView) →
        element.new.state ≡ after_signals v (fault_signals fault) element.old.state }
    ensures spare { element.old.spare ≤ element.new.spare + 2 }
{
    if fault.is_some() {
        element.tell(event(Target::Source, EventKind::SourceEnded));
        element.fail(EndKind::Decode);
    }
}

// ---- a step of running work

/// Whether the element has no metadata.
pub(crate) fn is_blank(element: &Element) -> bool
    ensures { result ≡ not (has_metadata element.now.state.player.level) }
{
    !element.level().has_metadata()
}

/// Does what the reply of a step of the work of the buffer of a number brings about at the source, at
/// the element and in the queue, and ends the step. Where the element gets its metadata, `bounds` are
/// those of what it has buffered then.
#[cold]
#[inline(never)]
pub(crate) fn apply_work_reply<S: FrameStore>(
    source: &mut MediaSource,
    buffers: &SourceBuffers<S>,
    element: &mut Element,
    k: u32,
    reply: &Reply,
    bounds: &LoadBounds,
)
    requires room { reply.now.duration_changes + 14 ≤ element.old.spare }
    requires ready_to_load { IsReadyIfLoading k reply.now bounds.now source.old buffers.now.buffers
        element.old.state }
    ensures { IsFinished k reply.now source.old source.new buffers.now.buffers element.old.state
        element.new.state }
{
    let blank = is_blank(element);
    let effects = source.apply_reply(k, reply, blank);
    tell_durations(element, reply);
    tell_active(element, effects.activates);
    load(source, buffers, element, effects.loads, bounds);
    element.tell_kinds(Target::Buffer(k), &reply.events);
    tell_fault(element, reply.fault);
    settle(source, buffers, element);
}
