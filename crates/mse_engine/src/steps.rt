//! Steps that nobody calls for: of the running work of a buffer, and of the element by itself.

ghost use Rattle.std.specs.Prelude.{◌≡◌, ◌&&◌, ◌||◌, if◌then◌else◌, IfOk, OnErr};
ghost use Rattle.source_state.specs.State.{is_listed_in};
ghost use Rattle.mse_engine.specs.State.{State};
ghost use Rattle.mse_engine.specs.Work.{after_element_turn, after_work};
ghost use Rattle.mse_engine.specs.Standing.{IsFewerWork, IsSteady, IsWork, Stands, kept_engine, no_bounds};

use crate::engine::Worked;
use crate::finish::{PLACES, apply_work_reply, settle};
use crate::media_source::{MediaSource, around};
use crate::scenes::{self, LoadBounds};
use buffer_state::{Reply, Turned};
use media_element::Element;
use mse_base::OutOfMemory;
use source_buffers::SourceBuffers;
use track_store::FrameStore;

/// Makes the bounds those behind a reply that brings metadata, of those before it: a buffer that
/// becomes active has nothing yet, so that then there are none.
fn drop_stale_bounds(source: &MediaSource, k: u32, reply: &Reply, bounds: &mut LoadBounds)
    ensures { bounds.new ≡ (if reply.now.activated
        && (is_listed_in k source.now.state.listed || is_listed_in k source.now.state.active)
        then no_bounds else bounds.old) }
{
    if reply.activated && (source.state.listed(k) || source.state.active(k)) {
        *bounds = LoadBounds::NONE;
    }
}

/// One step of the running work of a buffer.
pub(crate) fn work_on<S: FrameStore>(
    source: &mut MediaSource,
    buffers: &mut SourceBuffers<S>,
    element: &mut Element,
    k: u32,
) -> Result<Worked, OutOfMemory>
    requires steady { IsSteady (kept_engine source.old buffers.old.buffers element.old.state) }
    ensures worked { (st : State) →
        Stands (kept_engine source.old buffers.old.buffers element.old.state) st
        → IfOk result (λ worked. IsWork worked
        (kept_engine source.old buffers.old.buffers element.old.state)
        (kept_engine source.new buffers.new.buffers element.new.state) (after_work k st)) }
    ensures fewer { IfOk result (λ worked. IsFewerWork worked
        (kept_engine source.old buffers.old.buffers element.old.state)
        (kept_engine source.new buffers.new.buffers element.new.state)) }
    ensures steady { IsSteady (kept_engine source.new buffers.new.buffers element.new.state) }
    ensures err { OnErr result (kept_engine source.new buffers.new.buffers element.new.state
        ≡ kept_engine source.old buffers.old.buffers element.old.state) }
{
    element.reserve(PLACES + 1)?;
    let around = around(source, element, k);
    let mut bounds = LoadBounds::NONE;
    scenes::find_bounds(source, buffers, element, &mut bounds)?;
    // a turn that makes a reply puts it here
    let mut reply = Reply::quiet(&around.duration);
    match buffers.turn(k, &around, &mut reply)? {
        Turned::Did => {
            drop_stale_bounds(source, k, &reply, &mut bounds);
            apply_work_reply(source, buffers, element, k, &reply, &bounds);
            Ok(Worked::Did)
        }
        Turned::Quiet => {
            settle(source, buffers, element);
            Ok(Worked::Did)
        }
        Turned::Idle => Ok(Worked::Idle),
    }
}

/// What the element does by itself.
pub(crate) fn turn_by_itself<S: FrameStore>(
    source: &MediaSource,
    buffers: &SourceBuffers<S>,
    element: &mut Element,
) -> Result<Worked, OutOfMemory>
    requires steady { IsSteady (kept_engine source.now buffers.now.buffers element.old.state) }
    ensures worked { (st : State) →
        Stands (kept_engine source.now buffers.now.buffers element.old.state) st
        → IfOk result (λ worked. IsWork worked
        (kept_engine source.now buffers.now.buffers element.old.state)
        (kept_engine source.now buffers.now.buffers element.new.state) (after_element_turn st)) }
    ensures steady { IsSteady (kept_engine source.now buffers.now.buffers element.new.state) }
    ensures err { OnErr result (kept_engine source.now buffers.now.buffers element.new.state
        ≡ kept_engine source.now buffers.now.buffers element.old.state) }
{
    element.reserve(PLACES)?;
    let scene = scenes::scene(source, buffers, element, None);
    if !element.turn(&scene) {
        return Ok(Worked::Idle);
    }
    settle(source, buffers, element);
    Ok(Worked::Did)
}
