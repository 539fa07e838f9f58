//! `SourceBuffer.remove` (Media Source Extensions, 3.2).

ghost use Rattle.std.specs.Prelude.{◌≡◌, ◌||◌, not, pos, int_lt};
ghost use Rattle.mse_base.specs.declared.ticks.Moment.{Moment};
ghost use Rattle.mse_base.specs.Moments.{is_after, is_before, is_nan};
ghost use Rattle.buffer_state.specs.State.{Feed, kept_buffer, surroundings};
ghost use Rattle.buffer_state.specs.Calls.{remove_refusal};
ghost use Rattle.buffer_state.specs.AllCalls.{IsCallDone};
ghost use Rattle.buffer_state.specs.AllCalls as calls;
ghost use Rattle.track_buffers.specs.Media.{Media};
ghost use Rattle.byte_stream.specs.Streams.{StreamView};

use crate::buffer_context::BufferContext;
use crate::reply::{Reply, event_reply, one};
use crate::running::Running;
use mse_base::{Moment, Ticks};
use mse_calls::{EventKind, Name};

/// Whether a time is not negative and not later than the duration, which is known.
fn is_start_within(start: Ticks, duration: &Moment) -> bool
    ensures { result ≡ not (is_nan duration.now ||
        (int_lt start (pos 0) || is_after start duration.now)) }
{
    !duration.is_nan() && start >= Ticks::zero() && !start.is_after(*duration)
}

/// The refusal of a removal.
pub(crate) fn remove_refusal(
    running: &Running,
    start: Ticks,
    end: &Moment,
    around: &BufferContext,
) -> Option<Name>
    ensures { (f : Feed) → running.now ≡ f.running
        → result ≡ remove_refusal start end.now (surroundings around.now) f }
{
    if running.is_updating() {
        return Some(Name::InvalidState);
    }
    if !is_start_within(start, &around.duration) || !start.is_before(*end) {
        return Some(Name::TypeError);
    }
    None
}

/// Begins a removal.
pub(crate) fn remove(
    running: &mut Running,
    start: Ticks,
    end: Moment,
    around: &BufferContext,
) -> Reply
    ensures { (stream : StreamView) (media : Media)
        → IsCallDone (calls.Remove (Moment.At start) end) (surroundings around.now)
        (kept_buffer stream media running.old) result (kept_buffer stream media running.new) }
{
    if let Some(name) = remove_refusal(running, start, &end, around) {
        return Reply::refused(name, false, &around.duration);
    }
    *running = Running::Removal { start, end };
    let is_reopened = around.ready.is_ended();
    event_reply(is_reopened, &around.duration, one(EventKind::UpdateStart))
}
