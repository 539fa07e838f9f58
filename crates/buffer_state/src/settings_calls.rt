//! The attributes of a source buffer, on setting (Media Source Extensions, 3.1).

ghost use Rattle.std.specs.Prelude.{◌≡◌, ◌≢◌, ◌≤ℤ◌, ◌&&◌, not, ℤ, pos, None};
ghost use Rattle.mse_base.specs.declared.ticks.Moment.{Moment};
ghost use Rattle.byte_stream.specs.Streams as byte_stream;
ghost use Rattle.track_buffers.specs.Media.{Media};
ghost use Rattle.buffer_state.specs.State.{Feed, Content, kept_buffer, surroundings};
ghost use Rattle.buffer_state.specs.Replies.{early_refusal};
ghost use Rattle.buffer_state.specs.Calls.{is_sequence, settings_result_by_phase, window_start_refusal, window_end_refusal};
ghost use Rattle.buffer_state.specs.AllCalls.{IsCallDone, IsRefusal};
ghost use Rattle.buffer_state.specs.AllCalls as calls;

use crate::buffer_context::BufferContext;
use crate::reply::{Reply, event_reply};
use crate::running::Running;
use byte_stream::ByteStream;
use mse_base::{Moment, Phase, Ticks};
use mse_calls::{Changes, Mode, Name};
use track_buffers::TrackBuffers;
use track_store::FrameStore;

fn is_sequence(mode: Mode) -> bool
    ensures { result ≡ is_sequence mode }
{
    match mode {
        Mode::Segments => false,
        Mode::Sequence => true,
    }
}

/// Whether the mode is "segments", and timestamps are generated.
fn is_refused_mode<S: FrameStore>(media: &TrackBuffers<S>, mode: Mode) -> bool
    ensures { result ≡ (media.now.media.settings.generate && not (is_sequence mode)) }
{
    media.settings().generate && !is_sequence(mode)
}

/// The refusal in a media segment, which comes first where the source is not ended.
fn phase_refusal(stream: &ByteStream, around: &BufferContext) -> Option<Name>
    requires { stream.now.offered ≡ None }
    ensures { (m : Media) (f : Feed) (c : Content) → byte_stream.Stands stream.now f.reading
        → result ≡ early_refusal (settings_result_by_phase m (surroundings around.now) f c).reply }
{
    if stream.phase() == Phase::InMedia && !around.ready.is_ended() {
        return Some(Name::InvalidState);
    }
    None
}

/// The refusal of a mode before an ended source is opened again.
pub(crate) fn mode_refusal<S: FrameStore>(
    stream: &ByteStream,
    media: &TrackBuffers<S>,
    running: &Running,
    mode: Mode,
    around: &BufferContext,
) -> Option<Name>
    requires { stream.now.offered ≡ None }
    ensures { IsRefusal (calls.SetMode mode) (surroundings around.now)
        (kept_buffer stream.now media.now.media running.now) result }
{
    if running.is_updating() {
        return Some(Name::InvalidState);
    }
    if is_refused_mode(media, mode) {
        return Some(Name::TypeError);
    }
    phase_refusal(stream, around)
}

/// Sets the append mode, or answers the refusal. An ended source is opened again before the place in a media segment
/// is looked at (Media Source Extensions, 3.1, `mode`).
pub(crate) fn set_mode<S: FrameStore>(
    stream: &ByteStream,
    media: &mut TrackBuffers<S>,
    running: &Running,
    mode: Mode,
    around: &BufferContext,
) -> Reply
    requires { stream.now.offered ≡ None }
    ensures { IsCallDone (calls.SetMode mode) (surroundings around.now)
        (kept_buffer stream.now media.old.media running.now) result
        (kept_buffer stream.now media.new.media running.now) }
{
    if running.is_updating() {
        return Reply::refused(Name::InvalidState, false, &around.duration);
    }
    if is_refused_mode(media, mode) {
        return Reply::refused(Name::TypeError, false, &around.duration);
    }
    let is_reopened = around.ready.is_ended();
    if stream.phase() == Phase::InMedia {
        return Reply::refused(Name::InvalidState, is_reopened, &around.duration);
    }
    media.set_mode(is_sequence(mode));
    event_reply(is_reopened, &around.duration, Changes::new())
}

/// The refusal of an offset before an ended source is opened again.
pub(crate) fn offset_refusal<S: FrameStore>(
    stream: &ByteStream,
    media: &TrackBuffers<S>,
    running: &Running,
    around: &BufferContext,
) -> Option<Name>
    requires { stream.now.offered ≡ None }
    ensures { (t : ℤ) → IsRefusal (calls.SetOffset (Moment.At t)) (surroundings around.now)
        (kept_buffer stream.now media.now.media running.now) result }
{
    if running.is_updating() {
        return Some(Name::InvalidState);
    }
    phase_refusal(stream, around)
}

/// Sets the timestamp offset, or answers the refusal. An ended source is opened again before the place in a media
/// segment is looked at (Media Source Extensions, 3.1, `timestampOffset`).
pub(crate) fn set_offset<S: FrameStore>(
    stream: &ByteStream,
    media: &mut TrackBuffers<S>,
    running: &Running,
    t: Ticks,
    around: &BufferContext,
) -> Reply
    requires { stream.now.offered ≡ None }
    ensures { IsCallDone (calls.SetOffset (Moment.At t)) (surroundings around.now)
        (kept_buffer stream.now media.old.media running.now) result
        (kept_buffer stream.now media.new.media running.now) }
{
    if running.is_updating() {
        return Reply::refused(Name::InvalidState, false, &around.duration);
    }
    let is_reopened = around.ready.is_ended();
    if stream.phase() == Phase::InMedia {
        return Reply::refused(Name::InvalidState, is_reopened, &around.duration);
    }
    media.set_offset(t);
    event_reply(is_reopened, &around.duration, Changes::new())
}

/// The refusal of a window start.
pub(crate) fn window_start_refusal<S: FrameStore>(
    media: &TrackBuffers<S>,
    running: &Running,
    t: Ticks,
) -> Option<Name>
    ensures name { (f : Feed) (c : Content) → media.now.media ≡ c.media → running.now ≡ f.running
        → result ≡ window_start_refusal t f c }
    ensures from_zero { result ≡ None → pos 0 ≤ℤ t }
{
    if running.is_updating() {
        return Some(Name::InvalidState);
    }
    if t < Ticks::zero() || !t.is_before(media.settings().window_end) {
        return Some(Name::TypeError);
    }
    None
}

/// Sets the start of the append window, or answers the refusal (Media Source Extensions, 3.1,
/// `appendWindowStart`).
pub(crate) fn set_window_start<S: FrameStore>(
    stream: &ByteStream,
    media: &mut TrackBuffers<S>,
    running: &Running,
    t: Ticks,
    around: &BufferContext,
) -> Reply
    ensures { IsCallDone (calls.SetWindowStart (Moment.At t)) (surroundings around.now)
        (kept_buffer stream.now media.old.media running.now) result
        (kept_buffer stream.now media.new.media running.now) }
{
    if let Some(name) = window_start_refusal(media, running, t) {
        return Reply::refused(name, false, &around.duration);
    }
    media.set_window_start(t);
    event_reply(false, &around.duration, Changes::new())
}

/// The refusal of a window end.
pub(crate) fn window_end_refusal<S: FrameStore>(
    media: &TrackBuffers<S>,
    running: &Running,
    t: &Moment,
) -> Option<Name>
    ensures name { (f : Feed) (c : Content) → media.now.media ≡ c.media → running.now ≡ f.running
        → result ≡ window_end_refusal t.now f c }
    ensures not_nan { result ≡ None → t.now ≢ Moment.Nan }
{
    if running.is_updating() {
        return Some(Name::InvalidState);
    }
    if !media.settings().window_start.is_before(*t) {
        return Some(Name::TypeError);
    }
    None
}

/// Sets the end of the append window, or answers the refusal (Media Source Extensions, 3.1,
/// `appendWindowEnd`).
pub(crate) fn set_window_end<S: FrameStore>(
    stream: &ByteStream,
    media: &mut TrackBuffers<S>,
    running: &Running,
    t: Moment,
    around: &BufferContext,
) -> Reply
    ensures { IsCallDone (calls.SetWindowEnd t) (surroundings around.now)
        (kept_buffer stream.now media.old.media running.now) result
        (kept_buffer stream.now media.new.media running.now) }
{
    if let Some(name) = window_end_refusal(media, running, &t) {
        return Reply::refused(name, false, &around.duration);
    }
    media.set_window_end(t);
    event_reply(false, &around.duration, Changes::new())
}
