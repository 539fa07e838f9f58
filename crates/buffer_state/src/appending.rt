//! `SourceBuffer.appendBuffer` (Media Source Extensions, 3.2).

ghost use Rattle.std.specs.Prelude.{◌≡◌, ◌+◌, ◌^◌, nat_le, false, length, Some, None, IfOk, OnErr};
ghost use Rattle.mse_calls.specs.Ready.{is_ended};
ghost use Rattle.track_buffers.specs.Media.{AreEndedWithin};
ghost use Rattle.track_buffers.specs.Frames.{media_after_eviction, used_in};
ghost use Rattle.buffer_state.specs.State.{Feed, kept_buffer, surroundings, append_input};
ghost use Rattle.buffer_state.specs.Replies.{IsDone, refused_reply};
ghost use Rattle.buffer_state.specs.Calls.{append_result_after_eviction, append_refusal};
ghost use Rattle.buffer_state.specs.AllCalls.{IsCallDone};
ghost use Rattle.buffer_state.specs.AllCalls as calls;

use crate::buffer_context::BufferContext;
use crate::reply::{Reply, event_reply, one};
use crate::running::Running;
use byte_stream::ByteStream;
use mse_base::{Bytes, OutOfMemory};
use mse_calls::{EventKind, Name};
use track_buffers::TrackBuffers;
use track_store::FrameStore;

/// Whether a string of `len` bytes would have `2^62` bytes or more with `more` bytes.
fn is_too_long(len: u64, more: usize) -> bool
    ensures { result ≡ nat_le (2 ^ 62) (len + more) }
{
    match len.checked_add(more as u64) {
        Some(total) => total >= 1 << 62,
        None => true,
    }
}

/// Coded frame eviction for an append. It tells how many bytes are stored after it.
fn evict<S: FrameStore>(
    media: &mut TrackBuffers<S>,
    new_bytes: usize,
    around: &BufferContext,
) -> u64
    ensures media { media.new.media
        ≡ media_after_eviction around.now.position new_bytes around.now.quota around.now.duration
        media.old.media }
    ensures used { result ≡ used_in media.new.media }
    ensures within_duration { AreEndedWithin around.now.duration media.old.media.tracks
        → AreEndedWithin around.now.duration media.new.media.tracks }
{
    let more = new_bytes as u64;
    media.evict(around.position, more, around.quota, around.duration);
    media.used()
}

fn refuse_full(around: &BufferContext) -> Reply
    ensures { result ≡ refused_reply Name.QuotaExceeded (is_ended around.now.ready)
        around.now.duration }
{
    Reply::refused(
        Name::QuotaExceeded,
        around.ready.is_ended(),
        &around.duration,
    )
}

/// Evicts, and then takes the bytes that are offered or declines them.
fn accept_or_decline<S: FrameStore>(
    stream: &mut ByteStream,
    media: &mut TrackBuffers<S>,
    running: &mut Running,
    bytes: &Bytes,
    around: &BufferContext,
) -> Reply
    requires offered { stream.old.offered ≡ Some bytes.now }
    requires countable { nat_le (2 ^ 62) (stream.old.fed + length bytes.now) ≡ false }
    ensures done { IsDone (append_result_after_eviction (append_input bytes.now around.now)
        (surroundings around.now)) 0 around.now.duration
        (kept_buffer stream.old media.old.media running.old) result
        (kept_buffer stream.new media.new.media running.new) }
    ensures none_offered { stream.new.offered ≡ None }
{
    let used_bytes = evict(media, bytes.len(), around);
    if used_bytes >= around.quota {
        stream.decline();
        return refuse_full(around);
    }
    stream.accept();
    *running = Running::Append;
    let is_reopened = around.ready.is_ended();
    event_reply(is_reopened, &around.duration, one(EventKind::UpdateStart))
}

/// The refusal of an append before coded frames are evicted.
pub(crate) fn append_refusal(running: &Running, around: &BufferContext) -> Option<Name>
    ensures { (f : Feed) → running.now ≡ f.running
        → result ≡ append_refusal (surroundings around.now) f }
{
    if running.is_updating() || around.error {
        Some(Name::InvalidState)
    } else {
        None
    }
}

/// Begins an append of bytes.
pub(crate) fn append<S: FrameStore>(
    stream: &mut ByteStream,
    media: &mut TrackBuffers<S>,
    running: &mut Running,
    bytes: &Bytes,
    around: &BufferContext,
) -> Result<Reply, OutOfMemory>
    requires { stream.old.offered ≡ None }
    ensures done { IfOk result (λ reply. IsCallDone
        (calls.Append (Some (append_input bytes.now around.now))) (surroundings around.now)
        (kept_buffer stream.old media.old.media running.old) reply
        (kept_buffer stream.new media.new.media running.new)) }
    ensures none_offered { stream.new.offered ≡ None }
    ensures err { OnErr result (kept_buffer stream.new media.new.media running.new
        ≡ kept_buffer stream.old media.old.media running.old) }
{
    if let Some(name) = append_refusal(running, around) {
        return Ok(Reply::refused(name, false, &around.duration));
    }
    if is_too_long(stream.len(), bytes.len()) {
        let _used_bytes = evict(media, bytes.len(), around);
        return Ok(refuse_full(around));
    }
    stream.offer_bytes(bytes.copy()?)?;
    Ok(accept_or_decline(stream, media, running, bytes, around))
}
