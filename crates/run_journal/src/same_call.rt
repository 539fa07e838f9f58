//! Whether two calls are the same.

ghost use Rattle.std.specs.Prelude.{◌≡◌};
ghost use Rattle.std.specs.Bool.{OnTrue};

use mse_calls::Call;

/// Whether two calls on one buffer are the same.
fn is_same_on_buffer(a: &Call, b: &Call) -> bool
    ensures { OnTrue result (a.now ≡ b.now) }
{
    match (a, b) {
        (Call::RemoveSourceBuffer(k), Call::RemoveSourceBuffer(l)) => *k == *l,
        (Call::SetMode(k, mode), Call::SetMode(l, other)) => *k == *l && *mode == *other,
        (Call::SetTimestampOffset(k, t), Call::SetTimestampOffset(l, u)) => *k == *l && *t == *u,
        (Call::SetAppendWindowStart(k, t), Call::SetAppendWindowStart(l, u)) => {
            *k == *l && *t == *u
        }
        (Call::SetAppendWindowEnd(k, t), Call::SetAppendWindowEnd(l, u)) => *k == *l && *t == *u,
        (Call::AppendBuffer(k, piece), Call::AppendBuffer(l, other)) => {
            *k == *l && *piece == *other
        }
        (Call::Abort(k), Call::Abort(l)) => *k == *l,
        (Call::Remove(k, t, end), Call::Remove(l, u, other)) => {
            *k == *l && *t == *u && *end == *other
        }
        (Call::ChangeType(k, kind), Call::ChangeType(l, other)) => {
            *k == *l && kind.as_str() == other.as_str()
        }
        (Call::Buffered(k), Call::Buffered(l)) => *k == *l,
        _ => false,
    }
}

/// Whether two calls are the same.
pub(crate) fn is_same(a: &Call, b: &Call) -> bool
    ensures { OnTrue result (a.now ≡ b.now) }
{
    match (a, b) {
        (Call::Attach, Call::Attach) => true,
        (Call::AddSourceBuffer(kind), Call::AddSourceBuffer(other)) => {
            kind.as_str() == other.as_str()
        }
        (Call::SetDuration(t), Call::SetDuration(u)) => *t == *u,
        (Call::EndOfStream(kind), Call::EndOfStream(other)) => *kind == *other,
        (Call::SetLiveSeekableRange(t, end), Call::SetLiveSeekableRange(u, other)) => {
            *t == *u && *end == *other
        }
        (Call::ClearLiveSeekableRange, Call::ClearLiveSeekableRange) => true,
        (Call::SourceState, Call::SourceState) => true,
        (Call::Seek(t), Call::Seek(u)) => *t == *u,
        (Call::Play, Call::Play) => true,
        (Call::Pause, Call::Pause) => true,
        (Call::Advance(t), Call::Advance(u)) => *t == *u,
        (Call::ElementBuffered, Call::ElementBuffered) => true,
        (Call::Seekable, Call::Seekable) => true,
        _ => is_same_on_buffer(a, b),
    }
}
