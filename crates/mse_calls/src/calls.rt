ghost use Rattle.std.specs.Prelude.{◌≡◌, IfOk};

use mse_base::{Moment, OutOfMemory, Text};

/// Which bytes of a blob an append takes.
#[derive(Clone, Copy, Debug, PartialEq, Eq)]
pub struct Piece {
    /// The place of the blob in the list of loaded blobs.
    pub blob: u32,
    /// The first byte and the length of the part, in bytes; `None` is the whole blob.
    pub part: Option<(u64, u64)>,
}

/// Why a source ends (Media Source Extensions, `EndOfStreamError`).
#[derive(Clone, Copy, Debug, PartialEq, Eq)]
pub enum EndKind {
    /// All data is there.
    Plain,
    /// The data could not be fetched (`network`).
    Network,
    /// The data could not be decoded (`decode`).
    Decode,
}

/// How the frames of a media segment get their times (Media Source Extensions, `AppendMode`).
#[derive(Clone, Copy, Debug, PartialEq, Eq)]
pub enum Mode {
    /// By the times in the segment (`segments`).
    Segments,
    /// One after another, in the order of appending (`sequence`).
    Sequence,
}

/// A call on the source, on one of its buffers, or on the element. Buffers are named by the
/// number that they were made with, from 0 on.
#[derive(Debug, Drop)]
pub enum Call {
    /// Opens the source (Media Source Extensions, attaching to a media element).
    Attach,
    /// `MediaSource.addSourceBuffer`, with the type.
    AddSourceBuffer(Text),
    /// `MediaSource.removeSourceBuffer`.
    RemoveSourceBuffer(u32),
    /// Sets `MediaSource.duration`.
    SetDuration(Moment),
    /// `MediaSource.endOfStream`.
    EndOfStream(EndKind),
    /// `MediaSource.setLiveSeekableRange`, with its start and its end.
    SetLiveSeekableRange(Moment, Moment),
    /// `MediaSource.clearLiveSeekableRange`.
    ClearLiveSeekableRange,
    /// Sets `SourceBuffer.mode`.
    SetMode(u32, Mode),
    /// Sets `SourceBuffer.timestampOffset`.
    SetTimestampOffset(u32, Moment),
    /// Sets `SourceBuffer.appendWindowStart`.
    SetAppendWindowStart(u32, Moment),
    /// Sets `SourceBuffer.appendWindowEnd`.
    SetAppendWindowEnd(u32, Moment),
    /// `SourceBuffer.appendBuffer`.
    AppendBuffer(u32, Piece),
    /// `SourceBuffer.abort`.
    Abort(u32),
    /// `SourceBuffer.remove`, with its start and its end.
    Remove(u32, Moment, Moment),
    /// `SourceBuffer.changeType`, with the new type.
    ChangeType(u32, Text),
    /// Reads `SourceBuffer.buffered`.
    Buffered(u32),
    /// Reads the state of the source and the element.
    SourceState,
    /// Sets the element's `currentTime` (HTML, "seeking").
    Seek(Moment),
    /// `HTMLMediaElement.play`.
    Play,
    /// `HTMLMediaElement.pause`.
    Pause,
    /// Lets so much time pass while the element plays.
    Advance(Moment),
    /// Reads the element's `buffered`.
    ElementBuffered,
    /// Reads the element's `seekable`.
    Seekable,
}

impl Call {
    /// The same call again.
    pub fn copy(&self) -> Result<Call, OutOfMemory>
        ensures { IfOk result (λ call. call ≡ self.now) }
    {
        match self {
            Call::Attach => Ok(Call::Attach),
            Call::AddSourceBuffer(kind) => Ok(Call::AddSourceBuffer(kind.copy()?)),
            Call::RemoveSourceBuffer(k) => Ok(Call::RemoveSourceBuffer(*k)),
            Call::SetDuration(d) => Ok(Call::SetDuration(*d)),
            Call::EndOfStream(kind) => Ok(Call::EndOfStream(*kind)),
            Call::SetLiveSeekableRange(a, b) => Ok(Call::SetLiveSeekableRange(*a, *b)),
            Call::ClearLiveSeekableRange => Ok(Call::ClearLiveSeekableRange),
            Call::SetMode(k, mode) => Ok(Call::SetMode(*k, *mode)),
            Call::SetTimestampOffset(k, t) => Ok(Call::SetTimestampOffset(*k, *t)),
            Call::SetAppendWindowStart(k, t) => Ok(Call::SetAppendWindowStart(*k, *t)),
            Call::SetAppendWindowEnd(k, t) => Ok(Call::SetAppendWindowEnd(*k, *t)),
            Call::AppendBuffer(k, piece) => Ok(Call::AppendBuffer(*k, *piece)),
            Call::Abort(k) => Ok(Call::Abort(*k)),
            Call::Remove(k, a, b) => Ok(Call::Remove(*k, *a, *b)),
            Call::ChangeType(k, kind) => Ok(Call::ChangeType(*k, kind.copy()?)),
            Call::Buffered(k) => Ok(Call::Buffered(*k)),
            Call::SourceState => Ok(Call::SourceState),
            Call::Seek(t) => Ok(Call::Seek(*t)),
            Call::Play => Ok(Call::Play),
            Call::Pause => Ok(Call::Pause),
            Call::Advance(t) => Ok(Call::Advance(*t)),
            Call::ElementBuffered => Ok(Call::ElementBuffered),
            Call::Seekable => Ok(Call::Seekable),
        }
    }
}
