use crate::{Mode, StateView, TimeRanges};
use mse_base::{Kind, Moment, OwnedList, Phase, Span, Ticks};

/// What a track buffer holds.
#[derive(Debug, Drop)]
pub struct TrackView {
    /// The track's number in the file.
    pub id: u32,
    /// What it carries.
    pub kind: Kind,
    /// The four-character code of its coding.
    pub codec: [u8; 4],
    /// How many coded frames are held.
    pub frames: u64,
    /// Their ranges.
    pub ranges: TimeRanges,
}

/// A list of track buffers, in the order of the file.
pub type TrackViews = OwnedList<TrackView>;

/// What a source buffer holds.
#[derive(Debug, Drop)]
pub struct BufferView {
    /// The number that it was made with.
    pub number: u32,
    /// Where its segment parser loop is.
    pub phase: Phase,
    /// How many bytes of its input are held in memory.
    pub held: u64,
    /// How many bytes its coded frames have.
    pub used: u64,
    /// What it has buffered.
    pub ranges: TimeRanges,
    /// Its track buffers.
    pub tracks: TrackViews,
}

/// A list of source buffers, in the order of `MediaSource.sourceBuffers`.
pub type BufferViews = OwnedList<BufferView>;

/// The first violation of a byte stream format, and where it is.
#[derive(Clone, Copy, Debug, PartialEq, Eq)]
pub struct FaultView {
    /// The number of the fault, from 1 on.
    pub number: u8,
    /// The number of what is wrong in an initialization segment (fault 9) or in a movie fragment
    /// (fault 10), else 0.
    pub inner: u8,
    /// The type of the box that is missing, else four zero bytes.
    pub missing: [u8; 4],
    /// The number of the buffer.
    pub buffer: u32,
    /// The place in the buffer's input, in bytes.
    pub offset: u64,
}

/// What the whole engine shows.
#[derive(Debug, Drop)]
pub struct View {
    /// The state of the source and of the element.
    pub state: StateView,
    /// The buffers in the list of source buffers.
    pub buffers: BufferViews,
    /// The first fault, if there was one.
    pub fault: Option<FaultView>,
}

/// What a page reads of a source buffer (Media Source Extensions, 3.1, attributes), and what it holds.
#[derive(Debug, Drop)]
pub struct BufferAttributes {
    /// Whether an append or a removal runs (`updating`).
    pub updating: bool,
    /// Whether it is in `MediaSource.activeSourceBuffers`.
    pub active: bool,
    /// The append mode (`mode`).
    pub mode: Mode,
    /// The timestamp offset (`timestampOffset`).
    pub timestamp_offset: Ticks,
    /// The start of the append window (`appendWindowStart`).
    pub append_window_start: Ticks,
    /// The end of the append window (`appendWindowEnd`).
    pub append_window_end: Moment,
    /// What it holds.
    pub view: BufferView,
}

/// What a page reads of a media source and of the element that it is attached to, and the first fault.
#[derive(Debug, Drop)]
pub struct Attributes {
    /// The state of the source and of the element. The duration is that of the source.
    pub state: StateView,
    /// The default playback start position, from which the element plays once it has metadata (HTML). Unless it is 0, a
    /// page reads it as `currentTime`.
    pub start_position: Ticks,
    /// Whether playback has ended, now (HTML, "ended playback").
    pub ended: bool,
    /// What can be sought, from its start up to its end, both included (HTML, `seekable`).
    pub seekable: Option<Span>,
    /// What the element has buffered (HTML, `buffered`).
    pub buffered: TimeRanges,
    /// How many source buffers were ever made. Their numbers are those below it.
    pub made: u32,
    /// The first fault, if there was one.
    pub fault: Option<FaultView>,
}
