//! What a page reads of a session, as plain numbers for C.

ghost use Rattle.std.specs.Prelude.{◌≡◌};
ghost use Rattle.mseplay_c.specs.Looks.{ArePut, IsBufferLookOf, IsLookOf, IsRangeTold, fault_numbers, kind_number, mode_number, moment_numbers, phase_number, ready_number, span_in, ticks_in, time_numbers, track_numbers};

use mse_base::{Kind, Moment, Phase, Span, Ticks};
use mse_calls::{
    Attributes, BufferAttributes, FaultView, Level, Mode, Ready, TimeRanges, TrackView,
};

/// A number of ticks: 128 bits in two's complement.
#[derive(Clone, Copy)]
#[repr(C)]
pub struct TickNumber {
    /// The lower 64 bits.
    pub low: u64,
    /// The upper 64 bits.
    pub high: i64,
}

/// A time: NaN, a number of ticks, or infinity.
#[derive(Clone, Copy)]
#[repr(C)]
pub struct Time {
    /// 0 for NaN, 1 for a number of ticks, 2 for infinity.
    pub kind: u32,
    /// The ticks, 0 where there are none.
    pub ticks: TickNumber,
}

/// A range of time, from its start on and before its end.
#[derive(Clone, Copy)]
#[repr(C)]
pub struct TickRange {
    pub start: TickNumber,
    pub end: TickNumber,
}

/// The first violation of a byte stream format (docs/FORMATS.md, "Faults").
#[derive(Clone, Copy)]
#[repr(C)]
pub struct Fault {
    /// The number of the fault, 0 where there is none.
    pub number: u8,
    /// The number of what is wrong in an initialization segment or in a movie fragment, else 0.
    pub inner: u8,
    /// The type of the box that is missing, else four zero bytes.
    pub missing: [u8; 4],
    /// The number of the buffer.
    pub buffer: u32,
    /// The place in the buffer's input, in bytes.
    pub offset: u64,
}

/// What a page reads of the source and of the element.
#[derive(Clone, Copy)]
#[repr(C)]
pub struct Look {
    /// The source's state: 0 closed, 1 open, 2 ended.
    pub source: u8,
    /// The element's `readyState`, 0 to 4.
    pub level: u8,
    /// 1 where the element is paused.
    pub paused: u8,
    /// 1 where it seeks.
    pub seeking: u8,
    /// 1 where playback has ended.
    pub ended: u8,
    /// The error code of the element, 0 where there is none.
    pub error: u8,
    /// 1 where something can be sought.
    pub is_seekable: u8,
    /// The duration of the source.
    pub duration: Time,
    /// The official playback position.
    pub position: TickNumber,
    /// The default playback start position.
    pub start_position: TickNumber,
    /// What can be sought, its end included.
    pub seekable: TickRange,
    /// How many ranges the element has buffered.
    pub ranges: usize,
    /// How many source buffers were ever made.
    pub made: u32,
    /// The first fault.
    pub fault: Fault,
}

/// What a page reads of a source buffer, and what it holds.
#[derive(Clone, Copy)]
#[repr(C)]
pub struct BufferLook {
    /// 1 where an append or a removal runs.
    pub updating: u8,
    /// 1 where it is in the list of active source buffers.
    pub active: u8,
    /// The append mode: 0 segments, 1 sequence.
    pub mode: u8,
    /// Where the segment parser loop is: 0 waiting for a segment, 1 in an initialization segment, 2 in a media segment.
    pub phase: u8,
    /// The timestamp offset.
    pub timestamp_offset: TickNumber,
    /// The start of the append window.
    pub append_window_start: TickNumber,
    /// The end of the append window.
    pub append_window_end: Time,
    /// How many bytes of its input are held in memory.
    pub held: u64,
    /// How many bytes its coded frames have.
    pub used: u64,
    /// How many ranges it has buffered.
    pub ranges: usize,
    /// How many tracks it has.
    pub tracks: usize,
}

/// What a track buffer holds.
#[derive(Clone, Copy)]
#[repr(C)]
pub struct TrackLook {
    /// The track's number in the file.
    pub id: u32,
    /// What it carries: 0 pictures, 1 sound, 2 something else.
    pub kind: u8,
    /// The four-character code of its coding.
    pub codec: [u8; 4],
    /// How many coded frames are held.
    pub frames: u64,
    /// How many ranges they have.
    pub ranges: usize,
}

/// Two to the power of 64.
const HALF: i128 = 1 << 64;

fn tick_number(ticks: Ticks) -> TickNumber
    ensures { ticks_in result ≡ ticks }
{
    let n = ticks.get();
    TickNumber {
        low: n.rem_euclid(HALF) as u64,
        high: n.div_euclid(HALF) as i64,
    }
}

fn time_of(moment: &Moment) -> Time
    ensures { time_numbers result ≡ moment_numbers moment.now }
{
    let (kind, ticks) = match moment {
        Moment::Nan => (0, Ticks::zero()),
        Moment::At(ticks) => (1, *ticks),
        Moment::Infinite => (2, Ticks::zero()),
    };
    Time {
        kind,
        ticks: tick_number(ticks),
    }
}

fn tick_range(span: Span) -> TickRange
    ensures { span_in result ≡ span }
{
    TickRange {
        start: tick_number(span.start),
        end: tick_number(span.end),
    }
}

fn fault_of(fault: &Option<FaultView>) -> Fault
    ensures { result ≡ fault_numbers fault.now }
{
    match fault {
        Some(fault) => Fault {
            number: fault.number,
            inner: fault.inner,
            missing: fault.missing,
            buffer: fault.buffer,
            offset: fault.offset,
        },
        None => Fault {
            number: 0,
            inner: 0,
            missing: [0; 4],
            buffer: 0,
            offset: 0,
        },
    }
}

fn source_number(source: Ready) -> u8
    ensures { result ≡ ready_number source }
{
    match source {
        Ready::Closed => 0,
        Ready::Opened => 1,
        Ready::Ended => 2,
    }
}

fn mode_number(mode: Mode) -> u8
    ensures { result ≡ mode_number mode }
{
    match mode {
        Mode::Segments => 0,
        Mode::Sequence => 1,
    }
}

fn phase_number(phase: Phase) -> u8
    ensures { result ≡ phase_number phase }
{
    match phase {
        Phase::Waiting => 0,
        Phase::InInit => 1,
        Phase::InMedia => 2,
    }
}

fn kind_number(kind: Kind) -> u8
    ensures { result ≡ kind_number kind }
{
    match kind {
        Kind::Video => 0,
        Kind::Audio => 1,
        Kind::Other => 2,
    }
}

/// The attributes of source and element for C.
pub(crate) fn look_of(found: &Attributes) -> Look
    ensures { IsLookOf found.now result }
{
    let nothing = Span {
        start: Ticks::zero(),
        end: Ticks::zero(),
    };
    Look {
        source: source_number(found.state.source),
        level: found.state.level.number(),
        paused: u8::from(found.state.paused),
        seeking: u8::from(found.state.seeking),
        ended: u8::from(found.ended),
        error: found.state.error,
        is_seekable: u8::from(found.seekable.is_some()),
        duration: time_of(&found.state.duration),
        position: tick_number(found.state.position),
        start_position: tick_number(found.start_position),
        seekable: tick_range(found.seekable.unwrap_or(nothing)),
        ranges: found.buffered.len(),
        made: found.made,
        fault: fault_of(&found.fault),
    }
}

/// Those of a buffer for C.
pub(crate) fn buffer_look_of(found: &BufferAttributes) -> BufferLook
    ensures { IsBufferLookOf found.now result }
{
    BufferLook {
        updating: u8::from(found.updating),
        active: u8::from(found.active),
        mode: mode_number(found.mode),
        phase: phase_number(found.view.phase),
        timestamp_offset: tick_number(found.timestamp_offset),
        append_window_start: tick_number(found.append_window_start),
        append_window_end: time_of(&found.append_window_end),
        held: found.view.held,
        used: found.view.used,
        ranges: found.view.ranges.len(),
        tracks: found.view.tracks.len(),
    }
}

/// A track for C.
pub(crate) fn track_look_of(track: &TrackView) -> TrackLook
    ensures { result ≡ track_numbers track.now }
{
    TrackLook {
        id: track.id,
        kind: kind_number(track.kind),
        codec: track.codec,
        frames: track.frames,
        ranges: track.ranges.len(),
    }
}

/// Puts ranges into the room from a place on, as many as go in. What lies behind them stays.
pub(crate) fn put_ranges(ranges: &TimeRanges, room: &mut [TickRange], from: usize)
    ensures { ArePut IsRangeTold from ranges.now room.old room.new }
{
    for i in 0..ranges.len() {
        let Some(span) = ranges.get(i) else {
            return;
        };
        if from < room.len() && i < room.len() - from {
            room[from + i] = tick_range(span);
        }
    }
}
