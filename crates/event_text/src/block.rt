ghost use Rattle.std.specs.Prelude.{◌≡◌, ◌++◌, ◌∷◌, [], IfOk, OnOk, string_bytes, codes};
ghost use Rattle.std.specs.List.{flat_map};
ghost use Rattle.std.specs.Fmt.{decimal};
ghost use Rattle.event_text.specs.Words.{line};
ghost use Rattle.event_text.specs.Times.{moment_text, ranges_text};
ghost use Rattle.event_text.specs.Block.{phase_text, track_kind_text, track_line, buffer_line, buffer_lines, state_lines, fault_lines, closing_text};

use crate::answers::push_state;
use crate::faults::push_fault_line;
use crate::times::{push_moment, push_ranges};
use crate::words::push_code;
use mse_base::{Kind, Moment, OutOfMemory, Phase, Text};
use mse_calls::{BufferView, FaultView, StateView, TrackView, View};
use std::alloc::{AllocError, Global};

fn phase_word(phase: Phase) -> &'static str
    ensures { result.now ≡ phase_text phase }
{
    match phase {
        Phase::Waiting => "waiting",
        Phase::InInit => "init",
        Phase::InMedia => "media",
    }
}

fn track_kind_word(kind: Kind) -> &'static str
    ensures { result.now ≡ track_kind_text kind }
{
    match kind {
        Kind::Video => "video",
        Kind::Audio => "audio",
        Kind::Other => "other",
    }
}

/// Appends a space and the end of a track's line: how many frames it has, and its ranges.
fn push_frames(text: &mut String, track: &TrackView) -> Result<(), AllocError>
    ensures { OnOk result (string_bytes text.new ≡ string_bytes text.old
        ++ (32 ∷ line (codes "frames" ∷ decimal track.now.frames ∷ codes "ranges"
        ∷ ranges_text track.now.ranges ∷ []))) }
{
    let frames = track.frames;
    write!(text, " frames {frames} ranges ")?;
    push_ranges(text, &track.ranges)?;
    text.push_str("\n")
}

/// Appends the line of a track of the buffer with that number.
fn push_track(text: &mut String, buffer: u32, track: &TrackView) -> Result<(), AllocError>
    ensures { OnOk result (string_bytes text.new
        ≡ string_bytes text.old ++ track_line buffer track.now) }
{
    let id = track.id;
    let kind = track_kind_word(track.kind);
    write!(text, "track {buffer} {id} {kind} ")?;
    push_code(text, &track.codec)?;
    push_frames(text, track)
}

/// Appends the line of a buffer.
fn push_buffer_line(text: &mut String, buffer: &BufferView) -> Result<(), AllocError>
    ensures { OnOk result (string_bytes text.new
        ≡ string_bytes text.old ++ buffer_line buffer.now) }
{
    let number = buffer.number;
    let phase = phase_word(buffer.phase);
    let held = buffer.held;
    let used = buffer.used;
    write!(
        text,
        "buffer {number} phase {phase} held {held} used {used} buffered "
    )?;
    push_ranges(text, &buffer.ranges)?;
    text.push_str("\n")
}

/// Appends the lines of the tracks of the buffer with that number.
fn push_tracks(text: &mut String, buffer: u32, tracks: &[TrackView]) -> Result<(), AllocError>
    ensures { OnOk result (string_bytes text.new
        ≡ string_bytes text.old ++ flat_map (track_line buffer) tracks.now) }
{
    for track in tracks {
        push_track(text, buffer, track)?;
    }
    Ok(())
}

/// Appends the line of a buffer, and below it those of its tracks.
fn push_buffer(text: &mut String, buffer: &BufferView) -> Result<(), AllocError>
    ensures { OnOk result (string_bytes text.new
        ≡ string_bytes text.old ++ buffer_lines buffer.now) }
{
    push_buffer_line(text, buffer)?;
    push_tracks(text, buffer.number, buffer.tracks.as_slice())
}

/// Appends the lines of the buffers.
fn push_buffers(text: &mut String, buffers: &[BufferView]) -> Result<(), AllocError>
    ensures { OnOk result (string_bytes text.new
        ≡ string_bytes text.old ++ flat_map buffer_lines buffers.now) }
{
    for buffer in buffers {
        push_buffer(text, buffer)?;
    }
    Ok(())
}

/// Appends the line of the state, where it is asked for.
fn push_state_line(text: &mut String, state: &StateView, whole: bool) -> Result<(), AllocError>
    ensures { OnOk result (string_bytes text.new
        ≡ string_bytes text.old ++ state_lines state.now whole) }
{
    if !whole {
        return Ok(());
    }
    text.push_str("state ")?;
    push_state(text, state)?;
    text.push_str("\n")
}

/// Appends the line of the duration.
fn push_duration(text: &mut String, duration: Moment) -> Result<(), AllocError>
    ensures { OnOk result (string_bytes text.new ≡ string_bytes text.old
        ++ line (codes "duration" ∷ moment_text duration ∷ [])) }
{
    text.push_str("duration ")?;
    push_moment(text, duration)?;
    text.push_str("\n")
}

/// Appends the line of the first fault, if there was one.
fn push_fault(text: &mut String, fault: &Option<FaultView>) -> Result<(), AllocError>
    ensures { OnOk result (string_bytes text.new ≡ string_bytes text.old ++ fault_lines fault.now) }
{
    match fault {
        Some(fault) => push_fault_line(text, fault),
        None => Ok(()),
    }
}

/// The bytes for which the closing lines have room when they are begun.
const BLOCK_ROOM: usize = 1024;

/// The lines that close a run: the state of the source and the element where `whole` asks for it,
/// the duration, each buffer with its tracks, and the first fault.
pub fn closing(alloc: Global, view: &View, whole: bool) -> Result<Text, OutOfMemory>
    ensures { IfOk result (λ text. text ≡ closing_text view.now whole) }
{
    let mut text = String::with_capacity(alloc, BLOCK_ROOM)?;
    push_state_line(&mut text, &view.state, whole)?;
    push_duration(&mut text, view.state.duration)?;
    push_buffers(&mut text, view.buffers.as_slice())?;
    push_fault(&mut text, &view.fault)?;
    Ok(Text::from_string(alloc, text))
}
