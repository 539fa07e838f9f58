//! The lines of a track, each of which is put with one put.

ghost use Rattle.std.specs.Prelude.{◌≡◌, [], ◌∷◌, ◌++◌, codes, IfOk, OnOk, OnErr, string_bytes};
ghost use Rattle.std.specs.Fmt.{decimal, signed_decimal};
ghost use Rattle.event_text.specs.Words.{bool_text, words};
ghost use Rattle.script_run.specs.Keeps.{AreFailuresTold};
ghost use Rattle.script_run.specs.Writes.{IsWritten, IsFrontWritten};
ghost use Rattle.feed_lines.specs.Lines.{answer_text, end_line, frame_line, none_line, size_text, wanted_line};

use decoder_feed::FeedNext;
use itoa::Buffer;
use mse_base::Ticks;
use mse_outside::Sink;
use script_run::{Halt, put_bytes};
use std::alloc::{AllocError, Global};
use track_store::Stored;

/// The bytes for which a line has room when it is begun: more than most lines have.
const LINE_ROOM: usize = 160;

/// Appends what stands before a time, and the time in ticks.
fn push_time(text: &mut String, before: &str, t: Ticks) -> Result<(), AllocError>
    ensures { OnOk result (string_bytes text.new
        ≡ string_bytes text.old ++ (before.now ++ signed_decimal t)) }
{
    text.push_str(before)?;
    text.push_str(Buffer::new().format(t.get()))
}

/// Appends the words with which a group's line begins, up to the time.
fn push_begin(text: &mut String, id: u32, at: Ticks) -> Result<(), AllocError>
    ensures { OnOk result (string_bytes text.new ≡ string_bytes text.old
        ++ (codes "feed 0 " ++ (decimal id ++ (codes " at " ++ signed_decimal at)))) }
{
    text.push_str("feed 0 ")?;
    text.push_str(Buffer::new().format(id))?;
    push_time(text, " at ", at)
}

fn none_line(alloc: Global, id: u32, at: Ticks) -> Result<String, AllocError>
    ensures { IfOk result (λ line. string_bytes line ≡ none_line id at) }
{
    let mut line = String::with_capacity(alloc, LINE_ROOM)?;
    push_begin(&mut line, id, at)?;
    line.push_str(" none\n")?;
    Ok(line)
}

fn wanted_line(alloc: Global, id: u32, at: Ticks, serial: u64) -> Result<String, AllocError>
    ensures { IfOk result (λ line. string_bytes line ≡ wanted_line id at serial) }
{
    let mut line = String::with_capacity(alloc, LINE_ROOM)?;
    push_begin(&mut line, id, at)?;
    line.push_str(" wanted ")?;
    line.push_str(Buffer::new().format(serial))?;
    line.push_str("\n")?;
    Ok(line)
}

/// The words behind the number of a frame's bytes.
fn sync_words(sync: bool) -> &'static str
    ensures { result.now ≡ codes " sync " ++ (bool_text sync ++ 10 ∷ []) }
{
    if sync {
        " sync true\n"
    } else {
        " sync false\n"
    }
}

/// Appends how many bytes a frame has, and whether it is a random access point.
fn push_size(text: &mut String, stored: &Stored) -> Result<(), AllocError>
    ensures { OnOk result (string_bytes text.new ≡ string_bytes text.old ++ size_text stored.now) }
{
    let bytes = stored.frame.payload.len();
    let sync = stored.frame.sync;
    text.push_str("bytes ")?;
    text.push_str(Buffer::new().format(bytes))?;
    text.push_str(sync_words(sync))
}

/// Appends when a frame is presented and decoded, and how long it lasts, in ticks.
fn push_times(text: &mut String, stored: &Stored) -> Result<(), AllocError>
    ensures { OnOk result (string_bytes text.new ≡ string_bytes text.old
        ++ words (codes "pts" ∷ signed_decimal stored.now.frame.pts
        ∷ codes "dts" ∷ signed_decimal stored.now.frame.dts
        ∷ codes "dur" ∷ signed_decimal stored.now.frame.dur ∷ [])) }
{
    push_time(text, "pts ", stored.frame.pts)?;
    push_time(text, " dts ", stored.frame.dts)?;
    push_time(text, " dur ", stored.frame.dur)
}

/// Appends the line of a frame.
fn push_frame(text: &mut String, stored: &Stored) -> Result<(), AllocError>
    ensures { OnOk result (string_bytes text.new ≡ string_bytes text.old ++ frame_line stored.now) }
{
    let serial = stored.serial;
    text.push_str("frame ")?;
    text.push_str(Buffer::new().format(serial))?;
    text.push_str(" ")?;
    push_times(text, stored)?;
    text.push_str(" ")?;
    push_size(text, stored)
}

fn frame_line(alloc: Global, stored: &Stored) -> Result<String, AllocError>
    ensures { IfOk result (λ line. string_bytes line ≡ frame_line stored.now) }
{
    let mut line = String::with_capacity(alloc, LINE_ROOM)?;
    push_frame(&mut line, stored)?;
    Ok(line)
}

fn answer_word(answer: FeedNext) -> &'static str
    ensures { result.now ≡ answer_text answer }
{
    match answer {
        FeedNext::Frame(_) => "Frame",
        FeedNext::Idle => "Idle",
        FeedNext::Wait => "Wait",
        FeedNext::Lost => "Lost",
        FeedNext::GroupEnd => "GroupEnd",
    }
}

fn end_line(alloc: Global, answer: FeedNext) -> Result<String, AllocError>
    ensures { IfOk result (λ line. string_bytes line ≡ end_line answer) }
{
    let answer = answer_word(answer);
    let mut line = String::with_capacity(alloc, LINE_ROOM)?;
    line.push_str("end ")?;
    line.push_str(answer)?;
    line.push_str("\n")?;
    Ok(line)
}

/// Puts the line that says that no frame of the track `id` is shown at the time `at`, in ticks.
///
/// An `Err` is a failed put or want of memory; then a front of the line was written.
pub fn put_none<K: Sink>(alloc: Global, sink: &mut K, id: u32, at: Ticks) -> Result<(), Halt>
    ensures ok { OnOk result (IsWritten (none_line id at ∷ []) (K.written sink.old)
        (K.written sink.new)) }
    ensures err { OnErr result (IsFrontWritten (none_line id at ∷ []) (K.written sink.old)
        (K.written sink.new)) }
    ensures puts { AreFailuresTold Halt.Write (K.faults sink.old) (K.faults sink.new) result }
{
    match none_line(alloc, id, at) {
        Ok(line) => put_bytes(sink, line.as_bytes()),
        Err(_) => Err(Halt::Memory),
    }
}

/// Puts the line that says that the frame of this serial of the track `id` is shown at the time `at`,
/// in ticks.
///
/// An `Err` is a failed put or want of memory; then a front of the line was written.
pub fn put_wanted<K: Sink>(
    alloc: Global,
    sink: &mut K,
    id: u32,
    at: Ticks,
    serial: u64,
) -> Result<(), Halt>
    ensures ok { OnOk result (IsWritten (wanted_line id at serial ∷ []) (K.written sink.old)
        (K.written sink.new)) }
    ensures err { OnErr result (IsFrontWritten (wanted_line id at serial ∷ []) (K.written sink.old)
        (K.written sink.new)) }
    ensures puts { AreFailuresTold Halt.Write (K.faults sink.old) (K.faults sink.new) result }
{
    match wanted_line(alloc, id, at, serial) {
        Ok(line) => put_bytes(sink, line.as_bytes()),
        Err(_) => Err(Halt::Memory),
    }
}

/// Puts the line of a frame that is given to the decoder.
///
/// An `Err` is a failed put or want of memory; then a front of the line was written.
pub fn put_frame<K: Sink>(alloc: Global, sink: &mut K, stored: &Stored) -> Result<(), Halt>
    ensures ok { OnOk result (IsWritten (frame_line stored.now ∷ []) (K.written sink.old)
        (K.written sink.new)) }
    ensures err { OnErr result (IsFrontWritten (frame_line stored.now ∷ []) (K.written sink.old)
        (K.written sink.new)) }
    ensures puts { AreFailuresTold Halt.Write (K.faults sink.old) (K.faults sink.new) result }
{
    match frame_line(alloc, stored) {
        Ok(line) => put_bytes(sink, line.as_bytes()),
        Err(_) => Err(Halt::Memory),
    }
}

/// Puts the line that says why no more frames are given.
///
/// An `Err` is a failed put or want of memory; then a front of the line was written.
pub fn put_end<K: Sink>(alloc: Global, sink: &mut K, answer: FeedNext) -> Result<(), Halt>
    ensures ok { OnOk result (IsWritten (end_line answer ∷ []) (K.written sink.old)
        (K.written sink.new)) }
    ensures err { OnErr result (IsFrontWritten (end_line answer ∷ []) (K.written sink.old)
        (K.written sink.new)) }
    ensures puts { AreFailuresTold Halt.Write (K.faults sink.old) (K.faults sink.new) result }
{
    match end_line(alloc, answer) {
        Ok(line) => put_bytes(sink, line.as_bytes()),
        Err(_) => Err(Halt::Memory),
    }
}
