ghost use Rattle.std.specs.Prelude.{◌≡◌, [], ◌∷◌, ◌++◌, OnOk, string_bytes};
ghost use Rattle.std.specs.Fmt.{decimal};
ghost use Rattle.event_text.specs.Words.{words};
ghost use Rattle.event_text.specs.Times.{moment_text};
ghost use Rattle.event_text.specs.Calls.{mode_text, end_text, type_text, append_text, call_text};

use crate::times::push_moment;
use crate::words::{push_decimal, push_signs};
use mse_base::Moment;
use mse_calls::{Call, EndKind, Mode, Piece};
use std::alloc::AllocError;

fn mode_word(mode: Mode) -> &'static str
    ensures { result.now ≡ mode_text mode }
{
    match mode {
        Mode::Segments => "segments",
        Mode::Sequence => "sequence",
    }
}

fn end_words(kind: EndKind) -> &'static str
    ensures { result.now ≡ end_text kind }
{
    match kind {
        EndKind::Plain => "endofstream",
        EndKind::Network => "endofstream network",
        EndKind::Decode => "endofstream decode",
    }
}

/// Appends a word and a buffer's number.
fn push_number(text: &mut String, word: &str, k: u32) -> Result<(), AllocError>
    ensures { OnOk result (string_bytes text.new
        ≡ string_bytes text.old ++ words (word.now ∷ decimal k ∷ [])) }
{
    text.push_str(word)?;
    text.push_str(" ")?;
    push_decimal(text, k)
}

/// Appends a word and a time.
fn push_time(text: &mut String, word: &str, t: Moment) -> Result<(), AllocError>
    ensures { OnOk result (string_bytes text.new
        ≡ string_bytes text.old ++ words (word.now ∷ moment_text t ∷ [])) }
{
    write!(text, "{word} ")?;
    push_moment(text, t)
}

/// Appends a word and two times.
fn push_times(text: &mut String, word: &str, a: Moment, b: Moment) -> Result<(), AllocError>
    ensures { OnOk result (string_bytes text.new
        ≡ string_bytes text.old ++ words (word.now ∷ moment_text a ∷ moment_text b ∷ [])) }
{
    write!(text, "{word} ")?;
    push_moment(text, a)?;
    text.push_str(" ")?;
    push_moment(text, b)
}

/// Appends a word, a buffer's number and a time.
fn push_number_time(text: &mut String, word: &str, k: u32, t: Moment) -> Result<(), AllocError>
    ensures { OnOk result (string_bytes text.new
        ≡ string_bytes text.old ++ words (word.now ∷ decimal k ∷ moment_text t ∷ [])) }
{
    write!(text, "{word} {k} ")?;
    push_moment(text, t)
}

fn push_mode(text: &mut String, k: u32, mode: Mode) -> Result<(), AllocError>
    ensures { OnOk result (string_bytes text.new
        ≡ string_bytes text.old ++ call_text (Call.SetMode k mode)) }
{
    let mode = mode_word(mode);
    write!(text, "mode {k} {mode}")
}

fn push_append(text: &mut String, k: u32, piece: Piece) -> Result<(), AllocError>
    ensures { OnOk result (string_bytes text.new
        ≡ string_bytes text.old ++ append_text k piece.blob piece.part) }
{
    let blob = piece.blob;
    match piece.part {
        None => write!(text, "append {k} {blob}"),
        Some((first, length)) => write!(text, "append {k} {blob} {first} {length}"),
    }
}

fn push_remove(text: &mut String, k: u32, a: Moment, b: Moment) -> Result<(), AllocError>
    ensures { OnOk result (string_bytes text.new
        ≡ string_bytes text.old ++ call_text (Call.Remove k a b)) }
{
    write!(text, "remove {k} ")?;
    push_moment(text, a)?;
    text.push_str(" ")?;
    push_moment(text, b)
}

/// Appends a type after a space; nothing for the empty type.
fn push_type(text: &mut String, kind: &str) -> Result<(), AllocError>
    ensures { OnOk result (string_bytes text.new ≡ string_bytes text.old ++ type_text kind.now) }
{
    if kind.is_empty() {
        return Ok(());
    }
    text.push_str(" ")?;
    push_signs(text, kind)
}

fn push_add(text: &mut String, kind: &str) -> Result<(), AllocError>
    ensures { OnOk result (string_bytes text.new
        ≡ string_bytes text.old ++ call_text (Call.AddSourceBuffer kind.now)) }
{
    text.push_str("add")?;
    push_type(text, kind)
}

fn push_change_type(text: &mut String, k: u32, kind: &str) -> Result<(), AllocError>
    ensures { OnOk result (string_bytes text.new
        ≡ string_bytes text.old ++ call_text (Call.ChangeType k kind.now)) }
{
    write!(text, "changetype {k}")?;
    push_type(text, kind)
}

/// Appends a call, as a script writes it, with its times in ticks.
pub fn push_call(text: &mut String, call: &Call) -> Result<(), AllocError>
    ensures { OnOk result (string_bytes text.new ≡ string_bytes text.old ++ call_text call.now) }
{
    match call {
        Call::Attach => text.push_str("attach"),
        Call::AddSourceBuffer(kind) => push_add(text, kind.as_str()),
        Call::RemoveSourceBuffer(k) => push_number(text, "removebuffer", *k),
        Call::SetDuration(d) => push_time(text, "duration", *d),
        Call::EndOfStream(kind) => text.push_str(end_words(*kind)),
        Call::SetLiveSeekableRange(a, b) => push_times(text, "live", *a, *b),
        Call::ClearLiveSeekableRange => text.push_str("clearlive"),
        Call::SetMode(k, mode) => push_mode(text, *k, *mode),
        Call::SetTimestampOffset(k, t) => push_number_time(text, "offset", *k, *t),
        Call::SetAppendWindowStart(k, t) => push_number_time(text, "windowstart", *k, *t),
        Call::SetAppendWindowEnd(k, t) => push_number_time(text, "windowend", *k, *t),
        Call::AppendBuffer(k, piece) => push_append(text, *k, *piece),
        Call::Abort(k) => push_number(text, "abort", *k),
        Call::Remove(k, a, b) => push_remove(text, *k, *a, *b),
        Call::ChangeType(k, kind) => push_change_type(text, *k, kind.as_str()),
        Call::Buffered(k) => push_number(text, "buffered", *k),
        Call::SourceState => text.push_str("state"),
        Call::Seek(t) => push_time(text, "seek", *t),
        Call::Play => text.push_str("play"),
        Call::Pause => text.push_str("pause"),
        Call::Advance(t) => push_time(text, "advance", *t),
        Call::ElementBuffered => text.push_str("elementbuffered"),
        Call::Seekable => text.push_str("seekable"),
    }
}
