ghost use Rattle.std.specs.Prelude.{◌≡◌, IfOk, option_and_then};
ghost use Rattle.std.specs.List.{list_all};
ghost use Rattle.std.specs.Option.{option_copied};
ghost use Rattle.event_text.specs.Words.{is_printable};
ghost use Rattle.call_script.specs.Numbers.{index_of, size_of};
ghost use Rattle.call_script.specs.Times.{time_of};
ghost use Rattle.call_script.specs.Lines.{pair, mode_of, piece_of, type_of, call_alone, end_call, call_with, call_of_line, other_step, step_of_line};

use crate::call_word::CallWord;
use crate::numbers::{read_index, read_size};
use crate::script::StepLine;
use crate::times::read_time;
use crate::words::split_word;
use mse_base::{Moment, OutOfMemory, Text};
use mse_calls::{Call, EndKind, Mode, Piece};
use std::alloc::Global;

fn mode(text: &str) -> Option<Mode>
    ensures { result ≡ mode_of text.now }
{
    if text == "segments" {
        Some(Mode::Segments)
    } else if text == "sequence" {
        Some(Mode::Sequence)
    } else {
        None
    }
}

fn two_sizes(text: &str) -> Option<(u64, u64)>
    ensures { result ≡ pair size_of size_of text.now }
{
    let (first, rest) = split_word(text);
    let first = read_size(first)?;
    let second = read_size(rest?)?;
    Some((first, second))
}

/// A blob, or a part of it with its first byte and its length.
#[tactic(auto, unfolding(crate::specs::Lines::piece_of))]
fn piece(text: &str) -> Option<Piece>
    ensures { result ≡ piece_of text.now }
{
    let (blob, rest) = split_word(text);
    let blob = read_index(blob)?;
    match rest {
        None => Some(Piece { blob, part: None }),
        Some(rest) => {
            let part = two_sizes(rest)?;
            Some(Piece {
                blob,
                part: Some(part),
            })
        }
    }
}

fn one_index(rest: Option<&str>) -> Option<u32>
    ensures { result ≡ option_and_then index_of (option_copied rest.entry) }
{
    read_index(rest?)
}

fn one_time(rest: Option<&str>) -> Option<Moment>
    ensures { result ≡ option_and_then time_of (option_copied rest.entry) }
{
    read_time(rest?)
}

fn two_times(rest: Option<&str>) -> Option<(Moment, Moment)>
    ensures { result ≡ option_and_then (pair time_of time_of) (option_copied rest.entry) }
{
    let (first, rest) = split_word(rest?);
    let first = read_time(first)?;
    let second = one_time(rest)?;
    Some((first, second))
}

fn index_and_mode(rest: Option<&str>) -> Option<(u32, Mode)>
    ensures { result ≡ option_and_then (pair index_of mode_of) (option_copied rest.entry) }
{
    let (first, rest) = split_word(rest?);
    let k = read_index(first)?;
    let mode = mode(rest?)?;
    Some((k, mode))
}

fn index_and_time(rest: Option<&str>) -> Option<(u32, Moment)>
    ensures { result ≡ option_and_then (pair index_of time_of) (option_copied rest.entry) }
{
    let (first, rest) = split_word(rest?);
    let k = read_index(first)?;
    let t = one_time(rest)?;
    Some((k, t))
}

fn index_and_times(rest: Option<&str>) -> Option<(u32, (Moment, Moment))>
    ensures { result
        ≡ option_and_then (pair index_of (pair time_of time_of)) (option_copied rest.entry) }
{
    let (first, rest) = split_word(rest?);
    let k = read_index(first)?;
    let times = two_times(rest)?;
    Some((k, times))
}

fn index_and_piece(rest: Option<&str>) -> Option<(u32, Piece)>
    ensures { result ≡ option_and_then (pair index_of piece_of) (option_copied rest.entry) }
{
    let (first, rest) = split_word(rest?);
    let k = read_index(first)?;
    let piece = piece(rest?)?;
    Some((k, piece))
}

/// The call, where nothing stands behind its word.
fn call_alone(rest: Option<&str>, call: Call) -> Option<Call>
    ensures { result ≡ call_alone call (option_copied rest.entry) }
{
    match rest {
        None => Some(call),
        Some(_) => None,
    }
}

fn end_of_stream(rest: Option<&str>) -> Option<Call>
    ensures { result ≡ end_call (option_copied rest.entry) }
{
    let Some(text) = rest else {
        return Some(Call::EndOfStream(EndKind::Plain));
    };
    if text == "network" {
        Some(Call::EndOfStream(EndKind::Network))
    } else if text == "decode" {
        Some(Call::EndOfStream(EndKind::Decode))
    } else {
        None
    }
}

/// The type that stands behind a space; the empty type where there is no space.
fn type_behind(rest: Option<&str>) -> Option<&str>
    ensures { option_copied result ≡ type_of (option_copied rest.entry) }
{
    match rest {
        None => Some(""),
        Some(text) => { if text.is_empty() { None } else { Some(text) } }
    }
}

fn add(alloc: Global, rest: Option<&str>) -> Result<Option<Call>, OutOfMemory>
    ensures { IfOk result (λ call. call
        ≡ call_with CallWord.Add (option_copied rest.entry)) }
{
    let Some(kind) = type_behind(rest) else {
        return Ok(None);
    };
    let kind = Text::copy_of(alloc, kind)?;
    Ok(Some(Call::AddSourceBuffer(kind)))
}

fn change_type(alloc: Global, rest: Option<&str>) -> Result<Option<Call>, OutOfMemory>
    ensures { IfOk result (λ call. call
        ≡ call_with CallWord.ChangeType (option_copied rest.entry)) }
{
    let Some(rest) = rest else {
        return Ok(None);
    };
    let (first, rest) = split_word(rest);
    let Some(k) = read_index(first) else {
        return Ok(None);
    };
    let Some(kind) = type_behind(rest) else {
        return Ok(None);
    };
    let kind = Text::copy_of(alloc, kind)?;
    Ok(Some(Call::ChangeType(k, kind)))
}

/// The call of a word and of what stands behind it.
fn read_arguments(
    alloc: Global,
    word: CallWord,
    rest: Option<&str>,
) -> Result<Option<Call>, OutOfMemory>
    ensures { IfOk result (λ call. call ≡ call_with word (option_copied rest.entry)) }
{
    match word {
        CallWord::Attach => Ok(call_alone(rest, Call::Attach)),
        CallWord::Add => add(alloc, rest),
        CallWord::RemoveBuffer => Ok(one_index(rest).map(Call::RemoveSourceBuffer)),
        CallWord::Duration => Ok(one_time(rest).map(Call::SetDuration)),
        CallWord::EndOfStream => Ok(end_of_stream(rest)),
        CallWord::Live => Ok(two_times(rest).map(|(a, b)| Call::SetLiveSeekableRange(a, b))),
        CallWord::ClearLive => Ok(call_alone(rest, Call::ClearLiveSeekableRange)),
        CallWord::Mode => Ok(index_and_mode(rest).map(|(k, mode)| Call::SetMode(k, mode))),
        CallWord::Offset => Ok(index_and_time(rest).map(|(k, t)| Call::SetTimestampOffset(k, t))),
        CallWord::WindowStart => {
            Ok(index_and_time(rest).map(|(k, t)| Call::SetAppendWindowStart(k, t)))
        }
        CallWord::WindowEnd => {
            Ok(index_and_time(rest).map(|(k, t)| Call::SetAppendWindowEnd(k, t)))
        }
        CallWord::Append => {
            Ok(index_and_piece(rest).map(|(k, piece)| Call::AppendBuffer(k, piece)))
        }
        CallWord::Abort => Ok(one_index(rest).map(Call::Abort)),
        CallWord::Remove => Ok(index_and_times(rest).map(|(k, (a, b))| Call::Remove(k, a, b))),
        CallWord::ChangeType => change_type(alloc, rest),
        CallWord::Buffered => Ok(one_index(rest).map(Call::Buffered)),
        CallWord::State => Ok(call_alone(rest, Call::SourceState)),
        CallWord::Seek => Ok(one_time(rest).map(Call::Seek)),
        CallWord::Play => Ok(call_alone(rest, Call::Play)),
        CallWord::Pause => Ok(call_alone(rest, Call::Pause)),
        CallWord::Advance => Ok(one_time(rest).map(Call::Advance)),
        CallWord::ElementBuffered => Ok(call_alone(rest, Call::ElementBuffered)),
        CallWord::Seekable => Ok(call_alone(rest, Call::Seekable)),
    }
}

/// Whether a line has only the bytes from 0x20 to 0x7E.
fn is_line(text: &str) -> bool
    ensures { result ≡ list_all is_printable text.now }
{
    text.as_bytes()
        .iter()
        .all(|byte| *byte >= b' ' && *byte <= b'~')
}

/// The call of a call line; `None` exactly where the line is none.
#[tactic(auto, unfolding(crate::specs::Lines::call_of_line))]
pub fn read_call(alloc: Global, line: &str) -> Result<Option<Call>, OutOfMemory>
    ensures { IfOk result (λ call. call ≡ call_of_line line.now) }
{
    if !is_line(line) {
        return Ok(None);
    }
    let (word, rest) = split_word(line);
    match CallWord::of_text(word) {
        Some(word) => read_arguments(alloc, word, rest),
        None => Ok(None),
    }
}

fn work_or_call(alloc: Global, line: &str) -> Result<Option<StepLine>, OutOfMemory>
    ensures { IfOk result (λ step. step ≡ other_step line.now) }
{
    let (word, rest) = split_word(line);
    if word == "work" {
        return Ok(one_index(rest).map(StepLine::Work));
    }
    let call = read_call(alloc, line)?;
    Ok(call.map(StepLine::Call))
}

/// The step of a step line; `None` exactly where the line is none.
#[tactic(auto, unfolding(crate::specs::Lines::step_of_line))]
pub fn read_step(alloc: Global, line: &str) -> Result<Option<StepLine>, OutOfMemory>
    ensures { IfOk result (λ step. step ≡ step_of_line line.now) }
{
    if line == "fire" {
        Ok(Some(StepLine::Fire))
    } else if line == "element" {
        Ok(Some(StepLine::Element))
    } else if line == "drain" {
        Ok(Some(StepLine::Drain))
    } else {
        work_or_call(alloc, line)
    }
}
