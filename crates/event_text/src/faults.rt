ghost use Rattle.std.specs.Prelude.{◌≡◌, ◌++◌, IfOk, OnOk, string_bytes};
ghost use Rattle.event_text.specs.Words.{name_at};
ghost use Rattle.event_text.specs.Faults.{stream_faults, init_faults, moof_faults, init_fault_text, inner_text, fault_line};

use crate::words::push_code;
use mse_base::{OutOfMemory, Text};
use mse_calls::FaultView;
use std::alloc::{AllocError, Global};

/// The name of a violation of a byte stream format.
fn stream_fault_word(number: u8) -> &'static str
    ensures { result.now ≡ name_at stream_faults number }
{
    match number {
        1 => "SizeZero",
        2 => "BoxSize",
        3 => "TooLarge",
        4 => "MoovPlace",
        5 => "MoofPlace",
        6 => "NoInit",
        7 => "InSegment",
        8 => "OutsideMdat",
        9 => "Init",
        10 => "Moof",
        11 => "NoTracks",
        12 => "Codec",
        13 => "TracksDiffer",
        14 => "TimeRange",
        15 => "Sync",
        16 => "Rate",
        17 => "Length",
        18 => "Counts",
        _ => "Unknown",
    }
}

/// The name of what is wrong in an initialization segment.
fn init_fault_word(inner: u8) -> &'static str
    ensures { result.now ≡ name_at init_faults inner }
{
    match inner {
        1 => "Size",
        2 => "Missing",
        3 => "HasSamples",
        4 => "NoMvex",
        5 => "EditList",
        6 => "ZeroTimescale",
        7 => "DuplicateTrack",
        8 => "TooManyTracks",
        _ => "Unknown",
    }
}

/// The name of what is wrong in a movie fragment.
fn moof_fault_word(inner: u8) -> &'static str
    ensures { result.now ≡ name_at moof_faults inner }
{
    match inner {
        1 => "Size",
        2 => "NoTraf",
        3 => "NoTfhd",
        4 => "NoTfdt",
        5 => "BaseOffset",
        6 => "UnknownTrack",
        7 => "TooManySamples",
        8 => "Place",
        _ => "Unknown",
    }
}

/// Appends what is wrong in an initialization segment, with the box that is missing.
fn push_init_fault(text: &mut String, inner: u8, missing: &[u8; 4]) -> Result<(), AllocError>
    ensures { OnOk result (string_bytes text.new
        ≡ string_bytes text.old ++ init_fault_text inner missing.now) }
{
    text.push_str(init_fault_word(inner))?;
    if inner != 2 {
        return Ok(());
    }
    text.push_str(" ")?;
    push_code(text, missing)
}

/// What is wrong in an initialization segment, by its number from 1 on; for a box that is
/// missing, the number 2, its type follows.
pub fn init_fault(alloc: Global, inner: u8, missing: &[u8; 4]) -> Result<Text, OutOfMemory>
    ensures { IfOk result (λ t. t ≡ init_fault_text inner missing.now) }
{
    let mut words = String::new(alloc);
    push_init_fault(&mut words, inner, missing)?;
    Ok(Text::from_string(alloc, words))
}

/// Appends a space and what is wrong in the initialization segment or the movie fragment; nothing for
/// another fault.
fn push_inner(text: &mut String, fault: &FaultView) -> Result<(), AllocError>
    ensures { OnOk result (string_bytes text.new ≡ string_bytes text.old ++ inner_text fault.now) }
{
    match fault.number {
        9 => {
            text.push_str(" ")?;
            push_init_fault(text, fault.inner, &fault.missing)
        }
        10 => {
            text.push_str(" ")?;
            text.push_str(moof_fault_word(fault.inner))
        }
        _ => Ok(()),
    }
}

/// The line of a violation of a byte stream format, with its line feed.
pub fn fault_line(alloc: Global, fault: &FaultView) -> Result<Text, OutOfMemory>
    ensures { IfOk result (λ text. text ≡ fault_line fault.now) }
{
    let mut line = String::new(alloc);
    push_fault_line(&mut line, fault)?;
    Ok(Text::from_string(alloc, line))
}

/// Appends the line of a fault.
pub fn push_fault_line(text: &mut String, fault: &FaultView) -> Result<(), AllocError>
    ensures { OnOk result (string_bytes text.new ≡ string_bytes text.old ++ fault_line fault.now) }
{
    let number = fault.number;
    let name = stream_fault_word(number);
    let buffer = fault.buffer;
    let offset = fault.offset;
    write!(text, "fault {number} {name}")?;
    push_inner(text, fault)?;
    write!(text, " buffer {buffer} at {offset}\n")
}
