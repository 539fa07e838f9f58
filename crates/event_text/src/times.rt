ghost use Rattle.std.specs.Prelude.{◌≡◌, ◌∷◌, ◌++◌, OnOk, codes, string_bytes};
ghost use Rattle.std.specs.Fmt.{signed_decimal};
ghost use Rattle.event_text.specs.Times.{moment_text, span_text, ranges_text, range_text};

use itoa::Buffer;
use mse_base::{Moment, Span, Ticks};
use mse_calls::TimeRanges;
use std::alloc::AllocError;

/// Appends a time, in ticks.
pub fn push_ticks(text: &mut String, t: Ticks) -> Result<(), AllocError>
    ensures { OnOk result (string_bytes text.new ≡ string_bytes text.old ++ signed_decimal t) }
{
    let mut buffer = Buffer::new();
    text.push_str(buffer.format(t.get()))
}

/// Appends a time in ticks, or `nan` or `inf`.
pub fn push_moment(text: &mut String, t: Moment) -> Result<(), AllocError>
    ensures { OnOk result (string_bytes text.new ≡ string_bytes text.old ++ moment_text t) }
{
    match t {
        Moment::Nan => text.push_str("nan"),
        Moment::At(ticks) => push_ticks(text, ticks),
        Moment::Infinite => text.push_str("inf"),
    }
}

/// Appends `[A,B`.
fn push_bounds(text: &mut String, span: &Span) -> Result<(), AllocError>
    ensures { OnOk result (string_bytes text.new ≡ string_bytes text.old ++ (codes "["
        ++ (signed_decimal span.now.start ++ (codes "," ++ signed_decimal span.now.end)))) }
{
    text.push_str("[")?;
    push_ticks(text, span.start)?;
    text.push_str(",")?;
    push_ticks(text, span.end)
}

/// Appends `[A,B)`.
fn push_span(text: &mut String, span: &Span) -> Result<(), AllocError>
    ensures { OnOk result (string_bytes text.new ≡ string_bytes text.old ++ span_text span.now) }
{
    push_bounds(text, span)?;
    text.push_str(")")
}

/// Appends a space and `[A,B)`.
fn push_next_span(text: &mut String, span: &Span) -> Result<(), AllocError>
    ensures { OnOk result (string_bytes text.new
        ≡ string_bytes text.old ++ (32 ∷ span_text span.now)) }
{
    text.push_str(" ")?;
    push_span(text, span)
}

/// Appends `[A,B]`, or `none`.
pub fn push_range(text: &mut String, range: &Option<Span>) -> Result<(), AllocError>
    ensures { OnOk result (string_bytes text.new ≡ string_bytes text.old ++ range_text range.now) }
{
    match range {
        None => text.push_str("none"),
        Some(span) => {
            push_bounds(text, &span)?;
            text.push_str("]")
        }
    }
}

/// Appends the ranges parted by one space, or `none`.
pub fn push_ranges(text: &mut String, ranges: &TimeRanges) -> Result<(), AllocError>
    ensures { OnOk result (string_bytes text.new
        ≡ string_bytes text.old ++ ranges_text ranges.now) }
{
    let Some(first) = ranges.get(0) else {
        return text.push_str("none");
    };
    push_span(text, &first)?;
    for i in 1..ranges.len() {
        let span = ranges.get(i).unwrap();
        push_next_span(text, &span)?;
    }
    Ok(())
}
