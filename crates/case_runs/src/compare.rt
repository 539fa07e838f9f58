//! What was printed beside what was wanted.

ghost use Rattle.std.specs.Prelude.{◌≡◌, ◌↔◌, None, IfOk, map, string_bytes};
ghost use Rattle.case_runs.specs.Runs.{Prints};

use crate::printed::{Printed, Setting, run_words};
use std::alloc::{AllocError, Global};

/// Says that the line of this number is another than the one that is wanted.
fn other_line(alloc: Global, number: u64, line: &str, other: &str) -> Result<String, AllocError> {
    format!(in alloc; "line {number} is `{other}` and not `{line}`")
}

/// The first line in which two texts differ that are not the same.
fn first_line(alloc: Global, wanted: &str, printed: &str) -> Result<String, AllocError> {
    let mut number = 0u64;
    let mut others = printed.lines();
    for line in wanted.lines() {
        number = number.saturating_add(1);
        match others.next() {
            Some(other) if other == line => {}
            Some(other) => return other_line(alloc, number, line, other),
            None => return format!(in alloc; "line {number} is not there: `{line}`"),
        }
    }
    match others.next() {
        Some(other) => format!(in alloc; "a line too many: `{other}`"),
        None => format!(in alloc; "the line ends differ"),
    }
}

/// Where two texts differ first; `None` exactly where they are the same.
pub fn difference(
    alloc: Global,
    wanted: &[u8],
    printed: &[u8],
) -> Result<Option<String>, AllocError>
    ensures same { IfOk result (λ found. (found ≡ None) ↔ (wanted.now ≡ printed.now)) }
{
    if wanted == printed {
        return Ok(None);
    }
    let wanted_text = String::from_utf8_lossy(alloc, wanted)?;
    let printed_text = String::from_utf8_lossy(alloc, printed)?;
    let line = first_line(alloc, wanted_text.as_str(), printed_text.as_str())?;
    Ok(Some(line))
}

/// Where a run differs from a status and a text; `None` exactly where both are as wanted.
pub fn difference_of_run(
    alloc: Global,
    status: u8,
    text: &[u8],
    printed: &Printed,
) -> Result<Option<String>, AllocError>
    ensures same { IfOk result (λ found. (found ≡ None)
        ↔ ((printed.now.status ≡ status) × (printed.now.sink.written ≡ text.now))) }
{
    if printed.status != status {
        let found = printed.status;
        let text = format!(in alloc; "the status is {found} and not {status}")?;
        return Ok(Some(text));
    }
    difference(alloc, text, printed.sink.written())
}

/// Runs the words: where they differ from a status and a text, and `None` only where both are as wanted.
pub fn try_words(
    alloc: Global,
    words: &[String],
    setting: &Setting<'_>,
    status: u8,
    text: &[u8],
) -> anyhow::Result<Option<String>>
    ensures { IfOk result (λ found. found ≡ None
        → Prints setting.now (map string_bytes words.now) status text.now) }
{
    let printed = run_words(alloc, words, setting)?;
    Ok(difference_of_run(alloc, status, text, &printed)?)
}
