//! Runs in which a put or a load fails.

ghost use Rattle.std.specs.Prelude.{◌≡◌, ◌≤◌, ◌-◌, ◌++◌, ◌∷◌, ℕ, [], None, IfOk, codes, map, string_bytes, take};
ghost use Rattle.case_runs.specs.Runs.{Prints};

use crate::compare::try_words;
use crate::files::{bytes_of, text_of};
use crate::list::Case;
use crate::printed::{Setting, run_words};
use crate::tables::read_number;
use anyhow::Result;
use std::alloc::{AllocError, Global};

/// The status after a put that failed.
const WRITE: u8 = 4;
/// The status after a load that failed.
const READ: u8 = 3;

/// The first bytes, or all where there are not so many.
fn front(bytes: &[u8], count: usize) -> &[u8]
    ensures { result.now ≡ take count bytes.now }
{
    match bytes.get(..count) {
        Some(part) => part,
        None => bytes,
    }
}

/// The put of this number, whose bytes are from `start` to `end` of the text, fails behind each number of its bytes.
fn try_put(
    alloc: Global,
    case: &Case<'_>,
    setting: &Setting<'_>,
    text: &[u8],
    put: (u64, usize, usize),
) -> Result<Option<String>>
    ensures { IfOk result (λ found. found ≡ None → (n : ℕ) → put.1 ≤ n → n ≤ put.2
        → Prints (record setting.now { failing_put = (put.0, n - put.1) })
        (map string_bytes case.now.words.items) WRITE (take n text.now)) }
{
    let (number, start, end) = put;
    for written in start..=end {
        let count = written.saturating_sub(start) as u64;
        let setting = Setting {
            failing_put: (number, count),
            ..*setting
        };
        let wanted = front(text, written);
        if let Some(found) = try_words(alloc, &case.words, &setting, WRITE, wanted)? {
            let text = format!(in alloc; "put {number} fails behind {count} bytes: {found}")?;
            return Ok(Some(text));
        }
    }
    Ok(None)
}

/// Where the lines of a text end.
fn ends_of_lines(alloc: Global, text: &[u8]) -> Result<Vec<usize>, AllocError> {
    let mut ends = Vec::new(alloc);
    for (at, byte) in text.iter().enumerate() {
        if *byte == b'\n' {
            ends.push(at.saturating_add(1))?;
        }
    }
    Ok(ends)
}

/// The numbers of a list that commas part.
fn read_ends(alloc: Global, list: &str) -> Result<Vec<usize>> {
    let mut ends = Vec::new(alloc);
    for word in list.split(',') {
        ends.push(read_number(word)?)?;
    }
    Ok(ends)
}

/// Each put fails in turn; where the one behind them does, nothing does.
pub fn try_puts(
    alloc: Global,
    case: &Case<'_>,
    setting: &Setting<'_>,
    ends: &str,
) -> Result<Option<String>> {
    let text = bytes_of(setting.files, case.text)?;
    let ends = if ends.is_empty() {
        ends_of_lines(alloc, text)?
    } else {
        read_ends(alloc, ends)?
    };
    let mut number = 1u64;
    let mut start = 0usize;
    for end in &ends {
        if let Some(found) = try_put(alloc, case, setting, text, (number, start, *end))? {
            return Ok(Some(found));
        }
        number = number.saturating_add(1);
        start = *end;
    }
    let setting = Setting {
        failing_put: (number, 0),
        ..*setting
    };
    try_words(alloc, &case.words, &setting, case.status, text)
}

/// The load of a setting fails: its name is told. Where the put of that line fails too, nothing is written.
fn try_load(
    alloc: Global,
    case: &Case<'_>,
    setting: &Setting<'_>,
    name: &str,
) -> Result<Option<String>>
    ensures told { IfOk result (λ found. found ≡ None
        → Prints setting.now (map string_bytes case.now.words.items) READ
        (codes "error: read " ++ (name.now ++ 10 ∷ []))) }
    ensures silent { IfOk result (λ found. found ≡ None
        → Prints (record setting.now { failing_put = (1, 0) })
        (map string_bytes case.now.words.items) WRITE []) }
{
    let line = format!(in alloc; "error: read {name}\n")?;
    if let Some(found) = try_words(alloc, &case.words, setting, READ, line.as_bytes())? {
        return Ok(Some(found));
    }
    let setting = Setting {
        failing_put: (1, 0),
        ..*setting
    };
    try_words(alloc, &case.words, &setting, WRITE, &[])
}

/// Each load fails in turn; where the one behind them does, nothing does.
pub fn try_loads(alloc: Global, case: &Case<'_>, setting: &Setting<'_>) -> Result<Option<String>> {
    let names = text_of(bytes_of(setting.files, case.text)?)?;
    let whole = run_words(alloc, &case.words, setting)?;
    let mut setting = *setting;
    for name in names.lines() {
        setting.failing_load = setting.failing_load.saturating_add(1);
        if let Some(found) = try_load(alloc, case, &setting, name)? {
            return Ok(Some(found));
        }
    }
    setting.failing_load = setting.failing_load.saturating_add(1);
    try_words(
        alloc,
        &case.words,
        &setting,
        case.status,
        whole.sink.written(),
    )
}
