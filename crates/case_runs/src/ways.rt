//! What is tried with a case.

ghost use Rattle.std.specs.Prelude.{◌≡◌, ◌≢◌, ◌↔◌, false, None, Some, IfOk, IsTrue, codes, option_map, slice_get, string_bytes};
ghost use Rattle.case_runs.specs.Closing.{CloseAlike, IsClosing};
ghost use Rattle.case_runs.specs.Runs.{IsAsWanted, plain};

use crate::compare::{difference, difference_of_run, try_words};
use crate::failing::{try_loads, try_puts};
use crate::files::{CaseFile, bytes_of, text_of};
use crate::list::{Case, Way};
use crate::printed::{Printed, Setting, Store, run_words};
use crate::scripts::{append_len, cut_script, repeated_script};
use crate::tables::{Row, block_of, read_table};
use anyhow::{Result, anyhow};
use std::alloc::{AllocError, Global};

/// The status of a run whose block tells a fault.
const MEDIA: u8 = 9;

/// Whether a case plays a script.
fn plays_script(case: &Case<'_>) -> bool
    ensures { IsTrue result
        ↔ (option_map string_bytes (slice_get case.now.words.items 0) ≡ Some (codes "play")) }
{
    matches!(case.words.first(), Some(word) if word.as_str() == "play")
}

/// The words print the text.
fn try_setting(alloc: Global, case: &Case<'_>, setting: &Setting<'_>) -> Result<Option<String>>
    ensures { IfOk result (λ found. found ≡ None → IsAsWanted setting.now case.now) }
{
    let text = bytes_of(setting.files, case.text)?;
    try_words(alloc, &case.words, setting, case.status, text)
}

/// The words print the text; and without listeners, where no script has rules for them.
fn try_text(alloc: Global, case: &Case<'_>, setting: &Setting<'_>) -> Result<Option<String>>
    ensures as_is { IfOk result (λ found. found ≡ None → IsAsWanted setting.now case.now) }
    ensures unheard { IfOk result (λ found. found ≡ None
        → option_map string_bytes (slice_get case.now.words.items 0) ≢ Some (codes "play")
        → IsAsWanted (record setting.now { is_heard = false }) case.now) }
{
    let found = try_setting(alloc, case, setting)?;
    if found.is_some() || plays_script(case) {
        return Ok(found);
    }
    let unheard = Setting {
        is_heard: false,
        ..*setting
    };
    try_setting(alloc, case, &unheard)
}

/// The name and the text of the script that a case plays.
fn script_of<'a>(files: &'a [CaseFile], case: &'a Case<'a>) -> Result<(&'a str, &'a str)> {
    match case.words.get(1) {
        Some(name) => Ok((name.as_str(), text_of(bytes_of(files, name.as_str())?)?)),
        None => Err(anyhow!("the case plays no script")),
    }
}

/// What closes a text: the code of the element's error, and the block.
fn closing(text: &str) -> &str
    ensures { IsClosing text.now result.now }
{
    match text.rsplit_once(" error ") {
        Some((_, closing)) => closing,
        None => text,
    }
}

/// Where the closing of a run differs from that of a text; `None` only where the run closes so, with this status.
fn difference_of_closing(
    alloc: Global,
    status: u8,
    text: &str,
    printed: &Printed,
) -> Result<Option<String>>
    ensures status { IfOk result (λ found. found ≡ None → printed.now.status ≡ status) }
    ensures closing { IfOk result (λ found. found ≡ None
        → CloseAlike text.now printed.now.sink.written) }
{
    let found = closing(text_of(printed.sink.written())?);
    if printed.status != status {
        return Ok(difference_of_run(alloc, status, text.as_bytes(), printed)?);
    }
    Ok(difference(alloc, closing(text).as_bytes(), found.as_bytes())?)
}

/// The first append of a part is cut at each byte.
fn try_cuts<'x>(
    alloc: Global,
    case: &'x Case<'x>,
    setting: &'x Setting<'x>,
) -> Result<Option<String>> {
    let (name, script) = script_of(setting.files, case)?;
    let text = text_of(bytes_of(setting.files, case.text)?)?;
    let Some(len) = append_len(script) else {
        return Err(anyhow!("{name} appends no part of a blob"));
    };
    for at in 0..=len {
        let script = cut_script(alloc, script, at)?;
        let setting = Setting {
            changed: Some((name, script.as_bytes())),
            ..*setting
        };
        let printed = run_words(alloc, &case.words, &setting)?;
        if let Some(found) = difference_of_closing(alloc, case.status, text, &printed)? {
            return Ok(Some(format!(in alloc; "cut at {at}: {found}")?));
        }
    }
    Ok(None)
}

/// A row's block is printed of the front part of this length: of a script as the last lines, of a file as all.
fn difference_of_front(
    alloc: Global,
    is_script: bool,
    block: &str,
    printed: &Printed,
) -> Result<Option<String>, AllocError> {
    let written = printed.sink.written();
    if is_script {
        if printed.status == 0 && written.ends_with(block.as_bytes()) {
            return Ok(None);
        }
        return difference_of_run(alloc, 0, block.as_bytes(), printed);
    }
    let status = if block.contains("\nfault ") { MEDIA } else { 0 };
    difference_of_run(alloc, status, block.as_bytes(), printed)
}

/// The front parts of the lengths of a row print its block.
fn try_row(
    alloc: Global,
    case: &Case<'_>,
    setting: &Setting<'_>,
    file: (&str, &[u8]),
    row: &Row,
) -> Result<Option<String>> {
    let (name, bytes) = file;
    let is_script = plays_script(case);
    for len in row.shortest..=row.longest {
        let Some(front) = bytes.get(..len) else {
            return Err(anyhow!("{name} has fewer than {len} bytes"));
        };
        let block = block_of(alloc, row, len)?;
        let setting = Setting {
            changed: Some((name, front)),
            ..*setting
        };
        let printed = run_words(alloc, &case.words, &setting)?;
        if let Some(found) = difference_of_front(alloc, is_script, block.as_str(), &printed)? {
            return Ok(Some(format!(in alloc; "at {len} bytes: {found}")?));
        }
    }
    Ok(None)
}

/// The file of this name is cut at each byte. The rows of the table follow each other, from 0 to its length.
fn try_fronts(
    alloc: Global,
    case: &Case<'_>,
    setting: &Setting<'_>,
    name: &str,
) -> Result<Option<String>> {
    let bytes = bytes_of(setting.files, name)?;
    let rows = read_table(alloc, text_of(bytes_of(setting.files, case.text)?)?)?;
    let mut next = 0usize;
    for row in &rows {
        if row.shortest != next {
            return Err(anyhow!("a row begins with {next} bytes"));
        }
        next = row.longest.saturating_add(1);
        if let Some(found) = try_row(alloc, case, setting, (name, bytes), row)? {
            return Ok(Some(found));
        }
    }
    if next != bytes.len().saturating_add(1) {
        return Err(anyhow!("the last row ends with the file"));
    }
    Ok(None)
}

/// A line of the script stands so many times.
fn try_repeated<'x>(
    alloc: Global,
    case: &'x Case<'x>,
    setting: &'x Setting<'x>,
    count: u64,
) -> Result<Option<String>> {
    let (name, script) = script_of(setting.files, case)?;
    let script = repeated_script(alloc, script, count)?;
    let setting = Setting {
        changed: Some((name, script.as_bytes())),
        ..*setting
    };
    try_text(alloc, case, &setting)
}

/// Where a case differs with a setting from what is wanted; `None` where it does not.
fn try_way(alloc: Global, case: &Case<'_>, setting: &Setting<'_>) -> Result<Option<String>>
    ensures run { case.now.way ≡ Way.Run
        → IfOk result (λ found. found ≡ None → IsAsWanted setting.now case.now) }
{
    match case.way {
        Way::Run => try_text(alloc, case, setting),
        Way::Indexed => try_setting(alloc, case, setting),
        Way::Puts(ends) => try_puts(alloc, case, setting, ends),
        Way::Loads => try_loads(alloc, case, setting),
        Way::Cut => try_cuts(alloc, case, setting),
        Way::Fronts(name) => try_fronts(alloc, case, setting, name),
        Way::Repeat(count) => try_repeated(alloc, case, setting, count),
    }
}

/// Where a case differs over a store from what is wanted, told with the store; `None` where it does not.
fn try_over(
    alloc: Global,
    files: &[CaseFile],
    case: &Case<'_>,
    store: Store,
) -> Result<Option<String>>
    ensures run { case.now.way ≡ Way.Run
        → IfOk result (λ found. found ≡ None → IsAsWanted (plain files.entry store) case.now) }
{
    match try_way(alloc, case, &Setting::plain(files, store))? {
        Some(found) => {
            let store = store.name();
            Ok(Some(format!(in alloc; "over {store}: {found}")?))
        }
        None => Ok(None),
    }
}

/// Where a case differs from what is wanted, over both stores or over that of the program; `None` where it does not.
pub fn try_case(alloc: Global, files: &[CaseFile], case: &Case<'_>) -> Result<Option<String>>
    ensures index { case.now.way ≡ Way.Run → IfOk result (λ found. found ≡ None
        → IsAsWanted (plain files.entry Store.Index) case.now) }
    ensures list { case.now.way ≡ Way.Run → IfOk result (λ found. found ≡ None
        → IsAsWanted (plain files.entry Store.List) case.now) }
{
    let found = try_over(alloc, files, case, Store::Index)?;
    if found.is_some() || matches!(case.way, Way::Indexed) {
        return Ok(found);
    }
    try_over(alloc, files, case, Store::List)
}
