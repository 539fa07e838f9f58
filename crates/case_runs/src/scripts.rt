//! Scripts that are changed before they are run.

ghost use Rattle.std.specs.Prelude.{◌≡◌, ◌+◌, ◌-◌, ◌^◌, ◌<◌, ◌++◌, IfOk, codes, string_bytes};
ghost use Rattle.std.specs.Fmt.{decimal};

use std::alloc::{AllocError, Global};

/// An append of a part of a blob.
#[derive(Clone, Copy, Debug, PartialEq, Eq)]
struct Part {
    buffer: u64,
    blob: u64,
    first: u64,
    len: u64,
}

fn read_number(word: Option<&str>) -> Option<u64> {
    match word?.parse::<u64>() {
        Ok(number) => Some(number),
        Err(_) => None,
    }
}

/// The append that a line of a script makes, if it is one of a part of a blob.
fn read_append(line: &str) -> Option<Part> {
    let mut words = line.strip_prefix("append ")?.split_whitespace();
    let buffer = read_number(words.next())?;
    let blob = read_number(words.next())?;
    let first = read_number(words.next())?;
    let len = read_number(words.next())?;
    Some(Part {
        buffer,
        blob,
        first,
        len,
    })
}

/// How many bytes the first append of a part has, and none where a script has no such append in `"`.
pub fn append_len(script: &str) -> Option<u64> {
    let mut rest = script;
    for _ in 0..script.len() {
        let (front, behind) = rest.split_once('"')?;
        if let Some(part) = read_append(front) {
            return Some(part.len);
        }
        rest = behind;
    }
    None
}

/// A part that is cut behind so many bytes.
fn cut_part(part: Part, at: u64) -> (Part, Part)
    ensures front { result.0 ≡ record part { len = at } }
    ensures back { part.first + at < 2 ^ 64
        → result.1 ≡ record part { first = part.first + at; len = part.len - at } }
{
    let front = Part { len: at, ..part };
    let back = Part {
        first: part.first.saturating_add(at),
        len: part.len.saturating_sub(at),
        ..part
    };
    (front, back)
}

/// The append of a part.
fn append_text(alloc: Global, part: Part) -> Result<String, AllocError>
    ensures { IfOk result (λ text. string_bytes text
        ≡ codes "append " ++ (decimal part.buffer ++ (codes " " ++ (decimal part.blob
        ++ (codes " " ++ (decimal part.first ++ (codes " " ++ decimal part.len))))))) }
{
    let Part {
        buffer,
        blob,
        first,
        len,
    } = part;
    format!(in alloc; "append {buffer} {blob} {first} {len}")
}

/// The two appends that a part makes which is cut, with a drain between them.
fn cut_append(alloc: Global, part: Part, at: u64) -> Result<String, AllocError> {
    let (front, back) = cut_part(part, at);
    let front = append_text(alloc, front)?;
    let back = append_text(alloc, back)?;
    format!(in alloc; "{front}\", \"drain\", \"{back}")
}

/// The script whose first append of a part is cut behind so many bytes.
pub fn cut_script(alloc: Global, script: &str, at: u64) -> Result<String, AllocError> {
    let mut made = String::new(alloc);
    let mut rest = script;
    let mut is_cut = false;
    for _ in 0..script.len() {
        let Some((front, behind)) = rest.split_once('"') else {
            break;
        };
        match read_append(front) {
            Some(part) if !is_cut => {
                is_cut = true;
                made.push_str(cut_append(alloc, part, at)?.as_str())?;
            }
            _ => made.push_str(front)?,
        }
        made.push('"')?;
        rest = behind;
    }
    made.push_str(rest)?;
    Ok(made)
}

/// The script whose lines that end with `# repeat` stand so many times.
pub fn repeated_script(alloc: Global, script: &str, count: u64) -> Result<String, AllocError> {
    let mut made = String::new(alloc);
    for line in script.lines() {
        let times = if line.ends_with("# repeat") { count } else { 1 };
        for _ in 0..times {
            made.push_str(line)?;
            made.push('\n')?;
        }
    }
    Ok(made)
}
