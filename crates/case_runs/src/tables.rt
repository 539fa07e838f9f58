//! The table of what the front parts of a file print.

ghost use Rattle.std.specs.Prelude.{◌≡◌, ◌≢◌, ◌<◌, ◌-◌, ◌++◌, ◌==◌, All, IfOk, length, string_bytes};
ghost use Rattle.std.specs.Fmt.{decimal};
ghost use Rattle.std.specs.List.{after_first, before_first, position_or_len};
ghost use Rattle.std.specs.Str.Parse.{digits_value, without_leading_plus};

use anyhow::{Result, anyhow};
use std::alloc::{AllocError, Global};

/// What the front parts of some lengths print. A `*` stands for the bytes held: how many the part has behind `base`.
#[derive(Drop)]
pub struct Row {
    pub shortest: usize,
    pub longest: usize,
    pub base: usize,
    pub block: String,
}

/// The decimal number of a word.
pub fn read_number(word: &str) -> Result<usize>
    ensures { IfOk result (λ n. n ≡ digits_value 10 (without_leading_plus word.now)) }
{
    match word.parse::<usize>() {
        Ok(number) => Ok(number),
        Err(_) => Err(anyhow!("no number: {word}")),
    }
}

/// The row of a line `bytes SHORTEST LONGEST BASE`.
fn read_row(alloc: Global, numbers: &str) -> Result<Row> {
    let words: Vec<&str> = numbers.split_whitespace().collect(alloc)?;
    match words.as_slice() {
        [shortest, longest, base] => Ok(Row {
            shortest: read_number(shortest)?,
            longest: read_number(longest)?,
            base: read_number(base)?,
            block: String::new(alloc),
        }),
        _ => Err(anyhow!("no row: {numbers}")),
    }
}

/// The rows of a table: each begins with a line `bytes SHORTEST LONGEST BASE`, and what is printed follows.
pub fn read_table(alloc: Global, table: &str) -> Result<Vec<Row>> {
    let mut rows = Vec::new(alloc);
    let mut row: Option<Row> = None;
    for line in table.lines() {
        match (line.strip_prefix("bytes "), &mut row) {
            (Some(numbers), _) => {
                let next = read_row(alloc, numbers)?;
                if let Some(done) = row.replace(next) {
                    rows.push(done)?;
                }
            }
            (None, Some(row)) => {
                row.block.push_str(line)?;
                row.block.push('\n')?;
            }
            (None, None) => return Err(anyhow!("a table begins with `bytes`")),
        }
    }
    if let Some(done) = row {
        rows.push(done)?;
    }
    Ok(rows)
}

/// What the front part of this length prints: the block of the row, with the length less its base for the first `*` (42).
pub fn block_of(alloc: Global, row: &Row, len: usize) -> Result<String, AllocError>
    ensures star { position_or_len (λ b. b == 42) (string_bytes row.now.block)
        < length (string_bytes row.now.block) → IfOk result (λ block.
        string_bytes block ≡ before_first (λ b. b == 42) (string_bytes row.now.block)
        ++ (decimal (len - row.now.base)
        ++ after_first (λ b. b == 42) (string_bytes row.now.block))) }
    ensures no_star { All (λ b. b ≢ 42) (string_bytes row.now.block)
        → IfOk result (λ block. string_bytes block ≡ string_bytes row.now.block) }
{
    match row.block.as_str().split_once('*') {
        Some((front, back)) => {
            let held = len.saturating_sub(row.base);
            format!(in alloc; "{front}{held}{back}")
        }
        None => String::from_str(alloc, row.block.as_str()),
    }
}
