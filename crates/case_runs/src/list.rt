//! A line of the list of cases.

ghost use Rattle.std.specs.Prelude.{◌≡◌, ◌↔◌, Some, codes};

use anyhow::{Result, anyhow};
use std::alloc::{AllocError, Global};

/// What is tried with the words of a case.
#[derive(Clone, Copy, Debug, PartialEq, Eq)]
pub enum Way<'a> {
    /// They print the text, over both stores.
    Run,
    /// They print the text, over the store of the program alone: a list of so many frames takes too long.
    Indexed,
    /// Each put fails in turn, behind each number of its bytes: the front of the text up to there is printed. The puts
    /// end behind as many bytes as these numbers say, parted by commas, or with each line where there are none.
    Puts(&'a str),
    /// Each load fails in turn. The text has the names that are loaded, one a line.
    Loads,
    /// The script's first append of a part of a blob is cut at each byte: the run closes with the block of the text.
    Cut,
    /// The file of this name is cut at each byte. The text is a table of what is printed then.
    Fronts(&'a str),
    /// The line of the script that ends with `# repeat` stands so many times.
    Repeat(u64),
}

/// A line of the list.
#[derive(Drop)]
pub struct Case<'a> {
    /// The status that is wanted.
    pub status: u8,
    pub way: Way<'a>,
    /// The name of the text's file.
    pub text: &'a str,
    /// The words that the program is given.
    pub words: Vec<String>,
}

/// The way of a word.
fn read_way(word: &str) -> Option<Way<'_>>
    ensures run { (result ≡ Some Way.Run) ↔ (word.now ≡ codes "run") }
    ensures indexed { (result ≡ Some Way.Indexed) ↔ (word.now ≡ codes "indexed") }
    ensures loads { (result ≡ Some Way.Loads) ↔ (word.now ≡ codes "loads") }
    ensures cut { (result ≡ Some Way.Cut) ↔ (word.now ≡ codes "cut") }
{
    match word {
        "run" => Some(Way::Run),
        "indexed" => Some(Way::Indexed),
        "puts" => Some(Way::Puts("")),
        "loads" => Some(Way::Loads),
        "cut" => Some(Way::Cut),
        _ => match word.split_once('=')? {
            ("puts", ends) => Some(Way::Puts(ends)),
            ("fronts", file) => Some(Way::Fronts(file)),
            ("repeat", count) => match count.parse::<u64>() {
                Ok(count) => Some(Way::Repeat(count)),
                Err(_) => None,
            },
            _ => None,
        },
    }
}

/// Stands for a space in a word.
const SPACE: &str = "␣";

fn owned(alloc: Global, words: &[&str]) -> Result<Vec<String>, AllocError> {
    let mut made = Vec::new(alloc);
    for word in words {
        made.push(word.replace(alloc, SPACE, " ")?)?;
    }
    Ok(made)
}

/// The case of a line: status, way, the name of the text, and the words, parted by spaces.
pub fn read_case<'a>(alloc: Global, line: &'a str) -> Result<Case<'a>> {
    let parts: Vec<&'a str> = line.split_whitespace().collect(alloc)?;
    match parts.as_slice() {
        [status, way, text, words @ ..] => {
            let Ok(status) = status.parse::<u8>() else {
                return Err(anyhow!("no status: {line}"));
            };
            let Some(way) = read_way(way) else {
                return Err(anyhow!("no way: {line}"));
            };
            Ok(Case {
                status,
                way,
                text: *text,
                words: owned(alloc, words)?,
            })
        }
        _ => Err(anyhow!("no case: {line}")),
    }
}
