//! The words of a call.

ghost use Rattle.std.specs.Prelude.{◌≡◌, ◌≤◌, IfSome, map, string_bytes};
ghost use Rattle.mse_commands.specs.Words.{count_of_word, finite_time, command_of_two, command_of_three, command_of, file_of, IsInRange};

use call_script::{read_index, read_time};
use mse_base::{Moment, Ticks};

/// The most bytes that a piece may have.
const LONGEST: u32 = 1 << 31;

/// The most segments that are made.
const MOST_SEGMENTS: u32 = 10000;

/// What the words ask for.
#[derive(Clone, Copy, Debug, PartialEq, Eq)]
pub enum Command {
    /// `ranges FILE`: what is buffered when the whole file was appended.
    Ranges,
    /// `pieces N FILE`: the same in appends of N bytes each, 1 to 2^31, of which the last may be
    /// shorter.
    Pieces(u32),
    /// `make N`: the same of a file that is made of N segments, 1 to 10000, in appends of 1000
    /// bytes.
    Make(u32),
    /// `play SCRIPT`: the calls of a script.
    Play,
    /// `remux FILE`: a classic file as fragments.
    Remux,
    /// `feed T FILE`: the frames that a decoder is given to show the time T and all that comes
    /// after it, when the whole file was appended.
    Feed(Ticks),
}

/// The number from 1 to `most` that a word names: decimal digits without leading zeros.
fn read_count(most: u32, word: &str) -> Option<u32>
    ensures value { result ≡ count_of_word most word.now }
    ensures bounds { IfSome result (λ count. (1 ≤ count) × (count ≤ most)) }
{
    let count = read_index(word)?;
    if 1 <= count && count <= most {
        Some(count)
    } else {
        None
    }
}

/// The time that a word writes, where it is one of a number of ticks.
fn finite_time(word: &str) -> Option<Ticks>
    ensures { result ≡ finite_time word.now }
{
    match read_time(word)? {
        Moment::At(t) => Some(t),
        Moment::Nan | Moment::Infinite => None,
    }
}

/// What two words ask for.
fn command_of_two(name: &str, word: &str) -> Option<Command>
    ensures value { result ≡ command_of_two name.now word.now }
    ensures range { IfSome result IsInRange }
{
    if name == "ranges" {
        Some(Command::Ranges)
    } else if name == "play" {
        Some(Command::Play)
    } else if name == "remux" {
        Some(Command::Remux)
    } else if name == "make" {
        let count = read_count(MOST_SEGMENTS, word)?;
        Some(Command::Make(count))
    } else {
        None
    }
}

/// What three words ask for, of which the last names a file.
fn command_of_three(name: &str, word: &str) -> Option<Command>
    ensures value { result ≡ command_of_three name.now word.now }
    ensures range { IfSome result IsInRange }
{
    if name == "pieces" {
        let count = read_count(LONGEST, word)?;
        Some(Command::Pieces(count))
    } else if name == "feed" {
        let at = finite_time(word)?;
        Some(Command::Feed(at))
    } else {
        None
    }
}

/// What the words ask for; `None` exactly where they are no command.
pub fn read_command(words: &[String]) -> Option<Command>
    ensures value { result ≡ command_of (map string_bytes words.now) }
    ensures range { IfSome result IsInRange }
{
    match words {
        [name, word] => command_of_two(name.as_str(), word.as_str()),
        [name, word, _] => command_of_three(name.as_str(), word.as_str()),
        _ => None,
    }
}

/// The last of two or three words, which names the file that a command loads; empty where there are
/// fewer or more.
pub fn file_name(words: &[String]) -> &str
    ensures { result.now ≡ file_of (map string_bytes words.now) }
{
    match words {
        [_, file] | [_, _, file] => file.as_str(),
        _ => "",
    }
}
