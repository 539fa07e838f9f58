//! What is printed beside a block: the line of a made file before it, and the line that says why a
//! run ends early.

ghost use Rattle.std.specs.Prelude.{◌≡◌, ◌++◌, ◌∷◌, [], IfOk, string_bytes};
ghost use Rattle.event_text.specs.Words.{printable_text};
ghost use Rattle.mse_commands.specs.Endings.{error_line, script_line};
ghost use Rattle.mse_commands.specs.Heading.{made_line, heading_of};

use crate::ending::End;
use crate::words::Command;
use call_script::ScriptFault;
use event_text::printable_text;
use mse_base::OutOfMemory;
use std::alloc::Global;

/// The line of a file that was made of so many segments, with its length in bytes.
fn made_line(alloc: Global, count: u32, len: usize) -> Result<String, OutOfMemory>
    ensures { IfOk result (λ line. string_bytes line ≡ made_line count len) }
{
    let frames = 30 * u64::from(count);
    let line = format!(in alloc; "made {count} bytes {len} frames {frames}\n")?;
    Ok(line)
}

/// What stands before the block of a file of `len` bytes: nothing where it was loaded.
pub fn heading(alloc: Global, command: &Command, len: usize) -> Result<String, OutOfMemory>
    ensures { IfOk result (λ text. string_bytes text ≡ heading_of command.now len) }
{
    match *command {
        Command::Ranges | Command::Pieces(_) | Command::Feed(_) | Command::Play | Command::Remux =>
            Ok(String::new(alloc)),
        Command::Make(count) => made_line(alloc, count, len),
    }
}

/// The words, the name as it is printed, and a line feed.
fn line_naming(alloc: Global, words: &str, name: &str) -> Result<String, OutOfMemory>
    ensures { IfOk result (λ line.
        string_bytes line ≡ words.now ++ (printable_text name.now ++ 10 ∷ [])) }
{
    let shown_name = printable_text(alloc, name)?;
    let shown_name = shown_name.as_str();
    let line = format!(in alloc; "{words}{shown_name}\n")?;
    Ok(line)
}

/// The line of a script's fault.
fn script_line(alloc: Global, fault: &ScriptFault) -> Result<String, OutOfMemory>
    ensures { IfOk result (λ line. string_bytes line ≡ script_line fault.now) }
{
    match fault {
        ScriptFault::NotToml => Ok(String::from_str(alloc, "error: script not toml\n")?),
        ScriptFault::Key(name) => line_naming(alloc, "error: script key ", name.as_str()),
        ScriptFault::TooMany(key) => {
            let name = key.name();
            Ok(format!(in alloc; "error: script too many {name}\n")?)
        }
        ScriptFault::Blob(n) => Ok(format!(in alloc; "error: script blob {n}\n")?),
        ScriptFault::Step(n) => Ok(format!(in alloc; "error: script step {n}\n")?),
        ScriptFault::Rule(n) => Ok(format!(in alloc; "error: script rule {n}\n")?),
    }
}

/// The line that says why a run ends early; empty after want of memory and a failed put.
pub fn error_line_for(alloc: Global, end: &End) -> Result<String, OutOfMemory>
    ensures { IfOk result (λ line. string_bytes line ≡ error_line end.now) }
{
    match end {
        End::Memory | End::Write => Ok(String::new(alloc)),
        End::Words => Ok(String::from_str(alloc, "error: words\n")?),
        End::NoFile(name) => line_naming(alloc, "error: no file ", name.as_str()),
        End::Read(name) => line_naming(alloc, "error: read ", name.as_str()),
        End::Script(fault) => script_line(alloc, fault),
        End::CallBudget(number) => {
            Ok(format!(in alloc;
                "error: listener {number} answered more than 1000 calls for one event\n"
            )?)
        }
        End::TaskBudget(limit) => {
            Ok(format!(in alloc; "error: more than {limit} listener calls in one drain\n")?)
        }
    }
}
