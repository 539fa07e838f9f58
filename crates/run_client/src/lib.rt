//! What a caller concludes from contracts alone: of two files and a script the status and the exact bytes that are
//! printed.
//!
//! It stands on `rule_run`, which it calls with one file in memory, and on `program_law`, which has these inputs, the
//! lines that are printed (`specs/Lines.antt`), and the equations between them.
#![tactic(auto)]

ghost use Rattle.std.specs.Prelude.{◌≡◌, ◌∷◌, [], IfOk, codes, map, string_bytes};
ghost use Rattle.std.specs.List.{concat};
ghost use Rattle.program_law.specs.Inputs.{one_file, output_on, script_file};
ghost use Rattle.program_law.specs.PlainFile.{plain_file};
ghost use Rattle.program_law.specs.Lines.{lines_of_empty_file, lines_of_plain_file, lines_of_script_file};
ghost use Rattle.rule_run.specs.Texts.{IsTextBy, IsWholeOrFront};

use mse_base::OutOfMemory;
use mse_commands::Status;
use mse_outside::{SureLibrary, SureSink};
use rule_run::{LISTENERS, run_in_memory};
use std::alloc::Global;
use track_store::ListStore;

/// A library of one file, which is called `a`.
fn library_of(alloc: Global, file: Vec<u8>) -> Result<SureLibrary, OutOfMemory>
    ensures { IfOk result (λ library. library ≡ one_file file.items) }
{
    let mut names = Vec::new(alloc);
    names.push(String::from_str(alloc, "a")?)?;
    let mut contents = Vec::new(alloc);
    contents.push(file)?;
    Ok(SureLibrary::new(alloc, names, contents))
}

/// The words of a command on that file.
fn words_of(alloc: Global, command: &str) -> Result<Vec<String>, OutOfMemory>
    ensures { IfOk result (λ words. map string_bytes words.items ≡ command.now ∷ codes "a" ∷ []) }
{
    let mut words = Vec::new(alloc);
    words.push(String::from_str(alloc, command)?)?;
    words.push(String::from_str(alloc, "a")?)?;
    Ok(words)
}

/// Runs a command on the file: the status, and the sink with what was printed.
fn run_on(alloc: Global, command: &str, file: Vec<u8>) -> Result<(Status, SureSink), OutOfMemory>
    ensures { IfOk result (λ made.
        IsTextBy (output_on command.now file.items) made.1.written made.0) }
{
    let words = words_of(alloc, command)?;
    let mut library = library_of(alloc, file)?;
    run_in_memory::<ListStore, SureLibrary>(alloc, LISTENERS, &words, &mut library)
}

/// `ranges` of a file: the status, and the sink with what was printed. An empty file leaves a source buffer without
/// tracks, and `plain.mp4` (`examples/README.md`) its three frames.
///
/// An `Err` is want of memory before the run.
pub fn ranges_of(alloc: Global, file: Vec<u8>) -> Result<(Status, SureSink), OutOfMemory>
    ensures empty { file.items ≡ [] → IfOk result (λ made.
        IsWholeOrFront Status.Ok (concat lines_of_empty_file) made.1.written made.0) }
    ensures plain { file.items ≡ plain_file → IfOk result (λ made.
        IsWholeOrFront Status.Ok (concat lines_of_plain_file) made.1.written made.0) }
{
    run_on(alloc, "ranges", file)
}

/// `play` of a script, with the sixteen listeners of the program: the status, and the sink with what was printed. In
/// the script of `specs/Inputs.antt` a listener asks for the state of the source when it opens.
///
/// An `Err` is want of memory before the run.
pub fn play_of(alloc: Global, script: Vec<u8>) -> Result<(Status, SureSink), OutOfMemory>
    ensures { script.items ≡ script_file → IfOk result (λ made.
        IsWholeOrFront Status.Ok (concat lines_of_script_file) made.1.written made.0) }
{
    run_on(alloc, "play", script)
}
