//! The program: plays the scripts and files that its words name in the current folder, or makes a
//! file, and prints what happens: calls, answers and events, and what a media source has buffered
//! in the end. It writes classic files as fragments, and prints the frames that a decoder is given.
//!
//! It is made of `rule_run`, whose [`run_by_rules`] does all of it. [`play`] hands in the words, any library and sink, the
//! number of listeners and the store of `track_index`, and ends with the number of the status; its clause is the main
//! contract. `main` alone names the folder and standard output.
#![tactic(auto)]

ghost use Rattle.std.specs.Prelude.{◌≡◌, ◌≢◌, IfErr, IfOk, IsErr, IsOk, OnErr, drop, map, string_bytes};
ghost use Rattle.std.specs.IoError.{error_kind};
ghost use Rattle.std.specs.Process.{exit_status};
ghost use Rattle.std.specs.Vec.Iter.{into_iter_items};
ghost use Rattle.rule_run.specs.ByRules.{IsRunByRules, library_and_sink};
ghost use Rattle.mseplay.specs.Runs.{IsRunOfProgram};
ghost use Rattle.mseplay.specs.Words.{words_in};

use mse_base::OutOfMemory;
use mse_commands::Status;
use mse_outside::{FolderLibrary, Library, Sink, StdoutSink, SystemFiles, SystemOutput};
use rule_run::{LISTENERS, run_by_rules};
use std::alloc::Global;
use std::env::{self, Args};
use std::io::{self, ErrorKind};
use std::process::ExitCode;
use track_index::IndexStore;

/// All arguments but the first, which is the program's name.
fn words_behind_name(alloc: Global, arguments: Args) -> Result<Vec<String>, OutOfMemory>
    ensures { IfOk result (λ words. words.items ≡ drop 1 (into_iter_items arguments)) }
{
    Ok(arguments.skip(1).collect(alloc)?)
}

/// The words of the program. There are none where an argument is no text, so that the run ends with status `Words`.
///
/// An `Err` says that there is no memory for them.
fn words_of(alloc: Global, arguments: io::Result<Args>) -> Result<Vec<String>, OutOfMemory>
    ensures words { IfOk result (λ words. words.items ≡ words_in arguments) }
    ensures memory { IfErr arguments (λ error.
        error_kind error ≡ ErrorKind.OutOfMemory → IsErr result) }
    ensures no_text { IfErr arguments (λ error.
        error_kind error ≢ ErrorKind.OutOfMemory → IsOk result) }
{
    match arguments {
        Ok(arguments) => words_behind_name(alloc, arguments),
        Err(error) => match error.kind() {
            ErrorKind::OutOfMemory => Err(OutOfMemory),
            _ => Ok(Vec::new(alloc)),
        },
    }
}

/// Runs the words among the arguments, with sixteen listeners by rules, over this library and sink. Coded frames are kept
/// in an [`IndexStore`].
///
/// An `Err` says that memory ran out before the run; then nothing was done.
fn start<L: Library, K: Sink>(
    alloc: Global,
    arguments: io::Result<Args>,
    library: &mut L,
    sink: &mut K,
) -> Result<Status, OutOfMemory>
    ensures run { IfOk result (λ end. IsRunByRules 16 (L.table library.old) L.load_gives
        (map string_bytes (words_in arguments))
        (library_and_sink L.faults K.written K.faults library.old sink.old)
        (library_and_sink L.faults K.written K.faults library.new sink.new) end) }
    ensures library { OnErr result (library.new ≡ library.old) }
    ensures sink { OnErr result (sink.new ≡ sink.old) }
{
    let words = words_of(alloc, arguments)?;
    run_by_rules::<IndexStore, L, K>(alloc, LISTENERS, &words, library, sink)
}

/// The program over this library and sink: runs the words among the arguments, and gives the number of the status, which is
/// that of `Memory` where memory ran out before the run.
fn play<L: Library, K: Sink>(
    alloc: Global,
    arguments: io::Result<Args>,
    library: &mut L,
    sink: &mut K,
) -> ExitCode
    ensures { IsRunOfProgram (L.table library.old) L.load_gives
        (map string_bytes (words_in arguments))
        (library_and_sink L.faults K.written K.faults library.old sink.old)
        (library_and_sink L.faults K.written K.faults library.new sink.new) (exit_status result) }
{
    let end = start(alloc, arguments, library, sink).unwrap_or(Status::Memory);
    ExitCode::from(end.number())
}

fn main(rt: HostRuntime) -> ExitCode {
    let mut library = FolderLibrary::new(SystemFiles(rt));
    let mut sink = StdoutSink::new(SystemOutput(rt));
    play(rt.alloc(), env::args(&rt), &mut library, &mut sink)
}
