//! The program in one call of C: [`mseplay_run`] does what a run of the program does, with words, files and the room
//! for what is printed in the caller's memory.
//!
//! Sessions do a script's steps one at a time, by a handle (`sessions.rt`).
//!
//! It stands on `rule_run` and `live_session`, and hands in the caller's files, the number of listeners, and the store of
//! `track_index`; a handle stands on `loose_box`.
//! It is a static library, on which no crate can stand; `clients/c/mseplay.h` declares for C what is public here.
#![tactic(auto)]

ghost use Rattle.std.specs.Prelude.{◌≢◌, IfOk};
ghost use Rattle.mse_outside.specs.Memory.{table_of};
ghost use Rattle.mse_commands.specs.Program.{by_rules, program_of};
ghost use Rattle.rule_run.specs.Texts.{IsTextBy};
ghost use Rattle.mseplay_c.specs.Calls.{IsCall};
ghost use Rattle.mseplay_c.specs.Given.{files_in, words_in};

mod files;
mod handle;
mod look;
#[cfg(test)]
mod look_tests;
mod put;
mod sessions;
#[cfg(test)]
mod tests;
mod words;

use crate::files::GivenFiles;
pub use crate::handle::Handle;
pub use crate::look::{BufferLook, Fault, Look, TickNumber, TickRange, Time, TrackLook};
use crate::put::put;
use crate::words::read_words;
use mse_base::OutOfMemory;
use mse_commands::Status;
use mse_outside::SureSink;
use rule_run::{LISTENERS, run_in_memory};
use std::alloc::Global;
use track_index::IndexStore;

/// Bytes in the caller's memory. For C it is a pointer and a length.
#[derive(Clone, Copy)]
#[repr(C)]
pub struct ByteSlice<'a> {
    pub bytes: &'a [u8],
}

/// A file in the caller's memory. For C each field is a pointer and a length.
#[derive(Clone, Copy)]
#[repr(C)]
pub struct File<'a> {
    /// The name by which words and scripts call it.
    pub name: &'a [u8],
    /// What it holds.
    pub bytes: &'a [u8],
}

/// Reads the words and runs them: the status, and the sink with what was printed. An `Err` is want of memory before the
/// run.
fn run_given(
    alloc: Global,
    words: &[ByteSlice<'_>],
    files: &[File<'_>],
) -> Result<(Status, SureSink), OutOfMemory>
    ensures printed { IfOk result (λ made. IsTextBy
        (program_of (by_rules 16) (table_of (files_in files.now)) (words_in words.now))
        made.1.written made.0) }
    ensures no_failure { IfOk result (λ made.
        (made.0 ≢ Status.Read) × (made.0 ≢ Status.Write)) }
{
    let words = read_words(alloc, words)?;
    let mut library = GivenFiles::new(files);
    run_in_memory::<IndexStore, GivenFiles<'_>>(alloc, LISTENERS, &words, &mut library)
}

/// Does what the words ask for with these files, as the program does with those of the folder that it is run in, and
/// answers the number of the status: the exit code of the program, but never 3 or 4. `words` are those behind the
/// program's name; where one of them is no text in UTF-8, there are none. Of two files of one name the first counts.
///
/// What is printed goes into the room from its start on, as many bytes as it has; what lies behind it stays. `written`
/// is then how many bytes are printed, also where the room has fewer.
#[unsafe(no_mangle)]
pub extern "C" fn mseplay_run(
    alloc: Global,
    words: &[ByteSlice<'_>],
    files: &[File<'_>],
    room: &mut [u8],
    written: &mut usize,
) -> u8
    ensures { IsCall
        (program_of (by_rules 16) (table_of (files_in files.now)) (words_in words.now))
        result written.new room.old room.new }
{
    let Ok((status, sink)) = run_given(alloc, words, files) else {
        *written = 0;
        return Status::Memory.number();
    };
    let text = sink.written();
    put(text, room);
    *written = text.len();
    status.number()
}
