//! The files of a folder.

ghost use Rattle.std.specs.Prelude.{◌≡◌, ◌≢◌, ◌≤◌, ◌+◌, ◌^◌, ◌↔◌, IfSome, option_map, vec_len};
ghost use Rattle.std.specs.IoError.{error_kind};
ghost use Rattle.mse_outside.specs.Counted.{Counted};
ghost use Rattle.mse_outside.specs.Folder.{faults_after};
ghost use Rattle.mse_outside.specs.Outside.{HasBytesAppended, IsLoadEffect};
ghost use Rattle.mse_outside.specs.Reading.{IsReadThrough, answer_to_read};
ghost use Rattle.mse_outside.specs.Source.{IsFolderLoad, StaysTold, bytes_in, table_in};

use crate::{FileSource, Library, Loaded, OpenFile};
use std::io::{self, ErrorKind};
use std::marker::Model;

/// The most bytes that a file may have.
const LONGEST: usize = 1 << 30;

/// The files of a source, as [`SystemFiles`](crate::SystemFiles). It tells their bytes where the source does. Contracts see
/// the source, and how many loads have failed.
///
/// A file that is not there is `NoFile`. Any other failure to open or to read, as at a folder, and a file of more than
/// 2^30 bytes, is a failed load.
#[derive(Drop)]
pub struct FolderLibrary<F: FileSource + Drop> {
    source: F,
    faults: u64,
}

impl<F: FileSource + Drop> Model for FolderLibrary<F> {
    ghost Value = { Counted F };

    ghost view = { λ l. record { over = l.source; faults = l.faults } };
}

impl<F: FileSource + Drop> FolderLibrary<F> {
    /// No load has failed yet.
    pub fn new(source: F) -> FolderLibrary<F>
        ensures { result ≡ record { over = source; faults = 0 } }
    {
        FolderLibrary { source, faults: 0 }
    }
}

/// What a load answers whose file was not opened.
fn answer_for_error(error: &io::Error) -> Loaded
    ensures missing { (result ≡ Loaded.NoFile) ↔ (error_kind error.now ≡ ErrorKind.NotFound) }
    ensures out_of_memory { (result ≡ Loaded.OutOfMemory)
        ↔ (error_kind error.now ≡ ErrorKind.OutOfMemory) }
    ensures not_done { result ≢ Loaded.Done }
{
    match error.kind() {
        ErrorKind::NotFound => Loaded::NoFile,
        ErrorKind::OutOfMemory => Loaded::OutOfMemory,
        _ => Loaded::Failed,
    }
}

/// Why a file was not read to its end.
#[derive(Clone, Copy, Debug, PartialEq, Eq)]
pub(crate) enum ReadStop {
    /// It has more bytes than it may.
    TooLong,
    /// A read failed. It was not interrupted, and did not lack memory.
    Reader(ErrorKind),
    /// There was no memory for what it has.
    OutOfMemory,
    /// 2^64 - 1 reads came to no end.
    Endless,
}

/// Appends what is left of a file, if that is at most so many bytes. An interrupted read is done again.
pub(crate) fn append_all<F: OpenFile>(
    file: &mut F,
    into: &mut Vec<u8>,
    most: usize,
) -> Result<(), ReadStop>
    ensures told { IfSome (F.left file.old) (λ left.
        IsReadThrough most left into.old.items into.new.items result) }
    ensures appends { HasBytesAppended into.old.items into.new.items }
    ensures longest { vec_len into.new ≤ vec_len into.old + most }
{
    let mut piece = [0u8; 4096];
    let mut len = 0usize;
    for turn in 0..u64::MAX {
        match file.read(&mut piece) {
            Ok(0) => return Ok(()),
            Ok(count) => {
                if count > most - len {
                    return Err(ReadStop::TooLong);
                }
                len += count;
                if into.extend_from_slice(&piece[..count]).is_err() {
                    return Err(ReadStop::OutOfMemory);
                }
            }
            Err(error) => match error.kind() {
                ErrorKind::Interrupted => {}
                ErrorKind::OutOfMemory => return Err(ReadStop::OutOfMemory),
                kind => return Err(ReadStop::Reader(kind)),
            },
        }
    }
    Err(ReadStop::Endless)
}

/// What a load answers whose file was opened.
fn answer_for_read(outcome: &Result<(), ReadStop>) -> Loaded
    ensures { result ≡ answer_to_read outcome.now }
{
    match outcome {
        Ok(()) => Loaded::Done,
        Err(ReadStop::OutOfMemory) => Loaded::OutOfMemory,
        Err(ReadStop::TooLong | ReadStop::Reader(_) | ReadStop::Endless) => Loaded::Failed,
    }
}

/// Opens the file of this name, and appends its bytes.
fn append_file<F: FileSource>(source: &mut F, name: &str, into: &mut Vec<u8>) -> Loaded
    ensures gives { StaysTold (F.told source.old) (F.told source.new) (IsFolderLoad name.now result) }
    ensures told { IfSome (F.told source.old) (λ files.
        IsLoadEffect (bytes_in (files.files name.now)) into.old.items into.new.items result) }
    ensures appends { HasBytesAppended into.old.items into.new.items }
    ensures longest { vec_len into.new ≤ vec_len into.old + 2 ^ 30 }
{
    match source.open(name) {
        Ok(mut file) => answer_for_read(&append_all(&mut file, into, LONGEST)),
        Err(error) => answer_for_error(&error),
    }
}

/// The failures after an answer.
fn count_after(faults: u64, answer: Loaded) -> u64
    ensures { result ≡ faults_after faults answer }
{
    match answer {
        Loaded::Failed => faults.saturating_add(1),
        Loaded::Done | Loaded::NoFile | Loaded::OutOfMemory => faults,
    }
}

impl<F: FileSource + Drop> Library for FolderLibrary<F> {
    ghost table = { λ library. option_map table_in (F.told library.over) };

    ghost faults = { λ library. library.faults };

    ghost load_gives = { λ old name answer new.
        StaysTold (F.told old.over) (F.told new.over) (IsFolderLoad name answer) };

    fn load(&mut self, name: &str, into: &mut Vec<u8>) -> Loaded
        ensures gives { StaysTold (F.told self.old.over) (F.told self.new.over)
            (IsFolderLoad name.now result) }
        ensures told { IfSome (F.told self.old.over) (λ files.
            IsLoadEffect (bytes_in (files.files name.now)) into.old.items into.new.items result) }
        ensures faults { self.new.faults ≡ faults_after self.old.faults result }
        ensures appends { HasBytesAppended into.old.items into.new.items }
        ensures longest { vec_len into.new ≤ vec_len into.old + 2 ^ 30 }
        ensures unchanged { result ≢ Loaded.Done → into.new.items ≡ into.old.items }
    {
        let before = into.len();
        let answer = append_file(&mut self.source, name, into);
        self.faults = count_after(self.faults, answer);
        if answer != Loaded::Done {
            into.truncate(before);
        }
        answer
    }
}
