//! The files of a call, as a library.

ghost use Rattle.std.specs.Prelude.{◌≡◌, ◌≢◌, ◌++◌, Some, None, IsSome, IsSomeAnd, option_map};
ghost use Rattle.mse_outside.specs.Outside.{HasBytesAppended};
ghost use Rattle.mse_outside.specs.Memory.{Files, table_of};
ghost use Rattle.mseplay_c.specs.Given.{files_in};

use crate::File;
use mse_outside::{Library, Loaded};
use std::marker::Model;

/// The files of the caller. No load fails. Of two files of one name the first counts.
#[derive(Drop)]
pub(crate) struct GivenFiles<'a> {
    files: &'a [File<'a>],
}

impl<'a> Model for GivenFiles<'a> {
    ghost Value = { Files };

    ghost view = { λ l. files_in l.files.now };
}

impl<'a> GivenFiles<'a> {
    pub(crate) fn new(files: &'a [File<'a>]) -> GivenFiles<'a>
        ensures { result ≡ files_in files.now }
    {
        GivenFiles { files }
    }
}

/// The bytes of the first file of a name.
fn find<'a>(files: &'a [File<'a>], name: &str) -> Option<&'a [u8]>
    ensures { option_map (λ bytes. bytes.now) result ≡ table_of (files_in files.now) name.now }
{
    for file in files {
        if file.name == name.as_bytes() {
            return Some(file.bytes);
        }
    }
    None
}

impl Library for GivenFiles<'_> {
    ghost table = { λ library. Some (table_of library) };

    ghost faults = { λ _. 0 };

    fn load(&mut self, name: &str, into: &mut Vec<u8>) -> Loaded
        ensures state { self.new ≡ self.old }
        ensures sure { result ≢ Loaded.Failed }
        ensures no_file { result ≡ Loaded.NoFile → table_of self.old name.now ≡ None }
        ensures done { result ≡ Loaded.Done →
            IsSomeAnd (table_of self.old name.now)
            (λ bytes. into.new.items ≡ into.old.items ++ bytes) }
        ensures found { result ≡ Loaded.OutOfMemory → IsSome (table_of self.old name.now) }
        ensures unchanged { result ≢ Loaded.Done → into.new.items ≡ into.old.items }
        ensures appends { HasBytesAppended into.old.items into.new.items }
    {
        match find(self.files, name) {
            None => Loaded::NoFile,
            Some(bytes) => match into.extend_from_slice(bytes) {
                Ok(()) => Loaded::Done,
                Err(_) => Loaded::OutOfMemory,
            },
        }
    }
}
