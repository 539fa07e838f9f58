//! The library of a run: the files of a folder in memory.

ghost use Rattle.std.specs.Prelude.{◌≡◌, ◌≢◌, ◌++◌, ◌∷◌, ◌↔◌, [], Some, None, IsSome, IsSomeAnd, Contains, option_map};
ghost use Rattle.mse_outside.specs.Count.{next_count};
ghost use Rattle.mse_outside.specs.Outside.{HasBytesAppended};
ghost use Rattle.mse_outside.specs.Memory.{LibraryState, IsMemoryLoad, table_of, library_after};
ghost use Rattle.case_runs.specs.Given.{files_in, with_changed};

use crate::files::{CaseFile, find_bytes};
use mse_outside::{Library, Loaded};
use std::marker::Model;

/// The files of a folder. One of them may have other bytes than in the folder, and one of the loads may fail.
#[derive(Drop)]
pub struct CaseLibrary<'a> {
    pub files: &'a [CaseFile],
    /// The file that has other bytes, and these.
    pub changed: Option<(&'a str, &'a [u8])>,
    /// The number of the load that fails, counted from 1; 0 where none does.
    pub failing: u64,
    pub loads: u64,
    pub faults: u64,
}

impl<'a> Model for CaseLibrary<'a> {
    ghost Value = { LibraryState };

    ghost view = { λ l. record {
      files = with_changed l.changed (files_in l.files.now);
      failing = l.failing ∷ [];
      calls = l.loads;
      faults = l.faults;
    } };
}

impl CaseLibrary<'_> {
    /// The bytes of the file of this name, if there is one.
    fn find(&self, name: &str) -> Option<&[u8]>
        ensures { option_map (λ bytes. bytes.now) result ≡ table_of self.now.files name.now }
    {
        match self.changed {
            Some((changed, bytes)) if changed == name => Some(bytes),
            _ => find_bytes(self.files, name),
        }
    }
}

impl Library for CaseLibrary<'_> {
    ghost table = { λ library. Some (table_of library.files) };

    ghost faults = { λ library. library.faults };

    ghost load_gives = { IsMemoryLoad };

    fn load(&mut self, name: &str, into: &mut Vec<u8>) -> Loaded
        ensures state { self.new ≡ library_after self.old result }
        ensures failed { (result ≡ Loaded.Failed)
            ↔ Contains self.old.failing (next_count self.old.calls) }
        ensures no_file { result ≡ Loaded.NoFile → table_of self.old.files name.now ≡ None }
        ensures done { result ≡ Loaded.Done →
            IsSomeAnd (table_of self.old.files name.now)
            (λ bytes. into.new.items ≡ into.old.items ++ bytes) }
        ensures found { result ≡ Loaded.OutOfMemory → IsSome (table_of self.old.files name.now) }
        ensures unchanged { result ≢ Loaded.Done → into.new.items ≡ into.old.items }
        ensures appends { HasBytesAppended into.old.items into.new.items }
    {
        self.loads = self.loads.saturating_add(1);
        if self.loads == self.failing {
            self.faults = self.faults.saturating_add(1);
            return Loaded::Failed;
        }
        match self.find(name) {
            None => Loaded::NoFile,
            Some(bytes) => match into.extend_from_slice(bytes) {
                Ok(()) => Loaded::Done,
                Err(_) => Loaded::OutOfMemory,
            },
        }
    }
}
