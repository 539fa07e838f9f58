//! Libraries in memory.

ghost use Rattle.std.specs.Prelude.{◌≡◌, ◌≢◌, ◌++◌, ◌↔◌, Option, Some, None, IsSome, IsSomeAnd, AllPairs, Contains, map, vec_len, length, string_bytes, option_map};
ghost use Rattle.mse_outside.specs.Count.{next_count};
ghost use Rattle.mse_outside.specs.Outside.{HasBytesAppended};
ghost use Rattle.mse_outside.specs.Memory.{Files, LibraryState, IsMemoryLoad, IsSureLoad, file_at, table_of, library_after};

use crate::{Library, Loaded};
use std::alloc::Global;
use std::marker::Model;

/// The contents at the place of the first name that is equal.
fn find_file<'a>(names: &[String], contents: &'a [Vec<u8>], name: &str) -> Option<&'a Vec<u8>>
    requires { length names.now ≡ length contents.now }
    ensures { option_map (λ bytes. bytes.now.items) result
        ≡ file_at (map string_bytes names.now) (map (λ bytes. bytes.items) contents.now) name.now }
{
    for i in 0..names.len() {
        let bytes = &contents[i];
        if names[i].as_str() == name {
            return Some(bytes);
        }
    }
    None
}

/// Files in memory. No load fails.
#[derive(Drop)]
pub struct SureLibrary {
    names: Vec<String>,
    contents: Vec<Vec<u8>>,
}

impl Model for SureLibrary {
    ghost Value = { Files };

    ghost view = { λ l. record {
      names = map string_bytes l.names.items;
      contents = map (λ bytes. bytes.items) l.contents.items;
    } };

    ghost invariant = { λ l. vec_len l.names ≡ vec_len l.contents };
}

impl SureLibrary {
    /// The files `contents`, at the same places as their `names`.
    pub fn new(_alloc: Global, names: Vec<String>, contents: Vec<Vec<u8>>) -> SureLibrary
        requires same_count { vec_len names ≡ vec_len contents }
        requires distinct { AllPairs (λ a b. a ≢ b) (map string_bytes names.items) }
        ensures { result ≡ record {
          names = map string_bytes names.items;
          contents = map (λ bytes. bytes.items) contents.items;
        } }
    {
        SureLibrary { names, contents }
    }
}

impl Library for SureLibrary {
    ghost table = { λ library. Some (table_of library) };

    ghost faults = { λ _. 0 };

    ghost load_gives = { IsSureLoad };

    fn load(&mut self, name: &str, into: &mut Vec<u8>) -> Loaded
        ensures state { self.new ≡ self.old }
        ensures sure { result ≢ Loaded.Failed }
        ensures no_file { result ≡ Loaded.NoFile → table_of self.old name.now ≡ None }
        ensures done { result ≡ Loaded.Done →
            IsSomeAnd (table_of self.old name.now)
            (λ bytes. into.new.items ≡ into.old.items ++ bytes) }
        ensures found { result ≡ Loaded.OutOfMemory → IsSome (table_of self.old name.now) }
        ensures unchanged { result ≢ Loaded.Done → into.new.items ≡ into.old.items }
        ensures appends { HasBytesAppended into.old.items into.new.items }
    {
        let Some(bytes) = find_file(&self.names, &self.contents, name) else {
            return Loaded::NoFile;
        };
        match into.extend_from_slice(bytes) {
            Ok(()) => Loaded::Done,
            Err(_) => Loaded::OutOfMemory,
        }
    }
}

/// Files in memory. Loads that were chosen fail, and all others succeed where there is such a file and memory.
#[derive(Drop)]
pub struct MemoryLibrary {
    kept: SureLibrary,
    failing: Vec<u64>,
    calls: u64,
    faults: u64,
}

impl Model for MemoryLibrary {
    ghost Value = { LibraryState };

    ghost view = { λ l. record {
      files = l.kept;
      failing = l.failing.items;
      calls = l.calls;
      faults = l.faults;
    } };
}

impl MemoryLibrary {
    /// The files `contents`, at the same places as their `names`. Loads are counted from 1, and those in `failing` fail.
    pub fn new(
        alloc: Global,
        names: Vec<String>,
        contents: Vec<Vec<u8>>,
        failing: Vec<u64>,
    ) -> MemoryLibrary
        requires same_count { vec_len names ≡ vec_len contents }
        requires distinct { AllPairs (λ a b. a ≢ b) (map string_bytes names.items) }
        ensures files { result.files ≡ record {
          names = map string_bytes names.items;
          contents = map (λ bytes. bytes.items) contents.items;
        } }
        ensures failing { result.failing ≡ failing.items }
        ensures counts_zero { (result.calls ≡ 0) × (result.faults ≡ 0) }
    {
        MemoryLibrary {
            kept: SureLibrary::new(alloc, names, contents),
            failing,
            calls: 0,
            faults: 0,
        }
    }
}

impl Library for MemoryLibrary {
    ghost table = { λ library. Some (table_of library.files) };

    ghost faults = { λ library. library.faults };

    ghost load_gives = { IsMemoryLoad };

    fn load(&mut self, name: &str, into: &mut Vec<u8>) -> Loaded
        ensures state { self.new ≡ library_after self.old result }
        ensures failed { (result ≡ Loaded.Failed)
            ↔ Contains self.old.failing (next_count self.old.calls) }
        ensures no_file { result ≡ Loaded.NoFile → table_of self.old.files name.now ≡ None }
        ensures done { result ≡ Loaded.Done →
            IsSomeAnd (table_of self.old.files name.now)
            (λ bytes. into.new.items ≡ into.old.items ++ bytes) }
        ensures found { result ≡ Loaded.OutOfMemory → IsSome (table_of self.old.files name.now) }
        ensures unchanged { result ≢ Loaded.Done → into.new.items ≡ into.old.items }
        ensures appends { HasBytesAppended into.old.items into.new.items }
    {
        self.calls = self.calls.saturating_add(1);
        if self.failing.contains(&self.calls) {
            self.faults = self.faults.saturating_add(1);
            return Loaded::Failed;
        }
        self.kept.load(name, into)
    }
}
