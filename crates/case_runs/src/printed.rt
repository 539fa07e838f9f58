//! A run, and what it prints.

ghost use Rattle.std.specs.Prelude.{◌≡◌, IfOk, codes, if◌then◌else◌, map, string_bytes};
ghost use Rattle.case_runs.specs.Runs.{IsRunOf, library_of, plain};

use crate::files::CaseFile;
use crate::library::CaseLibrary;
use anyhow::anyhow;
use mse_base::OutOfMemory;
use mse_outside::MemorySink;
use rule_run::{LISTENERS, run_by_rules};
use std::alloc::Global;
use track_index::IndexStore;
use track_store::{FrameStore, ListStore};

/// Where the coded frames of a run are kept.
#[derive(Clone, Copy, Debug, PartialEq, Eq)]
pub enum Store {
    /// In the store of the program.
    Index,
    /// In a plain list.
    List,
}

impl Store {
    /// The name of its type.
    pub fn name(self) -> &'static str
        ensures index { self ≡ Store.Index → result.now ≡ codes "IndexStore" }
        ensures list { self ≡ Store.List → result.now ≡ codes "ListStore" }
    {
        match self {
            Store::Index => "IndexStore",
            Store::List => "ListStore",
        }
    }
}

/// What a run has to do with, beside the words.
#[derive(Clone, Copy)]
pub struct Setting<'a> {
    pub files: &'a [CaseFile],
    pub store: Store,
    /// Whether there are listeners, as many as the program has.
    pub is_heard: bool,
    /// A file that has other bytes than in the folder, and these.
    pub changed: Option<(&'a str, &'a [u8])>,
    /// The number of the load that fails, counted from 1; 0 where none does.
    pub failing_load: u64,
    /// The number of the put that fails, counted from 1, and how many of its bytes are written; 0 where none does.
    pub failing_put: (u64, u64),
}

impl<'a> Setting<'a> {
    /// All files as they are, and nothing fails.
    pub fn plain(files: &'a [CaseFile], store: Store) -> Setting<'a>
        ensures { result ≡ plain files.entry store }
    {
        Setting {
            files,
            store,
            is_heard: true,
            changed: None,
            failing_load: 0,
            failing_put: (0, 0),
        }
    }
}

/// What was printed, and the number of the status.
#[derive(Drop)]
pub struct Printed {
    pub status: u8,
    pub sink: MemorySink,
}

/// How many listeners a setting has.
fn listeners(setting: &Setting<'_>) -> u32
    ensures { result ≡ (if setting.now.is_heard then 16 else 0) }
{
    if setting.is_heard { LISTENERS } else { 0 }
}

/// The library of a setting.
fn library<'a>(setting: &Setting<'a>) -> CaseLibrary<'a>
    ensures { result ≡ library_of setting.now }
{
    CaseLibrary {
        files: setting.files,
        changed: setting.changed,
        failing: setting.failing_load,
        loads: 0,
        faults: 0,
    }
}

/// Runs the words with coded frames in a store of this type.
fn run_over<S: FrameStore>(
    alloc: Global,
    words: &[String],
    setting: &Setting<'_>,
) -> Result<Printed, OutOfMemory>
    ensures { IfOk result (λ printed.
        IsRunOf setting.now (map string_bytes words.now) printed.status printed.sink) }
{
    let count = listeners(setting);
    let mut library = library(setting);
    let mut sink = MemorySink::new(alloc, vec![in alloc; setting.failing_put]?);
    let status = run_by_rules::<S, CaseLibrary<'_>, MemorySink>(
        alloc,
        count,
        words,
        &mut library,
        &mut sink,
    )?;
    Ok(Printed {
        status: status.number(),
        sink,
    })
}

/// Runs the words.
pub fn run_words(alloc: Global, words: &[String], setting: &Setting<'_>) -> anyhow::Result<Printed>
    ensures { IfOk result (λ printed.
        IsRunOf setting.now (map string_bytes words.now) printed.status printed.sink) }
{
    let printed = match setting.store {
        Store::Index => run_over::<IndexStore>(alloc, words, setting),
        Store::List => run_over::<ListStore>(alloc, words, setting),
    };
    match printed {
        Ok(printed) => Ok(printed),
        Err(OutOfMemory) => Err(anyhow!("no memory for a run")),
    }
}
