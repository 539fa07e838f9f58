ghost use Rattle.std.specs.Prelude.{◌≡◌, ◌≤◌, ◌+◌, ◌++◌, ◌∷◌, [], OnOk, OnErr, length, slice_get, option_map};
ghost use Rattle.mse_calls.specs.declared.entry.Entry.TheVariants.{Work};
ghost use Rattle.run_journal.specs.EntryRef.{entry_of};

use crate::EntryRef;
use crate::answered_calls::AnsweredCalls;
use crate::entry_place::{EntryPlace, entry_ref, keep};
use crate::places::Places;
use mse_base::OutOfMemory;
use mse_calls::{Entry, Piece};
use std::alloc::Global;
use std::marker::Model;

/// For how many entries a journal makes room at once.
const MANY: usize = 64;

/// What happened in a run, in order, and room for more. It keeps for each entry a few bytes, which say where
/// it is, calls with their answers in a list of their own, and in another one the pieces of a script's appends.
/// A row of steps of work of one buffer takes these bytes once.
#[derive(Debug, Drop)]
pub struct Journal {
    places: Places,
    calls: AnsweredCalls,
    pieces: Vec<Piece>,
}

impl Model for Journal {
    ghost use Rattle.std.specs.Prelude.{◌+◌, ◌≤◌, All, vec_len, vec_capacity};
    ghost use Rattle.run_journal.specs.JournalView.{JournalView};
    ghost use Rattle.run_journal.specs.EntryPlaces.{entries_at, IsPlaceInside};

    ghost Value = { JournalView };

    ghost view = { λ j. record {
      entries = entries_at j.calls.list j.pieces.items j.places.list;
      spare = j.places.spare;
    } };

    ghost invariant = { λ j. record {
      places_inside : All (IsPlaceInside j.calls.list j.pieces.items) j.places.list;
      calls_room : j.places.spare ≤ j.calls.spare;
      pieces_room : vec_len j.pieces + j.places.spare ≤ vec_capacity j.pieces;
    } };
}

impl Journal {
    /// A journal with no entry. It takes no memory.
    pub fn new(alloc: Global) -> Journal
        ensures { result.entries ≡ [] }
    {
        Journal {
            places: Places::new(alloc),
            calls: AnsweredCalls::new(alloc),
            pieces: Vec::new(alloc),
        }
    }

    /// How many entries there are.
    pub fn len(&self) -> usize
        ensures { result ≡ length self.now.entries }
    {
        self.places.len()
    }

    /// The entry at a place; `None` exactly past the end.
    pub fn get(&self, i: usize) -> Option<EntryRef<'_>>
        ensures { option_map entry_of result ≡ slice_get self.now.entries i }
    {
        let place = self.places.get(i)?;
        Some(entry_ref(place, &self.calls, &self.pieces))
    }

    /// Makes room for at least `n` more entries. An `Err` leaves the entries and the room; it comes where
    /// memory is wanting, or where the entries would be more than a `usize` counts.
    pub fn reserve(&mut self, n: usize) -> Result<(), OutOfMemory>
        ensures spare { OnOk result (n ≤ self.new.spare) }
        ensures no_room_lost { self.old.spare ≤ self.new.spare }
        ensures same_room { OnErr result (self.new.spare ≡ self.old.spare) }
        ensures entries { self.new.entries ≡ self.old.entries }
    {
        if n <= self.places.spare() {
            return Ok(());
        }
        self.reserve_more(n)
    }

    /// Makes room for at least `n` more entries, and for many where there is memory for them, so
    /// that the next ones find theirs.
    #[cold]
    #[inline(never)]
    fn reserve_more(&mut self, n: usize) -> Result<(), OutOfMemory>
        ensures spare { OnOk result (n ≤ self.new.spare) }
        ensures no_room_lost { self.old.spare ≤ self.new.spare }
        ensures same_room { OnErr result (self.new.spare ≡ self.old.spare) }
        ensures entries { self.new.entries ≡ self.old.entries }
    {
        match self.make_room(n.max(MANY)) {
            Ok(()) => Ok(()),
            Err(_) => self.make_room(n),
        }
    }

    /// Makes room for at least `n` more entries.
    fn make_room(&mut self, n: usize) -> Result<(), OutOfMemory>
        ensures spare { OnOk result (n ≤ self.new.spare) }
        ensures no_room_lost { self.old.spare ≤ self.new.spare }
        ensures same_room { OnErr result (self.new.spare ≡ self.old.spare) }
        ensures entries { self.new.entries ≡ self.old.entries }
    {
        self.calls.reserve(n)?;
        self.pieces.try_reserve(n)?;
        self.places.reserve(n)
    }

    /// Puts an entry last, in reserved room, which falls by one. It takes no memory.
    pub fn push_reserved(&mut self, entry: Entry)
        requires { 1 ≤ self.old.spare }
        ensures entries { self.new.entries ≡ self.old.entries ++ entry ∷ [] }
        ensures spare { self.new.spare + 1 ≡ self.old.spare }
    {
        let place = keep(&mut self.calls, &mut self.pieces, entry);
        self.places.push_reserved(place);
    }

    /// Puts the entry of a step of work on the buffer of a number last, in reserved room, which
    /// falls by one. It takes no memory.
    pub fn push_work_reserved(&mut self, k: u32)
        requires { 1 ≤ self.old.spare }
        ensures entries { self.new.entries ≡ self.old.entries ++ Work k ∷ [] }
        ensures spare { self.new.spare + 1 ≡ self.old.spare }
    {
        self.places.push_reserved(EntryPlace::Work(k, 1));
    }
}
