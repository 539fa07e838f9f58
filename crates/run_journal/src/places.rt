//! Places of entries, in order. Steps of work of one buffer, one behind the other, have one place, with their count.

ghost use Rattle.std.specs.Prelude.{◌≡◌, ◌<◌, ◌≤◌, ◌+◌, ◌-◌, ◌^◌, ◌++◌, ◌∷◌, [], ℕ, List, Some, IsSome, min, max, All, OnOk, OnErr, IfSome, option_map, length, slice_get, slice_index_or, sum_by, vec_len, vec_capacity};
ghost use Rattle.std.specs.Option.{option_map_or};
ghost use Rattle.mse_calls.specs.declared.calls.Piece.{Piece};
ghost use Rattle.run_journal.specs.AnsweredCalls.{AnsweredCall};
ghost use Rattle.run_journal.specs.declared.entry_place.EntryPlace.TheVariants.{Work};
ghost use Rattle.run_journal.specs.EntryPlaces.{entry_at, entries_at, count_of, IsPlaceInside};
ghost use Rattle.run_journal.specs.PlacesView.{end_at, run_end_of, IsRunWith, AreCounted};

use crate::entry_place::EntryPlace;
use mse_base::OutOfMemory;
use std::alloc::Global;
use std::marker::Model;

/// The end of a run of entries at one place: how many entries, and how many places, are before it.
#[derive(Clone, Copy, Debug)]
pub(crate) struct RunEnd {
    pub(crate) entries: usize,
    pub(crate) places: usize,
}

/// The places of entries, in order, and room for more.
#[derive(Debug, Drop)]
pub(crate) struct Places {
    list: Vec<EntryPlace>,
    /// Where each run of more than one entry ends, except one at the end of the list. So a place is found without
    /// counting from the first.
    run_ends: Vec<RunEnd>,
    /// How many entries there are.
    len: usize,
    spare: usize,
}

impl Model for Places {
    ghost use Rattle.std.specs.Prelude.{◌+◌, ◌<◌, ◌≤◌, ◌^◌, vec_len, vec_capacity};
    ghost use Rattle.run_journal.specs.PlacesView.{PlacesView, AreCounted};

    ghost Value = { PlacesView };

    ghost view = { λ p. record { list = p.list.items; spare = p.spare } };

    ghost invariant = { λ p. record {
      counted : AreCounted p.list.items p.run_ends.items p.len;
      list_room : vec_len p.list + p.spare ≤ vec_capacity p.list;
      run_ends_room : vec_len p.run_ends + p.spare ≤ vec_capacity p.run_ends;
      len_room : p.len + p.spare < 2 ^ 64;
    } };
}

/// The place of a run and of the entry behind it, where both are steps of work of one buffer.
fn run_with(last: Option<EntryPlace>, next: EntryPlace) -> Option<EntryPlace>
    requires fits { IfSome last (λ place. count_of place + 1 < 2 ^ 64) }
    requires single { count_of next ≡ 1 }
    ensures run { IfSome result (IsRunWith last next) }
    ensures joins_work { (k : ℕ) (count : ℕ) → last ≡ Some (Work k count) → next ≡ Work k 1
        → IsSome result }
{
    match (last, next) {
        (Some(EntryPlace::Work(k, count)), EntryPlace::Work(next_k, _)) if next_k == k => {
            Some(EntryPlace::Work(k, count + 1))
        }
        _ => None,
    }
}

/// Puts the end of a run last where the last place is of more than one entry.
fn close_run(run_ends: &mut Vec<RunEnd>, last: Option<EntryPlace>, end: RunEnd)
    requires { vec_len run_ends.old < vec_capacity run_ends.old }
    ensures items { run_ends.new.items ≡ run_ends.old.items ++ run_end_of last end }
    ensures len { vec_len run_ends.new ≤ vec_len run_ends.old + 1 }
    ensures capacity { vec_capacity run_ends.new ≡ vec_capacity run_ends.old }
{
    if let Some(EntryPlace::Work(_, count)) = last {
        if count > 1 {
            run_ends.push_reserved(end);
        }
    }
}

/// Puts the place of one entry behind those of `len` entries, in room that is there.
fn put(list: &mut Vec<EntryPlace>, run_ends: &mut Vec<RunEnd>, len: usize, place: EntryPlace)
    requires room_for_place { vec_len list.old < vec_capacity list.old }
    requires room_for_end { vec_len run_ends.old < vec_capacity run_ends.old }
    requires counted { AreCounted list.old.items run_ends.old.items len }
    requires fits { len + 1 < 2 ^ 64 }
    requires single { count_of place ≡ 1 }
    ensures counted { AreCounted list.new.items run_ends.new.items (len + 1) }
    ensures entries { (calls : List AnsweredCall) (pieces : List Piece)
        → entries_at calls pieces list.new.items
        ≡ entries_at calls pieces list.old.items ++ entry_at calls pieces place ∷ [] }
    ensures place_inside { (calls : List AnsweredCall) (pieces : List Piece)
        → All (IsPlaceInside calls pieces) list.old.items → IsPlaceInside calls pieces place
        → All (IsPlaceInside calls pieces) list.new.items }
    ensures list_len { vec_len list.new ≤ vec_len list.old + 1 }
    ensures run_ends_len { vec_len run_ends.new ≤ vec_len run_ends.old + 1 }
    ensures list_capacity { vec_capacity list.new ≡ vec_capacity list.old }
    ensures run_ends_capacity { vec_capacity run_ends.new ≡ vec_capacity run_ends.old }
{
    let last = list.last().copied();
    if let Some(whole) = run_with(last, place) {
        let index = list.len() - 1;
        list[index] = whole;
        return;
    }
    let places = list.len();
    close_run(
        run_ends,
        last,
        RunEnd {
            entries: len,
            places,
        },
    );
    list.push_reserved(place);
}

/// The last of the first `count` ends of runs, or the beginning.
fn begin_of(run_ends: &[RunEnd], count: usize) -> RunEnd
    requires { count ≤ length run_ends.now }
    ensures { result ≡ slice_index_or (end_at 0 0 ∷ run_ends.now) count (end_at 0 0) }
{
    if count == 0 {
        RunEnd {
            entries: 0,
            places: 0,
        }
    } else {
        run_ends[count - 1]
    }
}

/// How many places come before the end that follows the first `count` ends; where there is none, all of them.
fn stop_of(run_ends: &[RunEnd], count: usize, places: usize) -> usize
    ensures { result ≡ option_map_or (λ end. end.places) (slice_get run_ends.now count) places }
{
    match run_ends.get(count) {
        Some(end) => end.places,
        None => places,
    }
}

/// The place of an entry behind `begin`: each entry has its own place, up to the next run, which is the last place
/// before `stop`.
fn place_between(begin: RunEnd, stop: usize, i: usize) -> usize
    requires entries { begin.entries ≤ i }
    requires places { begin.places < stop }
    ensures { result ≡ begin.places + min (i - begin.entries) (stop - 1 - begin.places) }
{
    begin.places + (i - begin.entries).min(stop - 1 - begin.places)
}

impl Places {
    /// No place. It takes no memory.
    pub(crate) fn new(alloc: Global) -> Places
        ensures list { result.list ≡ [] }
        ensures spare { result.spare ≡ 0 }
    {
        Places {
            list: Vec::new(alloc),
            run_ends: Vec::new(alloc),
            len: 0,
            spare: 0,
        }
    }

    /// How many entries there are.
    pub(crate) fn len(&self) -> usize
        ensures { result ≡ sum_by count_of self.now.list }
    {
        self.len
    }

    /// For how many more entries there is room.
    pub(crate) fn spare(&self) -> usize
        ensures { result ≡ self.now.spare }
    {
        self.spare
    }

    /// The place of the entry of an index; `None` exactly past the end.
    pub(crate) fn get(&self, i: usize) -> Option<EntryPlace>
        ensures entry { (calls : List AnsweredCall) (pieces : List Piece)
            → option_map (entry_at calls pieces) result
            ≡ slice_get (entries_at calls pieces self.now.list) i }
        ensures place_inside { (calls : List AnsweredCall) (pieces : List Piece)
            → All (IsPlaceInside calls pieces) self.now.list
            → IfSome result (IsPlaceInside calls pieces) }
    {
        if self.len <= i {
            return None;
        }
        Some(self.list[self.place_of(i)])
    }

    /// The index of the place of an entry.
    fn place_of(&self, i: usize) -> usize
        requires { i < sum_by count_of self.now.list }
        ensures inside { result < length self.now.list }
        ensures entry { (calls : List AnsweredCall) (pieces : List Piece)
            → slice_get (entries_at calls pieces self.now.list) i
            ≡ option_map (entry_at calls pieces) (slice_get self.now.list result) }
    {
        let count = self.run_ends.partition_point(|end| end.entries <= i);
        let begin = begin_of(&self.run_ends, count);
        let stop = stop_of(&self.run_ends, count, self.list.len());
        place_between(begin, stop, i)
    }

    /// Makes room for at least `n` more entries. An `Err` leaves the places and the room.
    pub(crate) fn reserve(&mut self, n: usize) -> Result<(), OutOfMemory>
        ensures spare { OnOk result (self.new.spare ≡ max self.old.spare n) }
        ensures same_room { OnErr result (self.new.spare ≡ self.old.spare) }
        ensures list { self.new.list ≡ self.old.list }
    {
        if self.len.checked_add(n).is_none() {
            return Err(OutOfMemory);
        }
        self.list.try_reserve(n)?;
        self.run_ends.try_reserve(n)?;
        self.spare = self.spare.max(n);
        Ok(())
    }

    /// Puts the place of one entry last, in reserved room, which falls by one. It takes no memory.
    pub(crate) fn push_reserved(&mut self, place: EntryPlace)
        requires room { 1 ≤ self.old.spare }
        requires single { count_of place ≡ 1 }
        ensures entries { (calls : List AnsweredCall) (pieces : List Piece)
            → entries_at calls pieces self.new.list
            ≡ entries_at calls pieces self.old.list ++ entry_at calls pieces place ∷ [] }
        ensures place_inside { (calls : List AnsweredCall) (pieces : List Piece)
            → All (IsPlaceInside calls pieces) self.old.list → IsPlaceInside calls pieces place
            → All (IsPlaceInside calls pieces) self.new.list }
        ensures spare { self.new.spare + 1 ≡ self.old.spare }
    {
        put(&mut self.list, &mut self.run_ends, self.len, place);
        self.len += 1;
        self.spare -= 1;
    }
}
