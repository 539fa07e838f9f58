//! Where the entries of a journal are, with lists of the calls and of the pieces that they name by their index.

ghost use Rattle.std.specs.Prelude.{◌≡◌, ◌+◌, ◌<◌, ◌≤◌, vec_len};
ghost use Rattle.std.specs.Vec.{vec_capacity};
ghost use Rattle.run_journal.specs.EntryRef.{entry_of};
ghost use Rattle.run_journal.specs.EntryPlaces.{entry_at, count_of, IsPlaceInside, IsExtension};

use crate::EntryRef;
use crate::answered_calls::AnsweredCalls;
use mse_calls::{Answer, Call, Entry, Event, Piece};

/// Where an entry is: here, but for what would not fit into a few bytes, which is named by its index in a list.
/// Steps of work of one buffer, one behind the other, have one place.
#[derive(Clone, Copy, Debug)]
pub(crate) enum EntryPlace {
    /// The line of the script with that number began.
    Step(u32),
    /// The script made the call at that index of the calls.
    Script(usize),
    /// The script appended to the buffer of that number the piece at that index of the pieces, and
    /// it was done.
    Append(u32, usize),
    /// The listener of that number made the call at that index of the calls.
    Listener(u32, usize),
    /// An event was fired.
    Fired(Event),
    /// The buffer of that number did so many steps of work in a row; each is an entry.
    Work(u32, usize),
    /// The element took a turn.
    Element,
}

/// Keeps what an entry holds, in room that is there, and says where.
pub(crate) fn keep(calls: &mut AnsweredCalls, pieces: &mut Vec<Piece>, entry: Entry) -> EntryPlace
    requires room_for_call { 1 ≤ calls.old.spare }
    requires room_for_piece { vec_len pieces.old < vec_capacity pieces.old }
    ensures entry { entry_at calls.new.list pieces.new.items result ≡ entry }
    ensures single { count_of result ≡ 1 }
    ensures place_inside { IsPlaceInside calls.new.list pieces.new.items result }
    ensures calls_extended { IsExtension calls.old.list calls.new.list }
    ensures pieces_extended { IsExtension pieces.old.items pieces.new.items }
    ensures calls_room { calls.old.spare ≤ calls.new.spare + 1 }
    ensures pieces_len { vec_len pieces.new ≤ vec_len pieces.old + 1 }
    ensures pieces_room { vec_capacity pieces.new ≡ vec_capacity pieces.old }
{
    match entry {
        Entry::Step(n) => EntryPlace::Step(n),
        Entry::Script(Call::AppendBuffer(k, piece), Answer::Done) => {
            let index = pieces.len();
            pieces.push_reserved(piece);
            EntryPlace::Append(k, index)
        }
        Entry::Script(call, answer) => {
            let index = calls.len();
            calls.push_reserved(call, answer);
            EntryPlace::Script(index)
        }
        Entry::Listener(number, call, answer) => {
            let index = calls.len();
            calls.push_reserved(call, answer);
            EntryPlace::Listener(number, index)
        }
        Entry::Fired(event) => EntryPlace::Fired(event),
        Entry::Work(k) => EntryPlace::Work(k, 1),
        Entry::Element => EntryPlace::Element,
    }
}

/// The entry at a place; of a run of steps of work, each of its entries.
pub(crate) fn entry_ref<'a>(
    place: EntryPlace,
    calls: &'a AnsweredCalls,
    pieces: &[Piece],
) -> EntryRef<'a>
    requires { IsPlaceInside calls.now.list pieces.now place }
    ensures { entry_of result ≡ entry_at calls.now.list pieces.now place }
{
    match place {
        EntryPlace::Step(n) => EntryRef::Step(n),
        EntryPlace::Script(index) => {
            let (call, answer) = calls.get(index);
            EntryRef::Script(call, answer)
        }
        EntryPlace::Append(k, index) => EntryRef::Append(k, pieces[index]),
        EntryPlace::Listener(number, index) => {
            let (call, answer) = calls.get(index);
            EntryRef::Listener(number, call, answer)
        }
        EntryPlace::Fired(event) => EntryRef::Fired(event),
        EntryPlace::Work(k, _) => EntryRef::Work(k),
        EntryPlace::Element => EntryRef::Element,
    }
}
