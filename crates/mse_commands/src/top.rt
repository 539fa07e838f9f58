//! The top call.

ghost use Rattle.std.specs.Prelude.{◌≡◌, ◌≢◌, ◌<◌, ◌^◌, ℕ, List, [], None, Some, IfSome, Ok, map, string_bytes, vec_len};
ghost use Rattle.call_script.specs.declared.script.Script.{Script};
ghost use Rattle.listeners.specs.Dispatch.{notes_at};
ghost use Rattle.listeners.specs.Ways.{AreByWay};
ghost use Rattle.run_steps.specs.Ways.{Way};
ghost use Rattle.mse_outside.specs.Outside.{HasRisen};
ghost use Rattle.mse_commands.specs.Requests.{ByScript, HasRequestOfWords, request_in};
ghost use Rattle.mse_commands.specs.Complete.{IsCutAnywhere, IsComplete};
ghost use Rattle.mse_commands.specs.Ends.{IsJournalBy, IsOutputBy};
ghost use Rattle.mse_commands.specs.Loads.{failures};
ghost use Rattle.mse_commands.specs.Outcomes.{IsEndOfRun, outcome_at};
ghost use Rattle.mse_commands.specs.Program.{script_played, program_of};
ghost use Rattle.mse_commands.specs.Says.{AreFailedPutsSaid, IsEndSaid, IsFailedLoadSaid, IsLineSaid};
ghost use Rattle.mse_commands.specs.Words.{command_of};

use crate::commands::work;
use crate::ending::{End, Status};
use crate::text::error_line_for;
use listeners::Listener;
use mse_engine::Engine;
use mse_outside::{Library, Sink};
use run_journal::Journal;
use script_run::put_bytes;
use std::alloc::Global;
use track_store::FrameStore;

/// Puts the line of an end.
#[tactic(auto, using(script_run::proofs::PutLines::front_none))]
fn say_line<K: Sink>(alloc: Global, sink: &mut K, end: &End) -> Status
    ensures said { IsLineSaid end.now (K.written sink.old) (K.written sink.new) result }
    ensures puts { AreFailedPutsSaid end.now (K.faults sink.old) (K.faults sink.new) result }
{
    let Ok(line) = error_line_for(alloc, end) else {
        return Status::Memory;
    };
    match put_bytes(sink, line.as_bytes()) {
        Ok(()) => end.status(),
        Err(halt) => End::of_halt(halt).status(),
    }
}

/// Says why a run ended early. After want of memory and a failed put nothing is put.
fn say<K: Sink>(alloc: Global, sink: &mut K, end: &End) -> Status
    ensures says { IsEndSaid end.now (K.written sink.old) (K.written sink.new) result }
    ensures puts { AreFailedPutsSaid end.now (K.faults sink.old) (K.faults sink.new) result }
{
    match end {
        End::Memory => Status::Memory,
        End::Write => Status::Write,
        _ => say_line(alloc, sink, end),
    }
}

/// Does what the words ask for with the files of the library, and puts the printed text into the
/// sink, one whole line a put. `words` are the arguments after the program's name. `play SCRIPT`
/// makes the calls of a script, to whose events the listeners answer by its rules; its lines are
/// put as they come, and then what is buffered. `ranges FILE` and `pieces N FILE` append the file
/// to a source buffer, at once or in pieces of N bytes, and print what is buffered then: both print
/// the same. `make N` does so with a file of N segments that it makes, and says first what it made.
/// `feed T FILE` appends the file, and prints the frames that a decoder is given to show the time T
/// and all that comes after it. `remux FILE` writes a classic file as a fragmented one, of which the
/// initialization segment and each media segment is a put of its own; it makes no engine. All that
/// happened stands in the journal, and the engine is as it was left. Coded frames are kept
/// in a store of type `S`. Each listener stays at its place, and did what its way gives where it tells
/// one.
///
/// Where the library tells its files, no load and no put fails, and the listeners tell their ways, the
/// status and what is written are those of a function of the ways, the files and the words (`program_of`);
/// or there is no memory, and a front of that is written.
///
/// A failed put is told by the status `Write`. A failed load is told by `Read`, unless memory is
/// wanting for that line, or the sink fails to take it. The line names the file whose load failed:
/// the loads of all files before it were done.
pub fn run<S: FrameStore, L: Library, K: Sink>(
    alloc: Global,
    words: &[String],
    library: &mut L,
    sink: &mut K,
    listeners: &mut Vec<Box<dyn Listener>>,
    engine: &mut Option<Engine<S>>,
    journal: &mut Journal,
) -> Status
    requires listeners { vec_len listeners.old < 2 ^ 32 }
    requires no_notes { (w : ℕ) → notes_at (map (λ b. notes b) listeners.old.items) w ≡ [] }
    requires journal { journal.old.entries ≡ [] }
    requires no_engine { engine.old ≡ None }
    ensures ends { HasRequestOfWords (L.table library.old) (map string_bytes words.now) (λ request.
        IsEndOfRun (vec_len listeners.old) request
        (outcome_at L.faults K.written notes rules journal.new.entries engine.new
        (library.old, sink.old, listeners.old.items)
        (library.new, sink.new, listeners.new.items)) result) }
    ensures complete { IfSome (L.table library.old) (λ files. IsComplete (vec_len listeners.old)
        (request_in files (map string_bytes words.now))
        (outcome_at L.faults K.written notes rules journal.new.entries engine.new
        (library.old, sink.old, listeners.old.items)
        (library.new, sink.new, listeners.new.items))
        (failures (K.faults sink.old) (K.faults sink.new)) result) }
    ensures cuts { IfSome (L.table library.old) (λ files.
        IsCutAnywhere (request_in files (map string_bytes words.now)) journal.new.entries result) }
    ensures program { IfSome (L.table library.old) (λ files. (ways : List Way)
        → map (λ b. way b) listeners.old.items ≡ map (λ way. Some way) ways
        → ¬ HasRisen (L.faults library.old) (L.faults library.new)
        → ¬ HasRisen (K.faults sink.old) (K.faults sink.new)
        → IsOutputBy (program_of ways files (map string_bytes words.now))
        (K.written sink.old) (K.written sink.new) result) }
    ensures program_journal { IfSome (L.table library.old) (λ files. (ways : List Way)
        (script : Script) (blobs : List (List ℕ))
        → (request_in files (map string_bytes words.now)).task ≡ Ok (ByScript script blobs)
        → map (λ b. way b) listeners.old.items ≡ map (λ way. Some way) ways
        → ¬ HasRisen (L.faults library.old) (L.faults library.new)
        → ¬ HasRisen (K.faults sink.old) (K.faults sink.new)
        → IsJournalBy (script_played ways script blobs).entries journal.new.entries result) }
    ensures count { vec_len listeners.new ≡ vec_len listeners.old }
    ensures kinds { map (λ b. b.vtable) listeners.new.items
        ≡ map (λ b. b.vtable) listeners.old.items }
    ensures ways { map (λ b. way b) listeners.new.items ≡ map (λ b. way b) listeners.old.items }
    ensures by_way { AreByWay way rules notes listeners.new.items }
    ensures words { result ≡ Status.Words → command_of (map string_bytes words.now) ≡ None }
    ensures read { result ≡ Status.Read → HasRisen (L.faults library.old) (L.faults library.new) }
    ensures write { result ≡ Status.Write → HasRisen (K.faults sink.old) (K.faults sink.new) }
    ensures failed_loads_told { result ≢ Status.Read → result ≢ Status.Memory
        → result ≢ Status.Write → L.faults library.new ≡ L.faults library.old }
    ensures failed_puts_told { result ≢ Status.Write → K.faults sink.new ≡ K.faults sink.old }
    ensures failed_load { result ≡ Status.Read
        → HasRequestOfWords (L.table library.old) (map string_bytes words.now) (λ request.
        IsFailedLoadSaid L.load_gives request.names (library.old, library.new)
        (K.written sink.old) (K.written sink.new)) }
{
    match work(alloc, words, library, sink, listeners, engine, journal) {
        Ok(false) => Status::Ok,
        Ok(true) => Status::Media,
        Err(end) => say(alloc, sink, &end),
    }
}
