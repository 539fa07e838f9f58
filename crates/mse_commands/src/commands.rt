//! What each command does, up to its end, without its error line.

ghost use Rattle.std.specs.Prelude.{◌≡◌, ◌<◌, ◌++◌, ◌^◌, ℕ, List, [], pos, false, None, Some, Ok, IfSome, IfOk, IfErr, OnOk, OnErr, IsErrOf, length, map, string_bytes, vec_len};
ghost use Rattle.event_text.specs.Block.{closing_text};
ghost use Rattle.run_steps.specs.declared.note.Note.{Note};
ghost use Rattle.listeners.specs.Dispatch.{notes_at};
ghost use Rattle.mse_calls.specs.declared.rules.Rule.{Rule};
ghost use Rattle.mse_engine.specs.State.{State};
ghost use Rattle.mse_engine.specs.Standing.{Stands};
ghost use Rattle.mse_engine.specs.Views.{view_in};
ghost use Rattle.mse_outside.specs.Outside.{IsFailedLoad};
ghost use Rattle.script_run.specs.Keeps.{AreFailuresTold, AreListenersInPlace};
ghost use Rattle.script_run.specs.RunStates.{printed_run, run_at};
ghost use Rattle.script_run.specs.Text.{lines_in};
ghost use Rattle.script_run.specs.Writes.{IsWritten, IsFrontWritten};
ghost use Rattle.mse_commands.specs.Requests.{IsFileCommand, HasRequestOfCommand, HasRequestOfWords, file_by, files_by};
ghost use Rattle.mse_commands.specs.Heading.{heading_of};
ghost use Rattle.mse_commands.specs.Loads.{AreFailedLoadsTold, IsMade, IsUnmade, IsLoadEnd, failures};
ghost use Rattle.mse_commands.specs.Outcomes.{outcome, outcome_at, outside_of};
ghost use Rattle.mse_commands.specs.Shown.{file_closing, pieces_by};
ghost use Rattle.mse_commands.specs.Words.{IsInRange, command_of};
ghost use Rattle.mse_commands.specs.Works.{IsAppended, IsPartAppended, IsScriptShowResult, IsFileShowResult, IsRequestDone, script_inputs};

use crate::ending::End;
use crate::feeds::close_feed;
use crate::file::{append_pieces, append_whole};
use crate::load::{load, load_blobs, load_script};
use crate::remuxing::run_remux;
use crate::text::heading;
use crate::words::{Command, file_name, read_command};
use bmff_write::make;
use call_script::Script;
use event_text::closing;
use listeners::Listener;
use mse_base::{OutOfMemory, Ticks};
use mse_calls::Blobs;
use mse_engine::Engine;
use mse_outside::{Library, Sink};
use run_journal::Journal;
use script_run::{Halt, ScriptRun, give_rules, put_lines};
use std::alloc::Global;
use std::mem;
use track_store::FrameStore;

/// How many bytes the buffer of a file may hold. No file is so long, so nothing is ever evicted.
const QUOTA: u64 = 1 << 62;

/// How many bytes each append of a made file has.
const MADE_PIECE: usize = 1000;

/// Puts a text and then what closes a run that went through: `whole` is false for the run of a file, whose block does not
/// show the state. After an `Err` a front of it was put.
#[tactic(auto, using(script_run::proofs::PutLines::front_none))]
pub fn close<S: FrameStore, K: Sink>(
    alloc: Global,
    engine: &Engine<S>,
    sink: &mut K,
    before: String,
    whole: bool,
) -> Result<(), Halt>
    ensures ok { (st : State) → Stands engine.now st
        → OnOk result (IsWritten
        (lines_in (string_bytes before) ++ lines_in (closing_text (view_in st) whole))
        (K.written sink.old) (K.written sink.new)) }
    ensures err { (st : State) → Stands engine.now st
        → OnErr result (IsFrontWritten
        (lines_in (string_bytes before) ++ lines_in (closing_text (view_in st) whole))
        (K.written sink.old) (K.written sink.new)) }
    ensures puts { AreFailuresTold Halt.Write (K.faults sink.old) (K.faults sink.new) result }
{
    let Ok(view) = engine.view() else {
        return Err(Halt::Memory);
    };
    let Ok(text) = closing(alloc, &view, whole) else {
        return Err(Halt::Memory);
    };
    match put_lines(sink, before.as_str()) {
        Ok(()) => {}
        Err(halt) => return Err(halt),
    }
    put_lines(sink, text.as_str())
}

/// Appends a file as the command says.
fn append_file<S: FrameStore>(
    alloc: Global,
    run: &mut ScriptRun<S>,
    command: &Command,
    file: Vec<u8>,
) -> Result<(), OutOfMemory>
    requires { IsInRange command.now }
    ensures ok { OnOk result
        (IsAppended file.items (pieces_by command.now (length file.items)) run.old run.new) }
    ensures err { OnErr result
        (IsPartAppended file.items (pieces_by command.now (length file.items)) run.old run.new) }
{
    match *command {
        Command::Ranges | Command::Feed(_) | Command::Play | Command::Remux => {
            append_whole(alloc, run, file)
        }
        Command::Pieces(count) => append_pieces(alloc, run, file, count as usize),
        Command::Make(_) => append_pieces(alloc, run, file, MADE_PIECE),
    }
}

/// The bytes that a command appends: those of the file of that name, or those that it makes.
fn file_for<L: Library>(
    alloc: Global,
    library: &mut L,
    command: &Command,
    name: &str,
) -> Result<Vec<u8>, End>
    requires { IsInRange command.now }
    ensures table { L.table library.new ≡ L.table library.old }
    ensures failures { AreFailedLoadsTold (L.faults library.old) (L.faults library.new) result }
    ensures ok { IfSome (L.table library.old) (λ files.
        IfOk result (λ bytes. file_by files name.now command.now ≡ Ok bytes.items)) }
    ensures early_end { IfErr result (IsLoadEnd (L.table library.old)
        (failures (L.faults library.old) (L.faults library.new))
        (files_by name.now command.now) (λ files. file_by files name.now command.now)) }
    ensures made { IfOk result (λ bytes. IsMade command.now bytes.items) }
    ensures unmade { IfErr result (IsUnmade command.now) }
    ensures failed_load { (other : List ℕ) → IsErrOf result (End.Read other)
        → IsFailedLoad L.load_gives (files_by name.now command.now) other library.old library.new }
{
    match *command {
        Command::Ranges | Command::Pieces(_) | Command::Feed(_) | Command::Play | Command::Remux =>
            load(alloc, library, name),
        Command::Make(count) => match make(alloc, count) {
            Ok(bytes) => match bytes.into_vec() {
                Ok(bytes) => Ok(bytes),
                Err(_) => Err(End::Memory),
            },
            Err(_) => Err(End::Memory),
        },
    }
}

/// The block that closes a run with a file of `len` bytes.
#[tactic(auto, using(script_run::proofs::PutLines::front_none))]
fn close_block<S: FrameStore, K: Sink>(
    alloc: Global,
    engine: &Engine<S>,
    sink: &mut K,
    command: &Command,
    len: usize,
) -> Result<(), Halt>
    ensures ok { (st : State) → Stands engine.now st
        → OnOk result (IsWritten
        (lines_in (heading_of command.now len) ++ lines_in (closing_text (view_in st) false))
        (K.written sink.old) (K.written sink.new)) }
    ensures err { (st : State) → Stands engine.now st
        → OnErr result (IsFrontWritten
        (lines_in (heading_of command.now len) ++ lines_in (closing_text (view_in st) false))
        (K.written sink.old) (K.written sink.new)) }
    ensures puts { AreFailuresTold Halt.Write (K.faults sink.old) (K.faults sink.new) result }
{
    match heading(alloc, command, len) {
        Ok(before) => close(alloc, engine, sink, before, false),
        Err(_) => Err(Halt::Memory),
    }
}

/// What closes a run with a file of `len` bytes.
fn close_file<S: FrameStore, K: Sink>(
    alloc: Global,
    engine: &Engine<S>,
    sink: &mut K,
    command: &Command,
    len: usize,
) -> Result<(), Halt>
    ensures ok { (st : State) → Stands engine.now st
        → OnOk result (IsWritten (file_closing command.now len st)
        (K.written sink.old) (K.written sink.new)) }
    ensures err { (st : State) → Stands engine.now st
        → OnErr result (IsFrontWritten (file_closing command.now len st)
        (K.written sink.old) (K.written sink.new)) }
    ensures puts { AreFailuresTold Halt.Write (K.faults sink.old) (K.faults sink.new) result }
{
    match *command {
        Command::Feed(at) => close_feed(alloc, engine, sink, at),
        Command::Ranges => close_block(alloc, engine, sink, command, len),
        Command::Pieces(_) => close_block(alloc, engine, sink, command, len),
        Command::Make(_) => close_block(alloc, engine, sink, command, len),
        Command::Play => close_block(alloc, engine, sink, command, len),
        Command::Remux => close_block(alloc, engine, sink, command, len),
    }
}

/// Appends a file, and puts what is shown of the engine then. It answers whether the file breaks the
/// byte stream format.
fn show_file<S: FrameStore, K: Sink>(
    alloc: Global,
    run: &mut ScriptRun<S>,
    sink: &mut K,
    command: &Command,
    file: Vec<u8>,
) -> Result<bool, End>
    requires { IsInRange command.now }
    ensures shows { IsFileShowResult command.now file.items
        (printed_run run.old (K.written sink.old)) (printed_run run.new (K.written sink.new))
        result }
    ensures puts { AreFailuresTold End.Write (K.faults sink.old) (K.faults sink.new) result }
{
    let len = file.len();
    let Ok(()) = append_file(alloc, run, command, file) else {
        return Err(End::Memory);
    };
    match close_file(alloc, run.engine(), sink, command, len) {
        Ok(()) => Ok(run.engine().fault().is_some()),
        Err(halt) => Err(End::of_halt(halt)),
    }
}

/// Plays a script over its blobs.
fn play_script<S: FrameStore, K: Sink>(
    alloc: Global,
    run: &mut ScriptRun<S>,
    blobs: &Blobs,
    sink: &mut K,
    listeners: &mut Vec<Box<dyn Listener>>,
    script: Script,
) -> Result<bool, End>
    requires listeners { vec_len listeners.old < 2 ^ 32 }
    requires no_notes { (w : ℕ) → notes_at (map (λ b. notes b) listeners.old.items) w ≡ [] }
    requires lines { length script.steps < 2 ^ 32 }
    ensures plays { IsScriptShowResult (script_inputs (vec_len listeners.old) script blobs.now)
        (map (λ b. rules b) listeners.new.items)
        (run_at run.old (K.written sink.old) (map (λ b. notes b) listeners.old.items))
        (run_at run.new (K.written sink.new) (map (λ b. notes b) listeners.new.items)) result }
    ensures count { vec_len listeners.new ≡ vec_len listeners.old }
    ensures listeners { AreListenersInPlace (λ b. b.vtable) way rules notes listeners.old.items
        listeners.new.items }
    ensures puts { AreFailuresTold End.Write (K.faults sink.old) (K.faults sink.new) result }
{
    let limit = script.drain;
    let Ok(()) = give_rules(alloc, listeners, script.rules.into_vec()) else {
        return Err(End::Memory);
    };
    match run.play(blobs, sink, listeners, limit, script.steps.as_slice()) {
        Ok(()) => {}
        Err(stop) => return Err(End::of_stop(stop, limit)),
    }
    match close(alloc, run.engine(), sink, String::new(alloc), true) {
        Ok(()) => Ok(false),
        Err(halt) => Err(End::of_halt(halt)),
    }
}

/// Hands out the engine and the journal of a run.
fn hand_out<S: FrameStore>(run: ScriptRun<S>, engine: &mut Option<Engine<S>>, journal: &mut Journal)
    ensures engine { engine.new ≡ Some run.engine }
    ensures entries { journal.new.entries ≡ run.entries }
{
    let (run_engine, entries) = run.into_parts();
    *engine = Some(run_engine);
    *journal = entries;
}

/// A file by `ranges`, `pieces`, `make` or `feed`.
fn run_file<S: FrameStore, L: Library, K: Sink>(
    alloc: Global,
    command: Command,
    name: &str,
    library: &mut L,
    sink: &mut K,
    engine: &mut Option<Engine<S>>,
    journal: &mut Journal,
) -> Result<bool, End>
    requires range { IsInRange command }
    requires file { IsFileCommand command }
    requires no_entries { journal.old.entries ≡ [] }
    requires no_engine { engine.old ≡ None }
    ensures works { (count : ℕ) (told : List (List Note)) (given : List (List Rule))
        → HasRequestOfCommand (L.table library.old) name.now (Some command) (λ request.
        IsRequestDone count request
        (outcome journal.new.entries engine.new
        (outside_of (L.faults library.old) (K.written sink.old) told given)
        (outside_of (L.faults library.new) (K.written sink.new) told given))
        result) }
    ensures words { ¬ IsErrOf result End.Words }
    ensures puts { AreFailuresTold End.Write (K.faults sink.old) (K.faults sink.new) result }
    ensures loads { AreFailedLoadsTold (L.faults library.old) (L.faults library.new) result }
    ensures failed_load { (other : List ℕ) → IsErrOf result (End.Read other)
        → HasRequestOfCommand (L.table library.old) name.now (Some command) (λ request.
        IsFailedLoad L.load_gives request.names other library.old library.new) }
{
    let file = match file_for(alloc, library, &command, name) {
        Ok(file) => file,
        Err(end) => return Err(end),
    };
    let entries = mem::replace(journal, Journal::new(alloc));
    let mut run = ScriptRun::new(alloc, QUOTA, Ticks::zero(), entries);
    let result = show_file(alloc, &mut run, sink, &command, file);
    hand_out(run, engine, journal);
    result
}

/// The gap of a script, in ticks.
fn gap_of(script: &Script) -> Ticks
    ensures { result ≡ pos script.now.gap }
{
    match Ticks::new(i128::from(script.gap)) {
        Some(gap) => gap,
        None => Ticks::zero(),
    }
}

/// A script by `play`.
fn run_script<S: FrameStore, L: Library, K: Sink>(
    alloc: Global,
    name: &str,
    library: &mut L,
    sink: &mut K,
    listeners: &mut Vec<Box<dyn Listener>>,
    engine: &mut Option<Engine<S>>,
    journal: &mut Journal,
) -> Result<bool, End>
    requires listeners { vec_len listeners.old < 2 ^ 32 }
    requires no_notes { (w : ℕ) → notes_at (map (λ b. notes b) listeners.old.items) w ≡ [] }
    requires journal { journal.old.entries ≡ [] }
    requires no_engine { engine.old ≡ None }
    ensures works { HasRequestOfCommand (L.table library.old) name.now (Some Command.Play)
        (λ request. IsRequestDone (vec_len listeners.old) request
        (outcome_at L.faults K.written notes rules journal.new.entries engine.new
        (library.old, sink.old, listeners.old.items)
        (library.new, sink.new, listeners.new.items)) result) }
    ensures count { vec_len listeners.new ≡ vec_len listeners.old }
    ensures listeners { AreListenersInPlace (λ b. b.vtable) way rules notes listeners.old.items
        listeners.new.items }
    ensures words { ¬ IsErrOf result End.Words }
    ensures puts { AreFailuresTold End.Write (K.faults sink.old) (K.faults sink.new) result }
    ensures loads { AreFailedLoadsTold (L.faults library.old) (L.faults library.new) result }
    ensures failed_load { (other : List ℕ) → IsErrOf result (End.Read other)
        → HasRequestOfCommand (L.table library.old) name.now (Some Command.Play) (λ request.
        IsFailedLoad L.load_gives request.names other library.old library.new) }
{
    let script = match load_script(alloc, library, name) {
        Ok(script) => script,
        Err(end) => return Err(end),
    };
    let blobs = match load_blobs(alloc, library, script.blobs.as_slice()) {
        Ok(blobs) => blobs,
        Err(end) => return Err(end),
    };
    let entries = mem::replace(journal, Journal::new(alloc));
    let mut run = ScriptRun::new(alloc, script.quota, gap_of(&script), entries);
    let result = play_script(alloc, &mut run, &blobs, sink, listeners, script);
    hand_out(run, engine, journal);
    result
}

/// Does what the words ask for, up to its end. It answers whether a file breaks the byte stream
/// format.
pub fn work<S: FrameStore, L: Library, K: Sink>(
    alloc: Global,
    words: &[String],
    library: &mut L,
    sink: &mut K,
    listeners: &mut Vec<Box<dyn Listener>>,
    engine: &mut Option<Engine<S>>,
    journal: &mut Journal,
) -> Result<bool, End>
    requires listeners { vec_len listeners.old < 2 ^ 32 }
    requires no_notes { (w : ℕ) → notes_at (map (λ b. notes b) listeners.old.items) w ≡ [] }
    requires journal { journal.old.entries ≡ [] }
    requires no_engine { engine.old ≡ None }
    ensures works { HasRequestOfWords (L.table library.old) (map string_bytes words.now) (λ request.
        IsRequestDone (vec_len listeners.old) request
        (outcome_at L.faults K.written notes rules journal.new.entries engine.new
        (library.old, sink.old, listeners.old.items)
        (library.new, sink.new, listeners.new.items)) result) }
    ensures count { vec_len listeners.new ≡ vec_len listeners.old }
    ensures listeners { AreListenersInPlace (λ b. b.vtable) way rules notes listeners.old.items
        listeners.new.items }
    ensures words { IsErrOf result End.Words → command_of (map string_bytes words.now) ≡ None }
    ensures puts { AreFailuresTold End.Write (K.faults sink.old) (K.faults sink.new) result }
    ensures loads { AreFailedLoadsTold (L.faults library.old) (L.faults library.new) result }
    ensures failed_load { (other : List ℕ) → IsErrOf result (End.Read other)
        → HasRequestOfWords (L.table library.old) (map string_bytes words.now) (λ request.
        IsFailedLoad L.load_gives request.names other library.old library.new) }
{
    let name = file_name(words);
    let Some(command) = read_command(words) else {
        return Err(End::Words);
    };
    match command {
        Command::Play => run_script(alloc, name, library, sink, listeners, engine, journal),
        Command::Remux => run_remux(alloc, name, library, sink),
        Command::Ranges | Command::Pieces(_) | Command::Make(_) | Command::Feed(_) => {
            run_file(alloc, command, name, library, sink, engine, journal)
        }
    }
}
