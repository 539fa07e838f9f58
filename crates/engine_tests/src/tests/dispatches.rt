//! A dispatch that may find no memory in any place. What was done is then a front part of what is done where there is
//! memory, and the engine is as those calls leave it that stand in the journal. Of the three listeners the second is no
//! listener by rules. What dispatches do where there is memory is in scripts of `case_runs`.
//!
//! An allocation is refused from outside, by `rt try --test --fail-alloc` or by `bench/refused.py` of the repository.

ghost use Rattle.std.specs.Prelude.{◌≡◌, ◌+◌, ◌≤◌, ◌++◌, ◌∷◌, [], None, vec_len};
ghost use Rattle.std.specs.Vec.{vec_capacity};
ghost use Rattle.listeners.specs.Notes.{told_note};

use super::rule_listeners::{OPEN, boxed_listener};
use event_text::{closing, event_line, listener_line, script_line};
use listeners::{DispatchFault, Listener, RuleListener, dispatch};
use mse_base::{Bytes, OutOfMemory, OwnedList, Text, Ticks};
use mse_calls::{Answer, Blobs, Call, Entry, Event, Piece, Rule};
use mse_engine::Engine;
use run_journal::{EntryRef, Journal};
use run_steps::Note;
use std::alloc::Global;
use std::test::Fail;
use track_store::ListStore;

/// A box of type `free` without payload.
const FREE: [u8; 8] = [0, 0, 0, 8, b'f', b'r', b'e', b'e'];

/// The whole first blob.
const WHOLE: Piece = Piece {
    blob: 0,
    part: None,
};

/// How many calls the listeners may make.
const LIMIT: u64 = 100;

/// What is printed where all calls are made.
static LINES: [&str; 9] = [
    "call attach: done\n",
    "event source sourceopen\n",
    "listener 0 add video/mp4: done\n",
    "listener 0 add video/mp4: done\n",
    "listener 0 add video/mp4: done\n",
    "listener 1 append 0 0: done\n",
    "listener 1 append 0 0: refused InvalidStateError\n",
    "listener 2 buffered 0: ranges none\n",
    "listener 2 state: source open duration nan level 0 position 0 paused true seeking false error 0\n",
];

/// A call of a listener.
#[derive(Clone, Copy)]
enum Asked {
    /// Adds a buffer, of a type with no codec that is named.
    Add,
    /// Appends the first blob to the first buffer.
    Append,
    Buffered,
    State,
}

/// The calls of the three listeners, in their order.
static CALLS: [Asked; 7] = [
    Asked::Add,
    Asked::Add,
    Asked::Add,
    Asked::Append,
    Asked::Append,
    Asked::Buffered,
    Asked::State,
];

fn call_of(alloc: Global, asked: Asked) -> Result<Call, OutOfMemory> {
    match asked {
        Asked::Add => Ok(Call::AddSourceBuffer(Text::copy_of(alloc, "video/mp4")?)),
        Asked::Append => Ok(Call::AppendBuffer(0, WHOLE)),
        Asked::Buffered => Ok(Call::Buffered(0)),
        Asked::State => Ok(Call::SourceState),
    }
}

fn calls_of(alloc: Global, asked: &[Asked]) -> Result<Vec<Call>, OutOfMemory> {
    let mut calls = Vec::new(alloc);
    for call in asked {
        calls.push(call_of(alloc, *call)?)?;
    }
    Ok(calls)
}

/// A listener by rules that makes these calls when the source opens.
fn answering(alloc: Global, asked: &[Asked]) -> Result<Box<RuleListener>, OutOfMemory> {
    let calls = calls_of(alloc, asked)?;
    let rule = Rule {
        listener: 0,
        on: OPEN,
        times: 1,
        repeat: false,
        calls: OwnedList::from_vec(calls),
    };
    boxed_listener(alloc, vec![in alloc; rule]?)
}

/// A listener that appends the first blob to the first buffer until that is refused. It keeps notes
/// in memory.
#[derive(Drop)]
struct Appender {
    rules: Vec<Rule>,
    notes: Vec<Note>,
}

impl Listener for Appender {
    ghost way = { λ _. None };

    ghost rules = { λ s. s.rules.items };

    ghost notes = { λ s. s.notes.items };

    fn set_rules(&mut self, list: Vec<Rule>) {
        self.rules = list;
    }

    fn hear(&mut self, event: &Event) -> Result<(), OutOfMemory> {
        self.notes.push(Note::Heard(*event))?;
        Ok(())
    }

    fn next(&mut self, last: Option<&Answer>) -> Result<Option<Call>, OutOfMemory> {
        let told = match last {
            Some(answer) => Some(answer.copy()?),
            None => None,
        };
        let rests = matches!(last, Some(Answer::Refused(_)));
        self.notes.try_reserve(2)?;
        note_answer(&mut self.notes, told);
        if rests {
            note(&mut self.notes, Note::Rested);
            return Ok(None);
        }
        note(&mut self.notes, Note::Made(Call::AppendBuffer(0, WHOLE)));
        Ok(Some(Call::AppendBuffer(0, WHOLE)))
    }
}

fn note(notes: &mut Vec<Note>, note: Note)
    requires { vec_len notes.old + 1 ≤ vec_capacity notes.old }
    ensures { notes.new.items ≡ notes.old.items ++ note ∷ [] }
{
    notes.push_reserved(note);
}

fn note_answer(notes: &mut Vec<Note>, told: Option<Answer>)
    requires { vec_len notes.old + 2 ≤ vec_capacity notes.old }
    ensures items { notes.new.items ≡ notes.old.items ++ told_note told }
    ensures room { vec_len notes.new + 1 ≤ vec_capacity notes.new }
{
    match told {
        None => {}
        Some(answer) => notes.push_reserved(Note::Told(answer)),
    }
}

/// A listener: by rules, with these calls, or one that appends until that is refused.
#[derive(Clone, Copy)]
enum ListenerRow {
    ByRules(&'static [Asked]),
    Appends,
}

static LISTENERS: [ListenerRow; 3] = [
    ListenerRow::ByRules(&[Asked::Add, Asked::Add, Asked::Add]),
    ListenerRow::Appends,
    ListenerRow::ByRules(&[Asked::Buffered, Asked::State]),
];

fn boxed_appender(alloc: Global) -> Result<Box<Appender>, OutOfMemory> {
    let appender = Appender {
        rules: Vec::new(alloc),
        notes: Vec::new(alloc),
    };
    Ok(Box::new(alloc, appender)?)
}

fn listener_of(alloc: Global, row: ListenerRow) -> Result<Box<dyn Listener>, OutOfMemory> {
    match row {
        ListenerRow::ByRules(asked) => {
            let listener = answering(alloc, asked)?;
            Ok(listener)
        }
        ListenerRow::Appends => {
            let listener = boxed_appender(alloc)?;
            Ok(listener)
        }
    }
}

fn listeners(alloc: Global) -> Result<Vec<Box<dyn Listener>>, OutOfMemory> {
    let mut listeners: Vec<Box<dyn Listener>> = Vec::new(alloc);
    for row in &LISTENERS {
        listeners.push(listener_of(alloc, *row)?)?;
    }
    Ok(listeners)
}

#[derive(Drop)]
struct DispatchScene {
    engine: Engine<ListStore>,
    blobs: Blobs,
    listeners: Vec<Box<dyn Listener>>,
    left: u64,
    journal: Journal,
}

/// Makes a call without a listener.
fn make(scene: &mut DispatchScene, call: Call) -> Result<(), OutOfMemory> {
    scene.journal.reserve(1)?;
    let Ok(answer) = scene.engine.call(&call, &scene.blobs) else {
        return Err(OutOfMemory);
    };
    scene.journal.push_reserved(Entry::Script(call, answer));
    Ok(())
}

/// Gives a new scene its blob, and opens its source.
fn open(alloc: Global, scene: &mut DispatchScene) -> Result<(), OutOfMemory> {
    scene.blobs.push(Bytes::copy_of(alloc, &FREE)?)?;
    make(scene, Call::Attach)?;
    // the place of the event that is fired next
    scene.journal.reserve(1)?;
    Ok(())
}

/// An opened source, whose first event waits, and one blob.
fn opened_scene(
    alloc: Global,
    listeners: Vec<Box<dyn Listener>>,
) -> Result<DispatchScene, OutOfMemory> {
    let mut scene = DispatchScene {
        engine: Engine::new(alloc, 1 << 40, Ticks::zero()),
        blobs: Blobs::new(alloc),
        listeners,
        left: LIMIT,
        journal: Journal::new(alloc),
    };
    open(alloc, &mut scene)?;
    Ok(scene)
}

fn scene_once(alloc: Global) -> Result<DispatchScene, OutOfMemory> {
    opened_scene(alloc, listeners(alloc)?)
}

/// An opened source with the three listeners.
fn scene(alloc: Global) -> Result<DispatchScene, OutOfMemory> {
    match scene_once(alloc) {
        Ok(scene) => Ok(scene),
        Err(_) => scene_once(alloc),
    }
}

/// Fires the event that waits, and makes the first calls of the listeners, without any.
fn make_first(alloc: Global, scene: &mut DispatchScene, count: usize) -> Result<(), OutOfMemory> {
    scene.engine.fire();
    for asked in CALLS.iter().take(count) {
        make(scene, call_of(alloc, *asked)?)?;
    }
    Ok(())
}

fn replay_once(alloc: Global, count: usize) -> Result<DispatchScene, OutOfMemory> {
    let mut scene = opened_scene(alloc, Vec::new(alloc))?;
    make_first(alloc, &mut scene, count)?;
    Ok(scene)
}

/// The same source with the first calls of the listeners, which are made without any.
fn replay(alloc: Global, count: usize) -> Result<DispatchScene, OutOfMemory> {
    match replay_once(alloc, count) {
        Ok(scene) => Ok(scene),
        Err(_) => replay_once(alloc, count),
    }
}

/// Fires the event that waits, and dispatches it.
fn fire(scene: &mut DispatchScene) -> Result<Result<(), DispatchFault>, Fail> {
    if scene.listeners.len() > 100 {
        return Err(Fail::new("too many listeners"));
    }
    scene.journal.reserve(1)?;
    let Some(event) = scene.engine.fire() else {
        return Err(Fail::new("no event"));
    };
    scene.journal.push_reserved(Entry::Fired(event));
    Ok(dispatch(
        &mut scene.engine,
        &scene.blobs,
        &mut scene.listeners,
        &event,
        &mut scene.left,
        &mut scene.journal,
    ))
}

/// The printed line of an entry; the empty text for an entry that no call and no event left.
fn line_of(alloc: Global, entry: Option<EntryRef<'_>>) -> Result<Text, OutOfMemory> {
    match entry {
        Some(EntryRef::Script(call, answer)) => script_line(alloc, call, answer),
        Some(EntryRef::Listener(number, call, answer)) => {
            listener_line(alloc, number, call, answer)
        }
        Some(EntryRef::Fired(event)) => event_line(alloc, &event),
        _ => Text::copy_of(alloc, ""),
    }
}

fn line_at(alloc: Global, journal: &Journal, i: usize) -> Result<Text, OutOfMemory> {
    match line_of(alloc, journal.get(i)) {
        Ok(line) => Ok(line),
        Err(_) => line_of(alloc, journal.get(i)),
    }
}

/// Whether the entry of that number is printed as this line.
fn is_line(alloc: Global, journal: &Journal, i: usize, wanted: &str) -> Result<bool, OutOfMemory> {
    let line = line_at(alloc, journal, i)?;
    Ok(line.as_str() == wanted)
}

/// Whether what was done is printed as the first lines, or as all.
fn are_first_lines(alloc: Global, journal: &Journal) -> Result<bool, OutOfMemory> {
    for (i, wanted) in LINES.iter().take(journal.len()).enumerate() {
        if !is_line(alloc, journal, i, wanted)? {
            return Ok(false);
        }
    }
    Ok(journal.len() <= LINES.len())
}

fn scene_text_once(alloc: Global, scene: &DispatchScene) -> Result<Text, OutOfMemory> {
    match scene.engine.view() {
        Ok(view) => closing(alloc, &view, true),
        Err(_) => Err(OutOfMemory),
    }
}

/// What an engine shows, as it is printed at the end of a run.
fn scene_text(alloc: Global, scene: &DispatchScene) -> Result<Text, OutOfMemory> {
    match scene_text_once(alloc, scene) {
        Ok(text) => Ok(text),
        Err(_) => scene_text_once(alloc, scene),
    }
}

/// Whether both engines show the same.
fn show_the_same(
    alloc: Global,
    scene: &DispatchScene,
    other: &DispatchScene,
) -> Result<bool, OutOfMemory> {
    let this = scene_text(alloc, scene)?;
    let that = scene_text(alloc, other)?;
    Ok(this.as_str() == that.as_str())
}

/// Whether the same events wait in both engines.
fn fire_the_same(scene: &mut DispatchScene, other: &mut DispatchScene) -> bool {
    for _ in 0..10 {
        if scene.engine.fire() != other.engine.fire() {
            return false;
        }
    }
    true
}

/// Whether both engines show the same, and the same events wait in both.
fn are_alike(
    alloc: Global,
    scene: &mut DispatchScene,
    other: &mut DispatchScene,
) -> Result<bool, OutOfMemory> {
    Ok(show_the_same(alloc, scene, other)? && fire_the_same(scene, other))
}

/// Whether a dispatch ended behind all calls, or for want of memory, and each call is counted that was made.
fn is_whole_or_cut(scene: &DispatchScene, ended: Result<(), DispatchFault>) -> bool {
    let done = scene.journal.len();
    let made = done.saturating_sub(2) as u64;
    let cut = match ended {
        Ok(()) => done == LINES.len(),
        Err(fault) => fault == DispatchFault::OutOfMemory,
    };
    cut && scene.left.saturating_add(made) == LIMIT
}

/// Dispatches the event that waits, and tells whether what was done is a front part of all.
fn does_a_front_part(alloc: Global, scene: &mut DispatchScene) -> Result<bool, Fail> {
    let ended = fire(scene)?;
    if !is_whole_or_cut(scene, ended) {
        return Ok(false);
    }
    let are_first = are_first_lines(alloc, &scene.journal)?;
    Ok(are_first)
}

/// Whether the engine is as the calls leave it that stand in the journal, behind the first call and the event.
fn is_as_replayed(alloc: Global, scene: &mut DispatchScene) -> Result<bool, OutOfMemory> {
    let mut other = replay(alloc, scene.journal.len().saturating_sub(2))?;
    are_alike(alloc, scene, &mut other)
}

/// Whether a dispatch in this scene is cut well, where it is cut.
fn is_cut_well(alloc: Global, scene: &mut DispatchScene) -> Result<bool, Fail> {
    if !does_a_front_part(alloc, scene)? {
        return Ok(false);
    }
    let is_replayed = is_as_replayed(alloc, scene)?;
    Ok(is_replayed)
}

/// The same of a new scene, which this function owns and does little else, so that no step has to let it go.
fn is_new_cut_well(alloc: Global) -> Result<bool, Fail> {
    let mut scene = scene(alloc)?;
    is_cut_well(alloc, &mut scene)
}

#[test]
fn cut_anywhere(rt: HostRuntime) -> Result<(), Fail> {
    let is_cut_well = is_new_cut_well(rt.alloc())?;
    assert!(rt; is_cut_well);
    Ok(())
}
