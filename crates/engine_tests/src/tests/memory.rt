//! A script of all calls, of which each step may find no memory once: then the engine shows what it showed before, and
//! the step is taken again. What is printed, event by event, is what is printed where there is memory.
//!
//! An allocation is refused from outside, by `rt try --test --fail-alloc` or by `bench/refused.py` of the repository.

use bmff_write::make as make_file;
use call_script::{BlobText, Script, StepLine, read_script};
use event_text::{closing, line_of};
use mse_base::{Bytes, OutOfMemory, Text, Ticks};
use mse_calls::{Answer, Blobs, Call, Entry, Event};
use mse_engine::{Engine, EngineFault};
use std::alloc::Global;
use std::process::Abort;
use std::test::Fail;
use track_store::ListStore;

/// Each call, with effect, and a fault at the end. The file has an initialization segment of 595 bytes, and one of 30
/// frames in a second, of which the first ends at 1179.
const SCRIPT: &str = "\
    blobs = [\"file made.mp4\", \"hex fff14c80015ffc000000fff14c80015ffc000000\", \"hex 00000007736b6970\"]\n\
    steps = [\"attach\", \"live 0 1/1\", \"clearlive\", \"add video/mp4\", \"add audio/aac\",\n\
        \"duration 10/1\", \"seekable\", \"windowstart 0 0\", \"windowend 0 9/1\", \"append 0 0 0 1185\",\n\
        \"work 0\", \"fire\", \"append 1 1\", \"work 1\", \"abort 0\", \"drain\", \"mode 0 sequence\",\n\
        \"offset 0 1/10\", \"append 0 0 595 1161\", \"drain\", \"elementbuffered\", \"seek 1/50\",\n\
        \"element\", \"play\", \"advance 1/100\", \"pause\", \"drain\", \"state\", \"remove 0 0 1/30\",\n\
        \"drain\", \"buffered 0\", \"changetype 1 audio/mp4\", \"removebuffer 1\", \"endofstream\",\n\
        \"append 0 2\", \"drain\"]\n";

/// What it prints.
const PRINTS: &str = "\
    call attach: done\n\
    call live 0 141120000000: done\n\
    call clearlive: done\n\
    call add video/mp4: done\n\
    call add audio/aac: done\n\
    call duration 1411200000000: done\n\
    call seekable: range [0,1411200000000]\n\
    call windowstart 0 0: done\n\
    call windowend 0 1270080000000: done\n\
    call append 0 0 0 1185: done\n\
    event source sourceopen\n\
    call append 1 1: done\n\
    call abort 0: done\n\
    event sourcebuffers addsourcebuffer\n\
    event sourcebuffers addsourcebuffer\n\
    event element durationchange\n\
    event buffer 0 updatestart\n\
    event activesourcebuffers addsourcebuffer\n\
    event buffer 1 updatestart\n\
    event activesourcebuffers addsourcebuffer\n\
    event element loadedmetadata\n\
    event buffer 0 abort\n\
    event buffer 0 updateend\n\
    event element loadeddata\n\
    event element canplay\n\
    event buffer 1 update\n\
    event buffer 1 updateend\n\
    call mode 0 sequence: done\n\
    call offset 0 14112000000: done\n\
    call append 0 0 595 1161: done\n\
    event buffer 0 updatestart\n\
    event buffer 0 update\n\
    event buffer 0 updateend\n\
    call elementbuffered: ranges [0,4704000000)\n\
    call seek 2822400000: done\n\
    call play: done\n\
    call advance 1411200000: done\n\
    call pause: done\n\
    event element seeking\n\
    event element timeupdate\n\
    event element seeked\n\
    event element play\n\
    event element playing\n\
    event element timeupdate\n\
    event element timeupdate\n\
    event element pause\n\
    call state: source open duration 1411200000000 level 3 position 4233600000 paused true seeking false error 0\n\
    call remove 0 0 4704000000: done\n\
    event buffer 0 updatestart\n\
    event buffer 0 update\n\
    event buffer 0 updateend\n\
    call buffered 0: ranges [14112000000,155232000000)\n\
    call changetype 1 audio/mp4: done\n\
    call removebuffer 1: done\n\
    call endofstream: done\n\
    call append 0 2: done\n\
    event activesourcebuffers removesourcebuffer\n\
    event sourcebuffers removesourcebuffer\n\
    event source sourceended\n\
    event element durationchange\n\
    event source sourceopen\n\
    event buffer 0 updatestart\n\
    event buffer 0 error\n\
    event buffer 0 updateend\n\
    event source sourceended\n\
    event element error\n\
    state source ended duration 155232000000 level 1 position 4233600000 paused true seeking false error 3\n\
    duration 155232000000\n\
    buffer 0 phase waiting held 0 used 585 buffered [14112000000,155232000000)\n\
    track 0 1 video avc1 frames 30 ranges [14112000000,155232000000)\n\
    fault 2 BoxSize buffer 0 at 1161\n";

/// An engine at work, and what was printed so far.
#[derive(Drop)]
struct Player {
    engine: Engine<ListStore>,
    blobs: Blobs,
    text: String,
}

/// A call or a step of the engine that may find no memory.
#[derive(Clone, Copy)]
enum MemoryCall<'a> {
    Call(&'a Call),
    Work(u32),
    Turn,
}

/// Takes a step; a call has an answer.
fn take(player: &mut Player, step: MemoryCall) -> Result<Option<Answer>, EngineFault> {
    match step {
        MemoryCall::Call(call) => {
            let answer = player.engine.call(call, &player.blobs)?;
            Ok(Some(answer))
        }
        MemoryCall::Work(k) => {
            player.engine.work(k)?;
            Ok(None)
        }
        MemoryCall::Turn => {
            player.engine.element_turn()?;
            Ok(None)
        }
    }
}

/// What an engine shows, as it is printed at the end of a run.
fn shown_once(alloc: Global, player: &Player) -> Result<Text, OutOfMemory> {
    match player.engine.view() {
        Ok(view) => closing(alloc, &view, true),
        Err(_) => Err(OutOfMemory),
    }
}

fn player_text(alloc: Global, player: &Player) -> Result<Text, OutOfMemory> {
    match shown_once(alloc, player) {
        Ok(text) => Ok(text),
        Err(_) => shown_once(alloc, player),
    }
}

fn shows(alloc: Global, player: &Player, wanted: &str) -> Result<bool, OutOfMemory> {
    let text = player_text(alloc, player)?;
    Ok(text.as_str() == wanted)
}

/// Takes a step again that found no memory, after which the engine is to show what it showed before.
fn take_once_more(
    rt: &impl Abort,
    alloc: Global,
    player: &mut Player,
    step: MemoryCall,
    before: &str,
) -> Result<Option<Answer>, Fail> {
    assert!(rt; shows(alloc, player, before)?);
    let answer = take(player, step)?;
    Ok(answer)
}

/// Takes a step, and takes it again where it found no memory.
fn take_again(
    rt: &impl Abort,
    alloc: Global,
    player: &mut Player,
    step: MemoryCall,
) -> Result<Option<Answer>, Fail> {
    let before = player_text(alloc, player)?;
    match take(player, step) {
        Ok(answer) => Ok(answer),
        Err(EngineFault::OutOfMemory) => take_once_more(rt, alloc, player, step, before.as_str()),
    }
}

/// Takes a step of the engine, which has no answer.
fn take_step(
    rt: &impl Abort,
    alloc: Global,
    player: &mut Player,
    step: MemoryCall,
) -> Result<(), Fail> {
    take_again(rt, alloc, player, step)?;
    Ok(())
}

fn put_once(alloc: Global, player: &mut Player, entry: &Entry) -> Result<(), OutOfMemory> {
    let line = line_of(alloc, entry)?;
    player.text.push_str(line.as_str())?;
    Ok(())
}

fn put(alloc: Global, player: &mut Player, entry: &Entry) -> Result<(), OutOfMemory> {
    match put_once(alloc, player, entry) {
        Ok(()) => Ok(()),
        Err(_) => put_once(alloc, player, entry),
    }
}

fn copy(call: &Call) -> Result<Call, OutOfMemory> {
    match call.copy() {
        Ok(copied) => Ok(copied),
        Err(_) => call.copy(),
    }
}

fn put_event(alloc: Global, player: &mut Player, event: Event) -> Result<(), OutOfMemory> {
    let entry = Entry::Fired(event);
    put(alloc, player, &entry)
}

/// Fires the first event, if there is one.
fn fire(alloc: Global, player: &mut Player) -> Result<bool, OutOfMemory> {
    let Some(event) = player.engine.fire() else {
        return Ok(false);
    };
    put_event(alloc, player, event)?;
    Ok(true)
}

/// Does what comes next in a drain; false where there is nothing left.
fn do_next(rt: &impl Abort, alloc: Global, player: &mut Player) -> Result<bool, Fail> {
    if fire(alloc, player)? {
        return Ok(true);
    }
    let step = if let Some(k) = player.engine.running() {
        MemoryCall::Work(k)
    } else if player.engine.due() {
        MemoryCall::Turn
    } else {
        return Ok(false);
    };
    take_step(rt, alloc, player, step)?;
    Ok(true)
}

fn drain(rt: &impl Abort, alloc: Global, player: &mut Player) -> Result<(), Fail> {
    for _ in 0..1000 {
        if !do_next(rt, alloc, player)? {
            return Ok(());
        }
    }
    Err(Fail::new("the drain does not end"))
}

fn put_answer(
    alloc: Global,
    player: &mut Player,
    call: &Call,
    answer: Answer,
) -> Result<(), OutOfMemory> {
    let entry = Entry::Script(copy(call)?, answer);
    put(alloc, player, &entry)
}

fn make(rt: &impl Abort, alloc: Global, player: &mut Player, call: &Call) -> Result<(), Fail> {
    match take_again(rt, alloc, player, MemoryCall::Call(call))? {
        Some(answer) => {
            put_answer(alloc, player, call, answer)?;
            Ok(())
        }
        None => Err(Fail::new("no answer")),
    }
}

fn do_line(
    rt: &impl Abort,
    alloc: Global,
    player: &mut Player,
    line: &StepLine,
) -> Result<(), Fail> {
    match line {
        StepLine::Call(call) => make(rt, alloc, player, call),
        StepLine::Fire => {
            fire(alloc, player)?;
            Ok(())
        }
        StepLine::Work(k) => take_step(rt, alloc, player, MemoryCall::Work(*k)),
        StepLine::Element => take_step(rt, alloc, player, MemoryCall::Turn),
        StepLine::Drain => drain(rt, alloc, player),
    }
}

fn script_once(alloc: Global) -> Result<Script, OutOfMemory> {
    match read_script(alloc, SCRIPT.as_bytes()) {
        Ok(script) => Ok(script),
        Err(_) => Err(OutOfMemory),
    }
}

fn script(alloc: Global) -> Result<Script, OutOfMemory> {
    match script_once(alloc) {
        Ok(script) => Ok(script),
        Err(_) => script_once(alloc),
    }
}

fn blob(alloc: Global, text: &BlobText) -> Result<Bytes, OutOfMemory> {
    match text {
        BlobText::Hex(bytes) => bytes.copy(),
        BlobText::File(_) => Ok(make_file(alloc, 1)?),
    }
}

fn blobs_once(alloc: Global, script: &Script) -> Result<Blobs, OutOfMemory> {
    let mut blobs = Blobs::new(alloc);
    for text in script.blobs.as_slice() {
        blobs.push(blob(alloc, text)?)?;
    }
    Ok(blobs)
}

fn blobs(alloc: Global, script: &Script) -> Result<Blobs, OutOfMemory> {
    match blobs_once(alloc, script) {
        Ok(blobs) => Ok(blobs),
        Err(_) => blobs_once(alloc, script),
    }
}

fn new_player(alloc: Global, script: &Script) -> Result<Player, OutOfMemory> {
    let blobs = blobs(alloc, script)?;
    Ok(Player {
        engine: Engine::new(alloc, script.quota, Ticks::zero()),
        blobs,
        text: String::new(alloc),
    })
}

/// Whether what was printed, and then what is shown, is all that is to be printed.
fn is_all_printed(alloc: Global, player: &Player) -> Result<bool, OutOfMemory> {
    let end = player_text(alloc, player)?;
    Ok(
        PRINTS.starts_with(player.text.as_str())
            && PRINTS.ends_with(end.as_str())
            && PRINTS.len() == player.text.len() + end.as_str().len(),
    )
}

/// Takes all steps of a script, and tells whether all was printed.
fn prints_all(
    rt: &impl Abort,
    alloc: Global,
    player: &mut Player,
    script: &Script,
) -> Result<bool, Fail> {
    for line in script.steps.as_slice() {
        do_line(rt, alloc, player, line)?;
    }
    let all = is_all_printed(alloc, player)?;
    Ok(all)
}

/// The player and the script are each owned by a function that does little else, so that no step has to let them go.
fn play(rt: &impl Abort, alloc: Global, script: &Script) -> Result<bool, Fail> {
    let mut player = new_player(alloc, script)?;
    prints_all(rt, alloc, &mut player, script)
}

#[test]
fn each_step_again(rt: HostRuntime) -> Result<(), Fail> {
    let script = script(rt.alloc())?;
    let is_all_printed = play(&rt, rt.alloc(), &script)?;
    assert!(rt; is_all_printed);
    Ok(())
}
