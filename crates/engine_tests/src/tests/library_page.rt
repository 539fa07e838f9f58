//! An engine from its making to what it shows, as a program of one's own calls it; `docs/LIBRARY.md` quotes this file.

use mse_base::{Bytes, Span, Text, Ticks};
use mse_calls::{Blobs, Call, Event, EventKind, Level, Piece, Target, View};
use mse_engine::Engine;
use std::alloc::Global;
use std::process::Abort;
use std::test::Fail;
use track_store::ListStore;

/// Two ADTS frames of ten bytes: 1,024 samples each, at 48,000 a second.
const FRAMES: [u8; 20] = [
    0xff, 0xf1, 0x4c, 0x80, 0x01, 0x5f, 0xfc, 0, 0, 0, //
    0xff, 0xf1, 0x4c, 0x80, 0x01, 0x5f, 0xfc, 0, 0, 0,
];

#[derive(Drop)]
struct Player {
    engine: Engine<ListStore>,
    blobs: Blobs,
}

fn make(player: &mut Player, call: Call) -> Result<(), Fail> {
    player.engine.call(&call, &player.blobs)?;
    Ok(())
}

/// Gives a new player its bytes, attaches its media source, and adds a source buffer.
fn open(player: &mut Player, alloc: Global) -> Result<(), Fail> {
    player.blobs.push(Bytes::copy_of(alloc, &FRAMES)?)?;
    make(player, Call::Attach)?;
    let kind = Text::copy_of(alloc, "audio/aac")?;
    make(player, Call::AddSourceBuffer(kind))
}

/// Fires what waits, else works what runs, else lets the element take its turn. It answers the last event.
fn drain(engine: &mut Engine<ListStore>) -> Result<Option<Event>, Fail> {
    let mut last = None;
    for _ in 0..1_000 {
        if let Some(event) = engine.fire() {
            last = Some(event);
        } else if let Some(k) = engine.running() {
            engine.work(k)?;
        } else if engine.due() {
            engine.element_turn()?;
        } else {
            return Ok(last);
        }
    }
    Err("there is more to do")?
}

/// The first buffered range of the first buffer.
fn first_range(view: &View) -> Option<Span> {
    view.buffers.get(0)?.ranges.get(0)
}

/// Appends a part of the bytes, and does all that it makes to do. It answers the last event.
fn append(player: &mut Player, start: u64, len: u64) -> Result<Option<Event>, Fail> {
    let part = Some((start, len));
    make(player, Call::AppendBuffer(0, Piece { blob: 0, part }))?;
    drain(&mut player.engine)
}

/// The level of the element, and from where to where frames are buffered.
fn shown(engine: &Engine<ListStore>) -> Result<(Level, Option<(i128, i128)>), Fail> {
    let view = engine.view()?;
    match first_range(&view) {
        Some(range) => Ok((view.state.level, Some((range.start.get(), range.end.get())))),
        None => Ok((view.state.level, None)),
    }
}

fn play(rt: &(impl Abort + AllocGlobal), player: &mut Player) -> Result<(), Fail> {
    open(player, rt.alloc())?;
    let ended = Some(Event {
        target: Target::Buffer(0),
        kind: EventKind::UpdateEnd,
    });
    for (start, len) in &[(0, 15), (15, 5)] {
        assert!(rt; append(player, *start, *len)? == ended);
    }
    let two_frames = Some((0, 2 * 1_024 * 2_940_000));
    assert!(rt; shown(&player.engine)? == (Level::Future, two_frames));
    Ok(())
}

#[test]
fn of_the_library_page(rt: HostRuntime) -> Result<(), Fail> {
    let mut player = Player {
        engine: Engine::new(rt.alloc(), 1_000_000, Ticks::zero()),
        blobs: Blobs::new(rt.alloc()),
    };
    play(&rt, &mut player)
}
