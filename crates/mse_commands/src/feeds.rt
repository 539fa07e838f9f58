//! What a decoder is given of the tracks of the one source buffer.

ghost use Rattle.std.specs.Prelude.{◌≡◌, length, slice_get, IfOk, IfSome, OnOk, OnErr};
ghost use Rattle.feed_lines.specs.Lines.{lines_of_track};
ghost use Rattle.event_text.specs.Block.{fault_lines};
ghost use Rattle.mse_engine.specs.State.{State};
ghost use Rattle.mse_engine.specs.Standing.{Stands};
ghost use Rattle.script_run.specs.Keeps.{AreFailuresTold};
ghost use Rattle.script_run.specs.Text.{line_if_any};
ghost use Rattle.script_run.specs.Writes.{IsWritten, IsFrontWritten};
ghost use Rattle.mse_commands.specs.Feeds.{feed_closing, feeds_in, tracks_in};

use event_text::fault_line;
use feed_lines::put_feeds;
use mse_base::{OutOfMemory, Ticks};
use mse_calls::FaultView;
use mse_engine::Engine;
use mse_outside::Sink;
use script_run::{Halt, put_bytes};
use std::alloc::Global;
use track_store::FrameStore;

/// How many tracks the source buffer has.
fn track_count<S: FrameStore>(engine: &Engine<S>) -> Result<usize, OutOfMemory>
    ensures { (st : State) → Stands engine.now st
        → IfOk result (λ count. count ≡ length (tracks_in st)) }
{
    let Ok(view) = engine.view() else {
        return Err(OutOfMemory);
    };
    match view.buffers.as_slice() {
        [first, ..] => {
            if first.number == 0 {
                Ok(first.tracks.len())
            } else {
                Ok(0)
            }
        }
        [] => Ok(0),
    }
}

/// Puts the lines of the track at a place from a time on, where there is one.
fn put_track<S: FrameStore, K: Sink>(
    alloc: Global,
    engine: &Engine<S>,
    sink: &mut K,
    at: Ticks,
    i: usize,
) -> Result<(), Halt>
    ensures ok { (st : State) → Stands engine.now st
        → OnOk result (IfSome (slice_get (tracks_in st) i)
        (λ t. IsWritten (lines_of_track at t) (K.written sink.old) (K.written sink.new))) }
    ensures err { (st : State) → Stands engine.now st
        → OnErr result (IfSome (slice_get (tracks_in st) i)
        (λ t. IsFrontWritten (lines_of_track at t) (K.written sink.old) (K.written sink.new))) }
    ensures puts { AreFailuresTold Halt.Write (K.faults sink.old) (K.faults sink.new) result }
{
    // The proof reads off this that the track is sound.
    engine.sound();
    match engine.track(0, i) {
        Some(track) => put_feeds(alloc, sink, track, at),
        None => Ok(()),
    }
}

/// Puts the lines of each track from a time on.
#[tactic(auto, using(script_run::proofs::PutLines::front_none))]
fn put_tracks<S: FrameStore, K: Sink>(
    alloc: Global,
    engine: &Engine<S>,
    sink: &mut K,
    at: Ticks,
) -> Result<(), Halt>
    ensures ok { (st : State) → Stands engine.now st
        → OnOk result (IsWritten (feeds_in at st) (K.written sink.old) (K.written sink.new)) }
    ensures err { (st : State) → Stands engine.now st
        → OnErr result (IsFrontWritten (feeds_in at st) (K.written sink.old) (K.written sink.new)) }
    ensures puts { AreFailuresTold Halt.Write (K.faults sink.old) (K.faults sink.new) result }
{
    let Ok(count) = track_count(engine) else {
        return Err(Halt::Memory);
    };
    for i in 0..count {
        put_track(alloc, engine, sink, at, i)?;
    }
    Ok(())
}

/// Puts the line of the first fault, if there is one.
#[tactic(auto, using(script_run::proofs::PutLines::front_none))]
fn put_fault<K: Sink>(alloc: Global, sink: &mut K, fault: Option<FaultView>) -> Result<(), Halt>
    ensures ok { OnOk result (IsWritten (line_if_any (fault_lines fault)) (K.written sink.old)
        (K.written sink.new)) }
    ensures err { OnErr result (IsFrontWritten (line_if_any (fault_lines fault))
        (K.written sink.old) (K.written sink.new)) }
    ensures puts { AreFailuresTold Halt.Write (K.faults sink.old) (K.faults sink.new) result }
{
    let Some(fault) = fault else {
        return Ok(());
    };
    match fault_line(alloc, &fault) {
        Ok(line) => put_bytes(sink, line.as_str().as_bytes()),
        Err(_) => Err(Halt::Memory),
    }
}

/// Puts what a decoder is given of each track from a time on, and then the first fault.
pub fn close_feed<S: FrameStore, K: Sink>(
    alloc: Global,
    engine: &Engine<S>,
    sink: &mut K,
    at: Ticks,
) -> Result<(), Halt>
    ensures ok { (st : State) → Stands engine.now st
        → OnOk result (IsWritten (feed_closing at st) (K.written sink.old) (K.written sink.new)) }
    ensures err { (st : State) → Stands engine.now st
        → OnErr result (IsFrontWritten (feed_closing at st) (K.written sink.old)
        (K.written sink.new)) }
    ensures puts { AreFailuresTold Halt.Write (K.faults sink.old) (K.faults sink.new) result }
{
    put_tracks(alloc, engine, sink, at)?;
    put_fault(alloc, sink, engine.fault())
}
