//! The feeds of a track, put as they come.

ghost use Rattle.std.specs.Prelude.{◌≡◌, IfOk, IsSome, OnOk, OnErr};
ghost use Rattle.script_run.specs.Keeps.{AreFailuresTold};
ghost use Rattle.script_run.specs.Writes.{IsWritten, IsFrontWritten};
ghost use Rattle.track_store.specs.Frames.{overlapped};
ghost use Rattle.track_store.specs.Sound.{IsSound};
ghost use Rattle.track_store.specs.State.{state_of};
ghost use Rattle.decoder_feed.specs.Steps.{feeder_after_seek};
ghost use Rattle.feed_lines.specs.Groups.{end_of, feeding};
ghost use Rattle.feed_lines.specs.Lines.{lines_of_track, given_lines};

use crate::lines::{put_end, put_frame, put_none, put_wanted};
use decoder_feed::{FeedNext, Feeder};
use mse_base::Ticks;
use mse_outside::Sink;
use script_run::Halt;
use std::alloc::Global;
use track_store::{FrameStore, Track};

/// Puts the lines of the frames that are given to show the frame at a time, to which the feeder was
/// sought, and why no more are. It answers when they end.
fn put_given<S: FrameStore, K: Sink>(
    alloc: Global,
    sink: &mut K,
    track: &Track<S>,
    feeder: &mut Feeder,
    at: Ticks,
) -> Result<Ticks, Halt>
    requires sound { IsSound (state_of S.frames track.now) }
    requires shown { IsSome (overlapped at (S.frames track.now.store)) }
    requires sought { feeder.old ≡ feeder_after_seek at (S.frames track.now.store) }
    ensures end { IfOk result (λ end. end
        ≡ end_of at (feeding at (state_of S.frames track.now)).frames) }
    ensures ok { OnOk result (IsWritten (given_lines at (state_of S.frames track.now))
        (K.written sink.old) (K.written sink.new)) }
    ensures err { OnErr result (IsFrontWritten (given_lines at (state_of S.frames track.now))
        (K.written sink.old) (K.written sink.new)) }
    ensures puts { AreFailuresTold Halt.Write (K.faults sink.old) (K.faults sink.new) result }
{
    // The proof reads off this that each frame ends at a time.
    track.store.serials_ascend();
    let mut last = None;
    'giving: loop {
        match feeder.next(track) {
            FeedNext::Frame(place) => {
                let Some(stored) = track.store.get(place) else {
                    unreachable!()
                };
                match put_frame(alloc, sink, stored) {
                    Ok(()) => {}
                    Err(halt) => return Err(halt),
                }
                last = stored.end().greater_of(last);
            }
            answer => {
                return match put_end(alloc, sink, answer) {
                    Ok(()) => Ok(last.unwrap_or(at)),
                    Err(halt) => Err(halt),
                };
            }
        }
    }
}

/// Puts the lines of a track from a time on, as they come, each with one put.
pub fn put_feeds<S: FrameStore, K: Sink>(
    alloc: Global,
    sink: &mut K,
    track: &Track<S>,
    from: Ticks,
) -> Result<(), Halt>
    requires { IsSound (state_of S.frames track.now) }
    ensures ok { OnOk result (IsWritten (lines_of_track from (state_of S.frames track.now))
        (K.written sink.old) (K.written sink.new)) }
    ensures err { OnErr result (IsFrontWritten (lines_of_track from (state_of S.frames track.now))
        (K.written sink.old) (K.written sink.new)) }
    ensures puts { AreFailuresTold Halt.Write (K.faults sink.old) (K.faults sink.new) result }
{
    let mut feeder = Feeder::new();
    let mut at = from;
    'feeding: loop {
        let Some(serial) = feeder.seek(track, at) else {
            return put_none(alloc, sink, track.id, at);
        };
        match put_wanted(alloc, sink, track.id, at, serial) {
            Ok(()) => {}
            Err(halt) => return Err(halt),
        }
        match put_given(alloc, sink, track, &mut feeder, at) {
            Ok(end) => at = end,
            Err(halt) => return Err(halt),
        }
    }
}
