ghost use Rattle.std.specs.Prelude.{◌≡◌, ◌+◌, ◌<◌, ◌≤◌, ◌^◌, pos, ◌≤ℤ◌, length};
ghost use Rattle.track_store.specs.declared.tracks.Settings.{Settings};
ghost use Rattle.track_store.specs.Frames.{bytes_of};
ghost use Rattle.track_store.specs.State.{state_of};
ghost use Rattle.track_store.specs.Sound.{IsSound};
ghost use Rattle.frame_rules.specs.Plain.{timing_by};
ghost use Rattle.frame_rules.specs.Timing.{IsTimingOf};
ghost use Rattle.frame_rules.specs.Put.{drop_reason, marks_after, track_after_frame, answer_by_reason, stored_frame};

use crate::answer::{Placed, Why};
use crate::timing::Times;
use mse_base::{CodedFrame, Ticks};
use overlap_rules::make_room;
use track_store::{FrameStore, Marks, Settings, Stored, Track};

/// Why a frame is dropped, if it is: steps 1.8 to 1.10.
fn drop_reason(times: &Times, settings: &Settings, sync: bool, need_sync: bool) -> Option<Why>
    ensures { result ≡ drop_reason (timing_by settings.now times.now) sync need_sync }
{
    if times.pts < settings.window_start {
        return Some(Why::Window);
    }
    if times.end.is_after(settings.window_end) {
        return Some(Why::Window);
    }
    if need_sync && !sync {
        return Some(Why::NoSync);
    }
    None
}

/// Sets the marks after a frame that was stored: steps 1.17 to 1.19.
fn mark(marks: &mut Marks, times: &Times, dur: Ticks)
    requires { marks.old.received < 2 ^ 62 }
    ensures { (s : Settings) → marks.new ≡ marks_after (timing_by s times.now) dur marks.old }
{
    marks.last_decode = Some(times.dts);
    marks.last_duration = Some(dur);
    marks.highest_end = Some(times.end.greater_with(marks.highest_end));
    marks.group_first = Some(marks.group_first.unwrap_or(marks.received));
    marks.need_sync = false;
    marks.received += 1;
}

/// The frame with its timestamps in the track buffer.
fn stored_frame(times: &Times, serial: u64, mut frame: CodedFrame) -> Stored
    ensures { (s : Settings) → result ≡ stored_frame (timing_by s times.now) serial frame }
{
    frame.pts = times.pts;
    frame.dts = times.dts;
    Stored { frame, serial }
}

/// Puts a frame into its track buffer, or drops it: steps 1.8 to 1.19.
pub fn put<S: FrameStore>(
    track: &mut Track<S>,
    times: &Times,
    settings: &Settings,
    frame: CodedFrame,
) -> Placed
    requires sound { IsSound (state_of S.frames track.old) }
    requires room { 1 ≤ S.spare track.old.store }
    requires few { track.old.marks.received < 2 ^ 62 }
    requires small { bytes_of (S.frames track.old.store) + length frame.payload < 2 ^ 62 }
    requires dur_not_negative { pos 0 ≤ℤ frame.dur }
    requires timed { IsTimingOf frame (timing_by settings.now times.now) }
    ensures state { state_of S.frames track.new
        ≡ track_after_frame (timing_by settings.now times.now) frame
        (state_of S.frames track.old) }
    ensures answer { result ≡ answer_by_reason
        (drop_reason (timing_by settings.now times.now) frame.sync track.old.marks.need_sync) }
    ensures spare { S.spare track.old.store ≤ S.spare track.new.store + 1 }
    ensures gap { S.gap track.new.store ≡ S.gap track.old.store }
{
    if let Some(why) = drop_reason(times, settings, frame.sync, track.marks.need_sync) {
        track.marks.need_sync = true;
        track.marks.received += 1;
        return Placed::Dropped(why);
    }
    let dur = frame.dur;
    make_room(track, times.pts, times.end);
    let frame = stored_frame(times, track.marks.received, frame);
    track.store.add(frame);
    mark(&mut track.marks, times, dur);
    Placed::Stored
}
