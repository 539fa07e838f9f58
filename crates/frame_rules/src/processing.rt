ghost use Rattle.std.specs.Prelude.{◌≡◌, ◌<◌, ◌^◌, ◌||◌, map, slice_get, slice_set, Some, IfSome};
ghost use Rattle.track_store.specs.State.{states_of};
ghost use Rattle.track_store.specs.Kept.{bytes_in};
ghost use Rattle.frame_rules.specs.Plain.{timing_by};
ghost use Rattle.frame_rules.specs.Timing.{timing_of, IsTimingOf};
ghost use Rattle.frame_rules.specs.Placing.{AreStoresKept, IsPlaceable, IsPlaced};
ghost use Rattle.frame_rules.specs.Place.{marks_after_reset, with_reset_marks, is_over_limit, settings_after_frame, new_placement, placement_in_track, placement_by_times, IsReadyForFrameAt};

use crate::answer::Placed;
use crate::storing::put;
use crate::timing::{Times, Timing, plain_times, timing_of};
use mse_base::CodedFrame;
use track_store::{FrameStore, Marks, Settings, Tracks};

/// What steps 1.3 and 1.6 do to the marks of each track buffer.
fn marks_after_reset(marks: &Marks, timing: &Timing) -> Marks
    ensures { result ≡ marks_after_reset timing.now marks.now }
{
    if timing.discontinuity {
        marks.unset_marks()
    } else if timing.starts_group {
        marks.marks_needing_sync()
    } else {
        *marks
    }
}

fn reset_at<S: FrameStore>(tracks: &mut Tracks<S>, i: usize, timing: &Timing)
    ensures items { IfSome (slice_get tracks.old.items i)
        (λ t. tracks.new.items ≡ slice_set tracks.old.items i (with_reset_marks timing.now t)) }
    ensures places { tracks.new.spare ≡ tracks.old.spare }
{
    if let Some(track) = tracks.get_mut(i) {
        track.marks = marks_after_reset(&track.marks, timing);
    }
}

fn reset_all<S: FrameStore>(tracks: &mut Tracks<S>, timing: &Timing)
    ensures items { tracks.new.items ≡ map (with_reset_marks timing.now) tracks.old.items }
    ensures places { tracks.new.spare ≡ tracks.old.spare }
{
    for i in 0..tracks.len() {
        reset_at(tracks, i, timing);
    }
}

/// Whether steps 1.3.3 or 1.6.2 to 1.6.5 have something to do.
fn is_reset_due(timing: &Timing) -> bool
    ensures { result ≡ (timing.now.discontinuity || timing.now.starts_group) }
{
    timing.discontinuity || timing.starts_group
}

/// Steps 1.3.3 and 1.6.2 to 1.6.5, which touch the other tracks only after a discontinuity and at
/// a group start timestamp.
fn reset_where_due<S: FrameStore>(tracks: &mut Tracks<S>, timing: &Timing)
    ensures items { tracks.new.items ≡ map (with_reset_marks timing.now) tracks.old.items }
    ensures places { tracks.new.spare ≡ tracks.old.spare }
{
    if is_reset_due(timing) {
        reset_all(tracks, timing);
    }
}

/// Whether a count would pass its limit.
fn is_over_limit(received_count: u64, bytes: u64, more: usize) -> bool
    requires { bytes < 2 ^ 62 }
    ensures { result ≡ is_over_limit received_count bytes more }
{
    received_count == 1 << 62 || (1 << 62) - bytes <= more as u64
}

fn is_full<S: FrameStore>(tracks: &Tracks<S>, index: usize, used: u64, more: usize) -> bool
    requires used { used ≡ bytes_in (states_of S.frames tracks.now.items) }
    requires small { bytes_in (states_of S.frames tracks.now.items) < 2 ^ 62 }
    ensures { IfSome (slice_get tracks.now.items index) (λ t. result
        ≡ is_over_limit t.marks.received (bytes_in (states_of S.frames tracks.now.items)) more) }
{
    match tracks.get(index) {
        Some(track) => is_over_limit(track.marks.received, used, more),
        None => true,
    }
}

fn timing_at<S: FrameStore>(
    tracks: &Tracks<S>,
    settings: &Settings,
    index: usize,
    frame: &CodedFrame,
) -> Option<Timing>
    ensures { IfSome (slice_get tracks.now.items index)
        (λ t. result ≡ timing_of settings.now t.marks frame.now) }
{
    match tracks.get(index) {
        Some(track) => timing_of(settings, &track.marks, frame),
        None => None,
    }
}

/// The times of a plain frame of the track at a place.
fn plain_times_at<S: FrameStore>(
    tracks: &Tracks<S>,
    settings: &Settings,
    index: usize,
    frame: &CodedFrame,
) -> Option<Times>
    ensures { IfSome (slice_get tracks.now.items index) (λ t. IfSome result
        (λ times. Some (timing_by settings.now times)
        ≡ timing_of settings.now t.marks frame.now)) }
{
    match tracks.get(index) {
        Some(track) => plain_times(settings, &track.marks, frame),
        None => None,
    }
}

/// Steps 1.20 and 1.21, after a frame.
fn update_settings(settings: &mut Settings, times: &Times, answer: &Placed)
    ensures { settings.new ≡ settings_after_frame answer.now (timing_by settings.old times.now) }
{
    if let Placed::Stored = answer {
        settings.group_end = settings.group_end.max(times.end);
        if settings.generate {
            settings.offset = times.end;
        }
    }
}

/// Places a frame whose times are known in its track alone, or drops it: steps 1.8 to 1.21.
fn place_in_track<S: FrameStore>(
    tracks: &mut Tracks<S>,
    settings: &mut Settings,
    index: usize,
    times: &Times,
    frame: CodedFrame,
) -> Placed
    requires ready { IsReadyForFrameAt S.frames S.spare index frame tracks.old.items }
    requires timed { IsTimingOf frame (timing_by settings.old times.now) }
    ensures placement { new_placement result (states_of S.frames tracks.new.items) settings.new
        ≡ placement_in_track (slice_get (states_of S.frames tracks.old.items) index)
        (timing_by settings.old times.now) frame index (states_of S.frames tracks.old.items) }
    ensures stores { AreStoresKept S.spare S.gap index tracks.old.items tracks.new.items }
    ensures places { tracks.new.spare ≡ tracks.old.spare }
{
    match tracks.get_mut(index) {
        Some(track) => {
            let answer = put(track, times, settings, frame);
            update_settings(settings, times, &answer);
            answer
        }
        None => Placed::Counts,
    }
}

/// Places a frame by its timing, whichever it is.
#[cold]
#[inline(never)]
fn place_by_timing<S: FrameStore>(
    tracks: &mut Tracks<S>,
    settings: &mut Settings,
    index: usize,
    frame: CodedFrame,
) -> Placed
    requires { IsReadyForFrameAt S.frames S.spare index frame tracks.old.items }
    ensures placement { IfSome (slice_get tracks.old.items index)
        (λ t. new_placement result (states_of S.frames tracks.new.items) settings.new
        ≡ placement_by_times (timing_of settings.old t.marks frame) settings.old frame index
        (states_of S.frames tracks.old.items)) }
    ensures stores { AreStoresKept S.spare S.gap index tracks.old.items tracks.new.items }
    ensures places { tracks.new.spare ≡ tracks.old.spare }
{
    match timing_at(tracks, settings, index, &frame) {
        Some(timing) => {
            reset_where_due(tracks, &timing);
            *settings = timing.settings;
            let times = Times {
                pts: timing.pts,
                dts: timing.dts,
                end: timing.end,
            };
            place_in_track(tracks, settings, index, &times, frame)
        }
        None => Placed::TimeRange,
    }
}

/// The same as [`place`], where `used` is the number of bytes of all stored frames, so that no store
/// but that of the track is asked.
pub fn place_with_used<S: FrameStore>(
    tracks: &mut Tracks<S>,
    settings: &mut Settings,
    index: usize,
    frame: CodedFrame,
    used: u64,
) -> Placed
    requires used { used ≡ bytes_in (states_of S.frames tracks.old.items) }
    requires placeable { IsPlaceable S.frames S.spare index frame settings.old tracks.old.items }
    ensures { IsPlaced S.frames S.spare S.gap index frame settings.old tracks.old result
        settings.new tracks.new }
{
    if is_full(tracks, index, used, frame.payload.len()) {
        return Placed::Counts;
    }
    match plain_times_at(tracks, settings, index, &frame) {
        Some(times) => place_in_track(tracks, settings, index, &times, frame),
        None => place_by_timing(tracks, settings, index, frame),
    }
}

/// Processes a coded frame of the track at place `index` (Media Source Extensions, 3.5.8, step 1).
/// It needs no memory: the track's store has room for the frame. Its room falls by one frame at
/// most, that of the other stores does not fall, and the places for further tracks stay.
///
/// After `Placed::TimeRange` and `Placed::Counts` all is as before. A frame that was stored ends at
/// or before the group end timestamp. Each track that was sound stays so, also where its marks
/// are reset.
pub fn place<S: FrameStore>(
    tracks: &mut Tracks<S>,
    settings: &mut Settings,
    index: usize,
    frame: CodedFrame,
) -> Placed
    requires { IsPlaceable S.frames S.spare index frame settings.old tracks.old.items }
    ensures { IsPlaced S.frames S.spare S.gap index frame settings.old tracks.old result
        settings.new tracks.new }
{
    let used = tracks.used();
    place_with_used(tracks, settings, index, frame, used)
}
