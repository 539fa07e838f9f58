//! Worked examples of coded frame processing, on a plain store. Times are told in media time, and
//! ranges in ticks.

ghost use Rattle.std.specs.Prelude.{◌≡◌, ◌<◌, ◌≤◌, ◌^◌, pos, ◌≤ℤ◌, length, IfSome, slice_get};
ghost use Rattle.track_store.specs.State.{states_of};
ghost use Rattle.track_store.specs.Sound.{IsSound};
ghost use Rattle.track_store.specs.Kept.{IsCountable, bytes_in, AreSoundAndCountable};

use super::frames::frame_at;
use super::media::{
    REPLACED, Sample, empty_track, feed, feed_all, frame_of, one_track, reserve_at, segments, time,
};
use super::rows::{Bounds, are, expect, not_negative, ticks};
use frame_rules::{Placed, Why, place};
use mse_base::{Kind, Ticks};
use std::process::Abort;
use track_store::{FrameStore, ListStore, Marks, Settings, Track, Tracks};

/// Two tracks with no frames.
fn two_tracks<S: FrameStore>(rt: &(impl Abort + AllocGlobal)) -> Tracks<S>
    ensures { AreSoundAndCountable (states_of S.frames result.items) }
{
    let mut tracks = Tracks::new(rt.alloc());
    tracks.reserve(2).expect(rt, "memory");
    tracks.add(empty_track(rt.alloc(), Kind::Video, 0));
    tracks.add(empty_track(rt.alloc(), Kind::Audio, 0));
    tracks
}

/// Two tracks with no frames, of which the second claims to hold the frame it received last.
fn beside_unsound<S: FrameStore>(rt: &(impl Abort + AllocGlobal)) -> Tracks<S>
    ensures two { length result.items ≡ 2 }
    ensures sound { IfSome (slice_get (states_of S.frames result.items) 0) IsSound }
    ensures counted { IfSome (slice_get (states_of S.frames result.items) 0) IsCountable }
    ensures small { bytes_in (states_of S.frames result.items) < 2 ^ 62 }
{
    let mut tracks = Tracks::new(rt.alloc());
    tracks.reserve(2).expect(rt, "memory");
    tracks.add(empty_track(rt.alloc(), Kind::Video, 0));
    let mut other = empty_track(rt.alloc(), Kind::Audio, 0);
    other.marks.need_sync = false;
    tracks.add(other);
    tracks
}

/// A change of the settings, samples that are placed, or what then holds. Times are in units of
/// which a second has as many as the case says.
#[derive(Clone, Copy)]
enum Step {
    SetSequence,
    SetGenerate,
    SetOffset(i32),
    SetWindowStart(i32),
    SetGroupStart(i32),
    /// Samples are placed in the first track.
    PlaceAll(&'static [Sample]),
    /// A sample is placed in the track at a place, and what becomes of it.
    Place(usize, Sample, Placed),
    Offset(i32),
    GroupEnd(i32),
    NoGroupStart,
    /// The serials and media times of the frames of the first track.
    Frames(&'static [(u64, i32)]),
    /// The ranges of the first track, in ticks.
    Ranges(&'static [Bounds]),
    HighestEnd(i32),
    /// Of the track at a place, the serial of the random access point with which its group begins,
    /// how many frames it received, and the last decode timestamp.
    Marks(usize, Option<u64>, u64, i32),
    /// The track at a place needs a random access point, and its group begins anew.
    Unset(usize),
}

/// Changes the settings; whether the step is such a change.
fn sets(rt: &impl Abort, settings: &mut Settings, scale: u32, step: &Step) -> bool
    requires window_start { pos 0 ≤ℤ settings.old.window_start }
    ensures window_start { pos 0 ≤ℤ settings.new.window_start }
{
    match *step {
        Step::SetSequence => settings.sequence = true,
        Step::SetGenerate => settings.generate = true,
        Step::SetOffset(m) => settings.offset = time(rt, i128::from(m), scale),
        Step::SetWindowStart(m) => {
            settings.window_start = not_negative(rt, time(rt, i128::from(m), scale));
        }
        Step::SetGroupStart(m) => settings.group_start = Some(time(rt, i128::from(m), scale)),
        _ => return false,
    }
    true
}

/// Whether the track holds the frames with these serials and media times.
fn has_frames<S: FrameStore>(
    rt: &impl Abort,
    track: &Track<S>,
    scale: u32,
    wanted: &[(u64, i32)],
) -> bool {
    for (i, (serial, begin)) in wanted.iter().enumerate() {
        let pts = time(rt, i128::from(*begin), scale);
        let found = match track.store.get(i) {
            Some(stored) => Some((stored.serial, stored.frame.pts)),
            None => None,
        };
        if found != Some((*serial, pts)) {
            return false;
        }
    }
    track.store.len() == wanted.len()
}

/// The track at a place.
fn track_at<'a, S: FrameStore>(
    rt: &impl Abort,
    tracks: &'a Tracks<S>,
    place: usize,
) -> &'a Track<S> {
    tracks.get(place).expect(rt, "a track")
}

/// Whether the track has these ranges.
fn has_ranges<S: FrameStore>(rt: &impl Abort, track: &Track<S>, wanted: &[Bounds]) -> bool {
    are(&track.store.copy_ranges().expect(rt, "memory"), wanted)
}

/// Whether the marks tell this serial, how many frames were received, and this decode time.
fn are_marks(marks: &Marks, first: Option<u64>, received: u64, decode: Ticks) -> bool {
    marks.group_first == first && marks.received == received && marks.last_decode == Some(decode)
}

/// Whether the track at a place, its marks or its ranges are as is wanted.
fn has_track<S: FrameStore>(rt: &impl Abort, tracks: &Tracks<S>, scale: u32, step: &Step) -> bool {
    match *step {
        Step::Frames(wanted) => has_frames(rt, track_at(rt, tracks, 0), scale, wanted),
        Step::Ranges(wanted) => has_ranges(rt, track_at(rt, tracks, 0), wanted),
        Step::HighestEnd(m) => {
            let end = time(rt, i128::from(m), scale);
            track_at(rt, tracks, 0).marks.highest_end == Some(end)
        }
        Step::Marks(place, first, received, decode) => {
            let decode = time(rt, i128::from(decode), scale);
            are_marks(&track_at(rt, tracks, place).marks, first, received, decode)
        }
        Step::Unset(place) => {
            let marks = track_at(rt, tracks, place).marks;
            marks == marks.unset_marks()
        }
        _ => false,
    }
}

/// Whether tracks and settings are as is wanted.
fn has<S: FrameStore>(
    rt: &impl Abort,
    tracks: &Tracks<S>,
    settings: &Settings,
    scale: u32,
    step: &Step,
) -> bool {
    match *step {
        Step::Offset(m) => settings.offset == time(rt, i128::from(m), scale),
        Step::GroupEnd(m) => settings.group_end == time(rt, i128::from(m), scale),
        Step::NoGroupStart => settings.group_start.is_none(),
        _ => has_track(rt, tracks, scale, step),
    }
}

/// Takes a step; whether that comes of it which is wanted.
fn does<S: FrameStore>(
    rt: &(impl Abort + AllocGlobal),
    tracks: &mut Tracks<S>,
    settings: &mut Settings,
    scale: u32,
    step: &Step,
) -> bool
    requires sound_and_countable { AreSoundAndCountable (states_of S.frames tracks.old.items) }
    requires window_start { pos 0 ≤ℤ settings.old.window_start }
    ensures sound_and_countable { AreSoundAndCountable (states_of S.frames tracks.new.items) }
    ensures window_start { pos 0 ≤ℤ settings.new.window_start }
{
    match *step {
        Step::PlaceAll(samples) => {
            feed_all(rt, tracks, settings, scale, samples);
            true
        }
        Step::Place(index, sample, wanted) => {
            let frame = frame_of(rt, scale, &sample);
            assert!(rt; index < tracks.len());
            feed(rt, tracks, settings, index, frame) == wanted
        }
        _ => sets(rt, settings, scale, step) || has(rt, tracks, settings, scale, step),
    }
}

/// A name, the kinds of the tracks (one, or video and audio), of how many units a second of media
/// time is, and the steps.
type Case = (&'static str, &'static [Kind], u32, &'static [Step]);

/// Tracks of these kinds with no frames.
fn tracks_of<S: FrameStore>(rt: &(impl Abort + AllocGlobal), kinds: &[Kind]) -> Tracks<S>
    ensures { AreSoundAndCountable (states_of S.frames result.items) }
{
    match *kinds {
        [kind] => one_track(rt, kind, 0),
        _ => two_tracks(rt),
    }
}

/// Takes the steps of a case.
fn run<S: FrameStore>(rt: &(impl Abort + AllocGlobal), case: &Case) {
    let (name, kinds, scale, steps) = *case;
    let mut tracks = tracks_of::<S>(rt, kinds);
    let mut settings = segments();
    for (i, step) in steps.iter().enumerate() {
        let as_wanted = does(rt, &mut tracks, &mut settings, scale, step);
        expect(rt, name, i, as_wanted);
    }
}

const DROPPED: Placed = Placed::Dropped(Why::NoSync);

const VIDEO: &[Kind] = &[Kind::Video];

const AUDIO: &[Kind] = &[Kind::Audio];

const BOTH: &[Kind] = &[Kind::Video, Kind::Audio];

/// A new random access point goes over frames of earlier groups; the frames of one group never
/// remove each other; and frames before the append window.
static REPLACEMENTS: [Case; 10] = [
    // It begins where the second frame does: that one goes, and the two that follow it.
    (
        "replaces_older_frames",
        VIDEO,
        1000,
        &[
            Step::PlaceAll(&REPLACED),
            Step::Frames(&[(0, 0), (4, 400), (5, 500), (6, 300)]),
            Step::Ranges(&[(0, 14112000000), (42336000000, 84672000000)]),
        ],
    ),
    // Less than a microsecond after the frame that it overlaps, and a microsecond after it.
    (
        "replaces_a_frame_just_before",
        VIDEO,
        10_000_000,
        &[
            Step::PlaceAll(&[
                (0, 1000000, 0, true),
                (1000000, 1000000, 0, true),
                (9, 1000000, 0, true),
            ]),
            Step::Frames(&[(2, 9)]),
            Step::Ranges(&[(127008, 14112127008)]),
        ],
    ),
    (
        "replaces_none_a_microsecond_before",
        VIDEO,
        10_000_000,
        &[
            Step::PlaceAll(&[
                (0, 1000000, 0, true),
                (1000000, 1000000, 0, true),
                (10, 1000000, 0, true),
            ]),
            Step::Frames(&[(0, 0), (2, 10)]),
            Step::Ranges(&[(0, 14112141120)]),
        ],
    ),
    // Sound is cut where the new frame begins, and goes where it begins at the same time.
    (
        "cuts_sound",
        AUDIO,
        48_000,
        &[
            Step::PlaceAll(&[
                (0, 1024, 0, true),
                (1024, 1024, 0, true),
                (512, 1024, 0, true),
            ]),
            Step::Frames(&[(0, 0), (2, 512)]),
            Step::Ranges(&[(0, 4515840000)]),
        ],
    ),
    (
        "replaces_sound_at_its_time",
        AUDIO,
        48_000,
        &[
            Step::PlaceAll(&[(0, 1024, 0, true), (1024, 1024, 0, true), (0, 512, 0, true)]),
            Step::Frames(&[(1, 1024), (2, 0)]),
            Step::Ranges(&[(0, 1505280000), (3010560000, 6021120000)]),
        ],
    ),
    (
        "keeps_its_own_group",
        VIDEO,
        1000,
        &[
            Step::PlaceAll(&[
                (0, 100, 0, true),
                (100, 100, 200, false),
                (200, 100, -100, false),
                (300, 100, -100, false),
            ]),
            Step::Frames(&[(0, 0), (1, 300), (2, 100), (3, 200)]),
            Step::Ranges(&[(0, 56448000000)]),
        ],
    ),
    (
        "keeps_two_frames_at_one_time",
        VIDEO,
        1000,
        &[
            Step::PlaceAll(&[(0, 100, 0, true), (0, 100, 0, false)]),
            Step::Frames(&[(0, 0), (1, 0)]),
            Step::Ranges(&[(0, 14112000000)]),
        ],
    ),
    // A frame of no duration, alone, and where the next one begins at its time.
    (
        "keeps_a_frame_of_no_duration",
        VIDEO,
        1000,
        &[
            Step::PlaceAll(&[(0, 0, 0, true)]),
            Step::Frames(&[(0, 0)]),
            Step::Ranges(&[]),
        ],
    ),
    (
        "keeps_a_frame_of_no_duration_between",
        VIDEO,
        1000,
        &[
            Step::PlaceAll(&[(0, 100, 0, true), (100, 0, 0, false), (100, 100, 0, false)]),
            Step::Frames(&[(0, 0), (1, 100), (2, 100)]),
            Step::Ranges(&[(0, 28224000000)]),
        ],
    ),
    // A dropped frame makes a random access point needed, and counts.
    (
        "drops_before_the_window",
        VIDEO,
        1000,
        &[
            Step::PlaceAll(&[(0, 100, 0, true)]),
            Step::SetWindowStart(150),
            Step::PlaceAll(&[
                (100, 100, 0, false),
                (200, 100, 0, false),
                (300, 100, 0, true),
            ]),
            Step::Frames(&[(0, 0), (3, 300)]),
            Step::Ranges(&[(0, 14112000000), (42336000000, 56448000000)]),
        ],
    ),
];

/// What a leap of the decode time does, and what is of all tracks.
static LEAPS: [Case; 8] = [
    (
        "goes_on_after_a_discontinuity_in_segments",
        VIDEO,
        1000,
        &[
            Step::PlaceAll(&[
                (0, 100, 0, true),
                (100, 100, 0, false),
                (1000, 100, 0, false),
                (1100, 100, 0, true),
            ]),
            Step::Frames(&[(0, 0), (1, 100), (3, 1100)]),
            Step::Ranges(&[(0, 28224000000), (155232000000, 169344000000)]),
            Step::GroupEnd(1200),
        ],
    ),
    (
        "goes_on_after_a_discontinuity_in_sequence",
        VIDEO,
        1000,
        &[
            Step::SetSequence,
            Step::PlaceAll(&[
                (0, 100, 0, true),
                (100, 100, 0, false),
                (1000, 100, 0, true),
            ]),
            Step::Frames(&[(0, 0), (1, 100), (2, 200)]),
            Step::Ranges(&[(0, 42336000000)]),
            Step::Offset(-800),
            Step::GroupEnd(300),
        ],
    ),
    (
        "generates_timestamps",
        AUDIO,
        1000,
        &[
            Step::SetSequence,
            Step::SetGenerate,
            Step::PlaceAll(&[(7, 100, 0, true), (7, 100, 0, true), (7, 100, 0, true)]),
            Step::Frames(&[(0, 0), (1, 100), (2, 200)]),
            Step::Ranges(&[(0, 42336000000)]),
            Step::Offset(300),
        ],
    ),
    // After a leap of the decode time the group end timestamp is the presentation timestamp with
    // the offset, be it later or earlier than before, and also where the frame is then dropped.
    (
        "leaps_with_an_offset_in_segments",
        VIDEO,
        1000,
        &[
            Step::SetOffset(-500),
            Step::Place(0, (600, 100, 0, true), Placed::Stored),
            Step::Place(0, (1600, 100, 30, false), DROPPED),
            Step::GroupEnd(1130),
            Step::Place(0, (1700, 100, 0, true), Placed::Stored),
            Step::GroupEnd(1300),
            Step::Place(0, (650, 100, 0, false), DROPPED),
            Step::GroupEnd(150),
            Step::Offset(-500),
        ],
    ),
    // In mode "sequence" the new group begins where the old one ends with its offset, and the new
    // offset does not count the old one.
    (
        "leaps_with_an_offset_in_sequence",
        VIDEO,
        1000,
        &[
            Step::SetSequence,
            Step::SetOffset(-500),
            Step::Place(0, (600, 100, 0, true), Placed::Stored),
            Step::GroupEnd(200),
            Step::Place(0, (1600, 100, 30, false), DROPPED),
            Step::GroupEnd(200),
            Step::NoGroupStart,
            Step::Offset(-1430),
            Step::Place(0, (1700, 100, 0, true), Placed::Stored),
            Step::GroupEnd(370),
            Step::Frames(&[(0, 100), (2, 270)]),
            Step::Ranges(&[(14112000000, 28224000000), (38102400000, 52214400000)]),
        ],
    ),
    // Where a frame begins at a group start timestamp, the other track needs a random access point,
    // and keeps its other marks.
    (
        "a_group_start_is_of_all_tracks",
        BOTH,
        1000,
        &[
            Step::SetSequence,
            Step::Place(0, (0, 100, 0, true), Placed::Stored),
            Step::Place(1, (0, 100, 0, true), Placed::Stored),
            Step::Place(0, (100, 100, 0, false), Placed::Stored),
            Step::SetGroupStart(150),
            Step::Place(1, (200, 100, 0, true), Placed::Stored),
            Step::Place(0, (200, 100, 0, false), DROPPED),
            Step::Place(0, (300, 100, 0, true), Placed::Stored),
            Step::Marks(0, Some(0), 4, 250),
        ],
    ),
    // Where the decode time of one track leaps, the other needs a random access point, and its
    // group begins anew.
    (
        "a_leap_is_of_all_tracks",
        BOTH,
        1000,
        &[
            Step::Place(0, (0, 100, 0, true), Placed::Stored),
            Step::Place(1, (0, 100, 0, true), Placed::Stored),
            Step::Place(1, (100, 100, 0, false), Placed::Stored),
            Step::Place(0, (1000, 100, 0, true), Placed::Stored),
            Step::Unset(1),
            Step::Place(1, (200, 100, 0, false), DROPPED),
            Step::Place(1, (300, 100, 0, true), Placed::Stored),
            Step::Marks(1, Some(3), 4, 300),
        ],
    ),
    // A frame that ends earlier than one before it, or with it, leaves the highest end timestamp.
    (
        "keeps_the_highest_end",
        VIDEO,
        1000,
        &[
            Step::PlaceAll(&[(0, 100, 0, true)]),
            Step::HighestEnd(100),
            Step::PlaceAll(&[(100, 100, 200, false)]),
            Step::HighestEnd(400),
            Step::PlaceAll(&[(200, 100, -100, false)]),
            Step::HighestEnd(400),
            Step::PlaceAll(&[(300, 100, 0, false)]),
            Step::HighestEnd(400),
            Step::PlaceAll(&[(400, 1, 0, false)]),
            Step::HighestEnd(401),
        ],
    ),
];

#[test]
fn replaces(rt: HostRuntime) {
    for case in &REPLACEMENTS {
        run::<ListStore>(&rt, case);
    }
}

#[test]
fn goes_on_after_leaps(rt: HostRuntime) {
    for case in &LEAPS {
        run::<ListStore>(&rt, case);
    }
}

/// What a track with no frames answers to its first frame, its marks, and how many frames it has.
fn first_call(
    rt: &(impl Abort + AllocGlobal),
    settings: &mut Settings,
    received: u64,
    pts: i128,
    sync: bool,
) -> (Placed, Marks, usize)
    requires window_start { pos 0 ≤ℤ settings.old.window_start }
    requires few { received ≤ 2 ^ 62 }
{
    let mut tracks = one_track::<ListStore>(rt, Kind::Video, received);
    let stored = frame_at(rt, 0, ticks(rt, pts), ticks(rt, 10), sync, b"1234");
    let placed = feed(rt, &mut tracks, settings, 0, stored.frame);
    let track = tracks.get(0).expect(rt, "a track");
    (placed, track.marks, track.store.len())
}

/// A name; how much later the append window starts and the offset, in ticks; how many frames the
/// track has received; the time of the frame, and whether it is a random access point; and what
/// becomes of it. A frame that is refused leaves marks and settings.
type FirstFrame = (&'static str, i128, i128, u64, i128, bool, Placed);

static FIRST_FRAMES: [FirstFrame; 4] = [
    (
        "before_the_window",
        1,
        0,
        0,
        0,
        true,
        Placed::Dropped(Why::Window),
    ),
    ("no_random_access_point", 0, 0, 0, 0, false, DROPPED),
    ("far", 0, 1 << 110, 0, 1, true, Placed::TimeRange),
    ("received_too_many", 0, 0, 1 << 62, 0, true, Placed::Counts),
];

/// Whether these are the marks behind a first frame of which this becomes.
fn are_marks_behind(marks: &Marks, received: u64, placed: Placed) -> bool {
    match placed {
        Placed::Stored | Placed::Dropped(_) => marks.received == 1 && marks.need_sync,
        Placed::TimeRange | Placed::Counts => {
            let unset = Marks {
                received,
                ..Marks::new()
            };
            *marks == unset
        }
    }
}

/// Whether what is wanted becomes of a first frame, which is not stored.
fn is_answered(rt: &(impl Abort + AllocGlobal), frame: &FirstFrame) -> bool {
    let (_, start, offset, received, pts, sync, wanted) = *frame;
    assert!(rt; received <= 1 << 62);
    let mut settings = segments();
    settings.window_start = not_negative(rt, ticks(rt, start));
    settings.offset = ticks(rt, offset);
    let before = settings;
    let (placed, marks, len) = first_call(rt, &mut settings, received, pts, sync);
    let refused = matches!(wanted, Placed::TimeRange | Placed::Counts);
    let as_before = !refused || settings == before;
    placed == wanted && len == 0 && as_before && are_marks_behind(&marks, received, wanted)
}

#[test]
fn answers_to_a_first_frame(rt: HostRuntime) {
    for (i, frame) in FIRST_FRAMES.iter().enumerate() {
        expect(&rt, frame.0, i, is_answered(&rt, frame));
    }
}

#[test]
fn begins_at_the_group_start(rt: HostRuntime) {
    let mut sequence = segments();
    sequence.sequence = true;
    sequence.group_start = Ticks::new(100);
    let (placed, marks, len) = first_call(&rt, &mut sequence, 0, 5, true);
    let set = sequence.offset.get() == 95 && sequence.group_end.get() == 110;
    let decoded = marks.last_decode == Ticks::new(100);
    let ends = marks.highest_end == Ticks::new(110);
    let stored = placed == Placed::Stored && len == 1 && sequence.group_start == None;
    assert!(rt; set && decoded && ends && stored);
}

/// Only the track of the frame is asked to be sound.
#[test]
fn places_beside_a_track_that_is_not_sound(rt: HostRuntime) {
    let mut tracks = beside_unsound::<ListStore>(&rt);
    let mut settings = segments();
    reserve_at(&rt, &mut tracks, 0);
    let frame = frame_of(&rt, 1000, &(0, 100, 0, true));
    let placed = place(&mut tracks, &mut settings, 0, frame);
    let other = track_at(&rt, &tracks, 1).marks;
    assert!(rt; placed == Placed::Stored && !other.need_sync && other.received == 0);
}
