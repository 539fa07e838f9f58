//! Worked examples of coded frame removal, on a plain store. Times are in milliseconds, and a
//! frame lasts 100.

use super::frames::{Sample, When, add_track, frame_at, has_frames, moment, time};
use super::rows::expect;
use mse_base::{Kind, Moment, Ticks};
use range_removal::remove_frames;
use std::process::Abort;
use track_store::{FrameStore, ListStore, Marks, Track, Tracks};

/// The marks of a track that has stored its last frame.
fn marks_with(received: usize) -> Marks {
    Marks {
        last_decode: Some(Ticks::zero()),
        last_duration: Some(Ticks::zero()),
        highest_end: Some(Ticks::zero()),
        group_first: Some(0),
        need_sync: false,
        received: received as u64,
    }
}

/// What a removal leaves of a track: the presentation timestamps, and whether the marks are kept.
type Left = (&'static [u16], bool);

/// A name, the frames of each track, from when on and up to when frames are removed, the duration,
/// and what is left of each track.
type Case = (
    &'static str,
    &'static [&'static [Sample]],
    u16,
    When,
    When,
    &'static [Left],
);

/// Whether a removal left what is wanted of a track.
fn is_left<S: FrameStore>(rt: &impl Abort, track: &Track<S>, left: &Left) -> bool {
    let (frames, kept) = *left;
    let unset = track.marks == track.marks.unset_marks();
    unset != kept && track.marks.need_sync != kept && has_frames(rt, &track.store, frames)
}

/// Whether a removal left what is wanted of each track.
fn are_left<S: FrameStore>(rt: &impl Abort, tracks: &Tracks<S>, left: &[Left]) -> bool {
    for (place, wanted) in left.iter().enumerate() {
        match tracks.get(place) {
            Some(track) if is_left(rt, track, wanted) => {}
            _ => return false,
        }
    }
    tracks.len() == left.len()
}

/// Whether a removal leaves what is wanted.
fn leaves(rt: &(impl Abort + AllocGlobal), case: &Case) -> bool {
    let (_, lists, start, end, duration, left) = *case;
    let mut tracks = Tracks::<ListStore>::new(rt.alloc());
    for samples in lists {
        let marks = marks_with(samples.len());
        add_track(rt, &mut tracks, Kind::Video, samples, marks);
    }
    let start = time(rt, start);
    let end = moment(rt, end);
    let duration = moment(rt, duration);
    remove_frames(&mut tracks, start, end, duration);
    are_left(rt, &tracks, left)
}

/// One frame out of presentation order: I0 P3 B1 B2.
const REORDERED: &[Sample] = &[(0, true), (300, false), (100, false), (200, false)];

static CASES: [Case; 6] = [
    // The marks go with the last frame, be it removed directly or as a decoding dependency.
    (
        "removes_the_last_frame",
        &[REORDERED],
        200,
        When::Infinite,
        When::Infinite,
        &[(&[0], false)],
    ),
    (
        "removes_all",
        &[REORDERED],
        0,
        When::Infinite,
        When::Infinite,
        &[(&[], false)],
    ),
    (
        "removes_none",
        &[REORDERED],
        301,
        When::Infinite,
        When::Infinite,
        &[(&[0, 300, 100, 200], true)],
    ),
    // The frames of the next random access point stay, and so do the marks.
    (
        "removes_up_to_the_next_random_access_point",
        &[&[
            (0, true),
            (180, false),
            (100, false),
            (200, true),
            (300, false),
        ]],
        150,
        When::At(160),
        When::Infinite,
        &[(&[0, 200, 300], true)],
    ),
    // After the last random access point a removal reaches to the duration.
    (
        "removes_up_to_the_duration",
        &[REORDERED],
        200,
        When::At(10),
        When::At(250),
        &[(&[0, 300, 100], false)],
    ),
    // Each track has its own remove end timestamp, and its own last frame.
    (
        "removes_from_two_tracks",
        &[
            &[(0, true), (100, false)],
            &[(0, true), (100, true), (200, true)],
        ],
        100,
        When::At(150),
        When::Infinite,
        &[(&[0], false), (&[0, 200], true)],
    ),
];

#[test]
fn removes(rt: HostRuntime) {
    for (i, case) in CASES.iter().enumerate() {
        expect(&rt, case.0, i, leaves(&rt, case));
    }
}

/// A track that holds a frame of the greatest serial that there is.
fn greatest_serial(rt: &(impl Abort + AllocGlobal)) -> Tracks<ListStore> {
    let mut store = ListStore::new(rt.alloc(), Ticks::zero());
    store.reserve(1).expect(rt, "memory");
    let begin = time(rt, 100);
    store.add(frame_at(rt, u64::MAX, begin, begin, true, &[0; 4]));
    let mut tracks = Tracks::<ListStore>::new(rt.alloc());
    tracks.reserve(1).expect(rt, "memory");
    tracks.add(Track {
        id: 1,
        kind: Kind::Video,
        codec: *b"avc1",
        store,
        marks: marks_with(1),
    });
    tracks
}

/// A frame of the greatest serial goes like any other.
#[test]
fn removes_the_greatest_serial(rt: HostRuntime) {
    let mut tracks = greatest_serial(&rt);
    let start = time(&rt, 50);
    remove_frames(&mut tracks, start, Moment::At(time(&rt, 60)), Moment::Nan);
    let stays = are_left(&rt, &tracks, &[(&[100], true)]);
    remove_frames(&mut tracks, start, Moment::Infinite, Moment::Infinite);
    let goes = are_left(&rt, &tracks, &[(&[], false)]);
    assert!(rt; stays && goes);
}
