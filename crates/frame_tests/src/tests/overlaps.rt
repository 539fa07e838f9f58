//! Which frames go for a new frame, and which are cut, tick by tick, on a plain store. All frames
//! are random access points.

use super::frames::frame_at;
use super::rows::{expect, ticks};
use mse_base::{Kind, Ticks};
use overlap_rules::make_room;
use std::process::Abort;
use track_store::{FrameStore, ListStore, Marks, Track};

/// Presentation timestamp and duration, in ticks.
type Interval = (i128, i128);

/// The frames in order of appending, with the serials from one on and no bytes.
fn store_of<S: FrameStore>(
    rt: &(impl Abort + AllocGlobal),
    first: u64,
    intervals: &[Interval],
) -> S {
    let mut store = S::new(rt.alloc(), Ticks::zero());
    store.reserve(intervals.len()).expect(rt, "memory");
    for (i, (begin, duration)) in intervals.iter().enumerate() {
        let pts = ticks(rt, *begin);
        let duration = ticks(rt, *duration);
        assert!(rt; i as u64 <= u64::MAX - first);
        let frame = frame_at(rt, first + i as u64, pts, duration, true, &[]);
        store.add(frame);
    }
    store
}

/// The marks of a track whose group has a highest end timestamp, and begins with frame 6; those of
/// a new track where there is none.
fn marks_with(rt: &impl Abort, highest_end: Option<i128>) -> Marks {
    match highest_end {
        Some(end) => Marks {
            last_decode: Some(Ticks::zero()),
            last_duration: Some(Ticks::zero()),
            highest_end: Some(ticks(rt, end)),
            group_first: Some(6),
            need_sync: false,
            received: 7,
        },
        None => Marks::new(),
    }
}

/// Makes room for a new frame in a track.
fn make_room_for<S: FrameStore>(rt: &impl Abort, track: &mut Track<S>, new: Interval) {
    let pts = ticks(rt, new.0);
    let end = pts.checked_add(ticks(rt, new.1)).expect(rt, "an end");
    make_room(track, pts, end);
}

/// Whether a store has frames of these intervals.
fn has_frames<S: FrameStore>(store: &S, wanted: &[Interval]) -> bool {
    for (i, (begin, duration)) in wanted.iter().enumerate() {
        match store.get(i) {
            Some(stored) => {
                if stored.frame.pts.get() != *begin || stored.frame.dur.get() != *duration {
                    return false;
                }
            }
            None => return false,
        }
    }
    store.len() == wanted.len()
}

/// The kind of a track, the highest end timestamp of its group, its frames, a new frame, and what is
/// left of the frames where room was made for it.
type Row = (
    Kind,
    Option<i128>,
    &'static [Interval],
    Interval,
    &'static [Interval],
);

/// Whether what is wanted is left of the frames, the first of which has this serial.
fn leaves(rt: &(impl Abort + AllocGlobal), first: u64, row: &Row) -> bool {
    let (kind, highest_end, frames, new, left) = *row;
    let mut track = Track {
        id: 1,
        kind,
        codec: *b"avc1",
        store: store_of::<ListStore>(rt, first, frames),
        marks: marks_with(rt, highest_end),
    };
    make_room_for(rt, &mut track, new);
    has_frames(&track.store, left)
}

/// The frames of a group that has begun.
const GROUP: &[Interval] = &[(0, 20), (7, 0), (8, 0), (10, 0), (20, 0), (19, 0), (15, 0)];

/// Names, the serial of the first frame, and rows.
static CASES: [(&str, u64, &[Row]); 5] = [
    // A frame is overlapped from its presentation timestamp on, and not at its end. A new frame of
    // no duration removes no other frames.
    (
        "overlaps_up_to_the_end",
        0,
        &[
            (Kind::Video, None, &[(10, 20)], (9, 0), &[(10, 20)]),
            (Kind::Audio, None, &[(10, 20)], (9, 0), &[(10, 20)]),
            (Kind::Video, None, &[(10, 20)], (10, 0), &[]),
            (Kind::Audio, None, &[(10, 20)], (10, 0), &[]),
            (Kind::Video, None, &[(10, 20)], (11, 0), &[]),
            (Kind::Audio, None, &[(10, 20)], (11, 0), &[(10, 1)]),
            (Kind::Video, None, &[(10, 20)], (29, 0), &[]),
            (Kind::Audio, None, &[(10, 20)], (29, 0), &[(10, 19)]),
            (Kind::Video, None, &[(10, 20)], (30, 0), &[(10, 20)]),
            (Kind::Audio, None, &[(10, 20)], (30, 0), &[(10, 20)]),
        ],
    ),
    // Of several frames that hold the time the one that begins last is overlapped, and of those
    // that begin together the one appended later.
    (
        "overlaps_the_later_appended",
        0,
        &[
            (Kind::Video, None, &[(0, 20), (0, 30)], (10, 0), &[(0, 20)]),
            (
                Kind::Audio,
                None,
                &[(0, 20), (0, 30)],
                (10, 0),
                &[(0, 20), (0, 10)],
            ),
            (Kind::Video, None, &[(0, 30), (0, 20)], (10, 0), &[(0, 30)]),
            (
                Kind::Audio,
                None,
                &[(0, 30), (0, 20)],
                (10, 0),
                &[(0, 30), (0, 10)],
            ),
            (Kind::Video, None, &[(0, 30), (0, 20)], (20, 0), &[(0, 20)]),
            (
                Kind::Audio,
                None,
                &[(0, 30), (0, 20)],
                (20, 0),
                &[(0, 20), (0, 20)],
            ),
            (Kind::Video, None, &[(1, 20), (0, 30)], (10, 0), &[(0, 30)]),
            (
                Kind::Audio,
                None,
                &[(1, 20), (0, 30)],
                (10, 0),
                &[(1, 9), (0, 30)],
            ),
        ],
    ),
    // With no highest end timestamp the frames go that begin from the start of the new one on and
    // before its end.
    (
        "first_frame_of_a_group",
        0,
        &[
            (
                Kind::Video,
                None,
                &[(9, 0), (10, 0), (11, 0), (19, 0), (20, 0)],
                (10, 10),
                &[(9, 0), (20, 0)],
            ),
            (
                Kind::Video,
                None,
                &[(9, 0), (10, 0), (11, 0), (19, 0), (20, 0)],
                (10, 0),
                &[(9, 0), (10, 0), (11, 0), (19, 0), (20, 0)],
            ),
        ],
    ),
    // With a highest end timestamp that is not above the start of the new frame the frames go that
    // begin from there on, but for those of its own group, and the overlapped frame stays.
    (
        "next_frame_of_a_group",
        0,
        &[
            (
                Kind::Video,
                Some(8),
                GROUP,
                (10, 10),
                &[(0, 20), (7, 0), (20, 0), (15, 0)],
            ),
            (
                Kind::Video,
                Some(10),
                GROUP,
                (10, 10),
                &[(0, 20), (7, 0), (8, 0), (20, 0), (15, 0)],
            ),
            (Kind::Video, Some(11), GROUP, (10, 10), GROUP),
        ],
    ),
    // A frame of the greatest serial that there is goes like any other.
    (
        "removes_the_greatest_serial",
        u64::MAX,
        &[
            (Kind::Video, None, &[(15, 10)], (10, 5), &[(15, 10)]),
            (Kind::Video, None, &[(15, 10)], (10, 6), &[]),
        ],
    ),
];

#[test]
fn makes_room(rt: HostRuntime) {
    for (case, first, rows) in &CASES {
        for (i, row) in rows.iter().enumerate() {
            expect(&rt, case, i, leaves(&rt, *first, row));
        }
    }
}
