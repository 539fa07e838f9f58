//! Worked examples of eviction, on a plain store. Times are in milliseconds, a frame lasts 100 and
//! has 4 bytes.

use super::frames::{Sample, When, add_track, has_frames, moment, time};
use super::rows::expect;
use eviction::evict;
use mse_base::Kind;
use std::process::Abort;
use track_store::{FrameStore, ListStore, Marks, Tracks};

/// A name, the kind and the frames of each track, the position, the new bytes, the quota, the
/// duration, and which frames are left of each track.
type Case = (
    &'static str,
    &'static [(Kind, &'static [Sample])],
    u16,
    u64,
    u64,
    When,
    &'static [&'static [u16]],
);

/// Whether the tracks hold these frames.
fn are_left<S: FrameStore>(rt: &impl Abort, tracks: &Tracks<S>, left: &[&[u16]]) -> bool {
    for (place, frames) in left.iter().enumerate() {
        match tracks.get(place) {
            Some(track) if has_frames(rt, &track.store, frames) => {}
            _ => return false,
        }
    }
    tracks.len() == left.len()
}

/// Evicts as a case says; whether that leaves what is wanted.
fn evicts_once(rt: &impl Abort, tracks: &mut Tracks<ListStore>, case: &Case) -> bool {
    let (_, _, position, new_bytes, quota, duration, left) = *case;
    let position = time(rt, position);
    evict(tracks, position, new_bytes, quota, moment(rt, duration));
    are_left(rt, tracks, left)
}

/// Whether an eviction leaves what is wanted, and another one leaves it too.
fn leaves(rt: &(impl Abort + AllocGlobal), case: &Case) -> bool {
    let mut tracks = Tracks::<ListStore>::new(rt.alloc());
    for (kind, samples) in case.1 {
        add_track(rt, &mut tracks, *kind, samples, Marks::new());
    }
    evicts_once(rt, &mut tracks, case) && evicts_once(rt, &mut tracks, case)
}

/// Three random access points a second apart.
const SECONDS: &[(Kind, &[Sample])] = &[(Kind::Audio, &[(0, true), (1000, true), (2000, true)])];

static CASES: [Case; 13] = [
    // The latest first, and no more than is needed.
    ("latest", SECONDS, 0, 4, 8, When::Infinite, &[&[0]]),
    ("no_more", SECONDS, 0, 0, 8, When::Infinite, &[&[0, 1000]]),
    // Before the position the earliest first.
    (
        "earliest",
        SECONDS,
        2000,
        0,
        8,
        When::Infinite,
        &[&[1000, 2000]],
    ),
    (
        "two_earliest",
        SECONDS,
        2000,
        4,
        8,
        When::Infinite,
        &[&[2000]],
    ),
    // Before the position, then after it; what holds it stays.
    (
        "before_and_after",
        SECONDS,
        1500,
        4,
        8,
        When::Infinite,
        &[&[1000]],
    ),
    (
        "all_but_the_position",
        SECONDS,
        1500,
        8,
        8,
        When::Infinite,
        &[&[1000]],
    ),
    (
        "position_in_a_gap",
        SECONDS,
        999,
        100,
        1,
        When::Infinite,
        &[&[0]],
    ),
    // Below the quota nothing happens, and at it nothing where the new bytes fit.
    (
        "below_the_quota",
        SECONDS,
        0,
        100,
        13,
        When::Infinite,
        &[&[0, 1000, 2000]],
    ),
    (
        "at_the_quota",
        SECONDS,
        0,
        0,
        12,
        When::Infinite,
        &[&[0, 1000, 2000]],
    ),
    // The last range reaches to the duration, at which a position is past all of them.
    (
        "evicts_up_to_the_duration",
        SECONDS,
        2100,
        4,
        0,
        When::At(2100),
        &[&[]],
    ),
    // The first video track leads, though it is not the first track.
    (
        "evicts_by_the_first_video_track",
        &[
            (Kind::Audio, &[(0, true), (500, true), (1000, true)]),
            (
                Kind::Video,
                &[(0, true), (500, false), (1000, true), (1500, false)],
            ),
        ],
        0,
        4,
        20,
        When::Infinite,
        &[&[0, 500], &[0, 500]],
    ),
    // Without a duration the last range has no end, and nothing of it goes.
    (
        "evicts_without_a_duration",
        SECONDS,
        3000,
        100,
        1,
        When::Nan,
        &[&[2000]],
    ),
    // What goes of the frames that begin in the range which holds the position: of the lead track a
    // decoding dependency, and of another track what begins before its next random access point.
    (
        "evicts_around_the_position",
        &[
            (Kind::Video, &[(0, true), (1200, false), (1000, true)]),
            (Kind::Audio, &[(0, true), (1100, false), (1500, true)]),
        ],
        1300,
        4,
        24,
        When::Infinite,
        &[&[1000], &[1500]],
    ),
];

#[test]
fn evicts(rt: HostRuntime) {
    for (i, case) in CASES.iter().enumerate() {
        expect(&rt, case.0, i, leaves(&rt, case));
    }
}
