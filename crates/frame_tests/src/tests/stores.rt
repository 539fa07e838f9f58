//! Each call once, through its bound, at the plain store.

use super::frames::frame_at;
use super::rows::{Bounds, are, bounds_of, ticks};
use mse_base::{Kind, Moment, Ticks};
use std::process::Abort;
use track_store::calls::{StoreAnswer, StoreChange, StoreLook, change, look_up};
use track_store::{FrameStore, ListStore, Marks, Track, Tracks};

/// What a store tells of all its frames: how many they are and how many bytes they have, the highest
/// start and the highest end, in ticks, and the last range.
type Told = (usize, u64, Option<i128>, Option<i128>, Option<Bounds>);

/// What is told of a random access point from 0 to 10, of four bytes.
const WITH_A_FRAME: Told = (1, 4, Some(0), Some(10), Some((0, 10)));

const WITH_NONE: Told = (0, 0, None, None, None);

fn number_of(t: Option<Ticks>) -> Option<i128> {
    match t {
        Some(t) => Some(t.get()),
        None => None,
    }
}

fn told_of<S: FrameStore>(store: &S) -> Told {
    (
        store.len(),
        store.used(),
        number_of(store.highest_start()),
        number_of(store.highest_end()),
        bounds_of(store.last_span()),
    )
}

/// The first random access point of all, the first at or after 0, and the first after all times.
fn syncs_of<S: FrameStore>(rt: &impl Abort, store: &S) -> [Option<i128>; 3] {
    [
        number_of(store.sync_at_or_after(Moment::Nan)),
        number_of(store.sync_at_or_after(Moment::At(ticks(rt, 0)))),
        number_of(store.sync_at_or_after(Moment::Infinite)),
    ]
}

fn serial_at<S: FrameStore>(store: &S, place: usize) -> Option<u64> {
    match store.get(place) {
        Some(stored) => Some(stored.serial),
        None => None,
    }
}

/// The serials of the frames at the first two places.
fn serials_of<S: FrameStore>(store: &S) -> [Option<u64>; 2] {
    [serial_at(store, 0), serial_at(store, 1)]
}

/// The places of the frames that are overlapped at 0 and at 10.
fn overlapped_in<S: FrameStore>(rt: &impl Abort, store: &S) -> [Option<usize>; 2] {
    [
        store.overlapped(ticks(rt, 0)),
        store.overlapped(ticks(rt, 10)),
    ]
}

/// Whether all ranges are one from 0 to 10, which holds its end.
fn has_range<S: FrameStore>(rt: &impl Abort, store: &S) -> bool {
    let held = bounds_of(store.span_holding(ticks(rt, 10)));
    let ranges = store.copy_ranges().expect(rt, "memory");
    held == Some((0, 10)) && are(&ranges, &[(0, 10)])
}

/// Whether a store tells what it is to where it holds a random access point from 0 to 10, of four
/// bytes.
fn tells_a_frame<S: FrameStore>(rt: &impl Abort, store: &S) -> bool {
    told_of(store) == WITH_A_FRAME
        && syncs_of(rt, store) == [Some(0), Some(0), None]
        && serials_of(store) == [Some(0), None]
        && overlapped_in(rt, store) == [Some(0), None]
        && has_range(rt, store)
}

fn keeps_a_frame<S: FrameStore>(rt: &(impl Abort + AllocGlobal)) {
    let mut store = S::new(rt.alloc(), Ticks::zero());
    store.reserve(1).expect(rt, "memory");
    store.add(frame_at(rt, 0, Ticks::zero(), ticks(rt, 10), true, b"1234"));
    let added = tells_a_frame(rt, &store);
    store.remove_where_time(Ticks::zero(), Moment::Infinite, 0);
    let kept = tells_a_frame(rt, &store);
    store.remove_where_time(Ticks::zero(), Moment::Infinite, 1);
    let removed = told_of(&store) == WITH_NONE;
    assert!(rt; added && kept && removed);
}

#[test]
fn keeps_a_frame_in_a_list(rt: HostRuntime) {
    keeps_a_frame::<ListStore>(&rt);
}

/// The serial of the frame, how many ranges or how many frames there are, whichever is answered.
type Answered = (Option<u64>, Option<usize>, Option<usize>);

/// What a store answers to a call.
fn answer_of<S: FrameStore>(store: &S, look: &StoreLook) -> Answered {
    match look_up(store, look) {
        StoreAnswer::Frame(Some(stored)) => (Some(stored.serial), None, None),
        StoreAnswer::Ranges(Ok(ranges)) => (None, Some(ranges.len()), None),
        StoreAnswer::Frames(count) => (None, None, Some(count)),
        _ => (None, None, None),
    }
}

fn answers_calls<S: FrameStore>(rt: &(impl Abort + AllocGlobal)) {
    let mut store = S::new(rt.alloc(), Ticks::zero());
    change(&mut store, StoreChange::Reserve(1)).expect(rt, "memory");
    store.add(frame_at(rt, 0, Ticks::zero(), ticks(rt, 10), true, b"1234"));
    let frame = answer_of(&store, &StoreLook::Get(0)) == (Some(0), None, None);
    let range = answer_of(&store, &StoreLook::CopyRanges) == (None, Some(1), None);
    let removal = StoreChange::RemoveWhereTime(Ticks::zero(), Moment::Infinite, 1);
    change(&mut store, removal).expect(rt, "memory");
    let none = answer_of(&store, &StoreLook::Len) == (None, None, Some(0));
    assert!(rt; frame && range && none);
}

#[test]
fn answers_calls_as_a_list(rt: HostRuntime) {
    answers_calls::<ListStore>(&rt);
}

/// A track of sound with no frames.
fn audio<S: FrameStore>(rt: &impl AllocGlobal) -> Track<S> {
    Track {
        id: 7,
        kind: Kind::Audio,
        codec: *b"mp4a",
        store: S::new(rt.alloc(), Ticks::zero()),
        marks: Marks::new(),
    }
}

/// Sets how many frames the first track has received.
fn set_received<S: FrameStore>(tracks: &mut Tracks<S>, received: u64) {
    if let Some(track) = tracks.get_mut(0) {
        track.marks.received = received;
    }
}

/// Whether the one track has this number, has received so many frames and needs a random access
/// point.
fn has_track<S: FrameStore>(tracks: &Tracks<S>, id: u32, received: u64) -> bool {
    match tracks.get(0) {
        Some(track) => {
            track.marks.unset_marks() == track.marks
                && (track.id, track.marks.received) == (id, received)
                && tracks.get(1).is_none()
        }
        None => false,
    }
}

#[test]
fn keeps_tracks(rt: HostRuntime) {
    let mut tracks = Tracks::<ListStore>::new(rt.alloc());
    tracks.reserve(1).expect(&rt, "memory");
    tracks.add(audio(&rt));
    let one = tracks.len() == 1 && tracks.used() == 0;
    set_received(&mut tracks, 3);
    assert!(rt; one && has_track(&tracks, 7, 3));
}
