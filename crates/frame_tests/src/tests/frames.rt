//! Coded frames in a plain store, worked by hand: of 100 ms and 4 bytes, and how long any frame lasts.

ghost use Rattle.std.specs.Prelude.{◌≡◌, ◌+ℤ◌, pos, ◌≤ℤ◌, length};
ghost use Rattle.mse_base.specs.Time.{IsTick};

use super::rows::not_negative;
use mse_base::{Bytes, CodedFrame, Kind, Moment, Ticks, convert};
use std::process::Abort;
use track_store::{FrameStore, Marks, Stored, Track, Tracks};

/// Presentation timestamp, and whether it is a random access point.
pub(super) type Sample = (u16, bool);

/// A time in milliseconds.
pub(super) fn time(rt: &impl Abort, ms: u16) -> Ticks {
    convert(i128::from(ms), 1000).expect(rt, "a time")
}

/// A moment, in milliseconds where it is a time.
#[derive(Clone, Copy)]
pub(super) enum When {
    At(u16),
    Infinite,
    Nan,
}

pub(super) fn moment(rt: &impl Abort, when: When) -> Moment {
    match when {
        When::At(ms) => Moment::At(time(rt, ms)),
        When::Infinite => Moment::Infinite,
        When::Nan => Moment::Nan,
    }
}

/// A frame that is decoded when it is shown, whose duration is not to be negative, and whose end is
/// to be in range.
pub(super) fn frame_at(
    rt: &(impl Abort + AllocGlobal),
    serial: u64,
    pts: Ticks,
    duration: Ticks,
    sync: bool,
    bytes: &[u8],
) -> Stored
    ensures serial { result.serial ≡ serial }
    ensures sync { result.frame.sync ≡ sync }
    ensures dur_not_negative { pos 0 ≤ℤ result.frame.dur }
    ensures end_is_tick { IsTick (result.frame.pts +ℤ result.frame.dur) }
    ensures bytes { length result.frame.payload ≡ length bytes.now }
{
    let dur = not_negative(rt, duration);
    let end = pts.checked_add(dur).expect(rt, "an end");
    // The proof reads off this that the end is a tick.
    let _in_range = end.get();
    let payload = Bytes::copy_of(rt.alloc(), bytes).expect(rt, "memory");
    Stored {
        serial,
        frame: CodedFrame {
            track_id: 1,
            pts,
            dts: pts,
            dur,
            sync,
            payload,
        },
    }
}

/// The frames in order of appending, of 100 ms and 4 bytes; the first is a random access point.
pub(super) fn store_of<S: FrameStore>(rt: &(impl Abort + AllocGlobal), samples: &[Sample]) -> S {
    assert!(rt; samples.len() <= 100);
    let mut store = S::new(rt.alloc(), Ticks::zero());
    store.reserve(samples.len()).expect(rt, "memory");
    let duration = time(rt, 100);
    for (i, sample) in samples.iter().enumerate() {
        let sync = sample.1 || i == 0;
        let frame = frame_at(rt, i as u64, time(rt, sample.0), duration, sync, &[0; 4]);
        store.add(frame);
    }
    store
}

/// A track with these marks that holds the frames of samples.
pub(super) fn add_track<S: FrameStore>(
    rt: &(impl Abort + AllocGlobal),
    tracks: &mut Tracks<S>,
    kind: Kind,
    samples: &[Sample],
    marks: Marks,
) {
    let store = store_of(rt, samples);
    tracks.reserve(1).expect(rt, "memory");
    tracks.add(Track {
        id: 1,
        kind,
        codec: *b"avc1",
        store,
        marks,
    });
}

/// Whether a store holds the frames with these presentation timestamps.
pub(super) fn has_frames<S: FrameStore>(rt: &impl Abort, store: &S, wanted: &[u16]) -> bool {
    for (i, ms) in wanted.iter().enumerate() {
        match store.get(i) {
            Some(stored) if stored.frame.pts == time(rt, *ms) => {}
            _ => return false,
        }
    }
    store.len() == wanted.len()
}
