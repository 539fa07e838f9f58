//! Coded frames that are told in media time, and tracks that they are placed in.

ghost use Rattle.std.specs.Prelude.{◌≡◌, ◌<◌, ◌≤◌, ◌^◌, [], pos, ◌≤ℤ◌, length, IfSome, slice_get};
ghost use Rattle.track_store.specs.State.{state_of, states_of};
ghost use Rattle.track_store.specs.Sound.{IsSound};
ghost use Rattle.track_store.specs.Kept.{IsCountable, AreSoundAndCountable};

use super::rows::not_negative;
use frame_rules::{Placed, place};
use mse_base::{Bytes, CodedFrame, Kind, Moment, Ticks, convert};
use std::alloc::Global;
use std::process::Abort;
use track_store::{FrameStore, Marks, Settings, Track, Tracks};

/// Decode time, duration, composition offset, and whether it is a random access point.
pub(super) type Sample = (u32, u32, i32, bool);

/// I0 P3 B1 B2 I4 P5, and a random access point over P3, with which B1 and B2 go.
pub(super) const REPLACED: [Sample; 7] = [
    (0, 100, 0, true),
    (100, 100, 200, false),
    (200, 100, -100, false),
    (300, 100, -100, false),
    (400, 100, 0, true),
    (500, 100, 0, false),
    (300, 100, 0, true),
];

/// A time in units of which a second has so many.
pub(super) fn time(rt: &impl Abort, m: i128, scale: u32) -> Ticks {
    assert!(rt; m.unsigned_abs() <= 1 << 80 && scale != 0);
    convert(m, scale).expect(rt, "a time")
}

/// The frame of a sample, with four bytes.
pub(super) fn frame_of(rt: &(impl Abort + AllocGlobal), scale: u32, sample: &Sample) -> CodedFrame
    ensures { pos 0 ≤ℤ result.dur }
{
    let (decode, duration, offset, sync) = *sample;
    let begin = i128::from(decode) + i128::from(offset);
    let pts = time(rt, begin, scale);
    let end = time(rt, begin + i128::from(duration), scale);
    let dur = not_negative(rt, end.checked_sub(pts).expect(rt, "a duration"));
    let payload = Bytes::copy_of(rt.alloc(), &[0; 4]).expect(rt, "memory");
    CodedFrame {
        track_id: 1,
        pts,
        dts: time(rt, i128::from(decode), scale),
        dur,
        sync,
        payload,
    }
}

/// The settings of a new source buffer.
pub(super) fn segments() -> Settings
    ensures { pos 0 ≤ℤ result.window_start }
{
    Settings {
        sequence: false,
        generate: false,
        offset: Ticks::zero(),
        window_start: Ticks::zero(),
        window_end: Moment::Infinite,
        group_start: None,
        group_end: Ticks::zero(),
    }
}

/// A track with no frames that claims to have received so many.
pub(super) fn empty_track<S: FrameStore>(alloc: Global, kind: Kind, received: u64) -> Track<S>
    requires { received ≤ 2 ^ 62 }
    ensures empty { S.frames result.store ≡ [] }
    ensures sound { IsSound (state_of S.frames result) }
    ensures counted { IsCountable (state_of S.frames result) }
{
    let mut marks = Marks::new();
    marks.received = received;
    Track {
        id: 1,
        kind,
        codec: *b"avc1",
        store: S::new(alloc, Ticks::zero()),
        marks,
    }
}

/// One track with no frames.
pub(super) fn one_track<S: FrameStore>(
    rt: &(impl Abort + AllocGlobal),
    kind: Kind,
    received: u64,
) -> Tracks<S>
    requires { received ≤ 2 ^ 62 }
    ensures one { length result.items ≡ 1 }
    ensures sound_and_countable { AreSoundAndCountable (states_of S.frames result.items) }
{
    let mut tracks = Tracks::new(rt.alloc());
    tracks.reserve(1).expect(rt, "memory");
    tracks.add(empty_track(rt.alloc(), kind, received));
    tracks
}

/// Makes room for one frame in a track.
pub(super) fn reserve_at<S: FrameStore>(rt: &impl Abort, tracks: &mut Tracks<S>, index: usize)
    ensures spare { IfSome (slice_get tracks.new.items index) (λ t. 1 ≤ S.spare t.store) }
    ensures states { states_of S.frames tracks.new.items ≡ states_of S.frames tracks.old.items }
    ensures len { length tracks.new.items ≡ length tracks.old.items }
{
    match tracks.get_mut(index) {
        Some(track) => track.store.reserve(1).expect(rt, "memory"),
        None => {}
    }
}

/// Places a frame in a track.
pub(super) fn feed<S: FrameStore>(
    rt: &impl Abort,
    tracks: &mut Tracks<S>,
    settings: &mut Settings,
    index: usize,
    frame: CodedFrame,
) -> Placed
    requires in_range { index < length tracks.old.items }
    requires sound_and_countable { AreSoundAndCountable (states_of S.frames tracks.old.items) }
    requires window_start { pos 0 ≤ℤ settings.old.window_start }
    requires dur_not_negative { pos 0 ≤ℤ frame.dur }
    ensures len { length tracks.new.items ≡ length tracks.old.items }
    ensures sound_and_countable { AreSoundAndCountable (states_of S.frames tracks.new.items) }
    ensures window_start { pos 0 ≤ℤ settings.new.window_start }
{
    reserve_at(rt, tracks, index);
    place(tracks, settings, index, frame)
}

/// Places the frames of samples in the first track.
pub(super) fn feed_all<S: FrameStore>(
    rt: &(impl Abort + AllocGlobal),
    tracks: &mut Tracks<S>,
    settings: &mut Settings,
    scale: u32,
    samples: &[Sample],
)
    requires sound_and_countable { AreSoundAndCountable (states_of S.frames tracks.old.items) }
    requires window_start { pos 0 ≤ℤ settings.old.window_start }
    ensures sound_and_countable { AreSoundAndCountable (states_of S.frames tracks.new.items) }
    ensures window_start { pos 0 ≤ℤ settings.new.window_start }
{
    for sample in samples {
        assert!(rt; tracks.len() != 0);
        let frame = frame_of(rt, scale, sample);
        let _placed = feed(rt, tracks, settings, 0, frame);
    }
}
