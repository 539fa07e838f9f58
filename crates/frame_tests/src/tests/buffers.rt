//! Track buffers on a plain store: each case is a row of steps. Times are in 1/90000 of a second.

ghost use Rattle.std.specs.Prelude.{pos, ◌≤ℤ◌};

use super::rows::{expect, not_negative, ticks};
use mse_base::{
    Bytes, CodedFrame, Kind, Moment, Presentation, Ranges, Span, Ticks, TrackInfo, TrackList,
    convert,
};
use std::process::Abort;
use track_buffers::{MediaEffect, MediaFault, SourceEffect, TrackBuffers, media_track_count};
use track_store::{FrameStore, ListStore};

type Buffers = TrackBuffers<ListStore>;

/// A track of an initialization segment: its number, kind and codec.
type Told = (u32, Kind, [u8; 4]);

/// A coded frame: its track, presentation timestamp and duration, and whether it is a random access
/// point.
type Sample = (u32, u32, u32, bool);

/// The start and the end of a range.
type Interval = (u32, u32);

const VIDEO: Told = (1, Kind::Video, *b"avc1");

const AUDIO: Told = (2, Kind::Audio, *b"mp4a");

/// What comes of an initialization segment.
#[derive(Clone, Copy)]
enum Receipt {
    /// It is the first one, or a later one.
    Done { first: bool },
    /// It is refused, and the duration stays.
    Refused(MediaFault),
    /// It is refused, and the duration changes to that of the presentation.
    RefusedWithDuration(MediaFault),
}

/// The duration of a media source.
#[derive(Clone, Copy)]
enum Duration {
    Nan,
    Infinite,
}

/// A call on the track buffers, or what they are to tell.
#[derive(Clone, Copy)]
enum Step {
    /// An initialization segment is received, where the duration is this one.
    Receive(&'static [Told], Duration, Receipt),
    /// Frames are processed, and none is a fault.
    Process(&'static [Sample]),
    /// Frames are flushed from a duration of 0 on, of which the second is perhaps out of range: how
    /// often the duration changes, and what it is then, in ticks.
    Flush(&'static [Sample; 3], bool, u64, i128),
    /// Frames from a time on are removed.
    Remove(u32),
    /// Frames are evicted for new bytes, at a quota.
    Evict(u64, u64),
    ResetParser,
    SetSequence(bool),
    SetOffset(u32),
    /// The append window is set, and reset.
    SetWindow,
    /// Whether timestamps are to be generated.
    ChangeContainer(bool),
    /// Whether no initialization segment was received yet.
    AwaitsFirst(bool),
    /// Number, codec and count of frames of each track, and whether each needs a random access
    /// point.
    Tracks(&'static [(u32, [u8; 4], usize)], bool),
    /// The number and the count of frames of the one track, and its ranges.
    View(u32, u64, &'static [Interval]),
    Used(u64),
    HighestStart(u32),
    /// The highest end, in ticks.
    HighestEnd(i128),
    /// The ranges of all tracks, where the source is ended or not.
    Buffered(bool, &'static [Interval]),
    /// The range of all tracks that has a time, or ends at it.
    Holding(u32, bool, Option<Interval>),
    /// The first and the last range of all tracks, where the source is ended or not.
    Bounds(bool, Option<Interval>, Option<Interval>),
    GroupStart(Option<u32>),
    Offset(u32),
    /// Whether the append mode is "sequence".
    Sequence(bool),
    /// Whether timestamps are generated.
    Generates(bool),
}

fn time(rt: &impl Abort, m: u32) -> Ticks {
    convert(i128::from(m), 90_000).expect(rt, "a time")
}

fn moment(duration: Duration) -> Moment {
    match duration {
        Duration::Nan => Moment::Nan,
        Duration::Infinite => Moment::Infinite,
    }
}

fn frame_of(rt: &(impl Abort + AllocGlobal), sample: &Sample) -> CodedFrame
    ensures { pos 0 ≤ℤ result.dur }
{
    let (track_id, begin, duration, sync) = *sample;
    let pts = time(rt, begin);
    let dur = not_negative(rt, time(rt, duration));
    let payload = Bytes::copy_of(rt.alloc(), &[0; 4]).expect(rt, "memory");
    CodedFrame {
        track_id,
        pts,
        dts: pts,
        dur,
        sync,
        payload,
    }
}

/// An initialization segment of a presentation that lasts 10 seconds.
fn presentation_of(rt: &(impl Abort + AllocGlobal), tracks: &[Told]) -> Presentation {
    let mut list = Vec::new(rt.alloc());
    for (id, kind, codec) in tracks {
        let track = TrackInfo {
            id: *id,
            kind: *kind,
            codec: *codec,
            scale: 90_000,
            media_shift: 0,
            empty_shift: Ticks::zero(),
            default_duration: 0,
            default_size: 0,
            default_flags: 0,
        };
        list.push(track).expect(rt, "memory");
    }
    Presentation {
        scale: 1_000,
        duration: Moment::At(time(rt, 900_000)),
        tracks: TrackList::from_vec(rt.alloc(), list),
    }
}

/// What an initialization segment brings about, where the duration is this one.
fn effect_of(rt: &impl Abort, receipt: Receipt, duration: &Moment) -> MediaEffect {
    let nothing = SourceEffect {
        duration_changes: 0,
        duration: *duration,
        activated: false,
        received_init: false,
    };
    match receipt {
        Receipt::Done { first } => MediaEffect::Done(SourceEffect {
            activated: first,
            received_init: true,
            ..nothing
        }),
        Receipt::Refused(fault) => MediaEffect::AppendError(fault, nothing),
        Receipt::RefusedWithDuration(fault) => {
            let told = SourceEffect {
                duration_changes: 1,
                duration: Moment::At(time(rt, 900_000)),
                ..nothing
            };
            MediaEffect::AppendError(fault, told)
        }
    }
}

/// Receives an initialization segment; whether that comes of it which is wanted.
fn receives(
    rt: &(impl Abort + AllocGlobal),
    buffers: &mut Buffers,
    tracks: &[Told],
    duration: Moment,
    wanted: Receipt,
) -> bool {
    let presentation = presentation_of(rt, tracks);
    buffers
        .reserve_tracks(media_track_count(&presentation))
        .expect(rt, "memory");
    let expected = effect_of(rt, wanted, &duration);
    let effect = buffers.receive(&presentation, duration);
    effect == expected
}

/// Processes frames; whether none is a fault.
fn processes(rt: &(impl Abort + AllocGlobal), buffers: &mut Buffers, samples: &[Sample]) -> bool {
    for sample in samples {
        let frame = frame_of(rt, sample);
        buffers.reserve_frames(1).expect(rt, "memory");
        let effect = buffers.process(frame, Moment::Infinite);
        if matches!(effect, MediaEffect::AppendError(_, _)) {
            return false;
        }
    }
    true
}

/// Flushes frames from a duration of 0 on, the second perhaps out of range; how often the duration
/// changed, and what it is then.
fn flush(
    rt: &(impl Abort + AllocGlobal),
    buffers: &mut Buffers,
    samples: &[Sample; 3],
    far: bool,
) -> (u64, Moment) {
    let first = frame_of(rt, &samples[0]);
    let mut second = frame_of(rt, &samples[1]);
    let third = frame_of(rt, &samples[2]);
    if far {
        second.pts = ticks(rt, 1 << 110);
    }
    buffers.reserve_frames(3).expect(rt, "memory");
    let frames = Vec::from_array(rt.alloc(), [first, second, third]).expect(rt, "memory");
    let effect = buffers.flush(frames, Moment::At(Ticks::zero()));
    (effect.duration_changes, effect.duration)
}

/// Whether the append window has this start and this end.
fn has_window(buffers: &Buffers, start: Ticks, end: Moment) -> bool {
    let settings = buffers.settings();
    settings.window_start == start && settings.window_end == end
}

/// Sets the append window, and resets it; whether it is each time as it was set.
fn sets_window(rt: &impl Abort, buffers: &mut Buffers) -> bool {
    buffers.set_window_start(not_negative(rt, time(rt, 1)));
    buffers.set_window_end(Moment::At(time(rt, 9)));
    let is_set = has_window(buffers, time(rt, 1), Moment::At(time(rt, 9)));
    buffers.reset_window();
    is_set && has_window(buffers, Ticks::zero(), Moment::Infinite)
}

/// Whether the tracks have these numbers, codecs and counts of frames, and each needs a random
/// access point or none does.
fn has_tracks(buffers: &Buffers, wanted: &[(u32, [u8; 4], usize)], need_sync: bool) -> bool {
    let tracks = buffers.tracks();
    for (i, (id, codec, frames)) in wanted.iter().enumerate() {
        match tracks.get(i) {
            Some(track) => {
                let named = track.id == *id && track.codec == *codec;
                if !named || track.store.len() != *frames || track.marks.need_sync != need_sync {
                    return false;
                }
            }
            None => return false,
        }
    }
    tracks.len() == wanted.len()
}

/// The range of an interval; none where there is none.
fn span_of(rt: &impl Abort, interval: Option<Interval>) -> Option<Span> {
    match interval {
        Some((start, end)) => Some(Span {
            start: time(rt, start),
            end: time(rt, end),
        }),
        None => None,
    }
}

fn are_ranges(rt: &impl Abort, ranges: &Ranges, wanted: &[Interval]) -> bool {
    for (i, interval) in wanted.iter().enumerate() {
        if ranges.get(i) != span_of(rt, Some(*interval)) {
            return false;
        }
    }
    ranges.len() == wanted.len()
}

/// Whether the ranges of all tracks are these.
fn is_buffered(rt: &impl Abort, buffers: &Buffers, ended: bool, wanted: &[Interval]) -> bool {
    let ranges = buffers.buffered(ended).expect(rt, "memory");
    are_ranges(rt, &ranges, wanted)
}

/// Whether there is one track, with this number, so many frames and these ranges.
fn has_view(rt: &impl Abort, buffers: &Buffers, id: u32, frames: u64, wanted: &[Interval]) -> bool {
    let views = buffers.track_views().expect(rt, "memory");
    match views.get(0) {
        Some(view) => {
            views.len() == 1
                && (view.id, view.frames) == (id, frames)
                && are_ranges(rt, view.ranges.as_ranges(), wanted)
        }
        None => false,
    }
}

/// Whether these are the first and the last range of all tracks, as the list of all tells them too.
fn has_bounds(
    rt: &impl Abort,
    buffers: &Buffers,
    ended: bool,
    first: Option<Interval>,
    last: Option<Interval>,
) -> bool {
    let ranges = buffers.buffered(ended).expect(rt, "memory");
    let found = (buffers.first_span(ended), buffers.last_span(ended));
    found == (ranges.get(0), ranges.last()) && found == (span_of(rt, first), span_of(rt, last))
}

/// Whether the settings are as is wanted.
fn has_setting(rt: &impl Abort, buffers: &Buffers, look: &Step) -> bool {
    let settings = buffers.settings();
    match *look {
        Step::GroupStart(None) => settings.group_start.is_none(),
        Step::GroupStart(Some(wanted)) => settings.group_start == Some(time(rt, wanted)),
        Step::Offset(wanted) => settings.offset == time(rt, wanted),
        Step::Sequence(wanted) => settings.sequence == wanted,
        Step::Generates(wanted) => settings.generate == wanted,
        _ => false,
    }
}

/// Whether the tracks are as is wanted, each for itself.
fn has_frames(rt: &impl Abort, buffers: &Buffers, look: &Step) -> bool {
    match *look {
        Step::AwaitsFirst(wanted) => buffers.is_awaiting_first() == wanted,
        Step::Tracks(wanted, need_sync) => has_tracks(buffers, wanted, need_sync),
        Step::Used(wanted) => buffers.used() == wanted,
        Step::HighestStart(wanted) => buffers.highest_start() == Some(time(rt, wanted)),
        Step::HighestEnd(wanted) => buffers.highest_end() == Some(ticks(rt, wanted)),
        _ => has_setting(rt, buffers, look),
    }
}

/// Whether the track buffers tell what is wanted.
fn has(rt: &impl Abort, buffers: &Buffers, look: &Step) -> bool {
    match *look {
        Step::View(id, frames, wanted) => has_view(rt, buffers, id, frames, wanted),
        Step::Buffered(ended, wanted) => is_buffered(rt, buffers, ended, wanted),
        Step::Holding(t, ended, wanted) => {
            buffers.span_holding(time(rt, t), ended) == span_of(rt, wanted)
        }
        Step::Bounds(ended, first, last) => has_bounds(rt, buffers, ended, first, last),
        _ => has_frames(rt, buffers, look),
    }
}

/// Changes the settings; whether the step is such a call.
fn sets(rt: &impl Abort, buffers: &mut Buffers, step: &Step) -> bool {
    match *step {
        Step::ResetParser => buffers.reset_parser(),
        Step::SetSequence(sequence) => buffers.set_mode(sequence),
        Step::SetOffset(offset) => buffers.set_offset(time(rt, offset)),
        Step::ChangeContainer(generate) => buffers.change_container(generate),
        _ => return false,
    }
    true
}

/// Removes frames; whether the step is such a call.
fn removes(rt: &impl Abort, buffers: &mut Buffers, step: &Step) -> bool {
    match *step {
        Step::Remove(start) => buffers.remove(time(rt, start), Moment::Infinite, Moment::Infinite),
        Step::Evict(new, quota) => buffers.evict(Ticks::zero(), new, quota, Moment::Infinite),
        _ => return false,
    }
    true
}

/// Takes a step; whether that comes of it which is wanted.
fn does(rt: &(impl Abort + AllocGlobal), buffers: &mut Buffers, step: &Step) -> bool {
    match *step {
        Step::Receive(tracks, duration, wanted) => {
            receives(rt, buffers, tracks, moment(duration), wanted)
        }
        Step::Process(samples) => processes(rt, buffers, samples),
        Step::Flush(samples, far, changes, duration) => {
            flush(rt, buffers, samples, far) == (changes, Moment::At(ticks(rt, duration)))
        }
        Step::SetWindow => sets_window(rt, buffers),
        _ => sets(rt, buffers, step) || removes(rt, buffers, step) || has(rt, buffers, step),
    }
}

/// Takes the steps of a case, from a new source buffer in mode "segments" on.
fn run(rt: &(impl Abort + AllocGlobal), case: &str, steps: &[Step]) {
    let mut buffers = Buffers::new(rt.alloc(), Ticks::zero(), false);
    for (i, step) in steps.iter().enumerate() {
        expect(rt, case, i, does(rt, &mut buffers, step));
    }
}

const FIRST: Receipt = Receipt::Done { first: true };

const LATER: Receipt = Receipt::Done { first: false };

const DIFFERS: Receipt = Receipt::Refused(MediaFault::TracksDiffer);

const UNKNOWN: Receipt = Receipt::Refused(MediaFault::UnknownCodec);

const SECOND_VIDEO: Told = (2, Kind::Video, *b"hvc1");

const THIRD_AUDIO: Told = (3, Kind::Audio, *b"mp4a");

const TEXT: Told = (3, Kind::Other, *b"wvtt");

/// A video track of a codec that the first one did not have.
const OTHER_VIDEO: &[Told] = &[(9, Kind::Video, *b"hvc1")];

const UNKNOWN_AUDIO: &[Told] = &[VIDEO, (2, Kind::Audio, *b"flac")];

/// What goes on in a later initialization segment: numbers may change, kinds and codecs may not.
static INITIALIZATION_SEGMENTS: [(&str, &[Step]); 4] = [
    (
        "goes_on_by_kind",
        &[
            Step::Receive(&[VIDEO, AUDIO], Duration::Infinite, FIRST),
            Step::Process(&[(1, 0, 3000, true), (2, 0, 1920, true)]),
            Step::Tracks(&[(1, *b"avc1", 1), (2, *b"mp4a", 1)], false),
            // The numbers change places, and then both are new.
            Step::Receive(
                &[(1, Kind::Audio, *b"mp4a"), (2, Kind::Video, *b"avc1")],
                Duration::Infinite,
                LATER,
            ),
            Step::Tracks(&[(2, *b"avc1", 1), (1, *b"mp4a", 1)], true),
            Step::Receive(
                &[(7, Kind::Video, *b"avc1"), (8, Kind::Audio, *b"mp4a")],
                Duration::Infinite,
                LATER,
            ),
            Step::Tracks(&[(7, *b"avc1", 1), (8, *b"mp4a", 1)], true),
        ],
    ),
    (
        "tells_other_tracks",
        &[
            Step::Receive(&[VIDEO, SECOND_VIDEO], Duration::Infinite, FIRST),
            Step::Receive(
                &[SECOND_VIDEO, (3, Kind::Video, *b"avc1")],
                Duration::Infinite,
                DIFFERS,
            ),
            Step::Receive(&[VIDEO], Duration::Infinite, DIFFERS),
            Step::Receive(&[VIDEO, SECOND_VIDEO, AUDIO], Duration::Infinite, DIFFERS),
            Step::Receive(
                &[(1, Kind::Video, *b"hvc1"), (2, Kind::Video, *b"avc1")],
                Duration::Infinite,
                DIFFERS,
            ),
            Step::Receive(&[SECOND_VIDEO, VIDEO], Duration::Infinite, LATER),
            Step::Tracks(&[(1, *b"avc1", 0), (2, *b"hvc1", 0)], true),
        ],
    ),
    (
        "changes_codecs_where_it_may",
        &[
            Step::Receive(&[VIDEO], Duration::Infinite, FIRST),
            Step::Receive(OTHER_VIDEO, Duration::Infinite, DIFFERS),
            Step::ChangeContainer(false),
            Step::Receive(OTHER_VIDEO, Duration::Infinite, LATER),
            Step::Tracks(&[(9, *b"hvc1", 0)], true),
            Step::Receive(&[VIDEO], Duration::Infinite, DIFFERS),
            Step::Tracks(&[(9, *b"hvc1", 0)], true),
        ],
    ),
    (
        "tells_what_is_wrong_first",
        &[
            // The duration is told before the fault.
            Step::Receive(
                &[TEXT],
                Duration::Nan,
                Receipt::RefusedWithDuration(MediaFault::NoTracks),
            ),
            Step::Receive(UNKNOWN_AUDIO, Duration::Infinite, UNKNOWN),
            Step::AwaitsFirst(true),
            // A track that is neither video nor audio may have any codec.
            Step::Receive(&[TEXT, VIDEO], Duration::Infinite, FIRST),
            Step::Receive(UNKNOWN_AUDIO, Duration::Infinite, UNKNOWN),
            Step::Tracks(&[(1, *b"avc1", 0)], true),
        ],
    ),
];

/// Frames that are flushed, removed and evicted, and the settings.
static CALLS: [(&str, &[Step]); 4] = [
    (
        "flushes_frames",
        &[
            Step::Receive(&[VIDEO], Duration::Infinite, FIRST),
            Step::Flush(
                &[
                    (1, 0, 3000, true),
                    (1, 3000, 3000, false),
                    (1, 6000, 3000, false),
                ],
                false,
                3,
                14_112_000_000,
            ),
            Step::Used(12),
            Step::HighestStart(6000),
            Step::HighestEnd(14_112_000_000),
            Step::Tracks(&[(1, *b"avc1", 3)], false),
            Step::Buffered(false, &[(0, 9000)]),
            Step::View(1, 3, &[(0, 9000)]),
        ],
    ),
    // A frame out of range ends it, and what was stored before stays. A frame of no track is passed
    // over.
    (
        "flushes_up_to_a_fault",
        &[
            Step::Receive(&[VIDEO], Duration::Infinite, FIRST),
            Step::Flush(
                &[
                    (1, 0, 3000, true),
                    (1, 3000, 3000, true),
                    (1, 3000, 3000, false),
                ],
                true,
                1,
                4_704_000_000,
            ),
            Step::Tracks(&[(1, *b"avc1", 1)], false),
            Step::Process(&[(5, 0, 3000, true)]),
            Step::Tracks(&[(1, *b"avc1", 1)], false),
        ],
    ),
    (
        "evicts_frames",
        &[
            Step::Receive(&[VIDEO], Duration::Infinite, FIRST),
            Step::Process(&[(1, 0, 3000, true), (1, 3000, 3000, true)]),
            Step::Evict(4, 8),
            Step::Used(4),
            Step::Buffered(false, &[(0, 3000)]),
        ],
    ),
    (
        "resets_and_sets",
        &[
            Step::Receive(&[VIDEO, AUDIO], Duration::Infinite, FIRST),
            Step::Process(&[(1, 0, 3000, true), (2, 0, 1920, true)]),
            Step::ResetParser,
            Step::Tracks(&[(1, *b"avc1", 1), (2, *b"mp4a", 1)], true),
            Step::GroupStart(None),
            Step::SetOffset(1),
            Step::GroupStart(None),
            Step::SetSequence(true),
            Step::GroupStart(Some(3000)),
            Step::SetOffset(7),
            Step::Sequence(true),
            Step::Offset(7),
            Step::GroupStart(Some(7)),
            Step::ResetParser,
            Step::GroupStart(Some(3000)),
            Step::SetSequence(false),
            Step::Sequence(false),
            Step::SetWindow,
            Step::ChangeContainer(true),
            Step::Generates(true),
            Step::Sequence(true),
            Step::GroupStart(Some(3000)),
        ],
    ),
];

/// The ranges that all tracks have, the range of a time, and the first and the last range.
static RANGES: [(&str, &[Step]); 6] = [
    (
        "buffers_what_all_tracks_have",
        &[
            Step::Receive(&[VIDEO, AUDIO], Duration::Infinite, FIRST),
            Step::Buffered(true, &[]),
            Step::Process(&[
                (1, 0, 3000, true),
                (1, 6000, 3000, true),
                (2, 1000, 6000, true),
            ]),
            Step::Buffered(false, &[(1000, 3000), (6000, 7000)]),
            Step::Buffered(true, &[(1000, 3000), (6000, 9000)]),
            Step::Remove(6000),
            Step::Buffered(false, &[(1000, 3000)]),
        ],
    ),
    // In a gap there is no range, and a range holds the time at which it ends. Where the source is
    // ended, the last range of each track lasts to the highest end.
    (
        "finds_the_range_of_a_time",
        &[
            Step::Receive(&[VIDEO, AUDIO], Duration::Infinite, FIRST),
            Step::Holding(0, true, None),
            Step::Process(&[
                (1, 0, 3000, true),
                (1, 6000, 3000, true),
                (2, 1000, 6000, true),
            ]),
            Step::Holding(999, false, None),
            Step::Holding(1000, false, Some((1000, 3000))),
            Step::Holding(3000, true, Some((1000, 3000))),
            Step::Holding(4000, false, None),
            Step::Holding(7000, false, Some((6000, 7000))),
            Step::Holding(8000, false, None),
            Step::Holding(8000, true, Some((6000, 9000))),
            Step::Holding(9001, true, None),
        ],
    ),
    (
        "finds_the_bounds_of_one_track",
        &[
            Step::Receive(&[VIDEO], Duration::Infinite, FIRST),
            Step::Bounds(false, None, None),
            Step::Bounds(true, None, None),
            Step::Process(&[
                (1, 0, 3000, true),
                (1, 6000, 3000, true),
                (1, 12000, 3000, true),
            ]),
            Step::Bounds(false, Some((0, 3000)), Some((12000, 15000))),
            Step::Bounds(true, Some((0, 3000)), Some((12000, 15000))),
        ],
    ),
    // The first ranges of the two tracks share no tick, and neither do the last ones; where the
    // source is ended the last ones do.
    (
        "finds_the_bounds_behind_ranges_of_one_track",
        &[
            Step::Receive(&[VIDEO, AUDIO], Duration::Infinite, FIRST),
            Step::Process(&[
                (1, 0, 3000, true),
                (1, 6000, 3000, true),
                (1, 12000, 3000, true),
                (2, 4000, 1000, true),
                (2, 7000, 1000, true),
                (2, 10000, 1000, true),
            ]),
            Step::Bounds(false, Some((7000, 8000)), Some((7000, 8000))),
            Step::Bounds(true, Some((7000, 8000)), Some((12000, 15000))),
        ],
    ),
    // A track without a frame, and one whose range lies between those of the other: nothing is
    // buffered, but at the end of an ended source.
    (
        "finds_no_bounds_where_nothing_is_shared",
        &[
            Step::Receive(&[VIDEO, AUDIO], Duration::Infinite, FIRST),
            Step::Process(&[(1, 0, 3000, true), (1, 6000, 3000, true)]),
            Step::Bounds(false, None, None),
            Step::Bounds(true, None, None),
            Step::Process(&[(2, 3000, 3000, true)]),
            Step::Bounds(false, None, None),
            Step::Bounds(true, Some((6000, 9000)), Some((6000, 9000))),
        ],
    ),
    (
        "finds_the_bounds_of_three_tracks",
        &[
            Step::Receive(&[VIDEO, AUDIO, THIRD_AUDIO], Duration::Infinite, FIRST),
            Step::Process(&[
                (1, 0, 2000, true),
                (1, 4000, 2000, true),
                (1, 8000, 2000, true),
                (2, 1000, 4000, true),
                (2, 7000, 2000, true),
                (3, 3000, 1500, true),
                (3, 8500, 1000, true),
            ]),
            Step::Bounds(false, Some((4000, 4500)), Some((8500, 9000))),
            Step::Bounds(true, Some((4000, 4500)), Some((8500, 10000))),
        ],
    ),
];

#[test]
fn receives_initialization_segments(rt: HostRuntime) {
    for (case, steps) in &INITIALIZATION_SEGMENTS {
        run(&rt, case, steps);
    }
}

#[test]
fn makes_calls(rt: HostRuntime) {
    for (case, steps) in &CALLS {
        run(&rt, case, steps);
    }
}

#[test]
fn tells_ranges(rt: HostRuntime) {
    for (case, steps) in &RANGES {
        run(&rt, case, steps);
    }
}

/// A source buffer whose timestamps are generated tells no ranges either before its first frame.
#[test]
fn tells_no_ranges_of_a_new_source_buffer(rt: HostRuntime) {
    let buffers = Buffers::new(rt.alloc(), Ticks::zero(), true);
    let none = is_buffered(&rt, &buffers, true, &[]);
    let no_bounds = has_bounds(&rt, &buffers, false, None, None);
    let ended = has_bounds(&rt, &buffers, true, None, None);
    assert!(rt; none && no_bounds && ended);
}
