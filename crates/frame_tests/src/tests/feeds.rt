//! Worked examples of the frames that a decoder is given, on a plain store whose tracks coded frame
//! processing fills. Times are told in media time, and frames by their serials.

ghost use Rattle.std.specs.Prelude.{pos, ◌≤ℤ◌, IfSome};
ghost use Rattle.track_store.specs.Kept.{AreSoundAndCountable};
ghost use Rattle.track_store.specs.Sound.{IsSound};
ghost use Rattle.track_store.specs.State.{state_of, states_of};

use super::media::{REPLACED, Sample, feed_all, one_track, segments, time};
use super::rows::expect;
use decoder_feed::{FeedNext, Feeder, feed};
use mse_base::{Kind, Moment, Ticks};
use range_removal::remove_frames;
use std::process::Abort;
use track_store::{FrameStore, ListStore, Settings, Track, Tracks};

/// What happens to a track or its feeder, and what the feeder is to answer.
#[derive(Clone, Copy)]
enum Step {
    /// Samples are placed.
    Place(&'static [Sample]),
    /// The frames from a time on and before another are removed.
    Remove(u32, u32),
    /// A seek to a time, and the serial of the frame that is shown then.
    Seek(u32, Option<u64>),
    /// One answer.
    Next(FeedNext),
    /// The serials of the next frames, and what is answered after them, twice.
    Gives(&'static [u64], FeedNext),
    /// The serials of the feed for a time; none where there is no feed.
    Feeds(u32, &'static [u64]),
}

/// The track, which is sound.
fn first_of<S: FrameStore>(tracks: &Tracks<S>) -> Option<&Track<S>>
    requires { AreSoundAndCountable (states_of S.frames tracks.now.items) }
    ensures { IfSome result (λ t. IsSound (state_of S.frames t.now)) }
{
    tracks.get(0)
}

/// Whether the next frames are those with these serials.
fn gives<S: FrameStore>(feeder: &mut Feeder, track: &Track<S>, serials: &[u64]) -> bool
    requires { IsSound (state_of S.frames track.now) }
{
    for serial in serials {
        let found = match feeder.next(track) {
            FeedNext::Frame(i) => serial_at(track, i),
            _ => None,
        };
        if found != Some(*serial) {
            return false;
        }
    }
    true
}

fn serial_at<S: FrameStore>(track: &Track<S>, place: usize) -> Option<u64> {
    match track.store.get(place) {
        Some(stored) => Some(stored.serial),
        None => None,
    }
}

/// Whether the frames at these places have these serials.
fn have_serials<S: FrameStore>(track: &Track<S>, places: &[usize], serials: &[u64]) -> bool {
    for (place, serial) in places.iter().zip(serials.iter()) {
        if serial_at(track, *place) != Some(*serial) {
            return false;
        }
    }
    places.len() == serials.len()
}

/// Whether the feed for a time has these serials; none where there is no feed.
fn feeds<S: FrameStore>(
    rt: &(impl Abort + AllocGlobal),
    track: &Track<S>,
    t: Ticks,
    serials: &[u64],
) -> bool
    requires { IsSound (state_of S.frames track.now) }
{
    match feed(rt.alloc(), track, t).expect(rt, "memory") {
        Some(places) => have_serials(track, places.as_slice(), serials),
        None => serials.is_empty(),
    }
}

/// Asks the feeder; whether it answers what is wanted.
fn asks<S: FrameStore>(
    rt: &(impl Abort + AllocGlobal),
    feeder: &mut Feeder,
    track: &Track<S>,
    scale: u32,
    step: &Step,
) -> bool
    requires { IsSound (state_of S.frames track.now) }
{
    match *step {
        Step::Seek(t, wanted) => feeder.seek(track, time(rt, i128::from(t), scale)) == wanted,
        Step::Next(wanted) => feeder.next(track) == wanted,
        Step::Gives(serials, last) => {
            gives(feeder, track, serials)
                && feeder.next(track) == last
                && feeder.next(track) == last
        }
        Step::Feeds(t, serials) => feeds(rt, track, time(rt, i128::from(t), scale), serials),
        Step::Place(_) | Step::Remove(_, _) => false,
    }
}

/// Takes a step; whether that comes of it which is wanted.
fn does<S: FrameStore>(
    rt: &(impl Abort + AllocGlobal),
    tracks: &mut Tracks<S>,
    settings: &mut Settings,
    feeder: &mut Feeder,
    scale: u32,
    step: &Step,
) -> bool
    requires sound_and_countable { AreSoundAndCountable (states_of S.frames tracks.old.items) }
    requires window_start { pos 0 ≤ℤ settings.old.window_start }
    ensures sound_and_countable { AreSoundAndCountable (states_of S.frames tracks.new.items) }
    ensures window_start { pos 0 ≤ℤ settings.new.window_start }
{
    match *step {
        Step::Place(samples) => {
            feed_all(rt, tracks, settings, scale, samples);
            true
        }
        Step::Remove(start, end) => {
            let start = time(rt, i128::from(start), scale);
            let end = Moment::At(time(rt, i128::from(end), scale));
            remove_frames(tracks, start, end, Moment::Infinite);
            true
        }
        _ => match first_of(tracks) {
            Some(track) => asks(rt, feeder, track, scale, step),
            None => false,
        },
    }
}

/// A name, of how many units a second of media time is, and the steps.
type Case = (&'static str, u32, &'static [Step]);

/// Takes the steps of a case, from a track with no frames and a new feeder on.
fn run<S: FrameStore>(rt: &(impl Abort + AllocGlobal), case: &Case) {
    let (name, scale, steps) = *case;
    let mut tracks = one_track::<S>(rt, Kind::Video, 0);
    let mut settings = segments();
    let mut feeder = Feeder::new();
    for (i, step) in steps.iter().enumerate() {
        let as_wanted = does(rt, &mut tracks, &mut settings, &mut feeder, scale, step);
        expect(rt, name, i, as_wanted);
    }
}

/// Four frames of which frames are removed.
const FOUR: &[Sample] = &[
    (0, 100, 0, true),
    (100, 100, 0, false),
    (200, 100, 0, false),
    (300, 100, 0, true),
];

/// Two groups of which one is replaced.
const TWO_GROUPS: &[Sample] = &[
    (0, 100, 0, true),
    (100, 100, 0, false),
    (200, 100, 0, true),
    (300, 100, 0, false),
];

static CASES: [Case; 9] = [
    (
        "gives_a_group_up_to_the_end_of_the_track",
        90_000,
        &[
            Step::Place(&[
                (0, 3000, 0, true),
                (3000, 3000, 0, false),
                (6000, 3000, 0, false),
            ]),
            Step::Gives(&[], FeedNext::Idle),
            Step::Seek(3000, Some(1)),
            Step::Gives(&[0, 1, 2], FeedNext::Wait),
            Step::Seek(9000, None),
            Step::Gives(&[], FeedNext::Idle),
            Step::Feeds(3000, &[0, 1]),
            Step::Feeds(9000, &[]),
        ],
    ),
    // The random access point that replaced the others has a group of its own.
    (
        "ends_where_another_group_begins",
        1000,
        &[
            Step::Place(&REPLACED),
            Step::Seek(500, Some(5)),
            Step::Gives(&[4, 5], FeedNext::GroupEnd),
            Step::Seek(600, None),
            Step::Seek(300, Some(6)),
            Step::Gives(&[6], FeedNext::Wait),
            Step::Feeds(500, &[4, 5]),
            Step::Feeds(300, &[6]),
        ],
    ),
    (
        "loses_frames_that_were_replaced",
        1000,
        &[
            Step::Place(&REPLACED),
            Step::Seek(0, Some(0)),
            Step::Gives(&[0], FeedNext::Lost),
            Step::Seek(100, None),
            Step::Gives(&[], FeedNext::Idle),
            Step::Feeds(0, &[0]),
        ],
    ),
    // The group of a frame is told by the order of appending, and not by times: a frame may be
    // shown before the random access point of its group. A new seek begins with the random access
    // point again, whatever was given before.
    (
        "group_is_told_by_serials",
        1000,
        &[
            Step::Place(&[
                (0, 100, 0, true),
                (100, 100, 100, true),
                (200, 100, -100, false),
            ]),
            Step::Seek(100, Some(2)),
            Step::Gives(&[1, 2], FeedNext::Wait),
            Step::Seek(200, Some(1)),
            Step::Gives(&[1, 2], FeedNext::Wait),
            Step::Seek(0, Some(0)),
            Step::Gives(&[0], FeedNext::GroupEnd),
            Step::Feeds(100, &[1, 2]),
            Step::Feeds(200, &[1]),
        ],
    ),
    (
        "goes_on_where_the_track_grows",
        90_000,
        &[
            Step::Place(&[(0, 3000, 0, true)]),
            Step::Seek(0, Some(0)),
            Step::Gives(&[0], FeedNext::Wait),
            Step::Place(&[(3000, 3000, 0, false), (6000, 3000, 0, false)]),
            Step::Gives(&[1, 2], FeedNext::Wait),
            Step::Place(&[(9000, 3000, 0, true)]),
            Step::Gives(&[], FeedNext::GroupEnd),
        ],
    ),
    // Frames that are removed between two calls are lost, also where none was given since the seek.
    (
        "loses_frames_that_are_removed",
        1000,
        &[
            Step::Place(FOUR),
            Step::Seek(200, Some(2)),
            Step::Next(FeedNext::Frame(0)),
            Step::Remove(100, 300),
            Step::Gives(&[], FeedNext::Lost),
        ],
    ),
    (
        "loses_a_group_that_is_removed",
        1000,
        &[
            Step::Place(FOUR),
            Step::Seek(200, Some(2)),
            Step::Remove(100, 300),
            Step::Remove(0, 300),
            Step::Gives(&[], FeedNext::Lost),
            Step::Seek(300, Some(3)),
            Step::Gives(&[3], FeedNext::Wait),
        ],
    ),
    // Frames that a new group replaces between two calls are lost, and that group is another.
    (
        "loses_frames_where_a_group_was_replaced",
        1000,
        &[
            Step::Place(TWO_GROUPS),
            Step::Seek(100, Some(1)),
            Step::Gives(&[0, 1], FeedNext::GroupEnd),
            Step::Place(&[(200, 100, 0, true)]),
            Step::Gives(&[], FeedNext::Lost),
        ],
    ),
    (
        "ends_where_a_group_was_replaced",
        1000,
        &[
            Step::Place(TWO_GROUPS),
            Step::Seek(300, Some(3)),
            Step::Gives(&[2, 3], FeedNext::Wait),
            Step::Place(&[(200, 100, 0, true)]),
            Step::Gives(&[], FeedNext::GroupEnd),
        ],
    ),
];

#[test]
fn feeds_a_decoder(rt: HostRuntime) {
    for case in &CASES {
        run::<ListStore>(&rt, case);
    }
}
