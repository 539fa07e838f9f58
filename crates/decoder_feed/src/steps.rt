ghost use Rattle.std.specs.Prelude.{◌≡◌, [], slice_get, IfSome, option_map};
ghost use Rattle.std.specs.List.{position};
ghost use Rattle.track_store.specs.Frames.{has_serial, overlapped};
ghost use Rattle.track_store.specs.Sound.{IsSound};
ghost use Rattle.track_store.specs.State.{state_of};
ghost use Rattle.decoder_feed.specs.Feed.{group_serial, IsInOrder};
ghost use Rattle.decoder_feed.specs.Runs.{frame_given, with_first};
ghost use Rattle.decoder_feed.specs.Steps.{answer_at, answer_with, idle, next_answer, feeder_after, feeder_after_seek};

use mse_base::Ticks;
use std::marker::Model;
use track_store::{FrameStore, Track};

/// What a [`Feeder`] that is asked for the next frame answers.
#[derive(Clone, Copy, Debug, PartialEq, Eq)]
pub enum FeedNext {
    /// The frame at this place in the store is given.
    Frame(usize),
    /// There was no seek yet, or no frame is shown at the time of the last.
    Idle,
    /// The track has not yet received the next frame.
    Wait,
    /// The track received the next frame and does not hold it any more, or did not store it; or no
    /// frame was given since the seek, and this one is no random access point.
    Lost,
    /// The next frame is the random access point of another group.
    GroupEnd,
}

/// Gives the frames of a track to a decoder one after another, in the order in which they were
/// received, from the random access point before a time on. The track may change between two
/// calls. No call takes memory.
#[derive(Debug, Drop)]
pub struct Feeder {
    /// The serial of the frame that comes next.
    next: Option<u64>,
    /// The serial of the frame that was given last since the seek.
    given: Option<u64>,
    /// The place behind the frame that was given last, where the next one mostly stands.
    near: usize,
}

impl Model for Feeder {
    ghost use Rattle.decoder_feed.specs.Steps.{FeederState};
    ghost use Rattle.decoder_feed.specs.Runs.{IsFeeding};

    ghost Value = { FeederState };

    ghost view = { λ f. record { next = f.next; given = f.given } };

    ghost invariant = { λ f. IsFeeding (record { next = f.next; given = f.given }) };
}

/// The serial of the random access point with which the group of the frame at a place begins.
fn group_serial<S: FrameStore>(store: &S, place: usize) -> Option<u64>
    ensures { IfSome (slice_get (S.frames store.now) place)
        (λ f. result ≡ group_serial f.serial (S.frames store.now)) }
{
    // The proof reads off this that the serials ascend.
    store.serials_ascend();
    let first = store.group_start(place)?;
    Some(store.get(first)?.serial)
}

/// What the frame at a place is answered with.
fn answer_with(last_serial: Option<u64>, place: usize, sync: bool) -> FeedNext
    ensures { result ≡ answer_with last_serial place sync }
{
    match last_serial {
        None => {
            if sync {
                FeedNext::Frame(place)
            } else {
                FeedNext::Lost
            }
        }
        Some(_) => {
            if sync {
                FeedNext::GroupEnd
            } else {
                FeedNext::Frame(place)
            }
        }
    }
}

/// The place of the frame of a serial, which is looked for at `near` first.
fn place_near<S: FrameStore>(store: &S, near: usize, serial: u64) -> Option<usize>
    ensures { result ≡ position (has_serial serial) (S.frames store.now) }
{
    // The proof reads off this that the serials ascend.
    store.serials_ascend();
    match store.get(near) {
        Some(stored) if stored.serial == serial => Some(near),
        _ => store.place_of(serial),
    }
}

/// What the frame of a serial that was received is answered with.
fn answer_at<S: FrameStore>(
    store: &S,
    last_serial: Option<u64>,
    near: usize,
    serial: u64,
) -> FeedNext
    ensures { result ≡ answer_at last_serial (S.frames store.now)
        (position (has_serial serial) (S.frames store.now)) }
{
    let Some(place) = place_near(store, near, serial) else {
        return FeedNext::Lost;
    };
    match store.get(place) {
        Some(stored) => answer_with(last_serial, place, stored.frame.sync),
        None => FeedNext::Lost,
    }
}

impl Feeder {
    /// A feeder that gives nothing before its first seek.
    pub fn new() -> Feeder
        ensures { result ≡ idle }
    {
        Feeder {
            next: None,
            given: None,
            near: 0,
        }
    }

    /// Goes to the random access point of the group of the frame that is shown at a time, and
    /// answers the serial of that frame; `None` exactly where no frame is shown then, and from then
    /// on the feeder is idle.
    pub fn seek<S: FrameStore>(&mut self, track: &Track<S>, t: Ticks) -> Option<u64>
        requires { IsSound (state_of S.frames track.now) }
        ensures wanted { result
            ≡ option_map (λ f. f.serial) (overlapped t (S.frames track.now.store)) }
        ensures state { self.new ≡ feeder_after_seek t (S.frames track.now.store) }
    {
        *self = Feeder::new();
        let last = track.store.overlapped(t)?;
        let serial = track.store.get(last)?.serial;
        self.next = group_serial(&track.store, last);
        Some(serial)
    }

    /// Gives the next frame, if the track holds it and it belongs to the group. The other answers
    /// change nothing.
    pub fn next<S: FrameStore>(&mut self, track: &Track<S>) -> FeedNext
        requires { IsSound (state_of S.frames track.now) }
        ensures answer { result ≡ next_answer self.old (state_of S.frames track.now) }
        ensures state { self.new ≡ feeder_after result self.old }
        ensures in_order { IsInOrder self.old.given
            (with_first (frame_given (S.frames track.now.store) result) []) }
    {
        let Some(serial) = self.next else {
            return FeedNext::Idle;
        };
        if serial >= track.marks.received {
            return FeedNext::Wait;
        }
        match answer_at(&track.store, self.given, self.near, serial) {
            FeedNext::Frame(place) => {
                self.given = Some(serial);
                self.next = Some(serial + 1);
                self.near = place.saturating_add(1);
                FeedNext::Frame(place)
            }
            other => other,
        }
    }
}
