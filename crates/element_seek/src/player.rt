ghost use Rattle.std.specs.Prelude.{◌≡◌, ◌+◌, ◌≤◌, ◌++◌, pos, ◌+ℤ◌, ◌≤ℤ◌, length};
ghost use Rattle.std.specs.Int.{int_min};
ghost use Rattle.element_seek.specs.State.{new_player, has_ended, is_playing};
ghost use Rattle.element_seek.specs.Seeking.{position_within, nearest_in, after_seek, after_load};
ghost use Rattle.element_seek.specs.Playing.{after_play, after_pause, is_playing_on, after_move, after_advance, after_fail};
ghost use Rattle.element_seek.specs.Turns.{is_seek_done, is_end_due, is_due, after_turn};
ghost use Rattle.element_seek.specs.Settling.{after_settle, has_same_level, is_unchanged_by_settle};

use crate::player_answer::PlayerAnswer;
use crate::scene::Scene;
use element_ready::{Facts, events_of_change, is_first_data, level};
use mse_base::{Moment, Span, Ticks};
use mse_calls::{Changes, EndKind, EventKind, Level, Name};
use std::marker::Model;

/// A media element.
#[derive(Debug, Drop)]
pub struct Player {
    level: Level,
    loaded_before: bool,
    position: Ticks,
    default_start: Ticks,
    paused: bool,
    seeking: bool,
    finished: bool,
    error: u8,
}

impl Model for Player {
    ghost use Rattle.element_seek.specs.State.{PlayerState};

    ghost Value = { PlayerState };

    ghost view = { λ p. record {
      level = p.level;
      loaded_before = p.loaded_before;
      position = p.position;
      default_start = p.default_start;
      paused = p.paused;
      seeking = p.seeking;
      finished = p.finished;
      error = p.error;
    } };
}

/// The time of a span that is nearest to a time.
fn nearest_in(span: &Span, t: Ticks) -> Ticks
    ensures { result ≡ nearest_in span.now t }
{
    span.start.max(t.min(span.end))
}

/// A time brought down to the duration, and then up to 0.
fn position_within(t: Ticks, duration: Moment) -> Ticks
    ensures { result ≡ position_within t duration }
{
    t.at_most(duration).max(Ticks::zero())
}

/// The position after a length of time, which is not negative: at most the end of the range.
#[tactic(auto, unfolding(mse_base::specs::Time::tick))]
fn position_after(position: Ticks, t: Ticks, range: &Span) -> Ticks
    requires { pos 0 ≤ℤ t }
    ensures { result ≡ int_min (position +ℤ t) range.now.end }
{
    // The proof reads off these that the times are in range.
    let (_position, _end) = (position.get(), range.end.get());
    match position.checked_add(t) {
        Some(later) => later.min(range.end),
        None => range.end,
    }
}

impl Player {
    /// An element at `HAVE_NOTHING`, at 0, paused.
    pub fn new() -> Player
        ensures { result ≡ new_player }
    {
        Player {
            level: Level::Nothing,
            loaded_before: false,
            position: Ticks::zero(),
            default_start: Ticks::zero(),
            paused: true,
            seeking: false,
            finished: false,
            error: 0,
        }
    }

    /// Whether playback has ended (HTML, "ended playback").
    pub fn has_ended(&self, scene: &Scene) -> bool
        ensures { result ≡ has_ended scene.now self.now }
    {
        self.level.has_metadata() && scene.ended && Moment::At(self.position) == scene.duration
    }

    /// Whether the element plays.
    fn is_playing(&self, scene: &Scene) -> bool
        ensures { result ≡ is_playing scene.now self.now }
    {
        !self.paused && self.error == 0 && !self.has_ended(scene)
    }

    /// Seeks, and puts the events last.
    fn seek_telling(&mut self, t: Ticks, scene: &Scene, events: &mut Changes)
        requires { length events.old ≤ 3 }
        ensures events { events.new ≡ events.old ++ (after_seek t scene.now self.old).answer }
        ensures at_most_one_more { length events.new ≤ length events.old + 1 }
        ensures state { self.new ≡ (after_seek t scene.now self.old).state }
    {
        if !self.level.has_metadata() {
            self.default_start = t;
            return;
        }
        let t = position_within(t, scene.duration);
        match &scene.seekable {
            Some(range) => {
                self.seeking = true;
                self.position = nearest_in(range, t);
                events.push(EventKind::Seeking);
            }
            None => self.seeking = false,
        }
    }

    /// Seeks (HTML, media elements, "seeking") to a time in ticks. Before there is metadata it sets
    /// the default playback start position. Else the time is brought down to the duration, up to 0
    /// and into what can be sought; where nothing can, the seek is over.
    pub fn seek(&mut self, t: Ticks, scene: &Scene) -> Changes
        ensures events { result ≡ (after_seek t scene.now self.old).answer }
        ensures state { self.new ≡ (after_seek t scene.now self.old).state }
    {
        let mut events = Changes::new();
        self.seek_telling(t, scene, &mut events);
        events
    }

    /// Plays (HTML, `HTMLMediaElement.play`). Playback that has ended begins again at 0, whether the
    /// element is paused or not.
    ///
    /// NotSupported where the error code is 4.
    pub fn play(&mut self, scene: &Scene) -> PlayerAnswer
        ensures answer { result ≡ (after_play scene.now self.old).answer }
        ensures state { self.new ≡ (after_play scene.now self.old).state }
    {
        if self.error == 4 {
            return PlayerAnswer::Refused(Name::NotSupported);
        }
        let mut events = Changes::new();
        if self.has_ended(scene) {
            self.seek_telling(Ticks::zero(), scene, &mut events);
        }
        if self.paused {
            self.paused = false;
            events.push(EventKind::Play);
            let playing = self.level.has_future_data();
            events.push(if playing {
                EventKind::Playing
            } else {
                EventKind::Waiting
            });
        }
        PlayerAnswer::Done(events)
    }

    /// Pauses (HTML, `HTMLMediaElement.pause`).
    pub fn pause(&mut self) -> Changes
        ensures events { result ≡ (after_pause self.old).answer }
        ensures state { self.new ≡ (after_pause self.old).state }
    {
        let mut events = Changes::new();
        if !self.paused {
            self.paused = true;
            events.push(EventKind::TimeUpdate);
            events.push(EventKind::Pause);
        }
        events
    }

    /// Whether the element plays on: it plays, it is not seeking, and it has future data.
    fn is_playing_on(&self, scene: &Scene) -> bool
        ensures { result ≡ is_playing_on scene.now self.now }
    {
        self.is_playing(scene) && !self.seeking && self.level.has_future_data()
    }

    /// Moves to a position.
    fn move_to(&mut self, position: Ticks) -> Changes
        ensures events { result ≡ (after_move position self.old).answer }
        ensures state { self.new ≡ (after_move position self.old).state }
    {
        let mut events = Changes::new();
        if position != self.position {
            self.position = position;
            events.push(EventKind::TimeUpdate);
        }
        events
    }

    /// Lets a length of time pass, in ticks. An element that plays, is not seeking and has future
    /// data moves on, up to the end of the buffered range.
    ///
    /// TypeError where `t` is negative.
    pub fn advance(&mut self, t: Ticks, scene: &Scene) -> PlayerAnswer
        ensures answer { result ≡ (after_advance t scene.now self.old).answer }
        ensures state { self.new ≡ (after_advance t scene.now self.old).state }
    {
        if t < Ticks::zero() {
            return PlayerAnswer::Refused(Name::TypeError);
        }
        if !self.is_playing_on(scene) {
            return PlayerAnswer::Done(Changes::new());
        }
        match &scene.span {
            Some(range) => {
                let position = position_after(self.position, t, range);
                PlayerAnswer::Done(self.move_to(position))
            }
            None => PlayerAnswer::Done(Changes::new()),
        }
    }

    /// Whether the element is seeking and the data of its position is there.
    fn is_seek_done(&self) -> bool
        ensures { result ≡ is_seek_done self.now }
    {
        self.seeking && self.level.has_current_data()
    }

    /// Whether playback has ended and this was not told yet.
    fn is_end_due(&self, scene: &Scene) -> bool
        ensures { result ≡ is_end_due scene.now self.now }
    {
        !self.seeking && self.error == 0 && self.has_ended(scene) && !self.finished
    }

    /// Whether the element has something to do by itself.
    pub fn due(&self, scene: &Scene) -> bool
        ensures { result ≡ is_due scene.now self.now }
    {
        self.is_seek_done() || self.is_end_due(scene)
    }

    /// What the element does by itself: it completes a seek once the data of its position is there,
    /// and else it tells the end of playback once. `None` exactly where nothing is due.
    pub fn turn(&mut self, scene: &Scene) -> Option<Changes>
        ensures events { result ≡ (after_turn scene.now self.old).answer }
        ensures state { self.new ≡ (after_turn scene.now self.old).state }
    {
        let mut events = Changes::new();
        if self.is_seek_done() {
            self.seeking = false;
            events.push(EventKind::TimeUpdate);
            events.push(EventKind::Seeked);
            return Some(events);
        }
        if !self.is_end_due(scene) {
            return None;
        }
        self.finished = true;
        events.push(EventKind::TimeUpdate);
        if !self.paused {
            self.paused = true;
            events.push(EventKind::Pause);
        }
        events.push(EventKind::Ended);
        Some(events)
    }

    /// The metadata of all source buffers is there (Media Source Extensions, 3.5.7, initialization
    /// segment received), at an element at `HAVE_NOTHING`: it seeks to its default playback start
    /// position, if that is above 0.
    pub fn load(&mut self, scene: &Scene) -> Changes
        ensures events { result ≡ (after_load scene.now self.old).answer }
        ensures state { self.new ≡ (after_load scene.now self.old).state }
    {
        let mut events = Changes::new();
        self.level = Level::Metadata;
        events.push(EventKind::LoadedMetadata);
        let start = self.default_start;
        if start > Ticks::zero() {
            self.default_start = Ticks::zero();
            self.seek_telling(start, scene, &mut events);
        }
        events
    }

    /// The element's part of the end of a stream (Media Source Extensions, 2.4.7, end of stream
    /// algorithm). The first error stays (HTML, `MediaError.code`): 4 where there is no metadata,
    /// else 2 for the network and 3 for decoding.
    pub fn fail(&mut self, kind: EndKind) -> Changes
        ensures events { result ≡ (after_fail kind self.old).answer }
        ensures state { self.new ≡ (after_fail kind self.old).state }
    {
        let mut events = Changes::new();
        let code = match kind {
            EndKind::Plain => return events,
            EndKind::Network => 2,
            EndKind::Decode => 3,
        };
        if self.error == 0 {
            self.error = if self.level.has_metadata() { code } else { 4 };
            events.push(EventKind::Error);
        }
        events
    }

    /// The end of each step: the level becomes that of the position, with its events, unless it is
    /// `HAVE_NOTHING`; and where playback has not ended, its end will be told anew.
    pub fn settle(&mut self, scene: &Scene) -> Changes
        ensures events { result ≡ (after_settle scene.now self.old).answer }
        ensures state { self.new ≡ (after_settle scene.now self.old).state }
    {
        let facts = Facts {
            playing: self.is_playing(scene),
            paused: self.paused,
            first_loaded: self.loaded_before,
        };
        let old = self.level;
        let new = if old.has_metadata() {
            level(scene.span, self.position, scene.duration)
        } else {
            old
        };
        self.finished = self.finished && self.has_ended(scene);
        self.loaded_before = self.loaded_before || is_first_data(old, new);
        self.level = new;
        events_of_change(old, new, facts)
    }

    /// Whether the end of a step leaves the element as it is and tells nothing, by the level of its
    /// position with this buffered range and this duration, at an element that has not told an end.
    pub fn is_unchanged_by_settle(&self, span: &Option<Span>, duration: Moment) -> bool
        ensures { result ≡ is_unchanged_by_settle span.now duration self.now }
    {
        !self.finished && self.has_same_level(span, duration)
    }

    /// Whether the level is that of the position, or stays `HAVE_NOTHING`.
    fn has_same_level(&self, span: &Option<Span>, duration: Moment) -> bool
        ensures { result ≡ has_same_level span.now duration self.now }
    {
        !self.level.has_metadata() || level(*span, self.position, duration) == self.level
    }

    /// The level (HTML, `readyState`).
    pub fn level(&self) -> Level
        ensures { result ≡ self.now.level }
    {
        self.level
    }

    /// The position, in ticks (HTML, `currentTime`).
    pub fn position(&self) -> Ticks
        ensures { result ≡ self.now.position }
    {
        self.position
    }

    /// The default playback start position, in ticks (HTML, media elements).
    pub fn default_start(&self) -> Ticks
        ensures { result ≡ self.now.default_start }
    {
        self.default_start
    }

    /// Whether the element is paused.
    pub fn paused(&self) -> bool
        ensures { result ≡ self.now.paused }
    {
        self.paused
    }

    /// Whether the element is seeking.
    pub fn seeking(&self) -> bool
        ensures { result ≡ self.now.seeking }
    {
        self.seeking
    }

    /// The error code (HTML, `MediaError.code`), 0 where there is no error.
    pub fn error(&self) -> u8
        ensures { result ≡ self.now.error }
    {
        self.error
    }
}
