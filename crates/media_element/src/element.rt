ghost use Rattle.std.specs.Prelude.{◌≡◌, ◌+◌, ◌≤◌, ◌++◌, ◌∷◌, [], OnOk, length, replicate, slice_get, int_lt, ◌==◌, not, ◌&&◌};
ghost use Rattle.mse_calls.specs.Level.{has_metadata};
ghost use Rattle.element_seek.specs.State.{has_ended};
ghost use Rattle.element_seek.specs.Seeking.{after_seek, after_load};
ghost use Rattle.element_seek.specs.Playing.{after_play, after_pause, after_advance, after_fail};
ghost use Rattle.element_seek.specs.Turns.{is_due};
ghost use Rattle.element_seek.specs.Settling.{after_settle, is_unchanged_by_settle};
ghost use Rattle.element_seek.specs.Inside.{IsInside, HasSpansInside, IsStillInside};
ghost use Rattle.media_element.specs.State.{new_element};
ghost use Rattle.media_element.specs.Queueing.{events_at, element_events, with_events, after_fire, after_action, told_kinds, refusal, after_player_call, after_own_turn};
ghost use Rattle.media_element.specs.DurationChange.{sought_end, after_end_seek, after_element_change, IsInReach};

use element_seek::{Player, PlayerAnswer, Scene};
use mse_base::{Moment, OutOfMemory, Span, Ticks};
use mse_calls::{Changes, EndKind, Event, EventKind, Level, Name, Target};
use std::alloc::Global;
use std::marker::Model;
use task_queue::Queue;

/// A media element, with the events that were queued and not yet fired, in order, and room for
/// more.
#[derive(Debug, Drop)]
pub struct Element {
    player: Player,
    queue: Queue,
}

impl Model for Element {
    ghost use Rattle.media_element.specs.State.{ElementView};

    ghost Value = { ElementView };

    ghost view = { λ e. record {
      state = record { player = e.player; queue = e.queue.events };
      spare = e.queue.spare;
    } };
}

/// Puts events at a target last, in reserved room.
fn push_kinds(queue: &mut Queue, target: Target, kinds: &Changes)
    requires { length kinds.now ≤ queue.old.spare }
    ensures events { queue.new.events ≡ queue.old.events ++ events_at target kinds.now }
    ensures spare { queue.new.spare + length kinds.now ≡ queue.old.spare }
{
    for kind in kinds.as_slice() {
        queue.push_reserved(Event {
            target,
            kind: *kind,
        });
    }
}

/// Puts the same event last so many times, in reserved room.
fn push_again(queue: &mut Queue, event: Event, n: u64)
    requires { n ≤ queue.old.spare }
    ensures events { queue.new.events ≡ queue.old.events ++ replicate n event }
    ensures spare { queue.new.spare + n ≡ queue.old.spare }
{
    for _i in 0..n {
        queue.push_reserved(event);
    }
}

impl Element {
    /// An element at `HAVE_NOTHING`, at 0, paused, and no event. It takes no memory.
    pub fn new(alloc: Global) -> Element
        ensures { result.state ≡ new_element }
    {
        Element {
            player: Player::new(),
            queue: Queue::new(alloc),
        }
    }

    /// Makes room for at least `n` more events. An `Err` changes nothing but room.
    pub fn reserve(&mut self, n: usize) -> Result<(), OutOfMemory>
        ensures state { self.new.state ≡ self.old.state }
        ensures spare { OnOk result (n ≤ self.new.spare) }
        ensures no_room_lost { self.old.spare ≤ self.new.spare }
    {
        self.queue.reserve(n)
    }

    /// Queues an event, at whatever target. It takes one place.
    pub fn tell(&mut self, event: Event)
        requires { 1 ≤ self.old.spare }
        ensures state { self.new.state ≡ with_events (event ∷ []) self.old.state }
        ensures spare { self.old.spare ≤ self.new.spare + 1 }
    {
        self.queue.push_reserved(event);
    }

    /// Queues events at a target, in order. It takes at most four places.
    pub fn tell_kinds(&mut self, target: Target, kinds: &Changes)
        requires { 4 ≤ self.old.spare }
        ensures state { self.new.state ≡ with_events (events_at target kinds.now) self.old.state }
        ensures spare { self.old.spare ≤ self.new.spare + 4 }
    {
        // The proof reads off this that there are at most four.
        let _count = kinds.len();
        push_kinds(&mut self.queue, target, kinds);
    }

    /// Queues the same event `n` times. It takes `n` places.
    pub fn tell_again(&mut self, event: Event, n: u64)
        requires { n ≤ self.old.spare }
        ensures state { self.new.state ≡ with_events (replicate n event) self.old.state }
        ensures spare { self.old.spare ≤ self.new.spare + n }
    {
        push_again(&mut self.queue, event, n);
    }

    /// Queues events at the element, in order.
    fn tell_at_element(&mut self, kinds: &Changes)
        requires { length kinds.now ≤ self.old.spare }
        ensures state { self.new.state ≡ with_events (element_events kinds.now) self.old.state }
        ensures spare { self.new.spare + length kinds.now ≡ self.old.spare }
    {
        push_kinds(&mut self.queue, Target::Element, kinds);
    }

    /// Whether the element has metadata and its position is after a time.
    fn is_beyond(&self, end: Ticks) -> bool
        ensures { result ≡ (has_metadata self.now.state.player.level
            && int_lt end self.now.state.player.position) }
    {
        self.level().has_metadata() && self.position() > end
    }

    /// The time that a change of the duration seeks to, if it seeks: the duration, where the element
    /// has metadata and its position is after that.
    fn sought_end(&self, duration: Moment) -> Option<Ticks>
        ensures { result ≡ sought_end duration self.now.state.player }
    {
        match duration {
            Moment::At(end) => { if self.is_beyond(end) { Some(end) } else { None } }
            Moment::Nan | Moment::Infinite => None,
        }
    }

    /// Seeks to a duration where the element has metadata and its position is after it.
    fn seek_if_beyond(&mut self, duration: Moment, scene: &Scene)
        requires { 1 ≤ self.old.spare }
        ensures state { self.new.state
            ≡ after_action (after_end_seek duration scene.now) self.old.state }
        ensures spare { self.old.spare ≤ self.new.spare + 1 }
    {
        match self.sought_end(duration) {
            Some(end) => self.seek(end, scene),
            None => {}
        }
    }

    /// The duration changed to this one, and the scene is that of the new duration: `durationchange`
    /// is queued, and where the element has metadata and its position is after the duration, it
    /// seeks to it (Media Source Extensions, 2.4.6, duration change algorithm). It takes at most two
    /// places.
    pub fn change_duration(&mut self, duration: Moment, scene: &Scene)
        requires { 2 ≤ self.old.spare }
        ensures state { self.new.state ≡ after_element_change duration scene.now self.old.state }
        ensures spare { self.old.spare ≤ self.new.spare + 2 }
        ensures stays_inside { HasSpansInside scene.now
            → IsStillInside scene.now self.old.state.player self.new.state.player }
        ensures reached { IsInReach duration scene.now self.old.state.player
            → IsInside duration self.new.state.player.position }
    {
        self.tell(Event {
            target: Target::Element,
            kind: EventKind::DurationChange,
        });
        self.seek_if_beyond(duration, scene);
    }

    /// The metadata of all source buffers is there (Media Source Extensions, 3.5.7, initialization
    /// segment received), at an element at `HAVE_NOTHING`: `loadedmetadata`, and it seeks to its
    /// default playback start position, if that is above 0. It takes at most two places.
    pub fn load(&mut self, scene: &Scene)
        requires { 2 ≤ self.old.spare }
        ensures state { self.new.state ≡ after_action (after_load scene.now) self.old.state }
        ensures spare { self.old.spare ≤ self.new.spare + 2 }
        ensures stays_inside { HasSpansInside scene.now
            → IsStillInside scene.now self.old.state.player self.new.state.player }
    {
        let kinds = self.player.load(scene);
        self.tell_at_element(&kinds);
    }

    /// The element's part of the end of a stream (Media Source Extensions, 2.4.7, end of stream
    /// algorithm): the first error stays. It takes at most one place.
    pub fn fail(&mut self, kind: EndKind)
        requires { 1 ≤ self.old.spare }
        ensures state { self.new.state ≡ after_action (after_fail kind) self.old.state }
        ensures spare { self.old.spare ≤ self.new.spare + 1 }
    {
        let kinds = self.player.fail(kind);
        self.tell_at_element(&kinds);
    }

    /// The end of each step: the level becomes that of the position, with its events (HTML, media
    /// elements, ready states). It takes at most four places.
    pub fn settle(&mut self, scene: &Scene)
        requires { 4 ≤ self.old.spare }
        ensures state { self.new.state ≡ after_action (after_settle scene.now) self.old.state }
        ensures spare { self.old.spare ≤ self.new.spare + 4 }
    {
        let kinds = self.player.settle(scene);
        self.tell_at_element(&kinds);
    }

    /// Whether the end of a step leaves the element as it is and tells nothing, by the buffered range
    /// that has its position or ends at it, and by the duration, at an element that told no end.
    pub fn is_unchanged_by_settle(&self, span: &Option<Span>, duration: Moment) -> bool
        ensures { result ≡ is_unchanged_by_settle span.now duration self.now.state.player }
    {
        self.player.is_unchanged_by_settle(span, duration)
    }

    /// Seeks (HTML, media elements, "seeking") to a time in ticks. It takes at most one place.
    pub fn seek(&mut self, t: Ticks, scene: &Scene)
        requires { 1 ≤ self.old.spare }
        ensures state { self.new.state ≡ after_action (after_seek t scene.now) self.old.state }
        ensures spare { self.old.spare ≤ self.new.spare + 1 }
        ensures stays_inside { HasSpansInside scene.now
            → IsStillInside scene.now self.old.state.player self.new.state.player }
    {
        let kinds = self.player.seek(t, scene);
        self.tell_at_element(&kinds);
    }

    /// Queues what a call told, and gives the name by which it was refused, if it was.
    fn answer(&mut self, answer: &PlayerAnswer) -> Option<Name>
        requires { length (told_kinds answer.now) ≤ self.old.spare }
        ensures name { result ≡ refusal answer.now }
        ensures state { self.new.state
            ≡ with_events (element_events (told_kinds answer.now)) self.old.state }
        ensures spare { self.new.spare + length (told_kinds answer.now) ≡ self.old.spare }
    {
        match answer {
            PlayerAnswer::Done(kinds) => {
                self.tell_at_element(kinds);
                None
            }
            PlayerAnswer::Refused(name) => Some(*name),
        }
    }

    /// Plays (HTML, `HTMLMediaElement.play`). It takes at most three places.
    ///
    /// NotSupported where the error code is 4; then nothing changed.
    pub fn play(&mut self, scene: &Scene) -> Option<Name>
        requires { 3 ≤ self.old.spare }
        ensures name { result ≡ refusal (after_play scene.now self.old.state.player).answer }
        ensures state { self.new.state ≡ after_player_call (after_play scene.now) self.old.state }
        ensures spare { self.old.spare ≤ self.new.spare + 3 }
        ensures stays_inside { HasSpansInside scene.now
            → IsStillInside scene.now self.old.state.player self.new.state.player }
    {
        let answer = self.player.play(scene);
        self.answer(&answer)
    }

    /// Pauses (HTML, `HTMLMediaElement.pause`). It takes at most two places.
    pub fn pause(&mut self)
        requires { 2 ≤ self.old.spare }
        ensures state { self.new.state ≡ after_action after_pause self.old.state }
        ensures spare { self.old.spare ≤ self.new.spare + 2 }
    {
        let kinds = self.player.pause();
        self.tell_at_element(&kinds);
    }

    /// Lets a length of time pass, in ticks: an element that plays on moves, up to the end of the
    /// buffered range. It takes at most one place.
    ///
    /// TypeError where `t` is negative; then nothing changed.
    pub fn advance(&mut self, t: Ticks, scene: &Scene) -> Option<Name>
        requires { 1 ≤ self.old.spare }
        ensures name { result ≡ refusal (after_advance t scene.now self.old.state.player).answer }
        ensures state { self.new.state
            ≡ after_player_call (after_advance t scene.now) self.old.state }
        ensures spare { self.old.spare ≤ self.new.spare + 1 }
        ensures stays_inside { HasSpansInside scene.now
            → IsStillInside scene.now self.old.state.player self.new.state.player }
    {
        let answer = self.player.advance(t, scene);
        self.answer(&answer)
    }

    /// What the element does by itself: it completes a seek once the data of its position is there,
    /// and else it tells the end of playback once. Whether something was due. It takes at most three
    /// places.
    pub fn turn(&mut self, scene: &Scene) -> bool
        requires { 3 ≤ self.old.spare }
        ensures due { result ≡ is_due scene.now self.old.state.player }
        ensures state { self.new.state ≡ after_own_turn scene.now self.old.state }
        ensures spare { self.old.spare ≤ self.new.spare + 3 }
    {
        match self.player.turn(scene) {
            Some(kinds) => {
                self.tell_at_element(&kinds);
                true
            }
            None => false,
        }
    }

    /// Whether the element has something to do by itself.
    pub fn due(&self, scene: &Scene) -> bool
        ensures { result ≡ is_due scene.now self.now.state.player }
    {
        self.player.due(scene)
    }

    /// Whether playback has ended (HTML, "ended playback").
    pub fn has_ended(&self, scene: &Scene) -> bool
        ensures { result ≡ has_ended scene.now self.now.state.player }
    {
        self.player.has_ended(scene)
    }

    /// Takes the first event off the queue; `None` exactly where it is empty. Its place is room
    /// again.
    pub fn fire(&mut self) -> Option<Event>
        ensures event { result ≡ slice_get self.old.state.queue 0 }
        ensures state { self.new.state ≡ after_fire self.old.state }
        ensures room { self.old.spare + length self.old.state.queue
            ≡ self.new.spare + length self.new.state.queue }
    {
        self.queue.pop()
    }

    /// Whether an event waits.
    pub fn has_event(&self) -> bool
        ensures { result ≡ not (length self.now.state.queue == 0) }
    {
        !self.queue.is_empty()
    }

    /// The level (HTML, `readyState`).
    pub fn level(&self) -> Level
        ensures { result ≡ self.now.state.player.level }
    {
        self.player.level()
    }

    /// The position, in ticks (HTML, `currentTime`).
    pub fn position(&self) -> Ticks
        ensures { result ≡ self.now.state.player.position }
    {
        self.player.position()
    }

    /// The default playback start position, in ticks (HTML, media elements).
    pub fn default_start(&self) -> Ticks
        ensures { result ≡ self.now.state.player.default_start }
    {
        self.player.default_start()
    }

    /// Whether the element is paused.
    pub fn paused(&self) -> bool
        ensures { result ≡ self.now.state.player.paused }
    {
        self.player.paused()
    }

    /// Whether the element is seeking.
    pub fn seeking(&self) -> bool
        ensures { result ≡ self.now.state.player.seeking }
    {
        self.player.seeking()
    }

    /// The error code (HTML, `MediaError.code`), 0 where there is no error.
    pub fn error(&self) -> u8
        ensures { result ≡ self.now.state.player.error }
    {
        self.player.error()
    }
}
