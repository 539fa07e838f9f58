ghost use Rattle.std.specs.Prelude.{◌≡◌, true, false, not, length, slice_get, IfOk, OnErr};
ghost use Rattle.source_state.specs.State.{new_source, is_listed_in, are_in};
ghost use Rattle.mse_base.specs.Moments.{is_same_moment};
ghost use Rattle.source_state.specs.Calls.{add_name, remove_name, duration_name, after_attach, after_set_live, after_clear_live, after_add_buffer, after_remove_buffer, with_active, after_duration_change, after_set_duration, end_refusal, after_end, after_reopen};
ghost use Rattle.source_state.specs.Seekable.{seekable_span};

use crate::answers::{Added, AllBuffers, Changed, Removed};
use crate::lists::{are_in, is_listed_in, remove_number};
use crate::seekable::seekable_span;
use mse_base::{Moment, OutOfMemory, Span, Ticks};
use mse_calls::{EndKind, Name, Ready};
use std::alloc::Global;
use std::marker::Model;

/// How many source buffers a source has at most at one time.
const MOST: usize = 16;

/// A media source.
#[derive(Debug, Drop)]
pub struct Source {
    ready: Ready,
    duration: Moment,
    live: Option<Span>,
    made: u32,
    listed: Vec<u32>,
    active: Vec<u32>,
}

impl Model for Source {
    ghost use Rattle.std.specs.Prelude.{vec_capacity};
    ghost use Rattle.source_state.specs.State.{SourceState};
    ghost use Rattle.source_state.specs.Room.{HasRoomToActivate};

    ghost Value = { SourceState };

    ghost view = { λ s. record {
      ready = s.ready;
      duration = s.duration;
      live = s.live;
      made = s.made;
      listed = s.listed.items;
      active = s.active.items;
    } };

    ghost invariant = { λ s. HasRoomToActivate s.listed.items s.active.items
        (vec_capacity s.active) };
}

impl Source {
    /// A closed source without buffers, whose duration is NaN. It takes no memory.
    pub fn new(alloc: Global) -> Source
        ensures { result ≡ new_source }
    {
        Source {
            ready: Ready::Closed,
            duration: Moment::Nan,
            live: None,
            made: 0,
            listed: Vec::new(alloc),
            active: Vec::new(alloc),
        }
    }

    /// Opens the source (Media Source Extensions, 2.4.1, attaching to a media element).
    ///
    /// InvalidState where it is not closed.
    pub fn attach(&mut self) -> Option<Name>
        ensures answer { result ≡ (after_attach self.old).answer }
        ensures state { self.new ≡ (after_attach self.old).state }
    {
        let refusal = self.attach_refusal();
        if refusal.is_none() {
            self.ready = Ready::Opened;
        }
        refusal
    }

    /// Why the source cannot be attached, before anything is done.
    pub fn attach_refusal(&self) -> Option<Name>
        ensures { result ≡ (after_attach self.now).answer }
    {
        if !self.ready.is_closed() {
            return Some(Name::InvalidState);
        }
        None
    }

    /// Sets the live seekable range (Media Source Extensions, 2.2, `setLiveSeekableRange`), from
    /// `start` on and to `end`, in ticks.
    ///
    /// InvalidState where the source is not open; TypeError where `start` is negative or after
    /// `end`.
    pub fn set_live(&mut self, start: Ticks, end: Ticks) -> Option<Name>
        ensures answer { result ≡ (after_set_live start end self.old).answer }
        ensures state { self.new ≡ (after_set_live start end self.old).state }
    {
        let refusal = self.set_live_refusal(start, end);
        if refusal.is_none() {
            self.live = Some(Span { start, end });
        }
        refusal
    }

    /// Why the live seekable range cannot be set, before anything is done.
    pub fn set_live_refusal(&self, start: Ticks, end: Ticks) -> Option<Name>
        ensures { result ≡ (after_set_live start end self.now).answer }
    {
        if !self.ready.is_open() {
            return Some(Name::InvalidState);
        }
        if start < Ticks::zero() || end < start {
            return Some(Name::TypeError);
        }
        None
    }

    /// Takes the live seekable range away (Media Source Extensions, 2.2,
    /// `clearLiveSeekableRange`).
    ///
    /// InvalidState where the source is not open.
    pub fn clear_live(&mut self) -> Option<Name>
        ensures answer { result ≡ (after_clear_live self.old).answer }
        ensures state { self.new ≡ (after_clear_live self.old).state }
    {
        let refusal = self.clear_live_refusal();
        if refusal.is_none() {
            self.live = None;
        }
        refusal
    }

    /// Why the live seekable range cannot be taken away, before anything is done.
    pub fn clear_live_refusal(&self) -> Option<Name>
        ensures { result ≡ (after_clear_live self.now).answer }
    {
        if !self.ready.is_open() {
            return Some(Name::InvalidState);
        }
        None
    }

    /// Puts a buffer with the next number at the end of the list (Media Source Extensions, 2.2,
    /// `addSourceBuffer`, once the type is known to be supported). An `Err` changes nothing.
    ///
    /// QuotaExceeded where 16 buffers are in the list, or `2^32 - 1` were ever made; InvalidState
    /// where the source is not open.
    #[tactic(auto, using(crate::proofs::ActivePlaces::few))]
    pub fn add_buffer(&mut self) -> Result<Added, OutOfMemory>
        ensures answer { IfOk result (λ added. added ≡ (after_add_buffer self.old).answer) }
        ensures state { IfOk result (λ _. self.new ≡ (after_add_buffer self.old).state) }
        ensures err { OnErr result (self.new ≡ self.old) }
    {
        if let Some(name) = self.add_refusal() {
            return Ok(Added::Refused(name));
        }
        self.listed.reserve(1)?;
        // A buffer becomes active without memory.
        self.active.reserve(MOST)?;
        let number = self.made;
        self.listed.push_reserved(number);
        self.made += 1;
        Ok(Added::Number(number))
    }

    /// Why no buffer can be added, before anything is done.
    pub fn add_refusal(&self) -> Option<Name>
        ensures { result ≡ add_name (after_add_buffer self.now).answer }
    {
        if self.listed.len() >= MOST || self.made == u32::MAX {
            return Some(Name::QuotaExceeded);
        }
        if !self.ready.is_open() {
            return Some(Name::InvalidState);
        }
        None
    }

    /// Takes a buffer off the list, and off the list of active buffers if it is there (Media Source
    /// Extensions, 2.2, `removeSourceBuffer`).
    ///
    /// NotFound where the buffer is not in the list.
    pub fn remove_buffer(&mut self, k: u32) -> Removed
        ensures answer { result ≡ (after_remove_buffer k self.old).answer }
        ensures state { self.new ≡ (after_remove_buffer k self.old).state }
    {
        if let Some(name) = self.remove_refusal(k) {
            return Removed::Refused(name);
        }
        let active = is_listed_in(&self.active, k);
        remove_number(&mut self.listed, k);
        remove_number(&mut self.active, k);
        Removed::Gone { active }
    }

    /// Why a buffer cannot be taken off the list, before anything is done.
    pub fn remove_refusal(&self, k: u32) -> Option<Name>
        ensures { result ≡ remove_name (after_remove_buffer k self.now).answer }
    {
        if !is_listed_in(&self.listed, k) {
            return Some(Name::NotFound);
        }
        None
    }

    /// Puts a buffer on the list of active buffers (Media Source Extensions, 3.5.7, initialization
    /// segment received). It takes no memory.
    pub fn activate(&mut self, k: u32)
        requires listed { is_listed_in k self.old.listed ≡ true }
        requires inactive { is_listed_in k self.old.active ≡ false }
        ensures { self.new ≡ with_active k self.old }
    {
        self.active.push_reserved(k);
    }

    /// Sets the duration, in ticks (Media Source Extensions, 2.1, `duration`, on setting), with what
    /// is told of all buffers in the list: where a frame ends after `d`, the duration becomes that
    /// end. `Changed::To` tells the new duration, `Same` that it stays.
    ///
    /// TypeError where `d` is NaN or negative; InvalidState where the source is not open, where a
    /// buffer is updating, or where `d` is another duration and a frame starts after it.
    pub fn set_duration(&mut self, d: Moment, all: &AllBuffers) -> Changed
        ensures answer { result ≡ (after_set_duration d all.now self.old).answer }
        ensures state { self.new ≡ (after_set_duration d all.now self.old).state }
    {
        if let Some(name) = self.duration_refusal(d, all) {
            return Changed::Refused(name);
        }
        if d == self.duration {
            return Changed::Same;
        }
        let duration = match all.highest_end {
            Some(end) => d.at_least(end),
            None => d,
        };
        self.run_duration_change(duration)
    }

    /// Why the duration cannot be set, before anything is done.
    pub fn duration_refusal(&self, d: Moment, all: &AllBuffers) -> Option<Name>
        ensures { result ≡ duration_name (after_set_duration d all.now self.now).answer }
    {
        if d.is_nan() || Ticks::zero().is_after(d) {
            return Some(Name::TypeError);
        }
        if !self.ready.is_open() || all.updating {
            return Some(Name::InvalidState);
        }
        if d == self.duration {
            return None;
        }
        if let Some(start) = all.highest_start
            && start.is_after(d)
        {
            return Some(Name::InvalidState);
        }
        None
    }

    /// The duration change algorithm (Media Source Extensions, 2.4.6), to `d` in ticks, NaN where
    /// there is none.
    fn run_duration_change(&mut self, d: Moment) -> Changed
        ensures answer { result ≡ (after_duration_change d self.old).answer }
        ensures state { self.new ≡ (after_duration_change d self.old).state }
    {
        if d == self.duration {
            return Changed::Same;
        }
        self.duration = d;
        Changed::To(d)
    }

    /// Changes the duration to `d`, in ticks, NaN where there is none (Media Source Extensions, 2.4.6,
    /// duration change): true exactly where it was another.
    pub fn change_duration(&mut self, d: Moment) -> bool
        ensures answer { result ≡ not (is_same_moment d self.old.duration) }
        ensures state { self.new ≡ (after_duration_change d self.old).state }
    {
        matches!(self.run_duration_change(d), Changed::To(_))
    }

    /// Why the source cannot be ended now (Media Source Extensions, 2.2, `endOfStream`), where a
    /// buffer is updating or not: InvalidState where it is not open or a buffer is updating.
    pub fn end_refusal(&self, updating: bool) -> Option<Name>
        ensures { result ≡ end_refusal updating self.now }
    {
        if !self.ready.is_open() || updating {
            return Some(Name::InvalidState);
        }
        None
    }

    /// Ends the source (Media Source Extensions, 2.4.7, end of stream algorithm, the source's part).
    /// Without an error the duration becomes the highest end of all frames in ticks, or 0.
    pub fn end(&mut self, kind: EndKind, highest_end: Option<Ticks>) -> Changed
        ensures answer { result ≡ (after_end kind highest_end self.old).answer }
        ensures state { self.new ≡ (after_end kind highest_end self.old).state }
    {
        self.ready = Ready::Ended;
        match kind {
            EndKind::Plain => {
                self.run_duration_change(Moment::At(highest_end.unwrap_or(Ticks::zero())))
            }
            EndKind::Network | EndKind::Decode => Changed::Same,
        }
    }

    /// Opens an ended source again: true exactly where it was ended.
    pub fn reopen(&mut self) -> bool
        ensures answer { result ≡ (after_reopen self.old).answer }
        ensures state { self.new ≡ (after_reopen self.old).state }
    {
        if !self.ready.is_ended() {
            return false;
        }
        self.ready = Ready::Opened;
        true
    }

    /// What can be sought (Media Source Extensions, 6, `seekable`), by the time where the first
    /// buffered range of the element starts and the time where the last one ends, in ticks; `None`
    /// where nothing can.
    pub fn seekable(&self, first: Option<Ticks>, last: Option<Ticks>) -> Option<Span>
        ensures { result ≡ seekable_span self.now.duration self.now.live first last }
    {
        seekable_span(&self.duration, &self.live, first, last)
    }

    /// The state (Media Source Extensions, 2.1, `readyState`).
    pub fn ready(&self) -> Ready
        ensures { result ≡ self.now.ready }
    {
        self.ready
    }

    /// The duration, in ticks: NaN while there is none, infinite of a stream without an end.
    pub fn duration(&self) -> Moment
        ensures { result ≡ self.now.duration }
    {
        self.duration
    }

    /// The live seekable range, if there is one.
    pub fn live(&self) -> Option<Span>
        ensures { result ≡ self.now.live }
    {
        self.live
    }

    /// How many buffers were ever made. Their numbers are those below it.
    pub fn made(&self) -> u32
        ensures { result ≡ self.now.made }
    {
        self.made
    }

    /// How many buffers are in the list.
    pub fn len(&self) -> usize
        ensures { result ≡ length self.now.listed }
    {
        self.listed.len()
    }

    /// The number of the buffer at a place of the list; `None` exactly past the end.
    pub fn at(&self, i: usize) -> Option<u32>
        ensures { result ≡ slice_get self.now.listed i }
    {
        self.listed.get(i).copied()
    }

    /// Whether the buffer of a number is in the list.
    pub fn listed(&self, k: u32) -> bool
        ensures { result ≡ is_listed_in k self.now.listed }
    {
        is_listed_in(&self.listed, k)
    }

    /// Whether the buffer of a number is in the list of active buffers.
    pub fn active(&self, k: u32) -> bool
        ensures { result ≡ is_listed_in k self.now.active }
    {
        is_listed_in(&self.active, k)
    }

    /// The numbers of the active buffers, in the order in which they became active.
    pub fn active_numbers(&self) -> &[u32]
        ensures { result.now ≡ self.now.active }
    {
        self.active.as_slice()
    }

    /// Whether every buffer in the list of source buffers is active.
    pub fn are_all_active(&self) -> bool
        ensures { result ≡ are_in self.now.listed self.now.active }
    {
        are_in(&self.listed, &self.active)
    }
}
