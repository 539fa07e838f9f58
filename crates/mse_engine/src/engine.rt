ghost use Rattle.std.specs.Prelude.{◌≡◌, ◌≤ℤ◌, pos, true, false, option_copied, option_map, IfOk, OnOk, OnErr};
ghost use Rattle.mse_base.specs.Moments.{is_nan};
ghost use Rattle.mse_calls.specs.Level.{has_metadata};
ghost use Rattle.track_store.specs.State.{state_of};
ghost use Rattle.element_seek.specs.Inside.{IsInside};
ghost use Rattle.source_buffers.specs.Buffered.{track_at};
ghost use Rattle.source_buffers.specs.State.{all_kept_media};
ghost use Rattle.mse_engine.specs.State.{State, opening_state};
ghost use Rattle.mse_engine.specs.Calls.{after_call};
ghost use Rattle.mse_engine.specs.Refusals.{call_refusal};
ghost use Rattle.mse_engine.specs.Work.{after_element_turn, after_work, is_turn_due, fire_result, running_in, has_event_in};
ghost use Rattle.mse_engine.specs.Views.{attributes_in, buffer_attributes_in, span_in, view_in};
ghost use Rattle.mse_engine.specs.Settled.{IsSettledState};
ghost use Rattle.mse_engine.specs.Lists.{AreListsSame};
ghost use Rattle.mse_engine.specs.Sound.{IsSoundEngine};
ghost use Rattle.mse_engine.specs.Standing.{IsEngineAnswer, IsFewerWork, IsFired, IsStanding, IsWork, Stands};

use crate::calls::make_call;
use crate::fault::EngineFault;
use crate::media_source::MediaSource;
use crate::refusals::call_refusal;
use crate::steps::{turn_by_itself, work_on};
use crate::{element_calls, scenes};
use media_element::Element;
use mse_base::{Span, Ticks};
use mse_calls::{
    Answer, Attributes, Blobs, BufferAttributes, BufferViews, Call, Event, FaultView, Name,
    TimeRanges, View,
};
use source_buffers::SourceBuffers;
use std::alloc::Global;
use std::marker::Model;
use track_store::{FrameStore, Track};

/// Whether a step found something to do.
#[derive(Clone, Copy, Debug, PartialEq, Eq)]
pub enum Worked {
    /// It did.
    Did,
    /// There was nothing to do.
    Idle,
}

/// A media source, its source buffers, the element and the queue of events.
#[derive(Drop)]
pub struct Engine<S: FrameStore> {
    source: MediaSource,
    buffers: SourceBuffers<S>,
    element: Element,
}

impl<S: FrameStore> Model for Engine<S> {
    ghost use Rattle.mse_engine.specs.Standing.{HasEngineInvariants, KeptEngine, kept_engine};

    ghost Value = { KeptEngine };

    ghost view = { λ e. kept_engine e.source e.buffers.buffers e.element.state };

    ghost invariant = { λ e. HasEngineInvariants
        (kept_engine e.source e.buffers.buffers e.element.state) };
}

impl<S: FrameStore> Engine<S> {
    /// A closed source without buffers, whose buffers hold at most `quota` bytes of coded frames and
    /// have ranges that join across gaps of at most `gap` ticks. It takes no memory.
    pub fn new(alloc: Global, quota: u64, gap: Ticks) -> Engine<S>
        requires { pos 0 ≤ℤ gap }
        ensures { Stands result (opening_state quota gap) }
    {
        Engine {
            source: MediaSource::new(alloc, quota, gap),
            buffers: SourceBuffers::new(alloc),
            element: Element::new(alloc),
        }
    }

    /// One call: it is made at once, and its events are queued. A call that is refused answers the
    /// name. Behind it, as behind each step, the tracks are sound and their frames end within the
    /// duration.
    ///
    /// An `Err` is want of memory; then nothing changed.
    pub fn call(&mut self, call: &Call, blobs: &Blobs) -> Result<Answer, EngineFault>
        ensures answered { IsEngineAnswer self.old result self.new (after_call blobs.now call.now) }
        ensures sound { OnOk result (IsSoundEngine self.new) }
        ensures err { OnErr result (self.new ≡ self.old) }
    {
        let answer = make_call(
            &mut self.source,
            &mut self.buffers,
            &mut self.element,
            call,
            blobs,
        )?;
        // The proof reads off this that the tracks are sound.
        self.buffers.sound();
        Ok(answer)
    }

    /// The name by which the call would be refused before any effect; `None` where it would not. It
    /// takes no memory. It is never for the quota of an append, before which coded frames may be
    /// evicted, and for a media segment that has begun only where the source is not ended, since an
    /// ended one is opened again before.
    pub fn refusal(&self, call: &Call, blobs: &Blobs) -> Option<Name>
        ensures { (st : State) → Stands self.now st → result ≡ call_refusal blobs.now call.now st }
    {
        call_refusal(&self.source, &self.buffers, &self.element, call, blobs)
    }

    /// Fires the first event of the queue; `None` exactly where it is empty.
    pub fn fire(&mut self) -> Option<Event>
        ensures fired { (st : State) → Stands self.old st →
            IsFired result self.old self.new (fire_result st) }
        ensures buffers { self.new.buffers ≡ self.old.buffers }
        ensures sound { IsSoundEngine self.new }
    {
        // The proof reads off this that the tracks are sound.
        self.buffers.sound();
        self.element.fire()
    }

    /// One item of the work that runs at the buffer of a number. It is `Idle` where nothing runs
    /// there or no such buffer was ever made, and then nothing changed. Work that is done lowers the
    /// number of steps that are left.
    ///
    /// An `Err` is want of memory; then nothing changed.
    pub fn work(&mut self, k: u32) -> Result<Worked, EngineFault>
        ensures worked { (st : State) → Stands self.old st
            → IfOk result (λ worked. IsWork worked self.old self.new (after_work k st)) }
        ensures fewer { IfOk result (λ worked. IsFewerWork worked self.old self.new) }
        ensures sound { OnOk result (IsSoundEngine self.new) }
        ensures err { OnErr result (self.new ≡ self.old) }
    {
        let answer = work_on(&mut self.source, &mut self.buffers, &mut self.element, k)?;
        // The proof reads off this that the tracks are sound.
        self.buffers.sound();
        Ok(answer)
    }

    /// What the element does by itself, where it is due: a seek is done, or playback has come to its
    /// end. It is `Idle` where nothing is due, and then nothing changed.
    ///
    /// An `Err` is want of memory; then nothing changed.
    pub fn element_turn(&mut self) -> Result<Worked, EngineFault>
        ensures worked { (st : State) → Stands self.old st
            → IfOk result (λ worked. IsWork worked self.old self.new (after_element_turn st)) }
        ensures buffers { self.new.buffers ≡ self.old.buffers }
        ensures sound { OnOk result (IsSoundEngine self.new) }
        ensures err { OnErr result (self.new ≡ self.old) }
    {
        let answer = turn_by_itself(&self.source, &self.buffers, &mut self.element)?;
        // The proof reads off this that the tracks are sound.
        self.buffers.sound();
        Ok(answer)
    }

    /// Whether an event waits to be fired.
    pub fn has_event(&self) -> bool
        ensures { (st : State) → Stands self.now st → result ≡ has_event_in st }
    {
        self.element.has_event()
    }

    /// Whether the element has something to do by itself.
    pub fn due(&self) -> bool
        ensures { (st : State) → Stands self.now st → result ≡ is_turn_due st }
    {
        let scene = scenes::scene(&self.source, &self.buffers, &self.element, None);
        self.element.due(&scene)
    }

    /// The lowest buffer at which an append or a removal runs; `None` exactly where there is none.
    pub fn running(&self) -> Option<u32>
        ensures { (st : State) → Stands self.now st → result ≡ running_in st }
    {
        self.buffers.running()
    }

    /// The element's buffered range that has its position or ends at it; `None` exactly where there
    /// is none.
    pub fn element_span(&self) -> Option<Span>
        ensures { (st : State) → Stands self.now st → result ≡ span_in st }
    {
        scenes::span_at(&self.source, &self.buffers, self.element.position())
    }

    /// The first violation of a byte stream format, if there was one.
    pub fn fault(&self) -> Option<FaultView>
        ensures { (st : State) → Stands self.now st → result ≡ st.source.fault }
    {
        self.source.fault
    }

    /// What is shown of the whole engine: the state of source and element, each buffer in order of
    /// its number, and the first fault. An `Err` is want of memory.
    pub fn view(&self) -> Result<View, EngineFault>
        ensures { (st : State) → Stands self.now st → IfOk result (λ view. view ≡ view_in st) }
    {
        let buffers = self.buffers.views(self.source.state.ready().is_ended())?;
        Ok(View {
            state: element_calls::state_view(&self.source, &self.element),
            buffers: BufferViews::from_vec(buffers),
            fault: self.source.fault,
        })
    }

    /// What a page reads of the source and of the element. An `Err` is want of memory.
    pub fn attributes(&self) -> Result<Attributes, EngineFault>
        ensures { (st : State) → Stands self.now st
            → IfOk result (λ found. found ≡ attributes_in st) }
    {
        let buffered = scenes::buffered(&self.source, &self.buffers)?;
        let seekable = scenes::seekable(&self.source, &self.buffers)?;
        let scene = scenes::scene(&self.source, &self.buffers, &self.element, None);
        Ok(Attributes {
            state: element_calls::state_view(&self.source, &self.element),
            start_position: self.element.default_start(),
            ended: self.element.has_ended(&scene),
            seekable,
            buffered: TimeRanges::new(buffered),
            made: self.source.state.made(),
            fault: self.source.fault,
        })
    }

    /// What a page reads of the source buffer of a number; `None` exactly where it is not in the list
    /// of source buffers. An `Err` is want of memory.
    pub fn buffer_attributes(&self, k: u32) -> Result<Option<BufferAttributes>, EngineFault>
        ensures { (st : State) → Stands self.now st
            → IfOk result (λ found. found ≡ buffer_attributes_in k st) }
    {
        let ended = self.source.state.ready().is_ended();
        let active = self.source.state.active(k);
        let found = self.buffers.attributes(k, ended, active)?;
        Ok(found)
    }

    /// The track of the buffer `k` at place `i`, counted from 0 in the order of its first
    /// initialization segment; `None` exactly where the buffer is not in the list or has no such
    /// track.
    pub fn track(&self, k: u32, i: usize) -> Option<&Track<S>>
        ensures { option_map (state_of S.frames) (option_copied result)
            ≡ track_at k i (all_kept_media self.now.buffers) }
    {
        self.buffers.track(k, i)
    }

    /// Each track buffer is sound: each frame that it holds is a random access point, or the frame
    /// received just before it is held too. And each frame ends within the duration. The position is
    /// neither negative nor after the duration, and where the element has metadata there is a
    /// duration. The level is that of the position, and where playback has not ended its end was not
    /// told. A buffer is in the list of source buffers exactly where its slot is filled, and active
    /// exactly where it is in the list and has had its first initialization segment. There is a state
    /// that it stands for. It does nothing when it runs.
    pub fn sound(&self)
        ensures sound { IsSoundEngine self.now }
        ensures position_inside { IsInside self.now.source.state.duration
            self.now.element.player.position }
        ensures has_duration { has_metadata self.now.element.player.level ≡ true
            → is_nan self.now.source.state.duration ≡ false }
        ensures settled { (st : State) → Stands self.now st → IsSettledState st }
        ensures lists { AreListsSame self.now.source.state (all_kept_media self.now.buffers) }
        ensures standing { IsStanding self.now }
    {
        // The proof reads off this that the tracks are sound.
        self.buffers.sound();
    }
}
