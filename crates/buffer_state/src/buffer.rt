ghost use Rattle.std.specs.Prelude.{◌≡◌, ◌≢◌, ◌<◌, ◌≤◌, ◌^◌, pos, ◌≤ℤ◌, not, find, length, Option, Some, None, IfOk, IfSome, OnErr};
ghost use Rattle.std.specs.List.{AllByRecursion};
ghost use Rattle.mse_base.specs.declared.ticks.Moment.{Moment};
ghost use Rattle.mse_base.specs.Moments.{IsNotAfter};
ghost use Rattle.mse_base.specs.Spans.{first_of, last_of, reaches};
ghost use Rattle.mse_types.specs.Texts.{type_of};
ghost use Rattle.track_store.specs.Kept.{AreSoundAndCountable};
ghost use Rattle.track_store.specs.Sound.{IsSound};
ghost use Rattle.track_store.specs.State.{states_of};
ghost use Rattle.track_buffers.specs.Settings.{new_media};
ghost use Rattle.track_buffers.specs.Media.{is_awaiting_first};
ghost use Rattle.track_buffers.specs.Frames.{used_in, highest_start_in, highest_end_in};
ghost use Rattle.track_buffers.specs.Buffered.{buffered_of, is_buffered_up_to};
ghost use Rattle.buffer_state.specs.State.{Feed, Content, KeptBuffer, Stands, surroundings, append_input, new_feed, phase_in, ready_in, is_updating, is_appending, is_removing};
ghost use Rattle.buffer_state.specs.Replies.{IsDone, IsReplyKeptUnlessDid, IsStillWithin, HasRangesAfterInit, IsTurnIfOk, changes_of, reply_of};
ghost use Rattle.buffer_state.specs.Turns.{turn_result};
ghost use Rattle.buffer_state.specs.Calls.{has_generated_timestamps, end_work_result, buffer_attributes, buffer_view, mode_by};
ghost use Rattle.buffer_state.specs.declared.buffer_context.BufferContext.{BufferContext};
ghost use Rattle.buffer_state.specs.AllCalls.{call_at, most_changes, IsCallDone, IsRefusal};
ghost use Rattle.buffer_state.specs.AllCalls as calls;
ghost use Rattle.buffer_state.specs.StepsLeft.{IsFewer, IsIdle};
ghost use Rattle.byte_stream.specs.Readings.{held_at};
ghost use Rattle.byte_stream.specs.Streams.{HasReading, ready_of};

use crate::buffer_context::BufferContext;
use crate::call::BufferCall;
use crate::reply::{Reply, Turned, event_reply};
use crate::running::Running;
use crate::{appending, removal, resets, settings_calls, turns};
use byte_stream::{ByteStream, Container};
use mse_base::{Bytes, Moment, OutOfMemory, Phase, Ranges, Span, Ticks};
use mse_calls::{BufferAttributes, BufferView, Mode, Name, TimeRanges};
use mse_types::read_type;
use std::alloc::Global;
use std::marker::Model;
use track_buffers::TrackBuffers;
use track_store::{FrameStore, Settings, Tracks};

/// A source buffer over a store of frames.
#[derive(Drop)]
pub struct Buffer<S: FrameStore> {
    alloc: Global,
    stream: ByteStream,
    media: TrackBuffers<S>,
    running: Running,
}

impl<S: FrameStore> Model for Buffer<S> {
    ghost use Rattle.std.specs.Prelude.{◌≡◌, None};
    ghost use Rattle.buffer_state.specs.State.{KeptBuffer};

    ghost Value = { KeptBuffer };

    ghost view = { λ b. record { stream = b.stream; media = b.media.media; running = b.running } };

    ghost invariant = { λ b. b.stream.offered ≡ None };
}

impl<S: FrameStore> Buffer<S> {
    /// A buffer of a container that has received nothing, whose ranges join across gaps of at most
    /// `gap` ticks. It takes no memory.
    pub fn new(alloc: Global, gap: Ticks, container: Container) -> Self
        requires { pos 0 ≤ℤ gap }
        ensures { Stands result (new_feed container None)
            (record { media = new_media gap (has_generated_timestamps container); latest = None }) }
    {
        Buffer {
            alloc,
            stream: ByteStream::new(alloc, container),
            media: TrackBuffers::new(alloc, gap, resets::has_generated_timestamps(container)),
            running: Running::Nothing,
        }
    }

    /// Sets the append mode (Media Source Extensions, 3.1, `mode`). With "sequence" the group start
    /// timestamp becomes the group end timestamp.
    ///
    /// InvalidState where an append or a removal runs; TypeError where
    /// timestamps are generated and the mode is "segments"; and, after an ended source is opened
    /// again, InvalidState where the segment parser loop is in a media segment.
    pub fn set_mode(&mut self, mode: Mode, around: &BufferContext) -> Reply
        ensures { IsCallDone (calls.SetMode mode) (surroundings around.now) self.old result
            self.new }
    {
        settings_calls::set_mode(&self.stream, &mut self.media, &self.running, mode, around)
    }

    /// Sets the timestamp offset, in ticks (Media Source Extensions, 3.1, `timestampOffset`). In mode
    /// "sequence" the group start timestamp becomes it too.
    ///
    /// InvalidState where an append or a removal runs; and, after an ended
    /// source is opened again, InvalidState where the segment parser loop is in a media segment.
    pub fn set_offset(&mut self, t: Ticks, around: &BufferContext) -> Reply
        ensures { IsCallDone (calls.SetOffset (Moment.At t)) (surroundings around.now) self.old
            result self.new }
    {
        settings_calls::set_offset(&self.stream, &mut self.media, &self.running, t, around)
    }

    /// Sets the start of the append window, in ticks (Media Source Extensions, 3.1,
    /// `appendWindowStart`).
    ///
    /// InvalidState where an append or a removal runs; TypeError where the
    /// start is negative, or at or after the end of the window.
    pub fn set_window_start(&mut self, t: Ticks, around: &BufferContext) -> Reply
        ensures { IsCallDone (calls.SetWindowStart (Moment.At t)) (surroundings around.now) self.old
            result self.new }
    {
        settings_calls::set_window_start(&self.stream, &mut self.media, &self.running, t, around)
    }

    /// Sets the end of the append window, in ticks (Media Source Extensions, 3.1,
    /// `appendWindowEnd`).
    ///
    /// InvalidState where an append or a removal runs; TypeError where the
    /// end is NaN, or at or before the start of the window.
    pub fn set_window_end(&mut self, t: Moment, around: &BufferContext) -> Reply
        ensures { IsCallDone (calls.SetWindowEnd t) (surroundings around.now) self.old result
            self.new }
    {
        settings_calls::set_window_end(&self.stream, &mut self.media, &self.running, t, around)
    }

    /// Begins a removal from `start` on and before `end`, in ticks (Media Source Extensions, 3.2,
    /// `remove`). An ended source is opened again.
    ///
    /// InvalidState where an append or a removal runs; TypeError where the
    /// duration is NaN, where `start` is negative or later than the duration, or where `end` is NaN,
    /// or at or before `start`.
    pub fn remove(&mut self, start: Ticks, end: Moment, around: &BufferContext) -> Reply
        ensures { IsCallDone (calls.Remove (Moment.At start) end) (surroundings around.now) self.old
            result self.new }
    {
        removal::remove(&mut self.running, start, end, around)
    }

    /// Begins an append of bytes (Media Source Extensions, 3.2, `appendBuffer`). It takes its memory
    /// first; an `Err` changes nothing.
    ///
    /// InvalidState where an append or a removal runs, or where the element has an error. Else an
    /// ended source is opened again and coded frames are evicted (3.5.4), also where the append is
    /// then refused: QuotaExceeded where, after eviction, the stored frames have as many bytes as
    /// the quota or more, or where the bytes appended since the last reset would be `2^62` or more.
    pub fn append(&mut self, bytes: &Bytes, around: &BufferContext) -> Result<Reply, OutOfMemory>
        ensures done { IfOk result (λ reply. IsCallDone
            (calls.Append (Some (append_input bytes.now around.now))) (surroundings around.now)
            self.old reply self.new) }
        ensures err { OnErr result (self.new ≡ self.old) }
    {
        appending::append(
            &mut self.stream,
            &mut self.media,
            &mut self.running,
            bytes,
            around,
        )
    }

    /// Aborts an append that runs, and resets the parser (Media Source Extensions, 3.2, `abort`). The
    /// coded frames that are ready are processed in the append window as it was; then the window is
    /// from 0 on and without an end. It takes its memory first; an `Err` changes nothing.
    ///
    /// InvalidState where the source is not open, or where a removal runs.
    pub fn abort(&mut self, around: &BufferContext) -> Result<Reply, OutOfMemory>
        ensures done { IfOk result (λ reply.
            IsCallDone calls.Abort (surroundings around.now) self.old reply self.new) }
        ensures err { OnErr result (self.new ≡ self.old) }
    {
        resets::abort(
            self.alloc,
            &mut self.stream,
            &mut self.media,
            &mut self.running,
            around,
        )
    }

    /// Resets the parser and changes the byte stream format to that of a type (Media Source
    /// Extensions, second edition, `changeType`). The presentation is forgotten, and the next
    /// initialization segment may have other codecs. Where timestamps are generated in the format,
    /// the mode becomes "sequence". An ended source is opened again. It takes its memory first; an
    /// `Err` changes nothing.
    ///
    /// TypeError where the type is empty; InvalidState where an append or a removal runs;
    /// NotSupported where the type is not supported.
    pub fn change_type(&mut self, text: &str, around: &BufferContext) -> Result<Reply, OutOfMemory>
        ensures done { IfOk result (λ reply. IsCallDone (calls.ChangeType (type_of text.now))
            (surroundings around.now) self.old reply self.new) }
        ensures err { OnErr result (self.new ≡ self.old) }
    {
        self.call(&BufferCall::ChangeType(read_type(text)), around)
    }

    /// Makes a call. It takes its memory first; an `Err` changes nothing.
    pub fn call(&mut self, call: &BufferCall, around: &BufferContext) -> Result<Reply, OutOfMemory>
        ensures done { IfOk result (λ reply. IsCallDone (call_at around.now call.now)
            (surroundings around.now) self.old reply self.new) }
        ensures err { OnErr result (self.new ≡ self.old) }
    {
        match *call {
            BufferCall::SetMode(mode) => Ok(self.set_mode(mode, around)),
            BufferCall::SetOffset(Moment::At(t)) => Ok(self.set_offset(t, around)),
            BufferCall::SetWindowStart(Moment::At(t)) => Ok(self.set_window_start(t, around)),
            BufferCall::SetWindowEnd(t) => Ok(self.set_window_end(t, around)),
            BufferCall::Remove(Moment::At(start), end) => Ok(self.remove(start, end, around)),
            BufferCall::Append(Some(bytes)) => self.append(bytes, around),
            BufferCall::Abort => self.abort(around),
            BufferCall::ChangeType(answer) => resets::change_type(
                self.alloc,
                &mut self.stream,
                &mut self.media,
                &self.running,
                answer,
                around,
            ),
            BufferCall::SetOffset(Moment::Nan | Moment::Infinite)
            | BufferCall::SetWindowStart(Moment::Nan | Moment::Infinite)
            | BufferCall::Remove(Moment::Nan | Moment::Infinite, _) => {
                Ok(Reply::refused(Name::TypeError, false, &around.duration))
            }
            BufferCall::Append(None) => {
                Ok(Reply::refused(Name::NoSuchBytes, false, &around.duration))
            }
        }
    }

    /// The name by which [`call`](Self::call) would be refused before anything comes of it, if it
    /// would. For an append it does not look at the quota, since coded frames are evicted before that.
    /// For a mode or an offset within a media segment it tells a name only where the source is not
    /// ended, since an ended source is opened again first. It takes no memory.
    pub fn refusal_of(&self, call: &BufferCall, around: &BufferContext) -> Option<Name>
        ensures { IsRefusal (call_at around.now call.now) (surroundings around.now) self.now
            result }
    {
        match *call {
            BufferCall::SetMode(mode) => {
                settings_calls::mode_refusal(&self.stream, &self.media, &self.running, mode, around)
            }
            BufferCall::SetOffset(Moment::At(_)) => {
                settings_calls::offset_refusal(&self.stream, &self.media, &self.running, around)
            }
            BufferCall::SetWindowStart(Moment::At(t)) => {
                settings_calls::window_start_refusal(&self.media, &self.running, t)
            }
            BufferCall::SetWindowEnd(t) => {
                settings_calls::window_end_refusal(&self.media, &self.running, &t)
            }
            BufferCall::Remove(Moment::At(start), end) => {
                removal::remove_refusal(&self.running, start, &end, around)
            }
            BufferCall::Append(Some(_)) => appending::append_refusal(&self.running, around),
            BufferCall::Abort => resets::abort_refusal(&self.running, around),
            BufferCall::ChangeType(answer) => resets::change_type_refusal(&self.running, answer),
            BufferCall::SetOffset(Moment::Nan | Moment::Infinite)
            | BufferCall::SetWindowStart(Moment::Nan | Moment::Infinite)
            | BufferCall::Remove(Moment::Nan | Moment::Infinite, _) => Some(Name::TypeError),
            BufferCall::Append(None) => Some(Name::NoSuchBytes),
        }
    }

    /// How often a call changes the duration at most: a reset of the parser once for each coded
    /// frame that is ready, of which there are at most `2^20`.
    pub fn most_changes(&self, call: &BufferCall) -> usize
        ensures most { (a : BufferContext) → result ≡ most_changes (call_at a call.now) self.now }
        ensures few { result ≤ 2 ^ 20 }
    {
        match call {
            BufferCall::Abort | BufferCall::ChangeType(_) => self.ready_frames(),
            BufferCall::SetMode(_)
            | BufferCall::SetOffset(_)
            | BufferCall::SetWindowStart(_)
            | BufferCall::SetWindowEnd(_)
            | BufferCall::Remove(_, _)
            | BufferCall::Append(_) => 0,
        }
    }

    /// Ends running work, as when the buffer is removed from the list of source buffers. It tells
    /// the events that are fired at the buffer.
    pub fn end_work(&mut self, around: &BufferContext) -> Reply
        ensures { IsDone (end_work_result (surroundings around.now)) 0 around.now.duration self.old
            result self.new }
    {
        let events = resets::abort_events(self.running.is_updating());
        self.running = Running::Nothing;
        event_reply(false, &around.duration, events)
    }

    /// One step of the work that runs: the next item of an append or its end, or the whole of a
    /// removal. Where it answers `Did`, it has put its reply into `reply`; otherwise `reply` stays as it
    /// was. The reply is no part of the result, since most steps make none, and every result would be
    /// as large as one. It takes its memory first; an `Err` changes nothing.
    pub fn turn(&mut self, around: &BufferContext, reply: &mut Reply) -> Result<Turned, OutOfMemory>
        ensures turned { IsTurnIfOk around.now.duration reply.new self.old result self.new
            (turn_result (surroundings around.now)) }
        ensures idle { IfOk result
            (λ turned. IsIdle (reply_of around.now.duration reply.new turned) self.old self.new) }
        ensures fewer { IfOk result
            (λ turned. IsFewer (reply_of around.now.duration reply.new turned) self.old self.new) }
        ensures changes { IfOk result
            (λ turned. changes_of (reply_of around.now.duration reply.new turned) ≤ 1) }
        ensures within_duration { IfOk result
            (λ turned. IfSome (reply_of around.now.duration reply.new turned)
            (λ reply. IsStillWithin around.now.duration self.old.media reply self.new.media)) }
        ensures no_fall { IfOk result
            (λ turned. IfSome (reply_of around.now.duration reply.new turned)
            (λ reply. IsNotAfter around.now.duration reply.duration)) }
        ensures ranges { IfOk result
            (λ turned. IfSome (reply_of around.now.duration reply.new turned)
            (λ reply. HasRangesAfterInit self.old.media reply self.new.media)) }
        ensures kept { IsReplyKeptUnlessDid result reply.old reply.new }
        ensures err { OnErr result (self.new ≡ self.old) }
    {
        match &self.running {
            Running::Nothing => Ok(Turned::Idle),
            Running::Append => {
                // that the stream stands for some string is used where a segment is received
                self.stream.stands();
                turns::append_turn(
                    &mut self.stream,
                    &mut self.media,
                    &mut self.running,
                    around,
                    reply,
                )
            }
            Running::Removal { start, end } => {
                let (start, end) = (*start, *end);
                *reply = turns::removal_turn(
                    &mut self.media,
                    &mut self.running,
                    start,
                    end,
                    around,
                );
                Ok(Turned::Did)
            }
        }
    }

    /// What is buffered (Media Source Extensions, 3.1, `buffered`), where the source is ended or
    /// not.
    pub fn buffered(&self, ended: bool) -> Result<Ranges, OutOfMemory>
        ensures { IfOk result (λ ranges. ranges.spans ≡ buffered_of ended self.now.media) }
    {
        self.media.buffered(ended)
    }

    /// The buffered range with `start <= t` and `t <= end`, where the source is ended or not;
    /// `None` exactly where there is none. It takes no memory.
    pub fn span_holding(&self, t: Ticks, ended: bool) -> Option<Span>
        ensures { result ≡ find (reaches t) (buffered_of ended self.now.media) }
    {
        self.media.span_holding(t, ended)
    }

    /// Whether there is a buffered range with `start <= t` and `t <= end`, where the source is ended
    /// or not, and `until <= end`. It takes no memory.
    pub fn is_buffered_up_to(&self, t: Ticks, until: Ticks, ended: bool) -> bool
        ensures { result ≡ is_buffered_up_to t until (buffered_of ended self.now.media) }
    {
        self.media.is_buffered_up_to(t, until, ended)
    }

    /// The first buffered range, where the source is ended or not; `None` exactly where there is
    /// none. It takes no memory.
    pub fn first_span(&self, ended: bool) -> Option<Span>
        ensures { result ≡ first_of (buffered_of ended self.now.media) }
    {
        self.media.first_span(ended)
    }

    /// The last buffered range, where the source is ended or not; `None` exactly where there is
    /// none. It takes no memory.
    pub fn last_span(&self, ended: bool) -> Option<Span>
        ensures { result ≡ last_of (buffered_of ended self.now.media) }
    {
        self.media.last_span(ended)
    }

    /// How frames are placed: the mode, whether timestamps are generated, the offset and the append
    /// window.
    pub fn settings(&self) -> Settings
        ensures settings { result ≡ self.now.media.settings }
        ensures window_start { pos 0 ≤ℤ result.window_start }
        ensures window_end { result.window_end ≢ Moment.Nan }
    {
        self.media.settings()
    }

    /// Whether an append runs.
    pub fn is_appending(&self) -> bool
        ensures { result ≡ is_appending self.now.running }
    {
        self.running.is_appending()
    }

    /// Whether a removal runs.
    pub fn is_removing(&self) -> bool
        ensures { result ≡ is_removing self.now.running }
    {
        self.running.is_removing()
    }

    /// Whether an append or a removal runs.
    pub fn updating(&self) -> bool
        ensures { result ≡ is_updating self.now.running }
    {
        self.running.is_updating()
    }

    /// Whether the first initialization segment was received.
    pub fn has_init(&self) -> bool
        ensures { result ≡ not (is_awaiting_first self.now.media) }
    {
        !self.media.is_awaiting_first()
    }

    /// Where the segment parser loop is (Media Source Extensions, append state).
    pub fn phase(&self) -> Phase
        ensures { (f : Feed) (c : Content) → Stands self.now f c → result ≡ phase_in f }
    {
        self.stream.phase()
    }

    /// How many of the next items are coded frames, up to the first that is none: at most `2^20`.
    pub fn ready_frames(&self) -> usize
        ensures value { result ≡ ready_of self.now.stream }
        ensures ready { (f : Feed) (c : Content) → Stands self.now f c
            → result ≡ length (ready_in f) }
        ensures few { result ≤ 2 ^ 20 }
    {
        self.stream.ready_frames()
    }

    /// How many bytes of the string are held in memory.
    pub fn held_len(&self) -> usize
        ensures { (f : Feed) (c : Content) → Stands self.now f c
            → result ≡ length (held_at f.reading) }
    {
        self.stream.held_len()
    }

    /// How many bytes the stored frames have.
    pub fn used(&self) -> u64
        ensures value { result ≡ used_in self.now.media }
        ensures small { result < 2 ^ 62 }
    {
        self.media.used()
    }

    /// The greatest presentation timestamp of all tracks; `None` exactly where no frame is stored.
    pub fn highest_start(&self) -> Option<Ticks>
        ensures { result ≡ highest_start_in self.now.media }
    {
        self.media.highest_start()
    }

    /// The greatest frame end timestamp of all tracks; `None` exactly where no frame is stored.
    pub fn highest_end(&self) -> Option<Ticks>
        ensures { result ≡ highest_end_in self.now.media }
    {
        self.media.highest_end()
    }

    /// The tracks with their track buffers, in order of the first initialization segment.
    pub fn tracks(&self) -> &Tracks<S>
        ensures { states_of S.frames result.now.items ≡ self.now.media.tracks }
    {
        self.media.tracks()
    }

    /// Each track buffer is sound: each frame that it holds is a random access point, or the frame
    /// received just before it is held too. And the bytes of all can be counted, the gap is not
    /// negative, and the buffer stands for some string. It does nothing when it runs.
    pub fn sound(&self)
        ensures sound_and_countable { AreSoundAndCountable self.now.media.tracks }
        ensures sound { AllByRecursion IsSound self.now.media.tracks }
        ensures gap_from_zero { pos 0 ≤ℤ self.now.media.gap }
        ensures stands { HasReading self.now.stream }
    {
        // The proof reads off these that the stream stands for some string, and that the tracks are sound.
        self.stream.stands();
        self.media.sound();
    }

    /// What the closing lines show of the buffer, where the source is ended or not.
    pub fn view(&self, number: u32, ended: bool) -> Result<BufferView, OutOfMemory>
        ensures { (f : Feed) (c : Content) → Stands self.now f c
            → IfOk result (λ view. view ≡ buffer_view number ended f c) }
    {
        let ranges = self.media.buffered(ended)?;
        let tracks = self.media.track_views()?;
        Ok(BufferView {
            number,
            phase: self.stream.phase(),
            held: self.stream.held_len() as u64,
            used: self.media.used(),
            ranges: TimeRanges::new(ranges),
            tracks,
        })
    }

    /// What a page reads of the buffer, where the source is ended or not, and the buffer is active or not.
    pub fn attributes(
        &self,
        number: u32,
        ended: bool,
        active: bool,
    ) -> Result<BufferAttributes, OutOfMemory>
        ensures { (f : Feed) (c : Content) → Stands self.now f c
            → IfOk result (λ found. found ≡ buffer_attributes number ended active f c) }
    {
        let view = self.view(number, ended)?;
        let settings = self.media.settings();
        Ok(BufferAttributes {
            updating: self.running.is_updating(),
            active,
            mode: mode_by(settings.sequence),
            timestamp_offset: settings.offset,
            append_window_start: settings.window_start,
            append_window_end: settings.window_end,
            view,
        })
    }
}

/// The append mode, which is "sequence" or not.
fn mode_by(sequence: bool) -> Mode
    ensures { result ≡ mode_by sequence }
{
    if sequence {
        Mode::Sequence
    } else {
        Mode::Segments
    }
}
