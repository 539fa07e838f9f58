ghost use Rattle.std.specs.Prelude.{◌≡◌, ◌≢◌, ◌≤◌, ◌<◌, ◌^◌, ◌+◌, ℤ, pos, ◌≤ℤ◌, true, false, find, length, None, IfOk, OnOk};
ghost use Rattle.std.specs.List.{AllByRecursion};
ghost use Rattle.mse_base.specs.declared.ticks.Moment.{Moment};
ghost use Rattle.mse_base.specs.Moments.{IsNotAfter};
ghost use Rattle.mse_base.specs.Spans.{first_of, last_of, reaches};
ghost use Rattle.track_store.specs.Kept.{AreSoundAndCountable};
ghost use Rattle.track_store.specs.Sound.{IsSound};
ghost use Rattle.track_store.specs.State.{states_of};
ghost use Rattle.track_buffers.specs.Effects.{media_result, source_effect};
ghost use Rattle.track_buffers.specs.Media.{is_awaiting_first, AreEndedWithin};
ghost use Rattle.track_buffers.specs.Settings.{new_media, with_mode, with_offset, with_window_start, with_window_end, with_whole_window, with_container};
ghost use Rattle.track_buffers.specs.Initialized.{media_tracks, init_fault, init_result};
ghost use Rattle.track_buffers.specs.Frames.{frame_result, flush_result, media_after_reset, media_after_removal, media_after_eviction, used_in, highest_start_in, highest_end_in};
ghost use Rattle.track_buffers.specs.Buffered.{buffered_of, is_buffered_up_to, IsBuffered};
ghost use Rattle.track_buffers.specs.Views.{track_views_of};

use crate::bounds::{first_span, last_span};
use crate::buffered::buffered_of;
use crate::effects::{MediaEffect, MediaFault, SourceEffect, effect_of_both, no_effect};
use crate::frames::{TrackPlace, place_from, process_at, unset_all};
use crate::incoming::{init_fault, segment_effect, take_tracks};
use crate::looks::{highest_end, highest_start, track_views, used_at};
use crate::rooms::{Ahead, reserve_ahead};
use crate::watch::{
    Watch, is_buffered_up_to, is_watched, own_span, watch_after, watch_of, watched_span,
};
use eviction::evict;
use mse_base::{CodedFrame, Moment, OutOfMemory, Presentation, Ranges, Span, Ticks};
use mse_calls::TrackViews;
use range_removal::remove_frames;
use std::alloc::Global;
use std::marker::Model;
use track_store::{FrameStore, Settings, Tracks};

/// What is known of the track buffers without a look at each of them.
#[derive(Clone, Copy, Debug)]
pub(crate) struct Known {
    pub(crate) ahead: Ahead,
    pub(crate) watch: Option<Watch>,
    /// The track of the last frame.
    pub(crate) last: Option<TrackPlace>,
    /// The bytes of all stored frames.
    pub(crate) used: u64,
}

impl Known {
    /// What is known once the tracks have changed: how many bytes their frames have.
    fn after_change(used: u64) -> Known
        ensures { result ≡ record {
          ahead = record { place = 0; own = 0; others = 0 };
          watch = None;
          last = None;
          used = used;
        } }
    {
        Known {
            ahead: Ahead::NONE,
            watch: None,
            last: None,
            used,
        }
    }
}

/// The track buffers of a source buffer, and how its frames are placed.
///
/// Contracts see the media, for how many more frames each store has room, and for how many more
/// tracks there is room. Only the calls that answer a `Result` take memory. Each track buffer is
/// always sound: each frame held is a random access point, or the frame received just before it
/// is held too.
#[derive(Drop)]
pub struct TrackBuffers<S: FrameStore> {
    alloc: Global,
    tracks: Tracks<S>,
    settings: Settings,
    pending: bool,
    gap: Ticks,
    known: Known,
}

impl<S: FrameStore> Model for TrackBuffers<S> {
    ghost use Rattle.std.specs.Prelude.{◌≡◌, IfSome};
    ghost use Rattle.track_store.specs.Kept.{bytes_in, gaps_of};
    ghost use Rattle.track_store.specs.State.{states_of};
    ghost use Rattle.track_buffers.specs.Ahead.{HasRoomAhead};
    ghost use Rattle.track_buffers.specs.Buffered.{ranges_in};
    ghost use Rattle.track_buffers.specs.Media.{MediaView, media_of, room_of, HasMediaInvariants};
    ghost use Rattle.track_buffers.specs.Frames.{IsTrackPlace};
    ghost use Rattle.track_buffers.specs.Watching.{IsWatchOf};

    ghost Value = { MediaView };

    ghost view = { λ b. record {
      media = media_of S.frames b.tracks.items b.settings b.pending b.gap;
      room = room_of S.spare b.tracks.items;
      places = b.tracks.spare;
    } };

    ghost invariant = { λ b. HasMediaInvariants (states_of S.frames b.tracks.items)
        (gaps_of S.gap b.tracks.items) b.settings b.gap
        × HasRoomAhead S.spare b.known.ahead b.tracks.items
        × IfSome b.known.watch (λ w. IsWatchOf w (ranges_in S.frames S.gap b.tracks.items))
        × IfSome b.known.last (λ l. IsTrackPlace l (states_of S.frames b.tracks.items))
        × (b.known.used ≡ bytes_in (states_of S.frames b.tracks.items)) };
}

impl<S: FrameStore> TrackBuffers<S> {
    /// No tracks. In mode "sequence" where timestamps are generated, else in mode "segments".
    /// Ranges of a track join across gaps of at most `gap` ticks.
    pub fn new(alloc: Global, gap: Ticks, generate: bool) -> Self
        requires { pos 0 ≤ℤ gap }
        ensures { result.media ≡ new_media gap generate }
    {
        TrackBuffers {
            alloc,
            tracks: Tracks::new(alloc),
            settings: Settings {
                sequence: generate,
                generate,
                offset: Ticks::zero(),
                window_start: Ticks::zero(),
                window_end: Moment::Infinite,
                group_start: None,
                group_end: Ticks::zero(),
            },
            pending: false,
            gap,
            known: Known::after_change(0),
        }
    }

    /// Makes room for `n` more frames in each track buffer. An `Err` leaves the media; some track
    /// buffers may have more room than before, and none has less.
    pub fn reserve_frames(&mut self, n: usize) -> Result<(), OutOfMemory>
        ensures media { self.new.media ≡ self.old.media }
        ensures spare { OnOk result (n ≤ self.new.room) }
        ensures no_room_lost { self.old.room ≤ self.new.room }
        ensures places { self.new.places ≡ self.old.places }
    {
        if n <= self.known.ahead.least() {
            return Ok(());
        }
        self.known.ahead = reserve_ahead(&mut self.tracks, self.known.ahead, n)?;
        Ok(())
    }

    /// Makes room for `n` more tracks. An `Err` leaves the media, and places for at least as many
    /// tracks as before.
    pub fn reserve_tracks(&mut self, n: usize) -> Result<(), OutOfMemory>
        ensures media { self.new.media ≡ self.old.media }
        ensures places { OnOk result (n ≤ self.new.places) }
        ensures room { self.new.room ≡ self.old.room }
        ensures no_places_lost { self.old.places ≤ self.new.places }
    {
        self.tracks.reserve(n)
    }

    /// Whether no initialization segment was received yet.
    pub fn is_awaiting_first(&self) -> bool
        ensures { result ≡ is_awaiting_first self.now.media }
    {
        self.tracks.len() == 0
    }

    /// The fault by which an initialization segment is refused, if it is (Media Source Extensions,
    /// 3.5.7).
    pub fn init_fault(&self, presentation: &Presentation) -> Option<MediaFault>
        ensures { result ≡ init_fault presentation.now self.now.media }
    {
        init_fault(&self.tracks, self.pending, presentation)
    }

    /// An initialization segment is received (Media Source Extensions, 3.5.7). `duration` is that
    /// of the media source, in ticks, NaN where it has none. One that is refused leaves the track
    /// buffers, and tells of the duration alone.
    ///
    /// The first one that is received makes the track buffers, which takes at most a place for each
    /// of its media tracks. For how many frames their new stores have room is not said:
    /// [`reserve_frames`](Self::reserve_frames) makes room. Each other one leaves room and places.
    pub fn receive(&mut self, presentation: &Presentation, duration: Moment) -> MediaEffect
        requires places { init_fault presentation.now self.old.media ≡ None
            → is_awaiting_first self.old.media ≡ true
            → length (media_tracks presentation.now) ≤ self.old.places }
        ensures result { media_result result self.new.media
            ≡ init_result presentation.now self.old.media duration }
        ensures changes { (source_effect result).duration_changes ≤ 1 }
        ensures within_duration { AreEndedWithin duration self.old.media.tracks
            → AreEndedWithin (source_effect result).duration self.new.media.tracks }
        ensures no_fall { IsNotAfter duration (source_effect result).duration }
        ensures room { (source_effect result).activated ≡ false
            → self.new.room ≡ self.old.room }
        ensures places { (source_effect result).activated ≡ false
            → self.new.places ≡ self.old.places }
        ensures places_taken { self.old.places
            ≤ self.new.places + length (media_tracks presentation.now) }
    {
        let effect = segment_effect(presentation, &duration);
        match init_fault(&self.tracks, self.pending, presentation) {
            Some(fault) => MediaEffect::AppendError(fault, effect),
            None => {
                let is_first = self.tracks.len() == 0;
                let news = presentation.tracks.as_slice();
                take_tracks(&mut self.tracks, self.alloc, self.gap, news);
                self.known = Known::after_change(self.tracks.used());
                self.pending = false;
                MediaEffect::Done(SourceEffect {
                    duration_changes: effect.duration_changes,
                    duration: effect.duration,
                    activated: is_first,
                    received_init: true,
                })
            }
        }
    }

    /// A coded frame of the byte stream is processed (Media Source Extensions, 3.5.8). `duration`
    /// is that of the media source, NaN where it has none. A frame of no track buffer is passed
    /// over.
    pub fn process(&mut self, frame: CodedFrame, duration: Moment) -> MediaEffect
        requires room { 1 ≤ self.old.room }
        requires dur_not_negative { pos 0 ≤ℤ frame.dur }
        ensures result { media_result result self.new.media
            ≡ frame_result frame self.old.media duration }
        ensures changes { (source_effect result).duration_changes ≤ 1 }
        ensures within_duration { AreEndedWithin duration self.old.media.tracks
            → AreEndedWithin (source_effect result).duration self.new.media.tracks }
        ensures no_fall { IsNotAfter duration (source_effect result).duration }
        ensures no_init { (source_effect result).received_init ≡ false }
        ensures room { self.old.room ≤ self.new.room + 1 }
        ensures places { self.new.places ≡ self.old.places }
    {
        let id = frame.track_id;
        match place_from(&self.tracks, &self.known.last, id) {
            Some(i) => {
                let old = own_span(&self.tracks, i, &self.known.watch);
                let stored = used_at(&self.tracks, i);
                self.known.ahead = self.known.ahead.after_frame(i);
                let (tracks, settings) = (&mut self.tracks, &mut self.settings);
                let effect = process_at(tracks, settings, i, frame, &duration, self.known.used);
                self.known.used = self.known.used - stored + used_at(&self.tracks, i);
                watch_after(&self.tracks, i, &mut self.known.watch, &old);
                self.known.last = Some(TrackPlace { id, place: i });
                effect
            }
            None => MediaEffect::Done(no_effect(&duration)),
        }
    }

    /// Keeps the buffered range that holds a time known from here on while frames come, so that
    /// [`span_holding`](Self::span_holding) of this time need not look at each track. It helps where
    /// there are more than two tracks, and changes nothing that can be asked.
    pub fn watch(&mut self, t: Ticks)
        ensures { self.new ≡ self.old }
    {
        if self.tracks.len() > 2 && !is_watched(&self.known.watch, t) {
            self.known.watch = Some(watch_of(&self.tracks, t));
        }
    }

    /// Frames that are ready are processed one after the other (Media Source Extensions, 3.5.2,
    /// step 1). `duration` is that of the media source, NaN where it has none. A frame whose times
    /// are out of range, or that passes a count, ends this, and nothing else comes of it.
    pub fn flush(&mut self, frames: Vec<CodedFrame>, duration: Moment) -> SourceEffect
        requires room { length frames.items ≤ self.old.room }
        requires dur_not_negative { AllByRecursion (λ f. pos 0 ≤ℤ f.dur) frames.items }
        ensures result { flush_result frames.items self.old.media duration
            ≡ record { media = self.new.media; effect = result } }
        ensures changes { result.duration_changes ≤ length frames.items }
        ensures within_duration { AreEndedWithin duration self.old.media.tracks
            → AreEndedWithin result.duration self.new.media.tracks }
        ensures no_fall { IsNotAfter duration result.duration }
        ensures no_init { result.received_init ≡ false }
        ensures room { self.old.room ≤ self.new.room + length frames.items }
        ensures places { self.new.places ≡ self.old.places }
    {
        let mut effect = no_effect(&duration);
        for frame in frames {
            match self.process(frame, effect.duration) {
                MediaEffect::Done(more) => effect = effect_of_both(&effect, &more),
                MediaEffect::AppendError(_, _) => return effect,
            }
        }
        effect
    }

    /// Resets the parser behind the frames that are ready (Media Source Extensions, 3.5.2).
    pub fn reset_parser(&mut self)
        ensures media { self.new.media ≡ media_after_reset self.old.media }
        ensures within_duration { (duration : Moment)
            → AreEndedWithin duration self.old.media.tracks
            → AreEndedWithin duration self.new.media.tracks }
        ensures no_room_lost { self.old.room ≤ self.new.room }
        ensures places { self.new.places ≡ self.old.places }
    {
        unset_all(&mut self.tracks);
        self.known = Known::after_change(self.tracks.used());
        if self.settings.sequence {
            self.settings.group_start = Some(self.settings.group_end);
        }
    }

    /// Removes from each track the frames that begin at or after `start` and before its first
    /// random access point at or after `end`, or before `duration` where it has none, and the
    /// frames that need them (Media Source Extensions, 3.5.9). Times are in ticks; `duration` is
    /// that of the media source, NaN where it has none.
    pub fn remove(&mut self, start: Ticks, end: Moment, duration: Moment)
        ensures media { self.new.media ≡ media_after_removal start end duration self.old.media }
        ensures within_duration { (moment : Moment) → AreEndedWithin moment self.old.media.tracks
            → AreEndedWithin moment self.new.media.tracks }
        ensures no_room_lost { self.old.room ≤ self.new.room }
        ensures places { self.new.places ≡ self.old.places }
    {
        remove_frames(&mut self.tracks, start, end, duration);
        self.known = Known::after_change(self.tracks.used());
    }

    /// Makes room for `new_bytes` bytes, where the stored frames have `quota` bytes or more (Media
    /// Source Extensions, 3.5.10). First go ranges before `position`, then those after it.
    /// `position` is the playback position and `duration` that of the media source, in ticks, NaN
    /// where it has none. There may still be no room for the bytes after it.
    pub fn evict(&mut self, position: Ticks, new_bytes: u64, quota: u64, duration: Moment)
        ensures media { self.new.media
            ≡ media_after_eviction position new_bytes quota duration self.old.media }
        ensures within_duration { (moment : Moment) → AreEndedWithin moment self.old.media.tracks
            → AreEndedWithin moment self.new.media.tracks }
        ensures no_room_lost { self.old.room ≤ self.new.room }
        ensures places { self.new.places ≡ self.old.places }
    {
        evict(&mut self.tracks, position, new_bytes, quota, duration);
        self.known = Known::after_change(self.tracks.used());
    }

    /// How frames are placed.
    pub fn settings(&self) -> Settings
        ensures settings { result ≡ self.now.media.settings }
        ensures window_start { pos 0 ≤ℤ result.window_start }
        ensures window_end { result.window_end ≢ Moment.Nan }
    {
        self.settings
    }

    /// Sets the mode, "sequence" or "segments". With "sequence" the group start timestamp becomes
    /// the group end timestamp.
    pub fn set_mode(&mut self, sequence: bool)
        ensures media { self.new.media ≡ with_mode sequence self.old.media }
        ensures room { self.new.room ≡ self.old.room }
        ensures places { self.new.places ≡ self.old.places }
    {
        self.settings.sequence = sequence;
        if sequence {
            self.settings.group_start = Some(self.settings.group_end);
        }
    }

    /// Sets the timestamp offset, in ticks. In mode "sequence" the group start timestamp becomes it
    /// too.
    pub fn set_offset(&mut self, t: Ticks)
        ensures media { self.new.media ≡ with_offset t self.old.media }
        ensures room { self.new.room ≡ self.old.room }
        ensures places { self.new.places ≡ self.old.places }
    {
        self.settings.offset = t;
        if self.settings.sequence {
            self.settings.group_start = Some(t);
        }
    }

    /// Sets the start of the append window, in ticks: a frame that begins before it is dropped.
    pub fn set_window_start(&mut self, t: Ticks)
        requires { pos 0 ≤ℤ t }
        ensures media { self.new.media ≡ with_window_start t self.old.media }
        ensures room { self.new.room ≡ self.old.room }
        ensures places { self.new.places ≡ self.old.places }
    {
        self.settings.window_start = t;
    }

    /// Sets the end of the append window, in ticks: a frame that ends after it is dropped.
    pub fn set_window_end(&mut self, t: Moment)
        requires { t ≢ Moment.Nan }
        ensures media { self.new.media ≡ with_window_end t self.old.media }
        ensures room { self.new.room ≡ self.old.room }
        ensures places { self.new.places ≡ self.old.places }
    {
        self.settings.window_end = t;
    }

    /// Sets the whole append window, from 0 on and without an end.
    pub fn reset_window(&mut self)
        ensures media { self.new.media ≡ with_whole_window self.old.media }
        ensures room { self.new.room ≡ self.old.room }
        ensures places { self.new.places ≡ self.old.places }
    {
        self.settings.window_start = Ticks::zero();
        self.settings.window_end = Moment::Infinite;
    }

    /// Changes the byte stream format: the next initialization segment may have other codecs, and
    /// where timestamps are generated the mode becomes "sequence".
    pub fn change_container(&mut self, generate: bool)
        ensures media { self.new.media ≡ with_container generate self.old.media }
        ensures room { self.new.room ≡ self.old.room }
        ensures places { self.new.places ≡ self.old.places }
    {
        self.pending = true;
        self.settings.generate = generate;
        if generate {
            self.settings.sequence = true;
            self.settings.group_start = Some(self.settings.group_end);
        }
    }

    /// The bytes of all stored frames.
    pub fn used(&self) -> u64
        ensures value { result ≡ used_in self.now.media }
        ensures small { result < 2 ^ 62 }
    {
        self.known.used
    }

    /// The greatest presentation timestamp, in ticks; `None` exactly where there is no frame.
    pub fn highest_start(&self) -> Option<Ticks>
        ensures { result ≡ highest_start_in self.now.media }
    {
        highest_start(&self.tracks)
    }

    /// The greatest frame end timestamp, in ticks; `None` exactly where there is no frame.
    pub fn highest_end(&self) -> Option<Ticks>
        ensures { result ≡ highest_end_in self.now.media }
    {
        highest_end(&self.tracks)
    }

    /// The track buffers, in order of the first initialization segment.
    pub fn tracks(&self) -> &Tracks<S>
        ensures states { states_of S.frames result.now.items ≡ self.now.media.tracks }
        ensures sound_and_countable { AreSoundAndCountable self.now.media.tracks }
    {
        &self.tracks
    }

    /// The buffered ranges: the ticks that all track buffers have. Where the source is ended, the
    /// last range of each lasts to the highest end of all.
    pub fn buffered(&self, ended: bool) -> Result<Ranges, OutOfMemory>
        ensures spans { IfOk result (λ r. r.spans ≡ buffered_of ended self.now.media) }
        ensures ticks { IfOk result (λ r. IsBuffered ended self.now.media r.spans) }
    {
        buffered_of(&self.tracks, self.alloc, ended)
    }

    /// The buffered range with `start <= t` and `t <= end`, as [`buffered`](Self::buffered) has it;
    /// `None` exactly where there is none. It takes no memory.
    pub fn span_holding(&self, t: Ticks, ended: bool) -> Option<Span>
        ensures { result ≡ find (reaches t) (buffered_of ended self.now.media) }
    {
        watched_span(&self.tracks, &self.known.watch, t, ended)
    }

    /// Whether there is a buffered range with `start <= t` and `t <= end`, as
    /// [`buffered`](Self::buffered) has it, and `until <= end`. It takes no memory.
    pub fn is_buffered_up_to(&self, t: Ticks, until: Ticks, ended: bool) -> bool
        ensures { result ≡ is_buffered_up_to t until (buffered_of ended self.now.media) }
    {
        is_buffered_up_to(&self.tracks, &self.known.watch, t, until, ended)
    }

    /// The first buffered range; `None` exactly where there is none. It takes no memory.
    pub fn first_span(&self, ended: bool) -> Option<Span>
        ensures { result ≡ first_of (buffered_of ended self.now.media) }
    {
        first_span(&self.tracks, ended)
    }

    /// The last buffered range; `None` exactly where there is none. It takes no memory.
    pub fn last_span(&self, ended: bool) -> Option<Span>
        ensures { result ≡ last_of (buffered_of ended self.now.media) }
    {
        last_span(&self.tracks, ended)
    }

    /// What the track buffers hold.
    pub fn track_views(&self) -> Result<TrackViews, OutOfMemory>
        ensures { IfOk result (λ v. v ≡ track_views_of self.now.media) }
    {
        track_views(&self.tracks, self.alloc)
    }

    /// Hands out what always holds; it does nothing. Each track buffer is sound, the bytes of all
    /// can be counted, the append window has a start that is not negative and an end, and the gap
    /// is not negative.
    pub fn sound(&self)
        ensures sound_and_countable { AreSoundAndCountable self.now.media.tracks }
        ensures sound { AllByRecursion IsSound self.now.media.tracks }
        ensures window_start { pos 0 ≤ℤ self.now.media.settings.window_start }
        ensures window_end { self.now.media.settings.window_end ≢ Moment.Nan }
        ensures gap_from_zero { pos 0 ≤ℤ self.now.media.gap }
    {
        // The proof reads off this what always holds of the fields.
        let _tracks = &self.tracks;
    }
}
