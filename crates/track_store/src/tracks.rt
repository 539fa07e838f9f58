ghost use Rattle.std.specs.Prelude.{◌≡◌, ◌+◌, ◌≤◌, [], ◌∷◌, ◌++◌, length, OnOk, OnErr, slice_get, option_copied};
ghost use Rattle.std.specs.Option.{option_copied_mut};
ghost use Rattle.std.specs.Borrow.{sem};

use crate::FrameStore;
use mse_base::{Kind, Moment, OutOfMemory, Ticks};
use std::alloc::Global;
use std::marker::Model;

/// What coded frame processing remembers of a track buffer (Media Source Extensions, "track
/// buffers"). The first four are set and unset together.
#[derive(Clone, Copy, Debug, PartialEq, Eq)]
pub struct Marks {
    /// The last decode timestamp.
    pub last_decode: Option<Ticks>,
    /// The last frame duration.
    pub last_duration: Option<Ticks>,
    /// The highest end timestamp.
    pub highest_end: Option<Ticks>,
    /// The serial of the first frame of the group: of those that were stored since the last
    /// discontinuity.
    pub group_first: Option<u64>,
    /// The need random access point flag.
    pub need_sync: bool,
    /// How many frames were processed, dropped ones included.
    pub received: u64,
}

impl Marks {
    ghost use Rattle.track_store.specs.State.{new_marks, unset_marks, marks_needing_sync};

    /// The marks of a track that has received nothing.
    pub fn new() -> Marks
        ensures { result ≡ new_marks }
    {
        Marks {
            last_decode: None,
            last_duration: None,
            highest_end: None,
            group_first: None,
            need_sync: true,
            received: 0,
        }
    }

    /// The marks after a discontinuity: all unset, and a random access point is needed.
    pub fn unset_marks(&self) -> Marks
        ensures { result ≡ unset_marks self.now }
    {
        Marks {
            received: self.received,
            ..Marks::new()
        }
    }

    /// The same marks where a random access point is needed.
    pub fn marks_needing_sync(&self) -> Marks
        ensures { result ≡ marks_needing_sync self.now }
    {
        Marks {
            need_sync: true,
            ..*self
        }
    }
}

/// A track of a source buffer, with its track buffer.
#[derive(Drop)]
pub struct Track<S: FrameStore> {
    /// Its number in the file.
    pub id: u32,
    /// What it carries.
    pub kind: Kind,
    /// The four-character code of its coding.
    pub codec: [u8; 4],
    /// The frames of its track buffer.
    pub store: S,
    /// The variables of its track buffer.
    pub marks: Marks,
}

/// How a source buffer places its frames.
#[derive(Clone, Copy, Debug, PartialEq, Eq)]
pub struct Settings {
    /// Whether the append mode is "sequence", and not "segments".
    pub sequence: bool,
    /// The generate timestamps flag.
    pub generate: bool,
    /// The timestamp offset.
    pub offset: Ticks,
    /// The append window start.
    pub window_start: Ticks,
    /// The append window end.
    pub window_end: Moment,
    /// The group start timestamp.
    pub group_start: Option<Ticks>,
    /// The group end timestamp.
    pub group_end: Ticks,
}

/// The tracks of a source buffer, in order of the file, and room for more.
#[derive(Drop)]
pub struct Tracks<S: FrameStore> {
    items: Vec<Track<S>>,
}

impl<S: FrameStore> Model for Tracks<S> {
    ghost use Rattle.std.specs.Prelude.{◌-◌, vec_capacity, vec_len};
    ghost use Rattle.track_store.specs.Room.{Room};
    ghost use Rattle.track_store.specs.declared.tracks.Track.{Track};

    ghost Value = { Room (Track S) };

    ghost view = { λ t. record {
      items = t.items.items;
      spare = vec_capacity t.items - vec_len t.items;
    } };
}

impl<S: FrameStore> Tracks<S> {
    ghost use Rattle.std.specs.Prelude.{◌<◌, ◌^◌, IfSome};
    ghost use Rattle.track_store.specs.Frames.{bytes_of};
    ghost use Rattle.track_store.specs.Kept.{bytes_in};
    ghost use Rattle.track_store.specs.State.{states_of};
    ghost use Rattle.track_store.specs.TrackLends.{lends_track};

    /// No tracks.
    pub fn new(alloc: Global) -> Self
        ensures { result.items ≡ [] }
    {
        Tracks {
            items: Vec::new(alloc),
        }
    }

    /// Makes room for `n` more tracks. An `Err` leaves the tracks and the room.
    pub fn reserve(&mut self, n: usize) -> Result<(), OutOfMemory>
        ensures items { self.new.items ≡ self.old.items }
        ensures spare { OnOk result (n ≤ self.new.spare) }
        ensures no_room_lost { self.old.spare ≤ self.new.spare }
        ensures same_room { OnErr result (self.new.spare ≡ self.old.spare) }
    {
        self.items.reserve(n)?;
        Ok(())
    }

    /// Puts a track last.
    pub fn add(&mut self, track: Track<S>)
        requires { 1 ≤ self.old.spare }
        ensures items { self.new.items ≡ self.old.items ++ track ∷ [] }
        ensures spare { self.old.spare ≤ self.new.spare + 1 }
    {
        self.items.push_reserved(track);
    }

    /// How many tracks there are.
    pub fn len(&self) -> usize
        ensures { result ≡ length self.now.items }
    {
        self.items.len()
    }

    /// The track at a place; `None` exactly past the end.
    pub fn get(&self, i: usize) -> Option<&Track<S>>
        ensures { option_copied result ≡ slice_get self.now.items i }
    {
        self.items.get(i)
    }

    /// The bytes that are stored in the track buffer at a place, where there is one.
    fn used_at(&self, i: usize) -> u64
        ensures value { IfSome (slice_get (states_of S.frames self.now.items) i) (λ t. result
            ≡ bytes_of t.frames) }
        ensures small { result < 2 ^ 62 }
    {
        match self.items.get(i) {
            Some(track) => track.store.used(),
            None => 0,
        }
    }

    /// The bytes that are stored in all track buffers.
    pub fn used(&self) -> u64
        requires { bytes_in (states_of S.frames self.now.items) < 2 ^ 62 }
        ensures { result ≡ bytes_in (states_of S.frames self.now.items) }
    {
        let mut total = 0;
        for i in 0..self.len() {
            total += self.used_at(i);
        }
        total
    }

    /// The track at a place, for writing; `None` exactly past the end.
    pub fn get_mut(&mut self, i: usize) -> Option<&mut Track<S>>
        ensures* writes_back { sem 𝓛 (lends_track S.row S.FrameStore self.entry i result) }
        ensures value { option_copied_mut result ≡ slice_get self.old.items i }
    {
        self.items.get_mut(i)
    }
}
