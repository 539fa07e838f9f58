ghost use Rattle.std.specs.Prelude.{◌≡◌, IfOk, find, option_copied};
ghost use Rattle.mse_base.specs.Moments.{is_media, is_video};
ghost use Rattle.mse_base.specs.Presentation.{has_id};

use crate::{Moment, OutOfMemory, Ticks};
use std::alloc::Global;
use std::marker::Model;

/// What a track carries.
#[derive(Clone, Copy, Debug, PartialEq, Eq)]
pub enum Kind {
    Video,
    Audio,
    Other,
}

impl Kind {
    /// Whether a buffer takes frames of a track of this kind.
    pub fn is_media(self) -> bool
        ensures { result ≡ is_media self }
    {
        match self {
            Kind::Video | Kind::Audio => true,
            Kind::Other => false,
        }
    }

    /// Whether it is video.
    pub fn is_video(self) -> bool
        ensures { result ≡ is_video self }
    {
        match self {
            Kind::Video => true,
            Kind::Audio | Kind::Other => false,
        }
    }
}

/// What an initialization segment tells of a track.
#[derive(Clone, Copy, Debug, PartialEq, Eq)]
pub struct TrackInfo {
    /// Its number in the file.
    pub id: u32,
    /// What it carries.
    pub kind: Kind,
    /// The four-character code of its coding.
    pub codec: [u8; 4],
    /// How many units of its media time make a second.
    pub scale: u32,
    /// The media time at which its presentation begins, from the edit list.
    pub media_shift: i64,
    /// How long the presentation waits before it, from an empty edit.
    pub empty_shift: Ticks,
    /// The duration of a sample that tells none, in media time.
    pub default_duration: u32,
    /// The size of a sample that tells none, in bytes.
    pub default_size: u32,
    /// The flags of a sample that tells none.
    pub default_flags: u32,
}

/// A list of tracks, in the order of the file.
#[derive(Debug, Drop)]
pub struct TrackList {
    alloc: Global,
    tracks: Vec<TrackInfo>,
}

impl Model for TrackList {
    ghost use Rattle.std.specs.Prelude.{List};
    ghost use Rattle.mse_base.specs.declared.track.TrackInfo.{TrackInfo};

    ghost Value = { List TrackInfo };

    ghost view = { λ l. l.tracks.items };
}

impl TrackList {
    /// The tracks of a vector, which it takes over.
    pub fn from_vec(alloc: Global, tracks: Vec<TrackInfo>) -> TrackList
        ensures { result ≡ tracks.items }
    {
        TrackList { alloc, tracks }
    }

    /// The vector of the tracks.
    pub fn into_vec(self) -> Vec<TrackInfo>
        ensures { result.items ≡ self }
    {
        self.tracks
    }

    /// The tracks as a slice.
    pub fn as_slice(&self) -> &[TrackInfo]
        ensures { result.now ≡ self.now }
    {
        self.tracks.as_slice()
    }

    /// The first track of a number; `None` exactly where there is none.
    pub fn find(&self, id: u32) -> Option<&TrackInfo>
        ensures { option_copied result ≡ find (has_id id) self.now }
    {
        self.tracks.iter().find(|track| track.id == id)
    }

    /// The same tracks again.
    pub fn copy(&self) -> Result<TrackList, OutOfMemory>
        ensures { IfOk result (λ l. l ≡ self.now) }
    {
        let tracks = Vec::from_slice(self.alloc, self.tracks.as_slice())?;
        Ok(TrackList {
            alloc: self.alloc,
            tracks,
        })
    }
}

/// What an initialization segment tells.
#[derive(Debug, Drop)]
pub struct Presentation {
    /// How many units of the movie's time make a second.
    pub scale: u32,
    /// How long it lasts; never `Moment::Nan`.
    pub duration: Moment,
    /// Its tracks.
    pub tracks: TrackList,
}

impl Presentation {
    /// The same presentation again.
    pub fn copy(&self) -> Result<Presentation, OutOfMemory>
        ensures { IfOk result (λ p. p ≡ self.now) }
    {
        let tracks = self.tracks.copy()?;
        Ok(Presentation {
            scale: self.scale,
            duration: self.duration,
            tracks,
        })
    }
}
