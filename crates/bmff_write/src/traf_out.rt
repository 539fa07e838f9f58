use mse_base::{Bytes, OwnedList};

/// A sample of a track fragment to be written.
#[derive(Debug, Drop)]
pub struct SampleOut {
    /// How long it lasts, in the track's media time.
    pub duration: u32,
    /// Whether it is a sync sample: a random access point.
    pub sync: bool,
    /// Its presentation time minus its decode time, in the track's media time.
    pub offset: i32,
    /// Its bytes.
    pub payload: Bytes,
}

/// A track fragment to be written.
#[derive(Debug, Drop)]
pub struct TrafOut {
    /// The number of its track.
    pub id: u32,
    /// The decode time of its first sample, in the track's media time.
    pub decode: u64,
    /// Its samples, in order of decoding.
    pub samples: OwnedList<SampleOut>,
}
