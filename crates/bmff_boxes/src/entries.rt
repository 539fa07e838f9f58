/// An entry of an edit list (ISO/IEC 14496-12, 8.6.6).
#[derive(Clone, Copy, Debug, PartialEq, Eq)]
pub struct EditEntry {
    /// How long the edit lasts, in the movie's timescale.
    pub duration: u64,
    /// Where in the media it starts, in the media's timescale; -1 for an empty edit.
    pub media_time: i64,
    /// The whole part of the rate at which the media are played.
    pub rate: i16,
    /// The fraction of that rate.
    pub fraction: i16,
}

/// A sample of a track run (ISO/IEC 14496-12, 8.8.8). Each field is `None` exactly where the run's flags
/// say that its samples have no such field.
#[derive(Clone, Copy, Debug, PartialEq, Eq)]
pub struct TrunSample {
    /// How long the sample lasts, in the media's timescale.
    pub duration: Option<u32>,
    /// How many bytes it has.
    pub size: Option<u32>,
    /// Its sample flags (8.8.3.1).
    pub flags: Option<u32>,
    /// Its composition time minus its decode time, in the media's timescale. In version 0 of the run it is
    /// 0 or more.
    pub offset: Option<i64>,
}
