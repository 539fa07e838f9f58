/// A sample of a track of a classic file.
#[derive(Clone, Copy, Debug, PartialEq, Eq)]
pub struct Sample {
    /// When it is decoded, in the media's timescale: the sum of the durations of the samples before it.
    pub decode: u64,
    /// Where its first byte stands in the file.
    pub place: u64,
    /// How many bytes it has.
    pub size: u32,
    /// How long it lasts, in the media's timescale.
    pub duration: u32,
    /// Its composition time minus its decode time, in the media's timescale.
    pub offset: i32,
    /// Whether it is a sync sample: a random access point.
    pub sync: bool,
}
