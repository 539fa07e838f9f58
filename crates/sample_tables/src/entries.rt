use mse_base::OwnedList;

/// An entry of a decoding time to sample box (ISO/IEC 14496-12, 8.6.1.2): samples that last equally long.
#[derive(Clone, Copy)]
pub struct DurationRun {
    /// How many samples.
    pub count: u32,
    /// How long each of them lasts, in the media's timescale.
    pub duration: u32,
}

/// An entry of a composition time to sample box (8.6.1.3): samples with one composition offset.
#[derive(Clone, Copy)]
pub struct OffsetRun {
    /// How many samples.
    pub count: u32,
    /// Their composition time minus their decode time, in the media's timescale. In version 0 of the box it is 0
    /// or more.
    pub offset: i64,
}

/// An entry of a sample to chunk box (8.7.4): chunks that have equally many samples.
#[derive(Clone, Copy)]
pub struct ChunkRun {
    /// The first of the chunks, counted from 1. The run goes on up to the next entry's first chunk.
    pub first: u32,
    /// How many samples each of them has.
    pub samples: u32,
}

/// A sample size box (8.7.3).
#[derive(Drop)]
pub enum SampleSizes {
    /// All samples have this size in bytes, which is not 0; and there are so many.
    Same { size: u32, count: u32 },
    /// The size of each sample in bytes.
    Each(OwnedList<u32>),
}
