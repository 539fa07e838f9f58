use crate::entries::{ChunkRun, DurationRun, OffsetRun, SampleSizes};
use mse_base::OwnedList;

/// The tables of a sample table box (ISO/IEC 14496-12, 8.5.1).
#[derive(Drop)]
pub struct SampleTables {
    /// Decoding time to sample (8.6.1.2).
    pub durations: OwnedList<DurationRun>,
    /// Composition time to sample (8.6.1.3), if there is one.
    pub offsets: Option<OwnedList<OffsetRun>>,
    /// Sync sample (8.6.2), if there is one: numbers of samples, the first being 1.
    pub sync: Option<OwnedList<u32>>,
    /// Sample size (8.7.3).
    pub sizes: SampleSizes,
    /// Sample to chunk (8.7.4).
    pub chunk_runs: OwnedList<ChunkRun>,
    /// Chunk offset (8.7.5): where each chunk begins in the file.
    pub chunk_offsets: OwnedList<u64>,
}
