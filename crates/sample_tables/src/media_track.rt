use crate::sample::Sample;
use mse_base::{Bytes, OwnedList, TrackInfo};

/// A track with video or audio of a classic file.
#[derive(Debug, Drop)]
pub struct MediaTrack {
    /// What the movie box tells of it.
    pub info: TrackInfo,
    /// How much later than the movie it begins, in whole units of its media time: at most `2^62`.
    pub lag: u64,
    /// Its sample description box (ISO/IEC 14496-12, 8.5.2), with its header: at most `2^16` bytes.
    pub stsd: Bytes,
    /// The type of the first sample entry in that box.
    pub codec: [u8; 4],
    /// Its samples in order.
    pub samples: OwnedList<Sample>,
}
