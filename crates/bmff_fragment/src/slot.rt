use mse_base::{OwnedList, Ticks};

/// A sample that a movie fragment announces: when it is presented and decoded, and where its data lie.
#[derive(Clone, Copy, Debug, PartialEq, Eq)]
pub struct Slot {
    /// When it is presented.
    pub pts: Ticks,
    /// When it is decoded.
    pub dts: Ticks,
    /// How long it lasts: never below 0.
    pub dur: Ticks,
    /// The place of its first byte, counted from the first byte of the moof box.
    pub start: u64,
    /// The place behind its last byte, counted in the same way.
    pub end: u64,
    /// The track that it is of, by its number in the file.
    pub track_id: u32,
    /// Whether it is a sync sample, which can be decoded without the samples before it.
    pub sync: bool,
}

/// A list of slots, in the order of the movie fragment.
pub type Slots = OwnedList<Slot>;

/// What a movie fragment announces.
#[derive(Debug, Drop)]
pub struct Plan {
    /// Its samples, in order of track fragment, run and sample, without those of tracks of kind Other.
    pub slots: Slots,
}
