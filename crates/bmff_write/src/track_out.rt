use mse_base::{Kind, OwnedList};

/// A track of an initialization segment to be written.
#[derive(Debug, Drop)]
pub struct TrackOut {
    /// Its number, from 1 to 2^32 - 2.
    pub id: u32,
    /// What it carries, video or audio.
    pub kind: Kind,
    /// How many units of its media time make a second; not 0.
    pub scale: u32,
    /// The four-character code of its coding.
    pub codec: [u8; 4],
    /// Its edits, at most 1000, as in an edit list box (ISO/IEC 14496-12, 8.6.6): how long an edit lasts in
    /// thousandths of a second, and the media time at which it starts, -1 for an empty edit. There are none, or
    /// empty edits and then one that is not empty.
    pub edits: OwnedList<(u32, i32)>,
}
