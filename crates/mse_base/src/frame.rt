use crate::{Bytes, Ticks};

/// A coded frame: a unit of a track's media data with its times (Media Source Extensions,
/// "coded frame"; a sample of ISO/IEC 14496-12).
#[derive(Debug, Drop)]
pub struct CodedFrame {
    /// When it is presented.
    pub pts: Ticks,
    /// When it is decoded.
    pub dts: Ticks,
    /// How long it lasts.
    pub dur: Ticks,
    /// Its bytes.
    pub payload: Bytes,
    /// The track that it is of, by its number in the file.
    pub track_id: u32,
    /// Whether it is a random access point: it can be decoded without the frames before it.
    pub sync: bool,
}

/// Where the segment parser loop is (Media Source Extensions, "append state").
#[derive(Clone, Copy, Debug, PartialEq, Eq)]
pub enum Phase {
    /// Waiting for a segment (`WAITING_FOR_SEGMENT`).
    Waiting,
    /// In an initialization segment (`PARSING_INIT_SEGMENT`).
    InInit,
    /// In a media segment (`PARSING_MEDIA_SEGMENT`).
    InMedia,
}
