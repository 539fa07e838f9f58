use bmff_boxes::ReadError;
use thiserror::Error;

/// What is wrong with a movie fragment.
#[derive(Clone, Copy, Debug, PartialEq, Eq, Error)]
pub enum MoofFault {
    /// A payload is no row of whole boxes, or shorter than what is read of it.
    #[error("a box is shorter than what it holds")]
    Size,
    /// There is no track fragment.
    #[error("there is no track fragment")]
    NoTraf,
    /// A track fragment has no header.
    #[error("a track fragment has no header")]
    NoTfhd,
    /// A track fragment has no decode time.
    #[error("a track fragment has no decode time")]
    NoTfdt,
    /// A track fragment counts its places from the file's first byte (Media Source Extensions, ISO BMFF byte
    /// stream format: base-data-offset-present).
    #[error("places are counted from the file's first byte")]
    BaseOffset,
    /// A track fragment is of a track that the presentation does not have.
    #[error("a track fragment is of an unknown track")]
    UnknownTrack,
    /// There are more than `2^20` samples.
    #[error("there are too many samples")]
    TooManySamples,
    /// The data of a sample begin before the moof box.
    #[error("a sample begins before the fragment")]
    Place,
}

/// Why a movie fragment was not read: there was no memory for its samples, or it has a fault, the first in the
/// order of reading.
pub type MoofError = ReadError<MoofFault>;
