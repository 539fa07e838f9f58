ghost use Rattle.std.specs.Prelude.{◌≡◌};
ghost use Rattle.bmff_boxes.specs.declared.reading.ReadError.TheVariants.{Fault};

use bmff_boxes::ReadError;
use thiserror::Error;

/// What is wrong with a movie box: the first fault in the order of reading.
#[derive(Clone, Copy, Debug, PartialEq, Eq, Error)]
pub enum InitFault {
    /// A container is no row of whole boxes, a box is too short, or a count of edits does not fit.
    #[error("a box has the wrong size")]
    Size,
    /// A box of this type is not there, or a `stsd` box has no entry.
    #[error("a box is missing: {0:?}")]
    Missing([u8; 4]),
    /// The tables of an initialization segment have samples or chunks.
    #[error("the movie box has samples")]
    HasSamples,
    /// An initialization segment has no `mvex` box.
    #[error("the movie is not fragmented")]
    NoMvex,
    /// An edit list is not a few empty edits and then one that presents the media at their own rate.
    #[error("the edit list is not supported")]
    EditList,
    /// A timescale is 0.
    #[error("a timescale is zero")]
    ZeroTimescale,
    /// Two tracks have one number.
    #[error("two tracks have one number")]
    DuplicateTrack,
    /// There are more than 64 tracks.
    #[error("there are more than 64 tracks")]
    TooManyTracks,
}

/// Why a movie box was not read: there was no memory for its tracks, or it has a fault, the first in the order
/// of reading.
pub type InitError = ReadError<InitFault>;

impl From<InitFault> for InitError {
    ghost from_gives = { λ fault error. error ≡ Fault fault };

    fn from(fault: InitFault) -> InitError {
        InitError::Fault(fault)
    }
}
