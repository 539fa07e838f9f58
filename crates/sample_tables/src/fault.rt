use bmff_boxes::ReadError;
use bmff_init::InitFault;
use thiserror::Error;

/// What is wrong with a classic file: the first fault in the order of reading.
#[derive(Clone, Copy, Debug, PartialEq, Eq, Error)]
pub enum MovieFault {
    /// A top-level box has no whole header, or ends behind the file's end.
    #[error("a box is not whole")]
    Box,
    /// There is no movie box.
    #[error("there is no movie box")]
    NoMoov,
    /// The movie goes on in fragments already.
    #[error("the movie is fragmented")]
    Fragmented,
    /// The movie box has this fault.
    #[error("in the movie box: {0}")]
    Moov(InitFault),
    /// The tables of a track do not agree.
    #[error("the sample tables do not agree")]
    Tables,
    /// A sample is not inside the file.
    #[error("a sample is not inside the file")]
    Place,
    /// A track's number, shift, lag, composition offset or sample description is beyond what can be written.
    #[error("a value is out of range")]
    Range,
    /// There are too many samples, or they have too many bytes.
    #[error("there are too many samples")]
    TooMany,
    /// There is no track with video or audio.
    #[error("there is no track with video or audio")]
    NoTracks,
}

/// A fault, and where it is.
#[derive(Clone, Copy, Debug, PartialEq, Eq, Error)]
#[error("{fault} at {offset}")]
pub struct PlacedFault {
    /// What is wrong.
    pub fault: MovieFault,
    /// Where in the file: at the box that is not whole, at the file's end where there is no movie box, and else at
    /// the movie box.
    pub offset: u64,
}

/// Why the tracks of a movie box were not read.
pub type MovieError = ReadError<MovieFault>;

/// Why the tracks of a classic file were not read: there was no memory for its samples, or it has a fault, the
/// first in the order of reading.
pub type FileError = ReadError<PlacedFault>;
