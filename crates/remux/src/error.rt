use sample_tables::{FileError, MovieFault};

/// What is wrong with a file.
pub type RemuxFault = MovieFault;

/// Why a file was not turned into fragments: there was no memory for what is read or written, or it has a fault, the
/// first in the order of reading.
pub type RemuxError = FileError;
