ghost use Rattle.std.specs.Prelude.{◌≡◌};
ghost use Rattle.bmff_boxes.specs.declared.reading.ReadError.TheVariants.{OutOfMemory};

use std::alloc::{AllocError, AllocFailed};
use std::fmt;
use thiserror::Error;

/// Why a box was not read.
#[derive(Clone, Copy, Debug, PartialEq, Eq, Error)]
#[error_bound(F: fmt::Display)]
pub enum ReadError<F> {
    /// There was no memory for what was read.
    #[error("out of memory")]
    OutOfMemory,
    /// The first fault in the order of reading.
    #[error("{0}")]
    Fault(F),
}

impl<F, T: Drop> From<AllocFailed<T>> for ReadError<F> {
    ghost from_gives = { λ _ error. error ≡ OutOfMemory };

    fn from(_failed: AllocFailed<T>) -> ReadError<F> {
        ReadError::OutOfMemory
    }
}

impl<F> From<AllocError> for ReadError<F> {
    ghost from_gives = { λ _ error. error ≡ OutOfMemory };

    fn from(_failed: AllocError) -> ReadError<F> {
        ReadError::OutOfMemory
    }
}
