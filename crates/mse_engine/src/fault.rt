use mse_base::OutOfMemory;
use thiserror::Error;

/// Why a step of the engine was not taken.
#[derive(Clone, Copy, Debug, PartialEq, Eq, Error)]
pub enum EngineFault {
    /// There was no memory for it. The engine is as before the step.
    #[error("out of memory")]
    OutOfMemory,
}

impl From<OutOfMemory> for EngineFault {
    fn from(_: OutOfMemory) -> EngineFault {
        EngineFault::OutOfMemory
    }
}
