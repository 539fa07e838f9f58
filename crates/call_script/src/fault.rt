ghost use Rattle.std.specs.Prelude.{◌≡◌};
ghost use Rattle.call_script.specs.declared.fault.ScriptError.TheVariants.{OutOfMemory as NoMemory};

use crate::key::ScriptKey;
use mse_base::{OutOfMemory, Text};
use std::alloc::AllocFailed;
use thiserror::Error;

/// What is wrong with a script: the first fault in the order of these variants. Members of lists are
/// numbered from 0.
#[derive(Debug, Drop)]
pub enum ScriptFault {
    /// The bytes are no TOML, or not in UTF-8.
    NotToml,
    /// This is no key of a script, the first such in order of bytes; or its value is of the wrong
    /// kind, or not in its range.
    Key(Text),
    /// The list at this key has too many members.
    TooMany(ScriptKey),
    /// This blob is no text that writes one.
    Blob(usize),
    /// This step is no step line.
    Step(usize),
    /// This rule is no table with the keys of a rule and values of theirs.
    Rule(usize),
}

/// Why a script was not read.
#[derive(Debug, Drop, Error)]
pub enum ScriptError {
    /// There was no memory.
    #[error("out of memory")]
    OutOfMemory,
    /// The script has a fault.
    #[error("the script has a fault: {0:?}")]
    Fault(ScriptFault),
}

impl From<OutOfMemory> for ScriptError {
    ghost from_gives = { λ _ error. error ≡ NoMemory };

    fn from(_error: OutOfMemory) -> ScriptError {
        ScriptError::OutOfMemory
    }
}

impl<T: Drop> From<AllocFailed<T>> for ScriptError {
    ghost from_gives = { λ _ error. error ≡ NoMemory };

    fn from(_error: AllocFailed<T>) -> ScriptError {
        ScriptError::OutOfMemory
    }
}
