ghost use Rattle.std.specs.Prelude.{◌≡◌};
ghost use Rattle.buffer_state.specs.State.{is_updating, is_appending, is_removing};

use mse_base::{Moment, Ticks};

/// The work of a source buffer that runs.
#[derive(Clone, Copy, Debug, PartialEq, Eq)]
pub enum Running {
    /// None.
    Nothing,
    /// An append.
    Append,
    /// A removal, from `start` on and before `end`.
    Removal { start: Ticks, end: Moment },
}

impl Running {
    /// Whether an append or a removal runs (Media Source Extensions, 3.1, `updating`).
    pub fn is_updating(&self) -> bool
        ensures { result ≡ is_updating self.now }
    {
        match self {
            Running::Nothing => false,
            Running::Append | Running::Removal { .. } => true,
        }
    }

    /// Whether an append runs.
    pub fn is_appending(&self) -> bool
        ensures { result ≡ is_appending self.now }
    {
        match self {
            Running::Append => true,
            Running::Nothing | Running::Removal { .. } => false,
        }
    }

    /// Whether a removal runs.
    pub fn is_removing(&self) -> bool
        ensures { result ≡ is_removing self.now }
    {
        match self {
            Running::Removal { .. } => true,
            Running::Nothing | Running::Append => false,
        }
    }
}
