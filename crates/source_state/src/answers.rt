use mse_base::{Moment, Ticks};
use mse_calls::Name;

/// What a source is told of all buffers in its list.
#[derive(Clone, Copy, Debug, PartialEq, Eq)]
pub struct AllBuffers {
    /// Whether an append or a removal runs at one of them.
    pub updating: bool,
    /// The highest presentation timestamp of all stored frames, if there are any.
    pub highest_start: Option<Ticks>,
    /// The highest end of all stored frames, if there are any.
    pub highest_end: Option<Ticks>,
}

/// What `addSourceBuffer` answers.
#[derive(Clone, Copy, Debug, PartialEq, Eq)]
pub enum Added {
    /// The number of the new buffer.
    Number(u32),
    Refused(Name),
}

/// What `removeSourceBuffer` answers.
#[derive(Clone, Copy, Debug, PartialEq, Eq)]
pub enum Removed {
    /// The buffer left the list, and also the list of active buffers if it was there.
    Gone { active: bool },
    Refused(Name),
}

/// What comes of the duration.
#[derive(Clone, Copy, Debug, PartialEq, Eq)]
pub enum Changed {
    /// It is as before.
    Same,
    /// It is this one now, and was another.
    To(Moment),
    Refused(Name),
}
