use mse_base::{Moment, Ticks};
use mse_calls::Ready;

/// What a source buffer is told of what it does not keep itself.
#[derive(Clone, Copy, Debug, PartialEq, Eq)]
pub struct BufferContext {
    /// The number that the buffer was made with.
    pub number: u32,
    /// The state of the source.
    pub ready: Ready,
    /// Whether the element has an error.
    pub error: bool,
    /// The duration of the source, in ticks; NaN where it has none.
    pub duration: Moment,
    /// The playback position, in ticks. An append evicts by it; a turn only looks it up ahead,
    /// which changes nothing that is told.
    pub position: Ticks,
    /// In bytes: an append is refused where, after eviction, the stored coded frames have as many
    /// or more. Only an append looks at it.
    pub quota: u64,
}
