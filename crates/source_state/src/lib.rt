//! A media source (Media Source Extensions, `MediaSource`): its state, its duration, its lists of
//! source buffers and its live seekable range. Each call is one function of the state, which gives
//! the answer and the state that is left.
//!
//! It stands on `mse_calls` and `mse_base`, and knows of source buffers only their numbers and
//! what [`AllBuffers`] tells. Its main contract is that of [`Source`]: each call answers and leaves
//! what its function of `specs/Calls.antt` says, with the refusals in its order; only `add_buffer`
//! takes memory, and where there is none the source is as before.
#![tactic(auto)]

mod answers;
mod lists;
mod seekable;
mod source;

pub use answers::{Added, AllBuffers, Changed, Removed};
pub use source::Source;
