//! The events that wait to be fired, first in, first out (HTML, "event loops", the task queue of
//! the media element event task source and the one of media sources, which are one here).
//!
//! It stands on `mse_calls` and `mse_base`. Its main contract is that of [`Queue`]: a list of
//! events, to which an event is appended without memory once its place was reserved.
#![tactic(auto)]

mod queue;

pub use queue::Queue;
