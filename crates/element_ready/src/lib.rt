//! How much data a media element has at its position, and what is fired where that changes (HTML,
//! media elements, ready states).
//!
//! It stands on `mse_calls` and `mse_base`. Its main contracts are those of [`level`], which is
//! `level_at` of `specs/Levels.antt`, and of [`events_of_change`], which is the table of changes
//! `change_events` of `specs/Events.antt`. Nothing here takes memory.
#![tactic(auto)]

mod events;
mod facts;
pub mod laws;
mod levels;

pub use events::{events_of_change, is_first_data};
pub use facts::Facts;
pub use levels::{THREE_SECONDS, level};
