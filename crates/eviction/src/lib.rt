//! Coded frame eviction (Media Source Extensions, 3.5.10): where a source buffer is full, frames
//! are removed to make room for new data.
//!
//! It stands on `mse_base`, `track_store` and `range_removal`. Its main contract is that of
//! [`evict`]: the tracks become `tracks_after_eviction` of `specs/Evicting.antt`, which names the
//! ranges of time that are removed in a list made at the start, and removes one after another
//! while the new data does not fit. The range that holds the current playback position is never
//! named; what goes of its frames all the same is said by `laws::position_stays`.
#![tactic(auto)]

mod eviction;
mod latest;
pub mod laws;
mod lead;
mod need;

pub use eviction::evict;
