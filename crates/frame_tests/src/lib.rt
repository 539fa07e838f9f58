//! Ranges of time, stores and tracks of coded frames, worked by hand: the tests of `mse_base`, `track_store`,
//! `overlap_rules`, `frame_rules`, `range_removal`, `eviction`, `decoder_feed` and `track_buffers`.
//!
//! It stands on those. The tests are a crate of their own, so that they are proved without the code of the crates that
//! they test. There is no contract here but those of what the tests call.
#![tactic(auto)]

#[cfg(test)]
mod tests;
