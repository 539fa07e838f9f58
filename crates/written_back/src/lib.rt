//! What the writers of fragmented files write, and what `remux` makes of a classic file, reads back: laws that join the
//! definitions of the writers with those of the byte stream.
//!
//! It stands on `bmff_write` (the writers), `remux` (a classic file as fragments) and `segment_walk` (what a string of
//! segments gives), with the crates below these. It has no code.
#![tactic(auto)]

mod laws;

pub use laws::{fragment_law, make_law, movie_law, remux_law, string_law};
