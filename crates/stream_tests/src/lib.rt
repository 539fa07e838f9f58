//! Bytes of files with what is read of them, and files that are written: the tests of `bmff_fragment`, `bmff_write`,
//! `segment_stream`, `adts_stream` and `byte_stream`.
//!
//! It stands on those. The tests are a crate of their own, so that they are proved without the code of the crates that
//! they test. There is no contract here but those of what the tests call.
#![tactic(auto)]

#[cfg(test)]
mod tests;
