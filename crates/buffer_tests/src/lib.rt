//! The tests of the crates that have source buffers and the media source.
//!
//! They are the tests of `buffer_state`, `source_buffers` and `source_state`, a module for each. They are a crate of
//! their own, so that a test is proved without the code that it tests. There is no contract here.
#![tactic(auto)]

#[cfg(test)]
mod tests;
