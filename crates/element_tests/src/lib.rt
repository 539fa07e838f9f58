//! The tests of the crates that have the media element and the events that wait.
//!
//! They are the tests of `element_ready`, `element_seek`, `media_element` and `task_queue`, a module for each. They are
//! a crate of their own, so that a test is proved without the code that it tests. There is no contract here.
#![tactic(auto)]

#[cfg(test)]
mod tests;
