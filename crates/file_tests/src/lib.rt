//! The tests of the crates that read type texts, boxes and classic files, and keep input in pieces.
//!
//! They are the tests of `mse_types`, `bmff_boxes`, `bmff_init`, `sample_tables`, `remux` and `input_chunks`, a module
//! for each. They are a crate of their own, so that a test is proved without the code that it tests. There is no
//! contract here.
#![tactic(auto)]

#[cfg(test)]
mod tests;
