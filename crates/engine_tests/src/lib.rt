//! Tests of `mse_engine` over a plain store, and of `listeners`: what a run of a script does not show of them.
//!
//! It stands on these two, and on the crates that read scripts and write lines and files. They are a crate of their own, so
//! that a test is proved without the code that it tests, and neither stands on scripts or lines. There is no contract here.
#![tactic(auto)]

#[cfg(test)]
mod tests;
