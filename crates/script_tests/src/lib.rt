//! The tests of the crates that have calls, printed lines, scripts of calls and the journal.
//!
//! They are the tests of `mse_calls`, `event_text`, `call_script` and `run_journal`. They are a
//! crate of their own, so that a test is proved without the code that it tests. There is no contract here.
#![tactic(auto)]

#[cfg(test)]
mod tests;
