//! A run whose listeners go by rules: [`run_by_rules`] does what `run` of `mse_commands` does, with listeners that it
//! makes, and [`run_in_memory`] prints into memory.
//!
//! It stands on `mse_commands`. A program hands in a library, a sink, the number of
//! listeners and the type of the store.
#![tactic(auto)]

mod by_rules;
mod in_memory;

pub use by_rules::{LISTENERS, run_by_rules};
pub use in_memory::run_in_memory;
