//! A session: the steps of a script one at a time, with the lines that each of them prints.
//!
//! It stands on `script_run` (the run of a script) and `event_text` (the block that closes it). Its main contracts are
//! that of [`Session::step`], by the lines that the play of a script has (`line_entries` of `cut_law`), and that of
//! `laws`: the lines of the steps of a session, put together, are those that `play` prints of the script of these
//! steps before its closing block.
#![tactic(auto)]

pub mod laws;
mod live;
mod session;
#[cfg(test)]
mod tests;

pub use live::{LiveSession, StepResult};
pub use session::Session;
