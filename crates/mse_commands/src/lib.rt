//! The commands of the program, in one call: [`run`] plays the scripts and files that its words name, or makes a file,
//! and prints what happens: calls, answers and events, and what a media source has buffered in the end. It writes
//! classic files as fragments, and prints the frames that a decoder is given.
//!
//! It stands on `script_run` (the run of a script over the engine), `bmff_write` (the file that is made), `remux`
//! (classic files), `feed_lines` (frames for a decoder), `event_text` (the printed lines) and `mse_outside` (files and
//! what takes the lines). Its main contract is that of [`run`].
#![tactic(auto)]

mod commands;
mod ending;
mod feeds;
mod file;
pub mod laws;
mod load;
pub mod program_laws;
mod remux_fault;
mod remuxing;
mod text;
mod top;
mod words;

pub use commands::close;
pub use ending::Status;
pub use top::run;
