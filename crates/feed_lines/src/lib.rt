//! What a decoder is given to show a time and all that comes after it, as printed lines: for a time
//! the coded frames of the group that is shown then, and again for the time at which these end,
//! until no frame is shown.
//!
//! It stands on `decoder_feed` (frames for a decoder), `script_run` (lines for the sink),
//! `event_text` (words), `track_store` and `mse_outside`. Its main contract is that of
//! [`put_feeds`]: what is written is the text of the track (`specs/Lines.antt`).
#![tactic(auto)]

pub mod laws;
mod lines;
mod put;

pub use put::put_feeds;
