//! Coded frame removal (Media Source Extensions, 3.5.9): the frames of a range of time are removed
//! from the track buffers of a source buffer, with their decoding dependencies.
//!
//! It stands on `mse_base` and `track_store`. Its main contract is that of [`remove_frames`]: the
//! tracks become `tracks_after_removal` of `specs/Removal.antt`, the standard's steps as one
//! function on lists of frames, and a track buffer that was `IsSound` stays so.
//!
//! Where the frame that a track stored last is removed, directly or as a decoding dependency, its
//! marks are unset and it needs a random access point. Other tracks keep their marks. The standard
//! looks at the decode timestamps of the frames that are removed directly, and then resets all
//! tracks; with frames out of presentation order that would leave frames that cannot be decoded.
#![tactic(auto)]

pub mod laws;
mod removal;

pub use removal::remove_frames;
