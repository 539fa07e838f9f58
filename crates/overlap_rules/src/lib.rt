//! Room for a new coded frame in its track buffer (Media Source Extensions, coded frame
//! processing, steps 1.13 to 1.15): the frame that the new one overlaps is removed, cut or kept,
//! frames of older groups that begin before the end of the new frame, and not before the end of
//! what its own group covers, are removed where that end is not above its start, and with the
//! removed frames go their decoding dependencies.
//!
//! It stands on `mse_base` and `track_store`. Its main contract is that of [`make_room`]: the
//! track becomes `track_with_room` of `specs/Overlap.antt`, one removal on the list of frames.
#![tactic(auto)]

mod room;

pub use room::make_room;
