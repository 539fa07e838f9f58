//! Coded frame processing (Media Source Extensions, 3.5.8): a coded frame of a source buffer is
//! given its times, dropped or stored in its track buffer, and the frames that it replaces are
//! removed.
//!
//! It stands on `mse_base`, `track_store` and `overlap_rules`. Its main contract is that of
//! [`place`]: answer, tracks and settings are those of `placement` of `specs/Place.antt`, the
//! standard's steps as one function on lists of frames, and each track buffer stays `IsSound`, so
//! that each frame held can be decoded from what is held.
//!
//! Where the standard leaves a choice, it is made as follows. Frames are processed one at a time.
//! The frames of the group since the last discontinuity never remove each other. An overlapped
//! audio frame is cut, in place of an audio splice frame. A frame's serial counts dropped frames
//! too.
#![tactic(auto)]

mod answer;
mod processing;
mod storing;
mod timing;

pub use answer::{Placed, Why};
pub use processing::{place, place_with_used};
