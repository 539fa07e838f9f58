//! A queue of bytes in pieces: what an append brings is put at its end, and what was parsed is
//! taken off its front, with no byte of the rest moved.
//!
//! It stands on mse_base. Its main contract: [`Chunks`] is an exact list of pieces. A push
//! lengthens the last piece up to 4096 bytes, or is a new piece; a removal takes whole pieces and
//! cuts one.
#![tactic(auto)]

mod chunks;
mod piece_offset;
mod piece_with_end;

pub use chunks::Chunks;
