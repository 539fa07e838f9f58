//! Reads a movie box (`moov`, ISO/IEC 14496-12, 8.2.1): of an initialization segment (ISO BMFF byte stream format,
//! section 3), or of a classic file.
//!
//! Stands on `mse_base` for what a presentation and a track are, and on `bmff_boxes` for the boxes and their
//! fields. Its main contract: `read_init` gives exactly the presentation of `specs/Movies.antt`, or the first fault
//! in its order of reading; only want of memory is left open. `read_movie` is the same definition for classic files.
#![tactic(auto)]

mod edits;
mod fault;
mod form;
mod movie;
mod track;

pub use fault::{InitError, InitFault};
pub use movie::{read_init, read_movie};
pub use track::{read_codec, read_media};
