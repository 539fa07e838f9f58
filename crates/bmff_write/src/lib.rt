//! Writers of fragmented files: initialization segments and media segments as byte streams of the ISO base media
//! file format (ISO/IEC 14496-12; ISO BMFF byte stream format).
//!
//! It stands on `mse_base`, `bmff_boxes` and `byteorder`. Its main contracts are those of [`write_init`] and
//! [`write_segment`]: the bytes are exactly the boxes that the definitions in `specs/` spell out, each with its
//! size, its type and its parts. Sizes are known before the bytes, so a box is written at the end of one growing
//! list and never moved into its parent.
#![tactic(auto)]

mod boxes;
mod fragment;
mod laws;
mod made;
mod movie;
mod sample_entry;
mod segment;
mod track;
mod track_out;
mod traf_out;

pub use laws::row_law;
pub use made::make;
pub use movie::{write_init, write_init_with};
pub use segment::write_segment;
pub use track_out::TrackOut;
pub use traf_out::{SampleOut, TrafOut};
