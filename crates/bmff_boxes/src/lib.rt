//! The boxes of the ISO base media file format (ISO/IEC 14496-12): the header of a box, the boxes that a
//! payload consists of, and the fields of those boxes that a buffering engine reads.
//!
//! It stands on `byteorder` and `thiserror`, and takes no memory.
//!
//! Its main contract: `header` is `header_of`, `open` is `row_of`, and each field reader is the definition
//! of its field on the bytes of the payload, for all bytes. A reader answers `None` exactly where the
//! payload is shorter than the field needs.
#![tactic(auto)]

mod box_header;
mod child;
mod entries;
mod fragment_fields;
mod laws;
mod movie_fields;
mod numbers;
mod readers;
mod reading;
mod row;
mod run_samples;

pub use box_header::{HeadFault, Header};
pub use child::{Child, Children};
pub use entries::{EditEntry, TrunSample};
pub use fragment_fields::{
    tfdt_time, tfhd_base, tfhd_description, tfhd_duration, tfhd_flags, tfhd_size, tfhd_track,
    trun_count, trun_data_offset, trun_first_flags, trun_sample,
};
pub use laws::row_law;
pub use movie_fields::{
    elst_entry, entry_count, hdlr_handler, mdhd_scale, mehd_duration, mvhd_duration, mvhd_scale,
    tkhd_track, trex_description, trex_duration, trex_flags, trex_size, trex_track,
};
pub use numbers::{flags, version};
pub use readers::{children, header, payload};
pub use reading::ReadError;
pub use row::{BoxIn, Row, open};
pub use run_samples::{RunFields, run_fields, run_sample};
