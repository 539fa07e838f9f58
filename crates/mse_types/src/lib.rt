//! The type texts that a source buffer takes, as `video/mp4; codecs="avc1.4d401e, mp4a.40.2"`, and the codecs
//! that it knows (Media Source Extensions, `addSourceBuffer` and `isTypeSupported`).
//!
//! Stands on std alone. `read_type` answers `Supported` exactly for the texts of the grammar in
//! `specs/Grammar.antt`, and `Empty` exactly for the empty text; it takes no memory. `codec_known` says whether a
//! sample entry of an initialization segment is one that a source buffer takes.
#![tactic(auto)]

mod answer;
mod names;
mod text;

pub use answer::{Container, TypeAnswer};
pub use names::codec_known;
pub use text::read_type;
