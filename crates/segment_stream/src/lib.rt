//! The byte stream of a source buffer: initialization and media segments of the ISO BMFF byte stream format
//! that come in any pieces, given as items one after the other (Media Source Extensions, 3.5.1, segment
//! parser loop).
//!
//! It stands on segment_walk, whose definitions read a whole string at once, and keeps its bytes in
//! input_chunks. Its main contract is that of [`Stream`]: for every reading of a string that it stands for, `next`
//! gives the next item of the whole string, whatever pieces it came in, and `offer` with `decline` leaves all.
#![tactic(auto)]

mod arms;
mod laws;
mod moves;
mod next;
mod offers;
mod pending;
mod progress;
mod stream;

pub use laws::pieces_law;
pub use next::SegmentNext;
pub use segment_walk::StreamFault;
pub use stream::Stream;
