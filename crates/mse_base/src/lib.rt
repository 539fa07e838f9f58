//! What all crates of the buffering engine share: times in ticks, ranges of time, coded frames,
//! tracks, owned bytes and text, and the answer of a call that finds no memory.
//!
//! It stands on std alone. Its main contract is that of [`Ranges`]: a list of ranges is told by
//! the set of ticks that it covers, and it is the one normalized list of that set (HTML,
//! "normalized TimeRanges object").
#![tactic(auto)]

mod block_row;
mod block_starts;
mod bridge;
mod bytes;
mod carve;
mod combine;
mod frame;
pub mod laws;
mod list;
mod lookup;
mod memory;
mod moments;
mod ranges;
mod span;
mod span_block;
mod span_blocks;
mod span_list;
mod text;
mod ticks;
mod track;

pub use bytes::Bytes;
pub use frame::{CodedFrame, Phase};
pub use list::OwnedList;
pub use memory::OutOfMemory;
pub use ranges::Ranges;
pub use span::Span;
pub use text::Text;
pub use ticks::{Moment, Ticks, convert};
pub use track::{Kind, Presentation, TrackInfo, TrackList};
