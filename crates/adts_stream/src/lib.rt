//! The byte stream of a source buffer of the type `audio/aac`: ADTS frames and tags that come in any pieces,
//! given as items one after the other (Media Source Extensions, 3.5.1, segment parser loop; MPEG audio byte
//! stream format).
//!
//! It stands on mse_base, is an instance of the walk of parser_loop, and keeps its bytes in input_chunks. Its
//! main contract is that of [`AdtsStream`]: for every string that the stream stands for, `next` gives the next
//! item of the whole string, whatever pieces it came in, and `offer` with `decline` leaves all.
#![tactic(auto)]

mod arms;
mod header;
mod laws;
mod next;
mod position;
mod stream;
mod walk;

pub use laws::{fault_law, frames_law, held_law, pieces_law, place_law, prefix_law, row_law};
pub use next::{AdtsFault, AdtsNext};
pub use stream::AdtsStream;
