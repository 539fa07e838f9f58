//! The byte stream of a source buffer, in the container of its type: ISO BMFF segments, or ADTS frames (Media
//! Source Extensions, 3.5.1, segment parser loop; its byte stream format registry).
//!
//! It stands on segment_stream and adts_stream, which parse, and shows both as one list of items. Its main contract
//! is that of [`ByteStream`]: for every string of a container that the stream stands for, `next` gives the next item
//! of the whole string, whatever pieces it came in, and `offer` with `decline` leaves all.
#![tactic(auto)]

mod laws;
mod next;
mod parser;
mod stream;

pub use adts_stream::AdtsFault;
pub use laws::{held_law, lasting_law, place_law, prefix_law, stands_law};
pub use mse_types::Container;
pub use next::{ByteFault, Next};
pub use segment_stream::StreamFault;
pub use stream::ByteStream;
