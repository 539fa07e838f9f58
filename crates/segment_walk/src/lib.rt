//! The segment parser loop for the ISO BMFF byte stream format (Media Source Extensions, 3.5.1): what a
//! string of initialization and media segments gives, box by box.
//!
//! It stands on mse_base, bmff_boxes, bmff_init, bmff_fragment and parser_loop, and reads from input_chunks. Its
//! main contracts: [`step`] is the next step of the walk that its definitions say, at any place of any input,
//! and `prefix_law`, that more bytes add items and change none.
#![tactic(auto)]

mod example;
mod kinds;
mod laws;
mod next_step;
mod search;

pub use example::example_law;
pub use kinds::{BoxStep, DataRange, Fragment, ParserMode, StreamFault, TopLevelBox, WalkPlace};
pub use laws::{boxes_law, held_law, latest_law, place_law, prefix_law};
pub use next_step::step;
pub use search::count_ready;
