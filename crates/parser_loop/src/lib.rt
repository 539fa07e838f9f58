//! The segment parser loop of Media Source Extensions, in general: a walk over a string of bytes that comes
//! in pieces, which gives items one after the other; and these items, in every byte stream format.
//!
//! It stands on mse_base, and has definitions and laws, and of code the answer of a parser alone ([`Next`]). A
//! parser above it says what a move of its walk is, shows that this is a walk (`IsWalk`), and has every law here
//! for its own items.
//!
//! Its main contract is that of `prefix_law`: however many bytes follow, the items of the longer string begin with
//! those of the shorter one, and are the same where one of them ends the walk. `kept_law` says that what a parser
//! keeps between two pieces gives just the items of the whole string. `parse_law` is for one who defines what a
//! string gives without a walk: the walk has a parse, and that is to be the one which the definition gives.
#![tactic(auto)]

mod example;
mod laws;
mod next;

pub use example::{example_law, item_example_law, string_example_law};
pub use laws::{
    invariant_law, item_law, items_law, kept_law, last_law, latest_law, lookahead_law, parse_law,
    prefix_law, state_law, suffix_law,
};
pub use next::Next;
