//! A list in blocks.
#![tactic(auto)]

mod block;
mod block_list;
mod finding;
mod ranked;

pub use block::{Block, Change, Fact, take_out};
pub use block_list::{BlockList, BlockPlace};
pub use finding::{Test, search};
pub use ranked::RankedList;
