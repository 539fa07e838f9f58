//! The journal of a run: what happened, entry by entry.
//!
//! It stands on `mse_calls` and `mse_base`. Its main contract is that of [`Journal`]: a list of
//! entries, to which an entry is appended without memory once its place was reserved.
#![tactic(auto)]

mod answered_calls;
mod entry_place;
mod entry_ref;
mod journal;
mod places;
mod same_call;

pub use entry_ref::EntryRef;
pub use journal::Journal;
