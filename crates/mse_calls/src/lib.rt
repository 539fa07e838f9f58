//! The plain types that the parts of the buffering engine speak to each other with: calls and
//! their answers, events, the entries of a journal, the rules of listeners, and what a view of the
//! whole engine shows.
//!
//! It stands on `mse_base`. Its main contracts are those of the copies of a call and of an answer,
//! and that of [`Blobs::part`].
#![tactic(auto)]

mod answers;
mod blobs;
mod calls;
mod changes;
mod entry;
mod events;
mod rules;
mod time_ranges;
mod views;

pub use answers::{Answer, Level, Name, Ready, StateView};
pub use blobs::Blobs;
pub use calls::{Call, EndKind, Mode, Piece};
pub use changes::Changes;
pub use entry::Entry;
pub use events::{Event, EventKind, Target};
pub use rules::{Calls, Rule};
pub use time_ranges::TimeRanges;
pub use views::{
    Attributes, BufferAttributes, BufferView, BufferViews, FaultView, TrackView, TrackViews, View,
};
