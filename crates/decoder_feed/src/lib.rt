//! Frames for a decoder: the coded frames of a track that it needs to show a time, which are the
//! frame that is shown then and, before it, those of its group from its random access point on.
//!
//! It stands on `track_store` and `mse_base`. Its main contracts are those of [`feed`], which gives
//! the places of the frames of `feed_of` (`specs/Feed.antt`), and of [`Feeder`], which gives them
//! one after another over a track that may change in between (`specs/Steps.antt`). Each frame given
//! is a random access point and the first since the seek, or the frame received just before it was
//! given just before it; [`laws`] tells it of whole runs.
#![tactic(auto)]

mod group;
pub mod laws;
mod steps;

pub use group::feed;
pub use steps::{FeedNext, Feeder};
