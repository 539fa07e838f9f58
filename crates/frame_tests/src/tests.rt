//! A module for each crate that is tested.

mod buffers;
mod evictions;
mod feeds;
mod frames;
mod media;
mod overlaps;
mod placing;
mod removals;
mod rows;
mod stores;
mod values;
