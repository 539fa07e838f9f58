//! A store for the frames of a track buffer that finds them by time without going through all.
//!
//! It stands on `mse_base`, `block_list` and `track_store`. Its main contract is that of the trait
//! `track_store::FrameStore`, by the very clauses that the plain `ListStore` meets: [`IndexStore`]
//! gives the same answers over every list of calls ([`alike::stores_alike`]). What it keeps beside
//! the frames (their order of presentation, serials of random access points, their ranges and the
//! sum of their bytes) is `IsIndexed` of `specs/Indexed.antt`: at each call it is what it is of the
//! frames held. Frames and order stand in blocks (`block_list`), and what is known of each block
//! (`specs/Known.antt`, `specs/Tops.antt`) lets look-ups pass it whole.
#![tactic(auto)]

pub mod alike;
mod entry;
mod frames;
mod index_store;
mod key;
mod known;
pub mod laws;
mod mark;
mod order;
mod repair;
mod syncs;
#[cfg(test)]
mod tests;
mod tops;

pub use index_store::IndexStore;
