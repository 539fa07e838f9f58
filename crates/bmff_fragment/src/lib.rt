//! The movie fragments of the ISO base media file format (ISO/IEC 14496-12, 8.8): which samples a moof box
//! announces, when they are decoded and presented, and where their data lie.
//!
//! It stands on `mse_base` and `bmff_boxes`.
//!
//! Its main contract is that of [`read_moof`]: the plan is `plan_of`, in which each time and each place is a
//! sum over the samples before, or the first fault in the order of reading, for all bytes.
#![tactic(auto)]

mod fault;
mod header;
mod moof;
mod sample;
mod slot;
mod timing;
mod track_fragment;

pub use fault::{MoofError, MoofFault};
pub use moof::read_moof;
pub use sample::FragmentSample;
pub use slot::{Plan, Slot, Slots};
