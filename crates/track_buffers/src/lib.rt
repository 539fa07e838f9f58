//! The media of a source buffer (Media Source Extensions): its track buffers and settings, and
//! what an initialization segment, a coded frame, a reset of the parser, a removal and an eviction
//! do to them.
//!
//! It stands on `track_store`, `frame_rules`, `range_removal` and `eviction`, on the plain types of
//! `mse_base`, `mse_types` and `mse_calls`, and takes from `bmff_fragment` which tracks are media
//! tracks; it knows nothing else of the byte stream. Its main contract is that of [`TrackBuffers`]: each call makes of the media
//! what one function on lists of frames says, `init_result`, `frame_result`, `flush_result`, `media_after_reset`,
//! `media_after_removal` and `media_after_eviction` of `specs/`. The buffered ranges are the ticks that all
//! tracks have.
#![tactic(auto)]

mod bounds;
mod buffered;
mod buffers;
mod effects;
mod frames;
mod holding;
mod incoming;
mod kinds;
pub mod laws;
mod looks;
mod partners;
pub mod range_laws;
mod rooms;
mod sought;
mod watch;

pub use buffered::{extend_last, span_up_to};
pub use buffers::TrackBuffers;
pub use effects::{MediaEffect, MediaFault, SourceEffect, no_effect};
pub use holding::{lasts_to, overlap_of_two};
pub use kinds::media_track_count;
