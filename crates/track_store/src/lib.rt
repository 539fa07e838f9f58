//! The track buffers of a source buffer (Media Source Extensions, "track buffer"): the coded
//! frames of one track, in the order in which they were appended, and what coded frame processing
//! remembers of the track.
//!
//! It stands on `mse_base`. Its main contract is that of the trait [`FrameStore`]: each call is an
//! equation on the list of frames, and a removal takes the decoding dependencies with it, the
//! frames up to the next random access point. [`ListStore`] meets it as a plain list. What a
//! buffer keeps of each track is `IsSound` of `specs/Sound.antt`: each frame held is a random access
//! point, or the frame received just before it is held too.
#![tactic(auto)]

pub mod calls;
pub mod laws;
mod list_store;
pub mod named;
pub mod places;
mod removal;
pub mod runs;
mod store;
mod tracks;

pub use list_store::ListStore;
pub use removal::remove_between;
pub use store::{FrameStore, Stored};
pub use tracks::{Marks, Settings, Track, Tracks};
