//! The source buffers of a media source (Media Source Extensions, `SourceBufferList`), each by the
//! number that it was made with: a call on one of them, a step of its running work, and what is
//! told of all.
//!
//! It stands on `buffer_state`, which is one source buffer, and takes from `source_state` what a
//! media source is told of its buffers. Its main contract is that of [`SourceBuffers`]: for all
//! buffers that it stands for, a call on the buffer of a number answers and leaves what
//! `result_on_buffer` of `specs/Slots.antt` says, a step of work what `buffers_turn` says, and the
//! ranges of the element are the ticks that all active buffers have (`specs/Buffered.antt`). No
//! stored frame ends after the duration, at whichever buffer, and where there is no memory all
//! buffers are as before.
#![tactic(auto)]

mod all;
mod buffers;
mod element;
pub mod laws;
mod views;

pub use buffers::SourceBuffers;
