//! The engine of Media Source Extensions: a media source with its source buffers, the parts of the
//! media element that look at buffered data, and the queue of its events, one step at a time.
//!
//! It stands on `source_buffers` (all buffers, by number), `source_state` (the media source) and
//! `media_element` (the element and the queue). Its main contract is that of [`Engine`]: for every
//! state of the machine that it stands for, a call, a step of running work, a turn of the element and
//! a fired event answer what the machine answers there (`specs/Calls.antt`, `specs/Work.antt`), and
//! then it stands for the machine's next state. Each step takes its memory first; where there is
//! none the engine is as before.
#![tactic(auto)]

mod buffer_calls;
mod calls;
mod element_calls;
mod engine;
mod fault;
mod finish;
pub mod laws;
mod media_source;
mod refusals;
mod scenes;
mod source_calls;
mod steps;

pub use engine::{Engine, Worked};
pub use fault::EngineFault;
