//! A source buffer (Media Source Extensions, `SourceBuffer`): its byte stream joined with its
//! media. Each call and each step of running work is one function of what feeds the buffer and of
//! what it holds.
//!
//! It stands on `byte_stream`, which gives items, and on `track_buffers`, which takes them. Its
//! main contract is that of [`Buffer`]: for every string of bytes that the buffer stands for, a
//! call answers and leaves what the rules of `specs/Calls.antt` say, and a step of running work what
//! `turn_result` of `specs/Turns.antt` says of the next item of the whole string, in whatever pieces
//! it came. Where there is no memory the buffer is as before.
#![tactic(auto)]

mod appending;
mod buffer;
mod buffer_context;
mod call;
mod faults;
pub mod laws;
mod removal;
mod reply;
mod resets;
mod running;
mod settings_calls;
mod turns;

pub use buffer::Buffer;
pub use buffer_context::BufferContext;
pub use byte_stream::{ByteFault, Container};
pub use call::BufferCall;
pub use faults::{Fault, init_missing, init_number};
pub use reply::{Reply, Turned};
pub use running::Running;
pub use track_buffers::MediaFault;
