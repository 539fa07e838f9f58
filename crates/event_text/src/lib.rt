//! The printed lines of a run: the line of each call, answer and event, and the lines that close
//! it, which show what is buffered.
//!
//! It stands on `mse_calls` and `mse_base`. Its main contracts are those of [`line_of`] and
//! [`closing`]: the text is exactly the one that the definitions in `specs/` spell out.
#![tactic(auto)]

mod answers;
mod block;
mod calls;
mod events;
mod faults;
mod lines;
mod times;
mod words;

pub use block::closing;
pub use events::kind_name;
pub use faults::{fault_line, init_fault};
pub use lines::{event_line, line_of, listener_line, script_line};
pub use words::printable_text;
