//! The run of a script over an engine: calls are made, events are fired and told to the listeners,
//! work is done, and the line of each entry of the journal is put when the entry has come.
//!
//! It stands on `mse_engine` (the engine), `listeners` (who hears the events), `call_script` (the
//! lines of a script), `event_text` (the printed lines) and `mse_outside` (the sink). Its main
//! contract is that of [`ScriptRun::play`]: the journal grew by entries that the engine goes by and
//! that follow the script line by line, their lines were written, each with one put, and each listener
//! heard, made and was told what they say (`specs/Follows.antt`, `specs/PlayedParts.antt`).
#![tactic(auto)]

mod drain;
pub mod laws;
mod lines;
mod listening;
mod put;
mod quiet;
mod run;
mod stop;

pub use listening::give_rules;
pub use put::{put_bytes, put_lines};
pub use run::ScriptRun;
pub use stop::{Halt, Stop};
