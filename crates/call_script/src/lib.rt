//! Scripts: TOML texts that say which calls are made on a media source, what its listeners answer to
//! events, and when events are fired and work is done.
//!
//! It stands on `event_text`, `mse_calls` and `mse_base`; TOML is read by `toml`, hexadecimal digits
//! by `hex`.
//! Its main contract is that of [`read_script`]: the answer is what the definition `read_of` in
//! `specs/Script.antt` makes of the bytes. [`read_time`] is `time_of` of `specs/Times.antt`.
#![tactic(auto)]

mod blobs;
mod call_word;
mod events;
mod fault;
mod key;
mod laws;
mod lines;
mod numbers;
mod reading;
mod rules;
mod script;
mod times;
mod values;
mod words;

pub use fault::{ScriptError, ScriptFault};
pub use key::ScriptKey;
pub use laws::{numbers_are_as_printed, printed_calls_read_back};
pub use lines::read_step;
pub use numbers::read_index;
pub use reading::read_script;
pub use script::{BlobText, BlobTexts, Rules, Script, StepLine, StepLines};
pub use times::read_time;
