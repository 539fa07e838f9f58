//! A run, one small step after another.
//!
//! It stands on `mse_engine`, whose machine a run changes, on `call_script`, whose lines it works
//! through, and on `mse_calls`. `specs/Happenings.antt` has what happens in a run; `specs/Steps.antt`
//! what a run has come to, what is to be done, and `stepped`, the run with its next step done. A run
//! that was broken off is one of which some number of steps was done.
//!
//! The one type of code here is [`Note`], which says what a listener was given or did. The laws say what
//! holds of the steps: what happened stays ([`front_law`]), a run's setting stays ([`setting_law`]), and
//! a listener hears an event only where all rest ([`hearing_law`]).
#![tactic(auto)]

mod laws;
mod note;

pub use laws::{front_law, hearing_law, setting_law};
pub use note::Note;
