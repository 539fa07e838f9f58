//! Listeners: what hears the events of a media source and of its element, and may make calls in its
//! turn.
//!
//! It stands on `mse_engine`, the engine on which the calls are made, on `run_steps`, the steps of a
//! run, and on `mse_calls`. [`Listener`] is the trait, whose two meanings are the rules that a listener
//! was given, and notes of all that it heard, made and was told. [`dispatch`] tells an event to one
//! listener after the other, each of which makes its calls before the next hears of it
//! (`specs/Dispatch.antt`); that this is some steps of a run stands in `specs/TurnSteps.antt`.
//! [`RuleListener`] makes the calls of its rules. Its main contract is that of
//! [`RuleListener::calls_are_by_rules`]: the calls that it made are the first that its rules give for
//! the events that it heard.
#![tactic(auto)]

mod event_dispatch;
mod history;
mod index;
mod laws;
mod listener;
mod numbers;
mod rule_listener;

pub use event_dispatch::{DispatchFault, dispatch};
pub use laws::numbers_tell_events;
pub use listener::Listener;
pub use rule_listener::RuleListener;
