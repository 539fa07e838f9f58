//! What a run of a script does not show of an engine and of listeners.

mod dispatches;
mod library_page;
mod memory;
mod refusals;
mod rule_listeners;
