//! A media element and the events that wait to be fired, as one value: what the element tells is
//! queued at it, behind the events of the source and of the source buffers (HTML, event loops, the
//! media element event task source).
//!
//! It stands on `element_seek`, `task_queue`, `mse_calls` and `mse_base`. Its main contract is that
//! of [`Element`]: each call leaves the state that is one function of the state before, in reserved
//! room, so that a step which reserved its places first can't fail. A settled element stays settled
//! where an event is queued or fired (`laws::stays_settled`).
#![tactic(auto)]

mod element;
pub mod laws;

pub use element::Element;
