use crate::{Call, Event};
use mse_base::OwnedList;

/// A list of calls.
pub type Calls = OwnedList<Call>;

/// Which calls a listener makes on an event.
#[derive(Debug, Drop)]
pub struct Rule {
    /// The number of the listener.
    pub listener: u32,
    /// The event.
    pub on: Event,
    /// How many events of this kind it answers, before it rests.
    pub times: u32,
    /// Whether it makes its calls again and again for one event.
    pub repeat: bool,
    /// The calls, in the order in which they are made.
    pub calls: Calls,
}
