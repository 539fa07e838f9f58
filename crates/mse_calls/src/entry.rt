use crate::{Answer, Call, Event};

/// One thing that happened in a run.
#[derive(Debug, Drop)]
pub enum Entry {
    /// The line of the script with that number, from 0 on, began.
    Step(u32),
    /// The script made a call.
    Script(Call, Answer),
    /// The listener of that number made a call.
    Listener(u32, Call, Answer),
    /// An event was fired.
    Fired(Event),
    /// The buffer of that number did one step of its running append or removal.
    Work(u32),
    /// The element took a turn.
    Element,
}
