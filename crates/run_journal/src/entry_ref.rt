use mse_calls::{Answer, Call, Event, Piece};

/// An entry as it is looked up in a journal.
#[derive(Clone, Copy, Debug)]
pub enum EntryRef<'a> {
    /// The line of the script with that number, from 0 on, began.
    Step(u32),
    /// The script made a call.
    Script(&'a Call, &'a Answer),
    /// The script appended a piece to the buffer of that number, which was done: the call
    /// `AppendBuffer`, with the answer `Done`.
    Append(u32, Piece),
    /// The listener of that number made a call.
    Listener(u32, &'a Call, &'a Answer),
    /// An event was fired.
    Fired(Event),
    /// The buffer of that number did one step of its running append or removal.
    Work(u32),
    /// The element took a turn.
    Element,
}
