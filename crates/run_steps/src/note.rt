use mse_calls::{Answer, Call, Event};

/// Something that a listener was given, or did.
#[derive(Debug, Drop)]
pub enum Note {
    /// It heard an event.
    Heard(Event),
    /// It made a call.
    Made(Call),
    /// It was told what its call answered.
    Told(Answer),
    /// It had no further call to make.
    Rested,
}
