use mse_calls::{Changes, Name};

/// What a call on an element answers that may be refused.
#[derive(Debug, Drop)]
pub enum PlayerAnswer {
    /// The events at the element, in order.
    Done(Changes),
    /// Nothing changed.
    Refused(Name),
}
