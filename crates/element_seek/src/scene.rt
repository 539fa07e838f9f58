use mse_base::{Moment, Span};

/// What an element is told of its source.
#[derive(Clone, Copy, Debug, PartialEq, Eq)]
pub struct Scene {
    /// The duration.
    pub duration: Moment,
    /// Whether the source is ended.
    pub ended: bool,
    /// The buffered range of the element that has its position or ends at it, if there is one.
    pub span: Option<Span>,
    /// What can be sought, from a time to a time, if anything can.
    pub seekable: Option<Span>,
}
