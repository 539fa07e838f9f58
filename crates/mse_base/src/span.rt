ghost use Rattle.std.specs.Prelude.{◌≡◌};
ghost use Rattle.mse_base.specs.Meets.{overlap_span};

use crate::Ticks;

/// The ticks from `start` on and below `end`: none where `end` is not after `start`.
#[derive(Clone, Copy, Debug, PartialEq, Eq)]
pub struct Span {
    /// The first tick.
    pub start: Ticks,
    /// The tick after the last.
    pub end: Ticks,
}

impl Span {
    /// The ticks that both spans have; `None` exactly where they share none.
    pub fn overlap(self, other: Span) -> Option<Span>
        ensures { result ≡ overlap_span self other }
    {
        let start = self.start.max(other.start);
        let end = self.end.min(other.end);
        if start < end {
            Some(Span { start, end })
        } else {
            None
        }
    }
}
