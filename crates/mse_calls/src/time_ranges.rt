ghost use Rattle.std.specs.Prelude.{◌≡◌, ◌↔◌, [], length, slice_get, IsTrue, IfOk};

use mse_base::{OutOfMemory, Ranges, Span};
use std::marker::Model;

/// Ranges of time as a page is told of them (HTML, `TimeRanges`): the ranges, and not the room
/// that is reserved for more.
#[derive(Debug, Drop)]
pub struct TimeRanges {
    ranges: Ranges,
}

impl Model for TimeRanges {
    ghost use Rattle.std.specs.Prelude.{List};
    ghost use Rattle.mse_base.specs.declared.span.Span.{Span};

    ghost Value = { List Span };

    ghost view = { λ t. t.ranges.spans };
}

impl TimeRanges {
    /// The given ranges, which it takes over.
    pub fn new(ranges: Ranges) -> TimeRanges
        ensures { result ≡ ranges.spans }
    {
        TimeRanges { ranges }
    }

    /// How many ranges there are.
    pub fn len(&self) -> usize
        ensures { result ≡ length self.now }
    {
        self.ranges.len()
    }

    /// Whether there is no range.
    pub fn is_empty(&self) -> bool
        ensures { IsTrue result ↔ (self.now ≡ []) }
    {
        self.ranges.is_empty()
    }

    /// The range at a place; `None` exactly past the end.
    pub fn get(&self, i: usize) -> Option<Span>
        ensures { result ≡ slice_get self.now i }
    {
        self.ranges.get(i)
    }

    /// The ranges with their room.
    pub fn as_ranges(&self) -> &Ranges
        ensures { result.now.spans ≡ self.now }
    {
        &self.ranges
    }

    /// The same ranges again.
    pub fn copy(&self) -> Result<TimeRanges, OutOfMemory>
        ensures { IfOk result (λ t. t ≡ self.now) }
    {
        let ranges = self.ranges.copy()?;
        Ok(TimeRanges { ranges })
    }
}
