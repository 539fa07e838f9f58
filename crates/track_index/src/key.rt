//! A place in the order of presentation, by what stands before it.

ghost use Rattle.std.specs.Prelude.{◌≡◌};

use crate::entry::OrderEntry;
use crate::mark::TimeMark;
use block_list::Test;

/// The entries that begin before `mark` ticks, and those that begin there whose serial is lower.
#[derive(Clone, Copy, Drop)]
pub(crate) struct Key {
    pub(crate) mark: TimeMark,
    pub(crate) serial: u64,
}

impl Test<OrderEntry> for Key {
    ghost use Rattle.track_index.specs.Keyed.{is_before_key};

    ghost is_passed_by = { is_before_key };

    fn is_passed_by(&self, x: &OrderEntry) -> bool {
        self.mark.is_after(x.pts) || (self.mark.is_from(x.pts) && x.serial < self.serial)
    }
}

impl Key {
    /// Before it stands what begins before a mark.
    pub(crate) fn at(mark: TimeMark) -> Key
        ensures { result ≡ record { mark = mark; serial = 0 } }
    {
        Key { mark, serial: 0 }
    }
}
