//! What is known of a block of entries.

ghost use Rattle.std.specs.Prelude.{◌≡◌};
ghost use Rattle.std.specs.List.{list_any};
ghost use Rattle.track_index.specs.Order.{end_of};
ghost use Rattle.track_index.specs.Known.{is_sync, greatest_end, known_of};

use crate::entry::OrderEntry;
use crate::mark::TimeMark;
use block_list::Fact;

/// The greatest end of some entries, and whether one is a random access point.
#[derive(Drop)]
pub(crate) struct Known {
    pub(crate) end: Option<TimeMark>,
    pub(crate) sync: bool,
}

/// When the entry's frame ends.
pub(crate) fn end_mark(entry: &OrderEntry) -> TimeMark
    ensures { result ≡ end_of entry.now }
{
    TimeMark::beyond(entry.pts, entry.dur)
}

/// The greatest end of some entries.
pub(crate) fn greatest_end(items: &[OrderEntry]) -> Option<TimeMark>
    ensures { result ≡ greatest_end items.now }
{
    let mut best = None;
    for entry in items {
        best = best.max(Some(end_mark(entry)));
    }
    best
}

fn has_sync(items: &[OrderEntry]) -> bool
    ensures { result ≡ list_any is_sync items.now }
{
    for entry in items {
        if entry.sync {
            return true;
        }
    }
    false
}

impl Fact<OrderEntry> for Known {
    ghost use Rattle.track_index.specs.Known.{known_of};

    ghost of = { known_of };

    fn of(items: &[OrderEntry]) -> Known {
        Known {
            end: greatest_end(items),
            sync: has_sync(items),
        }
    }

    fn with(&self, x: &OrderEntry) -> Known {
        Known {
            end: self.end.max(Some(end_mark(x))),
            sync: self.sync || x.sync,
        }
    }
}
