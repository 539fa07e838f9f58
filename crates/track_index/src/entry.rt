//! What the order knows of a frame.

ghost use Rattle.std.specs.Prelude.{◌≡◌, ℤ, ◌+◌, ◌<◌, ◌+ℤ◌};
ghost use Rattle.mse_base.specs.Time.{IsTick};
ghost use Rattle.track_index.specs.Order.{entry_of, is_in_entry, span_of, end_of, is_sync_from};

use mse_base::{Moment, Span, Ticks};
use track_store::Stored;

/// What the order knows of a frame, which it names by its serial.
#[derive(Clone, Copy, Drop)]
pub(crate) struct OrderEntry {
    pub(crate) pts: Ticks,
    pub(crate) dur: Ticks,
    pub(crate) serial: u64,
    pub(crate) sync: bool,
}

/// What the order of presentation keeps of a frame.
pub(crate) fn entry_of(stored: &Stored) -> OrderEntry
    ensures { result ≡ entry_of stored.now }
{
    OrderEntry {
        pts: stored.frame.pts,
        dur: stored.frame.dur,
        serial: stored.serial,
        sync: stored.frame.sync,
    }
}

/// Whether the presentation interval of the entry's frame holds a time.
pub(crate) fn is_in_entry(entry: &OrderEntry, t: Ticks) -> bool
    ensures { result ≡ is_in_entry t entry.now }
{
    entry.pts <= t && t.get() < entry.pts.get() + entry.dur.get()
}

/// Whether it is a random access point that is not before a moment.
pub(crate) fn is_sync_from(entry: &OrderEntry, t: &Moment) -> bool
    ensures { result ≡ is_sync_from t.now entry.now }
{
    let before = entry.pts.is_before(*t);
    entry.sync && !before
}

/// When a frame ends that begins at a time and lasts so long.
pub(crate) fn end_at(pts: Ticks, dur: Ticks) -> Ticks
    requires { IsTick (pts +ℤ dur) }
    ensures { result ≡ pts +ℤ dur }
{
    match pts.checked_add(dur) {
        Some(end) => end,
        None => unreachable!(),
    }
}

/// Where the entry's frame ends.
pub(crate) fn end_of(entry: &OrderEntry) -> Ticks
    requires { IsTick (entry.now.pts +ℤ entry.now.dur) }
    ensures { result ≡ end_of entry.now }
{
    end_at(entry.pts, entry.dur)
}

/// The presentation interval of the entry's frame.
pub(crate) fn span_of(entry: &OrderEntry) -> Span
    requires { IsTick (entry.now.pts +ℤ entry.now.dur) }
    ensures { result ≡ span_of entry.now }
{
    Span {
        start: entry.pts,
        end: end_of(entry),
    }
}
