//! The frames that a removal names, for stores.

ghost use Rattle.std.specs.Prelude.{◌≡◌, ◌||◌, ◌&&◌, not};
ghost use Rattle.track_store.specs.Named.{is_named};

use crate::Stored;
use mse_base::{Moment, Ticks};

/// Which frames are removed. Their decoding dependencies go with them.
#[derive(Drop)]
pub enum Named {
    /// The frame of this serial.
    Serial(u64),
    /// The frames with `from <= pts` and `pts < to` whose serial is below `below`.
    Within { from: Ticks, to: Moment, below: u64 },
}

impl Named {
    /// Whether the frame is one of those named.
    pub fn is_naming(&self, stored: &Stored) -> bool
        ensures { result ≡ is_named self.now stored.now }
    {
        match *self {
            Named::Serial(serial) => stored.serial == serial,
            Named::Within { from, to, below } => {
                from <= stored.frame.pts && stored.frame.pts.is_before(to) && stored.serial < below
            }
        }
    }

    /// Whether the frame goes: it is named, or it is no random access point and the frame before
    /// it goes.
    pub fn is_taking(&self, stored: &Stored, gone: bool) -> bool
        ensures { result ≡ (is_named self.now stored.now || (gone && not stored.now.frame.sync)) }
    {
        self.is_naming(stored) || (gone && !stored.frame.sync)
    }
}
