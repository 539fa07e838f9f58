//! What callers can see of how an [`IndexStore`] looks a frame up.

use crate::IndexStore;
use crate::frames::place_of;
use mse_base::Ticks;

impl IndexStore {
    ghost use Rattle.std.specs.Prelude.{◌≡◌, ◌+◌, ◌≤◌, ◌<◌, ◌^◌, IfSome, length};
    ghost use Rattle.track_store.specs.Frames.{frame_at, overlapped};

    /// The answer of `overlapped`. Adds one to `visits` for each frame that the walk looks at one
    /// by one; a frame that a search looks at counts nothing, nor does what is known of a block.
    /// Takes no memory.
    ///
    /// The walk goes over the frames that begin by the time in order of presentation, the last
    /// first, and ends at the overlapped frame, or where no frame before ends after the time. A
    /// block of which no frame ends after the time is passed whole, so the frames that it looks
    /// at are of two blocks at most.
    pub fn overlapped_counted(&self, t: Ticks, visits: &mut u64) -> Option<usize>
        requires { visits.old ≤ 2 ^ 62 }
        ensures frame { frame_at self.now.frames result ≡ overlapped t self.now.frames }
        ensures in_range { IfSome result (λ i. i < length self.now.frames) }
        ensures not_less { visits.old ≤ visits.new }
        ensures at_most { visits.new ≤ visits.old + 256 }
    {
        match self.order.last_holding(t, visits) {
            Some(entry) => place_of(&self.items, entry.serial),
            None => None,
        }
    }
}
