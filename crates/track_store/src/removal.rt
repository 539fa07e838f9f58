ghost use Rattle.std.specs.Prelude.{◌≡◌, ◌≤◌, ◌<◌, ◌&&◌, length, slice_get, IfSome, MatchOption};
ghost use Rattle.track_store.specs.Frames.{frames_without, has_serial, is_between};
ghost use Rattle.track_store.specs.Named.{AreNamedBelow, AreNamedWith};

use crate::{FrameStore, Stored};
use mse_base::{Moment, Ticks};

/// Whether a frame begins at or after a time and before a moment.
fn is_between(stored: &Stored, from: Ticks, to: &Moment) -> bool
    ensures { result ≡ is_between from to.now stored.now }
{
    from <= stored.frame.pts && stored.frame.pts.is_before(*to)
}

/// Whether a frame has the greatest serial that there is, and begins in the time.
fn is_greatest_between(stored: &Stored, from: Ticks, to: &Moment) -> bool
    ensures answer { result
        ≡ (has_serial 18446744073709551615 stored.now && is_between from to.now stored.now) }
    ensures fits { stored.now.serial ≤ 18446744073709551615 }
{
    let between = is_between(stored, from, to);
    stored.serial == u64::MAX && between
}

/// The place of the frame with the greatest serial that there is, if it is held and begins in the
/// time. No serial is above it, so `remove_where_time` cannot name it.
fn greatest_serial_between<S: FrameStore>(store: &S, from: Ticks, to: &Moment) -> Option<usize>
    ensures { MatchOption result
        (AreNamedBelow from to.now (S.frames store.now))
        (λ i. (i < length (S.frames store.now)) × IfSome (slice_get (S.frames store.now) i)
        (λ x. AreNamedWith x from to.now (S.frames store.now))) }
{
    // The proof reads off this that the serials ascend.
    store.serials_ascend();
    let len = store.len();
    if len == 0 {
        return None;
    }
    match store.get(len - 1) {
        Some(stored) => {
            if is_greatest_between(stored, from, to) {
                Some(len - 1)
            } else {
                None
            }
        }
        None => None,
    }
}

/// Removes the frames with `from <= pts` and `pts < to`, whatever their serial, and their decoding
/// dependencies. Where `to` is `Moment::Nan` there is none. It needs no memory.
pub fn remove_between<S: FrameStore>(store: &mut S, from: Ticks, to: Moment)
    ensures frames { S.frames store.new ≡ frames_without (is_between from to) (S.frames store.old) }
    ensures no_room_lost { S.spare store.old ≤ S.spare store.new }
    ensures gap { S.gap store.new ≡ S.gap store.old }
{
    match greatest_serial_between(store, from, &to) {
        Some(last) => {
            store.remove_at(last);
            store.remove_where_time(from, to, u64::MAX);
        }
        None => store.remove_where_time(from, to, u64::MAX),
    }
}
