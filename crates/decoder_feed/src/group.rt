ghost use Rattle.std.specs.Prelude.{◌≡◌, ◌≤◌, List, None, Some, length, map, take, drop, slice_get, IfOk, MatchOption};
ghost use Rattle.track_store.specs.Frames.{overlapped};
ghost use Rattle.track_store.specs.Sound.{IsSound};
ghost use Rattle.track_store.specs.State.{state_of};
ghost use Rattle.track_store.specs.declared.store.Stored.{Stored};
ghost use Rattle.decoder_feed.specs.Feed.{feed_of, ArePlaces, IsGroupUpTo};

use mse_base::{OutOfMemory, Ticks};
use std::alloc::Global;
use track_store::{FrameStore, Track};

/// The places from one on and before another: in any list that is long enough, those of the
/// elements between.
fn places_between(alloc: Global, first: usize, end: usize) -> Result<Vec<usize>, OutOfMemory>
    requires { first ≤ end }
    ensures { IfOk result (λ places. (fs : List Stored) → end ≤ length fs
        → map (slice_get fs) places.items ≡ map Some (drop first (take end fs))) }
{
    let mut places = Vec::new(alloc);
    places.reserve(end - first)?;
    for place in first..end {
        places.push_reserved(place);
    }
    Ok(places)
}

/// The places in the store of the frames that a decoder needs to show a time: of the frame that is
/// shown then, which is the overlapped frame, and before it of those of its group, from its random
/// access point on. `None` exactly where no frame is shown then.
pub fn feed<S: FrameStore>(
    alloc: Global,
    track: &Track<S>,
    t: Ticks,
) -> Result<Option<Vec<usize>>, OutOfMemory>
    requires { IsSound (state_of S.frames track.now) }
    ensures places { IfOk result (λ o. MatchOption o
        (feed_of t (S.frames track.now.store) ≡ None)
        (λ places. ArePlaces places.items (S.frames track.now.store)
        (feed_of t (S.frames track.now.store)))) }
    ensures group { IsGroupUpTo (overlapped t (S.frames track.now.store))
        (feed_of t (S.frames track.now.store)) }
{
    let Some(last) = track.store.overlapped(t) else {
        return Ok(None);
    };
    // A place is below a length, so the next one is a number too.
    let _len = track.store.len();
    match track.store.group_start(last) {
        Some(first) => Ok(Some(places_between(alloc, first, last + 1)?)),
        None => Ok(None),
    }
}
