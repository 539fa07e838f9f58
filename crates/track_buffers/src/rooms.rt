//! Room for more frames.

ghost use Rattle.std.specs.Prelude.{◌≡◌, ◌≤◌, min, slice_get, IfSome, IfOk, OnOk};
ghost use Rattle.track_store.specs.Kept.{HasSpareRoom, gaps_of};
ghost use Rattle.track_store.specs.State.{states_of};
ghost use Rattle.range_removal.specs.Rooms.{IsRoomKept};
ghost use Rattle.track_buffers.specs.Ahead.{HasRoomAhead, ahead_after_frame};

use mse_base::OutOfMemory;
use track_store::{FrameStore, Tracks};

/// For how many frames room is made at once where there is memory, so that the stores are not asked
/// before each frame.
const AHEAD: usize = 16;

/// For how many more frames stores are known to have room: that of the track at a place, into which
/// the last frame went, and each other one. So a frame asks one store for room, and not all.
#[derive(Clone, Copy, Debug)]
pub(crate) struct Ahead {
    pub(crate) place: usize,
    pub(crate) own: usize,
    pub(crate) others: usize,
}

impl Ahead {
    /// Nothing is known.
    pub(crate) const NONE: Ahead = Ahead {
        place: 0,
        own: 0,
        others: 0,
    };

    /// What is left after a frame of the track at a place.
    pub(crate) fn after_frame(self, i: usize) -> Ahead
        ensures { result ≡ ahead_after_frame i self }
    {
        if i == self.place {
            Ahead {
                place: i,
                own: self.own.saturating_sub(1),
                others: self.others,
            }
        } else {
            Ahead {
                place: i,
                own: self.others.saturating_sub(1),
                others: self.others.min(self.own),
            }
        }
    }

    /// For how many more frames each store has room.
    pub(crate) fn least(self) -> usize
        ensures own { result ≤ self.own }
        ensures others { result ≤ self.others }
        ensures value { result ≡ min self.own self.others }
    {
        self.own.min(self.others)
    }
}

fn reserve_at<S: FrameStore>(tracks: &mut Tracks<S>, i: usize, n: usize) -> Result<(), OutOfMemory>
    ensures states { states_of S.frames tracks.new.items ≡ states_of S.frames tracks.old.items }
    ensures spare { OnOk result (IfSome (slice_get tracks.new.items i) (λ t. n ≤ S.spare t.store)) }
    ensures no_room_lost { IsRoomKept S.spare tracks.old.items tracks.new.items }
    ensures gaps { gaps_of S.gap tracks.new.items ≡ gaps_of S.gap tracks.old.items }
    ensures places { tracks.new.spare ≡ tracks.old.spare }
{
    match tracks.get_mut(i) {
        Some(track) => track.store.reserve(n),
        None => Ok(()),
    }
}

/// Makes room for `n` more frames in each store.
fn reserve_all<S: FrameStore>(tracks: &mut Tracks<S>, n: usize) -> Result<(), OutOfMemory>
    ensures states { states_of S.frames tracks.new.items ≡ states_of S.frames tracks.old.items }
    ensures spare { OnOk result (HasSpareRoom S.spare n tracks.new.items) }
    ensures no_room_lost { IsRoomKept S.spare tracks.old.items tracks.new.items }
    ensures gaps { gaps_of S.gap tracks.new.items ≡ gaps_of S.gap tracks.old.items }
    ensures places { tracks.new.spare ≡ tracks.old.spare }
{
    for i in 0..tracks.len() {
        reserve_at(tracks, i, n)?;
    }
    Ok(())
}

/// Makes room for `n` more frames in each store, and for more where there is memory. It answers for
/// how many each store has room.
fn reserve_each<S: FrameStore>(tracks: &mut Tracks<S>, n: usize) -> Result<usize, OutOfMemory>
    ensures states { states_of S.frames tracks.new.items ≡ states_of S.frames tracks.old.items }
    ensures spare { IfOk result (λ m. (n ≤ m) × HasSpareRoom S.spare m tracks.new.items) }
    ensures no_room_lost { IsRoomKept S.spare tracks.old.items tracks.new.items }
    ensures gaps { gaps_of S.gap tracks.new.items ≡ gaps_of S.gap tracks.old.items }
    ensures places { tracks.new.spare ≡ tracks.old.spare }
{
    let more = n.max(AHEAD);
    match reserve_all(tracks, more) {
        Ok(()) => Ok(more),
        Err(_) => {
            reserve_all(tracks, n)?;
            Ok(n)
        }
    }
}

/// The same in the store of the track at a place.
fn reserve_own<S: FrameStore>(
    tracks: &mut Tracks<S>,
    i: usize,
    n: usize,
) -> Result<usize, OutOfMemory>
    ensures states { states_of S.frames tracks.new.items ≡ states_of S.frames tracks.old.items }
    ensures spare { IfOk result
        (λ m. (n ≤ m) × IfSome (slice_get tracks.new.items i) (λ t. m ≤ S.spare t.store)) }
    ensures no_room_lost { IsRoomKept S.spare tracks.old.items tracks.new.items }
    ensures gaps { gaps_of S.gap tracks.new.items ≡ gaps_of S.gap tracks.old.items }
    ensures places { tracks.new.spare ≡ tracks.old.spare }
{
    let more = n.max(AHEAD);
    match reserve_at(tracks, i, more) {
        Ok(()) => Ok(more),
        Err(_) => {
            reserve_at(tracks, i, n)?;
            Ok(n)
        }
    }
}

/// Makes room for `n` more frames in each store, where so much is known, and for more where there is
/// memory. It asks the store into which the last frame went, and all only where the others may have
/// no room.
#[cold]
#[inline(never)]
pub(crate) fn reserve_ahead<S: FrameStore>(
    tracks: &mut Tracks<S>,
    ahead: Ahead,
    n: usize,
) -> Result<Ahead, OutOfMemory>
    requires { HasRoomAhead S.spare ahead tracks.old.items }
    ensures states { states_of S.frames tracks.new.items ≡ states_of S.frames tracks.old.items }
    ensures spare { IfOk result
        (λ a. (n ≤ a.own) × (n ≤ a.others) × HasRoomAhead S.spare a tracks.new.items) }
    ensures no_room_lost { IsRoomKept S.spare tracks.old.items tracks.new.items }
    ensures gaps { gaps_of S.gap tracks.new.items ≡ gaps_of S.gap tracks.old.items }
    ensures places { tracks.new.spare ≡ tracks.old.spare }
{
    if n <= ahead.others {
        let own = reserve_own(tracks, ahead.place, n)?;
        return Ok(Ahead {
            place: ahead.place,
            own,
            others: ahead.others,
        });
    }
    let each = reserve_each(tracks, n)?;
    Ok(Ahead {
        place: ahead.place,
        own: each,
        others: each,
    })
}
