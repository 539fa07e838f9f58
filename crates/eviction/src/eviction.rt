ghost use Rattle.std.specs.Prelude.{◌≡◌, ◌<◌, ℕ, ℤ, Some, None, int_lt, not, filter, length, if◌then◌else◌, IfSome, MatchOption};
ghost use Rattle.track_store.specs.Kept.{AreSoundAndCountable, AreEndedBy, AreStillSound, HasSpareRoom, gaps_of};
ghost use Rattle.track_store.specs.State.{states_of};
ghost use Rattle.range_removal.specs.Rooms.{IsRoomKept};
ghost use Rattle.range_removal.specs.Removal.{tracks_after_removal};
ghost use Rattle.mse_base.specs.Moments.{is_at_or_before, time_or};
ghost use Rattle.eviction.specs.Evicting.{is_up_to_position, tracks_after_eviction, first_of, has_room, removal_ranges, tracks_while_full};
ghost use Rattle.eviction.specs.Steps.{left_after, left_before, tracks_without_left, times_at, times_between, times_from};

use crate::latest::latest_sync;
use crate::lead::{first_sync, lead_of, sync_after};
use crate::need::{Need, has_room, is_below_quota};
use mse_base::{Moment, Ticks};
use range_removal::remove_frames;
use track_store::{FrameStore, Tracks};

/// Whether the range up to the next random access point, or to the duration where there is none,
/// ends at or before the position.
fn is_range_past(position: Ticks, next: &Option<Ticks>, duration: &Moment) -> bool
    ensures { result ≡ is_at_or_before (time_or next.now duration.now) position }
{
    Moment::time_or(*next, *duration).is_at_or_before(position)
}

/// Removes the range up to the next random access point, or to the duration where there is none,
/// unless the new bytes have room. Tells whether it was removed.
fn remove_while_full<S: FrameStore>(
    tracks: &mut Tracks<S>,
    start: Ticks,
    next: &Option<Ticks>,
    need: &Need,
    duration: &Moment,
) -> bool
    ensures answer { has_room need.now.new_bytes need.now.quota
        (states_of S.frames tracks.old.items) ≡ not result }
    ensures states { states_of S.frames tracks.new.items
        ≡ (if result
        then tracks_after_removal start (time_or next.now duration.now) duration.now
        (states_of S.frames tracks.old.items)
        else states_of S.frames tracks.old.items) }
    ensures no_room_lost { IsRoomKept S.spare tracks.old.items tracks.new.items }
    ensures gaps { gaps_of S.gap tracks.new.items ≡ gaps_of S.gap tracks.old.items }
    ensures places { tracks.new.spare ≡ tracks.old.spare }
{
    if has_room(tracks, need) {
        return false;
    }
    remove_frames(tracks, start, Moment::time_or(*next, *duration), *duration);
    true
}

/// Removes the range that starts at a random access point of the lead track, if it ends at or
/// before the position. Answers the start of the next, and `None` where no more are to be removed.
fn evict_before_step<S: FrameStore>(
    tracks: &mut Tracks<S>,
    lead: usize,
    position: Ticks,
    start: Ticks,
    need: &Need,
    duration: &Moment,
) -> Option<Ticks>
    requires first { first_of (times_from (Some start)
        (times_at lead (states_of S.frames tracks.old.items))) ≡ Some start }
    ensures states { tracks_without_left need.now duration.now
        (left_before position lead duration.now result) (states_of S.frames tracks.new.items)
        ≡ tracks_without_left need.now duration.now
        (left_before position lead duration.now (Some start))
        (states_of S.frames tracks.old.items) }
    ensures first { first_of (times_from result
        (times_at lead (states_of S.frames tracks.new.items))) ≡ result }
    ensures fewer { length (times_from result (times_at lead (states_of S.frames tracks.new.items)))
        < length (times_from (Some start) (times_at lead (states_of S.frames tracks.old.items))) }
    ensures later { filter (int_lt position) (times_at lead (states_of S.frames tracks.new.items))
        ≡ filter (int_lt position) (times_at lead (states_of S.frames tracks.old.items)) }
    ensures no_room_lost { IsRoomKept S.spare tracks.old.items tracks.new.items }
    ensures gaps { gaps_of S.gap tracks.new.items ≡ gaps_of S.gap tracks.old.items }
    ensures places { tracks.new.spare ≡ tracks.old.spare }
{
    if position <= start && !duration.is_at_or_before(position) {
        return None;
    }
    let next = sync_after(tracks, lead, start);
    if is_range_past(position, &next, duration)
        && !remove_while_full(tracks, start, &next, need, duration)
    {
        return None;
    }
    next
}

/// Removes the ranges that end at or before the position, from the earliest on.
fn evict_before<S: FrameStore>(
    tracks: &mut Tracks<S>,
    lead: usize,
    position: Ticks,
    need: &Need,
    duration: &Moment,
)
    ensures states { states_of S.frames tracks.new.items
        ≡ tracks_while_full need.now.new_bytes need.now.quota duration.now
        (filter (is_up_to_position position) (removal_ranges duration.now
        (times_at lead (states_of S.frames tracks.old.items))))
        (states_of S.frames tracks.old.items) }
    ensures later { filter (int_lt position) (times_at lead (states_of S.frames tracks.new.items))
        ≡ filter (int_lt position) (times_at lead (states_of S.frames tracks.old.items)) }
    ensures no_room_lost { IsRoomKept S.spare tracks.old.items tracks.new.items }
    ensures gaps { gaps_of S.gap tracks.new.items ≡ gaps_of S.gap tracks.old.items }
    ensures places { tracks.new.spare ≡ tracks.old.spare }
{
    let mut next = first_sync(tracks, lead);
    while let Some(start) = next {
        next = evict_before_step(tracks, lead, position, start, need, duration);
    }
}

/// Removes the last range that starts after the position and before the next. Answers its start,
/// and `None` where no more are to be removed.
fn evict_after_step<S: FrameStore>(
    tracks: &mut Tracks<S>,
    lead: usize,
    position: Ticks,
    next: &Option<Ticks>,
    need: &Need,
    duration: &Moment,
) -> Option<Ticks>
    ensures states { MatchOption result
        (states_of S.frames tracks.new.items ≡ tracks_without_left need.now duration.now
        (left_after position lead duration.now next.now) (states_of S.frames tracks.old.items))
        (λ start. tracks_without_left need.now duration.now
        (left_after position lead duration.now (Some start)) (states_of S.frames tracks.new.items)
        ≡ tracks_without_left need.now duration.now
        (left_after position lead duration.now next.now) (states_of S.frames tracks.old.items)) }
    ensures fewer { IfSome result (λ start. length (times_between position (Some start)
        (times_at lead (states_of S.frames tracks.new.items)))
        < length (times_between position next.now
        (times_at lead (states_of S.frames tracks.old.items)))) }
    ensures no_room_lost { IsRoomKept S.spare tracks.old.items tracks.new.items }
    ensures gaps { gaps_of S.gap tracks.new.items ≡ gaps_of S.gap tracks.old.items }
    ensures places { tracks.new.spare ≡ tracks.old.spare }
{
    match latest_sync(tracks, lead, position, next) {
        Some(start) => {
            if remove_while_full(tracks, start, next, need, duration) {
                Some(start)
            } else {
                None
            }
        }
        None => None,
    }
}

/// Removes the ranges that start after the position, from the latest back.
fn evict_after<S: FrameStore>(
    tracks: &mut Tracks<S>,
    lead: usize,
    position: Ticks,
    need: &Need,
    duration: &Moment,
)
    ensures states { states_of S.frames tracks.new.items
        ≡ tracks_without_left need.now duration.now
        (left_after position lead duration.now None) (states_of S.frames tracks.old.items) }
    ensures no_room_lost { IsRoomKept S.spare tracks.old.items tracks.new.items }
    ensures gaps { gaps_of S.gap tracks.new.items ≡ gaps_of S.gap tracks.old.items }
    ensures places { tracks.new.spare ≡ tracks.old.spare }
{
    let mut next = None;
    while let Some(start) = evict_after_step(tracks, lead, position, &next, need, duration) {
        next = Some(start);
    }
}

/// Makes room for `new_bytes` in a source buffer that may hold `quota` bytes and is full (Media
/// Source Extensions, 3.5.10). The removal ranges lie between the random access points of the lead
/// track, the first video track or else the first track, and after its last up to the duration.
/// First go those that end at or before the current playback position, from the earliest on, then
/// those that start after it, from the latest back, until the new bytes have room. The range that
/// holds the position is never named: of its frames those of the lead track go only as decoding
/// dependencies of a frame that goes, and of another track those too that begin before its next
/// random access point. It needs no memory, no store loses room, the places for further tracks
/// stay, and each track that was sound stays so.
pub fn evict<S: FrameStore>(
    tracks: &mut Tracks<S>,
    position: Ticks,
    new_bytes: u64,
    quota: u64,
    duration: Moment,
)
    ensures states { states_of S.frames tracks.new.items
        ≡ tracks_after_eviction position new_bytes quota duration
        (states_of S.frames tracks.old.items) }
    ensures sound { AreStillSound (states_of S.frames tracks.old.items)
        (states_of S.frames tracks.new.items) }
    ensures sound_and_countable { AreSoundAndCountable (states_of S.frames tracks.old.items)
        → AreSoundAndCountable (states_of S.frames tracks.new.items) }
    ensures ends { (limit : ℤ) → AreEndedBy limit (states_of S.frames tracks.old.items)
        → AreEndedBy limit (states_of S.frames tracks.new.items) }
    ensures no_room_lost { IsRoomKept S.spare tracks.old.items tracks.new.items }
    ensures room { (n : ℕ) → HasSpareRoom S.spare n tracks.old.items
        → HasSpareRoom S.spare n tracks.new.items }
    ensures gaps { gaps_of S.gap tracks.new.items ≡ gaps_of S.gap tracks.old.items }
    ensures places { tracks.new.spare ≡ tracks.old.spare }
    ensures len { length tracks.new.items ≡ length tracks.old.items }
{
    if is_below_quota(tracks, quota) {
        return;
    }
    let lead = lead_of(tracks);
    let need = Need { new_bytes, quota };
    evict_before(tracks, lead, position, &need, &duration);
    evict_after(tracks, lead, position, &need, &duration);
}
