ghost use Rattle.std.specs.Prelude.{◌≡◌, ◌<◌, ◌≤◌, true, Some, int_lt, ◌+ℤ◌, ◌-ℤ◌, pos, length, IfSome, slice_get};
ghost use Rattle.track_store.specs.Frames.{frames_without, is_in_frame, overlapped};
ghost use Rattle.track_store.specs.Sound.{IsSound};
ghost use Rattle.track_store.specs.State.{state_of};
ghost use Rattle.overlap_rules.specs.Overlap.{rule_for, removal_start, is_removed_from, track_with_room};
ghost use Rattle.overlap_rules.specs.Steps.{IsApplicable, frames_after_rule, frames_after_overlap, track_after_overlap, track_without_older};

use mse_base::{Kind, Moment, Ticks};
use track_store::{FrameStore, Marks, Stored, Track, remove_between};

/// One microsecond in ticks: a video frame that began less than this before the new one goes.
const MICROSECOND: i128 = 141_120;

/// What becomes of the frame that a new one overlaps.
#[derive(Drop)]
pub enum OverlapRule {
    /// It is removed.
    Remove,
    /// It gets this duration.
    Shorten(Ticks),
    /// It stays as it is.
    Keep,
}

/// Whether a time is before the remove window timestamp of an overlapped frame.
fn is_in_remove_window(stored: &Stored, pts: Ticks) -> bool
    ensures { result ≡ int_lt pts (stored.now.frame.pts +ℤ pos 141120) }
{
    pts.get() < stored.frame.pts.get() + MICROSECOND
}

/// What becomes of an overlapped frame.
fn rule_for(kind: Kind, pts: Ticks, stored: &Stored) -> OverlapRule
    requires { is_in_frame pts stored.now ≡ true }
    ensures { result ≡ rule_for kind pts stored.now }
{
    match kind {
        Kind::Video => {
            if is_in_remove_window(stored, pts) {
                OverlapRule::Remove
            } else {
                OverlapRule::Keep
            }
        }
        Kind::Audio => {
            if stored.frame.pts == pts {
                OverlapRule::Remove
            } else {
                shortened_to(stored, pts)
            }
        }
        Kind::Other => OverlapRule::Keep,
    }
}

/// The frame is cut to end at a time that falls within it.
fn shortened_to(stored: &Stored, pts: Ticks) -> OverlapRule
    requires { is_in_frame pts stored.now ≡ true }
    ensures { result ≡ OverlapRule.Shorten (pts -ℤ stored.now.frame.pts) }
{
    // The part that stays is no longer than the frame, whose duration is in range.
    let _longest = stored.frame.dur.get();
    match pts.checked_sub(stored.frame.pts) {
        Some(dur) => OverlapRule::Shorten(dur),
        None => unreachable!(),
    }
}

/// Does with the overlapped frame what its rule says.
fn apply<S: FrameStore>(store: &mut S, i: usize, rule: OverlapRule)
    requires in_range { i < length (S.frames store.old) }
    requires applicable { IfSome (slice_get (S.frames store.old) i) (λ f. IsApplicable rule f) }
    ensures frames { IfSome (slice_get (S.frames store.old) i)
        (λ f. S.frames store.new ≡ frames_after_rule rule f.serial (S.frames store.old)) }
    ensures no_room_lost { S.spare store.old ≤ S.spare store.new }
    ensures gap { S.gap store.new ≡ S.gap store.old }
{
    match rule {
        OverlapRule::Remove => store.remove_at(i),
        OverlapRule::Shorten(dur) => store.cut(i, dur),
        OverlapRule::Keep => {}
    }
}

/// Looks for the overlapped frame, and does with it what its rule says.
fn resolve_overlap<S: FrameStore>(store: &mut S, kind: Kind, pts: Ticks)
    ensures frames { S.frames store.new
        ≡ frames_after_overlap kind pts (overlapped pts (S.frames store.old)) (S.frames store.old) }
    ensures no_room_lost { S.spare store.old ≤ S.spare store.new }
    ensures gap { S.gap store.new ≡ S.gap store.old }
{
    if let Some(i) = store.overlapped(pts) {
        if let Some(stored) = store.get(i) {
            let rule = rule_for(kind, pts, stored);
            apply(store, i, rule);
        }
    }
}

/// Step 1.13, which looks for an overlapped frame only where no last decode timestamp is set.
fn resolve_overlap_of_first<S: FrameStore>(track: &mut Track<S>, pts: Ticks)
    ensures state { state_of S.frames track.new
        ≡ track_after_overlap pts (state_of S.frames track.old) }
    ensures no_room_lost { S.spare track.old.store ≤ S.spare track.new.store }
    ensures gap { S.gap track.new.store ≡ S.gap track.old.store }
{
    if track.marks.last_decode.is_none() {
        resolve_overlap(&mut track.store, track.kind, pts);
    }
}

/// From which time on step 1.14 removes frames, if it does.
fn removal_start(marks: &Marks, pts: Ticks) -> Option<Ticks>
    ensures { result ≡ removal_start marks.now.highest_end pts }
{
    match marks.highest_end {
        None => Some(pts),
        Some(highest) => { if highest <= pts { Some(highest) } else { None } }
    }
}

/// Removes the frames older than a group that begin from one time on and before another, with
/// their decoding dependencies; where there is no group yet all frames are older.
fn remove_older<S: FrameStore>(store: &mut S, group_first: Option<u64>, from: Ticks, end: Ticks)
    ensures frames { S.frames store.new
        ≡ frames_without (is_removed_from (Some from) end group_first) (S.frames store.old) }
    ensures no_room_lost { S.spare store.old ≤ S.spare store.new }
    ensures gap { S.gap store.new ≡ S.gap store.old }
{
    match group_first {
        Some(below) => store.remove_where_time(from, Moment::At(end), below),
        None => remove_between(store, from, Moment::At(end)),
    }
}

/// Steps 1.14 and 1.15: existing frames go that begin from the highest end of the group of the new
/// one on, where that is not above its start, or from its start on if it is the first, and before
/// its end, with their decoding dependencies.
fn remove_existing<S: FrameStore>(track: &mut Track<S>, pts: Ticks, end: Ticks)
    ensures state { state_of S.frames track.new
        ≡ track_without_older pts end (state_of S.frames track.old) }
    ensures no_room_lost { S.spare track.old.store ≤ S.spare track.new.store }
    ensures gap { S.gap track.new.store ≡ S.gap track.old.store }
{
    match removal_start(&track.marks, pts) {
        Some(from) => remove_older(&mut track.store, track.marks.group_first, from, end),
        None => {}
    }
}

/// Makes room in a track buffer for a frame from `pts` to `end` (Media Source Extensions, coded
/// frame processing, steps 1.13 to 1.15). It needs no memory, and its store loses no room. A track
/// that was sound stays sound.
pub fn make_room<S: FrameStore>(track: &mut Track<S>, pts: Ticks, end: Ticks)
    ensures state { state_of S.frames track.new
        ≡ track_with_room pts end (state_of S.frames track.old) }
    ensures sound { IsSound (state_of S.frames track.old) → IsSound (state_of S.frames track.new) }
    ensures no_room_lost { S.spare track.old.store ≤ S.spare track.new.store }
    ensures gap { S.gap track.new.store ≡ S.gap track.old.store }
{
    resolve_overlap_of_first(track, pts);
    remove_existing(track, pts, end);
}
