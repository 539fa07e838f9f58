ghost use Rattle.std.specs.Prelude.{◌≡◌, ◌+ℤ◌, ◌<ℤ◌, ◌≤ℤ◌, ◌++◌, [], ◌∷◌, true, MatchOption};
ghost use Rattle.std.specs.List.{AllByRecursion};
ghost use Rattle.mse_base.specs.Time.{IsTick, floor_div, tick};
ghost use Rattle.track_store.specs.State.{states_of};
ghost use Rattle.eviction.specs.Evicting.{first_of};
ghost use Rattle.eviction.specs.Steps.{IsLatest, is_below, times_at, times_between};
ghost use Rattle.eviction.specs.Times.{IsAmong};

use crate::lead::{highest_start, sync_after};
use mse_base::Ticks;
use track_store::{FrameStore, Tracks};

/// Whether a time is before the next, if there is one.
fn is_below(next: &Option<Ticks>, t: Ticks) -> bool
    ensures { result ≡ is_below next.now t }
{
    match next {
        Some(u) => t < *u,
        None => true,
    }
}

/// The first random access point after a time, if it is before the next.
fn sync_between<S: FrameStore>(
    tracks: &Tracks<S>,
    lead: usize,
    after: Ticks,
    next: &Option<Ticks>,
) -> Option<Ticks>
    ensures { result ≡ first_of (times_between after next.now
        (times_at lead (states_of S.frames tracks.now.items))) }
{
    match sync_after(tracks, lead, after) {
        Some(t) => { if is_below(next, t) { Some(t) } else { None } }
        None => None,
    }
}

fn half_way(low: Ticks, high: Ticks) -> Option<Ticks>
    ensures value { result ≡ tick (floor_div (low +ℤ high) 2) }
    ensures low_in_range { IsTick low }
    ensures high_in_range { IsTick high }
{
    let sum = low.get() + high.get();
    Ticks::new(sum.div_euclid(2))
}

/// A time between two others, or the first of them.
fn middle(low: Ticks, high: Ticks) -> Ticks
    requires { low <ℤ high }
    ensures { (low ≤ℤ result) × (result <ℤ high) }
{
    match half_way(low, high) {
        Some(t) => t,
        None => unreachable!(),
    }
}

/// A time that no random access point before the next is after.
fn highest<S: FrameStore>(
    tracks: &Tracks<S>,
    lead: usize,
    low: Ticks,
    next: &Option<Ticks>,
) -> Ticks
    requires { IsAmong low (times_at lead (states_of S.frames tracks.now.items)) }
    ensures { AllByRecursion (λ u. is_below next.now u ≡ true
        → u ≤ℤ result) (times_at lead (states_of S.frames tracks.now.items)) }
{
    match next {
        Some(t) => *t,
        None => highest_start(tracks, lead).unwrap_or(low),
    }
}

/// The last random access point before the next, where there is one at `low`. It halves the time
/// in which it looks, at most 112 times, with one look-up each time.
fn latest_from<S: FrameStore>(
    tracks: &Tracks<S>,
    lead: usize,
    mut low: Ticks,
    next: &Option<Ticks>,
) -> Ticks
    requires has { IsAmong low (times_at lead (states_of S.frames tracks.now.items)) }
    requires below { is_below next.now low ≡ true }
    ensures latest { IsLatest next.now (times_at lead
        (states_of S.frames tracks.now.items)) result }
    ensures not_earlier { low ≤ℤ result }
{
    let mut high = highest(tracks, lead, low, next);
    while low < high {
        let half = middle(low, high);
        match sync_between(tracks, lead, half, next) {
            Some(t) => low = t,
            None => high = half,
        }
    }
    low
}

/// The last random access point of a track after a time and before the next.
pub fn latest_sync<S: FrameStore>(
    tracks: &Tracks<S>,
    lead: usize,
    after: Ticks,
    next: &Option<Ticks>,
) -> Option<Ticks>
    ensures { MatchOption result
        (times_between after next.now (times_at lead (states_of S.frames tracks.now.items)) ≡ [])
        (λ t. times_between after next.now (times_at lead (states_of S.frames tracks.now.items))
        ≡ times_between after (Some t) (times_at lead (states_of S.frames tracks.now.items))
        ++ t ∷ []) }
{
    match sync_between(tracks, lead, after, next) {
        Some(low) => Some(latest_from(tracks, lead, low, next)),
        None => None,
    }
}
