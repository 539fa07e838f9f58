ghost use Rattle.std.specs.Prelude.{◌≡◌, ℕ, ◌+◌, ◌*◌, ◌≤◌, ◌^◌, unsigned_abs, pos, [], length, vec_len, IfOk};
ghost use Rattle.std.specs.List.{All, AllByRecursion};
ghost use lib.Chars.{codes};
ghost use Rattle.bmff_boxes.specs.Rows.{all_of};
ghost use Rattle.mse_base.specs.Presentation.{IsReadable};
ghost use Rattle.bmff_fragment.specs.Plans.{plan_of, run_start};
ghost use Rattle.bmff_fragment.specs.Steps.{run_step, runs_part, traf_step, trafs_steps};
ghost use Rattle.bmff_boxes.specs.Reading.{Gives};
ghost use Rattle.bmff_fragment.specs.Slots.{IsWellFormed, IsSlotOf};

use crate::fault::{MoofError, MoofFault};
use crate::header::run_header;
use crate::sample::{data_len, duration, read_samples};
use crate::slot::{Plan, Slot, Slots};
use crate::timing::push_run;
use crate::track_fragment::{MoofProgress, RunProgress, TrackFragment, read_track_fragment};
use bmff_boxes::{Row, open, payload};
use mse_base::{Presentation, TrackList};
use std::alloc::Global;

/// How many samples a movie fragment may have.
const MOST_SAMPLES: u32 = 1 << 20;

/// Where the data of a run begin.
fn run_start(base: i128, end: i128, data_offset: Option<i32>) -> i128
    requires { unsigned_abs base ≤ 2 ^ 120 }
    ensures value { result ≡ run_start base end data_offset }
    ensures bound { (n : ℕ) → unsigned_abs end ≤ unsigned_abs base + 2 ^ 31 + n →
        unsigned_abs result ≤ unsigned_abs base + 2 ^ 31 + n }
{
    match data_offset {
        Some(offset) => base + i128::from(offset),
        None => end,
    }
}

/// Reads a run of a track fragment, and adds its slots.
#[tactic(auto, unfolding(crate::specs::Plans::run_of, crate::specs::Steps::run_step))]
fn read_run(
    alloc: Global,
    fragment: &TrackFragment,
    from: RunProgress,
    trun: &[u8],
    slots: &mut Vec<Slot>,
) -> Result<RunProgress, MoofError>
    requires readable { IsReadable fragment.now.track }
    requires base_small { unsigned_abs fragment.now.base ≤ 2 ^ 120 }
    requires few { from.samples ≤ 2 ^ 20 }
    requires data_end_small { unsigned_abs from.data_end
        ≤ unsigned_abs fragment.now.base + 2 ^ 31 + from.samples * 2 ^ 32 }
    requires time_small { from.decode_time ≤ 2 ^ 64 + from.samples * 2 ^ 32 }
    requires well_formed { All IsWellFormed slots.old.items }
    requires slots_within_samples { vec_len slots.old ≤ from.samples }
    ensures value { Gives (λ to. (to, slots.new.items)) result
        (run_step fragment.now from slots.old.items trun.now) }
    ensures few { IfOk result (λ to. to.samples ≤ 2 ^ 20) }
    ensures data_end_small { IfOk result (λ to. unsigned_abs to.data_end
        ≤ unsigned_abs fragment.now.base + 2 ^ 31 + to.samples * 2 ^ 32) }
    ensures time_small { IfOk result (λ to. to.decode_time ≤ 2 ^ 64 + to.samples * 2 ^ 32) }
    ensures well_formed { IfOk result (λ to. All IsWellFormed slots.new.items) }
    ensures slots_within_samples { IfOk result (λ to. vec_len slots.new ≤ to.samples) }
{
    let Some(header) = run_header(trun) else {
        return Err(MoofError::Fault(MoofFault::Size));
    };
    if header.count > MOST_SAMPLES - from.samples {
        return Err(MoofError::Fault(MoofFault::TooManySamples));
    }
    let samples = read_samples(alloc, &fragment.defaults, &header, trun)?;
    let start = run_start(fragment.base, from.data_end, header.data_offset);
    if header.count != 0 && start < 0 {
        return Err(MoofError::Fault(MoofFault::Place));
    }
    push_run(
        &fragment.track,
        from.decode_time,
        start,
        samples.as_slice(),
        slots,
    )?;
    Ok(RunProgress {
        samples: from.samples + header.count,
        data_end: start + i128::from(data_len(samples.as_slice())),
        decode_time: from.decode_time + u128::from(duration(samples.as_slice())),
    })
}

/// Reads the runs among the boxes of a track fragment, where `samples` samples stand before it, and adds
/// their slots.
fn read_runs(
    alloc: Global,
    fragment: &TrackFragment,
    samples: u32,
    row: Row<'_>,
    slots: &mut Vec<Slot>,
) -> Result<MoofProgress, MoofError>
    requires readable { IsReadable fragment.now.track }
    requires base_small { unsigned_abs fragment.now.base ≤ 2 ^ 120 }
    requires few { samples ≤ 2 ^ 20 }
    requires well_formed { All IsWellFormed slots.old.items }
    requires slots_within_samples { vec_len slots.old ≤ samples }
    ensures value { Gives (λ to. (to, slots.new.items)) result
        (runs_part fragment.now samples slots.old.items (all_of (codes "trun") row.entry)) }
    ensures few { IfOk result (λ to. to.samples ≤ 2 ^ 20) }
    ensures data_end_small { IfOk result (λ to. unsigned_abs to.data_end
        ≤ unsigned_abs fragment.now.base + 2 ^ 53) }
    ensures well_formed { IfOk result (λ to. All IsWellFormed slots.new.items) }
    ensures slots_within_samples { IfOk result (λ to. vec_len slots.new ≤ to.samples) }
{
    let mut row = row;
    let mut at = RunProgress {
        samples,
        data_end: fragment.base,
        decode_time: u128::from(fragment.decode_time),
    };
    'boxes: while let Some(child) = row.next() {
        if child.kind == *b"trun" {
            at = read_run(alloc, fragment, at, child.payload, slots)?;
        }
    }
    Ok(MoofProgress {
        samples: at.samples,
        data_end: at.data_end,
    })
}

/// Reads a track fragment, and adds its slots.
#[tactic(auto, unfolding(crate::specs::Steps::traf_step))]
fn read_traf(
    alloc: Global,
    tracks: &TrackList,
    from: MoofProgress,
    traf: &[u8],
    slots: &mut Vec<Slot>,
) -> Result<MoofProgress, MoofError>
    requires readable { AllByRecursion IsReadable tracks.now }
    requires few { from.samples ≤ 2 ^ 20 }
    requires data_end_small { unsigned_abs from.data_end ≤ 2 ^ 120 }
    requires well_formed { All IsWellFormed slots.old.items }
    requires slots_within_samples { vec_len slots.old ≤ from.samples }
    ensures value { Gives (λ to. (to, slots.new.items)) result
        (traf_step tracks.now from slots.old.items traf.now) }
    ensures few { IfOk result (λ to. to.samples ≤ 2 ^ 20) }
    ensures data_end_small { IfOk result (λ to. unsigned_abs to.data_end
        ≤ unsigned_abs from.data_end + 2 ^ 53) }
    ensures well_formed { IfOk result (λ to. All IsWellFormed slots.new.items) }
    ensures slots_within_samples { IfOk result (λ to. vec_len slots.new ≤ to.samples) }
{
    let Some(row) = open(traf) else {
        return Err(MoofError::Fault(MoofFault::Size));
    };
    let fragment = read_track_fragment(tracks, from.data_end, &row)?;
    read_runs(alloc, &fragment, from.samples, row, slots)
}

/// Reads the track fragments among the boxes of a movie fragment.
fn read_trafs(alloc: Global, tracks: &TrackList, row: Row<'_>) -> Result<Vec<Slot>, MoofError>
    requires readable { AllByRecursion IsReadable tracks.now }
    requires small { length row ≤ 2 ^ 64 }
    ensures value { Gives (λ v. v.items) result
        (trafs_steps tracks.now (record { samples = 0; data_end = pos 0 }) []
        (all_of (codes "traf") row.entry)) }
    ensures well_formed { IfOk result (λ v. All IsWellFormed v.items) }
    ensures few { IfOk result (λ v. vec_len v ≤ 2 ^ 20) }
{
    let mut row = row;
    let mut slots: Vec<Slot> = Vec::new(alloc);
    let mut at = MoofProgress {
        samples: 0,
        data_end: 0,
    };
    'boxes: while let Some(child) = row.next() {
        if child.kind == *b"traf" {
            at = read_traf(alloc, tracks, at, child.payload, &mut slots)?;
        }
    }
    Ok(slots)
}

/// The samples that a movie fragment announces. `moof` is the whole moof box with its header; its type is not
/// looked at. Of `with` the tracks alone are looked at; each has a timescale of at least 1, a media shift that is
/// not negative, and an empty shift from 0 to `2^109` ticks. Of several tracks of one number the first counts.
///
/// The faults are found in the order of reading. Of a track fragment these are: its boxes, its header, where
/// its places are counted from, its track, its decode time; and then of one run after the other: its header,
/// its number of samples, the samples, their place.
///
/// `OutOfMemory` comes where there is no memory for the samples, and also for a run with samples of a video or
/// audio track that begins more than `2^59` bytes behind the movie fragment's first byte.
#[tactic(auto, unfolding(crate::specs::Plans::plan_of))]
pub fn read_moof(alloc: Global, moof: &[u8], with: &Presentation) -> Result<Plan, MoofError>
    requires readable { AllByRecursion IsReadable with.now.tracks }
    ensures value { Gives (λ plan. plan.slots) result (plan_of with.now.tracks moof.now) }
    ensures slots { IfOk result (λ plan. All (IsSlotOf with.now.tracks) plan.slots) }
    ensures few { IfOk result (λ plan. length plan.slots ≤ 2 ^ 20) }
{
    let Some(payload) = payload(moof) else {
        return Err(MoofError::Fault(MoofFault::Size));
    };
    let Some(row) = open(payload) else {
        return Err(MoofError::Fault(MoofFault::Size));
    };
    let Some(_) = row.first(*b"traf") else {
        return Err(MoofError::Fault(MoofFault::NoTraf));
    };
    let slots = read_trafs(alloc, &with.tracks, row)?;
    Ok(Plan {
        slots: Slots::from_vec(slots),
    })
}
