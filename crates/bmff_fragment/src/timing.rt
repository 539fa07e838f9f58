ghost use Rattle.std.specs.Prelude.{◌≡◌, ◌+◌, ◌≤◌, ◌^◌, ◌++◌, pos, ◌-ℤ◌, unsigned_abs, length, vec_len, OnOk, IfErr};
ghost use Rattle.std.specs.List.{All};
ghost use Rattle.mse_base.specs.Presentation.{IsReadable};
ghost use Rattle.bmff_boxes.specs.declared.reading.ReadError.TheVariants.{OutOfMemory};
ghost use Rattle.bmff_fragment.specs.Times.{tick_at, slot_of, slots_of_run};
ghost use Rattle.bmff_fragment.specs.Plans.{media_slots};
ghost use Rattle.bmff_fragment.specs.Slots.{IsWellFormed};

use crate::fault::MoofError;
use crate::sample::FragmentSample;
use crate::slot::Slot;
use mse_base::{Ticks, TrackInfo, convert};

/// The flag sample_is_non_sync_sample of the sample flags (ISO/IEC 14496-12, 8.8.3.1).
const NON_SYNC_SAMPLE: u32 = 0x10000;

/// The farthest place at which a run may begin. A track fragment of at least 60 bytes moves the data at most
/// `2^31` bytes on, so only a movie fragment of more than ten gigabytes can name a place beyond it.
const FARTHEST: u128 = 1 << 59;

/// A media time of a track in ticks, by its edit list.
#[tactic(auto, unfolding(crate::specs::Times::tick_at))]
fn tick_at(track: &TrackInfo, media_time: i128) -> Ticks
    requires readable { IsReadable track.now }
    requires small { unsigned_abs media_time ≤ 2 ^ 67 }
    ensures value { result ≡ tick_at track.now media_time }
    ensures near { unsigned_abs (result -ℤ track.now.empty_shift) ≤ 2 ^ 106 }
{
    let behind_edit = media_time - i128::from(track.media_shift);
    let time = convert(behind_edit, track.scale).unwrap();
    time.checked_add(track.empty_shift).unwrap()
}

/// The slot of a sample that is decoded at `time` and whose data begin at `start`.
#[tactic(auto, unfolding(crate::specs::Times::slot_of))]
fn make_slot(track: &TrackInfo, time: u128, start: u64, sample: &FragmentSample) -> Slot
    requires readable { IsReadable track.now }
    requires time_small { time ≤ 2 ^ 66 }
    requires start_small { start ≤ 2 ^ 59 + 2 ^ 52 }
    ensures value { result ≡ slot_of track.now time start sample.now }
    ensures well_formed { IsWellFormed result }
{
    let decode_time = time as i128;
    let media_time = decode_time + i128::from(sample.offset);
    let pts = tick_at(track, media_time);
    let end = tick_at(track, media_time + i128::from(sample.duration));
    Slot {
        track_id: track.id,
        pts,
        dts: tick_at(track, decode_time),
        dur: end.checked_sub(pts).unwrap(),
        sync: sample.flags & NON_SYNC_SAMPLE == 0,
        start,
        end: start + u64::from(sample.size),
    }
}

/// Adds the slots of samples that are decoded from `time` on and whose data begin at `start`.
fn push_slots(
    track: &TrackInfo,
    time: u128,
    start: u64,
    samples: &[FragmentSample],
    slots: &mut Vec<Slot>,
) -> Result<(), MoofError>
    requires readable { IsReadable track.now }
    requires few { length samples.now ≤ 2 ^ 20 }
    requires time_small { time ≤ 2 ^ 65 }
    requires start_small { start ≤ 2 ^ 59 }
    requires well_formed { All IsWellFormed slots.old.items }
    ensures slots { OnOk result (slots.new.items ≡ slots.old.items
        ++ slots_of_run track.now time (record { start = pos start; samples = samples.now })) }
    ensures len { OnOk result (vec_len slots.new ≡ vec_len slots.old + length samples.now) }
    ensures well_formed { OnOk result (All IsWellFormed slots.new.items) }
    ensures out_of_memory { IfErr result (λ e. e ≡ OutOfMemory) }
{
    slots.reserve(samples.len())?;
    let mut decode_time = time;
    let mut place = start;
    for sample in samples {
        let duration = u128::from(sample.duration);
        let size = u64::from(sample.size);
        slots.push_reserved(make_slot(track, decode_time, place, sample));
        decode_time += duration;
        place += size;
    }
    Ok(())
}

/// Adds the slots of a run of samples of a track fragment, where a buffer takes frames of its track.
pub(crate) fn push_run(
    track: &TrackInfo,
    time: u128,
    start: i128,
    samples: &[FragmentSample],
    slots: &mut Vec<Slot>,
) -> Result<(), MoofError>
    requires readable { IsReadable track.now }
    requires few { length samples.now ≤ 2 ^ 20 }
    requires time_small { time ≤ 2 ^ 65 }
    requires well_formed { All IsWellFormed slots.old.items }
    ensures slots { OnOk result (slots.new.items ≡ slots.old.items
        ++ media_slots track.now
        (slots_of_run track.now time (record { start = start; samples = samples.now }))) }
    ensures slots_within_samples { OnOk result (vec_len slots.new
        ≤ vec_len slots.old + length samples.now) }
    ensures well_formed { OnOk result (All IsWellFormed slots.new.items) }
    ensures out_of_memory { IfErr result (λ e. e ≡ OutOfMemory) }
{
    if samples.is_empty() || !track.kind.is_media() {
        return Ok(());
    }
    let start = start.unsigned_abs();
    if start > FARTHEST {
        return Err(MoofError::OutOfMemory);
    }
    push_slots(track, time, start as u64, samples, slots)
}
