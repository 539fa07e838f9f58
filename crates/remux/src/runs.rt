ghost use Rattle.std.specs.Prelude.{◌≡◌, pos, ◌-ℤ◌, ◌≤ℤ◌, ◌++◌, ◌≤◌, ◌^◌, map, OnOk, IfOk};
ghost use Rattle.std.specs.List.{AllByRecursion};
ghost use Rattle.mse_base.specs.Time.{media_ticks};
ghost use Rattle.sample_tables.specs.Facts.{IsSampleIn, IsFileTrack};
ghost use Rattle.remux.specs.Runs.{is_run_start, bytes_of, is_over_before, run_value, sample_run, track_runs, runs_in_order};

use mse_base::{Kind, convert};
use sample_tables::{MediaTrack, Sample};
use std::alloc::{AllocError, Global};

/// How many samples of an audio track a run has.
const AUDIO_RUN: usize = 64;

/// The most samples of a run.
const MOST_SAMPLES: usize = 1 << 16;

/// The most bytes of a run.
const MOST_BYTES: u64 = 1 << 26;

/// Samples that become a movie fragment.
#[derive(Clone, Copy, Debug)]
pub struct RunOfTrack<'a> {
    /// The number of their track.
    pub id: u32,
    /// When the first of them is decoded, in the track's media time, with its lag.
    pub decode: u64,
    /// The same in ticks of the presentation.
    pub time: i128,
    /// The samples in order.
    pub samples: &'a [Sample],
}

/// Whether a run begins with a sample of this position in its track.
fn is_run_start(kind: Kind, position: usize, sample: &Sample) -> bool
    ensures { result ≡ is_run_start kind position sample.now }
{
    match kind {
        Kind::Video => sample.sync,
        Kind::Audio => position % AUDIO_RUN == 0,
        Kind::Other => false,
    }
}

/// Whether a run of so many bytes ends before a sample of this position.
fn is_over_before(kind: Kind, position: usize, run: &[Sample], bytes: u64, sample: &Sample) -> bool
    requires bytes { bytes ≡ bytes_of run.now }
    requires few { bytes ≤ 2 ^ 26 }
    ensures { result ≡ is_over_before kind position run.now sample.now }
{
    is_run_start(kind, position, sample)
        || run.len() >= MOST_SAMPLES
        || bytes + u64::from(sample.size) > MOST_BYTES
}

/// A media time of a track, which is shifted by its edit list, in ticks of the presentation.
fn ticks_of(decode: u64, shift: i64, scale: u32) -> i128
    requires positive { 1 ≤ scale }
    requires shift_not_negative { pos 0 ≤ℤ shift }
    ensures { result ≡ media_ticks (pos decode -ℤ shift) scale }
{
    let media_time = i128::from(decode) - i128::from(shift);
    match convert(media_time, scale) {
        Some(time) => time.get(),
        None => unreachable!(),
    }
}

/// The run of samples of a track.
fn run_of<'a>(len: usize, track: &MediaTrack, samples: &'a [Sample]) -> RunOfTrack<'a>
    requires track { IsFileTrack len track.now }
    requires samples { AllByRecursion (IsSampleIn len) samples.now }
    ensures { run_value result ≡ sample_run track.now samples.now }
{
    let decode = match samples {
        [first, ..] => first.decode + track.lag,
        [] => track.lag,
    };
    RunOfTrack {
        id: track.info.id,
        decode,
        time: ticks_of(decode, track.info.media_shift, track.info.scale),
        samples,
    }
}

/// Appends the runs of a track of a file of this length.
fn push_runs<'a>(
    len: usize,
    runs: &mut Vec<RunOfTrack<'a>>,
    track: &'a MediaTrack,
) -> Result<(), AllocError>
    requires { IsFileTrack len track.now }
    ensures { OnOk result (map run_value runs.new.items
        ≡ map run_value runs.old.items ++ track_runs track.now) }
{
    let samples = track.samples.as_slice();
    let [first, ..] = samples else {
        return Ok(());
    };
    let mut start = 0;
    let mut bytes = u64::from(first.size);
    for i in 1..samples.len() {
        let sample = &samples[i];
        if is_over_before(track.info.kind, i, &samples[start..i], bytes, sample) {
            runs.push(run_of(len, track, &samples[start..i]))?;
            start = i;
            bytes = u64::from(sample.size);
        } else {
            bytes += u64::from(sample.size);
        }
    }
    runs.push(run_of(len, track, &samples[start..]))?;
    Ok(())
}

/// The runs of all tracks of a file of this length, in order of the time at which they are decoded, at a tie in
/// order of tracks.
#[tactic(auto, unfolding(crate::specs::Runs::runs_in_order))]
pub(crate) fn runs_in_order<'a>(
    alloc: Global,
    len: usize,
    tracks: &'a [MediaTrack],
) -> Result<Vec<RunOfTrack<'a>>, AllocError>
    requires { AllByRecursion (IsFileTrack len) tracks.now }
    ensures { IfOk result (λ v. map run_value v.items ≡ runs_in_order tracks.now) }
{
    let mut runs = Vec::new(alloc);
    for track in tracks {
        push_runs(len, &mut runs, track)?;
    }
    runs.sort_by_key(|run| run.time)?;
    Ok(runs)
}
