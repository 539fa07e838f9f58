ghost use Rattle.std.specs.Prelude.{◌≡◌, [], ◌∷◌, length, IfOk};
ghost use Rattle.bmff_write.specs.Fragment.{segment_bytes};
ghost use Rattle.sample_tables.specs.Facts.{IsSampleIn, IsFileTrack, AreFileTracks};
ghost use Rattle.remux.specs.Runs.{IsShortRun, run_value};
ghost use Rattle.remux.specs.Pieces.{track_out, init_segment_of, sample_out, traf_out};

use crate::runs::RunOfTrack;
use bmff_write::{SampleOut, TrackOut, TrafOut, write_init_with, write_segment};
use mse_base::{Bytes, OutOfMemory, OwnedList};
use sample_tables::{MediaTrack, Sample};
use std::alloc::{AllocError, Global};

/// A track as it is written.
fn track_out(alloc: Global, len: usize, track: &MediaTrack) -> Result<TrackOut, AllocError>
    requires { IsFileTrack len track.now }
    ensures { IfOk result (λ t. t ≡ track_out track.now) }
{
    let info = &track.info;
    let mut edits = Vec::new(alloc);
    if info.media_shift != 0 {
        edits.push((0, info.media_shift as i32))?;
    }
    let codec = track.codec;
    Ok(TrackOut {
        id: info.id,
        kind: info.kind,
        scale: info.scale,
        codec,
        edits: OwnedList::from_vec(edits),
    })
}

/// The initialization segment of tracks.
#[tactic(auto, unfolding(crate::specs::Pieces::init_segment_of))]
pub(crate) fn init_segment_of(
    alloc: Global,
    len: usize,
    tracks: &[MediaTrack],
) -> Result<Bytes, OutOfMemory>
    requires { AreFileTracks len tracks.now }
    ensures { IfOk result (λ b. b ≡ init_segment_of tracks.now) }
{
    let mut outs = Vec::with_capacity(alloc, tracks.len())?;
    let mut stsds = Vec::with_capacity(alloc, tracks.len())?;
    for track in tracks {
        outs.push(track_out(alloc, len, track)?)?;
        stsds.push(track.stsd.copy()?)?;
    }
    write_init_with(alloc, outs.as_slice(), stsds.as_slice())
}

/// A sample with its bytes, which are a part of the file's and not copied.
fn sample_out(file: &Bytes, sample: &Sample) -> Result<SampleOut, OutOfMemory>
    requires { IsSampleIn (length file.now) sample.now }
    ensures { IfOk result (λ s. s ≡ sample_out file.now sample.now) }
{
    let len = file.len();
    let start = sample.place as usize;
    let end = start + sample.size as usize;
    prove!(end <= len);
    Ok(SampleOut {
        duration: sample.duration,
        sync: sample.sync,
        offset: sample.offset,
        payload: file.part(start, end)?,
    })
}

/// The media segment of a run.
pub(crate) fn segment_of(
    alloc: Global,
    file: &Bytes,
    number: u32,
    run: &RunOfTrack<'_>,
) -> Result<Bytes, OutOfMemory>
    requires { IsShortRun (length file.now) run.now.samples.now }
    ensures { IfOk result (λ b. b
        ≡ segment_bytes number (traf_out file.now (run_value run.now) ∷ [])) }
{
    let mut samples = Vec::with_capacity(alloc, run.samples.len())?;
    for sample in run.samples {
        samples.push_reserved(sample_out(file, sample)?);
    }
    let traf = TrafOut {
        id: run.id,
        decode: run.decode,
        samples: OwnedList::from_vec(samples),
    };
    write_segment(alloc, number, &[traf])
}
