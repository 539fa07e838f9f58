ghost use Rattle.std.specs.Prelude.{◌≡◌, ◌++◌, ◌+◌, ◌*◌, ◌%◌, ◌<◌, ◌≤◌, IfOk, OnOk, replicate};
ghost use Rattle.bmff_write.specs.Made.{made_track, made_sample, made_samples, made_traf, made_segment, made_bytes};

use crate::movie::init;
use crate::segment::put_segment;
use crate::track_out::TrackOut;
use crate::traf_out::{SampleOut, TrafOut};
use mse_base::{Bytes, Kind, OutOfMemory, OwnedList};
use std::alloc::Global;

fn payload(alloc: Global, len: usize, value: u8) -> Result<Bytes, OutOfMemory>
    ensures { IfOk result (λ b. b ≡ replicate len value) }
{
    let mut bytes = Vec::new(alloc);
    bytes.resize(len, value)?;
    Bytes::from_vec(alloc, bytes)
}

/// Sample `i` of segment `j`.
#[tactic(auto, unfolding(crate::specs::Made::made_sample))]
fn sample(alloc: Global, j: u32, i: u32) -> Result<SampleOut, OutOfMemory>
    requires segment_in_range { j < 10000 }
    requires sample_in_range { i < 30 }
    ensures { IfOk result (λ s. s ≡ made_sample j i) }
{
    let len = 8 + (31 * j + 7 * i) % 25;
    let value = (i + j) % 256;
    let payload = payload(alloc, len as usize, value as u8)?;
    Ok(SampleOut {
        duration: 3000,
        sync: i == 0,
        offset: 0,
        payload,
    })
}

#[tactic(auto, unfolding(crate::specs::Made::made_samples))]
fn samples(alloc: Global, j: u32) -> Result<OwnedList<SampleOut>, OutOfMemory>
    requires { j < 10000 }
    ensures { IfOk result (λ samples. samples ≡ made_samples j) }
{
    let mut samples = Vec::with_capacity(alloc, 30)?;
    for i in 0..30 {
        samples.push(sample(alloc, j, i)?)?;
    }
    Ok(OwnedList::from_vec(samples))
}

#[tactic(auto, unfolding(crate::specs::Made::made_traf))]
fn traf(alloc: Global, j: u32) -> Result<TrafOut, OutOfMemory>
    requires { j < 10000 }
    ensures { IfOk result (λ t. t ≡ made_traf j) }
{
    let samples = samples(alloc, j)?;
    Ok(TrafOut {
        id: 1,
        decode: 90000 * u64::from(j),
        samples,
    })
}

#[tactic(auto, unfolding(crate::specs::Made::made_track))]
fn track(alloc: Global) -> TrackOut
    ensures { result ≡ made_track }
{
    TrackOut {
        id: 1,
        kind: Kind::Video,
        scale: 90000,
        codec: *b"avc1",
        edits: OwnedList::from_vec(Vec::new(alloc)),
    }
}

/// Appends segment `j`.
fn put_made_segment(alloc: Global, out: &mut Vec<u8>, j: u32) -> Result<(), OutOfMemory>
    requires { j < 10000 }
    ensures { OnOk result (out.new.items ≡ out.old.items ++ made_segment j) }
{
    let traf = traf(alloc, j)?;
    put_segment(out, j + 1, &[traf])?;
    Ok(())
}

/// A file of one video track, number 1, of 90000 units a second and the codec `avc1`, with `n` segments of one
/// second each, `n` from 1 to 10000. Segment `j`, counted from 0, has the sequence number `j + 1` and 30 samples
/// of 3000 units, of which the first alone is a sync sample. Its sample `i` has
/// `8 + (31 * j + 7 * i) % 25` bytes of the value `(i + j) % 256`.
#[tactic(auto, unfolding(crate::specs::Made::made_bytes))]
pub fn make(alloc: Global, n: u32) -> Result<Bytes, OutOfMemory>
    requires positive { 1 ≤ n }
    requires limit { n ≤ 10000 }
    ensures { IfOk result (λ bytes. bytes ≡ made_bytes n) }
{
    let mut out = init(alloc, &[track(alloc)])?;
    for j in 0..n {
        put_made_segment(alloc, &mut out, j)?;
    }
    Bytes::from_vec(alloc, out)
}
