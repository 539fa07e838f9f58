//! Tracks and track fragments to be written.

ghost use Rattle.std.specs.Prelude.{◌≡◌, ◌≢◌, ◌*◌, ◌≤◌, ◌-◌, ◌^◌, IfOk, length};
ghost use Rattle.mse_base.specs.declared.track.Kind.TheVariants.{Other};
ghost use Rattle.bmff_write.specs.Tracks.{IsTrackOut, AreTracksOut, AreEdits, payload_len};

use bmff_write::{SampleOut, TrackOut, TrafOut, write_init};
use md5::{Digest, Md5};
use mse_base::{Bytes, Kind, OutOfMemory, OwnedList};
use std::alloc::Global;
use std::process::Abort;

/// Whether bytes have a length and a digest.
pub(super) fn are(bytes: &[u8], len: usize, digest: u128) -> bool {
    let found = u128::from_be_bytes(Md5::digest(bytes));
    (bytes.len(), found) == (len, digest)
}

/// A track without edits.
pub(super) fn plain_track(
    alloc: Global,
    id: u32,
    kind: Kind,
    scale: u32,
    codec: [u8; 4],
) -> TrackOut
    requires numbered { 1 ≤ id }
    requires below { id ≤ 2 ^ 32 - 2 }
    requires positive { 1 ≤ scale }
    requires media { kind ≢ Other }
    ensures number { result.id ≡ id }
    ensures codec { result.codec ≡ codec }
    ensures track { IsTrackOut result }
{
    TrackOut {
        id,
        kind,
        scale,
        codec,
        edits: OwnedList::from_vec(Vec::new(alloc)),
    }
}

/// A track of the codec `avc1` with edits.
pub(super) fn edited_track(
    rt: &(impl Abort + AllocGlobal),
    id: u32,
    kind: Kind,
    scale: u32,
    edits: &[(u32, i32)],
) -> TrackOut
    requires numbered { 1 ≤ id }
    requires below { id ≤ 2 ^ 32 - 2 }
    requires positive { 1 ≤ scale }
    requires media { kind ≢ Other }
    requires edits { AreEdits edits.now }
    ensures { IsTrackOut result }
{
    let edits = Vec::from_slice(rt.alloc(), edits).expect(rt, "memory");
    TrackOut {
        id,
        kind,
        scale,
        codec: *b"avc1",
        edits: OwnedList::from_vec(edits),
    }
}

/// 64 audio tracks, numbered from 1 on.
pub(super) fn tracks_of_64(alloc: Global) -> Result<Vec<TrackOut>, OutOfMemory>
    ensures { IfOk result (λ v. AreTracksOut v.items) }
{
    let mut tracks = Vec::new(alloc);
    for i in 0..64 {
        let track = plain_track(alloc, i + 1, Kind::Audio, 1000, *b"mp4a");
        tracks.push(track)?;
    }
    Ok(tracks)
}

/// Samples of `len` bytes of value 0 each, by their durations, whether they are sync samples, and their offsets.
fn samples_of(
    rt: &(impl Abort + AllocGlobal),
    len: usize,
    rows: &[(u32, bool, i32)],
) -> OwnedList<SampleOut>
    requires { len ≤ 4 }
    ensures count { length result ≡ length rows.now }
    ensures payload { payload_len result ≤ 4 * length rows.now }
{
    let mut samples = Vec::new(rt.alloc());
    for row in rows {
        let payload = Bytes::copy_of(rt.alloc(), &[0; 4][..len]).expect(rt, "memory");
        let sample = SampleOut {
            duration: row.0,
            sync: row.1,
            offset: row.2,
            payload,
        };
        samples.push(sample).expect(rt, "memory");
    }
    OwnedList::from_vec(samples)
}

/// A track fragment of a few such samples.
pub(super) fn one_traf(
    rt: &(impl Abort + AllocGlobal),
    id: u32,
    decode: u64,
    len: usize,
    rows: &[(u32, bool, i32)],
) -> TrafOut
    requires payload { len ≤ 4 }
    requires few { length rows.now ≤ 10 }
    ensures count { length result.samples ≤ 10 }
    ensures payload { payload_len result.samples ≤ 40 }
{
    let samples = samples_of(rt, len, rows);
    TrafOut {
        id,
        decode,
        samples,
    }
}

/// Appends an initialization segment of these tracks.
pub(super) fn put_init(rt: &(impl Abort + AllocGlobal), out: &mut Vec<u8>, tracks: &[TrackOut])
    requires { AreTracksOut tracks.now }
{
    let init = write_init(rt.alloc(), tracks).expect(rt, "memory");
    out.extend_from_slice(init.as_slice()).expect(rt, "memory");
}
