ghost use Rattle.std.specs.Prelude.{◌≡◌, ◌++◌, ◌+◌, ◌*◌, ◌≤◌, ◌^◌, ◌-◌, OnOk, IfOk, length};
ghost use Rattle.std.specs.List.{flat_map, AllByRecursion};
ghost use Rattle.bmff_write.specs.Tracks.{IsTrackOut, AreTracksOut, AreSampleDescriptions, HasFewEdits, IsShort, AreWritable};
ghost use Rattle.bmff_write.specs.Movie.{ftyp_bytes, greatest_number, mvhd_bytes, traks_bytes, trex_bytes, mvex_bytes, moov_bytes, init_bytes_with, init_bytes};

use crate::boxes::{Field, put_box, put_header};
use crate::sample_entry::sample_descriptions;
use crate::track::{put_trak, trak_len};
use crate::track_out::TrackOut;
use mse_base::{Bytes, OutOfMemory};
use std::alloc::{AllocError, Global};

// How many bytes these boxes have.
const FTYP: usize = 24;

const MVHD: usize = 108;

const TREX: usize = 32;

#[tactic(auto, unfolding(crate::specs::Movie::ftyp_bytes))]
fn put_ftyp(out: &mut Vec<u8>) -> Result<(), AllocError>
    ensures { OnOk result (out.new.items ≡ out.old.items ++ ftyp_bytes) }
{
    put_box(
        out,
        FTYP,
        b"ftyp",
        &[
            Field::Code(*b"iso6"),
            Field::Zeros(4),
            Field::Code(*b"iso6"),
            Field::Code(*b"mp41"),
        ],
    )
}

#[tactic(auto, unfolding(crate::specs::Movie::mvhd_bytes))]
fn put_mvhd(out: &mut Vec<u8>, next: u32) -> Result<(), AllocError>
    ensures { OnOk result (out.new.items ≡ out.old.items ++ mvhd_bytes next) }
{
    put_box(
        out,
        MVHD,
        b"mvhd",
        &[
            Field::Full(0, 0),
            Field::Zeros(8),
            Field::U32(1000),
            Field::Zeros(4),
            Field::U32(0x0001_0000),
            Field::U16(0x0100),
            Field::Zeros(10),
            Field::U32(0x0001_0000),
            Field::Zeros(12),
            Field::U32(0x0001_0000),
            Field::Zeros(12),
            Field::U32(0x4000_0000),
            Field::Zeros(24),
            Field::U32(next),
        ],
    )
}

/// The greatest number of a track.
fn greatest(tracks: &[TrackOut]) -> u32
    requires { AllByRecursion IsTrackOut tracks.now }
    ensures value { result ≡ greatest_number tracks.now }
    ensures limit { result ≤ 2 ^ 32 - 2 }
{
    let mut greatest = 0;
    for track in tracks {
        if greatest < track.id {
            greatest = track.id;
        }
    }
    greatest
}

/// How many bytes the track boxes have.
fn traks_len(tracks: &[TrackOut], stsds: &[Bytes]) -> usize
    requires few { length tracks.now ≤ 64 }
    requires few_edits { AllByRecursion HasFewEdits tracks.now }
    requires paired { length stsds.now ≡ length tracks.now }
    requires stsds_short { AllByRecursion IsShort stsds.now }
    ensures size { result ≡ length (traks_bytes tracks.now stsds.now) }
    ensures limit { result ≤ 2 ^ 23 }
{
    let mut len = 0;
    for i in 0..tracks.len() {
        len += trak_len(&tracks[i], stsds[i].as_slice());
    }
    len
}

/// Appends the track boxes.
fn put_traks(out: &mut Vec<u8>, tracks: &[TrackOut], stsds: &[Bytes]) -> Result<(), AllocError>
    requires few_edits { AllByRecursion HasFewEdits tracks.now }
    requires paired { length stsds.now ≡ length tracks.now }
    requires stsds_short { AllByRecursion IsShort stsds.now }
    ensures { OnOk result (out.new.items ≡ out.old.items ++ traks_bytes tracks.now stsds.now) }
{
    for i in 0..tracks.len() {
        put_trak(out, &tracks[i], stsds[i].as_slice())?;
    }
    Ok(())
}

#[tactic(auto, unfolding(crate::specs::Movie::trex_bytes))]
fn put_trex(out: &mut Vec<u8>, track: &TrackOut) -> Result<(), AllocError>
    ensures { OnOk result (out.new.items ≡ out.old.items ++ trex_bytes track.now) }
{
    put_box(
        out,
        TREX,
        b"trex",
        &[
            Field::Full(0, 0),
            Field::U32(track.id),
            Field::U32(1),
            Field::Zeros(12),
        ],
    )
}

fn put_trexes(out: &mut Vec<u8>, tracks: &[TrackOut]) -> Result<(), AllocError>
    ensures { OnOk result (out.new.items ≡ out.old.items ++ flat_map trex_bytes tracks.now) }
{
    for track in tracks {
        put_trex(out, track)?;
    }
    Ok(())
}

#[tactic(auto, using(crate::proofs::MovieSizes::mvex_size))]
fn mvex_len(tracks: &[TrackOut]) -> usize
    requires { length tracks.now ≤ 64 }
    ensures size { result ≡ length (mvex_bytes tracks.now) }
    ensures limit { result ≤ 2056 }
{
    8 + TREX * tracks.len()
}

fn put_mvex(out: &mut Vec<u8>, tracks: &[TrackOut]) -> Result<(), AllocError>
    requires { length tracks.now ≤ 64 }
    ensures { OnOk result (out.new.items ≡ out.old.items ++ mvex_bytes tracks.now) }
{
    put_header(out, mvex_len(tracks), b"mvex")?;
    put_trexes(out, tracks)
}

/// How many bytes the movie box has.
#[tactic(auto, using(crate::proofs::MovieSizes::moov_size))]
fn moov_len(tracks: &[TrackOut], stsds: &[Bytes]) -> usize
    requires { AreWritable tracks.now stsds.now }
    ensures size { result ≡ length (moov_bytes tracks.now stsds.now) }
    ensures limit { result ≤ 2 ^ 24 }
{
    8 + MVHD + traks_len(tracks, stsds) + mvex_len(tracks)
}

fn put_moov(out: &mut Vec<u8>, tracks: &[TrackOut], stsds: &[Bytes]) -> Result<(), AllocError>
    requires { AreWritable tracks.now stsds.now }
    ensures { OnOk result (out.new.items ≡ out.old.items ++ moov_bytes tracks.now stsds.now) }
{
    put_header(out, moov_len(tracks, stsds), b"moov")?;
    put_mvhd(out, greatest(tracks) + 1)?;
    put_traks(out, tracks, stsds)?;
    put_mvex(out, tracks)
}

/// The bytes of an initialization segment of tracks with these sample description boxes.
#[tactic(auto, unfolding(crate::specs::Movie::init_bytes_with))]
fn init_with(alloc: Global, tracks: &[TrackOut], stsds: &[Bytes]) -> Result<Vec<u8>, OutOfMemory>
    requires { AreWritable tracks.now stsds.now }
    ensures { IfOk result (λ v. v.items ≡ init_bytes_with tracks.now stsds.now) }
{
    let mut out = Vec::with_capacity(alloc, FTYP + moov_len(tracks, stsds))?;
    put_ftyp(&mut out)?;
    put_moov(&mut out, tracks, stsds)?;
    Ok(out)
}

/// The same with sample description boxes of one plain sample entry each.
pub(crate) fn init(alloc: Global, tracks: &[TrackOut]) -> Result<Vec<u8>, OutOfMemory>
    requires { AreTracksOut tracks.now }
    ensures { IfOk result (λ v. v.items ≡ init_bytes tracks.now) }
{
    let stsds = sample_descriptions(alloc, tracks)?;
    init_with(alloc, tracks, stsds.as_slice())
}

/// An initialization segment (ISO BMFF byte stream format, section 3): a file type box and a movie box without
/// samples. Each track has one sample entry, which tells nothing of the coding but its type.
///
/// There are 1 to 64 tracks of distinct numbers.
pub fn write_init(alloc: Global, tracks: &[TrackOut]) -> Result<Bytes, OutOfMemory>
    requires tracks { AreTracksOut tracks.now }
    ensures { IfOk result (λ bytes. bytes ≡ init_bytes tracks.now) }
{
    let out = init(alloc, tracks)?;
    Bytes::from_vec(alloc, out)
}

/// An initialization segment as of [`write_init`], where each track has the sample description box (ISO/IEC
/// 14496-12, 8.5.2) that is given for it.
///
/// A sample description is a whole box of at most 2^16 bytes, whose first sample entry has the type of the
/// track's codec.
pub fn write_init_with(
    alloc: Global,
    tracks: &[TrackOut],
    stsd: &[Bytes],
) -> Result<Bytes, OutOfMemory>
    requires tracks { AreTracksOut tracks.now }
    requires descriptions { AreSampleDescriptions tracks.now stsd.now }
    ensures { IfOk result (λ bytes. bytes ≡ init_bytes_with tracks.now stsd.now) }
{
    let out = init_with(alloc, tracks, stsd)?;
    Bytes::from_vec(alloc, out)
}
