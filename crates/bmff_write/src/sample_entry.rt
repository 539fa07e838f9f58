ghost use Rattle.std.specs.Prelude.{◌≡◌, ◌++◌, ◌≤◌, OnOk, IfOk, length, map};
ghost use Rattle.std.specs.List.{AllByRecursion};
ghost use Rattle.bmff_write.specs.Tracks.{IsShort};
ghost use Rattle.bmff_write.specs.Movie.{rate_of, visual_entry_bytes, audio_entry_bytes, sample_entry_by, stsd_bytes};

use crate::boxes::{Field, put_box, put_fields, put_header};
use crate::track_out::TrackOut;
use mse_base::{Bytes, Kind, OutOfMemory};
use std::alloc::{AllocError, Global};

// How many bytes these boxes have.
const VISUAL_ENTRY: usize = 86;

const AUDIO_ENTRY: usize = 36;

/// The sampling rate of a sample entry, with 16 bits behind the point; 0 where the rate needs more than 16 bits.
fn rate(scale: u32) -> u32
    ensures { result ≡ rate_of scale }
{
    if scale <= 65535 { scale * 65536 } else { 0 }
}

#[tactic(auto, unfolding(crate::specs::Movie::visual_entry_bytes))]
fn put_visual_entry(out: &mut Vec<u8>, codec: &[u8; 4]) -> Result<(), AllocError>
    ensures { OnOk result (out.new.items ≡ out.old.items ++ visual_entry_bytes codec.now) }
{
    put_box(
        out,
        VISUAL_ENTRY,
        codec,
        &[
            Field::Zeros(6),
            Field::U16(1),
            Field::Zeros(16),
            Field::Zeros(4),
            Field::U32(0x0048_0000),
            Field::U32(0x0048_0000),
            Field::Zeros(4),
            Field::U16(1),
            Field::Zeros(32),
            Field::U16(0x0018),
            Field::U16(0xffff),
        ],
    )
}

#[tactic(auto, unfolding(crate::specs::Movie::audio_entry_bytes))]
fn put_audio_entry(out: &mut Vec<u8>, codec: &[u8; 4], scale: u32) -> Result<(), AllocError>
    ensures { OnOk result (out.new.items ≡ out.old.items ++ audio_entry_bytes codec.now scale) }
{
    put_box(
        out,
        AUDIO_ENTRY,
        codec,
        &[
            Field::Zeros(6),
            Field::U16(1),
            Field::Zeros(8),
            Field::U16(2),
            Field::U16(16),
            Field::Zeros(4),
            Field::U32(rate(scale)),
        ],
    )
}

/// How many bytes the sample entry of a track has.
#[tactic(auto, using(crate::proofs::MovieSizes::visual_entry_size, crate::proofs::MovieSizes::audio_entry_size))]
fn sample_entry_len(track: &TrackOut) -> usize
    ensures size { result
        ≡ length (sample_entry_by track.now.kind track.now.codec track.now.scale) }
    ensures limit { result ≤ 86 }
{
    match track.kind {
        Kind::Video => VISUAL_ENTRY,
        Kind::Audio => AUDIO_ENTRY,
        Kind::Other => VISUAL_ENTRY,
    }
}

fn put_sample_entry(out: &mut Vec<u8>, track: &TrackOut) -> Result<(), AllocError>
    ensures { OnOk result (out.new.items
        ≡ out.old.items ++ sample_entry_by track.now.kind track.now.codec track.now.scale) }
{
    match track.kind {
        Kind::Video => put_visual_entry(out, &track.codec),
        Kind::Audio => put_audio_entry(out, &track.codec, track.scale),
        Kind::Other => put_visual_entry(out, &track.codec),
    }
}

/// Appends the sample description box of a track.
fn put_stsd(out: &mut Vec<u8>, track: &TrackOut) -> Result<(), AllocError>
    ensures { OnOk result (out.new.items ≡ out.old.items ++ stsd_bytes track.now) }
{
    put_header(out, 16 + sample_entry_len(track), b"stsd")?;
    put_fields(out, &[Field::Full(0, 0), Field::U32(1)])?;
    put_sample_entry(out, track)
}

/// The sample description box of a track.
#[tactic(auto, using(crate::proofs::MovieSizes::stsd_below))]
fn sample_description(alloc: Global, track: &TrackOut) -> Result<Bytes, OutOfMemory>
    ensures value { IfOk result (λ b. b ≡ stsd_bytes track.now) }
    ensures stsd_short { IfOk result IsShort }
{
    let mut out = Vec::new(alloc);
    put_stsd(&mut out, track)?;
    Bytes::from_vec(alloc, out)
}

/// The sample description boxes of some tracks.
pub(crate) fn sample_descriptions(
    alloc: Global,
    tracks: &[TrackOut],
) -> Result<Vec<Bytes>, OutOfMemory>
    ensures value { IfOk result (λ v. v.items ≡ map stsd_bytes tracks.now) }
    ensures stsds_short { IfOk result (λ v. AllByRecursion IsShort v.items) }
{
    let mut boxes = Vec::new(alloc);
    for track in tracks {
        let stsd = sample_description(alloc, track)?;
        boxes.push(stsd)?;
    }
    Ok(boxes)
}
