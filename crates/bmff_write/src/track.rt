ghost use Rattle.std.specs.Prelude.{◌≡◌, ◌++◌, ◌+◌, ◌≤◌, ◌^◌, OnOk, length};
ghost use Rattle.std.specs.List.{flat_map};
ghost use Rattle.bmff_write.specs.Movie.{volume_of, tkhd_bytes, edit_bytes, elst_bytes, edts_bytes, mdhd_bytes, handler_of, hdlr_bytes, vmhd_bytes, smhd_bytes, media_header_bytes, url_bytes, dref_bytes, dinf_bytes, empty_table_bytes, stsz_bytes, stbl_bytes, minf_bytes, mdia_bytes, trak_bytes};

use crate::boxes::{Field, put_box, put_fields, put_header};
use crate::track_out::TrackOut;
use mse_base::Kind;
use std::alloc::AllocError;

// How many bytes these boxes have.
const TKHD: usize = 92;

const MDHD: usize = 32;

const HDLR: usize = 33;

const VMHD: usize = 20;

const SMHD: usize = 16;

const URL: usize = 12;

const DREF: usize = 16 + URL;

const DINF: usize = 8 + DREF;

const EMPTY_TABLE: usize = 16;

const STSZ: usize = 20;

fn volume(kind: Kind) -> u16
    ensures { result ≡ volume_of kind }
{
    match kind {
        Kind::Video => 0,
        Kind::Audio => 0x0100,
        Kind::Other => 0,
    }
}

#[tactic(auto, unfolding(crate::specs::Movie::tkhd_bytes))]
fn put_tkhd(out: &mut Vec<u8>, track: &TrackOut) -> Result<(), AllocError>
    ensures { OnOk result (out.new.items ≡ out.old.items ++ tkhd_bytes track.now) }
{
    put_box(
        out,
        TKHD,
        b"tkhd",
        &[
            Field::Full(0, 7),
            Field::Zeros(8),
            Field::U32(track.id),
            Field::Zeros(20),
            Field::U16(volume(track.kind)),
            Field::Zeros(2),
            Field::U32(0x0001_0000),
            Field::Zeros(12),
            Field::U32(0x0001_0000),
            Field::Zeros(12),
            Field::U32(0x4000_0000),
            Field::Zeros(8),
        ],
    )
}

fn put_edits(out: &mut Vec<u8>, edits: &[(u32, i32)]) -> Result<(), AllocError>
    ensures { OnOk result (out.new.items ≡ out.old.items ++ flat_map edit_bytes edits.now) }
{
    for edit in edits {
        put_fields(
            out,
            &[
                Field::U32(edit.0),
                Field::I32(edit.1),
                Field::U16(1),
                Field::U16(0),
            ],
        )?;
    }
    Ok(())
}

fn put_elst(out: &mut Vec<u8>, edits: &[(u32, i32)]) -> Result<(), AllocError>
    requires { length edits.now ≤ 1000 }
    ensures { OnOk result (out.new.items ≡ out.old.items ++ elst_bytes edits.now) }
{
    put_header(out, 16 + 12 * edits.len(), b"elst")?;
    put_fields(out, &[Field::Full(0, 0), Field::U32(edits.len() as u32)])?;
    put_edits(out, edits)
}

/// How many bytes the edit box has, 0 where there are no edits.
#[tactic(auto, using(crate::proofs::MovieSizes::edts_size))]
fn edts_len(edits: &[(u32, i32)]) -> usize
    requires { length edits.now ≤ 1000 }
    ensures size { result ≡ length (edts_bytes edits.now) }
    ensures limit { result ≤ 12024 }
{
    if edits.is_empty() {
        0
    } else {
        24 + 12 * edits.len()
    }
}

/// Appends the edit box, where there are edits.
fn put_edts(out: &mut Vec<u8>, edits: &[(u32, i32)]) -> Result<(), AllocError>
    requires { length edits.now ≤ 1000 }
    ensures { OnOk result (out.new.items ≡ out.old.items ++ edts_bytes edits.now) }
{
    if edits.is_empty() {
        return Ok(());
    }
    put_header(out, edts_len(edits), b"edts")?;
    put_elst(out, edits)
}

#[tactic(auto, unfolding(crate::specs::Movie::mdhd_bytes))]
fn put_mdhd(out: &mut Vec<u8>, scale: u32) -> Result<(), AllocError>
    ensures { OnOk result (out.new.items ≡ out.old.items ++ mdhd_bytes scale) }
{
    put_box(
        out,
        MDHD,
        b"mdhd",
        &[
            Field::Full(0, 0),
            Field::Zeros(8),
            Field::U32(scale),
            Field::Zeros(4),
            Field::U16(0x55c4),
            Field::Zeros(2),
        ],
    )
}

fn handler(kind: Kind) -> [u8; 4]
    ensures value { result ≡ handler_of kind }
    ensures four { length result ≡ 4 }
{
    match kind {
        Kind::Video => *b"vide",
        Kind::Audio => *b"soun",
        Kind::Other => *b"vide",
    }
}

#[tactic(auto, unfolding(crate::specs::Movie::hdlr_bytes))]
fn put_hdlr(out: &mut Vec<u8>, kind: Kind) -> Result<(), AllocError>
    ensures { OnOk result (out.new.items ≡ out.old.items ++ hdlr_bytes kind) }
{
    put_box(
        out,
        HDLR,
        b"hdlr",
        &[
            Field::Full(0, 0),
            Field::Zeros(4),
            Field::Code(handler(kind)),
            Field::Zeros(12),
            Field::Zeros(1),
        ],
    )
}

#[tactic(auto, unfolding(crate::specs::Movie::vmhd_bytes))]
fn put_vmhd(out: &mut Vec<u8>) -> Result<(), AllocError>
    ensures { OnOk result (out.new.items ≡ out.old.items ++ vmhd_bytes) }
{
    put_box(out, VMHD, b"vmhd", &[Field::Full(0, 1), Field::Zeros(8)])
}

#[tactic(auto, unfolding(crate::specs::Movie::smhd_bytes))]
fn put_smhd(out: &mut Vec<u8>) -> Result<(), AllocError>
    ensures { OnOk result (out.new.items ≡ out.old.items ++ smhd_bytes) }
{
    put_box(out, SMHD, b"smhd", &[Field::Full(0, 0), Field::Zeros(4)])
}

/// How many bytes the box with the header of the media has.
#[tactic(auto, using(crate::proofs::MovieSizes::vmhd_size, crate::proofs::MovieSizes::smhd_size))]
fn media_header_len(kind: Kind) -> usize
    ensures size { result ≡ length (media_header_bytes kind) }
    ensures limit { result ≤ 20 }
{
    match kind {
        Kind::Video => VMHD,
        Kind::Audio => SMHD,
        Kind::Other => VMHD,
    }
}

fn put_media_header(out: &mut Vec<u8>, kind: Kind) -> Result<(), AllocError>
    ensures { OnOk result (out.new.items ≡ out.old.items ++ media_header_bytes kind) }
{
    match kind {
        Kind::Video => put_vmhd(out),
        Kind::Audio => put_smhd(out),
        Kind::Other => put_vmhd(out),
    }
}

#[tactic(auto, unfolding(crate::specs::Movie::url_bytes))]
fn put_url(out: &mut Vec<u8>) -> Result<(), AllocError>
    ensures { OnOk result (out.new.items ≡ out.old.items ++ url_bytes) }
{
    put_box(out, URL, b"url ", &[Field::Full(0, 1)])
}

fn put_dref(out: &mut Vec<u8>) -> Result<(), AllocError>
    ensures { OnOk result (out.new.items ≡ out.old.items ++ dref_bytes) }
{
    put_header(out, DREF, b"dref")?;
    put_fields(out, &[Field::Full(0, 0), Field::U32(1)])?;
    put_url(out)
}

fn put_dinf(out: &mut Vec<u8>) -> Result<(), AllocError>
    ensures { OnOk result (out.new.items ≡ out.old.items ++ dinf_bytes) }
{
    put_header(out, DINF, b"dinf")?;
    put_dref(out)
}

/// Appends a table of no entries.
#[tactic(auto, unfolding(crate::specs::Movie::empty_table_bytes))]
fn put_empty_table(out: &mut Vec<u8>, kind: &[u8; 4]) -> Result<(), AllocError>
    ensures { OnOk result (out.new.items ≡ out.old.items ++ empty_table_bytes kind.now) }
{
    put_box(out, EMPTY_TABLE, kind, &[Field::Full(0, 0), Field::U32(0)])
}

#[tactic(auto, unfolding(crate::specs::Movie::stsz_bytes))]
fn put_stsz(out: &mut Vec<u8>) -> Result<(), AllocError>
    ensures { OnOk result (out.new.items ≡ out.old.items ++ stsz_bytes) }
{
    put_box(
        out,
        STSZ,
        b"stsz",
        &[Field::Full(0, 0), Field::U32(0), Field::U32(0)],
    )
}

#[tactic(auto, using(crate::proofs::MovieSizes::stbl_size))]
fn stbl_len(stsd: &[u8]) -> usize
    requires { length stsd.now ≤ 2 ^ 16 }
    ensures size { result ≡ length (stbl_bytes stsd.now) }
    ensures limit { result ≤ 2 ^ 16 + 76 }
{
    8 + stsd.len() + 3 * EMPTY_TABLE + STSZ
}

fn put_stbl(out: &mut Vec<u8>, stsd: &[u8]) -> Result<(), AllocError>
    requires { length stsd.now ≤ 2 ^ 16 }
    ensures { OnOk result (out.new.items ≡ out.old.items ++ stbl_bytes stsd.now) }
{
    put_header(out, stbl_len(stsd), b"stbl")?;
    out.extend_from_slice(stsd)?;
    put_empty_table(out, b"stts")?;
    put_empty_table(out, b"stsc")?;
    put_stsz(out)?;
    put_empty_table(out, b"stco")
}

#[tactic(auto, using(crate::proofs::MovieSizes::minf_size))]
fn minf_len(kind: Kind, stsd: &[u8]) -> usize
    requires { length stsd.now ≤ 2 ^ 16 }
    ensures size { result ≡ length (minf_bytes kind stsd.now) }
    ensures limit { result ≤ 2 ^ 16 + 140 }
{
    8 + media_header_len(kind) + DINF + stbl_len(stsd)
}

fn put_minf(out: &mut Vec<u8>, kind: Kind, stsd: &[u8]) -> Result<(), AllocError>
    requires { length stsd.now ≤ 2 ^ 16 }
    ensures { OnOk result (out.new.items ≡ out.old.items ++ minf_bytes kind stsd.now) }
{
    put_header(out, minf_len(kind, stsd), b"minf")?;
    put_media_header(out, kind)?;
    put_dinf(out)?;
    put_stbl(out, stsd)
}

#[tactic(auto, using(crate::proofs::MovieSizes::mdia_size))]
fn mdia_len(track: &TrackOut, stsd: &[u8]) -> usize
    requires { length stsd.now ≤ 2 ^ 16 }
    ensures size { result ≡ length (mdia_bytes track.now stsd.now) }
    ensures limit { result ≤ 2 ^ 16 + 213 }
{
    8 + MDHD + HDLR + minf_len(track.kind, stsd)
}

fn put_mdia(out: &mut Vec<u8>, track: &TrackOut, stsd: &[u8]) -> Result<(), AllocError>
    requires { length stsd.now ≤ 2 ^ 16 }
    ensures { OnOk result (out.new.items ≡ out.old.items ++ mdia_bytes track.now stsd.now) }
{
    put_header(out, mdia_len(track, stsd), b"mdia")?;
    put_mdhd(out, track.scale)?;
    put_hdlr(out, track.kind)?;
    put_minf(out, track.kind, stsd)
}

/// How many bytes a track box has.
#[tactic(auto, using(crate::proofs::MovieSizes::trak_size))]
pub(crate) fn trak_len(track: &TrackOut, stsd: &[u8]) -> usize
    requires few_edits { length track.now.edits ≤ 1000 }
    requires stsd_short { length stsd.now ≤ 2 ^ 16 }
    ensures size { result ≡ length (trak_bytes track.now stsd.now) }
    ensures limit { result ≤ 2 ^ 17 }
{
    8 + TKHD + edts_len(track.edits.as_slice()) + mdia_len(track, stsd)
}

/// Appends a track box.
pub(crate) fn put_trak(out: &mut Vec<u8>, track: &TrackOut, stsd: &[u8]) -> Result<(), AllocError>
    requires few_edits { length track.now.edits ≤ 1000 }
    requires stsd_short { length stsd.now ≤ 2 ^ 16 }
    ensures { OnOk result (out.new.items ≡ out.old.items ++ trak_bytes track.now stsd.now) }
{
    put_header(out, trak_len(track, stsd), b"trak")?;
    put_tkhd(out, track)?;
    put_edts(out, track.edits.as_slice())?;
    put_mdia(out, track, stsd)
}
