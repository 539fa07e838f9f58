ghost use Rattle.std.specs.Prelude.{◌≡◌, ◌++◌, ◌+◌, ◌*◌, ◌≤◌, ◌<◌, ◌^◌, OnOk, length, sum_by};
ghost use Rattle.std.specs.List.{flat_map};
ghost use Rattle.bmff_write.specs.Tracks.{AreTrafsOut, payload_len};
ghost use Rattle.bmff_write.specs.Fragment.{mfhd_bytes, tfhd_bytes, tfdt_bytes, sample_flags, sample_bytes, trun_bytes, traf_bytes, traf_len, trafs_bytes, moof_len, moof_bytes, payloads_of, mdat_bytes};

use crate::boxes::{Field, put_box, put_fields, put_header};
use crate::traf_out::{SampleOut, TrafOut};
use std::alloc::AllocError;

// How many bytes these boxes have.
const MFHD: usize = 16;

const TFHD: usize = 16;

const TFDT: usize = 20;

#[tactic(auto, unfolding(crate::specs::Fragment::mfhd_bytes))]
fn put_mfhd(out: &mut Vec<u8>, sequence: u32) -> Result<(), AllocError>
    ensures { OnOk result (out.new.items ≡ out.old.items ++ mfhd_bytes sequence) }
{
    put_box(
        out,
        MFHD,
        b"mfhd",
        &[Field::Full(0, 0), Field::U32(sequence)],
    )
}

#[tactic(auto, unfolding(crate::specs::Fragment::tfhd_bytes))]
fn put_tfhd(out: &mut Vec<u8>, id: u32) -> Result<(), AllocError>
    ensures { OnOk result (out.new.items ≡ out.old.items ++ tfhd_bytes id) }
{
    put_box(
        out,
        TFHD,
        b"tfhd",
        &[Field::Full(0, 0x020000), Field::U32(id)],
    )
}

#[tactic(auto, unfolding(crate::specs::Fragment::tfdt_bytes))]
fn put_tfdt(out: &mut Vec<u8>, decode: u64) -> Result<(), AllocError>
    ensures { OnOk result (out.new.items ≡ out.old.items ++ tfdt_bytes decode) }
{
    put_box(out, TFDT, b"tfdt", &[Field::Full(1, 0), Field::U64(decode)])
}

fn flags(sync: bool) -> u32
    ensures { result ≡ sample_flags sync }
{
    if sync { 0x0200_0000 } else { 0x0101_0000 }
}

fn put_sample(out: &mut Vec<u8>, sample: &SampleOut) -> Result<(), AllocError>
    requires { length sample.now.payload ≤ 2 ^ 26 }
    ensures { OnOk result (out.new.items ≡ out.old.items ++ sample_bytes sample.now) }
{
    put_fields(
        out,
        &[
            Field::U32(sample.duration),
            Field::U32(sample.payload.len() as u32),
            Field::U32(flags(sample.sync)),
            Field::I32(sample.offset),
        ],
    )
}

fn put_samples(out: &mut Vec<u8>, samples: &[SampleOut]) -> Result<(), AllocError>
    requires { payload_len samples.now ≤ 2 ^ 26 }
    ensures { OnOk result (out.new.items ≡ out.old.items ++ flat_map sample_bytes samples.now) }
{
    for sample in samples {
        put_sample(out, sample)?;
    }
    Ok(())
}

/// Appends the run of the samples whose bytes begin at the place `at` of the movie fragment.
fn put_trun(out: &mut Vec<u8>, at: usize, samples: &[SampleOut]) -> Result<(), AllocError>
    requires small { at < 2 ^ 31 }
    requires few { length samples.now ≤ 2 ^ 19 }
    requires payload_small { payload_len samples.now ≤ 2 ^ 26 }
    ensures { OnOk result (out.new.items ≡ out.old.items ++ trun_bytes at samples.now) }
{
    let count = samples.len();
    put_header(out, 20 + 16 * count, b"trun")?;
    put_fields(
        out,
        &[
            Field::Full(1, 0x000f01),
            Field::U32(count as u32),
            Field::U32(at as u32),
        ],
    )?;
    put_samples(out, samples)
}

fn traf_size(traf: &TrafOut) -> usize
    requires { length traf.now.samples ≤ 2 ^ 19 }
    ensures { result ≡ traf_len traf.now }
{
    64 + 16 * traf.samples.len()
}

fn put_traf(out: &mut Vec<u8>, at: usize, traf: &TrafOut) -> Result<(), AllocError>
    requires small { at < 2 ^ 31 }
    requires few { length traf.now.samples ≤ 2 ^ 19 }
    requires payload_small { payload_len traf.now.samples ≤ 2 ^ 26 }
    ensures { OnOk result (out.new.items ≡ out.old.items ++ traf_bytes at traf.now) }
{
    put_header(out, traf_size(traf), b"traf")?;
    put_tfhd(out, traf.id)?;
    put_tfdt(out, traf.decode)?;
    put_trun(out, at, traf.samples.as_slice())
}

/// How many bytes the samples have.
fn samples_payload(samples: &[SampleOut]) -> usize
    requires { payload_len samples.now ≤ 2 ^ 26 }
    ensures { result ≡ payload_len samples.now }
{
    let mut len = 0;
    for sample in samples {
        len += sample.payload.len();
    }
    len
}

/// Appends the track fragments, whose samples begin at the place `start` of the movie fragment.
fn put_trafs(out: &mut Vec<u8>, start: usize, trafs: &[TrafOut]) -> Result<(), AllocError>
    requires small { start ≤ 2 ^ 24 + 8 }
    requires few_samples { sum_by (λ t. length t.samples) trafs.now ≤ 2 ^ 19 }
    requires payload_small { sum_by (λ t. payload_len t.samples) trafs.now ≤ 2 ^ 26 }
    ensures { OnOk result (out.new.items ≡ out.old.items ++ trafs_bytes start trafs.now) }
{
    let mut at = start;
    for traf in trafs {
        put_traf(out, at, traf)?;
        at += samples_payload(traf.samples.as_slice());
    }
    Ok(())
}

/// How many bytes the movie fragment has.
pub(crate) fn moof_size(trafs: &[TrafOut]) -> usize
    requires { AreTrafsOut trafs.now }
    ensures value { result ≡ moof_len trafs.now }
    ensures limit { result < 2 ^ 24 }
{
    let mut len = 24;
    for traf in trafs {
        len += traf_size(traf);
    }
    len
}

/// Appends the movie fragment box of these track fragments.
pub(crate) fn put_moof(
    out: &mut Vec<u8>,
    sequence: u32,
    trafs: &[TrafOut],
) -> Result<(), AllocError>
    requires { AreTrafsOut trafs.now }
    ensures { OnOk result (out.new.items ≡ out.old.items ++ moof_bytes sequence trafs.now) }
{
    let len = moof_size(trafs);
    put_header(out, len, b"moof")?;
    put_mfhd(out, sequence)?;
    put_trafs(out, len + 8, trafs)
}

/// How many bytes the samples of all track fragments have.
pub(crate) fn payload_size(trafs: &[TrafOut]) -> usize
    requires { sum_by (λ t. payload_len t.samples) trafs.now ≤ 2 ^ 26 }
    ensures { result ≡ sum_by (λ t. payload_len t.samples) trafs.now }
{
    let mut len = 0;
    for traf in trafs {
        len += samples_payload(traf.samples.as_slice());
    }
    len
}

fn put_payloads(out: &mut Vec<u8>, samples: &[SampleOut]) -> Result<(), AllocError>
    ensures { OnOk result (out.new.items ≡ out.old.items ++ payloads_of samples.now) }
{
    for sample in samples {
        out.extend_from_slice(sample.payload.as_slice())?;
    }
    Ok(())
}

fn put_all_payloads(out: &mut Vec<u8>, trafs: &[TrafOut]) -> Result<(), AllocError>
    ensures { OnOk result (out.new.items
        ≡ out.old.items ++ flat_map (λ t. payloads_of t.samples) trafs.now) }
{
    for traf in trafs {
        put_payloads(out, traf.samples.as_slice())?;
    }
    Ok(())
}

/// Appends the media data box with the bytes of the samples of all track fragments.
pub(crate) fn put_mdat(out: &mut Vec<u8>, trafs: &[TrafOut]) -> Result<(), AllocError>
    requires { sum_by (λ t. payload_len t.samples) trafs.now ≤ 2 ^ 26 }
    ensures { OnOk result (out.new.items ≡ out.old.items ++ mdat_bytes trafs.now) }
{
    put_header(out, 8 + payload_size(trafs), b"mdat")?;
    put_all_payloads(out, trafs)
}
