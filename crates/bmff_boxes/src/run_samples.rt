ghost use Rattle.std.specs.Prelude.{◌≡◌, ◌+◌, ◌<◌, ◌≤◌, length, Some};
ghost use Rattle.std.specs.Option.{option_map};
ghost use Rattle.bmff_boxes.specs.Fields.{field, signed_field, signed_number, is_version, optional_len, optional_field};
ghost use Rattle.bmff_boxes.specs.FragmentFields.{sample_len, composition_offset, trun_sample_at, trun_sample_of};
ghost use Rattle.bmff_boxes.specs.RunFields.{run_fields_of};

use crate::entries::TrunSample;
use crate::fragment_fields::{
    SAMPLE_COMPOSITION_OFFSET, SAMPLE_DURATION, SAMPLE_FLAGS, SAMPLE_SIZE, sample_place,
};
use crate::numbers::{flags, has_version, optional_len};
use byteorder::{BigEndian, ByteOrder};

/// Where the fields of the samples of a track run (8.8.8) lie, found once for all of them.
#[derive(Clone, Copy, Debug)]
pub struct RunFields {
    flags: u32,
    /// The version is 0, in which composition offsets are not below 0.
    is_unsigned: bool,
    /// How many samples they are of.
    pub count: u32,
    /// Where the first sample begins.
    first: usize,
    /// The bytes of a sample.
    len: usize,
    /// Where the size begins in a sample.
    size: usize,
    /// Where the flags do.
    sample_flags: usize,
    /// Where the composition offset does.
    offset: usize,
}

/// Where the fields of `count` samples lie, or `None` exactly where the payload ends before they do.
#[tactic(auto, unfolding(crate::specs::RunFields::run_fields_of))]
pub fn run_fields(p: &[u8], count: u32) -> Option<RunFields>
    ensures { result ≡ run_fields_of p.now count }
{
    let flags = flags(p)?;
    if p.len() < sample_place(flags, count) {
        return None;
    }
    let size = optional_len(flags, SAMPLE_DURATION, 4);
    let sample_flags = size + optional_len(flags, SAMPLE_SIZE, 4);
    let offset = sample_flags + optional_len(flags, SAMPLE_FLAGS, 4);
    Some(RunFields {
        flags,
        is_unsigned: has_version(p, 0),
        count,
        first: sample_place(flags, 0),
        len: offset + optional_len(flags, SAMPLE_COMPOSITION_OFFSET, 4),
        size,
        sample_flags,
        offset,
    })
}

/// The four bytes at `at` as a number.
#[tactic(auto, unfolding(crate::specs::Fields::field))]
fn read_u32(p: &[u8], at: usize) -> u32
    requires { at + 4 ≤ length p.now }
    ensures { Some result ≡ field 4 at p.now }
{
    BigEndian::read_u32(&p[at..])
}

/// The four bytes at `at` as a signed number.
#[tactic(auto, unfolding(crate::specs::Fields::field))]
fn read_i32(p: &[u8], at: usize) -> i32
    requires { at + 4 ≤ length p.now }
    ensures { Some result ≡ signed_field 4 at p.now }
{
    BigEndian::read_i32(&p[at..])
}

/// A field of four bytes that is there where its flag is set.
fn read_optional_u32(p: &[u8], flags: u32, flag: u32, at: usize) -> Option<u32>
    requires { at + optional_len flags flag 4 ≤ length p.now }
    ensures { Some result ≡ optional_field flags flag 4 at p.now }
{
    if flags & flag == 0 {
        None
    } else {
        Some(read_u32(p, at))
    }
}

/// A signed field of four bytes that is there where its flag is set.
fn read_optional_i32(p: &[u8], flags: u32, flag: u32, at: usize) -> Option<i32>
    requires { at + optional_len flags flag 4 ≤ length p.now }
    ensures { Some result ≡ option_map (option_map (signed_number 4))
        (optional_field flags flag 4 at p.now) }
{
    if flags & flag == 0 {
        None
    } else {
        Some(read_i32(p, at))
    }
}

/// The composition offset of a sample, in a run whose version is 0 where `is_unsigned`.
fn read_optional_offset(p: &[u8], is_unsigned: bool, flags: u32, at: usize) -> Option<i64>
    requires there { at + optional_len flags 0x800 4 ≤ length p.now }
    requires version { is_unsigned ≡ is_version 0 p.now }
    ensures { Some result ≡ option_map (option_map (composition_offset p.now))
        (optional_field flags 0x800 4 at p.now) }
{
    if is_unsigned {
        match read_optional_u32(p, flags, SAMPLE_COMPOSITION_OFFSET, at) {
            Some(offset) => Some(i64::from(offset)),
            None => None,
        }
    } else {
        match read_optional_i32(p, flags, SAMPLE_COMPOSITION_OFFSET, at) {
            Some(offset) => Some(i64::from(offset)),
            None => None,
        }
    }
}

/// The sample that begins at place `at`.
fn read_sample(p: &[u8], fields: &RunFields, at: usize) -> TrunSample
    requires there { at + sample_len fields.now.flags ≤ length p.now }
    requires version { fields.now.is_unsigned ≡ is_version 0 p.now }
    requires size { fields.now.size ≡ optional_len fields.now.flags 0x100 4 }
    requires sample_flags { fields.now.sample_flags
        ≡ optional_len fields.now.flags 0x100 4 + optional_len fields.now.flags 0x200 4 }
    requires offset { fields.now.offset ≡ optional_len fields.now.flags 0x100 4
        + optional_len fields.now.flags 0x200 4 + optional_len fields.now.flags 0x400 4 }
    ensures { Some result ≡ trun_sample_at p.now fields.now.flags at }
{
    let flags = fields.flags;
    let offset_at = at + fields.offset;
    TrunSample {
        duration: read_optional_u32(p, flags, SAMPLE_DURATION, at),
        size: read_optional_u32(p, flags, SAMPLE_SIZE, at + fields.size),
        flags: read_optional_u32(p, flags, SAMPLE_FLAGS, at + fields.sample_flags),
        offset: read_optional_offset(p, fields.is_unsigned, flags, offset_at),
    }
}

/// Sample `i` of a track run whose fields were found, counted from 0.
pub fn run_sample(p: &[u8], fields: &RunFields, i: u32) -> TrunSample
    requires fields { Some fields.now ≡ run_fields_of p.now fields.now.count }
    requires index { i < fields.now.count }
    ensures { Some result ≡ trun_sample_of p.now i }
{
    read_sample(p, fields, fields.first + i as usize * fields.len)
}
