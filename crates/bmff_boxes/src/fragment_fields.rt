//! Fields of the boxes of a movie fragment (ISO/IEC 14496-12), read off their payloads. A reader answers
//! `None` exactly where the payload is too short for the field.
ghost use Rattle.std.specs.Prelude.{◌≡◌, ◌+◌, ◌<◌, ◌≤◌, ◌^◌};
ghost use Rattle.std.specs.Option.{option_map};
ghost use Rattle.bmff_boxes.specs.Fields.{optional_field, signed_number};
ghost use Rattle.bmff_boxes.specs.FragmentFields.{tfdt_time_of, tfhd_track_of, description_place, duration_place, size_place, flags_place, tfhd_base_of, tfhd_description_of, tfhd_duration_of, tfhd_size_of, tfhd_flags_of, trun_count_of, trun_data_offset_of, trun_first_flags_of, sample_place, composition_offset, trun_sample_at, trun_sample_of};

use crate::entries::TrunSample;
use crate::numbers::{
    flags, has_version, i32_at, optional_len, optional_u32, optional_u64, u32_at, u64_at,
    wide_u32_at,
};

// The flags of a track fragment header (8.8.7).
const BASE_DATA_OFFSET: u32 = 0x1;

const SAMPLE_DESCRIPTION_INDEX: u32 = 0x2;

const DEFAULT_SAMPLE_DURATION: u32 = 0x8;

const DEFAULT_SAMPLE_SIZE: u32 = 0x10;

const DEFAULT_SAMPLE_FLAGS: u32 = 0x20;

// The flags of a track fragment run (8.8.8).
const DATA_OFFSET: u32 = 0x1;

const FIRST_SAMPLE_FLAGS: u32 = 0x4;

pub(crate) const SAMPLE_DURATION: u32 = 0x100;

pub(crate) const SAMPLE_SIZE: u32 = 0x200;

pub(crate) const SAMPLE_FLAGS: u32 = 0x400;

pub(crate) const SAMPLE_COMPOSITION_OFFSET: u32 = 0x800;

/// The base media decode time of a track fragment (8.8.12), in the media's timescale.
pub fn tfdt_time(p: &[u8]) -> Option<u64>
    ensures { result ≡ tfdt_time_of p.now }
{
    if has_version(p, 1) {
        u64_at(p, 4)
    } else {
        wide_u32_at(p, 4)
    }
}

/// The track number of a track fragment header (8.8.7).
pub fn tfhd_track(p: &[u8]) -> Option<u32>
    ensures { result ≡ tfhd_track_of p.now }
{
    u32_at(p, 4)
}

fn description_place(flags: u32) -> usize
    ensures value { result ≡ description_place flags }
    ensures bound { result ≤ 16 }
{
    8 + optional_len(flags, BASE_DATA_OFFSET, 8)
}

fn duration_place(flags: u32) -> usize
    ensures value { result ≡ duration_place flags }
    ensures bound { result ≤ 20 }
{
    description_place(flags) + optional_len(flags, SAMPLE_DESCRIPTION_INDEX, 4)
}

fn size_place(flags: u32) -> usize
    ensures value { result ≡ size_place flags }
    ensures bound { result ≤ 24 }
{
    duration_place(flags) + optional_len(flags, DEFAULT_SAMPLE_DURATION, 4)
}

fn flags_place(flags: u32) -> usize
    ensures value { result ≡ flags_place flags }
    ensures bound { result ≤ 28 }
{
    size_place(flags) + optional_len(flags, DEFAULT_SAMPLE_SIZE, 4)
}

/// The base data offset of a track fragment header (8.8.7). Of this and of the readers below the outer `None`
/// comes exactly where the payload is shorter than the field needs, the inner one exactly where the field's
/// flag is not set.
#[tactic(auto, unfolding(crate::specs::FragmentFields::tfhd_base_of))]
pub fn tfhd_base(p: &[u8]) -> Option<Option<u64>>
    ensures { result ≡ tfhd_base_of p.now }
{
    let flags = flags(p)?;
    optional_u64(p, flags, BASE_DATA_OFFSET, 8)
}

/// The sample description index of a track fragment header (8.8.7).
#[tactic(auto, unfolding(crate::specs::FragmentFields::tfhd_description_of))]
pub fn tfhd_description(p: &[u8]) -> Option<Option<u32>>
    ensures { result ≡ tfhd_description_of p.now }
{
    let flags = flags(p)?;
    optional_u32(p, flags, SAMPLE_DESCRIPTION_INDEX, description_place(flags))
}

/// The default sample duration of a track fragment header (8.8.7), in the media's timescale.
#[tactic(auto, unfolding(crate::specs::FragmentFields::tfhd_duration_of))]
pub fn tfhd_duration(p: &[u8]) -> Option<Option<u32>>
    ensures { result ≡ tfhd_duration_of p.now }
{
    let flags = flags(p)?;
    optional_u32(p, flags, DEFAULT_SAMPLE_DURATION, duration_place(flags))
}

/// The default sample size of a track fragment header (8.8.7), in bytes.
#[tactic(auto, unfolding(crate::specs::FragmentFields::tfhd_size_of))]
pub fn tfhd_size(p: &[u8]) -> Option<Option<u32>>
    ensures { result ≡ tfhd_size_of p.now }
{
    let flags = flags(p)?;
    optional_u32(p, flags, DEFAULT_SAMPLE_SIZE, size_place(flags))
}

/// The default sample flags of a track fragment header (8.8.7).
#[tactic(auto, unfolding(crate::specs::FragmentFields::tfhd_flags_of))]
pub fn tfhd_flags(p: &[u8]) -> Option<Option<u32>>
    ensures { result ≡ tfhd_flags_of p.now }
{
    let flags = flags(p)?;
    optional_u32(p, flags, DEFAULT_SAMPLE_FLAGS, flags_place(flags))
}

/// How many samples a track run says that it has (8.8.8).
pub fn trun_count(p: &[u8]) -> Option<u32>
    ensures { result ≡ trun_count_of p.now }
{
    u32_at(p, 4)
}

fn optional_i32(p: &[u8], flags: u32, flag: u32, at: usize) -> Option<Option<i32>>
    requires { at < 2 ^ 63 }
    ensures { result ≡ option_map (option_map (signed_number 4))
        (optional_field flags flag 4 at p.now) }
{
    if flags & flag == 0 {
        return Some(None);
    }
    match i32_at(p, at) {
        Some(value) => Some(Some(value)),
        None => None,
    }
}

/// The data offset of a track run (8.8.8).
#[tactic(auto, unfolding(crate::specs::FragmentFields::trun_data_offset_of))]
pub fn trun_data_offset(p: &[u8]) -> Option<Option<i32>>
    ensures { result ≡ trun_data_offset_of p.now }
{
    let flags = flags(p)?;
    optional_i32(p, flags, DATA_OFFSET, 8)
}

/// The flags of a track run's first sample (8.8.8).
#[tactic(auto, unfolding(crate::specs::FragmentFields::trun_first_flags_of))]
pub fn trun_first_flags(p: &[u8]) -> Option<Option<u32>>
    ensures { result ≡ trun_first_flags_of p.now }
{
    let flags = flags(p)?;
    optional_u32(
        p,
        flags,
        FIRST_SAMPLE_FLAGS,
        8 + optional_len(flags, DATA_OFFSET, 4),
    )
}

/// Where sample `i` of a track run with these flags begins, counted from 0.
pub(crate) fn sample_place(flags: u32, i: u32) -> usize
    ensures value { result ≡ sample_place flags i }
    ensures bound { result < 2 ^ 40 }
{
    let len = optional_len(flags, SAMPLE_DURATION, 4)
        + optional_len(flags, SAMPLE_SIZE, 4)
        + optional_len(flags, SAMPLE_FLAGS, 4)
        + optional_len(flags, SAMPLE_COMPOSITION_OFFSET, 4);
    8 + optional_len(flags, DATA_OFFSET, 4)
        + optional_len(flags, FIRST_SAMPLE_FLAGS, 4)
        + i as usize * len
}

fn optional_offset(p: &[u8], flags: u32, at: usize) -> Option<Option<i64>>
    requires { at < 2 ^ 63 }
    ensures { result ≡ option_map (option_map (composition_offset p.now))
        (optional_field flags 0x800 4 at p.now) }
{
    if has_version(p, 0) {
        return match optional_u32(p, flags, SAMPLE_COMPOSITION_OFFSET, at) {
            Some(Some(offset)) => Some(Some(i64::from(offset))),
            Some(None) => Some(None),
            None => None,
        };
    }
    match optional_i32(p, flags, SAMPLE_COMPOSITION_OFFSET, at) {
        Some(Some(offset)) => Some(Some(i64::from(offset))),
        Some(None) => Some(None),
        None => None,
    }
}

fn trun_sample_at(p: &[u8], flags: u32, at: usize) -> Option<TrunSample>
    requires { at < 2 ^ 40 }
    ensures { result ≡ trun_sample_at p.now flags at }
{
    let size_at = at + optional_len(flags, SAMPLE_DURATION, 4);
    let flags_at = size_at + optional_len(flags, SAMPLE_SIZE, 4);
    let offset_at = flags_at + optional_len(flags, SAMPLE_FLAGS, 4);
    let duration = optional_u32(p, flags, SAMPLE_DURATION, at)?;
    let size = optional_u32(p, flags, SAMPLE_SIZE, size_at)?;
    let own = optional_u32(p, flags, SAMPLE_FLAGS, flags_at)?;
    let offset = optional_offset(p, flags, offset_at)?;
    Some(TrunSample {
        duration,
        size,
        flags: own,
        offset,
    })
}

/// Sample `i` of a track run (8.8.8), counted from 0, or `None` exactly where the payload ends before one of
/// its fields does. The run's count of samples is not looked at.
#[tactic(auto, unfolding(crate::specs::FragmentFields::trun_sample_of))]
pub fn trun_sample(p: &[u8], i: u32) -> Option<TrunSample>
    ensures { result ≡ trun_sample_of p.now i }
{
    let flags = flags(p)?;
    trun_sample_at(p, flags, sample_place(flags, i))
}
