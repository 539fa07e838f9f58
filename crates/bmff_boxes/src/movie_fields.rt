//! Fields of the boxes of a movie box (ISO/IEC 14496-12), read off their payloads. A reader answers
//! `None` exactly where the payload is too short for the field.
ghost use Rattle.std.specs.Prelude.{◌≡◌, ◌+◌, ◌<◌, ◌^◌};
ghost use Rattle.bmff_boxes.specs.MovieFields.{mvhd_scale_of, mvhd_duration_of, mehd_duration_of, trex_track_of, trex_description_of, trex_duration_of, trex_size_of, trex_flags_of, tkhd_track_of, mdhd_scale_of, hdlr_handler_of, entry_count_of, long_edit_of, short_edit_of, elst_entry_of};

use crate::entries::EditEntry;
use crate::numbers::{has_version, i16_at, i32_at, i64_at, u32_at, u64_at, wide_u32_at};

/// The timescale of a movie header (8.2.2): time units in a second.
pub fn mvhd_scale(p: &[u8]) -> Option<u32>
    ensures { result ≡ mvhd_scale_of p.now }
{
    if has_version(p, 1) {
        u32_at(p, 20)
    } else {
        u32_at(p, 12)
    }
}

/// The duration of a movie header (8.2.2), in its timescale. All ones, in the form of the version, means that
/// it is not known.
pub fn mvhd_duration(p: &[u8]) -> Option<u64>
    ensures { result ≡ mvhd_duration_of p.now }
{
    if has_version(p, 1) {
        u64_at(p, 24)
    } else {
        wide_u32_at(p, 16)
    }
}

/// The fragment duration of a movie extends header (8.8.2), in the movie's timescale.
pub fn mehd_duration(p: &[u8]) -> Option<u64>
    ensures { result ≡ mehd_duration_of p.now }
{
    if has_version(p, 1) {
        u64_at(p, 4)
    } else {
        wide_u32_at(p, 4)
    }
}

/// The track number of a track extends box (8.8.3).
pub fn trex_track(p: &[u8]) -> Option<u32>
    ensures { result ≡ trex_track_of p.now }
{
    u32_at(p, 4)
}

/// The default sample description index of a track extends box (8.8.3).
pub fn trex_description(p: &[u8]) -> Option<u32>
    ensures { result ≡ trex_description_of p.now }
{
    u32_at(p, 8)
}

/// The default sample duration of a track extends box (8.8.3), in the media's timescale.
pub fn trex_duration(p: &[u8]) -> Option<u32>
    ensures { result ≡ trex_duration_of p.now }
{
    u32_at(p, 12)
}

/// The default sample size of a track extends box (8.8.3), in bytes.
pub fn trex_size(p: &[u8]) -> Option<u32>
    ensures { result ≡ trex_size_of p.now }
{
    u32_at(p, 16)
}

/// The default sample flags of a track extends box (8.8.3).
pub fn trex_flags(p: &[u8]) -> Option<u32>
    ensures { result ≡ trex_flags_of p.now }
{
    u32_at(p, 20)
}

/// The track number of a track header (8.3.2).
pub fn tkhd_track(p: &[u8]) -> Option<u32>
    ensures { result ≡ tkhd_track_of p.now }
{
    if has_version(p, 1) {
        u32_at(p, 20)
    } else {
        u32_at(p, 12)
    }
}

/// The timescale of a media header (8.4.2): time units in a second.
pub fn mdhd_scale(p: &[u8]) -> Option<u32>
    ensures { result ≡ mdhd_scale_of p.now }
{
    if has_version(p, 1) {
        u32_at(p, 20)
    } else {
        u32_at(p, 12)
    }
}

/// The handler type of a handler reference box (8.4.3), as `vide` or `soun`.
pub fn hdlr_handler(p: &[u8]) -> Option<[u8; 4]>
    ensures { result ≡ hdlr_handler_of p.now }
{
    if p.len() < 12 {
        return None;
    }
    Some([p[8], p[9], p[10], p[11]])
}

/// How many entries a `stsd`, `stts`, `stsc`, `stco`, `co64` or `elst` box says that it has.
pub fn entry_count(p: &[u8]) -> Option<u32>
    ensures { result ≡ entry_count_of p.now }
{
    u32_at(p, 4)
}

fn long_edit(p: &[u8], at: usize) -> Option<EditEntry>
    requires { at < 2 ^ 40 }
    ensures { result ≡ long_edit_of at p.now }
{
    let duration = u64_at(p, at)?;
    let media_time = i64_at(p, at + 8)?;
    let rate = i16_at(p, at + 16)?;
    let fraction = i16_at(p, at + 18)?;
    Some(EditEntry {
        duration,
        media_time,
        rate,
        fraction,
    })
}

fn short_edit(p: &[u8], at: usize) -> Option<EditEntry>
    requires { at < 2 ^ 40 }
    ensures { result ≡ short_edit_of at p.now }
{
    let duration = u32_at(p, at)?;
    let media_time = i32_at(p, at + 4)?;
    let rate = i16_at(p, at + 8)?;
    let fraction = i16_at(p, at + 10)?;
    Some(EditEntry {
        duration: u64::from(duration),
        media_time: i64::from(media_time),
        rate,
        fraction,
    })
}

/// Entry `i` of an edit list (8.6.6), counted from 0. The list's count of entries is not looked at.
#[tactic(auto, unfolding(crate::specs::MovieFields::elst_entry_of))]
pub fn elst_entry(p: &[u8], i: u32) -> Option<EditEntry>
    ensures { result ≡ elst_entry_of p.now i }
{
    if has_version(p, 1) {
        long_edit(p, 8 + i as usize * 20)
    } else {
        short_edit(p, 8 + i as usize * 12)
    }
}
