ghost use Rattle.std.specs.Prelude.{◌≡◌};
ghost use Rattle.bmff_fragment.specs.Headers.{track_fragment_header_of, defaults_of, run_header_of};

use bmff_boxes::{
    flags, tfhd_base, tfhd_description, tfhd_duration, tfhd_flags, tfhd_size, tfhd_track,
    trun_count, trun_data_offset, trun_first_flags,
};
use mse_base::TrackInfo;

/// The flag default-base-is-moof of a track fragment header (ISO/IEC 14496-12, 8.8.7).
const DEFAULT_BASE_IS_MOOF: u32 = 0x20000;

/// A track fragment header (8.8.7).
#[derive(Clone, Copy, Debug)]
pub(crate) struct TrackFragmentHeader {
    pub(crate) track_id: u32,
    pub(crate) base_data_offset: Option<u64>,
    pub(crate) base_is_moof: bool,
    pub(crate) duration: Option<u32>,
    pub(crate) size: Option<u32>,
    pub(crate) flags: Option<u32>,
}

/// What a sample has that its run does not tell.
#[derive(Clone, Copy, Debug)]
pub(crate) struct Defaults {
    pub(crate) duration: u32,
    pub(crate) size: u32,
    pub(crate) flags: u32,
}

/// A track fragment run up to its samples (8.8.8).
#[derive(Clone, Copy, Debug)]
pub(crate) struct RunHeader {
    pub(crate) count: u32,
    pub(crate) data_offset: Option<i32>,
    pub(crate) first_flags: Option<u32>,
}

/// The header in the payload of a tfhd box, or `None` exactly where the payload is shorter than the fields
/// that its flags announce.
#[tactic(auto, unfolding(crate::specs::Headers::track_fragment_header_of))]
pub(crate) fn track_fragment_header(tfhd: &[u8]) -> Option<TrackFragmentHeader>
    ensures { result ≡ track_fragment_header_of tfhd.now }
{
    let header_flags = flags(tfhd)?;
    let track_id = tfhd_track(tfhd)?;
    let base_data_offset = tfhd_base(tfhd)?;
    tfhd_description(tfhd)?;
    let duration = tfhd_duration(tfhd)?;
    let size = tfhd_size(tfhd)?;
    let flags = tfhd_flags(tfhd)?;
    Some(TrackFragmentHeader {
        track_id,
        base_data_offset,
        base_is_moof: header_flags & DEFAULT_BASE_IS_MOOF != 0,
        duration,
        size,
        flags,
    })
}

/// What a sample of the track fragment has that its run does not tell.
pub(crate) fn sample_defaults(header: &TrackFragmentHeader, track: &TrackInfo) -> Defaults
    ensures { result ≡ defaults_of header.now track.now }
{
    Defaults {
        duration: header.duration.unwrap_or(track.default_duration),
        size: header.size.unwrap_or(track.default_size),
        flags: header.flags.unwrap_or(track.default_flags),
    }
}

/// The header in the payload of a trun box, or `None` exactly where the payload is shorter.
#[tactic(auto, unfolding(crate::specs::Headers::run_header_of))]
pub(crate) fn run_header(trun: &[u8]) -> Option<RunHeader>
    ensures { result ≡ run_header_of trun.now }
{
    let count = trun_count(trun)?;
    let data_offset = trun_data_offset(trun)?;
    let first_flags = trun_first_flags(trun)?;
    Some(RunHeader {
        count,
        data_offset,
        first_flags,
    })
}
