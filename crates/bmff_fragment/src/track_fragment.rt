ghost use Rattle.std.specs.Prelude.{◌≤◌, unsigned_abs, IfOk};
ghost use Rattle.std.specs.List.{AllByRecursion};
ghost use Rattle.mse_base.specs.Presentation.{IsReadable};
ghost use Rattle.bmff_fragment.specs.Plans.{track_fragment_of};
ghost use Rattle.bmff_boxes.specs.Reading.{Gives};

use crate::fault::{MoofError, MoofFault};
use crate::header::{Defaults, sample_defaults, track_fragment_header};
use bmff_boxes::{Row, tfdt_time};
use mse_base::{TrackInfo, TrackList};

/// A track fragment, before its runs.
#[derive(Clone, Copy, Debug)]
pub(crate) struct TrackFragment {
    pub(crate) track: TrackInfo,
    pub(crate) defaults: Defaults,
    /// The place from which its data offsets count.
    pub(crate) base: i128,
    /// When its first sample is decoded, in the media's timescale.
    pub(crate) decode_time: u64,
}

/// Where the reading of a movie fragment stands, between two track fragments.
#[derive(Clone, Copy, Debug)]
pub(crate) struct MoofProgress {
    /// How many samples stand before.
    pub(crate) samples: u32,
    /// Where the data of the track fragment before end.
    pub(crate) data_end: i128,
}

/// Where the reading of a track fragment stands, between two runs.
#[derive(Clone, Copy, Debug)]
pub(crate) struct RunProgress {
    /// How many samples of the movie fragment stand before.
    pub(crate) samples: u32,
    /// Where the data of the run before end, or the base.
    pub(crate) data_end: i128,
    /// When the next sample is decoded, in the media's timescale.
    pub(crate) decode_time: u128,
}

/// The track fragment whose boxes these are, where the data before it end at `end`.
#[tactic(auto, unfolding(crate::specs::Plans::track_fragment_of))]
pub(crate) fn read_track_fragment(
    tracks: &TrackList,
    end: i128,
    row: &Row<'_>,
) -> Result<TrackFragment, MoofError>
    requires { AllByRecursion IsReadable tracks.now }
    ensures value { Gives (λ f. f) result (track_fragment_of tracks.now end row.now) }
    ensures readable { IfOk result (λ f. IsReadable f.track) }
    ensures bound { IfOk result (λ f. unsigned_abs f.base ≤ unsigned_abs end) }
{
    let Some(tfhd) = row.first(*b"tfhd") else {
        return Err(MoofError::Fault(MoofFault::NoTfhd));
    };
    let Some(header) = track_fragment_header(tfhd) else {
        return Err(MoofError::Fault(MoofFault::Size));
    };
    if header.base_data_offset.is_some() {
        return Err(MoofError::Fault(MoofFault::BaseOffset));
    }
    let Some(track) = tracks.find(header.track_id) else {
        return Err(MoofError::Fault(MoofFault::UnknownTrack));
    };
    let Some(tfdt) = row.first(*b"tfdt") else {
        return Err(MoofError::Fault(MoofFault::NoTfdt));
    };
    let Some(decode_time) = tfdt_time(tfdt) else {
        return Err(MoofError::Fault(MoofFault::Size));
    };
    Ok(TrackFragment {
        track: *track,
        defaults: sample_defaults(&header, track),
        base: if header.base_is_moof { 0 } else { end },
        decode_time,
    })
}
