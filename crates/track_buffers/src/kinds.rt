ghost use Rattle.std.specs.Prelude.{◌≡◌, length, filter};
ghost use Rattle.std.specs.List.{list_all};
ghost use Rattle.track_buffers.specs.Initialized.{is_media_track, media_tracks, count_of, new_kinds, is_known};

use mse_base::{Kind, Presentation, TrackInfo};
use mse_types::codec_known;

fn count_media(tracks: &[TrackInfo]) -> usize
    ensures { result ≡ length (filter is_media_track tracks.now) }
{
    tracks.iter().filter(|track| track.kind.is_media()).count()
}

/// How many tracks of an initialization segment a buffer takes frames of: those of video and
/// audio.
pub fn media_track_count(presentation: &Presentation) -> usize
    ensures { result ≡ length (media_tracks presentation.now) }
{
    count_media(presentation.tracks.as_slice())
}

/// How many video or audio tracks are of a kind.
pub(crate) fn count_new(tracks: &[TrackInfo], kind: Kind) -> usize
    ensures { result ≡ count_of kind (new_kinds (filter is_media_track tracks.now)) }
{
    tracks
        .iter()
        .filter(|track| track.kind.is_media() && kind == track.kind)
        .count()
}

fn is_known(track: &TrackInfo) -> bool
    ensures { result ≡ is_known track.now }
{
    codec_known(track.codec)
}

/// Whether each video or audio track has a codec that is known.
pub(crate) fn are_known(tracks: &[TrackInfo]) -> bool
    ensures { result ≡ list_all is_known (filter is_media_track tracks.now) }
{
    tracks
        .iter()
        .all(|track| !track.kind.is_media() || is_known(track))
}
