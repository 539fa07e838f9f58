//! Which track of an initialization segment a track buffer goes on with.

ghost use Rattle.std.specs.Prelude.{◌≡◌, ◌&&◌, Some, filter, find, if◌then◌else◌, slice_get, slice_set, IfSome, option_copied};
ghost use Rattle.std.specs.List.{list_all};
ghost use Rattle.mse_base.specs.Moments.{is_same_kind};
ghost use Rattle.track_store.specs.State.{state_of, states_of, stores_of};
ghost use Rattle.track_buffers.specs.Initialized.{is_media_track, count_of, kinds_of, is_of_kind, is_numbered, partner_of, is_partner, tracks_with_partners, track_with_partner};

use mse_base::{Kind, TrackInfo};
use track_store::{FrameStore, Track, Tracks};

fn is_kind_at<S: FrameStore>(tracks: &Tracks<S>, i: usize, kind: Kind) -> bool
    ensures { IfSome (slice_get tracks.now.items i) (λ t. result ≡ is_same_kind kind t.kind) }
{
    match tracks.get(i) {
        Some(track) => kind == track.kind,
        None => false,
    }
}

/// How many track buffers are of a kind.
pub(crate) fn count_held<S: FrameStore>(tracks: &Tracks<S>, kind: Kind) -> usize
    ensures { result ≡ count_of kind (kinds_of (states_of S.frames tracks.now.items)) }
{
    let mut count = 0;
    for i in 0..tracks.len() {
        if is_kind_at(tracks, i, kind) {
            count += 1;
        }
    }
    count
}

/// Whether a track of a segment is one that a track buffer goes on with: it is of its kind, and
/// has its number where the buffer has other tracks of the kind.
fn is_partner_of(track: &TrackInfo, kind: Kind, id: u32, alone: bool) -> bool
    ensures { result ≡ (is_media_track track.now
        && (if alone then is_of_kind kind track.now else is_numbered kind id track.now)) }
{
    track.kind.is_media() && kind == track.kind && (alone || track.id == id)
}

fn find_partner<'a>(
    news: &'a [TrackInfo],
    kind: Kind,
    id: u32,
    alone: bool,
) -> Option<&'a TrackInfo>
    ensures { option_copied result ≡ (if alone
        then find (is_of_kind kind) (filter is_media_track news.now)
        else find (is_numbered kind id) (filter is_media_track news.now)) }
{
    for track in news {
        if is_partner_of(track, kind, id, alone) {
            return Some(track);
        }
    }
    None
}

/// The track of a segment that the track buffer at a place goes on with.
fn partner_at<'a, S: FrameStore>(
    tracks: &Tracks<S>,
    i: usize,
    news: &'a [TrackInfo],
) -> Option<&'a TrackInfo>
    ensures { IfSome (slice_get (states_of S.frames tracks.now.items) i) (λ t. option_copied result
        ≡ partner_of (states_of S.frames tracks.now.items) (filter is_media_track news.now) t) }
{
    match tracks.get(i) {
        Some(track) => {
            let alone = count_held(tracks, track.kind) == 1;
            find_partner(news, track.kind, track.id, alone)
        }
        None => None,
    }
}

fn is_partner<S: FrameStore>(track: &Track<S>, partner: Option<&TrackInfo>, pending: bool) -> bool
    ensures { result ≡ is_partner pending (state_of S.frames track.now)
        (option_copied partner.entry) }
{
    match partner {
        Some(partner) => pending || partner.codec == track.codec,
        None => false,
    }
}

fn has_partner_at<S: FrameStore>(
    tracks: &Tracks<S>,
    i: usize,
    news: &[TrackInfo],
    pending: bool,
) -> bool
    ensures { IfSome (slice_get (states_of S.frames tracks.now.items) i)
        (λ t. result ≡ is_partner pending t
        (partner_of (states_of S.frames tracks.now.items) (filter is_media_track news.now) t)) }
{
    match tracks.get(i) {
        Some(track) => is_partner(track, partner_at(tracks, i, news), pending),
        None => false,
    }
}

/// Whether each track buffer has a track of the segment that it goes on with.
pub(crate) fn has_all_partners<S: FrameStore>(
    tracks: &Tracks<S>,
    news: &[TrackInfo],
    pending: bool,
) -> bool
    ensures { result ≡ list_all (λ t. is_partner pending t
        (partner_of (states_of S.frames tracks.now.items) (filter is_media_track news.now) t))
        (states_of S.frames tracks.now.items) }
{
    for i in 0..tracks.len() {
        if !has_partner_at(tracks, i, news, pending) {
            return false;
        }
    }
    true
}

/// A track buffer takes number and codec of its partner.
fn renew<S: FrameStore>(track: &mut Track<S>, partner: &TrackInfo)
    ensures state { state_of S.frames track.new
        ≡ track_with_partner (state_of S.frames track.old) (Some partner.now) }
    ensures store { track.new.store ≡ track.old.store }
{
    track.id = partner.id;
    track.codec = partner.codec;
    track.marks = track.marks.marks_needing_sync();
}

fn renew_by<S: FrameStore>(tracks: &mut Tracks<S>, i: usize, partner: &TrackInfo)
    ensures states { IfSome (slice_get (states_of S.frames tracks.old.items) i)
        (λ t. states_of S.frames tracks.new.items
        ≡ slice_set (states_of S.frames tracks.old.items) i
        (track_with_partner t (Some partner.now))) }
    ensures stores { stores_of tracks.new.items ≡ stores_of tracks.old.items }
    ensures places { tracks.new.spare ≡ tracks.old.spare }
{
    match tracks.get_mut(i) {
        Some(track) => renew(track, partner),
        None => {}
    }
}

fn renew_at<S: FrameStore>(tracks: &mut Tracks<S>, i: usize, news: &[TrackInfo])
    ensures states { IfSome (slice_get (states_of S.frames tracks.old.items) i)
        (λ t. states_of S.frames tracks.new.items
        ≡ slice_set (states_of S.frames tracks.old.items) i
        (track_with_partner t (partner_of (states_of S.frames tracks.old.items)
        (filter is_media_track news.now) t))) }
    ensures stores { stores_of tracks.new.items ≡ stores_of tracks.old.items }
    ensures places { tracks.new.spare ≡ tracks.old.spare }
{
    match partner_at(tracks, i, news) {
        Some(partner) => renew_by(tracks, i, partner),
        None => {}
    }
}

/// Each track buffer takes number and codec of its partner.
pub(crate) fn renew_all<S: FrameStore>(tracks: &mut Tracks<S>, news: &[TrackInfo])
    ensures states { states_of S.frames tracks.new.items
        ≡ tracks_with_partners (filter is_media_track news.now)
        (states_of S.frames tracks.old.items) }
    ensures stores { stores_of tracks.new.items ≡ stores_of tracks.old.items }
    ensures places { tracks.new.spare ≡ tracks.old.spare }
{
    for i in 0..tracks.len() {
        renew_at(tracks, i, news);
    }
}
