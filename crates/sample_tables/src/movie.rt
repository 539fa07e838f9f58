ghost use Rattle.std.specs.Prelude.{◌≡◌, ◌≢◌, ◌+◌, ◌++◌, ◌≤◌, ◌^◌, [], ◌∷◌, length, map, sum_by, not, option_and_then, IfOk};
ghost use Rattle.std.specs.List.{AllByRecursion};
ghost use lib.Chars.{codes};
ghost use Rattle.mse_base.specs.Presentation.{IsReadable, HasDistinctIds};
ghost use Rattle.bmff_boxes.specs.Children.{payload_of};
ghost use Rattle.bmff_boxes.specs.Rows.{row_of, all_of};
ghost use Rattle.bmff_boxes.specs.Reading.{Gives};
ghost use Rattle.sample_tables.specs.BoxPlaces.{first_place};
ghost use Rattle.sample_tables.specs.Rules.{totals_of};
ghost use Rattle.sample_tables.specs.Facts.{IsDescription, IsFileTrack, AreFew, AreTracksOf, AreFileTracks};
ghost use Rattle.sample_tables.specs.Movies.{moov_error, media_track_with, media_track_of, tracks_and, media_tracks_of, is_empty, media_boxes, is_fragmented, track_boxes, tracks_by, movie_tracks, movie_box_by, error_at, file_tracks};

use crate::box_place::{BoxPlace, first_place};
use crate::columns::{read_columns, samples_of};
use crate::fault::{FileError, MovieError, MovieFault, PlacedFault};
use crate::media_track::MediaTrack;
use crate::rules::{are_consistent, are_few, is_in_range, lag_of};
use crate::totals::{Totals, bytes_of};
use crate::track_tables::{TrackTables, read_track_tables};
use bmff_boxes::{Row, open, payload};
use bmff_init::{InitError, read_movie};
use mse_base::{Kind, OwnedList, TrackInfo};
use std::alloc::Global;

/// The same fault, as one of a movie box.
fn in_moov(error: InitError) -> MovieError
    ensures { result ≡ moov_error error }
{
    match error {
        InitError::OutOfMemory => MovieError::OutOfMemory,
        InitError::Fault(fault) => MovieError::Fault(MovieFault::Moov(fault)),
    }
}

/// The track of what was read of its tables.
fn media_track_with(
    alloc: Global,
    len: u64,
    before: &Totals,
    info: &TrackInfo,
    track_tables: TrackTables,
) -> Result<MediaTrack, MovieError>
    requires readable { IsReadable info.now }
    requires samples { before.now.samples ≤ 2 ^ 22 }
    requires bytes { before.now.bytes ≤ 2 ^ 30 }
    requires chunks { length track_tables.tables.chunk_offsets ≤ 2 ^ 32 }
    requires described { IsDescription track_tables.codec track_tables.stsd }
    ensures value { Gives (λ track. track) result
        (media_track_with len before.now info.now track_tables) }
    ensures facts { info.now.kind ≢ Kind.Other → IfOk result (λ track. IsFileTrack len track) }
    ensures few { IfOk result (λ track. AreFew before.now track) }
    ensures info { IfOk result (λ track. track.info ≡ info.now) }
{
    let TrackTables {
        stsd,
        codec,
        tables,
    } = track_tables;
    if !are_consistent(&tables) {
        return Err(MovieError::Fault(MovieFault::Tables));
    }
    if !is_in_range(info, stsd.as_slice(), &tables) {
        return Err(MovieError::Fault(MovieFault::Range));
    }
    if !are_few(before, &tables) {
        return Err(MovieError::Fault(MovieFault::TooMany));
    }
    let columns = read_columns(alloc, len, tables)?;
    let samples = samples_of(alloc, &columns)?;
    Ok(MediaTrack {
        info: *info,
        lag: lag_of(info) as u64,
        stsd,
        codec,
        samples: OwnedList::from_vec(samples),
    })
}

/// The track of a track box, where the tracks before it have so many samples and bytes.
#[tactic(auto, unfolding(crate::specs::Movies::media_track_of))]
fn read_media_track(
    alloc: Global,
    len: u64,
    before: &Totals,
    info: &TrackInfo,
    trak: &[u8],
) -> Result<MediaTrack, MovieError>
    requires readable { IsReadable info.now }
    requires samples { before.now.samples ≤ 2 ^ 22 }
    requires bytes { before.now.bytes ≤ 2 ^ 30 }
    ensures value { Gives (λ track. track) result
        (media_track_of len before.now info.now trak.now) }
    ensures facts { info.now.kind ≢ Kind.Other → IfOk result (λ track. IsFileTrack len track) }
    ensures few { IfOk result (λ track. AreFew before.now track) }
    ensures info { IfOk result (λ track. track.info ≡ info.now) }
{
    match read_track_tables(alloc, trak) {
        Ok(track_tables) => media_track_with(alloc, len, before, info, track_tables),
        Err(error) => Err(in_moov(error)),
    }
}

/// Whether there is a track box of video or audio among the boxes of a movie box.
fn has_media(infos: &[TrackInfo], movie: Row<'_>) -> bool
    ensures { result
        ≡ not (is_empty (media_boxes infos.now (all_of (codes "trak") movie.entry))) }
{
    let mut movie = movie;
    let mut rest = infos;
    'boxes: while let Some(child) = movie.next() {
        if child.kind == *b"trak" {
            let [info, behind @ ..] = rest else {
                return false;
            };
            if info.kind.is_media() {
                return true;
            }
            rest = behind;
        }
    }
    false
}

/// How many samples some tracks and one more have, and how many bytes.
fn totals_with(totals: &Totals, track: &MediaTrack) -> Totals
    requires samples { totals.now.samples ≤ 2 ^ 22 }
    requires bytes { totals.now.bytes ≤ 2 ^ 30 }
    ensures samples { result.samples ≡ totals.now.samples + length track.now.samples }
    ensures bytes { result.bytes ≡ totals.now.bytes + sum_by (λ s. s.size) track.now.samples }
{
    Totals {
        samples: totals.samples + track.samples.len() as u128,
        bytes: totals.bytes + bytes_of(track.samples.as_slice()),
    }
}

/// Reads the track of a track box of video or audio, and appends it to those before it, whose totals are given.
fn push_track(
    alloc: Global,
    len: u64,
    tracks: &mut Vec<MediaTrack>,
    totals: &Totals,
    info: &TrackInfo,
    trak: &[u8],
) -> Result<Totals, MovieError>
    requires readable { IsReadable info.now }
    requires media { info.now.kind ≢ Kind.Other }
    requires totals { totals.now ≡ totals_of tracks.old.items }
    requires samples { totals.now.samples ≤ 2 ^ 22 }
    requires bytes { totals.now.bytes ≤ 2 ^ 30 }
    requires each { AllByRecursion (IsFileTrack len) tracks.old.items }
    ensures value { Gives (λ totals. tracks.new.items) result
        (tracks_and len tracks.old.items (info.now, trak.now)) }
    ensures infos { IfOk result (λ totals. map (λ t. t.info) tracks.new.items
        ≡ map (λ t. t.info) tracks.old.items ++ info.now ∷ []) }
    ensures totals { IfOk result (λ totals. totals ≡ totals_of tracks.new.items) }
    ensures samples { IfOk result (λ totals. totals.samples ≤ 2 ^ 22) }
    ensures bytes { IfOk result (λ totals. totals.bytes ≤ 2 ^ 30) }
    ensures each { IfOk result (λ totals. AllByRecursion (IsFileTrack len) tracks.new.items) }
{
    let track = match read_media_track(alloc, len, totals, info, trak) {
        Ok(track) => track,
        Err(error) => return Err(error),
    };
    let totals = totals_with(totals, &track);
    tracks.push(track)?;
    Ok(totals)
}

/// The tracks with video or audio among the boxes of a movie box.
fn read_media_tracks(
    alloc: Global,
    len: u64,
    infos: &[TrackInfo],
    movie: Row<'_>,
) -> Result<Vec<MediaTrack>, MovieError>
    requires { AllByRecursion IsReadable infos.now }
    ensures value { Gives (λ v. v.items) result
        (media_tracks_of len [] (media_boxes infos.now (all_of (codes "trak") movie.entry))) }
    ensures facts { IfOk result (λ v. AreTracksOf len
        (media_boxes infos.now (all_of (codes "trak") movie.entry)) v.items) }
{
    let mut movie = movie;
    let mut rest = infos;
    let mut tracks = Vec::new(alloc);
    let mut totals = Totals {
        samples: 0,
        bytes: 0,
    };
    'boxes: while let Some(child) = movie.next() {
        if child.kind == *b"trak" {
            let [info, behind @ ..] = rest else {
                return Ok(tracks);
            };
            rest = behind;
            if info.kind.is_media() {
                totals = match push_track(alloc, len, &mut tracks, &totals, info, child.payload) {
                    Ok(totals) => totals,
                    Err(error) => return Err(error),
                };
            }
        }
    }
    Ok(tracks)
}

/// Whether a movie box says that the movie goes on in fragments.
fn is_fragmented(moov: &[u8]) -> bool
    ensures { result ≡ is_fragmented moov.now }
{
    match movie_boxes(moov) {
        Some(movie) => movie.first(*b"mvex").is_some(),
        None => false,
    }
}

/// The boxes of a movie box that was read, or of none.
fn movie_boxes<'a>(moov: &'a [u8]) -> Option<Row<'a>>
    ensures { result ≡ option_and_then row_of (payload_of moov.now) }
{
    open(payload(moov)?)
}

/// The tracks with video or audio of a movie, of which there has to be one.
fn tracks_by(
    alloc: Global,
    len: u64,
    infos: &[TrackInfo],
    moov: &[u8],
) -> Result<Vec<MediaTrack>, MovieError>
    requires readable { AllByRecursion IsReadable infos.now }
    requires few { length infos.now ≤ 64 }
    requires distinct { HasDistinctIds infos.now }
    ensures value { Gives (λ v. v.items) result
        (tracks_by len (media_boxes infos.now (track_boxes moov.now))) }
    ensures facts { IfOk result (λ v. AreFileTracks len v.items) }
{
    let none = MovieError::Fault(MovieFault::NoTracks);
    let Some(movie) = movie_boxes(moov) else {
        return Err(none);
    };
    if !has_media(infos, movie) {
        return Err(none);
    }
    let Some(movie) = movie_boxes(moov) else {
        return Err(none);
    };
    read_media_tracks(alloc, len, infos, movie)
}

/// The tracks with video or audio of a whole movie box, in a file of this length.
#[tactic(auto, unfolding(crate::specs::Movies::movie_tracks))]
fn read_movie_tracks(alloc: Global, len: u64, moov: &[u8]) -> Result<Vec<MediaTrack>, MovieError>
    ensures value { Gives (λ v. v.items) result (movie_tracks len moov.now) }
    ensures facts { IfOk result (λ v. AreFileTracks len v.items) }
{
    if is_fragmented(moov) {
        return Err(MovieError::Fault(MovieFault::Fragmented));
    }
    match read_movie(alloc, moov) {
        Ok(movie) => tracks_by(alloc, len, movie.tracks.as_slice(), moov),
        Err(error) => Err(in_moov(error)),
    }
}

/// Where the movie box of a file stands.
fn movie_box(file: &[u8]) -> Result<BoxPlace, PlacedFault>
    ensures value { result ≡ movie_box_by (length file.now) (first_place (codes "moov") file.now) }
    ensures order { IfOk result (λ place. place.start ≤ place.end) }
    ensures within { IfOk result (λ place. place.end ≤ length file.now) }
{
    match first_place(file, *b"moov") {
        Ok(Some(place)) => Ok(place),
        Ok(None) => Err(PlacedFault {
            fault: MovieFault::NoMoov,
            offset: file.len() as u64,
        }),
        Err(at) => Err(PlacedFault {
            fault: MovieFault::Box,
            offset: at as u64,
        }),
    }
}

/// The same fault, at a place.
fn at_place(offset: u64, error: MovieError) -> FileError
    ensures { result ≡ error_at offset error }
{
    match error {
        MovieError::OutOfMemory => FileError::OutOfMemory,
        MovieError::Fault(fault) => FileError::Fault(PlacedFault { fault, offset }),
    }
}

/// The tracks with video or audio of a classic file, with their samples.
///
/// The faults are found in this order: the first top-level box that is not whole; no movie box; a movie box with a
/// movie extends box; the faults of [`read_movie`]; no track with video or audio; and then of one such track after
/// the other its tables, whether they agree, whether its values are in range, how many samples it and those before
/// it have, and whether each sample is inside the file.
#[tactic(auto, unfolding(crate::specs::Movies::file_tracks))]
pub fn read_file(alloc: Global, file: &[u8]) -> Result<Vec<MediaTrack>, FileError>
    ensures value { Gives (λ v. v.items) result (file_tracks file.now) }
    ensures facts { IfOk result (λ v. AreFileTracks (length file.now) v.items) }
{
    let place = match movie_box(file) {
        Ok(place) => place,
        Err(fault) => return Err(FileError::Fault(fault)),
    };
    let moov = &file[place.start..place.end];
    match read_movie_tracks(alloc, file.len() as u64, moov) {
        Ok(tracks) => Ok(tracks),
        Err(error) => Err(at_place(place.start as u64, error)),
    }
}
