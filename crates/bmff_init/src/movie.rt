ghost use Rattle.std.specs.Prelude.{◌≡◌, ◌≤◌, ◌<◌, length, IfOk, IsSome, nat_le};
ghost use Rattle.std.specs.List.{list_all};
ghost use Rattle.std.specs.Option.{option_copied};
ghost use Rattle.std.specs.Result.{result_map_both};
ghost use lib.Chars.{codes};
ghost use Rattle.bmff_boxes.specs.Rows.{row_of, all_of};
ghost use Rattle.bmff_init.specs.Movies.{extends_view, known_duration, times_of, fragments_duration_of, extends_of, moment_of, moov_presentation_of, init_of, movie_of};
ghost use Rattle.bmff_boxes.specs.Reading.{Gives};
ghost use Rattle.mse_base.specs.Presentation.{IsPresentation};

use crate::fault::{InitError, InitFault};
use crate::form::Form;
use crate::track::read_tracks;
use bmff_boxes::{Row, mehd_duration, mvhd_duration, mvhd_scale, open, payload};
use mse_base::{Moment, Presentation, TrackList, convert};
use std::alloc::Global;

/// The greatest number of tracks that a movie may have.
const MOST_TRACKS: u32 = 64;

/// The bytes of a track extends box (8.8.3) behind its header.
const TREX_LEN: usize = 24;

/// What a movie header (8.2.2) tells.
#[derive(Clone, Copy, Debug, PartialEq, Eq)]
pub struct MovieTimes {
    /// How many units of the movie's time make a second.
    pub scale: u32,
    /// How long the movie lasts, in its timescale; 0 where that is not known.
    pub duration: u64,
}

/// What a movie extends box (8.8.1) tells.
#[derive(Clone, Copy, Debug)]
pub struct MvexIn<'a> {
    /// How long the movie lasts with its fragments, in its timescale; 0 where that is not known.
    pub duration: u64,
    /// The payload of the box, which has a `trex` box for each track.
    pub mvex: &'a [u8],
}

/// A duration of a movie header, 0 where it is all ones, which says that it cannot be determined.
fn known_duration(mvhd: &[u8], duration: u64) -> u64
    ensures { result ≡ known_duration mvhd.now duration }
{
    let unknown = match mvhd {
        [1, ..] => u64::MAX,
        _ => u64::from(u32::MAX),
    };
    if duration == unknown { 0 } else { duration }
}

/// Reads the movie header (8.2.2).
#[tactic(auto, unfolding(crate::specs::Movies::times_of))]
fn read_times(movie: &Row<'_>) -> Result<MovieTimes, InitFault>
    ensures value { result ≡ times_of movie.now }
    ensures positive { IfOk result (λ times. 1 ≤ times.scale) }
{
    let mvhd = movie.first(*b"mvhd").ok_or(InitFault::Missing(*b"mvhd"))?;
    let scale = mvhd_scale(mvhd).ok_or(InitFault::Size)?;
    let duration = mvhd_duration(mvhd).ok_or(InitFault::Size)?;
    if scale == 0 {
        return Err(InitFault::ZeroTimescale);
    }
    Ok(MovieTimes {
        scale,
        duration: known_duration(mvhd, duration),
    })
}

/// The duration of a movie extends header (8.8.2), if there is one.
fn read_fragments_duration(mehd: Option<&[u8]>) -> Result<u64, InitFault>
    ensures { result ≡ fragments_duration_of (option_copied mehd.entry) }
{
    match mehd {
        Some(mehd) => mehd_duration(mehd).ok_or(InitFault::Size),
        None => Ok(0),
    }
}

/// Whether each track extends box is whole.
fn are_whole_trexes(mvex: Row<'_>) -> bool
    ensures { result ≡ list_all (λ trex. nat_le 24 (length trex))
        (all_of (codes "trex") mvex.entry) }
{
    let mut mvex = mvex;
    'boxes: while let Some(child) = mvex.next() {
        if child.kind == *b"trex" && child.payload.len() < TREX_LEN {
            return false;
        }
    }
    true
}

/// Reads the movie extends box (8.8.1).
#[tactic(auto, unfolding(crate::specs::Movies::extends_of))]
fn read_extends<'a>(form: Form, movie: &Row<'a>) -> Result<MvexIn<'a>, InitFault>
    ensures value { result_map_both extends_view (λ fault. fault) result
        ≡ extends_of form movie.now }
    ensures whole_boxes { IfOk result (λ extends. IsSome (row_of extends.mvex.now)) }
{
    match form {
        Form::Classic => Ok(MvexIn {
            duration: 0,
            mvex: &[],
        }),
        Form::Fragmented => {
            let mvex = movie.first(*b"mvex").ok_or(InitFault::NoMvex)?;
            let boxes = open(mvex).ok_or(InitFault::Size)?;
            let duration = read_fragments_duration(boxes.first(*b"mehd"))?;
            if !are_whole_trexes(boxes) {
                return Err(InitFault::Size);
            }
            Ok(MvexIn { duration, mvex })
        }
    }
}

/// Whether there are at most 64 track boxes.
fn has_few_tracks(movie: Row<'_>) -> bool
    ensures { result ≡ nat_le (length (all_of (codes "trak") movie.entry)) 64 }
{
    let mut movie = movie;
    let mut count = 0;
    'boxes: while let Some(child) = movie.next() {
        if child.kind == *b"trak" {
            if count == MOST_TRACKS {
                return false;
            }
            count += 1;
        }
    }
    true
}

/// A duration in the movie's timescale; of 0 it is not known when the movie ends.
fn moment(scale: u32, duration: u64) -> Moment
    requires { 1 ≤ scale }
    ensures { result ≡ moment_of scale duration }
{
    if duration == 0 {
        return Moment::Infinite;
    }
    match convert(i128::from(duration), scale) {
        Some(end) => Moment::At(end),
        None => unreachable!(),
    }
}

/// Reads a movie box that is whole, with its header.
#[tactic(auto, unfolding(crate::specs::Movies::presentation_in))]
fn read_presentation(alloc: Global, form: Form, moov: &[u8]) -> Result<Presentation, InitError>
    ensures value { Gives (λ p. p) result (moov_presentation_of form moov.now) }
{
    let payload = payload(moov).ok_or(InitFault::Size)?;
    let movie = open(payload).ok_or(InitFault::Size)?;
    let times = read_times(&movie)?;
    let extends = read_extends(form, &movie)?;
    if !has_few_tracks(movie) {
        return Err(InitError::Fault(InitFault::TooManyTracks));
    }
    let movie = open(payload).ok_or(InitFault::Size)?;
    let tracks = read_tracks(alloc, form, times.scale, extends.mvex, movie)?;
    let duration = if extends.duration == 0 {
        times.duration
    } else {
        extends.duration
    };
    Ok(Presentation {
        scale: times.scale,
        duration: moment(times.scale, duration),
        tracks: TrackList::from_vec(alloc, tracks),
    })
}

/// Reads the movie box of an initialization segment: the whole box with its header.
pub fn read_init(alloc: Global, moov: &[u8]) -> Result<Presentation, InitError>
    ensures value { Gives (λ p. p) result (init_of moov.now) }
    ensures presentation { IfOk result IsPresentation }
{
    read_presentation(alloc, Form::Fragmented, moov)
}

/// Reads the movie box of a classic file, as `read_init` does, but without a movie extends box, and with any
/// samples in its tables.
pub fn read_movie(alloc: Global, moov: &[u8]) -> Result<Presentation, InitError>
    ensures value { Gives (λ p. p) result (movie_of moov.now) }
    ensures presentation { IfOk result IsPresentation }
{
    read_presentation(alloc, Form::Classic, moov)
}
