ghost use Rattle.std.specs.Prelude.{◌≡◌, ◌≤◌, [], length, IfOk, IsSome};
ghost use Rattle.std.specs.List.{list_any};
ghost use Rattle.std.specs.Option.{option_copied};
ghost use lib.Chars.{codes};
ghost use Rattle.mse_base.specs.Presentation.{has_id};
ghost use Rattle.bmff_boxes.specs.Rows.{boxes_in, row_of, all_of};
ghost use Rattle.bmff_init.specs.Tracks.{kind_of, codec_of, empty_table_check, empty_tables_check, codec_in, media_scale_of, media_content, content_of, track_number_of, mdia_row_of, kind_in, is_trex_of, trex_of, track_with, track_of_trak, tracks_of_traks};
ghost use Rattle.bmff_boxes.specs.MovieFields.{entry_count_of};
ghost use Rattle.bmff_boxes.specs.Reading.{need};
ghost use Rattle.bmff_boxes.specs.Reading.{Gives};

use crate::edits::read_shifts;
use crate::fault::{InitError, InitFault};
use crate::form::Form;
use bmff_boxes::{
    Child, Header, Row, children, entry_count, hdlr_handler, header, mdhd_scale, open, tkhd_track,
    trex_duration, trex_flags, trex_size, trex_track,
};
use mse_base::{Kind, Ticks, TrackInfo};
use std::alloc::Global;

/// What is read of a track with video or audio.
#[derive(Clone, Copy, Debug, PartialEq, Eq)]
pub struct TrackContent {
    /// The type of its first sample entry.
    pub codec: [u8; 4],
    /// How many units of its media time make a second.
    pub scale: u32,
    /// The media time at which its presentation begins.
    pub media_shift: i64,
    /// How much later than the movie it begins.
    pub empty_shift: Ticks,
}

/// What a handler (8.4.3) handles.
fn kind_of(handler: [u8; 4]) -> Kind
    ensures { result ≡ kind_of handler }
{
    if handler == *b"vide" {
        Kind::Video
    } else if handler == *b"soun" {
        Kind::Audio
    } else {
        Kind::Other
    }
}

/// How many entries a table says that it has.
#[tactic(auto, unfolding(bmff_boxes::specs::Fields::field))]
fn read_count(table: &[u8]) -> Result<u32, InitFault>
    ensures value { result ≡ need InitFault.Size (entry_count_of table.now) }
    ensures head_there { IfOk result (λ _. 8 ≤ length table.now) }
{
    entry_count(table).ok_or(InitFault::Size)
}

/// The type of the first sample entry in the payload of a sample description box (ISO/IEC 14496-12, 8.5.2).
///
/// `Size` where the payload has no count of entries, `Missing` where it has no whole entry.
#[tactic(auto, unfolding(crate::specs::Tracks::codec_of))]
pub fn read_codec(stsd: &[u8]) -> Result<[u8; 4], InitFault>
    ensures { result ≡ codec_of stsd.now }
{
    let missing = InitFault::Missing(*b"stsd");
    let count = read_count(stsd)?;
    if count == 0 {
        return Err(missing);
    }
    match header(&stsd[8..]) {
        Header::Whole { kind, .. } => Ok(kind),
        Header::Short => Err(missing),
        Header::Bad(_) => Err(missing),
    }
}

/// Tests that a table, where it is there, has no entry.
fn check_table(table: Option<&[u8]>) -> Result<bool, InitFault>
    ensures { result ≡ empty_table_check (option_copied table.entry) }
{
    let Some(table) = table else {
        return Ok(true);
    };
    let count = read_count(table)?;
    if count == 0 {
        Ok(true)
    } else {
        Err(InitFault::HasSamples)
    }
}

/// Tests that a sample table box (8.5.1) of a fragmented movie has no samples.
#[tactic(auto, unfolding(crate::specs::Tracks::empty_tables_check))]
fn check_tables(form: Form, table: &Row<'_>) -> Result<bool, InitFault>
    ensures { result ≡ empty_tables_check form table.now }
{
    match form {
        Form::Classic => Ok(true),
        Form::Fragmented => {
            check_table(table.first(*b"stts"))?;
            check_table(table.first(*b"stsc"))?;
            check_table(table.first(*b"stco"))?;
            check_table(table.first(*b"co64"))
        }
    }
}

/// The type of the first sample entry, in the boxes of a media box.
#[tactic(auto, unfolding(crate::specs::Tracks::codec_in))]
fn read_codec_in(form: Form, media: &Row<'_>) -> Result<[u8; 4], InitFault>
    ensures { result ≡ codec_in form media.now }
{
    let minf = media.first(*b"minf").ok_or(InitFault::Missing(*b"minf"))?;
    let information = open(minf).ok_or(InitFault::Size)?;
    let stbl = information
        .first(*b"stbl")
        .ok_or(InitFault::Missing(*b"stbl"))?;
    let table = open(stbl).ok_or(InitFault::Size)?;
    let stsd = table.first(*b"stsd").ok_or(InitFault::Missing(*b"stsd"))?;
    let codec = read_codec(stsd)?;
    check_tables(form, &table)?;
    Ok(codec)
}

/// The timescale of a media header (8.4.2).
fn read_media_scale(media: &Row<'_>) -> Result<u32, InitFault>
    ensures value { result ≡ media_scale_of media.now }
    ensures positive { IfOk result (λ scale. 1 ≤ scale) }
{
    let mdhd = media.first(*b"mdhd").ok_or(InitFault::Missing(*b"mdhd"))?;
    let scale = mdhd_scale(mdhd).ok_or(InitFault::Size)?;
    if scale == 0 {
        return Err(InitFault::ZeroTimescale);
    }
    Ok(scale)
}

/// What the boxes of a track box and of its media box tell, in a movie of this timescale.
#[tactic(auto, unfolding(crate::specs::Tracks::media_content))]
fn read_media_content(
    form: Form,
    movie_scale: u32,
    track: &Row<'_>,
    media: &Row<'_>,
) -> Result<TrackContent, InitFault>
    requires { 1 ≤ movie_scale }
    ensures { result ≡ media_content form movie_scale track.now media.now }
{
    let scale = read_media_scale(media)?;
    let codec = read_codec_in(form, media)?;
    let shifts = read_shifts(movie_scale, track.first(*b"edts"))?;
    Ok(TrackContent {
        codec,
        scale,
        media_shift: shifts.media,
        empty_shift: shifts.empty,
    })
}

fn read_content(
    form: Form,
    movie_scale: u32,
    kind: Kind,
    track: &Row<'_>,
    media: &Row<'_>,
) -> Result<TrackContent, InitFault>
    requires { 1 ≤ movie_scale }
    ensures { result ≡ content_of form movie_scale kind track.now media.now }
{
    match kind {
        Kind::Video => read_media_content(form, movie_scale, track, media),
        Kind::Audio => read_media_content(form, movie_scale, track, media),
        Kind::Other => Ok(TrackContent {
            codec: [0; 4],
            scale: 1,
            media_shift: 0,
            empty_shift: Ticks::zero(),
        }),
    }
}

/// Whether one of the tracks has this number.
fn is_taken(id: u32, tracks: &[TrackInfo]) -> bool
    ensures { result ≡ list_any (has_id id) tracks.now }
{
    tracks.iter().any(|track| track.id == id)
}

/// The number of a track box (8.3.2), which none of the tracks before it has.
fn read_number(before: &[TrackInfo], track: &Row<'_>) -> Result<u32, InitFault>
    ensures { result ≡ track_number_of before.now track.now }
{
    let tkhd = track.first(*b"tkhd").ok_or(InitFault::Missing(*b"tkhd"))?;
    let id = tkhd_track(tkhd).ok_or(InitFault::Size)?;
    if is_taken(id, before) {
        return Err(InitFault::DuplicateTrack);
    }
    Ok(id)
}

/// The boxes of the media box (ISO/IEC 14496-12, 8.4.1) of a track.
///
/// `Missing` where the track has no such box, `Size` where that is no row of boxes.
pub fn read_media<'a>(track: &Row<'a>) -> Result<Row<'a>, InitFault>
    ensures { result ≡ mdia_row_of track.now }
{
    let mdia = track.first(*b"mdia").ok_or(InitFault::Missing(*b"mdia"))?;
    open(mdia).ok_or(InitFault::Size)
}

fn read_kind(media: &Row<'_>) -> Result<Kind, InitFault>
    ensures { result ≡ kind_in media.now }
{
    let hdlr = media.first(*b"hdlr").ok_or(InitFault::Missing(*b"hdlr"))?;
    let handler = hdlr_handler(hdlr).ok_or(InitFault::Size)?;
    Ok(kind_of(handler))
}

/// Whether a track extends box (8.8.3) is that of a track.
fn is_trex_of(track: u32, trex: &[u8]) -> bool
    ensures { result ≡ is_trex_of track trex.now }
{
    trex_track(trex) == Some(track)
}

/// The first track extends box (8.8.3) of a track among the boxes of a movie extends box.
fn find_trex<'a>(mvex: &'a [u8], track: u32) -> Option<&'a [u8]>
    requires { IsSome (row_of mvex.now) }
    ensures { option_copied result ≡ trex_of track (all_of (codes "trex") (boxes_in mvex.now)) }
{
    let mut walk = children(mvex);
    'boxes: loop {
        match walk.next() {
            Child::Found { kind, payload } => {
                if kind == *b"trex" && is_trex_of(track, payload) {
                    return Some(payload);
                }
            }
            Child::End => return None,
            Child::Uneven => return None,
        }
    }
}

/// The track with what was read of it, and with the defaults of its track extends box.
fn track_with(mvex: &[u8], id: u32, kind: Kind, content: TrackContent) -> TrackInfo
    requires { IsSome (row_of mvex.now) }
    ensures { result ≡ track_with (all_of (codes "trex") (boxes_in mvex.now)) id kind content }
{
    let codec = content.codec;
    let (default_duration, default_size, default_flags) = match find_trex(mvex, id) {
        Some(trex) => (
            trex_duration(trex).unwrap_or(0),
            trex_size(trex).unwrap_or(0),
            trex_flags(trex).unwrap_or(0),
        ),
        None => (0, 0, 0),
    };
    TrackInfo {
        id,
        kind,
        codec,
        scale: content.scale,
        media_shift: content.media_shift,
        empty_shift: content.empty_shift,
        default_duration,
        default_size,
        default_flags,
    }
}

/// The track of a track box (8.3.1) that stands behind those of the tracks `before`.
#[tactic(auto, unfolding(crate::specs::Tracks::track_of_trak))]
fn read_track(
    form: Form,
    movie_scale: u32,
    mvex: &[u8],
    before: &[TrackInfo],
    trak: &[u8],
) -> Result<TrackInfo, InitFault>
    requires positive { 1 ≤ movie_scale }
    requires whole_boxes { IsSome (row_of mvex.now) }
    ensures { result ≡ track_of_trak form movie_scale (all_of (codes "trex") (boxes_in mvex.now))
        before.now trak.now }
{
    let track = open(trak).ok_or(InitFault::Size)?;
    let id = read_number(before, &track)?;
    let media = read_media(&track)?;
    let kind = read_kind(&media)?;
    let content = read_content(form, movie_scale, kind, &track, &media)?;
    Ok(track_with(mvex, id, kind, content))
}

/// The tracks of the boxes of a movie box.
pub fn read_tracks(
    alloc: Global,
    form: Form,
    movie_scale: u32,
    mvex: &[u8],
    movie: Row<'_>,
) -> Result<Vec<TrackInfo>, InitError>
    requires positive { 1 ≤ movie_scale }
    requires whole_boxes { IsSome (row_of mvex.now) }
    ensures { Gives (λ v. v.items) result
        (tracks_of_traks form movie_scale (all_of (codes "trex") (boxes_in mvex.now)) []
        (all_of (codes "trak") movie.entry)) }
{
    let mut movie = movie;
    let mut tracks = Vec::new(alloc);
    'boxes: while let Some(child) = movie.next() {
        if child.kind == *b"trak" {
            let track = read_track(form, movie_scale, mvex, tracks.as_slice(), child.payload)?;
            tracks.push(track)?;
        }
    }
    Ok(tracks)
}
