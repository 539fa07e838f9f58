use super::made_boxes::{Boxes, Part, made, overwrite};
use super::rows::{expect, expect_at};
use bmff_init::*;
use mse_base::{Kind, Moment, Presentation, Ticks, TrackInfo};
use std::process::Abort;

/// A track box, up to the last byte of its number.
static TRACK_HEAD: [Part<'static>; 3] = [
    Part::Open(b"trak"),
    Part::Open(b"tkhd"),
    Part::Bytes(&[0; 15]),
];

/// A media box with the timescale 90000, up to its handler.
static MEDIA_HEAD: [Part<'static>; 7] = [
    Part::Open(b"mdia"),
    Part::Open(b"mdhd"),
    Part::Bytes(&[0; 12]),
    Part::Bytes(&[0, 1, 0x5F, 0x90]),
    Part::Close,
    Part::Open(b"hdlr"),
    Part::Bytes(&[0; 8]),
];

/// One `avc1` sample entry and no samples, up to the end of the track.
static TABLES: [Part<'static>; 21] = [
    Part::Close,
    Part::Open(b"minf"),
    Part::Open(b"stbl"),
    Part::Open(b"stsd"),
    Part::Bytes(&[0, 0, 0, 0, 0, 0, 0, 1]),
    Part::Open(b"avc1"),
    Part::Close,
    Part::Close,
    Part::Open(b"stts"),
    Part::Bytes(&[0; 8]),
    Part::Close,
    Part::Open(b"stsc"),
    Part::Bytes(&[0; 8]),
    Part::Close,
    Part::Open(b"stco"),
    Part::Bytes(&[0; 8]),
    Part::Close,
    Part::Close,
    Part::Close,
    Part::Close,
    Part::Close,
];

/// A track box with the timescale 90000 and one `avc1` sample entry, and with an edit box if it is given one.
fn track(rt: &(impl Abort + AllocGlobal), number: u8, handler: &[u8; 4], edts: &[u8]) -> Vec<u8> {
    let mut boxes = Boxes::new(rt.alloc());
    boxes.put(rt, &TRACK_HEAD);
    boxes.push(rt, &[number]);
    boxes.close(rt);
    boxes.push(rt, edts);
    boxes.put(rt, &MEDIA_HEAD);
    boxes.push(rt, handler);
    boxes.put(rt, &TABLES);
    boxes.into_bytes()
}

/// The payload of a movie header with the timescale 1000.
const HEADER: &[u8] = b"\0\0\0\0\0\0\0\0\0\0\0\0\0\0\x03\xE8\0\0\0\0";

/// A movie box with these tracks, and with these boxes in its movie extends box.
fn movie(rt: &(impl Abort + AllocGlobal), header: &[u8], traks: &[u8], extends: &[u8]) -> Vec<u8> {
    let mut boxes = Boxes::new(rt.alloc());
    boxes.put(rt, &[Part::Open(b"moov"), Part::Open(b"mvhd")]);
    boxes.push(rt, header);
    boxes.close(rt);
    boxes.push(rt, traks);
    boxes.open(rt, b"mvex");
    boxes.push(rt, extends);
    boxes.put(rt, &[Part::Close, Part::Close]);
    boxes.into_bytes()
}

/// The fault of a movie box; `None` if it is read.
fn fault_in(rt: &impl AllocGlobal, moov: &[u8]) -> Option<InitFault> {
    fault_of(read_init(rt.alloc(), moov))
}

fn fault_of(outcome: Result<Presentation, InitError>) -> Option<InitFault> {
    match outcome {
        Ok(_) => None,
        Err(InitError::Fault(fault)) => Some(fault),
        Err(InitError::OutOfMemory) => None,
    }
}

/// Bytes to write over a box: its type, a place from its first byte on, and the bytes.
type Change = ([u8; 4], usize, &'static [u8]);

const NONE: Change = (*b"moov", 4, b"moov");

const FREE: &[u8] = b"\0\0\0\x08free";

/// Two tracks, changed at one or two places, and the first fault.
static FAULTS: [(Change, Change, InitFault); 34] = [
    ((*b"mvhd", 4, b"free"), NONE, InitFault::Missing(*b"mvhd")),
    (
        (*b"mvhd", 4, b"free"),
        (*b"mvex", 4, b"free"),
        InitFault::Missing(*b"mvhd"),
    ),
    ((*b"mvhd", 3, &[20]), (*b"mvhd", 20, FREE), InitFault::Size),
    (
        (*b"mvhd", 20, &[0, 0, 0, 0]),
        (*b"mvex", 4, b"free"),
        InitFault::ZeroTimescale,
    ),
    (
        (*b"mvex", 4, b"free"),
        (*b"tkhd", 4, b"free"),
        InitFault::NoMvex,
    ),
    ((*b"mehd", 3, &[9]), NONE, InitFault::Size),
    ((*b"trex", 3, &[24]), (*b"trex", 24, FREE), InitFault::Size),
    (
        (*b"trex", 3, &[33]),
        (*b"tkhd", 4, b"free"),
        InitFault::Size,
    ),
    ((*b"trak", 3, &[9]), NONE, InitFault::Size),
    ((*b"tkhd", 3, &[27]), NONE, InitFault::Size),
    (
        (*b"tkhd", 4, b"free"),
        (*b"mdia", 4, b"free"),
        InitFault::Missing(*b"tkhd"),
    ),
    ((*b"tkhd", 3, &[20]), (*b"tkhd", 20, FREE), InitFault::Size),
    ((*b"tkhd", 23, &[2]), NONE, InitFault::DuplicateTrack),
    (
        (*b"tkhd", 23, &[2]),
        (*b"hdlr", 4, b"free"),
        InitFault::Missing(*b"hdlr"),
    ),
    ((*b"mdia", 4, b"free"), NONE, InitFault::Missing(*b"mdia")),
    ((*b"hdlr", 3, &[21]), NONE, InitFault::Size),
    (
        (*b"hdlr", 4, b"free"),
        (*b"mdhd", 4, b"free"),
        InitFault::Missing(*b"hdlr"),
    ),
    (
        (*b"mdhd", 4, b"free"),
        (*b"minf", 4, b"free"),
        InitFault::Missing(*b"mdhd"),
    ),
    (
        (*b"mdhd", 20, &[0, 0, 0, 0]),
        (*b"minf", 4, b"free"),
        InitFault::ZeroTimescale,
    ),
    ((*b"mdhd", 8, &[1]), NONE, InitFault::Size),
    ((*b"minf", 4, b"free"), NONE, InitFault::Missing(*b"minf")),
    ((*b"stbl", 4, b"free"), NONE, InitFault::Missing(*b"stbl")),
    ((*b"stbl", 3, &[9]), NONE, InitFault::Size),
    (
        (*b"stsd", 4, b"free"),
        (*b"stts", 15, &[1]),
        InitFault::Missing(*b"stsd"),
    ),
    ((*b"stsd", 15, &[0]), NONE, InitFault::Missing(*b"stsd")),
    ((*b"avc1", 3, &[7]), NONE, InitFault::Missing(*b"stsd")),
    ((*b"stts", 15, &[1]), (*b"stsc", 3, &[17]), InitFault::Size),
    (
        (*b"stts", 15, &[1]),
        (*b"elst", 27, &[1]),
        InitFault::HasSamples,
    ),
    ((*b"stsc", 15, &[1]), NONE, InitFault::HasSamples),
    ((*b"stco", 15, &[1]), NONE, InitFault::HasSamples),
    (
        (*b"stco", 4, b"co64"),
        (*b"co64", 12, &[1]),
        InitFault::HasSamples,
    ),
    ((*b"edts", 3, &[9]), NONE, InitFault::Size),
    ((*b"elst", 15, &[2]), NONE, InitFault::Size),
    ((*b"elst", 25, &[2]), NONE, InitFault::EditList),
];

/// The edit box of the first of two tracks.
const EDITS: [Part<'static>; 5] = [
    Part::Open(b"edts"),
    Part::Open(b"elst"),
    Part::Bytes(b"\0\0\0\0\0\0\0\x01\0\0\0\0\0\0\0\0\0\x01\0\0"),
    Part::Close,
    Part::Close,
];

/// The duration, and the defaults of track 1: five units, a size and flags.
static DEFAULTS: [Part<'static>; 6] = [
    Part::Open(b"mehd"),
    Part::Bytes(&[0; 8]),
    Part::Close,
    Part::Open(b"trex"),
    Part::Bytes(b"\0\0\0\0\0\0\0\x01\0\0\0\x01\0\0\0\x05\0\0\0\x07\0\x01\0\0"),
    Part::Close,
];

/// A movie box of two tracks, the first with an edit list, and with a duration and defaults.
fn two_tracks(rt: &(impl Abort + AllocGlobal)) -> Vec<u8> {
    let mut traks = track(rt, 1, b"vide", made(rt, &EDITS).as_slice());
    let second = track(rt, 2, b"soun", &[]);
    traks
        .extend_from_slice(second.as_slice())
        .expect(rt, "memory");
    let extends = made(rt, &DEFAULTS);
    movie(rt, HEADER, traks.as_slice(), extends.as_slice())
}

/// The movie box of two tracks, changed at two places.
fn changed(rt: &(impl Abort + AllocGlobal), first: &Change, second: &Change) -> Vec<u8> {
    let mut bytes = two_tracks(rt);
    overwrite(rt, &mut bytes, &first.0, first.1, first.2);
    overwrite(rt, &mut bytes, &second.0, second.1, second.2);
    bytes
}

#[test]
fn faults(rt: HostRuntime) {
    for (i, (first, second, fault)) in FAULTS.iter().enumerate() {
        let found = fault_in(&rt, changed(&rt, first, second).as_slice());
        expect_at(&rt, i, found == Some(*fault));
    }
    let good = read_init(rt.alloc(), two_tracks(&rt).as_slice());
    expect(&rt, "no fault", good.is_ok());
    let empty = fault_in(&rt, b"\0\0\0\x08moov");
    expect(&rt, "empty", empty == Some(InitFault::Missing(*b"mvhd")));
}

/// Versions and lengths of movie headers: one that ends within its timescale, behind it, within its duration or behind
/// that; and the faults with the timescale 1 and with 0. A header that is too short is that first.
static HEADERS: [(u8, usize, Option<InitFault>, Option<InitFault>); 9] = [
    (0, 15, Some(InitFault::Size), Some(InitFault::Size)),
    (0, 16, Some(InitFault::Size), Some(InitFault::Size)),
    (0, 19, Some(InitFault::Size), Some(InitFault::Size)),
    (0, 20, None, Some(InitFault::ZeroTimescale)),
    (1, 16, Some(InitFault::Size), Some(InitFault::Size)),
    (1, 23, Some(InitFault::Size), Some(InitFault::Size)),
    (1, 24, Some(InitFault::Size), Some(InitFault::Size)),
    (1, 31, Some(InitFault::Size), Some(InitFault::Size)),
    (1, 32, None, Some(InitFault::ZeroTimescale)),
];

/// A movie header of a version and a length that has 0 in all other fields but the last byte of its timescale.
fn header_of(rt: &(impl Abort + AllocGlobal), version: u8, len: usize, scale: u8) -> Vec<u8> {
    let mut header = Vec::new(rt.alloc());
    header.resize(len, 0).expect(rt, "memory");
    let place = if version == 1 { 23 } else { 15 };
    for (at, byte) in header.iter_mut().enumerate() {
        if at == 0 {
            *byte = version;
        } else if at == place {
            *byte = scale;
        }
    }
    header
}

/// The fault of a movie box without tracks that has such a header.
fn header_fault(
    rt: &(impl Abort + AllocGlobal),
    version: u8,
    len: usize,
    scale: u8,
) -> Option<InitFault> {
    let header = header_of(rt, version, len, scale);
    let moov = movie(rt, header.as_slice(), &[], &[]);
    fault_in(rt, moov.as_slice())
}

#[test]
fn short_movie_headers(rt: HostRuntime) {
    for (version, len, with_scale, without) in &HEADERS {
        let one = header_fault(&rt, *version, *len, 1);
        let zero = header_fault(&rt, *version, *len, 0);
        expect_at(&rt, *len, (one, zero) == (*with_scale, *without));
    }
}

/// The media time and the ticks by which a track begins later, or the fault of its edit list.
fn shifts(
    rt: &(impl Abort + AllocGlobal),
    header: &[u8],
    edits: &[u8],
) -> Result<(i64, i128), Option<InitFault>> {
    let parts = [
        Part::Open(b"edts"),
        Part::Open(b"elst"),
        Part::Bytes(edits),
        Part::Close,
        Part::Close,
    ];
    let trak = track(rt, 1, b"vide", made(rt, &parts).as_slice());
    let moov = movie(rt, header, trak.as_slice(), &[]);
    match read_init(rt.alloc(), moov.as_slice()) {
        Ok(presentation) => match presentation.tracks.as_slice() {
            [track] => Ok((track.media_shift, track.empty_shift.get())),
            _ => Err(None),
        },
        failed => Err(fault_of(failed)),
    }
}

const SECONDS: &[u8] = b"\0\0\0\0\0\0\0\0\0\0\0\0\0\0\0\x01\0\0\0\0";

const THIRTEENTHS: &[u8] = b"\0\0\0\0\0\0\0\0\0\0\0\0\0\0\0\x0D\0\0\0\0";

const EMPTY: &[u8] = b"\0\0\x01\xF4\xFF\xFF\xFF\xFF\0\x07\0\x07";

const ONE: &[u8] = b"\0\0\0\x01\xFF\xFF\xFF\xFF\0\x01\0\0";

const MEDIA: &[u8] = b"\0\0\0\0\0\0\x0B\xB8\0\x01\0\0";

const NEGATIVE: &[u8] = b"\0\0\0\0\xFF\xFF\xFF\xFE\0\x01\0\0";

const FAST: &[u8] = b"\0\0\0\0\0\0\x0B\xB8\0\x02\0\0";

const SLOW: &[u8] = b"\0\0\0\0\0\0\x0B\xB8\0\x01\0\x01";

const LONG_ONE: &[u8] = b"\0\0\0\0\0\0\0\x01\xFF\xFF\xFF\xFF\xFF\xFF\xFF\xFF\0\x01\0\0";

const LONGEST: &[u8] =
    b"\xFF\xFF\xFF\xFF\xFF\xFF\xFF\xFF\xFF\xFF\xFF\xFF\xFF\xFF\xFF\xFF\0\x01\0\0";

const LONG_MEDIA: &[u8] = b"\0\0\0\0\0\0\0\0\0\0\0\x01\0\0\0\0\0\x01\0\0";

/// A movie header, how the edit list begins, an entry, how often it comes, and what comes after.
type Edits = (
    &'static [u8],
    &'static [u8],
    &'static [u8],
    u32,
    &'static [u8],
);

static EDIT_LISTS: [(Edits, Result<(i64, i128), InitFault>); 20] = [
    ((HEADER, b"\0\0\0\0\0\0\0\0", b"", 0, b""), Ok((0, 0))),
    (
        (HEADER, b"\0\0\0\0\0\0\0\x01", b"", 0, MEDIA),
        Ok((3000, 0)),
    ),
    (
        (HEADER, b"\0\0\0\0\0\0\0\x02", EMPTY, 1, MEDIA),
        Ok((3000, 70_560_000_000)),
    ),
    (
        (HEADER, b"\0\0\0\0\0\0\0\x03", EMPTY, 2, MEDIA),
        Ok((3000, 141_120_000_000)),
    ),
    // Converted one by one these would be a tick less.
    (
        (THIRTEENTHS, b"\0\0\0\0\0\0\0\x04", ONE, 3, MEDIA),
        Ok((3000, 32_566_153_846)),
    ),
    (
        (HEADER, b"\x01\0\0\0\0\0\0\x02", LONG_ONE, 1, LONG_MEDIA),
        Ok((4_294_967_296, 141_120_000)),
    ),
    (
        (HEADER, b"\0\0\0\0\0\0\0\x01", EMPTY, 1, b""),
        Err(InitFault::EditList),
    ),
    (
        (HEADER, b"\0\0\0\0\0\0\0\x02", MEDIA, 1, MEDIA),
        Err(InitFault::EditList),
    ),
    (
        (HEADER, b"\0\0\0\0\0\0\0\x02", MEDIA, 1, EMPTY),
        Err(InitFault::EditList),
    ),
    (
        (HEADER, b"\0\0\0\0\0\0\0\x01", b"", 0, NEGATIVE),
        Err(InitFault::EditList),
    ),
    (
        (HEADER, b"\0\0\0\0\0\0\0\x01", b"", 0, FAST),
        Err(InitFault::EditList),
    ),
    (
        (HEADER, b"\0\0\0\0\0\0\0\x01", b"", 0, SLOW),
        Err(InitFault::EditList),
    ),
    (
        (HEADER, b"\0\0\0\0\0\0\0\x02", b"", 0, FAST),
        Err(InitFault::Size),
    ),
    (
        (HEADER, b"\x01\0\0\0\0\0\0\x02", MEDIA, 1, MEDIA),
        Err(InitFault::Size),
    ),
    (
        (HEADER, b"\0\0\0\0\xFF\xFF\xFF\xFF", b"", 0, MEDIA),
        Err(InitFault::Size),
    ),
    (
        (HEADER, b"\0\0\0\0\0\0\0", b"", 0, b""),
        Err(InitFault::Size),
    ),
    (
        (SECONDS, b"\x01\0\0\0\0\0\0\xC9", LONGEST, 200, LONG_MEDIA),
        Ok((1 << 32, 520_640_904_736_378_384_781_760_000_000_000)),
    ),
    (
        (SECONDS, b"\x01\0\0\0\0\0\x01\x2D", LONGEST, 300, LONG_MEDIA),
        Err(InitFault::EditList),
    ),
    (
        (
            SECONDS,
            b"\x01\0\0\0\0\0\x03\xE8",
            LONG_ONE,
            999,
            LONG_MEDIA,
        ),
        Ok((1 << 32, 140_978_880_000_000)),
    ),
    (
        (
            SECONDS,
            b"\x01\0\0\0\0\0\x03\xE9",
            LONG_ONE,
            1000,
            LONG_MEDIA,
        ),
        Err(InitFault::EditList),
    ),
];

/// An edit list: how it begins, an entry so often, and how it ends.
fn edits_of(rt: &(impl Abort + AllocGlobal), list: &Edits) -> Vec<u8> {
    let (_, front, edit, count, last) = *list;
    let mut edits = Vec::from_slice(rt.alloc(), front).expect(rt, "memory");
    for _ in 0..count {
        edits.extend_from_slice(edit).expect(rt, "memory");
    }
    edits.extend_from_slice(last).expect(rt, "memory");
    edits
}

#[test]
fn edit_lists(rt: HostRuntime) {
    for (i, (list, want)) in EDIT_LISTS.iter().enumerate() {
        let found = shifts(&rt, list.0, edits_of(&rt, list).as_slice());
        expect_at(&rt, i, found == want.map_err(Some));
    }
}

/// The number, kind, codec, timescale and media shift of each track.
type Wanted = (u32, Kind, [u8; 4], u32, i64);

fn view_of_track(track: &TrackInfo) -> Wanted {
    let codec = track.codec;
    (track.id, track.kind, codec, track.scale, track.media_shift)
}

/// A movie box with samples and no movie extends box.
#[test]
fn a_classic_movie(rt: HostRuntime) {
    let mut classic = two_tracks(&rt);
    overwrite(&rt, &mut classic, b"mvex", 4, b"free");
    overwrite(&rt, &mut classic, b"stts", 15, &[1]);
    overwrite(&rt, &mut classic, b"elst", 20, &[0, 0, 1, 0x38]);
    let presentation = read_movie(rt.alloc(), classic.as_slice()).ok();
    let track = presentation.as_ref().and_then(first_track);
    let wanted = (1, Kind::Video, *b"avc1", 90000, 312);
    expect(&rt, "its first track", track == Some(wanted));
    let fault = fault_in(&rt, classic.as_slice());
    expect(&rt, "its fault", fault == Some(InitFault::NoMvex));
}

fn first_track(presentation: &Presentation) -> Option<Wanted> {
    presentation.tracks.as_slice().first().map(view_of_track)
}

/// Two defaults of track 64, of five units and of nine.
static TWO_DEFAULTS: [Part<'static>; 6] = [
    Part::Open(b"trex"),
    Part::Bytes(b"\0\0\0\0\0\0\0\x40\0\0\0\x01\0\0\0\x05\0\0\0\x07\0\x01\0\0"),
    Part::Close,
    Part::Open(b"trex"),
    Part::Bytes(b"\0\0\0\0\0\0\0\x40\0\0\0\x01\0\0\0\x09\0\0\0\x07\0\x01\0\0"),
    Part::Close,
];

/// A movie box of so many tracks of text, numbered from 1 on, of which the 65th has the number 1 again; with two
/// defaults of track 64.
fn movie_of_texts(rt: &(impl Abort + AllocGlobal), count: u8) -> Vec<u8> {
    let mut traks = Vec::new(rt.alloc());
    for i in 0..count {
        let trak = track(rt, i % 64 + 1, b"text", &[]);
        traks
            .extend_from_slice(trak.as_slice())
            .expect(rt, "memory");
    }
    let extends = made(rt, &TWO_DEFAULTS);
    movie(rt, HEADER, traks.as_slice(), extends.as_slice())
}

/// The duration, size and flags of a sample of a track, if nothing else is told.
fn defaults(track: &TrackInfo) -> (u32, u32, u32) {
    (
        track.default_duration,
        track.default_size,
        track.default_flags,
    )
}

/// Whether a presentation has the scale 1000, no known duration and 64 tracks of text, the last with the defaults.
fn is_of_texts(presentation: &Presentation) -> bool {
    let [.., before, last] = presentation.tracks.as_slice() else {
        return false;
    };
    presentation.scale == 1000
        && presentation.duration == Moment::Infinite
        && view_of_track(before) == (63, Kind::Other, [0; 4], 1, 0)
        && defaults(before) == (0, 0, 0)
        && defaults(last) == (5, 7, 0x10000)
}

#[test]
fn many_tracks(rt: HostRuntime) {
    let moov = movie_of_texts(&rt, 64);
    let presentation = read_init(rt.alloc(), moov.as_slice()).ok();
    let found = presentation.as_ref().map(is_of_texts);
    expect(&rt, "64 tracks", found == Some(true));
    let fault = fault_in(&rt, movie_of_texts(&rt, 65).as_slice());
    expect(&rt, "65 tracks", fault == Some(InitFault::TooManyTracks));
}

const FIVE_SECONDS: &[u8] = b"\0\0\0\0\0\0\0\0\0\0\0\0\0\0\x03\xE8\0\0\x13\x88";

const UNKNOWN: &[u8] = b"\0\0\0\0\0\0\0\0\0\0\0\0\0\0\x03\xE8\xFF\xFF\xFF\xFF";

const LONG: &[u8] =
    b"\x01\0\0\0\0\0\0\0\0\0\0\0\0\0\0\0\0\0\0\0\0\0\x03\xE8\0\0\0\0\xFF\xFF\xFF\xFF";

const LONG_UNKNOWN: &[u8] =
    b"\x01\0\0\0\0\0\0\0\0\0\0\0\0\0\0\0\0\0\0\0\0\0\x03\xE8\xFF\xFF\xFF\xFF\xFF\xFF\xFF\xFF";

/// The payloads of a box of a duration: that of 0, and one of two seconds.
const ZERO_SECONDS: &[u8] = b"\0\0\0\0\0\0\0\0";

const TWO_SECONDS: &[u8] = b"\x01\0\0\0\0\0\0\0\0\0\x07\xD0";

/// A movie header, a box of a duration, and the duration in ticks, if it is known.
const DURATIONS: [(&[u8], &[u8], Option<i128>); 7] = [
    (HEADER, ZERO_SECONDS, None),
    (FIVE_SECONDS, ZERO_SECONDS, Some(705_600_000_000)),
    (FIVE_SECONDS, TWO_SECONDS, Some(282_240_000_000)),
    (UNKNOWN, ZERO_SECONDS, None),
    (UNKNOWN, TWO_SECONDS, Some(282_240_000_000)),
    (LONG, ZERO_SECONDS, Some(606105784670400000)),
    (LONG_UNKNOWN, ZERO_SECONDS, None),
];

/// The duration of a movie without tracks.
fn duration_of(rt: &(impl Abort + AllocGlobal), header: &[u8], duration: &[u8]) -> Option<Moment> {
    let mehd = made(
        rt,
        &[Part::Open(b"mehd"), Part::Bytes(duration), Part::Close],
    );
    let moov = movie(rt, header, &[], mehd.as_slice());
    match read_init(rt.alloc(), moov.as_slice()) {
        Ok(presentation) => Some(presentation.duration),
        Err(_) => None,
    }
}

fn moment(ticks: Option<i128>) -> Option<Moment> {
    match ticks {
        Some(t) => Ticks::new(t).map(Moment::At),
        None => Some(Moment::Infinite),
    }
}

#[test]
fn durations(rt: HostRuntime) {
    for (i, (header, duration, want)) in DURATIONS.iter().enumerate() {
        let found = duration_of(&rt, header, duration);
        expect_at(&rt, i, found.is_some() && found == moment(*want));
    }
}
