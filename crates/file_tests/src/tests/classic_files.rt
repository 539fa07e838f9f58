use super::made_boxes::{Boxes, Part};
use super::rows::{expect, expect_at};
use bmff_init::InitFault;
use sample_tables::*;
use std::process::Abort;

/// A full box: its type, its version, and the numbers of four bytes behind its flags.
type Table = ([u8; 4], u8, &'static [u32]);

/// A classic file of 32 bytes of media and a movie box, up to the handler of its one track.
static FILE_FRONT: [Part<'static>; 27] = [
    Part::Open(b"mdat"),
    Part::Bytes(&[0; 24]),
    Part::Close,
    Part::Open(b"moov"),
    Part::Open(b"mvhd"),
    Part::Bytes(&[0; 14]),
    Part::Bytes(&[3, 0xE8, 0, 0, 0, 0]),
    Part::Close,
    Part::Open(b"trak"),
    Part::Open(b"tkhd"),
    Part::Bytes(&[0; 12]),
    Part::Bytes(&[0, 0, 0, 7]),
    Part::Close,
    Part::Open(b"edts"),
    Part::Open(b"elst"),
    Part::Bytes(&[0, 0, 0, 0, 0, 0, 0, 2]),
    Part::Bytes(&[0, 0, 1, 0xF4, 0xFF, 0xFF, 0xFF, 0xFF, 0, 1, 0, 0]),
    Part::Bytes(&[0, 0, 0, 0, 0, 0, 0, 30, 0, 1, 0, 0]),
    Part::Close,
    Part::Close,
    Part::Open(b"mdia"),
    Part::Open(b"mdhd"),
    Part::Bytes(&[0; 12]),
    Part::Bytes(&[0, 1, 0x5F, 0x90]),
    Part::Close,
    Part::Open(b"hdlr"),
    Part::Bytes(&[0; 8]),
];

/// What stands between the handler and the tables.
static SAMPLE_ENTRY: [Part<'static>; 8] = [
    Part::Close,
    Part::Open(b"minf"),
    Part::Open(b"stbl"),
    Part::Open(b"stsd"),
    Part::Bytes(&[0, 0, 0, 0, 0, 0, 0, 1]),
    Part::Open(b"mp4a"),
    Part::Close,
    Part::Close,
];

/// The ends of the boxes round the tables.
const FILE_END: [Part<'static>; 5] = [Part::Close; 5];

/// Appends a table as a box.
fn put_table(rt: &impl Abort, boxes: &mut Boxes, table: &Table) {
    let (kind, version, numbers) = table;
    boxes.open(rt, kind);
    boxes.push(rt, &[*version, 0, 0, 0]);
    for number in *numbers {
        boxes.push(rt, &number.to_be_bytes());
    }
    boxes.close(rt);
}

/// A classic file of 32 bytes of media and a movie box with one track of these tables.
fn classic(rt: &(impl Abort + AllocGlobal), handler: &[u8; 4], tables: &[Table]) -> Vec<u8> {
    let mut boxes = Boxes::new(rt.alloc());
    boxes.put(rt, &FILE_FRONT);
    boxes.push(rt, handler);
    boxes.put(rt, &SAMPLE_ENTRY);
    for table in tables {
        put_table(rt, &mut boxes, table);
    }
    boxes.put(rt, &FILE_END);
    boxes.into_bytes()
}

/// What a sample is: decode time, place, size, duration, composition offset, and whether it is a sync sample.
type Told = (u64, u64, u32, u32, i32, bool);

fn view_of_sample(sample: &Sample) -> Told {
    (
        sample.decode,
        sample.place,
        sample.size,
        sample.duration,
        sample.offset,
        sample.sync,
    )
}

const DURATIONS: Table = (*b"stts", 0, &[2, 2, 10, 3, 20]);

const CHUNKS: Table = (*b"stsc", 0, &[2, 1, 2, 1, 2, 3, 1]);

/// Sizes and composition offsets of each kind, with sync samples.
static FIRST: [Table; 6] = [
    DURATIONS,
    (*b"ctts", 0, &[2, 1, 7, 4, 0]),
    (*b"stss", 0, &[2, 1, 4]),
    (*b"stsz", 0, &[0, 5, 3, 1, 0, 2, 4]),
    CHUNKS,
    (*b"stco", 0, &[2, 8, 20]),
];

static FIRST_TOLD: [Told; 5] = [
    (0, 8, 3, 10, 7, true),
    (10, 11, 1, 10, 0, false),
    (20, 20, 0, 20, 0, false),
    (40, 20, 2, 20, 0, true),
    (60, 22, 4, 20, 0, false),
];

/// One size, signed offsets, places of eight bytes, no table of sync samples.
static SECOND: [Table; 5] = [
    DURATIONS,
    (*b"ctts", 1, &[3, 4, 0xFFFF_FFFB, 0, 0x7FFF_FFFF, 1, 6]),
    (*b"stsz", 0, &[2, 5]),
    CHUNKS,
    (*b"co64", 0, &[2, 0, 8, 0, 20]),
];

static SECOND_TOLD: [Told; 5] = [
    (0, 8, 2, 10, -5, true),
    (10, 10, 2, 10, -5, true),
    (20, 20, 2, 20, -5, true),
    (40, 22, 2, 20, -5, true),
    (60, 24, 2, 20, 6, true),
];

/// Whether these are the samples.
fn are(samples: &[Sample], want: &[Told]) -> bool {
    for (sample, wanted) in samples.iter().zip(want.iter()) {
        if view_of_sample(sample) != *wanted {
            return false;
        }
    }
    samples.len() == want.len()
}

/// Whether the one track of a file has these samples.
fn has_samples(rt: &(impl Abort + AllocGlobal), tables: &[Table], want: &[Told]) -> bool {
    let file = classic(rt, b"soun", tables);
    match read_file(rt.alloc(), file.as_slice()) {
        Ok(tracks) => match tracks.as_slice() {
            [track] => is_track_of_the_file(track) && are(track.samples.as_slice(), want),
            _ => false,
        },
        Err(_) => false,
    }
}

/// Whether what a track has beside its samples is what the file tells: its number, the time by which it begins later,
/// where in the media it begins, its codec, and a sample description of 24 bytes.
fn is_track_of_the_file(track: &MediaTrack) -> bool {
    track.info.id == 7
        && track.lag == 45_000
        && track.info.media_shift == 30
        && track.codec == *b"mp4a"
        && track.stsd.len() == 24
}

#[test]
fn samples_of_tables(rt: HostRuntime) {
    expect(&rt, "first", has_samples(&rt, &FIRST, &FIRST_TOLD));
    expect(&rt, "second", has_samples(&rt, &SECOND, &SECOND_TOLD));
}

fn fault_of(outcome: Result<Vec<MediaTrack>, FileError>) -> Option<PlacedFault> {
    match outcome {
        Ok(_) => None,
        Err(FileError::Fault(fault)) => Some(fault),
        Err(FileError::OutOfMemory) => None,
    }
}

const MISSING: MovieFault = MovieFault::Moov(InitFault::Missing(*b"stco"));

/// A table in the place of one of the first file, and the fault.
static FAULTS: [(usize, Table, MovieFault); 13] = [
    (0, (*b"stts", 0, &[2, 2, 10, 2, 20]), MovieFault::Tables),
    (
        0,
        (*b"stts", 0, &[3, 2, 10, 3, 20]),
        MovieFault::Moov(InitFault::Size),
    ),
    (1, (*b"ctts", 0, &[1, 4, 0]), MovieFault::Tables),
    (1, (*b"ctts", 0, &[1, 5, 0x8000_0000]), MovieFault::Range),
    (2, (*b"stss", 0, &[2, 4, 4]), MovieFault::Tables),
    (2, (*b"stss", 0, &[1, 6]), MovieFault::Tables),
    (3, (*b"stsz", 0, &[0x0400_0001, 5]), MovieFault::TooMany),
    (
        3,
        (*b"stsz", 0, &[0, 5, 3, 1, 0, 2, 0xFFFF]),
        MovieFault::Place,
    ),
    (4, (*b"stsc", 0, &[1, 2, 5, 1]), MovieFault::Tables),
    (4, (*b"stsc", 0, &[2, 1, 2, 1, 3, 3, 1]), MovieFault::Tables),
    (4, (*b"stsc", 0, &[0]), MovieFault::Tables),
    (5, (*b"stco", 0, &[2, 8, 0xFFFF_FFFF]), MovieFault::Place),
    (5, (*b"free", 0, &[0]), MISSING),
];

/// Whether a file has this fault, which is that of its movie box.
fn has_fault(
    rt: &(impl Abort + AllocGlobal),
    handler: &[u8; 4],
    tables: &[Table],
    fault: MovieFault,
) -> bool {
    let file = classic(rt, handler, tables);
    let found = fault_of(read_file(rt.alloc(), file.as_slice()));
    found == Some(PlacedFault { fault, offset: 32 })
}

/// The first tables, with another in the place of one.
fn tables_with(at: usize, table: Table) -> [Table; 6] {
    let mut tables = FIRST;
    if at < tables.len() {
        tables[at] = table;
    }
    tables
}

const NO_DURATIONS: MovieFault = MovieFault::Moov(InitFault::Missing(*b"stts"));

#[test]
fn faults_of_tables(rt: HostRuntime) {
    for (i, (at, table, fault)) in FAULTS.iter().enumerate() {
        let found = has_fault(&rt, b"soun", &tables_with(*at, *table), *fault);
        expect_at(&rt, i, found);
    }
    expect(&rt, "no tables", has_fault(&rt, b"soun", &[], NO_DURATIONS));
    let found = has_fault(&rt, b"text", &FIRST, MovieFault::NoTracks);
    expect(&rt, "a track of text", found);
}

/// How many samples the one track of a file has, and how many of them are sync samples.
fn counts(rt: &(impl Abort + AllocGlobal), tables: &[Table]) -> Option<(usize, usize)> {
    let file = classic(rt, b"vide", tables);
    match read_file(rt.alloc(), file.as_slice()) {
        Ok(tracks) => match tracks.as_slice() {
            [track] => {
                let samples = track.samples.as_slice();
                let sync = samples.iter().filter(|sample| sample.sync);
                Some((samples.len(), sync.count()))
            }
            _ => None,
        },
        Err(_) => None,
    }
}

/// A table of sync samples without entries.
const NO_SYNC_SAMPLES: Table = (*b"stss", 0, &[0]);

static NO_SAMPLES: [Table; 4] = [
    (*b"stts", 0, &[0]),
    (*b"stsz", 0, &[0, 0]),
    (*b"stsc", 0, &[0]),
    (*b"stco", 0, &[0]),
];

/// A table of sync samples without entries says that there is none, and a track may have no samples.
#[test]
fn empty_tables(rt: HostRuntime) {
    let none_sync = counts(&rt, &tables_with(2, NO_SYNC_SAMPLES));
    expect(&rt, "no sync samples", none_sync == Some((5, 0)));
    let none = counts(&rt, &NO_SAMPLES);
    expect(&rt, "no samples", none == Some((0, 0)));
}
