use super::rows::{expect, expect_at};
use Field::*;
use OptionalField::*;
use bmff_boxes::*;
use std::process::Abort;

/// The first bytes of a box, and what its header tells.
static HEADERS: [(&[u8], Header); 14] = [
    (b"\0\0\0\x08moo", Header::Short),
    (b"\0\0\0\x01free\0\0\0\0\0\0\0", Header::Short),
    (b"\0\0\0\0free", Header::Bad(HeadFault::SizeZero)),
    (b"\0\0\0\x07free", Header::Bad(HeadFault::BoxSize)),
    (
        b"\0\0\0\x01free\0\0\0\0\0\0\0\0",
        Header::Bad(HeadFault::BoxSize),
    ),
    (
        b"\0\0\0\x01free\0\0\0\0\0\0\0\x0F",
        Header::Bad(HeadFault::BoxSize),
    ),
    (
        b"\0\0\0\x08moov",
        Header::Whole {
            kind: *b"moov",
            head: 8,
            len: 8,
        },
    ),
    (
        b"\0\0\0\x01free\0\0\x01\0\0\0\0\x01",
        Header::Whole {
            kind: *b"free",
            head: 16,
            len: 1_099_511_627_777,
        },
    ),
    (
        b"\0\0\0\x01free\0\0\x01\0\0\0\0\0",
        Header::Whole {
            kind: *b"free",
            head: 16,
            len: 1_099_511_627_776,
        },
    ),
    (
        b"\x01\0\0\x01moov",
        Header::Whole {
            kind: *b"moov",
            head: 8,
            len: 16_777_217,
        },
    ),
    (
        b"\0\0\0\x0Bskip\x07\x08\x09",
        Header::Whole {
            kind: *b"skip",
            head: 8,
            len: 11,
        },
    ),
    (
        b"\0\0\0\x01mdat\0\0\0\0\0\0\0\x12\x05\x06",
        Header::Whole {
            kind: *b"mdat",
            head: 16,
            len: 18,
        },
    ),
    (
        b"\0\0\0\x18uuid0123456789abcdef",
        Header::Whole {
            kind: *b"uuid",
            head: 8,
            len: 24,
        },
    ),
    (b"", Header::Short),
];

#[test]
fn headers(rt: HostRuntime) {
    for (i, (bytes, want)) in HEADERS.iter().enumerate() {
        expect_at(&rt, i, header(bytes) == *want);
    }
}

/// Two boxes of one type, and one of another between them.
const ROW: [u8; 30] = *b"\0\0\0\x0Aaaaa\x01\x02\0\0\0\x08bbbb\0\0\0\x0Caaaa\x03\x04\x05\x06";

/// The type and the payload of each box of the row.
static BOXES: [([u8; 4], &[u8]); 3] = [
    (*b"aaaa", &[1, 2]),
    (*b"bbbb", &[]),
    (*b"aaaa", &[3, 4, 5, 6]),
];

/// Types, and the payload of the first box of each.
const FIRST_BOXES: [([u8; 4], Option<&[u8]>); 2] = [(*b"aaaa", Some(&[1, 2])), (*b"cccc", None)];

/// How many bytes of the row there are, and whether they are whole boxes.
const FRONTS: [(usize, bool); 4] = [(30, true), (29, false), (21, false), (0, true)];

#[test]
fn first_boxes(rt: HostRuntime) {
    let row = open(&ROW).expect(&rt, "whole boxes");
    for (i, (kind, want)) in FIRST_BOXES.iter().enumerate() {
        expect_at(&rt, i, row.first(*kind) == *want);
    }
}

/// Whether a row of boxes has these boxes, and then no other.
fn has_boxes(rt: &impl Abort, row: &[u8], boxes: &[([u8; 4], &[u8])]) -> bool {
    let mut row = open(row).expect(rt, "whole boxes");
    for (kind, payload) in boxes {
        let Some(found) = row.next() else {
            return false;
        };
        let own = found.kind;
        if own != *kind || found.payload != *payload {
            return false;
        }
    }
    row.next().is_none()
}

#[test]
fn rows_of_boxes(rt: HostRuntime) {
    expect(&rt, "three boxes", has_boxes(&rt, &ROW, &BOXES));
}

#[test]
fn fronts_of_rows(rt: HostRuntime) {
    for (len, whole) in &FRONTS {
        expect_at(&rt, *len, open(front(&ROW, *len)).is_some() == *whole);
    }
}

/// So many bytes, or all if there are fewer.
fn front(bytes: &[u8], len: usize) -> &[u8] {
    match bytes.get(..len) {
        Some(part) => part,
        None => bytes,
    }
}

fn word_of(child: &Child<'_>) -> &'static str {
    match child {
        Child::Found { .. } => "box",
        Child::Uneven => "uneven",
        Child::End => "end",
    }
}

/// How many bytes of the row there are, and what a walk over them gives.
const WALKS: [(usize, &[&str]); 2] = [(19, &["box", "box", "uneven"]), (0, &["end"])];

#[test]
fn walks_over_boxes(rt: HostRuntime) {
    for (len, words) in &WALKS {
        let mut walk = children(front(&ROW, *len));
        for want in *words {
            expect(&rt, want, word_of(&walk.next()) == *want);
        }
    }
}

/// Payloads of version 0, 1 and 2 with some flags, whose other bytes are their own places.
const ZERO: [u8; 32] = [
    0, 0, 0, 0, 4, 5, 6, 7, 8, 9, 10, 11, 12, 13, 14, 15, 16, 17, 18, 19, 20, 21, 22, 23, 24, 25,
    26, 27, 28, 29, 30, 31,
];

const ONE: [u8; 32] = [
    1, 0, 0, 0x3B, 4, 5, 6, 7, 8, 9, 10, 11, 12, 13, 14, 15, 16, 17, 18, 19, 20, 21, 22, 23, 24,
    25, 26, 27, 28, 29, 30, 31,
];

const TWO: [u8; 32] = [
    2, 0, 1, 0x22, 4, 5, 6, 7, 8, 9, 10, 11, 12, 13, 14, 15, 16, 17, 18, 19, 20, 21, 22, 23, 24,
    25, 26, 27, 28, 29, 30, 31,
];

/// A field that its box always has.
enum Field {
    Version,
    Flags,
    EntryCount,
    MvhdScale,
    MvhdDuration,
    MehdDuration,
    TrexTrack,
    TrexDescription,
    TrexDuration,
    TrexSize,
    TrexFlags,
    TkhdTrack,
    MdhdScale,
    TfhdTrack,
    TfdtTime,
    TrunCount,
}

fn wide(number: Option<u32>) -> Option<u64> {
    match number {
        Some(n) => Some(u64::from(n)),
        None => None,
    }
}

fn read_version(payload: &[u8]) -> Option<u64> {
    match version(payload) {
        Some(n) => Some(u64::from(n)),
        None => None,
    }
}

fn read_field(field: &Field, payload: &[u8]) -> Option<u64> {
    match field {
        Version => read_version(payload),
        Flags => wide(flags(payload)),
        EntryCount => wide(entry_count(payload)),
        MvhdScale => wide(mvhd_scale(payload)),
        MvhdDuration => mvhd_duration(payload),
        MehdDuration => mehd_duration(payload),
        TrexTrack => wide(trex_track(payload)),
        TrexDescription => wide(trex_description(payload)),
        TrexDuration => wide(trex_duration(payload)),
        TrexSize => wide(trex_size(payload)),
        TrexFlags => wide(trex_flags(payload)),
        TkhdTrack => wide(tkhd_track(payload)),
        MdhdScale => wide(mdhd_scale(payload)),
        TfhdTrack => wide(tfhd_track(payload)),
        TfdtTime => tfdt_time(payload),
        TrunCount => wide(trun_count(payload)),
    }
}

/// A name, a field, a payload, how many of its bytes there are, and the number that is read.
type FieldRow = (&'static str, Field, &'static [u8], usize, Option<u64>);

static FIELDS: [FieldRow; 33] = [
    ("version 1", Version, &ONE, 32, Some(1)),
    ("no version", Version, &ONE, 0, None),
    ("flags", Flags, &ONE, 32, Some(0x3B)),
    ("wide flags", Flags, &TWO, 32, Some(0x122)),
    ("short flags", Flags, &ONE, 3, None),
    ("count", EntryCount, &ONE, 32, Some(0x0405_0607)),
    ("short count", EntryCount, &ONE, 7, None),
    ("mvhd scale 0", MvhdScale, &ZERO, 32, Some(0x0C0D_0E0F)),
    ("mvhd scale 1", MvhdScale, &ONE, 32, Some(0x1415_1617)),
    ("mvhd scale 2", MvhdScale, &TWO, 32, Some(0x0C0D_0E0F)),
    ("short mvhd scale", MvhdScale, &ONE, 23, None),
    (
        "mvhd duration 0",
        MvhdDuration,
        &ZERO,
        32,
        Some(0x1011_1213),
    ),
    (
        "mvhd duration 1",
        MvhdDuration,
        &ONE,
        32,
        Some(0x1819_1A1B_1C1D_1E1F),
    ),
    ("short mvhd duration", MvhdDuration, &ONE, 31, None),
    (
        "mehd duration 0",
        MehdDuration,
        &ZERO,
        32,
        Some(0x0405_0607),
    ),
    ("mehd duration 2", MehdDuration, &TWO, 32, Some(0x0405_0607)),
    (
        "mehd duration 1",
        MehdDuration,
        &ONE,
        32,
        Some(0x0405_0607_0809_0A0B),
    ),
    ("trex track", TrexTrack, &ZERO, 32, Some(0x0405_0607)),
    (
        "trex description",
        TrexDescription,
        &ZERO,
        32,
        Some(0x0809_0A0B),
    ),
    ("trex duration", TrexDuration, &ZERO, 32, Some(0x0C0D_0E0F)),
    ("trex size", TrexSize, &ZERO, 32, Some(0x1011_1213)),
    ("trex flags", TrexFlags, &ZERO, 32, Some(0x1415_1617)),
    ("short trex flags", TrexFlags, &ONE, 23, None),
    ("tkhd track 0", TkhdTrack, &ZERO, 32, Some(0x0C0D_0E0F)),
    ("tkhd track 1", TkhdTrack, &ONE, 32, Some(0x1415_1617)),
    ("mdhd scale 0", MdhdScale, &ZERO, 32, Some(0x0C0D_0E0F)),
    ("mdhd scale 1", MdhdScale, &ONE, 32, Some(0x1415_1617)),
    ("tfhd track", TfhdTrack, &ZERO, 32, Some(0x0405_0607)),
    ("tfdt time 0", TfdtTime, &ZERO, 8, Some(0x0405_0607)),
    ("short tfdt time 0", TfdtTime, &ZERO, 7, None),
    (
        "tfdt time 1",
        TfdtTime,
        &ONE,
        12,
        Some(0x0405_0607_0809_0A0B),
    ),
    ("short tfdt time 1", TfdtTime, &ONE, 11, None),
    ("trun count", TrunCount, &FULL_RUN, 48, Some(2)),
];

#[test]
fn fields(rt: HostRuntime) {
    for (name, field, payload, len, want) in &FIELDS {
        expect(&rt, name, read_field(field, front(payload, *len)) == *want);
    }
}

/// A handler, how many bytes of its box there are, and what is read.
const HANDLERS: [(usize, Option<[u8; 4]>); 2] = [(12, Some(*b"soun")), (11, None)];

#[test]
fn handlers(rt: HostRuntime) {
    for (len, want) in &HANDLERS {
        let payload = front(b"\0\0\0\0\0\0\0\0soun", *len);
        expect_at(&rt, *len, hdlr_handler(payload) == *want);
    }
}

/// A field that its box has where a flag says so.
enum OptionalField {
    TfhdBase,
    TfhdDescription,
    TfhdDuration,
    TfhdSize,
    TfhdFlags,
    TrunDataOffset,
    TrunFirstFlags,
}

/// A number, or `None` where the box has no such field; `None` for a payload that is too short.
type OptionalNumber = Option<Option<i128>>;

fn unsigned(number: Option<Option<u32>>) -> OptionalNumber {
    match number {
        Some(Some(n)) => Some(Some(i128::from(n))),
        Some(None) => Some(None),
        None => None,
    }
}

fn read_base(payload: &[u8]) -> OptionalNumber {
    match tfhd_base(payload) {
        Some(Some(n)) => Some(Some(i128::from(n))),
        Some(None) => Some(None),
        None => None,
    }
}

fn read_data_offset(payload: &[u8]) -> OptionalNumber {
    match trun_data_offset(payload) {
        Some(Some(n)) => Some(Some(i128::from(n))),
        Some(None) => Some(None),
        None => None,
    }
}

fn read_optional_field(field: &OptionalField, payload: &[u8]) -> OptionalNumber {
    match field {
        TfhdBase => read_base(payload),
        TfhdDescription => unsigned(tfhd_description(payload)),
        TfhdDuration => unsigned(tfhd_duration(payload)),
        TfhdSize => unsigned(tfhd_size(payload)),
        TfhdFlags => unsigned(tfhd_flags(payload)),
        TrunDataOffset => read_data_offset(payload),
        TrunFirstFlags => unsigned(trun_first_flags(payload)),
    }
}

/// A name, a field, a payload, how many of its bytes there are, and the number that is read.
type OptionalRow = (
    &'static str,
    OptionalField,
    &'static [u8],
    usize,
    OptionalNumber,
);

static OPTIONAL_FIELDS: [OptionalRow; 21] = [
    ("no description", TfhdDescription, &ZERO, 32, Some(None)),
    ("no size", TfhdSize, &ZERO, 32, Some(None)),
    ("no flags", TfhdFlags, &ZERO, 32, Some(None)),
    (
        "description",
        TfhdDescription,
        &ONE,
        32,
        Some(Some(0x1011_1213)),
    ),
    ("duration", TfhdDuration, &ONE, 32, Some(Some(0x1415_1617))),
    ("size", TfhdSize, &ONE, 32, Some(Some(0x1819_1A1B))),
    ("flags", TfhdFlags, &ONE, 32, Some(Some(0x1C1D_1E1F))),
    (
        "first description",
        TfhdDescription,
        &TWO,
        32,
        Some(Some(0x0809_0A0B)),
    ),
    ("second flags", TfhdFlags, &TWO, 32, Some(Some(0x0C0D_0E0F))),
    ("no flags of 3 bytes", TfhdFlags, &ONE, 3, None),
    ("no flags of 31 bytes", TfhdFlags, &ONE, 31, None),
    ("no base", TfhdBase, &ZERO, 32, Some(None)),
    (
        "base",
        TfhdBase,
        &ONE,
        16,
        Some(Some(0x0809_0A0B_0C0D_0E0F)),
    ),
    ("short base", TfhdBase, &ONE, 15, None),
    ("data offset", TrunDataOffset, &FULL_RUN, 48, Some(Some(-8))),
    ("short data offset", TrunDataOffset, &FULL_RUN, 11, None),
    ("no data offset", TrunDataOffset, &SMALL_RUN, 24, Some(None)),
    (
        "first flags",
        TrunFirstFlags,
        &FULL_RUN,
        48,
        Some(Some(0x0200_0000)),
    ),
    ("short first flags", TrunFirstFlags, &FULL_RUN, 15, None),
    ("no first flags", TrunFirstFlags, &SMALL_RUN, 24, Some(None)),
    (
        "first flags without a data offset",
        TrunFirstFlags,
        b"\0\0\0\x04\0\0\0\x01\0\0\0\x09",
        12,
        Some(Some(9)),
    ),
];

#[test]
fn optional_fields(rt: HostRuntime) {
    for (name, field, payload, len, want) in &OPTIONAL_FIELDS {
        let found = read_optional_field(field, front(payload, *len));
        expect(&rt, name, found == *want);
    }
}

/// Two entries, the first an empty edit.
const EDITS: [u8; 32] = *b"\0\0\0\0\0\0\0\x02\
    \0\0\x01\0\xFF\xFF\xFF\xFF\0\x01\0\0\
    \0\0\0\x05\0\0\x10\0\xFF\xFE\0\x03";

/// One entry of version 1.
const LONG_EDIT: [u8; 28] = *b"\x01\0\0\0\0\0\0\x01\
    \0\0\0\x01\0\0\0\0\xFF\xFF\xFF\xFF\xFF\xFF\xFF\xFE\0\x01\x80\0";

/// An edit list, how many of its bytes there are, the place of an entry, and the entry.
static EDIT_LISTS: [(&[u8], usize, u32, Option<EditEntry>); 6] = [
    (
        &EDITS,
        32,
        0,
        Some(EditEntry {
            duration: 256,
            media_time: -1,
            rate: 1,
            fraction: 0,
        }),
    ),
    (
        &EDITS,
        32,
        1,
        Some(EditEntry {
            duration: 5,
            media_time: 4096,
            rate: -2,
            fraction: 3,
        }),
    ),
    (&EDITS, 31, 1, None),
    (&EDITS, 32, u32::MAX, None),
    (
        &LONG_EDIT,
        28,
        0,
        Some(EditEntry {
            duration: 1 << 32,
            media_time: -2,
            rate: 1,
            fraction: -32768,
        }),
    ),
    (&LONG_EDIT, 27, 0, None),
];

#[test]
fn edit_lists(rt: HostRuntime) {
    for (row, (edits, len, i, want)) in EDIT_LISTS.iter().enumerate() {
        expect_at(&rt, row, elst_entry(front(edits, *len), *i) == *want);
    }
}

/// A run of version 1 with all fields, of two samples.
const FULL_RUN: [u8; 48] = *b"\x01\0\x0F\x05\0\0\0\x02\xFF\xFF\xFF\xF8\x02\0\0\0\
    \0\0\0\x0A\0\0\0\x14\0\x01\0\0\xFF\xFF\xFF\xFF\
    \0\0\0\x0B\0\0\0\x15\0\0\0\0\0\0\0\x07";

/// A run of version 0 with sizes and composition offsets, of two samples.
const SMALL_RUN: [u8; 24] = *b"\0\0\x0A\0\0\0\0\x02\
    \0\0\0\x05\xFF\xFF\xFF\xFF\
    \0\0\0\x06\0\0\0\x07";

/// A run, how many of its bytes there are, the place of a sample, and the sample.
static SAMPLES: [(&[u8], usize, u32, Option<TrunSample>); 8] = [
    (
        &FULL_RUN,
        48,
        0,
        Some(TrunSample {
            duration: Some(10),
            size: Some(20),
            flags: Some(0x1_0000),
            offset: Some(-1),
        }),
    ),
    (
        &FULL_RUN,
        48,
        1,
        Some(TrunSample {
            duration: Some(11),
            size: Some(21),
            flags: Some(0),
            offset: Some(7),
        }),
    ),
    (&FULL_RUN, 47, 1, None),
    (&FULL_RUN, 48, u32::MAX, None),
    (
        &SMALL_RUN,
        24,
        0,
        Some(TrunSample {
            duration: None,
            size: Some(5),
            flags: None,
            offset: Some(4_294_967_295),
        }),
    ),
    (
        &SMALL_RUN,
        24,
        1,
        Some(TrunSample {
            duration: None,
            size: Some(6),
            flags: None,
            offset: Some(7),
        }),
    ),
    (&SMALL_RUN, 23, 1, None),
    (
        &[0; 8],
        8,
        u32::MAX,
        Some(TrunSample {
            duration: None,
            size: None,
            flags: None,
            offset: None,
        }),
    ),
];

#[test]
fn runs_of_samples(rt: HostRuntime) {
    for (row, (run, len, i, want)) in SAMPLES.iter().enumerate() {
        expect_at(&rt, row, trun_sample(front(run, *len), *i) == *want);
    }
}

/// Runs, how many bytes there are, how many samples are asked for, and whether the fields of so many are there.
static RUNS: [(&[u8], usize, u32, bool); 9] = [
    (&FULL_RUN, 48, 2, true),
    (&SMALL_RUN, 24, 2, true),
    (&[0; 8], 8, 1000, true),
    (&FULL_RUN, 48, 3, false),
    (&FULL_RUN, 47, 2, false),
    (&FULL_RUN, 47, 1, true),
    (&SMALL_RUN, 23, 2, false),
    (&[0; 8], 7, 0, false),
    (&FULL_RUN, 48, u32::MAX, false),
];

/// Whether the fields of so many samples are there. Each such sample is read as it is read alone.
fn has_fields(rt: &impl Abort, run: &[u8], count: u32) -> bool {
    let Some(fields) = run_fields(run, count) else {
        return false;
    };
    for i in 0..count {
        let alone = trun_sample(run, i);
        let sample = run_sample(run, &fields, i);
        expect(rt, "as it is read alone", alone == Some(sample));
    }
    true
}

#[test]
fn fields_of_runs(rt: HostRuntime) {
    for (i, (run, len, count, want)) in RUNS.iter().enumerate() {
        let found = has_fields(&rt, front(run, *len), *count);
        expect_at(&rt, i, found == *want);
    }
}

/// A box, how many of its bytes there are, and its payload.
static PAYLOADS: [(&[u8], usize, Option<&[u8]>); 5] = [
    (&ROW, 30, Some(&[1, 2])),
    (b"\0\0\0\x01free\0\0\0\0\0\0\0\x11\x05", 17, Some(&[5])),
    (&ROW, 9, None),
    (&ROW, 7, None),
    (&ROW, 0, None),
];

#[test]
fn payloads(rt: HostRuntime) {
    for (bytes, len, want) in &PAYLOADS {
        expect_at(&rt, *len, payload(front(bytes, *len)) == *want);
    }
}
