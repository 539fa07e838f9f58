use super::made_boxes::{Part, made, overwrite};
use super::rows::{expect, expect_at};
use bmff_init::InitFault;
use md5::{Digest, Md5};
use mse_base::Bytes;
use remux::*;
use sample_tables::PlacedFault;
use std::process::Abort;

/// A classic file of one video track, whose movie box is at 44. Its three samples of four bytes are one chunk at 32, and
/// the first is a sync sample.
static CLASSIC: [Part<'static>; 57] = [
    Part::Open(b"ftyp"),
    Part::Bytes(b"iso6\0\0\0\0iso6mp41"),
    Part::Close,
    Part::Open(b"mdat"),
    Part::Bytes(&[0; 12]),
    Part::Close,
    Part::Open(b"moov"),
    Part::Open(b"mvhd"),
    Part::Bytes(&[0; 14]),
    Part::Bytes(&[3, 0xE8, 0, 0, 0, 0]),
    Part::Close,
    Part::Open(b"trak"),
    Part::Open(b"tkhd"),
    Part::Bytes(&[0; 12]),
    Part::Bytes(&[0, 0, 0, 1]),
    Part::Close,
    Part::Open(b"mdia"),
    Part::Open(b"mdhd"),
    Part::Bytes(&[0; 12]),
    Part::Bytes(&[0, 1, 0x5F, 0x90]),
    Part::Close,
    Part::Open(b"hdlr"),
    Part::Bytes(b"\0\0\0\0\0\0\0\0vide"),
    Part::Close,
    Part::Open(b"minf"),
    Part::Open(b"stbl"),
    Part::Open(b"stsd"),
    Part::Bytes(&[0, 0, 0, 0, 0, 0, 0, 1]),
    Part::Open(b"avc1"),
    Part::Bytes(&[0, 0, 0, 0, 0, 0, 0, 1]),
    Part::Bytes(&[0; 20]),
    Part::Bytes(&[0, 0x48, 0, 0, 0, 0x48, 0, 0]),
    Part::Bytes(&[0, 0, 0, 0, 0, 1]),
    Part::Bytes(&[0; 32]),
    Part::Bytes(&[0, 0x18, 0xFF, 0xFF]),
    Part::Close,
    Part::Close,
    Part::Open(b"stts"),
    Part::Bytes(&[0, 0, 0, 0, 0, 0, 0, 1, 0, 0, 0, 3, 0, 0, 0x0B, 0xB8]),
    Part::Close,
    Part::Open(b"stss"),
    Part::Bytes(&[0, 0, 0, 0, 0, 0, 0, 1, 0, 0, 0, 1]),
    Part::Close,
    Part::Open(b"stsc"),
    Part::Bytes(&[0, 0, 0, 0, 0, 0, 0, 1, 0, 0, 0, 1, 0, 0, 0, 3, 0, 0, 0, 1]),
    Part::Close,
    Part::Open(b"stsz"),
    Part::Bytes(&[0, 0, 0, 0, 0, 0, 0, 4, 0, 0, 0, 3]),
    Part::Close,
    Part::Open(b"stco"),
    Part::Bytes(&[0, 0, 0, 0, 0, 0, 0, 1, 0, 0, 0, 32]),
    Part::Close,
    Part::Close,
    Part::Close,
    Part::Close,
    Part::Close,
    Part::Close,
];

/// The bytes of pieces, and how many pieces there are.
fn whole(rt: &(impl Abort + AllocGlobal), pieces: &[Bytes]) -> (Vec<u8>, usize) {
    let mut bytes = Vec::new(rt.alloc());
    for piece in pieces {
        bytes
            .extend_from_slice(piece.as_slice())
            .expect(rt, "memory");
    }
    (bytes, pieces.len())
}

/// The fragments of a file, and how many pieces they are.
fn fragments_of(rt: &(impl Abort + AllocGlobal), file: &[u8]) -> (Vec<u8>, usize) {
    let pieces = remux(rt.alloc(), file).expect(rt, "pieces");
    whole(rt, pieces.as_slice())
}

/// A fault of a file, by its place.
fn fault_at(fault: RemuxFault, offset: u64) -> Option<RemuxError> {
    Some(RemuxError::Fault(PlacedFault { fault, offset }))
}

fn digest_of(bytes: &[u8]) -> u128 {
    u128::from_be_bytes(Md5::digest(bytes))
}

/// The bytes are known by their digest, since another program wrote them.
#[test]
fn fragments_of_a_video_track(rt: HostRuntime) {
    let (bytes, count) = fragments_of(&rt, made(&rt, &CLASSIC).as_slice());
    expect(&rt, "two pieces", (bytes.len(), count) == (751, 2));
    let digest = digest_of(bytes.as_slice());
    let wanted = 0x71064bb2_ef61b365_34c3a50c_c680d4e3;
    expect(&rt, "their digest", digest == wanted);
    let again = remux(rt.alloc(), bytes.as_slice()).err();
    expect(&rt, "again", again == fault_at(RemuxFault::Fragmented, 24));
}

/// Bytes to write over a box: its type, a place from its first byte on, and the bytes; and the fault.
type Change = ([u8; 4], usize, &'static [u8], RemuxFault);

static FAULTS: [Change; 21] = [
    (*b"stco", 16, &[0xFF; 4], RemuxFault::Place),
    (*b"stco", 16, b"\0\0\x01\xFF", RemuxFault::Place),
    (*b"stts", 16, &[0, 0, 0, 2], RemuxFault::Tables),
    (*b"stss", 16, &[0; 4], RemuxFault::Tables),
    (*b"stss", 16, &[0, 0, 0, 4], RemuxFault::Tables),
    (*b"stsc", 16, &[0, 0, 0, 2], RemuxFault::Tables),
    (*b"stsc", 20, &[0; 4], RemuxFault::Tables),
    (*b"stsc", 20, &[0, 0, 0, 4], RemuxFault::Tables),
    (*b"stsz", 16, &[0, 0, 0, 2], RemuxFault::Tables),
    (*b"stsz", 12, &[0x20, 0, 0, 0], RemuxFault::TooMany),
    (*b"stsz", 12, &[0; 4], RemuxFault::Moov(InitFault::Size)),
    (*b"stts", 15, &[2], RemuxFault::Moov(InitFault::Size)),
    (*b"stss", 15, &[2], RemuxFault::Moov(InitFault::Size)),
    (*b"stsc", 15, &[2], RemuxFault::Moov(InitFault::Size)),
    (*b"stco", 15, &[2], RemuxFault::Moov(InitFault::Size)),
    (
        *b"stts",
        4,
        b"free",
        RemuxFault::Moov(InitFault::Missing(*b"stts")),
    ),
    (
        *b"stsz",
        4,
        b"free",
        RemuxFault::Moov(InitFault::Missing(*b"stsz")),
    ),
    (
        *b"stco",
        4,
        b"free",
        RemuxFault::Moov(InitFault::Missing(*b"stco")),
    ),
    (
        *b"mvhd",
        4,
        b"free",
        RemuxFault::Moov(InitFault::Missing(*b"mvhd")),
    ),
    (*b"vide", 4, b"text", RemuxFault::NoTracks),
    (*b"tkhd", 20, &[0; 4], RemuxFault::Range),
];

/// Whether the file with bytes written over those of a box has the fault of the change.
fn has_fault(rt: &(impl Abort + AllocGlobal), change: &Change, offset: u64) -> bool {
    let (kind, at, new, fault) = change;
    let mut file = made(rt, &CLASSIC);
    overwrite(rt, &mut file, kind, *at, new);
    remux(rt.alloc(), file.as_slice()).err() == fault_at(*fault, offset)
}

/// The size of the media is past the end of the file.
const CUT_OFF: Change = (*b"mdat", 0, &[0xFF], RemuxFault::Box);

#[test]
fn faults(rt: HostRuntime) {
    for (i, change) in FAULTS.iter().enumerate() {
        expect_at(&rt, i, has_fault(&rt, change, 44));
    }
    expect(&rt, "media past the end", has_fault(&rt, &CUT_OFF, 24));
    let none = remux(rt.alloc(), &[]).err();
    expect(&rt, "no file", none == fault_at(RemuxFault::NoMoov, 0));
}
