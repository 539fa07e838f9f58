//! Bytes that are made of boxes.

use super::given::{plain_track, put_init};
use mse_base::Kind;
use std::process::Abort;

/// A part of a text.
#[derive(Clone, Copy)]
pub(super) enum Part {
    /// The header of a box of this size and type, and numbers of 32 bits behind it.
    Box(u32, &'static [u8; 4], &'static [u32]),
    Numbers(&'static [u32]),
    Bytes(&'static [u8]),
    /// An initialization segment of one video track of scale 90000: 24 bytes of `ftyp` and 571 of `moov`.
    VideoInit,
    /// The same with an audio track of scale 48000: 24 bytes and 964.
    VideoAndAudioInit,
}

/// Parts, one behind the other.
pub(super) type Text = &'static [&'static [Part]];

/// The flags of a `tfhd` whose data count from the moof.
pub(super) const FROM_MOOF: u32 = 0x0002_0000;

/// Version 1.
pub(super) const V1: u32 = 0x0100_0000;

/// Version 1 of a run with a data offset, whose samples each have a duration, a size, flags and a composition offset.
pub(super) const RUN: u32 = 0x0100_0F01;

/// The flags of a sync sample.
pub(super) const SYNC: u32 = 0x0200_0000;

/// The flags of a sample that depends on others.
pub(super) const DEPENDS: u32 = 0x0101_0000;

pub(super) const INIT: &[Part] = &[Part::VideoInit];

/// A moof of 136 bytes with three samples of 3000 units and 4 bytes, the first a sync sample.
pub(super) const MOOF: &[Part] = &[
    Part::Box(136, b"moof", &[]),
    Part::Box(16, b"mfhd", &[0, 1]),
    Part::Box(112, b"traf", &[]),
    Part::Box(16, b"tfhd", &[FROM_MOOF, 1]),
    Part::Box(20, b"tfdt", &[V1, 0, 0]),
    Part::Box(68, b"trun", &[RUN, 3, 144]),
    Part::Numbers(&[3000, 4, SYNC, 0]),
    Part::Numbers(&[3000, 4, DEPENDS, 0]),
    Part::Numbers(&[3000, 4, DEPENDS, 0]),
];

/// The bytes of the three samples, of all of which no two are equal.
pub(super) const MDAT: &[Part] = &[
    Part::Box(20, b"mdat", &[]),
    Part::Bytes(&[1, 2, 3, 4, 5, 6, 7, 8, 9, 10, 11, 12]),
];

/// Three samples of 3000 units and 4 bytes of track 1, and five of 1024 units and 3 bytes of track 2.
pub(super) const TWO_TRACKS: &[Part] = &[
    Part::Box(280, b"moof", &[]),
    Part::Box(16, b"mfhd", &[0, 1]),
    Part::Box(112, b"traf", &[]),
    Part::Box(16, b"tfhd", &[FROM_MOOF, 1]),
    Part::Box(20, b"tfdt", &[V1, 0, 0]),
    Part::Box(68, b"trun", &[RUN, 3, 288]),
    Part::Numbers(&[3000, 4, SYNC, 0]),
    Part::Numbers(&[3000, 4, DEPENDS, 0]),
    Part::Numbers(&[3000, 4, DEPENDS, 0]),
    Part::Box(144, b"traf", &[]),
    Part::Box(16, b"tfhd", &[FROM_MOOF, 2]),
    Part::Box(20, b"tfdt", &[V1, 0, 0]),
    Part::Box(100, b"trun", &[RUN, 5, 300]),
    Part::Numbers(&[1024, 3, SYNC, 0]),
    Part::Numbers(&[1024, 3, SYNC, 0]),
    Part::Numbers(&[1024, 3, SYNC, 0]),
    Part::Numbers(&[1024, 3, SYNC, 0]),
    Part::Numbers(&[1024, 3, SYNC, 0]),
];

fn put_bytes(rt: &impl Abort, out: &mut Vec<u8>, bytes: &[u8]) {
    out.extend_from_slice(bytes).expect(rt, "memory");
}

fn put_numbers(rt: &impl Abort, out: &mut Vec<u8>, numbers: &[u32]) {
    for number in numbers {
        put_bytes(rt, out, &number.to_be_bytes());
    }
}

fn put(rt: &(impl Abort + AllocGlobal), out: &mut Vec<u8>, part: &Part) {
    match part {
        Part::Box(size, kind, numbers) => {
            put_bytes(rt, out, &size.to_be_bytes());
            put_bytes(rt, out, *kind);
            put_numbers(rt, out, *numbers);
        }
        Part::Numbers(numbers) => put_numbers(rt, out, *numbers),
        Part::Bytes(bytes) => put_bytes(rt, out, *bytes),
        Part::VideoInit => {
            let video = plain_track(rt.alloc(), 1, Kind::Video, 90_000, *b"avc1");
            put_init(rt, out, &[video]);
        }
        Part::VideoAndAudioInit => {
            let video = plain_track(rt.alloc(), 1, Kind::Video, 90_000, *b"avc1");
            let audio = plain_track(rt.alloc(), 2, Kind::Audio, 48_000, *b"mp4a");
            put_init(rt, out, &[video, audio]);
        }
    }
}

/// The bytes of a text.
pub(super) fn made(rt: &(impl Abort + AllocGlobal), text: &[&[Part]]) -> Vec<u8> {
    let mut out = Vec::new(rt.alloc());
    for parts in text {
        for part in *parts {
            put(rt, &mut out, part);
        }
    }
    out
}
