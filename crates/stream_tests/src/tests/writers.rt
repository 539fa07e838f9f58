//! Files by their length and their digest (MD5). Those of the digests were written by another program.

ghost use Rattle.bmff_write.specs.Tracks.{AreTracksOut, AreTrafsOut};

use super::given::{are, edited_track, one_traf, plain_track, tracks_of_64};
use super::rows::{expect, expect_at};
use bmff_write::{TrackOut, TrafOut, make, write_init, write_init_with, write_segment};
use mse_base::{Bytes, Kind};
use std::process::Abort;
use std::test::Fail;

/// Whether an initialization segment of these tracks has this length and digest.
fn is_init(rt: &(impl Abort + AllocGlobal), tracks: &[TrackOut], len: usize, digest: u128) -> bool
    requires { AreTracksOut tracks.now }
{
    let init = write_init(rt.alloc(), tracks).expect(rt, "memory");
    are(init.as_slice(), len, digest)
}

/// A media segment of these track fragments.
fn segment_of(rt: &(impl Abort + AllocGlobal), sequence: u32, trafs: &[TrafOut]) -> Bytes
    requires { AreTrafsOut trafs.now }
{
    write_segment(rt.alloc(), sequence, trafs).expect(rt, "memory")
}

#[test]
fn writes_a_video_track(rt: HostRuntime) {
    let video = plain_track(rt.alloc(), 1, Kind::Video, 90_000, *b"avc1");
    let digest = 0x2c76885d_bc35e16e_8ed89499_57491675;
    expect(&rt, "video", is_init(&rt, &[video], 595, digest));
}

/// Rates, and the digest of a file of one audio track. The rate of a sample entry has 16 bits before the point, so a
/// higher one is left out.
static RATES: [(u32, u128); 3] = [
    (48_000, 0x56676cd9_8bdb6f55_158ec75a_69b192b4),
    (65_535, 0xe8355856_6948a178_4883eb41_65fe0539),
    (65_536, 0x278978c8_8b109415_e568c482_9575b5f2),
];

#[test]
fn writes_audio_tracks(rt: HostRuntime) {
    for (i, (rate, digest)) in RATES.iter().enumerate() {
        let audio = plain_track(rt.alloc(), 1, Kind::Audio, (*rate).max(1), *b"mp4a");
        expect_at(&rt, i, is_init(&rt, &[audio], 541, *digest));
    }
}

const PICTURES: [(u32, bool, i32); 3] = [(3000, true, 0), (3000, false, 0), (3000, false, 0)];

#[test]
fn writes_two_tracks(rt: HostRuntime) {
    let video = plain_track(rt.alloc(), 1, Kind::Video, 90_000, *b"avc1");
    let audio = plain_track(rt.alloc(), 2, Kind::Audio, 48_000, *b"mp4a");
    let digest = 0x15d2fd12_2019cfe6_852216e3_d5728338;
    expect(&rt, "tracks", is_init(&rt, &[video, audio], 988, digest));
    let video = one_traf(&rt, 1, 0, 4, &PICTURES);
    let audio = one_traf(&rt, 2, 0, 3, &[(1024, true, 0); 5]);
    let segment = segment_of(&rt, 1, &[video, audio]);
    let digest = 0x95c06be4_bcdd65b9_7235ec80_17e4303e;
    expect(&rt, "fragments", are(segment.as_slice(), 315, digest));
}

#[test]
fn writes_edits(rt: HostRuntime) {
    let track = edited_track(&rt, 1, Kind::Video, 90_000, &[(0, 3000)]);
    let digest = 0xa43174b9_2255ee7a_49a5e2ad_cea69b9d;
    expect(&rt, "one edit", is_init(&rt, &[track], 631, digest));
    let track = edited_track(&rt, 1, Kind::Video, 90_000, &[(500, -1), (0, 0)]);
    let digest = 0x40fbe47a_402bd266_323a3baf_65fd9e72;
    expect(&rt, "an empty edit", is_init(&rt, &[track], 643, digest));
}

/// The greatest number, timescale, duration and media time that are written.
#[test]
fn writes_the_greatest_numbers(rt: HostRuntime) {
    let edits = [(u32::MAX, -1), (1, i32::MAX)];
    let track = edited_track(&rt, u32::MAX - 1, Kind::Video, u32::MAX, &edits);
    let digest = 0xaf5c0881_c6fb6f2c_43df6c74_f3ef0222;
    expect(&rt, "track", is_init(&rt, &[track], 643, digest));
    let samples = [(u32::MAX, false, i32::MIN), (0, true, i32::MAX)];
    let traf = one_traf(&rt, u32::MAX - 1, u64::MAX, 4, &samples);
    let segment = segment_of(&rt, u32::MAX, &[traf]);
    let digest = 0x9de02d6d_90f338ad_71d9de69_ed9b06c5;
    expect(&rt, "fragment", are(segment.as_slice(), 136, digest));
}

#[test]
fn writes_64_tracks(rt: HostRuntime) -> Result<(), Fail> {
    let tracks = tracks_of_64(rt.alloc())?;
    let digest = 0x73b326b1_98e3b4cd_7cce9fb2_0b3b4853;
    let found = is_init(&rt, tracks.as_slice(), 25300, digest);
    expect(&rt, "64 tracks", found);
    Ok(())
}

/// A sample description of another length.
#[test]
fn writes_a_given_sample_description(rt: HostRuntime) -> Result<(), Fail> {
    let alloc = rt.alloc();
    let stsd = b"\0\0\0\x1cstsd\0\0\0\0\0\0\0\x01\0\0\0\x0cfLaC\x01\x02\x03\x04";
    let track = plain_track(alloc, 1, Kind::Audio, 48_000, *b"fLaC");
    let init = write_init_with(alloc, &[track], &[Bytes::copy_of(alloc, stsd)?])?;
    let digest = 0xea0a6154_2481e6d5_ebd90e03_9d1ffdb5;
    expect(&rt, "fLaC", are(init.as_slice(), 517, digest));
    Ok(())
}

const REORDERED: [(u32, bool, i32); 6] = [
    (100, true, 0),
    (100, false, 200),
    (100, false, -100),
    (100, false, -100),
    (100, true, 0),
    (100, false, 0),
];

/// Parts of a file, one after the other.
fn whole(rt: &(impl Abort + AllocGlobal), first: &Bytes, second: &Bytes) -> Vec<u8> {
    let mut bytes = Vec::new(rt.alloc());
    bytes
        .extend_from_slice(first.as_slice())
        .expect(rt, "memory");
    bytes
        .extend_from_slice(second.as_slice())
        .expect(rt, "memory");
    bytes
}

/// Composition offsets, and files of two parts.
#[test]
fn writes_segments(rt: HostRuntime) {
    let first = segment_of(&rt, 1, &[one_traf(&rt, 1, 0, 4, &REORDERED)]);
    let second = segment_of(&rt, 1, &[one_traf(&rt, 1, 300, 4, &[(100, true, 0)])]);
    let both = whole(&rt, &first, &second);
    let digest = 0x1fc46669_1ff7b089_54a3b3d8_47b564e2;
    expect(&rt, "segments", are(both.as_slice(), 332, digest));
    let video = plain_track(rt.alloc(), 1, Kind::Video, 90_000, *b"avc1");
    let init = write_init(rt.alloc(), &[video]).expect(&rt, "memory");
    let segment = segment_of(&rt, 1, &[one_traf(&rt, 1, 0, 4, &PICTURES)]);
    let plain = whole(&rt, &init, &segment);
    let digest = 0x71064bb2_ef61b365_34c3a50c_c680d4e3;
    expect(&rt, "a file", are(plain.as_slice(), 751, digest));
}

/// Numbers of segments, and the length and the digest of the file.
static FILES: [(u32, usize, u128); 3] = [
    (1, 1756, 0x365253f0_4f233b13_e10f8ab6_64752e96),
    (2, 2922, 0x05bef320_9c74aaea_69acc034_4cd461e2),
    (1000, 1176595, 0x521dab55_44d28ff6_299af885_e71320ba),
];

#[test]
fn makes_files(rt: HostRuntime) {
    for (n, len, digest) in &FILES {
        assert!(rt; 1 <= *n && *n <= 10000);
        let file = make(rt.alloc(), *n).expect(&rt, "memory");
        expect_at(&rt, *len, are(file.as_slice(), *len, *digest));
    }
}
