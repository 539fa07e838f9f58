ghost use Rattle.std.specs.Prelude.{◌≡◌, ◌<◌, ◌≤◌, ◌^◌, length, None, OnOk};

use super::boxes::{
    DEPENDS, FROM_MOOF, INIT, MDAT, MOOF, Part, RUN, SYNC, TWO_TRACKS, Text, V1, made,
};
use super::rows::{expect, expect_at};
use bmff_fragment::MoofFault;
use bmff_init::InitFault;
use mse_base::{CodedFrame, OutOfMemory, Phase};
use segment_stream::*;
use std::alloc::Global;
use std::process::Abort;

/// What a stream gives, as far as a test looks at it.
#[derive(Clone, Copy, PartialEq)]
enum Item {
    /// An initialization segment at this offset.
    Init(u64),
    /// A coded frame at this offset: its track, when it is presented, how many bytes it has, and whether it is a sync
    /// sample.
    Frame(u64, u32, i128, usize, bool),
    SegmentEnd,
    Fault(u64, StreamFault),
}

fn frame_item(frame: &CodedFrame, offset: u64) -> Item {
    let (track, len) = (frame.track_id, frame.payload.len());
    Item::Frame(offset, track, frame.pts.get(), len, frame.sync)
}

fn item_of(next: &SegmentNext) -> Option<Item> {
    match next {
        SegmentNext::Init(_, offset) => Some(Item::Init(*offset)),
        SegmentNext::Frame(frame, offset) => Some(frame_item(frame, *offset)),
        SegmentNext::SegmentEnd => Some(Item::SegmentEnd),
        SegmentNext::Fault { fault, offset } => Some(Item::Fault(*offset, *fault)),
        SegmentNext::Dry => None,
    }
}

/// Takes all items that are there.
fn take_all(stream: &mut Stream, items: &mut Vec<Item>) -> Result<(), OutOfMemory>
    requires { stream.old.offered ≡ None }
    ensures none_offered { stream.new.offered ≡ None }
    ensures fed { OnOk result (stream.new.fed ≡ stream.old.fed) }
{
    'items: for _ in 0..20 {
        match item_of(&stream.next()?) {
            Some(item) => items.push(item)?,
            None => break,
        }
    }
    Ok(())
}

/// The items of a string that is cut in two.
fn items_of(alloc: Global, bytes: &[u8], cut: usize) -> Result<Vec<Item>, OutOfMemory>
    requires cut { cut ≤ length bytes.now }
    requires small { length bytes.now < 2 ^ 62 }
{
    let (first, second) = bytes.split_at(cut);
    let mut items = Vec::new(alloc);
    let mut stream = Stream::new(alloc);
    stream.feed(first)?;
    take_all(&mut stream, &mut items)?;
    stream.feed(second)?;
    take_all(&mut stream, &mut items)?;
    Ok(items)
}

/// Whether a string that is cut in two gives these items.
fn gives(rt: &(impl Abort + AllocGlobal), bytes: &[u8], cut: usize, wanted: &[Item]) -> bool {
    assert!(rt; bytes.len() < 2000 && cut <= bytes.len());
    let items = items_of(rt.alloc(), bytes, cut).expect(rt, "memory");
    items.as_slice() == wanted
}

static THREE: [Item; 5] = [
    Item::Init(24),
    Item::Frame(739, 1, 0, 4, true),
    Item::Frame(743, 1, 4_704_000_000, 4, false),
    Item::Frame(747, 1, 9_408_000_000, 4, false),
    Item::SegmentEnd,
];

/// A string cut anywhere gives the items of the whole.
#[test]
fn every_cut_gives_the_same(rt: HostRuntime) {
    let file = made(&rt, &[INIT, MOOF, MDAT]);
    expect_at(&rt, file.len(), file.len() == 751);
    for cut in 0..752 {
        expect_at(&rt, cut, gives(&rt, file.as_slice(), cut, &THREE));
    }
}

/// A text, its length, where it is cut, and its items.
type Row = (Text, usize, usize, &'static [Item]);

static FILES: [Row; 3] = [
    // boxes before a movie fragment are passed over
    (
        &[
            INIT,
            &[
                Part::Box(24, b"styp", &[0; 4]),
                Part::Box(52, b"sidx", &[0; 11]),
            ],
            MOOF,
            MDAT,
        ],
        827,
        0,
        &[
            Item::Init(24),
            Item::Frame(815, 1, 0, 4, true),
            Item::Frame(819, 1, 4_704_000_000, 4, false),
            Item::Frame(823, 1, 9_408_000_000, 4, false),
            Item::SegmentEnd,
        ],
    ),
    // so is what stands between and behind mdats; one of them has a 64-bit size
    (
        &[
            INIT,
            &[
                Part::Box(140, b"moof", &[]),
                Part::Box(16, b"mfhd", &[0, 1]),
                Part::Box(116, b"traf", &[]),
                Part::Box(16, b"tfhd", &[FROM_MOOF, 1]),
                Part::Box(20, b"tfdt", &[V1, 0, 0]),
                Part::Box(36, b"trun", &[RUN, 1, 156, 3000, 4, SYNC, 0]),
                Part::Box(36, b"trun", &[RUN, 1, 180, 3000, 4, SYNC, 0]),
                Part::Box(1, b"mdat", &[0, 24]),
                Part::Bytes(b"abcd----"),
                Part::Box(8, b"free", &[]),
                Part::Box(12, b"mdat", &[]),
                Part::Bytes(b"wxyz"),
            ],
        ],
        779,
        755,
        &[
            Item::Init(24),
            Item::Frame(751, 1, 0, 4, true),
            Item::Frame(775, 1, 4_704_000_000, 4, true),
            Item::SegmentEnd,
        ],
    ),
    // a video and an audio track
    (
        &[
            &[Part::VideoAndAudioInit],
            TWO_TRACKS,
            &[
                Part::Box(35, b"mdat", &[]),
                Part::Bytes(&[0; 27]),
                Part::Box(8, b"mfra", &[]),
            ],
        ],
        1311,
        0,
        &[
            Item::Init(24),
            Item::Frame(1276, 1, 0, 4, true),
            Item::Frame(1280, 1, 4_704_000_000, 4, false),
            Item::Frame(1284, 1, 9_408_000_000, 4, false),
            Item::Frame(1288, 2, 0, 3, true),
            Item::Frame(1291, 2, 3_010_560_000, 3, true),
            Item::Frame(1294, 2, 6_021_120_000, 3, true),
            Item::Frame(1297, 2, 9_031_680_000, 3, true),
            Item::Frame(1300, 2, 12_042_240_000, 3, true),
            Item::SegmentEnd,
        ],
    ),
];

#[test]
fn files(rt: HostRuntime) {
    for (text, len, cut, wanted) in &FILES {
        let file = made(&rt, text);
        let found = file.len() == *len && gives(&rt, file.as_slice(), *cut, wanted);
        expect_at(&rt, *len, found);
    }
}

/// What is known of the first bytes of a file once their items were taken: up to which length, the phase,
/// where the bytes begin that are held, if there are any, and the number of frames.
static CUT_OFF_AT: [(usize, Phase, usize, usize); 8] = [
    (7, Phase::Waiting, 0, 0),
    (24, Phase::InInit, 1000, 0),
    (594, Phase::InInit, 24, 0),
    (730, Phase::Waiting, 595, 0),
    (742, Phase::InMedia, 595, 0),
    (746, Phase::InMedia, 595, 1),
    (750, Phase::InMedia, 595, 2),
    (751, Phase::Waiting, 1000, 3),
];

fn wanted_at(len: usize) -> (Phase, usize, usize) {
    for (most, phase, from, frames) in CUT_OFF_AT {
        if len <= most {
            return (phase, len.saturating_sub(from), frames);
        }
    }
    (Phase::Waiting, 0, 0)
}

/// Whether of the first bytes of a file is known what is wanted, once their items were taken.
fn is_known(rt: &(impl Abort + AllocGlobal), front: &[u8]) -> bool {
    assert!(rt; front.len() < 2000);
    let mut items = Vec::new(rt.alloc());
    let mut stream = Stream::new(rt.alloc());
    stream.feed(front).expect(rt, "memory");
    take_all(&mut stream, &mut items).expect(rt, "memory");
    let frames = items.iter().filter(|item| matches!(item, Item::Frame(..)));
    let found = (stream.phase(), stream.held_len(), frames.count());
    found == wanted_at(front.len()) && stream.ready_frames() == 0
}

#[test]
fn truncated_files(rt: HostRuntime) {
    let file = made(&rt, &[INIT, MOOF, MDAT]);
    expect_at(&rt, file.len(), file.len() == 751);
    for len in 0..752 {
        let (front, _) = file.as_slice().split_at(len.min(file.len()));
        expect_at(&rt, len, is_known(&rt, front));
    }
}

const NOTHING: &[Part] = &[];

/// The `ftyp` that an initialization segment begins with.
const FTYP: &[Part] = &[
    Part::Box(24, b"ftyp", &[]),
    Part::Bytes(b"iso6\0\0\0\0iso6mp41"),
];

/// The shortest `styp`.
const STYP: &[Part] = &[Part::Box(8, b"styp", &[])];

/// A text and its fault, with its offset.
type FaultRow = (Text, Option<(u64, StreamFault)>);

const NO_MVHD: StreamFault = StreamFault::Init(InitFault::Missing(*b"mvhd"));

/// A movie fragment of two frames with the data of one, a `free`, and another movie fragment.
const CUT_OFF: &[Part] = &[
    Part::Box(120, b"moof", &[]),
    Part::Box(16, b"mfhd", &[0, 1]),
    Part::Box(96, b"traf", &[]),
    Part::Box(16, b"tfhd", &[FROM_MOOF, 1]),
    Part::Box(20, b"tfdt", &[V1, 0, 0]),
    Part::Box(52, b"trun", &[RUN, 2, 128]),
    Part::Numbers(&[3000, 4, SYNC, 0]),
    Part::Numbers(&[3000, 4, DEPENDS, 0]),
    Part::Box(12, b"mdat", &[0]),
    Part::Box(8, b"free", &[]),
    Part::Box(104, b"moof", &[]),
    Part::Box(16, b"mfhd", &[0, 1]),
    Part::Box(80, b"traf", &[]),
    Part::Box(16, b"tfhd", &[FROM_MOOF, 1]),
    Part::Box(20, b"tfdt", &[V1, 0, 0]),
    Part::Box(36, b"trun", &[RUN, 1, 112, 3000, 4, SYNC, 0]),
    Part::Box(12, b"mdat", &[0]),
];

static HOSTILE: [FaultRow; 12] = [
    (
        &[&[Part::Box(7, b"free", &[])]],
        Some((0, StreamFault::BoxSize)),
    ),
    (
        &[&[Part::Box(0, b"free", &[])]],
        Some((0, StreamFault::SizeZero)),
    ),
    (
        &[&[Part::Box(1, b"free", &[0, 0])]],
        Some((0, StreamFault::BoxSize)),
    ),
    (
        &[&[Part::Box(1, b"free", &[256, 1])]],
        Some((0, StreamFault::TooLarge)),
    ),
    (&[&[Part::Box(1, b"free", &[256, 0])]], None),
    (
        &[FTYP, &[Part::Box(0x0100_0001, b"moov", &[])]],
        Some((24, StreamFault::TooLarge)),
    ),
    (&[FTYP, &[Part::Box(8, b"moov", &[])]], Some((24, NO_MVHD))),
    (
        &[&[Part::Box(8, b"moov", &[])]],
        Some((0, StreamFault::MoovPlace)),
    ),
    (
        &[FTYP, &[Part::Box(8, b"moof", &[])]],
        Some((24, StreamFault::MoofPlace)),
    ),
    (
        &[&[Part::Box(8, b"moof", &[])]],
        Some((0, StreamFault::NoInit)),
    ),
    (
        &[INIT, &[Part::Box(8, b"moof", &[])]],
        Some((595, StreamFault::Moof(MoofFault::NoTraf))),
    ),
    (&[INIT, CUT_OFF], Some((735, StreamFault::InSegment))),
];

/// A movie box and a movie fragment box of the greatest size are waited for, and one byte more is too much. A box
/// that is out of place is that first, whatever its size.
static GREATEST: [FaultRow; 7] = [
    (&[FTYP, &[Part::Box(0x0100_0000, b"moov", &[])]], None),
    (&[INIT, &[Part::Box(0x0100_0000, b"moof", &[])]], None),
    (
        &[INIT, &[Part::Box(0x0100_0001, b"moof", &[])]],
        Some((595, StreamFault::TooLarge)),
    ),
    (
        &[&[Part::Box(0x0100_0001, b"moov", &[])]],
        Some((0, StreamFault::MoovPlace)),
    ),
    (
        &[STYP, &[Part::Box(0x0100_0001, b"moov", &[])]],
        Some((8, StreamFault::MoovPlace)),
    ),
    (
        &[FTYP, &[Part::Box(0x0100_0001, b"moof", &[])]],
        Some((24, StreamFault::MoofPlace)),
    ),
    (
        &[&[Part::Box(0x0100_0001, b"moof", &[])]],
        Some((0, StreamFault::NoInit)),
    ),
];

/// Behind a moof of 136 bytes a box may end `2^27` bytes after the first byte of the moof, and no later.
static LONGEST: [FaultRow; 7] = [
    (&[INIT, MOOF, &[Part::Box(0x07FF_FF78, b"free", &[])]], None),
    (
        &[INIT, MOOF, &[Part::Box(0x07FF_FF79, b"free", &[])]],
        Some((731, StreamFault::TooLarge)),
    ),
    (&[INIT, MOOF, &[Part::Box(0x07FF_FF78, b"mdat", &[])]], None),
    (
        &[INIT, MOOF, &[Part::Box(0x07FF_FF79, b"mdat", &[])]],
        Some((731, StreamFault::TooLarge)),
    ),
    (
        &[
            INIT,
            MOOF,
            &[
                Part::Box(8, b"free", &[]),
                Part::Box(0x07FF_FF70, b"free", &[]),
            ],
        ],
        None,
    ),
    (
        &[
            INIT,
            MOOF,
            &[
                Part::Box(8, b"free", &[]),
                Part::Box(0x07FF_FF71, b"free", &[]),
            ],
        ],
        Some((739, StreamFault::TooLarge)),
    ),
    (
        &[INIT, MOOF, &[Part::Box(0x0800_0000, b"moov", &[])]],
        Some((731, StreamFault::InSegment)),
    ),
];

/// A movie fragment up to the size of its run.
const BEFORE_THE_RUN: &[Part] = &[
    Part::Box(104, b"moof", &[]),
    Part::Box(16, b"mfhd", &[0, 1]),
    Part::Box(80, b"traf", &[]),
    Part::Box(16, b"tfhd", &[FROM_MOOF, 1]),
    Part::Box(20, b"tfdt", &[V1, 0, 0]),
];

/// Runs whose data begin before the moof, and inside it.
static PLACES: [FaultRow; 2] = [
    (
        &[
            INIT,
            BEFORE_THE_RUN,
            &[Part::Box(36, b"trun", &[RUN, 1, 0xFFFF_FFFF, 3000, 4, SYNC, 0])],
            MDAT,
        ],
        Some((595, StreamFault::Moof(MoofFault::Place))),
    ),
    (
        &[
            INIT,
            BEFORE_THE_RUN,
            &[Part::Box(36, b"trun", &[RUN, 1, 0, 3000, 4, SYNC, 0])],
            MDAT,
        ],
        Some((595, StreamFault::OutsideMdat)),
    ),
];

/// The fault of a string, with its offset, which is its last item.
fn fault_of(rt: &(impl Abort + AllocGlobal), bytes: &[u8]) -> Option<(u64, StreamFault)> {
    assert!(rt; bytes.len() < 2000);
    let items = items_of(rt.alloc(), bytes, 0).expect(rt, "memory");
    match items.as_slice().last() {
        Some(Item::Fault(offset, fault)) => Some((*offset, *fault)),
        _ => None,
    }
}

fn expect_faults(rt: &(impl Abort + AllocGlobal), rows: &[FaultRow]) {
    for (i, (text, wanted)) in rows.iter().enumerate() {
        let found = fault_of(rt, made(rt, text).as_slice());
        expect_at(rt, i, found == *wanted);
    }
}

#[test]
fn hostile_boxes(rt: HostRuntime) {
    expect_faults(&rt, &HOSTILE);
}

#[test]
fn greatest_boxes(rt: HostRuntime) {
    expect_faults(&rt, &GREATEST);
}

#[test]
fn longest_fragments(rt: HostRuntime) {
    expect_faults(&rt, &LONGEST);
}

#[test]
fn places_outside_of_the_data(rt: HostRuntime) {
    expect_faults(&rt, &PLACES);
}

/// Bytes that are offered and declined leave the pieces.
#[test]
fn offers(rt: HostRuntime) {
    let mut stream = Stream::new(rt.alloc());
    stream.feed(b"\0\0\0").expect(&rt, "memory");
    stream.offer(b"\x08free").expect(&rt, "memory");
    stream.decline();
    let declined = (stream.input().pieces(), stream.held_len());
    stream.offer(b"\x08free").expect(&rt, "memory");
    stream.accept();
    expect(
        &rt,
        "a box in two pieces",
        (declined, stream.held_len()) == ((1, 3), 0),
    );
}

/// The item that a stream gives next.
fn next_of(rt: &impl Abort, stream: &mut Stream) -> Option<Item>
    requires { stream.old.offered ≡ None }
    ensures none_offered { stream.new.offered ≡ None }
    ensures fed { stream.new.fed ≡ stream.old.fed }
{
    item_of(&stream.next().expect(rt, "memory"))
}

const SIZE_ZERO: Option<Item> = Some(Item::Fault(0, StreamFault::SizeZero));

const NO_INIT: Option<Item> = Some(Item::Fault(0, StreamFault::NoInit));

/// After a fault nothing comes up to a reset.
#[test]
fn resets(rt: HostRuntime) {
    let mut stream = Stream::new(rt.alloc());
    stream.feed(b"\0\0\0\0free").expect(&rt, "memory");
    let looked = item_of(&stream.look(0).expect(&rt, "memory"));
    let taken = next_of(&rt, &mut stream);
    stream.feed(b"\0\0\0\0free").expect(&rt, "memory");
    let behind = next_of(&rt, &mut stream);
    stream.reset();
    stream.feed(b"\0\0\0\x08moof").expect(&rt, "memory");
    let anew = next_of(&rt, &mut stream);
    expect(
        &rt,
        "up to a reset",
        (looked, taken, behind) == (SIZE_ZERO, SIZE_ZERO, None),
    );
    expect(&rt, "behind it", anew == NO_INIT);
}

/// Appends a text.
fn feed(rt: &(impl Abort + AllocGlobal), stream: &mut Stream, text: &[&[Part]])
    requires none_offered { stream.old.offered ≡ None }
    requires short { stream.old.fed < 2 ^ 61 }
    ensures none_offered { stream.new.offered ≡ None }
    ensures short { stream.new.fed < 2 ^ 62 }
{
    let bytes = made(rt, text);
    assert!(rt; bytes.len() < 2000);
    stream.feed(bytes.as_slice()).expect(rt, "memory");
}

/// A movie fragment behind a reset has the tracks of before, and behind `forget` none.
#[test]
fn presentations(rt: HostRuntime) {
    let mut stream = Stream::new(rt.alloc());
    feed(&rt, &mut stream, &[INIT]);
    let init = next_of(&rt, &mut stream);
    stream.reset();
    feed(&rt, &mut stream, &[MOOF, MDAT]);
    let kept = stream.ready_frames();
    stream.forget();
    feed(&rt, &mut stream, &[MOOF, MDAT]);
    let anew = next_of(&rt, &mut stream);
    expect(
        &rt,
        "kept by a reset",
        (init, kept) == (Some(Item::Init(24)), 3),
    );
    expect(&rt, "forgotten", anew == NO_INIT);
}
