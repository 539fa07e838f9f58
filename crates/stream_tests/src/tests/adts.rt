ghost use Rattle.std.specs.Prelude.{◌≡◌, ◌+◌, ◌<◌, ◌^◌, length, None, OnOk};

use super::rows::{expect, expect_at};
use adts_stream::*;
use mse_base::{OutOfMemory, Presentation};
use std::alloc::Global;
use std::process::Abort;

/// A frame of ten bytes, with 44100 samples in a second and two channels.
const FRAME: [u8; 10] = [0xff, 0xf1, 0x50, 0x80, 0x01, 0x5f, 0xfc, 0, 0, 0];

/// One with 48000.
const FASTER: [u8; 10] = [0xff, 0xf1, 0x4c, 0x80, 0x01, 0x5f, 0xfc, 0, 0, 0];

/// The header of an ID3v2 tag whose payload has two bytes.
const TAG: [u8; 10] = [b'I', b'D', b'3', 4, 0, 0, 0, 0, 0, 2];

/// The same with a footer.
const FOOTED: [u8; 10] = [b'I', b'D', b'3', 4, 0, 0x10, 0, 0, 0, 2];

/// An ID3v2 tag whose payload has 129 bytes.
const LARGE: [u8; 10] = [b'I', b'D', b'3', 4, 0, 0, 0, 0, 1, 1];

/// The header with its check of a frame of 11 bytes with two raw data blocks.
const PROTECTED: [u8; 11] = [0xff, 0xf0, 0x50, 0x80, 0x01, 0x7f, 0xfd, 0, 0, 0, 0];

/// One of 15 bytes with four.
const FOUR: [u8; 15] = [
    0xff, 0xf0, 0x50, 0x80, 0x01, 0xff, 0xff, 0, 0, 0, 0, 0, 0, 0, 0,
];

/// What a stream gives, as far as a test looks at it.
#[derive(Clone, Copy, PartialEq)]
enum Item {
    /// An initialization segment at this offset: how many tracks it has, and the samples in a second.
    Init(u64, usize, u32),
    /// A coded frame at this offset: how long it lasts, and how many bytes it has.
    Frame(u64, i128, usize),
    SegmentEnd,
    Fault(u64, AdtsFault),
    Dry,
}

fn init_item(presentation: &Presentation, offset: u64) -> Item {
    let tracks = presentation.tracks.as_slice();
    let scale = tracks.iter().map(|track| track.scale).max().unwrap_or(0);
    Item::Init(offset, tracks.len(), scale)
}

fn item_of(next: &AdtsNext) -> Item {
    match next {
        AdtsNext::Init(presentation, offset) => init_item(presentation, *offset),
        AdtsNext::Frame(frame, offset) => {
            Item::Frame(*offset, frame.dur.get(), frame.payload.len())
        }
        AdtsNext::SegmentEnd => Item::SegmentEnd,
        AdtsNext::Fault { fault, offset } => Item::Fault(*offset, *fault),
        AdtsNext::Dry => Item::Dry,
    }
}

/// Takes all items that are there.
fn take_all(stream: &mut AdtsStream, items: &mut Vec<Item>) -> Result<(), OutOfMemory>
    requires { stream.old.offered ≡ None }
    ensures none_offered { stream.new.offered ≡ None }
    ensures fed { OnOk result (stream.new.fed ≡ stream.old.fed) }
{
    for _ in 0..20 {
        let item = item_of(&stream.next()?);
        if item == Item::Dry {
            break;
        }
        items.push(item)?;
    }
    Ok(())
}

/// The items of two pieces.
fn items_of(alloc: Global, first: &[u8], second: &[u8]) -> Result<Vec<Item>, OutOfMemory>
    requires { length first.now + length second.now < 2 ^ 62 }
{
    let mut items = Vec::new(alloc);
    let mut stream = AdtsStream::new(alloc);
    stream.feed(first)?;
    take_all(&mut stream, &mut items)?;
    stream.feed(second)?;
    take_all(&mut stream, &mut items)?;
    Ok(items)
}

/// Whether two pieces give these items.
fn give(rt: &(impl Abort + AllocGlobal), first: &[u8], second: &[u8], wanted: &[Item]) -> bool {
    assert!(rt; first.len() < 1000 && second.len() < 1000);
    let items = items_of(rt.alloc(), first, second).expect(rt, "memory");
    items.as_slice() == wanted
}

const INIT: Item = Item::Init(0, 1, 44_100);

const FIRST: Item = Item::Frame(0, 3_276_800_000, 10);

const TWO: [Item; 5] = [
    INIT,
    FIRST,
    Item::SegmentEnd,
    Item::Frame(10, 3_276_800_000, 10),
    Item::SegmentEnd,
];

const BEHIND_TAG: [Item; 3] = [
    Item::Init(12, 1, 44_100),
    Item::Frame(12, 3_276_800_000, 10),
    Item::SegmentEnd,
];

/// Parts of a string that may be cut anywhere, and the items of the whole: of two frames, and of a tag with a frame.
static WHOLES: [(&[&[u8]], &[Item]); 2] = [
    (&[&FRAME, &FRAME], &TWO),
    (&[&TAG, &[0, 0], &FRAME], &BEHIND_TAG),
];

#[test]
fn every_cut_gives_the_same(rt: HostRuntime) {
    for (parts, wanted) in &WHOLES {
        let bytes = parts.concat(rt.alloc()).expect(&rt, "memory");
        for cut in 0..bytes.len() + 1 {
            let (first, second) = bytes.as_slice().split_at(cut);
            expect_at(&rt, cut, give(&rt, first, second, wanted));
        }
    }
}

/// Two pieces and their items.
type Row = (&'static [u8], &'static [u8], &'static [Item]);

static PIECES: [Row; 8] = [
    // another rate
    (
        &FRAME,
        &FASTER,
        &[
            INIT,
            FIRST,
            Item::SegmentEnd,
            Item::Init(10, 1, 48_000),
            Item::Frame(10, 3_010_560_000, 10),
            Item::SegmentEnd,
        ],
    ),
    // checks, and several raw data blocks
    (
        &PROTECTED,
        &FOUR,
        &[
            INIT,
            Item::Frame(0, 6_553_600_000, 11),
            Item::SegmentEnd,
            Item::Frame(11, 13_107_200_000, 15),
            Item::SegmentEnd,
        ],
    ),
    (&[0; 7], &FRAME, &[Item::Fault(0, AdtsFault::Sync)]),
    (
        &[0xff, 0xe1, 0x50, 0x80, 0x01, 0x5f, 0xfc],
        &FRAME,
        &[Item::Fault(0, AdtsFault::Sync)],
    ),
    (
        &[0xff, 0xf3, 0x50, 0x80, 0x01, 0x5f, 0xfc],
        &FRAME,
        &[Item::Fault(0, AdtsFault::Sync)],
    ),
    (
        &[0xff, 0xf1, 0x74, 0x80, 0x01, 0x5f, 0xfc],
        &FRAME,
        &[Item::Fault(0, AdtsFault::Rate)],
    ),
    (
        &[0xff, 0xf1, 0x50, 0x80, 0x00, 0xdf, 0xfc],
        &FRAME,
        &[Item::Fault(0, AdtsFault::Length)],
    ),
    (
        &[0xff, 0xf0, 0x50, 0x80, 0x01, 0x5f, 0xfd],
        &FRAME,
        &[Item::Fault(0, AdtsFault::Length)],
    ),
];

#[test]
fn items_of_two_pieces(rt: HostRuntime) {
    for (i, (first, second, wanted)) in PIECES.iter().enumerate() {
        expect_at(&rt, i, give(&rt, first, second, wanted));
    }
}

/// Whether a stream waits, how many bytes it holds and how many frames are ready, once the items of these bytes were
/// taken.
fn state_behind(rt: &(impl Abort + AllocGlobal), bytes: &[u8]) -> (bool, usize, usize) {
    assert!(rt; bytes.len() < 1000);
    let mut items = Vec::new(rt.alloc());
    let mut stream = AdtsStream::new(rt.alloc());
    stream.feed(bytes).expect(rt, "memory");
    take_all(&mut stream, &mut items).expect(rt, "memory");
    (stream.waiting(), stream.held_len(), stream.ready_frames())
}

/// What is known of the first bytes of two frames.
#[test]
fn truncated_frames(rt: HostRuntime) {
    let frames = [FRAME.as_slice(), FRAME.as_slice()]
        .concat(rt.alloc())
        .expect(&rt, "memory");
    expect(&rt, "two frames", frames.len() == 20);
    for cut in 0..frames.len() + 1 {
        let (first, _) = frames.as_slice().split_at(cut);
        let found = state_behind(&rt, first);
        expect_at(&rt, cut, found == (cut % 10 < 7, cut % 10, 0));
    }
}

/// A tag, the bytes behind it, and where the frame behind these is.
static TAGS: [(&[u8], &[u8], u64); 3] = [
    (&LARGE, &[0; 129], 139),
    (&FOOTED, &[0; 12], 22),
    (b"TAG", &[0; 125], 128),
];

/// The first item behind a tag and a frame.
fn behind_tag(rt: &(impl Abort + AllocGlobal), tag: &[u8], rest: &[u8]) -> Item {
    assert!(rt; tag.len() < 1000 && rest.len() < 1000);
    let mut stream = AdtsStream::new(rt.alloc());
    stream.feed(tag).expect(rt, "memory");
    stream.feed(rest).expect(rt, "memory");
    stream.feed(&FRAME).expect(rt, "memory");
    item_of(&stream.look(0).expect(rt, "memory"))
}

#[test]
fn tags_are_passed(rt: HostRuntime) {
    for (i, (tag, rest, offset)) in TAGS.iter().enumerate() {
        let first = behind_tag(&rt, tag, rest);
        expect_at(&rt, i, first == Item::Init(*offset, 1, 44_100));
    }
}

/// How many bytes are held of these two pieces.
fn held(rt: &(impl Abort + AllocGlobal), first: &[u8], second: &[u8]) -> usize {
    assert!(rt; first.len() < 1000 && second.len() < 1000);
    let mut stream = AdtsStream::new(rt.alloc());
    stream.feed(first).expect(rt, "memory");
    stream.feed(second).expect(rt, "memory");
    stream.held_len()
}

/// How many bytes are kept of the first bytes of a tag.
#[test]
fn tags_are_let_go(rt: HostRuntime) {
    for cut in 0..11 {
        let (first, _) = TAG.as_slice().split_at(cut);
        let wanted = if cut < 10 { cut } else { 0 };
        expect_at(&rt, cut, held(&rt, first, &[]) == wanted);
    }
    let found = (held(&rt, b"TA", &[]), held(&rt, b"TA", b"G"));
    expect(&rt, "an ID3v1 tag", found == (2, 0));
}

/// What is offered and declined is gone, and what is accepted and looked at stays.
#[test]
fn offers(rt: HostRuntime) {
    let mut stream = AdtsStream::new(rt.alloc());
    stream.offer(&FASTER).expect(&rt, "memory");
    stream.decline();
    let held = stream.held_len();
    stream.offer(&FRAME).expect(&rt, "memory");
    stream.accept();
    let init = item_of(&stream.look(0).expect(&rt, "memory"));
    expect(&rt, "a frame", (held, init) == (0, INIT));
}

/// The presentation stays with `reset`, and goes with `forget`.
#[test]
fn presentation_kept(rt: HostRuntime) {
    let mut stream = AdtsStream::new(rt.alloc());
    stream.feed(&FRAME).expect(&rt, "memory");
    let _init = stream.next().expect(&rt, "memory");
    let ready = stream.ready_frames();
    stream.reset();
    stream.feed(&FRAME).expect(&rt, "memory");
    let frame = item_of(&stream.look(0).expect(&rt, "memory"));
    expect(&rt, "kept by a reset", (ready, frame) == (1, FIRST));
    stream.forget();
    stream.feed(&FRAME).expect(&rt, "memory");
    let init = item_of(&stream.look(0).expect(&rt, "memory"));
    expect(&rt, "forgotten", init == INIT);
}
