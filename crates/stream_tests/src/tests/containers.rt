ghost use Rattle.std.specs.Prelude.{◌≡◌, ◌+◌, ◌<◌, ◌^◌, length, None};

use super::boxes::{INIT, MDAT, MOOF, Part, Text, made};
use super::rows::expect_at;
use byte_stream::*;
use mse_base::{Bytes, OutOfMemory, Phase, Presentation};
use std::alloc::Global;
use std::process::Abort;

/// The header of a frame of ten bytes, with 44100 samples in a second and two channels.
const HEADER: &[Part] = &[Part::Bytes(&[0xff, 0xf1, 0x50, 0x80, 0x01, 0x5f, 0xfc])];

/// The bytes behind the header.
const REST: &[Part] = &[Part::Bytes(&[0, 0, 0])];

/// What a stream gives, as far as a test looks at it.
#[derive(Clone, Copy, PartialEq)]
enum Item {
    /// An initialization segment at this offset: how many tracks it has, and the samples in a second.
    Init(u64, usize, u32),
    /// A coded frame at this offset: how long it lasts, and how many bytes it has.
    Frame(u64, i128, usize),
    SegmentEnd,
    Fault(u64, ByteFault),
    Dry,
}

fn init_item(presentation: &Presentation, offset: u64) -> Item {
    let tracks = presentation.tracks.as_slice();
    let scale = tracks.iter().map(|track| track.scale).max().unwrap_or(0);
    Item::Init(offset, tracks.len(), scale)
}

fn item_of(next: &Next) -> Item {
    match next {
        Next::Init(presentation, offset) => init_item(presentation, *offset),
        Next::Frame(frame, offset) => Item::Frame(*offset, frame.dur.get(), frame.payload.len()),
        Next::SegmentEnd => Item::SegmentEnd,
        Next::Fault { fault, offset } => Item::Fault(*offset, *fault),
        Next::Dry => Item::Dry,
    }
}

/// Takes all items that are there.
fn take_all(alloc: Global, stream: &mut ByteStream) -> Result<Vec<Item>, OutOfMemory>
    requires { stream.old.offered ≡ None }
    ensures none_offered { stream.new.offered ≡ None }
    ensures fed { stream.new.fed ≡ stream.old.fed }
{
    let mut items = Vec::new(alloc);
    'items: for _ in 0..20 {
        let item = item_of(&stream.next()?);
        if item == Item::Dry {
            break;
        }
        items.push(item)?;
    }
    Ok(items)
}

/// What is done with a stream, or what it tells.
#[derive(Clone, Copy)]
enum StreamCall {
    /// Appends a text.
    Feed(Text),
    /// Appends a text whose memory is shared.
    Share(Text),
    /// Offers a text, and declines it.
    Decline(Text),
    Reset,
    Restart(Container),
    /// The item in front or a frame behind it, which stay.
    Look(usize, Item),
    /// The item in front, which is taken.
    Next(Item),
    /// All items that are there, which are taken.
    All(&'static [Item]),
    Phase(Phase),
    Ready(usize),
    Held(usize),
    Len(u64),
}

/// The bytes of a text that is to be appended.
fn bytes_for(rt: &(impl Abort + AllocGlobal), stream: &ByteStream, text: Text) -> Bytes
    ensures { stream.now.fed + length result < 2 ^ 62 }
{
    let bytes = made(rt, text);
    assert!(rt; stream.len() < 10_000 && bytes.len() < 10_000);
    Bytes::from_vec(rt.alloc(), bytes).expect(rt, "memory")
}

fn append(rt: &impl Abort, stream: &mut ByteStream, bytes: &[u8])
    requires none_offered { stream.old.offered ≡ None }
    requires countable { stream.old.fed + length bytes.now < 2 ^ 62 }
    ensures { stream.new.offered ≡ None }
{
    stream.offer(bytes).expect(rt, "memory");
    stream.accept();
}

fn share(rt: &impl Abort, stream: &mut ByteStream, bytes: Bytes)
    requires none_offered { stream.old.offered ≡ None }
    requires countable { stream.old.fed + length bytes < 2 ^ 62 }
    ensures { stream.new.offered ≡ None }
{
    stream.offer_bytes(bytes).expect(rt, "memory");
    stream.accept();
}

fn decline(rt: &impl Abort, stream: &mut ByteStream, bytes: &[u8])
    requires none_offered { stream.old.offered ≡ None }
    requires countable { stream.old.fed + length bytes.now < 2 ^ 62 }
    ensures { stream.new.offered ≡ None }
{
    stream.offer(bytes).expect(rt, "memory");
    stream.decline();
}

/// Appends or declines a text, or begins anew; whether the step is such a call.
fn acts(rt: &(impl Abort + AllocGlobal), stream: &mut ByteStream, step: StreamCall) -> bool
    requires { stream.old.offered ≡ None }
    ensures { stream.new.offered ≡ None }
{
    match step {
        StreamCall::Feed(text) => {
            let bytes = bytes_for(rt, stream, text);
            append(rt, stream, bytes.as_slice());
        }
        StreamCall::Share(text) => {
            let bytes = bytes_for(rt, stream, text);
            share(rt, stream, bytes);
        }
        StreamCall::Decline(text) => {
            let bytes = bytes_for(rt, stream, text);
            decline(rt, stream, bytes.as_slice());
        }
        StreamCall::Reset => stream.reset(),
        StreamCall::Restart(container) => stream.restart(container),
        _ => return false,
    }
    true
}

/// The item in front or a frame behind it.
fn look(rt: &impl Abort, stream: &ByteStream, i: usize) -> Item
    requires { stream.now.offered ≡ None }
{
    assert!(rt; i == 0 || i < stream.ready_frames());
    item_of(&stream.look(i).expect(rt, "memory"))
}

/// Whether the stream tells what is wanted.
fn tells(rt: &impl Abort, stream: &ByteStream, step: StreamCall) -> bool
    requires { stream.now.offered ≡ None }
{
    match step {
        StreamCall::Look(i, want) => look(rt, stream, i) == want,
        StreamCall::Phase(want) => stream.phase() == want,
        StreamCall::Ready(want) => stream.ready_frames() == want,
        StreamCall::Held(want) => stream.held_len() == want,
        StreamCall::Len(want) => stream.len() == want,
        _ => false,
    }
}

/// Takes items; whether they, or what the stream tells, are what is wanted.
fn takes(rt: &(impl Abort + AllocGlobal), stream: &mut ByteStream, step: StreamCall) -> bool
    requires { stream.old.offered ≡ None }
    ensures { stream.new.offered ≡ None }
{
    match step {
        StreamCall::Next(want) => item_of(&stream.next().expect(rt, "memory")) == want,
        StreamCall::All(want) => {
            let items = take_all(rt.alloc(), stream).expect(rt, "memory");
            items.as_slice() == want
        }
        _ => tells(rt, stream, step),
    }
}

/// Takes a step; whether that comes of it which is wanted.
fn does(rt: &(impl Abort + AllocGlobal), stream: &mut ByteStream, step: StreamCall) -> bool
    requires { stream.old.offered ≡ None }
    ensures { stream.new.offered ≡ None }
{
    acts(rt, stream, step) || takes(rt, stream, step)
}

/// Takes steps from a new stream on.
fn play(rt: &(impl Abort + AllocGlobal), container: Container, steps: &[StreamCall]) {
    let mut stream = ByteStream::new(rt.alloc(), container);
    'steps: for (i, step) in steps.iter().enumerate() {
        expect_at(rt, i, does(rt, &mut stream, *step));
    }
}

const VIDEO: Item = Item::Init(24, 1, 90_000);

const LAST: Item = Item::Frame(747, 4_704_000_000, 4);

static SEGMENTS: [StreamCall; 13] = [
    StreamCall::Feed(&[INIT]),
    StreamCall::Phase(Phase::InInit),
    StreamCall::Look(0, VIDEO),
    StreamCall::Next(VIDEO),
    StreamCall::Feed(&[MOOF, MDAT]),
    StreamCall::Ready(3),
    StreamCall::Look(2, LAST),
    StreamCall::Phase(Phase::InMedia),
    StreamCall::Held(156),
    StreamCall::All(&[
        Item::Frame(739, 4_704_000_000, 4),
        Item::Frame(743, 4_704_000_000, 4),
        LAST,
        Item::SegmentEnd,
    ]),
    StreamCall::Phase(Phase::Waiting),
    StreamCall::Held(0),
    StreamCall::Len(751),
];

/// A file of one track and three frames of 3000 units at 90000.
#[test]
fn a_file_of_segments(rt: HostRuntime) {
    play(&rt, Container::Mp4, &SEGMENTS);
}

const SOUND: Item = Item::Init(0, 1, 44_100);

const FRAME: Item = Item::Frame(0, 3_276_800_000, 10);

const ONE_FRAME: &[Item] = &[SOUND, FRAME, Item::SegmentEnd];

const SECOND: Item = Item::Frame(10, 3_276_800_000, 10);

static TWO_FRAMES: [StreamCall; 11] = [
    StreamCall::Feed(&[HEADER, REST, HEADER]),
    StreamCall::Phase(Phase::Waiting),
    StreamCall::All(ONE_FRAME),
    StreamCall::Phase(Phase::InMedia),
    StreamCall::Held(7),
    StreamCall::Ready(0),
    StreamCall::Feed(&[REST]),
    StreamCall::Ready(1),
    StreamCall::All(&[SECOND, Item::SegmentEnd]),
    StreamCall::Held(0),
    StreamCall::Len(20),
];

/// Two ADTS frames of 1024 samples, the second of which comes in two pieces.
#[test]
fn two_frames(rt: HostRuntime) {
    play(&rt, Container::Adts, &TWO_FRAMES);
}

const FREE_OF_SIZE_ZERO: &[Part] = &[Part::Box(0, b"free", &[])];

static BEGUN_ANEW: [StreamCall; 15] = [
    StreamCall::Feed(&[FREE_OF_SIZE_ZERO]),
    StreamCall::Look(
        0,
        Item::Fault(0, ByteFault::Segments(StreamFault::SizeZero)),
    ),
    StreamCall::Restart(Container::Adts),
    StreamCall::Feed(&[HEADER, REST]),
    StreamCall::Next(SOUND),
    StreamCall::Reset,
    StreamCall::Len(0),
    StreamCall::Held(0),
    StreamCall::Feed(&[HEADER, REST]),
    StreamCall::Next(FRAME),
    StreamCall::Restart(Container::Adts),
    StreamCall::Feed(&[HEADER, REST]),
    StreamCall::Next(SOUND),
    StreamCall::Restart(Container::Mp4),
    StreamCall::Phase(Phase::Waiting),
];

/// The presentation stays with `reset`, and goes with `restart`, which takes another container.
#[test]
fn begun_anew(rt: HostRuntime) {
    play(&rt, Container::Mp4, &BEGUN_ANEW);
}

const ZEROS: &[Part] = &[Part::Bytes(&[0; 7])];

static OFFERS: [StreamCall; 7] = [
    StreamCall::Decline(&[ZEROS]),
    StreamCall::Len(0),
    StreamCall::Held(0),
    StreamCall::Feed(&[HEADER, REST]),
    StreamCall::All(ONE_FRAME),
    StreamCall::Feed(&[ZEROS]),
    StreamCall::Next(Item::Fault(10, ByteFault::Frames(AdtsFault::Sync))),
];

/// What is offered and declined is gone.
#[test]
fn offers(rt: HostRuntime) {
    play(&rt, Container::Adts, &OFFERS);
}

static SHARED_FRAMES: [StreamCall; 2] = [
    StreamCall::Share(&[HEADER, REST, HEADER, REST]),
    StreamCall::All(&[SOUND, FRAME, Item::SegmentEnd, SECOND, Item::SegmentEnd]),
];

const SHARED_SEGMENTS: [StreamCall; 2] = [StreamCall::Share(&[INIT]), StreamCall::Next(VIDEO)];

/// Bytes whose memory is shared give what they give when they are copied.
#[test]
fn shared_bytes(rt: HostRuntime) {
    play(&rt, Container::Adts, &SHARED_FRAMES);
    play(&rt, Container::Mp4, &SHARED_SEGMENTS);
}

/// Takes all items that are there, and puts the payloads of coded frames one after the other.
fn take_payloads(rt: &impl Abort, stream: &mut ByteStream, payloads: &mut Vec<u8>)
    requires { stream.old.offered ≡ None }
    ensures { stream.new.offered ≡ None }
{
    'items: for _ in 0..20 {
        match stream.next().expect(rt, "memory") {
            Next::Frame(frame, _) => {
                payloads
                    .extend_from_slice(frame.payload.as_slice())
                    .expect(rt, "memory");
            }
            Next::Dry => break,
            _ => (),
        }
    }
}

/// The payloads of the coded frames of a string that is appended in pieces of so many bytes.
fn payloads_by(
    rt: &(impl Abort + AllocGlobal),
    container: Container,
    bytes: &[u8],
    size: usize,
) -> Vec<u8> {
    let mut stream = ByteStream::new(rt.alloc(), container);
    let mut payloads = Vec::new(rt.alloc());
    let mut rest = bytes;
    'pieces: for _ in 0..1000 {
        let (piece, behind) = rest.split_at(size.min(rest.len()));
        if piece.is_empty() || piece.len() > 10_000 || stream.len() > 10_000 {
            break;
        }
        append(rt, &mut stream, piece);
        take_payloads(rt, &mut stream, &mut payloads);
        rest = behind;
    }
    payloads
}

/// A text, its length, by how many bytes it is appended, and where the payloads of its coded frames begin, which stand
/// up to its end.
static PAYLOADS: [(Container, Text, usize, &[usize], usize); 2] = [
    (Container::Mp4, &[INIT, MOOF, MDAT], 751, &[1, 7, 751], 739),
    (
        Container::Adts,
        &[HEADER, REST, HEADER, REST],
        20,
        &[1, 7],
        0,
    ),
];

/// The payloads are the bytes of the string, whatever pieces it comes in.
#[test]
fn payloads_by_pieces(rt: HostRuntime) {
    for (container, text, len, sizes, from) in &PAYLOADS {
        let file = made(&rt, text);
        expect_at(&rt, *len, file.len() == *len && *from <= *len);
        let (_, wanted) = file.as_slice().split_at((*from).min(file.len()));
        for size in *sizes {
            let payloads = payloads_by(&rt, *container, file.as_slice(), *size);
            expect_at(&rt, *size, payloads.as_slice() == wanted);
        }
    }
}
