use super::rows::{expect, expect_at};
use input_chunks::*;
use mse_base::Bytes;
use std::process::Abort;

/// What is done with pieces, or asserted of them.
#[derive(Clone, Copy)]
enum PieceCall {
    /// Bytes are copied.
    Push(&'static [u8]),
    /// Bytes are shared.
    PushBytes(&'static [u8]),
    DropFront(usize),
    DropBack(usize),
    /// How many bytes there are.
    Len(usize),
    /// How many pieces there are.
    Pieces(usize),
    /// The first piece.
    First(&'static [u8]),
    /// The first bytes, copied.
    Copy(&'static [u8]),
    /// The first byte, read.
    Read(u8),
}

fn push(rt: &impl Abort, chunks: &mut Chunks, bytes: &[u8]) {
    assert!(rt; chunks.len() < 10_000 && bytes.len() < 10_000);
    chunks.push(bytes).expect(rt, "memory");
}

fn push_bytes(rt: &impl Abort, chunks: &mut Chunks, bytes: Bytes) {
    assert!(rt; chunks.len() < 10_000 && bytes.len() < 10_000);
    chunks.push_bytes(bytes).expect(rt, "memory");
}

fn drop_front(rt: &impl Abort, chunks: &mut Chunks, n: usize) {
    assert!(rt; n <= chunks.len());
    chunks.drop_front(n);
}

fn drop_back(rt: &impl Abort, chunks: &mut Chunks, n: usize) {
    assert!(rt; n <= chunks.len());
    chunks.drop_back(n);
}

fn is_first(rt: &impl Abort, chunks: &Chunks, want: &[u8]) -> bool {
    assert!(rt; chunks.pieces() > 0);
    chunks.piece(0) == want
}

/// A copy of so many bytes from a place on.
fn copy(rt: &impl Abort, chunks: &Chunks, from: usize, n: usize) -> Bytes {
    assert!(rt; from <= chunks.len() && n <= chunks.len() - from);
    chunks.copy(from, n).expect(rt, "memory")
}

fn is_copy(rt: &impl Abort, chunks: &Chunks, want: &[u8]) -> bool {
    copy(rt, chunks, 0, want.len()).as_slice() == want
}

fn is_read(rt: &impl Abort, chunks: &Chunks, want: u8) -> bool {
    assert!(rt; chunks.len() > 0);
    let mut one = [0u8; 1];
    chunks.read(0, &mut one);
    one == [want]
}

/// Adds or drops bytes; whether the step is such a call.
fn acts(rt: &(impl Abort + AllocGlobal), chunks: &mut Chunks, call: PieceCall) -> bool {
    match call {
        PieceCall::Push(bytes) => push(rt, chunks, bytes),
        PieceCall::PushBytes(bytes) => {
            let bytes = Bytes::copy_of(rt.alloc(), bytes).expect(rt, "memory");
            push_bytes(rt, chunks, bytes);
        }
        PieceCall::DropFront(n) => drop_front(rt, chunks, n),
        PieceCall::DropBack(n) => drop_back(rt, chunks, n),
        _ => return false,
    }
    true
}

/// Whether the pieces are what is asserted of them.
fn are(rt: &impl Abort, chunks: &Chunks, call: PieceCall) -> bool {
    match call {
        PieceCall::Len(want) => chunks.len() == want,
        PieceCall::Pieces(want) => chunks.pieces() == want,
        PieceCall::First(want) => is_first(rt, chunks, want),
        PieceCall::Copy(want) => is_copy(rt, chunks, want),
        PieceCall::Read(want) => is_read(rt, chunks, want),
        _ => false,
    }
}

/// Does one after the other.
fn play(rt: &(impl Abort + AllocGlobal), calls: &[PieceCall]) {
    let mut chunks = Chunks::new(rt.alloc());
    for (i, call) in calls.iter().enumerate() {
        let holds = acts(rt, &mut chunks, *call) || are(rt, &chunks, *call);
        expect_at(rt, i, holds);
    }
}

const SEVENS: [u8; 4092] = [7; 4092];

static COPIED: [PieceCall; 19] = [
    PieceCall::Push(b"abc"),
    PieceCall::Push(b""),
    PieceCall::Push(b"de"),
    PieceCall::Len(5),
    PieceCall::Pieces(1),
    PieceCall::First(b"abcde"),
    PieceCall::Push(&SEVENS),
    PieceCall::Pieces(2),
    PieceCall::Len(4097),
    PieceCall::DropBack(4092),
    PieceCall::Pieces(1),
    PieceCall::Len(5),
    PieceCall::DropFront(4),
    PieceCall::Len(1),
    PieceCall::Copy(b"e"),
    PieceCall::Read(b'e'),
    PieceCall::DropBack(1),
    PieceCall::Len(0),
    PieceCall::Pieces(0),
];

/// What no clause says: that memory which is there is taken, and the limit of 4096 by numbers.
#[test]
fn pieces_join_and_split(rt: HostRuntime) {
    play(&rt, &COPIED);
}

static SHARED: [PieceCall; 11] = [
    PieceCall::PushBytes(b"abc"),
    PieceCall::PushBytes(b""),
    PieceCall::PushBytes(b"de"),
    PieceCall::Pieces(1),
    PieceCall::First(b"abcde"),
    PieceCall::PushBytes(&SEVENS),
    PieceCall::Pieces(2),
    PieceCall::DropFront(4),
    PieceCall::DropBack(4091),
    PieceCall::Pieces(2),
    PieceCall::Copy(b"e\x07"),
];

/// Bytes whose memory is shared make the pieces that they make when they are copied.
#[test]
fn owned_pieces_join_and_split(rt: HostRuntime) {
    play(&rt, &SHARED);
}

/// A piece of 5000 bytes of value 7.
fn long_piece(rt: &(impl Abort + AllocGlobal)) -> Bytes {
    let mut bytes = Vec::new(rt.alloc());
    bytes.resize(5000, 7).expect(rt, "memory");
    Bytes::from_vec(rt.alloc(), bytes).expect(rt, "memory")
}

/// Parts of a long piece stay as they are, whatever becomes of the piece.
#[test]
fn parts_of_a_long_piece_stay(rt: HostRuntime) {
    let mut chunks = Chunks::new(rt.alloc());
    let piece = long_piece(&rt);
    push_bytes(&rt, &mut chunks, piece.copy().expect(&rt, "memory"));
    let front = copy(&rt, &chunks, 0, 2);
    let back = copy(&rt, &chunks, 4998, 2);
    let none = copy(&rt, &chunks, 5000, 0);
    drop_front(&rt, &mut chunks, 4998);
    push(&rt, &mut chunks, b"ab");
    expect(&rt, "one piece", chunks.pieces() == 1);
    expect(&rt, "joined", is_first(&rt, &chunks, b"\x07\x07ab"));
    drop_back(&rt, &mut chunks, 4);
    let sevens = b"\x07\x07".as_slice();
    let parts = (front.as_slice(), back.as_slice(), none.len());
    expect(&rt, "parts", parts == (sevens, sevens, 0));
    expect(&rt, "the piece", piece.len() == 5000);
}
