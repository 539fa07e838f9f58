//! Blobs.

use mse_base::Bytes;
use mse_calls::{Blobs, Piece};
use std::process::Abort;

/// Blobs, parts of them, and the bytes of each.
static PARTS: [(u32, Option<(u64, u64)>, Option<&[u8]>); 6] = [
    (0, None, Some(&[1, 2])),
    (0, Some((1, 1)), Some(&[2])),
    (0, Some((2, 0)), Some(&[])),
    (0, Some((1, 2)), None),
    (1, Some((u64::MAX, 1)), None),
    (2, None, None),
];

fn push(rt: &(impl Abort + AllocGlobal), blobs: &mut Blobs, bytes: &[u8]) {
    let blob = Bytes::copy_of(rt.alloc(), bytes).expect(rt, "memory");
    blobs.push(blob).expect(rt, "memory");
}

/// Whether the blob at that place has these bytes.
fn is_blob(blobs: &Blobs, i: usize, bytes: &[u8]) -> bool {
    match blobs.get(i) {
        Some(blob) => blob.as_slice() == bytes,
        None => false,
    }
}

/// Blobs come last, and are found at their places.
#[test]
fn keeps_blobs(rt: HostRuntime) {
    let mut blobs = Blobs::new(rt.alloc());
    push(&rt, &mut blobs, &[1, 2]);
    push(&rt, &mut blobs, &[3]);
    assert!(rt; is_blob(&blobs, 1, &[3]) && blobs.get(2).is_none());
    for &(blob, part, wanted) in &PARTS {
        let found = blobs.part(&Piece { blob, part });
        assert!(rt; found == wanted, "{part:?} of {blob}");
    }
}
