//! Boxes that are made for a test, and changed.

use std::alloc::Global;
use std::process::Abort;

/// A part of a file.
#[derive(Clone, Copy)]
pub(super) enum Part<'a> {
    /// A box of this type begins.
    Open(&'a [u8; 4]),
    Bytes(&'a [u8]),
    /// The box that began last ends.
    Close,
}

/// Boxes that are being made: the bytes up to now, and where each box that is open starts.
#[derive(Drop)]
pub(super) struct Boxes {
    bytes: Vec<u8>,
    starts: Vec<usize>,
}

impl Boxes {
    pub(super) fn new(alloc: Global) -> Boxes {
        Boxes {
            bytes: Vec::new(alloc),
            starts: Vec::new(alloc),
        }
    }

    /// Begins a box of this type.
    pub(super) fn open(&mut self, rt: &impl Abort, kind: &[u8; 4]) {
        self.starts.push(self.bytes.len()).expect(rt, "memory");
        self.push(rt, &[0; 4]);
        self.push(rt, kind);
    }

    pub(super) fn push(&mut self, rt: &impl Abort, bytes: &[u8]) {
        self.bytes.extend_from_slice(bytes).expect(rt, "memory");
    }

    /// Ends the box that began last.
    pub(super) fn close(&mut self, rt: &impl Abort) {
        let start = self.starts.pop().expect(rt, "a box is open");
        let len = self.bytes.len().saturating_sub(start);
        let size = u32::try_from(len).expect(rt, "a short box");
        write_at(rt, &mut self.bytes, start, &size.to_be_bytes());
    }

    /// Appends parts.
    pub(super) fn put(&mut self, rt: &impl Abort, parts: &[Part<'_>]) {
        for part in parts {
            match part {
                Part::Open(kind) => self.open(rt, *kind),
                Part::Bytes(bytes) => self.push(rt, *bytes),
                Part::Close => self.close(rt),
            }
        }
    }

    pub(super) fn into_bytes(self) -> Vec<u8> {
        self.bytes
    }
}

/// The bytes of these parts.
pub(super) fn made(rt: &(impl Abort + AllocGlobal), parts: &[Part<'_>]) -> Vec<u8> {
    let mut boxes = Boxes::new(rt.alloc());
    boxes.put(rt, parts);
    boxes.into_bytes()
}

/// Writes bytes over those from a place on.
fn write_at(rt: &impl Abort, bytes: &mut Vec<u8>, from: usize, new: &[u8]) {
    let rest = bytes.as_mut_slice().get_mut(from..).expect(rt, "inside");
    for (old, byte) in rest.iter_mut().zip(new.iter()) {
        *old = *byte;
    }
}

/// Writes bytes over those at a place of the first box of a type.
pub(super) fn overwrite(
    rt: &impl Abort,
    bytes: &mut Vec<u8>,
    kind: &[u8; 4],
    at: usize,
    new: &[u8],
) {
    let name = bytes
        .windows(4)
        .position(|w| w == kind.as_slice())
        .expect(rt, "the box is there");
    let start = name.checked_sub(4).expect(rt, "behind a size");
    let from = start.checked_add(at).expect(rt, "a small place");
    write_at(rt, bytes, from, new);
}
