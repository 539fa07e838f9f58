ghost use Rattle.std.specs.Prelude.{◌≡◌, ◌++◌, ◌∷◌, [], OnOk, OnErr, length, drop, min, slice_get, IfOk};
ghost use Rattle.std.specs.Option.{option_copied};
ghost use Rattle.mse_calls.specs.Blobs.{forgotten_before};
ghost use Rattle.mse_calls.specs.Pieces.{bytes_of, part_of};

use crate::Piece;
use mse_base::{Bytes, OutOfMemory};
use std::alloc::Global;
use std::collections::VecDeque;
use std::marker::Model;

/// The loaded byte strings, in the order in which a script names them. Those in front may be forgotten: each is then
/// without bytes, and takes no memory.
#[derive(Debug, Drop)]
pub struct Blobs {
    alloc: Global,
    forgotten: usize,
    /// What is shown for each forgotten blob.
    no_bytes: Option<Bytes>,
    items: VecDeque<Bytes>,
}

impl Model for Blobs {
    ghost use Rattle.std.specs.Prelude.{List, ℕ, ◌+◌, ◌<◌, ◌^◌, length};
    ghost use Rattle.mse_calls.specs.Blobs.{behind_forgotten, HasNoBytes};

    ghost Value = { List (List ℕ) };

    ghost view = { λ b. behind_forgotten b.forgotten b.items.items };

    ghost invariant = { λ b.
        HasNoBytes b.forgotten b.no_bytes × (b.forgotten + length b.items.items < 2 ^ 64) };
}

impl Blobs {
    /// No blob.
    pub fn new(alloc: Global) -> Blobs
        ensures { result ≡ [] }
    {
        Blobs {
            alloc,
            forgotten: 0,
            no_bytes: None,
            items: VecDeque::new(alloc),
        }
    }

    /// Puts a blob last.
    pub fn push(&mut self, bytes: Bytes) -> Result<(), OutOfMemory>
        ensures ok { OnOk result (self.new ≡ self.old ++ bytes ∷ []) }
        ensures err { OnErr result (self.new ≡ self.old) }
    {
        // Forgotten blobs are counted too, so that memory does not bound the count.
        if self.len() == usize::MAX {
            return Err(OutOfMemory);
        }
        self.items.push_back(bytes)?;
        Ok(())
    }

    /// How many blobs there are.
    pub fn len(&self) -> usize
        ensures { result ≡ length self.now }
    {
        self.forgotten + self.items.len()
    }

    /// The blob at a place; `None` exactly past the end.
    pub fn get(&self, i: usize) -> Option<&Bytes>
        ensures { option_copied result ≡ slice_get self.now i }
    {
        if i < self.forgotten {
            self.no_bytes.as_ref()
        } else {
            self.items.get(i - self.forgotten)
        }
    }

    /// Forgets the blobs before a place: each is then without bytes. An `Err` changes nothing.
    pub fn forget_before(&mut self, n: usize) -> Result<(), OutOfMemory>
        ensures ok { OnOk result (self.new ≡ forgotten_before n self.old) }
        ensures err { OnErr result (self.new ≡ self.old) }
    {
        if self.no_bytes.is_none() {
            self.no_bytes = Some(Bytes::copy_of(self.alloc, &[])?);
        }
        self.forgotten += drop_first(&mut self.items, n.saturating_sub(self.forgotten));
        Ok(())
    }

    /// The bytes of a piece; `None` exactly where there is no such blob, or where the part does
    /// not lie inside it.
    pub fn part(&self, piece: &Piece) -> Option<&[u8]>
        ensures { option_copied result ≡ bytes_of self.now piece.now }
    {
        match self.get(piece.blob as usize) {
            Some(blob) => part_of(blob.as_slice(), piece.part),
            None => None,
        }
    }

    /// As `part`, with the memory of the blob: no byte is copied.
    pub fn shared_part(&self, piece: &Piece) -> Result<Option<Bytes>, OutOfMemory>
        ensures { IfOk result (λ bytes. bytes ≡ bytes_of self.now piece.now) }
    {
        match self.get(piece.blob as usize) {
            Some(blob) => shared_part_of(blob, piece.part),
            None => Ok(None),
        }
    }
}

/// Drops the first `n` blobs, or all where there are fewer, and tells how many.
fn drop_first(blobs: &mut VecDeque<Bytes>, n: usize) -> usize
    ensures count { result ≡ min n (length blobs.old.items) }
    ensures left { blobs.new.items ≡ drop n blobs.old.items }
{
    let count = n.min(blobs.len());
    'blobs: for _ in 0..count {
        blobs.pop_front();
    }
    count
}

/// The part of some bytes, by its start and its length; `None` exactly where it does not lie
/// inside them.
fn part_of(bytes: &[u8], part: Option<(u64, u64)>) -> Option<&[u8]>
    ensures { option_copied result ≡ part_of part bytes.now }
{
    let Some((start, len)) = part else {
        return Some(bytes);
    };
    let size = bytes.len() as u64;
    if len <= size && start <= size - len {
        let from = start as usize;
        Some(&bytes[from..from + len as usize])
    } else {
        None
    }
}

/// As `part_of`, with the memory of the bytes.
fn shared_part_of(bytes: &Bytes, part: Option<(u64, u64)>) -> Result<Option<Bytes>, OutOfMemory>
    ensures { IfOk result (λ found. found ≡ part_of part bytes.now) }
{
    let Some((start, len)) = part else {
        return Ok(Some(bytes.copy()?));
    };
    let size = bytes.len() as u64;
    if len <= size && start <= size - len {
        let from = start as usize;
        Ok(Some(bytes.part(from, from + len as usize)?))
    } else {
        Ok(None)
    }
}
