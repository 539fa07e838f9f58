ghost use Rattle.std.specs.Prelude.{◌≡◌, ℕ, ◌+◌, ◌-◌, ◌<◌, ◌≤◌, ◌^◌, List, [], ◌++◌, length, take, drop, slice_get, Some, true, false, IfOk, IfSome, OnOk, OnErr};
ghost use Rattle.std.specs.List.{concat};
ghost use Rattle.input_chunks.specs.Pieces.{pieces_with, pieces_without_first, pieces_without_last, HasNoEmptyPiece};
ghost use Rattle.input_chunks.specs.Ends.{pieces_of, bytes_of, bytes_from, HasEnds, HasNewEnds, IsWith, IsApart};

use crate::piece_offset::piece_offset_of;
use crate::piece_with_end::PieceWithEnd;
use mse_base::{Bytes, OutOfMemory};
use std::alloc::Global;
use std::collections::VecDeque;
use std::marker::Model;

/// The most bytes of a piece that a push lengthens.
const LONGEST: u128 = 4096;

/// A queue of bytes in pieces, none of them empty.
#[derive(Debug, Drop)]
pub struct Chunks {
    alloc: Global,
    entries: VecDeque<PieceWithEnd>,
    /// How many bytes were dropped in front, modulo `2^64`.
    dropped: u64,
    len: usize,
}

impl Model for Chunks {
    ghost use Rattle.std.specs.Prelude.{List, ℕ, ◌≡◌, length};
    ghost use Rattle.std.specs.List.{concat};
    ghost use Rattle.input_chunks.specs.Pieces.{HasNoEmptyPiece};
    ghost use Rattle.input_chunks.specs.Ends.{pieces_of, HasEnds};

    ghost Value = { List (List ℕ) };

    ghost view = { λ c. pieces_of c.entries.items };

    ghost invariant = { λ c.
        HasNoEmptyPiece (pieces_of c.entries.items)
        × (c.len ≡ length (concat (pieces_of c.entries.items)))
        × HasEnds c.dropped c.entries.items };
}

impl Chunks {
    /// An empty queue.
    pub fn new(alloc: Global) -> Chunks
        ensures { result ≡ [] }
    {
        Chunks {
            alloc,
            entries: VecDeque::new(alloc),
            dropped: 0,
            len: 0,
        }
    }

    /// How many bytes there are.
    pub fn len(&self) -> usize
        ensures { result ≡ length (concat self.now) }
    {
        self.len
    }

    /// Appends bytes: to the last piece, where the two together have at most 4096 bytes, and else
    /// as a new piece. What was pushed can be taken back whole. No bytes change nothing, and neither does an
    /// `Err`.
    pub fn push(&mut self, piece: &[u8]) -> Result<(), OutOfMemory>
        requires { length (concat self.old) + length piece.now < 2 ^ 62 }
        ensures ok { OnOk result (self.new ≡ pieces_with piece.now self.old) }
        ensures undone { OnOk result (pieces_without_last (length piece.now) self.new ≡ self.old) }
        ensures err { OnErr result (self.new ≡ self.old) }
    {
        let len = self.len;
        if piece.is_empty() {
            return Ok(());
        }
        let total = len + piece.len();
        let end = self.dropped.wrapping_add(total as u64);
        push_piece(self.alloc, &mut self.entries, piece, end)?;
        self.len = total;
        Ok(())
    }

    /// As `push` of the same bytes. Where they become a piece of their own, it has their memory, and no byte is copied.
    /// An `Err` changes nothing.
    pub fn push_bytes(&mut self, piece: Bytes) -> Result<(), OutOfMemory>
        requires { length (concat self.old) + length piece < 2 ^ 62 }
        ensures ok { OnOk result (self.new ≡ pieces_with piece self.old) }
        ensures undone { OnOk result (pieces_without_last (length piece) self.new ≡ self.old) }
        ensures err { OnErr result (self.new ≡ self.old) }
    {
        let len = self.len;
        if piece.is_empty() {
            return Ok(());
        }
        let total = len + piece.len();
        let end = self.dropped.wrapping_add(total as u64);
        push_owned(&mut self.entries, piece, end)?;
        self.len = total;
        Ok(())
    }

    /// Removes the first `n` bytes: whole pieces go, and one is cut. The memory of what went is given
    /// back, but for at most as many bytes as are left of the first piece, or 65536.
    pub fn drop_front(&mut self, n: usize)
        requires { n ≤ length (concat self.old) }
        ensures { self.new ≡ pieces_without_first n self.old }
    {
        drop_front_of(&mut self.entries, n);
        self.dropped = self.dropped.wrapping_add(n as u64);
        self.len -= n;
    }

    /// Removes the last `n` bytes: whole pieces go, and one is cut.
    pub fn drop_back(&mut self, n: usize)
        requires { n ≤ length (concat self.old) }
        ensures { self.new ≡ pieces_without_last n self.old }
    {
        let len_left = self.len - n;
        let end = self.dropped.wrapping_add(len_left as u64);
        drop_back_of(&mut self.entries, n, end);
        self.len = len_left;
    }

    /// Fills `into` with the bytes from `from` on.
    pub fn read(&self, from: usize, into: &mut [u8])
        requires { from + length into.old ≤ length (concat self.now) }
        ensures { into.new ≡ take (length into.old) (drop from (concat self.now)) }
    {
        // The proof reads off this what always holds of the fields.
        let _len = self.len;
        if into.is_empty() {
            return;
        }
        let place = piece_offset_of(&self.entries, self.dropped, from);
        read_of(&self.entries, place.index, place.skip, into);
    }

    /// The `n` bytes from `from` on. Where they lie in one piece that no push can lengthen, or in pieces of which each
    /// begins in the same memory right behind the one before, they have that memory, and no byte is copied.
    pub fn copy(&self, from: usize, n: usize) -> Result<Bytes, OutOfMemory>
        requires { from + n ≤ length (concat self.now) }
        ensures { IfOk result (λ b. b ≡ take n (drop from (concat self.now))) }
    {
        // The proof reads off this what always holds of the fields.
        let _len = self.len;
        if n == 0 {
            return no_bytes(self.alloc, &self.entries);
        }
        let first = piece_offset_of(&self.entries, self.dropped, from);
        let entry = &self.entries[first.index];
        if let Some(bytes) = part_of(&entry.piece, first.skip, n)? {
            return Ok(bytes);
        }
        if let Some(bytes) = joined_part(&self.entries, first.index, first.skip, n)? {
            return Ok(bytes);
        }
        let mut bytes = Vec::with_capacity(self.alloc, n)?;
        copy_of(&self.entries, first.index, first.skip, n, &mut bytes)?;
        Bytes::from_vec(self.alloc, bytes)
    }

    /// How many pieces there are.
    pub fn pieces(&self) -> usize
        ensures { result ≡ length self.now }
    {
        self.entries.len()
    }

    /// The bytes of piece `i`, counted from the front.
    pub fn piece(&self, i: usize) -> &[u8]
        requires { i < length self.now }
        ensures { Some result.now ≡ slice_get self.now i }
    {
        let entry = &self.entries[i];
        entry.piece.as_slice()
    }
}

/// Lengthens the last piece, where the two together have at most 4096 bytes, and tells whether it did. The last of
/// these bytes is byte `end` of all that were pushed.
fn extend_last(
    entries: &mut VecDeque<PieceWithEnd>,
    bytes: &[u8],
    end: u64,
) -> Result<bool, OutOfMemory>
    ensures joined { IfOk result (λ b.
        b ≡ true → IsWith bytes.now end entries.old.items entries.new.items) }
    ensures apart { IfOk result (λ b. b ≡ false → IsApart bytes.now (pieces_of entries.old.items)) }
    ensures same { IfOk result (λ b. b ≡ false → entries.new.items ≡ entries.old.items) }
    ensures err { OnErr result (entries.new.items ≡ entries.old.items) }
{
    let Some(mut last) = entries.pop_back() else {
        return Ok(false);
    };
    if last.piece.len() as u128 + bytes.len() as u128 > LONGEST {
        entries.push_back_reserved(last);
        return Ok(false);
    }
    let extension = last.extend(bytes, end);
    entries.push_back_reserved(last);
    extension?;
    Ok(true)
}

/// Appends bytes whose last is byte `end` of all that were pushed.
fn push_piece(
    alloc: Global,
    entries: &mut VecDeque<PieceWithEnd>,
    bytes: &[u8],
    end: u64,
) -> Result<(), OutOfMemory>
    ensures ok { OnOk result (IsWith bytes.now end entries.old.items entries.new.items) }
    ensures err { OnErr result (entries.new.items ≡ entries.old.items) }
{
    if extend_last(entries, bytes, end)? {
        return Ok(());
    }
    let piece = Bytes::copy_of(alloc, bytes)?;
    entries.push_back(PieceWithEnd { piece, end })?;
    Ok(())
}

/// As `push_piece`, of bytes whose memory a piece of their own takes over.
fn push_owned(
    entries: &mut VecDeque<PieceWithEnd>,
    bytes: Bytes,
    end: u64,
) -> Result<(), OutOfMemory>
    ensures ok { OnOk result (IsWith bytes end entries.old.items entries.new.items) }
    ensures err { OnErr result (entries.new.items ≡ entries.old.items) }
{
    if extend_last(entries, bytes.as_slice(), end)? {
        return Ok(());
    }
    entries.push_back(PieceWithEnd { piece: bytes, end })?;
    Ok(())
}

fn drop_front_of(entries: &mut VecDeque<PieceWithEnd>, n: usize)
    requires { n ≤ length (bytes_of entries.old.items) }
    ensures pieces { pieces_of entries.new.items
        ≡ pieces_without_first n (pieces_of entries.old.items) }
    ensures ended { (at : ℕ) → HasEnds at entries.old.items → HasEnds (at + n) entries.new.items }
{
    let mut len_left = n;
    'entries: while let Some(mut first) = entries.pop_front() {
        let len = first.piece.len();
        if len_left < len {
            first.piece.drop_front(len_left);
            entries.push_front_reserved(first);
            return;
        }
        len_left -= len;
    }
}

/// Removes the last `n` bytes; `end` is the end of those that stay.
fn drop_back_of(entries: &mut VecDeque<PieceWithEnd>, n: usize, end: u64)
    requires inside { n ≤ length (bytes_of entries.old.items) }
    requires none_empty { HasNoEmptyPiece (pieces_of entries.old.items) }
    ensures pieces { pieces_of entries.new.items
        ≡ pieces_without_last n (pieces_of entries.old.items) }
    ensures ended { HasNewEnds end (length (bytes_of entries.old.items) - n)
        entries.old.items entries.new.items }
{
    let mut len_left = n;
    'entries: while len_left > 0 {
        let Some(mut last) = entries.pop_back() else {
            return;
        };
        let len = last.piece.len();
        if len_left < len {
            last.piece.truncate(len - len_left);
            last.end = end;
            entries.push_back_reserved(last);
            return;
        }
        len_left -= len;
    }
}

/// No bytes, which have the memory of the first piece where there is one.
fn no_bytes(alloc: Global, entries: &VecDeque<PieceWithEnd>) -> Result<Bytes, OutOfMemory>
    ensures { IfOk result (λ b. b ≡ []) }
{
    if entries.is_empty() {
        return Bytes::copy_of(alloc, &[]);
    }
    entries[0].piece.part(0, 0)
}

/// The `n` bytes behind the first `skip` of a piece, which have its memory; `None` where they do not lie inside it, and
/// where it is so short that a push may lengthen it.
fn part_of(piece: &Bytes, skip: usize, n: usize) -> Result<Option<Bytes>, OutOfMemory>
    ensures { IfOk result (λ part. IfSome part (λ b.
        (b ≡ take n (drop skip piece.now)) × (skip + n ≤ length piece.now))) }
{
    let len = piece.len();
    if (len as u128) <= LONGEST || n > len || skip > len - n {
        return Ok(None);
    }
    Ok(Some(piece.part(skip, skip + n)?))
}

/// The `n` bytes behind the first `skip` of piece `first`, where they lie in several pieces of which each begins in the
/// same memory right behind the one before: they have that memory. `None` elsewhere, and where the last of these pieces
/// is so short that a push may lengthen it.
fn joined_part(
    entries: &VecDeque<PieceWithEnd>,
    first: usize,
    skip: usize,
    n: usize,
) -> Result<Option<Bytes>, OutOfMemory>
    requires { first < length entries.now.items }
    ensures { IfOk result (λ part. IfSome part (λ b.
        b ≡ take n (drop skip (bytes_from first entries.now.items)))) }
{
    let entry = &entries[first];
    let len = entry.piece.len();
    if skip > len || n <= len - skip {
        return Ok(None);
    }
    let mut bytes = entry.piece.part(skip, len)?;
    let mut len_left = n - (len - skip);
    'pieces: for i in first + 1..entries.len() {
        let next = &entries[i];
        let next_len = next.piece.len();
        let more = len_left.min(next_len);
        if !bytes.extend_shared(&next.piece, more) {
            return Ok(None);
        }
        if len_left <= next_len {
            return Ok(if_long(bytes, next_len));
        }
        len_left -= next_len;
    }
    Ok(None)
}

/// The bytes, where the piece in which they end is so long that no push lengthens it, or they are more
/// than a push that lengthens it then copies.
fn if_long(bytes: Bytes, piece_len: usize) -> Option<Bytes>
    ensures { IfSome result (λ b. b ≡ bytes) }
{
    if piece_len as u128 > LONGEST || bytes.len() as u128 > LONGEST {
        Some(bytes)
    } else {
        None
    }
}

/// Copies `n` bytes, from byte `skip` of piece `first` on.
fn copy_of(
    entries: &VecDeque<PieceWithEnd>,
    first: usize,
    skip: usize,
    n: usize,
    into: &mut Vec<u8>,
) -> Result<(), OutOfMemory>
    requires inside { skip + n ≤ length (bytes_from first entries.now.items) }
    requires empty { into.old.items ≡ [] }
    ensures { OnOk result (into.new.items
        ≡ take n (drop skip (bytes_from first entries.now.items))) }
{
    let mut skip = skip;
    let mut len_left = n;
    'entries: for i in first..entries.len() {
        let entry = &entries[i];
        let bytes = entry.piece.as_slice();
        if skip < bytes.len() {
            let (_, rest) = bytes.split_at(skip);
            if len_left <= rest.len() {
                let (part, _) = rest.split_at(len_left);
                into.extend_from_slice(part)?;
                return Ok(());
            }
            into.extend_from_slice(rest)?;
            len_left -= rest.len();
            skip = 0;
        } else {
            skip -= bytes.len();
        }
    }
    Ok(())
}

/// Writes bytes from `at` on.
fn fill(into: &mut [u8], at: usize, bytes: &[u8])
    requires { at + length bytes.now ≤ length into.old }
    ensures front { take (at + length bytes.now) into.new ≡ take at into.old ++ bytes.now }
    ensures len { length into.new ≡ length into.old }
{
    let end = at + bytes.len();
    into[at..end].copy_from_slice(bytes);
}

/// Fills `into`, from byte `skip` of piece `first` on.
fn read_of(entries: &VecDeque<PieceWithEnd>, first: usize, skip: usize, into: &mut [u8])
    requires inside { skip + length into.old ≤ length (bytes_from first entries.now.items) }
    ensures { into.new ≡ take (length into.old) (drop skip (bytes_from first entries.now.items)) }
{
    let mut skip = skip;
    let mut filled_len = 0;
    'entries: for i in first..entries.len() {
        let len_left = into.len() - filled_len;
        let entry = &entries[i];
        let bytes = entry.piece.as_slice();
        if skip < bytes.len() {
            let (_, rest) = bytes.split_at(skip);
            if len_left <= rest.len() {
                let (part, _) = rest.split_at(len_left);
                fill(into, filled_len, part);
                return;
            }
            fill(into, filled_len, rest);
            filled_len += rest.len();
            skip = 0;
        } else {
            skip -= bytes.len();
        }
    }
}
