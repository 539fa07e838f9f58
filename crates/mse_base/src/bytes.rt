ghost use Rattle.std.specs.Prelude.{◌≡◌, ◌↔◌, ◌≤◌, ◌++◌, [], length, take, drop, slice_range, true, false, IfOk, IsTrue, OnOk, OnErr};

use crate::OutOfMemory;
use std::alloc::Global;
use std::marker::Model;
use std::rc::Rc;

/// The least number of bytes removed in front whose memory is given back.
const LEAST_CUT: usize = 65536;

/// A list of bytes. Its copies and its parts have the same memory, which goes with the last of them.
#[derive(Debug, Drop)]
pub struct Bytes {
    alloc: Global,
    shared: Rc<Vec<u8>>,
    start: usize,
    end: usize,
}

impl Model for Bytes {
    ghost use Rattle.std.specs.Prelude.{List, ℕ, ◌≤◌, slice_range, vec_len};

    ghost Value = { List ℕ };

    ghost view = { λ b. slice_range b.shared.value.items b.start b.end };

    ghost invariant = { λ b. (b.start ≤ b.end) × (b.end ≤ vec_len b.shared.value) };
}

/// Whether the bytes from place `at` on begin with `part`.
fn is_at(bytes: &[u8], at: usize, part: &[u8]) -> bool
    requires { at ≤ length bytes.now }
    ensures { result ≡ true → take (length part.now) (drop at bytes.now) ≡ part.now }
{
    let (_, behind) = bytes.split_at(at);
    behind.starts_with(part)
}

impl Bytes {
    /// A copy of some bytes.
    pub fn copy_of(alloc: Global, bytes: &[u8]) -> Result<Bytes, OutOfMemory>
        ensures { IfOk result (λ b. b ≡ bytes.now) }
    {
        Bytes::from_vec(alloc, Vec::from_slice(alloc, bytes)?)
    }

    /// The bytes of a vector, whose memory it takes over. At an `Err` the vector is gone.
    pub fn from_vec(alloc: Global, items: Vec<u8>) -> Result<Bytes, OutOfMemory>
        ensures { IfOk result (λ b. b ≡ items.items) }
    {
        let end = items.len();
        let shared = Rc::new(alloc, items)?;
        Ok(Bytes {
            alloc,
            shared,
            start: 0,
            end,
        })
    }

    /// The bytes as a vector: with no copy where nothing else has their memory, and they are all of it.
    pub fn into_vec(self) -> Result<Vec<u8>, OutOfMemory>
        ensures { IfOk result (λ v. v.items ≡ self) }
    {
        let Bytes {
            alloc,
            shared,
            start,
            end,
        } = self;
        match Rc::try_unwrap(shared) {
            Ok(items) if start == 0 && end == items.len() => Ok(items),
            Ok(items) => Ok(Vec::from_slice(alloc, &items[start..end])?),
            Err(shared) => Ok(Vec::from_slice(alloc, &shared.as_slice()[start..end])?),
        }
    }

    /// The same bytes again. No byte is copied.
    pub fn copy(&self) -> Result<Bytes, OutOfMemory>
        ensures { IfOk result (λ b. b ≡ self.now) }
    {
        Ok(Bytes {
            alloc: self.alloc,
            shared: self.shared.clone()?,
            start: self.start,
            end: self.end,
        })
    }

    /// The bytes from `start` up to `end`. No byte is copied.
    pub fn part(&self, start: usize, end: usize) -> Result<Bytes, OutOfMemory>
        requires { (start ≤ end) × (end ≤ length self.now) }
        ensures { IfOk result (λ b. b ≡ slice_range self.now start end) }
    {
        Ok(Bytes {
            alloc: self.alloc,
            shared: self.shared.clone()?,
            start: self.start + start,
            end: self.start + end,
        })
    }

    /// The bytes as a slice.
    pub fn as_slice(&self) -> &[u8]
        ensures { result.now ≡ self.now }
    {
        &self.shared.as_slice()[self.start..self.end]
    }

    /// How many bytes there are.
    pub fn len(&self) -> usize
        ensures { result ≡ length self.now }
    {
        self.end - self.start
    }

    /// Whether there is no byte.
    pub fn is_empty(&self) -> bool
        ensures { IsTrue result ↔ (self.now ≡ []) }
    {
        self.start == self.end
    }

    /// Removes the first `n` bytes. The others are moved only where that gives back memory.
    pub fn drop_front(&mut self, n: usize)
        requires { n ≤ length self.old }
        ensures { self.new ≡ drop n self.old }
    {
        self.pass(n);
        self.shrink();
    }

    /// Moves the start behind the first `n` bytes.
    fn pass(&mut self, n: usize)
        requires { n ≤ length self.old }
        ensures { self.new ≡ drop n self.old }
    {
        self.start += n;
    }

    /// Keeps the first `n` bytes. No memory is given back.
    pub fn truncate(&mut self, n: usize)
        requires { n ≤ length self.old }
        ensures { self.new ≡ take n self.old }
    {
        self.end = self.start + n;
    }

    /// Appends bytes: in place where nothing else has their memory, and else in a memory of their own. An `Err`
    /// changes nothing.
    pub fn extend(&mut self, bytes: &[u8]) -> Result<(), OutOfMemory>
        ensures ok { OnOk result (self.new ≡ self.old ++ bytes.now) }
        ensures err { OnErr result (self.new ≡ self.old) }
    {
        if self.start <= self.end - self.start && self.extend_in_place(bytes)? {
            return Ok(());
        }
        let mut items = Vec::with_capacity(self.alloc, bytes.len())?;
        items.extend_from_slice(self.as_slice())?;
        items.extend_from_slice(bytes)?;
        *self = Bytes::from_vec(self.alloc, items)?;
        Ok(())
    }

    /// Appends the first `n` bytes of `next`, where `next` begins in the same memory right behind these bytes, and tells
    /// whether it did. No byte is copied.
    pub fn extend_shared(&mut self, next: &Bytes, n: usize) -> bool
        requires { n ≤ length next.now }
        ensures extended { result ≡ true → self.new ≡ self.old ++ take n next.now }
        ensures same { result ≡ false → self.new ≡ self.old }
    {
        let more = &next.as_slice()[..n];
        if self.end != next.start || !Rc::ptr_eq(&self.shared, &next.shared) {
            return false;
        }
        // No clause of `ptr_eq` says that the two vectors are equal. So the bytes behind are compared.
        if !is_at(self.shared.as_slice(), self.end, more) {
            return false;
        }
        self.end += n;
        true
    }

    /// Appends bytes where nothing else has their memory, and tells whether it did. An `Err` changes nothing.
    fn extend_in_place(&mut self, bytes: &[u8]) -> Result<bool, OutOfMemory>
        ensures extended { IfOk result (λ b. b ≡ true → self.new ≡ self.old ++ bytes.now) }
        ensures same { IfOk result (λ b. b ≡ false → self.new ≡ self.old) }
        ensures err { OnErr result (self.new ≡ self.old) }
    {
        let Some(items) = Rc::get_mut(&mut self.shared) else {
            return Ok(false);
        };
        items.truncate(self.end);
        items.extend_from_slice(bytes)?;
        self.end = items.len();
        Ok(true)
    }

    /// Gives back the memory of what was removed in front, where nothing else has it, and where it is half of the
    /// bytes or more and at least `LEAST_CUT`: so each byte that is moved was paid for by one that was removed.
    /// Where no smaller memory is found, all stays where it is.
    fn shrink(&mut self)
        ensures { self.new ≡ self.old }
    {
        if self.start < LEAST_CUT
            || self.start < self.end - self.start
            || Rc::strong_count(&self.shared) > 1
        {
            return;
        }
        if let Ok(rest) = Bytes::copy_of(self.alloc, self.as_slice()) {
            *self = rest;
        }
    }
}
