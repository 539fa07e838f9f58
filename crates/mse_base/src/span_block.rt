//! A block: some spans, with room for 512.

ghost use Rattle.std.specs.Prelude.{◌≡◌, ◌+◌, ◌<◌, ◌≤◌, [], ◌∷◌, ◌++◌, length, take, drop, IfOk, slice_index_or, slice_set};
ghost use Rattle.std.specs.List.{insert, remove};

use crate::{OutOfMemory, Span};
use std::alloc::Global;
use std::marker::Model;

/// For how many spans a block has room.
pub(crate) const LONG: usize = 512;

/// At most 512 spans, with room for 512.
#[derive(Debug, Drop)]
pub(crate) struct Block {
    items: Vec<Span>,
}

impl Model for Block {
    ghost use Rattle.std.specs.Prelude.{List, ◌≡◌, vec_capacity};
    ghost use Rattle.mse_base.specs.declared.span.Span.{Span};

    ghost Value = { List Span };

    ghost view = { λ b. b.items.items };

    ghost invariant = { λ b. vec_capacity b.items ≡ 512 };
}

impl Block {
    /// No spans, with room for 512.
    pub fn new(alloc: Global) -> Result<Block, OutOfMemory>
        ensures { IfOk result (λ b. b ≡ []) }
    {
        let items = Vec::with_capacity(alloc, LONG)?;
        Ok(Block { items })
    }

    /// How many spans there are.
    pub fn len(&self) -> usize
        ensures value { result ≡ length self.now }
        ensures bound { length self.now ≤ 512 }
    {
        self.items.len()
    }

    /// The span at a place.
    pub fn get(&self, i: usize) -> Span
        requires { i < length self.now }
        ensures { result ≡ slice_index_or self.now i result }
    {
        self.items[i]
    }

    /// The spans, in order.
    pub fn as_slice(&self) -> &[Span]
        ensures { result.now ≡ self.now }
    {
        self.items.as_slice()
    }

    /// Puts a span behind all.
    pub fn push(&mut self, x: Span)
        requires { length self.old < 512 }
        ensures { self.new ≡ self.old ++ x ∷ [] }
    {
        self.items.push_reserved(x);
    }

    /// Puts in a span.
    pub fn insert(&mut self, i: usize, x: Span)
        requires within { i ≤ length self.old }
        requires room { length self.old < 512 }
        ensures { self.new ≡ insert self.old i x }
    {
        if i == self.items.len() {
            self.items.push_reserved(x);
            return;
        }
        match self.items.insert(i, x) {
            Ok(()) => {}
            Err(_) => unreachable!(),
        }
    }

    /// Puts another span in place of one.
    pub fn set(&mut self, i: usize, x: Span)
        requires { i < length self.old }
        ensures { self.new ≡ slice_set self.old i x }
    {
        self.items[i] = x;
    }

    /// Takes out a span.
    pub fn remove(&mut self, i: usize)
        requires { i < length self.old }
        ensures { self.new ≡ remove self.old i }
    {
        let len = self.items.len();
        if i + 1 == len {
            self.items.truncate(i);
            return;
        }
        self.items.remove(i);
    }

    /// Removes all spans.
    pub fn clear(&mut self)
        ensures { self.new ≡ [] }
    {
        self.items.clear();
    }

    /// Moves the spans from `s` on to an empty block.
    pub fn split_into(&mut self, s: usize, right: &mut Block)
        requires within { s ≤ length self.old }
        requires empty { right.old ≡ [] }
        ensures left { self.new ≡ take s self.old }
        ensures right { right.new ≡ drop s self.old }
    {
        let (_, rest) = self.items.as_slice().split_at(s);
        for x in rest {
            right.push(*x);
        }
        self.items.truncate(s);
    }

    /// Moves all spans of another block behind those of this one.
    pub fn append(&mut self, other: &mut Block)
        requires { length self.old + length other.old ≤ 512 }
        ensures spans { self.new ≡ self.old ++ other.old }
        ensures empty { other.new ≡ [] }
    {
        let rest = other.as_slice();
        for x in rest {
            self.push(*x);
        }
        other.clear();
    }
}
