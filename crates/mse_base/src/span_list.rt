//! A list of spans: few in one vector, many in blocks.

ghost use Rattle.std.specs.Prelude.{◌≡◌, ◌+◌, ◌<◌, ◌≤◌, ◌<ℤ◌, ◌≤ℤ◌, ◌-ℤ◌, [], ◌∷◌, ◌++◌, length, take, drop, IfOk, OnOk, OnErr, slice_index_or, slice_set};
ghost use Rattle.std.specs.List.{AllByRecursion};
ghost use Rattle.mse_base.specs.Spans.{IsNormalized};

use crate::lookup::ending_before;
use crate::span_blocks::SpanBlocks;
use crate::{OutOfMemory, Span, Ticks};
use std::alloc::Global;
use std::marker::Model;

/// Up to how many spans stand in one vector.
const FEW: usize = 1024;

/// Spans in one vector or in blocks.
#[derive(Debug, Drop)]
pub(crate) enum Held {
    Few(Vec<Span>),
    Many(SpanBlocks),
}

/// A list of spans, with room for more.
#[derive(Debug, Drop)]
pub(crate) struct SpanList {
    held: Held,
}

impl Model for SpanList {
    ghost use Rattle.mse_base.specs.Spans.{RangesView};
    ghost use Rattle.mse_base.specs.Held.{spans_held};

    ghost Value = { RangesView };

    ghost view = { λ l. spans_held l.held };
}

/// The spans of a vector, in blocks with room for `n` more.
fn in_blocks(alloc: Global, spans: &[Span], n: usize) -> Result<SpanBlocks, OutOfMemory>
    ensures { IfOk result (λ b. (b.spans ≡ spans.now) × (n ≤ b.spare)) }
{
    let mut blocks = SpanBlocks::new(alloc);
    let room = match spans.len().checked_add(n) {
        Some(room) => room,
        None => return Err(OutOfMemory),
    };
    blocks.reserve(room)?;
    let mut i = 0;
    while i < spans.len() {
        blocks.insert(i, spans[i]);
        i += 1;
    }
    Ok(blocks)
}

impl SpanList {
    /// No spans, and no room.
    pub fn new(alloc: Global) -> SpanList
        ensures { result.spans ≡ [] }
    {
        SpanList {
            held: Held::Few(Vec::new(alloc)),
        }
    }

    /// The spans of a vector, which it takes over.
    pub fn from_vec(spans: Vec<Span>) -> SpanList
        ensures { result.spans ≡ spans.items }
    {
        SpanList {
            held: Held::Few(spans),
        }
    }

    /// How many spans there are.
    pub fn len(&self) -> usize
        ensures { result ≡ length self.now.spans }
    {
        match &self.held {
            Held::Few(spans) => spans.len(),
            Held::Many(blocks) => blocks.len(),
        }
    }

    /// For how many more spans there is room.
    pub fn spare(&self) -> usize
        ensures { result ≡ self.now.spare }
    {
        match &self.held {
            Held::Few(spans) => spans.capacity() - spans.len(),
            Held::Many(blocks) => blocks.spare(),
        }
    }

    /// The span at a place.
    pub fn get(&self, i: usize) -> Span
        requires { i < length self.now.spans }
        ensures { result ≡ slice_index_or self.now.spans i result }
    {
        match &self.held {
            Held::Few(spans) => spans[i],
            Held::Many(blocks) => blocks.get(i),
        }
    }

    /// Puts another span in place of one.
    pub fn set(&mut self, i: usize, x: Span)
        requires { i < length self.old.spans }
        ensures spans { self.new.spans ≡ slice_set self.old.spans i x }
        ensures spare { self.new.spare ≡ self.old.spare }
    {
        match &mut self.held {
            Held::Few(spans) => spans[i] = x,
            Held::Many(blocks) => blocks.set(i, x),
        }
    }

    /// Puts in a span.
    pub fn insert(&mut self, i: usize, x: Span)
        requires within { i ≤ length self.old.spans }
        requires room { 1 ≤ self.old.spare }
        ensures spans { self.new.spans ≡ take i self.old.spans ++ x ∷ drop i self.old.spans }
        ensures spare { self.new.spare + 1 ≡ self.old.spare }
    {
        match &mut self.held {
            Held::Few(spans) => match spans.insert(i, x) {
                Ok(()) => {}
                Err(_) => unreachable!(),
            },
            Held::Many(blocks) => blocks.insert(i, x),
        }
    }

    /// Takes out a span.
    pub fn remove(&mut self, i: usize)
        requires { i < length self.old.spans }
        ensures spans { self.new.spans ≡ take i self.old.spans ++ drop (i + 1) self.old.spans }
        ensures spare { self.new.spare ≡ self.old.spare + 1 }
    {
        match &mut self.held {
            Held::Few(spans) => {
                spans.remove(i);
            }
            Held::Many(blocks) => blocks.remove(i),
        }
    }

    /// Removes all spans, and keeps their room.
    pub fn clear(&mut self)
        ensures spans { self.new.spans ≡ [] }
        ensures room { self.new.spare ≡ self.old.spare + length self.old.spans }
    {
        match &mut self.held {
            Held::Few(spans) => spans.clear(),
            Held::Many(blocks) => blocks.clear(),
        }
    }

    /// Makes room for at least `n` more spans.
    pub fn reserve(&mut self, alloc: Global, n: usize) -> Result<(), OutOfMemory>
        ensures spans { self.new.spans ≡ self.old.spans }
        ensures spare { OnOk result (n ≤ self.new.spare) }
        ensures no_room_lost { self.old.spare ≤ self.new.spare }
        ensures same_room { OnErr result (self.new.spare ≡ self.old.spare) }
    {
        if n <= self.spare() {
            return Ok(());
        }
        let blocks = match &mut self.held {
            Held::Many(blocks) => return blocks.reserve(n),
            Held::Few(spans) => {
                if n <= FEW && spans.len() <= FEW - n {
                    spans.reserve(n)?;
                    return Ok(());
                }
                in_blocks(alloc, spans.as_slice(), n)?
            }
        };
        self.held = Held::Many(blocks);
        Ok(())
    }

    /// How many spans end more than the gap before a time.
    pub fn count_ending(&self, t: Ticks, gap: Ticks) -> usize
        requires { IsNormalized self.now.spans }
        ensures within { result ≤ length self.now.spans }
        ensures before { AllByRecursion (λ r. r.end <ℤ (t -ℤ gap)) (take result self.now.spans) }
        ensures after { AllByRecursion (λ r. (t -ℤ gap) ≤ℤ r.end) (drop result self.now.spans) }
    {
        match &self.held {
            Held::Few(spans) => ending_before(spans, t, gap),
            Held::Many(blocks) => blocks.count_ending(t, gap),
        }
    }

    /// The spans in one vector.
    pub fn to_vec(&self, alloc: Global) -> Result<Vec<Span>, OutOfMemory>
        ensures { IfOk result (λ v. v.items ≡ self.now.spans) }
    {
        match &self.held {
            Held::Few(spans) => Ok(Vec::from_slice(alloc, spans.as_slice())?),
            Held::Many(blocks) => blocks.to_vec(),
        }
    }
}
