ghost use Rattle.std.specs.Prelude.{◌≡◌, ◌++◌, [], None, IfOk, IfSome, OnOk};
ghost use Rattle.mse_base.specs.Spans.{IsNormalized, IsUnion, IsIntersection};
ghost use Rattle.mse_base.specs.Bridging.{IsHeadOfOne};
ghost use Rattle.mse_base.specs.Meets.{overlap};

use crate::bridge::join_in;
use crate::span_list::SpanList;
use crate::{OutOfMemory, Span, Ticks};
use std::alloc::Global;

/// Adds the ticks that two spans share, if there are any.
fn push_overlap(spans: &mut Vec<Span>, x: Span, y: Span) -> Result<(), OutOfMemory>
    ensures { OnOk result (spans.new.items ≡ spans.old.items ++ overlap x y) }
{
    if let Some(span) = x.overlap(y) {
        spans.push(span)?;
    }
    Ok(())
}

/// The ranges of the ticks that both lists have.
pub(crate) fn meet_of(
    alloc: Global,
    left: &[Span],
    right: &[Span],
) -> Result<Vec<Span>, OutOfMemory>
    requires left { IsNormalized left.now }
    requires right { IsNormalized right.now }
    ensures { IfOk result (λ v. IsIntersection left.now right.now v.items) }
{
    let mut spans = Vec::new(alloc);
    let mut xs = left;
    let mut ys = right;
    'heads: while let [x, after_x @ ..] = xs {
        let [y, after_y @ ..] = ys else {
            break;
        };
        push_overlap(&mut spans, *x, *y)?;
        if x.end <= y.end {
            xs = after_x;
        } else {
            ys = after_y;
        }
    }
    Ok(spans)
}

/// What is left of two lists.
#[derive(Drop)]
struct Heads<'a> {
    left: &'a [Span],
    right: &'a [Span],
}

impl<'a> Heads<'a> {
    /// Takes the span that begins first.
    fn next(&mut self) -> Option<Span>
        ensures none { result ≡ None → (self.old.left.now ≡ []) × (self.old.right.now ≡ []) }
        ensures some { IfSome result (λ s. IsHeadOfOne s self.old.left.now self.old.right.now
            self.new.left.now self.new.right.now) }
    {
        match (self.left.first(), self.right.first()) {
            (Some(x), Some(y)) => {
                if y.start < x.start {
                    self.right = &self.right[1..];
                    Some(*y)
                } else {
                    self.left = &self.left[1..];
                    Some(*x)
                }
            }
            (Some(x), None) => {
                self.left = &self.left[1..];
                Some(*x)
            }
            (None, Some(y)) => {
                self.right = &self.right[1..];
                Some(*y)
            }
            (None, None) => None,
        }
    }
}

/// The ranges of the ticks that one of the lists has.
pub(crate) fn union_of(
    alloc: Global,
    left: &[Span],
    right: &[Span],
) -> Result<SpanList, OutOfMemory>
    ensures { IfOk result (λ v. IsUnion (left.now ++ right.now) v.spans) }
{
    let mut spans = SpanList::new(alloc);
    let mut heads = Heads { left, right };
    'heads: while let Some(span) = heads.next() {
        spans.reserve(alloc, 1)?;
        join_in(&mut spans, Ticks::zero(), span);
    }
    Ok(spans)
}
