//! A box as its pointer.
#![tactic(auto)]

ghost use Rattle.std.specs.Prelude.{◌≡◌};

use std::alloc::Allocator;
use std::marker::Model;

/// A box that is taken apart: it owns the value at its pointer, and the block that the value lies in.
pub struct LooseBox<T, A: Allocator> {
    /// Where the value lies.
    pub at: *mut T,
    /// What the block came from.
    pub alloc: A,
    pub ghost value: { T },
}

impl<T, A: Allocator> Model for LooseBox<T, A> {
    ghost use Rattle.std.specs.Box.Ownership.{box_owns};

    ghost also_owns = { λ l. box_owns (A.dealloc_token l.alloc) T.row l.at l.value };
}

impl<T: Drop, A: Allocator> LooseBox<T, A> {
    /// Takes a box apart.
    pub fn of(value: Box<T, A>) -> LooseBox<T, A>
        ensures { result.value ≡ value.value }
    {
        let (at, alloc) = Box::into_raw_with_allocator(value);
        LooseBox { at, alloc }
    }

    /// Makes it a box again.
    pub fn into_box(self) -> Box<T, A>
        ensures { result.value ≡ self.value }
    {
        let LooseBox { at, alloc } = self;
        unsafe { Box::from_raw(alloc, at) }
    }
}
