//! A block: some items with room for 128.

ghost use Rattle.std.specs.Prelude.{◌≡◌, ◌+◌, ◌<◌, ◌≤◌, List, [], ◌∷◌, ◌++◌, length, take, drop, IfOk, slice_index_or, slice_set, vec_capacity};
ghost use Rattle.std.specs.List.{insert, remove};

use mse_base::OutOfMemory;
use std::alloc::Global;
use std::marker::Model;

/// For how many items a block has room.
const LONG: usize = 128;

/// What is known of some items.
pub trait Fact<T>: Sized + Drop {
    ghost use Rattle.std.specs.Prelude.{List};

    /// What is known of the items of a list.
    ghost of: { List T → Self };

    /// What is known of some items.
    fn of(items: &[T]) -> Self
        ensures { result ≡ of items.now };

    /// What is known once an item more stands among them, at whatever place.
    fn with(&self, x: &T) -> Self
        ensures { (xs ys : List T) → self.now ≡ of (xs ++ ys) → result ≡ of (xs ++ x.now ∷ ys) };
}

/// A change of one item.
pub trait Change<T>: Sized {
    /// What becomes of an item.
    ghost after: { Self → T → T };

    /// Changes the item.
    fn apply(&self, x: &mut T)
        ensures { x.new ≡ after self.now x.old };
}

/// At most 128 items, with room for 128, and what is known of them.
#[derive(Drop)]
pub struct Block<T, F: Fact<T>> {
    items: Vec<T>,
    fact: F,
}

impl<T, F: Fact<T>> Model for Block<T, F> {
    ghost use Rattle.std.specs.Prelude.{List, ◌≡◌, vec_capacity};

    ghost Value = { List T };

    ghost view = { λ b. b.items.items };

    ghost invariant = { λ b. (vec_capacity b.items ≡ 128) × (b.fact ≡ F.of b.items.items) };
}

impl<T, F: Fact<T>> Block<T, F> {
    /// No items, with room for 128.
    pub fn new(alloc: Global) -> Result<Block<T, F>, OutOfMemory>
        ensures { IfOk result (λ b. b ≡ []) }
    {
        let items = Vec::with_capacity(alloc, LONG)?;
        let fact = F::of(items.as_slice());
        Ok(Block { items, fact })
    }

    /// How many items there are.
    pub fn len(&self) -> usize
        ensures value { result ≡ length self.now }
        ensures bound { length self.now ≤ 128 }
    {
        self.items.len()
    }

    /// The item at a place.
    pub fn get(&self, i: usize) -> &T
        requires { i < length self.now }
        ensures { result.now ≡ slice_index_or self.now i result.now }
    {
        &self.items[i]
    }

    /// What is known of the items.
    pub fn fact(&self) -> &F
        ensures { result.now ≡ F.of self.now }
    {
        &self.fact
    }

    /// The items, in order.
    pub fn as_slice(&self) -> &[T]
        ensures value { result.now ≡ self.now }
        ensures bound { length result.now ≤ 128 }
    {
        self.items.as_slice()
    }

    /// Puts an item behind all.
    pub fn push(&mut self, x: T)
        requires { length self.old < 128 }
        ensures { self.new ≡ self.old ++ x ∷ [] }
    {
        self.fact = self.fact.with(&x);
        self.items.push_reserved(x);
    }

    /// Changes an item.
    pub fn change<C: Change<T>>(&mut self, i: usize, change: &C)
        requires { i < length self.old }
        ensures { (d : T) → self.new
            ≡ slice_set self.old i (C.after change.now (slice_index_or self.old i d)) }
    {
        change.apply(&mut self.items[i]);
        self.fact = F::of(self.items.as_slice());
    }

    /// Takes out an item.
    pub fn remove(&mut self, i: usize) -> T
        requires { i < length self.old }
        ensures value { result ≡ slice_index_or self.old i result }
        ensures items { self.new ≡ remove self.old i }
    {
        let x = self.items.remove(i);
        self.fact = F::of(self.items.as_slice());
        x
    }
}

/// Takes out the items from place `from` up to before place `to`.
pub fn take_out<T: Drop>(items: &mut Vec<T>, from: usize, to: usize)
    requires in_order { from ≤ to }
    requires within { to ≤ length items.old.items }
    ensures items { items.new.items ≡ take from items.old.items ++ drop to items.old.items }
    ensures capacity { vec_capacity items.new ≡ vec_capacity items.old }
{
    let len = items.len();
    if from < to {
        items.slice_mut(from..len).rotate_left(to - from);
        items.truncate(len - (to - from));
    }
}

/// Puts an item in, where there is room. Most are put behind all others or before the last.
pub(crate) fn put_at<T: Drop>(items: &mut Vec<T>, i: usize, x: T)
    requires within { i ≤ length items.old.items }
    requires room { length items.old.items < vec_capacity items.old }
    ensures items { items.new.items ≡ insert items.old.items i x }
    ensures capacity { vec_capacity items.new ≡ vec_capacity items.old }
{
    let len = items.len();
    if i + 1 >= len {
        items.push_reserved(x);
        if i < len {
            items.swap(i, len);
        }
        return;
    }
    match items.insert(i, x) {
        Ok(()) => {}
        Err(_) => unreachable!(),
    }
}

impl<T: Drop, F: Fact<T>> Block<T, F> {
    /// Puts another item in place of one.
    pub fn set(&mut self, i: usize, x: T)
        requires { i < length self.old }
        ensures { self.new ≡ slice_set self.old i x }
    {
        self.items[i] = x;
        self.fact = F::of(self.items.as_slice());
    }

    /// Puts in an item.
    pub fn insert(&mut self, i: usize, x: T)
        requires within { i ≤ length self.old }
        requires room { length self.old < 128 }
        ensures { self.new ≡ insert self.old i x }
    {
        self.fact = self.fact.with(&x);
        put_at(&mut self.items, i, x);
    }

    /// Removes all items.
    pub fn clear(&mut self)
        ensures { self.new ≡ [] }
    {
        self.items.clear();
        self.fact = F::of(self.items.as_slice());
    }

    /// Takes out the items from `from` up to before `to`.
    pub fn remove_range(&mut self, from: usize, to: usize)
        requires in_order { from ≤ to }
        requires within { to ≤ length self.old }
        ensures { self.new ≡ take from self.old ++ drop to self.old }
    {
        if from < to {
            take_out(&mut self.items, from, to);
            self.fact = F::of(self.items.as_slice());
        }
    }
}

impl<T: Copy + Drop, F: Fact<T>> Block<T, F> {
    /// Moves the items from `s` on to an empty block.
    pub fn split_into(&mut self, s: usize, right: &mut Block<T, F>)
        requires within { s ≤ length self.old }
        requires empty { right.old ≡ [] }
        ensures left { self.new ≡ take s self.old }
        ensures right { right.new ≡ drop s self.old }
    {
        let (_, rest) = self.items.as_slice().split_at(s);
        for x in rest {
            right.push(*x);
        }
        self.items.truncate(s);
        self.fact = F::of(self.items.as_slice());
    }
}
