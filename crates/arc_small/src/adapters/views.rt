//! What lends a small window's bytes: as a slice, as text, and one by one.
ghost use Rattle.std.specs.Prelude.{◌≡◌, ℕ, ◌<◌, ◌^◌, length};
ghost use Rattle.std.specs.Iterator.Runs.{EveryRun, ItemsMapTo};
ghost use Rattle.std.specs.Slice.Iter.{iter_rest, iter_steps};

use super::super::{SmallArcSlice, SmallSlice};
use arc_block::layout::Layout;
use arc_buffer::buffer::Buffer;
use arc_buffer::kinds::{Slice, Text};
use arc_owners::mark::Mark;
use std::alloc::Allocator;
use std::convert::{AsSlice, AsStr};
use std::iter::IntoIterator;
use std::ops::DerefSlice;
use std::slice::Iter;

impl<S: Slice<Item = u8>, L: Layout> AsSlice<u8> for SmallSlice<S, L> {
    ghost items = { λ w. w.items };

    fn as_slice(&self) -> &[u8] {
        SmallSlice::as_slice(self)
    }
}

impl<S: Slice<Item = u8>, L: Layout> DerefSlice for SmallSlice<S, L> {
    type Elem = u8;

    ghost deref_gives = { λ w xs. xs ≡ w.items };

    fn deref(&self) -> &[u8] {
        SmallSlice::as_slice(self)
    }
}

impl<'a, S: Slice<Item = u8>, L: Layout> IntoIterator for &'a SmallSlice<S, L> {
    type Item = &'a u8;

    type IntoIter = Iter<'a, u8>;

    ghost into_iter_gives = { λ w r. (iter_rest r ≡ w.now.items) × (length (iter_rest r) < 2 ^ 64)
        × EveryRun (iter_steps {A = ℕ}) (λ p. ItemsMapTo p (λ y. y.now) (iter_rest p.from)) };

    fn into_iter(self) -> Iter<'a, u8> {
        SmallSlice::as_slice(self).iter()
    }
}

impl<
    S: Slice<Item = u8>,
    L: Layout,
    B: Buffer<u8> + Drop,
    M: Drop,
    A: Allocator + Copy,
    H: Mark,
> AsSlice<u8> for SmallArcSlice<S, L, B, M, A, H> {
    ghost items = { λ w. w.items };

    fn as_slice(&self) -> &[u8] {
        SmallArcSlice::as_slice(self)
    }
}

impl<
    S: Slice<Item = u8>,
    L: Layout,
    B: Buffer<u8> + Drop,
    M: Drop,
    A: Allocator + Copy,
    H: Mark,
> DerefSlice for SmallArcSlice<S, L, B, M, A, H> {
    type Elem = u8;

    ghost deref_gives = { λ w xs. xs ≡ w.items };

    fn deref(&self) -> &[u8] {
        SmallArcSlice::as_slice(self)
    }
}

impl<
    'a,
    S: Slice<Item = u8>,
    L: Layout,
    B: Buffer<u8> + Drop,
    M: Drop,
    A: Allocator + Copy,
    H: Mark,
> IntoIterator for &'a SmallArcSlice<S, L, B, M, A, H> {
    type Item = &'a u8;

    type IntoIter = Iter<'a, u8>;

    ghost into_iter_gives = { λ w r. (iter_rest r ≡ w.now.items) × (length (iter_rest r) < 2 ^ 64)
        × EveryRun (iter_steps {A = ℕ}) (λ p. ItemsMapTo p (λ y. y.now) (iter_rest p.from)) };

    fn into_iter(self) -> Iter<'a, u8> {
        SmallArcSlice::as_slice(self).iter()
    }
}

impl<L: Layout> AsStr for SmallSlice<Text, L> {
    ghost text = { λ w. w.items };

    fn as_str(&self) -> &str {
        SmallSlice::as_str(self)
    }
}

impl<L: Layout, B: Buffer<u8> + Drop, M: Drop, A: Allocator + Copy, H: Mark> AsStr
    for SmallArcSlice<Text, L, B, M, A, H> {
    ghost text = { λ w. w.items };

    fn as_str(&self) -> &str {
        SmallArcSlice::as_str(self)
    }
}
