//! What lends a read window's items: as a slice, as text, and one by one.
ghost use Rattle.std.specs.Prelude.{◌≡◌, ◌<◌, ◌^◌, length};
ghost use Rattle.std.specs.Iterator.Runs.{EveryRun, ItemsMapTo};
ghost use Rattle.std.specs.Slice.Iter.{iter_rest, iter_steps};

use crate::slice::ArcSlice;
use arc_block::layout::Layout;
use arc_buffer::buffer::Buffer;
use arc_buffer::kinds::{Slice, Text};
use arc_owners::mark::Mark;
use std::alloc::Allocator;
use std::convert::{AsSlice, AsStr};
use std::iter::IntoIterator;
use std::ops::DerefSlice;
use std::slice::Iter;

impl<S: Slice, L: Layout, B: Buffer<S::Item> + Drop, M: Drop, A: Allocator + Copy, H: Mark> AsSlice<
    S::Item,
> for ArcSlice<S, L, B, M, A, H> {
    ghost items = { λ w. w.items };

    fn as_slice(&self) -> &[S::Item] {
        ArcSlice::as_slice(self)
    }
}

impl<L: Layout, B: Buffer<u8> + Drop, M: Drop, A: Allocator + Copy, H: Mark> AsStr
    for ArcSlice<Text, L, B, M, A, H> {
    ghost text = { λ w. w.items };

    fn as_str(&self) -> &str {
        ArcSlice::as_str(self)
    }
}

impl<
    S: Slice,
    L: Layout,
    B: Buffer<S::Item> + Drop,
    M: Drop,
    A: Allocator + Copy,
    H: Mark,
> DerefSlice for ArcSlice<S, L, B, M, A, H> {
    type Elem = S::Item;

    ghost deref_gives = { λ w xs. xs ≡ w.items };

    fn deref(&self) -> &[S::Item] {
        ArcSlice::as_slice(self)
    }
}

impl<
    'a,
    T: Drop + 'a,
    S: Slice<Item = T>,
    L: Layout,
    B: Buffer<T> + Drop,
    M: Drop,
    A: Allocator + Copy,
    H: Mark,
> IntoIterator for &'a ArcSlice<S, L, B, M, A, H> {
    type Item = &'a T;

    type IntoIter = Iter<'a, T>;

    ghost into_iter_gives = { λ w r. (iter_rest r ≡ w.now.items) × (length (iter_rest r) < 2 ^ 64)
        × EveryRun (iter_steps {A = T}) (λ p. ItemsMapTo p (λ y. y.now) (iter_rest p.from)) };

    fn into_iter(self) -> Iter<'a, T> {
        ArcSlice::as_slice(self).iter()
    }
}
