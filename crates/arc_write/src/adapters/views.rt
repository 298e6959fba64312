//! What lends a write window's items: as a slice, as text, and one by one.
ghost use Rattle.std.specs.Prelude.{◌≡◌, ◌<◌, ◌^◌, length};
ghost use Rattle.std.specs.Borrow.{sem};
ghost use Rattle.std.specs.Iterator.Runs.{EveryRun, ItemsMapTo};
ghost use Rattle.std.specs.Slice.Iter.{iter_rest, iter_steps};

use crate::slice_mut::WriteWindow;
use arc_block::layout::LayoutMut;
use arc_buffer::buffer::BufferMut;
use arc_buffer::kinds::{AnyItems, Slice, Text};
use arc_owners::mark::Mark;
use arc_writer_parts::role::RoleOf;
use std::alloc::Allocator;
use std::convert::{AsSlice, AsStr};
use std::iter::IntoIterator;
use std::ops::{DerefSlice, DerefSliceMut};
use std::slice::Iter;

impl<
    S: Slice,
    L: LayoutMut,
    R: RoleOf<S, B, M, A, H>,
    B: BufferMut<S::Item> + Drop,
    M: Drop,
    A: Allocator + Copy,
    H: Mark,
> AsSlice<S::Item> for WriteWindow<S, L, R, B, M, A, H> {
    ghost items = { λ w. w.items };

    fn as_slice(&self) -> &[S::Item] {
        self.as_slice()
    }
}

impl<
    L: LayoutMut,
    R: RoleOf<Text, B, M, A, H>,
    B: BufferMut<u8> + Drop,
    M: Drop,
    A: Allocator + Copy,
    H: Mark,
> AsStr for WriteWindow<Text, L, R, B, M, A, H> {
    ghost text = { λ w. w.items };

    fn as_str(&self) -> &str {
        self.as_str()
    }
}

impl<
    S: Slice,
    L: LayoutMut,
    R: RoleOf<S, B, M, A, H>,
    B: BufferMut<S::Item> + Drop,
    M: Drop,
    A: Allocator + Copy,
    H: Mark,
> DerefSlice for WriteWindow<S, L, R, B, M, A, H> {
    type Elem = S::Item;

    ghost deref_gives = { λ w xs. xs ≡ w.items };

    fn deref(&self) -> &[S::Item] {
        self.as_slice()
    }
}

impl<
    S: AnyItems,
    L: LayoutMut,
    R: RoleOf<S, B, M, A, H>,
    B: BufferMut<S::Item> + Drop,
    M: Drop,
    A: Allocator + Copy,
    H: Mark,
> DerefSliceMut for WriteWindow<S, L, R, B, M, A, H> {
    ghost use Rattle.arc_write.specs.Lends.{lends_items};

    fn deref_mut(&mut self) -> &mut [S::Item]
        ensures* writes_back { sem 𝓛 (lends_items S.row L.row R.row B.row M.row A.row H.row
            S.Item.row S.TryFromSliceError.row R.Parts.row S.Slice L.Layout R.Parts.WriterParts
            B.BufferMut.own B.Buffer A.Allocator H.Mark self.entry result) }
        ensures value { result.now ≡ self.old.items }
    {
        self.as_mut_slice()
    }
}

impl<
    'a,
    T: Drop + 'a,
    S: Slice<Item = T>,
    L: LayoutMut,
    R: RoleOf<S, B, M, A, H>,
    B: BufferMut<T> + Drop,
    M: Drop,
    A: Allocator + Copy,
    H: Mark,
> IntoIterator for &'a WriteWindow<S, L, R, B, M, A, H> {
    type Item = &'a T;

    type IntoIter = Iter<'a, T>;

    ghost into_iter_gives = { λ w r. (iter_rest r ≡ w.now.items) × (length (iter_rest r) < 2 ^ 64)
        × EveryRun (iter_steps {A = T}) (λ p. ItemsMapTo p (λ y. y.now) (iter_rest p.from)) };

    fn into_iter(self) -> Iter<'a, T> {
        self.as_slice().iter()
    }
}
