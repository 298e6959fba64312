//! Equality and order of small windows, which are those of their lists.
ghost use Rattle.std.specs.Prelude.{◌≡◌, nat_eq, refl, Some};
ghost use Rattle.std.specs.Ordering.{nat_cmp};
ghost use Rattle.std.specs.Cmp.{on_equiv, on_per, on_po, on_total, partial_equiv_from_equiv};
ghost use Rattle.std.specs.Cmp.Lexicographic.{pointwise, slice_cmp, nat_list_cmp_total};
ghost use Rattle.std.specs.Cmp.Lexicographic.{nat_list_eq_equiv, texts_po, texts_ties};

use super::super::{SmallArcSlice, SmallSlice};
use arc_block::layout::Layout;
use arc_buffer::buffer::Buffer;
use arc_buffer::compare::{equal, order};
use arc_buffer::kinds::{Slice, Text};
use arc_owners::mark::Mark;
use std::alloc::Allocator;
use std::cmp::Ordering;

impl<S: Slice<Item = u8>, L: Layout> PartialEq for SmallSlice<S, L> {
    ghost eq = { λ x y. pointwise nat_eq x.items y.items };

    ghost laws = { on_per (λ x. x.items) (partial_equiv_from_equiv nat_list_eq_equiv) };

    fn eq(&self, other: &Self) -> bool {
        equal(self.as_slice(), other.as_slice())
    }
}

impl<S: Slice<Item = u8>, L: Layout> Eq for SmallSlice<S, L> {
    ghost laws = { on_equiv (λ x. x.items) nat_list_eq_equiv };
}

impl<S: Slice<Item = u8>, L: Layout> PartialOrd for SmallSlice<S, L> {
    ghost partial_cmp = { λ x y. Some (slice_cmp nat_cmp x.items y.items) };

    ghost laws = { on_po (λ x. x.items) texts_po };

    fn partial_cmp(&self, other: &Self) -> Option<Ordering> {
        Some(self.cmp(other))
    }
}

impl<S: Slice<Item = u8>, L: Layout> Ord for SmallSlice<S, L> {
    ghost cmp = { λ x y. slice_cmp nat_cmp x.items y.items };

    ghost total = { on_total (λ x. x.items) nat_list_cmp_total };

    ghost matches_partial_cmp = { λ x y. refl };

    ghost matches_eq = { λ x y. texts_ties x.items y.items };

    fn cmp(&self, other: &Self) -> Ordering {
        order(self.as_slice(), other.as_slice())
    }
}

impl<S: Slice<Item = u8>, L: Layout> SmallSlice<S, L> {
    /// Whether the bytes equal those of `other`.
    pub fn eq_slice(&self, other: &[u8]) -> bool
        ensures { result ≡ pointwise nat_eq self.now.items other.now }
    {
        equal(self.as_slice(), other)
    }
}

impl<
    S: Slice<Item = u8>,
    L: Layout,
    B: Buffer<u8> + Drop,
    M: Drop,
    A: Allocator + Copy,
    H: Mark,
> PartialEq for SmallArcSlice<S, L, B, M, A, H> {
    ghost eq = { λ x y. pointwise nat_eq x.items y.items };

    ghost laws = { on_per (λ x. x.items) (partial_equiv_from_equiv nat_list_eq_equiv) };

    fn eq(&self, other: &Self) -> bool {
        equal(self.as_slice(), other.as_slice())
    }
}

impl<S: Slice<Item = u8>, L: Layout, B: Buffer<u8> + Drop, M: Drop, A: Allocator + Copy, H: Mark> Eq
    for SmallArcSlice<S, L, B, M, A, H> {
    ghost laws = { on_equiv (λ x. x.items) nat_list_eq_equiv };
}

impl<
    S: Slice<Item = u8>,
    L: Layout,
    B: Buffer<u8> + Drop,
    M: Drop,
    A: Allocator + Copy,
    H: Mark,
> PartialOrd for SmallArcSlice<S, L, B, M, A, H> {
    ghost partial_cmp = { λ x y. Some (slice_cmp nat_cmp x.items y.items) };

    ghost laws = { on_po (λ x. x.items) texts_po };

    fn partial_cmp(&self, other: &Self) -> Option<Ordering> {
        Some(self.cmp(other))
    }
}

impl<
    S: Slice<Item = u8>,
    L: Layout,
    B: Buffer<u8> + Drop,
    M: Drop,
    A: Allocator + Copy,
    H: Mark,
> Ord for SmallArcSlice<S, L, B, M, A, H> {
    ghost cmp = { λ x y. slice_cmp nat_cmp x.items y.items };

    ghost total = { on_total (λ x. x.items) nat_list_cmp_total };

    ghost matches_partial_cmp = { λ x y. refl };

    ghost matches_eq = { λ x y. texts_ties x.items y.items };

    fn cmp(&self, other: &Self) -> Ordering {
        order(self.as_slice(), other.as_slice())
    }
}

impl<
    S: Slice<Item = u8>,
    L: Layout,
    B: Buffer<u8> + Drop,
    M: Drop,
    A: Allocator + Copy,
    H: Mark,
> SmallArcSlice<S, L, B, M, A, H> {
    /// Whether the bytes equal those of `other`.
    pub fn eq_slice(&self, other: &[u8]) -> bool
        ensures { result ≡ pointwise nat_eq self.now.items other.now }
    {
        equal(self.as_slice(), other)
    }
}

impl<L: Layout> SmallSlice<Text, L> {
    /// Whether the text equals `other`.
    pub fn eq_str(&self, other: &str) -> bool
        ensures { result ≡ pointwise nat_eq self.now.items other.now }
    {
        equal(self.as_slice(), other.as_bytes())
    }
}

impl<L: Layout, B: Buffer<u8> + Drop, M: Drop, A: Allocator + Copy, H: Mark> SmallArcSlice<
    Text,
    L,
    B,
    M,
    A,
    H,
> {
    /// Whether the text equals `other`.
    pub fn eq_str(&self, other: &str) -> bool
        ensures { result ≡ pointwise nat_eq self.now.items other.now }
    {
        equal(self.as_slice(), other.as_bytes())
    }
}
