//! Equality and order of read windows, which are those of their lists.
ghost use Rattle.std.specs.Prelude.{◌≡◌, nat_eq};
ghost use Rattle.std.specs.Cmp.{on_equiv, on_per, on_po, on_total};
ghost use Rattle.std.specs.Cmp.Lexicographic.{pointwise, slice_cmp, slice_partial_cmp};
ghost use Rattle.std.specs.Cmp.Lexicographic.{lists_agrees, lists_equiv, lists_per, lists_po};
ghost use Rattle.std.specs.Cmp.Lexicographic.{lists_ties, lists_total};

use crate::slice::ArcSlice;
use arc_block::layout::Layout;
use arc_buffer::buffer::Buffer;
use arc_buffer::compare::{equal, order, partial_order};
use arc_buffer::kinds::{Slice, Text};
use arc_owners::mark::Mark;
use std::alloc::Allocator;
use std::cmp::Ordering;

impl<
    S: Slice,
    L: Layout,
    B: Buffer<S::Item> + Drop,
    M: Drop,
    A: Allocator + Copy,
    H: Mark,
> PartialEq for ArcSlice<S, L, B, M, A, H>
where
    S::Item: PartialEq,
{
    ghost eq = { λ x y. pointwise S.Item.eq x.items y.items };

    ghost laws = { on_per (λ x. x.items) (lists_per S.Item.PartialEq.laws) };

    fn eq(&self, other: &Self) -> bool {
        equal(self.as_slice(), other.as_slice())
    }
}

impl<S: Slice, L: Layout, B: Buffer<S::Item> + Drop, M: Drop, A: Allocator + Copy, H: Mark> Eq
    for ArcSlice<S, L, B, M, A, H>
where
    S::Item: Eq,
{
    ghost laws = { on_equiv (λ x. x.items) (lists_equiv S.Item.Eq.laws) };
}

impl<
    S: Slice,
    L: Layout,
    B: Buffer<S::Item> + Drop,
    M: Drop,
    A: Allocator + Copy,
    H: Mark,
> PartialOrd for ArcSlice<S, L, B, M, A, H>
where
    S::Item: PartialOrd,
{
    ghost partial_cmp = { λ x y. slice_partial_cmp S.Item.partial_cmp x.items y.items };

    ghost laws = { on_po (λ x. x.items) (lists_po S.Item.PartialOrd.laws) };

    fn partial_cmp(&self, other: &Self) -> Option<Ordering> {
        partial_order(self.as_slice(), other.as_slice())
    }
}

impl<S: Slice, L: Layout, B: Buffer<S::Item> + Drop, M: Drop, A: Allocator + Copy, H: Mark> Ord
    for ArcSlice<S, L, B, M, A, H>
where
    S::Item: Ord,
{
    ghost cmp = { λ x y. slice_cmp S.Item.cmp x.items y.items };

    ghost total = { on_total (λ x. x.items) (lists_total S.Item.total) };

    ghost matches_partial_cmp = { λ x y. lists_agrees S.Item.matches_partial_cmp x.items y.items };

    ghost matches_eq = { λ x y. lists_ties S.Item.cmp S.Item.matches_eq x.items y.items };

    fn cmp(&self, other: &Self) -> Ordering {
        order(self.as_slice(), other.as_slice())
    }
}

impl<
    S: Slice,
    L: Layout,
    B: Buffer<S::Item> + Drop,
    M: Drop,
    A: Allocator + Copy,
    H: Mark,
> ArcSlice<S, L, B, M, A, H> {
    /// Whether the window's items equal those of `other`.
    pub fn eq_slice(&self, other: &[S::Item]) -> bool
    where
        S::Item: PartialEq,
        ensures { result ≡ pointwise S.Item.eq self.now.items other.now }
    {
        equal(self.as_slice(), other)
    }
}

impl<L: Layout, B: Buffer<u8> + Drop, M: Drop, A: Allocator + Copy, H: Mark> ArcSlice<
    Text,
    L,
    B,
    M,
    A,
    H,
> {
    /// Whether the window's text equals `other`.
    pub fn eq_str(&self, other: &str) -> bool
        ensures { result ≡ pointwise nat_eq self.now.items other.now }
    {
        equal(self.as_slice(), other.as_bytes())
    }
}
