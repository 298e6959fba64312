//! Views of a read window, and tests of where it may be cut.
ghost use Rattle.std.specs.Prelude.{◌≡◌, ◌==◌, ◌↔◌, length, IsOk};
ghost use Rattle.arc_buffer.specs.Slice.{IsEdge, IsRange, edge_answer, range_answer};

use super::ArcSlice;
use crate::range;
use arc_block::layout::Layout;
use arc_buffer::buffer::Buffer;
use arc_buffer::kinds::{Slice, Subsliceable};
use arc_owners::error::RangeError;
use arc_owners::mark::Mark;
use std::alloc::Allocator;

impl<
    S: Slice,
    L: Layout,
    B: Buffer<S::Item> + Drop,
    M: Drop,
    A: Allocator + Copy,
    H: Mark,
> ArcSlice<S, L, B, M, A, H> {
    /// How many items the window has.
    #[inline(always)]
    pub fn len(&self) -> usize
        ensures { result ≡ length self.now.items }
    {
        self.parts.len()
    }

    /// Whether the window has no items.
    #[inline(always)]
    pub fn is_empty(&self) -> bool
        ensures { result ≡ (length self.now.items == 0) }
    {
        self.len() == 0
    }

    /// The items.
    #[inline(always)]
    pub fn as_slice(&self) -> &[S::Item]
        ensures { result.now ≡ self.now.items }
    {
        self.parts.as_slice::<L>()
    }

    /// The items, which are a legal list of the kind.
    pub(crate) fn as_legal_slice(&self) -> &[S::Item]
        ensures items { result.now ≡ self.now.items }
        ensures legal { ∥ S.is_legal result.now ∥₁ }
    {
        self.parts.as_slice::<L>()
    }

    /// Whether `start` to `end` is a range of the window.
    ///
    /// # Errors
    ///
    /// `OutOfRange` where the end is past the length, else `InvalidRange` where the start is past
    /// the end, else `NotBoundary` where the kind may not be cut at one of them.
    pub fn check_range(&self, start: usize, end: usize) -> Result<(), RangeError>
    where
        S: Subsliceable,
        ensures answer { result ≡ range_answer S.boundary self.now.items start end }
        ensures ok { IsOk result ↔ IsRange S.boundary self.now.items start end }
    {
        range::check_range::<S>(self.as_slice(), start, end)
    }

    /// Whether the window may be cut at `at`.
    ///
    /// # Errors
    ///
    /// `OutOfRange` where that is past the length, else `NotBoundary` where the kind may not be cut
    /// there.
    pub fn check_at(&self, at: usize) -> Result<(), RangeError>
    where
        S: Subsliceable,
        ensures answer { result ≡ edge_answer S.boundary self.now.items at }
        ensures ok { IsOk result ↔ IsEdge S.boundary self.now.items at }
    {
        range::check_at::<S>(self.as_slice(), at)
    }
}
