//! Views of a small window, and tests of where it may be cut.
ghost use Rattle.std.specs.Prelude.{◌≡◌, ◌==◌, ◌↔◌, length, IsOk};
ghost use Rattle.arc_small.specs.Small.{IsSmall};
ghost use Rattle.arc_buffer.specs.Slice.{IsEdge, IsRange, edge_answer, range_answer};

use super::SmallArcSlice;
use arc_block::layout::Layout;
use arc_buffer::buffer::Buffer;
use arc_buffer::kinds::{Slice, Subsliceable};
use arc_owners::error::RangeError;
use arc_owners::mark::Mark;
use either::{Left, Right};
use std::alloc::Allocator;

impl<
    S: Slice<Item = u8>,
    L: Layout,
    B: Buffer<u8> + Drop,
    M: Drop,
    A: Allocator + Copy,
    H: Mark,
> SmallArcSlice<S, L, B, M, A, H> {
    /// How many bytes the window has.
    #[inline(always)]
    pub fn len(&self) -> usize
        ensures answer { result ≡ length self.now.items }
        ensures row { IsSmall self.now }
    {
        match &self.either {
            Left(small) => small.len(),
            Right(window) => window.len(),
        }
    }

    /// Whether the window has no bytes.
    #[inline(always)]
    pub fn is_empty(&self) -> bool
        ensures { result ≡ (length self.now.items == 0) }
    {
        self.len() == 0
    }

    /// The bytes.
    #[inline(always)]
    pub fn as_slice(&self) -> &[u8]
        ensures { result.now ≡ self.now.items }
    {
        match &self.either {
            Left(small) => small.as_slice(),
            Right(window) => window.as_slice(),
        }
    }

    /// Whether `start` to `end` is a range of the window.
    ///
    /// # Errors
    ///
    /// `OutOfRange` where the end is past the length, else `InvalidRange` where the start is past
    /// the end, else `NotBoundary` where the kind may not be cut at one of them.
    pub fn check_range(&self, start: usize, end: usize) -> Result<(), RangeError>
    where
        S: Subsliceable,
        ensures answer { result ≡ range_answer S.boundary self.now.items start end }
        ensures ok { IsOk result ↔ IsRange S.boundary self.now.items start end }
    {
        match &self.either {
            Left(small) => small.check_range(start, end),
            Right(window) => window.check_range(start, end),
        }
    }

    /// Whether the window may be cut at `at`.
    ///
    /// # Errors
    ///
    /// `OutOfRange` where that is past the length, else `NotBoundary` where the kind may not be cut
    /// there.
    pub fn check_at(&self, at: usize) -> Result<(), RangeError>
    where
        S: Subsliceable,
        ensures answer { result ≡ edge_answer S.boundary self.now.items at }
        ensures ok { IsOk result ↔ IsEdge S.boundary self.now.items at }
    {
        match &self.either {
            Left(small) => small.check_at(at),
            Right(window) => window.check_at(at),
        }
    }
}
