//! Views of a write window, and the test of where it may be cut or split.
ghost use Rattle.std.specs.Prelude.{◌==◌, ◌↔◌, ◌≡◌, ◌≤◌, IsOk, length};
ghost use Rattle.arc_buffer.specs.Slice.{edge_answer, IsEdge};
ghost use Rattle.arc_parts.specs.Shared.{CanSplit, split_answer};
ghost use Rattle.arc_parts.specs.Writers.{capacity_of};
ghost use Rattle.arc_write.specs.Within.{spare_places};

use crate::slice_mut::WriteWindow;
use arc_block::layout::LayoutMut;
use arc_buffer::buffer::BufferMut;
use arc_buffer::kinds::{Slice, Subsliceable};
use arc_owners::error::RangeError;
use arc_owners::mark::Mark;
use arc_read::range;
use arc_writer_parts::role::{RoleOf, WriterParts};
use std::alloc::Allocator;

impl<
    S: Slice,
    L: LayoutMut,
    R: RoleOf<S, B, M, A, H>,
    B: BufferMut<S::Item> + Drop,
    M: Drop,
    A: Allocator + Copy,
    H: Mark,
> WriteWindow<S, L, R, B, M, A, H> {
    /// How many items the window has.
    #[inline(always)]
    pub fn len(&self) -> usize
        ensures { result ≡ length self.now.items }
    {
        self.parts.len()
    }

    /// Whether the window has no items.
    #[inline(always)]
    pub fn is_empty(&self) -> bool
        ensures { result ≡ (length self.now.items == 0) }
    {
        self.len() == 0
    }

    /// The items.
    #[inline(always)]
    pub fn as_slice(&self) -> &[S::Item]
        ensures { result.now ≡ self.now.items }
    {
        self.parts.as_slice()
    }

    /// How many places the window has, from its first item on.
    #[inline(always)]
    pub fn capacity(&self) -> usize
        ensures capacity { result ≡ capacity_of self.now.role }
        ensures enough { length self.now.items ≤ result }
    {
        self.parts.capacity()
    }

    /// How many items more the window has places for.
    #[inline(always)]
    pub(crate) fn spare(&self) -> usize
        ensures value { result ≡ spare_places self.now }
        ensures enough { length self.now.items ≤ capacity_of self.now.role }
    {
        self.capacity() - self.len()
    }

    /// Whether the window may be split at `at`, which may lie among its places behind the items.
    ///
    /// # Errors
    ///
    /// `OutOfRange` where that is past the capacity, else `NotBoundary` where it lies among the
    /// items and the kind may not be cut there.
    pub fn check_split_off(&self, at: usize) -> Result<(), RangeError>
    where
        S: Subsliceable,
        ensures answer { result ≡ split_answer S.boundary self.now.items
            (capacity_of self.now.role) at }
        ensures ok { IsOk result
            ↔ CanSplit S.boundary self.now.items (capacity_of self.now.role) at }
    {
        check_split::<S>(self.as_slice(), self.capacity(), at)
    }

    /// Whether the window may be cut at `at`.
    ///
    /// # Errors
    ///
    /// `OutOfRange` where that is past the length, else `NotBoundary` where the kind may not be cut
    /// there.
    pub fn check_at(&self, at: usize) -> Result<(), RangeError>
    where
        S: Subsliceable,
        ensures answer { result ≡ edge_answer S.boundary self.now.items at }
        ensures ok { IsOk result ↔ IsEdge S.boundary self.now.items at }
    {
        range::check_at::<S>(self.as_slice(), at)
    }
}

/// Whether a list with so many places may be split at `at`, which may lie among its places behind
/// the items.
///
/// # Errors
///
/// `OutOfRange` where that is past the places, else `NotBoundary` where it lies among the items and
/// the kind may not be cut there.
#[inline]
fn check_split<S: Subsliceable>(
    items: &[S::Item],
    capacity: usize,
    at: usize,
) -> Result<(), RangeError>
    ensures answer { result ≡ split_answer S.boundary items.now capacity at }
    ensures ok { IsOk result ↔ CanSplit S.boundary items.now capacity at }
{
    if at > capacity {
        return Err(RangeError::OutOfRange);
    }
    if at < items.len() {
        return range::check_at::<S>(items, at);
    }
    Ok(())
}
