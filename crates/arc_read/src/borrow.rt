//! `ArcSliceBorrow`, a part of a read window that is borrowed.
ghost use Rattle.std.specs.Prelude.{◌≡◌, ◌≤◌, IsTrue, length};

use crate::slice::ArcSlice;
use arc_block::layout::{DefaultLayout, Layout};
use arc_buffer::buffer::Buffer;
use arc_buffer::kinds::{Slice, Subsliceable};
use arc_owners::mark::{Mark, Open};
use std::alloc::{AllocError, Allocator, Global};

mod part;

/// A part of a read window, borrowed: it is no owner of the window's block, and is copied freely.
/// `try_clone_arc` makes a window of it.
pub struct ArcSliceBorrow<
    'a,
    S: Subsliceable,
    L: Layout = DefaultLayout,
    B: Buffer<<S as Slice>::Item> + Drop = Vec<<S as Slice>::Item>,
    M: Drop = (),
    A: Allocator + Copy = Global,
    H: Mark = Open,
> {
    window: &'a ArcSlice<S, L, B, M, A, H>,
    start: usize,
    end: usize,
    ghost ordered: { start ≤ end },
    ghost within: { end ≤ length window.now.items },
    ghost from: { IsTrue (S.boundary window.now.items start) },
    ghost to: { IsTrue (S.boundary window.now.items end) },
}

impl<
    'a,
    S: Subsliceable,
    L: Layout,
    B: Buffer<S::Item> + Drop,
    M: Drop,
    A: Allocator + Copy,
    H: Mark,
> Clone for ArcSliceBorrow<'a, S, L, B, M, A, H> {
    ghost is_clone = { λ x y. y ≡ x };

    ghost is_infallible = { λ _. Unit {0} };

    #[inline(always)]
    fn clone(&self) -> Result<Self, AllocError> {
        Ok(*self)
    }
}

impl<
    'a,
    S: Subsliceable,
    L: Layout,
    B: Buffer<S::Item> + Drop,
    M: Drop,
    A: Allocator + Copy,
    H: Mark,
> Copy for ArcSliceBorrow<'a, S, L, B, M, A, H> {}
