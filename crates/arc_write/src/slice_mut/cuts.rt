//! Cuts of a write window.
ghost use Rattle.std.specs.Prelude.{◌<◌, ◌≡◌, length};
ghost use Rattle.arc_buffer.specs.Slice.{IsEdge};
ghost use Rattle.arc_parts.specs.Writers.{after_advance, after_truncate};

use crate::slice_mut::WriteWindow;
use arc_block::layout::LayoutMut;
use arc_buffer::buffer::BufferMut;
use arc_buffer::kinds::{Slice, Subsliceable};
use arc_owners::mark::Mark;
use arc_writer_parts::role::{RoleOf, WriterParts};
use std::alloc::Allocator;

impl<
    S: Slice,
    L: LayoutMut,
    R: RoleOf<S, B, M, A, H>,
    B: BufferMut<S::Item> + Drop,
    M: Drop,
    A: Allocator + Copy,
    H: Mark,
> WriteWindow<S, L, R, B, M, A, H> {
    /// Takes the first `n` items and their places off the window. It stays on its block, also
    /// without items. It adds no entry.
    pub fn advance(&mut self, n: usize)
    where
        S: Subsliceable,
        requires { IsEdge S.boundary self.old.items n }
        ensures { self.new ≡ after_advance n self.old }
    {
        self.parts.advance(n);
    }

    /// Keeps the window's first `n` items, or all where it has no more. It stays on its block, also
    /// without items. It adds no entry.
    ///
    /// The places of items that aren't dropped one by one stay the window's. Items that are dropped
    /// one by one stay in the block until its release, and the window then has no places but those
    /// of its items.
    pub fn truncate(&mut self, n: usize)
    where
        S: Subsliceable,
        requires { n < length self.old.items → IsEdge S.boundary self.old.items n }
        ensures { self.new ≡ after_truncate S.DROPS n self.old }
    {
        self.parts.truncate(n);
    }
}
