//! `{:?}` of read windows, and of parts that are borrowed: that of their kind's lists.
ghost use Rattle.arc_read.specs.Borrow.{borrowed_part};

use crate::borrow::ArcSliceBorrow;
use crate::slice::ArcSlice;
use arc_block::layout::Layout;
use arc_buffer::buffer::Buffer;
use arc_buffer::kinds::{DebugSlice, Subsliceable};
use arc_owners::mark::Mark;
use std::alloc::Allocator;
use std::fmt;

impl<
    S: DebugSlice,
    L: Layout,
    B: Buffer<S::Item> + Drop,
    M: Drop,
    A: Allocator + Copy,
    H: Mark,
> fmt::Debug for ArcSlice<S, L, B, M, A, H> {
    ghost debug_output = { λ w. S.debug_items w.items };

    fn fmt<W: fmt::Write>(&self, f: &mut fmt::Formatter<W>) -> fmt::Result {
        S::fmt_items(self.as_legal_slice(), f)
    }
}

impl<
    'a,
    S: DebugSlice + Subsliceable,
    L: Layout,
    B: Buffer<S::Item> + Drop,
    M: Drop,
    A: Allocator + Copy,
    H: Mark,
> fmt::Debug for ArcSliceBorrow<'a, S, L, B, M, A, H> {
    ghost debug_output = { λ b. S.debug_items (borrowed_part b).items };

    fn fmt<W: fmt::Write>(&self, f: &mut fmt::Formatter<W>) -> fmt::Result {
        S::fmt_items(self.as_legal_slice(), f)
    }
}
