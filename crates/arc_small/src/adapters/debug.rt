//! `{:?}` of small windows: that of their kind's lists.
use super::super::{SmallArcSlice, SmallSlice};
use arc_block::layout::Layout;
use arc_buffer::buffer::Buffer;
use arc_buffer::kinds::DebugSlice;
use arc_owners::mark::Mark;
use either::{Left, Right};
use std::alloc::Allocator;
use std::fmt;

impl<S: DebugSlice<Item = u8>, L: Layout> fmt::Debug for SmallSlice<S, L> {
    ghost debug_output = { λ w. S.debug_items w.items };

    fn fmt<W: fmt::Write>(&self, f: &mut fmt::Formatter<W>) -> fmt::Result {
        S::fmt_items(self.as_legal_slice(), f)
    }
}

impl<
    S: DebugSlice<Item = u8>,
    L: Layout,
    B: Buffer<u8> + Drop,
    M: Drop,
    A: Allocator + Copy,
    H: Mark,
> fmt::Debug for SmallArcSlice<S, L, B, M, A, H> {
    ghost debug_output = { λ w. S.debug_items w.items };

    fn fmt<W: fmt::Write>(&self, f: &mut fmt::Formatter<W>) -> fmt::Result {
        match self.as_either() {
            Left(small) => fmt::Debug::fmt(small, f),
            Right(window) => fmt::Debug::fmt(window, f),
        }
    }
}
