//! `{:?}` of write windows: that of their kind's lists.
use crate::slice_mut::WriteWindow;
use arc_block::layout::LayoutMut;
use arc_buffer::buffer::BufferMut;
use arc_buffer::kinds::DebugSlice;
use arc_owners::mark::Mark;
use arc_writer_parts::role::{RoleOf, WriterParts};
use std::alloc::Allocator;
use std::fmt;

impl<
    S: DebugSlice,
    L: LayoutMut,
    R: RoleOf<S, B, M, A, H>,
    B: BufferMut<S::Item> + Drop,
    M: Drop,
    A: Allocator + Copy,
    H: Mark,
> fmt::Debug for WriteWindow<S, L, R, B, M, A, H> {
    ghost debug_output = { λ w. S.debug_items w.items };

    fn fmt<W: fmt::Write>(&self, f: &mut fmt::Formatter<W>) -> fmt::Result {
        S::fmt_items(self.parts.as_slice(), f)
    }
}
