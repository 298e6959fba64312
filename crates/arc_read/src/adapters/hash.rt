//! Hashes of read windows, which are those of their lists: equal windows have equal ones.
ghost use Rattle.std.specs.Hash as fed;
ghost use Rattle.std.specs.Hash.{items_Alike, on_Alike};

use crate::slice::ArcSlice;
use arc_block::layout::Layout;
use arc_buffer::buffer::Buffer;
use arc_buffer::kinds::Slice;
use arc_owners::mark::Mark;
use std::alloc::Allocator;
use std::hash::{Hash, Hasher};

impl<S: Slice, L: Layout, B: Buffer<S::Item> + Drop, M: Drop, A: Allocator + Copy, H: Mark> Hash
    for ArcSlice<S, L, B, M, A, H>
where
    S::Item: Hash,
{
    ghost hash_input = { λ w. fed.slice S.Item.hash_input w.items };

    ghost respects_eq = { (on_Alike (λ w. w.items)
        (items_Alike (record { fed = S.Item.respects_eq }))).fed };

    fn hash<F: Hasher>(&self, state: &mut F) {
        self.as_slice().hash(state);
    }
}
