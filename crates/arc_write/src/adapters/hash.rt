//! Hashes of write windows, which are those of their lists: equal windows have equal ones.
ghost use Rattle.std.specs.Hash as fed;
ghost use Rattle.std.specs.Hash.{items_Alike, on_Alike};

use crate::slice_mut::WriteWindow;
use arc_block::layout::LayoutMut;
use arc_buffer::buffer::BufferMut;
use arc_buffer::kinds::Slice;
use arc_owners::mark::Mark;
use arc_writer_parts::role::RoleOf;
use std::alloc::Allocator;
use std::hash::{Hash, Hasher};

impl<
    S: Slice,
    L: LayoutMut,
    R: RoleOf<S, B, M, A, H>,
    B: BufferMut<S::Item> + Drop,
    M: Drop,
    A: Allocator + Copy,
    H: Mark,
> Hash for WriteWindow<S, L, R, B, M, A, H>
where
    S::Item: Hash,
{
    ghost hash_input = { λ w. fed.slice S.Item.hash_input w.items };

    ghost respects_eq = { (on_Alike (λ w. w.items)
        (items_Alike (record { fed = S.Item.respects_eq }))).fed };

    fn hash<F: Hasher>(&self, state: &mut F) {
        self.as_slice().hash(state);
    }
}
