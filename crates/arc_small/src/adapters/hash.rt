//! Hashes of small windows, which are those of their lists: equal windows have equal ones.
ghost use Rattle.std.specs.Hash as fed;
ghost use Rattle.std.specs.Hash.{items_Alike, on_Alike, same_Alike};
ghost use Rattle.std.proofs.lemmas.Bool.Decides.{Decides-eqb};

use super::super::{SmallArcSlice, SmallSlice};
use arc_block::layout::Layout;
use arc_buffer::buffer::Buffer;
use arc_buffer::kinds::Slice;
use arc_owners::mark::Mark;
use std::alloc::Allocator;
use std::hash::{Hash, Hasher};

impl<S: Slice<Item = u8>, L: Layout> Hash for SmallSlice<S, L> {
    ghost hash_input = { λ w. fed.slice fed.u8 w.items };

    ghost respects_eq = { (on_Alike (λ w. w.items)
        (items_Alike (same_Alike fed.u8 Decides-eqb))).fed };

    fn hash<F: Hasher>(&self, state: &mut F) {
        self.as_slice().hash(state);
    }
}

impl<
    S: Slice<Item = u8>,
    L: Layout,
    B: Buffer<u8> + Drop,
    M: Drop,
    A: Allocator + Copy,
    H: Mark,
> Hash for SmallArcSlice<S, L, B, M, A, H> {
    ghost hash_input = { λ w. fed.slice fed.u8 w.items };

    ghost respects_eq = { (on_Alike (λ w. w.items)
        (items_Alike (same_Alike fed.u8 Decides-eqb))).fed };

    fn hash<F: Hasher>(&self, state: &mut F) {
        self.as_slice().hash(state);
    }
}
