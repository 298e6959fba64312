//! A sole writer's parts over a vector: made of one, and taken back as one.
ghost use Rattle.arc_owners.specs.history.Histories.{Counted};
ghost use Rattle.std.specs.Prelude.{◌≡◌, ◌≤◌, IfOk, IfErr};
ghost use Rattle.std.specs.Vec.{vec_capacity};
ghost use Rattle.arc_owners.specs.count.Calls.{IsPassOfNone};
ghost use Rattle.arc_block.specs.Block.{vector};
ghost use Rattle.arc_parts.specs.Writers.{MakesWriterOver};

use super::SoleParts;
use arc_buffer::buffer::BufferMut;
use arc_buffer::kinds::Slice;
use arc_owners::mark::Mark;
use arc_owners::owners::Pass;
use arc_sort_writers::vector::SoleVector;
use std::alloc::Allocator;

impl<S: Slice, B: BufferMut<S::Item> + Drop, M: Drop, A: Allocator + Copy, H: Mark> SoleParts<
    S,
    B,
    M,
    A,
    H,
> {
    /// All items of a vector with its places, on a block that is the vector: no item is copied. A
    /// vector without places stands on nothing. The pass, which is of no block, becomes the
    /// block's.
    ///
    /// # Errors
    ///
    /// The vector comes back where memory for the count is refused; the pass is then as before.
    ///
    /// # Allocates
    ///
    /// Once, except for a vector without places.
    pub fn try_from_vec_as(
        alloc: A,
        items: Vec<S::Item, A>,
        pass: &mut Pass<H>,
    ) -> Result<Self, Vec<S::Item, A>>
        requires pass { IsPassOfNone pass.old }
        ensures made { IfOk result (λ parts.
            MakesWriterOver Counted vector S.DROPS H.whole items.items (vec_capacity items) parts
            pass.old pass.new) }
        ensures refused { IfErr result (λ back. (back ≡ items) × (1 ≤ vec_capacity items)
            × (pass.new ≡ pass.old)) }
    {
        if items.capacity() == 0 {
            drop(items);
            return Ok(Self::on_nothing(alloc));
        }
        match SoleVector::try_from_vec_as(alloc, items, pass) {
            Ok(parts) => Ok(Self::in_vector(parts)),
            Err(back) => Err(back),
        }
    }
}
