//! Write windows that take a vector over.
ghost use Rattle.std.specs.Prelude.{◌≡◌, ◌≤◌, IfErr, IfOk};
ghost use Rattle.std.specs.Vec.{vec_capacity};
ghost use Rattle.std.specs.declared.vec.Vec.{Vec};
ghost use Rattle.arc_owners.specs.count.Calls.{IsPassOfNone};
ghost use Rattle.arc_block.specs.Place.{nowhere};
ghost use Rattle.arc_parts.specs.Writers.{MakesVecWriter};
ghost use Rattle.arc_read.specs.Steps.{WithNewPass};

use crate::slice_mut::ArcSliceMut;
use arc_block::layout::{AnyBufferLayout, LayoutMut};
use arc_buffer::buffer::BufferMut;
use arc_buffer::kinds::{Slice, VecIn, Wraps};
use arc_owners::mark::{Mark, Stepping};
use arc_owners::owners::Pass;
use arc_writer_parts::sole::SoleParts;
use std::alloc::Allocator;

impl<
    S: Slice,
    L: LayoutMut,
    B: BufferMut<S::Item> + Drop,
    M: Drop,
    A: Allocator + Copy,
    H: Mark,
> ArcSliceMut<S, L, 1, B, M, A, H> {
    /// A window over all items of a vector, which are legal.
    #[tactic(auto, using(crate::proofs::Held::vector_held))]
    fn try_from_legal_vec_as(
        alloc: A,
        items: Vec<S::Item, A>,
        pass: &mut Pass<H>,
    ) -> Result<Self, Vec<S::Item, A>>
    where
        L: AnyBufferLayout,
        requires legal { S.is_legal items.items }
        requires pass { IsPassOfNone pass.old }
        ensures made { IfOk result (λ window. MakesVecWriter L.lone S.DROPS H.whole items.items
            (vec_capacity items) window pass.old pass.new) }
        ensures refused { IfErr result (λ back. (back ≡ items) × (1 ≤ vec_capacity items)
            × (pass.new ≡ pass.old)) }
    {
        match SoleParts::try_from_vec_as(alloc, items, pass) {
            Ok(parts) => Ok(Self::from_parts(parts)),
            Err(back) => Err(back),
        }
    }

    /// A window over all items of a vector, on a block that is the vector, with its places: no item
    /// is copied. Without places it stands on nothing. The pass, which is of no block, becomes the
    /// block's; the window is owner 0.
    ///
    /// # Errors
    ///
    /// The vector comes back where memory for the count is refused; the pass is then as before.
    ///
    /// # Allocates
    ///
    /// Once, for the count, unless the vector has no places.
    pub fn try_from_vec_as(alloc: A, items: S::Vec, pass: &mut Pass<H>) -> Result<Self, S::Vec>
    where
        L: AnyBufferLayout,
        S: VecIn<A>,
        requires pass { IsPassOfNone pass.old }
        ensures made { IfOk result (λ window. (inner : Vec S.Item A) × S.Vec.wraps items inner
            × MakesVecWriter L.lone S.DROPS H.whole (S.list_in_vec items) (vec_capacity inner)
            window pass.old pass.new) }
        ensures refused { IfErr result (λ back. (inner : Vec S.Item A) × S.Vec.wraps items inner
            × S.Vec.wraps back inner × (1 ≤ vec_capacity inner) × (pass.new ≡ pass.old)) }
    {
        match Self::try_from_legal_vec_as(alloc, items.into_inner(), pass) {
            Ok(window) => Ok(window),
            Err(back) => Err(S::Vec::from_inner(back)),
        }
    }

    /// A window over all items of a vector, of which none is copied: `try_from_vec_as` with a new
    /// pass.
    ///
    /// # Errors
    ///
    /// The vector comes back where memory for the count is refused.
    ///
    /// # Allocates
    ///
    /// Once, for the count, unless the vector has no places.
    pub fn try_from_vec(alloc: A, items: S::Vec) -> Result<Self, S::Vec>
    where
        L: AnyBufferLayout,
        H: Stepping,
        S: VecIn<A>,
        ensures made { IfOk result (λ window.
            WithNewPass {M = M} {H = H} H.real nowhere (λ first last. (inner : Vec S.Item A)
            × S.Vec.wraps items inner
            × MakesVecWriter L.lone S.DROPS H.whole (S.list_in_vec items) (vec_capacity inner)
            window first last)) }
        ensures refused { IfErr result (λ back. (inner : Vec S.Item A) × S.Vec.wraps items inner
            × S.Vec.wraps back inner × (1 ≤ vec_capacity inner)) }
    {
        let mut pass = Pass::none();
        let made = Self::try_from_vec_as(alloc, items, &mut pass);
        pass.show();
        made
    }
}
