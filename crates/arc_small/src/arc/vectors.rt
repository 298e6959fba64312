//! Small windows over vectors and boxes, which are never copied into the window itself.
ghost use Rattle.std.specs.Prelude.{◌≡◌, ℕ, length, IfOk, IfErr};
ghost use Rattle.std.specs.Vec.{vec_capacity};
ghost use Rattle.std.specs.declared.vec.Vec.{Vec};
ghost use Rattle.arc_owners.specs.count.Calls.{IsPassOfNone};
ghost use Rattle.arc_block.specs.Place.{nowhere};
ghost use Rattle.arc_parts.specs.Steps.{MakesOfVec, NeedsVecBlock, Begins};
ghost use Rattle.arc_block.specs.Table.{reader};
ghost use Rattle.arc_parts.specs.Window.{window_of};
ghost use Rattle.arc_read.specs.Steps.{WithNewPass};

use super::SmallArcSlice;
use arc_block::layout::AnyBufferLayout;
use arc_buffer::buffer::Buffer;
use arc_buffer::kinds::{Slice, VecIn};
use arc_owners::mark::{Mark, Stepping};
use arc_owners::owners::Pass;
use arc_read::slice::ArcSlice;
use std::alloc::Allocator;

impl<
    S: Slice<Item = u8>,
    L: AnyBufferLayout,
    B: Buffer<u8> + Drop,
    M: Drop,
    A: Allocator + Copy,
    H: Mark,
> SmallArcSlice<S, L, B, M, A, H> {
    /// A window that is read, over all bytes of a vector, also where they are few or none. It is
    /// made by `ArcSlice::try_from_vec_as`.
    ///
    /// # Errors
    ///
    /// The vector comes back where memory for the count is refused; the pass is then as before.
    ///
    /// # Allocates
    ///
    /// Once, where a block is needed.
    pub fn try_from_vec_as(alloc: A, items: S::Vec, pass: &mut Pass<H>) -> Result<Self, S::Vec>
    where
        S: VecIn<A>,
        requires pass { IsPassOfNone pass.old }
        ensures role { IfOk result (λ window. window.role ≡ reader) }
        ensures made { IfOk result (λ window. (inner : Vec ℕ A) × S.Vec.wraps items inner
            × MakesOfVec L.STATIC L.lone S.DROPS H.whole (S.list_in_vec items) (vec_capacity inner)
            (window_of window)) }
        ensures pass { IfOk result (λ window. Begins (window_of window) pass.old pass.new) }
        ensures refused { IfErr result (λ back. (inner : Vec ℕ A) × S.Vec.wraps items inner
            × S.Vec.wraps back inner × NeedsVecBlock L.STATIC (vec_capacity inner)
            × (pass.new ≡ pass.old)) }
    {
        match ArcSlice::try_from_vec_as(alloc, items, pass) {
            Ok(window) => Ok(Self::from(window)),
            Err(back) => Err(back),
        }
    }

    /// A window that is read, over all bytes of a box, also where they are few or none. It is made
    /// by `ArcSlice::try_from_boxed_as`.
    ///
    /// # Errors
    ///
    /// A box of the same bytes comes back where memory is refused; the pass is then as before.
    ///
    /// # Allocates
    ///
    /// Once, where a block is needed, and once more to move the bytes, where the box's memory has
    /// spare places.
    pub fn try_from_boxed_as(
        alloc: A,
        items: S::Boxed,
        pass: &mut Pass<H>,
    ) -> Result<Self, S::Boxed>
    where
        S: VecIn<A>,
        requires pass { IsPassOfNone pass.old }
        ensures role { IfOk result (λ window. window.role ≡ reader) }
        ensures made { IfOk result (λ window. MakesOfVec L.STATIC L.lone S.DROPS H.whole
            (S.list_in_boxed items) (length (S.list_in_boxed items)) (window_of window)) }
        ensures pass { IfOk result (λ window. Begins (window_of window) pass.old pass.new) }
        ensures refused { IfErr result (λ back. (S.list_in_boxed back ≡ S.list_in_boxed items)
            × NeedsVecBlock L.STATIC (length (S.list_in_boxed items)) × (pass.new ≡ pass.old)) }
    {
        match ArcSlice::try_from_boxed_as(alloc, items, pass) {
            Ok(window) => Ok(Self::from(window)),
            Err(back) => Err(back),
        }
    }

    /// A window that is read, over all bytes of a vector: `try_from_vec_as` with a new pass.
    ///
    /// # Errors
    ///
    /// The vector comes back where memory for the count is refused.
    ///
    /// # Allocates
    ///
    /// Once, where a block is needed.
    pub fn try_from_vec(alloc: A, items: S::Vec) -> Result<Self, S::Vec>
    where
        H: Stepping,
        S: VecIn<A>,
        ensures role { IfOk result (λ window. window.role ≡ reader) }
        ensures made { IfOk result (λ window. (inner : Vec ℕ A) × S.Vec.wraps items inner
            × MakesOfVec L.STATIC L.lone S.DROPS H.whole (S.list_in_vec items) (vec_capacity inner)
            (window_of window)) }
        ensures pass { IfOk result (λ window.
            WithNewPass {M = M} {H = H} H.real nowhere (λ first last.
            Begins (window_of window) first last)) }
        ensures refused { IfErr result (λ back. (inner : Vec ℕ A) × S.Vec.wraps items inner
            × S.Vec.wraps back inner × NeedsVecBlock L.STATIC (vec_capacity inner)) }
    {
        match ArcSlice::try_from_vec(alloc, items) {
            Ok(window) => Ok(Self::from(window)),
            Err(back) => Err(back),
        }
    }

    /// A window that is read, over all bytes of a box: `try_from_boxed_as` with a new pass.
    ///
    /// # Errors
    ///
    /// A box of the same bytes comes back where memory is refused.
    ///
    /// # Allocates
    ///
    /// Once, where a block is needed, and once more to move the bytes, where the box's memory has
    /// spare places.
    pub fn try_from_boxed(alloc: A, items: S::Boxed) -> Result<Self, S::Boxed>
    where
        H: Stepping,
        S: VecIn<A>,
        ensures role { IfOk result (λ window. window.role ≡ reader) }
        ensures made { IfOk result (λ window. MakesOfVec L.STATIC L.lone S.DROPS H.whole
            (S.list_in_boxed items) (length (S.list_in_boxed items)) (window_of window)) }
        ensures pass { IfOk result (λ window.
            WithNewPass {M = M} {H = H} H.real nowhere (λ first last.
            Begins (window_of window) first last)) }
        ensures refused { IfErr result (λ back. (S.list_in_boxed back ≡ S.list_in_boxed items)
            × NeedsVecBlock L.STATIC (length (S.list_in_boxed items))) }
    {
        match ArcSlice::try_from_boxed(alloc, items) {
            Ok(window) => Ok(Self::from(window)),
            Err(back) => Err(back),
        }
    }
}
