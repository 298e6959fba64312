//! Makers of write windows, with their plain forms, which take a new pass.
ghost use Rattle.std.specs.Prelude.{◌+◌, ◌≡◌, ◌≤◌, [], Err, IfErr, IfOk, length, OnErr, replicate};
ghost use Rattle.arc_owners.specs.count.Calls.{IsPassOfNone};
ghost use Rattle.arc_block.specs.Place.{nowhere};
ghost use Rattle.arc_parts.specs.Writers.{MakesWriter};
ghost use Rattle.arc_read.specs.Steps.{WithNewPass};

use crate::slice_mut::ArcSliceMut;
use arc_block::layout::LayoutMut;
use arc_buffer::buffer::BufferMut;
use arc_buffer::kinds::{AnyItems, CopySlice, Emptyable, Slice, Zeroable};
use arc_owners::error::AllocError;
use arc_owners::mark::{Mark, Stepping};
use arc_owners::owners::Pass;
use arc_writer_parts::sole::SoleParts;
use std::alloc::Allocator;

impl<
    S: Slice,
    L: LayoutMut,
    B: BufferMut<S::Item> + Drop,
    M: Drop,
    A: Allocator + Copy,
    H: Mark,
> ArcSliceMut<S, L, 1, B, M, A, H> {
    /// A window with `capacity` places and no items, on a new native block. For no places it stands
    /// on nothing. The pass, which is of no block, becomes the block's; the window is owner 0.
    ///
    /// # Errors
    ///
    /// `AllocError` where memory for the block is refused; the pass is then as before.
    ///
    /// # Allocates
    ///
    /// Once, for the block, unless there are no places.
    #[tactic(auto, using(crate::proofs::Held::native_held))]
    pub fn try_with_capacity_as(
        alloc: A,
        capacity: usize,
        pass: &mut Pass<H>,
    ) -> Result<Self, AllocError>
    where
        S: Emptyable,
        requires pass { IsPassOfNone pass.old }
        ensures made { IfOk result (λ window.
            MakesWriter S.DROPS H.whole [] capacity window pass.old pass.new) }
        ensures refused { OnErr result ((1 ≤ capacity) × (pass.new ≡ pass.old)) }
    {
        match SoleParts::try_with_capacity_as(alloc, capacity, pass) {
            Ok(parts) => Ok(Self::from_parts(parts)),
            Err(e) => Err(e),
        }
    }

    /// A window with `capacity` places and no items: `try_with_capacity_as` with a new pass.
    ///
    /// # Errors
    ///
    /// `AllocError` where memory for the block is refused.
    ///
    /// # Allocates
    ///
    /// Once, for the block, unless there are no places.
    pub fn try_with_capacity(alloc: A, capacity: usize) -> Result<Self, AllocError>
    where
        H: Stepping,
        S: Emptyable,
        ensures made { IfOk result (λ window.
            WithNewPass {M = M} {H = H} H.real nowhere (λ first last.
            MakesWriter S.DROPS H.whole [] capacity window first last)) }
        ensures refused { OnErr result (1 ≤ capacity) }
    {
        let mut pass = Pass::none();
        let made = Self::try_with_capacity_as(alloc, capacity, &mut pass);
        pass.show();
        made
    }

    /// A window over a copy of the items, on a new native block with exactly a place for each.
    /// Without items it stands on nothing. The pass, which is of no block, becomes the block's; the
    /// window is owner 0.
    ///
    /// # Errors
    ///
    /// `AllocError` where memory for the block is refused; the pass is then as before.
    ///
    /// # Allocates
    ///
    /// Once, for the block, unless there are no items.
    #[tactic(auto, using(crate::proofs::Held::native_held))]
    pub fn try_from_slice_as(
        alloc: A,
        items: &[S::Item],
        pass: &mut Pass<H>,
    ) -> Result<Self, AllocError>
    where
        S: CopySlice,
        S::Item: Copy,
        requires pass { IsPassOfNone pass.old }
        ensures made { IfOk result (λ window.
            MakesWriter S.DROPS H.whole items.now (length items.now) window pass.old pass.new) }
        ensures refused { OnErr result ((1 ≤ length items.now) × (pass.new ≡ pass.old)) }
    {
        match SoleParts::try_from_slice_as(alloc, items, pass) {
            Ok(parts) => Ok(Self::from_parts(parts)),
            Err(e) => Err(e),
        }
    }

    /// A window over a copy of the items: `try_from_slice_as` with a new pass.
    ///
    /// # Errors
    ///
    /// `AllocError` where memory for the block is refused.
    ///
    /// # Allocates
    ///
    /// Once, for the block, unless there are no items.
    pub fn try_from_slice(alloc: A, items: &[S::Item]) -> Result<Self, AllocError>
    where
        H: Stepping,
        S: CopySlice,
        S::Item: Copy,
        ensures made { IfOk result (λ window.
            WithNewPass {M = M} {H = H} H.real nowhere (λ first last.
            MakesWriter S.DROPS H.whole items.now (length items.now) window first last)) }
        ensures refused { OnErr result (1 ≤ length items.now) }
    {
        let mut pass = Pass::none();
        let made = Self::try_from_slice_as(alloc, items, &mut pass);
        pass.show();
        made
    }

    /// A window over `count` zeros, on a new native block with exactly a place for each. Without
    /// zeros it stands on nothing. The pass, which is of no block, becomes the block's; the window
    /// is owner 0.
    ///
    /// # Errors
    ///
    /// `AllocError` where memory for the block is refused; the pass is then as before.
    ///
    /// # Allocates
    ///
    /// Once, for the block, unless there are no zeros.
    #[tactic(auto, using(crate::proofs::Held::native_held))]
    pub fn try_zeroed_as(alloc: A, count: usize, pass: &mut Pass<H>) -> Result<Self, AllocError>
    where
        S: Zeroable,
        S::Item: Copy,
        requires pass { IsPassOfNone pass.old }
        ensures made { IfOk result (λ window. MakesWriter S.DROPS H.whole
            (replicate count S.zero_item) count window pass.old pass.new) }
        ensures refused { OnErr result ((1 ≤ count) × (pass.new ≡ pass.old)) }
    {
        match SoleParts::try_zeroed_as(alloc, count, pass) {
            Ok(parts) => Ok(Self::from_parts(parts)),
            Err(e) => Err(e),
        }
    }

    /// A window over `count` zeros: `try_zeroed_as` with a new pass.
    ///
    /// # Errors
    ///
    /// `AllocError` where memory for the block is refused.
    ///
    /// # Allocates
    ///
    /// Once, for the block, unless there are no zeros.
    pub fn try_zeroed(alloc: A, count: usize) -> Result<Self, AllocError>
    where
        H: Stepping,
        S: Zeroable,
        S::Item: Copy,
        ensures made { IfOk result (λ window.
            WithNewPass {M = M} {H = H} H.real nowhere (λ first last.
            MakesWriter S.DROPS H.whole (replicate count S.zero_item) count window first last)) }
        ensures refused { OnErr result (1 ≤ count) }
    {
        let mut pass = Pass::none();
        let made = Self::try_zeroed_as(alloc, count, &mut pass);
        pass.show();
        made
    }

    /// A window over an array's items, which are moved to a new native block with exactly a place
    /// for each. Without items it stands on nothing. The pass, which is of no block, becomes the
    /// block's; the window is owner 0.
    ///
    /// # Errors
    ///
    /// The array comes back where memory for the block is refused; the pass is then as before.
    ///
    /// # Allocates
    ///
    /// Once, for the block, unless there are no items.
    #[tactic(auto, using(crate::proofs::Held::native_held))]
    pub fn try_from_array_as<const N: usize>(
        alloc: A,
        array: [S::Item; N],
        pass: &mut Pass<H>,
    ) -> Result<Self, [S::Item; N]>
    where
        S: AnyItems,
        requires pass { IsPassOfNone pass.old }
        ensures made { IfOk result (λ window.
            MakesWriter S.DROPS H.whole array (length array) window pass.old pass.new) }
        ensures refused { IfErr result (λ back. (back ≡ array) × (1 ≤ length array)
            × (pass.new ≡ pass.old)) }
    {
        match SoleParts::try_from_array_as::<N>(alloc, array, pass) {
            Ok(parts) => Ok(Self::from_parts(parts)),
            Err(back) => Err(back),
        }
    }

    /// A window over an array's items: `try_from_array_as` with a new pass.
    ///
    /// # Errors
    ///
    /// The array comes back where memory for the block is refused.
    ///
    /// # Allocates
    ///
    /// Once, for the block, unless there are no items.
    pub fn try_from_array<const N: usize>(
        alloc: A,
        array: [S::Item; N],
    ) -> Result<Self, [S::Item; N]>
    where
        H: Stepping,
        S: AnyItems,
        ensures made { IfOk result (λ window.
            WithNewPass {M = M} {H = H} H.real nowhere (λ first last.
            MakesWriter S.DROPS H.whole array (length array) window first last)) }
        ensures refused { IfErr result (λ back. (back ≡ array) × (1 ≤ length array)) }
    {
        let mut pass = Pass::none();
        let made = Self::try_from_array_as(alloc, array, &mut pass);
        pass.show();
        made
    }
}
