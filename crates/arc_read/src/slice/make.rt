//! Making of windows that are read.
ghost use Rattle.std.specs.Prelude.{◌≡◌, IfOk, IfErr, OnErr};
ghost use Rattle.arc_owners.specs.count.Calls.{IsPassOfNone};
ghost use Rattle.arc_block.specs.Place.{nowhere, static_data};
ghost use Rattle.arc_parts.specs.Window.{NeedsBlock};
ghost use Rattle.arc_parts.specs.Steps.{Makes, Begins};
ghost use Rattle.arc_read.specs.Steps.{WithNewPass};

use super::ArcSlice;
use arc_block::layout::{Layout, StaticLayout};
use arc_block::static_slice::StaticSlice;
use arc_buffer::buffer::Buffer;
use arc_buffer::kinds::{AnyItems, CopySlice, Slice};
use arc_owners::error::AllocError;
use arc_owners::mark::{Mark, Stepping};
use arc_owners::owners::Pass;
use arc_parts::parts::Parts;
use std::alloc::Allocator;

impl<
    S: Slice,
    L: Layout,
    B: Buffer<S::Item> + Drop,
    M: Drop,
    A: Allocator + Copy,
    H: Mark,
> ArcSlice<S, L, B, M, A, H> {
    /// A window over a copy of the items, which are legal.
    #[tactic(auto, using(arc_parts::proofs::Held::made_held))]
    pub(super) fn try_from_legal_slice_as(
        alloc: A,
        items: &[S::Item],
        pass: &mut Pass<H>,
    ) -> Result<Self, AllocError>
    where
        S::Item: Copy,
        requires legal { ∥ S.is_legal items.now ∥₁ }
        requires pass { IsPassOfNone pass.old }
        ensures ok { IfOk result (λ window. Makes L.STATIC S.DROPS H.whole items.now window) }
        ensures pass { IfOk result (λ window. Begins window pass.old pass.new) }
        ensures refused { OnErr result (NeedsBlock L.STATIC items.now × (pass.new ≡ pass.old)) }
    {
        match Parts::try_from_slice_as::<L>(alloc, items, pass) {
            Ok(parts) => Ok(Self::from_parts(parts)),
            Err(e) => Err(e),
        }
    }

    /// A window over a copy of the items, on a new native block with exactly a place for each.
    /// Without items, under a layout that has static data, it stands on nothing. Of a new block the
    /// window is owner 0, and the pass, which was of no block, becomes the block's.
    ///
    /// # Errors
    ///
    /// `AllocError` where memory for a block is refused; the pass is then as before.
    ///
    /// # Allocates
    ///
    /// Once, where a block is needed.
    pub fn try_from_slice_as(
        alloc: A,
        items: &[S::Item],
        pass: &mut Pass<H>,
    ) -> Result<Self, AllocError>
    where
        S: CopySlice,
        S::Item: Copy,
        requires pass { IsPassOfNone pass.old }
        ensures ok { IfOk result (λ window. Makes L.STATIC S.DROPS H.whole items.now window) }
        ensures pass { IfOk result (λ window. Begins window pass.old pass.new) }
        ensures refused { OnErr result (NeedsBlock L.STATIC items.now × (pass.new ≡ pass.old)) }
    {
        Self::try_from_legal_slice_as(alloc, items, pass)
    }

    /// A window over an array's items. It is as one by `try_from_slice_as`, but the items are moved
    /// into the block, not copied.
    ///
    /// # Errors
    ///
    /// The array comes back where memory for a block is refused; the pass is then as before.
    ///
    /// # Allocates
    ///
    /// Once, where a block is needed.
    #[tactic(auto, using(arc_parts::proofs::Held::made_held))]
    pub fn try_from_array_as<const N: usize>(
        alloc: A,
        array: [S::Item; N],
        pass: &mut Pass<H>,
    ) -> Result<Self, [S::Item; N]>
    where
        S: AnyItems,
        requires pass { IsPassOfNone pass.old }
        ensures ok { IfOk result (λ window. Makes L.STATIC S.DROPS H.whole array window) }
        ensures pass { IfOk result (λ window. Begins window pass.old pass.new) }
        ensures refused { IfErr result (λ back. (back ≡ array) × NeedsBlock L.STATIC array
            × (pass.new ≡ pass.old)) }
    {
        match Parts::try_from_array_as::<L, N>(alloc, array, pass) {
            Ok(parts) => Ok(Self::from_parts(parts)),
            Err(back) => Err(back),
        }
    }

    /// A window over a `'static` slice. It is no owner: its clones and cuts add no entry and are
    /// never refused.
    pub fn from_static(alloc: A, items: &'static [S::Item]) -> Self
    where
        S: AnyItems,
        L: StaticLayout,
        S::Item: 'static,
        ensures { result ≡ record { items = items.now; place = static_data } }
    {
        Self::from_parts(Parts::on_static(alloc, StaticSlice::new(items)))
    }

    /// A window over a copy of the items: `try_from_slice_as` with a new pass.
    ///
    /// # Errors
    ///
    /// `AllocError` where memory for a block is refused.
    ///
    /// # Allocates
    ///
    /// Once, where a block is needed.
    pub fn try_from_slice(alloc: A, items: &[S::Item]) -> Result<Self, AllocError>
    where
        H: Stepping,
        S: CopySlice,
        S::Item: Copy,
        ensures ok { IfOk result (λ window. Makes L.STATIC S.DROPS H.whole items.now window) }
        ensures pass { IfOk result (λ window.
            WithNewPass {M = M} {H = H} H.real nowhere (λ first last. Begins window first last)) }
        ensures refused { OnErr result (NeedsBlock L.STATIC items.now) }
    {
        let mut pass = Pass::none();
        let made = Self::try_from_slice_as(alloc, items, &mut pass);
        pass.show();
        made
    }

    /// A window over an array's items: `try_from_array_as` with a new pass.
    ///
    /// # Errors
    ///
    /// The array comes back where memory for a block is refused.
    ///
    /// # Allocates
    ///
    /// Once, where a block is needed.
    pub fn try_from_array<const N: usize>(
        alloc: A,
        array: [S::Item; N],
    ) -> Result<Self, [S::Item; N]>
    where
        H: Stepping,
        S: AnyItems,
        ensures ok { IfOk result (λ window. Makes L.STATIC S.DROPS H.whole array window) }
        ensures pass { IfOk result (λ window.
            WithNewPass {M = M} {H = H} H.real nowhere (λ first last. Begins window first last)) }
        ensures refused { IfErr result (λ back. (back ≡ array) × NeedsBlock L.STATIC array) }
    {
        let mut pass = Pass::none();
        let made = Self::try_from_array_as(alloc, array, &mut pass);
        pass.show();
        made
    }
}
