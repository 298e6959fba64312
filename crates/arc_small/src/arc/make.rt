//! Making of small windows of a list: within the limit it lies in the window itself.
ghost use Rattle.std.specs.Prelude.{◌≡◌, ◌<◌, length, IfOk, IfErr, OnErr};
ghost use Rattle.arc_owners.specs.count.Calls.{IsPassOfNone};
ghost use Rattle.arc_block.specs.Place.{nowhere, static_data};
ghost use Rattle.arc_parts.specs.Steps.{Begins};
ghost use Rattle.arc_block.specs.Table.{reader};
ghost use Rattle.arc_parts.specs.Window.{window_of};
ghost use Rattle.arc_read.specs.Steps.{WithNewPass};
ghost use Rattle.arc_block.specs.Inline.{inline_limit};
ghost use Rattle.arc_small.specs.Small.{MakesSmall};

use super::super::slice::SmallSlice;
use super::SmallArcSlice;
use arc_block::layout::{Layout, StaticLayout};
use arc_buffer::buffer::Buffer;
use arc_buffer::kinds::{AnyItems, CopySlice, Slice};
use arc_owners::error::AllocError;
use arc_owners::mark::{Mark, Stepping};
use arc_owners::owners::Pass;
use arc_read::slice::ArcSlice;
use std::alloc::Allocator;

impl<
    S: Slice<Item = u8>,
    L: Layout,
    B: Buffer<u8> + Drop,
    M: Drop,
    A: Allocator + Copy,
    H: Mark,
> SmallArcSlice<S, L, B, M, A, H> {
    /// A window over a copy of the bytes: in the window itself where they are at most
    /// `inline_limit()`, else on a new native block with exactly a place for each. Of a new block
    /// the window is owner 0, and the pass, which was of no block, becomes the block's.
    ///
    /// # Errors
    ///
    /// `AllocError` where memory for a block is refused; the pass is then as before.
    ///
    /// # Allocates
    ///
    /// Once, where there are more bytes than `inline_limit()`.
    pub fn try_from_slice_as(alloc: A, items: &[u8], pass: &mut Pass<H>) -> Result<Self, AllocError>
    where
        S: CopySlice,
        requires pass { IsPassOfNone pass.old }
        ensures ok { IfOk result (λ window. MakesSmall L.STATIC S.DROPS H.whole items.now window) }
        ensures pass { IfOk result (λ window. Begins (window_of window) pass.old pass.new) }
        ensures refused { OnErr result ((inline_limit < length items.now)
            × (pass.new ≡ pass.old)) }
    {
        if let Some(small) = SmallSlice::new(items) {
            return Ok(Self::from(small));
        }
        match ArcSlice::try_from_slice_as(alloc, items, pass) {
            Ok(window) => Ok(Self::from(window)),
            Err(e) => Err(e),
        }
    }

    /// A window over an array's bytes, as `try_from_slice_as` makes it of a slice of them.
    ///
    /// # Errors
    ///
    /// The array comes back where memory for a block is refused; the pass is then as before.
    ///
    /// # Allocates
    ///
    /// Once, where there are more bytes than `inline_limit()`.
    pub fn try_from_array_as<const N: usize>(
        alloc: A,
        array: [u8; N],
        pass: &mut Pass<H>,
    ) -> Result<Self, [u8; N]>
    where
        S: AnyItems,
        requires pass { IsPassOfNone pass.old }
        ensures ok { IfOk result (λ window.
            MakesSmall L.STATIC S.DROPS H.whole array.entry window) }
        ensures pass { IfOk result (λ window. Begins (window_of window) pass.old pass.new) }
        ensures refused { IfErr result (λ back. (back ≡ array.entry)
            × (inline_limit < length array.entry)
            × (pass.new ≡ pass.old)) }
    {
        if let Some(small) = SmallSlice::of_any(&array) {
            return Ok(Self::from(small));
        }
        match ArcSlice::try_from_array_as(alloc, array, pass) {
            Ok(window) => Ok(Self::from(window)),
            Err(back) => Err(back),
        }
    }

    /// A window over `'static` bytes, which are never copied. It is no owner: its clones and cuts
    /// add no entry and are never refused.
    pub fn from_static(alloc: A, items: &'static [u8]) -> Self
    where
        S: AnyItems,
        L: StaticLayout,
        ensures { result ≡ record { items = items.now; place = static_data; role = reader } }
    {
        Self::from(ArcSlice::from_static(alloc, items))
    }

    /// A window over a copy of the bytes, in the window itself where they are at most
    /// `inline_limit()`: `try_from_slice_as` with a new pass.
    ///
    /// # Errors
    ///
    /// `AllocError` where memory for a block is refused.
    ///
    /// # Allocates
    ///
    /// Once, where there are more bytes than `inline_limit()`.
    pub fn try_from_slice(alloc: A, items: &[u8]) -> Result<Self, AllocError>
    where
        H: Stepping,
        S: CopySlice,
        ensures ok { IfOk result (λ window. MakesSmall L.STATIC S.DROPS H.whole items.now window) }
        ensures pass { IfOk result (λ window.
            WithNewPass {M = M} {H = H} H.real nowhere (λ first last.
            Begins (window_of window) first last)) }
        ensures refused { OnErr result (inline_limit < length items.now) }
    {
        let mut pass = Pass::none();
        let made = Self::try_from_slice_as(alloc, items, &mut pass);
        pass.show();
        made
    }

    /// A window over an array's bytes, in the window itself where they are at most
    /// `inline_limit()`: `try_from_array_as` with a new pass.
    ///
    /// # Errors
    ///
    /// The array comes back where memory for a block is refused.
    ///
    /// # Allocates
    ///
    /// Once, where there are more bytes than `inline_limit()`.
    pub fn try_from_array<const N: usize>(alloc: A, array: [u8; N]) -> Result<Self, [u8; N]>
    where
        H: Stepping,
        S: AnyItems,
        ensures ok { IfOk result (λ window.
            MakesSmall L.STATIC S.DROPS H.whole array.entry window) }
        ensures pass { IfOk result (λ window.
            WithNewPass {M = M} {H = H} H.real nowhere (λ first last.
            Begins (window_of window) first last)) }
        ensures refused { IfErr result (λ back. (back ≡ array.entry)
            × (inline_limit < length array.entry)) }
    {
        let mut pass = Pass::none();
        let made = Self::try_from_array_as(alloc, array, &mut pass);
        pass.show();
        made
    }
}
