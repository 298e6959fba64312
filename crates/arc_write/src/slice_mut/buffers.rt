//! Write windows over a caller's buffer: made of one, and taken back as one.
ghost use Rattle.std.specs.Prelude.{◌↔◌, ◌≡◌, Err, IfErr, IfNone, IfOk, IfSome, IsTrue, length};
ghost use Rattle.std.specs.Prelude.{None, Some, true};
ghost use Rattle.arc_owners.specs.count.Calls.{IsPassOfNone};
ghost use Rattle.arc_block.specs.Block.{buffer_info};
ghost use Rattle.arc_block.specs.Given.{given_as};
ghost use Rattle.arc_block.specs.Metadata.{IsMetadataAt, IsOnCallers};
ghost use Rattle.arc_block.specs.Place.{metadata_at, nowhere};
ghost use Rattle.arc_parts.specs.Window.{IsOfBuffer};
ghost use Rattle.arc_parts.specs.Writers.{MakesBufferWriter};
ghost use Rattle.arc_read.specs.Steps.{WithNewPass};

use crate::slice_mut::{ArcSliceMut, WriteWindow};
use arc_block::layout::{AnyBufferLayout, LayoutMut};
use arc_buffer::buffer::{BorrowMetadata, BufferMut};
use arc_buffer::kinds::{AnyItems, Slice};
use arc_owners::mark::{Mark, Stepping};
use arc_owners::owners::Pass;
use arc_writer_parts::role::{RoleOf, WriterParts};
use arc_writer_parts::sole::SoleParts;
use std::alloc::Allocator;

impl<
    S: Slice,
    L: LayoutMut,
    R: RoleOf<S, B, M, A, H>,
    B: BufferMut<S::Item> + Drop,
    M: Drop,
    A: Allocator + Copy,
    H: Mark,
> WriteWindow<S, L, R, B, M, A, H> {
    /// The metadata that the window's block was made with, or `None`.
    pub fn metadata(&self) -> Option<&M>
        ensures some { IfSome result (λ m. metadata_at self.now.place ≡ Some m.now) }
        ensures none { IfNone result (metadata_at self.now.place ≡ None) }
    {
        self.parts.metadata()
    }

    /// The metadata that lies in the caller's buffer on which the window stands, or `None` where it
    /// stands on none.
    pub fn borrowed_metadata(&self) -> Option<&B::Metadata>
    where
        B: BorrowMetadata,
        ensures some { IfSome result (λ m.
            IsMetadataAt B.list B.metadata self.now.place self.now.items m.now) }
        ensures none { IfNone result (¬ IsOnCallers self.now.place) }
    {
        self.parts.borrowed_metadata()
    }
}

impl<
    S: Slice,
    L: LayoutMut,
    B: BufferMut<S::Item> + Drop,
    M: Drop,
    A: Allocator + Copy,
    H: Mark,
> ArcSliceMut<S, L, 1, B, M, A, H> {
    /// A window over all items of a caller's buffer, on a block that keeps the buffer, with its
    /// metadata where there is some.
    #[tactic(auto, using(crate::proofs::Held::buffer_held))]
    fn try_from_held_buffer_as(
        alloc: A,
        buffer: B,
        metadata: Option<M>,
        pass: &mut Pass<H>,
    ) -> Result<Self, (B, Option<M>)>
    where
        S: AnyItems,
        L: AnyBufferLayout,
        requires pass { IsPassOfNone pass.old }
        ensures made { IfOk result (λ window. MakesBufferWriter H.whole
            (buffer_info true (B.places buffer) (length (B.list buffer))
            (Some (given_as true buffer metadata)))
            (B.list buffer) window pass.new) }
        ensures refused { IfErr result (λ back. (back.0 ≡ buffer) × (back.1 ≡ metadata)
            × (pass.new ≡ pass.old)) }
    {
        match SoleParts::try_from_buffer_as(alloc, buffer, metadata, pass) {
            Ok(parts) => Ok(Self::from_parts(parts)),
            Err(back) => Err(back),
        }
    }

    /// A window over all items of a caller's buffer with its places, on a block that keeps the
    /// buffer as one that may be written: no item is copied. It has no metadata. The pass, which is
    /// of no block, becomes the block's; the window is owner 0.
    ///
    /// # Errors
    ///
    /// The buffer comes back where memory for the block is refused; the pass is then as before.
    ///
    /// # Allocates
    ///
    /// Once, for the block that keeps the buffer.
    pub fn try_from_buffer_as(alloc: A, buffer: B, pass: &mut Pass<H>) -> Result<Self, B>
    where
        S: AnyItems,
        L: AnyBufferLayout,
        requires pass { IsPassOfNone pass.old }
        ensures made { IfOk result (λ window. MakesBufferWriter H.whole
            (buffer_info true (B.places buffer) (length (B.list buffer))
            (Some (given_as true buffer None)))
            (B.list buffer) window pass.new) }
        ensures refused { IfErr result (λ back. (back ≡ buffer) × (pass.new ≡ pass.old)) }
    {
        match Self::try_from_held_buffer_as(alloc, buffer, None, pass) {
            Ok(window) => Ok(window),
            Err((buffer, _)) => Err(buffer),
        }
    }

    /// A window over all items of a caller's buffer, of which none is copied: `try_from_buffer_as`
    /// with a new pass.
    ///
    /// # Errors
    ///
    /// The buffer comes back where memory for the block is refused.
    ///
    /// # Allocates
    ///
    /// Once, for the block that keeps the buffer.
    pub fn try_from_buffer(alloc: A, buffer: B) -> Result<Self, B>
    where
        S: AnyItems,
        L: AnyBufferLayout,
        H: Stepping,
        ensures made { IfOk result (λ window.
            WithNewPass {M = M} {H = H} H.real nowhere (λ first last. MakesBufferWriter H.whole
            (buffer_info true (B.places buffer) (length (B.list buffer))
            (Some (given_as true buffer None)))
            (B.list buffer) window last)) }
        ensures refused { IfErr result (λ back. back ≡ buffer) }
    {
        let mut pass = Pass::none();
        let made = Self::try_from_buffer_as(alloc, buffer, &mut pass);
        pass.show();
        made
    }

    /// A window over all items of a caller's buffer, as `try_from_buffer_as` makes it, with
    /// metadata that all windows of the block share.
    ///
    /// # Errors
    ///
    /// Buffer and metadata come back where memory for the block is refused; the pass is then as
    /// before.
    ///
    /// # Allocates
    ///
    /// Once, for the block that keeps the buffer.
    pub fn try_from_buffer_with_metadata_as(
        alloc: A,
        buffer: B,
        metadata: M,
        pass: &mut Pass<H>,
    ) -> Result<Self, (B, M)>
    where
        S: AnyItems,
        L: AnyBufferLayout,
        requires pass { IsPassOfNone pass.old }
        ensures made { IfOk result (λ window. MakesBufferWriter H.whole
            (buffer_info true (B.places buffer) (length (B.list buffer))
            (Some (given_as true buffer (Some metadata))))
            (B.list buffer) window pass.new) }
        ensures refused { IfErr result (λ back. (back.0 ≡ buffer) × (back.1 ≡ metadata)
            × (pass.new ≡ pass.old)) }
    {
        match Self::try_from_held_buffer_as(alloc, buffer, Some(metadata), pass) {
            Ok(window) => Ok(window),
            Err((buffer, held)) => match held {
                Some(metadata) => Err((buffer, metadata)),
                None => unreachable!(),
            },
        }
    }

    /// A window over all items of a caller's buffer, with metadata that all windows of the block
    /// share: `try_from_buffer_with_metadata_as` with a new pass.
    ///
    /// # Errors
    ///
    /// Buffer and metadata come back where memory for the block is refused.
    ///
    /// # Allocates
    ///
    /// Once, for the block that keeps the buffer.
    pub fn try_from_buffer_with_metadata(alloc: A, buffer: B, metadata: M) -> Result<Self, (B, M)>
    where
        S: AnyItems,
        L: AnyBufferLayout,
        H: Stepping,
        ensures made { IfOk result (λ window.
            WithNewPass {M = M} {H = H} H.real nowhere (λ first last. MakesBufferWriter H.whole
            (buffer_info true (B.places buffer) (length (B.list buffer))
            (Some (given_as true buffer (Some metadata))))
            (B.list buffer) window last)) }
        ensures refused { IfErr result (λ back. (back.0 ≡ buffer) × (back.1 ≡ metadata)) }
    {
        let mut pass = Pass::none();
        let made = Self::try_from_buffer_with_metadata_as(alloc, buffer, metadata, &mut pass);
        pass.show();
        made
    }

    /// Whether the window stands on a caller's buffer.
    pub fn is_on_buffer(&self) -> bool
        ensures { IsTrue result ↔ IsOfBuffer self.now.place }
    {
        self.parts.is_on_buffer()
    }
}
