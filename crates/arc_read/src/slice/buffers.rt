//! Read windows over a caller's buffer, or over an `Arc` of one: made of them, and taken back.
ghost use Rattle.arc_owners.specs.history.Histories.{Counted};
ghost use Rattle.std.specs.Prelude.{◌≡◌, false, length, Some, None};
ghost use Rattle.std.specs.Prelude.{IfOk, IfErr, IfSome, IfNone, is_some};
ghost use Rattle.std.specs.Arc.{arc_value};
ghost use Rattle.arc_owners.specs.count.Calls.{IsPassOfNone};
ghost use Rattle.arc_block.specs.Block.{buffer_info};
ghost use Rattle.arc_block.specs.Metadata.{FitsGivenAt, IsMetadataAt, IsOnCallers};
ghost use Rattle.arc_block.specs.Given.{given_as};
ghost use Rattle.arc_block.specs.Place.{nowhere, buffer_at, metadata_at};
ghost use Rattle.arc_parts.specs.Window.{IsBufferWhole, IsRawWhole};
ghost use Rattle.arc_block.specs.Place.{size_at};
ghost use Rattle.arc_parts.specs.Steps.{IsPassAt, MakesOver, MakesOverRaw, Begins};
ghost use Rattle.arc_parts.specs.Steps.{TakesAt, RefusesTaking, LeavesLastAt};
ghost use Rattle.arc_read.specs.Steps.{WithNewPass};

use super::ArcSlice;
use arc_block::layout::{AnyBufferLayout, Layout};
use arc_buffer::buffer::{BorrowMetadata, Buffer};
use arc_buffer::kinds::{AnyItems, Slice};
use arc_owners::mark::{Mark, Stepping};
use arc_owners::owners::Pass;
use arc_parts::parts::Parts;
use std::alloc::Allocator;
use std::sync::Arc;

impl<
    S: Slice,
    L: Layout,
    B: Buffer<S::Item> + Drop,
    M: Drop,
    A: Allocator + Copy,
    H: Mark,
> ArcSlice<S, L, B, M, A, H> {
    /// A window over all items of a caller's buffer, on a block that keeps the buffer, with its
    /// metadata where there is some.
    fn try_from_held_buffer_as(
        alloc: A,
        buffer: B,
        metadata: Option<M>,
        pass: &mut Pass<H>,
    ) -> Result<Self, (B, Option<M>)>
    where
        S: AnyItems,
        L: AnyBufferLayout,
        requires pass { IsPassOfNone pass.old }
        ensures made { IfOk result (λ window. MakesOver Counted H.whole
            (buffer_info false (B.places buffer) (length (B.list buffer))
            (Some (given_as false buffer metadata))) (B.list buffer) window) }
        ensures pass { IfOk result (λ window. Begins window pass.old pass.new) }
        ensures refused { IfErr result (λ back. (back.0 ≡ buffer) × (back.1 ≡ metadata)
            × (pass.new ≡ pass.old)) }
    {
        match Parts::try_from_buffer_as(alloc, buffer, metadata, pass) {
            Ok(parts) => Ok(Self::from_parts(parts)),
            Err(back) => Err(back),
        }
    }

    /// A window over all items of a caller's buffer, on a block that keeps the buffer, to be read:
    /// no item is copied. It has no metadata. The pass, which is of no block, becomes the block's;
    /// the window is owner 0.
    ///
    /// # Errors
    ///
    /// The buffer comes back where memory for the block is refused; the pass is then as before.
    ///
    /// # Allocates
    ///
    /// Once.
    pub fn try_from_buffer_as(alloc: A, buffer: B, pass: &mut Pass<H>) -> Result<Self, B>
    where
        S: AnyItems,
        L: AnyBufferLayout,
        requires pass { IsPassOfNone pass.old }
        ensures made { IfOk result (λ window. MakesOver Counted H.whole
            (buffer_info false (B.places buffer) (length (B.list buffer))
            (Some (given_as false buffer None))) (B.list buffer) window) }
        ensures pass { IfOk result (λ window. Begins window pass.old pass.new) }
        ensures refused { IfErr result (λ back. (back ≡ buffer) × (pass.new ≡ pass.old)) }
    {
        match Self::try_from_held_buffer_as(alloc, buffer, None, pass) {
            Ok(window) => Ok(window),
            Err((buffer, _)) => Err(buffer),
        }
    }

    /// A window over all items of a caller's buffer, as `try_from_buffer_as` makes it, with
    /// metadata that all windows of the block share.
    ///
    /// # Errors
    ///
    /// Buffer and metadata come back where memory for the block is refused; the pass is then as
    /// before.
    ///
    /// # Allocates
    ///
    /// Once.
    pub fn try_from_buffer_with_metadata_as(
        alloc: A,
        buffer: B,
        metadata: M,
        pass: &mut Pass<H>,
    ) -> Result<Self, (B, M)>
    where
        S: AnyItems,
        L: AnyBufferLayout,
        requires pass { IsPassOfNone pass.old }
        ensures made { IfOk result (λ window. MakesOver Counted H.whole
            (buffer_info false (B.places buffer) (length (B.list buffer))
            (Some (given_as false buffer (Some metadata)))) (B.list buffer) window) }
        ensures pass { IfOk result (λ window. Begins window pass.old pass.new) }
        ensures refused { IfErr result (λ back. (back.0 ≡ buffer) × (back.1 ≡ metadata)
            × (pass.new ≡ pass.old)) }
    {
        match Self::try_from_held_buffer_as(alloc, buffer, Some(metadata), pass) {
            Ok(window) => Ok(window),
            Err((buffer, held)) => match held {
                Some(metadata) => Err((buffer, metadata)),
                None => unreachable!(),
            },
        }
    }

    /// A window over all items of a caller's buffer behind an `Arc`: no item is copied. Under a
    /// layout that has an `Arc` as a block by itself the window stands on that: nothing is counted
    /// or added, and the pass stays one of no block. Under others it stands on a block that keeps
    /// the `Arc` and counts its own owners: the pass, which is of no block, becomes the block's,
    /// and the window is owner 0.
    ///
    /// # Errors
    ///
    /// The `Arc` comes back where memory for the block is refused; the pass is then as before.
    ///
    /// # Allocates
    ///
    /// Once, unless the `Arc` is a block by itself.
    #[tactic(auto, using(arc_parts::proofs::Held::raw_held))]
    pub fn try_from_raw_buffer_as(
        alloc: A,
        shared: Arc<B, A>,
        pass: &mut Pass<H>,
    ) -> Result<Self, Arc<B, A>>
    where
        S: AnyItems,
        L: AnyBufferLayout,
        requires pass { IsPassOfNone pass.old }
        ensures made { IfOk result (λ window. MakesOverRaw L.RAW H.whole
            (B.list (arc_value shared)) (given_as false (arc_value shared) None) window) }
        ensures pass { IfOk result (λ window. Begins window pass.old pass.new) }
        ensures refused { IfErr result (λ back. (back ≡ shared) × (L.RAW ≡ false)
            × (pass.new ≡ pass.old)) }
    {
        match Parts::try_from_raw_as::<L>(alloc, shared, pass) {
            Ok(parts) => Ok(Self::from_parts(parts)),
            Err(back) => Err(back),
        }
    }

    /// What is known of a caller's buffer on which the window stands, behind an `Arc` or not, fits
    /// the buffer: the items are a part of its own, and the block has its places. Does nothing: its
    /// contract is the law.
    pub fn known_given(&self)
        ensures { FitsGivenAt B.list B.places self.now.place self.now.items }
    {
        self.parts.known_given();
    }

    /// The metadata that the window's block was made with, or `None`.
    pub fn metadata(&self) -> Option<&M>
        ensures some { IfSome result (λ m. metadata_at self.now.place ≡ Some m.now) }
        ensures none { IfNone result (metadata_at self.now.place ≡ None) }
    {
        self.parts.metadata()
    }

    /// The metadata that lies in the caller's buffer on which the window stands, behind an `Arc` or
    /// not, or `None` where it stands on none.
    pub fn borrowed_metadata(&self) -> Option<&B::Metadata>
    where
        B: BorrowMetadata,
        ensures some { IfSome result (λ m.
            IsMetadataAt B.list B.metadata self.now.place self.now.items m.now) }
        ensures none { IfNone result (¬ IsOnCallers self.now.place) }
    {
        self.parts.borrowed_metadata()
    }

    /// The caller's buffer on which the window stands, where the items are all of it and no other
    /// owner lives. The block's metadata is dropped.
    ///
    /// # Errors
    ///
    /// The window comes back where it stands on no caller's buffer, where the items are only a part
    /// of it, and where another owner lives.
    ///
    /// # History
    ///
    /// Taken: Alone with yes, then Down. Refused: Alone with no, where only the count could decide;
    /// else nothing.
    pub fn try_into_buffer_as(self, pass: &mut Pass<H>) -> Result<B, Self>
        requires pass { IsPassAt self.place pass.old }
        ensures taken { IfOk result (λ buffer. IsBufferWhole self.items self.place
            × (B.list buffer ≡ self.items) × (B.places buffer ≡ size_at self.place)) }
        ensures itself { IfOk result (λ buffer. buffer_at self.place ≡ Some buffer) }
        ensures entries { IfOk result (λ _. TakesAt self.place pass.old pass.new) }
        ensures refused { IfErr result (λ window. (window ≡ self) × RefusesTaking
            (IsBufferWhole self.items self.place) self.place pass.old pass.new) }
    {
        match self.into_parts().try_into_buffer_as(pass) {
            Ok(buffer) => Ok(buffer),
            Err(parts) => Err(Self::from_parts(parts)),
        }
    }

    /// The `Arc` of the caller's buffer on which the window stands, where the items are all of the
    /// buffer, and no other owner lives of a block that counts its owners.
    ///
    /// # Errors
    ///
    /// The window comes back where it stands on no `Arc`, where the items are only a part of the
    /// buffer, and where another owner lives of a block that counts its owners.
    ///
    /// # History
    ///
    /// On an `Arc` that is a block by itself: nothing. On other blocks, taken: Alone with yes, then
    /// Down. Refused: Alone with no, where only the count could decide; else nothing.
    pub fn try_into_raw_buffer_as(self, pass: &mut Pass<H>) -> Result<Arc<B, A>, Self>
        requires pass { IsPassAt self.place pass.old }
        ensures taken { IfOk result (λ shared. IsRawWhole self.items self.place
            × (B.list (arc_value shared) ≡ self.items)) }
        ensures itself { IfOk result (λ shared. buffer_at self.place ≡ Some (arc_value shared)) }
        ensures entries { IfOk result (λ _. TakesAt self.place pass.old pass.new) }
        ensures refused { IfErr result (λ window. (window ≡ self) × RefusesTaking
            (IsRawWhole self.items self.place) self.place pass.old pass.new) }
    {
        match self.into_parts().try_into_raw_as(pass) {
            Ok(shared) => Ok(shared),
            Err(parts) => Err(Self::from_parts(parts)),
        }
    }

    /// Ends the window, where its items are all of a caller's buffer, by one subtraction from the
    /// count. The last owner gets the buffer, and the block's metadata is dropped; every other one
    /// gets `None`. So of owners that all end by this call exactly one gets it.
    ///
    /// # Errors
    ///
    /// The window comes back exactly where it stands on no caller's buffer, or where the items are
    /// only a part of it. No entry is added then.
    ///
    /// # History
    ///
    /// Down; nothing on an error.
    pub fn into_buffer_if_last_as(self, pass: &mut Pass<H>) -> Result<Option<B>, Self>
        requires pass { IsPassAt self.place pass.old }
        ensures ended { IfOk result (λ last. IsBufferWhole self.items self.place
            × LeavesLastAt self.place pass.old pass.new (is_some last)) }
        ensures buffer { IfOk result (λ last. IfSome last (λ buffer.
            (B.list buffer ≡ self.items) × (B.places buffer ≡ size_at self.place))) }
        ensures itself { IfOk result (λ last. IfSome last (λ buffer.
            buffer_at self.place ≡ Some buffer)) }
        ensures refused { IfErr result (λ window. (window ≡ self)
            × (¬ IsBufferWhole self.items self.place) × (pass.new ≡ pass.old)) }
    {
        match self.into_parts().into_buffer_if_last_as(pass) {
            Ok(last) => Ok(last),
            Err(parts) => Err(Self::from_parts(parts)),
        }
    }

    /// Ends the window, where its items are all of a caller's buffer behind an `Arc`, by one
    /// subtraction from the count. The last owner gets the `Arc`, and every other one `None`. Where
    /// the `Arc` is a block by itself, it is given at once, and nothing is counted.
    ///
    /// # Errors
    ///
    /// The window comes back exactly where it stands on no `Arc`, or where the items are only a
    /// part of the buffer. No entry is added then.
    ///
    /// # History
    ///
    /// On a block that counts its owners: Down; nothing on an error.
    pub fn into_raw_buffer_if_last_as(self, pass: &mut Pass<H>) -> Result<Option<Arc<B, A>>, Self>
        requires pass { IsPassAt self.place pass.old }
        ensures ended { IfOk result (λ last. IsRawWhole self.items self.place
            × LeavesLastAt self.place pass.old pass.new (is_some last)) }
        ensures shared { IfOk result (λ last. IfSome last (λ shared.
            B.list (arc_value shared) ≡ self.items)) }
        ensures itself { IfOk result (λ last. IfSome last (λ shared.
            buffer_at self.place ≡ Some (arc_value shared))) }
        ensures refused { IfErr result (λ window. (window ≡ self)
            × (¬ IsRawWhole self.items self.place) × (pass.new ≡ pass.old)) }
    {
        match self.into_parts().into_raw_if_last_as(pass) {
            Ok(last) => Ok(last),
            Err(parts) => Err(Self::from_parts(parts)),
        }
    }

    /// A window over all items of a caller's buffer, of which none is copied: `try_from_buffer_as`
    /// with a new pass.
    ///
    /// # Errors
    ///
    /// The buffer comes back where memory for the block is refused.
    ///
    /// # Allocates
    ///
    /// Once.
    pub fn try_from_buffer(alloc: A, buffer: B) -> Result<Self, B>
    where
        S: AnyItems,
        L: AnyBufferLayout,
        H: Stepping,
        ensures made { IfOk result (λ window. MakesOver Counted H.whole
            (buffer_info false (B.places buffer) (length (B.list buffer))
            (Some (given_as false buffer None))) (B.list buffer) window) }
        ensures pass { IfOk result (λ window.
            WithNewPass {M = M} {H = H} H.real nowhere (λ first last. Begins window first last)) }
        ensures refused { IfErr result (λ back. back ≡ buffer) }
    {
        let mut pass = Pass::none();
        let made = Self::try_from_buffer_as(alloc, buffer, &mut pass);
        pass.show();
        made
    }

    /// A window over all items of a caller's buffer, with metadata that all windows of the block
    /// share: `try_from_buffer_with_metadata_as` with a new pass.
    ///
    /// # Errors
    ///
    /// Buffer and metadata come back where memory for the block is refused.
    ///
    /// # Allocates
    ///
    /// Once.
    pub fn try_from_buffer_with_metadata(alloc: A, buffer: B, metadata: M) -> Result<Self, (B, M)>
    where
        S: AnyItems,
        L: AnyBufferLayout,
        H: Stepping,
        ensures made { IfOk result (λ window. MakesOver Counted H.whole
            (buffer_info false (B.places buffer) (length (B.list buffer))
            (Some (given_as false buffer (Some metadata)))) (B.list buffer) window) }
        ensures pass { IfOk result (λ window.
            WithNewPass {M = M} {H = H} H.real nowhere (λ first last. Begins window first last)) }
        ensures refused { IfErr result (λ back. (back.0 ≡ buffer) × (back.1 ≡ metadata)) }
    {
        let mut pass = Pass::none();
        let made = Self::try_from_buffer_with_metadata_as(alloc, buffer, metadata, &mut pass);
        pass.show();
        made
    }

    /// A window over all items of a caller's buffer behind an `Arc`: `try_from_raw_buffer_as` with
    /// a new pass.
    ///
    /// # Errors
    ///
    /// The `Arc` comes back where memory for the block is refused.
    ///
    /// # Allocates
    ///
    /// Once, unless the `Arc` is a block by itself.
    pub fn try_from_raw_buffer(alloc: A, shared: Arc<B, A>) -> Result<Self, Arc<B, A>>
    where
        S: AnyItems,
        L: AnyBufferLayout,
        H: Stepping,
        ensures made { IfOk result (λ window. MakesOverRaw L.RAW H.whole
            (B.list (arc_value shared)) (given_as false (arc_value shared) None) window) }
        ensures pass { IfOk result (λ window.
            WithNewPass {M = M} {H = H} H.real nowhere (λ first last. Begins window first last)) }
        ensures refused { IfErr result (λ back. (back ≡ shared) × (L.RAW ≡ false)) }
    {
        let mut pass = Pass::none();
        let made = Self::try_from_raw_buffer_as(alloc, shared, &mut pass);
        pass.show();
        made
    }

    /// The caller's buffer on which the window stands: `try_into_buffer_as` with a new pass.
    ///
    /// # Errors
    ///
    /// The window comes back where it stands on no caller's buffer, where the items are only a part
    /// of it, and where another owner lives.
    ///
    /// # History
    ///
    /// Taken: Alone with yes, then Down. Refused: Alone with no, where only the count could decide;
    /// else nothing.
    pub fn try_into_buffer(self) -> Result<B, Self>
    where
        H: Stepping,
        ensures taken { IfOk result (λ buffer. IsBufferWhole self.items self.place
            × (B.list buffer ≡ self.items) × (B.places buffer ≡ size_at self.place)) }
        ensures itself { IfOk result (λ buffer. buffer_at self.place ≡ Some buffer) }
        ensures entries { IfOk result (λ _. WithNewPass {H = H} H.real self.place (λ first last.
            TakesAt self.place first last)) }
        ensures refused { IfErr result (λ window. window ≡ self) }
        ensures asked { IfErr result (λ _. WithNewPass {H = H} H.real self.place (λ first last.
            RefusesTaking (IsBufferWhole self.items self.place) self.place first last)) }
    {
        let mut pass = self.pass();
        let taken = self.try_into_buffer_as(&mut pass);
        pass.show();
        taken
    }

    /// The `Arc` of the caller's buffer on which the window stands: `try_into_raw_buffer_as` with a
    /// new pass.
    ///
    /// # Errors
    ///
    /// The window comes back where it stands on no `Arc`, where the items are only a part of the
    /// buffer, and where another owner lives of a block that counts its owners.
    ///
    /// # History
    ///
    /// On an `Arc` that is a block by itself: nothing. On other blocks, taken: Alone with yes, then
    /// Down. Refused: Alone with no, where only the count could decide; else nothing.
    pub fn try_into_raw_buffer(self) -> Result<Arc<B, A>, Self>
    where
        H: Stepping,
        ensures taken { IfOk result (λ shared. IsRawWhole self.items self.place
            × (B.list (arc_value shared) ≡ self.items)) }
        ensures itself { IfOk result (λ shared. buffer_at self.place ≡ Some (arc_value shared)) }
        ensures entries { IfOk result (λ _. WithNewPass {H = H} H.real self.place (λ first last.
            TakesAt self.place first last)) }
        ensures refused { IfErr result (λ window. window ≡ self) }
        ensures asked { IfErr result (λ _. WithNewPass {H = H} H.real self.place (λ first last.
            RefusesTaking (IsRawWhole self.items self.place) self.place first last)) }
    {
        let mut pass = self.pass();
        let taken = self.try_into_raw_buffer_as(&mut pass);
        pass.show();
        taken
    }

    /// Ends the window, and gives the buffer to the last owner: `into_buffer_if_last_as` with a new
    /// pass.
    ///
    /// # Errors
    ///
    /// The window comes back exactly where it stands on no caller's buffer, or where the items are
    /// only a part of it. No entry is added then.
    ///
    /// # History
    ///
    /// Down; nothing on an error.
    pub fn into_buffer_if_last(self) -> Result<Option<B>, Self>
    where
        H: Stepping,
        ensures ended { IfOk result (λ last. IsBufferWhole self.items self.place
            × WithNewPass {H = H} H.real self.place (λ first now.
            LeavesLastAt self.place first now (is_some last))) }
        ensures buffer { IfOk result (λ last. IfSome last (λ buffer.
            (B.list buffer ≡ self.items) × (B.places buffer ≡ size_at self.place))) }
        ensures itself { IfOk result (λ last. IfSome last (λ buffer.
            buffer_at self.place ≡ Some buffer)) }
        ensures refused { IfErr result (λ window. (window ≡ self)
            × (¬ IsBufferWhole self.items self.place)
            × WithNewPass {H = H} H.real self.place (λ first last. last ≡ first)) }
    {
        let mut pass = self.pass();
        let ended = self.into_buffer_if_last_as(&mut pass);
        pass.show();
        ended
    }

    /// Ends the window, and gives the `Arc` to the last owner: `into_raw_buffer_if_last_as` with a
    /// new pass.
    ///
    /// # Errors
    ///
    /// The window comes back exactly where it stands on no `Arc`, or where the items are only a
    /// part of the buffer. No entry is added then.
    ///
    /// # History
    ///
    /// On a block that counts its owners: Down; nothing on an error.
    pub fn into_raw_buffer_if_last(self) -> Result<Option<Arc<B, A>>, Self>
    where
        H: Stepping,
        ensures ended { IfOk result (λ last. IsRawWhole self.items self.place
            × WithNewPass {H = H} H.real self.place (λ first now.
            LeavesLastAt self.place first now (is_some last))) }
        ensures shared { IfOk result (λ last. IfSome last (λ shared.
            B.list (arc_value shared) ≡ self.items)) }
        ensures itself { IfOk result (λ last. IfSome last (λ shared.
            buffer_at self.place ≡ Some (arc_value shared))) }
        ensures refused { IfErr result (λ window. (window ≡ self)
            × (¬ IsRawWhole self.items self.place)
            × WithNewPass {H = H} H.real self.place (λ first last. last ≡ first)) }
    {
        let mut pass = self.pass();
        let ended = self.into_raw_buffer_if_last_as(&mut pass);
        pass.show();
        ended
    }
}
