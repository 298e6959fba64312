//! A sole writer's parts over a caller's buffer: made of one, and taken back as one.
ghost use Rattle.std.specs.Prelude.{◌≡◌, true, length, Some};
ghost use Rattle.std.specs.Prelude.{IfOk, IfErr};
ghost use Rattle.arc_owners.specs.count.Calls.{IsPassOfNone, Leaves};
ghost use Rattle.arc_block.specs.Block.{buffer_info};
ghost use Rattle.arc_block.specs.Given.{given_as};
ghost use Rattle.arc_block.specs.Place.{at_owner, buffer_at};
ghost use Rattle.arc_parts.specs.Steps.{IsPassAt};
ghost use Rattle.arc_parts.specs.Window.{IsBufferWhole};
ghost use Rattle.arc_parts.specs.Writers.{MakesBufferWriter};
ghost use Rattle.arc_block.specs.Place.{size_at};

use super::{SoleOther, SoleParts, SoleStorage};
use arc_buffer::buffer::BufferMut;
use arc_buffer::kinds::Slice;
use arc_owners::mark::Mark;
use arc_owners::owners::Pass;
use arc_sort_writers::buffer::SoleBuffer;
use std::alloc::Allocator;

impl<S: Slice, B: BufferMut<S::Item> + Drop, M: Drop, A: Allocator + Copy, H: Mark> SoleParts<
    S,
    B,
    M,
    A,
    H,
> {
    /// All items of a caller's buffer with its places, on a block that keeps the buffer as one that
    /// may be written, and the metadata, if there is some. No item is copied. The pass, which is of
    /// no block, becomes the block's.
    ///
    /// # Errors
    ///
    /// Buffer and metadata come back where memory for the block is refused; the pass is then as
    /// before.
    ///
    /// # Allocates
    ///
    /// Once.
    pub fn try_from_buffer_as(
        alloc: A,
        buffer: B,
        metadata: Option<M>,
        pass: &mut Pass<H>,
    ) -> Result<Self, (B, Option<M>)>
        requires pass { IsPassOfNone pass.old }
        ensures made { IfOk result (λ parts. MakesBufferWriter H.whole
            (buffer_info true (B.places buffer) (length (B.list buffer))
            (Some (given_as true buffer metadata))) (B.list buffer) parts pass.new) }
        ensures refused { IfErr result (λ back. (back.0 ≡ buffer) × (back.1 ≡ metadata)
            × (pass.new ≡ pass.old)) }
    {
        match SoleBuffer::try_from_buffer_as(alloc, buffer, metadata, pass) {
            Ok(parts) => Ok(Self::in_buffer(parts)),
            Err(back) => Err(back),
        }
    }

    /// The caller's buffer, where the items are all of it. The block's metadata is dropped.
    ///
    /// # Errors
    ///
    /// The parts come back where they stand on no caller's buffer, and where the items are only a
    /// part of it; the pass is then as before.
    ///
    /// # History
    ///
    /// Taken: Down, without an atomic step. Refused: nothing.
    pub fn try_into_buffer_as(self, pass: &mut Pass<H>) -> Result<B, Self>
        requires pass { IsPassAt self.place pass.old }
        ensures taken { IfOk result (λ buffer. IsBufferWhole self.items self.place
            × (B.list buffer ≡ self.items) × (B.places buffer ≡ size_at self.place)) }
        ensures itself { IfOk result (λ buffer. buffer_at self.place ≡ Some buffer) }
        ensures entry { IfOk result (λ _. at_owner self.place ⊥ (λ o.
            Leaves o pass.old pass.new true)) }
        ensures refused { IfErr result (λ back. (back ≡ self)
            × (¬ IsBufferWhole self.items self.place) × (pass.new ≡ pass.old)) }
    {
        let SoleParts { on } = self;
        match on {
            SoleStorage::Native(parts) => Err(Self::in_native(parts.not_buffer())),
            SoleStorage::Other(SoleOther::Vector(parts)) => Err(Self::in_vector(
                parts.not_buffer(),
            )),
            SoleStorage::Other(SoleOther::Buffer(parts)) => match parts.try_into_buffer_as(pass) {
                Ok(buffer) => Ok(buffer),
                Err(back) => Err(Self::in_buffer(back)),
            },
        }
    }
}
