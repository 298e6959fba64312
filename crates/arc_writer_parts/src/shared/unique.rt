//! One of several writers becomes the only one.
ghost use Rattle.std.specs.Prelude.{◌≡◌, IfOk, IfErr, IfSome, is_ok, is_some};
ghost use Rattle.arc_owners.specs.count.Calls.{IsFreshPass};
ghost use Rattle.arc_block.specs.Block.{native};
ghost use Rattle.arc_block.specs.Place.{at_owner};
ghost use Rattle.arc_parts.specs.Shared.{AsksAlone, as_unique, BecomesUnique};
ghost use Rattle.arc_parts.specs.Steps.{IsPassAt, LeavesLastAt};
ghost use Rattle.arc_parts.specs.Window.{IsOfSort};

use super::{SharedParts, SharedStorage};
use crate::sole::SoleParts;
use arc_block::block::{MAX_OWNERS, NativeCount};
use arc_buffer::buffer::BufferMut;
use arc_buffer::kinds::Slice;
use arc_owners::mark::Mark;
use arc_owners::owners::Pass;
use arc_sort_writers::native::SoleNative;
use std::alloc::Allocator;

impl<S: Slice, B: BufferMut<S::Item> + Drop, M: Drop, A: Allocator + Copy, H: Mark> SharedParts<
    S,
    B,
    M,
    A,
    H,
> {
    /// The same items and places, as their only writer, where they stand on a block that no other
    /// owner has. The number of places stays the same: those of the block behind them become the
    /// writer's own where room is asked for (`SoleParts::try_reserve_as`). It takes no memory.
    ///
    /// # Errors
    ///
    /// The parts come back on no block, and where another owner lives.
    ///
    /// # History
    ///
    /// On a block: Alone with the answer.
    pub fn try_into_unique_as(self, pass: &mut Pass<H>) -> Result<SoleParts<S, B, M, A, H>, Self>
        requires pass { IsPassAt self.place pass.old }
        ensures entry { AsksAlone self.place pass.old pass.new (is_ok result) }
        ensures sole { IfOk result (λ sole. sole ≡ as_unique self) }
        ensures refused { IfErr result (λ back. back ≡ self) }
    {
        self.known_kind();
        let SharedParts { on, alloc } = self;
        match on {
            SharedStorage::Several(writer) => {
                let capacity = writer.capacity();
                let _ = writer.start();
                match writer.try_into_sole_as(pass) {
                    Ok((count, memory)) => {
                        let parts = SoleNative::of_several(alloc, count, memory, capacity);
                        Ok(SoleParts::in_native(parts))
                    }
                    Err(writer) => Err(Self::several(alloc, writer)),
                }
            }
            SharedStorage::Alone(parts) => {
                parts.known_role();
                if parts.is_alone_as(pass) {
                    Ok(parts)
                } else {
                    Err(Self::alone(alloc, parts))
                }
            }
        }
    }

    /// Ends the parts, where they stand on a native block, by one subtraction from the count. The
    /// last owner gets the block's memory: parts of the only writer of the same items and places,
    /// on a new block, and a pass of that. Every other one gets `None`. It takes no memory.
    ///
    /// # Errors
    ///
    /// The parts come back exactly on nothing and on a vector, where they have no other owner
    /// beside them. Nothing is done then.
    ///
    /// # History
    ///
    /// Down; nothing on an error.
    pub fn into_unique_if_last_as(
        self,
        pass: &mut Pass<H>,
    ) -> Result<Option<(SoleParts<S, B, M, A, H>, Pass<H>)>, Self>
        requires pass { IsPassAt self.place pass.old }
        ensures ended { IfOk result (λ last. IsOfSort native self.place
            × LeavesLastAt self.place pass.old pass.new (is_some last)) }
        ensures sole { IfOk result (λ last. IfSome last (λ r. BecomesUnique H.whole self r.0)) }
        ensures pass { IfOk result (λ last. IfSome last (λ r.
            at_owner r.0.place ⊥ (λ o. IsFreshPass o r.1))) }
        ensures refused { IfErr result (λ back. (back ≡ self)
            × (¬ IsOfSort native self.place) × (pass.new ≡ pass.old)) }
    {
        self.known_kind();
        let SharedParts { on, alloc } = self;
        match on {
            SharedStorage::Several(writer) => {
                let capacity = writer.capacity();
                let _ = writer.start();
                match writer.into_memory_if_last_as(pass) {
                    Some(memory) => {
                        let (count, new) = NativeCount::<MAX_OWNERS, H>::new();
                        let parts = SoleNative::of_several(alloc, count, memory, capacity);
                        Ok(Some((SoleParts::in_native(parts), new)))
                    }
                    None => Ok(None),
                }
            }
            SharedStorage::Alone(parts) => Err(Self::alone(alloc, parts)),
        }
    }
}
