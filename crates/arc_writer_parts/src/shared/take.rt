//! The items of one of several writers as an array, while no other owner lives.
ghost use Rattle.std.specs.Prelude.{◌≡◌, IfOk, IfErr};
ghost use Rattle.arc_parts.specs.Steps.{IsPassAt, TakesAt, RefusesTaking};
ghost use Rattle.arc_parts.specs.Writers.{IsWholeWriter};

use super::{SharedParts, SharedStorage};
use crate::role::WriterParts;
use arc_buffer::buffer::BufferMut;
use arc_buffer::kinds::Slice;
use arc_owners::mark::Mark;
use arc_owners::owners::Pass;
use std::alloc::Allocator;

impl<S: Slice, B: BufferMut<S::Item> + Drop, M: Drop, A: Allocator + Copy, H: Mark> SharedParts<
    S,
    B,
    M,
    A,
    H,
> {
    /// The items as an array of `N`. On a block they have to fill all places of a native one, and
    /// no other owner may live.
    ///
    /// # Errors
    ///
    /// The parts come back with another number of items, on a block whose places they don't fill,
    /// on a vector, and where another owner lives.
    ///
    /// # History
    ///
    /// Taken off a block: Alone with yes, then Down. Refused: Alone with no, where only the count
    /// could decide; else nothing.
    #[tactic(auto, using(crate::proofs::Takes::asked_taken, crate::proofs::Takes::asked_refused))]
    pub fn try_into_array_as<const N: usize>(self, pass: &mut Pass<H>) -> Result<[S::Item; N], Self>
        requires pass { IsPassAt self.place pass.old }
        ensures taken { IfOk result (λ array. IsWholeWriter N self × (array ≡ self.items)) }
        ensures entries { IfOk result (λ _. TakesAt self.place pass.old pass.new) }
        ensures refused { IfErr result (λ back. (back ≡ self) × RefusesTaking
            (IsWholeWriter N self) self.place pass.old pass.new) }
    {
        self.known_kind();
        self.known_place();
        let SharedParts { on, alloc } = self;
        match on {
            SharedStorage::Several(writer) => match writer.try_into_array_as::<N>(pass) {
                Ok(array) => Ok(array),
                Err(writer) => Err(Self::several(alloc, writer)),
            },
            SharedStorage::Alone(parts) => match parts.try_into_array_as::<N>(pass) {
                Ok(array) => Ok(array),
                Err(parts) => Err(Self::alone(alloc, parts)),
            },
        }
    }
}
