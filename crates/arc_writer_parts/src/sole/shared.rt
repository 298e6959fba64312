//! A sole writer's parts, as those of one of several writers.
ghost use Rattle.std.specs.Prelude.{◌≡◌, false, IfOk, IfErr};
ghost use Rattle.arc_parts.specs.Shared.{as_shared};
ghost use Rattle.arc_parts.specs.Window.{IsOfBuffer};

use super::{SoleOther, SoleParts, SoleStorage};
use crate::shared::SharedParts;
use arc_buffer::buffer::BufferMut;
use arc_buffer::kinds::Slice;
use arc_owners::mark::Mark;
use std::alloc::Allocator;

impl<S: Slice, B: BufferMut<S::Item> + Drop, M: Drop, A: Allocator + Copy, H: Mark> SoleParts<
    S,
    B,
    M,
    A,
    H,
> {
    /// The same items and places, as those of one of several writers. It adds no entry and takes no
    /// memory.
    ///
    /// # Errors
    ///
    /// The parts come back exactly where they stand on a caller's buffer.
    pub fn into_shared(self) -> Result<SharedParts<S, B, M, A, H>, Self>
        requires kind { S.DROPS ≡ false }
        ensures shared { IfOk result (λ shared. (shared ≡ as_shared self)
            × (¬ IsOfBuffer self.place)) }
        ensures refused { IfErr result (λ back. (back ≡ self) × IsOfBuffer self.place) }
    {
        if self.is_on_buffer() {
            return Err(self);
        }
        Ok(self.into_shared_memory())
    }

    /// `into_shared` of parts that stand on no caller's buffer.
    pub(crate) fn into_shared_memory(self) -> SharedParts<S, B, M, A, H>
        requires kind { S.DROPS ≡ false }
        requires place { ¬ IsOfBuffer self.place }
        ensures { result ≡ as_shared self }
    {
        let SoleParts { on } = self;
        match on {
            SoleStorage::Native(parts) => {
                let alloc = parts.alloc();
                match parts.into_several() {
                    Ok(writer) => SharedParts::several(alloc, writer),
                    Err(parts) => SharedParts::alone(alloc, Self::in_native(parts)),
                }
            }
            SoleStorage::Other(SoleOther::Vector(parts)) => {
                let alloc = parts.alloc();
                parts.is_alone_place();
                SharedParts::alone(alloc, Self::in_vector(parts))
            }
            SoleStorage::Other(SoleOther::Buffer(parts)) => {
                parts.known_buffer();
                unreachable!()
            }
        }
    }
}
