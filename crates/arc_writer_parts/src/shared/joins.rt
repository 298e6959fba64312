//! How the places of two of several writers are joined.
ghost use Rattle.std.specs.Prelude.{◌≡◌, true, false, IfOk, IfErr, OnOk};
ghost use Rattle.arc_parts.specs.Shared.{IsOneBlock, can_join, joined_row, LeavesAt};
ghost use Rattle.arc_parts.specs.Steps.{IsPassAt};

use super::{SharedParts, SharedStorage};
use arc_buffer::buffer::BufferMut;
use arc_buffer::kinds::Slice;
use arc_owners::mark::Mark;
use arc_owners::owners::Pass;
use std::alloc::Allocator;
use std::mem;

impl<S: Slice, B: BufferMut<S::Item> + Drop, M: Drop, A: Allocator + Copy, H: Mark> SharedParts<
    S,
    B,
    M,
    A,
    H,
> {
    /// Puts the other parts' places, with the items that lie there, behind these. The other owner
    /// ends. These parts have to be full, and the others to begin in the block where these end; or
    /// both stand on nothing. The caller has to show that it is one block, where both stand on one.
    ///
    /// # Errors
    ///
    /// The other parts come back exactly where these aren't full, or the others don't begin where
    /// these end. Nothing is changed then.
    ///
    /// # History
    ///
    /// On a block: Down of the other owner; nothing where it is refused.
    pub fn try_unsplit_as(&mut self, other: Self, pass: &mut Pass<H>) -> Result<(), Self>
        requires block { IsOneBlock self.old.place other.place }
        requires pass { IsPassAt self.old.place pass.old }
        ensures joined { OnOk result ((can_join self.old other ≡ true)
            × (self.new ≡ joined_row self.old other)
            × LeavesAt other.place pass.old pass.new) }
        ensures refused { IfErr result (λ back. (can_join self.old other ≡ false)
            × (back ≡ other) × (self.new ≡ self.old) × (pass.new ≡ pass.old)) }
    {
        self.known_kind();
        let nothing = Self::on_nothing(self.alloc);
        match mem::replace(self, nothing).unsplit_as(other, pass) {
            Ok(joined) => {
                self.take_in(joined);
                Ok(())
            }
            Err((parts, other)) => {
                self.take_in(parts);
                Err(other)
            }
        }
    }

    /// `try_unsplit_as` by value: where it is refused, both parts come back.
    fn unsplit_as(self, other: Self, pass: &mut Pass<H>) -> Result<Self, (Self, Self)>
        requires block { IsOneBlock self.place other.place }
        requires pass { IsPassAt self.place pass.old }
        ensures joined { IfOk result (λ whole. (can_join self other ≡ true)
            × (whole ≡ joined_row self other) × LeavesAt other.place pass.old pass.new) }
        ensures refused { IfErr result (λ r. (can_join self other ≡ false)
            × (r.0 ≡ self) × (r.1 ≡ other) × (pass.new ≡ pass.old)) }
    {
        let SharedParts { on, alloc } = self;
        let SharedParts {
            on: behind,
            alloc: its,
        } = other;
        match on {
            SharedStorage::Several(writer) => match behind {
                SharedStorage::Several(back) => {
                    if !writer.can_join(&back) {
                        return Err((Self::several(alloc, writer), Self::several(its, back)));
                    }
                    Ok(Self::several(alloc, writer.unsplit_as(back, pass)))
                }
                SharedStorage::Alone(parts) => {
                    parts.apart_from(&writer);
                    Err((Self::several(alloc, writer), Self::alone(its, parts)))
                }
            },
            SharedStorage::Alone(mut parts) => match behind {
                SharedStorage::Several(back) => {
                    parts.apart_from(&back);
                    Err((Self::alone(alloc, parts), Self::several(its, back)))
                }
                SharedStorage::Alone(back) => {
                    parts.apart_from_sole(&back);
                    if parts.is_on_block() || back.is_on_block() {
                        return Err((Self::alone(alloc, parts), Self::alone(its, back)));
                    }
                    Ok(Self::on_nothing(alloc))
                }
            },
        }
    }
}
