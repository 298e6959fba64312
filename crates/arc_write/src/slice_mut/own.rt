//! Owners of a write window's block, and ends of the window.
ghost use Rattle.std.specs.Prelude.{◌≡◌, false, true};
ghost use Rattle.arc_owners.specs.count.Calls.{IsNewPass, IsPassOfNone, Learns, SeesAlone};
ghost use Rattle.arc_block.specs.Block.{IsLimited};
ghost use Rattle.arc_block.specs.Place.{at_owner};
ghost use Rattle.arc_parts.specs.Steps.{EndsAt, IsPassAt};
ghost use Rattle.arc_writer_parts.specs.Roles.{ReleasesAt, ReleasesHintedAt};
ghost use Rattle.arc_read.specs.Steps.{WithNewPass};

use crate::slice_mut::{ArcSliceMut, WriteWindow};
use arc_block::layout::LayoutMut;
use arc_buffer::buffer::BufferMut;
use arc_buffer::kinds::Slice;
use arc_owners::mark::{Mark, Stepping};
use arc_owners::owners::Pass;
use arc_writer_parts::role::{RoleOf, WriterParts};
use std::alloc::Allocator;

impl<
    S: Slice,
    L: LayoutMut,
    R: RoleOf<S, B, M, A, H>,
    B: BufferMut<S::Item> + Drop,
    M: Drop,
    A: Allocator + Copy,
    H: Mark,
> WriteWindow<S, L, R, B, M, A, H> {
    /// Ends the window; the last owner gives the block back.
    ///
    /// # History
    ///
    /// On a block: Down; of a sole writer, and on a vector, without an atomic step.
    pub fn release_as(self, pass: &mut Pass<H>)
        requires pass { IsPassAt self.place pass.old }
        ensures entry { ReleasesAt R.Parts.several self.place pass.old pass.new }
    {
        self.into_parts().release_as(pass);
    }

    /// Ends the window. One of several writers reads the count first: where no other owner lives it
    /// gives the block back without another step. A block's only owner reads no count.
    ///
    /// # History
    ///
    /// On a block, of a sole writer: Down, without an atomic step. On a block, of one of several:
    /// Alone with the answer, then Down.
    pub fn drop_with_unique_hint_as(self, pass: &mut Pass<H>)
        requires pass { IsPassAt self.place pass.old }
        ensures entry { ReleasesHintedAt R.Parts.several self.place pass.old pass.new }
    {
        self.into_parts().release_with_unique_hint_as(pass);
    }

    /// Ends the window: `drop_with_unique_hint_as` with a new pass.
    ///
    /// # History
    ///
    /// On a block, of a sole writer: Down, without an atomic step. On a block, of one of several:
    /// Alone with the answer, then Down.
    pub fn drop_with_unique_hint(self)
    where
        H: Stepping,
        ensures entry { WithNewPass {H = H} H.real self.place (λ first last.
            ReleasesHintedAt R.Parts.several self.place first last) }
    {
        let mut pass = self.pass();
        self.drop_with_unique_hint_as(&mut pass);
        pass.show();
    }

    /// From here on the first pass has seen at least what the other had. It adds no entry.
    pub fn learn(&self, pass: &mut Pass<H>, other: &Pass<H>)
        requires pass { IsPassAt self.now.place pass.old }
        requires other { IsPassAt self.now.place other.now }
        ensures { at_owner self.now.place (pass.new ≡ pass.old) (λ o.
            Learns o.block pass.old other.now pass.new) }
    {
        self.parts.learn(pass, other);
    }

    /// Does what a drop does. Under `Open` the window ends with a new pass, which is returned, and
    /// the last owner gives the block back with its items. Under `Whole` the window is a forgotten
    /// owner: no step is made, and its items stay. Under `Whole`, and on no block, the returned
    /// pass is of no block.
    ///
    /// # History
    ///
    /// Under `Open`, on a block: Down; of a sole writer, and on a vector, without an atomic step.
    /// Else nothing.
    pub fn let_go(self) -> Pass<H>
        ensures forgotten { H.whole ≡ true → IsPassOfNone result }
        ensures ended { H.whole ≡ false → EndsAt self.place result }
    {
        self.into_parts().let_go()
    }

    /// `MAX_OWNERS`: how many owners the window's block may have at once. The contract says too
    /// that the block is under the mark `H`.
    pub fn max_owners(&self) -> u64
        ensures answer { result ≡ 9223372036854775807 }
        ensures block { at_owner self.now.place (Unit {0}) (λ o.
            IsLimited 9223372036854775807 H.whole o) }
    {
        self.parts.max_owners()
    }

    /// A new pass of the window's block. It has seen at least how the window became an owner, and
    /// has added no entry. On no block it is a pass of none.
    pub fn pass(&self) -> Pass<H>
    where
        H: Stepping,
        ensures { at_owner self.now.place (IsPassOfNone result) (λ o. IsNewPass o result) }
    {
        self.parts.pass()
    }
}

impl<
    S: Slice,
    L: LayoutMut,
    B: BufferMut<S::Item> + Drop,
    M: Drop,
    A: Allocator + Copy,
    H: Mark,
> ArcSliceMut<S, L, 1, B, M, A, H> {
    /// From here on the pass has seen that the window is its block's only owner. It adds no entry.
    pub fn only(&self, pass: &mut Pass<H>)
        requires pass { IsPassAt self.now.place pass.old }
        ensures { at_owner self.now.place (pass.new ≡ pass.old) (λ o.
            SeesAlone o pass.old pass.new) }
    {
        self.parts.only(pass);
    }
}
