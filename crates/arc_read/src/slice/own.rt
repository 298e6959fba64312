//! Owners of a read window's block, and ends of the window.
ghost use Rattle.std.specs.Prelude.{◌≡◌, Bool, true, false, IfOk, IfErr};
ghost use Rattle.arc_block.specs.Block.{IsLimited};
ghost use Rattle.arc_block.specs.Place.{IsOnBlock, at_owner};
ghost use Rattle.arc_parts.specs.Window.{IsWholeOf};
ghost use Rattle.arc_parts.specs.Steps.{IsPassAt, RefusesArray, EndsAt};
ghost use Rattle.arc_block.specs.Unique.{AsksUniqueAt, AsksOwnAt, IsAnswerAt};
ghost use Rattle.arc_owners.specs.count.Calls.{IsPassOfNone, IsNewPass, Learns, Leaves};
ghost use Rattle.arc_owners.specs.count.Calls.{TakesBlock, AsksAndLeaves};
ghost use Rattle.arc_read.specs.Steps.{WithNewPass};

use super::ArcSlice;
use arc_block::layout::Layout;
use arc_buffer::buffer::Buffer;
use arc_buffer::kinds::Slice;
use arc_owners::mark::{Mark, Stepping};
use arc_owners::owners::Pass;
use std::alloc::Allocator;

// Plain forms are generic over the marks under which a block has many passes, of which `Open` is
// the only one. So a body can show a pass only by one that is there (`Pass::show`), and none that
// it made up.
impl<
    S: Slice,
    L: Layout,
    B: Buffer<S::Item> + Drop,
    M: Drop,
    A: Allocator + Copy,
    H: Mark,
> ArcSlice<S, L, B, M, A, H> {
    /// Whether no other owner has a part of what the window stands on. On a block that is no `Arc`
    /// the count is read, by one load. Where the count finds no other owner of a caller's buffer,
    /// the answer is the buffer's own. On an `Arc` and on no block the answer is `false`.
    ///
    /// # History
    ///
    /// On a block that is no `Arc`: Alone with what the count says.
    #[inline(always)]
    pub fn is_unique_as(&self, pass: &mut Pass<H>) -> bool
        requires pass { IsPassAt self.now.place pass.old }
        ensures entry { AsksUniqueAt self.now.place pass.old pass.new result }
        ensures own { AsksOwnAt (IsAnswerAt B.list B.says_unique self.now.place self.now.items)
            self.now.place pass.old pass.new result }
    {
        self.parts.is_unique_as(pass)
    }

    /// Whether no other owner has a part of what the window stands on: `is_unique_as` with a new
    /// pass.
    ///
    /// # History
    ///
    /// On a block that is no `Arc`: Alone with what the count says.
    #[inline(always)]
    pub fn is_unique(&self) -> bool
    where
        H: Stepping,
        ensures entry { WithNewPass {H = H} H.real self.now.place (λ first last.
            AsksUniqueAt self.now.place first last result
            × AsksOwnAt (IsAnswerAt B.list B.says_unique self.now.place self.now.items)
            self.now.place first last result) }
    {
        let mut pass = self.pass();
        let found = self.is_unique_as(&mut pass);
        pass.show();
        found
    }

    /// The items as an array of `N`, where they are all places of a native block, and no other
    /// owner lives.
    ///
    /// # Errors
    ///
    /// The window comes back where it has another number of items, where these aren't all places of
    /// a native block, and where another owner lives.
    ///
    /// # History
    ///
    /// Taken: Alone with yes, then Down. Refused: Alone with no, where only the count could decide;
    /// else nothing.
    pub fn try_into_array_as<const N: usize>(self, pass: &mut Pass<H>) -> Result<[S::Item; N], Self>
        requires pass { IsPassAt self.place pass.old }
        ensures taken { IfOk result (λ array. IsWholeOf N self × (array ≡ self.items)) }
        ensures entries { IfOk result (λ _.
            at_owner self.place ⊥ (λ o. TakesBlock o pass.old pass.new)) }
        ensures refused { IfErr result (λ window. (window ≡ self)
            × RefusesArray N self pass.old pass.new) }
    {
        match self.into_parts().try_into_array_as(pass) {
            Ok(array) => Ok(array),
            Err(parts) => Err(Self::from_parts(parts)),
        }
    }

    /// The items as an array of `N`: `try_into_array_as` with a new pass.
    ///
    /// # Errors
    ///
    /// The window comes back where it has another number of items, where these aren't all places of
    /// a native block, and where another owner lives.
    ///
    /// # History
    ///
    /// Taken: Alone with yes, then Down. Refused: Alone with no, where only the count could decide;
    /// else nothing.
    pub fn try_into_array<const N: usize>(self) -> Result<[S::Item; N], Self>
    where
        H: Stepping,
        ensures taken { IfOk result (λ array. IsWholeOf N self × (array ≡ self.items)) }
        ensures entries { IfOk result (λ _. WithNewPass {H = H} H.real self.place (λ first last.
            at_owner self.place ⊥ (λ o. TakesBlock o first last))) }
        ensures refused { IfErr result (λ window. window ≡ self) }
        ensures asked { IfErr result (λ _.
            WithNewPass {H = H} H.real self.place (λ first last. RefusesArray N self first last)) }
    {
        let mut pass = self.pass();
        let taken = self.try_into_array_as(&mut pass);
        pass.show();
        taken
    }

    /// The items as a `'static` slice, where the window stands on one, or on nothing.
    ///
    /// # Errors
    ///
    /// The window comes back exactly where it stands on a block.
    pub fn try_into_static(self) -> Result<&'static [S::Item], Self>
    where
        S::Item: 'static,
        ensures taken { IfOk result (λ items. (items.now ≡ self.items)
            × ¬ IsOnBlock self.place) }
        ensures refused { IfErr result (λ window. (window ≡ self) × IsOnBlock self.place) }
    {
        match self.into_parts().try_into_static() {
            Ok(items) => Ok(items.into_static()),
            Err(parts) => Err(Self::from_parts(parts)),
        }
    }

    /// Ends the window. The last owner gives the block back.
    ///
    /// # History
    ///
    /// On a block that counts its owners: Down.
    #[inline(always)]
    pub fn release_as(self, pass: &mut Pass<H>)
        requires pass { IsPassAt self.place pass.old }
        ensures entry { at_owner self.place (pass.new ≡ pass.old) (λ o. (last : Bool)
            × Leaves o pass.old pass.new last) }
    {
        self.into_parts().release_as(pass);
    }

    /// What a drop does. Under `Open` the window ends with a new pass, which is the answer, and the
    /// last owner gives the block back. Under `Whole` the window is a forgotten owner: no step is
    /// made. The answer is a pass of no block under `Whole`, and on no block.
    ///
    /// # History
    ///
    /// Under `Open`, on a block that counts its owners: Down. Else nothing.
    #[inline(always)]
    pub fn let_go(self) -> Pass<H>
        ensures forgotten { H.whole ≡ true → IsPassOfNone result }
        ensures ended { H.whole ≡ false → EndsAt self.place result }
    {
        self.into_parts().let_go()
    }

    /// Ends the window. It reads the count first: where no other owner lives it gives the block
    /// back without another step, and else it counts down.
    ///
    /// # History
    ///
    /// On a block that counts its owners: Alone with the answer, then Down.
    pub fn drop_with_unique_hint_as(self, pass: &mut Pass<H>)
        requires pass { IsPassAt self.place pass.old }
        ensures entries { at_owner self.place (pass.new ≡ pass.old) (λ o.
            AsksAndLeaves o pass.old pass.new) }
    {
        self.into_parts().drop_with_unique_hint_as(pass);
    }

    /// Ends the window, and reads the count first: `drop_with_unique_hint_as` with a new pass.
    ///
    /// # History
    ///
    /// On a block that counts its owners: Alone with the answer, then Down.
    pub fn drop_with_unique_hint(self)
    where
        H: Stepping,
        ensures entries { WithNewPass {H = H} H.real self.place (λ first last.
            at_owner self.place (last ≡ first) (λ o. AsksAndLeaves o first last)) }
    {
        let mut pass = self.pass();
        self.drop_with_unique_hint_as(&mut pass);
        pass.show();
    }

    /// The same window, of items of another kind, for which its list is legal.
    pub(super) fn into_kind<K: Slice<Item = S::Item>>(self) -> ArcSlice<K, L, B, M, A, H>
        requires drops { K.DROPS ≡ S.DROPS }
        requires legal { ∥ K.is_legal self.items ∥₁ }
        ensures { result ≡ self }
    {
        ArcSlice::from_parts(self.into_parts().into_kind())
    }

    /// Lets `pass` see all that `other` has seen. Both are passes of the window's block. It adds no
    /// entry. On no block nothing changes.
    pub fn learn(&self, pass: &mut Pass<H>, other: &Pass<H>)
        requires pass { IsPassAt self.now.place pass.old }
        requires other { IsPassAt self.now.place other.now }
        ensures { at_owner self.now.place (pass.new ≡ pass.old) (λ o.
            Learns o.block pass.old other.now pass.new) }
    {
        self.parts.learn(pass, other);
    }

    /// `MAX_OWNERS`: how many owners the window's block may have at once. The contract says too
    /// that the block is under the mark `H`.
    pub fn max_owners(&self) -> u64
        ensures answer { result ≡ 9223372036854775807 }
        ensures block { at_owner self.now.place (Unit {0}) (λ o.
            IsLimited 9223372036854775807 H.whole o) }
    {
        self.parts.max_owners()
    }

    /// A new pass of the window's block. It has seen at least how the window became an owner, and
    /// has added no entry. On no block it is a pass of none.
    pub fn pass(&self) -> Pass<H>
    where
        H: Stepping,
        ensures { at_owner self.now.place (IsPassOfNone result) (λ o. IsNewPass o result) }
    {
        self.parts.pass()
    }
}
