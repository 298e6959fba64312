//! Windows of several writers on one block: how a window becomes one, and is its block's only owner
//! again.
ghost use Rattle.std.specs.Prelude.{◌≡◌, false, IfErr, IfOk, IfSome, is_ok, is_some, ℕ};
ghost use Rattle.arc_owners.specs.count.Calls.{IsFreshPass};
ghost use Rattle.arc_block.specs.Block.{native};
ghost use Rattle.arc_block.specs.Place.{at_owner, nowhere};
ghost use Rattle.arc_parts.specs.Shared.{as_shared, as_unique, AsksAlone, BecomesUnique};
ghost use Rattle.arc_parts.specs.Shared.{is_vector_at};
ghost use Rattle.arc_parts.specs.Steps.{IsPassAt, LeavesLastAt};
ghost use Rattle.arc_parts.specs.Window.{IsOfBuffer, IsOfSort};
ghost use Rattle.arc_parts.specs.Writers.{with_full};
ghost use Rattle.arc_read.specs.Steps.{WithNewPass};

use crate::slice_mut::ArcSliceMut;
use arc_block::layout::LayoutMut;
use arc_buffer::buffer::BufferMut;
use arc_buffer::kinds::{Shareable, Slice};
use arc_owners::mark::{Mark, Stepping};
use arc_owners::owners::Pass;
use std::alloc::Allocator;

impl<
    S: Slice,
    L: LayoutMut,
    B: BufferMut<S::Item> + Drop,
    M: Drop,
    A: Allocator + Copy,
    H: Mark,
> ArcSliceMut<S, L, 1, B, M, A, H> {
    /// The same window, as one of several writers: it may be split, and others may then write their
    /// own places of its block. It adds no entry and takes no memory.
    ///
    /// # Errors
    ///
    /// The window comes back exactly where it stands on a caller's buffer.
    pub fn into_shared(self) -> Result<ArcSliceMut<S, L, 0, B, M, A, H>, Self>
    where
        S: Shareable,
        ensures shared { IfOk result (λ shared. (shared ≡ as_shared self)
            × (¬ IsOfBuffer self.place)) }
        ensures refused { IfErr result (λ back. (back ≡ self) × IsOfBuffer self.place) }
    {
        match self.into_parts().into_shared() {
            Ok(parts) => Ok(ArcSliceMut::from_parts(parts)),
            Err(parts) => Err(Self::from_parts(parts)),
        }
    }
}

impl<
    S: Slice,
    L: LayoutMut,
    B: BufferMut<S::Item> + Drop,
    M: Drop,
    A: Allocator + Copy,
    H: Mark,
> ArcSliceMut<S, L, 0, B, M, A, H> {
    /// Whether the window stands on a vector, whose places a split moves to a native block first.
    pub fn is_on_vector(&self) -> bool
        ensures { result ≡ is_vector_at self.now.place }
    {
        self.parts.is_on_vector()
    }

    /// The window's block doesn't count its full places, so items that are written change nothing
    /// that contracts know of it. Does nothing: its contract is the law.
    pub fn known_uncounted(&self)
        ensures { (len more : ℕ) → with_full len more self.now.place ≡ self.now.place }
    {
        self.parts.known_uncounted()
    }

    /// Items of this kind need no drop. Does nothing: its contract is the law.
    pub fn known_kind(&self)
        ensures { S.DROPS ≡ false }
    {
        self.parts.known_kind()
    }

    /// The same window, as its block's only writer, where it stands on a block that no other owner
    /// has. It keeps its places; those of the block behind them become its own where room is asked
    /// for. It takes no memory.
    ///
    /// # Errors
    ///
    /// The window comes back on no block, and where another owner lives.
    ///
    /// # History
    ///
    /// On a block: Alone with the answer.
    pub fn try_into_unique_as(
        self,
        pass: &mut Pass<H>,
    ) -> Result<ArcSliceMut<S, L, 1, B, M, A, H>, Self>
        requires pass { IsPassAt self.place pass.old }
        ensures entry { AsksAlone self.place pass.old pass.new (is_ok result) }
        ensures sole { IfOk result (λ sole. sole ≡ as_unique self) }
        ensures refused { IfErr result (λ back. back ≡ self) }
    {
        match self.into_parts().try_into_unique_as(pass) {
            Ok(parts) => Ok(ArcSliceMut::from_parts(parts)),
            Err(parts) => Err(Self::from_parts(parts)),
        }
    }

    /// The same window, as its block's only writer: `try_into_unique_as` with a new pass.
    ///
    /// # Errors
    ///
    /// The window comes back on no block, and where another owner lives.
    ///
    /// # History
    ///
    /// On a block: Alone with the answer.
    pub fn try_into_unique(self) -> Result<ArcSliceMut<S, L, 1, B, M, A, H>, Self>
    where
        H: Stepping,
        ensures entry { WithNewPass {H = H} H.real self.place (λ first last.
            AsksAlone self.place first last (is_ok result)) }
        ensures sole { IfOk result (λ sole. sole ≡ as_unique self) }
        ensures refused { IfErr result (λ back. back ≡ self) }
    {
        let mut pass = self.pass();
        let made = self.try_into_unique_as(&mut pass);
        pass.show();
        made
    }

    /// Ends the window, where it stands on a native block, by one subtraction from the count. The
    /// last owner gets the block's memory as a new block: a window that is its only writer, of the
    /// same items and places, and a pass of it. Every other owner gets `None`. It takes no memory.
    ///
    /// # Errors
    ///
    /// The window comes back exactly where it stands on nothing or on a vector, as it was. The pass
    /// is then as before.
    ///
    /// # History
    ///
    /// Down; nothing on an error.
    pub fn into_unique_if_last_as(
        self,
        pass: &mut Pass<H>,
    ) -> Result<Option<(ArcSliceMut<S, L, 1, B, M, A, H>, Pass<H>)>, Self>
        requires pass { IsPassAt self.place pass.old }
        ensures ended { IfOk result (λ last. IsOfSort native self.place
            × LeavesLastAt self.place pass.old pass.new (is_some last)) }
        ensures sole { IfOk result (λ last. IfSome last (λ r. BecomesUnique H.whole self r.0)) }
        ensures pass { IfOk result (λ last. IfSome last (λ r.
            at_owner r.0.place ⊥ (λ o. IsFreshPass o r.1))) }
        ensures refused { IfErr result (λ back. (back ≡ self)
            × (¬ IsOfSort native self.place) × (pass.new ≡ pass.old)) }
    {
        match self.into_parts().into_unique_if_last_as(pass) {
            Ok(Some((parts, new))) => Ok(Some((ArcSliceMut::from_parts(parts), new))),
            Ok(None) => Ok(None),
            Err(parts) => Err(Self::from_parts(parts)),
        }
    }

    /// Ends the window, where it stands on a native block. The last owner gets a window of the same
    /// items and places, which is their only writer: `into_unique_if_last_as` with a new pass.
    ///
    /// # Errors
    ///
    /// The window comes back exactly where it stands on nothing or on a vector, as it was.
    ///
    /// # History
    ///
    /// Down; nothing on an error.
    pub fn into_unique_if_last(self) -> Result<Option<ArcSliceMut<S, L, 1, B, M, A, H>>, Self>
    where
        H: Stepping,
        ensures ended { IfOk result (λ last. IsOfSort native self.place
            × WithNewPass {H = H} H.real self.place (λ first now.
            LeavesLastAt self.place first now (is_some last))) }
        ensures sole { IfOk result (λ last. IfSome last (λ sole.
            BecomesUnique H.whole self sole)) }
        ensures pass { IfOk result (λ last. IfSome last (λ sole.
            WithNewPass {M = M} {H = H} H.real nowhere (λ none new.
            at_owner sole.place ⊥ (λ o. IsFreshPass o new)))) }
        ensures refused { IfErr result (λ back. (back ≡ self) × (¬ IsOfSort native self.place)
            × WithNewPass {H = H} H.real self.place (λ first last. last ≡ first)) }
    {
        let mut pass = self.pass();
        let ended = self.into_unique_if_last_as(&mut pass);
        pass.show();
        match ended {
            Ok(Some((sole, new))) => {
                new.show();
                Ok(Some(sole))
            }
            Ok(None) => Ok(None),
            Err(back) => Err(back),
        }
    }
}
