//! Clones, cuts and ends of a small window.
ghost use Rattle.std.specs.Prelude.{◌≡◌, Bool, drop, slice_range, IfOk, IfErr};
ghost use Rattle.arc_owners.specs.count.Calls.{Leaves};
ghost use Rattle.arc_buffer.specs.Slice.{IsEdge, IsRange, sub};
ghost use Rattle.arc_block.specs.Place.{at_owner, moved};
ghost use Rattle.arc_parts.specs.Steps.{IsPassAt, Shares, Refuses};
ghost use Rattle.arc_parts.specs.Window.{window_of};
ghost use Rattle.arc_read.specs.Cuts.{sub_place};
ghost use Rattle.arc_read.specs.Steps.{WithNewPass};

use super::SmallArcSlice;
use arc_block::layout::Layout;
use arc_buffer::buffer::Buffer;
use arc_buffer::kinds::{Slice, Subsliceable};
use arc_owners::error::OwnerError;
use arc_owners::mark::{Mark, Stepping};
use arc_owners::owners::Pass;
use either::{Left, Right};
use std::alloc::Allocator;
use std::sync::Wait;

impl<
    S: Slice<Item = u8>,
    L: Layout,
    B: Buffer<u8> + Drop,
    M: Drop,
    A: Allocator + Copy,
    H: Mark,
> SmallArcSlice<S, L, B, M, A, H> {
    /// Another window with the same bytes. A short list is copied, without an atomic step. A window
    /// that is read is cloned at the same place. On a block the clone is one owner more. It takes
    /// no memory.
    ///
    /// # Errors
    ///
    /// Those of `ArcSlice::try_clone_as`; none for a short list.
    ///
    /// # History
    ///
    /// On a block that counts its owners: Up, or Full where it is refused.
    #[inline(always)]
    pub fn try_clone_as(&self, rt: &impl Wait, pass: &mut Pass<H>) -> Result<Self, OwnerError>
        requires pass { IsPassAt self.now.place pass.old }
        ensures items { IfOk result (λ window. window.items ≡ self.now.items) }
        ensures role { IfOk result (λ window. window.role ≡ self.now.role) }
        ensures place { IfOk result (λ window.
            Shares self.now.place pass.old pass.new window.place) }
        ensures refused { IfErr result (λ e.
            Refuses L.clone_wants self.now.place pass.old pass.new e) }
    {
        match &self.either {
            Left(small) => Ok(Self::from(small.copied())),
            Right(window) => match window.try_clone_as(rt, pass) {
                Ok(made) => Ok(Self::from(made)),
                Err(e) => Err(e),
            },
        }
    }

    /// Another window with the same bytes: `try_clone_as` with a new pass. A short list is copied,
    /// without an atomic step.
    ///
    /// # Errors
    ///
    /// Those of `ArcSlice::try_clone`; none for a short list.
    ///
    /// # History
    ///
    /// On a block that counts its owners: Up, or Full where it is refused.
    #[inline(always)]
    pub fn try_clone(&self, rt: &impl Wait) -> Result<Self, OwnerError>
    where
        H: Stepping,
        ensures items { IfOk result (λ window. window.items ≡ self.now.items) }
        ensures role { IfOk result (λ window. window.role ≡ self.now.role) }
        ensures place { IfOk result (λ window. WithNewPass {H = H} H.real self.now.place
            (λ first last. Shares self.now.place first last window.place)) }
        ensures refused { IfErr result (λ e. WithNewPass {H = H} H.real self.now.place
            (λ first last. Refuses L.clone_wants self.now.place first last e)) }
    {
        match &self.either {
            Left(small) => {
                Pass::<H>::none().show();
                Ok(Self::from(small.copied()))
            }
            Right(window) => match window.try_clone(rt) {
                Ok(clone) => Ok(Self::from(clone)),
                Err(e) => Err(e),
            },
        }
    }

    /// A window over the bytes from `start` to before `end`. Of a short list they are copied,
    /// without an atomic step. Of a window on a block the new window is one owner more. Without
    /// bytes, under a layout that has static data, it stands on nothing, and no entry is added. It
    /// takes no memory.
    ///
    /// # Errors
    ///
    /// Those of `ArcSlice::try_subslice_as`; none for a short list.
    ///
    /// # History
    ///
    /// Where the part stands on a block that counts its owners: Up, or Full where it is refused.
    #[inline(always)]
    pub fn try_subslice_as(
        &self,
        rt: &impl Wait,
        start: usize,
        end: usize,
        pass: &mut Pass<H>,
    ) -> Result<Self, OwnerError>
    where
        S: Subsliceable,
        requires range { IsRange S.boundary self.now.items start end }
        requires pass { IsPassAt self.now.place pass.old }
        ensures items { IfOk result (λ part. part.items ≡ sub self.now.items start end) }
        ensures slice { IfOk result (λ part. part.items ≡ slice_range self.now.items start end) }
        ensures role { IfOk result (λ part. part.role ≡ self.now.role) }
        ensures place { IfOk result (λ part.
            Shares (sub_place L.STATIC (window_of self.now) start end)
            pass.old pass.new part.place) }
        ensures refused { IfErr result (λ e.
            Refuses L.clone_wants (sub_place L.STATIC (window_of self.now) start end)
            pass.old pass.new e) }
    {
        match &self.either {
            Left(small) => Ok(Self::from(small.subslice(start, end))),
            Right(window) => match window.try_subslice_as(rt, start, end, pass) {
                Ok(part) => Ok(Self::from(part)),
                Err(e) => Err(e),
            },
        }
    }

    /// A window over the bytes from `start` to before `end`: `try_subslice_as` with a new pass. Of
    /// a short list they are copied, without an atomic step.
    ///
    /// # Errors
    ///
    /// Those of `ArcSlice::try_subslice`; none for a short list.
    ///
    /// # History
    ///
    /// Where the part stands on a block that counts its owners: Up, or Full where it is refused.
    #[inline(always)]
    pub fn try_subslice(&self, rt: &impl Wait, start: usize, end: usize) -> Result<Self, OwnerError>
    where
        H: Stepping,
        S: Subsliceable,
        requires { IsRange S.boundary self.now.items start end }
        ensures items { IfOk result (λ part. part.items ≡ sub self.now.items start end) }
        ensures slice { IfOk result (λ part. part.items ≡ slice_range self.now.items start end) }
        ensures role { IfOk result (λ part. part.role ≡ self.now.role) }
        ensures place { IfOk result (λ part. WithNewPass {H = H} H.real self.now.place
            (λ first last. Shares (sub_place L.STATIC (window_of self.now) start end)
            first last part.place)) }
        ensures refused { IfErr result (λ e. WithNewPass {H = H} H.real self.now.place (λ old new.
            Refuses L.clone_wants (sub_place L.STATIC (window_of self.now) start end) old new e)) }
    {
        match &self.either {
            Left(small) => {
                Pass::<H>::none().show();
                Ok(Self::from(small.subslice(start, end)))
            }
            Right(window) => match window.try_subslice(rt, start, end) {
                Ok(part) => Ok(Self::from(part)),
                Err(e) => Err(e),
            },
        }
    }

    /// Ends the window. The last owner gives the block back.
    ///
    /// # History
    ///
    /// On a block that counts its owners: Down.
    #[inline(always)]
    pub fn release_as(self, pass: &mut Pass<H>)
        requires pass { IsPassAt self.place pass.old }
        ensures entry { at_owner self.place (pass.new ≡ pass.old) (λ o. (last : Bool)
            × Leaves o pass.old pass.new last) }
    {
        match self.into_either() {
            Left(_) => {}
            Right(window) => window.release_as(pass),
        }
    }

    /// Takes the first `n` bytes off the window. It stays where it stands, also without bytes. It
    /// adds no entry.
    pub fn advance(&mut self, n: usize)
    where
        S: Subsliceable,
        requires { IsEdge S.boundary self.old.items n }
        ensures { self.new ≡ record {
          items = drop n self.old.items;
          place = moved n self.old.place;
          role = self.old.role;
        } }
    {
        match &mut self.either {
            Left(small) => small.advance(n),
            Right(window) => window.advance(n),
        }
    }
}
