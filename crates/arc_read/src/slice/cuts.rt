//! Clones and cuts of a read window.
ghost use Rattle.std.specs.Prelude.{◌≡◌, ◌<◌, length, drop, take, slice_range};
ghost use Rattle.std.specs.Prelude.{IfOk, IfErr, IfSome, IfNone};
ghost use Rattle.arc_buffer.specs.Slice.{IsEdge, IsRange, sub};
ghost use Rattle.arc_block.specs.Place.{moved};
ghost use Rattle.arc_parts.specs.Steps.{IsPassAt, MayJoinAt, Shares, Refuses};
ghost use Rattle.arc_read.specs.Cuts.{sub_place};
ghost use Rattle.arc_read.specs.Steps.{WithNewPass};

use super::ArcSlice;
use arc_block::layout::Layout;
use arc_buffer::buffer::Buffer;
use arc_buffer::kinds::{Slice, Subsliceable};
use arc_owners::error::OwnerError;
use arc_owners::leave::RaiseLeave;
use arc_owners::mark::{Mark, Stepping};
use arc_owners::owners::Pass;
use std::alloc::Allocator;
use std::sync::Wait;

impl<
    S: Slice,
    L: Layout,
    B: Buffer<S::Item> + Drop,
    M: Drop,
    A: Allocator + Copy,
    H: Mark,
> ArcSlice<S, L, B, M, A, H> {
    /// One attempt of `try_clone_as`. It answers `None` where another thread's step came between.
    /// By the clause it adds no entry then, or one Joined. Only a window on a block that counts its
    /// owners meets that.
    #[tactic(auto, using(arc_parts::proofs::Held::shared_held))]
    #[inline(always)]
    pub(super) fn try_clone_once_as(
        &self,
        leave: RaiseLeave,
        pass: &mut Pass<H>,
    ) -> Option<Result<Self, OwnerError>>
        requires pass { IsPassAt self.now.place pass.old }
        ensures items { IfSome result (λ r. IfOk r (λ window. window.items ≡ self.now.items)) }
        ensures place { IfSome result (λ r. IfOk r (λ window.
            Shares self.now.place pass.old pass.new window.place)) }
        ensures refused { IfSome result (λ r. IfErr r (λ e.
            Refuses L.clone_wants self.now.place pass.old pass.new e)) }
        ensures again { IfNone result (MayJoinAt self.now.place pass.old pass.new) }
    {
        match self.parts.try_clone_once_as::<L>(leave, pass)? {
            Ok(parts) => Some(Ok(Self::from_parts(parts))),
            Err(e) => Some(Err(e)),
        }
    }

    /// Another window over the same items at the same place. On a block it is one owner more.
    ///
    /// It copies no item and takes no memory. It takes `rt` since an attempt that another thread
    /// disturbs is tried again.
    ///
    /// # Errors
    ///
    /// - `CountFull` on a block that counts its owners, exactly where `MAX_OWNERS` of them live.
    /// - `AllocError` on an `Arc` that is a block by itself, where the `Arc` refuses to be cloned.
    ///   The clauses allow it also on a vector under `BoxedSliceLayout` or `VecLayout`. There it
    ///   never comes.
    ///
    /// # History
    ///
    /// On a block that counts its owners: Up, or Full where it is refused. Of a block that begins
    /// without a count the clauses allow also Promote for Up, and Joined before it or before Full.
    /// No window's block begins so.
    #[inline(always)]
    #[tactic(auto, using(arc_parts::proofs::Attempts::joins_pass))]
    pub fn try_clone_as(&self, rt: &impl Wait, pass: &mut Pass<H>) -> Result<Self, OwnerError>
        requires pass { IsPassAt self.now.place pass.old }
        ensures items { IfOk result (λ window. window.items ≡ self.now.items) }
        ensures place { IfOk result (λ window.
            Shares self.now.place pass.old pass.new window.place) }
        ensures refused { IfErr result (λ e.
            Refuses L.clone_wants self.now.place pass.old pass.new e) }
    {
        let leave = RaiseLeave::of(rt);
        // The first attempt stands apart, so that where it succeeds nothing of the loop is run.
        if let Some(made) = self.try_clone_once_as(leave, pass) {
            return made;
        }
        for _ in rt.forever() {
            if let Some(made) = self.try_clone_once_as(leave, pass) {
                return made;
            }
        }
        unreachable!()
    }

    /// Another window over the same items at the same place: `try_clone_as` with a new pass.
    ///
    /// # Errors
    ///
    /// - `CountFull` on a block that counts its owners, exactly where `MAX_OWNERS` of them live.
    /// - `AllocError` on an `Arc` that is a block by itself, where the `Arc` refuses to be cloned.
    ///   The clauses allow it also on a vector under `BoxedSliceLayout` or `VecLayout`. There it
    ///   never comes.
    ///
    /// # History
    ///
    /// On a block that counts its owners: Up, or Full where it is refused.
    #[inline(always)]
    pub fn try_clone(&self, rt: &impl Wait) -> Result<Self, OwnerError>
    where
        H: Stepping,
        ensures items { IfOk result (λ window. window.items ≡ self.now.items) }
        ensures place { IfOk result (λ window. WithNewPass {H = H} H.real self.now.place
            (λ first last. Shares self.now.place first last window.place)) }
        ensures refused { IfErr result (λ e. WithNewPass {H = H} H.real self.now.place
            (λ first last. Refuses L.clone_wants self.now.place first last e)) }
    {
        let mut pass = self.pass();
        // The first attempt stands here: where it succeeds, no call is made that may wait.
        if let Some(made) = self.try_clone_once_as(RaiseLeave::of(rt), &mut pass) {
            pass.show();
            return made;
        }
        let made = self.try_clone_as(rt, &mut pass);
        pass.show();
        made
    }

    /// One attempt of `try_subslice_as`. It answers `None` where another thread's step came
    /// between. By the clause it adds no entry then, or one Joined. Only a part on a block that
    /// counts its owners meets that.
    #[inline(always)]
    pub(super) fn try_subslice_once_as(
        &self,
        leave: RaiseLeave,
        start: usize,
        end: usize,
        pass: &mut Pass<H>,
    ) -> Option<Result<Self, OwnerError>>
    where
        S: Subsliceable,
        requires range { IsRange S.boundary self.now.items start end }
        requires pass { IsPassAt self.now.place pass.old }
        ensures items { IfSome result (λ r.
            IfOk r (λ part. part.items ≡ sub self.now.items start end)) }
        ensures place { IfSome result (λ r. IfOk r (λ part.
            Shares (sub_place L.STATIC self.now start end) pass.old pass.new part.place)) }
        ensures refused { IfSome result (λ r. IfErr r (λ e.
            Refuses L.clone_wants (sub_place L.STATIC self.now start end) pass.old pass.new e)) }
        ensures again { IfNone result
            (MayJoinAt (sub_place L.STATIC self.now start end) pass.old pass.new) }
    {
        match self.parts.try_part_once_as::<L>(leave, start, end, pass)? {
            Ok(parts) => Some(Ok(Self::from_parts(parts))),
            Err(e) => Some(Err(e)),
        }
    }

    /// A window over the items from `start` to before `end`. On a block it is one owner more.
    /// Without items, under a layout that has static data, it stands on nothing, and no entry is
    /// added.
    ///
    /// It copies no item and takes no memory. It takes `rt` since an attempt that another thread
    /// disturbs is tried again.
    ///
    /// # Errors
    ///
    /// Those of `try_clone_as`, where the part stands on a block.
    ///
    /// # History
    ///
    /// Where the part stands on a block that counts its owners: Up, or Full where it is refused.
    #[inline(always)]
    pub fn try_subslice_as(
        &self,
        rt: &impl Wait,
        start: usize,
        end: usize,
        pass: &mut Pass<H>,
    ) -> Result<Self, OwnerError>
    where
        S: Subsliceable,
        requires range { IsRange S.boundary self.now.items start end }
        requires pass { IsPassAt self.now.place pass.old }
        ensures items { IfOk result (λ part. part.items ≡ sub self.now.items start end) }
        ensures slice { IfOk result (λ part. part.items ≡ slice_range self.now.items start end) }
        ensures place { IfOk result (λ part.
            Shares (sub_place L.STATIC self.now start end) pass.old pass.new part.place) }
        ensures refused { IfErr result (λ e.
            Refuses L.clone_wants (sub_place L.STATIC self.now start end) pass.old pass.new e) }
    {
        let leave = RaiseLeave::of(rt);
        if let Some(made) = self.try_subslice_once_as(leave, start, end, pass) {
            return made;
        }
        for _ in rt.forever() {
            if let Some(made) = self.try_subslice_once_as(leave, start, end, pass) {
                return made;
            }
        }
        unreachable!()
    }

    /// A window over the items from `start` to before `end`: `try_subslice_as` with a new pass of
    /// this window's block.
    ///
    /// # Errors
    ///
    /// Those of `try_clone`, where the part stands on a block.
    ///
    /// # History
    ///
    /// Where the part stands on a block that counts its owners: Up, or Full where it is refused.
    #[inline(always)]
    pub fn try_subslice(&self, rt: &impl Wait, start: usize, end: usize) -> Result<Self, OwnerError>
    where
        H: Stepping,
        S: Subsliceable,
        requires { IsRange S.boundary self.now.items start end }
        ensures items { IfOk result (λ part. part.items ≡ sub self.now.items start end) }
        ensures slice { IfOk result (λ part. part.items ≡ slice_range self.now.items start end) }
        ensures place { IfOk result (λ part. WithNewPass {H = H} H.real self.now.place
            (λ first last. Shares (sub_place L.STATIC self.now start end) first last part.place)) }
        ensures refused { IfErr result (λ e. WithNewPass {H = H} H.real self.now.place (λ old new.
            Refuses L.clone_wants (sub_place L.STATIC self.now start end) old new e)) }
    {
        let mut pass = self.pass();
        let leave = RaiseLeave::of(rt);
        if let Some(made) = self.try_subslice_once_as(leave, start, end, &mut pass) {
            pass.show();
            return made;
        }
        let made = self.try_subslice_again_as(rt, start, end, &mut pass);
        pass.show();
        made
    }

    /// The further attempts of `try_subslice_as`, where another thread's step disturbed the first
    /// one. They stand apart, so that only the first attempt is inlined.
    #[inline(never)]
    pub(super) fn try_subslice_again_as(
        &self,
        rt: &impl Wait,
        start: usize,
        end: usize,
        pass: &mut Pass<H>,
    ) -> Result<Self, OwnerError>
    where
        S: Subsliceable,
        requires range { IsRange S.boundary self.now.items start end }
        requires pass { IsPassAt self.now.place pass.old }
        ensures items { IfOk result (λ part. part.items ≡ sub self.now.items start end) }
        ensures slice { IfOk result (λ part. part.items ≡ slice_range self.now.items start end) }
        ensures place { IfOk result (λ part.
            Shares (sub_place L.STATIC self.now start end) pass.old pass.new part.place) }
        ensures refused { IfErr result (λ e.
            Refuses L.clone_wants (sub_place L.STATIC self.now start end) pass.old pass.new e) }
    {
        self.try_subslice_as(rt, start, end, pass)
    }

    /// Takes the first `n` items off the window. It stays on its block, also without items. It adds
    /// no entry.
    pub fn advance(&mut self, n: usize)
    where
        S: Subsliceable,
        requires { IsEdge S.boundary self.old.items n }
        ensures { self.new
            ≡ record { items = drop n self.old.items; place = moved n self.old.place } }
    {
        let end = self.len();
        self.parts.keep(n, end);
    }

    /// Keeps the window's first `n` items, or all where it has no more. It stays on its block, also
    /// without items. It adds no entry.
    pub fn truncate(&mut self, n: usize)
    where
        S: Subsliceable,
        requires { n < length self.old.items → IsEdge S.boundary self.old.items n }
        ensures { self.new ≡ record { items = take n self.old.items; place = self.old.place } }
    {
        if n < self.len() {
            self.parts.keep(0, n);
        }
    }
}
