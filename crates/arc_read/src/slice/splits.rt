//! Splits of a read window.
ghost use Rattle.std.specs.Prelude.{◌≡◌, ◌≤◌, ◌+◌, ℕ, length, IfOk, IfErr};
ghost use Rattle.arc_buffer.specs.Slice.{IsEdge, IsRange, sub};
ghost use Rattle.arc_parts.specs.Steps.{IsPassAt, Refuses};
ghost use Rattle.arc_read.specs.Steps.{WithNewPass};
ghost use Rattle.arc_read.specs.Cuts.{SplitsOff, SplitsTo, off_place, to_place};

use super::ArcSlice;
use arc_block::layout::Layout;
use arc_buffer::buffer::Buffer;
use arc_buffer::kinds::Subsliceable;
use arc_owners::error::OwnerError;
use arc_owners::mark::{Mark, Stepping};
use arc_owners::owners::Pass;
use std::alloc::Allocator;
use std::mem;
use std::sync::Wait;

impl<
    S: Subsliceable,
    L: Layout,
    B: Buffer<S::Item> + Drop,
    M: Drop,
    A: Allocator + Copy,
    H: Mark,
> ArcSlice<S, L, B, M, A, H> {
    /// Both ends of a window are places at which it may be cut.
    fn has_edges(&self)
        ensures start { IsEdge S.boundary self.now.items 0 }
        ensures end { IsEdge S.boundary self.now.items (length self.now.items) }
    {
        let _ = &self.parts;
    }

    /// A part of a window has a legal list, and may be cut where the window may.
    pub(crate) fn has_part(&self, start: usize, end: usize)
        requires { IsRange S.boundary self.now.items start end }
        ensures legal { ∥ S.is_legal (sub self.now.items start end) ∥₁ }
        ensures cuts { (at : ℕ) → start + at ≤ end
            → S.boundary (sub self.now.items start end) at
            ≡ S.boundary self.now.items (start + at) }
    {
        let _ = &self.parts;
        let _ = (start, end);
    }

    /// Splits the window: it keeps the first `at` items, and the call returns a window over the
    /// others. One part is new: the back, or for `at` of 0 the front, which then has no items. On a
    /// block the new part is one owner more. Without items, under a layout that has static data,
    /// the new part stands on nothing.
    ///
    /// It copies no item and takes no memory.
    ///
    /// # Errors
    ///
    /// Those of `try_clone_as`, where the new part stands on a block. The window is then as before.
    ///
    /// # History
    ///
    /// Where the new part stands on a block that counts its owners: Up, or Full where it is
    /// refused.
    pub fn try_split_off_as(
        &mut self,
        rt: &impl Wait,
        at: usize,
        pass: &mut Pass<H>,
    ) -> Result<Self, OwnerError>
        requires at { IsEdge S.boundary self.old.items at }
        requires pass { IsPassAt self.old.place pass.old }
        ensures ok { IfOk result (λ back.
            SplitsOff L.STATIC self.old at pass.old pass.new self.new back) }
        ensures kept { IfErr result (λ _. self.new ≡ self.old) }
        ensures refused { IfErr result (λ e.
            Refuses L.clone_wants (off_place L.STATIC self.old at) pass.old pass.new e) }
    {
        self.has_edges();
        if at == 0 {
            let rest = self.try_subslice_as(rt, 0, 0, pass)?;
            return Ok(mem::replace(self, rest));
        }
        let back = self.try_subslice_as(rt, at, self.len(), pass)?;
        self.truncate(at);
        Ok(back)
    }

    /// Splits the window: the call returns a window over the first `at` items, and this one keeps
    /// the others. One part is new: the front, or for `at` of the length the back, which then has
    /// no items. On a block the new part is one owner more. Without items, under a layout that has
    /// static data, the new part stands on nothing.
    ///
    /// It copies no item and takes no memory.
    ///
    /// # Errors
    ///
    /// Those of `try_clone_as`, where the new part stands on a block. The window is then as before.
    ///
    /// # History
    ///
    /// Where the new part stands on a block that counts its owners: Up, or Full where it is
    /// refused.
    pub fn try_split_to_as(
        &mut self,
        rt: &impl Wait,
        at: usize,
        pass: &mut Pass<H>,
    ) -> Result<Self, OwnerError>
        requires at { IsEdge S.boundary self.old.items at }
        requires pass { IsPassAt self.old.place pass.old }
        ensures ok { IfOk result (λ front.
            SplitsTo L.STATIC self.old at pass.old pass.new front self.new) }
        ensures kept { IfErr result (λ _. self.new ≡ self.old) }
        ensures refused { IfErr result (λ e.
            Refuses L.clone_wants (to_place L.STATIC self.old at) pass.old pass.new e) }
    {
        self.has_edges();
        if at == self.len() {
            let rest = self.try_subslice_as(rt, at, at, pass)?;
            return Ok(mem::replace(self, rest));
        }
        let front = self.try_subslice_as(rt, 0, at, pass)?;
        self.advance(at);
        Ok(front)
    }

    /// Splits the window: it keeps the first `at` items, and the call returns a window over the
    /// others. This is `try_split_off_as` with a new pass.
    ///
    /// It copies no item and takes no memory.
    ///
    /// # Errors
    ///
    /// Those of `try_clone`, where the new part stands on a block. The window is then as before.
    ///
    /// # History
    ///
    /// Where the new part stands on a block that counts its owners: Up, or Full where it is
    /// refused.
    pub fn try_split_off(&mut self, rt: &impl Wait, at: usize) -> Result<Self, OwnerError>
    where
        H: Stepping,
        requires { IsEdge S.boundary self.old.items at }
        ensures ok { IfOk result (λ back. WithNewPass {H = H} H.real self.old.place (λ first last.
            SplitsOff L.STATIC self.old at first last self.new back)) }
        ensures kept { IfErr result (λ _. self.new ≡ self.old) }
        ensures refused { IfErr result (λ e. WithNewPass {H = H} H.real self.old.place
            (λ first last. Refuses L.clone_wants (off_place L.STATIC self.old at) first last e)) }
    {
        let mut pass = self.pass();
        let made = self.try_split_off_as(rt, at, &mut pass);
        pass.show();
        made
    }

    /// Splits the window: the call returns a window over the first `at` items, and this one keeps
    /// the others. This is `try_split_to_as` with a new pass.
    ///
    /// It copies no item and takes no memory.
    ///
    /// # Errors
    ///
    /// Those of `try_clone`, where the new part stands on a block. The window is then as before.
    ///
    /// # History
    ///
    /// Where the new part stands on a block that counts its owners: Up, or Full where it is
    /// refused.
    pub fn try_split_to(&mut self, rt: &impl Wait, at: usize) -> Result<Self, OwnerError>
    where
        H: Stepping,
        requires { IsEdge S.boundary self.old.items at }
        ensures ok { IfOk result (λ front. WithNewPass {H = H} H.real self.old.place (λ first last.
            SplitsTo L.STATIC self.old at first last front self.new)) }
        ensures kept { IfErr result (λ _. self.new ≡ self.old) }
        ensures refused { IfErr result (λ e. WithNewPass {H = H} H.real self.old.place
            (λ first last. Refuses L.clone_wants (to_place L.STATIC self.old at) first last e)) }
    {
        let mut pass = self.pass();
        let made = self.try_split_to_as(rt, at, &mut pass);
        pass.show();
        made
    }
}
