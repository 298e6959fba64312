//! What a write window gives back: a vector, a box, an array, the buffer.
ghost use Rattle.std.specs.Prelude.{◌+◌, ◌≡◌, Err, IfErr, IfOk, Some, true};
ghost use Rattle.std.specs.Vec.{vec_capacity};
ghost use Rattle.std.specs.declared.vec.Vec.{Vec};
ghost use Rattle.arc_owners.specs.count.Calls.{Leaves};
ghost use Rattle.arc_block.specs.Place.{at_owner, buffer_at, size_at};
ghost use Rattle.arc_parts.specs.Steps.{IsPassAt, RefusesTaking, TakesAt};
ghost use Rattle.arc_parts.specs.Window.{IsBoxWhole, IsBufferWhole, IsVecPart};
ghost use Rattle.arc_parts.specs.Writers.{IsWholeWriter};
ghost use Rattle.arc_read.specs.Steps.{WithNewPass};
ghost use Rattle.arc_writer_parts.specs.Roles.{RefusesTakingOut, TakesOutAt};

use crate::slice_mut::{ArcSliceMut, WriteWindow};
use arc_block::layout::LayoutMut;
use arc_buffer::buffer::BufferMut;
use arc_buffer::kinds::{Slice, VecIn, Wraps};
use arc_owners::mark::{Mark, Stepping};
use arc_owners::owners::Pass;
use arc_writer_parts::role::{RoleOf, WriterParts};
use std::alloc::Allocator;

impl<
    S: Slice,
    L: LayoutMut,
    R: RoleOf<S, B, M, A, H>,
    B: BufferMut<S::Item> + Drop,
    M: Drop,
    A: Allocator + Copy,
    H: Mark,
> WriteWindow<S, L, R, B, M, A, H> {
    /// The items as their block's vector, moved to its front, where the block is a vector and no
    /// other owner lives. Items that are dropped one by one have to be all of it. Of a sole writer
    /// the count isn't read.
    ///
    /// # Errors
    ///
    /// The window comes back where it stands on no vector, where items that are dropped one by one
    /// are only a part of the vector, and where another owner lives.
    ///
    /// # History
    ///
    /// Of a sole writer, taken: Down, without an atomic step. Of one of several, taken: Alone with
    /// yes, then Down; refused: Alone with no, where only the count could decide. Else nothing.
    pub fn try_into_vec_as(self, pass: &mut Pass<H>) -> Result<S::Vec, Self>
    where
        S: VecIn<A>,
        requires pass { IsPassAt self.place pass.old }
        ensures taken { IfOk result (λ v. IsVecPart S.DROPS self.items self.place
            × (S.list_in_vec v ≡ self.items)) }
        ensures places { IfOk result (λ v. (inner : Vec S.Item A) × S.Vec.wraps v inner
            × (vec_capacity inner ≡ size_at self.place)) }
        ensures entries { IfOk result (λ _.
            TakesOutAt R.Parts.several self.place pass.old pass.new) }
        ensures refused { IfErr result (λ back. (back ≡ self) × RefusesTakingOut R.Parts.several
            (IsVecPart S.DROPS self.items self.place) self.place pass.old pass.new) }
    {
        match self.into_parts().try_into_vec_as(pass) {
            Ok(inner) => Ok(S::Vec::from_inner(inner)),
            Err(parts) => Err(Self::from_parts(parts)),
        }
    }

    /// The items as their block's vector, moved to its front: `try_into_vec_as` with a new pass.
    ///
    /// # Errors
    ///
    /// The window comes back where it stands on no vector, where items that are dropped one by one
    /// are only a part of the vector, and where another owner lives.
    ///
    /// # History
    ///
    /// Of a sole writer, taken: Down, without an atomic step. Of one of several, taken: Alone with
    /// yes, then Down; refused: Alone with no, where only the count could decide. Else nothing.
    pub fn try_into_vec(self) -> Result<S::Vec, Self>
    where
        H: Stepping,
        S: VecIn<A>,
        ensures taken { IfOk result (λ v. IsVecPart S.DROPS self.items self.place
            × (S.list_in_vec v ≡ self.items)) }
        ensures places { IfOk result (λ v. (inner : Vec S.Item A) × S.Vec.wraps v inner
            × (vec_capacity inner ≡ size_at self.place)) }
        ensures entries { IfOk result (λ _. WithNewPass {H = H} H.real self.place (λ first last.
            TakesOutAt R.Parts.several self.place first last)) }
        ensures refused { IfErr result (λ back. (back ≡ self)
            × WithNewPass {H = H} H.real self.place (λ first last.
            RefusesTakingOut R.Parts.several (IsVecPart S.DROPS self.items self.place)
            self.place first last)) }
    {
        let mut pass = self.pass();
        let taken = self.try_into_vec_as(&mut pass);
        pass.show();
        taken
    }

    /// The items as a box, where they are all of a vector without spare places, and no other owner
    /// lives. No item is copied, and of a sole writer the count isn't read.
    ///
    /// # Errors
    ///
    /// The window comes back where it stands on no vector, where the items don't fill all places of
    /// the vector, and where another owner lives.
    ///
    /// # History
    ///
    /// Of a sole writer, taken: Down, without an atomic step. Of one of several, taken: Alone with
    /// yes, then Down; refused: Alone with no, where only the count could decide. Else nothing.
    pub fn try_into_boxed_as(self, pass: &mut Pass<H>) -> Result<S::Boxed, Self>
    where
        S: VecIn<A>,
        requires pass { IsPassAt self.place pass.old }
        ensures taken { IfOk result (λ b. IsBoxWhole self.items self.place
            × (S.list_in_boxed b ≡ self.items)) }
        ensures entries { IfOk result (λ _.
            TakesOutAt R.Parts.several self.place pass.old pass.new) }
        ensures refused { IfErr result (λ back. (back ≡ self) × RefusesTakingOut R.Parts.several
            (IsBoxWhole self.items self.place) self.place pass.old pass.new) }
    {
        match self.into_parts().try_into_box_vec_as(pass) {
            Ok(inner) => Ok(S::Boxed::from_inner(inner.into_boxed_slice())),
            Err(parts) => Err(Self::from_parts(parts)),
        }
    }

    /// The items as a box, of which none is copied: `try_into_boxed_as` with a new pass.
    ///
    /// # Errors
    ///
    /// The window comes back where it stands on no vector, where the items don't fill all places of
    /// the vector, and where another owner lives.
    ///
    /// # History
    ///
    /// Of a sole writer, taken: Down, without an atomic step. Of one of several, taken: Alone with
    /// yes, then Down; refused: Alone with no, where only the count could decide. Else nothing.
    pub fn try_into_boxed(self) -> Result<S::Boxed, Self>
    where
        H: Stepping,
        S: VecIn<A>,
        ensures taken { IfOk result (λ b. IsBoxWhole self.items self.place
            × (S.list_in_boxed b ≡ self.items)) }
        ensures entries { IfOk result (λ _. WithNewPass {H = H} H.real self.place (λ first last.
            TakesOutAt R.Parts.several self.place first last)) }
        ensures refused { IfErr result (λ back. (back ≡ self)
            × WithNewPass {H = H} H.real self.place (λ first last.
            RefusesTakingOut R.Parts.several (IsBoxWhole self.items self.place)
            self.place first last)) }
    {
        let mut pass = self.pass();
        let taken = self.try_into_boxed_as(&mut pass);
        pass.show();
        taken
    }
}

impl<
    S: Slice,
    L: LayoutMut,
    B: BufferMut<S::Item> + Drop,
    M: Drop,
    A: Allocator + Copy,
    H: Mark,
> ArcSliceMut<S, L, 1, B, M, A, H> {
    /// The items as an array of `N`. On a block they have to be all places of a native one.
    ///
    /// # Errors
    ///
    /// The window comes back where its items aren't `N`, and on a block whose places they don't
    /// fill or that isn't native; the pass is then as before.
    ///
    /// # History
    ///
    /// Taken off a block: Down, without an atomic step. Else nothing.
    pub fn try_into_array_as<const N: usize>(self, pass: &mut Pass<H>) -> Result<[S::Item; N], Self>
        requires pass { IsPassAt self.place pass.old }
        ensures taken { IfOk result (λ array. IsWholeWriter N self × (array ≡ self.items)) }
        ensures entry { IfOk result (λ _. at_owner self.place (pass.new ≡ pass.old) (λ o.
            Leaves o pass.old pass.new true)) }
        ensures refused { IfErr result (λ back. (back ≡ self) × (¬ IsWholeWriter N self)
            × (pass.new ≡ pass.old)) }
    {
        match self.into_parts().try_into_array_as(pass) {
            Ok(array) => Ok(array),
            Err(parts) => Err(Self::from_parts(parts)),
        }
    }

    /// The items as an array of `N`: `try_into_array_as` with a new pass.
    ///
    /// # Errors
    ///
    /// The window comes back where its items aren't `N`, and on a block whose places they don't
    /// fill or that isn't native.
    ///
    /// # History
    ///
    /// Taken off a block: Down, without an atomic step. Else nothing.
    pub fn try_into_array<const N: usize>(self) -> Result<[S::Item; N], Self>
    where
        H: Stepping,
        ensures taken { IfOk result (λ array. IsWholeWriter N self × (array ≡ self.items)) }
        ensures entry { IfOk result (λ _. WithNewPass {H = H} H.real self.place (λ first last.
            at_owner self.place (last ≡ first) (λ o. Leaves o first last true))) }
        ensures refused { IfErr result (λ back. (back ≡ self) × (¬ IsWholeWriter N self)
            × WithNewPass {H = H} H.real self.place (λ first last. last ≡ first)) }
    {
        let mut pass = self.pass();
        let taken = self.try_into_array_as(&mut pass);
        pass.show();
        taken
    }

    /// The caller's buffer on which the window stands, where the items are all of it. The block's
    /// metadata is dropped. The count isn't read: the writer is alone.
    ///
    /// # Errors
    ///
    /// The window comes back where it stands on no caller's buffer, and where the items are only a
    /// part of it; the pass is then as before.
    ///
    /// # History
    ///
    /// Taken: Down, without an atomic step. Refused: nothing.
    pub fn try_into_buffer_as(self, pass: &mut Pass<H>) -> Result<B, Self>
        requires pass { IsPassAt self.place pass.old }
        ensures taken { IfOk result (λ buffer. IsBufferWhole self.items self.place
            × (B.list buffer ≡ self.items) × (B.places buffer ≡ size_at self.place)) }
        ensures itself { IfOk result (λ buffer. buffer_at self.place ≡ Some buffer) }
        ensures entry { IfOk result (λ _. at_owner self.place ⊥ (λ o.
            Leaves o pass.old pass.new true)) }
        ensures refused { IfErr result (λ back. (back ≡ self)
            × (¬ IsBufferWhole self.items self.place) × (pass.new ≡ pass.old)) }
    {
        match self.into_parts().try_into_buffer_as(pass) {
            Ok(buffer) => Ok(buffer),
            Err(parts) => Err(Self::from_parts(parts)),
        }
    }

    /// The caller's buffer on which the window stands: `try_into_buffer_as` with a new pass.
    ///
    /// # Errors
    ///
    /// The window comes back where it stands on no caller's buffer, and where the items are only a
    /// part of it.
    ///
    /// # History
    ///
    /// Taken: Down, without an atomic step. Refused: nothing.
    pub fn try_into_buffer(self) -> Result<B, Self>
    where
        H: Stepping,
        ensures taken { IfOk result (λ buffer. IsBufferWhole self.items self.place
            × (B.list buffer ≡ self.items) × (B.places buffer ≡ size_at self.place)) }
        ensures itself { IfOk result (λ buffer. buffer_at self.place ≡ Some buffer) }
        ensures entry { IfOk result (λ _. WithNewPass {H = H} H.real self.place (λ first last.
            at_owner self.place ⊥ (λ o. Leaves o first last true))) }
        ensures refused { IfErr result (λ back. (back ≡ self)
            × (¬ IsBufferWhole self.items self.place)
            × WithNewPass {H = H} H.real self.place (λ first last. last ≡ first)) }
    {
        let mut pass = self.pass();
        let taken = self.try_into_buffer_as(&mut pass);
        pass.show();
        taken
    }
}

impl<
    S: Slice,
    L: LayoutMut,
    B: BufferMut<S::Item> + Drop,
    M: Drop,
    A: Allocator + Copy,
    H: Mark,
> ArcSliceMut<S, L, 0, B, M, A, H> {
    /// The items as an array of `N`. On a block they have to be all places of a native one, and no
    /// other owner lives.
    ///
    /// # Errors
    ///
    /// The window comes back where its items aren't `N`, on a block whose places they don't fill,
    /// on a vector, and where another owner lives.
    ///
    /// # History
    ///
    /// Taken off a block: Alone with yes, then Down. Refused: Alone with no, where only the count
    /// could decide; else nothing.
    pub fn try_into_array_as<const N: usize>(self, pass: &mut Pass<H>) -> Result<[S::Item; N], Self>
        requires pass { IsPassAt self.place pass.old }
        ensures taken { IfOk result (λ array. IsWholeWriter N self × (array ≡ self.items)) }
        ensures entries { IfOk result (λ _. TakesAt self.place pass.old pass.new) }
        ensures refused { IfErr result (λ back. (back ≡ self) × RefusesTaking
            (IsWholeWriter N self) self.place pass.old pass.new) }
    {
        match self.into_parts().try_into_array_as(pass) {
            Ok(array) => Ok(array),
            Err(parts) => Err(Self::from_parts(parts)),
        }
    }

    /// The items as an array of `N`: `try_into_array_as` with a new pass.
    ///
    /// # Errors
    ///
    /// The window comes back where its items aren't `N`, on a block whose places they don't fill,
    /// on a vector, and where another owner lives.
    ///
    /// # History
    ///
    /// Taken off a block: Alone with yes, then Down. Refused: Alone with no, where only the count
    /// could decide; else nothing.
    pub fn try_into_array<const N: usize>(self) -> Result<[S::Item; N], Self>
    where
        H: Stepping,
        ensures taken { IfOk result (λ array. IsWholeWriter N self × (array ≡ self.items)) }
        ensures entries { IfOk result (λ _. WithNewPass {H = H} H.real self.place (λ first last.
            TakesAt self.place first last)) }
        ensures refused { IfErr result (λ back. (back ≡ self)
            × WithNewPass {H = H} H.real self.place (λ first last. RefusesTaking
            (IsWholeWriter N self) self.place first last)) }
    {
        let mut pass = self.pass();
        let taken = self.try_into_array_as(&mut pass);
        pass.show();
        taken
    }

    /// Refuses always: none of several writers stands on a caller's buffer.
    ///
    /// # Errors
    ///
    /// The window comes back; the pass is as before.
    pub fn try_into_buffer_as(self, pass: &mut Pass<H>) -> Result<B, Self>
        requires pass { IsPassAt self.place pass.old }
        ensures back { result ≡ Err self }
        ensures pass { pass.new ≡ pass.old }
    {
        let _ = pass;
        Err(self)
    }

    /// Refuses always: none of several writers stands on a caller's buffer.
    ///
    /// # Errors
    ///
    /// The window comes back.
    pub fn try_into_buffer(self) -> Result<B, Self>
    where
        H: Stepping,
        ensures back { result ≡ Err self }
        ensures entries { WithNewPass {H = H} H.real self.place (λ first last. last ≡ first) }
    {
        let pass = self.pass();
        pass.show();
        Err(self)
    }
}
