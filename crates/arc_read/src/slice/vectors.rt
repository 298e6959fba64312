//! Read windows over vectors and boxes: made of them, and taken back as them.
ghost use Rattle.std.specs.Prelude.{◌≡◌, length, IfOk, IfErr, IfSome, is_some};
ghost use Rattle.std.specs.Vec.{vec_capacity};
ghost use Rattle.std.specs.declared.vec.Vec.{Vec};
ghost use Rattle.arc_owners.specs.count.Calls.{IsPassOfNone};
ghost use Rattle.arc_block.specs.Place.{nowhere};
ghost use Rattle.arc_parts.specs.Window.{IsVecPart, IsBoxWhole};
ghost use Rattle.arc_block.specs.Place.{size_at};
ghost use Rattle.arc_parts.specs.Steps.{IsPassAt, MakesOfVec, NeedsVecBlock, Begins};
ghost use Rattle.arc_parts.specs.Steps.{TakesAt, RefusesTaking, LeavesLastAt};
ghost use Rattle.arc_read.specs.Steps.{WithNewPass};

use super::ArcSlice;
use arc_block::block::exact;
use arc_block::layout::{AnyBufferLayout, Layout};
use arc_buffer::buffer::Buffer;
use arc_buffer::kinds::{Slice, VecIn, Wraps};
use arc_owners::mark::{Mark, Stepping};
use arc_owners::owners::Pass;
use arc_parts::parts::Parts;
use std::alloc::Allocator;
use std::boxed::BoxedSlice;

impl<
    S: Slice,
    L: Layout,
    B: Buffer<S::Item> + Drop,
    M: Drop,
    A: Allocator + Copy,
    H: Mark,
> ArcSlice<S, L, B, M, A, H> {
    /// A window over all items of a vector, which are legal.
    fn try_from_legal_vec_as(
        alloc: A,
        items: Vec<S::Item, A>,
        pass: &mut Pass<H>,
    ) -> Result<Self, Vec<S::Item, A>>
    where
        L: AnyBufferLayout,
        requires legal { S.is_legal items.items }
        requires pass { IsPassOfNone pass.old }
        ensures made { IfOk result (λ window.
            MakesOfVec L.STATIC L.lone S.DROPS H.whole items.items (vec_capacity items) window) }
        ensures pass { IfOk result (λ window. Begins window pass.old pass.new) }
        ensures refused { IfErr result (λ back. (back ≡ items)
            × NeedsVecBlock L.STATIC (vec_capacity items) × (pass.new ≡ pass.old)) }
    {
        match Parts::try_from_vec_as::<L>(alloc, items, pass) {
            Ok(parts) => Ok(Self::from_parts(parts)),
            Err(back) => Err(back),
        }
    }

    /// A window over all items of a vector, on a block that is the vector, with its places: no item
    /// is copied. A vector without places makes the window that `try_from_slice_as` makes of no
    /// items. Of a new block the window is owner 0, and the pass, which was of no block, becomes
    /// the block's.
    ///
    /// # Errors
    ///
    /// The vector comes back where memory for the count is refused; the pass is then as before.
    ///
    /// # Allocates
    ///
    /// Once, where a block is needed.
    pub fn try_from_vec_as(alloc: A, items: S::Vec, pass: &mut Pass<H>) -> Result<Self, S::Vec>
    where
        L: AnyBufferLayout,
        S: VecIn<A>,
        requires pass { IsPassOfNone pass.old }
        ensures made { IfOk result (λ window. (inner : Vec S.Item A) × S.Vec.wraps items inner
            × MakesOfVec L.STATIC L.lone S.DROPS H.whole (S.list_in_vec items) (vec_capacity inner)
            window) }
        ensures pass { IfOk result (λ window. Begins window pass.old pass.new) }
        ensures refused { IfErr result (λ back. (inner : Vec S.Item A) × S.Vec.wraps items inner
            × S.Vec.wraps back inner × NeedsVecBlock L.STATIC (vec_capacity inner)
            × (pass.new ≡ pass.old)) }
    {
        match Self::try_from_legal_vec_as(alloc, items.into_inner(), pass) {
            Ok(window) => Ok(window),
            Err(back) => Err(S::Vec::from_inner(back)),
        }
    }

    /// A window over all items of a box, on a block that is the box as a vector with exactly a
    /// place for each. No item is copied, unless the box's memory has spare places: then all are
    /// first moved to memory without any. A box without items makes the window that
    /// `try_from_slice_as` makes of none. Of a new block the window is owner 0, and the pass, which
    /// was of no block, becomes the block's.
    ///
    /// # Errors
    ///
    /// A box of the same items comes back where memory for the count or for that move is refused;
    /// the pass is then as before.
    ///
    /// # Allocates
    ///
    /// Once, where a block is needed, and once more for spare places.
    pub fn try_from_boxed_as(
        alloc: A,
        items: S::Boxed,
        pass: &mut Pass<H>,
    ) -> Result<Self, S::Boxed>
    where
        L: AnyBufferLayout,
        S: VecIn<A>,
        requires pass { IsPassOfNone pass.old }
        ensures made { IfOk result (λ window. MakesOfVec L.STATIC L.lone S.DROPS H.whole
            (S.list_in_boxed items) (length (S.list_in_boxed items)) window) }
        ensures pass { IfOk result (λ window. Begins window pass.old pass.new) }
        ensures refused { IfErr result (λ back. (S.list_in_boxed back ≡ S.list_in_boxed items)
            × NeedsVecBlock L.STATIC (length (S.list_in_boxed items)) × (pass.new ≡ pass.old)) }
    {
        match exact(alloc, items.into_inner().into_vec()) {
            Ok(inner) => match Self::try_from_legal_vec_as(alloc, inner, pass) {
                Ok(window) => Ok(window),
                Err(back) => Err(S::Boxed::from_inner(back.into_boxed_slice())),
            },
            Err(back) => Err(S::Boxed::from_inner(back.into_boxed_slice())),
        }
    }

    /// The items as their block's vector, moved to its front, where the block is a vector and no
    /// other owner lives. Items that are dropped one by one have to be all of the vector.
    ///
    /// # Errors
    ///
    /// The window comes back where it stands on no vector, where items that are dropped one by one
    /// are only a part of the vector, and where another owner lives.
    ///
    /// # History
    ///
    /// Taken: Alone with yes, then Down. Refused: Alone with no, where only the count could decide;
    /// else nothing.
    pub fn try_into_vec_as(self, pass: &mut Pass<H>) -> Result<S::Vec, Self>
    where
        S: VecIn<A>,
        requires pass { IsPassAt self.place pass.old }
        ensures taken { IfOk result (λ v. IsVecPart S.DROPS self.items self.place
            × (S.list_in_vec v ≡ self.items)) }
        ensures places { IfOk result (λ v. (inner : Vec S.Item A) × S.Vec.wraps v inner
            × (vec_capacity inner ≡ size_at self.place)) }
        ensures entries { IfOk result (λ _. TakesAt self.place pass.old pass.new) }
        ensures refused { IfErr result (λ window. (window ≡ self) × RefusesTaking
            (IsVecPart S.DROPS self.items self.place) self.place pass.old pass.new) }
    {
        match self.into_parts().try_into_vec_as(pass) {
            Ok(inner) => Ok(S::Vec::from_inner(inner)),
            Err(parts) => Err(Self::from_parts(parts)),
        }
    }

    /// The items as a box, where they are all of a vector without spare places, and no other owner
    /// lives. No item is copied.
    ///
    /// # Errors
    ///
    /// The window comes back where it stands on no vector, where the items don't fill all places of
    /// the vector, and where another owner lives.
    ///
    /// # History
    ///
    /// Taken: Alone with yes, then Down. Refused: Alone with no, where only the count could decide;
    /// else nothing.
    pub fn try_into_boxed_as(self, pass: &mut Pass<H>) -> Result<S::Boxed, Self>
    where
        S: VecIn<A>,
        requires pass { IsPassAt self.place pass.old }
        ensures taken { IfOk result (λ b. IsBoxWhole self.items self.place
            × (S.list_in_boxed b ≡ self.items)) }
        ensures entries { IfOk result (λ _. TakesAt self.place pass.old pass.new) }
        ensures refused { IfErr result (λ window. (window ≡ self) × RefusesTaking
            (IsBoxWhole self.items self.place) self.place pass.old pass.new) }
    {
        match self.into_parts().try_into_box_vec_as(pass) {
            Ok(inner) => Ok(S::Boxed::from_inner(inner.into_boxed_slice())),
            Err(parts) => Err(Self::from_parts(parts)),
        }
    }

    /// Ends the window, where its block is a vector, by one subtraction from the count. The last
    /// owner gets the vector, with the window's items moved to its front, and every other one
    /// `None`. So of owners that all end by this call exactly one gets it, by the law
    /// `one_is_last` of `arc_owners`. Items that are dropped one by one have to be all of the
    /// vector.
    ///
    /// # Errors
    ///
    /// The window comes back exactly where it stands on no vector, or where items that are dropped
    /// one by one are only a part of the vector. No entry is added then.
    ///
    /// # History
    ///
    /// Down; nothing on an error.
    pub fn into_vec_if_last_as(self, pass: &mut Pass<H>) -> Result<Option<S::Vec>, Self>
    where
        S: VecIn<A>,
        requires pass { IsPassAt self.place pass.old }
        ensures ended { IfOk result (λ last. IsVecPart S.DROPS self.items self.place
            × LeavesLastAt self.place pass.old pass.new (is_some last)) }
        ensures vector { IfOk result (λ last. IfSome last (λ v. S.list_in_vec v ≡ self.items)) }
        ensures places { IfOk result (λ last. IfSome last (λ v. (inner : Vec S.Item A)
            × S.Vec.wraps v inner × (vec_capacity inner ≡ size_at self.place))) }
        ensures refused { IfErr result (λ window. (window ≡ self)
            × (¬ IsVecPart S.DROPS self.items self.place) × (pass.new ≡ pass.old)) }
    {
        match self.into_parts().into_vec_if_last_as(pass) {
            Ok(Some(inner)) => Ok(Some(S::Vec::from_inner(inner))),
            Ok(None) => Ok(None),
            Err(parts) => Err(Self::from_parts(parts)),
        }
    }

    /// Ends the window, where its items are all of a vector without spare places, by one
    /// subtraction from the count. The last owner gets them as a box, and every other one `None`.
    /// No item is copied.
    ///
    /// # Errors
    ///
    /// The window comes back exactly where it stands on no vector, or where the items don't fill
    /// all places of the vector. No entry is added then.
    ///
    /// # History
    ///
    /// Down; nothing on an error.
    pub fn into_boxed_if_last_as(self, pass: &mut Pass<H>) -> Result<Option<S::Boxed>, Self>
    where
        S: VecIn<A>,
        requires pass { IsPassAt self.place pass.old }
        ensures ended { IfOk result (λ last. IsBoxWhole self.items self.place
            × LeavesLastAt self.place pass.old pass.new (is_some last)) }
        ensures boxed { IfOk result (λ last. IfSome last (λ b. S.list_in_boxed b ≡ self.items)) }
        ensures refused { IfErr result (λ window. (window ≡ self)
            × (¬ IsBoxWhole self.items self.place) × (pass.new ≡ pass.old)) }
    {
        match self.into_parts().into_box_vec_if_last_as(pass) {
            Ok(Some(inner)) => Ok(Some(S::Boxed::from_inner(inner.into_boxed_slice()))),
            Ok(None) => Ok(None),
            Err(parts) => Err(Self::from_parts(parts)),
        }
    }

    /// A window over all items of a vector, of which none is copied: `try_from_vec_as` with a new
    /// pass.
    ///
    /// # Errors
    ///
    /// The vector comes back where memory for the count is refused.
    ///
    /// # Allocates
    ///
    /// Once, where a block is needed.
    pub fn try_from_vec(alloc: A, items: S::Vec) -> Result<Self, S::Vec>
    where
        L: AnyBufferLayout,
        H: Stepping,
        S: VecIn<A>,
        ensures made { IfOk result (λ window. (inner : Vec S.Item A) × S.Vec.wraps items inner
            × MakesOfVec L.STATIC L.lone S.DROPS H.whole (S.list_in_vec items) (vec_capacity inner)
            window) }
        ensures pass { IfOk result (λ window.
            WithNewPass {M = M} {H = H} H.real nowhere (λ first last. Begins window first last)) }
        ensures refused { IfErr result (λ back. (inner : Vec S.Item A) × S.Vec.wraps items inner
            × S.Vec.wraps back inner × NeedsVecBlock L.STATIC (vec_capacity inner)) }
    {
        let mut pass = Pass::none();
        let made = Self::try_from_vec_as(alloc, items, &mut pass);
        pass.show();
        made
    }

    /// A window over all items of a box: `try_from_boxed_as` with a new pass.
    ///
    /// # Errors
    ///
    /// A box of the same items comes back where memory for the count or a move is refused.
    ///
    /// # Allocates
    ///
    /// Once, where a block is needed, and once more for spare places.
    pub fn try_from_boxed(alloc: A, items: S::Boxed) -> Result<Self, S::Boxed>
    where
        L: AnyBufferLayout,
        H: Stepping,
        S: VecIn<A>,
        ensures made { IfOk result (λ window. MakesOfVec L.STATIC L.lone S.DROPS H.whole
            (S.list_in_boxed items) (length (S.list_in_boxed items)) window) }
        ensures pass { IfOk result (λ window.
            WithNewPass {M = M} {H = H} H.real nowhere (λ first last. Begins window first last)) }
        ensures refused { IfErr result (λ back. (S.list_in_boxed back ≡ S.list_in_boxed items)
            × NeedsVecBlock L.STATIC (length (S.list_in_boxed items))) }
    {
        let mut pass = Pass::none();
        let made = Self::try_from_boxed_as(alloc, items, &mut pass);
        pass.show();
        made
    }

    /// The items as their block's vector, moved to its front: `try_into_vec_as` with a new pass.
    ///
    /// # Errors
    ///
    /// The window comes back where it stands on no vector, where items that are dropped one by one
    /// are only a part of the vector, and where another owner lives.
    ///
    /// # History
    ///
    /// Taken: Alone with yes, then Down. Refused: Alone with no, where only the count could decide;
    /// else nothing.
    pub fn try_into_vec(self) -> Result<S::Vec, Self>
    where
        H: Stepping,
        S: VecIn<A>,
        ensures taken { IfOk result (λ v. IsVecPart S.DROPS self.items self.place
            × (S.list_in_vec v ≡ self.items)) }
        ensures places { IfOk result (λ v. (inner : Vec S.Item A) × S.Vec.wraps v inner
            × (vec_capacity inner ≡ size_at self.place)) }
        ensures entries { IfOk result (λ _. WithNewPass {H = H} H.real self.place (λ first last.
            TakesAt self.place first last)) }
        ensures refused { IfErr result (λ window. window ≡ self) }
        ensures asked { IfErr result (λ _. WithNewPass {H = H} H.real self.place (λ first last.
            RefusesTaking (IsVecPart S.DROPS self.items self.place) self.place first last)) }
    {
        let mut pass = self.pass();
        let taken = self.try_into_vec_as(&mut pass);
        pass.show();
        taken
    }

    /// The items as a box, of which none is copied: `try_into_boxed_as` with a new pass.
    ///
    /// # Errors
    ///
    /// The window comes back where it stands on no vector, where the items don't fill all places of
    /// the vector, and where another owner lives.
    ///
    /// # History
    ///
    /// Taken: Alone with yes, then Down. Refused: Alone with no, where only the count could decide;
    /// else nothing.
    pub fn try_into_boxed(self) -> Result<S::Boxed, Self>
    where
        H: Stepping,
        S: VecIn<A>,
        ensures taken { IfOk result (λ b. IsBoxWhole self.items self.place
            × (S.list_in_boxed b ≡ self.items)) }
        ensures entries { IfOk result (λ _. WithNewPass {H = H} H.real self.place (λ first last.
            TakesAt self.place first last)) }
        ensures refused { IfErr result (λ window. window ≡ self) }
        ensures asked { IfErr result (λ _. WithNewPass {H = H} H.real self.place (λ first last.
            RefusesTaking (IsBoxWhole self.items self.place) self.place first last)) }
    {
        let mut pass = self.pass();
        let taken = self.try_into_boxed_as(&mut pass);
        pass.show();
        taken
    }

    /// Ends the window, and gives the vector to the last owner: `into_vec_if_last_as` with a new
    /// pass.
    ///
    /// # Errors
    ///
    /// The window comes back exactly where it stands on no vector, or where items that are dropped
    /// one by one are only a part of the vector. No entry is added then.
    ///
    /// # History
    ///
    /// Down; nothing on an error.
    pub fn into_vec_if_last(self) -> Result<Option<S::Vec>, Self>
    where
        H: Stepping,
        S: VecIn<A>,
        ensures ended { IfOk result (λ last. IsVecPart S.DROPS self.items self.place
            × WithNewPass {H = H} H.real self.place (λ first now.
            LeavesLastAt self.place first now (is_some last))) }
        ensures vector { IfOk result (λ last. IfSome last (λ v. S.list_in_vec v ≡ self.items)) }
        ensures places { IfOk result (λ last. IfSome last (λ v. (inner : Vec S.Item A)
            × S.Vec.wraps v inner × (vec_capacity inner ≡ size_at self.place))) }
        ensures refused { IfErr result (λ window. (window ≡ self)
            × (¬ IsVecPart S.DROPS self.items self.place)
            × WithNewPass {H = H} H.real self.place (λ first last. last ≡ first)) }
    {
        let mut pass = self.pass();
        let ended = self.into_vec_if_last_as(&mut pass);
        pass.show();
        ended
    }

    /// Ends the window, and gives the box to the last owner: `into_boxed_if_last_as` with a new
    /// pass.
    ///
    /// # Errors
    ///
    /// The window comes back exactly where it stands on no vector, or where the items don't fill
    /// all places of the vector. No entry is added then.
    ///
    /// # History
    ///
    /// Down; nothing on an error.
    pub fn into_boxed_if_last(self) -> Result<Option<S::Boxed>, Self>
    where
        H: Stepping,
        S: VecIn<A>,
        ensures ended { IfOk result (λ last. IsBoxWhole self.items self.place
            × WithNewPass {H = H} H.real self.place (λ first now.
            LeavesLastAt self.place first now (is_some last))) }
        ensures boxed { IfOk result (λ last. IfSome last (λ b. S.list_in_boxed b ≡ self.items)) }
        ensures refused { IfErr result (λ window. (window ≡ self)
            × (¬ IsBoxWhole self.items self.place)
            × WithNewPass {H = H} H.real self.place (λ first last. last ≡ first)) }
    {
        let mut pass = self.pass();
        let ended = self.into_boxed_if_last_as(&mut pass);
        pass.show();
        ended
    }
}
