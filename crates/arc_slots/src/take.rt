//! What a window stands on, taken out of a table.
ghost use Rattle.std.specs.Prelude.{◌≡◌, true, IfOk, IfErr};
ghost use Rattle.arc_owners.specs.count.Calls.{Leaves};
ghost use Rattle.arc_block.specs.Place.{at_owner, size_at};
ghost use Rattle.arc_parts.specs.Steps.{IsPassAt, RefusesTaking, TakesAt};
ghost use Rattle.arc_block.specs.Table.{reader};
ghost use Rattle.arc_commands.specs.Seen.{seen_reply};
ghost use Rattle.arc_slots.specs.Places.{HandsOutPlaces, WrapsPlaces};
ghost use Rattle.arc_slots.specs.Taking.{CanHave, is_writers, take_reply};

use crate::passes::Passes;
use crate::slot::Slot;
use crate::window::Held;
use arc_block::layout::{Layout, LayoutMut};
use arc_block::static_slice::StaticSlice;
use arc_buffer::buffer::BufferMut;
use arc_buffer::kinds::Slice;
use arc_commands::command::Reply;
use arc_kinds::kinds::{Commands, SmallOf, TableKind, TableReply, TableUnder, box_of, items_of};
use arc_owners::mark::Whole;
use arc_owners::owners::Pass;
use arc_parts::parts::Parts;
use arc_read::slice::ArcSlice;
use arc_write::slice_mut::ArcSliceMut;
use arc_writer_parts::role::WriterParts;
use arc_writer_parts::sole::SoleParts;
use std::alloc::Allocator;

/// What of a window's block is taken out.
#[derive(Clone, Copy)]
pub enum Taking {
    /// Its vector.
    Vector,
    /// Its vector, as a box.
    Boxed,
    /// A caller's buffer.
    Buffer,
    /// The `Arc` of a caller's buffer.
    Raw,
}

impl Taking {
    /// Whether it may be taken of windows that are written too.
    fn for_writers(self) -> bool
        ensures { result ≡ is_writers self }
    {
        match self {
            Taking::Vector | Taking::Buffer => true,
            Taking::Boxed | Taking::Raw => false,
        }
    }
}

/// What the parts of a reader stand on, taken out, as a reply.
///
/// # Errors
///
/// The parts come back.
///
/// # History
///
/// Taken: Alone with yes, then Down. Refused: Alone with no, where only the count could decide;
/// else nothing.
fn try_into_reply<S: Commands<A>, B: BufferMut<S::Item> + Drop, M: Drop, A: Allocator + Copy>(
    parts: Parts<S, B, M, A, Whole>,
    what: Taking,
    pass: &mut Pass<Whole>,
) -> Result<TableReply<S, B, M, A>, Parts<S, B, M, A, Whole>>
    requires role { parts.role ≡ reader }
    requires legal { ∥ S.is_legal parts.items ∥₁ }
    requires pass { IsPassAt parts.place pass.old }
    ensures reply { IfOk result (λ r. seen_reply S.items_in S.items_in_box B.list r
        ≡ take_reply what parts.items) }
    ensures places { IfOk result (λ r. HandsOutPlaces (WrapsPlaces S.Items.wraps) B.places
        (size_at parts.place) r) }
    ensures taken { IfOk result (λ _. CanHave S.DROPS what parts.items parts.place) }
    ensures entries { IfOk result (λ _. TakesAt parts.place pass.old pass.new) }
    ensures back { IfErr result (λ back. back ≡ parts) }
    ensures refused { IfErr result (λ _. RefusesTaking (CanHave S.DROPS what parts.items
        parts.place) parts.place pass.old pass.new) }
{
    match what {
        Taking::Vector => match parts.try_into_vec_as(pass) {
            Ok(items) => Ok(Reply::Vec(items_of::<S, A>(items))),
            Err(parts) => Err(parts),
        },
        Taking::Boxed => match parts.try_into_box_vec_as(pass) {
            Ok(items) => Ok(Reply::Boxed(box_of::<S, A>(items))),
            Err(parts) => Err(parts),
        },
        Taking::Buffer => match parts.try_into_buffer_as(pass) {
            Ok(buffer) => Ok(Reply::Buffer(buffer)),
            Err(parts) => Err(parts),
        },
        Taking::Raw => match parts.try_into_raw_as(pass) {
            Ok(shared) => Ok(Reply::Raw(shared)),
            Err(parts) => Err(parts),
        },
    }
}

/// What a sole writer's parts stand on, taken out, as a reply.
///
/// # Errors
///
/// The parts come back; the pass is then as before.
///
/// # History
///
/// Taken: Down, without an atomic step. Refused: nothing.
fn try_sole_into_reply<S: Commands<A>, B: BufferMut<S::Item> + Drop, M: Drop, A: Allocator + Copy>(
    parts: SoleParts<S, B, M, A, Whole>,
    what: Taking,
    pass: &mut Pass<Whole>,
) -> Result<TableReply<S, B, M, A>, SoleParts<S, B, M, A, Whole>>
    requires what { is_writers what ≡ true }
    requires legal { ∥ S.is_legal parts.items ∥₁ }
    requires pass { IsPassAt parts.place pass.old }
    ensures reply { IfOk result (λ r. seen_reply S.items_in S.items_in_box B.list r
        ≡ take_reply what parts.items) }
    ensures places { IfOk result (λ r. HandsOutPlaces (WrapsPlaces S.Items.wraps) B.places
        (size_at parts.place) r) }
    ensures taken { IfOk result (λ _. CanHave S.DROPS what parts.items parts.place) }
    ensures entry { IfOk result (λ _. at_owner parts.place ⊥ (λ o.
        Leaves o pass.old pass.new true)) }
    ensures back { IfErr result (λ back. back ≡ parts) }
    ensures refused { IfErr result (λ _. (¬ CanHave S.DROPS what parts.items parts.place)
        × (pass.new ≡ pass.old)) }
{
    match what {
        Taking::Vector => match parts.try_into_vec_as(pass) {
            Ok(items) => Ok(Reply::Vec(items_of::<S, A>(items))),
            Err(parts) => Err(parts),
        },
        Taking::Buffer => match parts.try_into_buffer_as(pass) {
            Ok(buffer) => Ok(Reply::Buffer(buffer)),
            Err(parts) => Err(parts),
        },
        Taking::Boxed | Taking::Raw => unreachable!(),
    }
}

impl<S: TableKind, L: Layout, B: BufferMut<S::Item> + Drop, M: Drop, A: Allocator + Copy> Slot<
    S,
    L,
    B,
    M,
    A,
>
where
    L::Writable: LayoutMut,
    S::Small: SmallOf<S, L, M, A>,
{
    ghost use Rattle.std.specs.Prelude.{false, Some, length};
    ghost use Rattle.arc_parts.specs.Shared.{is_on_block};
    ghost use Rattle.arc_commands.specs.Blocks.{is_several, is_sole};
    ghost use Rattle.arc_slots.specs.Calls.{Along, RefusesOut, TakesOut};
    ghost use Rattle.arc_slots.specs.Slots.{row_of, stand_of};
    ghost use Rattle.arc_slots.specs.Stands.{HasPassFor};
    ghost use Rattle.arc_slots.specs.Taking.{can_have};
    ghost use Rattle.arc_slots.specs.declared.take.Taking.TheVariants.{Vector as vector_of};

    /// What a window that is read stands on, taken out, as a reply: where it is of the sort that is
    /// asked for, and no other owner lives.
    ///
    /// # Errors
    ///
    /// The window itself comes back.
    ///
    /// # History
    ///
    /// Taken: Alone with yes, then Down. Refused: Alone with no, where only the count could decide;
    /// else nothing.
    fn try_take(self, what: Taking, passes: &mut Passes<A>) -> Result<TableReply<S, B, M, A>, Self>
    where
        S: Commands<A>,
        requires reads { self.role ≡ reader }
        requires pass { HasPassFor passes.old.of_blocks.items (stand_of (Some self)) }
        ensures reply { IfOk result (λ r. seen_reply S.items_in S.items_in_box B.list r
            ≡ take_reply what self.window.items) }
        ensures places { IfOk result (λ r. HandsOutPlaces (WrapsPlaces S.Items.wraps) B.places
            (size_at (row_of self).place) r) }
        ensures taken { IfOk result (λ _. TakesOut
            (can_have S.DROPS what (row_of self).place (length self.window.items))
            (stand_of (Some self)) passes.old.of_blocks.items passes.new.of_blocks.items) }
        ensures back { IfErr result (λ slot. slot ≡ self) }
        ensures refused { IfErr result (λ _. RefusesOut
            (can_have S.DROPS what (row_of self).place (length self.window.items))
            (stand_of (Some self)) passes.old.of_blocks.items passes.new.of_blocks.items) }
    {
        let Slot { window, block } = self;
        let Held::Read(window) = window else {
            unreachable!()
        };
        let mut pass = passes.lend(block);
        let taken = try_into_reply(window.into_parts(), what, &mut pass);
        passes.give_back(block, pass);
        match taken {
            Ok(reply) => Ok(reply),
            Err(parts) => Err(Slot {
                window: Held::Read(ArcSlice::from_parts(parts)),
                block,
            }),
        }
    }

    /// What a sole writer's window stands on, taken out, as a reply: where it is of the sort that
    /// is asked for.
    ///
    /// # Errors
    ///
    /// The window itself comes back.
    ///
    /// # History
    ///
    /// Taken: Down, without an atomic step. Refused: nothing.
    fn try_take_written(
        self,
        what: Taking,
        passes: &mut Passes<A>,
    ) -> Result<TableReply<S, B, M, A>, Self>
    where
        S: Commands<A>,
        requires writes { is_sole self.role ≡ true }
        requires what { is_writers what ≡ true }
        requires pass { HasPassFor passes.old.of_blocks.items (stand_of (Some self)) }
        ensures reply { IfOk result (λ r. seen_reply S.items_in S.items_in_box B.list r
            ≡ take_reply what self.window.items) }
        ensures places { IfOk result (λ r. HandsOutPlaces (WrapsPlaces S.Items.wraps) B.places
            (size_at (row_of self).place) r) }
        ensures taken { IfOk result (λ _. can_have S.DROPS what (row_of self).place
            (length self.window.items) ≡ true) }
        ensures left { IfOk result (λ _. Along (stand_of (Some self)) passes.old.of_blocks.items
            passes.new.of_blocks.items (λ o p q. Leaves o p q true)) }
        ensures back { IfErr result (λ slot. (slot ≡ self)
            × (passes.new.of_blocks.items ≡ passes.old.of_blocks.items)) }
        ensures refused { IfErr result (λ _. can_have S.DROPS what (row_of self).place
            (length self.window.items) ≡ false) }
    {
        let Slot { window, block } = self;
        let Held::Write(window) = window else {
            unreachable!()
        };
        let mut pass = passes.lend(block);
        let taken = try_sole_into_reply(window.into_parts(), what, &mut pass);
        passes.give_back(block, pass);
        match taken {
            Ok(reply) => Ok(reply),
            Err(parts) => Err(Slot {
                window: Held::Write(ArcSliceMut::from_parts(parts)),
                block,
            }),
        }
    }

    /// The vector on which a window of one of several writers stands, taken out, as a reply: where
    /// it stands on one, and no other owner lives.
    ///
    /// # Errors
    ///
    /// The window itself comes back.
    ///
    /// # History
    ///
    /// Taken: Alone with yes, then Down. Refused: Alone with no, where only the count could decide;
    /// else nothing.
    fn try_take_beside(self, passes: &mut Passes<A>) -> Result<TableReply<S, B, M, A>, Self>
    where
        S: Commands<A>,
        requires role { is_several self.role ≡ true }
        requires pass { HasPassFor passes.old.of_blocks.items (stand_of (Some self)) }
        ensures reply { IfOk result (λ r. seen_reply S.items_in S.items_in_box B.list r
            ≡ take_reply vector_of self.window.items) }
        ensures places { IfOk result (λ r. HandsOutPlaces (WrapsPlaces S.Items.wraps) B.places
            (size_at (row_of self).place) r) }
        ensures taken { IfOk result (λ _. TakesOut
            (can_have S.DROPS vector_of (row_of self).place (length self.window.items))
            (stand_of (Some self)) passes.old.of_blocks.items passes.new.of_blocks.items) }
        ensures back { IfErr result (λ slot. slot ≡ self) }
        ensures refused { IfErr result (λ _. RefusesOut
            (can_have S.DROPS vector_of (row_of self).place (length self.window.items))
            (stand_of (Some self)) passes.old.of_blocks.items passes.new.of_blocks.items) }
    {
        let Slot { window, block } = self;
        let Held::Several(window) = window else {
            unreachable!()
        };
        let mut pass = passes.lend(block);
        let taken = window.into_parts().try_into_vec_as(&mut pass);
        passes.give_back(block, pass);
        match taken {
            Ok(items) => Ok(Reply::Vec(items_of::<S, A>(items))),
            Err(parts) => Err(Slot {
                window: Held::Several(ArcSliceMut::from_parts(parts)),
                block,
            }),
        }
    }

    /// The items of a window that is read, as a `'static` slice, where it stands on no block. It
    /// takes no memory.
    ///
    /// # Errors
    ///
    /// The window itself comes back.
    fn try_into_static(self) -> Result<StaticSlice<S::Item>, Self>
        requires reads { self.role ≡ reader }
        ensures items { IfOk result (λ items. items ≡ self.window.items) }
        ensures taken { IfOk result (λ _. is_on_block (row_of self).place ≡ false) }
        ensures back { IfErr result (λ slot. slot ≡ self) }
        ensures refused { IfErr result (λ _. is_on_block (row_of self).place ≡ true) }
    {
        let Slot { window, block } = self;
        let Held::Read(window) = window else {
            unreachable!()
        };
        match window.into_parts().try_into_static() {
            Ok(items) => Ok(items),
            Err(parts) => Err(Slot {
                window: Held::Read(ArcSlice::from_parts(parts)),
                block,
            }),
        }
    }
}

impl<S: Commands<A>, L: Layout, B: BufferMut<S::Item> + Drop, M: Drop, A: Allocator + Copy> Slot<
    S,
    L,
    B,
    M,
    A,
>
where
    L::Writable: LayoutMut,
    S::Small: SmallOf<S, L, M, A>,
{
    ghost use Rattle.std.specs.Prelude.{ℕ, None, Some};
    ghost use Rattle.arc_commands.specs.Blocks.{is_several};
    ghost use Rattle.arc_commands.specs.declared.command.Cmd.TheVariants as command;
    ghost use Rattle.arc_slots.specs.Answers.{Answers};
    ghost use Rattle.arc_slots.specs.Slots.{row_of, stand_of};
    ghost use Rattle.arc_slots.specs.Stands.{HasPassFor};
    ghost use Rattle.arc_slots.specs.Taking.{take_command};

    /// The items of the window, which ends, if it is read and stands on no block.
    pub(crate) fn take_static(self, passes: &Passes<A>) -> (TableReply<S, B, M, A>, Option<Self>)
        ensures { (next i : ℕ) → Answers ⟦<S as TableUnder<L, A>>⟧.setting next
            (command.TakeStatic i) self passes.now.of_blocks.items
            (seen_reply S.items_in S.items_in_box B.list result.0) result.1 None
            passes.now.of_blocks.items }
    {
        let _ = passes;
        if !self.is_read() {
            return (Reply::Kind, Some(self));
        }
        match self.try_into_static() {
            Ok(items) => (Reply::Static(items), None),
            Err(slot) => (Reply::Refused, Some(slot)),
        }
    }

    /// Takes out the vector on which a window of one of several writers stands, if that can be had;
    /// then the window is gone. Nothing else is taken out of such a window.
    fn take_beside(
        self,
        what: Taking,
        passes: &mut Passes<A>,
    ) -> (TableReply<S, B, M, A>, Option<Self>)
        requires role { is_several self.role ≡ true }
        requires pass { HasPassFor passes.old.of_blocks.items (stand_of (Some self)) }
        ensures answers { (next i : ℕ) → Answers ⟦<S as TableUnder<L, A>>⟧.setting next
            (take_command i what) self passes.old.of_blocks.items
            (seen_reply S.items_in S.items_in_box B.list result.0) result.1 None
            passes.new.of_blocks.items }
        ensures places { HandsOutPlaces (WrapsPlaces S.Items.wraps) B.places
            (size_at (row_of self).place) result.0 }
    {
        match what {
            Taking::Vector => match self.try_take_beside(passes) {
                Ok(reply) => (reply, None),
                Err(slot) => (Reply::Refused, Some(slot)),
            },
            Taking::Boxed | Taking::Buffer | Taking::Raw => (Reply::Kind, Some(self)),
        }
    }

    /// Takes out what the window stands on, if that is for a window of its role and can be had;
    /// then the window is gone.
    pub(crate) fn take(
        self,
        what: Taking,
        passes: &mut Passes<A>,
    ) -> (TableReply<S, B, M, A>, Option<Self>)
        requires { HasPassFor passes.old.of_blocks.items (stand_of (Some self)) }
        ensures answers { (next i : ℕ) → Answers ⟦<S as TableUnder<L, A>>⟧.setting next
            (take_command i what) self passes.old.of_blocks.items
            (seen_reply S.items_in S.items_in_box B.list result.0) result.1 None
            passes.new.of_blocks.items }
        ensures places { HandsOutPlaces (WrapsPlaces S.Items.wraps) B.places
            (size_at (row_of self).place) result.0 }
    {
        if self.is_read() {
            return match self.try_take(what, passes) {
                Ok(reply) => (reply, None),
                Err(slot) => (Reply::Refused, Some(slot)),
            };
        }
        if self.is_several() {
            return self.take_beside(what, passes);
        }
        if !self.is_written() {
            return (Reply::Kind, Some(self));
        }
        if !what.for_writers() {
            return (Reply::Kind, Some(self));
        }
        match self.try_take_written(what, passes) {
            Ok(reply) => (reply, None),
            Err(slot) => (Reply::Refused, Some(slot)),
        }
    }
}
