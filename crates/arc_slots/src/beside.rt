//! The answers to commands of a window of one of several writers, and of one that becomes such a
//! window.

use crate::part::Part;
use crate::passes::Passes;
use crate::slot::{Slot, Writing};
use arc_block::layout::{Layout, LayoutMut};
use arc_buffer::buffer::BufferMut;
use arc_buffer::kinds::Slice;
use arc_commands::command::Reply;
use arc_kinds::kinds::{CallsOf, Commands, SmallOf, TableReply, TableUnder};
use arc_owners::error::{OwnerError, TryReserveError};
use std::alloc::Allocator;
use std::sync::Wait;

impl<S: Commands<A>, L: Layout, B: BufferMut<S::Item> + Drop, M: Drop, A: Allocator + Copy> Slot<
    S,
    L,
    B,
    M,
    A,
>
where
    L::Writable: LayoutMut,
    S::Small: SmallOf<S, L, M, A>,
{
    ghost use Rattle.std.specs.Prelude.{◌≡◌, ◌<◌, ℕ, None, Some, false, true, length};
    ghost use Rattle.std.specs.Prelude.{IfErr, IfOk, IsOk};
    ghost use Rattle.std.specs.Vec.{vec_capacity};
    ghost use Rattle.arc_parts.specs.Shared.{is_vector_at};
    ghost use Rattle.arc_parts.specs.Writers.{capacity_of};
    ghost use Rattle.arc_commands.specs.Blocks.{is_several};
    ghost use Rattle.arc_commands.specs.Seen.{seen_reply};
    ghost use Rattle.arc_commands.specs.declared.command.Cmd.TheVariants as command;
    ghost use Rattle.arc_commands.specs.declared.command.Reply.TheVariants as reply;
    ghost use Rattle.arc_slots.specs.Answers.{Answers};
    ghost use Rattle.arc_slots.specs.Calls.{AddsNothing, Along};
    ghost use Rattle.arc_slots.specs.Parts.{part_command};
    ghost use Rattle.arc_slots.specs.Several.{HasPlaces, RefusesBeside, SplitsBeside};
    ghost use Rattle.arc_slots.specs.Slots.{row_of, stand_of};
    ghost use Rattle.arc_slots.specs.Stands.{HasPassFor};
    ghost use Rattle.arc_slots.specs.Writing.{IsLegal, seen_writing, write_command};

    /// Makes a sole writer's window one of several on its block, if its kind has such windows and
    /// it stands on no caller's buffer.
    pub(crate) fn share(self, passes: &Passes<A>) -> (TableReply<S, B, M, A>, Option<Self>)
        ensures { (next i : ℕ) → Answers ⟦<S as TableUnder<L, A>>⟧.setting next (command.Share i)
            self passes.now.of_blocks.items (seen_reply S.items_in S.items_in_box B.list result.0)
            result.1 None passes.now.of_blocks.items }
    {
        let _ = passes;
        self.known_role();
        if !self.is_written() {
            return (Reply::Kind, Some(self));
        }
        if !S::Calls::shares() {
            return (Reply::Kind, Some(self));
        }
        match self.try_share() {
            Ok(slot) => (Reply::Ok, Some(slot)),
            Err(slot) => (Reply::Refused, Some(slot)),
        }
    }

    /// Makes a window of one of several writers that of the only one, if no other owner lives.
    pub(crate) fn make_unique(
        self,
        passes: &mut Passes<A>,
    ) -> (TableReply<S, B, M, A>, Option<Self>)
        requires { HasPassFor passes.old.of_blocks.items (stand_of (Some self)) }
        ensures { (next i : ℕ) → Answers ⟦<S as TableUnder<L, A>>⟧.setting next (command.Unique i)
            self passes.old.of_blocks.items (seen_reply S.items_in S.items_in_box B.list result.0)
            result.1 None passes.new.of_blocks.items }
    {
        self.known_role();
        if !self.is_several() {
            return (Reply::Kind, Some(self));
        }
        self.known_shared();
        match self.try_into_unique(passes) {
            Ok(slot) => (Reply::Ok, Some(slot)),
            Err(slot) => (Reply::Refused, Some(slot)),
        }
    }

    /// Adds no entry to the history of the window's block, which is legal. Does nothing: its
    /// contract is the law.
    fn adds_nothing(&self, passes: &Passes<A>)
        requires { HasPassFor passes.now.of_blocks.items (stand_of (Some self.now)) }
        ensures { Along (stand_of (Some self.now)) passes.now.of_blocks.items
            passes.now.of_blocks.items AddsNothing }
    {
        passes.attest(self.block);
    }

    /// Splits the places of a window of one of several writers, and hands out the part:
    /// `split_places`. A window on a vector first moves to a native block: `leave_vector`.
    ///
    /// # Errors
    ///
    /// - `CountFull` on a native block, exactly where `MAX_OWNERS` owners live.
    /// - `AllocError` on a vector, where memory for the native block is refused.
    fn try_split_beside(
        &mut self,
        rt: &impl Wait,
        part: Part,
        passes: &mut Passes<A>,
    ) -> Result<Self, OwnerError>
        requires role { is_several self.old.role ≡ true }
        requires within { HasPlaces S.boundary self.old.window.items (capacity_of self.old.role)
            part }
        requires room { is_vector_at (row_of self.old).place ≡ true
            → length passes.old.of_blocks.items < vec_capacity passes.old.of_blocks }
        requires pass { HasPassFor passes.old.of_blocks.items (stand_of (Some self.old)) }
        ensures made { IfOk result (λ handed. SplitsBeside part self.old self.new handed
            passes.old.of_blocks.items passes.new.of_blocks.items) }
        ensures kept { IfErr result (λ _. self.new ≡ self.old) }
        ensures refused { IfErr result (RefusesBeside (row_of self.old).place
            (stand_of (Some self.old)) passes.old.of_blocks.items passes.new.of_blocks.items) }
    {
        if !self.is_on_vector() {
            return self.split_places(rt, part, passes);
        }
        match self.leave_vector(passes) {
            Ok(()) => (),
            Err(e) => return Err(e),
        }
        match self.split_places(rt, part, passes) {
            Ok(handed) => Ok(handed),
            Err(_) => unreachable!(),
        }
    }

    /// Splits the places of a window of one of several writers, and hands out a part, if there is
    /// room for it in the table.
    ///
    /// # Errors
    ///
    /// The reply, where no part is handed out.
    #[inline(never)]
    pub(crate) fn hand_out_places(
        &mut self,
        rt: &impl Wait,
        part: Part,
        has_room: bool,
        passes: &mut Passes<A>,
    ) -> Result<Self, TableReply<S, B, M, A>>
        requires role { is_several self.old.role ≡ true }
        requires pass { HasPassFor passes.old.of_blocks.items (stand_of (Some self.old)) }
        ensures made { IfOk result (λ made. (next i : ℕ) → Answers ⟦<S as TableUnder<L, A>>⟧.setting
            next (part_command i part) self.old passes.old.of_blocks.items (reply.New next)
            (Some self.new) (Some made) passes.new.of_blocks.items) }
        ensures refused { IfErr result (λ r. (next i : ℕ) → Answers
            ⟦<S as TableUnder<L, A>>⟧.setting next (part_command i part) self.old
            passes.old.of_blocks.items (seen_reply S.items_in S.items_in_box B.list r)
            (Some self.new) None passes.new.of_blocks.items) }
        ensures room { IsOk result → has_room ≡ true }
        ensures alloc { IfErr result (λ r. r ≡ reply.Alloc → has_room ≡ false) }
    {
        self.known_undropped();
        if let Err(e) = self.check_places(part) {
            return Err(Reply::Range(e));
        }
        if !has_room {
            return Err(Reply::Alloc);
        }
        if passes.reserve_for(self.is_on_vector()).is_err() {
            self.adds_nothing(passes);
            return Err(Reply::Owner(OwnerError::AllocError));
        }
        match self.try_split_beside(rt, part, passes) {
            Ok(slot) => Ok(slot),
            Err(e) => Err(Reply::Owner(e)),
        }
    }

    /// Writes into a window of one of several writers: makes room, and appends what is written.
    /// What is refused is dropped.
    #[inline(always)]
    pub(crate) fn fill_beside(
        &mut self,
        what: Writing<Vec<S::Item, A>, S::Item>,
        passes: &mut Passes<A>,
    ) -> TableReply<S, B, M, A>
        requires legal { IsLegal S.is_legal (seen_writing what) }
        requires role { is_several self.old.role ≡ true }
        requires pass { HasPassFor passes.old.of_blocks.items (stand_of (Some self.old)) }
        ensures { (next i : ℕ) → Answers ⟦<S as TableUnder<L, A>>⟧.setting next
            (write_command i (seen_writing what)) self.old passes.old.of_blocks.items
            (seen_reply S.items_in S.items_in_box B.list result) (Some self.new) None
            passes.new.of_blocks.items }
    {
        self.known_undropped();
        if !Self::may_write(&what) {
            return Reply::Kind;
        }
        let begins = self.wants_block(what.additional());
        if passes.reserve_for(begins).is_err() {
            return Reply::Reserve(TryReserveError::AllocError);
        }
        if let Err(e) = self.write_beside(what, passes) {
            return Reply::Reserve(e);
        }
        Reply::Ok
    }

    /// Makes room for `additional` items more in a window of one of several writers, if that takes
    /// no memory.
    pub(crate) fn reclaim_beside(
        &mut self,
        additional: usize,
        passes: &mut Passes<A>,
    ) -> TableReply<S, B, M, A>
        requires role { is_several self.old.role ≡ true }
        requires pass { HasPassFor passes.old.of_blocks.items (stand_of (Some self.old)) }
        ensures { (next i : ℕ) → Answers ⟦<S as TableUnder<L, A>>⟧.setting next
            (command.Rec i additional) self.old passes.old.of_blocks.items
            (seen_reply S.items_in S.items_in_box B.list result) (Some self.new) None
            passes.new.of_blocks.items }
    {
        self.known_undropped();
        if self.try_reclaim_beside(additional, passes) {
            return Reply::Yes;
        }
        Reply::No
    }
}
