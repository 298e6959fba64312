//! Clones, ranges and parts of a slot's window, as they are handed out.

use crate::part::Part;
use crate::passes::Passes;
use crate::slot::Slot;
use arc_block::layout::{Layout, LayoutMut};
use arc_buffer::buffer::BufferMut;
use arc_buffer::kinds::Slice;
use arc_commands::command::Reply;
use arc_kinds::kinds::{CallsOf, Commands, SmallOf, TableKind, TableReply, TableUnder};
use std::alloc::Allocator;
use std::sync::Wait;

impl<S: Commands<A>, L: Layout, B: BufferMut<S::Item> + Drop, M: Drop, A: Allocator + Copy> Slot<
    S,
    L,
    B,
    M,
    A,
>
where
    L::Writable: LayoutMut,
    S::Small: SmallOf<S, L, M, A>,
{
    ghost use Rattle.std.specs.Prelude.{◌≡◌, ℕ, None, Some, false, true, IfErr, IfOk, IsOk};
    ghost use Rattle.arc_commands.specs.Seen.{seen_reply};
    ghost use Rattle.arc_commands.specs.declared.command.Cmd.TheVariants as command;
    ghost use Rattle.arc_commands.specs.declared.command.Reply.TheVariants as reply;
    ghost use Rattle.arc_slots.specs.Answers.{Answers};
    ghost use Rattle.arc_slots.specs.Parts.{part_command};
    ghost use Rattle.arc_slots.specs.Slots.{stand_of};
    ghost use Rattle.arc_slots.specs.Stands.{HasPassFor};

    /// Hands out a clone of the window, if the window isn't written and there is room in the table.
    /// Each way to hand out a window is a call of its own, so that no place is cleared for what
    /// another would hand out.
    ///
    /// # Errors
    ///
    /// The reply, where nothing is handed out.
    #[inline(never)]
    pub(crate) fn hand_out_clone(
        &self,
        rt: &impl Wait,
        has_room: bool,
        passes: &mut Passes<A>,
    ) -> Result<Self, TableReply<S, B, M, A>>
        requires { HasPassFor passes.old.of_blocks.items (stand_of (Some self.now)) }
        ensures made { IfOk result (λ made. (next i : ℕ) → Answers ⟦<S as TableUnder<L, A>>⟧.setting
            next (command.Clone i) self.now passes.old.of_blocks.items (reply.New next)
            (Some self.now) (Some made) passes.new.of_blocks.items) }
        ensures refused { IfErr result (λ r. (next i : ℕ) → Answers
            ⟦<S as TableUnder<L, A>>⟧.setting next (command.Clone i) self.now
            passes.old.of_blocks.items (seen_reply S.items_in S.items_in_box B.list r)
            (Some self.now) None passes.new.of_blocks.items) }
        ensures room { IsOk result → has_room ≡ true }
        ensures alloc { IfErr result (λ r. r ≡ reply.Alloc → has_room ≡ false) }
    {
        self.known_role();
        if self.is_writer() {
            return Err(Reply::Kind);
        }
        if !has_room {
            return Err(Reply::Alloc);
        }
        match self.try_clone(rt, passes) {
            Ok(slot) => Ok(slot),
            Err(e) => Err(Reply::Owner(e)),
        }
    }

    /// Hands out the items from `start` to `end` of the window, if that isn't written and has them,
    /// and there is room.
    ///
    /// # Errors
    ///
    /// The reply, where nothing is handed out.
    #[inline(never)]
    pub(crate) fn hand_out_range(
        &self,
        rt: &impl Wait,
        start: usize,
        end: usize,
        has_room: bool,
        passes: &mut Passes<A>,
    ) -> Result<Self, TableReply<S, B, M, A>>
        requires { HasPassFor passes.old.of_blocks.items (stand_of (Some self.now)) }
        ensures made { IfOk result (λ made. (next i : ℕ) → Answers ⟦<S as TableUnder<L, A>>⟧.setting
            next (command.Sub i start end) self.now passes.old.of_blocks.items (reply.New next)
            (Some self.now) (Some made) passes.new.of_blocks.items) }
        ensures refused { IfErr result (λ r. (next i : ℕ) → Answers
            ⟦<S as TableUnder<L, A>>⟧.setting next (command.Sub i start end) self.now
            passes.old.of_blocks.items (seen_reply S.items_in S.items_in_box B.list r)
            (Some self.now) None passes.new.of_blocks.items) }
        ensures room { IsOk result → has_room ≡ true }
        ensures alloc { IfErr result (λ r. r ≡ reply.Alloc → has_room ≡ false) }
    {
        self.known_role();
        if self.is_writer() {
            return Err(Reply::Kind);
        }
        if let Err(e) = self.check_range(start, end) {
            return Err(Reply::Range(e));
        }
        if !has_room {
            return Err(Reply::Alloc);
        }
        match self.try_subslice(rt, start, end, passes) {
            Ok(slot) => Ok(slot),
            Err(e) => Err(Reply::Owner(e)),
        }
    }

    /// Splits a window that is read, or the places of one of several writers, and hands out the
    /// part, if the window has it and there is room in the table.
    ///
    /// # Errors
    ///
    /// The reply, where nothing is handed out.
    #[inline(never)]
    pub(crate) fn hand_out_split(
        &mut self,
        rt: &impl Wait,
        part: Part,
        has_room: bool,
        passes: &mut Passes<A>,
    ) -> Result<Self, TableReply<S, B, M, A>>
        requires { HasPassFor passes.old.of_blocks.items (stand_of (Some self.old)) }
        ensures made { IfOk result (λ made. (next i : ℕ) → Answers ⟦<S as TableUnder<L, A>>⟧.setting
            next (part_command i part) self.old passes.old.of_blocks.items (reply.New next)
            (Some self.new) (Some made) passes.new.of_blocks.items) }
        ensures refused { IfErr result (λ r. (next i : ℕ) → Answers
            ⟦<S as TableUnder<L, A>>⟧.setting next (part_command i part) self.old
            passes.old.of_blocks.items (seen_reply S.items_in S.items_in_box B.list r)
            (Some self.new) None passes.new.of_blocks.items) }
        ensures room { IsOk result → has_room ≡ true }
        ensures alloc { IfErr result (λ r. r ≡ reply.Alloc → has_room ≡ false) }
    {
        self.known_role();
        if self.is_several() {
            return self.hand_out_places(rt, part, has_room, passes);
        }
        if !self.is_read() {
            return Err(Reply::Kind);
        }
        if let Err(e) = self.check_at(part.at()) {
            return Err(Reply::Range(e));
        }
        if !has_room {
            return Err(Reply::Alloc);
        }
        match self.try_part(rt, part, passes) {
            Ok(slot) => Ok(slot),
            Err(e) => Err(Reply::Owner(e)),
        }
    }
}
