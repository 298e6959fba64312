//! The answers of a slot's window to commands: each call of the window, with the tests before it.

use crate::passes::Passes;
use crate::slot::{Slot, Writing};
use arc_block::layout::{Layout, LayoutMut};
use arc_buffer::buffer::BufferMut;
use arc_buffer::kinds::Slice;
use arc_commands::command::Reply;
use arc_kinds::kinds::{CallsOf, Commands, SmallOf, TableKind, TableReply, TableUnder};
use arc_owners::error::TryReserveError;
use std::alloc::Allocator;

impl<S: Commands<A>, L: Layout, B: BufferMut<S::Item> + Drop, M: Drop, A: Allocator + Copy> Slot<
    S,
    L,
    B,
    M,
    A,
>
where
    L::Writable: LayoutMut,
    S::Small: SmallOf<S, L, M, A>,
{
    ghost use Rattle.std.specs.Prelude.{◌≡◌, ℕ, None, Some, true, is_some, length, IfOk};
    ghost use Rattle.arc_commands.specs.Seen.{seen_reply};
    ghost use Rattle.arc_commands.specs.declared.command.Cmd.TheVariants as command;
    ghost use Rattle.arc_slots.specs.Answers.{Answers};
    ghost use Rattle.arc_slots.specs.Slots.{stand_of};
    ghost use Rattle.arc_slots.specs.Stands.{HasPassFor};
    ghost use Rattle.arc_slots.specs.Writing.{IsLegal, can_write, seen_writing, write_command};

    /// Whether the window is the only owner of its block.
    pub(crate) fn uniq(&self, passes: &mut Passes<A>) -> TableReply<S, B, M, A>
        requires { HasPassFor passes.old.of_blocks.items (stand_of (Some self.now)) }
        ensures { (next i : ℕ) → Answers ⟦<S as TableUnder<L, A>>⟧.setting next (command.Uniq i)
            self.now passes.old.of_blocks.items (seen_reply S.items_in S.items_in_box B.list result)
            (Some self.now) None passes.new.of_blocks.items }
    {
        if !self.is_read() {
            return Reply::Kind;
        }
        if self.is_unique(passes) {
            return Reply::Yes;
        }
        Reply::No
    }

    /// The items of the window, in a vector, if its kind has items that are copied.
    pub(crate) fn show(&self, alloc: A, passes: &Passes<A>) -> TableReply<S, B, M, A>
        ensures { (next i : ℕ) → Answers ⟦<S as TableUnder<L, A>>⟧.setting next (command.Show i)
            self.now passes.now.of_blocks.items (seen_reply S.items_in S.items_in_box B.list result)
            (Some self.now) None passes.now.of_blocks.items }
    {
        let _ = passes;
        self.known_role();
        if !S::Calls::copies() {
            return Reply::Kind;
        }
        let Some(copy) = S::Calls::try_copy(alloc, self.as_slice()) else {
            unreachable!()
        };
        match copy {
            Ok(items) => Reply::Items(items),
            Err(_) => Reply::Alloc,
        }
    }

    /// The metadata of the window's block, if that has some.
    pub(crate) fn meta(&self, passes: &Passes<A>) -> TableReply<S, B, M, A>
    where
        M: Copy,
        ensures { (next i : ℕ) → Answers ⟦<S as TableUnder<L, A>>⟧.setting next (command.Meta i)
            self.now passes.now.of_blocks.items (seen_reply S.items_in S.items_in_box B.list result)
            (Some self.now) None passes.now.of_blocks.items }
    {
        let _ = passes;
        self.known_role();
        if self.is_small() {
            return Reply::Kind;
        }
        match self.metadata() {
            Some(metadata) => Reply::Meta(*metadata),
            None => Reply::None,
        }
    }

    /// How many items the window has.
    pub(crate) fn count(&self, passes: &Passes<A>) -> TableReply<S, B, M, A>
        ensures { (next i : ℕ) → Answers ⟦<S as TableUnder<L, A>>⟧.setting next (command.Len i)
            self.now passes.now.of_blocks.items (seen_reply S.items_in S.items_in_box B.list result)
            (Some self.now) None passes.now.of_blocks.items }
    {
        let _ = passes;
        self.known_role();
        Reply::Number(self.len())
    }

    /// How many places the window has, if it is one that is written.
    pub(crate) fn room(&self, passes: &Passes<A>) -> TableReply<S, B, M, A>
        ensures { (next i : ℕ) → Answers ⟦<S as TableUnder<L, A>>⟧.setting next (command.Room i)
            self.now passes.now.of_blocks.items (seen_reply S.items_in S.items_in_box B.list result)
            (Some self.now) None passes.now.of_blocks.items }
    {
        let _ = passes;
        match self.capacity() {
            Some(places) => Reply::Number(places),
            None => Reply::Kind,
        }
    }

    /// Whether the window's kind has the call that writes this.
    pub(crate) fn may_write(what: &Writing<Vec<S::Item, A>, S::Item>) -> bool
        ensures { result ≡ can_write S.Calls.calls (seen_writing what.now) }
    {
        match what {
            Writing::Nothing(_) => true,
            Writing::Item(_) => S::Calls::pushes(),
            Writing::Items(_) => S::Calls::extends(),
        }
    }

    /// Makes room for `additional` items more in the window. Each way to write a window is a call
    /// of its own, so that nothing is tested or cleared for what another would write.
    #[inline(never)]
    pub(crate) fn reserve(
        &mut self,
        additional: usize,
        passes: &mut Passes<A>,
    ) -> TableReply<S, B, M, A>
        requires pass { HasPassFor passes.old.of_blocks.items (stand_of (Some self.old)) }
        ensures { (next i : ℕ) → Answers ⟦<S as TableUnder<L, A>>⟧.setting next
            (command.Res i additional) self.old passes.old.of_blocks.items
            (seen_reply S.items_in S.items_in_box B.list result) (Some self.new) None
            passes.new.of_blocks.items }
    {
        self.fill(Writing::Nothing(additional), passes)
    }

    /// Appends an item to those of the window.
    #[inline(never)]
    pub(crate) fn push(&mut self, item: S::Item, passes: &mut Passes<A>) -> TableReply<S, B, M, A>
        requires pass { HasPassFor passes.old.of_blocks.items (stand_of (Some self.old)) }
        ensures { (next i : ℕ) → Answers ⟦<S as TableUnder<L, A>>⟧.setting next
            (command.Push i item) self.old passes.old.of_blocks.items
            (seen_reply S.items_in S.items_in_box B.list result) (Some self.new) None
            passes.new.of_blocks.items }
    {
        self.fill(Writing::Item(item), passes)
    }

    /// Appends items to those of the window.
    #[inline(never)]
    pub(crate) fn extend(
        &mut self,
        items: Vec<S::Item, A>,
        passes: &mut Passes<A>,
    ) -> TableReply<S, B, M, A>
        requires legal { ∥ S.is_legal items.items ∥₁ }
        requires pass { HasPassFor passes.old.of_blocks.items (stand_of (Some self.old)) }
        ensures { (next i : ℕ) → Answers ⟦<S as TableUnder<L, A>>⟧.setting next
            (command.Ext i items.items) self.old passes.old.of_blocks.items
            (seen_reply S.items_in S.items_in_box B.list result) (Some self.new) None
            passes.new.of_blocks.items }
    {
        self.fill(Writing::Items(items), passes)
    }

    /// Writes into the window: makes room, and appends what is written. What is refused is dropped.
    #[inline(always)]
    fn fill(
        &mut self,
        what: Writing<Vec<S::Item, A>, S::Item>,
        passes: &mut Passes<A>,
    ) -> TableReply<S, B, M, A>
        requires legal { IsLegal S.is_legal (seen_writing what) }
        requires pass { HasPassFor passes.old.of_blocks.items (stand_of (Some self.old)) }
        ensures { (next i : ℕ) → Answers ⟦<S as TableUnder<L, A>>⟧.setting next
            (write_command i (seen_writing what)) self.old passes.old.of_blocks.items
            (seen_reply S.items_in S.items_in_box B.list result) (Some self.new) None
            passes.new.of_blocks.items }
    {
        if self.is_several() {
            return self.fill_beside(what, passes);
        }
        if !self.is_written() {
            return Reply::Kind;
        }
        if !Self::may_write(&what) {
            return Reply::Kind;
        }
        let begins = self.wants_block(what.additional());
        if passes.reserve_for(begins).is_err() {
            return Reply::Reserve(TryReserveError::AllocError);
        }
        if let Err(e) = self.write(what, passes) {
            return Reply::Reserve(e);
        }
        Reply::Ok
    }

    /// Makes room for `additional` items more in the window, if that takes no memory.
    pub(crate) fn reclaim(
        &mut self,
        additional: usize,
        passes: &mut Passes<A>,
    ) -> TableReply<S, B, M, A>
        requires pass { HasPassFor passes.old.of_blocks.items (stand_of (Some self.old)) }
        ensures { (next i : ℕ) → Answers ⟦<S as TableUnder<L, A>>⟧.setting next
            (command.Rec i additional) self.old passes.old.of_blocks.items
            (seen_reply S.items_in S.items_in_box B.list result) (Some self.new) None
            passes.new.of_blocks.items }
    {
        if self.is_several() {
            return self.reclaim_beside(additional, passes);
        }
        if !self.is_written() {
            return Reply::Kind;
        }
        if self.try_reclaim(additional) {
            return Reply::Yes;
        }
        Reply::No
    }

    /// Answers `Kind`: a join is on two windows (`join_at`), and never on one.
    pub(crate) fn join(&self, passes: &Passes<A>) -> TableReply<S, B, M, A>
        ensures { (next i j : ℕ) → Answers ⟦<S as TableUnder<L, A>>⟧.setting next (command.Join i j)
            self.now passes.now.of_blocks.items (seen_reply S.items_in S.items_in_box B.list result)
            (Some self.now) None passes.now.of_blocks.items }
    {
        let _ = passes;
        Reply::Kind
    }

    /// Takes the first `by` items off the window.
    pub(crate) fn skip(&mut self, by: usize, passes: &Passes<A>) -> TableReply<S, B, M, A>
        ensures { (next i : ℕ) → Answers ⟦<S as TableUnder<L, A>>⟧.setting next (command.Adv i by)
            self.old passes.now.of_blocks.items (seen_reply S.items_in S.items_in_box B.list result)
            (Some self.new) None passes.now.of_blocks.items }
    {
        let _ = passes;
        self.known_role();
        if let Err(e) = self.check_at(by) {
            return Reply::Range(e);
        }
        self.advance(by);
        Reply::Ok
    }

    /// Keeps the window's first `len` items, or all where it has no more.
    pub(crate) fn cut(&mut self, len: usize, passes: &Passes<A>) -> TableReply<S, B, M, A>
        ensures { (next i : ℕ) → Answers ⟦<S as TableUnder<L, A>>⟧.setting next
            (command.Trunc i len) self.old passes.now.of_blocks.items
            (seen_reply S.items_in S.items_in_box B.list result) (Some self.new) None
            passes.now.of_blocks.items }
    {
        let _ = passes;
        self.known_role();
        if self.is_small() {
            return Reply::Kind;
        }
        if len >= self.len() {
            return Reply::Ok;
        }
        if let Err(e) = self.check_at(len) {
            return Reply::Range(e);
        }
        self.truncate(len);
        Reply::Ok
    }

    /// Makes the window, which is written, one that is read.
    pub(crate) fn freeze(self, passes: &mut Passes<A>) -> (TableReply<S, B, M, A>, Option<Self>)
        requires { HasPassFor passes.old.of_blocks.items (stand_of (Some self)) }
        ensures { (next i : ℕ) → Answers ⟦<S as TableUnder<L, A>>⟧.setting next (command.Freeze i)
            self passes.old.of_blocks.items (seen_reply S.items_in S.items_in_box B.list result.0)
            result.1 None passes.new.of_blocks.items }
    {
        if !self.is_writer() {
            return (Reply::Kind, Some(self));
        }
        let begins = self.wants_block_to_read();
        if passes.reserve_for(begins).is_err() {
            return (Reply::Refused, Some(self));
        }
        match self.try_freeze(passes) {
            Ok(slot) => (Reply::Ok, Some(slot)),
            Err(slot) => (Reply::Refused, Some(slot)),
        }
    }

    /// Makes the window, which is read, one that is written, if it is alone.
    pub(crate) fn make_mut(self, passes: &mut Passes<A>) -> (TableReply<S, B, M, A>, Option<Self>)
        requires { HasPassFor passes.old.of_blocks.items (stand_of (Some self)) }
        ensures { (next i : ℕ) → Answers ⟦<S as TableUnder<L, A>>⟧.setting next (command.Mut i) self
            passes.old.of_blocks.items (seen_reply S.items_in S.items_in_box B.list result.0)
            result.1 None passes.new.of_blocks.items }
    {
        if !self.is_read() {
            return (Reply::Kind, Some(self));
        }
        match self.try_into_mut(passes) {
            Ok(slot) => (Reply::Ok, Some(slot)),
            Err(slot) => (Reply::Refused, Some(slot)),
        }
    }
}

impl<S: TableKind, L: Layout, B: BufferMut<S::Item> + Drop, M: Drop, A: Allocator + Copy> Slot<
    S,
    L,
    B,
    M,
    A,
>
where
    L::Writable: LayoutMut,
    S::Small: SmallOf<S, L, M, A>,
{
    ghost use Rattle.std.specs.Prelude.{◌≡◌, ℕ, None, Some, length};
    ghost use Rattle.arc_commands.specs.Changes.{Setting};
    ghost use Rattle.arc_commands.specs.declared.command.Cmd.TheVariants as command;
    ghost use Rattle.arc_commands.specs.declared.command.Reply.TheVariants as reply;
    ghost use Rattle.arc_slots.specs.Answers.{Answers};
    ghost use Rattle.arc_slots.specs.Slots.{stand_of};
    ghost use Rattle.arc_slots.specs.Stands.{HasBlockPass, LivesOn};

    /// Ends the window, under every layout and kind.
    #[tactic(auto, using(crate::proofs::Told::many_along, crate::proofs::Taken::has_both))]
    pub(crate) fn drop_window(self, passes: &mut Passes<A>)
        requires pass { HasBlockPass passes.old.of_blocks.items (stand_of (Some self)) }
        requires lives { LivesOn passes.old.of_blocks.items (stand_of (Some self)) }
        ensures many { length passes.new.of_blocks.items ≡ length passes.old.of_blocks.items }
        ensures answer { (setting : Setting S.Item) (next i : ℕ) → Answers setting next
            (command.Drop i) self passes.old.of_blocks.items reply.Ok
            None None passes.new.of_blocks.items }
    {
        self.known_role();
        self.release(passes);
    }
}
