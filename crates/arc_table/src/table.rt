//! `Table`, windows by number.

use arc_block::layout::{DefaultLayout, Layout, LayoutMut};
use arc_buffer::buffer::BufferMut;
use arc_buffer::kinds::Slice;
use arc_commands::command::{Cmd, Gives, Reply};
use arc_kinds::kinds::{
    CallsOf, Commands, LentReply, SmallOf, TableCmd, TableKind, TableReply, TableUnder,
};
use arc_kinds::place::set_slot;
use arc_makers::maker::make;
use arc_slots::command::{answer, drop_at};
use arc_slots::join::join_at;
use arc_slots::list::{Slots, end_slots};
use arc_slots::passes::Passes;
use arc_slots::slot::Slot;
use std::alloc::{Allocator, Global};
use std::marker::Model;
use std::mem;
use std::sync::Wait;

/// The windows of a table under their numbers, `None` where one has gone, and the passes of the
/// blocks on which windows of the table have stood.
///
/// At every moment the live owners in each block's history are the windows that stand on it, so the
/// table tells whether a window is alone. A table can't be dropped: it ends by `end`, which
/// releases every window that is left.
pub struct Table<
    S: TableKind,
    L: Layout = DefaultLayout,
    B: BufferMut<<S as Slice>::Item> + Drop = Vec<<S as Slice>::Item>,
    M: Copy + Drop = (),
    A: Allocator + Copy = Global,
>
where
    L::Writable: LayoutMut,
    S::Small: SmallOf<S, L, M, A>,
{
    slots: Slots<Slot<S, L, B, M, A>, A>,
    passes: Passes<A>,
    alloc: A,
}

impl<
    S: TableKind,
    L: Layout,
    B: BufferMut<S::Item> + Drop,
    M: Copy + Drop,
    A: Allocator + Copy,
> Model for Table<S, L, B, M, A>
where
    L::Writable: LayoutMut,
    S::Small: SmallOf<S, L, M, A>,
{
    ghost use Rattle.arc_block.specs.declared.block.TheConstants.{MAX_OWNERS};
    ghost use Rattle.arc_block.specs.Owned.{IsKept};
    ghost use Rattle.arc_commands.specs.Apart.{IsLawful};
    ghost use Rattle.arc_slots.specs.Slots.{stands_of};
    ghost use Rattle.arc_commands.specs.State.{State};
    ghost use Rattle.arc_slots.specs.Slots.{state_of};
    ghost use Rattle.arc_slots.specs.Index.{IsIndexed, windows_of};

    ghost Value = { State S.Item M };

    ghost view = { λ t. state_of (windows_of t.slots.index.items t.slots.numbers.items
        t.slots.places.items) t.passes.of_blocks.items };

    ghost invariant = { λ t. (IsKept MAX_OWNERS (stands_of (windows_of t.slots.index.items
        t.slots.numbers.items t.slots.places.items)) t.passes.of_blocks.items
        × IsLawful S.DROPS (state_of (windows_of t.slots.index.items t.slots.numbers.items
        t.slots.places.items) t.passes.of_blocks.items).table)
        × IsIndexed t.slots.index.items t.slots.numbers.items t.slots.places.items };
}

impl<
    S: Commands<A>,
    L: Layout,
    B: BufferMut<S::Item> + Drop,
    M: Copy + Drop,
    A: Allocator + Copy,
> Table<S, L, B, M, A>
where
    L::Writable: LayoutMut,
    S::Small: SmallOf<S, L, M, A>,
{
    ghost use Rattle.std.specs.Prelude.{◌≡◌, [], None, Some, length, slice_set};
    ghost use Rattle.arc_block.specs.declared.block.TheConstants.{MAX_OWNERS};
    ghost use Rattle.arc_block.specs.Owned.{IsKept};
    ghost use Rattle.arc_block.specs.Table.{row_at};
    ghost use Rattle.arc_makers.specs.Makers.{HasOwnPlaces};
    ghost use Rattle.arc_slots.specs.Places.{TakesPlaces, WrapsPlaces};
    ghost use Rattle.arc_commands.specs.Changes.{no_shortage};
    ghost use Rattle.arc_commands.specs.Step.{Step, other_of, shortage, window_of};
    ghost use Rattle.arc_commands.specs.Seen.{map_command, seen_by, seen_reply};
    ghost use Rattle.arc_commands.specs.Additions.{Adds};
    ghost use Rattle.arc_commands.specs.Apart.{IsLawful};
    ghost use Rattle.arc_commands.specs.State.{Agrees, CarriesOut, EndsAll, EndsWith, empty_state};
    ghost use Rattle.arc_commands.specs.declared.command.Cmd.TheVariants as command;

    /// A table without windows. It takes no memory.
    pub fn new(alloc: A) -> Self
        ensures { result ≡ empty_state }
    {
        Table {
            slots: Slots {
                index: Vec::new(alloc),
                numbers: Vec::new(alloc),
                places: Vec::new(alloc),
                free: Vec::new(alloc),
            },
            passes: Passes {
                of_blocks: Vec::new(alloc),
            },
            alloc,
        }
    }

    /// Carries out one command, and answers its reply (`CarriesOut`). A window that is made of a
    /// vector or a buffer has just the places that came in (`places`). A vector or a buffer that is
    /// taken out has just those of the block on which its window stood (`taken_places`).
    ///
    /// # Errors
    ///
    /// A refusal is a reply. Every window is as it was then, and what the command brought is
    /// dropped. An entry may be added (see History). The tests come in this order:
    ///
    /// - `NoWindow` where no window has the number.
    /// - `Kind` where the command isn't for the window's role, where the kind or the layout lacks
    ///   what it asks for, or where a window is to be joined with itself.
    /// - `Range` where the range isn't one of the window.
    /// - `Alloc`, `Reserve`, `Owner` and `Refused` where the window's call is refused, or memory
    ///   for it.
    ///
    /// # Allocates
    ///
    /// - For a new window, for its number and for what it is made of, and for the items of a
    ///   `Show`. Refused, the reply is `Alloc`.
    /// - For the block of a window that is there. Refused, the reply is `Reserve`, and of a
    ///   `Freeze` `Refused`.
    /// - For the block to which one of several writers moves from a vector when it is split.
    ///   Refused, the reply is `Owner`.
    ///
    /// # History
    ///
    /// `Adds` says it of each command and reply. Only a window on a block that counts its owners
    /// adds entries:
    ///
    /// - `New` to a clone, cut or split: Up, unless the new window stands on nothing. To a split of
    ///   one of several writers on a vector: Down there, and Up in a new block's history.
    /// - `Owner` with `CountFull`: Full.
    /// - `Yes` or `No` to `Uniq`: Alone with what the count says, but nothing over an `Arc`.
    /// - `Ok` to `Mut` or `Unique`: Alone with yes.
    /// - `Vec`, `Boxed`, `Buffer` or `Raw`: Alone with yes, then Down; of a sole writer only Down.
    /// - `Refused` to a command of the two lines above, where only the count could decide: Alone
    ///   with no.
    /// - Any reply to `Res`, `Push`, `Ext` or `Rec` but `Kind`, on a window of one of several
    ///   writers that has too few places: Alone with what the count says.
    /// - `Ok` to `Drop`: Down. `Ok` to `Join`: Down of the other window.
    ///
    /// No other reply adds an entry. Where a block is made its history begins.
    #[inline(always)]
    pub fn step(&mut self, rt: &impl Wait, command: TableCmd<S, B, M, A>) -> TableReply<S, B, M, A>
        ensures carried { CarriesOut ⟦<S as TableUnder<L, A>>⟧.setting self.old
            (map_command S.items_in S.static_in B.list command)
            (seen_reply S.items_in S.items_in_box B.list result) self.new }
        ensures places { HasOwnPlaces (WrapsPlaces S.Items.wraps) S.items_in B.list B.places
            ⟦<S as TableUnder<L, A>>⟧.setting self.old.table.blocks command
            (row_at self.new.table (length self.old.table.rows)) }
        ensures taken_places { TakesPlaces (WrapsPlaces S.Items.wraps) B.places
            (row_at self.old.table) command result }
    {
        let reply = self.answer(rt, command);
        self.agree();
        reply
    }

    /// Carries out one command as `step` does, with the same errors, memory and history, and is
    /// inlined where it is called. It is for callers that know that the command is a `Cmd::Drop`, a
    /// `Cmd::Clone` or a `Cmd::Sub`.
    #[inline(always)]
    pub fn step_here(
        &mut self,
        rt: &impl Wait,
        command: TableCmd<S, B, M, A>,
    ) -> TableReply<S, B, M, A>
        ensures carried { CarriesOut ⟦<S as TableUnder<L, A>>⟧.setting self.old
            (map_command S.items_in S.static_in B.list command)
            (seen_reply S.items_in S.items_in_box B.list result) self.new }
        ensures places { HasOwnPlaces (WrapsPlaces S.Items.wraps) S.items_in B.list B.places
            ⟦<S as TableUnder<L, A>>⟧.setting self.old.table.blocks command
            (row_at self.new.table (length self.old.table.rows)) }
        ensures taken_places { TakesPlaces (WrapsPlaces S.Items.wraps) B.places
            (row_at self.old.table) command result }
    {
        let reply = self.answer_here(rt, command);
        self.agree();
        reply
    }

    /// The reply to one command, inlined where it is called. A caller that knows which command it
    /// is keeps the code of that one alone.
    #[inline(always)]
    fn answer_here(
        &mut self,
        rt: &impl Wait,
        command: TableCmd<S, B, M, A>,
    ) -> TableReply<S, B, M, A>
        ensures rows { Step ⟦<S as TableUnder<L, A>>⟧.setting self.old.table
            (map_command S.items_in S.static_in B.list command)
            (seen_reply S.items_in S.items_in_box B.list result) self.new.table }
        ensures passes { Adds ⟦<S as TableUnder<L, A>>⟧.setting self.old.table self.old.standing
            (map_command S.items_in S.static_in B.list command)
            (seen_reply S.items_in S.items_in_box B.list result) self.new.standing }
        ensures places { HasOwnPlaces (WrapsPlaces S.Items.wraps) S.items_in B.list B.places
            ⟦<S as TableUnder<L, A>>⟧.setting self.old.table.blocks command
            (row_at self.new.table (length self.old.table.rows)) }
        ensures taken_places { TakesPlaces (WrapsPlaces S.Items.wraps) B.places
            (row_at self.old.table) command result }
    {
        match command {
            Cmd::Drop { window } => self.release(window),
            Cmd::Clone { window } => self.on_window(rt, window, Cmd::Clone { window }),
            Cmd::Sub { window, start, end } => {
                self.on_window(rt, window, Cmd::Sub { window, start, end })
            }
            command => self.answer(rt, command),
        }
    }

    /// The reply to one command. Each command that leaves every window where it is has a call of
    /// its own, which is compiled by itself: so nothing is cleared for a window that might be made.
    #[inline(never)]
    fn answer(&mut self, rt: &impl Wait, command: TableCmd<S, B, M, A>) -> TableReply<S, B, M, A>
        ensures rows { Step ⟦<S as TableUnder<L, A>>⟧.setting self.old.table
            (map_command S.items_in S.static_in B.list command)
            (seen_reply S.items_in S.items_in_box B.list result) self.new.table }
        ensures passes { Adds ⟦<S as TableUnder<L, A>>⟧.setting self.old.table self.old.standing
            (map_command S.items_in S.static_in B.list command)
            (seen_reply S.items_in S.items_in_box B.list result) self.new.standing }
        ensures places { HasOwnPlaces (WrapsPlaces S.Items.wraps) S.items_in B.list B.places
            ⟦<S as TableUnder<L, A>>⟧.setting self.old.table.blocks command
            (row_at self.new.table (length self.old.table.rows)) }
        ensures taken_places { TakesPlaces (WrapsPlaces S.Items.wraps) B.places
            (row_at self.old.table) command result }
    {
        match command {
            Cmd::Len { window } => self.on_window(rt, window, Cmd::Len { window }),
            Cmd::Room { window } => self.on_window(rt, window, Cmd::Room { window }),
            Cmd::Uniq { window } => self.on_window(rt, window, Cmd::Uniq { window }),
            Cmd::Push { window, item } => self.on_window(rt, window, Cmd::Push { window, item }),
            Cmd::Ext { window, items } => self.on_window(rt, window, Cmd::Ext { window, items }),
            Cmd::Res { window, additional } => {
                self.on_window(rt, window, Cmd::Res { window, additional })
            }
            Cmd::Rec { window, additional } => {
                self.on_window(rt, window, Cmd::Rec { window, additional })
            }
            Cmd::Trunc { window, len } => self.on_window(rt, window, Cmd::Trunc { window, len }),
            command => self.answer_any(rt, command),
        }
    }

    /// The reply to one command: on the window with its number, or of a command that makes a window
    /// of what it brings.
    #[inline(always)]
    fn answer_any(
        &mut self,
        rt: &impl Wait,
        command: TableCmd<S, B, M, A>,
    ) -> TableReply<S, B, M, A>
        ensures rows { Step ⟦<S as TableUnder<L, A>>⟧.setting self.old.table
            (map_command S.items_in S.static_in B.list command)
            (seen_reply S.items_in S.items_in_box B.list result) self.new.table }
        ensures passes { Adds ⟦<S as TableUnder<L, A>>⟧.setting self.old.table self.old.standing
            (map_command S.items_in S.static_in B.list command)
            (seen_reply S.items_in S.items_in_box B.list result) self.new.standing }
        ensures places { HasOwnPlaces (WrapsPlaces S.Items.wraps) S.items_in B.list B.places
            ⟦<S as TableUnder<L, A>>⟧.setting self.old.table.blocks command
            (row_at self.new.table (length self.old.table.rows)) }
        ensures taken_places { TakesPlaces (WrapsPlaces S.Items.wraps) B.places
            (row_at self.old.table) command result }
    {
        if let Some(i) = command.window() {
            if let Some(j) = command.other() {
                return self.join(i, j);
            }
            return self.on_window(rt, i, command);
        }
        let has_room = self.slots.room_if(true);
        let next = self.slots.index.len();
        let (reply, made) = make(self.alloc, command, next, has_room, &mut self.passes);
        self.slots.push_made(made);
        reply
    }

    /// Carries out a command on the window with this number. Room for a window that the command
    /// makes is reserved first. It is used where the tests before are passed.
    #[inline(always)]
    fn on_window(
        &mut self,
        rt: &impl Wait,
        i: usize,
        command: TableCmd<S, B, M, A>,
    ) -> TableReply<S, B, M, A>
        requires on { window_of (map_command S.items_in S.static_in B.list command) ≡ Some i }
        requires one { other_of (map_command S.items_in S.static_in B.list command) ≡ None }
        ensures rows { Step ⟦<S as TableUnder<L, A>>⟧.setting self.old.table
            (map_command S.items_in S.static_in B.list command)
            (seen_reply S.items_in S.items_in_box B.list result) self.new.table }
        ensures passes { Adds ⟦<S as TableUnder<L, A>>⟧.setting self.old.table self.old.standing
            (map_command S.items_in S.static_in B.list command)
            (seen_reply S.items_in S.items_in_box B.list result) self.new.standing }
        ensures taken_places { TakesPlaces (WrapsPlaces S.Items.wraps) B.places
            (row_at self.old.table) command result }
    {
        let has_room = self.slots.room_if(command.makes_beside());
        let may_end = command.may_end();
        let next = self.slots.index.len();
        let Some(place) = self.slots.place_of(i) else {
            return Reply::NoWindow;
        };
        let slot = &mut self.slots.places[place];
        let passes = &mut self.passes;
        match answer(slot, rt, self.alloc, command, has_room, passes) {
            Ok(window) => {
                self.slots.push_made(Some(window));
                Reply::New(next)
            }
            Err(reply) => {
                self.slots.settle(may_end, place);
                reply
            }
        }
    }

    /// Carries out a `Cmd::Join` of the windows with these two numbers. Joined, the second window
    /// is gone.
    fn join(&mut self, i: usize, j: usize) -> TableReply<S, B, M, A>
        ensures rows { Step ⟦<S as TableUnder<L, A>>⟧.setting self.old.table (command.Join i j)
            (seen_reply S.items_in S.items_in_box B.list result) self.new.table }
        ensures passes { Adds ⟦<S as TableUnder<L, A>>⟧.setting self.old.table self.old.standing
            (command.Join i j) (seen_reply S.items_in S.items_in_box B.list result)
            self.new.standing }
    {
        let Some(here) = self.slots.place_of(i) else {
            return Reply::NoWindow;
        };
        let Some(there) = self.slots.place_of(j) else {
            return Reply::NoWindow;
        };
        if i == j {
            return Reply::Kind;
        }
        let mut other = mem::replace(&mut self.slots.places[there], None);
        let window = &mut self.slots.places[here];
        let reply = join_at(window, &mut other, &mut self.passes);
        set_slot(&mut self.slots.places[there], other);
        self.slots.settle(true, there);
        reply
    }

    /// Each window stands on the block of its row. Rows on one block agree about it, and each lies
    /// within its block. No place of a block belongs to a writer and to another row. Does nothing:
    /// its contract is the law.
    pub fn agree(&self)
        ensures stands { Agrees self.now }
        ensures rows { IsLawful S.DROPS self.now.table }
    {
        let _ = &self.slots;
    }

    /// Ends the table. Every window that is left is released, in the order of their numbers, so
    /// that each block is given back. It answers the passes of the blocks, of which none has a live
    /// owner.
    ///
    /// # History
    ///
    /// One Down for each window that is left and is an owner of a block.
    pub fn end(mut self) -> Passes<A>
        ensures ended { IsKept MAX_OWNERS [] result.of_blocks.items }
        ensures blocks { length result.of_blocks.items ≡ self.table.blocks }
        ensures passes { EndsWith ⟦<S as TableUnder<L, A>>⟧.setting self result.of_blocks.items }
    {
        self.release_all();
        let Table {
            slots,
            passes,
            alloc: _,
        } = self;
        let Slots {
            index: _,
            numbers: _,
            places,
            free: _,
        } = slots;
        end_slots(places);
        passes
    }

    /// Releases every window that is left, in the order of their numbers.
    fn release_all(&mut self)
        ensures passes { EndsAll ⟦<S as TableUnder<L, A>>⟧.setting self.old self.new }
        ensures blocks { self.new.table.blocks ≡ self.old.table.blocks }
    {
        for i in 0..self.slots.index.len() {
            let _ = self.release(i);
            self.agree();
        }
    }

    /// Carries out a `Cmd::Show` of the window with the number `i`. The reply lends the items where
    /// they are in the window. It takes no memory.
    ///
    /// # Errors
    ///
    /// As a reply: `NoWindow` where no window has the number, `Kind` where the kind's items can't
    /// be copied.
    #[inline(always)]
    pub fn show_in_place(&self, i: usize) -> LentReply<'_, S, B, M, A>
        ensures carried { CarriesOut ⟦<S as TableUnder<L, A>>⟧.setting self.now (command.Show i)
            (seen_by (λ items. items.now) S.items_in S.items_in_box B.list result) self.now }
        ensures lent { shortage {T = S.Item} {M = M} (seen_by (λ items. items.now) S.items_in
            S.items_in_box B.list result)
            (command.Show i) ≡ no_shortage }
    {
        self.agree();
        match self.slots.get(i) {
            Some(slot) => {
                slot.known_role();
                if !S::Calls::copies() {
                    return Reply::Kind;
                }
                Reply::Items(slot.as_slice())
            }
            None => Reply::NoWindow,
        }
    }

    /// Ends the window with this number, if there is one.
    #[inline(always)]
    fn release(&mut self, i: usize) -> TableReply<S, B, M, A>
        ensures rows { Step ⟦<S as TableUnder<L, A>>⟧.setting self.old.table (command.Drop i)
            (seen_reply S.items_in S.items_in_box B.list result) self.new.table }
        ensures passes { Adds ⟦<S as TableUnder<L, A>>⟧.setting self.old.table self.old.standing
            (command.Drop i) (seen_reply S.items_in S.items_in_box B.list result)
            self.new.standing }
        ensures gone { self.new.table.rows ≡ slice_set self.old.table.rows i None }
        ensures blocks { self.new.table.blocks ≡ self.old.table.blocks }
    {
        let Some(place) = self.slots.place_of(i) else {
            return Reply::NoWindow;
        };
        let window = &mut self.slots.places[place];
        let passes = &mut self.passes;
        // The window is there, so the reply is `Ok`. It is taken as one without values, so that
        // nothing of it is left to be dropped.
        let _: Reply<Gives<(), (), (), (), (), (), ()>> = drop_at(window, passes);
        self.slots.settle(true, place);
        Reply::Ok
    }
}

mod run;
