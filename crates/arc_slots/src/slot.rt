//! One window of a table.
ghost use Rattle.std.specs.Prelude.{◌≡◌, ◌==◌, ◌&&◌, if◌then◌else◌, Bool, None, true, IfErr, OnOk};
ghost use Rattle.std.specs.Prelude.{Err};
ghost use Rattle.std.specs.Mem.{type_size};
ghost use Rattle.arc_block.specs.Table.{bare};
ghost use Rattle.arc_parts.specs.Steps.{IsPassAt};
ghost use Rattle.arc_parts.specs.Writers.{room_for, MakesRoom, Pushes};
ghost use Rattle.arc_slots.specs.Writing.{IsLegal, can_write, seen_writing, items_of};
ghost use Rattle.arc_slots.specs.Writing.{additional_of};

use crate::passes::Passes;
use crate::window::{AnyWindow, Held, clone_window, cut_window, end_window, hold_window};
use arc_block::layout::{Layout, LayoutMut, stands_on_nothing};
use arc_block::static_slice::StaticSlice;
use arc_buffer::buffer::BufferMut;
use arc_buffer::kinds::Slice;
use arc_kinds::kinds::{CallsOf, Commands, SmallOf, TableKind};
use arc_owners::error::{OwnerError, RangeError, TryReserveError};
use arc_owners::mark::Whole;
use arc_owners::owners::Pass;
use arc_parts::parts::Parts;
use arc_read::slice::ArcSlice;
use arc_write::slice_mut::{ArcSliceMut, IntoMut};
use std::alloc::Allocator;
use std::marker::Model;
use std::sync::Wait;

/// A window, and the number of the block that it stands on, if it stands on one. It can't be
/// dropped: a window that is dropped would stay an owner of its block for good. It ends by
/// `release`, or by a call that takes it.
pub struct Slot<S: TableKind, L: Layout, B: BufferMut<S::Item> + Drop, M: Drop, A: Allocator + Copy>
where
    L::Writable: LayoutMut,
    S::Small: SmallOf<S, L, M, A>,
{
    /// The window, whatever its role.
    pub window: AnyWindow<S, L, L::Writable, B, M, A>,
    /// The number of its block.
    pub block: Option<usize>,
}

impl<S: TableKind, L: Layout, B: BufferMut<S::Item> + Drop, M: Drop, A: Allocator + Copy> Model
    for Slot<S, L, B, M, A>
where
    L::Writable: LayoutMut,
    S::Small: SmallOf<S, L, M, A>,
{
    ghost use Rattle.std.specs.Prelude.{◌≡◌, true};
    ghost use Rattle.arc_slots.specs.Stands.{is_numbered};
    ghost use Rattle.arc_slots.specs.Slots.{SlotView, bare_held, held, may_be_shared};
    ghost use Rattle.arc_slots.specs.Slots.{role_fits, window_in};

    ghost Value = { SlotView S.Item M };

    ghost view = { λ s. held S.Small.seen (bare_held s.window) s.block };

    ghost invariant = { λ s. (is_numbered s.block
        (window_in S.Small.seen (bare_held s.window)).place ≡ true)
        × (role_fits (bare_held s.window) ≡ true)
        × (may_be_shared S.SHARES (bare_held s.window) ≡ true) };
}

/// What is written into a window, where X holds items and T is one.
#[derive(Drop)]
pub enum Writing<X, T> {
    /// Nothing. Room is made for so many items more.
    Nothing(usize),
    /// An item.
    Item(T),
    /// Items.
    Items(X),
}

impl<T, A: Allocator> Writing<Vec<T, A>, T> {
    ghost use Rattle.arc_slots.specs.Writing.{seen_writing, additional_of};

    /// How many items there has to be room for.
    #[inline(always)]
    pub fn additional(&self) -> usize
        ensures { result ≡ additional_of (seen_writing self.now) }
    {
        match self {
            Writing::Nothing(additional) => *additional,
            Writing::Item(_) => 1,
            Writing::Items(items) => items.len(),
        }
    }
}

/// Writes into a window, by a call that its kind has: makes room, and appends the items. Where it
/// is refused nothing changes, and what was to be written is dropped.
#[inline(always)]
fn write_as<
    S: Commands<A>,
    K: LayoutMut,
    B: BufferMut<S::Item> + Drop,
    M: Drop,
    A: Allocator + Copy,
>(
    window: &mut ArcSliceMut<S, K, 1, B, M, A, Whole>,
    what: Writing<Vec<S::Item, A>, S::Item>,
    pass: &mut Pass<Whole>,
) -> Result<(), TryReserveError>
    requires call { can_write S.Calls.calls (seen_writing what) ≡ true }
    requires legal { IsLegal S.is_legal (seen_writing what) }
    requires pass { IsPassAt window.old.place pass.old }
    ensures written { OnOk result (Pushes S.DROPS true (room_for S.DROPS (type_size S.Item.row)
        (bare window.old) (additional_of (seen_writing what))) (items_of (seen_writing what))
        (bare window.old) (bare window.new) pass.old pass.new) }
    ensures refused { IfErr result (λ e. MakesRoom S.DROPS true (room_for S.DROPS
        (type_size S.Item.row) (bare window.old) (additional_of (seen_writing what)))
        (bare window.old) (bare window.new) pass.old pass.new (Err e)) }
{
    match what {
        Writing::Nothing(additional) => window.try_reserve_as(additional, pass),
        Writing::Item(item) => match S::Calls::try_push_as(window, item, pass) {
            Some(pushed) => pushed,
            None => unreachable!(),
        },
        Writing::Items(items) => match S::Calls::try_extend_as(window, &items, pass) {
            Some(extended) => extended,
            None => unreachable!(),
        },
    }
}

/// The block on which a part with so many items stands, if it stands on one.
pub(crate) fn part_block<L: Layout>(block: Option<usize>, len: usize) -> Option<usize>
    ensures { result ≡ (if L.STATIC && (len == 0) then None else block) }
{
    if stands_on_nothing::<L>(len) {
        return None;
    }
    block
}

impl<S: TableKind, L: Layout, B: BufferMut<S::Item> + Drop, M: Drop, A: Allocator + Copy> Slot<
    S,
    L,
    B,
    M,
    A,
>
where
    L::Writable: LayoutMut,
    S::Small: SmallOf<S, L, M, A>,
{
    ghost use Rattle.std.specs.Prelude.{◌≡◌, ◌<◌, ◌≤◌, ◌↔◌, length, Bool, false, None, Some};
    ghost use Rattle.std.specs.Prelude.{IfOk, IfErr, IsOk, take, drop, true, is_some, MatchOption};
    ghost use Rattle.arc_buffer.specs.Slice.{IsRange, IsEdge, sub, range_answer, edge_answer};
    ghost use Rattle.arc_block.specs.Place.{given_at, part_place};
    ghost use Rattle.std.specs.Prelude.{IfSome};
    ghost use Rattle.arc_block.specs.Table.{reader};
    ghost use Rattle.arc_parts.specs.Shared.{is_on_block};
    ghost use Rattle.arc_parts.specs.Window.{window_of};
    ghost use Rattle.arc_parts.specs.Writers.{after_advance, as_sole, capacity_of};
    ghost use Rattle.arc_block.specs.Place.{static_data};
    ghost use Rattle.arc_owners.specs.count.Calls.{Leaves};
    ghost use Rattle.arc_slots.specs.Stands.{HasPassFor, is_numbered};
    ghost use Rattle.arc_slots.specs.Calls.{Along, AsksPlace, Beside, MayAsk, RefusesAt};
    ghost use Rattle.arc_commands.specs.Changes.{is_writable_at, may_write_at, part_of, truncated};
    ghost use Rattle.arc_commands.specs.Blocks.{is_reader, is_several, is_small, is_sole};
    ghost use Rattle.arc_commands.specs.Blocks.{is_writer};
    ghost use Rattle.arc_slots.specs.Slots.{IsSlotRole, held, row_of, stand_of, window_in};
    ghost use Rattle.arc_slots.specs.Writing.{Fills, is_fresh};
    ghost use Rattle.arc_parts.specs.Writers.{Reclaims};
    ghost use Rattle.std.specs.Vec.{vec_capacity};

    /// A window over a legal `'static` slice, under a layout with static data.
    pub fn on_static(alloc: A, items: StaticSlice<S::Item>) -> Self
        requires layout { L.STATIC ≡ true }
        requires legal { ∥ S.is_legal items ∥₁ }
        ensures { result ≡ record {
          window = record { items = items; place = static_data };
          role = reader;
          block = None;
        } }
    {
        Slot {
            window: Held::Read(ArcSlice::from_parts(Parts::on_static(alloc, items))),
            block: None,
        }
    }

    /// The slot of a sole writer's window, on the block with this number, or on none.
    pub fn written(
        window: ArcSliceMut<S, L::Writable, 1, B, M, A, Whole>,
        block: Option<usize>,
    ) -> Self
        requires writes { is_sole window.role ≡ true }
        requires block { is_numbered block (bare window).place ≡ true }
        ensures { result ≡ record {
          window = window_of (bare window);
          role = window.role;
          block = block;
        } }
    {
        Slot {
            window: Held::Write(window),
            block,
        }
    }

    /// The slot of a window of one of several writers, on the block with this number, or on none.
    /// The kind has such windows.
    pub fn written_beside(
        window: ArcSliceMut<S, L::Writable, 0, B, M, A, Whole>,
        block: Option<usize>,
    ) -> Self
        requires writes { is_several window.role ≡ true }
        requires shares { S.SHARES ≡ true }
        requires block { is_numbered block (bare window).place ≡ true }
        ensures { result ≡ record {
          window = window_of (bare window);
          role = window.role;
          block = block;
        } }
    {
        Slot {
            window: Held::Several(window),
            block,
        }
    }

    /// Whether the window is written, by a sole writer or one of several.
    pub fn is_writer(&self) -> bool
        ensures { result ≡ is_writer self.now.role }
    {
        match &self.window {
            Held::Read(_) | Held::Small(_) => false,
            Held::Write(_) | Held::Several(_) => true,
        }
    }

    /// Whether the window is a sole writer's.
    pub fn is_written(&self) -> bool
        ensures answer { result ≡ is_sole self.now.role }
        ensures other { result ≡ false → is_several self.now.role ≡ false
            → is_writer self.now.role ≡ false }
    {
        match &self.window {
            Held::Read(_) | Held::Several(_) | Held::Small(_) => false,
            Held::Write(_) => true,
        }
    }

    /// Whether the window is one of several writers'.
    pub fn is_several(&self) -> bool
        ensures answer { result ≡ is_several self.now.role }
        ensures shares { result ≡ true → S.SHARES ≡ true }
    {
        match &self.window {
            Held::Read(_) | Held::Write(_) | Held::Small(_) => false,
            Held::Several(_) => true,
        }
    }

    /// Whether the window is read, and no small one.
    pub fn is_read(&self) -> bool
        ensures answer { result ≡ is_reader self.now.role }
        ensures reads { result ≡ true → self.now.role ≡ reader }
    {
        match &self.window {
            Held::Read(_) => true,
            Held::Write(_) | Held::Several(_) | Held::Small(_) => false,
        }
    }

    /// Whether the window is a small one.
    pub fn is_small(&self) -> bool
        ensures { result ≡ is_small self.now.role }
    {
        match &self.window {
            Held::Read(_) | Held::Write(_) | Held::Several(_) => false,
            Held::Small(_) => true,
        }
    }

    /// A window is read, or it is a writer's, or a small one. Does nothing: its contract is the
    /// law.
    pub fn known_role(&self)
        ensures { IsSlotRole self.now.role }
    {
        match &self.window {
            Held::Read(_) | Held::Write(_) | Held::Several(_) | Held::Small(_) => (),
        }
    }

    /// How many places the window has, if it is one that is written.
    pub fn capacity(&self) -> Option<usize>
        ensures { MatchOption result (is_writer self.now.role ≡ false) (λ places.
            (is_writer self.now.role ≡ true) × (places ≡ capacity_of self.now.role)) }
    {
        match &self.window {
            Held::Read(_) | Held::Small(_) => None,
            Held::Write(window) => Some(window.capacity()),
            Held::Several(window) => Some(window.capacity()),
        }
    }

    /// The metadata that the block of the window, which is no small one, was made with, or `None`.
    #[tactic(auto, using(crate::proofs::Bare::bare_given))]
    pub fn metadata(&self) -> Option<&M>
        requires { is_small self.now.role ≡ false }
        ensures some { IfSome result (λ m. given_at self.now.window.place ≡ Some m.now) }
        ensures none { result ≡ None → given_at self.now.window.place ≡ None }
    {
        match &self.window {
            Held::Read(window) => window.metadata(),
            Held::Write(window) => window.metadata(),
            Held::Several(window) => window.metadata(),
            Held::Small(_) => unreachable!(),
        }
    }

    /// The items of the window.
    pub fn as_slice(&self) -> &[S::Item]
        ensures { result.now ≡ self.now.window.items }
    {
        match &self.window {
            Held::Read(window) => window.as_slice(),
            Held::Write(window) => window.as_slice(),
            Held::Several(window) => window.as_slice(),
            Held::Small(window) => S::Small::as_slice(window),
        }
    }

    /// Whether `start` to `end` is a range of the window, which isn't written.
    ///
    /// # Errors
    ///
    /// `OutOfRange` where the end is past the length, else `InvalidRange` where the start is past
    /// the end, else `NotBoundary` where the kind may not be cut at one of them.
    pub fn check_range(&self, start: usize, end: usize) -> Result<(), RangeError>
        requires { is_writer self.now.role ≡ false }
        ensures answer { result ≡ range_answer S.boundary self.now.window.items start end }
        ensures ok { IsOk result ↔ IsRange S.boundary self.now.window.items start end }
    {
        match &self.window {
            Held::Read(window) => window.check_range(start, end),
            Held::Small(window) => S::Small::check_range(window, start, end),
            Held::Write(_) | Held::Several(_) => unreachable!(),
        }
    }

    /// How many items the window has.
    pub fn len(&self) -> usize
        ensures { result ≡ length self.now.window.items }
    {
        match &self.window {
            Held::Read(window) => window.len(),
            Held::Write(window) => window.len(),
            Held::Several(window) => window.len(),
            Held::Small(window) => S::Small::as_slice(window).len(),
        }
    }

    /// Whether the window may be cut at `at`.
    ///
    /// # Errors
    ///
    /// `OutOfRange` where that is past the length, else `NotBoundary` where the kind may not be cut
    /// there.
    pub fn check_at(&self, at: usize) -> Result<(), RangeError>
        ensures answer { result ≡ edge_answer S.boundary self.now.window.items at }
        ensures ok { IsOk result ↔ IsEdge S.boundary self.now.window.items at }
    {
        match &self.window {
            Held::Read(window) => window.check_at(at),
            Held::Write(window) => window.check_at(at),
            Held::Several(window) => window.check_at(at),
            Held::Small(window) => S::Small::check_at(window, at),
        }
    }

    /// Takes the first `by` items off the window, which stays on its block.
    pub fn advance(&mut self, by: usize)
        requires { IsEdge S.boundary self.old.window.items by }
        ensures row { row_of self.new ≡ after_advance by (row_of self.old) }
        ensures stand { stand_of (Some self.new) ≡ stand_of (Some self.old) }
    {
        // Each arm leaves the function: so the prover has a goal for each, and not one for all
        // four.
        match &mut self.window {
            Held::Read(window) => {
                window.advance(by);
                return;
            }
            Held::Write(window) => {
                window.advance(by);
                return;
            }
            Held::Several(window) => {
                window.advance(by);
                return;
            }
            Held::Small(window) => {
                S::Small::advance(window, by);
                return;
            }
        }
    }

    /// Keeps the first `len` items of the window, which is no small one. It stays on its block.
    pub fn truncate(&mut self, len: usize)
        requires large { is_small self.old.role ≡ false }
        requires at { IsEdge S.boundary self.old.window.items len }
        requires shorter { len < length self.old.window.items }
        ensures row { row_of self.new ≡ truncated S.DROPS (row_of self.old) len }
        ensures stand { stand_of (Some self.new) ≡ stand_of (Some self.old) }
    {
        match &mut self.window {
            Held::Read(window) => window.truncate(len),
            Held::Write(window) => window.truncate(len),
            Held::Several(window) => window.truncate(len),
            Held::Small(_) => unreachable!(),
        }
    }

    /// Another window with the same items at the same place: one owner more of the same block. It
    /// takes no memory.
    ///
    /// # Errors
    ///
    /// - `CountFull` on a block that counts its owners, exactly where `MAX_OWNERS` of them live.
    /// - `AllocError` on an `Arc` that is a block by itself, where that refuses to be cloned.
    ///
    /// # History
    ///
    /// On a block that counts its owners: Up, or Full where it is refused.
    #[inline(always)]
    pub fn try_clone(&self, rt: &impl Wait, passes: &mut Passes<A>) -> Result<Self, OwnerError>
        requires cuts { is_writer self.now.role ≡ false }
        requires pass { HasPassFor passes.old.of_blocks.items (stand_of (Some self.now)) }
        ensures row { IfOk result (λ slot. row_of slot ≡ row_of self.now) }
        ensures stand { IfOk result (λ slot.
            Beside (stand_of (Some self.now)) passes.old.of_blocks.items
            passes.new.of_blocks.items (stand_of (Some slot))) }
        ensures refused { IfErr result (RefusesAt L.clone_wants (row_of self.now).place
            (stand_of (Some self.now)) passes.old.of_blocks.items passes.new.of_blocks.items) }
    {
        let mut pass = passes.lend(self.block);
        let made = clone_window(&self.window, rt, &mut pass);
        passes.give_back(self.block, pass);
        match made {
            Ok(window) => Ok(Slot {
                window: hold_window(window),
                block: self.block,
            }),
            Err(e) => Err(e),
        }
    }

    /// A window over the items from `start` to before `end`: one owner more of the same block.
    /// Without items, under a layout that has static data, it stands on nothing. It takes no
    /// memory.
    ///
    /// # Errors
    ///
    /// Those of `try_clone`, where the part stands on a block.
    ///
    /// # History
    ///
    /// Where the part stands on a block that counts its owners: Up, or Full where it is refused.
    #[inline(always)]
    pub fn try_subslice(
        &self,
        rt: &impl Wait,
        start: usize,
        end: usize,
        passes: &mut Passes<A>,
    ) -> Result<Self, OwnerError>
        requires range { IsRange S.boundary self.now.window.items start end }
        requires cuts { is_writer self.now.role ≡ false }
        requires pass { HasPassFor passes.old.of_blocks.items (stand_of (Some self.now)) }
        ensures row { IfOk result (λ slot.
            row_of slot ≡ part_of L.STATIC (row_of self.now) start end) }
        ensures stand { IfOk result (λ slot.
            Beside (stand_of (Some self.now)) passes.old.of_blocks.items
            passes.new.of_blocks.items (stand_of (Some slot))) }
        ensures refused { IfErr result (RefusesAt L.clone_wants
            (part_place L.STATIC (sub self.now.window.items start end) start
            (row_of self.now).place) (stand_of (Some self.now)) passes.old.of_blocks.items
            passes.new.of_blocks.items) }
    {
        let mut pass = passes.lend(self.block);
        let made = cut_window(&self.window, rt, start, end, &mut pass);
        passes.give_back(self.block, pass);
        match made {
            Ok(window) => Ok(Slot {
                window: hold_window(window),
                block: part_block::<L>(self.block, end - start),
            }),
            Err(e) => Err(e),
        }
    }

    /// The window as a sole writer's, where its block may be written and no other owner of that
    /// lives, or where it has no items and stands on no block. It takes no memory.
    ///
    /// # Errors
    ///
    /// The window itself comes back on a block that may not be written, beside another owner, and
    /// on no block with items.
    ///
    /// # History
    ///
    /// On a block that may be written: Alone with the answer.
    pub fn try_into_mut(self, passes: &mut Passes<A>) -> Result<Self, Self>
        requires reads { self.role ≡ reader }
        requires pass { HasPassFor passes.old.of_blocks.items (stand_of (Some self)) }
        ensures row { IfOk result (λ slot. row_of slot ≡ as_sole S.DROPS (row_of self)) }
        ensures stand { IfOk result (λ slot. stand_of (Some slot) ≡ stand_of (Some self)) }
        ensures alone { IfOk result (λ _. MayAsk
            (is_writable_at L.Writable.ANY (row_of self).place) (stand_of (Some self))
            passes.old.of_blocks.items passes.new.of_blocks.items true) }
        ensures may { IfOk result (λ _. may_write_at L.Writable.ANY true (row_of self).place
            (length self.window.items) ≡ true) }
        ensures owner { IfOk result (λ _. is_on_block (row_of self).place ≡ true
            → is_some (stand_of (Some self)) ≡ true) }
        ensures back { IfErr result (λ slot. slot ≡ self) }
        ensures beside { IfErr result (λ _. MayAsk
            (is_writable_at L.Writable.ANY (row_of self).place) (stand_of (Some self))
            passes.old.of_blocks.items passes.new.of_blocks.items false) }
        ensures may_not { IfErr result (λ _. may_write_at L.Writable.ANY false (row_of self).place
            (length self.window.items) ≡ false) }
    {
        let Slot { window, block } = self;
        let Held::Read(window) = window else {
            unreachable!()
        };
        let mut pass = passes.lend(block);
        let asked = window.try_into_mut_as(&mut pass);
        passes.give_back(block, pass);
        match asked {
            Ok(window) => Ok(Slot::written(window, block)),
            Err(window) => Err(Slot {
                window: Held::Read(window),
                block,
            }),
        }
    }

    /// Whether a first block has to be made for `additional` items more in the window, which is
    /// written.
    #[inline(always)]
    pub fn wants_block(&self, additional: usize) -> bool
        requires { is_writer self.now.role ≡ true }
        ensures { result ≡ is_fresh
            (room_for S.DROPS (type_size S.Item.row) (row_of self.now) additional) }
    {
        match &self.window {
            Held::Write(window) => {
                window.known_place();
                self.block.is_none() && window.capacity().saturating_sub(window.len()) < additional
            }
            Held::Several(window) => {
                window.known_place();
                self.block.is_none() && window.capacity().saturating_sub(window.len()) < additional
            }
            Held::Read(_) | Held::Small(_) => unreachable!(),
        }
    }

    /// Writes into a sole writer's window, by a call that its kind has: makes room, and appends
    /// `what`.
    ///
    /// # Errors
    ///
    /// Those of `try_reserve` of such a window. Nothing changes then, and what was to be written is
    /// dropped.
    ///
    /// # Allocates
    ///
    /// Where the window has too few places: for a first block, or a larger one.
    ///
    /// # History
    ///
    /// None. Where a first block is made its history begins.
    #[inline(always)]
    pub fn write(
        &mut self,
        what: Writing<Vec<S::Item, A>, S::Item>,
        passes: &mut Passes<A>,
    ) -> Result<(), TryReserveError>
    where
        S: Commands<A>,
        requires call { can_write S.Calls.calls (seen_writing what) ≡ true }
        requires legal { IsLegal S.is_legal (seen_writing what) }
        requires writes { is_sole self.old.role ≡ true }
        requires room { is_fresh (room_for S.DROPS (type_size S.Item.row) (row_of self.old)
            (additional_of (seen_writing what))) ≡ true
            → length passes.old.of_blocks.items < vec_capacity passes.old.of_blocks }
        requires pass { HasPassFor passes.old.of_blocks.items (stand_of (Some self.old)) }
        ensures { Fills S.DROPS (room_for S.DROPS (type_size S.Item.row) (row_of self.old)
            (additional_of (seen_writing what))) (items_of (seen_writing what))
            self.old self.new passes.old.of_blocks.items passes.new.of_blocks.items result }
    {
        let begins = self.wants_block(what.additional());
        let block = self.block;
        let Held::Write(window) = &mut self.window else {
            unreachable!()
        };
        let mut pass = passes.lend(block);
        match write_as(window, what, &mut pass) {
            Ok(()) => {
                self.block = passes.keep(block, begins, pass);
                Ok(())
            }
            Err(e) => {
                passes.give_back(block, pass);
                Err(e)
            }
        }
    }

    /// Makes room for `additional` items more in a sole writer's window where that takes no memory,
    /// and answers whether there is room.
    pub fn try_reclaim(&mut self, additional: usize) -> bool
        requires writes { is_sole self.old.role ≡ true }
        ensures row { Reclaims
            (room_for S.DROPS (type_size S.Item.row) (row_of self.old) additional)
            (row_of self.old) (row_of self.new) result }
        ensures kept { result ≡ false → self.new ≡ self.old }
        ensures stand { stand_of (Some self.new) ≡ stand_of (Some self.old) }
    {
        let Held::Write(window) = &mut self.window else {
            unreachable!()
        };
        window.try_reclaim(additional)
    }

    /// Whether no other owner has a part of what the window stands on. On a block the count is
    /// read, and of a caller's buffer the buffer is asked too. The answer is `false` on no block,
    /// and on an `Arc`. It takes no memory.
    ///
    /// # History
    ///
    /// On a block that is no `Arc`: Alone with what the count says.
    pub fn is_unique(&self, passes: &mut Passes<A>) -> bool
        requires reads { self.now.role ≡ reader }
        requires pass { HasPassFor passes.old.of_blocks.items (stand_of (Some self.now)) }
        ensures { AsksPlace (row_of self.now).place (stand_of (Some self.now))
            passes.old.of_blocks.items passes.new.of_blocks.items result }
    {
        let Held::Read(window) = &self.window else {
            unreachable!()
        };
        let mut pass = passes.lend(self.block);
        let alone = window.is_unique_as(&mut pass);
        passes.give_back(self.block, pass);
        alone
    }

    /// Ends the window: the last owner gives its block back. It takes no memory.
    ///
    /// # History
    ///
    /// On a block that counts its owners: Down, which tells whether the owner was the last one.
    pub fn release(self, passes: &mut Passes<A>)
        requires { HasPassFor passes.old.of_blocks.items (stand_of (Some self)) }
        ensures { Along (stand_of (Some self)) passes.old.of_blocks.items
            passes.new.of_blocks.items (λ o p q. (last : Bool)
            × Leaves o p q last) }
    {
        let Slot { window, block } = self;
        let mut pass = passes.lend(block);
        end_window(window, &mut pass);
        passes.give_back(block, pass);
    }
}
