//! The window of one of several writers, in a slot.
ghost use Rattle.std.specs.Prelude.{◌≡◌, ◌<◌, true, false, length, Err, Some};
ghost use Rattle.std.specs.Prelude.{IfErr, IfOk, OnErr, OnOk};
ghost use Rattle.std.specs.Mem.{type_size};
ghost use Rattle.std.specs.Vec.{vec_capacity};
ghost use Rattle.arc_owners.specs.declared.error.OwnerError.TheVariants.{AllocError as no_memory};
ghost use Rattle.arc_owners.specs.declared.mark.Whole.{Whole as whole_mark};
ghost use Rattle.arc_block.specs.Table.{bare};
ghost use Rattle.arc_parts.specs.Shared.{MakesSharedRoom, PushesShared, as_shared, as_unique};
ghost use Rattle.arc_parts.specs.Shared.{LeavesVector, asks_alone, is_vector_at, on_native};
ghost use Rattle.arc_parts.specs.Shared.{RefusesSplitAt, SplitsWriter};
ghost use Rattle.arc_parts.specs.Steps.{IsPassAt};
ghost use Rattle.arc_parts.specs.Writers.{capacity_of, room_for};
ghost use Rattle.arc_commands.specs.Blocks.{is_several, is_sole};
ghost use Rattle.arc_commands.specs.Several.{can_share};
ghost use Rattle.arc_slots.specs.Calls.{AddsNothing, Along};
ghost use Rattle.arc_slots.specs.Several.{AsksAt, FillsBeside, HasPlaces, MovesTo, RefusesPlaces};
ghost use Rattle.arc_kinds.specs.Passes.{is_any};
ghost use Rattle.arc_slots.specs.Several.{RoomBeside, SplitsThere, handed_places};
ghost use Rattle.arc_slots.specs.Several.{kept_places, places_answer};
ghost use Rattle.arc_slots.specs.Slots.{row_of, stand_of};
ghost use Rattle.arc_slots.specs.Stands.{HasPassFor};
ghost use Rattle.arc_slots.specs.Writing.{IsLegal, additional_of, can_write, is_fresh};
ghost use Rattle.arc_slots.specs.Writing.{items_of, seen_writing};

use crate::part::Part;
use crate::passes::Passes;
use crate::slot::{Slot, Writing};
use crate::window::Held;
use arc_block::layout::{Layout, LayoutMut};
use arc_buffer::buffer::BufferMut;
use arc_buffer::kinds::Slice;
use arc_kinds::kinds::{CallsOf, Commands, SmallOf, TableKind, known_shares};
use arc_owners::error::{AllocError, OwnerError, RangeError, TryReserveError};
use arc_owners::mark::Whole;
use arc_owners::owners::Pass;
use arc_write::slice_mut::ArcSliceMut;
use std::alloc::Allocator;
use std::sync::Wait;

/// Writes into a window of one of several writers, by a call that its kind has: makes room, and
/// appends the items. Where it is refused the window is as it was, and what was to be written is
/// dropped.
#[inline(always)]
fn write_beside_as<
    S: Commands<A>,
    K: LayoutMut,
    B: BufferMut<S::Item> + Drop,
    M: Drop,
    A: Allocator + Copy,
>(
    window: &mut ArcSliceMut<S, K, 0, B, M, A, Whole>,
    what: Writing<Vec<S::Item, A>, S::Item>,
    pass: &mut Pass<Whole>,
) -> Result<(), TryReserveError>
    requires shares { S.Calls.calls.shares ≡ true }
    requires call { can_write S.Calls.calls (seen_writing what) ≡ true }
    requires legal { IsLegal S.is_legal (seen_writing what) }
    requires pass { IsPassAt window.old.place pass.old }
    ensures written { OnOk result (PushesShared
        (asks_alone (bare window.old) (additional_of (seen_writing what))) true
        (room_for false (type_size S.Item.row) (bare window.old)
        (additional_of (seen_writing what))) (items_of (seen_writing what))
        (bare window.old) (bare window.new) pass.old pass.new) }
    ensures refused { IfErr result (λ e. MakesSharedRoom
        (asks_alone (bare window.old) (additional_of (seen_writing what))) true
        (room_for false (type_size S.Item.row) (bare window.old)
        (additional_of (seen_writing what))) (bare window.old) (bare window.new)
        pass.old pass.new (Err e)) }
{
    match what {
        Writing::Nothing(additional) => window.try_reserve_as(additional, pass),
        Writing::Item(item) => match S::Calls::try_push_beside_as(window, item, pass) {
            Some(done) => done,
            None => unreachable!(),
        },
        Writing::Items(items) => match S::Calls::try_extend_beside_as(window, &items, pass) {
            Some(done) => done,
            None => unreachable!(),
        },
    }
}

/// Moves a window of one of several writers from its vector to a native block, by a call that its
/// kind has, and answers the new block's pass.
fn try_leave_vector_as<
    S: Commands<A>,
    K: LayoutMut,
    B: BufferMut<S::Item> + Drop,
    M: Drop,
    A: Allocator + Copy,
>(
    window: &mut ArcSliceMut<S, K, 0, B, M, A, Whole>,
    pass: &mut Pass<Whole>,
) -> Result<Pass<Whole>, AllocError>
    requires shares { S.Calls.calls.shares ≡ true }
    requires vector { is_vector_at window.old.place ≡ true }
    requires pass { IsPassAt window.old.place pass.old }
    ensures moved { IfOk result (λ new. LeavesVector false true window.old window.new
        pass.old pass.new new) }
    ensures refused { OnErr result ((window.new ≡ window.old) × (pass.new ≡ pass.old)) }
{
    match S::Calls::try_leave_vector_as(window, pass) {
        Some(made) => made,
        None => unreachable!(),
    }
}

/// Splits the places of a window of one of several writers that stands on no vector, and answers
/// the part that is handed out.
fn split_as<
    S: Commands<A>,
    K: LayoutMut,
    B: BufferMut<S::Item> + Drop,
    M: Drop,
    A: Allocator + Copy,
>(
    window: &mut ArcSliceMut<S, K, 0, B, M, A, Whole>,
    rt: &impl Wait,
    part: Part,
    pass: &mut Pass<Whole>,
) -> Result<ArcSliceMut<S, K, 0, B, M, A, Whole>, OwnerError>
    requires shares { S.Calls.calls.shares ≡ true }
    requires within { HasPlaces S.boundary window.old.items (capacity_of window.old.role) part }
    requires pass { IsPassAt window.old.place pass.old }
    ensures made { IfOk result (λ handed. SplitsWriter whole_mark is_any false true
        (kept_places part) (handed_places part) window.old window.new handed pass.old pass.new) }
    ensures kept { IfErr result (λ _. window.new ≡ window.old) }
    ensures refused { IfErr result (RefusesSplitAt window.old.place pass.old pass.new) }
{
    match part {
        Part::Back(at) => match S::Calls::try_split_off_as(window, rt, at, pass) {
            Some(made) => made,
            None => unreachable!(),
        },
        Part::Front(at) => {
            let _ = window.capacity();
            match S::Calls::try_split_to_as(window, rt, at, pass) {
                Some(made) => made,
                None => unreachable!(),
            }
        }
    }
}

impl<S: TableKind, L: Layout, B: BufferMut<S::Item> + Drop, M: Drop, A: Allocator + Copy> Slot<
    S,
    L,
    B,
    M,
    A,
>
where
    L::Writable: LayoutMut,
    S::Small: SmallOf<S, L, M, A>,
{
    /// Items of a window of one of several writers need no drop. Does nothing: its contract is the
    /// law.
    pub fn known_undropped(&self)
        requires { is_several self.now.role ≡ true }
        ensures { S.DROPS ≡ false }
    {
        match &self.window {
            Held::Several(window) => window.known_kind(),
            Held::Read(_) | Held::Write(_) | Held::Small(_) => unreachable!(),
        }
    }

    /// Whether the window, of one of several writers, stands on a vector. It moves from that before
    /// its places are split.
    pub fn is_on_vector(&self) -> bool
        requires { is_several self.now.role ≡ true }
        ensures { result ≡ is_vector_at (row_of self.now).place }
    {
        match &self.window {
            Held::Several(window) => window.is_on_vector(),
            Held::Read(_) | Held::Write(_) | Held::Small(_) => unreachable!(),
        }
    }

    /// Whether the places of a window of one of several writers may be split so.
    ///
    /// # Errors
    ///
    /// `OutOfRange` where a back begins behind all places, or a front ends behind the items; else
    /// `NotBoundary` where the items may not be cut there.
    pub fn check_places(&self, part: Part) -> Result<(), RangeError>
        requires role { is_several self.now.role ≡ true }
        ensures answer { result ≡ places_answer S.boundary self.now.window.items
            (capacity_of self.now.role) part }
        ensures ok { OnOk result (HasPlaces S.boundary self.now.window.items
            (capacity_of self.now.role) part) }
    {
        let Held::Several(window) = &self.window else {
            unreachable!()
        };
        match part {
            Part::Back(at) => window.check_split_off(at),
            Part::Front(at) => window.check_at(at),
        }
    }

    /// A window of one of several writers, as that of the only one, where it stands on a block that
    /// no other owner has. It takes no memory.
    ///
    /// # Errors
    ///
    /// The window itself comes back beside another owner, and on no block.
    ///
    /// # History
    ///
    /// On a block: Alone with the answer.
    pub fn try_into_unique(self, passes: &mut Passes<A>) -> Result<Self, Self>
        requires role { is_several self.role ≡ true }
        requires pass { HasPassFor passes.old.of_blocks.items (stand_of (Some self)) }
        ensures row { IfOk result (λ slot. row_of slot ≡ as_unique (row_of self)) }
        ensures stand { IfOk result (λ slot. stand_of (Some slot) ≡ stand_of (Some self)) }
        ensures alone { IfOk result (λ _. AsksAt (stand_of (Some self)) passes.old.of_blocks.items
            passes.new.of_blocks.items true) }
        ensures back { IfErr result (λ slot. slot ≡ self) }
        ensures beside { IfErr result (λ _. AsksAt (stand_of (Some self)) passes.old.of_blocks.items
            passes.new.of_blocks.items false) }
    {
        let Slot { window, block } = self;
        let Held::Several(window) = window else {
            unreachable!()
        };
        let mut pass = passes.lend(block);
        let made = window.try_into_unique_as(&mut pass);
        passes.give_back(block, pass);
        match made {
            Ok(window) => Ok(Slot::written(window, block)),
            Err(window) => Err(Slot {
                window: Held::Several(window),
                block,
            }),
        }
    }

    /// Makes room for `additional` items more in a window of one of several writers, if that takes
    /// no memory, and answers whether there is room. Where the window has too few places, there is
    /// none beside another owner. Where the answer is `false` the window is as it was.
    ///
    /// # History
    ///
    /// On a block, where the window has too few places: Alone with what the count says.
    pub fn try_reclaim_beside(&mut self, additional: usize, passes: &mut Passes<A>) -> bool
        requires role { is_several self.old.role ≡ true }
        requires pass { HasPassFor passes.old.of_blocks.items (stand_of (Some self.old)) }
        ensures row { RoomBeside (asks_alone (row_of self.old) additional)
            (room_for false (type_size S.Item.row) (row_of self.old) additional)
            (stand_of (Some self.old)) (row_of self.old) (row_of self.new)
            passes.old.of_blocks.items passes.new.of_blocks.items result }
        ensures kept { result ≡ false → self.new ≡ self.old }
        ensures stand { stand_of (Some self.new) ≡ stand_of (Some self.old) }
    {
        let block = self.block;
        let Held::Several(window) = &mut self.window else {
            unreachable!()
        };
        let mut pass = passes.lend(block);
        let found = window.try_reclaim_as(additional, &mut pass);
        passes.give_back(block, pass);
        found
    }
}

impl<S: Commands<A>, L: Layout, B: BufferMut<S::Item> + Drop, M: Drop, A: Allocator + Copy> Slot<
    S,
    L,
    B,
    M,
    A,
>
where
    L::Writable: LayoutMut,
    S::Small: SmallOf<S, L, M, A>,
{
    /// The kind has calls for several writers, of whom this window is one. Does nothing: its
    /// contract is the law.
    pub(crate) fn known_shared(&self)
        requires { is_several self.now.role ≡ true }
        ensures { S.Calls.calls.shares ≡ true }
    {
        known_shares::<S, A>();
        match &self.window {
            Held::Several(_) => (),
            Held::Read(_) | Held::Write(_) | Held::Small(_) => unreachable!(),
        }
    }

    /// A sole writer's window, as that of one of several, where it stands on no caller's buffer. It
    /// takes no memory.
    ///
    /// # Errors
    ///
    /// The window itself comes back over a caller's buffer.
    pub fn try_share(self) -> Result<Self, Self>
        requires writes { is_sole self.role ≡ true }
        requires shares { S.Calls.calls.shares ≡ true }
        ensures row { IfOk result (λ slot. row_of slot ≡ as_shared (row_of self)) }
        ensures stand { IfOk result (λ slot. stand_of (Some slot) ≡ stand_of (Some self)) }
        ensures may { IfOk result (λ _. can_share S.DROPS (row_of self).place ≡ true) }
        ensures back { IfErr result (λ slot. slot ≡ self) }
        ensures may_not { IfErr result (λ _. can_share S.DROPS (row_of self).place ≡ false) }
    {
        known_shares::<S, A>();
        let Slot { window, block } = self;
        let Held::Write(window) = window else {
            unreachable!()
        };
        window.known_place();
        let mut sole = Some(window);
        if let Some(window) = S::Calls::into_shared(&mut sole) {
            let None = sole else { unreachable!() };
            window.known_kind();
            return Ok(Slot::written_beside(window, block));
        }
        let Some(window) = sole else { unreachable!() };
        Err(Slot::written(window, block))
    }

    /// Moves a window of one of several writers from a vector to a native block with as many
    /// places, as its first owner.
    ///
    /// # Errors
    ///
    /// `AllocError` where memory for the block is refused. The window is then as before.
    ///
    /// # Allocates
    ///
    /// Once.
    ///
    /// # History
    ///
    /// Down on the vector, without an atomic step. The new block's history begins.
    pub fn leave_vector(&mut self, passes: &mut Passes<A>) -> Result<(), OwnerError>
        requires role { is_several self.old.role ≡ true }
        requires vector { is_vector_at (row_of self.old).place ≡ true }
        requires room { length passes.old.of_blocks.items < vec_capacity passes.old.of_blocks }
        requires pass { HasPassFor passes.old.of_blocks.items (stand_of (Some self.old)) }
        ensures row { OnOk result (row_of self.new
            ≡ on_native false (Some (length passes.old.of_blocks.items)) (row_of self.old)) }
        ensures moved { OnOk result (MovesTo (stand_of (Some self.old)) (stand_of (Some self.new))
            passes.old.of_blocks.items passes.new.of_blocks.items) }
        ensures kept { IfErr result (λ _. self.new ≡ self.old) }
        ensures passes { IfErr result (λ _.
            passes.new.of_blocks.items ≡ passes.old.of_blocks.items) }
        ensures nothing { IfErr result (λ _. Along (stand_of (Some self.old))
            passes.old.of_blocks.items passes.new.of_blocks.items AddsNothing) }
        ensures refused { IfErr result (λ e. e ≡ no_memory) }
    {
        self.known_shared();
        let block = self.block;
        let Held::Several(window) = &mut self.window else {
            unreachable!()
        };
        let mut pass = passes.lend(block);
        match try_leave_vector_as::<S, _, _, _, _>(window, &mut pass) {
            Ok(first) => {
                self.block = passes.keep(None, true, first);
                passes.give_back(block, pass);
                Ok(())
            }
            Err(_) => {
                passes.give_back(block, pass);
                passes.attest(block);
                Err(OwnerError::AllocError)
            }
        }
    }

    /// Splits the places of a window of one of several writers that stands on no vector, and hands
    /// out the part.
    ///
    /// # Errors
    ///
    /// `CountFull` on a block, exactly where `MAX_OWNERS` owners live. The window is then as
    /// before.
    ///
    /// # History
    ///
    /// On a block: Up, or Full where it is refused.
    pub fn split_places(
        &mut self,
        rt: &impl Wait,
        part: Part,
        passes: &mut Passes<A>,
    ) -> Result<Self, OwnerError>
        requires role { is_several self.old.role ≡ true }
        requires there { is_vector_at (row_of self.old).place ≡ false }
        requires within { HasPlaces S.boundary self.old.window.items (capacity_of self.old.role)
            part }
        requires pass { HasPassFor passes.old.of_blocks.items (stand_of (Some self.old)) }
        ensures made { IfOk result (λ handed. SplitsThere part self.old self.new handed
            passes.old.of_blocks.items passes.new.of_blocks.items) }
        ensures kept { IfErr result (λ _. self.new ≡ self.old) }
        ensures refused { IfErr result (RefusesPlaces (row_of self.old).place
            (stand_of (Some self.old)) passes.old.of_blocks.items passes.new.of_blocks.items) }
    {
        self.known_shared();
        let block = self.block;
        let Held::Several(window) = &mut self.window else {
            unreachable!()
        };
        let mut pass = passes.lend(block);
        let made = split_as(window, rt, part, &mut pass);
        passes.give_back(block, pass);
        let window = match made {
            Ok(window) => window,
            Err(e) => return Err(e),
        };
        let window = Held::Several(window);
        Ok(Slot { window, block })
    }

    /// Writes into a window of one of several writers, by a call that its kind has: makes room, and
    /// appends `what`.
    ///
    /// # Errors
    ///
    /// Those of `try_reserve` of such a window. The window is as it was then, and what was to be
    /// written is dropped.
    ///
    /// # Allocates
    ///
    /// Where the window has too few places: for a first block, or a larger one.
    ///
    /// # History
    ///
    /// On a block, where the window has too few places: Alone with what the count says. Where a
    /// first block is made its history begins.
    #[inline(always)]
    pub fn write_beside(
        &mut self,
        what: Writing<Vec<S::Item, A>, S::Item>,
        passes: &mut Passes<A>,
    ) -> Result<(), TryReserveError>
        requires call { can_write S.Calls.calls (seen_writing what) ≡ true }
        requires legal { IsLegal S.is_legal (seen_writing what) }
        requires role { is_several self.old.role ≡ true }
        requires room { is_fresh (room_for S.DROPS (type_size S.Item.row) (row_of self.old)
            (additional_of (seen_writing what))) ≡ true
            → length passes.old.of_blocks.items < vec_capacity passes.old.of_blocks }
        requires pass { HasPassFor passes.old.of_blocks.items (stand_of (Some self.old)) }
        ensures { FillsBeside (asks_alone (row_of self.old) (additional_of (seen_writing what)))
            (room_for S.DROPS (type_size S.Item.row) (row_of self.old)
            (additional_of (seen_writing what))) (items_of (seen_writing what))
            self.old self.new passes.old.of_blocks.items passes.new.of_blocks.items result }
    {
        self.known_shared();
        self.known_undropped();
        let begins = self.wants_block(what.additional());
        let block = self.block;
        let Held::Several(window) = &mut self.window else {
            unreachable!()
        };
        window.known_place();
        let mut pass = passes.lend(block);
        match write_beside_as(window, what, &mut pass) {
            Ok(()) => {
                self.block = passes.keep(block, begins, pass);
                Ok(())
            }
            Err(e) => {
                passes.give_back(block, pass);
                Err(e)
            }
        }
    }
}
