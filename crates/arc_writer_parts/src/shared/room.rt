//! Room for one of several writers, who makes it only while no other owner lives.
ghost use Rattle.std.specs.Prelude.{◌≡◌, ◌≤◌, ◌<◌, ◌+◌, ◌-◌, ◌∷◌, [], false, length, OnOk};
ghost use Rattle.std.specs.Mem.{type_size};
ghost use Rattle.arc_block.specs.Table.{bare};
ghost use Rattle.arc_parts.specs.Shared.{MakesSharedRoom, MakesRoomBeside, ReclaimsShared};
ghost use Rattle.arc_parts.specs.Shared.{asks_alone, as_shared, extended, is_on_block};
ghost use Rattle.arc_parts.specs.Shared.{IsSharedPlace};
ghost use Rattle.arc_parts.specs.Steps.{IsPassAt};
ghost use Rattle.arc_parts.specs.Window.{IsOfBuffer};
ghost use Rattle.arc_parts.specs.Writers.{capacity_of, room_for};

use super::{SharedParts, SharedStorage};
use crate::role::WriterParts;
use crate::sole::SoleParts;
use arc_buffer::buffer::BufferMut;
use arc_buffer::kinds::Slice;
use arc_owners::error::TryReserveError;
use arc_owners::mark::Mark;
use arc_owners::owners::Pass;
use std::alloc::Allocator;
use std::mem;

impl<S: Slice, B: BufferMut<S::Item> + Drop, M: Drop, A: Allocator + Copy, H: Mark> SharedParts<
    S,
    B,
    M,
    A,
    H,
> {
    /// How many places there are behind the items.
    #[inline(always)]
    #[tactic(auto, using(crate::proofs::Rooms::several_again))]
    pub(super) fn spare(&self) -> usize
        ensures spare { result ≡ capacity_of self.now.role - length self.now.items }
        ensures several { as_shared self.now ≡ self.now }
        ensures enough { length self.now.items ≤ capacity_of self.now.role }
        ensures place { IsSharedPlace self.now.place }
    {
        self.known_place();
        self.capacity() - self.len()
    }

    /// Appends an item. There is a place for it.
    #[inline(always)]
    pub(super) fn push_reserved(&mut self, item: S::Item)
        requires { length self.old.items + 1 ≤ capacity_of self.old.role }
        ensures { bare self.new ≡ extended (item ∷ []) (bare self.old) }
    {
        self.known_kind();
        match &mut self.on {
            SharedStorage::Several(writer) => writer.push_reserved(item),
            SharedStorage::Alone(parts) => {
                parts.known_uncounted();
                parts.push_reserved(item);
            }
        }
    }

    /// Whether they stand on a block.
    #[tactic(auto, using(crate::proofs::Rooms::on_block_answer))]
    fn is_on_block(&self) -> bool
        ensures { result ≡ is_on_block self.now.place }
    {
        match &self.on {
            SharedStorage::Several(_) => true,
            SharedStorage::Alone(parts) => parts.is_on_block(),
        }
    }

    /// `try_reserve_as` where there are too few places. It stands apart, so that only the test
    /// before it is inlined.
    #[cold]
    #[inline(never)]
    pub(super) fn try_make_room(
        &mut self,
        additional: usize,
        pass: &mut Pass<H>,
    ) -> Result<(), TryReserveError>
        requires short { capacity_of self.old.role - length self.old.items < additional }
        requires pass { IsPassAt self.old.place pass.old }
        ensures room { MakesSharedRoom (asks_alone (bare self.old) additional) H.whole
            (room_for false (type_size S.Item.row) (bare self.old) additional)
            (bare self.old) (bare self.new) pass.old pass.new result }
        ensures items { self.new.items ≡ self.old.items }
        ensures enough { OnOk result
            (length self.new.items + additional ≤ capacity_of self.new.role) }
    {
        self.known_kind();
        let nothing = Self::on_nothing(self.alloc);
        let (parts, made) = mem::replace(self, nothing).with_room_as(additional, pass);
        self.take_in(parts);
        made
    }

    /// `try_make_room` by value.
    #[tactic(auto, using(crate::proofs::Rooms::asked_shared, crate::proofs::Rooms::refused_shared, crate::proofs::Rooms::alone_shared, crate::proofs::Rooms::no_buffer_shared, crate::proofs::Rooms::sole_again))]
    fn with_room_as(
        self,
        additional: usize,
        pass: &mut Pass<H>,
    ) -> (Self, Result<(), TryReserveError>)
        requires short { capacity_of self.role - length self.items < additional }
        requires pass { IsPassAt self.place pass.old }
        ensures room { MakesSharedRoom (asks_alone (bare self) additional) H.whole
            (room_for false (type_size S.Item.row) (bare self) additional)
            (bare self) (bare result.0) pass.old pass.new result.1 }
        ensures items { result.0.items ≡ self.items }
        ensures enough { OnOk result.1
            (length result.0.items + additional ≤ capacity_of result.0.role) }
    {
        self.known_kind();
        self.known_place();
        if self.is_on_block() {
            return match self.try_into_unique_as(pass) {
                Ok(sole) => Self::room_alone_as(sole, additional, pass),
                Err(parts) => (parts, Err(TryReserveError::NotUnique)),
            };
        }
        let SharedParts { on, alloc: _ } = self;
        match on {
            SharedStorage::Alone(parts) => {
                parts.known_role();
                Self::room_alone_as(parts, additional, pass)
            }
            SharedStorage::Several(_) => unreachable!(),
        }
    }

    /// One of several writers again, made of the only writer, with room for `additional` items more
    /// where there is some.
    #[tactic(auto, using(crate::proofs::Rooms::no_buffer_room))]
    fn room_alone_as(
        sole: SoleParts<S, B, M, A, H>,
        additional: usize,
        pass: &mut Pass<H>,
    ) -> (Self, Result<(), TryReserveError>)
        requires kind { S.DROPS ≡ false }
        requires place { ¬ IsOfBuffer sole.place }
        requires pass { IsPassAt sole.place pass.old }
        ensures room { MakesRoomBeside H.whole
            (room_for false (type_size S.Item.row) (bare sole) additional)
            (bare sole) (bare result.0) pass.old pass.new result.1 }
        ensures items { result.0.items ≡ sole.items }
        ensures enough { OnOk result.1
            (length result.0.items + additional ≤ capacity_of result.0.role) }
    {
        let mut sole = sole;
        let made = sole.try_reserve_as(additional, pass);
        (sole.into_shared_memory(), made)
    }

    /// `try_reclaim_as` by value, where there are too few places.
    #[tactic(auto, using(crate::proofs::Rooms::asked_reclaimed, crate::proofs::Rooms::refused_reclaimed, crate::proofs::Rooms::idle_reclaimed, crate::proofs::Rooms::no_buffer_shared, crate::proofs::Rooms::no_buffer_reclaimed))]
    pub(super) fn with_places_as(self, additional: usize, pass: &mut Pass<H>) -> (Self, bool)
        requires short { capacity_of self.role - length self.items < additional }
        requires several { as_shared self ≡ self }
        requires pass { IsPassAt self.place pass.old }
        ensures room { ReclaimsShared (asks_alone (bare self) additional)
            (room_for false (type_size S.Item.row) (bare self) additional)
            (bare self) (bare result.0) pass.old pass.new result.1 }
        ensures items { result.0.items ≡ self.items }
    {
        self.known_kind();
        self.known_place();
        if self.is_on_block() {
            return match self.try_into_unique_as(pass) {
                Ok(sole) => {
                    let mut sole = sole;
                    let found = sole.try_reclaim(additional);
                    (sole.into_shared_memory(), found)
                }
                Err(parts) => (parts, false),
            };
        }
        (self, false)
    }
}
