//! What a sole writer does to its items in a vector.
ghost use Rattle.std.specs.Prelude.{◌≡◌, ◌≤◌, ◌+◌, ◌++◌, ◌∷◌, [], length, IfErr, OnOk, Ok, Err};
ghost use Rattle.std.specs.Borrow.{sem};
ghost use Rattle.std.specs.Mem.{type_size};
ghost use Rattle.std.specs.Vec.{vec_len, vec_capacity};
ghost use Rattle.arc_parts.specs.Room.{IfOwn};
ghost use Rattle.arc_parts.specs.Steps.{IsPassAt};
ghost use Rattle.arc_parts.specs.Writers.{capacity_of, room_for, MakesRoom, Pushes, Reclaims};
ghost use Rattle.arc_parts.specs.Writers.{with_more, after_advance, after_truncate};

use super::SoleVector;
use arc_buffer::buffer::Buffer;
use arc_buffer::kinds::Slice;
use arc_owners::error::TryReserveError;
use arc_owners::mark::Mark;
use arc_owners::owners::Pass;
use arc_parts::room::Room;
use std::alloc::Allocator;
use std::mem;

impl<S: Slice, B: Buffer<S::Item> + Drop, M: Drop, A: Allocator + Copy, H: Mark> SoleVector<
    S,
    B,
    M,
    A,
    H,
> {
    ghost use Rattle.arc_sort_writers.specs.Lends.{lends_vector_items};

    /// The items, to be changed in their places: they are what is written there.
    #[inline(always)]
    pub fn as_mut_slice(&mut self) -> &mut [S::Item]
        ensures* writes_back { sem 𝓛 (lends_vector_items S.row B.row M.row A.row H.row S.Item.row
            S.TryFromSliceError.row H.Mark S.Slice B.Buffer A.Allocator self.entry result) }
        ensures value { result.now ≡ self.old.items }
    {
        self.items.slice_mut(self.start..self.end)
    }

    /// Makes room for `additional` items more where that takes no memory, and answers whether there
    /// is room.
    pub fn try_reclaim(&mut self, additional: usize) -> bool
        ensures { Reclaims (room_for S.DROPS (type_size S.Item.row) self.old additional)
            self.old self.new result }
    {
        match self.room(additional) {
            Room::Spare => true,
            Room::Front => {
                self.to_front();
                true
            }
            Room::Behind => unreachable!(),
            _ => false,
        }
    }

    /// Appends an item, once there is room.
    ///
    /// # Errors
    ///
    /// Those of `try_reserve_as` for one item, with the item, which comes back. Nothing is changed
    /// then.
    ///
    /// # Allocates
    ///
    /// Where there are too few places: as `try_reserve_as` does for one item.
    ///
    /// # History
    ///
    /// None.
    #[inline(always)]
    pub fn try_push_as(
        &mut self,
        item: S::Item,
        pass: &mut Pass<H>,
    ) -> Result<(), (TryReserveError, S::Item)>
        requires pass { IsPassAt self.old.place pass.old }
        ensures pushed { OnOk result (Pushes S.DROPS H.whole
            (room_for S.DROPS (type_size S.Item.row) self.old 1) (item ∷ [])
            self.old self.new pass.old pass.new) }
        ensures items { OnOk result (self.new.items ≡ self.old.items ++ item ∷ []) }
        ensures refused { IfErr result (λ r. (r.1 ≡ item) × MakesRoom S.DROPS H.whole
            (room_for S.DROPS (type_size S.Item.row) self.old 1)
            self.old self.new pass.old pass.new (Err r.0)) }
        ensures memory { IfOwn (room_for S.DROPS (type_size S.Item.row) self.old 1) ⊥ }
    {
        match self.try_reserve_as(1, pass) {
            Ok(()) => {
                self.push_reserved(item);
                Ok(())
            }
            Err(e) => Err((e, item)),
        }
    }

    /// Appends an item. There is a place for it.
    #[inline(always)]
    pub fn push_reserved(&mut self, item: S::Item)
        requires { length self.old.items + 1 ≤ capacity_of self.old.role }
        ensures { self.new ≡ with_more (item ∷ []) self.old }
    {
        self.items.push_reserved(item);
        // The items end where the vector's do, since there is a place behind them.
        self.end = self.items.len();
    }

    /// Takes the first `count` items off, with their places.
    #[inline(always)]
    pub fn advance(&mut self, count: usize)
        requires { count ≤ length self.old.items }
        ensures { self.new ≡ after_advance count self.old }
    {
        self.start += count;
    }

    /// Keeps the first `len` items, or all where there are no more. Items that are dropped one by
    /// one stay in the block when they are cut off, and the capacity is `len` then.
    pub fn truncate(&mut self, len: usize)
        ensures { self.new ≡ after_truncate S.DROPS len self.old }
    {
        if self.end - self.start <= len {
            return;
        }
        self.end = self.start + len;
        if !S::DROPS {
            self.items.truncate(self.end);
        }
    }
}

impl<S: Slice, B: Buffer<S::Item> + Drop, M: Drop, A: Allocator + Copy, H: Mark> SoleVector<
    S,
    B,
    M,
    A,
    H,
>
where
    S::Item: Copy,
{
    /// Appends a copy of the items, once there is room.
    ///
    /// # Errors
    ///
    /// Those of `try_reserve_as` for as many items. The writer is unchanged.
    ///
    /// # Allocates
    ///
    /// Where there are too few places: as `try_reserve_as` does for as many items.
    ///
    /// # History
    ///
    /// None.
    #[inline(never)]
    pub fn try_extend_from_slice_as(
        &mut self,
        items: &[S::Item],
        pass: &mut Pass<H>,
    ) -> Result<(), TryReserveError>
        requires pass { IsPassAt self.old.place pass.old }
        ensures extended { OnOk result (Pushes S.DROPS H.whole
            (room_for S.DROPS (type_size S.Item.row) self.old (length items.now)) items.now
            self.old self.new pass.old pass.new) }
        ensures items { OnOk result (self.new.items ≡ self.old.items ++ items.now) }
        ensures refused { IfErr result (λ e. MakesRoom S.DROPS H.whole
            (room_for S.DROPS (type_size S.Item.row) self.old (length items.now))
            self.old self.new pass.old pass.new (Err e)) }
        ensures memory { IfOwn (room_for S.DROPS (type_size S.Item.row) self.old
            (length items.now)) ⊥ }
    {
        match self.try_reserve_as(items.len(), pass) {
            Ok(()) => {
                self.extend_reserved(items);
                Ok(())
            }
            Err(e) => Err(e),
        }
    }

    /// Appends a copy of the items. There are places for them.
    pub fn extend_reserved(&mut self, items: &[S::Item])
        requires { length self.old.items + length items.now ≤ capacity_of self.old.role }
        ensures { self.new ≡ with_more items.now self.old }
    {
        if items.is_empty() {
            return;
        }
        let vec = mem::replace(&mut self.items, Vec::new(self.alloc));
        self.items = with_all(vec, items);
        self.end += items.len();
    }
}

/// The vector, with a copy of the items appended, for which it has places. It goes by value, so
/// that the loop writes only items and can become vector code.
fn with_all<T: Copy + Drop, A: Allocator>(vec: Vec<T, A>, items: &[T]) -> Vec<T, A>
    requires { vec_len vec + length items.now ≤ vec_capacity vec }
    ensures items { result.items ≡ vec.items ++ items.now }
    ensures capacity { vec_capacity result ≡ vec_capacity vec }
{
    let mut vec = vec;
    for item in items {
        vec.push_reserved(*item);
    }
    vec
}
