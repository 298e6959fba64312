//! The right to free an allocation, apart from the places in it.
ghost use Rattle.std.specs.Prelude.{◌≡◌, [], length, IfOk, IsOk};
ghost use Rattle.std.specs.Vec.{vec_ptr};
ghost use Rattle.arc_memory.specs.Memory.{Extent, extent_of};

use crate::emptied::Emptied;
use crate::places::Places;
use arc_owners::error::AllocError;
use std::alloc::Allocator;
use std::marker::Model;

/// The right to free an allocation, whose places are owned apart. Contracts see where it begins,
/// how many places it has, how many items lay in it when it was parted from them, and its
/// allocator. It is neither copied nor dropped.
pub struct Allocation<T, A: Allocator> {
    emptied: Emptied<T, A>,
    count: usize,
}

impl<T, A: Allocator> Model for Allocation<T, A> {
    ghost Value = { Extent A };

    ghost view = { λ a. a.emptied };

    ghost invariant = { λ a. a.count ≡ a.emptied.count };
}

impl<T, A: Allocator> Allocation<T, A> {
    /// How many places it has.
    pub fn count(&self) -> usize
        ensures { result ≡ self.now.count }
    {
        self.count
    }
}

ghost use Rattle.arc_memory.specs.Allocations.{IsAllOf};

impl<T, A: Allocator> Allocation<T, A> {
    /// Where new memory with this number of places begins, the right to free it, and the places,
    /// all empty. For none nothing is asked of the allocator.
    ///
    /// # Errors
    ///
    /// `AllocError` where there is no memory, or where the places pass `isize::MAX` bytes.
    ///
    /// # Allocates
    ///
    /// Once, except for none.
    pub fn new(
        alloc: A,
        count: usize,
    ) -> Result<(*const T, Allocation<T, A>, Places<T>), AllocError>
        ensures allocation { IfOk result (λ r. (r.1.base ≡ r.0) × (r.1.count ≡ count)
            × (r.1.len ≡ 0)) }
        ensures places { IfOk result (λ r. IsAllOf r.2 r.1 × (r.2.items ≡ [])) }
        ensures none { count ≡ 0 → IsOk result }
    {
        match Vec::with_capacity(alloc, count) {
            Ok(empty) => Ok(take_apart(empty)),
            Err(_) => Err(AllocError),
        }
    }

    /// Gives the memory back: all its places come, and none holds an item, nor did any when it was
    /// taken apart.
    pub fn free(self, places: Places<T>)
        requires places { IsAllOf places self }
        requires empty { (places.items ≡ []) × (self.len ≡ 0) }
    {
        put_together(self, places).destroy_empty();
    }
}

/// A vector as where its memory begins, the right to free that, and its places, with the items in
/// the first of them.
pub fn take_apart<T, A: Allocator>(vec: Vec<T, A>) -> (*const T, Allocation<T, A>, Places<T>)
    ensures base { result.0 ≡ vec_ptr vec }
    ensures allocation { result.1 ≡ extent_of vec }
    ensures items { result.2.items ≡ vec.items }
    ensures places { IsAllOf result.2 (extent_of vec) }
{
    let base = vec.as_ptr();
    let count = vec.capacity();
    let (emptied, places) = Emptied::of(vec);
    (base, Allocation { emptied, count }, places)
}

/// The vector again, of all the places of its allocation: as many items lie there as when it was
/// taken apart.
pub fn put_together<T, A: Allocator>(allocation: Allocation<T, A>, places: Places<T>) -> Vec<T, A>
    requires places { IsAllOf places allocation }
    requires items { length places.items ≡ allocation.len }
    ensures items { result.items ≡ places.items }
    ensures allocation { extent_of result ≡ allocation }
{
    let Allocation { emptied, count: _ } = allocation;
    emptied.filled(places)
}
