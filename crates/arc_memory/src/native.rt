//! The memory of a native block.
ghost use Rattle.std.specs.Prelude.{◌≡◌, ◌≤◌, length, take, drop};
ghost use Rattle.arc_memory.specs.Memory.{extent_of};
ghost use Rattle.arc_memory.specs.Allocations.{IsAllOf};

use crate::allocation::{Allocation, put_together, take_apart};
use crate::base::Base;
use crate::places::Places;
use std::alloc::Allocator;

/// All places of an allocation with the items in them, and the right to free it: what the last
/// owner of a block gets. Dropped, it drops each item and frees the memory.
pub struct Native<T: Drop, A: Allocator> {
    pub places: Places<T>,
    pub allocation: Allocation<T, A>,
    base: Base<T>,
    len: usize,
    ghost begins: { base.at ≡ places.base },
    ghost counted: { len ≡ length places.items },
    ghost all: { IsAllOf places allocation },
    ghost kept: { length places.items ≡ allocation.len },
}

impl<T: Drop, A: Allocator> Native<T, A> {
    /// A vector's memory with its items, and where the first of them lies.
    pub fn of(items: Vec<T, A>) -> (*const T, Self)
        ensures base { result.0 ≡ result.1.places.base }
        ensures items { result.1.places.items ≡ items.items }
        ensures allocation { result.1.allocation ≡ extent_of items }
    {
        let len = items.len();
        let (at, allocation, places) = take_apart(items);
        let memory = Native {
            places,
            allocation,
            base: Base { at },
            len,
        };
        (at, memory)
    }

    /// The memory as a vector's, with the items.
    pub fn into_vec(self) -> Vec<T, A>
        ensures items { result.items ≡ self.places.items }
        ensures allocation { extent_of result ≡ self.allocation }
    {
        let Native {
            places,
            allocation,
            base: _,
            len: _,
        } = self;
        put_together(allocation, places)
    }

    /// The items.
    #[inline(always)]
    pub fn as_slice(&self) -> &[T]
        ensures { result.now ≡ self.now.places.items }
    {
        self.range(self.base.at, 0, self.len)
    }

    /// The items from `start` and before `end`, of memory that begins at `base`. It reads no
    /// memory.
    #[inline(always)]
    pub fn range(&self, base: *const T, start: usize, end: usize) -> &[T]
        requires place { base ≡ self.now.places.base }
        requires range { (start ≤ end) × (end ≤ length self.now.places.items) }
        ensures { result.now ≡ drop start (take end self.now.places.items) }
    {
        unsafe { self.places.as_slice(base, start, end) }
    }

    /// How many items there are.
    pub fn len(&self) -> usize
        ensures { result ≡ length self.now.places.items }
    {
        self.len
    }

    /// How many places there are.
    pub fn count(&self) -> usize
        ensures { result ≡ self.now.allocation.count }
    {
        self.allocation.count()
    }
}

impl<T: Drop, A: Allocator> Drop for Native<T, A> {
    fn drop(self) {
        drop(self.into_vec());
    }
}
