//! A vector without its items, which has the right to free their memory.
ghost use Rattle.std.specs.Prelude.{◌≡◌, length};
ghost use base.Fml.{ftrue, fex};
ghost use Rattle.arc_memory.specs.Memory.{Extent, extent_code, extent_of, emptied};

use crate::places::Places;
use std::alloc::Allocator;
use std::marker::{Move, Owns, PhantomData};

/// A vector that is parted from its items: contracts see the extent of its allocation. It is
/// neither copied nor dropped.
pub(crate) struct Emptied<T, A: Allocator> {
    vec: Vec<T, A>,
}

impl<T, A: Allocator> Owns for Emptied<T, A> {
    ghost Value = { Extent A };

    ghost coded = { extent_code A.code };

    ghost shr_at = { λ _ _ _. ftrue };
}

impl<T, A: Allocator> Move for Emptied<T, A> {
    ghost own_val = { λ e vs. fex Inside (λ v. emptied T.row e v.vec
        (λ w. Fields.own_val (record { vec = w }) vs)) };
}

impl<T, A: Allocator> Emptied<T, A> {
    ghost use Rattle.arc_memory.specs.Allocations.{IsAllOf};

    /// The vector without its items, and the places with them.
    pub(crate) fn of(vec: Vec<T, A>) -> (Emptied<T, A>, Places<T>)
        ensures extent { result.0 ≡ extent_of vec }
        ensures items { result.1.items ≡ vec.items }
        ensures places { IsAllOf result.1 result.0 }
    {
        let marker = PhantomData;
        (Emptied { vec }, Places { marker })
    }

    /// The vector again, with the items that lie in its places: as many as it had.
    pub(crate) fn filled(self, places: Places<T>) -> Vec<T, A>
        requires places { IsAllOf places self }
        requires items { length places.items ≡ self.len }
        ensures items { result.items ≡ places.items }
        ensures extent { extent_of result ≡ self }
    {
        let Emptied { vec } = self;
        let Places { marker: _ } = places;
        vec
    }
}

unsafe impl<T: Send, A: Allocator + Send> Send for Emptied<T, A> {}

// A `&` to it says nothing.
unsafe impl<T, A: Allocator> Sync for Emptied<T, A> {}
