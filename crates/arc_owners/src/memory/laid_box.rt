//! Boxes that lie in a room for a header, in memory that somebody else frees. The last owner of the
//! value gets the room too.
ghost use Rattle.std.specs.Prelude.{◌≡◌};

use super::counted_box::{CountedBox, Housed, KeptMemory};
use super::header_room::HeaderRoom;
use super::inner::Inner;
use super::sole_box::SoleBox;
use super::sole_count::SoleCount;
use crate::count::tokens::{LifetimeEnd, Owners, Pass, Release};
use crate::lifetime::EndedLifetime;
use crate::mark::Mark;
use std::marker::PhantomData;
use std_alloc::vec::Lodged;

/// What lies in the room for a header: the word of a count, and a value.
pub type Header<V> = Inner<Housed<V, Lodged>>;

impl<V: Drop, const MAX: u64, H: Mark> SoleBox<V, Lodged, MAX, H> {
    ghost use Rattle.arc_owners.specs.memory.SoleBoxes.{sole_in, sole_value, sole_place};
    ghost use Rattle.arc_owners.specs.memory.SoleCounts.{count_owner};

    /// Puts a count and a value into a room: the same owner. It adds no entry and takes no memory.
    pub fn lay(count: SoleCount<MAX, H>, room: HeaderRoom<Header<V>>, value: V) -> Self
        ensures same { (sole_in result ≡ count_owner count) × (sole_value result ≡ value) }
        ensures place { sole_place result ≡ room.at }
    {
        let SoleCount { owners, sole } = count;
        let Owners { word, mark: _ } = owners;
        let alloc = Lodged;
        let value = Housed { value, alloc };
        SoleBox::settled(room.hold(Inner { word, value }), sole)
    }

    /// The count, the room, in which nothing lies then, and the value: the same owner. It adds no
    /// entry and takes no memory.
    pub fn take_up(self) -> (SoleCount<MAX, H>, HeaderRoom<Header<V>>, V)
        ensures same { (count_owner result.0 ≡ sole_in self) × (result.2 ≡ sole_value self) }
        ensures place { result.1.at ≡ sole_place self }
    {
        let (memory, sole) = self.parted();
        let (room, inner) = HeaderRoom::of(memory);
        let Inner { word, value } = inner;
        let mark = PhantomData;
        let owners = Owners { word, mark };
        (SoleCount { owners, sole }, room, value.value)
    }
}

impl<V: Drop> KeptMemory<V, Lodged> {
    /// The value and the room, at the end of the lease, and that its lifetime has ended.
    pub(crate) fn take_with_room(
        self,
        term: LifetimeEnd,
    ) -> (V, HeaderRoom<Header<V>>, EndedLifetime)
        requires { term.spoils.lease ≡ self.memory.kept.lease }
        ensures value { result.0 ≡ self.memory.kept.value.value.value }
        ensures room { result.1.at ≡ self.memory.at }
        ensures ended { result.2.lifetime ≡ self.memory.kept.lease.lifetime }
    {
        let KeptMemory {
            memory,
            lodging: _,
            alloc,
        } = self;
        let (memory, ended) = memory.take_back_parts(alloc, term);
        let (room, inner) = HeaderRoom::of(memory);
        let Inner { word: _, value } = inner;
        (value.value, room, ended)
    }
}

impl<V: Drop, const MAX: u64, H: Mark> CountedBox<V, Lodged, MAX, H> {
    ghost use Rattle.std.specs.Prelude.{IfSome, is_some, true, false};
    ghost use Rattle.arc_owners.specs.count.Calls.{IsPassFor, IsPassOfNone, Leaves, EndsByItself};
    ghost use Rattle.arc_owners.specs.memory.Boxes.{owner_in, value_of, lifetime_in, place_in};

    /// Ends this owner by one subtraction from the count. The last one gets the value, the room in
    /// which it lay, and that the lifetime of the lease has ended. It takes no memory.
    ///
    /// # History
    ///
    /// Down.
    #[inline(always)]
    pub fn release_with_room_as(
        self,
        pass: &mut Pass<H>,
    ) -> Option<(V, HeaderRoom<Header<V>>, EndedLifetime)>
        requires pass { IsPassFor (owner_in self) pass.old }
        ensures entry { Leaves (owner_in self) pass.old pass.new (is_some result) }
        ensures value { IfSome result (λ r. r.0 ≡ value_of self) }
        ensures room { IfSome result (λ r. r.1.at ≡ place_in self) }
        ensures ended { IfSome result (λ r. r.2.lifetime ≡ lifetime_in self) }
    {
        let (share, kept) = self.parted();
        let word = Inner::word_place(kept.memory.at);
        match unsafe { Owners::<MAX, H>::down_raw(word, &kept.lodging, share, pass) } {
            Release::Last(term) => Some(kept.take_with_room(term)),
            Release::NotLast => None,
        }
    }

    /// What a drop does, for owners whose last one frees the memory: `let_go`, which also gives the
    /// room in which the value lay, and that the lifetime of the lease has ended. It takes no
    /// memory.
    ///
    /// # History
    ///
    /// Under `Open`: Down. Under `Whole`: nothing.
    #[inline(always)]
    pub fn let_go_with_room(self) -> (Option<(V, HeaderRoom<Header<V>>, EndedLifetime)>, Pass<H>)
        ensures value { IfSome result.0 (λ r. r.0 ≡ value_of self) }
        ensures room { IfSome result.0 (λ r. r.1.at ≡ place_in self) }
        ensures lifetime { IfSome result.0 (λ r. r.2.lifetime ≡ lifetime_in self) }
        ensures forgotten { H.whole ≡ true → (is_some result.0 ≡ false) × IsPassOfNone result.1 }
        ensures ended { H.whole ≡ false → EndsByItself (owner_in self) result.1 (is_some result.0) }
    {
        let (share, kept) = self.parted();
        let word = Inner::word_place(kept.memory.at);
        let (last, spoils, trace) = unsafe { H::let_go(word, &kept.lodging, share.right) };
        let pass = Pass {
            trace,
            mark: PhantomData,
        };
        if last {
            (Some(kept.take_with_room(LifetimeEnd { spoils })), pass)
        } else {
            (None, pass)
        }
    }
}
