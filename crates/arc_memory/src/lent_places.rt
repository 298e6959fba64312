//! Places that are lent for a lifetime to several writers, each with a range of its own.
ghost use Rattle.std.specs.Prelude.{◌≡◌, ℕ, ◌+◌, ◌-◌, ◌^◌, ◌<◌, ◌≤◌, ◌⊎◌, List, [], ◌++◌};
ghost use Rattle.std.specs.Prelude.{length, take, drop};
ghost use Rattle.arc_memory.specs.LentMemory.{LentMemory, lent_memory_code, part_owns};
ghost use Rattle.arc_memory.specs.LentMemory.{inheritance_owns, open_owns};
ghost use base.Fml.{Share};
ghost use base.SetCodes.{coded_share};

use crate::frozen_places::FrozenPlaces;
use crate::places::Places;
use arc_owners::lifetime::{EndedLifetime, LifetimeToken};
use std::marker::{Model, PhantomData};

/// A writer's part of memory that is lent for a lifetime: places side by side, which no other part
/// reaches. The first hold items, the others nothing. It has no bytes, and is neither copied nor
/// dropped.
pub struct LentPlaces<T> {
    pub(crate) marker: PhantomData<T>,
    pub ghost memory: { LentMemory } by { lent_memory_code },
    pub ghost start: { ℕ },
    pub ghost count: { ℕ },
    pub ghost items: { List T },
    pub ghost inside: { (start + count ≤ length memory.names)
        × (length memory.names ≤ memory.whole) × (length items ≤ count)
        × (memory.whole < 2 ^ 63) },
}

impl<T> Model for LentPlaces<T> {
    ghost also_owns = { λ p. part_owns T.row p.memory p.start p.count p.items };
}

/// That lent memory comes back once the lifetime has ended. It has no bytes, and is neither copied
/// nor dropped.
pub struct PlacesInheritance<T> {
    pub(crate) marker: PhantomData<T>,
    pub ghost memory: { LentMemory } by { lent_memory_code },
    pub ghost start: { ℕ },
    pub ghost count: { ℕ },
    pub ghost inside: { (start + count ≡ length memory.names)
        × (length memory.names ≤ memory.whole) × (memory.whole < 2 ^ 63) },
}

impl<T> Model for PlacesInheritance<T> {
    ghost also_owns = { λ k. inheritance_owns T.row k.memory k.start };
}

/// What is left of a part while its places are out: it holds a share of the lifetime, so that the
/// memory can't come back before they do. It has no bytes, and is neither copied nor dropped.
pub struct OpenPlaces<T> {
    pub(crate) marker: PhantomData<T>,
    pub ghost memory: { LentMemory } by { lent_memory_code },
    pub ghost start: { ℕ },
    pub ghost count: { ℕ },
    pub ghost share: { Share } by { coded_share },
    pub ghost inside: { (start + count ≤ length memory.names)
        × (length memory.names ≤ memory.whole) × (memory.whole < 2 ^ 63) },
}

impl<T> Model for OpenPlaces<T> {
    ghost also_owns = { λ p. open_owns T.row p.memory p.start p.share p.count };
}

impl<T> LentPlaces<T> {
    ghost use Rattle.arc_memory.specs.Allocations.{IsPart, IsPartOfLent};

    /// Places, lent for a lifetime: one part of all of them, and that they come back.
    pub fn lend(
        places: Places<T>,
        lifetime: &LifetimeToken,
    ) -> (LentPlaces<T>, PlacesInheritance<T>)
        ensures lifetime { result.0.memory.lifetime ≡ lifetime.now.lifetime }
        ensures memory { (result.0.memory.base ≡ places.base)
            × (result.0.memory.whole ≡ places.whole) }
        ensures part { (result.0.start ≡ places.start) × (result.0.count ≡ places.count)
            × (result.0.items ≡ places.items) }
        ensures comes_back { (result.1.memory ≡ result.0.memory)
            × (result.1.start ≡ places.start) × (result.1.count ≡ places.count) }
    {
        let (none, all) = places.split(0);
        Self::lend_behind(none, all, lifetime)
    }

    /// Places with empty ones before them, lent for a lifetime as one memory: the part of the
    /// places behind the empty ones, and that all of them come back. The empty ones are given up.
    pub fn lend_behind(
        before: Places<T>,
        places: Places<T>,
        lifetime: &LifetimeToken,
    ) -> (LentPlaces<T>, PlacesInheritance<T>)
        requires next { IsPart before places × (places.start ≡ before.start + before.count) }
        requires empty { before.items ≡ [] }
        ensures lifetime { result.0.memory.lifetime ≡ lifetime.now.lifetime }
        ensures memory { (result.0.memory.base ≡ places.base)
            × (result.0.memory.whole ≡ places.whole) }
        ensures part { (result.0.start ≡ places.start) × (result.0.count ≡ places.count)
            × (result.0.items ≡ places.items) }
        ensures comes_back { (result.1.memory ≡ result.0.memory)
            × (result.1.start ≡ before.start)
            × (result.1.count ≡ before.count + places.count) }
    {
        let Places { marker: _ } = before;
        let Places { marker: _ } = places;
        let _ = lifetime;
        (
            LentPlaces {
                marker: PhantomData,
            },
            PlacesInheritance {
                marker: PhantomData,
            },
        )
    }

    /// The first `at` places and the others, each with the items that lie there.
    pub fn split(self, at: usize) -> (LentPlaces<T>, LentPlaces<T>)
        requires { at ≤ self.count }
        ensures memory { (result.0.memory ≡ self.memory) × (result.1.memory ≡ self.memory) }
        ensures front { (result.0.start ≡ self.start) × (result.0.count ≡ at)
            × (result.0.items ≡ take at self.items) }
        ensures back { (result.1.start ≡ self.start + at) × (result.1.count ≡ self.count - at)
            × (result.1.items ≡ drop at self.items) }
    {
        let LentPlaces { marker: _ } = self;
        let _ = at;
        (
            LentPlaces {
                marker: PhantomData,
            },
            LentPlaces {
                marker: PhantomData,
            },
        )
    }

    /// Both as one part: the other begins where this ends, in the same memory. This is full, or the
    /// other holds nothing.
    pub fn unsplit(self, back: LentPlaces<T>) -> LentPlaces<T>
        requires next { (back.memory ≡ self.memory) × (back.start ≡ self.start + self.count) }
        requires full { (length self.items ≡ self.count) ⊎ (back.items ≡ []) }
        ensures memory { (result.memory ≡ self.memory) × (result.start ≡ self.start) }
        ensures places { (result.count ≡ self.count + back.count)
            × (result.items ≡ self.items ++ back.items) }
    {
        let LentPlaces { marker: _ } = self;
        let LentPlaces { marker } = back;
        LentPlaces { marker }
    }

    /// The places of the part, which stay its own while it holds a share of the lifetime.
    pub fn open(self, share: LifetimeToken) -> (Places<T>, OpenPlaces<T>)
        requires { share.lifetime ≡ self.memory.lifetime }
        ensures memory { IsPartOfLent self.memory result.0 × (result.1.memory ≡ self.memory) }
        ensures places { (result.0.start ≡ self.start) × (result.0.count ≡ self.count)
            × (result.0.items ≡ self.items) }
        ensures held { (result.1.start ≡ self.start) × (result.1.count ≡ self.count)
            × (result.1.share ≡ share.share) }
    {
        let LentPlaces { marker: _ } = self;
        let LifetimeToken { marker: _ } = share;
        (
            Places {
                marker: PhantomData,
            },
            OpenPlaces {
                marker: PhantomData,
            },
        )
    }

    /// The items of a full part, for all to read while the lifetime lasts: nobody changes them
    /// again.
    pub fn freeze(self, share: &LifetimeToken) -> FrozenPlaces<T>
        requires full { length self.items ≡ self.count }
        requires lifetime { share.now.lifetime ≡ self.memory.lifetime }
        ensures { (result.memory ≡ self.memory) × (result.start ≡ self.start)
            × (result.items ≡ self.items) }
    {
        let LentPlaces { marker: _ } = self;
        let _ = share;
        FrozenPlaces {
            marker: PhantomData,
        }
    }

    /// Gives the part up: no item lies in it. Its memory comes back with the rest.
    pub fn give_up(self)
        requires { self.items ≡ [] }
    {
        let LentPlaces { marker: _ } = self;
    }

    /// Forgets the part, with what lies there: it is for items that need no drop. Its memory comes
    /// back with the rest.
    pub fn forget(self) {
        let LentPlaces { marker: _ } = self;
    }
}

impl<T> OpenPlaces<T> {
    ghost use Rattle.arc_memory.specs.Allocations.{IsPartOfLent};

    /// The part again, with what lies in its places, and its share of the lifetime.
    pub fn close(self, places: Places<T>) -> (LentPlaces<T>, LifetimeToken)
        requires memory { IsPartOfLent self.memory places }
        requires places { (places.start ≡ self.start) × (places.count ≡ self.count) }
        ensures part { (result.0.memory ≡ self.memory) × (result.0.start ≡ self.start)
            × (result.0.count ≡ self.count) × (result.0.items ≡ places.items) }
        ensures share { (result.1.lifetime ≡ self.memory.lifetime)
            × (result.1.share ≡ self.share) }
    {
        let OpenPlaces { marker: _ } = self;
        let Places { marker: _ } = places;
        (
            LentPlaces {
                marker: PhantomData,
            },
            LifetimeToken {
                marker: PhantomData,
            },
        )
    }
}

impl<T> PlacesInheritance<T> {
    ghost use Rattle.arc_memory.specs.Allocations.{IsPartOfLent};

    /// The places, once the lifetime has ended: those before a part, those of the part, with its
    /// items, and those behind it. The others are answered as empty: what lies in them, of a part
    /// that was neither joined nor given up, is forgotten.
    pub fn regain(
        self,
        ended: EndedLifetime,
        part: LentPlaces<T>,
    ) -> (Places<T>, Places<T>, Places<T>)
        requires ended { ended.lifetime ≡ self.memory.lifetime }
        requires part { (part.memory ≡ self.memory) × (self.start ≤ part.start) }
        ensures memory { IsPartOfLent self.memory result.0 × IsPartOfLent self.memory result.1
            × IsPartOfLent self.memory result.2 }
        ensures before { (result.0.start ≡ self.start)
            × (result.0.count ≡ part.start - self.start) × (result.0.items ≡ []) }
        ensures part { (result.1.start ≡ part.start) × (result.1.count ≡ part.count)
            × (result.1.items ≡ part.items) }
        ensures behind { (result.2.start ≡ part.start + part.count)
            × (result.2.start + result.2.count ≡ self.start + self.count)
            × (result.2.items ≡ []) }
    {
        let PlacesInheritance { marker: _ } = self;
        let EndedLifetime { marker: _ } = ended;
        let LentPlaces { marker: _ } = part;
        (
            Places {
                marker: PhantomData,
            },
            Places {
                marker: PhantomData,
            },
            Places {
                marker: PhantomData,
            },
        )
    }
}

impl<T> PlacesInheritance<T> {
    ghost use Rattle.arc_memory.specs.Allocations.{IsPartOfLent};

    /// The places, once the lifetime has ended: those before a frozen range, those of the range,
    /// with its items, and those behind it. The others are answered as empty, as by `regain`.
    pub fn regain_frozen(
        self,
        ended: EndedLifetime,
        range: &FrozenPlaces<T>,
    ) -> (Places<T>, Places<T>, Places<T>)
        requires ended { ended.lifetime ≡ self.memory.lifetime }
        requires range { (range.now.memory ≡ self.memory) × (self.start ≤ range.now.start) }
        ensures memory { IsPartOfLent self.memory result.0 × IsPartOfLent self.memory result.1
            × IsPartOfLent self.memory result.2 }
        ensures before { (result.0.start ≡ self.start)
            × (result.0.count ≡ range.now.start - self.start) × (result.0.items ≡ []) }
        ensures range { (result.1.start ≡ range.now.start)
            × (result.1.count ≡ length range.now.items) × (result.1.items ≡ range.now.items) }
        ensures behind { (result.2.start ≡ range.now.start + length range.now.items)
            × (result.2.start + result.2.count ≡ self.start + self.count)
            × (result.2.items ≡ []) }
    {
        let PlacesInheritance { marker: _ } = self;
        let EndedLifetime { marker: _ } = ended;
        let _ = range;
        (
            Places {
                marker: PhantomData,
            },
            Places {
                marker: PhantomData,
            },
            Places {
                marker: PhantomData,
            },
        )
    }
}

impl<T> PlacesInheritance<T> {
    ghost use Rattle.arc_memory.specs.Allocations.{IsPartOfLent};

    /// All the places as one, answered as empty, once the lifetime has ended: what lies in them, of
    /// parts that were not given up, is forgotten.
    pub fn regain_empty(self, ended: EndedLifetime) -> Places<T>
        requires ended { ended.lifetime ≡ self.memory.lifetime }
        ensures memory { IsPartOfLent self.memory result }
        ensures places { (result.start ≡ self.start) × (result.count ≡ self.count)
            × (result.items ≡ []) }
    {
        let PlacesInheritance { marker: _ } = self;
        let EndedLifetime { marker: _ } = ended;
        Places {
            marker: PhantomData,
        }
    }
}

unsafe impl<T: Send> Send for LentPlaces<T> {}

unsafe impl<T: Send> Send for OpenPlaces<T> {}

unsafe impl<T: Send> Send for PlacesInheritance<T> {}

unsafe impl<T: Send> Sync for PlacesInheritance<T> {}
