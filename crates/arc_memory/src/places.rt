//! Places for items, side by side in one allocation.
ghost use Rattle.std.specs.Prelude.{◌≡◌, ℕ, ◌+◌, ◌-◌, ◌^◌, ◌<◌, ◌≤◌, ◌⊎◌, List, [], ◌++◌};
ghost use Rattle.std.specs.Prelude.{length, take, drop};
ghost use denote.RawPtr.{Ptr, coded_ptr};
ghost use Rattle.arc_memory.specs.Memory.{places_own, places_lent};

use std::marker::{Model, PhantomData};
use std::slice;

/// Places side by side in one allocation, which nothing else reaches: the first hold items, the
/// others nothing. It has no bytes, and is neither copied nor dropped.
pub struct Places<T> {
    pub(crate) marker: PhantomData<T>,
    pub ghost base: { Ptr } by { coded_ptr },
    pub ghost whole: { ℕ },
    pub ghost start: { ℕ },
    pub ghost count: { ℕ },
    pub ghost items: { List T },
    pub ghost inside: { (start + count ≤ whole) × (length items ≤ count) × (whole < 2 ^ 63) },
}

impl<T> Model for Places<T> {
    ghost also_owns = { λ p. places_own T.row p.base p.whole p.start p.count p.items };

    ghost also_shares = { λ p _ κ. places_lent T.row p.base p.whole p.start p.items κ };
}

impl<T> Places<T> {
    ghost use Rattle.arc_memory.specs.Allocations.{IsPart};

    /// The items from the place `start` on and before the place `end`, of places that begin where
    /// their allocation does. It reads no memory.
    ///
    /// # Safety
    ///
    /// The memory's places begin at `base`.
    #[inline(always)]
    pub unsafe fn as_slice<'a>(&'a self, base: *const T, start: usize, end: usize) -> &'a [T]
        requires place { (base ≡ self.now.base) × (self.now.start ≡ 0) }
        requires range { (start ≤ end) × (end ≤ length self.now.items) }
        ensures { result.now ≡ drop start (take end self.now.items) }
    {
        unsafe { slice::from_raw_parts(base.add(start), end - start) }
    }

    /// The first `at` places and the others, each with the items that lie there.
    pub fn split(self, at: usize) -> (Places<T>, Places<T>)
        requires { at ≤ self.count }
        ensures allocation { IsPart self result.0 × IsPart self result.1 }
        ensures front { (result.0.start ≡ self.start) × (result.0.count ≡ at)
            × (result.0.items ≡ take at self.items) }
        ensures back { (result.1.start ≡ self.start + at) × (result.1.count ≡ self.count - at)
            × (result.1.items ≡ drop at self.items) }
    {
        let Places { marker: _ } = self;
        let _ = at;
        let marker = PhantomData;
        (
            Places { marker },
            Places {
                marker: PhantomData,
            },
        )
    }

    /// Both as one range: the others begin where this ends, in the same allocation. This is full,
    /// or the others hold nothing.
    pub fn join(self, back: Places<T>) -> Places<T>
        requires next { IsPart self back × (back.start ≡ self.start + self.count) }
        requires full { (length self.items ≡ self.count) ⊎ (back.items ≡ []) }
        ensures allocation { IsPart self result × (result.start ≡ self.start) }
        ensures places { (result.count ≡ self.count + back.count)
            × (result.items ≡ self.items ++ back.items) }
    {
        let Places { marker: _ } = self;
        let Places { marker } = back;
        Places { marker }
    }
}

unsafe impl<T: Send> Send for Places<T> {}

unsafe impl<T: Sync> Sync for Places<T> {}
