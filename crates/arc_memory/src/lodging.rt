//! Vectors that lodge in places, so that what lies there can be edited as a vector's items.
ghost use Rattle.std.specs.Prelude.{◌≡◌, ℕ, ◌+◌, ◌^◌, ◌<◌, ◌≤◌, length};
ghost use Rattle.std.specs.Vec.{vec_capacity, vec_len, vec_ptr};
ghost use base.Fml.{fsep, feq};
ghost use denote.RawPtr.{Ptr, coded_ptr};
ghost use Rattle.arc_memory.specs.Memory.{is_small, place_at};

use crate::places::Places;
use std::marker::{Model, PhantomData};
use std_alloc::vec::{Lodged, lodge};

/// Which places lie under a vector that lodges in them. It has no bytes, and is neither copied nor
/// dropped.
pub struct Lodging<T> {
    pub(crate) marker: PhantomData<T>,
    pub ghost base: { Ptr } by { coded_ptr },
    pub ghost place: { Ptr } by { coded_ptr },
    pub ghost whole: { ℕ },
    pub ghost start: { ℕ },
    pub ghost count: { ℕ },
    pub ghost inside: { (start + count ≤ whole) × (whole < 2 ^ 63) },
}

impl<T> Model for Lodging<T> {
    ghost also_owns = { λ l. fsep (is_small T.row l.whole)
        (feq Ptr l.place (place_at T.row l.base l.start)) };
}

impl<T> Lodging<T> {
    /// A vector of the items in these places, which lodges there: it neither grows nor frees them.
    ///
    /// # Safety
    ///
    /// The memory's places begin at `base`. `start`, `len` and `capacity` are the number of the
    /// first of these places, how many items they hold, and how many they are.
    pub unsafe fn house(
        places: Places<T>,
        base: *const T,
        start: usize,
        len: usize,
        capacity: usize,
    ) -> (Vec<T, Lodged>, Lodging<T>)
        requires place { (base ≡ places.base) × (start ≡ places.start) }
        requires sizes { (len ≡ length places.items) × (capacity ≡ places.count) }
        ensures items { (result.0.items ≡ places.items) × (vec_len result.0 ≡ len) }
        ensures lies { (vec_ptr result.0 ≡ result.1.place)
            × (vec_capacity result.0 ≡ result.1.count) }
        ensures under { (result.1.base ≡ places.base) × (result.1.whole ≡ places.whole)
            × (result.1.start ≡ places.start) × (result.1.count ≡ places.count) }
    {
        let Places { marker } = places;
        let vec = unsafe { lodge(base.cast_mut().add(start), len, capacity) };
        (vec, Lodging { marker })
    }

    /// The places again, with the items of the vector that lodges in them.
    pub fn vacate(self, vec: Vec<T, Lodged>) -> Places<T>
        requires lies { (vec_ptr vec ≡ self.place) × (vec_capacity vec ≡ self.count) }
        ensures items { result.items ≡ vec.items }
        ensures places { (result.base ≡ self.base) × (result.whole ≡ self.whole)
            × (result.start ≡ self.start) × (result.count ≡ self.count) }
    {
        let Lodging { marker } = self;
        let _len = vec.dislodge();
        Places { marker }
    }
}

// It only says which places.
unsafe impl<T> Send for Lodging<T> {}
