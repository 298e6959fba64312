//! Places as slots of the kit, by which many items are copied, moved or dropped at once.
ghost use Rattle.std.specs.Prelude.{◌≡◌, ◌<◌, ◌≤◌, length, take};
ghost use Rattle.std.specs.Mem.Slots.{slots_ptr, slots_len, slots_items, slots_filled};
ghost use Rattle.std.specs.Mem.Slots.Ownership.{Filled};
ghost use Rattle.arc_memory.specs.Memory.{place_at};
ghost use Rattle.arc_memory.specs.Allocations.{LieUnder};

use crate::lodging::Lodging;
use crate::places::Places;
use core::slots::Slots;

impl<T> Places<T> {
    /// These places as slots, of which the first hold the items, and which places lie under them.
    ///
    /// # Safety
    ///
    /// The first of the places lies at `at`, and there are `count` of them.
    pub(crate) unsafe fn into_slots(self, at: *mut T, count: usize) -> (Slots<T>, Lodging<T>)
        requires place { (at ≡ place_at T.row self.base self.start) × (count ≡ self.count) }
        requires value { length self.items < self.count → T }
        ensures slots { (slots_ptr result.0 ≡ result.1.place) × (slots_len result.0 ≡ self.count) }
        ensures items { (take (length self.items) (slots_items result.0) ≡ self.items)
            × Filled (slots_filled result.0) 0 (length self.items) }
        ensures under { LieUnder result.1 self }
    {
        let Places { marker } = self;
        let slots = unsafe { Slots::from_raw_parts(at, count) };
        (slots, Lodging { marker })
    }
}

impl<T> Lodging<T> {
    /// The places again, of slots that lie in them, of which the first `len` hold a value each.
    /// What the others hold is forgotten.
    pub(crate) fn of_slots(self, slots: Slots<T>, len: usize) -> Places<T>
        requires lies { (slots_ptr slots ≡ self.place) × (slots_len slots ≡ self.count) }
        requires full { (len ≤ slots_len slots) × Filled (slots_filled slots) 0 len }
        ensures items { result.items ≡ take len (slots_items slots) }
        ensures places { LieUnder self result }
    {
        let Lodging { marker } = self;
        let _parts = unsafe { slots.into_raw_parts() };
        let _ = len;
        Places { marker }
    }
}
