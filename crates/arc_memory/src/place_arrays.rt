//! Places that an array is moved into, or out of, at once.
ghost use Rattle.std.specs.Prelude.{◌≡◌, [], length};
ghost use Rattle.arc_memory.specs.Memory.{place_at};

use crate::places::Places;

impl<T> Places<T> {
    /// These places, which hold nothing, with the items of an array: one in each.
    ///
    /// # Safety
    ///
    /// The first of the places lies at `at`.
    pub(crate) unsafe fn with_array<const N: usize>(self, at: *mut T, items: [T; N]) -> Places<T>
        requires place { (at ≡ place_at T.row self.base self.start) × (self.count ≡ N) }
        requires empty { self.items ≡ [] }
        ensures items { result.items ≡ items }
        ensures places { (result.base ≡ self.base) × (result.whole ≡ self.whole)
            × (result.start ≡ self.start) × (result.count ≡ self.count) }
    {
        let Places { marker } = self;
        unsafe {
            at.cast::<[T; N]>().write(items);
        }
        Places { marker }
    }

    /// The items as an array, and the places, which hold nothing then.
    ///
    /// # Safety
    ///
    /// The first of the places lies at `at`.
    pub(crate) unsafe fn without_array<const N: usize>(self, at: *mut T) -> ([T; N], Places<T>)
        requires place { (at ≡ place_at T.row self.base self.start) × (self.count ≡ N) }
        requires full { length self.items ≡ N }
        ensures items { (result.0 ≡ self.items) × (result.1.items ≡ []) }
        ensures places { (result.1.base ≡ self.base) × (result.1.whole ≡ self.whole)
            × (result.1.start ≡ self.start) × (result.1.count ≡ self.count) }
    {
        let Places { marker } = self;
        let items = unsafe { at.cast::<[T; N]>().read() };
        (items, Places { marker })
    }
}
