//! The slice of a value that is lent, for as long as the value is.
ghost use Rattle.std.specs.Prelude.{◌≡◌, ◌≤◌, ℕ, List, true, length, take, drop};
ghost use denote.RawPtr.{Ptr, coded_ptr};
ghost use Rattle.arc_owners.specs.memory.LentSlices.{shown_lent};

use super::shared_borrow::SharedBorrow;
use super::shows::Shows;
use crate::count::tokens::Share;
use crate::count::word::OwnerToken;
use crate::mark::Mark;
use std::marker::{Model, PhantomData};
use std::slice;

/// That the items which a value shows lie side by side at a place, for all to read for as long as
/// the value is lent to the owners of a block. It has no bytes, and can be had more than once.
/// Contracts see the place, the items, and the lifetime of the lease.
#[derive(Drop)]
pub struct Shown<T, V> {
    marker: PhantomData<(*const T, *const V)>,
    pub ghost items: { List T },
    pub ghost at: { Ptr } by { coded_ptr },
    pub ghost lifetime: { ℕ },
}

const _: () = prove!(size_of::<Shown<u8, u64>>() == 0);

impl<T, V> Model for Shown<T, V> {
    ghost also_owns = { λ s. shown_lent T.row V.row s.at s.items s.lifetime };

    ghost also_shares = { λ s _ _. shown_lent T.row V.row s.at s.items s.lifetime };
}

/// What a value shows, for as long as it is borrowed itself.
fn ask<'l, V: Shows<T>, T>(value: &'l V) -> &'l [T]
    ensures { result.now ≡ V.shown value.now }
{
    value.show()
}

impl<V> SharedBorrow<V> {
    /// What the value shows that lies here: where its items begin, and that they are there for as
    /// long as the value is lent. The value is asked once.
    ///
    /// # Safety
    ///
    /// The value lies at this place: the borrow says so.
    pub(crate) unsafe fn show<T, H>(
        &self,
        place: *const V,
        by: &OwnerToken<H>,
    ) -> (*const T, Shown<T, V>)
    where
        V: Shows<T>,
        requires { (self.now.at ≡ place) × (by.now.held ≡ true) × (by.now.lease.is_lent ≡ true)
            × (by.now.lease.lifetime ≡ self.now.lifetime) }
        ensures { (result.1.items ≡ V.shown self.now.value) × (result.1.at ≡ result.0)
            × (result.1.lifetime ≡ self.now.lifetime) }
    {
        let items = ask(unsafe { &*place });
        (
            items.as_ptr(),
            Shown {
                marker: PhantomData,
            },
        )
    }
}

impl<T, V> Shown<T, V> {
    ghost use Rattle.arc_owners.specs.count.Calls.{lease_of};

    /// A copy of it, for the same items.
    #[inline(always)]
    pub fn again(&self) -> Shown<T, V>
        ensures { result ≡ self.now }
    {
        Shown {
            marker: PhantomData,
        }
    }

    /// The items before `end`. `base` is where they begin.
    #[inline(always)]
    fn prefix<'a, H>(&'a self, base: *const T, by: &'a OwnerToken<H>, end: usize) -> &'a [T]
        requires { (base ≡ self.now.at) × (by.now.held ≡ true) × (by.now.lease.is_lent ≡ true)
            × (by.now.lease.lifetime ≡ self.now.lifetime) × (end ≤ length self.now.items) }
        ensures { result.now ≡ take end self.now.items }
    {
        unsafe { slice::from_raw_parts(base, end) }
    }

    /// The items from `start` to before `end`, for as long as an owner is borrowed to whom the
    /// value is lent. `base` is where all begin. It reads no memory.
    #[inline(always)]
    pub fn range<'a, H: Mark>(
        &'a self,
        base: *const T,
        by: &'a Share<H>,
        start: usize,
        end: usize,
    ) -> &'a [T]
        requires place { base ≡ self.now.at }
        requires lent { self.now.lifetime ≡ (lease_of by.now).lifetime }
        requires range { (start ≤ end) × (end ≤ length self.now.items) }
        ensures { result.now ≡ drop start (take end self.now.items) }
    {
        &self.prefix(base, &by.right, end)[start..]
    }
}

unsafe impl<T: Sync, V> Send for Shown<T, V> {}

unsafe impl<T: Sync, V> Sync for Shown<T, V> {}
