//! What comes back at the end of a lease.
ghost use Rattle.std.specs.Prelude.{◌≡◌, true};
ghost use base.Fml.{finv};
ghost use denote.RawPtr.{Ptr, coded_ptr};
ghost use Rattle.std_alloc.specs.Box.Ownership.{box_owns};
ghost use Rattle.arc_owners.specs.count.Invariant.{Lease, lease_coded, kept_for};

use super::box_parts::BoxParts;
use crate::count::word::EndTokens;
use crate::lifetime::EndedLifetime;
use std::alloc::Allocator;
use std::marker::{Model, PhantomData};

/// That what a box owns comes back, at this place, to the owner that has the end of a lease. It has
/// no bytes, and can be had more than once.
pub struct Inheritance<T, A: Allocator> {
    pub(crate) marker: PhantomData<(T, A)>,
    pub ghost value: { T },
    pub ghost alloc: { A },
    pub ghost at: { Ptr } by { coded_ptr },
    pub ghost lease: { Lease } by { lease_coded },
}

impl<T, A: Allocator> Model for Inheritance<T, A> {
    ghost also_owns = { λ k. finv
        (kept_for (box_owns (A.dealloc_token k.alloc) T.row k.at k.value) k.lease) };

    ghost also_shares = { λ k _ κ. finv
        (kept_for (box_owns (A.dealloc_token k.alloc) T.row k.at k.value) k.lease) };
}

impl<T, A: Allocator> Inheritance<T, A> {
    /// A copy of it, for the same box.
    pub fn again(&self) -> Inheritance<T, A>
        ensures { (result.value ≡ self.now.value) × (result.alloc ≡ self.now.alloc)
            × (result.at ≡ self.now.at) × (result.lease ≡ self.now.lease) }
    {
        Inheritance {
            marker: PhantomData,
        }
    }

    /// What was kept, and that the lifetime of the lease has ended. What the end of the lease
    /// consists of is used up.
    ///
    /// # Safety
    ///
    /// It is kept at this place, with this allocator.
    pub(crate) unsafe fn take_by(
        &self,
        at: *mut T,
        alloc: A,
        spoils: &mut EndTokens,
    ) -> (BoxParts<T, A>, EndedLifetime)
        requires { (at ≡ self.now.at) × (alloc ≡ self.now.alloc) × (spoils.old.last ≡ true)
            × (spoils.old.lease ≡ self.now.lease) }
        ensures { (result.0.value ≡ self.now.value) × (result.0.at ≡ at)
            × (result.0.alloc ≡ alloc) × (result.1.lifetime ≡ self.now.lease.lifetime) }
    {
        (
            BoxParts { at, alloc },
            EndedLifetime {
                marker: PhantomData,
            },
        )
    }
}

impl<T, A: Allocator> Drop for Inheritance<T, A> {
    fn drop(self) {
        let Self { marker: _ } = self;
    }
}

unsafe impl<T: Send, A: Allocator + Send> Send for Inheritance<T, A> {}

unsafe impl<T: Send, A: Allocator + Send> Sync for Inheritance<T, A> {}
