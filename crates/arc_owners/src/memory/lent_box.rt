//! What a box owns, lent for as long as a block is lent to its owners.
ghost use Rattle.std.specs.Prelude.{◌≡◌, ℕ, true, [], ◌∷◌};
ghost use base.Fml.{fbor};
ghost use denote.RawPtr.{Ptr, coded_ptr, InBlock};
ghost use Rattle.std_alloc.specs.Box.Ownership.{box_owns};

use super::box_parts::BoxParts;
use super::inheritance::Inheritance;
use super::shared_borrow::SharedBorrow;
use crate::count::word::OwnerToken;
use std::alloc::Allocator;
use std::marker::{Model, PhantomData};

/// A borrow of what a box owns, for the lifetime of a lease. It has no bytes, and there is one: it
/// is cut into the parts that the owners read.
pub(crate) struct LentBox<T, A: Allocator> {
    pub(crate) marker: PhantomData<(T, A)>,
    pub(crate) ghost value: { T },
    pub(crate) ghost alloc: { A },
    pub(crate) ghost at: { Ptr } by { coded_ptr },
    pub(crate) ghost lifetime: { ℕ },
}

impl<T, A: Allocator> Model for LentBox<T, A> {
    ghost also_owns = { λ l. fbor (l.lifetime ∷ [])
        (box_owns (A.dealloc_token l.alloc) T.row l.at l.value) };
}

impl<T, A: Allocator> LentBox<T, A> {
    /// A box, lent for the lifetime of this owner's lease: its place and its allocator, what is
    /// lent, and that it comes back.
    pub(crate) fn of<H>(
        bare: BoxParts<T, A>,
        by: &OwnerToken<H>,
    ) -> (*mut T, A, LentBox<T, A>, Inheritance<T, A>)
        ensures { (result.0 ≡ bare.at) × InBlock result.0 × (result.1 ≡ bare.alloc)
            × (result.2.value ≡ bare.value) × (result.2.alloc ≡ bare.alloc)
            × (result.2.at ≡ bare.at) × (result.2.lifetime ≡ by.now.lease.lifetime)
            × (result.3.value ≡ bare.value) × (result.3.alloc ≡ bare.alloc)
            × (result.3.at ≡ bare.at) × (result.3.lease ≡ by.now.lease) }
    {
        let BoxParts { at, alloc } = bare;
        let lent = LentBox {
            marker: PhantomData,
        };
        let kept = Inheritance {
            marker: PhantomData,
        };
        (at, alloc, lent, kept)
    }

    /// All of it, for the owners to read.
    pub(crate) fn share<H>(self, by: &OwnerToken<H>) -> SharedBorrow<T>
        requires { (by.now.held ≡ true) × (by.now.lease.is_lent ≡ true)
            × (by.now.lease.lifetime ≡ self.lifetime) }
        ensures { (result.value ≡ self.value) × (result.at ≡ self.at)
            × (result.lifetime ≡ self.lifetime) }
    {
        let LentBox { marker: _ } = self;
        SharedBorrow {
            marker: PhantomData,
        }
    }
}
