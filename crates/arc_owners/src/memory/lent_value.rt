//! Memory of one's own, lent to the owners of a block for as long as one of them lives.
ghost use Rattle.std.specs.Prelude.{◌≡◌};

use super::box_parts::BoxParts;
use super::inheritance::Inheritance;
use super::lent_box::LentBox;
use super::shared_borrow::SharedBorrow;
use super::shown::Shown;
use super::shows::Shows;
use crate::count::tokens::{LifetimeEnd, Share};
use crate::lifetime::EndedLifetime;
use crate::mark::Mark;
use std::alloc::Allocator;

/// What one owner has of a value in a box that is lent to the owners of a block: a pointer. One
/// that is dropped leaves the value lent; where all are dropped, it never comes back.
#[derive(Drop)]
pub struct LentValue<T, A: Allocator> {
    pub(crate) at: *mut T,
    pub(crate) borrow: SharedBorrow<T>,
    pub(crate) kept: Inheritance<T, A>,
    ghost place: { (borrow.at ≡ at) × (kept.at ≡ at) },
    ghost same: { kept.value ≡ borrow.value },
    ghost lifetime: { borrow.lifetime ≡ kept.lease.lifetime },
}

impl<T: Drop, A: Allocator> LentValue<T, A> {
    ghost use Rattle.std_alloc.specs.Box.{box_allocator};
    ghost use Rattle.arc_owners.specs.memory.LentValues.{lent_value, lent_allocator, IsSameLent};
    ghost use Rattle.arc_owners.specs.memory.LentValues.{IsLentTo, IsEndOf, lease_in};

    /// Lends what lies in a box for the lease of this owner, to all owners that have that lease.
    /// The box's allocator comes out. The end of a lease gives back one box: a second one that is
    /// lent for the same lease never comes back.
    pub fn lend<H: Mark>(memory: Box<T, A>, by: &Share<H>) -> (LentValue<T, A>, A)
        ensures value { lent_value result.0 ≡ memory.value }
        ensures lease { IsLentTo result.0 by.now }
        ensures allocator { (lent_allocator result.0 ≡ box_allocator memory)
            × (result.1 ≡ box_allocator memory) }
    {
        let (at, alloc, lent, kept) = LentBox::of(BoxParts::of(memory), &by.right);
        let borrow = lent.share(&by.right);
        (LentValue { at, borrow, kept }, alloc)
    }

    /// A copy of it, for another owner.
    pub fn again(&self) -> LentValue<T, A>
        ensures { IsSameLent self.now result }
    {
        LentValue {
            at: self.at,
            borrow: self.borrow.again(),
            kept: self.kept.again(),
        }
    }

    /// The value, for as long as an owner is borrowed to whom it is lent.
    pub fn get<'a, H: Mark>(&'a self, by: &'a Share<H>) -> &'a T
        requires { IsLentTo self.now by.now }
        ensures { result.now ≡ lent_value self.now }
    {
        unsafe { self.borrow.get(self.at, &by.right) }
    }

    /// Asks the value for its slice, once: where its items begin, and that they are there for as
    /// long as it is lent, whichever owner reads them.
    pub fn show<X, H: Mark>(&self, by: &Share<H>) -> (*const X, Shown<X, T>)
    where
        T: Shows<X>,
        requires { IsLentTo self.now by.now }
        ensures items { result.1.items ≡ T.shown (lent_value self.now) }
        ensures place { result.1.at ≡ result.0 }
        ensures lifetime { result.1.lifetime ≡ (lease_in self.now).lifetime }
    {
        unsafe { self.borrow.show(self.at, &by.right) }
    }

    /// The box, with its allocator, at the end of the lease.
    pub fn take_back(self, alloc: A, end: LifetimeEnd) -> Box<T, A>
        requires end { IsEndOf self end }
        requires allocator { alloc ≡ lent_allocator self }
        ensures { (result.value ≡ lent_value self) × (box_allocator result ≡ alloc) }
    {
        let (memory, ended) = self.take_back_with_end(alloc, end);
        ended.forget();
        memory
    }

    /// As `take_back`. It also gives the proof that the lifetime of the lease has ended, which
    /// gives back what else was lent for it.
    pub fn take_back_with_end(self, alloc: A, end: LifetimeEnd) -> (Box<T, A>, EndedLifetime)
        requires end { IsEndOf self end }
        requires allocator { alloc ≡ lent_allocator self }
        ensures memory { (result.0.value ≡ lent_value self) × (box_allocator result.0 ≡ alloc) }
        ensures ended { result.1.lifetime ≡ (lease_in self).lifetime }
    {
        let (memory, ended) = self.take_back_parts(alloc, end);
        (memory.into_box(), ended)
    }

    /// As `take_back_with_end`, with the box as its pointer and its allocator.
    pub(crate) fn take_back_parts(
        self,
        alloc: A,
        end: LifetimeEnd,
    ) -> (BoxParts<T, A>, EndedLifetime)
        requires end { IsEndOf self end }
        requires allocator { alloc ≡ lent_allocator self }
        ensures memory { (result.0.value ≡ lent_value self) × (result.0.alloc ≡ alloc)
            × (result.0.at ≡ self.at) }
        ensures ended { result.1.lifetime ≡ (lease_in self).lifetime }
    {
        let LentValue {
            at,
            borrow: _,
            kept,
        } = self;
        let mut spoils = end.spoils;
        unsafe { kept.take_by(at, alloc, &mut spoils) }
    }
}

unsafe impl<T: Send + Sync, A: Allocator + Send> Send for LentValue<T, A> {}

unsafe impl<T: Send + Sync, A: Allocator + Send> Sync for LentValue<T, A> {}
