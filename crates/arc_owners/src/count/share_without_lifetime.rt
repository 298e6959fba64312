//! An owner whose share of the lifetime is elsewhere. A writer takes the share out to use it by
//! value, when it opens a part of the memory that is lent for the lease, and then puts it back.
ghost use Rattle.std.specs.Prelude.{◌≡◌, true};

use super::owner_without_lifetime::OwnerWithoutLifetime;
use super::tokens::{Pass, Share};
use crate::lifetime::LifetimeToken;
use crate::mark::{Mark, Open, Stepping};
use std::marker::PhantomData;

/// One owner of a block, without its share of the lifetime for which the block is lent. It makes no
/// step until the share is back: it makes no other owner, doesn't ask, and doesn't end. It has no
/// bytes. It is neither copied nor dropped, so no owner is lost meanwhile.
pub struct ShareWithoutLifetime<H: Mark = Open> {
    pub(crate) right: OwnerWithoutLifetime<H>,
    pub(crate) mark: PhantomData<H>,
    ghost lent: { right.lease.is_lent ≡ true },
    ghost marked: { right.block.whole ≡ H.whole },
}

impl<H: Mark> Share<H> {
    ghost use Rattle.arc_owners.specs.count.Calls.{owner_of, lease_of, IsOwnerOf};
    ghost use Rattle.arc_owners.specs.count.Lifetimes.{owner_of_rest, lease_of_rest, share_taken};

    /// Two owners of one block have one lease: the block is lent to both for one lifetime, and both
    /// have the same note of what else is lent for that. It adds no entry and takes no memory.
    pub fn same_lease(&self, other: &Share<H>)
        requires { IsOwnerOf (owner_of self.now).block other.now }
        ensures { lease_of other.now ≡ lease_of self.now }
    {
        self.right.same_lease(&other.right);
    }

    /// The owner's share of the lifetime for which the block is lent. With it the owner reads and
    /// freezes what else is lent for that. It reads no memory.
    #[inline(always)]
    pub fn lifetime(&self) -> &LifetimeToken
        ensures { result.now.lifetime ≡ (lease_of self.now).lifetime }
    {
        self.right.lifetime()
    }

    /// The owner without its share of the lifetime, and that share. It takes no memory.
    pub fn take_lifetime(self) -> (ShareWithoutLifetime<H>, LifetimeToken)
        ensures owner { (owner_of_rest result.0 ≡ owner_of self)
            × (lease_of_rest result.0 ≡ lease_of self) }
        ensures lifetime { (result.1.lifetime ≡ (lease_of self).lifetime)
            × (result.1.share ≡ share_taken result.0) }
    {
        let (right, lifetime) = self.right.take_lifetime();
        let share = ShareWithoutLifetime {
            right,
            mark: PhantomData,
        };
        (share, lifetime)
    }
}

impl<H: Mark> ShareWithoutLifetime<H> {
    ghost use Rattle.arc_owners.specs.count.Calls.{owner_of, lease_of};
    ghost use Rattle.arc_owners.specs.count.Lifetimes.{owner_of_rest, lease_of_rest, share_taken};

    /// The owner, with its share of the lifetime again. It takes no memory.
    pub fn with_lifetime(self, lifetime: LifetimeToken) -> Share<H>
        requires { (lifetime.lifetime ≡ (lease_of_rest self).lifetime)
            × (lifetime.share ≡ share_taken self) }
        ensures { (owner_of result ≡ owner_of_rest self) × (lease_of result ≡ lease_of_rest self) }
    {
        let ShareWithoutLifetime { right, mark } = self;
        Share {
            right: right.with_lifetime(lifetime),
            mark,
        }
    }
}

impl<H: Stepping> ShareWithoutLifetime<H> {
    ghost use Rattle.arc_owners.specs.count.Calls.{IsNewPass};
    ghost use Rattle.arc_owners.specs.count.Lifetimes.{owner_of_rest};

    /// A new pass of the owner's block. It has seen at least the entry that made this owner, and
    /// nothing was made with it. It adds no entry and takes no memory.
    pub fn pass(&self) -> Pass<H>
        ensures { IsNewPass (owner_of_rest self.now) result }
    {
        Pass {
            trace: H::fork_without(&self.right),
            mark: PhantomData,
        }
    }
}
