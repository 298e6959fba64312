//! An owner's right, while its share of the lifetime is elsewhere.
ghost use Rattle.std.specs.Prelude.{◌≡◌, ℕ, true, List};
ghost use base.Fml.{Share};
ghost use base.SetCodes.{coded_share};
ghost use base.Stored.{coded_list};
ghost use Rattle.arc_owners.specs.count.Invariant.{BlockId, block_id_coded, Line, line_coded};
ghost use Rattle.arc_owners.specs.count.Invariant.{Lease, lease_coded};
ghost use Rattle.arc_owners.specs.count.Invariant.{right_without, right_shown};

use super::word::{OwnerToken, PassState};
use crate::lifetime::LifetimeToken;
use crate::mark::Open;
use std::marker::{Model, PhantomData};

/// The right of an owner to whom a block is lent, without its share of the lifetime for which that
/// is lent. No step can be made with it, but it gives a new pass. It has no bytes, and is neither
/// copied nor dropped.
pub struct OwnerWithoutLifetime<H> {
    pub(crate) marker: PhantomData<H>,
    pub(crate) ghost block: { BlockId } by { block_id_coded },
    pub(crate) ghost owner: { ℕ },
    pub(crate) ghost lease: { Lease } by { lease_coded },
    pub(crate) ghost born: { List Line } by { coded_list line_coded },
    pub(crate) ghost share: { Share } by { coded_share },
}

impl<H> Model for OwnerWithoutLifetime<H> {
    ghost also_owns = { λ r. right_without r.block r.owner r.lease r.born r.share };

    ghost also_shares = { λ r _ κ. right_shown r.block r.owner r.lease r.born κ };
}

impl<H> OwnerWithoutLifetime<H> {
    ghost use Rattle.arc_owners.specs.count.Steps.{IsWithoutLifetime};

    /// The right, with its share of the lifetime again.
    pub(crate) fn with_lifetime(self, lifetime: LifetimeToken) -> OwnerToken<H>
        requires lent { self.lease.is_lent ≡ true }
        requires lifetime { (lifetime.lifetime ≡ self.lease.lifetime)
            × (lifetime.share ≡ self.share) }
        ensures { (result.held ≡ true) × IsWithoutLifetime result self }
    {
        let OwnerWithoutLifetime { marker: _ } = self;
        let LifetimeToken { marker: _ } = lifetime;
        OwnerToken {
            marker: PhantomData,
        }
    }

    /// Two owners of one block have one lease.
    pub(crate) fn same_lease(&self, other: &OwnerToken<H>)
        requires { other.now.held ≡ true }
        ensures { other.now.block ≡ self.now.block → other.now.lease ≡ self.now.lease }
    {
        let _ = other;
    }
}

impl OwnerWithoutLifetime<Open> {
    ghost use Rattle.std.specs.Prelude.{false};
    ghost use Rattle.arc_owners.specs.count.Steps.{IsForkOf};

    /// A new pass of this owner's block. Only a right under `Open` gives one, as that of an owner
    /// that has its share does.
    pub(crate) fn fork(&self) -> PassState
        requires { self.now.block.whole ≡ false }
        ensures { IsForkOf self.now.block self.now.born result }
    {
        PassState {
            marker: PhantomData,
        }
    }
}

unsafe impl<H> Send for OwnerWithoutLifetime<H> {}

unsafe impl<H> Sync for OwnerWithoutLifetime<H> {}
