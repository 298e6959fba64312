//! Sole owners: one owner has a block to itself, lends it, or ends it without an atomic step.
ghost use Rattle.std.specs.Prelude.{◌≡◌, ◌≢◌, ◌≤◌, ◌==◌, true, false, IfOk, IfErr, is_ok};
ghost use Rattle.arc_owners.specs.history.Histories.{Counted, IsAlone};
ghost use Rattle.arc_owners.specs.count.Calls.{block_of, owner_of, sole_owner, lease_of, seen};
ghost use Rattle.arc_owners.specs.count.Calls.{IsOwnerOf, IsPassOf, IsFirst, IsFreshPass};
ghost use Rattle.arc_owners.specs.count.Calls.{SeesAlone, Asks, Leaves, IsTermOf, EndsInOneStep};
ghost use Rattle.arc_owners.specs.count.Calls.{EndsWithoutStep, history_of};
ghost use Rattle.arc_owners.specs.count.LentNotes.{LentNote, no_note};
ghost use base.Fraction.{full_share};

use super::tokens::{LifetimeEnd, Owners, Pass, Share, Sole};
use super::word::{EndTokens, OwnerToken};
use crate::lifetime::LifetimeToken;
use crate::mark::{Internal, Mark};
use std::marker::PhantomData;

/// What an owner has that asked for the block back, where the word held this number.
pub(crate) fn claimed<H: Mark>(
    found: u64,
    right: OwnerToken<H>,
    last: EndTokens,
) -> Result<(Sole<H>, LifetimeEnd), Share<H>>
    requires right { (right.held ≡ true) × (right.block.whole ≡ H.whole) }
    requires alone { found ≡ 1 → (right.lease.is_lent ≡ false) × (last.last ≡ true) }
    requires others { found ≢ 1 → right.lease.is_lent ≡ true }
    ensures found { is_ok result ≡ (found == 1) }
    ensures alone { IfOk result (λ r. (found ≡ 1) × (r.0.right ≡ right) × (r.1.spoils ≡ last)) }
    ensures others { IfErr result (λ s. (found ≢ 1) × (s.right ≡ right)) }
{
    if found == 1 {
        Ok((
            Sole {
                right,
                mark: PhantomData,
            },
            LifetimeEnd { spoils: last },
        ))
    } else {
        Err(Share {
            right,
            mark: PhantomData,
        })
    }
}

impl<const MAX: u64, H: Mark> Owners<MAX, H> {
    /// The count of a new block, which is 1. The one owner is number 0 and has the block whole, and
    /// the pass has seen nothing.
    ///
    /// `MAX`, at least 2, is how many owners may live at once. It takes no memory.
    pub fn new_sole() -> (Owners<MAX, H>, Sole<H>, Pass<H>)
        requires { 2 ≤ MAX }
        ensures sole { (sole_owner result.1).block ≡ block_of result.0 }
        ensures first { IsFirst MAX H.whole Counted (sole_owner result.1) }
        ensures pass { IsFreshPass (sole_owner result.1) result.2 }
        ensures alone { IsAlone MAX (sole_owner result.1).number (seen result.2) }
    {
        let (word, right, trace) = H::open(Internal, MAX, false);
        (
            Owners {
                word,
                mark: PhantomData,
            },
            Sole {
                right,
                mark: PhantomData,
            },
            Pass {
                trace,
                mark: PhantomData,
            },
        )
    }

    /// Takes the block back where the owner is alone, at the point of the one load that this takes.
    /// The owner then has the block to itself, and gets the right to end the lifetime of its lease.
    /// It takes no memory.
    ///
    /// # Errors
    ///
    /// The owner comes back as it was where another one lives.
    ///
    /// # History
    ///
    /// Alone with the answer. On a lone word, where the answer is yes, nothing.
    #[tactic(auto, using(crate::proofs::count::Calls::asks_of))]
    pub fn claim_as(
        &self,
        share: Share<H>,
        pass: &mut Pass<H>,
    ) -> Result<(Sole<H>, LifetimeEnd), Share<H>>
        requires share { IsOwnerOf (block_of self.now) share }
        requires pass { IsPassOf (block_of self.now) pass.old }
        ensures entry { Asks (owner_of share) pass.old pass.new (is_ok result) }
        ensures alone { IfOk result (λ r. (sole_owner r.0 ≡ owner_of share) × IsTermOf share r.1) }
        ensures others { IfErr result (λ s. (owner_of s ≡ owner_of share)
            × (lease_of s ≡ lease_of share)) }
        ensures step { EndsInOneStep (block_of self.now) (history_of pass.new) }
    {
        let mut last = EndTokens::none();
        let mut right = share.right;
        let found = self.word.claim(&mut right, &mut pass.trace, &mut last);
        claimed(found, right, last)
    }
}

impl<H: Mark> Sole<H> {
    /// Shows a pass the block's whole history up to here, in which no other owner lives. It adds no
    /// entry and takes no memory.
    #[tactic(auto, using(crate::proofs::count::Calls::sees_alone))]
    pub fn only(&self, pass: &mut Pass<H>)
        requires pass { IsPassOf (sole_owner self.now).block pass.old }
        ensures { SeesAlone (sole_owner self.now) pass.old pass.new }
    {
        self.right.only(&mut pass.trace);
    }

    /// Lends the block anew, under the same history: the same owner, for a new lifetime, for which
    /// nothing else is lent. It adds no entry and takes no memory.
    pub fn lend(self) -> Share<H>
        ensures same { owner_of result ≡ sole_owner self }
        ensures noted { (lease_of result).note ≡ no_note }
    {
        let mut right = self.right;
        right.lend();
        Share {
            right,
            mark: PhantomData,
        }
    }

    /// Lends the block for a lifetime that the owner has whole. All owners of the block have a note
    /// of what else is lent for it. It adds no entry and takes no memory.
    pub fn lend_for(self, lifetime: LifetimeToken) -> Share<H>
        ghost note: { LentNote }
        requires { lifetime.share ≡ full_share }
        ensures same { owner_of result ≡ sole_owner self }
        ensures lifetime { (lease_of result).lifetime ≡ lifetime.lifetime }
        ensures noted { (lease_of result).note ≡ note }
    {
        let mut right = self.right;
        right.lend_for(lifetime);
        Share {
            right,
            mark: PhantomData,
        }
    }

    /// Ends this owner, the last one, without an atomic step: the word stays as it is. It takes no
    /// memory.
    ///
    /// # History
    ///
    /// Down.
    #[tactic(auto, using(crate::proofs::count::Calls::leaves_of, crate::proofs::count::Calls::ended_without))]
    pub fn end_as(self, pass: &mut Pass<H>)
        requires pass { IsPassOf (sole_owner self).block pass.old }
        ensures entry { Leaves (sole_owner self) pass.old pass.new true }
        ensures step { EndsWithoutStep (sole_owner self).block (history_of pass.new) }
    {
        let mut right = self.right;
        right.finish(&mut pass.trace);
    }
}
