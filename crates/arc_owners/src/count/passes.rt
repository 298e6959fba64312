//! Passes: of no block, new ones where the mark has many, and what one has seen.
ghost use Rattle.arc_owners.specs.history.Histories.{IsLegal};
ghost use Rattle.arc_owners.specs.count.Calls.{block_of, owner_of, sole_owner, pass_block};
ghost use Rattle.arc_owners.specs.count.Calls.{pass_number, seen, history_of, IsOfBlock, IsOwnerOf};
ghost use Rattle.arc_owners.specs.count.Calls.{IsPassOf, IsPassOfNone, IsNewPass, Learns};

use super::tokens::{Owners, Pass, Share, Sole};
use super::word::PassState;
use crate::mark::{Mark, Stepping};
use std::marker::PhantomData;

impl<H: Mark> Pass<H> {
    /// A pass of no block. It takes no memory.
    pub fn none() -> Pass<H>
        ensures { IsPassOfNone result }
    {
        Pass {
            trace: PassState::none(),
            mark: PhantomData,
        }
    }

    /// What a pass of a block has seen is legal. Does nothing: its contract is the law.
    pub fn attest(&self)
        ensures legal { IsOfBlock self.now
            → IsLegal (pass_block self.now).most (pass_block self.now).began (seen self.now) }
    {
        self.trace.attest();
    }

    /// Shows that a pass exists that has seen what this one has seen (`real`). A body that is
    /// generic in the mark can say so by no other call. The pass is used up, so no entry is added
    /// with it after that.
    pub fn show(self)
        ensures { IsOfBlock self
            → H.real (pass_block self) (pass_number self) (history_of self) }
    {
        H::show(self.trace);
    }

    /// From here on the pass has seen at least what another one of the same block had. It adds no
    /// entry and takes no memory.
    pub fn learn(&mut self, other: &Pass<H>)
        requires bound { IsOfBlock self.old }
        requires other { IsPassOf (pass_block self.old) other.now }
        ensures { Learns (pass_block self.old) self.old other.now self.new }
    {
        self.trace.learn(&other.trace);
    }
}

impl<H: Stepping> Share<H> {
    /// A new pass of the owner's block. It has seen at least the entry that made this owner, and
    /// nothing was made with it. It adds no entry and takes no memory.
    pub fn pass(&self) -> Pass<H>
        ensures { IsNewPass (owner_of self.now) result }
    {
        Pass {
            trace: H::fork(&self.right),
            mark: PhantomData,
        }
    }
}

impl<H: Stepping> Sole<H> {
    /// A new pass of the block. It has seen at least the entry that made this owner, and nothing
    /// was made with it. It adds no entry and takes no memory.
    pub fn pass(&self) -> Pass<H>
        ensures { IsNewPass (sole_owner self.now) result }
    {
        Pass {
            trace: H::fork(&self.right),
            mark: PhantomData,
        }
    }
}

impl<const MAX: u64, H: Stepping> Owners<MAX, H> {
    /// A new pass of the block. It has seen at least the entry that made this owner, and nothing
    /// was made with it. It adds no entry and takes no memory.
    pub fn pass(&self, by: &Share<H>) -> Pass<H>
        requires share { IsOwnerOf (block_of self.now) by.now }
        ensures { IsNewPass (owner_of by.now) result }
    {
        by.pass()
    }
}
