//! The steps on a word by its place in a block's memory. The block may be gone before the call that
//! ends an owner returns.
ghost use Rattle.std.specs.Prelude.{◌≡◌, IfOk, IfErr, IfSome, IfNone, true, false, is_ok};
ghost use Rattle.arc_owners.specs.count.Calls.{owner_of, lease_of, sole_owner, IsOwnerOf, IsPassOf};
ghost use Rattle.arc_owners.specs.count.Calls.{Asks, MakesAnother, FindsFull, Leaves, IsTermOf};
ghost use Rattle.arc_owners.specs.count.Calls.{HasCountIn, seen};
ghost use Rattle.arc_owners.specs.count.Releases.{is_last, IfLast};
ghost use Rattle.arc_owners.specs.count.Steps.{IsLodged};

use super::counted::{released, try_up};
use super::sole::claimed;
use super::tokens::{LifetimeEnd, Owners, Pass, Release, Share, Sole};
use super::word::{EndTokens, Word, WordBorrow};
use crate::error::CountFull;
use crate::leave::RaiseLeave;
use crate::mark::Mark;

impl<const MAX: u64, H: Mark> Owners<MAX, H> {
    /// One attempt to make a new owner as `up_as` does, by the word's address. It answers `None`,
    /// and adds no entry, where another thread's step came between. The caller tries again then. It
    /// takes no memory.
    ///
    /// # Errors
    ///
    /// `CountFull` exactly where `MAX` owners live.
    ///
    /// # History
    ///
    /// Up, or on a lone word Promote. Full where it is refused. Where the pass didn't know of a
    /// count, a Joined may stand before.
    ///
    /// # Safety
    ///
    /// The word lies at this place for as long as the block is lent: the borrow says so.
    #[inline(always)]
    pub unsafe fn try_up_raw(
        leave: RaiseLeave,
        place: *const u64,
        lodging: &WordBorrow,
        by: &Share<H>,
        pass: &mut Pass<H>,
    ) -> Option<Result<Share<H>, CountFull>>
        requires most { lodging.now.block.most ≡ MAX }
        requires share { IsOwnerOf lodging.now.block by.now }
        requires pass { IsPassOf lodging.now.block pass.old }
        requires place { IsLodged lodging.now place (lease_of by.now) }
        ensures made { IfSome result (λ r. IfOk r (λ s.
            MakesAnother (owner_of by.now) pass.old pass.new (owner_of s))) }
        ensures lent { IfSome result (λ r. IfOk r (λ s. lease_of s ≡ lease_of by.now)) }
        ensures full { IfSome result (λ r.
            IfErr r (λ _. FindsFull (owner_of by.now) pass.old pass.new)) }
        ensures again { IfNone result (pass.new ≡ pass.old) }
    {
        let word = unsafe { lodging.word(place, &by.right) };
        try_up(word, leave, MAX, by, pass)
    }

    /// Whether the owner is alone, as `alone_as` answers, by the word's address. It takes no
    /// memory.
    ///
    /// # History
    ///
    /// Alone with the answer. On a lone word, where the answer is yes, nothing.
    ///
    /// # Safety
    ///
    /// The word lies at this place for as long as the block is lent: the borrow says so.
    #[inline(always)]
    pub unsafe fn alone_raw(
        place: *const u64,
        lodging: &WordBorrow,
        by: &Share<H>,
        pass: &mut Pass<H>,
    ) -> bool
        requires share { IsOwnerOf lodging.now.block by.now }
        requires pass { IsPassOf lodging.now.block pass.old }
        requires place { IsLodged lodging.now place (lease_of by.now) }
        ensures entry { Asks (owner_of by.now) pass.old pass.new result }
    {
        let word = unsafe { lodging.word(place, &by.right) };
        word.load(&by.right, &mut pass.trace) == 1
    }

    /// Ends an owner as `down_as` does, by the word's address. The word may be gone before the call
    /// returns. It takes no memory.
    ///
    /// # History
    ///
    /// Down.
    ///
    /// # Safety
    ///
    /// The word lies at this place for as long as the block is lent: the borrow says so.
    #[tactic(auto, using(crate::proofs::count::Calls::leaves_of))]
    #[inline(always)]
    pub unsafe fn down_raw(
        place: *const u64,
        lodging: &WordBorrow,
        share: Share<H>,
        pass: &mut Pass<H>,
    ) -> Release
        requires share { IsOwnerOf lodging.now.block share }
        requires pass { IsPassOf lodging.now.block pass.old }
        requires place { IsLodged lodging.now place (lease_of share) }
        ensures entry { Leaves (owner_of share) pass.old pass.new (is_last result) }
        ensures term { IfLast result (λ term. IsTermOf share term) }
    {
        let mut last = EndTokens::none();
        let mut right = share.right;
        let found = unsafe {
            Word::subtract_raw(place, lodging, &mut right, &mut pass.trace, &mut last)
        };
        released(found, last)
    }

    /// Takes the block back where the owner is alone, as `claim_as` does, by the word's address. It
    /// takes no memory.
    ///
    /// # Errors
    ///
    /// The owner comes back as it was where another one lives.
    ///
    /// # History
    ///
    /// Alone with the answer. On a lone word, where the answer is yes, nothing.
    ///
    /// # Safety
    ///
    /// The word lies at this place for as long as the block is lent: the borrow says so.
    #[tactic(auto, using(crate::proofs::count::Calls::asks_of))]
    #[inline(always)]
    pub unsafe fn claim_raw(
        place: *const u64,
        lodging: &WordBorrow,
        share: Share<H>,
        pass: &mut Pass<H>,
    ) -> Result<(Sole<H>, LifetimeEnd), Share<H>>
        requires share { IsOwnerOf lodging.now.block share }
        requires pass { IsPassOf lodging.now.block pass.old }
        requires place { IsLodged lodging.now place (lease_of share) }
        ensures entry { Asks (owner_of share) pass.old pass.new (is_ok result) }
        ensures alone { IfOk result (λ r. (sole_owner r.0 ≡ owner_of share) × IsTermOf share r.1) }
        ensures others { IfErr result (λ s. (owner_of s ≡ owner_of share)
            × (lease_of s ≡ lease_of share)) }
    {
        let mut last = EndTokens::none();
        let mut right = share.right;
        let found = unsafe {
            Word::claim_raw(place, lodging, &mut right, &mut pass.trace, &mut last)
        };
        claimed(found, right, last)
    }
}
