//! The calls on a count of owners.
ghost use Rattle.std.specs.Prelude.{◌≡◌, ◌≢◌, ◌≤◌, ◌==◌, true, false, [], IfSome, IfNone, IfOk};
ghost use Rattle.std.specs.Prelude.{IfErr};
ghost use mathlib.Core.List.{IsPrefix};
ghost use Rattle.arc_owners.specs.history.Histories.{Counted};
ghost use Rattle.arc_owners.specs.count.Calls.{block_of, owner_of, lease_of, IsFirst, IsFreshPass};
ghost use Rattle.arc_owners.specs.count.Calls.{IsOwnerOf, IsPassOf, IsPassOfNone, IsSamePass};
ghost use Rattle.arc_owners.specs.count.Calls.{IsNewPass, Learns, Asks, MakesAnother, FindsFull};
ghost use Rattle.arc_owners.specs.count.Calls.{Leaves, IsTermOf, HasCountIn, EndsInOneStep};
ghost use Rattle.arc_owners.specs.count.Calls.{history_of, seen};
ghost use Rattle.arc_owners.specs.count.Releases.{is_last, IfLast};

use super::tokens::{LifetimeEnd, Owners, Pass, Release, Share, Sole};
use super::word::{EndTokens, OwnerToken, Word};
use crate::error::CountFull;
use crate::leave::RaiseLeave;
use crate::mark::{Internal, Mark};
use std::marker::PhantomData;
use std::sync::Wait;

/// One attempt to raise a count: `None` where the number changes between its two steps, and then no
/// entry is added. Else it adds what `try_up_raw` names.
#[inline(always)]
pub(crate) fn try_up<H: Mark>(
    word: &Word,
    leave: RaiseLeave,
    most: u64,
    by: &Share<H>,
    pass: &mut Pass<H>,
) -> Option<Result<Share<H>, CountFull>>
    requires most { word.now.most ≡ most }
    requires share { IsOwnerOf word.now by.now }
    requires pass { IsPassOf word.now pass.old }
    ensures made { IfSome result (λ r.
        IfOk r (λ s. MakesAnother (owner_of by.now) pass.old pass.new (owner_of s))) }
    ensures lent { IfSome result (λ r. IfOk r (λ s. lease_of s ≡ lease_of by.now)) }
    ensures full { IfSome result (λ r.
        IfErr r (λ _. FindsFull (owner_of by.now) pass.old pass.new)) }
    ensures step { IfSome result (λ _. EndsInOneStep word.now (history_of pass.new)) }
    ensures again { IfNone result (pass.new ≡ pass.old) }
{
    let old = word.load_for_raise(&by.right, &mut pass.trace);
    if old == most {
        return Some(Err(CountFull));
    }
    let mut new = OwnerToken::none();
    let next = old.wrapping_add(1);
    let found = word.raise(leave, &by.right, &mut pass.trace, &mut new, old, next);
    if found != old {
        return None;
    }
    Some(Ok(Share {
        right: new,
        mark: PhantomData,
    }))
}

/// A new owner by as many attempts as that takes.
pub(crate) fn up<H: Mark>(
    word: &Word,
    rt: &impl Wait,
    most: u64,
    by: &Share<H>,
    pass: &mut Pass<H>,
) -> Result<Share<H>, CountFull>
    requires most { word.now.most ≡ most }
    requires share { IsOwnerOf word.now by.now }
    requires pass { IsPassOf word.now pass.old }
    ensures made { IfOk result (λ s.
        MakesAnother (owner_of by.now) pass.old pass.new (owner_of s)) }
    ensures lent { IfOk result (λ s. lease_of s ≡ lease_of by.now) }
    ensures full { IfErr result (λ _. FindsFull (owner_of by.now) pass.old pass.new) }
{
    let leave = RaiseLeave::of(rt);
    for _ in rt.forever() {
        if let Some(made) = try_up(word, leave, most, by, pass) {
            return made;
        }
    }
    unreachable!()
}

/// What is left by the end of an owner that found this number.
#[inline(always)]
pub(crate) fn released(found: u64, last: EndTokens) -> Release
    requires { last.last ≡ (found == 1) }
    ensures last { is_last result ≡ (found == 1) }
    ensures term { IfLast result (λ term. term.spoils ≡ last) }
{
    if found == 1 {
        Release::Last(LifetimeEnd { spoils: last })
    } else {
        Release::NotLast
    }
}

impl<const MAX: u64, H: Mark> Owners<MAX, H> {
    /// The count of a new block, which is 1. The one owner is number 0, and the pass has seen
    /// nothing.
    ///
    /// `MAX`, at least 2, is how many owners may live at once. It takes no memory.
    #[tactic(auto, using(crate::proofs::count::Calls::first_of))]
    pub fn new() -> (Owners<MAX, H>, Share<H>, Pass<H>)
        requires { 2 ≤ MAX }
        ensures share { IsOwnerOf (block_of result.0) result.1 }
        ensures first { IsFirst MAX H.whole Counted (owner_of result.1) }
        ensures counted { HasCountIn (block_of result.0) [] }
        ensures pass { IsFreshPass (owner_of result.1) result.2 }
    {
        let (word, right, trace) = H::open(Internal, MAX, true);
        (
            Owners {
                word,
                mark: PhantomData,
            },
            Share {
                right,
                mark: PhantomData,
            },
            Pass {
                trace,
                mark: PhantomData,
            },
        )
    }

    /// Whether the owner is alone, at the point of the one load that this takes. It takes no
    /// memory.
    ///
    /// Another thread may raise the count through the same owner right after. Whoever wants the
    /// block back calls `claim_as`.
    ///
    /// # History
    ///
    /// Alone with the answer. On a lone word, where the answer is yes, nothing.
    #[tactic(auto, using(crate::proofs::count::Calls::asks_at))]
    pub fn alone_as(&self, by: &Share<H>, pass: &mut Pass<H>) -> bool
        requires share { IsOwnerOf (block_of self.now) by.now }
        requires pass { IsPassOf (block_of self.now) pass.old }
        ensures entry { Asks (owner_of by.now) pass.old pass.new result }
        ensures step { EndsInOneStep (block_of self.now) (history_of pass.new) }
    {
        self.word.load(&by.right, &mut pass.trace) == 1
    }

    /// A new owner of the same block. It takes no memory.
    ///
    /// It takes `rt` since a raise that another thread disturbs is tried again. On a word that
    /// began lone, the pass has to have seen the Promote.
    ///
    /// # Errors
    ///
    /// `CountFull` exactly where `MAX` owners live.
    ///
    /// # History
    ///
    /// Up, or Full where it is refused.
    pub fn up_as(
        &self,
        rt: &impl Wait,
        by: &Share<H>,
        pass: &mut Pass<H>,
    ) -> Result<Share<H>, CountFull>
        requires share { IsOwnerOf (block_of self.now) by.now }
        requires pass { IsPassOf (block_of self.now) pass.old }
        requires counted { HasCountIn (block_of self.now) (seen pass.old) }
        ensures made { IfOk result (λ s.
            MakesAnother (owner_of by.now) pass.old pass.new (owner_of s)) }
        ensures lent { IfOk result (λ s. lease_of s ≡ lease_of by.now) }
        ensures full { IfErr result (λ _. FindsFull (owner_of by.now) pass.old pass.new) }
        ensures step { EndsInOneStep (block_of self.now) (history_of pass.new) }
    {
        let leave = RaiseLeave::of(rt);
        for _ in rt.forever() {
            if let Some(made) = try_up(&self.word, leave, MAX, by, pass) {
                return made;
            }
        }
        unreachable!()
    }

    /// Ends an owner by one subtraction from the count, which is not tried again, and says whether
    /// that was the last owner. It takes no memory.
    ///
    /// The last one gets the right to end the lifetime for which the block was lent to the owners.
    ///
    /// # History
    ///
    /// Down.
    #[tactic(auto, using(crate::proofs::count::Calls::leaves_of))]
    pub fn down_as(&self, share: Share<H>, pass: &mut Pass<H>) -> Release
        requires share { IsOwnerOf (block_of self.now) share }
        requires pass { IsPassOf (block_of self.now) pass.old }
        ensures entry { Leaves (owner_of share) pass.old pass.new (is_last result) }
        ensures term { IfLast result (λ term. IsTermOf share term) }
        ensures step { EndsInOneStep (block_of self.now) (history_of pass.new) }
    {
        let mut last = EndTokens::none();
        let mut right = share.right;
        let found = self.word.subtract(&mut right, &mut pass.trace, &mut last);
        released(found, last)
    }

    /// From here on the first pass has seen at least what the other had. It adds no entry and takes
    /// no memory.
    pub fn learn(&self, pass: &mut Pass<H>, other: &Pass<H>)
        requires pass { IsPassOf (block_of self.now) pass.old }
        requires other { IsPassOf (block_of self.now) other.now }
        ensures { Learns (block_of self.now) pass.old other.now pass.new }
    {
        pass.learn(other);
    }
}
