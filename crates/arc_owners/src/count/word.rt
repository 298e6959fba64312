//! The word of a count, and the ghost state behind it. The proofs of the steps are here; `Owners`
//! and its tokens only wrap them.
ghost use Rattle.std.specs.Prelude.{◌≡◌, ℕ, Bool, true, false, List};
ghost use base.Fml.{fsep, fex};
ghost use types.Logic.{sem};
ghost use denote.RawPtr.{Ptr, coded_ptr};
ghost use base.Stored.{coded_list};
ghost use Rattle.arc_owners.specs.declared.history.entry.Entry.TheVariants.{Alone};
ghost use Rattle.arc_owners.specs.count.Invariant.{BlockId, block_id_coded, Line, line_coded};
ghost use Rattle.arc_owners.specs.count.Invariant.{Lease, lease_coded, behind, word_shares};
ghost use Rattle.arc_owners.specs.count.Invariant.{right_owns, right_shares, trace_owns};
ghost use Rattle.arc_owners.specs.count.Invariant.{trace_shares, end_tokens, word_borrow};

use super::owner_without_lifetime::OwnerWithoutLifetime;
use crate::leave::RaiseLeave;
use crate::lifetime::LifetimeToken;
use crate::mark::Open;
use atomic_table::exchange;
use std::marker::{Brand, Model, Move, Owns, PhantomData};
use std::sync::atomic::Ordering::SeqCst;
use std::sync::atomic::raw;

/// A count, in one word. Contracts see which block it is of.
pub struct Word {
    bits: u64,
}

impl Owns for Word {
    ghost Value = { BlockId };

    ghost coded = { block_id_coded };

    ghost shr_at = { λ t p κ. word_shares t p κ };
}

impl Move for Word {
    ghost own_val = { λ t vs. fex ℕ (λ n.
        fsep (Fields.own_val (record { bits = n }) vs) (behind t n)) };
}

/// The right of one owner of a block under the mark `H`, where it is held. It has no bytes.
///
/// The mark is in its type. So a body that is generic in the mark can't ask for what one mark alone
/// allows: what such a body finds out at run time is no bound on a type.
pub struct OwnerToken<H> {
    pub(crate) marker: PhantomData<H>,
    pub(crate) ghost held: { Bool },
    pub(crate) ghost block: { BlockId } by { block_id_coded },
    pub(crate) ghost owner: { ℕ },
    pub(crate) ghost lease: { Lease } by { lease_coded },
    pub(crate) ghost born: { List Line } by { coded_list line_coded },
}

impl<H> Model for OwnerToken<H> {
    ghost also_owns = { λ r. right_owns r.held r.block r.owner r.lease r.born };

    ghost also_shares = { λ r _ κ. right_shares r.held r.block r.owner r.lease r.born κ };
}

/// What a caller has seen of a block's history, and the entries that it made, where it is of a
/// block. It has no bytes.
pub struct PassState {
    pub(crate) marker: PhantomData<()>,
    pub(crate) ghost bound: { Bool },
    pub(crate) ghost block: { BlockId } by { block_id_coded },
    pub(crate) ghost number: { ℕ },
    pub(crate) ghost ready: { Bool },
    pub(crate) ghost lines: { List Line } by { coded_list line_coded },
}

impl Model for PassState {
    ghost also_owns = { λ p. trace_owns p.bound p.block p.number p.ready p.lines };

    ghost also_shares = { λ p _ κ. trace_shares p.bound p.block p.lines };
}

/// That a count's word lies at a place for as long as its block is lent. It has no bytes, and can
/// be had more than once.
pub struct WordBorrow {
    pub(crate) marker: PhantomData<()>,
    pub ghost block: { BlockId } by { block_id_coded },
    pub ghost at: { Ptr } by { coded_ptr },
    pub ghost lifetime: { ℕ },
}

impl Model for WordBorrow {
    ghost also_owns = { λ l. word_borrow l.block l.at l.lifetime };

    ghost also_shares = { λ l _ κ. word_borrow l.block l.at l.lifetime };
}

/// What the end of an owner leaves: of the last owner, the right to end the lifetime for which the
/// block is lent.
pub struct EndTokens {
    marker: PhantomData<()>,
    pub(crate) ghost last: { Bool },
    pub(crate) ghost lease: { Lease } by { lease_coded },
}

impl Model for EndTokens {
    ghost also_owns = { λ s. end_tokens s.lease s.last };
}

impl Word {
    ghost use Rattle.std.specs.Prelude.{◌==◌};
    ghost use Rattle.arc_owners.specs.count.Steps.{IsHeld, IsOf, IsNext, IsOpened, SamePass, Wrote};
    ghost use Rattle.arc_owners.specs.count.Steps.{IsRightOf};
    ghost use Rattle.arc_owners.specs.count.Steps.{FullIf, RaisedIf, Ends, Claimed, IsLodged};
    ghost use Rattle.arc_owners.specs.history.Histories.{Counted};
    ghost use Rattle.std.specs.Prelude.{◌≢◌, ◌≤◌, []};

    /// The word of a new block, its one owner's right, and a pass. The block is lent to that owner,
    /// or not.
    pub(crate) fn open<H>(most: u64, whole: bool, lent: bool) -> (Word, OwnerToken<H>, PassState)
        requires { 2 ≤ most }
        ensures { IsOpened most Counted whole lent result.0 result.1 result.2 }
    {
        let _ = (most, whole, lent);
        (
            Word { bits: 1 },
            OwnerToken {
                marker: PhantomData,
            },
            PassState {
                marker: PhantomData,
            },
        )
    }

    /// Reads the number, which says whether the owner is alone.
    pub(crate) fn load<H>(&self, by: &OwnerToken<H>, pass: &mut PassState) -> u64
        requires { IsRightOf self.now by.now × IsOf self.now pass.old }
        ensures { SamePass self.now pass.old pass.new
            × Wrote self.now pass.old pass.new (Alone by.now.owner (result == 1)) }
    {
        unsafe { raw::load::<Brand>(self as *const Self as *const u64, SeqCst) }
    }

    /// Reads the number. Where it is the greatest, a Full is added.
    pub(crate) fn load_for_raise<H>(&self, by: &OwnerToken<H>, pass: &mut PassState) -> u64
        requires { IsHeld self.now by.now × IsOf self.now pass.old }
        ensures { SamePass self.now pass.old pass.new
            × FullIf self.now pass.old pass.new by.now (result == self.now.most) }
    {
        unsafe { raw::load::<Brand>(self as *const Self as *const u64, SeqCst) }
    }

    /// Puts `next` in the place of `old`, and makes a new owner, where the number is `old`. It
    /// answers the number that it finds. Only a caller with leave to raise a count can call it.
    #[inline(always)]
    pub(crate) fn raise<H>(
        &self,
        leave: RaiseLeave,
        by: &OwnerToken<H>,
        pass: &mut PassState,
        new: &mut OwnerToken<H>,
        old: u64,
        next: u64,
    ) -> u64
        requires { IsHeld self.now by.now × IsOf self.now pass.old × (old ≢ self.now.most)
            × IsNext self.now.most old next }
        ensures { SamePass self.now pass.old pass.new
            × RaisedIf self.now pass.old pass.new by.now new.new (result == old) }
    {
        let _ = leave;
        self.compare_exchange(by, pass, new, old, next)
    }

    /// The compare-exchange of `raise`, which asks for no leave. Only `raise` calls it.
    fn compare_exchange<H>(
        &self,
        by: &OwnerToken<H>,
        pass: &mut PassState,
        new: &mut OwnerToken<H>,
        old: u64,
        next: u64,
    ) -> u64
        requires { IsHeld self.now by.now × IsOf self.now pass.old × (old ≢ self.now.most)
            × IsNext self.now.most old next }
        ensures { SamePass self.now pass.old pass.new
            × RaisedIf self.now pass.old pass.new by.now new.new (result == old) }
    {
        unsafe { exchange::<Brand>(self as *const Self as *const u64, old, next) }
    }

    /// Takes one off the number, which ends this owner. It answers the number that it finds.
    pub(crate) fn subtract<H>(
        &self,
        own: &mut OwnerToken<H>,
        pass: &mut PassState,
        last: &mut EndTokens,
    ) -> u64
        requires { IsHeld self.now own.old × IsOf self.now pass.old }
        ensures { SamePass self.now pass.old pass.new
            × Ends self.now pass.old pass.new own.old.owner (result == 1) × (own.new.held ≡ false)
            × (last.new.last ≡ (result == 1)) × (last.new.lease ≡ own.old.lease) }
    {
        unsafe { raw::fetch_sub::<Brand>(self as *const Self as *const u64, 1, SeqCst) }
    }

    /// As `subtract`, by the address of a word that lies there for as long as the block is lent. It
    /// may be gone after the step.
    pub(crate) unsafe fn subtract_raw<H>(
        place: *const u64,
        lodging: &WordBorrow,
        own: &mut OwnerToken<H>,
        pass: &mut PassState,
        last: &mut EndTokens,
    ) -> u64
        requires { IsHeld lodging.now.block own.old × IsOf lodging.now.block pass.old
            × IsLodged lodging.now place own.old.lease }
        ensures { SamePass lodging.now.block pass.old pass.new
            × Ends lodging.now.block pass.old pass.new own.old.owner (result == 1)
            × (own.new.held ≡ false) × (last.new.last ≡ (result == 1))
            × (last.new.lease ≡ own.old.lease) }
    {
        unsafe { raw::fetch_sub::<Brand>(place, 1, SeqCst) }
    }

    /// Reads the number. An owner that finds itself alone takes the block back whole.
    pub(crate) fn claim<H>(
        &self,
        own: &mut OwnerToken<H>,
        pass: &mut PassState,
        last: &mut EndTokens,
    ) -> u64
        requires { IsHeld self.now own.old × IsOf self.now pass.old }
        ensures { SamePass self.now pass.old pass.new
            × Wrote self.now pass.old pass.new (Alone own.old.owner (result == 1))
            × Claimed self.now own.old own.new (result == 1) × (last.new.last ≡ (result == 1))
            × (last.new.lease ≡ own.old.lease) }
    {
        unsafe { raw::load::<Brand>(self as *const Self as *const u64, SeqCst) }
    }

    /// As `claim`, by the address of a word that lies there for as long as the block is lent.
    pub(crate) unsafe fn claim_raw<H>(
        place: *const u64,
        lodging: &WordBorrow,
        own: &mut OwnerToken<H>,
        pass: &mut PassState,
        last: &mut EndTokens,
    ) -> u64
        requires { IsHeld lodging.now.block own.old × IsOf lodging.now.block pass.old
            × IsLodged lodging.now place own.old.lease }
        ensures { SamePass lodging.now.block pass.old pass.new
            × Wrote lodging.now.block pass.old pass.new (Alone own.old.owner (result == 1))
            × Claimed lodging.now.block own.old own.new (result == 1)
            × (last.new.last ≡ (result == 1)) × (last.new.lease ≡ own.old.lease) }
    {
        unsafe { raw::load::<Brand>(place, SeqCst) }
    }
}

impl<H> OwnerToken<H> {
    ghost use mathlib.Core.List.{IsPrefix};
    ghost use Rattle.std.specs.Prelude.{[]};
    ghost use Rattle.arc_owners.specs.count.Invariant.{made_by};
    ghost use Rattle.arc_owners.specs.count.Steps.{IsSole, IsOf, SamePass, Ends, SeesSole};
    ghost use Rattle.arc_owners.specs.count.Steps.{IsWithoutLifetime};
    ghost use Rattle.arc_owners.specs.count.LentNotes.{LentNote, no_note};
    ghost use base.Fraction.{full_share};

    /// No right.
    pub(crate) fn none() -> OwnerToken<H>
        ensures { result.held ≡ false }
    {
        OwnerToken {
            marker: PhantomData,
        }
    }

    /// A sole owner who has the block back ends, without an atomic step.
    pub(crate) fn finish(&mut self, pass: &mut PassState)
        requires { IsSole self.old.block self.old × IsOf self.old.block pass.old }
        ensures { SamePass self.old.block pass.old pass.new
            × Ends self.old.block pass.old pass.new self.old.owner true × (self.new.held ≡ false) }
    {}

    /// Shows a pass the block's whole history, in which a sole owner who has the block back lives
    /// alone.
    pub(crate) fn only(&self, pass: &mut PassState)
        requires { IsSole self.now.block self.now × IsOf self.now.block pass.old }
        ensures { SeesSole self.now pass.old pass.new }
    {}

    /// A sole owner who has the block back lends it anew.
    pub(crate) fn lend(&mut self)
        requires { (self.old.held ≡ true) × (self.old.lease.is_lent ≡ false) }
        ensures { (self.new.held ≡ true) × (self.new.block ≡ self.old.block)
            × (self.new.owner ≡ self.old.owner) × (self.new.born ≡ self.old.born)
            × (self.new.lease.is_lent ≡ true) × (self.new.lease.note ≡ no_note) }
    {}

    /// A sole owner who has the block back lends it anew, for a lifetime that it has whole, and
    /// with a note of what else is lent for that.
    pub(crate) fn lend_for(&mut self, lifetime: LifetimeToken)
        ghost note: { LentNote }
        requires { (self.old.held ≡ true) × (self.old.lease.is_lent ≡ false)
            × (lifetime.share ≡ full_share) }
        ensures { (self.new.held ≡ true) × (self.new.block ≡ self.old.block)
            × (self.new.owner ≡ self.old.owner) × (self.new.born ≡ self.old.born)
            × (self.new.lease.is_lent ≡ true) × (self.new.lease.lifetime ≡ lifetime.lifetime)
            × (self.new.lease.note ≡ note) }
    {
        let LifetimeToken { marker: _ } = lifetime;
    }

    /// Two owners of one block have one lease.
    pub(crate) fn same_lease(&self, other: &OwnerToken<H>)
        requires { (self.now.held ≡ true) × (other.now.held ≡ true) }
        ensures { other.now.block ≡ self.now.block → other.now.lease ≡ self.now.lease }
    {
        let _ = other;
    }

    /// This owner is of another block than a sole owner who has its block back.
    pub(crate) fn lives_apart(&self, sole: &mut OwnerToken<H>)
        requires { (self.now.held ≡ true) × (sole.old.held ≡ true)
            × (sole.old.lease.is_lent ≡ false) }
        ensures { (sole.new ≡ sole.old) × (¬ (self.now.block ≡ sole.old.block)) }
    {}

    /// Its share of the lifetime.
    pub(crate) fn lifetime(&self) -> &LifetimeToken
        requires { (self.now.held ≡ true) × (self.now.lease.is_lent ≡ true) }
        ensures { result.now.lifetime ≡ self.now.lease.lifetime }
    {
        unsafe { &*(self as *const Self as *const LifetimeToken) }
    }

    /// The right without its share of the lifetime, and that share.
    pub(crate) fn take_lifetime(self) -> (OwnerWithoutLifetime<H>, LifetimeToken)
        requires { (self.held ≡ true) × (self.lease.is_lent ≡ true) }
        ensures owner { IsWithoutLifetime self result.0 }
        ensures lifetime { (result.1.lifetime ≡ self.lease.lifetime)
            × (result.1.share ≡ result.0.share) }
    {
        let OwnerToken { marker: _ } = self;
        (
            OwnerWithoutLifetime {
                marker: PhantomData,
            },
            LifetimeToken {
                marker: PhantomData,
            },
        )
    }
}

impl OwnerToken<Open> {
    ghost use mathlib.Core.List.{IsPrefix};
    ghost use Rattle.std.specs.Prelude.{[]};
    ghost use Rattle.arc_owners.specs.count.Invariant.{made_by};
    ghost use Rattle.arc_owners.specs.count.Steps.{IsFork};

    /// A new pass of this owner's block. Only a right under `Open` gives one. So a body that is
    /// generic in the mark has only the passes that it is given.
    pub(crate) fn fork(&self) -> PassState
        requires { (self.now.held ≡ true) × (self.now.block.whole ≡ false) }
        ensures { IsFork self.now result }
    {
        PassState {
            marker: PhantomData,
        }
    }
}

impl PassState {
    ghost use mathlib.Core.List.{IsPrefix};
    ghost use Rattle.arc_owners.specs.count.Invariant.{made_by, entries_of, told_of};
    ghost use Rattle.arc_owners.specs.history.Histories.{IsLegal};
    ghost use Rattle.arc_owners.specs.count.Steps.{SamePass};

    /// A pass of no block.
    pub(crate) fn none() -> PassState
        ensures { result.bound ≡ false }
    {
        PassState {
            marker: PhantomData,
        }
    }

    /// What the pass has seen is a beginning of the block's history, and legal.
    pub(crate) fn attest(&self)
        ensures* reached { sem 𝓛 (told_of self.now.bound self.now.block self.now.lines) }
        ensures legal { self.now.bound ≡ true
            → IsLegal self.now.block.most self.now.block.began (entries_of self.now.lines) }
    {}

    /// Afterwards it has seen what both had seen.
    pub(crate) fn learn(&mut self, other: &PassState)
        requires { (self.old.bound ≡ true) × (other.now.bound ≡ true)
            × (other.now.block ≡ self.old.block) }
        ensures { SamePass self.old.block self.old self.new × IsPrefix self.old.lines self.new.lines
            × IsPrefix other.now.lines self.new.lines
            × (made_by self.old.number self.new.lines ≡ made_by self.old.number self.old.lines) }
    {}
}

impl WordBorrow {
    /// The word, for as long as an owner is borrowed to whom the block is lent.
    ///
    /// # Safety
    ///
    /// The word lies at this place: the borrow says so.
    pub(crate) unsafe fn word<'a, H>(&'a self, place: *const u64, by: &'a OwnerToken<H>) -> &'a Word
        requires { (self.now.at ≡ place) × (by.now.held ≡ true) × (by.now.lease.is_lent ≡ true)
            × (by.now.lease.lifetime ≡ self.now.lifetime) }
        ensures { result.now ≡ self.now.block }
    {
        unsafe { &*(place as *const Word) }
    }

    /// A copy of it, for the same word.
    pub fn again(&self) -> WordBorrow
        ensures { (result.block ≡ self.now.block) × (result.at ≡ self.now.at)
            × (result.lifetime ≡ self.now.lifetime) }
    {
        WordBorrow {
            marker: PhantomData,
        }
    }
}

impl EndTokens {
    /// No right to end a lifetime.
    pub(crate) fn none() -> EndTokens
        ensures { result.last ≡ false }
    {
        EndTokens {
            marker: PhantomData,
        }
    }
}

impl Drop for Word {
    fn drop(self) {
        let Self { bits: _ } = self;
    }
}

impl<H> Drop for OwnerToken<H> {
    fn drop(self) {
        let Self { marker: _ } = self;
    }
}

impl Drop for PassState {
    fn drop(self) {
        let Self { marker: _ } = self;
    }
}

impl Drop for WordBorrow {
    fn drop(self) {
        let Self { marker: _ } = self;
    }
}

impl Drop for EndTokens {
    fn drop(self) {
        let Self { marker: _ } = self;
    }
}

unsafe impl Send for Word {}

unsafe impl Sync for Word {}

unsafe impl<H> Send for OwnerToken<H> {}

unsafe impl<H> Sync for OwnerToken<H> {}

unsafe impl Send for PassState {}

unsafe impl Sync for PassState {}

unsafe impl Send for WordBorrow {}

unsafe impl Sync for WordBorrow {}

unsafe impl Send for EndTokens {}
