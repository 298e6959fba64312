//! Marks: how many passes a window's block has.
//!
//! What differs between the marks is in methods of their own. So a body that is generic in the mark
//! is the same under both.
ghost use Rattle.std.specs.Prelude.{◌≡◌, ◌≤◌, ℕ, Bool, true, false, List, refl};
ghost use Rattle.arc_owners.specs.history.Histories.{Counted};
ghost use Rattle.arc_owners.specs.count.Invariant.{BlockId, Line};
ghost use Rattle.arc_owners.specs.count.Steps.{IsHeld, IsSole, IsOf, IsLodged, IsOpened};
ghost use Rattle.arc_owners.specs.count.Steps.{EndsWithNew, IsFork, IsForkOf};

use crate::count::owner_without_lifetime::OwnerWithoutLifetime;
use crate::count::word::{EndTokens, OwnerToken, PassState, Word, WordBorrow};

mod sealed {
    /// A trait that no other crate can implement.
    pub trait Sealed {}

    /// A value that no other crate can name or make: a call that takes one belongs to this crate.
    pub struct Internal;
}

pub(crate) use sealed::Internal;

/// A mark of windows and of what they stand on: `Open` or `Whole`.
pub trait Mark: sealed::Sealed {
    // Whether a block has one pass, which has seen its whole history.
    ghost whole: { Bool };

    // A pass of this block, with this number, has seen these lines. That holds under both marks.
    // But a body that is generic in the mark gets it only from `show`, which takes a pass.
    ghost real: { BlockId → ℕ → List Line → Type 0 };

    /// The word of a new block, its first owner's right and the first pass. The block is lent to
    /// that owner, or not. Only this crate can call it, so only its counts have tokens of a mark.
    fn open(by: Internal, most: u64, lent: bool) -> (Word, OwnerToken<Self>, PassState)
        requires { 2 ≤ most }
        ensures { IsOpened most Counted Self.whole lent result.0 result.1 result.2 };

    /// Shows that a pass exists that has seen what this one has seen. The pass is used up, so no
    /// entry is added with it after that.
    fn show(pass: PassState)
        ensures { pass.bound ≡ true → Self.real pass.block pass.number pass.lines };

    /// What becomes of an owner that is dropped. Under `Open` it ends with a new pass. Under
    /// `Whole` it is forgotten, and the pass is one of no block. The answer is whether the owner
    /// ended as the last one, what its end leaves, and the pass.
    ///
    /// # History
    ///
    /// Under `Open`: Down. Under `Whole`: nothing.
    ///
    /// # Safety
    ///
    /// The word lies at this place for as long as the block is lent: the borrow says so.
    unsafe fn let_go(
        place: *const u64,
        lodging: &WordBorrow,
        own: OwnerToken<Self>,
    ) -> (bool, EndTokens, PassState)
        requires held { IsHeld lodging.now.block own }
        requires mark { own.block.whole ≡ Self.whole }
        requires place { IsLodged lodging.now place own.lease }
        ensures last { result.0 ≡ true → (result.1.last ≡ true) × (result.1.lease ≡ own.lease) }
        ensures forgotten { Self.whole ≡ true → (result.0 ≡ false) × (result.2.bound ≡ false) }
        ensures ended { Self.whole ≡ false → EndsWithNew own result.2 result.0 };

    /// What becomes of a sole owner that is dropped. Under `Open` it ends with a new pass. Under
    /// `Whole` it is forgotten, and the pass is one of no block. The answer is whether the owner
    /// ended, and the pass.
    ///
    /// # History
    ///
    /// Under `Open`: Down, without an atomic step. Under `Whole`: nothing.
    fn let_go_sole(own: OwnerToken<Self>) -> (bool, PassState)
        requires held { IsSole own.block own }
        requires mark { own.block.whole ≡ Self.whole }
        ensures forgotten { Self.whole ≡ true → (result.0 ≡ false) × (result.1.bound ≡ false) }
        ensures ended { Self.whole ≡ false → (result.0 ≡ true) × EndsWithNew own result.1 true };
}

/// Marks under which a block has many passes, and each call may take a new one.
pub trait Stepping: Mark {
    /// A new pass of an owner's block. It has seen how the owner was made, and nothing was made
    /// with it.
    fn fork(own: &OwnerToken<Self>) -> PassState
        requires held { own.now.held ≡ true }
        requires mark { own.now.block.whole ≡ Self.Mark.whole }
        ensures new { IsFork own.now result };

    /// A new pass of the block of an owner whose share of the lifetime is elsewhere. It has seen
    /// how the owner was made, and nothing was made with it.
    fn fork_without(own: &OwnerWithoutLifetime<Self>) -> PassState
        requires mark { own.now.block.whole ≡ Self.Mark.whole }
        ensures new { IsForkOf own.now.block own.now.born result };

    ghost many: { Self.Mark.whole ≡ false };
}

/// The mark under which each call, and each drop, may take a new pass.
#[derive(Clone, Copy, Debug, PartialEq, Eq)]
pub struct Open;

impl sealed::Sealed for Open {}

impl Mark for Open {
    ghost whole = { false };

    ghost real = { λ _ _ _. Unit {0} };

    fn open(by: Internal, most: u64, lent: bool) -> (Word, OwnerToken<Self>, PassState) {
        let Internal = by;
        Word::open(most, false, lent)
    }

    fn show(pass: PassState) {
        drop(pass);
    }

    /// It ends with a new pass.
    unsafe fn let_go(
        place: *const u64,
        lodging: &WordBorrow,
        own: OwnerToken<Self>,
    ) -> (bool, EndTokens, PassState)
        requires held { IsHeld lodging.now.block own }
        requires mark { own.block.whole ≡ false }
        requires place { IsLodged lodging.now place own.lease }
        ensures last { result.0 ≡ true → (result.1.last ≡ true) × (result.1.lease ≡ own.lease) }
        ensures ended { EndsWithNew own result.2 result.0 }
    {
        let mut pass = own.fork();
        let mut last = EndTokens::none();
        let mut right = own;
        let found = unsafe { Word::subtract_raw(place, lodging, &mut right, &mut pass, &mut last) };
        (found == 1, last, pass)
    }

    /// It ends with a new pass, without an atomic step.
    fn let_go_sole(own: OwnerToken<Self>) -> (bool, PassState)
        requires held { IsSole own.block own }
        requires mark { own.block.whole ≡ false }
        ensures ended { (result.0 ≡ true) × EndsWithNew own result.1 true }
    {
        let mut pass = own.fork();
        let mut right = own;
        right.finish(&mut pass);
        (true, pass)
    }
}

impl Stepping for Open {
    ghost many = { refl };

    fn fork(own: &OwnerToken<Self>) -> PassState
        requires held { own.now.held ≡ true }
        requires mark { own.now.block.whole ≡ false }
        ensures new { IsFork own.now result }
    {
        own.fork()
    }

    fn fork_without(own: &OwnerWithoutLifetime<Self>) -> PassState
        requires mark { own.now.block.whole ≡ false }
        ensures new { IsForkOf own.now.block own.now.born result }
    {
        own.fork()
    }
}

/// The mark of a block with one pass, which has seen its whole history: no entry comes between two
/// of its calls.
#[derive(Clone, Copy, Debug, PartialEq, Eq)]
pub struct Whole;

impl sealed::Sealed for Whole {}

impl Mark for Whole {
    ghost whole = { true };

    ghost real = { λ _ _ _. Unit {0} };

    fn open(by: Internal, most: u64, lent: bool) -> (Word, OwnerToken<Self>, PassState) {
        let Internal = by;
        Word::open(most, true, lent)
    }

    fn show(pass: PassState) {
        drop(pass);
    }

    /// It is forgotten, and no step is made.
    unsafe fn let_go(
        place: *const u64,
        lodging: &WordBorrow,
        own: OwnerToken<Self>,
    ) -> (bool, EndTokens, PassState)
        ensures forgotten { (result.0 ≡ false) × (result.2.bound ≡ false) }
    {
        let _ = place;
        let _ = lodging;
        drop(own);
        (false, EndTokens::none(), PassState::none())
    }

    /// It is forgotten.
    fn let_go_sole(own: OwnerToken<Self>) -> (bool, PassState)
        ensures forgotten { (result.0 ≡ false) × (result.1.bound ≡ false) }
    {
        drop(own);
        (false, PassState::none())
    }
}
