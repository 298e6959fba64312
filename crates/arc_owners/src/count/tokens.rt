//! The types of a count: the count itself, one owner of it, what a caller has seen of its history,
//! and what the end of an owner leaves.
ghost use Rattle.std.specs.Prelude.{◌≡◌, true, false};

use super::word::{EndTokens, OwnerToken, PassState, Word};
use crate::mark::{Mark, Open};
use std::marker::PhantomData;

/// The count of a block's owners, in one word of 8 bytes, on which threads make steps by reference.
/// `MAX` is the greatest count.
#[derive(Drop)]
pub struct Owners<const MAX: u64, H: Mark = Open> {
    pub(crate) word: Word,
    pub(crate) mark: PhantomData<H>,
    ghost greatest: { word.most ≡ MAX },
    ghost marked: { word.whole ≡ H.whole },
}

/// One owner of a block. It has no bytes. One that is dropped is a forgotten owner, which stays an
/// owner for good.
#[derive(Drop)]
pub struct Share<H: Mark = Open> {
    pub(crate) right: OwnerToken<H>,
    pub(crate) mark: PhantomData<H>,
    ghost held: { right.held ≡ true },
    ghost lent: { right.lease.is_lent ≡ true },
    ghost marked: { right.block.whole ≡ H.whole },
}

/// The only owner, who has the block to itself: no other owner lives, and the block isn't lent. It
/// lends the block, or ends. It has no bytes. One that is dropped stays the owner for good.
#[derive(Drop)]
pub struct Sole<H: Mark = Open> {
    pub(crate) right: OwnerToken<H>,
    pub(crate) mark: PhantomData<H>,
    ghost held: { right.held ≡ true },
    ghost taken: { right.lease.is_lent ≡ false },
    ghost marked: { right.block.whole ≡ H.whole },
}

/// What one caller has seen of a block's history, and the entries that it made. It has no bytes,
/// and is for contracts only.
#[derive(Drop)]
pub struct Pass<H: Mark = Open> {
    pub(crate) trace: PassState,
    pub(crate) mark: PhantomData<H>,
}

/// The right to end the lifetime for which a block is lent. It is handed out once: to the last
/// owner at its end, or to an owner that finds itself alone by a claim. It has no bytes. If it is
/// dropped, the lifetime never ends, and what is lent for it never comes back.
#[derive(Drop)]
pub struct LifetimeEnd {
    pub(crate) spoils: EndTokens,
    ghost whole: { spoils.last ≡ true },
}

/// What the end of an owner finds.
#[derive(Drop)]
pub enum Release {
    /// It is the last owner.
    Last(LifetimeEnd),
    /// Other owners live.
    NotLast,
}
