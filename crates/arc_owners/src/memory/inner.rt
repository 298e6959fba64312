//! The memory of a block that is lent to its owners: the word of its count, and a value.
ghost use Rattle.std.specs.Prelude.{◌≡◌, true};
ghost use denote.RawPtr.{InBlock};

use super::lent_box::LentBox;
use super::shared_borrow::SharedBorrow;
use crate::count::word::{OwnerToken, Word, WordBorrow};
use std::alloc::Allocator;
use std::marker::PhantomData;

/// A block's memory. The word lies at its beginning.
#[derive(Drop)]
pub struct Inner<V> {
    pub(crate) word: Word,
    pub(crate) value: V,
}

impl<V> Inner<V> {
    ghost use types.Logic.{sem};
    ghost use Rattle.arc_owners.specs.memory.Inners.{LendsInner};

    /// The value, to be changed.
    pub(crate) fn value_mut(&mut self) -> &mut V
        ensures* writes_back { sem 𝓛 (LendsInner V.row self.entry result) }
        ensures value { result.now ≡ self.old.value }
    {
        &mut self.value
    }

    /// The place of the word, which lies at the memory's beginning.
    #[inline(always)]
    pub(crate) fn word_place(at: *mut Inner<V>) -> *const u64
        ensures { result ≡ at }
    {
        at as *const u64
    }

    /// Cuts memory that is lent for the lifetime of this owner's lease: that the word lies at its
    /// beginning, and that all of it is there for the owners to read, both for as long.
    pub(crate) fn settle<A: Allocator, H>(
        lent: LentBox<Inner<V>, A>,
        by: &mut OwnerToken<H>,
    ) -> (WordBorrow, SharedBorrow<Inner<V>>)
        requires { InBlock lent.at × (by.old.held ≡ true) × (by.old.lease.is_lent ≡ true)
            × (by.old.lease.lifetime ≡ lent.lifetime) }
        ensures { (by.new ≡ by.old) × (result.0.block ≡ lent.value.word)
            × (result.0.at ≡ lent.at) × (result.0.lifetime ≡ lent.lifetime)
            × (result.1.value ≡ lent.value) × (result.1.at ≡ lent.at)
            × (result.1.lifetime ≡ lent.lifetime) }
    {
        let LentBox { marker: _ } = lent;
        (
            WordBorrow {
                marker: PhantomData,
            },
            SharedBorrow {
                marker: PhantomData,
            },
        )
    }
}
