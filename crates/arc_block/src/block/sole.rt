//! Blocks of a caller's making with one owner. Where the block is a vector, its owner has the
//! vector.
//!
//! So its items are read and written by the vector's own code, and no count is read. Meanwhile the
//! memory of the count holds none of the items.
ghost use Rattle.std.specs.Prelude.{◌≡◌, ◌≤◌, true, false, is_ok, IfOk, IfErr};
ghost use Rattle.arc_owners.specs.history.Histories.{Counted};
ghost use Rattle.arc_owners.specs.count.Calls.{IsFirst, IsPassFor, IsFreshPass, Asks};
ghost use Rattle.arc_owners.specs.count.Calls.{IsPassOfNone, EndsByItself};
ghost use Rattle.arc_owners.specs.memory.SoleBoxes.{sole_in, sole_value};
ghost use Rattle.arc_block.specs.Block.{vector, held_as, IsLimited};
ghost use Rattle.arc_block.specs.Contents.{held_in};

use super::{Block, Content};
use arc_buffer::buffer::Buffer;
use arc_buffer::kinds::Slice;
use arc_memory::Native;
use arc_owners::error::AllocError;
use arc_owners::mark::Mark;
use arc_owners::owners::{Pass, SoleBox};
use std::alloc::Allocator;
use std::mem;

/// The count of a block, with its only owner, who has a vector's items elsewhere.
pub type SoleCount<T, B, M, A, const MAX: u64, H> = SoleBox<Content<T, B, M, A>, A, MAX, H>;

/// The only owner of a new block that is a vector, with a pass of it. The owner has the vector.
/// `MAX` is at least 2.
///
/// # Errors
///
/// `AllocError` where memory for the count is refused.
///
/// # Allocates
///
/// Once.
pub fn new_count<T: Drop, B: Drop, M: Drop, A: Allocator + Copy, const MAX: u64, H: Mark>(
    alloc: A,
) -> Result<(SoleCount<T, B, M, A, MAX, H>, Pass<H>), AllocError>
    requires { 2 ≤ MAX }
    ensures made { IfOk result (λ r. IsFirst MAX H.whole Counted (sole_in r.0)) }
    ensures pass { IfOk result (λ r. IsFreshPass (sole_in r.0) r.1) }
{
    let (_, empty) = Native::of(Vec::new(alloc));
    match SoleBox::new(alloc, Content::Vector(empty)) {
        Ok(made) => Ok(made),
        Err(empty) => {
            drop(empty);
            Err(AllocError)
        }
    }
}

/// What a drop does. Under `Open` the owner ends with a new pass, which is the answer, and its
/// items are dropped. Under `Whole` owner and items are forgotten: the items stay where they are,
/// and the answer is a pass of no block.
///
/// # History
///
/// Under `Open`: Down. Under `Whole`: nothing.
pub fn end_sole<T: Drop, B: Drop, M: Drop, A: Allocator + Copy, const MAX: u64, H: Mark>(
    count: SoleCount<T, B, M, A, MAX, H>,
    items: Vec<T, A>,
) -> Pass<H>
    ensures forgotten { H.whole ≡ true → IsPassOfNone result }
    ensures ended { H.whole ≡ false → EndsByItself (sole_in count) result true }
{
    let (value, pass) = count.let_go();
    if value.is_some() {
        drop(items);
    } else {
        mem::forget(items);
    }
    pass
}

impl<
    S: Slice,
    B: Buffer<S::Item> + Drop,
    M: Drop,
    A: Allocator + Copy,
    const MAX: u64,
    H: Mark,
> Block<S, B, M, A, MAX, H> {
    /// The same owner of the same block, a vector, which may be shared. It adds no entry and takes
    /// no memory.
    pub fn of_sole(count: SoleCount<S::Item, B, M, A, MAX, H>, items: Vec<S::Item, A>) -> Self
        requires { IsLimited MAX H.whole (sole_in count) }
        ensures { result ≡ held_as vector S.DROPS (sole_in count) items }
    {
        let mut count = count;
        let (_, memory) = Native::of(items);
        drop(mem::replace(count.get_mut(), Content::Vector(memory)));
        Block::over(count.lend())
    }

    /// The only owner of the same block and its vector, where no other owner lives. It takes no
    /// memory.
    ///
    /// # Errors
    ///
    /// The owner comes back where another one lives.
    ///
    /// # History
    ///
    /// Alone with the answer.
    pub fn try_into_sole_as(
        self,
        alloc: A,
        pass: &mut Pass<H>,
    ) -> Result<(SoleCount<S::Item, B, M, A, MAX, H>, Vec<S::Item, A>), Self>
        requires pass { IsPassFor self.owner pass.old }
        requires sort { self.facts.sort ≡ vector }
        ensures entry { Asks self.owner pass.old pass.new (is_ok result) }
        ensures sole { IfOk result (λ r. (held_as vector S.DROPS (sole_in r.0) r.1 ≡ self)
            × IsLimited MAX H.whole (sole_in r.0)) }
        ensures others { IfErr result (λ back. back ≡ self) }
    {
        let Block { piece, base, shown } = self;
        match piece.try_into_sole_as(pass) {
            Ok(mut count) => {
                let (_, empty) = Native::of(Vec::new(alloc));
                let content = mem::replace(count.get_mut(), Content::Vector(empty));
                Ok((count, content.into_vec()))
            }
            Err(piece) => Err(Block { piece, base, shown }),
        }
    }

    /// The same owner of the same block, a caller's buffer, which may be shared. It adds no entry
    /// and takes no memory.
    pub fn of_sole_buffer(count: SoleCount<S::Item, B, M, A, MAX, H>) -> Self
        requires { IsLimited MAX H.whole (sole_in count) }
        ensures { result
            ≡ held_in B.list B.places S.DROPS (sole_in count) (sole_value count) }
    {
        Block::over(count.lend())
    }

    /// The only owner of the same block, which keeps its items, where no other owner lives. It
    /// takes no memory.
    ///
    /// # Errors
    ///
    /// The owner comes back where another one lives.
    ///
    /// # History
    ///
    /// Alone with the answer.
    pub fn try_into_sole_buffer_as(
        self,
        pass: &mut Pass<H>,
    ) -> Result<SoleCount<S::Item, B, M, A, MAX, H>, Self>
        requires pass { IsPassFor self.owner pass.old }
        ensures entry { Asks self.owner pass.old pass.new (is_ok result) }
        ensures sole { IfOk result (λ count.
            (held_in B.list B.places S.DROPS (sole_in count) (sole_value count) ≡ self)
            × IsLimited MAX H.whole (sole_in count)) }
        ensures others { IfErr result (λ back. back ≡ self) }
    {
        let Block { piece, base, shown } = self;
        match piece.try_into_sole_as(pass) {
            Ok(count) => Ok(count),
            Err(piece) => Err(Block { piece, base, shown }),
        }
    }
}
