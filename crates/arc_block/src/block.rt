//! Blocks of a caller's making: a vector, a buffer or an `Arc` of one. Each stays where it is while
//! a window stands on it.
ghost use Rattle.std.specs.Prelude.{◌≡◌, ◌≤◌, ◌↔◌, length, true, false, Bool, IsTrue};
ghost use Rattle.std.specs.Prelude.{IfOk, IfErr, OnErr, IfSome, IfNone, is_some};
ghost use Rattle.std.specs.Vec.{vec_capacity};
ghost use Rattle.arc_owners.specs.count.Calls.{IsFirst, IsPassFor, IsFreshPass, IsNewPass, Learns};
ghost use Rattle.arc_owners.specs.count.Calls.{Asks, RefusesOwner, MakesAnother, Leaves};
ghost use Rattle.arc_owners.specs.count.Calls.{TakesBlock};
ghost use Rattle.arc_owners.specs.history.Histories.{Counted};
ghost use Rattle.arc_owners.specs.count.Calls.{IsPassOfNone, EndsByItself, EndsShown};
ghost use Rattle.arc_buffer.specs.Slice.{sub};
ghost use Rattle.arc_block.specs.Block.{native, vector, buffer, raw, IsLimited};
ghost use Rattle.arc_block.specs.Block.{IsWritable, held_as, buffer_block, raw_block};
ghost use Rattle.arc_block.specs.Block.{raw_info};
ghost use Rattle.arc_block.specs.Given.{given_as, metadata_of};
ghost use Rattle.arc_block.specs.Metadata.{FitsGiven};
ghost use Rattle.std.specs.Arc.{arc_value};
ghost use Rattle.std.specs.Prelude.{Some, None};
ghost use Rattle.arc_block.specs.Block.{IsBuffer, IsBufferOf, full_places};
ghost use Rattle.arc_block.specs.Contents.{held_in};
ghost use Rattle.arc_block.specs.Unique.{AsksUnique, AsksOwn, IsOwnAnswer};
ghost use Rattle.arc_block.specs.LayoutFacts.{layout_facts};
ghost use Rattle.arc_block.specs.Moves.{counted_move};
ghost use Rattle.arc_block.specs.Layouts.{MayWrite};
ghost use Rattle.arc_owners.specs.memory.Boxes.{owner_in, value_of};

mod content;
mod metadata;
mod native;
mod sole;

use crate::layout::{Layout, Move};
use arc_buffer::buffer::Buffer;
use arc_buffer::kinds::Slice;
use arc_memory::{Base, Native};
use arc_owners::error::{AllocError, OwnerError};
use arc_owners::leave::RaiseLeave;
use arc_owners::mark::{Mark, Open, Stepping};
use arc_owners::owners::{CountedBox, Pass, Shown};
pub use content::{CallersBuffer, Content};
pub use native::{NativeBlock, NativeCount};
pub use sole::{SoleCount, end_sole, new_count};
use std::alloc::Allocator;
use std::marker::Model;
use std::sync::Arc;

/// How many owners a window's block may have at once: 9,223,372,036,854,775,807.
pub const MAX_OWNERS: u64 = 9223372036854775807;

/// Answers `MAX_OWNERS`. The contract says which number that is.
pub fn max_owners() -> u64
    ensures { result ≡ 9223372036854775807 }
{
    MAX_OWNERS
}

/// An owner of a block of a caller's making, which at most `MAX` owners share: a vector, a caller's
/// buffer, or an `Arc` of one. The last owner gives the block back.
///
/// `B` is the type of callers' buffers and `M` that of their metadata.
///
/// One that is dropped ends with a new pass under the mark `Open`. Under `Whole` it is a forgotten
/// owner: the block stays for good.
pub struct Block<
    S: Slice,
    B: Buffer<S::Item> + Drop,
    M: Drop,
    A: Allocator + Copy,
    const MAX: u64,
    H: Mark = Open,
> {
    base: Base<S::Item>,
    piece: CountedBox<Content<S::Item, B, M, A>, A, MAX, H>,
    // That the items lie at the base for as long as an owner lives: so no read asks the block.
    shown: Shown<S::Item, Content<S::Item, B, M, A>>,
}

impl<
    S: Slice,
    B: Buffer<S::Item> + Drop,
    M: Drop,
    A: Allocator + Copy,
    const MAX: u64,
    H: Mark,
> Model for Block<S, B, M, A, MAX, H> {
    ghost use Rattle.std.specs.Prelude.{◌≡◌};
    ghost use Rattle.arc_owners.specs.memory.Boxes.{owner_in, value_of, lifetime_in};
    ghost use Rattle.arc_block.specs.Block.{BlockView, IsLimited};
    ghost use Rattle.arc_block.specs.Given.{Given};
    ghost use Rattle.arc_block.specs.Contents.{held_in, content_items};

    ghost Value = { BlockView S.Item (Given B M) };

    ghost view = { λ b.
        held_in B.list B.places S.DROPS (owner_in b.piece) (value_of b.piece) };

    ghost invariant = { λ b. IsLimited MAX H.whole (owner_in b.piece)
        × (b.base.at ≡ b.shown.at) × (b.shown.lifetime ≡ lifetime_in b.piece)
        × (b.shown.items ≡ content_items B.list (value_of b.piece)) };
}

impl<
    S: Slice,
    B: Buffer<S::Item> + Drop,
    M: Drop,
    A: Allocator + Copy,
    const MAX: u64,
    H: Mark,
> Drop for Block<S, B, M, A, MAX, H> {
    #[inline(always)]
    fn drop(self)
        ensures ended { H.whole ≡ false → EndsShown H H.real self.owner }
    {
        let Block {
            piece,
            base: _,
            shown: _,
        } = self;
        drop(piece);
    }
}

/// The items of a vector in one that has exactly a place for each: the same vector, where it has no
/// spare places.
///
/// # Errors
///
/// The vector comes back where memory for the other one is refused. It has items then.
///
/// # Allocates
///
/// Once, where there are items, and more places than items.
pub fn exact<T: Drop, A: Allocator + Copy>(
    alloc: A,
    items: Vec<T, A>,
) -> Result<Vec<T, A>, Vec<T, A>>
    ensures exact { IfOk result (λ v. (v.items ≡ items.items)
        × (vec_capacity v ≡ length v.items)) }
    ensures refused { IfErr result (λ back. back ≡ items) }
    ensures some { OnErr result (1 ≤ length items.items) }
{
    if items.capacity() == items.len() {
        return Ok(items);
    }
    let Ok(mut exact) = Vec::with_capacity(alloc, items.len()) else {
        return Err(items);
    };
    for item in items {
        exact.push_reserved(item);
    }
    Ok(exact)
}

impl<
    S: Slice,
    B: Buffer<S::Item> + Drop,
    M: Drop,
    A: Allocator + Copy,
    const MAX: u64,
    H: Mark,
> Block<S, B, M, A, MAX, H> {
    /// This owner's block, which is asked once where its items lie.
    #[inline(always)]
    fn over(piece: CountedBox<Content<S::Item, B, M, A>, A, MAX, H>) -> Self
        requires { IsLimited MAX H.whole (owner_in piece) }
        ensures { result ≡ held_in B.list B.places S.DROPS (owner_in piece) (value_of piece) }
    {
        let (at, shown) = piece.show();
        Block {
            base: Base { at },
            piece,
            shown,
        }
    }

    /// The first owner of a new block of a vector's memory, with its items and its places, and a
    /// pass of the block. No item is copied.
    ///
    /// `MAX` is at least 2.
    ///
    /// # Errors
    ///
    /// The vector comes back where memory for the count is refused.
    ///
    /// # Allocates
    ///
    /// Once.
    pub fn try_from_vec(
        alloc: A,
        items: Vec<S::Item, A>,
    ) -> Result<(Self, Pass<H>), Vec<S::Item, A>>
        requires { 2 ≤ MAX }
        ensures made { IfOk result (λ r. (r.0 ≡ held_as vector S.DROPS r.0.owner items)
            × IsFirst MAX H.whole Counted r.0.owner) }
        ensures pass { IfOk result (λ r. IsFreshPass r.0.owner r.1) }
        ensures refused { IfErr result (λ back. back ≡ items) }
    {
        let (_, memory) = Native::of(items);
        match CountedBox::new(alloc, Content::Vector(memory)) {
            Ok((piece, pass)) => Ok((Self::over(piece), pass)),
            Err(content) => Err(content.into_vec()),
        }
    }

    /// The first owner of a new block of a caller's buffer, with metadata or without, and a pass of
    /// the block. No item is copied.
    ///
    /// `MAX` is at least 2.
    ///
    /// # Errors
    ///
    /// Buffer and metadata come back where memory for the count and the buffer is refused.
    ///
    /// # Allocates
    ///
    /// Once.
    pub fn try_from_buffer(
        alloc: A,
        buffer: B,
        metadata: Option<M>,
    ) -> Result<(Self, Pass<H>), (B, Option<M>)>
        requires { 2 ≤ MAX }
        ensures made { IfOk result (λ r. (r.0 ≡ buffer_block (B.list buffer) (B.places buffer)
            (given_as false buffer metadata) r.0.owner) × IsFirst MAX H.whole Counted r.0.owner) }
        ensures pass { IfOk result (λ r. IsFreshPass r.0.owner r.1) }
        ensures refused { IfErr result (λ back. (back.0 ≡ buffer) × (back.1 ≡ metadata)) }
    {
        let held = CallersBuffer {
            buffer,
            metadata,
            writable: false,
        };
        match CountedBox::new(alloc, Content::Buffer(held)) {
            Ok((piece, pass)) => Ok((Self::over(piece), pass)),
            Err(content) => {
                let held = content.into_buffer();
                Err((held.buffer, held.metadata))
            }
        }
    }

    /// The first owner of a new block of an `Arc` of a caller's buffer, and a pass of the block. No
    /// item is copied.
    ///
    /// `MAX` is at least 2.
    ///
    /// # Errors
    ///
    /// The `Arc` comes back where memory for the count is refused.
    ///
    /// # Allocates
    ///
    /// Once.
    pub fn try_from_raw(alloc: A, shared: Arc<B, A>) -> Result<(Self, Pass<H>), Arc<B, A>>
        requires { 2 ≤ MAX }
        ensures made { IfOk result (λ r. (r.0 ≡ raw_block (B.list (arc_value shared))
            (given_as false (arc_value shared) None) r.0.owner)
            × IsFirst MAX H.whole Counted r.0.owner) }
        ensures pass { IfOk result (λ r. IsFreshPass r.0.owner r.1) }
        ensures refused { IfErr result (λ back. back ≡ shared) }
    {
        match CountedBox::new(alloc, Content::Raw(shared)) {
            Ok((piece, pass)) => Ok((Self::over(piece), pass)),
            Err(content) => Err(content.into_raw()),
        }
    }

    /// One attempt to make one owner more of the same block, through this one. It answers `None`,
    /// and adds no entry, where another thread's step came between; the caller tries again. It
    /// takes no memory and copies no item.
    ///
    /// # Errors
    ///
    /// `CountFull` exactly where `MAX` owners live, and no other error.
    ///
    /// # History
    ///
    /// Up, or Full where it is refused.
    #[inline(always)]
    pub fn try_share_once_as(
        &self,
        leave: RaiseLeave,
        pass: &mut Pass<H>,
    ) -> Option<Result<Self, OwnerError>>
        requires pass { IsPassFor self.now.owner pass.old }
        ensures made { IfSome result (λ r. IfOk r (λ other.
            MakesAnother self.now.owner pass.old pass.new other.owner)) }
        ensures alike { IfSome result (λ r. IfOk r (λ other. (other.items ≡ self.now.items)
            × (other.facts ≡ self.now.facts))) }
        ensures refused { IfSome result (λ r.
            IfErr r (λ e. RefusesOwner false self.now.owner pass.old pass.new e)) }
        ensures again { IfNone result (pass.new ≡ pass.old) }
    {
        let base = Base { at: self.base.at };
        let shown = self.shown.again();
        match self.piece.try_clone_once_as(leave, pass)? {
            Ok(piece) => Some(Ok(Block { piece, base, shown })),
            Err(e) => Some(Err(e.into())),
        }
    }
}

impl<
    S: Slice,
    B: Buffer<S::Item> + Drop,
    M: Drop,
    A: Allocator + Copy,
    const MAX: u64,
    H: Mark,
> Block<S, B, M, A, MAX, H> {
    /// The items from the place `start` on and before the place `end`. It reads no memory.
    #[inline(always)]
    pub fn range(&self, start: usize, end: usize) -> &[S::Item]
        requires { (start ≤ end) × (end ≤ length self.now.items) }
        ensures { result.now ≡ sub self.now.items start end }
    {
        self.piece.range(self.base.at, &self.shown, start, end)
    }

    /// Where an owner of the block goes that becomes a window under the layout `L`.
    pub fn move_to<L: Layout>(&self) -> Move
        ensures { result ≡ counted_move (layout_facts L.Layout) self.now.facts.sort }
    {
        match self.piece.get() {
            Content::Raw(_) if L::RAW => Move::LeavesCount,
            _ if L::ANY => Move::Stays,
            _ => Move::HandedBack,
        }
    }

    /// A clone of the `Arc` that the block keeps. It adds no entry and takes no memory.
    ///
    /// # Errors
    ///
    /// `AllocError` where the `Arc` has as many owners as it may have.
    pub fn try_clone_raw(&self) -> Result<Arc<B, A>, AllocError>
        requires { self.now.facts.sort ≡ raw }
        ensures items { IfOk result (λ shared. B.list (arc_value shared) ≡ self.now.items) }
        ensures facts { IfOk result (λ shared.
            self.now.facts ≡ raw_info (length (B.list (arc_value shared)))
            (Some (given_as false (arc_value shared) None))) }
    {
        match self.piece.get() {
            Content::Raw(shared) => match Arc::try_clone(shared) {
                Ok(shared) => Ok(shared),
                Err(_) => Err(AllocError),
            },
            _ => unreachable!(),
        }
    }

    /// What is known of the block fits what a caller gave: where it keeps no caller's buffer that
    /// is nothing, and else the buffer, with the block's items and places. Does nothing: its
    /// contract is the law.
    pub fn known_given(&self)
        ensures { FitsGiven B.list B.places self.now.facts.given self.now.facts self.now.items }
    {
        match self.piece.get() {
            Content::Vector(_) => {}
            Content::Buffer(_) => {}
            Content::Raw(_) => {}
        }
    }

    /// It is no native block. Does nothing: its contract is the law.
    pub fn known_sort(&self)
        ensures { ¬ (self.now.facts.sort ≡ native) }
    {
        match self.piece.get() {
            Content::Vector(_) => {}
            Content::Buffer(_) => {}
            Content::Raw(_) => {}
        }
    }

    /// Whether the only owner may write the block, under a layout that holds blocks of a caller's
    /// making if `has_any`: a vector may be written, and a buffer that was given to be written.
    pub fn may_write(&self, has_any: bool) -> bool
        ensures { IsTrue result ↔ MayWrite has_any self.now.facts.sort }
    {
        match self.piece.get() {
            Content::Vector(_) => has_any,
            Content::Buffer(held) => held.writable && has_any,
            Content::Raw(_) => false,
        }
    }

    /// Whether the block is a vector. The contract says too that any other block which may be
    /// written is a caller's buffer.
    pub fn is_vector(&self) -> bool
        ensures answer { IsTrue result ↔ (self.now.facts.sort ≡ vector) }
        ensures other { result ≡ false → IsWritable self.now.facts.sort
            → self.now.facts.sort ≡ buffer true }
    {
        matches!(self.piece.get(), Content::Vector(_))
    }

    /// Whether the block is a vector with so many items.
    pub fn is_vector_of_items(&self, len: usize) -> bool
        ensures answer { IsTrue result
            ↔ (self.now.facts.sort ≡ vector) × (length self.now.items ≡ len) }
        ensures full { self.now.facts.sort ≡ vector
            → self.now.facts.full ≡ full_places S.DROPS (length self.now.items) }
    {
        match self.piece.get() {
            Content::Vector(memory) => memory.len() == len,
            _ => false,
        }
    }

    /// Whether the block is a vector with so many places.
    pub fn is_vector_of(&self, size: usize) -> bool
        ensures { IsTrue result ↔ (self.now.facts.sort ≡ vector) × (self.now.facts.size ≡ size) }
    {
        match self.piece.get() {
            Content::Vector(memory) => memory.count() == size,
            _ => false,
        }
    }

    /// Whether the block is a caller's buffer with so many items.
    pub fn is_buffer_of_items(&self, len: usize) -> bool
        ensures answer { IsTrue result ↔ IsBufferOf self.now len }
        ensures full { IsBuffer self.now.facts.sort
            → self.now.facts.full ≡ Some (length self.now.items) }
    {
        match self.piece.get() {
            Content::Buffer(held) => held.buffer.as_slice().len() == len,
            _ => false,
        }
    }

    /// Whether the block is an `Arc` of a caller's buffer with so many items.
    pub fn is_raw_of_items(&self, len: usize) -> bool
        ensures answer { IsTrue result
            ↔ (self.now.facts.sort ≡ raw) × (length self.now.items ≡ len) }
        ensures full { self.now.facts.sort ≡ raw
            → self.now.facts.full ≡ Some (length self.now.items) }
    {
        match self.piece.get() {
            Content::Raw(shared) => shared.as_slice().len() == len,
            _ => false,
        }
    }

    /// The metadata that the block was made with, or `None`.
    pub fn metadata(&self) -> Option<&M>
        ensures some { IfSome result (λ m. metadata_of self.now.facts.given ≡ Some m.now) }
        ensures none { IfNone result (metadata_of self.now.facts.given ≡ None) }
    {
        match self.piece.get() {
            Content::Buffer(held) => held.metadata.as_ref(),
            _ => None,
        }
    }

    /// How many owners the block may have at once. The contract says too under which mark it is.
    pub fn max_owners(&self) -> u64
        ensures answer { result ≡ MAX }
        ensures block { IsLimited MAX H.whole self.now.owner }
    {
        let _ = &self.piece;
        MAX
    }

    /// Whether no other owner lives, by one load. It takes no memory.
    ///
    /// # History
    ///
    /// Alone with the answer.
    #[inline(always)]
    pub fn is_unique_as(&self, pass: &mut Pass<H>) -> bool
        requires pass { IsPassFor self.now.owner pass.old }
        ensures entry { Asks self.now.owner pass.old pass.new result }
    {
        self.piece.is_unique_as(pass)
    }

    /// Whether no other owner has a part of the block. The count is read; where that says yes, a
    /// caller's buffer is asked too. Of an `Arc` no count is read, and the answer is no.
    ///
    /// # History
    ///
    /// On a block that is no `Arc`: Alone with what the count says.
    #[inline(always)]
    pub fn is_unique_by_sort_as(&self, pass: &mut Pass<H>) -> bool
        requires pass { IsPassFor self.now.owner pass.old }
        ensures entry { AsksUnique self.now.facts.sort self.now.owner pass.old pass.new result }
        ensures own { AsksOwn (IsOwnAnswer B.list B.says_unique self.now.facts.given
            self.now.items) self.now.facts.sort self.now.owner pass.old pass.new result }
    {
        match self.piece.get() {
            Content::Vector(_) => self.piece.is_unique_as(pass),
            Content::Buffer(held) => {
                let alone = self.piece.is_unique_as(pass);
                alone && held.buffer.is_unique()
            }
            Content::Raw(_) => false,
        }
    }

    /// What the block keeps, where no other owner lives. It takes no memory.
    ///
    /// # Errors
    ///
    /// The owner comes back where another one lives.
    ///
    /// # History
    ///
    /// Taken: Alone with yes, then Down. Refused: Alone with no.
    pub fn try_into_content_as(self, pass: &mut Pass<H>) -> Result<Content<S::Item, B, M, A>, Self>
        requires pass { IsPassFor self.owner pass.old }
        ensures content { IfOk result (λ content.
            held_in B.list B.places S.DROPS self.owner content ≡ self) }
        ensures alone { IfOk result (λ _. TakesBlock self.owner pass.old pass.new) }
        ensures others { IfErr result (λ back. (back ≡ self)
            × Asks self.owner pass.old pass.new false) }
    {
        let Block { piece, base, shown } = self;
        match piece.try_into_value_as(pass) {
            Ok(content) => Ok(content),
            Err(piece) => Err(Block { piece, base, shown }),
        }
    }

    /// Ends this owner by one subtraction from the count. The last one gets what the block keeps.
    /// It takes no memory.
    ///
    /// # History
    ///
    /// Down.
    pub fn into_content_if_last_as(self, pass: &mut Pass<H>) -> Option<Content<S::Item, B, M, A>>
        requires pass { IsPassFor self.owner pass.old }
        ensures entry { Leaves self.owner pass.old pass.new (is_some result) }
        ensures content { IfSome result (λ content.
            held_in B.list B.places S.DROPS self.owner content ≡ self) }
    {
        let Block {
            piece,
            base: _,
            shown: _,
        } = self;
        match piece.release_as(pass) {
            Some(content) => Some(content),
            None => None,
        }
    }

    /// Ends this owner by one subtraction from the count, and answers whether it is the last one:
    /// then the block is given back. It takes no memory.
    ///
    /// # History
    ///
    /// Down.
    #[inline(always)]
    pub fn release_as(self, pass: &mut Pass<H>) -> bool
        requires pass { IsPassFor self.owner pass.old }
        ensures entry { Leaves self.owner pass.old pass.new result }
    {
        let Block {
            piece,
            base: _,
            shown: _,
        } = self;
        match piece.release_as(pass) {
            Some(content) => {
                drop(content);
                true
            }
            None => false,
        }
    }

    /// What a drop does. Under `Open` this owner ends with a new pass, which is the answer, and the
    /// last one gives the block back. Under `Whole` it is a forgotten owner: no step is made, and
    /// the answer is a pass of no block. It takes no memory.
    ///
    /// # History
    ///
    /// Under `Open`: Down. Under `Whole`: nothing.
    #[inline(always)]
    pub fn let_go(self) -> Pass<H>
        ensures forgotten { H.whole ≡ true → IsPassOfNone result }
        ensures ended { H.whole ≡ false → (last : Bool) × EndsByItself self.owner result last }
    {
        let Block {
            piece,
            base: _,
            shown: _,
        } = self;
        let (content, pass) = piece.let_go();
        drop(content);
        pass
    }

    /// From here on the first pass has seen at least what the other had. It adds no entry and takes
    /// no memory.
    pub fn learn(&self, pass: &mut Pass<H>, other: &Pass<H>)
        requires pass { IsPassFor self.now.owner pass.old }
        requires other { IsPassFor self.now.owner other.now }
        ensures { Learns self.now.owner.block pass.old other.now pass.new }
    {
        self.piece.learn(pass, other);
    }
}

impl<
    S: Slice,
    B: Buffer<S::Item> + Drop,
    M: Drop,
    A: Allocator + Copy,
    const MAX: u64,
    H: Mark,
> Block<S, B, M, A, MAX, H> {
    /// The same owner, of items of another kind. It adds no entry and takes no memory.
    pub fn into_kind<K: Slice<Item = S::Item>>(self) -> Block<K, B, M, A, MAX, H>
        requires { K.DROPS ≡ S.DROPS }
        ensures { result ≡ self }
    {
        let Block { piece, base, shown } = self;
        Block { piece, base, shown }
    }
}

impl<
    S: Slice,
    B: Buffer<S::Item> + Drop,
    M: Drop,
    A: Allocator + Copy,
    const MAX: u64,
    H: Stepping,
> Block<S, B, M, A, MAX, H> {
    /// A new pass of the block. It has seen at least the entry that made this owner, and nothing
    /// was made with it. It adds no entry and takes no memory.
    pub fn pass(&self) -> Pass<H>
        ensures { IsNewPass self.now.owner result }
    {
        self.piece.pass()
    }
}
