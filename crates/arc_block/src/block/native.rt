//! Native blocks: items in memory of the library's own making, which is lent for the lease of the
//! block's owners.
//!
//! The counted box keeps what gives the memory back at the end. It lies in front of the items, in
//! the same piece of memory. An owner reads the items by where they begin, and reads neither the
//! count nor what is kept.
ghost use Rattle.std.specs.Prelude.{◌≡◌, ◌≤◌, ◌+◌, ◌-◌, ◌↔◌, Bool, true, false, IsTrue};
ghost use Rattle.std.specs.Prelude.{IfOk, IfErr, IfSome, IfNone, is_some};
ghost use Rattle.arc_owners.specs.count.Calls.{IsPassFor, IsNewPass, Learns, Asks};
ghost use Rattle.arc_owners.specs.count.Calls.{RefusesOwner};
ghost use Rattle.arc_owners.specs.history.Histories.{Counted};
ghost use Rattle.arc_owners.specs.count.Calls.{MakesAnother, Leaves, AsksAndLeaves, EndsByItself};
ghost use Rattle.arc_owners.specs.count.Calls.{IsPassOfNone, EndsShown, TakesBlock};
ghost use Rattle.arc_memory.specs.KeptPlaces.{kept_in};
ghost use Rattle.arc_memory.specs.PieceParts.{IsRoomOf};
ghost use Rattle.arc_memory.specs.Sources.{IsPiece};
ghost use Rattle.arc_buffer.specs.Slice.{sub};
ghost use Rattle.std.specs.Prelude.{length, is_ok};
ghost use Rattle.arc_owners.specs.count.Calls.{Owner, IsFirst, IsFreshPass};
ghost use Rattle.arc_owners.specs.memory.Boxes.{owner_in, value_of, place_in};
ghost use Rattle.arc_owners.specs.memory.SoleCounts.{count_owner};
ghost use Rattle.arc_block.specs.Block.{IsLimited};
ghost use Rattle.arc_block.specs.Natives.{IsAmong, IsKeptFor, IsLaidFor, made_native, native_over};
ghost use Rattle.arc_block.specs.Natives.{native_taken, native_seen, range_seen};

use arc_buffer::kinds::Slice;
use arc_memory::{
    Base, FrozenPlaces, FrozenReader, HeadSize, Kept, KeptItems, KeptPlaces, WriterMemory,
};
use arc_owners::error::{AllocError, OwnerError};
use arc_owners::leave::RaiseLeave;
use arc_owners::lifetime::{EndedLifetime, LifetimeToken};
use arc_owners::mark::{Mark, Open, Stepping};
use arc_owners::owners::{Header, HeaderRoom, Pass, SoleBox, SoleCount};
use std::alloc::Allocator;
use std::marker::Model;
use std_alloc::vec::Lodged;

/// The count of a native block by value, with its only owner.
pub type NativeCount<const MAX: u64, H> = SoleCount<MAX, H>;

/// An owner of a native block, which at most `MAX` owners share. It reads items that lie side by
/// side in the block. The last owner gives the memory back.
///
/// One that is dropped ends with a new pass under the mark `Open`. Under `Whole` it is a forgotten
/// owner: the block stays for good.
pub struct NativeBlock<S: Slice, A: Allocator + Copy, const MAX: u64, H: Mark = Open> {
    base: Base<S::Item>,
    reader: FrozenReader<S::Item, Kept<S::Item, A>, Lodged, MAX, H>,
    head: HeadSize<Header<Kept<S::Item, A>>>,
}

/// Gives the block back where there was a last owner who had it, and answers whether there was.
#[inline(always)]
fn give_back<T: Drop, A: Allocator>(
    last: Option<(Kept<T, A>, HeaderRoom<Header<Kept<T, A>>>, EndedLifetime)>,
    head: HeadSize<Header<Kept<T, A>>>,
) -> bool
    requires ended { IfSome last (λ r.
        (kept_in r.0).inheritance.memory.lifetime ≡ r.2.lifetime) }
    requires room { IfSome last (λ r. IsRoomOf r.1 head.size (kept_in r.0).piece) }
    ensures { result ≡ is_some last }
{
    match last {
        Some((kept, room, ended)) => {
            kept.free(ended, room, head);
            true
        }
        None => false,
    }
}

impl<S: Slice, A: Allocator + Copy, const MAX: u64, H: Mark> Model for NativeBlock<S, A, MAX, H> {
    ghost use Rattle.std.specs.Prelude.{◌≡◌};
    ghost use Rattle.arc_owners.specs.memory.Boxes.{owner_in, value_of, place_in};
    ghost use Rattle.arc_block.specs.Block.{IsLimited};
    ghost use Rattle.arc_block.specs.Natives.{NativeView, native_seen, IsKeptFor, IsLaidFor};

    ghost Value = { NativeView S.Item };

    ghost view = { λ b. native_seen S.DROPS b.reader };

    ghost invariant = { λ b. IsLimited MAX H.whole (owner_in b.reader.owner)
        × (b.base.at ≡ b.reader.range.memory.base)
        × IsKeptFor S.DROPS b.reader.range (value_of b.reader.owner)
        × IsLaidFor (place_in b.reader.owner) b.head.size (value_of b.reader.owner) };
}

impl<S: Slice, A: Allocator + Copy, const MAX: u64, H: Mark> Drop for NativeBlock<S, A, MAX, H> {
    #[inline(always)]
    fn drop(self)
        ensures ended { H.whole ≡ false → EndsShown H H.real self.owner }
    {
        self.let_go().show();
    }
}

impl<S: Slice, A: Allocator + Copy, const MAX: u64, H: Mark> NativeBlock<S, A, MAX, H> {
    /// One attempt to make one owner more of the same block, through this one, which reads the same
    /// items. It answers `None`, and adds no entry, where another thread's step came between; the
    /// caller tries again. It takes no memory and copies no item.
    ///
    /// # Errors
    ///
    /// `CountFull` exactly where `MAX` owners live, and no other error.
    ///
    /// # History
    ///
    /// Up, or Full where it is refused.
    #[inline(always)]
    #[tactic(auto, using(crate::proofs::Natives::kept_alike, crate::proofs::Natives::laid_alike))]
    pub fn try_share_once_as(
        &self,
        leave: RaiseLeave,
        pass: &mut Pass<H>,
    ) -> Option<Result<Self, OwnerError>>
        requires pass { IsPassFor self.now.owner pass.old }
        ensures made { IfSome result (λ r. IfOk r (λ other.
            MakesAnother self.now.owner pass.old pass.new other.owner)) }
        ensures alike { IfSome result (λ r. IfOk r (λ other.
            other ≡ record self.now { owner = other.owner })) }
        ensures refused { IfSome result (λ r.
            IfErr r (λ e. RefusesOwner false self.now.owner pass.old pass.new e)) }
        ensures again { IfNone result (pass.new ≡ pass.old) }
    {
        let base = Base { at: self.base.at };
        match self.reader.try_again_once_as(leave, pass) {
            Some(Ok(reader)) => {
                let head = self.head.again();
                Some(Ok(NativeBlock { base, reader, head }))
            }
            Some(Err(e)) => Some(Err(e.into())),
            None => None,
        }
    }

    /// The items from the place `start` of the block on and before the place `end`. It reads no
    /// memory.
    #[inline(always)]
    pub fn range(&self, start: usize, end: usize) -> &[S::Item]
        requires { IsAmong self.now start end }
        ensures { result.now
            ≡ sub self.now.items (start - self.now.first) (end - self.now.first) }
    {
        unsafe { self.reader.as_slice(self.base.at, start, end) }
    }

    /// Whether the block has so many places for items.
    #[tactic(auto, using(crate::proofs::Natives::kept_places))]
    pub fn is_of_places(&self, size: usize) -> bool
        ensures { IsTrue result ↔ (self.now.size ≡ size) }
    {
        self.reader.owner.get().count() == size
    }

    /// How many owners the block may have at once. The contract says too under which mark it is.
    pub fn max_owners(&self) -> u64
        ensures answer { result ≡ MAX }
        ensures block { IsLimited MAX H.whole self.now.owner }
    {
        let _ = &self.reader;
        MAX
    }

    /// Whether no other owner lives, by one load. It takes no memory.
    ///
    /// # History
    ///
    /// Alone with the answer.
    #[inline(always)]
    pub fn is_unique_as(&self, pass: &mut Pass<H>) -> bool
        requires pass { IsPassFor self.now.owner pass.old }
        ensures entry { Asks self.now.owner pass.old pass.new result }
    {
        self.reader.owner.is_unique_as(pass)
    }

    /// Ends this owner by one subtraction from the count, and answers whether it is the last one:
    /// then the block is given back. It takes no memory.
    ///
    /// # History
    ///
    /// Down.
    #[inline(always)]
    #[tactic(auto, using(crate::proofs::Natives::kept_ended, crate::proofs::Natives::laid_room))]
    pub fn release_as(self, pass: &mut Pass<H>) -> bool
        requires pass { IsPassFor self.owner pass.old }
        ensures entry { Leaves self.owner pass.old pass.new result }
    {
        let NativeBlock {
            base: _,
            reader,
            head,
        } = self;
        give_back(reader.release_as(pass), head)
    }

    /// What a drop does. Under `Open` this owner ends with a new pass, which is the answer, and the
    /// last one gives the block back. Under `Whole` it is a forgotten owner: no step is made, and
    /// the answer is a pass of no block. It takes no memory.
    ///
    /// # History
    ///
    /// Under `Open`: Down. Under `Whole`: nothing.
    #[inline(always)]
    #[tactic(auto, using(crate::proofs::Natives::kept_ended, crate::proofs::Natives::laid_room))]
    pub fn let_go(self) -> Pass<H>
        ensures forgotten { H.whole ≡ true → IsPassOfNone result }
        ensures ended { H.whole ≡ false → (last : Bool) × EndsByItself self.owner result last }
    {
        let NativeBlock {
            base: _,
            reader,
            head,
        } = self;
        let (last, pass) = reader.let_go();
        let _ = give_back(last, head);
        pass
    }

    /// Ends this owner. It reads the count first: where no other owner lives it gives the block
    /// back without another step, and else it counts down. It takes no memory.
    ///
    /// # History
    ///
    /// Alone with the answer, then Down.
    #[tactic(auto, using(crate::proofs::Natives::kept_ended, crate::proofs::Natives::kept_alike, crate::proofs::Natives::laid_room, crate::proofs::Natives::laid_alike))]
    pub fn drop_with_unique_hint_as(self, pass: &mut Pass<H>)
        requires pass { IsPassFor self.owner pass.old }
        ensures entries { AsksAndLeaves self.owner pass.old pass.new }
    {
        let NativeBlock { base, reader, head } = self;
        match reader.try_into_sole_as(pass) {
            Ok((sole, ended, _)) => {
                let (count, room, kept) = sole.take_up();
                count.end_as(pass);
                kept.free(ended, room, head);
            }
            Err(reader) => {
                let _ = NativeBlock::<S, A, MAX, H> { base, reader, head }.release_as(pass);
            }
        }
    }

    /// From here on the first pass has seen at least what the other had. It adds no entry and takes
    /// no memory.
    pub fn learn(&self, pass: &mut Pass<H>, other: &Pass<H>)
        requires pass { IsPassFor self.now.owner pass.old }
        requires other { IsPassFor self.now.owner other.now }
        ensures { Learns self.now.owner.block pass.old other.now pass.new }
    {
        self.reader.owner.learn(pass, other);
    }
}

impl<S: Slice, A: Allocator + Copy, const MAX: u64, H: Mark> NativeBlock<S, A, MAX, H> {
    /// The same owner, of items of another kind. It adds no entry and takes no memory.
    pub fn into_kind<K: Slice<Item = S::Item>>(self) -> NativeBlock<K, A, MAX, H>
        requires { K.DROPS ≡ S.DROPS }
        ensures { result ≡ self }
    {
        let NativeBlock { base, reader, head } = self;
        NativeBlock { base, reader, head }
    }
}

impl<S: Slice, A: Allocator + Copy, const MAX: u64, H: Stepping> NativeBlock<S, A, MAX, H> {
    /// A new pass of the block. It has seen at least the entry that made this owner, and nothing
    /// was made with it. It adds no entry and takes no memory.
    pub fn pass(&self) -> Pass<H>
        ensures { IsNewPass self.now.owner result }
    {
        self.reader.owner.pass()
    }
}

/// What the counted box of a block keeps of these places, which are frozen. Where items are dropped
/// one by one, that is all `len` that hold an item.
#[inline(always)]
fn kept_of<S: Slice, A: Allocator>(
    kept: KeptPlaces<S::Item, A>,
    range: &FrozenPlaces<S::Item>,
    base: *const S::Item,
    len: usize,
) -> Kept<S::Item, A>
    requires lent { range.now.memory ≡ kept.inheritance.memory }
    requires front { S.DROPS ≡ true → range.now.start ≡ 0 }
    requires sizes { (base ≡ range.now.memory.base) × (len ≡ length range.now.items) }
    ensures kept { IsKeptFor S.DROPS range.now result }
    ensures piece { (kept_in result).piece ≡ kept.piece }
{
    if S::DROPS {
        return Kept::Items(KeptItems::of(kept, range.again(), base, len));
    }
    Kept::Places(kept)
}

/// The memory that a block kept, once the lifetime has ended for which it was lent, with the items
/// in the places from `start` on and before `end`; where they are dropped one by one with all.
///
/// The memory begins at `base`.
#[inline(always)]
#[tactic(auto, using(crate::proofs::Natives::places_taken, crate::proofs::Natives::items_taken))]
fn regain<S: Slice, A: Allocator>(
    kept: Kept<S::Item, A>,
    ended: EndedLifetime,
    range: &FrozenPlaces<S::Item>,
    room: HeaderRoom<Header<Kept<S::Item, A>>>,
    head: HeadSize<Header<Kept<S::Item, A>>>,
    base: *const S::Item,
    start: usize,
    end: usize,
) -> WriterMemory<S::Item, A>
    requires kept { IsKeptFor S.DROPS range.now kept }
    requires ended { ended.lifetime ≡ range.now.memory.lifetime }
    requires room { IsRoomOf room head.size (kept_in kept).piece }
    requires place { base ≡ range.now.memory.base }
    requires range { (range.now.start ≤ start) × (start ≤ end)
        × (end ≤ range.now.start + length range.now.items) }
    ensures taken { (o : Owner) → native_over S.DROPS o result
        ≡ native_taken S.DROPS (range_seen S.DROPS o range.now) start end }
    ensures front { S.DROPS ≡ true → result.places.under.start ≡ 0 }
    ensures block { IsPiece result.source }
{
    match kept {
        Kept::Places(kept) => {
            let (part, len) = (range.part(start, end), end - start);
            unsafe { kept.regain_frozen_writer(ended, &part, room, head, base, start, len) }
        }
        Kept::Items(kept) => kept.regain(ended, room, head),
    }
}

impl<S: Slice, A: Allocator + Copy, const MAX: u64, H: Mark> NativeBlock<S, A, MAX, H> {
    /// The first owner of a new block with a copy of the items, and exactly a place for each, with
    /// a pass of the block.
    ///
    /// `MAX` is at least 2.
    ///
    /// # Errors
    ///
    /// `AllocError` where memory for the block is refused.
    ///
    /// # Allocates
    ///
    /// Once.
    pub fn try_from_slice(alloc: A, items: &[S::Item]) -> Result<(Self, Pass<H>), AllocError>
    where
        S::Item: Copy,
        requires { 2 ≤ MAX }
        ensures made { IfOk result (λ r. (r.0 ≡ made_native S.DROPS r.0.owner items.now)
            × IsFirst MAX H.whole Counted r.0.owner) }
        ensures pass { IfOk result (λ r. IsFreshPass r.0.owner r.1) }
    {
        match WriterMemory::from_slice(alloc, items) {
            Ok(memory) => {
                let (count, pass) = NativeCount::<MAX, H>::new();
                Ok((Self::of_sole(count, memory), pass))
            }
            Err(AllocError) => Err(AllocError),
        }
    }

    /// The first owner of a new block with the items of an array, and exactly a place for each,
    /// with a pass of the block.
    ///
    /// `MAX` is at least 2.
    ///
    /// # Errors
    ///
    /// The array comes back where memory for the block is refused.
    ///
    /// # Allocates
    ///
    /// Once.
    pub fn try_from_array<const N: usize>(
        alloc: A,
        array: [S::Item; N],
    ) -> Result<(Self, Pass<H>), [S::Item; N]>
        requires { 2 ≤ MAX }
        ensures made { IfOk result (λ r. (r.0 ≡ made_native S.DROPS r.0.owner array)
            × IsFirst MAX H.whole Counted r.0.owner) }
        ensures pass { IfOk result (λ r. IsFreshPass r.0.owner r.1) }
        ensures refused { IfErr result (λ back. back ≡ array) }
    {
        match WriterMemory::from_array(alloc, array) {
            Ok(memory) => {
                let (count, pass) = NativeCount::<MAX, H>::new();
                Ok((Self::of_sole(count, memory), pass))
            }
            Err(back) => Err(back),
        }
    }

    /// The same owner of the same block, whose memory is lent anew: it may be shared. It adds no
    /// entry and takes no memory.
    #[inline(always)]
    pub fn of_sole(count: NativeCount<MAX, H>, memory: WriterMemory<S::Item, A>) -> Self
        requires limited { IsLimited MAX H.whole (count_owner count) }
        requires front { S.DROPS ≡ true → memory.places.under.start ≡ 0 }
        requires block { IsPiece memory.source }
        ensures { result ≡ native_over S.DROPS (count_owner count) memory }
    {
        let (at, len) = (memory.base(), memory.len());
        let lifetime = LifetimeToken::new();
        let (part, kept, room, head) = memory.lend(&lifetime);
        let (full, behind) = part.split(len);
        behind.give_up();
        let range = full.freeze(&lifetime);
        let kept = kept_of::<S, A>(kept, &range, at, len);
        let sole = SoleBox::lay(count, room, kept);
        NativeBlock {
            base: Base { at },
            reader: FrozenReader::lend(sole, lifetime, range),
            head,
        }
    }

    /// An owner who reads a range of the block's places, in memory that begins at this base, with a
    /// header of this size in front.
    #[inline(always)]
    pub fn of_reader(
        base: Base<S::Item>,
        reader: FrozenReader<S::Item, Kept<S::Item, A>, Lodged, MAX, H>,
        head: HeadSize<Header<Kept<S::Item, A>>>,
    ) -> Self
        requires limited { IsLimited MAX H.whole (owner_in reader.owner) }
        requires base { base.at ≡ reader.range.memory.base }
        requires kept { IsKeptFor S.DROPS reader.range (value_of reader.owner) }
        requires laid { IsLaidFor (place_in reader.owner) head.size (value_of reader.owner) }
        ensures { result ≡ native_seen S.DROPS reader }
    {
        NativeBlock { base, reader, head }
    }

    /// The only owner of the same block and the block's memory, where no other owner lives, with
    /// the items in the places from `start` on and before `end`. Items in other places are
    /// forgotten, but items that are dropped one by one all stay. No item is moved. It takes no
    /// memory.
    ///
    /// # Errors
    ///
    /// The owner comes back where another one lives.
    ///
    /// # History
    ///
    /// Alone with the answer.
    #[tactic(auto, using(crate::proofs::Natives::kept_alike, crate::proofs::Natives::laid_alike, crate::proofs::Natives::laid_room))]
    pub fn try_into_sole_as(
        self,
        start: usize,
        end: usize,
        pass: &mut Pass<H>,
    ) -> Result<(NativeCount<MAX, H>, WriterMemory<S::Item, A>), Self>
        requires pass { IsPassFor self.owner pass.old }
        requires range { IsAmong self start end }
        ensures entry { Asks self.owner pass.old pass.new (is_ok result) }
        ensures sole { IfOk result (λ r. (native_over S.DROPS (count_owner r.0) r.1
            ≡ native_taken S.DROPS self start end) × IsLimited MAX H.whole (count_owner r.0)) }
        ensures front { IfOk result (λ r. S.DROPS ≡ true → r.1.places.under.start ≡ 0) }
        ensures block { IfOk result (λ r. IsPiece r.1.source) }
        ensures others { IfErr result (λ back. back ≡ self) }
    {
        let NativeBlock { base, reader, head } = self;
        match reader.try_into_sole_as(pass) {
            Ok((sole, ended, range)) => {
                let (count, room, kept) = sole.take_up();
                let memory = regain::<S, A>(kept, ended, &range, room, head, base.at, start, end);
                Ok((count, memory))
            }
            Err(reader) => Err(NativeBlock { base, reader, head }),
        }
    }

    /// The block's memory, where no other owner lives, with the items in the places from `start` on
    /// and before `end`. Items in other places are forgotten, but items that are dropped one by one
    /// all stay. It takes no memory.
    ///
    /// # Errors
    ///
    /// The owner comes back where another one lives.
    ///
    /// # History
    ///
    /// Taken: Alone with yes, then Down. Refused: Alone with no.
    #[tactic(auto, using(crate::proofs::Natives::kept_alike, crate::proofs::Natives::laid_alike, crate::proofs::Natives::laid_room))]
    pub fn try_into_memory_as(
        self,
        start: usize,
        end: usize,
        pass: &mut Pass<H>,
    ) -> Result<WriterMemory<S::Item, A>, Self>
        requires pass { IsPassFor self.owner pass.old }
        requires range { IsAmong self start end }
        ensures taken { IfOk result (λ memory. native_over S.DROPS self.owner memory
            ≡ native_taken S.DROPS self start end) }
        ensures front { IfOk result (λ memory. S.DROPS ≡ true → memory.places.under.start ≡ 0) }
        ensures block { IfOk result (λ memory. IsPiece memory.source) }
        ensures alone { IfOk result (λ _. TakesBlock self.owner pass.old pass.new) }
        ensures others { IfErr result (λ back. (back ≡ self)
            × Asks self.owner pass.old pass.new false) }
    {
        let NativeBlock { base, reader, head } = self;
        match reader.try_into_sole_as(pass) {
            Ok((sole, ended, range)) => {
                let (count, room, kept) = sole.take_up();
                count.end_as(pass);
                Ok(regain::<S, A>(kept, ended, &range, room, head, base.at, start, end))
            }
            Err(reader) => Err(NativeBlock { base, reader, head }),
        }
    }
}
