//! What the counted box of a native block holds.
ghost use Rattle.std.specs.Prelude.{◌≡◌};

use crate::head_size::HeadSize;
use crate::kept_items::KeptItems;
use crate::kept_places::KeptPlaces;
use arc_owners::lifetime::EndedLifetime;
use arc_owners::owners::{Header, HeaderRoom};
use std::alloc::Allocator;

/// The value in the counted box of a native block: what its last owner gets of the block's memory.
/// The box lies in the room for a header, in front of that memory.
///
/// Dropped, it leaks what is kept, as `KeptPlaces` does.
#[derive(Drop)]
pub enum Kept<T: Drop, A: Allocator> {
    /// Of items that need no drop: the places are lent for the lease of the block's owners.
    Places(KeptPlaces<T, A>),
    /// Of items that are dropped one by one: all that hold one are frozen as one range.
    Items(KeptItems<T, A>),
}

impl<T: Drop, A: Allocator> Kept<T, A> {
    ghost use Rattle.arc_memory.specs.KeptPlaces.{kept_in};
    ghost use Rattle.arc_memory.specs.PieceParts.{IsRoomOf};

    /// How many places the memory has that is kept.
    pub fn count(&self) -> usize
        ensures { result ≡ (kept_in self.now).inheritance.memory.whole }
    {
        match self {
            Kept::Places(kept) => kept.piece.count(),
            Kept::Items(kept) => kept.count(),
        }
    }

    /// Gives the memory back, once the lifetime has ended for which it was lent, with the room in
    /// which this lay. Items that need a drop are dropped, and others are forgotten.
    pub fn free(
        self,
        ended: EndedLifetime,
        room: HeaderRoom<Header<Kept<T, A>>>,
        head: HeadSize<Header<Kept<T, A>>>,
    )
        requires ended { (kept_in self).inheritance.memory.lifetime ≡ ended.lifetime }
        requires room { IsRoomOf room head.size (kept_in self).piece }
    {
        match self {
            Kept::Places(kept) => kept.free(ended, room, head),
            Kept::Items(kept) => drop(kept.regain(ended, room, head)),
        }
    }
}
