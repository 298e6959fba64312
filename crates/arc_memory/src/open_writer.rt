//! One of several writers while its places are out.
ghost use Rattle.std.specs.Prelude.{◌≡◌};
ghost use base.Stored.{Coded-set};
ghost use base.SetCodes.{coded_share};
ghost use Rattle.arc_owners.specs.count.LentNotes.{note_coded};
ghost use Rattle.arc_owners.specs.memory.Boxes.{lifetime_in_rest, note_in_rest, share_taken_from};
ghost use Rattle.arc_memory.specs.LeaseNotes.{note_of};

use crate::lent_places::OpenPlaces;
use crate::places::Places;
use crate::writer_part::WriterPart;
use arc_owners::mark::Mark;
use arc_owners::owners::CountedBoxWithoutLifetime;
use std::alloc::Allocator;

/// What is left of one of several writers while its places are out: an owner that makes no step,
/// whose share of the lifetime is with the places. It is neither copied nor dropped.
pub struct OpenWriter<T, V: Drop, A: Allocator + Copy, const MAX: u64, H: Mark> {
    pub rest: CountedBoxWithoutLifetime<V, A, MAX, H>,
    pub out: OpenPlaces<T>,
    ghost lent: { lifetime_in_rest rest ≡ out.memory.lifetime },
    ghost noted: { note_in_rest rest ≡ note_of out.memory } by { Coded-set note_coded _ _ },
    ghost taken: { out.share ≡ share_taken_from rest } by { Coded-set coded_share _ _ },
}

impl<T, V: Drop, A: Allocator + Copy, const MAX: u64, H: Mark> OpenWriter<T, V, A, MAX, H> {
    ghost use Rattle.arc_owners.specs.memory.Boxes.{owner_in, value_of, place_in};
    ghost use Rattle.arc_owners.specs.memory.Boxes.{owner_in_rest, value_of_rest, place_in_rest};
    ghost use Rattle.arc_memory.specs.Allocations.{IsPartOfLent};

    /// The writer again, with what lies in its places. It adds no entry, takes no memory and
    /// compiles to no instruction.
    #[inline(always)]
    pub fn close(self, places: Places<T>) -> WriterPart<T, V, A, MAX, H>
        requires memory { IsPartOfLent self.out.memory places }
        requires places { (places.start ≡ self.out.start) × (places.count ≡ self.out.count) }
        ensures owner { (owner_in result.owner ≡ owner_in_rest self.rest)
            × (value_of result.owner ≡ value_of_rest self.rest) }
        ensures place { place_in result.owner ≡ place_in_rest self.rest }
        ensures memory { result.part.memory ≡ self.out.memory }
        ensures part { (result.part.start ≡ self.out.start)
            × (result.part.count ≡ self.out.count) × (result.part.items ≡ places.items) }
    {
        let OpenWriter { rest, out } = self;
        let (part, share) = out.close(places);
        WriterPart {
            owner: rest.with_lifetime(share),
            part,
        }
    }
}
